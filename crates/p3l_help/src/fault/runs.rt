// Pages of refusals: picks, items, traces, scans and snapshots.

use crate::page::Page;

/// A page for each of the numbers 95 to 131.
pub(crate) const RUNS: &[Page] = &[
    Page {
        topic: "95",
        text: "95 BadPick

A word of the file of picks is no number: digits without a sign, up to
18446744073709551615. The line counts from 1.

    $ echo 'seq main in(int x) out(int y) ${ y = x; }$ end seq' >a.p3l
    $ echo '0 2 one' >picks
    $ echo 5 | p3l run a.p3l --processors 4 --schedule file:picks
    schedule: line 1: 95 BadPick

To mend it: separate the numbers by blanks. The first words of a trace's lines
are such picks: `sed '1d;$d' a.trace | cut -d' ' -f1`.
",
    },
    Page {
        topic: "96",
        text: "96 NoSuchProcess

A pick is the number of no process of the network. The line has the pick and how
many processes there are; they count from 0.

    $ echo 'seq main in(int x) out(int y) ${ y = x; }$ end seq' >a.p3l
    $ echo '0 2 9' >picks
    $ echo 5 | p3l run a.p3l --processors 4 --schedule file:picks
    schedule: line 1: 96 NoSuchProcess 9 of 3

To mend it: picks belong to one program with one number of processors and one
file of costs; record them anew.
",
    },
    Page {
        topic: "100",
        text: "100 BadWord

A line of the input has a word that is no number: an optional `-` and digits.
Lines count from 1, and empty ones count too.

    $ echo 'seq main in(int x) out(int y) ${ y = x; }$ end seq' >a.p3l
    $ printf '1\\nx\\n' | p3l run a.p3l --processors 4
    1
    stream: line 2: 100 BadWord

To mend it: separate numbers by spaces or tabs, and drop signs `+`, commas and
headings: `grep -v '[^-0-9[:blank:]]'` drops such lines.
",
    },
    Page {
        topic: "101",
        text: "101 WrongCount

A line of the input has numbers, but not as many as an item has words, which is
the sum of the words of `main`'s ins. The last number is how many the line has.

    $ echo 'seq main in(int a[3]) out(int y) ${ y = a[0]; }$ end seq' >a.p3l
    $ echo '1 2' | p3l run a.p3l --processors 4
    stream: line 1: 101 WrongCount 2

To mend it: one item is one line, an array's words in row order, the ports one
after another. `xargs -n 3` makes lines of three words.
",
    },
    Page {
        topic: "102",
        text: "102 OutOfRange

A line of the input has a number outside -9223372036854775808 to
9223372036854775807.

    $ echo 'seq main in(int x) out(int y) ${ y = x; }$ end seq' >a.p3l
    $ echo '9223372036854775808' | p3l run a.p3l --processors 4
    stream: line 1: 102 OutOfRange

To mend it: split such a number into several words.
",
    },
    Page {
        topic: "110",
        text: "110 BadLine

The first line, counted from 1, at which a trace is not of its form: `p3l-trace
1`, then lines as `2 run` or `1 idle`, then `end FIRED IDLE`.

    $ echo 'seq main in(int x) out(int y) ${ y = x; }$ end seq' >a.p3l
    $ echo 'p3l-trace 2' >a.trace
    $ echo 5 | p3l check-trace a.p3l --processors 4 --trace a.trace
    evidence: 110 BadLine 1

To mend it: record the trace anew by `p3l run --trace`.
",
    },
    Page {
        topic: "111",
        text: "111 Differs

A line of a trace says other than the run does on this input: another process
fires, or it fires otherwise, or the counts of the last line are others. All
lines before it agree.

    $ echo 'seq main in(int x) out(int y) ${ y = x; }$ end seq' >a.p3l
    $ echo 5 | p3l run a.p3l --processors 4 --trace a.trace
    5
    $ sed -i 's/^2 run/2 idle/' a.trace
    $ echo 5 | p3l check-trace a.p3l --processors 4 --trace a.trace
    evidence: 111 Differs 3

To mend it: name the same program, processors, costs and capacity, and give the
same input, as the run had.
",
    },
    Page {
        topic: "120",
        text: "120 NotReduce

The module `main` of a program that is to be scanned is no reduce.

    $ echo 'seq main in(int x) out(int y) ${ y = x; }$ end seq' >a.p3l
    $ echo 5 | p3l scan a.p3l --segments 1
    scan: 120 NotReduce

To mend it: let `main` be a reduce of the list, and write what else is to be
done with its items as another program.
",
    },
    Page {
        topic: "121",
        text: "121 BadSegments

The segments are no power of two, or don't divide the length of the list that
`main` folds. This one has six elements, so 1 and 2 segments do.

    $ echo 'seq add in(int x, int y) out(int z) ${ z = x + y; }$ end seq
    > reduce main in(int a[6]) out(int s) add in(a[*i]) out(s)
    > end reduce' >a.p3l
    $ echo 1 2 3 4 5 6 | p3l scan a.p3l --segments 4
    scan: 121 BadSegments

To mend it: give such a number of segments, or a longer list.
",
    },
    Page {
        topic: "130",
        text: "130 BadShot

The file is no snapshot: a field of it isn't whole or is out of its range, or
bytes stand after its end. The place is the number of bytes before that field,
or before the first byte too many.

    $ echo 'seq main in(int x) out(int y) ${ y = x; }$ end seq' >a.p3l
    $ p3l resume a.p3l </dev/null
    evidence: 130 BadShot 0

To mend it: `resume` takes what `p3l save --output` wrote. Copy the file again,
as bytes, or save anew. `docs/FORMATS.md` has the fields.
",
    },
    Page {
        topic: "131",
        text: "131 NotSound

No run of the network in the snapshot can be in the state that the snapshot has:
here two items were sent, and one token is all that is there of them.

    $ echo 'seq main in(int x) out(int y) ${ y = x; }$ end seq' >a.p3l
    $ echo 0 >picks
    $ echo 5 | p3l save a.p3l --processors 4 --schedule file:picks \\
    > --output a.shot
    saved: items 1, picks 1
    $ printf '\\2' | dd of=a.shot bs=1 seek=15 conv=notrunc status=none
    $ p3l resume a.shot </dev/null
    evidence: 131 NotSound

To mend it: the snapshot was changed by hand or damaged. Save anew.
",
    },
];
