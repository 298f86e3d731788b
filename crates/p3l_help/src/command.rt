// The pages of commands.

use crate::page::Page;

/// A page for each command, by its first word.
pub(crate) const COMMANDS: &[Page] = &[
    Page {
        topic: "run",
        text: "usage: p3l run PROGRAM --processors P [--costs FILE] [--schedule S]
               [--capacity C] [--trace FILE] [--stats]

Reads items from the standard input, one a line, and writes one line for each
result. One thread runs: the number of processors chooses the worker counts, and
does not make the run faster.

  PROGRAM          the file of the program
  --processors P   how many processors there are, 1 to 512
  --costs FILE     the costs by which worker counts are chosen; without them the
                   standard costs
  --schedule S     how processes take turns: rr (the default), seed:N or
                   file:NAME
  --capacity C     how many tokens a channel holds at most, 1 to 1,024 (4 if not
                   given)
  --trace FILE     where to write the trace of the run, when it has ended
  --stats          put a line on the run's numbers on the standard error

example: p3l run m.p3l --processors 16 --schedule seed:7 < items
",
    },
    Page {
        topic: "compile",
        text: "usage: p3l compile PROGRAM --processors P --output FILE [--costs FILE]
                   [--capacity C]

Writes the image of a program to a file: its tree, the worker counts that are
chosen, the codes of its bodies and its network. What runs it needs neither the
program nor its costs.

  PROGRAM          the file of the program
  --processors P   how many processors there are, 1 to 512
  --output FILE    where to write the image
  --costs FILE     the costs by which worker counts are chosen; without them the
                   standard costs
  --capacity C     how many tokens a channel holds at most, 1 to 1,024 (4 if not
                   given)

example: p3l compile m.p3l --processors 16 --output m.img
",
    },
    Page {
        topic: "exec",
        text: "usage: p3l exec IMAGE [--schedule S] [--trace FILE] [--stats]

Reads items from the standard input, one a line, and writes one line for each
result, as the program does that the image was compiled from. An image that is
not lawful, safe and linked is refused.

  IMAGE            the file of the image
  --schedule S     how processes take turns: rr (the default), seed:N or
                   file:NAME
  --trace FILE     where to write the trace of the run, when it has ended
  --stats          put a line on the run's numbers on the standard error

example: p3l exec m.img --schedule seed:7 < items
",
    },
    Page {
        topic: "migrate",
        text: "usage: p3l migrate IMAGE --output FILE

Reads an image of any version, relinks its network from its tree and its counts,
and writes the image in the newest version to a file. An image whose tree or
codes can't be run is refused, and no file is written. The new image may be
longer than the old one: one of more than 67,108,864 bytes is written, but
`exec` refuses it (status 9).

  IMAGE            the file of the image
  --output FILE    where to write the image

example: p3l migrate old.img --output new.img
",
    },
    Page {
        topic: "export",
        text: "usage: p3l export PROGRAM --processors P --output FILE [--costs FILE]
                  [--capacity C]

Writes a program as one C11 file that needs no other: its functions are the
bodies, and its tables are the network under the worker counts that are chosen.
Compiled, it reads items from the standard input, writes what run writes, and
ends as run does, on one processor, on several or on several machines:

    cc -O2 m.c -o m
    ./m < items                              one processor
    ./m --ranks 4 < items                    four processes of this machine
    mpicc -O2 -DP3L_MPI m.c -o m
    ./m --ranks 16 [--hosts FILE] < items    sixteen processes of MPI

Nothing is written to the standard output. Results do not depend on the number
of ranks.

  PROGRAM          the file of the program
  --processors P   how many processors there are, 1 to 512
  --output FILE    where to write the C file
  --costs FILE     the costs by which worker counts and capacities are chosen;
                   without them the standard costs
  --capacity C     how many tokens a channel holds at most, 1 to 1,024; if not
                   given, it is chosen for each channel by the costs

example: p3l export m.p3l --processors 16 --output m.c
",
    },
    Page {
        topic: "explain",
        text: "usage: p3l explain PROGRAM --processors P [--costs FILE] [--cert FILE]

Writes the worker counts that are chosen for a program, with the processes and
the service time of the whole and of each part.

  PROGRAM          the file of the program
  --processors P   how many processors there are, 1 to 512
  --costs FILE     the costs of its modules; without them the standard costs
  --cert FILE      where to write a certificate that no other counts are better

example: p3l explain m.p3l --processors 16 --cert m.cert
",
    },
    Page {
        topic: "advise",
        text: "usage: p3l advise PROGRAM [--processors P] [--costs FILE] [--processes]

Says what processors buy. For each number of them at which the best service time
falls there is a line with that time and the speed-up over the fewest that fit.
Then comes the tree with the counts that are chosen for the last of them, the
bottleneck marked, and then what would help.

  PROGRAM          the file of the program
  --processors P   the most processors there may be, 1 to 512 (512 if not given)
  --costs FILE     the costs of its modules; without them the standard costs
  --processes      write in place of this which processes each node has: the
                   numbers that graph, time and traces name

example: p3l advise m.p3l --costs m.toml
",
    },
    Page {
        topic: "graph",
        text: "usage: p3l graph PROGRAM --processors P [--costs FILE] [--capacity C]

Writes the network that run would run, as a text in the DOT language: a box for
each process with its number, what it does and its module, an arrow for each
channel with its capacity, and a frame round the processes of each skeleton.

  PROGRAM          the file of the program
  --processors P   how many processors there are, 1 to 512
  --costs FILE     the costs by which worker counts are chosen; without them the
                   standard costs
  --capacity C     how many tokens a channel holds at most, 1 to 1,024 (4 if not
                   given)

example: p3l graph m.p3l --processors 16 | dot -Tsvg > m.svg
",
    },
    Page {
        topic: "verify-cert",
        text: "usage: p3l verify-cert PROGRAM --cert FILE [--costs FILE]

Checks a certificate that worker counts of a program are the best for some
processors, whoever wrote it, and writes what the counts come to.

  PROGRAM          the file of the program
  --cert FILE      the file of the certificate
  --costs FILE     the costs of its modules; without them the standard costs

example: p3l verify-cert m.p3l --cert m.cert
",
    },
    Page {
        topic: "check-trace",
        text: "usage: p3l check-trace PROGRAM --processors P --trace FILE [--costs FILE]
                       [--capacity C]

Says whether a trace is that of a run of the program on the items of the
standard input, or tells the first line that differs; the trace of `p3l run
--trace` under the same picks shows what is due there.

  PROGRAM          the file of the program
  --processors P   how many processors there are, 1 to 512
  --trace FILE     the trace: which process each pick took, and what it did
  --costs FILE     the costs by which worker counts are chosen; without them the
                   standard costs
  --capacity C     how many tokens a channel holds at most, 1 to 1,024 (4 if not
                   given)

example: p3l check-trace m.p3l --processors 16 --trace m.trace < items
",
    },
    Page {
        topic: "check",
        text: "usage: p3l check PROGRAM

Says whether a program keeps the rules of the language, how many modules it has,
and how many instances of them its module `main` comes to, with itself.

  PROGRAM          the file of the program

example: p3l check m.p3l
",
    },
    Page {
        topic: "fmt",
        text: "usage: p3l fmt PROGRAM

Writes the canonical text of a program to the standard output. Comments are
dropped: don't write the text over a source whose comments you want to keep.

  PROGRAM          the file of the program

example: p3l fmt m.p3l
",
    },
    Page {
        topic: "gen",
        text: "usage: p3l gen N --processors P [--items I] [--schedule S] [--save PREFIX]

Generates a program, its costs and a stream of items by a number, runs the
program on the items in memory, and writes one line on the run: its numbers, the
service time and the processes of the worker counts that are chosen, and the sum
of all words that came out, which wraps at 64 bits.

  N                the number, 0 to 4,294,967,295
  --processors P   how many processors there are, 1 to 512
  --items I        how many items, 1 to 100,000 (1,000 if not given)
  --schedule S     how processes take turns: rr (the default) or seed:N
  --save PREFIX    first write the three texts to PREFIX.p3l, PREFIX.toml and
                   PREFIX.txt

example: p3l gen 7 --processors 16 --save seven
",
    },
    Page {
        topic: "rewrite",
        text: "usage: p3l rewrite PROGRAM --processors P [--costs FILE]

Writes a program that means the same and whose service time is no greater, in
its canonical text, without comments. Where main is a pipe, its stages without
farms, pipes and loops may each get a farm, or all of them become one comp in a
farm, if such a program takes less time for an item on so many processors; else
the program itself is written.

  PROGRAM          the file of the program
  --processors P   how many processors there are, 1 to 512
  --costs FILE     the costs by which programs are compared; without them the
                   standard costs

example: p3l rewrite m.p3l --processors 16 > faster.p3l
",
    },
    Page {
        topic: "profile",
        text: "usage: p3l profile PROGRAM

Computes what the program makes of the items of the standard input, and writes
the costs of its modules as these items show them to the standard output: of
each body the most instructions of a run, of each loop the most turns for an
item. Nothing is written where an item comes to a trap, or a line is no item.

  PROGRAM          the file of the program

example: p3l profile m.p3l < sample > m.toml
",
    },
    Page {
        topic: "time",
        text: "usage: p3l time PROGRAM --processors P [--costs FILE] [--capacity C]
                [--picks FILE]

Runs a program on the standard input in virtual time, and writes its items as
run does. Each process takes as long for a firing as the costs say, in ticks,
and all processes work side by side: the one that is done first fires first. At
the end one line on the standard error says how many items there were and how
often processes fired, the tick of the last firing, and the process that was
busy longest with how long it was. No time is measured: the same words and items
give the same line.

  PROGRAM          the file of the program
  --processors P   how many processors there are, 1 to 512
  --costs FILE     the costs of modules and words, in ticks; without them the
                   standard costs
  --capacity C     how many tokens a channel holds at most, 1 to 1,024 (4 if not
                   given)
  --picks FILE     write there in what order processes fired, for run --schedule
                   file:FILE

example: p3l time m.p3l --processors 16 --costs m.toml <in.txt
",
    },
    Page {
        topic: "scan",
        text: "usage: p3l scan PROGRAM --segments M [--schedule S] [--capacity C] [--stats]

Reads items from the standard input, one a line, and writes for each the fold
of every prefix of its list: where the program's module `main` is a reduce by
addition, the running totals. The list is cut into segments, each is scanned by
one process, and neighbours are then merged two by two. What is written does not
depend on how many segments there are; main's `workers` clause is not used.

  PROGRAM          the file of the program
  --segments M     how many segments: 1, 2, 4, .. 512, which must divide the
                   length of the list
  --schedule S     how processes take turns: rr (the default), seed:N or
                   file:NAME
  --capacity C     how many tokens a channel holds at most, 1 to 1,024 (4 if not
                   given)
  --stats          put a line on the run's numbers on the standard error

example: p3l scan m.p3l --segments 4 < items
",
    },
    Page {
        topic: "save",
        text: "usage: p3l save PROGRAM --processors P --schedule file:NAME --output FILE
                [--costs FILE] [--capacity C]

Runs the picks of a file on the standard input, writes the results as run does,
and then writes what is still in the network to a file, with the image of the
program: resume goes on from there. It ends when the picks or the items are
ended; picks that are left over aren't used. One line on the standard error says
how many items the network took and how many picks were used: resume is given
the items after these. Where a line is no item, or an item comes to a trap, no
file is written.

  PROGRAM          the file of the program
  --processors P   how many processors there are, 1 to 512
  --schedule S     file:NAME, the file of the picks, as time --picks writes it
  --output FILE    where to write the snapshot
  --costs FILE     the costs by which worker counts are chosen; without them the
                   standard costs
  --capacity C     how many tokens a channel holds at most, 1 to 1,024 (4 if not
                   given)

example: p3l save m.p3l --processors 16 --schedule file:m.picks \\
         --output m.shot < items
",
    },
    Page {
        topic: "resume",
        text: "usage: p3l resume SNAPSHOT [--schedule S] [--stats]

Continues from the snapshot that save wrote: reads further items from the
standard input, one a line, and writes one line for each result that was still
to come, and for each further item. Both parts together are what one run writes.
Items are counted from the first item of save. A file that is no snapshot is
refused, and so is one whose tokens can't be those of a run of its network.

  SNAPSHOT         the file that save wrote
  --schedule S     how processes take turns from there: rr (the default), seed:N
                   or file:NAME
  --stats          put a line on the run's numbers on the standard error

example: p3l resume m.shot --schedule seed:7 < further
",
    },
];
