// Pages of refusals: texts, their tokens and their grammar.

use crate::page::Page;

/// A page for each of the numbers 1 to 12.
pub(crate) const TEXTS: &[Page] = &[
    Page {
        topic: "1",
        text: "1 BadByte

A byte outside comments begins no word, number or mark of the language, and is
no blank. Letters, digits and `_` make names and numbers; quotes, `@`, `#`, `?`,
`:`, `.`, a backslash, and every byte outside ASCII stand in comments alone.

    $ echo 'seq @' >a.p3l; p3l fmt a.p3l
    source: 1:5: 1 BadByte

To mend it: take the byte out, or put it into a comment, `/* .. */` or `// ..`.

This is the refusal 1. What the status 1 means, `p3l help status` says.
",
    },
    Page {
        topic: "2",
        text: "2 BadToken

A number runs into letters or begins with a needless 0, as `1x`, `007` or
`0x10`; or a `$` stands alone; or a comment that begins with `/*` is never
closed, which is reported where it begins.

    $ echo 'const K = 007;' >a.p3l; p3l fmt a.p3l
    source: 1:11: 2 BadToken

To mend it: write numbers in decimal without leading zeros, begin names with a
letter or `_`, and close the comment.

This is the refusal 2. What the status 2 means, `p3l help status` says.
",
    },
    Page {
        topic: "3",
        text: "3 Expected

No program goes on with this token; or the text ends too early, which is
reported at the place after its last byte. All before that place begins some
program. `p3l help language` has the grammar.

    $ echo 'const K 1;' >a.p3l; p3l fmt a.p3l
    source: 1:9: 3 Expected

To mend it: look left of the place for what is missing there, as `=`, `;`, `end
seq` or a list of ports. A name that is a word of the language, as `in` or
`loop`, is Expected too: take another name.

This is the refusal 3. What the status 3 means, `p3l help status` says.
",
    },
    Page {
        topic: "4",
        text: "4 NumberTooBig

A number is above 9223372036854775807, the greatest word of 64 bits.

    $ echo 'const K = 9223372036854775808;' >a.p3l; p3l fmt a.p3l
    source: 1:11: 4 NumberTooBig

To mend it: write a smaller number. The least word, -9223372036854775808, is `1
<< 63` in a body.

This is the refusal 4. What the status 4 means, `p3l help status` says.
",
    },
    Page {
        topic: "5",
        text: "5 NameTooLong

A name has more than 64 bytes.

    $ echo \"const $(printf 'a%.0s' $(seq 65)) = 1;\" >a.p3l; p3l fmt a.p3l
    source: 1:7: 5 NameTooLong

To mend it: take a shorter name.

This is the refusal 5. What the status 5 means, `p3l help status` says.
",
    },
    Page {
        topic: "6",
        text: "6 SourceTooLong

The text has more than 1,048,576 bytes. A file that is longer is not even read,
and reported as `file too long`.

    $ head -c 1048577 /dev/zero >a.p3l; p3l fmt a.p3l
    file too long: a.p3l

To mend it: a program has at most 128 instances, so such a text has something
that no instance needs.

This is the refusal 6. What the status 6 means, `p3l help status` says.
",
    },
    Page {
        topic: "8",
        text: "8 TooNested

In a body, a 65th bracket `(`, `[` or `{` is open at once, or an expression has
a 257th operator. The first such place is reported.

    $ z() { printf \"$1%.0s\" $(seq $2); }
    $ echo \"seq main in(int x) out(int y) \\${ y = $(z '(' 65)x$(z ')' 65);
    > }\\$ end seq\" >a.p3l
    $ p3l fmt a.p3l
    source: 1:102: 8 TooNested

To mend it: give a part of the expression a local variable of its own, or a part
of the body a module of its own.

This is the refusal 8. What the status 8 means, `p3l help status` says.
",
    },
    Page {
        topic: "10",
        text: "10 UnknownName

A call names no module, or a size or a clause names no constant. A constant
stands before the entry that names it.

    $ echo 'seq main in(int a[N]) out(int y) ${ y = a[0]; }$ end seq' >a.p3l
    $ p3l check a.p3l
    source: 1:19: 10 UnknownName

To mend it: write `const N = 4;` above, or mend the name's letters. Case counts.

This is the refusal 10. What the status 10 means, `p3l help status` says.
",
    },
    Page {
        topic: "11",
        text: "11 BadSize

A size in brackets is 0 or above 65,536, or it is the fourth of one port: arrays
have at most three.

    $ echo 'seq main in(int a[0]) out(int y) ${ y = 1; }$ end seq' >a.p3l
    $ p3l check a.p3l
    source: 1:19: 11 BadSize

To mend it: give each size as 1 to 65,536. Four indices fit into three sizes as
`a[i][j][k * 5 + l]`.

This is the refusal 11. What the status 11 means, `p3l help status` says.
",
    },
    Page {
        topic: "12",
        text: "12 TooWide

A port, all ins, all outs, or all local variables of a body come to more than
65,536 words. The place is that of the port that passes the limit.

    $ echo 'seq main in(int a[256][257]) out(int y)
    > ${ y = 1; }$ end seq' >a.p3l
    $ p3l check a.p3l
    source: 1:17: 12 TooWide

To mend it: send less in one item, and let more items carry it.

This is the refusal 12. What the status 12 means, `p3l help status` says.
",
    },
];
