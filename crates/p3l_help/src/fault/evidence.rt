// Pages of refusals: certificates and images.

use crate::page::Page;

/// A page for each of the numbers 70 to 92.
pub(crate) const EVIDENCE: &[Page] = &[
    Page {
        topic: "70",
        text: "70 RowWrong

A row of a certificate keeps another number than its rule finds from the rows
below it. The line has the row, counted from 0, what it keeps and what is found.

    $ echo 'seq main in(int x) out(int y) ${ y = x; }$ end seq' >a.p3l
    $ p3l explain a.p3l --processors 4 --cert a.cert >counts.txt
    $ sed -i 's/^row 0 121 4 .*/row 0 121 4 3/' a.cert
    $ p3l verify-cert a.p3l --cert a.cert
    evidence: 70 RowWrong 0: 3 is not 5

To mend it: make the certificate anew by `p3l explain --cert`. One for other
costs is refused too: name the same `--costs`.
",
    },
    Page {
        topic: "71",
        text: "71 RowMissing

A certificate lacks a row that another row, or its claim, needs. The line has
the row that needs it, counted from 0, and the node, bound and cap of the row
that is not there.

    $ echo 'seq main in(int x) out(int y) ${ y = x; }$ end seq' >a.p3l
    $ p3l explain a.p3l --processors 4 --cert a.cert >counts.txt
    $ sed -i '/^row/d' a.cert; p3l verify-cert a.p3l --cert a.cert
    evidence: 71 RowMissing 0: 0 122 4

To mend it: make the certificate anew by `p3l explain --cert`, for the same
program and the same costs.
",
    },
    Page {
        topic: "72",
        text: "72 ClaimWrong

What a certificate claims does not hold: its counts aren't lawful for the
program (Counts), their service time or processes are other ones (Service,
Used), they need more than its processors (Fits), or its rows don't show that
none are better (Least).

    $ echo 'seq main in(int x) out(int y) ${ y = x; }$ end seq' >a.p3l
    $ p3l explain a.p3l --processors 4 --cert a.cert >counts.txt
    $ sed -i 's/^service .*/service 1/' a.cert
    $ p3l verify-cert a.p3l --cert a.cert
    evidence: 72 ClaimWrong Service

To mend it: name the program and the `--costs` that the certificate was made
for, or make it anew.
",
    },
    Page {
        topic: "73",
        text: "73 BadText

The first line, counted from 1, at which a certificate is not of its form.
`docs/FORMATS.md` has the form.

    $ echo 'seq main in(int x) out(int y) ${ y = x; }$ end seq' >a.p3l
    $ echo 'p3l-cert 2' >a.cert; p3l verify-cert a.p3l --cert a.cert
    evidence: 73 BadText 1

To mend it: make it anew; an editor that changes line ends or blanks spoils it.
",
    },
    Page {
        topic: "80",
        text: "80 BadMagic

The file is no image: it begins with other bytes than `P3LI`.

    $ echo 'seq main in(int x) out(int y) ${ y = x; }$ end seq' >a.p3l
    $ p3l exec a.p3l </dev/null
    evidence: 80 BadMagic

To mend it: `exec` takes what `p3l compile --output` wrote; a program's text is
run by `p3l run`.
",
    },
    Page {
        topic: "81",
        text: "81 Version

The image has another version than this program reads. The line has it.

    $ printf 'P3LI\\0\\0\\0\\7' >a.img; p3l exec a.img </dev/null
    evidence: 81 Version 7

To mend it: compile the program anew with this `p3l`.
",
    },
    Page {
        topic: "82",
        text: "82 Short

The image ends within a field. The place is the number of bytes before that
field.

    $ printf 'P3LI\\0\\0' >a.img; p3l exec a.img </dev/null
    evidence: 82 Short 4

To mend it: the file was cut off. Copy it again, or compile the program anew.
",
    },
    Page {
        topic: "83",
        text: "83 BadField

A number of the image is out of its range, or a name in it is none. The place is
the number of bytes before the field.

    $ printf 'P3LI\\0\\0\\0\\1\\0\\0\\0\\0' >a.img; p3l exec a.img </dev/null
    evidence: 83 BadField 8

To mend it: compile the program anew. `docs/FORMATS.md` has the fields; that at
byte 8 is the capacity.
",
    },
    Page {
        topic: "84",
        text: "84 TrailingBytes

Bytes stand after the end of the image, from this place on.

    $ echo 'seq main in(int x) out(int y) ${ y = x; }$ end seq' >a.p3l
    $ p3l compile a.p3l --processors 4 --output a.img; echo >>a.img
    $ p3l exec a.img </dev/null
    evidence: 84 TrailingBytes 173

To mend it: copy the file as bytes, not as text.
",
    },
    Page {
        topic: "90",
        text: "90 CodeUnsafe

The code of a body, counted from 0, is not safe: it might jump out of itself,
reach past its memory, or take more from its stack than is there. No code that
`compile` writes is.

    $ echo 'seq main in(int x) out(int y) ${ y = x; }$ end seq' >a.p3l
    $ p3l compile a.p3l --processors 4 --output a.img
    $ printf '\\11' | dd of=a.img bs=1 seek=79 conv=notrunc status=none
    $ p3l exec a.img </dev/null
    evidence: 90 CodeUnsafe 0

To mend it: the image was changed by hand or damaged. Compile the program anew.
",
    },
    Page {
        topic: "91",
        text: "91 NotLinked

The network in the image is not the one of its tree, its counts and its
capacity.

    $ echo 'seq main in(int x) out(int y) ${ y = x; }$ end seq' >a.p3l
    $ p3l compile a.p3l --processors 4 --output a.img
    $ printf '\\2' | dd of=a.img bs=1 seek=11 conv=notrunc status=none
    $ p3l exec a.img </dev/null
    evidence: 91 NotLinked

To mend it: the image was changed by hand or damaged. Compile the program anew.
",
    },
    Page {
        topic: "92",
        text: "92 TreeWrong

The tree of the image or its worker counts break a rule, it comes to more than
4,096 processes, or its codes are not one for each `seq` module with the words
of its nodes.

    $ echo 'seq main in(int x) out(int y) ${ y = x; }$ end seq' >a.p3l
    $ p3l compile a.p3l --processors 4 --output a.img
    $ printf '\\2' | dd of=a.img bs=1 seek=37 conv=notrunc status=none
    $ p3l exec a.img </dev/null
    evidence: 92 TreeWrong

To mend it: the image was changed by hand or damaged. Compile the program anew.
",
    },
];
