// Pages of refusals: bodies, and sheets of costs.

use crate::page::Page;

/// A page for each of the numbers 40 to 53.
pub(crate) const SHEETS: &[Page] = &[
    Page {
        topic: "40",
        text: "40 Undeclared

A name in a body is no port of its module, no local variable and no constant
above.

    $ echo 'seq main in(int x) out(int y) ${ y = z; }$ end seq' >a.p3l
    $ p3l check a.p3l
    source: 1:38: 40 Undeclared

To mend it: declare it at the start of the body: `int z;`.
",
    },
    Page {
        topic: "41",
        text: "41 DeclaredTwice

The name of a local variable is that of another one, of a port of the module, or
of a constant.

    $ echo 'seq main in(int x) out(int y) ${ int x; y = x; }$ end seq' >a.p3l
    $ p3l check a.p3l
    source: 1:38: 41 DeclaredTwice

To mend it: rename the variable.
",
    },
    Page {
        topic: "42",
        text: "42 NotArray

A name with brackets is a single word: a port or variable without sizes, or a
constant.

    $ echo 'seq main in(int x) out(int y) ${ y[0] = x; }$ end seq' >a.p3l
    $ p3l check a.p3l
    source: 1:34: 42 NotArray

To mend it: take the brackets out, or give the port its size, `out(int y[1])`.
",
    },
    Page {
        topic: "43",
        text: "43 IsArray

An array stands with fewer or more brackets than it has sizes. A body has no
arrays as values: it reads and writes their words.

    $ echo 'seq main in(int a[3]) out(int y) ${ y = a; }$ end seq' >a.p3l
    $ p3l check a.p3l
    source: 1:41: 43 IsArray

To mend it: give an index for each size; copy an array by a `for` over its
words.
",
    },
    Page {
        topic: "44",
        text: "44 WriteToIn

A body assigns to an in port or a constant. Ports that come in are read alone.

    $ echo 'seq main in(int x) out(int y) ${ x = 1; }$ end seq' >a.p3l
    $ p3l check a.p3l
    source: 1:34: 44 WriteToIn

To mend it: copy it to a local variable first: `int n; n = x;`.
",
    },
    Page {
        topic: "50",
        text: "50 NotToml

The file of costs is no TOML document in UTF-8. A key that is given twice, a
number with a leading zero, and one of more than 64 bits are none either.

    $ echo 'seq main in(int x) out(int y) ${ y = x; }$ end seq' >a.p3l
    $ echo 'setup' >a.toml; p3l explain a.p3l --processors 4 --costs a.toml
    costs: 50 NotToml

To mend it: a file of costs has lines as `setup = 10`, then the tables `[seq]`
and `[turns]` with `name = number`.
",
    },
    Page {
        topic: "51",
        text: "51 BadKey

A key of the file of costs is none of `setup`, `word`, `default`, `seq` and
`turns`; or an entry of `seq` names no `seq` module, one of `turns` no `loop`
module.

    $ echo 'seq main in(int x) out(int y) ${ y = x; }$ end seq' >a.p3l
    $ echo 'ticks = 5' >a.toml
    $ p3l explain a.p3l --processors 4 --costs a.toml
    costs: 51 BadKey ticks

To mend it: write the module's name as the program has it. Farms, maps and pipes
have no ticks of their own.
",
    },
    Page {
        topic: "52",
        text: "52 BadValue

A number of the file of costs is not whole, below 0 or above 1,000,000; one of
`turns` is below 1 or above the loop's clause; or `seq` or `turns` is no table.

    $ echo 'seq main in(int x) out(int y) ${ y = x; }$ end seq' >a.p3l
    $ printf '[seq]\\nmain = 1.5\\n' >a.toml
    $ p3l explain a.p3l --processors 4 --costs a.toml
    costs: 52 BadValue seq.main

To mend it: count in smaller ticks, so that all numbers are whole.
",
    },
    Page {
        topic: "53",
        text: "53 Missing

A `seq` module of the program has no entry in the table `seq`, and the file
gives no `default`.

    $ echo 'seq main in(int x) out(int y) ${ y = x; }$ end seq' >a.p3l
    $ echo 'setup = 10' >a.toml
    $ p3l explain a.p3l --processors 4 --costs a.toml
    costs: 53 Missing main

To mend it: add `main = 100` under `[seq]`, or a line `default = 100` at the
top.
",
    },
];
