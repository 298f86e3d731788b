// Pages of refusals: modules, and how they are put together.

use crate::page::Page;

/// A page for each of the numbers 20 to 33.
pub(crate) const MODULES: &[Page] = &[
    Page {
        topic: "20",
        text: "20 Twice

A name is taken: by another entry, by another port of the module, or by a
constant. New ports that calls of a `pipe` or `comp` name count for the whole
module.

    $ echo 'seq main in(int x, int x) out(int y) ${ y = x; }$ end seq' >a.p3l
    $ p3l check a.p3l
    source: 1:24: 20 Twice

To mend it: rename one of the two.
",
    },
    Page {
        topic: "21",
        text: "21 NoMain

No module is called `main`. The place is the end of the text.

    $ echo 'const N = 4;' >a.p3l; p3l check a.p3l
    source: 2:1: 21 NoMain

To mend it: call the module `main` that takes the items of the stream.
",
    },
    Page {
        topic: "22",
        text: "22 UsedBeforeDefined

A call names this very module, or an entry that stands further down. So no
module calls itself, not even through others.

    $ echo 'pipe main in(int x) out(int y) one in(x) out(y) end pipe
    > seq one in(int x) out(int y) ${ y = x; }$ end seq' >a.p3l
    $ p3l check a.p3l
    source: 1:32: 22 UsedBeforeDefined

To mend it: put the callee above its callers. In place of a recursion write a
`loop`, or a `while` in a body.
",
    },
    Page {
        topic: "23",
        text: "23 Arity

A call has too many or too few arguments: as many ins and outs as the callee has
ports, and one of each in a `reduce`.

    $ echo 'seq one in(int x) out(int y) ${ y = x; }$ end seq
    > farm main in(int x) out(int y) one in(x, x) out(y) end farm' >a.p3l
    $ p3l check a.p3l
    source: 2:32: 23 Arity

To mend it: `p3l fmt` shows each module's ports on its first line; give one
argument for each.
",
    },
    Page {
        topic: "24",
        text: "24 TypeDiffers

An argument has other sizes than the callee's port at its place. In a `map` and
a `reduce` the sizes that count are those which empty brackets leave: of
`a[*i][]` with `int a[3][5]` that is `[5]`.

    $ echo 'seq one in(int x) out(int y) ${ y = x; }$ end seq
    > farm main in(int x[3]) out(int y) one in(x) out(y) end farm' >a.p3l
    $ p3l check a.p3l
    source: 2:42: 24 TypeDiffers

To mend it: give the port the callee's sizes, or wire the elements by a `map`:
`one in(x[*i]) out(y[*i])`.
",
    },
    Page {
        topic: "25",
        text: "25 Wiring

An argument is not the one that the skeleton takes at its place. A `farm` and
the body of a `loop` take the module's ins in order and give its outs in order.
In a `pipe` and a `comp` the first call takes the module's ins, each later one
the outs of the call before, and the last gives the module's outs; the outs of
all others are new ports, `out(int z)`. Names that are left over are reported at
the call's name.

    $ echo 'seq one in(int x) out(int y) ${ y = x; }$ end seq
    > farm main in(int x) out(int y) one in(y) out(y) end farm' >a.p3l
    $ p3l check a.p3l
    source: 2:39: 25 Wiring

To mend it: write the names in that order, all of them. Where a later stage
needs a word, each stage before it hands it on.
",
    },
    Page {
        topic: "26",
        text: "26 FreeIndex

The free indices of a `map` or `reduce`, those with a star, don't fit. A `map`
has one or two, each out has exactly these once, an in has some of them, and
each stands for one size. The array of a `reduce` has its first bracket free and
the others empty.

    $ echo 'seq one in(int x) out(int y) ${ y = x; }$ end seq
    > map main in(int a[3]) out(int b[3]) one in(a[*k]) out(b[*i])
    > end map' >a.p3l
    $ p3l check a.p3l
    source: 2:47: 26 FreeIndex

To mend it: give each array a bracket for each size, `[*i]` where the elements
are told apart and `[]` where all go along.
",
    },
    Page {
        topic: "27",
        text: "27 BadOperator

The callee of a `reduce` does not fold: it takes two elements and gives one, and
the out of the `reduce` is such an element; or the module itself has other ports
than one in, an array, and one out.

    $ echo 'seq one in(int x) out(int y) ${ y = x; }$ end seq
    > reduce main in(int a[4]) out(int s) one in(a[*i]) out(s)
    > end reduce' >a.p3l
    $ p3l check a.p3l
    source: 2:37: 27 BadOperator

To mend it: call a module as `seq add in(int x, int y) out(int z)`. It is to be
associative, since segments are folded apart.
",
    },
    Page {
        topic: "28",
        text: "28 NotInComp

A `comp`, a `reduce` and the condition of a `loop` run what they call in one
process, so it is sequential: a `seq`, a `comp`, or a `map` or `reduce` of such.
A `farm`, a `pipe` and a `loop` have processes of their own.

    $ echo 'seq one in(int x) out(int y) ${ y = x; }$ end seq
    > farm two in(int x) out(int y) one in(x) out(y) end farm
    > comp main in(int x) out(int y) two in(x) out(y) end comp' >a.p3l
    $ p3l check a.p3l
    source: 3:32: 28 NotInComp

To mend it: call the module inside instead (`one`), or make the caller a `pipe`.
",
    },
    Page {
        topic: "29",
        text: "29 LoopTypes

The outs of a `loop` are to be its next ins, so they have the same sizes in the
same order; or the condition has another result than one new port without sizes,
`while more in(y) out(int again)`.

    $ echo 'seq one in(int x) out(int y) ${ y = x; }$ end seq
    > loop main in(int x) out(int y[2]) turns 4
    > one in(x) out(y)
    > while one in(y) out(int c) end loop' >a.p3l
    $ p3l check a.p3l
    source: 2:6: 29 LoopTypes

To mend it: carry along what the turns share: an in that does not change is also
an out.
",
    },
    Page {
        topic: "30",
        text: "30 BadWorkers

The number of a clause is out of its range: `budget` 1 to 100,000,000, `workers`
of a `farm` 1 to 512, of a `map` 1 to 512 and to the number of elements, of a
`reduce` a power of two up to both, `turns` 1 to 65,536, `tokens` 1 to 1,024.

    $ echo 'seq add in(int x, int y) out(int z) ${ z = x + y; }$ end seq
    > reduce main in(int a[8]) out(int s) workers 3
    > add in(a[*i]) out(s) end reduce' >a.p3l; p3l check a.p3l
    source: 2:45: 30 BadWorkers

To mend it: leave `workers` out, and the best number for `--processors` is
chosen.
",
    },
    Page {
        topic: "31",
        text: "31 TooManyInstances

The tree of calls from `main` has more than 128 nodes, where a module that is
called twice counts twice, with all below it.

    $ (echo 'seq one in(int x) out(int y) ${ y = x; }$ end seq'
    >  echo 'pipe main in(int x0) out(int y)'
    >  for i in $(seq 127); do echo \"one in(x$((i - 1))) out(int x$i)\"; done
    >  echo 'one in(x127) out(y) end pipe') >a.p3l; p3l check a.p3l
    source: 2:6: 31 TooManyInstances

To mend it: put small stages together into one `comp` or one `seq`.
",
    },
    Page {
        topic: "32",
        text: "32 TooDeep

Instances are nested more than 6 deep, `main` counting as one. The place is
`main`'s name.

    $ (echo 'seq m0 in(int x) out(int y) ${ y = x; }$ end seq'
    >  for i in 1 2 3 4 5 6; do
    >  echo \"farm m$i in(int x) out(int y) m$((i - 1)) in(x) out(y) end farm\"
    >  done) |
    > sed 's/farm m6/farm main/' >a.p3l; p3l check a.p3l
    source: 7:6: 32 TooDeep

To mend it: a farm right inside a farm, and a pipe right inside a pipe, do
nothing that the outer one alone would not.
",
    },
    Page {
        topic: "33",
        text: "33 TooHeavy

One item may make more than 134,217,728 firings, or as many runs of bodies. The
counts of elements, turns and stages multiply along the tree. The place is
`main`'s name.

    $ echo 'seq one in(int x) out(int y) ${ y = x; }$ end seq
    > loop l in(int x) out(int y) turns 65536 one in(x) out(y)
    > while one in(y) out(int c) end loop
    > loop main in(int x) out(int y) turns 65536
    > l in(x) out(y) while one in(y) out(int c) end loop' >a.p3l
    $ p3l check a.p3l
    source: 4:6: 33 TooHeavy

To mend it: give fewer `turns`, or let a body do by a `while` what small
processes do one by one.
",
    },
];
