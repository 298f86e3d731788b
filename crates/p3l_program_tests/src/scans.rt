// Scans: the folds of all prefixes of lists, whatever the segments, and what refuses them.

use crate::world::play;
use std::test::Fail;

const CASES: &str = r#"
= Fronts are folded.

file m.p3l = less-of-five
$ scan m.p3l --segments 1 --stats
< 1 2 3 4 5
> 1 -1 -4 0 -5
! stats: items 1, fired 7, idle 0, bound 7

file m.p3l = less-of-four
$ scan m.p3l --segments 4 --stats
< 1 2 3 4
> 1 -1 -4 0
! stats: items 1, fired 29, idle 0, bound 29

# What the prefixes of 1 2 3 4 come to by subtraction: 1, 1 - 2, and 3 and 3 - 4 taken from that.
file m.p3l = less-of-four
$ scan m.p3l --segments 1
< 1 2 3 4
> 1 -1 -4 0

file m.p3l = less-of-four
$ scan m.p3l --segments 2
< 1 2 3 4
> 1 -1 -4 0

file m.p3l = less-of-four
$ scan m.p3l --segments 4 --schedule seed:7 --capacity 1
< 1 2 3 4
<
< 5 5 5 5
> 1 -1 -4 0
> 5 0 -5 0

= Elements and operators may be larger.
# Pairs of a least and a greatest number, each joined to the next.
file m.p3l
| seq join in(int a[2], int b[2]) out(int c[2])
| ${ c[0] = a[0]; if (b[0] < a[0]) { c[0] = b[0]; } c[1] = a[1]; if (b[1] > a[1]) { c[1] = b[1]; } }$ end seq
| reduce main in(int l[4][2]) out(int s[2]) join in(l[*i][]) out(s) end reduce\

$ scan m.p3l --segments 1
< 3 3 2 2 5 7 0 1
> 3 3 2 3 2 7 0 7

$ scan m.p3l --segments 2
< 3 3 2 2 5 7 0 1
> 3 3 2 3 2 7 0 7

$ scan m.p3l --segments 4
< 3 3 2 2 5 7 0 1
> 3 3 2 3 2 7 0 7

= An operator may have several modules.

# An operator of two modules: the comp is what the reduce names, and its second body can trap.
file m.p3l
| seq less in(int x, int y) out(int z) ${ z = x - y; }$ end seq
| seq hundred in(int x) out(int y) ${ y = 100 / x; }$ end seq
| comp step in(int x, int y) out(int z) less in(x, y) out(int d) hundred in(d) out(z) end comp
| reduce main in(int a[2]) out(int s) step in(a[*i]) out(s) end reduce\
$ scan m.p3l --segments 2
< 7 5
< 4 4
< 1 1
> 7 50
! trap: item 2: division by zero in hundred
? 7

= The first trap by its stage is reported.
# Traps with a second number outside 0 to 2, and where it is 0.
file m.p3l
| seq over in(int x, int y) out(int z) ${ int t[3]; z = t[y] + x / y; }$ end seq reduce main in(int a[8]) out(int s) over in(a[*i]) out(s) end reduce\

# The first half ends with 1 over 5, which the second stage finds of four segments; the third
# segment is 1 over 0, which the first stage finds.
$ scan m.p3l --segments 1
< 1 1 5 1 1 0 1 1
! trap: item 1: index out of range in over
? 7

$ scan m.p3l --segments 2
< 1 1 5 1 1 0 1 1
! trap: item 1: index out of range in over
? 7

$ scan m.p3l --segments 4
< 1 1 5 1 1 0 1 1
! trap: item 1: division by zero in over
? 7

= What is no reduce or does not divide is refused.

file m.p3l = double
$ scan m.p3l --segments 1
< 1
! scan: 120 NotReduce
? 15

file m.p3l = hundred
$ scan m.p3l --segments 1
! scan: 120 NotReduce
? 15

file m.p3l = undeclared
$ scan m.p3l --segments 1
< 1
! source: 2:8: 40 Undeclared
? 3

file m.p3l = less-of-five
$ scan m.p3l --segments 2
< 1 2 3 4 5
! scan: 121 BadSegments
? 15

file m.p3l = less-of-five
$ scan m.p3l --segments 5
< 1 2 3 4 5
! scan: 121 BadSegments
? 15

file m.p3l = double
$ scan m.p3l --segments 5
< 1
! scan: 120 NotReduce
? 15

file m.p3l = less-of-four
$ scan m.p3l --segments 8
< 1 2 3 4
! scan: 121 BadSegments
? 15
"#;

#[test]
fn fronts_are_folded_or_refused(rt: HostRuntime) -> Result<(), Fail> {
    play(&rt, rt.alloc(), CASES)
}
