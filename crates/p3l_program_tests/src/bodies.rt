// Runs of one body: what it gives, and the traps that it comes to.

use crate::world::play;
use std::test::Fail;

const CASES: &str = r#"
= Bodies give their values or trap.

# A body gives its values.
file m.p3l = double
$ run m.p3l --processors 16 --stats
< 9223372036854775807
> -1
! stats: items 1, fired 3, idle 0, bound 3

file m.p3l
| seq main in(int x) out(int y)
| ${ y = x % 3; }$
| end seq
$ run m.p3l --processors 16 --stats
< -7
> -1
! stats: items 1, fired 3, idle 0, bound 3

file m.p3l
| seq main in(int x) out(int y)
| ${ y = x >> 1; }$
| end seq
$ run m.p3l --processors 16 --stats
< -3
> -2
! stats: items 1, fired 3, idle 0, bound 3

# Adds one as often as the item says, at most three times.
file m.p3l
| seq main in(int x) out(int y) budget 3
| ${ int i; for (i = 0; i < x; i = i + 1) { y = y + 1; } }$
| end seq
$ run m.p3l --processors 16 --stats
< 3
> 3
! stats: items 1, fired 3, idle 0, bound 3

# A trap ends the run; the third item was sent before the second came to its trap.
file m.p3l = hundred
$ run m.p3l --processors 16 --stats
< 5
< 0
< 2
> 20
! stats: items 3, fired 7, idle 0, bound 9
! trap: item 2: division by zero in main
? 7

file m.p3l
| seq main in(int x) out(int y)
| ${ y = x / -1; }$
| end seq
$ run m.p3l --processors 16 --stats
< -9223372036854775808
! stats: items 1, fired 3, idle 0, bound 3
! trap: item 1: division overflow in main
? 7

file m.p3l
| seq main in(int x) out(int y) budget 3
| ${ int i; for (i = 0; i < x; i = i + 1) { y = y + 1; } }$
| end seq
$ run m.p3l --processors 16 --stats
< 4
! stats: items 1, fired 3, idle 0, bound 3
! trap: item 1: budget spent in main
? 7

# The numbers are reported only if requested.
file m.p3l = hundred
$ run m.p3l --processors 16
< 5
< 0
< 2
> 20
! trap: item 2: division by zero in main
? 7

file m.p3l
| seq main in(int x) out(int y) budget 3
| ${ int i; for (i = 0; i < x; i = i + 1) { y = y + 1; } }$
| end seq
$ run m.p3l --processors 16
< 3
< 4
> 3
! trap: item 2: budget spent in main
? 7

file m.p3l
| const N = 3;
| seq main in(int x) out(int y)
| ${ y = x * N + 1; }$
| end seq
$ run m.p3l --processors 16
< 1
< 2
< -3
> 4
> 7
> -8

file m.p3l
| \x0d
| \x09seq main in(int _a1)
|
|  out ( int B )${B=_a1*9223372036854775807+7;}$end seq  \x09\
$ run m.p3l --processors 16
< 3
> -9223372036854775804
"#;

#[test]
fn bodies_give_their_values_or_trap(rt: HostRuntime) -> Result<(), Fail> {
    play(&rt, rt.alloc(), CASES)
}
