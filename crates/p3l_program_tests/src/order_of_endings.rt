// The first ending is reported if a run or a trace would end in several ways.

use crate::world::play;
use std::test::Fail;

const CASES: &str = r#"
= Runs and checking end by the first of their ends.
none new

fails put 1 after 0
file m.p3l = hundred
$ run m.p3l --processors 4
< 5
< 0
! write fault
? 10

fails take 3
file m.p3l = hundred
$ run m.p3l --processors 4
< 0
< 2
! trap: item 1: division by zero in main
? 7

file m.p3l = hundred
$ run m.p3l --processors 4
< 0
< x
! trap: item 1: division by zero in main
? 7

fails take 3
file m.p3l = double
file p
| 0
$ run m.p3l --processors 4 --schedule file:p
< 1
< 2
! stopped: 1 fired, 0 idle
? 1

file m.p3l = double
file p
| 0
$ run m.p3l --processors 4 --schedule file:p
< 1
< x
! stopped: 1 fired, 0 idle
? 1

fails take 3
file m.p3l = double
file p
| 0 2 1
$ run m.p3l --processors 4 --schedule file:p
< 1
< 2
> 3
! read fault
? 8

file m.p3l = double
file p
| 0 2 1
$ run m.p3l --processors 4 --schedule file:p
< 1
< x
> 3
! stream: line 2: 100 BadWord
? 6

= A trace that holds on one item.
file m.p3l = double
file t = trace
none new

fails take 1
$ check-trace m.p3l --processors 4 --trace t
< 1
! evidence: 111 Differs 2
? 13

fails take 3
$ check-trace m.p3l --processors 4 --trace t
< 1
< x
! read fault
? 8

fails put 1 after 0
$ check-trace m.p3l --processors 4 --trace t
< 1
< x
! stream: line 2: 100 BadWord
? 6

fails put 1 after 0
$ check-trace m.p3l --processors 4 --trace t
< 1
! write fault
? 10

= Saving ends by the first of its ends.
# Picks of which a trap is the last outcome, and some that are left over then.
file m.p3l = hundred
file p
| 0 2 1 0 2
none new

# The input is refused where an item is requested, whatever is in the network by then.
fails put 1 after 0
$ save m.p3l --processors 4 --schedule file:p --output new
< 5
< 2
< x
! write fault
? 10

$ save m.p3l --processors 4 --schedule file:p --output new
< 0
< 2
< x
! trap: item 1: division by zero in main
? 7

fails take 3
$ save m.p3l --processors 4 --schedule file:p --output new
< 0
< 2
! read fault
? 8

$ save m.p3l --processors 4 --schedule file:p --output new
< 0
< x
! stream: line 2: 100 BadWord
? 6

$ save m.p3l --processors 4 --schedule file:p --output new
< 5
< 2
< x
> 20
! stream: line 3: 100 BadWord
? 6
"#;

#[test]
fn the_first_of_several_ends_is_reported(rt: HostRuntime) -> Result<(), Fail> {
    play(&rt, rt.alloc(), CASES)
}
