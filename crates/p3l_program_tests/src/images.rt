// Images: what `compile` writes runs as the program does.

use crate::world::play;
use std::test::Fail;

const CASES: &str = r#"
= Bodies, traps and farms are compiled and run.

# No program is written over.
file m.p3l = double
$ compile m.p3l --processors 4 --output i
$ exec i --stats
< 1
< 2
< -3
> 3
> 5
> -5
! stats: items 3, fired 9, idle 0, bound 9
$ exec i
< 1
< 2
< -3
> 3
> 5
> -5
$ exec --stats --schedule seed:7 i
< 1
< 2
< -3
> 3
> 5
> -5
! stats: items 3, fired 9, idle 0, bound 9
$ exec i --stats
! stats: items 0, fired 0, idle 0, bound 0
$ exec i --stats
< 1
< 2
< 1 x
< 4
> 3
> 5
! stats: items 2, fired 6, idle 0, bound 6
! stream: line 3: 100 BadWord
? 6
leaves m.p3l = double

file m.p3l = hundred
$ compile m.p3l --processors 4 --output i
$ exec i --stats
< 5
< 0
< 2
> 20
! stats: items 3, fired 7, idle 0, bound 9
! trap: item 2: division by zero in main
? 7
leaves m.p3l = hundred

# A pipe with a farm: run, and compiled and run, by the same costs.
file a.p3l = farmed
file a.toml = farmed-costs
$ run a.p3l --processors 8 --costs a.toml --stats
< 1
< 2
< -3
> 6
> 9
> -6
! stats: items 3, fired 18, idle 0, bound 18
$ compile a.p3l --processors 8 --costs a.toml --output i --capacity 1
$ exec i --stats
< 1
< 2
< -3
> 6
> 9
> -6
! stats: items 3, fired 18, idle 0, bound 18
$ exec i --stats --schedule seed:1
< 1
< 2
< -3
> 6
> 9
> -6
! stats: items 3, fired 18, idle 0, bound 18
leaves a.p3l = farmed
leaves a.toml = farmed-costs
"#;

#[test]
fn what_is_compiled_runs_as_its_program_does(rt: HostRuntime) -> Result<(), Fail> {
    play(&rt, rt.alloc(), CASES)
}
