// Picks from a file: the run of a program and of an image, by lists that end early and that are none.

use crate::world::{play, take_with_file};
use std::alloc::Global;
use std::test::Fail;

const CASES: &str = r#"
= Programs and images are run by picks.
file m.p3l = double

# Programs are run by picks.
file p
| 0 2 0 1
$ compile m.p3l --processors 4 --output i
$ run m.p3l --processors 16 --schedule file:p --stats
< 1
< 2
< -3
> 3
! stats: items 2, fired 4, idle 0, bound 6
! stopped: 4 fired, 0 idle
? 1

file p
| 1 1 0
$ compile m.p3l --processors 4 --output i
$ run m.p3l --processors 16 --schedule file:p --stats
< 1
< 2
< -3
! stats: items 1, fired 1, idle 2, bound 3
! stopped: 1 fired, 2 idle
? 1

file p
| 0 2 9
$ compile m.p3l --processors 4 --output i
$ run m.p3l --processors 16 --schedule file:p --stats
< 1
< 2
< -3
! schedule: line 1: 96 NoSuchProcess 9 of 3
? 12

file p
| 0 x
$ compile m.p3l --processors 4 --output i
$ run m.p3l --processors 16 --schedule file:p --stats
< 1
< 2
< -3
! schedule: line 1: 95 BadPick
? 12

file p
| 0 2 18446744073709551616
$ compile m.p3l --processors 4 --output i
$ run m.p3l --processors 16 --schedule file:p --stats
< 1
< 2
< -3
! schedule: line 1: 95 BadPick
? 12

# The first fault in the text decides.
file p
| 0
| 3 x
$ compile m.p3l --processors 4 --output i
$ run m.p3l --processors 16 --schedule file:p --stats
< 1
< 2
< -3
! schedule: line 2: 96 NoSuchProcess 3 of 3
? 12

file p
$ compile m.p3l --processors 4 --output i
$ run m.p3l --processors 16 --schedule file:p --stats
< 1
< 2
< -3
! stats: items 0, fired 0, idle 0, bound 0
! stopped: 0 fired, 0 idle
? 1

# Images are run by picks.
file p
| 0 2 0 1
$ compile m.p3l --processors 4 --output i
$ exec i --schedule file:p --stats
< 1
< 2
< -3
> 3
! stats: items 2, fired 4, idle 0, bound 6
! stopped: 4 fired, 0 idle
? 1

file p
| 1 1 0
$ compile m.p3l --processors 4 --output i
$ exec i --schedule file:p --stats
< 1
< 2
< -3
! stats: items 1, fired 1, idle 2, bound 3
! stopped: 1 fired, 2 idle
? 1

file p
| 0 2 9
$ compile m.p3l --processors 4 --output i
$ exec i --schedule file:p --stats
< 1
< 2
< -3
! schedule: line 1: 96 NoSuchProcess 9 of 3
? 12

file p
| 0 x
$ compile m.p3l --processors 4 --output i
$ exec i --schedule file:p --stats
< 1
< 2
< -3
! schedule: line 1: 95 BadPick
? 12

file p
| 0 2 18446744073709551616
$ compile m.p3l --processors 4 --output i
$ exec i --schedule file:p --stats
< 1
< 2
< -3
! schedule: line 1: 95 BadPick
? 12

file p
| 0
| 3 x
$ compile m.p3l --processors 4 --output i
$ exec i --schedule file:p --stats
< 1
< 2
< -3
! schedule: line 2: 96 NoSuchProcess 3 of 3
? 12

file p
$ compile m.p3l --processors 4 --output i
$ exec i --schedule file:p --stats
< 1
< 2
< -3
! stats: items 0, fired 0, idle 0, bound 0
! stopped: 0 fired, 0 idle
? 1
"#;

#[test]
fn programs_and_images_are_run_by_picks(rt: HostRuntime) -> Result<(), Fail> {
    play(&rt, rt.alloc(), CASES)
}

const OF_MANY_PICKS: &str = r#"run m.p3l --processors 16 --schedule file:p --capacity 1
< 64 0
< 3 0
> 1 6
> 1 1"#;

/// Two hundred turns without one worker, and two hundred with it.
fn late_picks(alloc: Global) -> Result<String, Fail> {
    let mut picks = "0 1 2 3 4 5 7 8 9\n".repeat(alloc, 200)?;
    let rest = "0 1 2 3 4 5 6 7 8 9\n".repeat(alloc, 200)?;
    picks.push_str(rest.as_str())?;
    Ok(picks)
}

/// One worker is left out for a long time, and what it holds comes out late.
#[test]
fn a_worker_may_wait_for_long(rt: HostRuntime) -> Result<(), Fail> {
    let picks = late_picks(rt.alloc())?;
    let bytes = picks.as_str().as_bytes();
    take_with_file(
        &rt,
        rt.alloc(),
        "\nfile m.p3l = halves",
        "p",
        bytes,
        OF_MANY_PICKS,
    )
}
