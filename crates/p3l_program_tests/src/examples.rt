// Each example under two schedules, and the costs that it shows.

pub mod texts;

use crate::world::{files_of, perform, play};
use p3l_io::MemFiles;
use std::alloc::Global;
use std::process::Abort;
use std::test::Fail;

const CASES: &str = r#"
= Line.
file m.p3l = line.p3l

$ run m.p3l --processors 16 --stats
<= line.txt
>= line.out
! stats: items 3, fired 9, idle 0, bound 9

$ run m.p3l --processors 16 --stats --schedule seed:7
<= line.txt
>= line.out
! stats: items 3, fired 9, idle 0, bound 9

$ check m.p3l
<= line.txt
> ok: 1 modules, 1 instances

= Norm.
file m.p3l = norm.p3l

$ run m.p3l --processors 16 --stats
<= norm.txt
>= norm.out
! stats: items 2, fired 6, idle 0, bound 6

$ run m.p3l --processors 16 --stats --schedule seed:7
<= norm.txt
>= norm.out
! stats: items 2, fired 6, idle 0, bound 6

= Matrix.
file m.p3l = matrix.p3l

$ run m.p3l --processors 16 --stats
<= matrix.txt
>= matrix.out
! stats: items 2, fired 62, idle 0, bound 62

$ run m.p3l --processors 16 --stats --schedule seed:7
<= matrix.txt
>= matrix.out
! stats: items 2, fired 62, idle 0, bound 62

= Greatest.
file m.p3l = greatest.p3l

$ run m.p3l --processors 16 --stats
<= greatest.txt
>= greatest.out
! stats: items 2, fired 28, idle 0, bound 28

$ run m.p3l --processors 16 --stats --schedule seed:7
<= greatest.txt
>= greatest.out
! stats: items 2, fired 28, idle 0, bound 28

= Total.
file m.p3l = total.p3l

# Eight segments are chosen.
$ run m.p3l --processors 16 --stats
<= total.txt
>= total.out
! stats: items 2, fired 52, idle 0, bound 52

$ run m.p3l --processors 16 --stats --schedule seed:7
<= total.txt
>= total.out
! stats: items 2, fired 52, idle 0, bound 52

= Farms.
file m.p3l = farms.p3l

$ run m.p3l --processors 16 --stats
<= farms.txt
>= farms.out
! stats: items 5, fired 40, idle 0, bound 40

$ run m.p3l --processors 16 --stats --schedule seed:7
<= farms.txt
>= farms.out
! stats: items 5, fired 40, idle 0, bound 40

$ check m.p3l
<= farms.txt
> ok: 5 modules, 5 instances

= Signal.
file m.p3l = signal.p3l

$ run m.p3l --processors 16 --stats
<= signal.txt
>= signal.out
! stats: items 3, fired 18, idle 0, bound 18

$ run m.p3l --processors 16 --stats --schedule seed:7
<= signal.txt
>= signal.out
! stats: items 3, fired 18, idle 0, bound 18

$ check m.p3l
<= signal.txt
> ok: 4 modules, 4 instances

= Averages.
file m.p3l = averages.p3l

$ run m.p3l --processors 16 --stats
<= averages.txt
>= averages.out
! stats: items 3, fired 12, idle 0, bound 12

$ run m.p3l --processors 16 --stats --schedule seed:7
<= averages.txt
>= averages.out
! stats: items 3, fired 12, idle 0, bound 12

= Halve.
file m.p3l = halve.p3l

# Of 6, 1, 19 and 1 turns; an item that takes all 64 fires 195 times.
$ run m.p3l --processors 16 --stats
<= halve.txt
>= halve.out
! stats: items 4, fired 93, idle 0, bound 780

$ run m.p3l --processors 16 --stats --schedule seed:7
<= halve.txt
>= halve.out
! stats: items 4, fired 93, idle 0, bound 780

$ check m.p3l
<= halve.txt
> ok: 3 modules, 3 instances

= Hash.
file m.p3l = hash.p3l

$ run m.p3l --processors 16 --stats
<= hash.txt
>= hash.out
! stats: items 2, fired 6, idle 0, bound 6

$ run m.p3l --processors 16 --stats --schedule seed:7
<= hash.txt
>= hash.out
! stats: items 2, fired 6, idle 0, bound 6

= Vector.
file m.p3l = vector.p3l

$ run m.p3l --processors 16 --stats
<= vector.txt
>= vector.out
! stats: items 2, fired 26, idle 0, bound 26

$ run m.p3l --processors 16 --stats --schedule seed:7
<= vector.txt
>= vector.out
! stats: items 2, fired 26, idle 0, bound 26

= Histogram.
file m.p3l = histogram.p3l

$ run m.p3l --processors 16 --stats
<= histogram.txt
>= histogram.out
! stats: items 2, fired 6, idle 0, bound 6

$ run m.p3l --processors 16 --stats --schedule seed:7
<= histogram.txt
>= histogram.out
! stats: items 2, fired 6, idle 0, bound 6

= Root.
file m.p3l = root.p3l

# Of 1, 1, 1, 4, 11 and 35 turns; an item that takes all 64 fires 197 times.
$ run m.p3l --processors 16 --stats
<= root.txt
>= root.out
! stats: items 6, fired 189, idle 0, bound 1182

$ run m.p3l --processors 16 --stats --schedule seed:7
<= root.txt
>= root.out
! stats: items 6, fired 189, idle 0, bound 1182

= Sliding.
file m.p3l = sliding.p3l

$ run m.p3l --processors 16 --stats
<= sliding.txt
>= sliding.out
! stats: items 2, fired 28, idle 0, bound 34

$ run m.p3l --processors 16 --stats --schedule seed:7
<= sliding.txt
>= sliding.out
! stats: items 2, fired 28, idle 0, bound 34

= Prefix.
file m.p3l = prefix.p3l

$ scan m.p3l --segments 4 --stats
<= prefix.txt
>= prefix.out
! stats: items 2, fired 58, idle 0, bound 58

$ scan m.p3l --segments 8 --schedule seed:7
<= prefix.txt
>= prefix.out
"#;

#[test]
fn each_example_runs_under_two_schedules(rt: HostRuntime) -> Result<(), Fail> {
    play(&rt, rt.alloc(), CASES)
}

/// The program of an example.
fn files_for(alloc: Global, name: &str) -> Result<MemFiles, Fail> {
    let head = format!(in alloc; "\nfile m.p3l = {name}.p3l")?;
    files_of(alloc, head.as_str())
}

/// The same with the costs that the example shows on its input, in the file c.
fn files_with_costs(rt: &impl Abort, alloc: Global, name: &str) -> Result<MemFiles, Fail> {
    let mut files = files_for(alloc, name)?;
    let step = format!(in alloc; "profile m.p3l\n<= {name}.txt")?;
    let ended = perform(alloc, "", step.as_str(), &mut files)?;
    assert_eq!(rt; ended.status, 0, "{name}");
    files.add("c", ended.output.as_slice())?;
    Ok(files)
}

/// The costs that an example shows on its input are costs of it.
fn compare_costs(rt: &impl Abort, alloc: Global, name: &str) -> Result<(), Fail> {
    let mut files = files_with_costs(rt, alloc, name)?;
    let words = "explain m.p3l --processors 512 --costs c";
    let ended = perform(alloc, "", words, &mut files)?;
    assert_eq!(rt; ended.status, 0, "{name}");
    Ok(())
}

const ALL: &str =
    "averages farms greatest halve hash histogram line matrix norm prefix root signal sliding total vector";

#[test]
fn costs_that_are_shown_are_read(rt: HostRuntime) -> Result<(), Fail> {
    for name in ALL.split(' ') {
        compare_costs(&rt, rt.alloc(), name)?;
    }
    Ok(())
}
