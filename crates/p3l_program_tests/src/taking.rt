// Reading of input by runs, and lines that can't be put.

use crate::world::{Ended, compare, files_of, perform, play};
use std::alloc::Global;
use std::process::Abort;
use std::test::Fail;

const CASES: &str = r#"
= Lines may be lost.
none new

# A line that can't be put changes no status: the first is lost, and the second is put.
fails say 1 after 0
file m.p3l = double
$ run m.p3l --processors 16 --stats
< 1
< 2
< -3
> 3
> 5
> -5

fails say 1 after 0
file m.p3l = double
$ run m.p3l --processors 16 --stats
< 1
< 2
< -3
< x
> 3
> 5
> -5
! stream: line 4: 100 BadWord
? 6

# Nor does it after a trap, nor where there is no program.
fails say 1 after 0
file m.p3l = hundred
$ run m.p3l --processors 16
< 0
? 7

fails say 1 after 0
$ run m.p3l --processors 16
< 1
? 9

= Each status may be without its line.
# A program, costs, picks and an image, of which some are refused.
file m.p3l = double
file u.p3l = undeclared
file a.p3l = farmed
file c
| speed = 1
file p
| 3
file one
| 0
file i
| P3LI\
none new

# Each of these has one line, which is lost.
fails say 1 after 0
$ run m.p3l --processors 16
< x
? 6

fails take 1
fails say 1 after 0
$ run m.p3l --processors 16
< 1
? 8

fails put 1 after 0
fails say 1 after 0
$ run m.p3l --processors 16
< 1
? 10

fails say 1 after 0
$ run m.p3l
< 1
? 2

fails say 1 after 0
$ run u.p3l --processors 4
< 1
? 3

fails say 1 after 0
$ run m.p3l --processors 4 --costs c
< 1
? 4

fails say 1 after 0
$ run a.p3l --processors 3
< 1
? 5

fails say 1 after 0
$ run m.p3l --processors 4 --schedule file:one
< 1
? 1

fails say 1 after 0
$ run m.p3l --processors 4 --schedule file:p
< 1
? 12

fails say 1 after 0
$ exec i
< 1
? 13
"#;

#[test]
fn lines_may_be_lost(rt: HostRuntime) -> Result<(), Fail> {
    play(&rt, rt.alloc(), CASES)
}

/// Runs a hundred by an item on a hundred zeros.
fn run_on_zeros(alloc: Global, words: &str) -> Result<Ended, Fail> {
    let zeros = "\n< 0".repeat(alloc, 100)?;
    let step = format!(in alloc; "{words}{zeros}")?;
    let mut files = files_of(alloc, "\nfile m.p3l = hundred")?;
    perform(alloc, "", step.as_str(), &mut files)
}

/// Two bytes an item, and one item more than those that were sent.
fn run_in_turn(rt: &impl Abort, alloc: Global, words: &str, end: &str) -> Result<(), Fail> {
    let ended = run_on_zeros(alloc, words)?;
    assert_eq!(rt; ended.calls, 6, "{words}");
    let step = format!(in alloc; "{words}{end}")?;
    compare(rt, alloc, step.as_str(), &ended)
}

/// By a seed, too, one item more than were sent is requested.
fn run_by_a_seed(rt: &impl Abort, alloc: Global, words: &str) -> Result<(), Fail> {
    let ended = run_on_zeros(alloc, words)?;
    let items = (ended.calls / 2).saturating_sub(1);
    let begin = format!(in alloc; "stats: items {items}, ")?;
    assert!(rt; ended.status == 7 && ended.output.is_empty(), "{words}");
    assert!(rt; ended.calls >= 2 && ended.calls % 2 == 0, "{words}");
    assert!(rt;
        ended
            .lines
            .as_slice()
            .starts_with(begin.as_str().as_bytes()),
        "{words}"
    );
    Ok(())
}

#[test]
fn no_more_is_taken_than_is_requested(rt: HostRuntime) -> Result<(), Fail> {
    let words = "run m.p3l --processors 16 --stats";
    let end =
        "\n! stats: items 2, fired 4, idle 0, bound 6\n! trap: item 1: division by zero in main\n? 7";
    run_in_turn(&rt, rt.alloc(), words, end)?;
    let words = "run m.p3l --processors 16";
    let end = "\n! trap: item 1: division by zero in main\n? 7";
    run_in_turn(&rt, rt.alloc(), words, end)?;
    run_by_a_seed(
        &rt,
        rt.alloc(),
        "run m.p3l --processors 16 --stats --schedule seed:1",
    )?;
    run_by_a_seed(
        &rt,
        rt.alloc(),
        "run m.p3l --processors 16 --stats --schedule seed:2",
    )
}
