// Programs that are generated, saved and run.

use crate::texts::lines_of;
use crate::world::{play, take_block};
use std::alloc::Global;
use std::process::Abort;
use std::test::Fail;

const CASES: &str = r#"
= The line is the same under every schedule.
none new

$ gen 7 --processors 16 --items 100
> gen 7: items 100, fired 1200, idle 0, bound 1200, service 72, used 14, sum 56576000

$ gen 7 --processors 16 --items 100 --schedule rr
> gen 7: items 100, fired 1200, idle 0, bound 1200, service 72, used 14, sum 56576000

$ gen 7 --processors 16 --items 100 --schedule seed:1
> gen 7: items 100, fired 1200, idle 0, bound 1200, service 72, used 14, sum 56576000

$ gen --schedule seed:2 --items 100 --processors 16 7
> gen 7: items 100, fired 1200, idle 0, bound 1200, service 72, used 14, sum 56576000

= A few items are run and other words are no command.
none new

$ gen 7 --processors 16 --items 1
> gen 7: items 1, fired 12, idle 0, bound 12, service 72, used 14, sum 134912

# A line that is not put whole is a fault.
# The first put of the output fails after four bytes.
fails put 1 after 4
$ gen 7 --processors 16 --items 1
> gen\x20\
! write fault
? 10

$ gen 7 --processors 16 --items 1 --schedule rr
> gen 7: items 1, fired 12, idle 0, bound 12, service 72, used 14, sum 134912

$ gen 7 --processors 16 --items 3 --schedule seed:5
> gen 7: items 3, fired 36, idle 0, bound 36, service 72, used 14, sum 430848

$ gen 7 --processors 4 --items 1
! too few processors: need 5
? 5

$ gen
! usage: the words are not a command of p3l
? 2

$ gen 7
! usage: the words are not a command of p3l
? 2

$ gen 4294967296 --processors 16
! usage: the words are not a command of p3l
? 2

$ gen -1 --processors 16
! usage: the words are not a command of p3l
? 2

$ gen 07 --processors 16
! usage: the words are not a command of p3l
? 2

$ gen 7 --processors 16 --items 0
! usage: the words are not a command of p3l
? 2

$ gen 7 --processors 16 --items 100001
! usage: the words are not a command of p3l
? 2

$ gen 7 --processors 16 --schedule file:p
! usage: the words are not a command of p3l
? 2

$ gen 7 --processors 16 --stats
! usage: the words are not a command of p3l
? 2

$ gen 7 8 --processors 16
! usage: the words are not a command of p3l
? 2

= What is saved can be used.

# What is saved is a program, costs and a stream of the other commands.
$ gen 7 --processors 16 --items 3 --save q
> gen 7: items 3, fired 36, idle 0, bound 36, service 72, used 14, sum 430848
$ explain q.p3l --processors 16 --costs q.toml
> processors 16 used 14 service 72
> 0 pipe main procs 14 service 72
> 1 seq scale procs 1 service 72
> 2 farm filters procs 9 service 65 count 7
> 3 seq filter procs 1 service 452
> 4 reduce total procs 4 service 64 count 2
$ fmt q.p3l
>= generated
$ run q.p3l --processors 16 --costs q.toml --stats
<= generated-stream
> 134912
> 143616
> 152320
! stats: items 3, fired 36, idle 0, bound 36
leaves q.p3l = generated
leaves q.toml = generated-costs
leaves q.txt = generated-stream

$ gen 7 --processors 16 --items 2 --save d/g
> gen 7: items 2, fired 24, idle 0, bound 24, service 72, used 14, sum 278528
leaves d/g.p3l = generated
leaves d/g.toml = generated-costs
leaves d/g.txt
| 8 9 10 11 12 13 14 15 16 17 18 19 20 21 22 23
| 9 10 11 12 13 14 15 16 17 18 19 20 21 22 23 24

= Each text is saved first or fails in turn.

fails file 1
$ gen 7 --processors 16 --items 3 --save q
! write fault
? 10
none q.p3l
none q.toml
none q.txt

fails file 2
$ gen 7 --processors 16 --items 3 --save q
! write fault
? 10
leaves q.p3l = generated
none q.toml
none q.txt

fails file 3
$ gen 7 --processors 16 --items 3 --save q
! write fault
? 10
leaves q.p3l = generated
leaves q.toml = generated-costs
none q.txt

# The texts are saved first, whatever comes of them.
fails put 1 after 0
$ gen 7 --processors 16 --items 3 --save q
! write fault
? 10
leaves q.p3l = generated
leaves q.toml = generated-costs
leaves q.txt = generated-stream

$ gen 7 --processors 4 --items 3 --save q
! too few processors: need 5
? 5
leaves q.p3l = generated
leaves q.toml = generated-costs
leaves q.txt = generated-stream

= One item of each factor is run.

$ gen 0 --processors 16 --items 1
> gen 0: items 1, fired 12, idle 0, bound 12, service 72, used 14, sum 36992

$ gen 1 --processors 16 --items 1
> gen 1: items 1, fired 12, idle 0, bound 12, service 72, used 14, sum 62016

$ gen 2 --processors 16 --items 1
> gen 2: items 1, fired 12, idle 0, bound 12, service 72, used 14, sum 91392

$ gen 3 --processors 16 --items 1
> gen 3: items 1, fired 12, idle 0, bound 12, service 72, used 14, sum 125120

$ gen 4 --processors 16 --items 1
> gen 4: items 1, fired 12, idle 0, bound 12, service 72, used 14, sum 163200

$ gen 4294967295 --processors 16 --items 1
> gen 4294967295: items 1, fired 12, idle 0, bound 12, service 72, used 14, sum 18691697704832
"#;

#[test]
fn what_is_generated_is_run_and_saved(rt: HostRuntime) -> Result<(), Fail> {
    play(&rt, rt.alloc(), CASES)
}

const IN_TURN: &str = r#"
= A thousand items in turn.
none new

$ gen 7 --processors 16
> gen 7: items 1000, fired 12000, idle 0, bound 12000, service 72, used 14, sum 4482560000
"#;

#[test]
fn a_thousand_items_in_turn(rt: HostRuntime) -> Result<(), Fail> {
    play(&rt, rt.alloc(), IN_TURN)
}

const BY_A_SEED: &str = r#"
= A thousand items by a seed.
none new

$ gen 7 --processors 16 --schedule seed:1
> gen 7: items 1000, fired 12000, idle 0, bound 12000, service 72, used 14, sum 4482560000
"#;

#[test]
fn a_thousand_items_by_a_seed(rt: HostRuntime) -> Result<(), Fail> {
    play(&rt, rt.alloc(), BY_A_SEED)
}

const BY_ANOTHER: &str = r#"
= A thousand items by another seed.
none new

$ gen 7 --processors 16 --schedule seed:2
> gen 7: items 1000, fired 12000, idle 0, bound 12000, service 72, used 14, sum 4482560000
"#;

#[test]
fn a_thousand_items_by_another_seed(rt: HostRuntime) -> Result<(), Fail> {
    play(&rt, rt.alloc(), BY_ANOTHER)
}

/// A number, the factor of its program, and its sum of twenty items.
const NUMBERS: &[(u64, u64, u64)] = &[
    (0, 2, 1_566_720),
    (1, 3, 2_480_640),
    (2, 4, 3_481_600),
    (3, 5, 4_569_600),
    (4, 6, 5_744_640),
    (4_294_967_295, 2, 373_833_954_923_520),
];

/// Line k of the stream of a number has the words n + k + i for i from 0 to 15.
fn line_of(alloc: Global, first: u64) -> Result<String, Fail> {
    let mut line = String::new(alloc);
    line.push_str("\n|")?;
    for place in 0..16u64 {
        let word = first.saturating_add(place);
        line.push_str(format!(in alloc; " {word}")?.as_str())?;
    }
    Ok(line)
}

/// The lines of twenty items of the stream of a number, from k = 1 on.
fn stream_of(alloc: Global, number: u64) -> Result<String, Fail> {
    let mut lines = String::new(alloc);
    for line in 1..=20u64 {
        lines.push_str(line_of(alloc, number.saturating_add(line))?.as_str())?;
    }
    Ok(lines)
}

/// The files that are left where twenty items of a number are saved, of a program with this factor.
fn saved(alloc: Global, number: u64, factor: u64) -> Result<String, Fail> {
    let times = format!(in alloc; "* {factor};")?;
    let program = lines_of("generated")?.replace(alloc, "* 4;", times.as_str())?;
    let stream = stream_of(alloc, number)?;
    Ok(format!(in alloc;
        "leaves q.p3l\n{program}\nleaves q.toml = generated-costs\nleaves q.txt{stream}"
    )?)
}

/// Runs and saves twenty items of a number, whose program has this factor.
fn take_twenty(
    rt: &impl Abort,
    alloc: Global,
    number: u64,
    factor: u64,
    sum: u64,
) -> Result<(), Fail> {
    let counts = "items 20, fired 240, idle 0, bound 240, service 72, used 14";
    let left = saved(alloc, number, factor)?;
    let words = "--processors 16 --items 20 --save q";
    let block = format!(in alloc;
        "\n$ gen {number} {words}\n> gen {number}: {counts}, sum {sum}\n{left}"
    )?;
    take_block(rt, alloc, block.as_str())
}

#[test]
fn each_factor_is_generated_and_saved(rt: HostRuntime) -> Result<(), Fail> {
    for (number, factor, sum) in NUMBERS {
        take_twenty(&rt, rt.alloc(), *number, *factor, *sum)?;
    }
    Ok(())
}
