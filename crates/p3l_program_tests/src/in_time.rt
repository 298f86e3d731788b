// Runs in virtual time: what comes out, what their line says, and the picks that they leave.

use crate::world::play;
use std::test::Fail;

const CASES: &str = r#"
= Runs in virtual time say how long they took.
# Ten ticks for the body, and none for words.
file m.p3l = double
file h.p3l = hundred
file c
| setup = 0
| word = 0
| [seq]
| main = 10
file a.p3l = farmed
file a.toml = farmed-costs

# What the body gives of three items, each in ten ticks.
# The run by these picks has the same numbers.
$ time m.p3l --processors 4 --costs c --picks p
< 1
< 2
< -3
> 3
> 5
> -5
! time: items 3, fired 9, finish 30, busiest 2 30
$ run m.p3l --processors 4 --costs c --schedule file:p --stats
< 1
< 2
< -3
> 3
> 5
> -5
! stats: items 3, fired 9, idle 0, bound 9
leaves p
| 0 0 0 2 1 2 1 2 1

# The picks are written only where they are requested.
$ time m.p3l --processors 4 --costs c
< 1
< 2
< -3
> 3
> 5
> -5
! time: items 3, fired 9, finish 30, busiest 2 30
none p

# The farm's body takes sixty ticks, on four workers side by side.
$ time a.p3l --processors 8 --costs a.toml
< 1
< 2
< 3
< 4
< 5
> 6
> 9
> 12
> 15
> 18
! time: items 5, fired 30, finish 110, busiest 5 60
none p

# No picks are an empty file.
$ time m.p3l --processors 4 --costs c --picks p
! time: items 0, fired 0, finish 0, busiest 0 0
leaves p

# Each ending but that of failed writing has the line and the picks.
$ time m.p3l --processors 4 --costs c --picks p
< 1
< x
> 3
! time: items 1, fired 3, finish 10, busiest 2 10
! stream: line 2: 100 BadWord
? 6
leaves p
| 0 2 1

fails take 1
$ time m.p3l --processors 4 --costs c --picks p
< 1
< 2
< -3
! time: items 0, fired 0, finish 0, busiest 0 0
! read fault
? 8
leaves p

$ time h.p3l --processors 4 --costs c --picks p
< 0
! time: items 1, fired 3, finish 10, busiest 2 10
! trap: item 1: division by zero in main
? 7
leaves p
| 0 2 1

fails put 1 after 0
$ time m.p3l --processors 4 --costs c --picks p
< 1
< 2
< -3
! write fault
? 10
none p

# The second put fails, and a byte of it is taken.
fails put 2 after 1
$ time m.p3l --processors 4 --costs c --picks p
< 1
< 2
< -3
> 3
> 5\
! write fault
? 10
none p

# The picks can't be written, when all else was.
fails file 3
$ time m.p3l --processors 4 --costs c --picks p
< 1
< 2
< -3
> 3
> 5
> -5
! write fault
? 10
none p

= A run in virtual time passes its stages first.
none new

# The stages come in their order, before an input that can't be taken.
fails take 1
$ time m.p3l --processors 3 --costs c --picks p
< 1
! file fault: m.p3l
? 9

fails take 1
file m.p3l = undeclared
$ time m.p3l --processors 3 --costs c --picks p
< 1
! source: 2:8: 40 Undeclared
? 3

fails take 1
file m.p3l = farmed
$ time m.p3l --processors 3 --costs c --picks p
< 1
! file fault: c
? 9

fails take 1
file m.p3l = farmed
file c
| speed = 1
$ time m.p3l --processors 3 --costs c --picks p
< 1
! costs: 51 BadKey speed
? 4

fails take 1
file m.p3l = farmed
file c = farmed-costs
$ time m.p3l --processors 3 --costs c --picks p
< 1
! too few processors: need 4
? 5

= Other words are no command.
file m.p3l = double
file h.p3l = hundred
file c
| setup = 0
| word = 0
| [seq]
| main = 10
file a.p3l = farmed
file a.toml = farmed-costs
none new

$ time m.p3l --processors 4 --schedule rr
< 1
! usage: the words are not a command of p3l
? 2

$ time m.p3l --processors 4 --stats
< 1
! usage: the words are not a command of p3l
? 2

$ time m.p3l
< 1
! usage: the words are not a command of p3l
? 2

$ check m.p3l --picks p
! usage: the words are not a command of p3l
? 2
"#;

#[test]
fn runs_in_virtual_time_say_how_long_they_took(rt: HostRuntime) -> Result<(), Fail> {
    play(&rt, rt.alloc(), CASES)
}
