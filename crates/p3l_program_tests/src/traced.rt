// Traces that runs write, of programs and of images.

use crate::world::play;
use std::test::Fail;

const CASES: &str = r#"
= Runs are traced to each ending.
# All files that the commands below read.
file m.p3l = double
file h.p3l = hundred
file a.p3l = farmed
file i = double-image
file c
| default = 1
file p
| 0 2 1 0 2 1 0 2 1
file early
| 1 1 0
file later
| 0 2 0 1\
file none
file broken.p3l = undeclared
file empty.p3l

$ run m.p3l --processors 16 --trace t --stats
< 1
> 3
! stats: items 1, fired 3, idle 0, bound 3
leaves t = trace
leaves m.p3l = double

$ run m.p3l --processors 16 --trace t
< 1
< 2
< -3
> 3
> 5
> -5
leaves t
| p3l-trace 1
| 0 source
| 2 run
| 0 source
| 1 sink
| 2 run
| 0 source
| 1 sink
| 2 run
| 1 sink
| end 9 0

$ run m.p3l --processors 16 --costs c --schedule file:p --trace t --stats
< 1
< 2
< -3
> 3
> 5
> -5
! stats: items 3, fired 9, idle 0, bound 9
leaves t
| p3l-trace 1
| 0 source
| 2 run
| 1 sink
| 0 source
| 2 run
| 1 sink
| 0 source
| 2 run
| 1 sink
| end 9 0

$ run m.p3l --processors 16 --trace t
leaves t
| p3l-trace 1
| end 0 0
leaves m.p3l = double

$ run a.p3l --processors 16 --trace t
< 1
> 6
leaves t
| p3l-trace 1
| 0 source
| 2 run
| 3 emit
| 5 run
| 4 collect
| 1 sink
| end 6 0

$ exec i --trace t --stats
< 1
> 3
! stats: items 1, fired 3, idle 0, bound 3
leaves t = trace
leaves m.p3l = double

$ exec i --trace t --schedule file:p
< 1
< 2
< -3
> 3
> 5
> -5
leaves t
| p3l-trace 1
| 0 source
| 2 run
| 1 sink
| 0 source
| 2 run
| 1 sink
| 0 source
| 2 run
| 1 sink
| end 9 0

$ exec i --trace t --schedule file:early
< 1
< 2
< -3
! stopped: 1 fired, 2 idle
? 1
leaves t
| p3l-trace 1
| 1 idle
| 1 idle
| 0 source
| end 1 2

$ exec i --trace t
< x
! stream: line 1: 100 BadWord
? 6
leaves t
| p3l-trace 1
| end 0 0
leaves m.p3l = double

fails file 1
$ exec i --trace t
< 1
< 2
< -3
! file fault: i
? 9
none t

# The runs end, but what they give or their trace is not written.
fails file 2
$ exec i --trace t
< 1
< 2
< -3
> 3
> 5
> -5
! write fault
? 10
none t

$ run m.p3l --processors 16 --schedule file:early --trace t --stats
< 1
< 2
< -3
! stats: items 1, fired 1, idle 2, bound 3
! stopped: 1 fired, 2 idle
? 1
leaves t
| p3l-trace 1
| 1 idle
| 1 idle
| 0 source
| end 1 2

$ run m.p3l --processors 4 --trace t --schedule file:later
< 1
< 2
< -3
> 3
! stopped: 4 fired, 0 idle
? 1
leaves t
| p3l-trace 1
| 0 source
| 2 run
| 0 source
| 1 sink
| end 4 0

$ run m.p3l --processors 4 --trace t --schedule file:none
< 1
< 2
< -3
! stopped: 0 fired, 0 idle
? 1
leaves t
| p3l-trace 1
| end 0 0
leaves m.p3l = double

$ run m.p3l --processors 16 --trace t
< 1
< x
> 3
! stream: line 2: 100 BadWord
? 6
leaves t = trace
leaves m.p3l = double

$ run m.p3l --processors 16 --trace t --stats
< x
! stats: items 0, fired 0, idle 0, bound 0
! stream: line 1: 100 BadWord
? 6
leaves t
| p3l-trace 1
| end 0 0
leaves m.p3l = double

$ run h.p3l --processors 16 --trace t
< 0
! trap: item 1: division by zero in main
? 7
leaves t = trace
leaves m.p3l = double

$ run h.p3l --processors 4 --stats --trace t
< 0
! stats: items 1, fired 3, idle 0, bound 3
! trap: item 1: division by zero in main
? 7
leaves t = trace
leaves m.p3l = double

fails take 1
$ run m.p3l --processors 16 --trace t --stats
< 1
! stats: items 0, fired 0, idle 0, bound 0
! read fault
? 8
leaves t
| p3l-trace 1
| end 0 0
leaves m.p3l = double

fails put 1 after 0
$ run m.p3l --processors 16 --trace t --stats
< 1
< 2
< -3
! write fault
? 10
none t

# The first put of the output fails after its first byte.
fails put 1 after 1
$ run m.p3l --processors 16 --trace t --stats
< 1
> 3\
! write fault
? 10
none t

= An image leaves the trace of its program.

file m.p3l = double
$ compile m.p3l --processors 4 --output i
$ exec i --trace t
< 1
> 3
leaves t = trace
leaves m.p3l = double

= Each file of a traced run fails in turn.
file m.p3l = double
file h.p3l = hundred
file a.p3l = farmed
file i = double-image
file c
| default = 1
file p
| 0 2 1 0 2 1 0 2 1
file early
| 1 1 0
file later
| 0 2 0 1\
file none
file broken.p3l = undeclared
file empty.p3l

fails file 1
$ run m.p3l --processors 16 --costs c --schedule file:p --trace t --stats
< 1
< 2
< -3
! file fault: m.p3l
? 9
none t

fails file 2
$ run m.p3l --processors 16 --costs c --schedule file:p --trace t --stats
< 1
< 2
< -3
! file fault: c
? 9
none t

fails file 3
$ run m.p3l --processors 16 --costs c --schedule file:p --trace t --stats
< 1
< 2
< -3
! file fault: p
? 9
none t

fails file 4
$ run m.p3l --processors 16 --costs c --schedule file:p --trace t --stats
< 1
< 2
< -3
> 3
> 5
> -5
! write fault
? 10
none t

fails file 2
$ run m.p3l --processors 16 --trace t --stats
< 1
> 3
! write fault
? 10
none t

$ run broken.p3l --processors 16 --trace t
< 1
< 2
< -3
! source: 2:8: 40 Undeclared
? 3
none t

$ run empty.p3l --processors 4 --stats --trace t
< 1
! source: 1:1: 21 NoMain
? 3
none t

$ run m.p3l --processors 16 --trace
< 1
< 2
< -3
! usage: the words are not a command of p3l
? 2
none t

= What a run traces holds.
file m.p3l = double
file h.p3l = hundred
file a.p3l = farmed
file i = double-image
file c
| default = 1
file p
| 0 2 1 0 2 1 0 2 1
file early
| 1 1 0
file later
| 0 2 0 1\
file none
file broken.p3l = undeclared
file empty.p3l

# What one step writes, the next reads, and the next run writes over it.
$ run m.p3l --processors 16 --schedule seed:7 --trace t
< 1
< 2
< -3
> 3
> 5
> -5
$ check-trace m.p3l --processors 16 --trace t
< 1
< 2
< -3
> trace holds: 9 fired, 0 idle
$ exec i --schedule seed:3 --trace t
< 1
< 2
< -3
> 3
> 5
> -5
$ check-trace m.p3l --processors 4 --trace t
< 1
< 2
< -3
> trace holds: 9 fired, 0 idle
$ run a.p3l --processors 8 --schedule seed:1 --trace t --capacity 1
< 1
< 2
< -3
> 6
> 9
> -6
$ check-trace a.p3l --processors 8 --trace t --capacity 1
< 1
< 2
< -3
> trace holds: 18 fired, 0 idle

$ run m.p3l --processors 4 --trace t --schedule rr
< 1
< 2
> 3
> 5
$ check-trace m.p3l --processors 4 --trace t
< 1
< 2
> trace holds: 6 fired, 0 idle
$ run m.p3l --processors 4 --trace t --schedule seed:1
< 4
> 9
$ check-trace m.p3l --processors 4 --trace t
< 4
> trace holds: 3 fired, 0 idle
$ run m.p3l --processors 4 --trace t --schedule seed:2
$ check-trace m.p3l --processors 4 --trace t
> trace holds: 0 fired, 0 idle
"#;

#[test]
fn runs_are_traced_to_each_ending(rt: HostRuntime) -> Result<(), Fail> {
    play(&rt, rt.alloc(), CASES)
}
