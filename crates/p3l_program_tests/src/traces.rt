// Traces held against runs: those that hold, that differ, and that are no traces.

use crate::damage::{Evidence, refuse_beginnings};
use crate::texts::text_of;
use crate::world::play;
use std::test::Fail;

const CASES: &str = r#"
= Traces that hold.

# Traces of whole runs hold.
file m.p3l = double
file t = trace
$ check-trace m.p3l --processors 16 --trace t
< 1
> trace holds: 3 fired, 0 idle

file m.p3l = double
file t
| p3l-trace 1
| 0 source
| 2 run
| 1 sink
| 0 source
| 2 run
| 1 sink
| 0 source
| 2 run
| 1 sink
| end 9 0
$ check-trace m.p3l --processors 16 --trace t
< 1
< 2
< -3
> trace holds: 9 fired, 0 idle

file m.p3l = farmed
file t
| p3l-trace 1
| 0 source
| 2 run
| 3 emit
| 5 run
| 4 collect
| 1 sink
| end 6 0
$ check-trace m.p3l --processors 16 --trace t
< 1
> trace holds: 6 fired, 0 idle

# Traces of other picks hold.
# Picks that can't fire are idle.
file m.p3l = double
file t
| p3l-trace 1
| 1 idle
| 0 source
| 2 run
| 2 idle
| 1 sink
| end 3 2
$ check-trace m.p3l --processors 16 --trace t
< 1
> trace holds: 3 fired, 2 idle

# It may stop before the run does, and go on after its end.
file m.p3l = double
file t
| p3l-trace 1
| 0 source
| end 1 0
$ check-trace m.p3l --processors 16 --trace t
< 1
< 2
> trace holds: 1 fired, 0 idle

file m.p3l = double
file t
| p3l-trace 1
| 0 source
| 2 run
| 1 sink
| 0 idle
| end 3 1
$ check-trace m.p3l --processors 16 --trace t
< 1
> trace holds: 3 fired, 1 idle

# Nothing is requested at the last line, whatever the input has after.
file m.p3l = double
file t
| p3l-trace 1
| 0 source
| end 1 0
$ check-trace m.p3l --processors 16 --trace t
< 1
< x
> trace holds: 1 fired, 0 idle

# Where no line is that of a pick, no item is requested.
file m.p3l = double
file t
| p3l-trace 1
| end 0 0
$ check-trace m.p3l --processors 16 --trace t
< x
> trace holds: 0 fired, 0 idle

# Nothing fires after a trap.
file m.p3l = hundred
file t
| p3l-trace 1
| 0 source
| 2 run
| 1 sink
| 0 idle
| end 3 1
$ check-trace m.p3l --processors 16 --trace t
< 0
< 5
> trace holds: 3 fired, 1 idle

= Traces that differ and that are none.
file m.p3l = double

# A pick differs.
file t
| p3l-trace 1
| 2 run
| 2 run
| 1 sink
| end 3 0
$ check-trace m.p3l --processors 16 --trace t
< 1
! evidence: 111 Differs 2
? 13

file t
| p3l-trace 1
| 0 idle
| end 0 1
$ check-trace m.p3l --processors 16 --trace t
< 1
! evidence: 111 Differs 2
? 13

file t
| p3l-trace 1
| 0 source
| 2 emit
| 1 sink
| end 3 0
$ check-trace m.p3l --processors 16 --trace t
< 1
! evidence: 111 Differs 3
? 13

# There is no such process.
file t
| p3l-trace 1
| 0 source
| 2 run
| 3 idle
| end 2 1
$ check-trace m.p3l --processors 16 --trace t
< 1
! evidence: 111 Differs 4
? 13

file t = trace
$ check-trace m.p3l --processors 16 --trace t
! evidence: 111 Differs 2
? 13

# A count differs.
file t
| p3l-trace 1
| 0 source
| 2 run
| 1 sink
| end 3 1
$ check-trace m.p3l --processors 16 --trace t
< 1
! evidence: 111 Differs 5
? 13

file t
| p3l-trace 1
| 0 source
| 2 run
| 1 sink
| end 2 0
$ check-trace m.p3l --processors 16 --trace t
< 1
! evidence: 111 Differs 5
? 13

# A line that differs comes before what the input ends with.
file t = trace
$ check-trace m.p3l --processors 16 --trace t
< x
! evidence: 111 Differs 2
? 13

file t
| p3l-trace 1
| 0 source
| 2 run
| 1 sink
| end 3 1
$ check-trace m.p3l --processors 16 --trace t
< 1
< x
! evidence: 111 Differs 5
? 13

# A stream that is refused is reported: an item is requested before each line of a pick where none
# is waiting.
file t = trace
$ check-trace m.p3l --processors 16 --trace t
< 1
< x
! stream: line 2: 100 BadWord
? 6

file t = trace
$ check-trace m.p3l --processors 16 --trace t
< 1
< 2 3
! stream: line 2: 101 WrongCount 2
? 6

file t
| p3l-trace 1
| 0 idle
| end 0 1
$ check-trace m.p3l --processors 16 --trace t
< 9223372036854775808
! stream: line 1: 102 OutOfRange
? 6

# Other texts are no traces.
file t
| p3l-trace 2
| 0 source
| 2 run
| 1 sink
| end 3 0
$ check-trace m.p3l --processors 16 --trace t
< 1
! evidence: 110 BadLine 1
? 13

file t
| p3l-trace 1
| 00 source
| 2 run
| 1 sink
| end 3 0
$ check-trace m.p3l --processors 16 --trace t
< 1
! evidence: 110 BadLine 2
? 13

file t
| p3l-trace 1
| 0 source
| 2  run
| 1 sink
| end 3 0
$ check-trace m.p3l --processors 16 --trace t
< 1
! evidence: 110 BadLine 3
? 13

file t
| p3l-trace 1
| 0 source
| 2 run
| 4294967296 idle
| end 2 1
$ check-trace m.p3l --processors 16 --trace t
< 1
! evidence: 110 BadLine 4
? 13

file t
| p3l-trace 1
| 0 source
| 2 run
| 1 sink
| end 3 0
|
$ check-trace m.p3l --processors 16 --trace t
< 1
! evidence: 110 BadLine 6
? 13

# The trace holds, and reading the input fails after its first item.
fails take 3
file t = trace
$ check-trace m.p3l --processors 16 --trace t
< 1
< 2
! read fault
? 8

# A line differs before the fault is reported.
fails take 1
file t = trace
$ check-trace m.p3l --processors 16 --trace t
< 1
! evidence: 111 Differs 2
? 13
"#;

#[test]
fn traces_hold_or_differ_or_are_none(rt: HostRuntime) -> Result<(), Fail> {
    play(&rt, rt.alloc(), CASES)
}

#[test]
fn no_beginning_of_a_trace_is_one(rt: HostRuntime) -> Result<(), Fail> {
    let bytes = text_of(rt.alloc(), "trace")?;
    let trace = Evidence {
        name: "t",
        bytes: bytes.as_slice(),
        head: "\nfile m.p3l = double",
        step: "check-trace m.p3l --processors 16 --trace t\n< 1",
    };
    refuse_beginnings(&rt, rt.alloc(), &trace, "110 BadLine", 1)
}
