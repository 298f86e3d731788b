// Programs rewritten for a lesser service time, as they were written by hand.

use crate::world::play;
use std::test::Fail;

const CASES: &str = r#"
= Programs are rewritten for a lesser service time.
none new

# A pipe of two bodies.
file m.p3l = piped
file c = farmed-costs
$ rewrite m.p3l --processors 8 --costs c
>= fused

# A farm is there already, and the other stage is the slow one.
file m.p3l = farmed
# Costs by which the first body takes six times as long.
file c
| setup = 0
| word = 0
| [seq]
| f = 60
| g = 10
$ rewrite m.p3l --processors 8 --costs c
> seq f in(int x) out(int y)
> ${
>   y = x + 1;
> }$
> end seq
>
> seq g in(int x) out(int y)
> ${
>   y = x * 3;
> }$
> end seq
>
> farm w in(int x) out(int y)
>   g in(x) out(y)
> end farm
>
> farm f_farm in(int x) out(int y)
>   f in(x) out(y)
> end farm
>
> pipe main in(int x) out(int y)
>   f_farm in(x) out(int t)
>   w in(t) out(y)
> end pipe

# A pipe whose sequential stage has a name of 60 bytes, before a farm: its farm's name would have
# 65.
file m.p3l
| seq f23456789012345678901234567890123456789012345678901234567890 in(int x) out(int y)
| ${
|   y = x + 1;
| }$
| end seq
|
| seq g in(int x) out(int y)
| ${
|   y = x * 3;
| }$
| end seq
|
| farm w in(int x) out(int y)
|   g in(x) out(y)
| end farm
|
| pipe main in(int x) out(int y)
|   f23456789012345678901234567890123456789012345678901234567890 in(x) out(int t)
|   w in(t) out(y)
| end pipe
# The same of all other bodies than `g`.
file c
| setup = 0
| word = 0
| default = 60
| [seq]
| g = 10
$ rewrite m.p3l --processors 8 --costs c
> seq f23456789012345678901234567890123456789012345678901234567890 in(int x) out(int y)
> ${
>   y = x + 1;
> }$
> end seq
>
> seq g in(int x) out(int y)
> ${
>   y = x * 3;
> }$
> end seq
>
> farm w in(int x) out(int y)
>   g in(x) out(y)
> end farm
>
> pipe main in(int x) out(int y)
>   f23456789012345678901234567890123456789012345678901234567890 in(x) out(int t)
>   w in(t) out(y)
> end pipe

# A name of 59 bytes, whose farm has one of 64.
file m.p3l
| seq f2345678901234567890123456789012345678901234567890123456789 in(int x) out(int y)
| ${
|   y = x + 1;
| }$
| end seq
|
| seq g in(int x) out(int y)
| ${
|   y = x * 3;
| }$
| end seq
|
| farm w in(int x) out(int y)
|   g in(x) out(y)
| end farm
|
| pipe main in(int x) out(int y)
|   f2345678901234567890123456789012345678901234567890123456789 in(x) out(int t)
|   w in(t) out(y)
| end pipe
file c
| setup = 0
| word = 0
| default = 60
| [seq]
| g = 10
$ rewrite m.p3l --processors 8 --costs c
> seq f2345678901234567890123456789012345678901234567890123456789 in(int x) out(int y)
> ${
>   y = x + 1;
> }$
> end seq
>
> seq g in(int x) out(int y)
> ${
>   y = x * 3;
> }$
> end seq
>
> farm w in(int x) out(int y)
>   g in(x) out(y)
> end farm
>
> farm f2345678901234567890123456789012345678901234567890123456789_farm in(int x) out(int y)
>   f2345678901234567890123456789012345678901234567890123456789 in(x) out(y)
> end farm
>
> pipe main in(int x) out(int y)
>   f2345678901234567890123456789012345678901234567890123456789_farm in(x) out(int t)
>   w in(t) out(y)
> end pipe

file m.p3l = piped
file c = farmed-costs
$ rewrite m.p3l --processors 3 --costs c
> seq f in(int x) out(int y)
> ${
>   y = x + 1;
> }$
> end seq
>
> seq g in(int x) out(int y)
> ${
>   y = x * 3;
> }$
> end seq
>
> pipe main in(int x) out(int y)
>   f in(x) out(int t)
>   g in(t) out(y)
> end pipe

file m.p3l = farmed
file c
| setup = 0
| word = 0
| [seq]
| f = 60
| g = 10
$ rewrite m.p3l --processors 4 --costs c
> seq f in(int x) out(int y)
> ${
>   y = x + 1;
> }$
> end seq
>
> seq g in(int x) out(int y)
> ${
>   y = x * 3;
> }$
> end seq
>
> farm w in(int x) out(int y)
>   g in(x) out(y)
> end farm
>
> pipe main in(int x) out(int y)
>   f in(x) out(int t)
>   w in(t) out(y)
> end pipe

file m.p3l = double
$ rewrite m.p3l --processors 512
> seq main in(int x) out(int y)
> ${
>   y = x * 2 + 1;
> }$
> end seq

= What is written is a program again.
# Its stages in one process, of which `main` is a farm.
file m.p3l = fused
file c = farmed-costs

# What is written is a program of the service time that the costs give it, its own canonical text,
# and runs as the program that it was made of.
$ fmt m.p3l
>= fused
$ explain m.p3l --processors 8 --costs c
> processors 8 used 8 service 12
> 0 farm main procs 8 service 12 count 6
> 1 comp main_work procs 1 service 70
$ run m.p3l --processors 8 --costs c
< 1
< 2
< -3
> 6
> 9
> -6
$ rewrite m.p3l --processors 8 --costs c
>= fused

= Traps stay where they were.
# A trap of the second stage.
# The same fused.
file m.p3l
| seq f in(int x) out(int y) ${ y = x - 1; }$ end seq seq g in(int x) out(int y) ${ y = 100 / x; }$ end seq pipe main in(int x) out(int y) f in(x) out(int t) g in(t) out(y) end pipe\
file n.p3l
| seq f in(int x) out(int y)
| ${
|   y = x - 1;
| }$
| end seq
|
| seq g in(int x) out(int y)
| ${
|   y = 100 / x;
| }$
| end seq
|
| comp main_work in(int x) out(int y)
|   f in(x) out(int t)
|   g in(t) out(y)
| end comp
|
| farm main in(int x) out(int y)
|   main_work in(x) out(y)
| end farm
file c = farmed-costs

$ rewrite m.p3l --processors 8 --costs c
> seq f in(int x) out(int y)
> ${
>   y = x - 1;
> }$
> end seq
>
> seq g in(int x) out(int y)
> ${
>   y = 100 / x;
> }$
> end seq
>
> comp main_work in(int x) out(int y)
>   f in(x) out(int t)
>   g in(t) out(y)
> end comp
>
> farm main in(int x) out(int y)
>   main_work in(x) out(y)
> end farm
$ run m.p3l --processors 8 --costs c
< 3
< 1
< 5
> 50
! trap: item 2: division by zero in g
? 7
$ run n.p3l --processors 8 --costs c
< 3
< 1
< 5
> 50
! trap: item 2: division by zero in g
? 7

= Rewriting is refused by the first of its stages.
none new

# No program, and a file of costs.
# The first stage that refuses decides, before an output that can't be put.
fails put 1 after 0
file c
| speed = 1
$ rewrite m.p3l --processors 513 --costs c
! usage: the words are not a command of p3l
? 2

fails put 1 after 0
file c
| speed = 1
$ rewrite m.p3l --processors 3 --costs c
! file fault: m.p3l
? 9

fails put 1 after 0
file m.p3l = undeclared
$ rewrite m.p3l --processors 3 --costs c
! source: 2:8: 40 Undeclared
? 3

fails put 1 after 0
file m.p3l = farmed
$ rewrite m.p3l --processors 3 --costs c
! file fault: c
? 9

fails put 1 after 0
file m.p3l = farmed
file c
| speed = 1
$ rewrite m.p3l --processors 3 --costs c
! costs: 51 BadKey speed
? 4

fails put 1 after 0
file m.p3l = piped
file c
| setup = 0
| word = 0
| [seq]
| f = 10
$ rewrite m.p3l --processors 3 --costs c
! costs: 53 Missing g
? 4

fails file 1
file m.p3l = piped
file c = farmed-costs
$ rewrite m.p3l --processors 3 --costs c
! file fault: m.p3l
? 9

fails file 2
file m.p3l = piped
file c = farmed-costs
$ rewrite m.p3l --processors 3 --costs c
! file fault: c
? 9

fails put 1 after 0
file m.p3l = piped
file c = farmed-costs
$ rewrite m.p3l --processors 3 --costs c
! write fault
? 10

fails put 1 after 0
file m.p3l = farmed
$ rewrite m.p3l --processors 3
! too few processors: need 4
? 5
"#;

#[test]
fn programs_are_rewritten_for_a_lesser_service_time(rt: HostRuntime) -> Result<(), Fail> {
    play(&rt, rt.alloc(), CASES)
}
