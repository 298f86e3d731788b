// The worker counts that are chosen, and the programs and costs that have none.

use crate::world::play;
use std::test::Fail;

const CASES: &str = r#"
= Counts are explained or refused by each command.
file a.p3l = farmed
file a.toml = farmed-costs
none new

$ explain a.p3l --processors 8 --costs a.toml
> processors 8 used 8 service 12
> 0 pipe main procs 8 service 12
> 1 seq f procs 1 service 10
> 2 farm w procs 7 service 12 count 5
> 3 seq g procs 1 service 60

$ explain a.p3l --processors 9 --costs a.toml
> processors 9 used 9 service 10
> 0 pipe main procs 9 service 10
> 1 seq f procs 1 service 10
> 2 farm w procs 8 service 10 count 6
> 3 seq g procs 1 service 60

# More processors make it no faster.
$ explain a.p3l --processors 20 --costs a.toml
> processors 20 used 9 service 10
> 0 pipe main procs 9 service 10
> 1 seq f procs 1 service 10
> 2 farm w procs 8 service 10 count 6
> 3 seq g procs 1 service 60

$ explain a.p3l --processors 3 --costs a.toml
! too few processors: need 4
? 5

# A line for each number of processors at which the service time falls.
$ advise a.p3l --costs a.toml
> processors 4 used 4 service 60 speed-up 1.00
> processors 5 used 5 service 30 speed-up 2.00
> processors 6 used 6 service 20 speed-up 3.00
> processors 7 used 7 service 15 speed-up 4.00
> processors 8 used 8 service 12 speed-up 5.00
> processors 9 used 9 service 10 speed-up 6.00
> main pipe service 10
>   f seq service 10 bottleneck: its work
>   w farm count 6 service 10
>     g seq service 60
> more than 9 processors do not help: 503 are idle
> f in a farm of 502 workers: service 1

$ advise a.p3l --costs a.toml --processors 5 --processes
> stream: 0 source 1 sink
> 1 seq f: 2 run
> 2 farm w: 3 emit 4 collect
> 3 seq g: 5 run 6 run

$ advise a.p3l --processors 3 --costs a.toml
! too few processors: need 4
? 5

$ run a.p3l --processors 3 --costs a.toml --stats
< 1
! too few processors: need 4
? 5

$ compile a.p3l --processors 3 --output i --costs a.toml
! too few processors: need 4
? 5

$ check-trace a.p3l --processors 3 --trace t
< 1
! too few processors: need 4
? 5

= Costs are refused.
none new

file a.p3l = farmed
file a.toml
| setup = 0
| word = 0
| [seq]
| f = 10
$ explain a.p3l --processors 8 --costs a.toml
! costs: 53 Missing g
? 4

file a.p3l = farmed
file a.toml
| speed = 1
| setup = 0
| word = 0
| [seq]
| f = 10
| g = 60
$ explain a.p3l --processors 8 --costs a.toml
! costs: 51 BadKey speed
? 4

file a.p3l = farmed
file a.toml
| setup = 0
| word = 0
| [seq]
| f = 10
$ run a.p3l --processors 16 --costs a.toml --stats
< 1
! costs: 53 Missing g
? 4

file a.p3l = farmed
file a.toml
| speed = 1
| setup = 0
| word = 0
| [seq]
| f = 10
| g = 60
$ verify-cert a.p3l --cert c --costs a.toml
! costs: 51 BadKey speed
? 4

= Programs are counted or refused and not run.

# Programs are counted or refused.
file m.p3l = farmed
$ check m.p3l
> ok: 4 modules, 4 instances

# A farm in a unit.
file m.p3l
| seq f in(int x) out(int y)
| ${ y = x + 1; }$
| end seq
|
| seq g in(int x) out(int y)
| ${ y = x * 3; }$
| end seq
|
| farm w in(int x) out(int y)
|   g in(x) out(y)
| end farm
|
| comp main in(int x) out(int y)
|   f in(x) out(int t)
|   w in(t) out(y)
| end comp
$ check m.p3l
! source: 15:3: 28 NotInComp
? 3

# Three segments, which is no power of two.
file m.p3l
| seq sub in(int x, int y) out(int z)
| ${
|   z = x - y;
| }$
| end seq
|
| reduce main in(int a[5]) out(int s) workers 3
|   sub in(a[*i]) out(s)
| end reduce
$ check m.p3l
! source: 7:45: 30 BadWorkers
? 3

# Eight segments, of five elements.
file m.p3l
| seq sub in(int x, int y) out(int z)
| ${
|   z = x - y;
| }$
| end seq
|
| reduce main in(int a[5]) out(int s) workers 8
|   sub in(a[*i]) out(s)
| end reduce
$ check m.p3l
! source: 7:45: 30 BadWorkers
? 3

file m.p3l
$ check m.p3l
! source: 1:1: 21 NoMain
? 3

# A program that breaks a rule is not run.
file m.p3l = undeclared
$ run m.p3l --processors 16 --stats
< 1
! source: 2:8: 40 Undeclared
? 3

file m.p3l
| seq sub in(int x, int y) out(int z)
| ${
|   z = x - y;
| }$
| end seq
|
| reduce main in(int a[5]) out(int s) workers 3
|   sub in(a[*i]) out(s)
| end reduce
$ run m.p3l --processors 16 --stats
< 1 2 3 4 5
! source: 7:45: 30 BadWorkers
? 3

file m.p3l
$ run m.p3l --processors 16 --stats
! source: 1:1: 21 NoMain
? 3
"#;

#[test]
fn counts_are_explained_or_refused_by_each_command(rt: HostRuntime) -> Result<(), Fail> {
    play(&rt, rt.alloc(), CASES)
}
