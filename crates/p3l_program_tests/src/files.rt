// Files that can't be read or written, and files that are too long.

use crate::world::{play, take_with_file};
use std::test::Fail;

const CASES: &str = r#"
= Each file of a command fails in turn.
# All files that the commands below read.
file m.p3l = double
file c
| default = 1
file p
| 0 2 1 0 2 1 0 2 1
file i = double-image
file t = trace
file a.p3l = farmed
file a.toml = farmed-costs
file e = certificate
none new

fails file 1
$ run m.p3l --processors 16 --costs c --schedule file:p --stats
< 1
< 2
< -3
! file fault: m.p3l
? 9

fails file 2
$ run m.p3l --processors 16 --costs c --schedule file:p --stats
< 1
< 2
< -3
! file fault: c
? 9

fails file 3
$ run m.p3l --processors 16 --costs c --schedule file:p --stats
< 1
< 2
< -3
! file fault: p
? 9

fails file 4
$ run m.p3l --processors 16 --costs c --schedule file:p --stats
< 1
< 2
< -3
> 3
> 5
> -5
! stats: items 3, fired 9, idle 0, bound 9

fails file 1
$ exec i --schedule file:p --stats
< 1
< 2
< -3
! file fault: i
? 9

fails file 2
$ exec i --schedule file:p --stats
< 1
< 2
< -3
! file fault: p
? 9

fails file 3
$ exec i --schedule file:p --stats
< 1
< 2
< -3
> 3
> 5
> -5
! stats: items 3, fired 9, idle 0, bound 9

fails file 1
$ compile m.p3l --processors 4 --costs c --output new
! file fault: m.p3l
? 9

fails file 2
$ compile m.p3l --processors 4 --costs c --output new
! file fault: c
? 9

fails file 3
$ compile m.p3l --processors 4 --costs c --output new
! write fault
? 10

fails file 1
$ export m.p3l --processors 4 --costs c --output new
! file fault: m.p3l
? 9

fails file 2
$ export m.p3l --processors 4 --costs c --output new
! file fault: c
? 9

fails file 3
$ export m.p3l --processors 4 --costs c --output new
! write fault
? 10

fails file 1
$ explain a.p3l --processors 8 --costs a.toml --cert new
! file fault: a.p3l
? 9

fails file 2
$ explain a.p3l --processors 8 --costs a.toml --cert new
! file fault: a.toml
? 9

fails file 3
$ explain a.p3l --processors 8 --costs a.toml --cert new
! write fault
? 10

fails file 1
$ verify-cert a.p3l --cert e --costs a.toml
! file fault: a.p3l
? 9

fails file 2
$ verify-cert a.p3l --cert e --costs a.toml
! file fault: a.toml
? 9

fails file 3
$ verify-cert a.p3l --cert e --costs a.toml
! file fault: e
? 9

fails file 4
$ verify-cert a.p3l --cert e --costs a.toml
> certificate holds: processors 8 used 8 service 12

fails file 1
$ check-trace m.p3l --processors 4 --costs c --trace t
< 1
! file fault: m.p3l
? 9

fails file 2
$ check-trace m.p3l --processors 4 --costs c --trace t
< 1
! file fault: c
? 9

fails file 3
$ check-trace m.p3l --processors 4 --costs c --trace t
< 1
! file fault: t
? 9

fails file 4
$ check-trace m.p3l --processors 4 --costs c --trace t
< 1
> trace holds: 3 fired, 0 idle

fails file 1
$ check m.p3l
! file fault: m.p3l
? 9

fails file 2
$ check m.p3l
> ok: 1 modules, 1 instances

fails file 1
$ fmt m.p3l
! file fault: m.p3l
? 9

fails file 1
$ profile m.p3l
< 1
! file fault: m.p3l
? 9

fails file 2
$ profile m.p3l
< 1
> setup = 10
> word = 1
> [seq]
> main = 7

= Each file of a scan fails in turn.
none new

fails file 1
file m.p3l = less-of-four
file p
| 0
$ scan m.p3l --segments 1 --schedule file:p
< 1 2 3 4
! file fault: m.p3l
? 9

fails file 2
file m.p3l = less-of-four
file p
| 0
$ scan m.p3l --segments 1 --schedule file:p
< 1 2 3 4
! file fault: p
? 9

= Each file of a checkpoint fails in turn.
file m.p3l = double
file c
| default = 1
file p
| 0 2 1 0 2 1 0 2 1
none new

# The items end before the eighth pick, with the third on its way.
fails file 1
$ save m.p3l --processors 16 --costs c --schedule file:p --output new
< 1
< 2
< -3
! file fault: m.p3l
? 9

fails file 2
$ save m.p3l --processors 16 --costs c --schedule file:p --output new
< 1
< 2
< -3
! file fault: c
? 9

fails file 3
$ save m.p3l --processors 16 --costs c --schedule file:p --output new
< 1
< 2
< -3
! file fault: p
? 9

fails file 4
$ save m.p3l --processors 16 --costs c --schedule file:p --output new
< 1
< 2
< -3
> 3
> 5
! write fault
? 10
"#;

#[test]
fn each_file_of_a_command_fails_in_turn(rt: HostRuntime) -> Result<(), Fail> {
    play(&rt, rt.alloc(), CASES)
}

/// All files that the commands above read.
const ALL: &str = r#"
file m.p3l = line.p3l
file c
| default = 1
file p
| 0 2 1 0 2 1 0 2 1
file i = double-image
file t = trace
file a.p3l = farmed
file a.toml = farmed-costs
file e = certificate
"#;

const OF_A_LONG_FILE: &str = r#"compile long --processors 4 --output new
! file too long: long
? 9
$ explain m.p3l --processors 4 --costs long
! file too long: long
? 9"#;

/// A file has one blank more than a file may have.
#[test]
fn a_file_that_is_too_long_is_reported(rt: HostRuntime) -> Result<(), Fail> {
    let long = " ".repeat(rt.alloc(), 1_048_577)?;
    let bytes = long.as_str().as_bytes();
    take_with_file(&rt, rt.alloc(), ALL, "long", bytes, OF_A_LONG_FILE)
}
