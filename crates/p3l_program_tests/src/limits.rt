// Programs at the limits of their sizes, with ample memory.

use crate::world::{play, take_block, take_with_file};
use std::alloc::Global;
use std::process::Abort;
use std::test::Fail;

const CASES: &str = r#"
= Five hundred and ten workers.
# As many workers as 512 processors have room for.
file m.p3l
| seq f in(int x) out(int y) ${ y = x * 2 + 1; }$ end seq farm main in(int x) out(int y) workers 510 f in(x) out(y) end farm\

$ run m.p3l --processors 512 --capacity 1024 --stats
< 1
< 2
< -3
> 3
> 5
> -5
! stats: items 3, fired 15, idle 0, bound 15

= Counts on all processors, with their certificate, which holds.
# A farm whose body takes five hundred times as long as what stands before it.
file m.p3l
| seq f in(int x) out(int y) ${ y = x; }$ end seq seq g in(int x) out(int y) ${ y = x; }$ end seq farm w in(int x) out(int y) g in(x) out(y) end farm pipe main in(int x) out(int y) f in(x) out(int t) w in(t) out(y) end pipe\
file c
| setup = 0
| word = 0
| [seq]
| f = 1
| g = 500

$ explain m.p3l --processors 512 --costs c --cert e
> processors 512 used 503 service 1
> 0 pipe main procs 503 service 1
> 1 seq f procs 1 service 1
> 2 farm w procs 502 service 1 count 500
> 3 seq g procs 1 service 500
$ verify-cert m.p3l --costs c --cert e
> certificate holds: processors 512 used 503 service 1

= A hundred and twenty eight instances.
file m.p3l
| seq f in(int x) out(int y) ${ y = x; }$ end seq seq add in(int x, int y) out(int z) ${ z = x + y; }$ end seq seq g in(int x[4]) out(int y[4]) ${ y[0] = x[0]; }$ end seq farm w in(int a) out(int b) f in(a) out(b) end farm
| pipe p in(int a) out(int b) f in(a) out(int c) f in(c) out(int d) f in(d) out(int e) f in(e) out(int g) f in(g) out(b) end pipe pipe main in(int c0) out(int z) p in(c0) out(int c1) p in(c1) out(int c2) p in(c2) out(int c3) p in(c3) out(int c4) p in(c4) out(int c5) p in(c5) out(int c6) p in(c6) out(int c7) p in(c7) out(int c8) p in(c8) out(int c9) p in(c9) out(int c10) p in(c10) out(int c11) p in(c11) out(int c12) p in(c12) out(int c13) p in(c13) out(int c14) p in(c14) out(int c15) p in(c15) out(int c16) p in(c16) out(int c17) p in(c17) out(int c18) p in(c18) out(int c19) p in(c19) out(int c20) p in(c20) out(int c21) f in(c21) out(z) end pipe

# It keeps the rules, and is run.
$ check m.p3l
> ok: 6 modules, 128 instances
$ run m.p3l --processors 128
< 7
< -7
> 7
> -7
"#;

#[test]
fn workers_counts_and_instances(rt: HostRuntime) -> Result<(), Fail> {
    play(&rt, rt.alloc(), CASES)
}

/// The `count` numbers from 0 on, with a blank before each.
fn numbers(alloc: Global, count: u32) -> Result<String, Fail> {
    let mut text = String::new(alloc);
    for number in 0..count {
        text.push_str(format!(in alloc; " {number}")?.as_str())?;
    }
    Ok(text)
}

/// Runs a program on all processors, on one item of the `count` numbers from 0 on.
fn run_on(
    rt: &impl Abort,
    alloc: Global,
    program: &str,
    count: u32,
    output: &str,
) -> Result<(), Fail> {
    let item = numbers(alloc, count)?;
    let words = "run m.p3l --processors 512 --capacity 1024";
    let block = format!(in alloc; "\nfile m.p3l = {program}\n$ {words}\n<{item}\n> {output}")?;
    take_block(rt, alloc, block.as_str())
}

#[test]
fn pieces_and_segments_on_all_processors(rt: HostRuntime) -> Result<(), Fail> {
    // The sum of 1 to 508.
    run_on(&rt, rt.alloc(), "map-of-508", 508, "129286")?;
    // Pairs k - (k + 1) are -1 at level 0 and 0 above.
    run_on(&rt, rt.alloc(), "reduce-of-512", 512, "0")
}

/// Three hundred bodies, and a farm of the last.
fn many_modules(alloc: Global) -> Result<String, Fail> {
    let mut text = String::new(alloc);
    for place in 0..300u32 {
        let module = "in(int x) out(int y) ${ y = x; }$ end seq";
        text.push_str(format!(in alloc; "seq f{place} {module}\n")?.as_str())?;
    }
    text.push_str("farm main in(int x) out(int y) f299 in(x) out(y) end farm\n")?;
    Ok(text)
}

/// They are counted, compiled and run.
const COMPILED: &str = r#"check m.p3l
> ok: 301 modules, 2 instances
$ compile m.p3l --processors 4 --output i
$ exec i
< 5
> 5"#;

#[test]
fn three_hundred_modules(rt: HostRuntime) -> Result<(), Fail> {
    let text = many_modules(rt.alloc())?;
    let bytes = text.as_str().as_bytes();
    take_with_file(&rt, rt.alloc(), "", "m.p3l", bytes, COMPILED)
}

/// Runs items by as many rounds of picks, and checks the trace that the run leaves.
fn trace(rt: &impl Abort, alloc: Global, input: &str, output: &str) -> Result<(), Fail> {
    let picks = "0 2 1\n".repeat(alloc, 700)?;
    let steps = format!(in alloc;
        "{RUN}{input}{output}\n$ {CHECK}{input}\n> trace holds: 2100 fired, 0 idle"
    )?;
    let bytes = picks.as_str().as_bytes();
    take_with_file(rt, alloc, PICKED, "p", bytes, steps.as_str())
}

/// A program that changes nothing.
const PICKED: &str = r#"
file m.p3l
| seq main in(int x) out(int y) ${ y = x; }$ end seq\"#;

const RUN: &str = "run m.p3l --processors 4 --schedule file:p --trace t";

const CHECK: &str = "check-trace m.p3l --processors 4 --trace t";

#[test]
fn thousands_of_picks(rt: HostRuntime) -> Result<(), Fail> {
    let input = "\n< 1".repeat(rt.alloc(), 700)?;
    let output = "\n> 1".repeat(rt.alloc(), 700)?;
    trace(&rt, rt.alloc(), input.as_str(), output.as_str())
}
