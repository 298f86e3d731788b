// The first faults of `seq` modules, with their places.

use p3l_ast::{Entry, Program, SourceRefusal};
use p3l_body::check_body;
use p3l_reader::read;
use p3l_types::Consts;
use std::alloc::{AllocError, Global};
use std::process::Abort;
use std::test::Fail;

/// Checks the first module after its constants.
fn check(alloc: Global, program: &Program) -> Result<(), SourceRefusal> {
    let mut consts = Consts::new(alloc)?;
    for entry in program.entries.as_slice() {
        match entry {
            Entry::Constant(spot, value) => {
                if consts.get(&spot.name).is_none() {
                    consts.add(alloc, &spot.name, *value)?;
                }
            }
            Entry::Module(module) => {
                check_body(alloc, module, 0, &consts)?;
                return Ok(());
            }
        }
    }
    Ok(())
}

/// The number of the first fault with its line and column, and `0` where there is none.
fn fault(alloc: Global, text: &str) -> Result<String, AllocError> {
    let checked = match read(alloc, text.as_bytes()) {
        Ok(program) => check(alloc, &program),
        Err(refusal) => Err(refusal),
    };
    match checked {
        Ok(()) => String::from_str(alloc, "0"),
        Err(SourceRefusal::At { fault, pos }) => {
            let number = fault.number();
            let line = pos.line;
            let col = pos.col;
            format!(in alloc; "{number} {line}:{col}")
        }
        Err(SourceRefusal::NoMemory) => String::from_str(alloc, "no memory"),
    }
}

/// Each line has a fault with its place in line 1, and a program.
const HEADS: &str = "0 | seq m in(int x) out(int y) ${ y = x; }$ end seq
10 1:16 | seq m in(int a[K]) out(int y) ${ y = 1; }$ end seq
11 1:32 | const K = 0; seq m in(int a[2][K]) out(int y) ${ y = 1; }$ end seq
11 1:16 | seq m in(int a[0][K]) out(int y) ${ y = 1; }$ end seq
11 1:16 | seq m in(int a[65537]) out(int y) ${ y = 1; }$ end seq
11 1:25 | seq m in(int a[1][1][1][1]) out(int y) ${ y = 1; }$ end seq
10 1:25 | seq m in(int a[1][1][1][K]) out(int y) ${ y = 1; }$ end seq
0 | seq m in(int a[256][256]) out(int y) ${ y = 1; }$ end seq
12 1:14 | seq m in(int a[256][257]) out(int y) ${ y = 1; }$ end seq
12 1:28 | seq m in(int a[65536], int a) out(int y) ${ y = 1; }$ end seq
20 1:21 | seq m in(int x, int x) out(int y) ${ y = 1; }$ end seq
20 1:38 | const K = 1; seq m in(int x) out(int x, int K) ${ x = 1; }$ end seq
20 1:38 | const K = 1; seq m in(int x) out(int K) ${ K = 1; }$ end seq
30 1:35 | seq m in(int x) out(int y) budget 0 ${ y = z; }$ end seq
30 1:35 | seq m in(int x) out(int y) budget 100000001 ${ int y; }$ end seq
10 1:35 | seq m in(int x) out(int y) budget K ${ y = x; }$ end seq
0 | const K = 5; seq m in(int x) out(int y) budget K rescue -K ${ y = x; }$ end seq
0 | seq m in(int x) out(int y) rescue -9223372036854775807 ${ y = x; }$ end seq
10 1:35 | seq m in(int x) out(int y) rescue K ${ y = z; }$ end seq const K = 1;
10 1:36 | seq m in(int x) out(int y) rescue -K ${ int y; }$ end seq
10 1:35 | seq m in(int x) out(int y) budget L rescue K ${ y = z; }$ end seq
30 1:35 | seq m in(int x) out(int y) budget 0 rescue K ${ y = z; }$ end seq
10 1:44 | seq m in(int x) out(int y) budget 1 rescue K ${ y = z; }$ end seq";

/// Each line has a fault with its place, and a body in line 2.
const BODIES: &str = "0 | ${ y = x; b[x] = a[0][x]; }$
0 | ${ int t[65536]; y = t[x]; }$
10 2:10 | ${ int t[L]; }$
10 2:20 | ${ int t[1]; int u[t]; }$
11 2:10 | ${ int t[0]; }$
11 2:19 | ${ int t[2][2][2][2]; }$
12 2:8 | ${ int t[257][256]; }$
12 2:22 | ${ int t[65536]; int u; }$
41 2:8 | ${ int x; y = z; }$
41 2:15 | ${ int i; int i; }$
41 2:8 | ${ int K; }$
11 2:10 | ${ int b[0]; }$
40 2:8 | ${ y = z; }$
40 2:4 | ${ z = w; }$
40 2:6 | ${ b[z] = w; }$
40 2:4 | ${ main = 1; }$
40 2:17 | ${ if (x) { y = u; } else { y = v; } }$
40 2:33 | ${ if (x) { y = 1; } else { y = v; } }$
40 2:11 | ${ while (u) { v = 1; } }$
40 2:16 | ${ for (y = 0; u < 1; v = 1) { w = 1; } }$
40 2:23 | ${ for (y = 0; y < 1; v = 1) { w = 1; } }$
40 2:32 | ${ for (y = 0; y < 1; y = 1) { w = 1; } }$
44 2:4 | ${ x = 1; }$
44 2:4 | ${ a = z; }$
44 2:4 | ${ K = x; }$
42 2:4 | ${ y[0] = 1; }$
42 2:8 | ${ y = x[z]; }$
42 2:9 | ${ y = -x[0] + 1; }$
42 2:8 | ${ y = K[0]; }$
43 2:8 | ${ y = a; }$
43 2:8 | ${ y = a[0]; }$
43 2:8 | ${ y = a[0][0][0]; }$
43 2:4 | ${ b = 1; }$
43 2:4 | ${ b[0][z] = 1; }$
43 2:6 | ${ b[b] = 1; }$";

/// The text before a body.
const HEAD: &str = "const K = 3; seq main in(int x, int a[2][3]) out(int y, int b[4])";

/// A program must have this fault.
fn check_program(rt: &impl Abort, alloc: Global, found: &str, text: &str) -> Result<(), Fail> {
    let answer = fault(alloc, text)?;
    assert!(rt; answer.as_str() == found, "{answer} for {text}");
    Ok(())
}

/// Each program of a table must have its fault.
fn check_programs(rt: &impl Abort, alloc: Global, table: &str) -> Result<(), Fail> {
    for line in table.lines() {
        let (found, text) = line.split_once(" | ").ok_or("no fault")?;
        check_program(rt, alloc, found, text)?;
    }
    Ok(())
}

/// Each body of a table must have its fault after a head.
fn check_bodies(rt: &impl Abort, alloc: Global, head: &str, table: &str) -> Result<(), Fail> {
    for line in table.lines() {
        let (found, body) = line.split_once(" | ").ok_or("no fault")?;
        let text = format!(in alloc; "{head}\n{body}\nend seq")?;
        check_program(rt, alloc, found, text.as_str())?;
    }
    Ok(())
}

#[test]
fn faults_of_ports_and_budgets(rt: HostRuntime) -> Result<(), Fail> {
    check_programs(&rt, rt.alloc(), HEADS)
}

#[test]
fn faults_of_locals_and_statements(rt: HostRuntime) -> Result<(), Fail> {
    check_bodies(&rt, rt.alloc(), HEAD, BODIES)
}
