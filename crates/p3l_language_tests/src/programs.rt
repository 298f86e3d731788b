// The first faults of whole programs, with their places.

use p3l_ast::{Program, SourceRefusal};
use p3l_check::resolve;
use p3l_reader::read;
use std::alloc::{AllocError, Global};
use std::process::Abort;
use std::test::Fail;

/// The number of a fault with its line and column.
fn refused(alloc: Global, refusal: SourceRefusal) -> Result<String, AllocError> {
    match refusal {
        SourceRefusal::At { fault, pos } => {
            let number = fault.number();
            let line = pos.line;
            let col = pos.col;
            format!(in alloc; "{number} {line}:{col}")
        }
        SourceRefusal::NoMemory => String::from_str(alloc, "no memory"),
    }
}

/// Returns the numbers of modules and instances of a program, or its first fault, as a text.
fn resolved(alloc: Global, program: &Program) -> Result<String, AllocError> {
    match resolve(alloc, program) {
        Ok(resolved) => {
            let modules = resolved.tree.modules.len();
            let instances = resolved.tree.nodes.len();
            format!(in alloc; "ok {modules} {instances}")
        }
        Err(refusal) => refused(alloc, refusal),
    }
}

/// Returns the numbers of modules and instances of the program in a text, or its first fault.
fn answer(alloc: Global, text: &str) -> Result<String, AllocError> {
    match read(alloc, text.as_bytes()) {
        Ok(program) => resolved(alloc, &program),
        Err(refusal) => refused(alloc, refusal),
    }
}

/// The rescue number of each module of a program, with `.` for a module that has none.
fn rescues(alloc: Global, text: &str) -> Result<String, Fail> {
    let program = read(alloc, text.as_bytes())?;
    let resolved = resolve(alloc, &program)?;
    let mut found = String::new(alloc);
    for info in resolved.tree.modules.as_slice() {
        let one = match info.rescue {
            Some(number) => format!(in alloc; " {number}")?,
            None => String::from_str(alloc, " .")?,
        };
        found.push_str(one.as_str())?;
    }
    Ok(found)
}

/// Modules that stand in line 1, before the programs of the tables.
const HEAD: &str =
    "seq f in(int x) out(int y) ${ y = x; }$ end seq seq add in(int x, int y) out(int z) ${ z = x + y; }$ end seq seq g in(int x[4]) out(int y[4]) ${ y[0] = x[0]; }$ end seq farm w in(int a) out(int b) f in(a) out(b) end farm";

/// Each line has an answer, and a program that stands in line 2: names, callees, and numbers of arguments.
const NAMES: &str = "20 2:20 | const K = 1; const K = 2;
20 2:18 | const K = 1; seq K in(int x) out(int y) ${ y = x; }$ end seq
20 2:6 | pipe f in(int a) out(int b) f in(a) out(b) end pipe
20 2:26 | pipe p in(int a) out(int a) f in(a) out(a) end pipe
20 2:45 | pipe p in(int a) out(int b) f in(a) out(int b) f in(b) out(b) end pipe
20 2:58 | const K = 1; pipe p in(int a) out(int b) f in(a) out(int K) f in(K) out(b) end pipe
20 2:64 | pipe p in(int a) out(int b) f in(a) out(int c) f in(c) out(int c) f in(c) out(b) end pipe
20 2:74 | loop l in(int a) out(int b) turns 1 f in(a) out(b) while f in(b) out(int a) end loop
10 2:37 | farm v in(int a) out(int b) workers K f in(a) out(b) end farm const K = 1;
10 2:17 | farm v in(int a[K]) out(int b) f in(a) out(b) end farm const K = 1;
10 2:29 | pipe p in(int a) out(int b) h in(a) out(b) end pipe
10 2:42 | const K = 1; pipe p in(int a) out(int b) K in(a) out(b) end pipe
10 2:47 | pipe p in(int a) out(int b) f in(a) out(int c[K]) f in(c) out(b) end pipe
10 2:35 | loop l in(int a) out(int b) turns K f in(a) out(b) while f in(b) out(int c) end loop
11 2:47 | pipe p in(int a) out(int b) f in(a) out(int c[0]) f in(c) out(b) end pipe
11 2:17 | farm v in(int a[65537]) out(int b) f in(a) out(b) end farm
12 2:22 | farm v in(int a, int c[65536]) out(int b) f in(a) out(b) end farm
12 2:45 | pipe p in(int a) out(int b) f in(a) out(int c[256][257]) f in(c) out(b) end pipe
22 2:29 | pipe p in(int a) out(int b) h in(a) out(b) end pipe seq h in(int x) out(int y) ${ y = x; }$ end seq
22 2:29 | pipe p in(int a) out(int b) p in(a) out(b) end pipe
22 2:29 | pipe p in(int a) out(int b) K in(a) out(b) end pipe const K = 1;
23 2:29 | pipe p in(int a) out(int b) f in(a, a) out(b) end pipe
23 2:29 | pipe p in(int a) out(int b) f in(a) out(b, b) end pipe
23 2:29 | pipe p in(int a) out(int b) add in(a) out(b) end pipe
23 2:34 | reduce r in(int a[4]) out(int s) add in(a[*i], a[*i]) out(s) end reduce
23 2:34 | map m in(int a[4]) out(int b[4]) add in(a[*i]) out(b[*i]) end map
28 2:29 | comp c in(int a) out(int b) w in(a) out(b) end comp
28 2:99 | map m in(int a[4]) out(int b[4]) w in(a[*i]) out(b[*i]) end map comp c in(int a[4]) out(int b[4]) m in(a) out(b) end comp
28 2:98 | pipe q in(int x, int y) out(int z) add in(x, y) out(z) end pipe reduce r in(int a[4]) out(int s) q in(a[*i]) out(s) end reduce
28 2:58 | loop l in(int a) out(int b) turns 1 f in(a) out(b) while w in(b) out(int c) end loop
21 2:16 | const main = 1;
21 2:48 | seq h in(int x) out(int y) ${ y = x; }$ end seq
ok 5 2 | comp main in(int a) out(int b) f in(a) out(b) end comp
ok 5 3 | pipe main in(int a) out(int b) w in(a) out(b) end pipe
ok 6 3 | map m in(int a[4]) out(int b[4]) f in(a[*i]) out(b[*i]) end map comp main in(int a[4]) out(int b[4]) m in(a) out(b) end comp";

/// The arguments of calls.
const ARGUMENTS: &str = "24 2:37 | farm v in(int a[2]) out(int b) f in(a) out(b) end farm
24 2:44 | farm v in(int a) out(int b[2]) f in(a) out(b) end farm
24 2:45 | pipe p in(int a) out(int b) f in(a) out(int c[2]) f in(c) out(b) end pipe
24 2:53 | pipe p in(int a) out(int b) f in(a) out(int c) g in(c) out(b) end pipe
24 2:53 | map m in(int a[4]) out(int b[4][4]) f in(a[*i]) out(b[*i]) end map
24 2:53 | map m in(int a[4]) out(int b[4][4]) f in(a[*i]) out(b[*i][]) end map
24 2:42 | map m in(int a[4][4]) out(int b[4]) f in(a[*i]) out(b[*i]) end map
24 2:39 | map m in(int a[4]) out(int b[4]) f in(a) out(b[*i]) end map
24 2:63 | loop l in(int a) out(int b) turns 1 f in(a) out(b) while g in(b) out(int c) end loop
25 2:43 | pipe p in(int a, int b) out(int c) add in(b, a) out(c) end pipe
25 2:34 | pipe p in(int a) out(int b) f in(a[]) out(b) end pipe
25 2:53 | pipe p in(int a) out(int b) f in(a) out(int c) f in(a) out(b) end pipe
25 2:45 | pipe p in(int a) out(int b) f in(a) out(int b) end pipe
25 2:41 | pipe p in(int a) out(int b) f in(a) out(b) f in(b) out(b) end pipe
25 2:39 | pipe p in(int a) out(int b) add in(a, a) out(b) end pipe
25 2:36 | pipe p in(int a, int c) out(int b) f in(a) out(b) end pipe
25 2:41 | farm v in(int a) out(int b) f in(a) out(a) end farm
25 2:36 | farm v in(int a) out(int b, int c) f in(a) out(b) end farm
25 2:42 | loop l in(int a) out(int b) turns 1 f in(b) out(b) while f in(b) out(int c) end loop
25 2:63 | loop l in(int a) out(int b) turns 1 f in(a) out(b) while f in(a) out(int c) end loop
25 2:50 | map m in(int a[4]) out(int b[4]) f in(a[*i]) out(c[*i]) end map
25 2:39 | map m in(int a[4]) out(int b[4]) f in(c[*i]) out(b[*i]) end map
25 2:54 | map m in(int a[4]) out(int b[4]) f in(a[*i]) out(int b[4]) end map
25 2:44 | map m in(int a[4]) out(int b[4], int c[4]) f in(a[*i]) out(b[*i]) end map
25 2:52 | reduce r in(int a[4]) out(int s) add in(a[*i]) out(a) end reduce
26 2:48 | map m in(int a[4]) out(int b[4]) g in(a[]) out(b[]) end map
26 2:53 | map m in(int a[4]) out(int b[4][4]) f in(a[*i]) out(b[*i][*i]) end map
26 2:56 | map m in(int a[4]) out(int b[2][2][2]) f in(a[*i]) out(b[*i][*j][*k]) end map
26 2:42 | map m in(int a[4]) out(int b[4]) f in(a[*j]) out(b[*i]) end map
26 2:42 | map m in(int a[5]) out(int b[4]) f in(a[*i]) out(b[*i]) end map
26 2:49 | map m in(int a[4][4]) out(int b[4]) f in(a[*i][*i]) out(b[*i]) end map
26 2:125 | seq h in(int x) out(int y, int z) ${ y = x; }$ end seq map m in(int a[4]) out(int b[4], int c[5]) h in(a[*i]) out(b[*i], c[*i]) end map
26 2:41 | reduce r in(int a[4]) out(int s) add in(a[]) out(s) end reduce
26 2:41 | reduce r in(int a[4]) out(int s) add in(s) out(s) end reduce
27 2:34 | reduce r in(int a[4]) out(int s) f in(a[*i]) out(s) end reduce
27 2:8 | reduce r in(int a) out(int s) add in(a) out(s) end reduce
27 2:8 | reduce r in(int a[4]) out(int s, int t) add in(a[*i]) out(s) end reduce
27 2:37 | reduce r in(int a[4][2]) out(int s) add in(a[*i][]) out(s) end reduce
27 2:37 | reduce r in(int a[4]) out(int s[2]) add in(a[*i]) out(s) end reduce
29 2:6 | loop l in(int a) out(int b[2]) turns 1 f in(a) out(b) while f in(b) out(int c) end loop
29 2:6 | loop l in(int a, int b) out(int c) turns 1 add in(a, b) out(c) while f in(c) out(int d) end loop
29 2:58 | loop l in(int a) out(int b) turns 1 f in(a) out(b) while f in(b) out(b) end loop
29 2:58 | loop l in(int a) out(int b) turns 1 f in(a) out(b) while f in(b) out(int c[1]) end loop
29 2:112 | seq h in(int x) out(int y[2]) ${ y[0] = x; }$ end seq loop l in(int a) out(int b) turns 1 f in(a) out(b) while h in(b) out(int c) end loop
ok 5 2 | map main in(int a[2][3], int c) out(int b[3][2]) workers 6 add in(a[*i][*j], c) out(b[*j][*i]) end map
ok 6 2 | seq h in(int x[4], int y[4]) out(int z) ${ z = x[0]; }$ end seq map main in(int a[2][4], int c[4]) out(int b[2]) h in(a[*i][], c) out(b[*i]) end map";

/// The numbers of clauses.
const CLAUSES: &str =
    "10 2:35 | seq h in(int a) out(int b) rescue K ${ b = a; }$ end seq const K = 1;
10 2:36 | seq h in(int a) out(int b) rescue -K ${ b = a; }$ end seq
10 2:36 | comp c in(int a) out(int b) rescue K f in(a) out(b) end comp const K = 1;
30 2:37 | farm v in(int a) out(int b) workers 0 f in(a) out(b) end farm
30 2:37 | farm v in(int a) out(int b) workers 513 f in(a) out(b) end farm
30 2:42 | map m in(int a[4]) out(int b[4]) workers 5 f in(a[*i]) out(b[*i]) end map
30 2:48 | map m in(int a[1024]) out(int b[1024]) workers 513 f in(a[*i]) out(b[*i]) end map
30 2:45 | reduce main in(int a[5]) out(int s) workers 3 add in(a[*i]) out(s) end reduce
30 2:45 | reduce main in(int a[5]) out(int s) workers 8 add in(a[*i]) out(s) end reduce
30 2:48 | reduce main in(int a[1024]) out(int s) workers 1024 add in(a[*i]) out(s) end reduce
30 2:35 | loop l in(int a) out(int b) turns 0 f in(a) out(b) while f in(b) out(int c) end loop
30 2:35 | loop l in(int a) out(int b) turns 65537 f in(a) out(b) while f in(b) out(int c) end loop
30 2:44 | loop l in(int a) out(int b) turns 1 tokens 0 f in(a) out(b) while f in(b) out(int c) end loop
30 2:44 | loop l in(int a) out(int b) turns 1 tokens 1025 f in(a) out(b) while f in(b) out(int c) end loop
ok 5 2 | farm main in(int a) out(int b) workers 512 f in(a) out(b) end farm
ok 5 2 | map main in(int a[4]) out(int b[4]) workers 4 f in(a[*i]) out(b[*i]) end map
ok 5 2 | reduce main in(int a[5]) out(int s) workers 4 add in(a[*i]) out(s) end reduce
ok 5 3 | loop main in(int a) out(int b) turns 65536 tokens 1024 f in(a) out(b) while f in(b) out(int c) end loop";

/// Programs with several faults.
const ORDER: &str = "10 2:35 | seq h in(int a) out(int b) budget L rescue K ${ b = c; }$ end seq
30 2:35 | seq h in(int a) out(int b) budget 0 rescue K ${ b = c; }$ end seq
10 2:44 | seq h in(int a) out(int b) budget 1 rescue K ${ b = c; }$ end seq
12 2:14 | seq h in(int a[257][256]) out(int b) budget L rescue K ${ b = c; }$ end seq
10 2:36 | comp c in(int a) out(int b) rescue K w in(a, a) out(b) end comp
20 2:26 | comp c in(int a) out(int a) rescue K f in(a) out(a) end comp
25 2:50 | map m in(int a[4]) out(int b[4]) f in(d[*i]) out(c[*i]) end map
25 2:37 | farm v in(int a[2]) out(int b) f in(b) out(b) end farm
24 2:46 | pipe p in(int a[2], int b) out(int c) add in(a, a) out(c) end pipe
24 2:37 | farm v in(int a[2]) out(int b) f in(a) out(a) end farm
25 2:49 | map m in(int a[4]) out(int b[4]) workers 9 f in(c[*i]) out(b[*i]) end map
26 2:51 | reduce r in(int a[4]) out(int s) workers 3 add in(a) out(s) end reduce
30 2:37 | farm v in(int a) out(int b) workers 0 f in(b) out(b) end farm
30 2:38 | loop l in(int a) out(int b[2]) turns 0 tokens 0 h in(a) out(b) while f in(b) out(int c) end loop
30 2:47 | loop l in(int a) out(int b[2]) turns 1 tokens 0 h in(a) out(b) while f in(b) out(int c) end loop
29 2:6 | loop l in(int a) out(int b[2]) turns 1 h in(a) out(b) while f in(b) out(int c) end loop
20 2:6 | farm f in(int a[0]) out(int b) workers 0 f in(a) out(b) end farm
11 2:17 | farm v in(int a[0]) out(int b) workers 0 f in(a) out(b) end farm
28 2:29 | comp c in(int a) out(int b) w in(a, a) out(b) end comp
28 2:34 | reduce r in(int a[4]) out(int s) w in(a[*i]) out(s) end reduce
27 2:34 | reduce r in(int a[4]) out(int s) f in(a[*i], a[*i]) out(s) end reduce
23 2:31 | reduce r in(int a) out(int s) add in(a, a) out(s) end reduce
20 2:45 | pipe p in(int a) out(int b) f in(a) out(int b[2]) f in(b) out(b) end pipe
26 2:42 | map m in(int a[4]) out(int b[4]) f in(a[*j]) out(b[*i]) end map
24 2:37 | farm v in(int a[2]) out(int b) f in(a) out(b) end farm const f = 1;
40 2:306 | farm w2 in(int a) out(int b) w in(a) out(b) end farm farm w3 in(int a) out(int b) w2 in(a) out(b) end farm farm w4 in(int a) out(int b) w3 in(a) out(b) end farm farm w5 in(int a) out(int b) w4 in(a) out(b) end farm farm main in(int a) out(int b) w5 in(a) out(b) end farm seq h in(int x) out(int y) ${ y = z; }$ end seq
20 2:55 | seq h in(int x) out(int y) ${ y = x; }$ end seq const h = 1;";

/// Nesting, instances and work.
const LIMITS: &str =
    "ok 8 6 | farm w2 in(int a) out(int b) w in(a) out(b) end farm farm w3 in(int a) out(int b) w2 in(a) out(b) end farm farm w4 in(int a) out(int b) w3 in(a) out(b) end farm farm main in(int a) out(int b) w4 in(a) out(b) end farm
32 2:220 | farm w2 in(int a) out(int b) w in(a) out(b) end farm farm w3 in(int a) out(int b) w2 in(a) out(b) end farm farm w4 in(int a) out(int b) w3 in(a) out(b) end farm farm v in(int a) out(int b) w4 in(a) out(b) end farm farm main in(int a) out(int b) v in(a) out(b) end farm
32 2:220 | farm w2 in(int a) out(int b) w in(a) out(b) end farm farm w3 in(int a) out(int b) w2 in(a) out(b) end farm farm w4 in(int a) out(int b) w3 in(a) out(b) end farm farm v in(int a) out(int b) w4 in(a) out(b) end farm pipe main in(int a) out(int b) f in(a) out(int c) v in(c) out(b) end pipe
ok 6 128 | pipe p in(int a) out(int b) f in(a) out(int c) f in(c) out(int d) f in(d) out(int e) f in(e) out(int g) f in(g) out(b) end pipe pipe main in(int c0) out(int z) p in(c0) out(int c1) p in(c1) out(int c2) p in(c2) out(int c3) p in(c3) out(int c4) p in(c4) out(int c5) p in(c5) out(int c6) p in(c6) out(int c7) p in(c7) out(int c8) p in(c8) out(int c9) p in(c9) out(int c10) p in(c10) out(int c11) p in(c11) out(int c12) p in(c12) out(int c13) p in(c13) out(int c14) p in(c14) out(int c15) p in(c15) out(int c16) p in(c16) out(int c17) p in(c17) out(int c18) p in(c18) out(int c19) p in(c19) out(int c20) p in(c20) out(int c21) f in(c21) out(z) end pipe
31 2:134 | pipe p in(int a) out(int b) f in(a) out(int c) f in(c) out(int d) f in(d) out(int e) f in(e) out(int g) f in(g) out(b) end pipe pipe main in(int c0) out(int z) p in(c0) out(int c1) p in(c1) out(int c2) p in(c2) out(int c3) p in(c3) out(int c4) p in(c4) out(int c5) p in(c5) out(int c6) p in(c6) out(int c7) p in(c7) out(int c8) p in(c8) out(int c9) p in(c9) out(int c10) p in(c10) out(int c11) p in(c11) out(int c12) p in(c12) out(int c13) p in(c13) out(int c14) p in(c14) out(int c15) p in(c15) out(int c16) p in(c16) out(int c17) p in(c17) out(int c18) p in(c18) out(int c19) p in(c19) out(int c20) p in(c20) out(int c21) f in(c21) out(int c22) f in(c22) out(z) end pipe
31 2:262 | pipe p in(int a) out(int b) f in(a) out(int c) f in(c) out(int d) f in(d) out(int e) f in(e) out(int g) f in(g) out(b) end pipe pipe q in(int a) out(int b) p in(a) out(int c) p in(c) out(int d) p in(d) out(int e) p in(e) out(int g) p in(g) out(b) end pipe pipe main in(int a) out(int b) q in(a) out(int c) q in(c) out(int d) q in(d) out(int e) q in(e) out(int g) q in(g) out(b) end pipe
ok 6 5 | loop l in(int a) out(int b) turns 408 w in(a) out(b) while f in(b) out(int c) end loop map main in(int a[65536]) out(int b[65536]) l in(a[*i]) out(b[*i]) end map
33 2:92 | loop l in(int a) out(int b) turns 409 w in(a) out(b) while f in(b) out(int c) end loop map main in(int a[65536]) out(int b[65536]) l in(a[*i]) out(b[*i]) end map
33 2:370 | seq h in(int x) out(int t[65536]) ${ t[0] = x; }$ end seq seq k in(int t[65536]) out(int y) ${ y = t[0]; }$ end seq map m in(int t[65536]) out(int u[65536]) f in(t[*i]) out(u[*i]) end map comp c in(int x) out(int y) h in(x) out(int t[65536]) m in(t) out(int u[65536]) k in(u) out(y) end comp map n in(int t[65536]) out(int u[65536]) c in(t[*i]) out(u[*i]) end map comp main in(int x) out(int y) h in(x) out(int t[65536]) n in(t) out(int u[65536]) k in(u) out(y) end comp
33 2:95 | loop l in(int a) out(int b) turns 65536 f in(a) out(b) while f in(b) out(int c) end loop loop main in(int a) out(int b) turns 65536 l in(a) out(b) while f in(b) out(int c) end loop
32 2:476 | pipe p in(int a) out(int b) f in(a) out(int c) f in(c) out(int d) f in(d) out(int e) f in(e) out(int g) f in(g) out(b) end pipe farm w2 in(int a) out(int b) w in(a) out(b) end farm farm w3 in(int a) out(int b) w2 in(a) out(b) end farm farm w4 in(int a) out(int b) w3 in(a) out(b) end farm farm v in(int a) out(int b) w4 in(a) out(b) end farm pipe q in(int a) out(int b) p in(a) out(int c) p in(c) out(int d) p in(d) out(int e) p in(e) out(int g) p in(g) out(b) end pipe pipe main in(int a) out(int b) q in(a) out(int c) q in(c) out(int d) q in(d) out(int e) q in(e) out(int g) q in(g) out(int h) v in(h) out(b) end pipe
31 2:440 | pipe p in(int a) out(int b) f in(a) out(int c) f in(c) out(int d) f in(d) out(int e) f in(e) out(int g) f in(g) out(b) end pipe loop l in(int a) out(int b) turns 65536 f in(a) out(b) while f in(b) out(int c) end loop loop m in(int a) out(int b) turns 65536 l in(a) out(b) while f in(b) out(int c) end loop pipe q in(int a) out(int b) p in(a) out(int c) p in(c) out(int d) p in(d) out(int e) p in(e) out(int g) p in(g) out(b) end pipe pipe main in(int a) out(int b) q in(a) out(int c) q in(c) out(int d) q in(d) out(int e) q in(e) out(int g) q in(g) out(int h) m in(h) out(b) end pipe";

/// Each program of a table must have its answer after a head.
fn check_programs(rt: &impl Abort, alloc: Global, head: &str, table: &str) -> Result<(), Fail> {
    for line in table.lines() {
        let (found, program) = line.split_once(" | ").ok_or("no answer")?;
        let text = format!(in alloc; "{head}\n{program}")?;
        let answer = answer(alloc, text.as_str())?;
        assert!(rt; answer.as_str() == found, "{answer} for {line}");
    }
    Ok(())
}

#[test]
fn faults_of_names_and_callees(rt: HostRuntime) -> Result<(), Fail> {
    check_programs(&rt, rt.alloc(), HEAD, NAMES)
}

#[test]
fn faults_of_arguments(rt: HostRuntime) -> Result<(), Fail> {
    check_programs(&rt, rt.alloc(), HEAD, ARGUMENTS)
}

#[test]
fn faults_of_clauses(rt: HostRuntime) -> Result<(), Fail> {
    check_programs(&rt, rt.alloc(), HEAD, CLAUSES)
}

#[test]
fn the_first_fault_decides(rt: HostRuntime) -> Result<(), Fail> {
    check_programs(&rt, rt.alloc(), HEAD, ORDER)
}

#[test]
fn limits_of_whole_programs(rt: HostRuntime) -> Result<(), Fail> {
    check_programs(&rt, rt.alloc(), HEAD, LIMITS)
}

#[test]
fn rescue_numbers(rt: HostRuntime) -> Result<(), Fail> {
    let seq = "seq main in(int x) out(int y)";
    let body = "${ y = x; }$ end seq";
    let comp =
        "seq f in(int x) out(int y) rescue K ${ y = x; }$ end seq comp main in(int x) out(int y)";
    let call = "f in(x) out(y) end comp";
    let table = [
        ("", seq, "", body, " ."),
        ("", seq, "rescue 9", body, " 9"),
        ("", seq, "budget 3 rescue -7", body, " -7"),
        ("", seq, "rescue -0", body, " 0"),
        ("const K = 5;", seq, "rescue K", body, " 5"),
        ("const K = 5;", seq, "rescue -K", body, " -5"),
        (
            "",
            seq,
            "rescue 9223372036854775807",
            body,
            " 9223372036854775807",
        ),
        (
            "",
            seq,
            "rescue -9223372036854775807",
            body,
            " -9223372036854775807",
        ),
        ("const K = 5;", comp, "", call, " 5 ."),
        ("const K = 5;", comp, "rescue -2", call, " 5 -2"),
    ];
    for (before, head, clause, after, numbers) in table {
        let text = format!(in rt.alloc(); "{before} {head} {clause} {after}")?;
        let found = rescues(rt.alloc(), text.as_str())?;
        assert!(rt; found.as_str() == numbers, "{found} for {text}");
    }
    Ok(())
}

#[test]
fn no_main_in_an_empty_text(rt: HostRuntime) -> Result<(), Fail> {
    let found = answer(rt.alloc(), "")?;
    assert_eq!(rt; found.as_str(), "21 1:1");
    Ok(())
}

/// Heads of pipes of twenty calls, and what each calls: the last stands in a line of its own.
const LEVELS: [(&str, &str); 5] = [
    ("pipe p", "f"),
    ("pipe q", "p"),
    ("pipe r", "q"),
    ("pipe s", "r"),
    ("\npipe main", "s"),
];

/// Adds the first nineteen calls of a module to a pipe.
fn add_calls(alloc: Global, text: &mut String, callee: &str) -> Result<(), AllocError> {
    for from in 0..19u32 {
        let to = from + 1;
        let call = format!(in alloc; "{callee} in(c{from}) out(int c{to}) ")?;
        text.push_str(call.as_str())?;
    }
    Ok(())
}

/// Adds a pipe of twenty calls of one module.
fn add_level(alloc: Global, text: &mut String, head: &str, callee: &str) -> Result<(), AllocError> {
    let head = format!(in alloc; "{head} in(int c0) out(int d) ")?;
    text.push_str(head.as_str())?;
    add_calls(alloc, text, callee)?;
    let last = format!(in alloc; "{callee} in(c19) out(d) end pipe ")?;
    text.push_str(last.as_str())
}

/// Pipes of twenty calls, each of the one before.
fn levels(alloc: Global) -> Result<String, AllocError> {
    let mut text = format!(in alloc; "{HEAD} ")?;
    for (head, callee) in LEVELS {
        add_level(alloc, &mut text, head, callee)?;
    }
    Ok(text)
}

#[test]
fn millions_of_instances_are_refused_at_once(rt: HostRuntime) -> Result<(), Fail> {
    let text = levels(rt.alloc())?;
    let found = answer(rt.alloc(), text.as_str())?;
    assert_eq!(rt; found.as_str(), "31 2:6");
    Ok(())
}

/// Three constants and a `seq` module.
fn entries(alloc: Global, number: u32) -> Result<String, AllocError> {
    format!(in alloc;
        "const A{number}=1;const B{number}=2;const C{number}=3;seq m{number} in(int x)out(int y)${{y=x+A{number}+B0;}}$end seq\n"
    )
}

/// Constants and `seq` modules by turns, within the limit of a text: the last module has the name of the first constant.
fn many_entries(alloc: Global) -> Result<String, AllocError> {
    let mut text = String::new(alloc);
    for number in 0..10000u32 {
        let entries = entries(alloc, number)?;
        text.push_str(entries.as_str())?;
    }
    text.push_str("seq A0 in(int x)out(int y)${y=x;}$end seq")?;
    Ok(text)
}

#[test]
fn thousands_of_constants_before_thousands_of_bodies(rt: HostRuntime) -> Result<(), Fail> {
    let text = many_entries(rt.alloc())?;
    assert!(rt; text.as_str().len() <= 1048576);
    let found = answer(rt.alloc(), text.as_str())?;
    assert_eq!(rt; found.as_str(), "20 10001:5");
    Ok(())
}
