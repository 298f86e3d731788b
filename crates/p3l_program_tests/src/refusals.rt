// Each number of refusal, each trap and each text of costs that is refused, once through the program
// with ample memory.

use crate::world::{play, take_block};
use p3l_base::List;
use p3l_io::MemSink;
use p3l_report::{Finish, Verdict, put_report, report_of};
use p3l_run::RunEnd;
use p3l_stream::Ending;
use std::alloc::Global;
use std::process::Abort;
use std::test::Fail;

/// Modules that stand in line 1, before the programs of the table.
const HEAD: &str =
    "seq f in(int x) out(int y) ${ y = x; }$ end seq seq add in(int x, int y) out(int z) ${ z = x + y; }$ end seq seq g in(int x[4]) out(int y[4]) ${ y[0] = x[0]; }$ end seq farm w in(int a) out(int b) f in(a) out(b) end farm";

/// Each line has the place of a fault, its number and its name, and a program that stands in line 2.
const FAULTS: &str = "2:5: 1 BadByte | seq @
2:11: 2 BadToken | const K = 007;
2:9: 3 Expected | const K 1;
2:11: 4 NumberTooBig | const K = 9223372036854775808;
2:7: 5 NameTooLong | const aaaaaaaaaaaaaaaaaaaaaaaaaaaaaaaaaaaaaaaaaaaaaaaaaaaaaaaaaaaaaaaaa = 1;
2:102: 8 TooNested | seq main in(int x) out(int y) ${ y = (((((((((((((((((((((((((((((((((((((((((((((((((((((((((((((((((x))))))))))))))))))))))))))))))))))))))))))))))))))))))))))))))))); }$ end seq
2:37: 10 UnknownName | farm v in(int a) out(int b) workers K f in(a) out(b) end farm const K = 1;
2:17: 11 BadSize | farm v in(int a[65537]) out(int b) f in(a) out(b) end farm
2:22: 12 TooWide | farm v in(int a, int c[65536]) out(int b) f in(a) out(b) end farm
2:20: 20 Twice | const K = 1; const K = 2;
3:1: 21 NoMain | const main = 1;
2:29: 22 UsedBeforeDefined | pipe p in(int a) out(int b) p in(a) out(b) end pipe
2:29: 23 Arity | pipe p in(int a) out(int b) f in(a, a) out(b) end pipe
2:37: 24 TypeDiffers | farm v in(int a[2]) out(int b) f in(a) out(a) end farm
2:34: 25 Wiring | pipe p in(int a) out(int b) f in(a[]) out(b) end pipe
2:42: 26 FreeIndex | map m in(int a[4]) out(int b[4]) f in(a[*j]) out(b[*i]) end map
2:34: 27 BadOperator | reduce r in(int a[4]) out(int s) f in(a[*i]) out(s) end reduce
2:29: 28 NotInComp | comp c in(int a) out(int b) w in(a) out(b) end comp
2:6: 29 LoopTypes | loop l in(int a) out(int b[2]) turns 1 f in(a) out(b) while f in(b) out(int c) end loop
2:37: 30 BadWorkers | farm v in(int a) out(int b) workers 513 f in(a) out(b) end farm
2:134: 31 TooManyInstances | pipe p in(int a) out(int b) f in(a) out(int c) f in(c) out(int d) f in(d) out(int e) f in(e) out(int g) f in(g) out(b) end pipe pipe main in(int c0) out(int z) p in(c0) out(int c1) p in(c1) out(int c2) p in(c2) out(int c3) p in(c3) out(int c4) p in(c4) out(int c5) p in(c5) out(int c6) p in(c6) out(int c7) p in(c7) out(int c8) p in(c8) out(int c9) p in(c9) out(int c10) p in(c10) out(int c11) p in(c11) out(int c12) p in(c12) out(int c13) p in(c13) out(int c14) p in(c14) out(int c15) p in(c15) out(int c16) p in(c16) out(int c17) p in(c17) out(int c18) p in(c18) out(int c19) p in(c19) out(int c20) p in(c20) out(int c21) f in(c21) out(int c22) f in(c22) out(z) end pipe
2:220: 32 TooDeep | farm w2 in(int a) out(int b) w in(a) out(b) end farm farm w3 in(int a) out(int b) w2 in(a) out(b) end farm farm w4 in(int a) out(int b) w3 in(a) out(b) end farm farm v in(int a) out(int b) w4 in(a) out(b) end farm farm main in(int a) out(int b) v in(a) out(b) end farm
2:95: 33 TooHeavy | loop l in(int a) out(int b) turns 65536 f in(a) out(b) while f in(b) out(int c) end loop loop main in(int a) out(int b) turns 65536 l in(a) out(b) while f in(b) out(int c) end loop
2:38: 40 Undeclared | seq main in(int x) out(int y) ${ y = z; }$ end seq
2:38: 41 DeclaredTwice | seq main in(int x) out(int y) ${ int x; y = x; }$ end seq
2:34: 42 NotArray | seq main in(int x) out(int y) ${ y[0] = 1; }$ end seq
2:41: 43 IsArray | seq main in(int a[2]) out(int y) ${ y = a; }$ end seq
2:34: 44 WriteToIn | seq main in(int x) out(int y) ${ x = 1; }$ end seq";

/// Checks the program of a row after the modules of the head, which must be refused as it says.
fn refuse(rt: &impl Abort, alloc: Global, row: &str) -> Result<(), Fail> {
    let (fault, program) = row.split_once(" | ").ok_or("no fault")?;
    let block = format!(in alloc;
        "\nfile m.p3l\n| {HEAD}\n| {program}\n$ check m.p3l\n! source: {fault}\n? 3"
    )?;
    take_block(rt, alloc, block.as_str())
}

#[test]
fn each_number_of_a_program_is_reported(rt: HostRuntime) -> Result<(), Fail> {
    for row in FAULTS.lines() {
        refuse(&rt, rt.alloc(), row)?;
    }
    Ok(())
}

const CASES: &str = r#"
= Each trap is reported.

file m.p3l
| seq main in(int x) out(int y) ${ y = 1 / x; }$ end seq\
$ run m.p3l --processors 16
< 0
! trap: item 1: division by zero in main
? 7

file m.p3l
| seq main in(int x) out(int y) ${ y = x / -1; }$ end seq\
$ run m.p3l --processors 16
< -9223372036854775808
! trap: item 1: division overflow in main
? 7

file m.p3l
| seq main in(int x) out(int y) ${ int a[2]; y = a[x]; }$ end seq\
$ run m.p3l --processors 16
< 2
! trap: item 1: index out of range in main
? 7

file m.p3l
| seq main in(int x) out(int y) ${ y = 1 << x; }$ end seq\
$ run m.p3l --processors 16
< 64
! trap: item 1: shift out of range in main
? 7

file m.p3l
| seq main in(int x) out(int y) budget 3 ${ int i; for (i = 0; i < x; i = i + 1) { y = y + 1; } }$ end seq\
$ run m.p3l --processors 16
< 4
! trap: item 1: budget spent in main
? 7

file m.p3l
| seq same in(int x) out(int y) ${ y = x; }$ end seq seq always in(int x) out(int b) ${ b = 1; }$ end seq loop main in(int x) out(int y) turns 3 same in(x) out(y) while always in(y) out(int b) end loop\
$ run m.p3l --processors 16
< 1
! trap: item 1: turns spent in main
? 7

= Each number of costs is reported.
file m.p3l
| seq main in(int x) out(int y) ${ y = x; }$ end seq\

file c
| \xff\
$ explain m.p3l --processors 4 --costs c
! costs: 50 NotToml
? 4

file c
| setup = 1
| setup = 1
$ explain m.p3l --processors 4 --costs c
! costs: 50 NotToml
? 4

file c
| ticks = 5
$ explain m.p3l --processors 4 --costs c
! costs: 51 BadKey ticks
? 4

file c
| [turns]
| main = 5
$ explain m.p3l --processors 4 --costs c
! costs: 51 BadKey turns.main
? 4

file c
| [seq]
| aaaaaaaaaaaaaaaaaaaaaaaaaaaaaaaaaaaaaaaaaaaaaaaaaaaaaaaaaaaaaaaaa = 5
$ explain m.p3l --processors 4 --costs c
! costs: 51 BadKey seq.aaaaaaaaaaaaaaaaaaaaaaaaaaaaaaaaaaaaaaaaaaaaaaaaaaaaaaaaaaaaaaaaa
? 4

file c
| setup = 1000001
$ explain m.p3l --processors 4 --costs c
! costs: 52 BadValue setup
? 4

file c
| [seq]
| main = 1.5
$ explain m.p3l --processors 4 --costs c
! costs: 52 BadValue seq.main
? 4

file c
| seq = 1
$ explain m.p3l --processors 4 --costs c
! costs: 52 BadValue seq
? 4

file c
| setup = 1
$ explain m.p3l --processors 4 --costs c
! costs: 53 Missing main
? 4
"#;

#[test]
fn each_trap_and_each_number_of_costs_are_reported(rt: HostRuntime) -> Result<(), Fail> {
    play(&rt, rt.alloc(), CASES)
}

/// No test has so long an input, so its end is reported here by what reports all ends.
#[test]
fn an_input_that_is_too_long_is_reported(rt: HostRuntime) -> Result<(), Fail> {
    let alloc = rt.alloc();
    let verdict = Verdict::Ended(Finish::Run(RunEnd::Stream(Ending::TooLong)), None);
    let report = report_of(alloc, &verdict)?;
    let mut err = MemSink::new(alloc, 65_536, List::new(alloc))?;
    put_report(&mut err, &report);
    assert_eq!(rt; verdict.status().0, 14);
    assert_eq!(rt; err.taken(), "input too long\n".as_bytes());
    Ok(())
}
