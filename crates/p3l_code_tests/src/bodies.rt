// Bodies of texts, compiled and run.

ghost use Rattle.std.specs.Prelude.{◌≡◌, IfSome, Some, slice_get};
ghost use Rattle.p3l_ast.specs.Tree.{defined, module_tree, program_tree};
ghost use Rattle.p3l_body_laws.specs.Checked.{IsRead};

use crate::codes::HOME;
use p3l_ast::{Entry, Module, Program};
use p3l_base::{NoMemory, Outcome, Words};
use p3l_body::check_body;
use p3l_body_laws::body_compiles;
use p3l_code::SafeCode;
use p3l_compile::compile;
use p3l_reader::read;
use p3l_registers::Executable;
use p3l_types::Consts;
use std::alloc::{AllocError, Global};
use std::process::Abort;
use std::test::*;

/// The first entry of a program, if it is a module.
fn first_module(program: &Program) -> Option<&Module>
    ensures { IfSome result (λ m. slice_get (program_tree program.now).entries 0 ≡ Some (defined (module_tree m.now))) }
{
    match program.entries.as_slice() {
        [Entry::Module(module), ..] => Some(module),
        _ => None,
    }
}

/// The code of the first module of a program; nothing where it has none, or it breaks a rule.
fn first_compiled(
    alloc: Global,
    text: &str,
    program: &Program,
) -> Result<Option<SafeCode>, NoMemory>
    requires { IsRead text.now (program_tree program.now) }
{
    let Some(module) = first_module(program) else {
        return Ok(None);
    };
    let consts = Consts::new(alloc)?;
    let Ok(seq) = check_body(alloc, module, HOME, &consts) else {
        return Ok(None);
    };
    body_compiles();
    Ok(Some(compile(alloc, &seq)?))
}

/// The code of the first module of a text.
pub fn compiled(alloc: Global, text: &str) -> Result<Option<SafeCode>, NoMemory> {
    let Ok(program) = read(alloc, text.as_bytes()) else {
        return Ok(None);
    };
    first_compiled(alloc, text, &program)
}

/// Returns what the first module of a text makes of words, in registers.
fn outcome(alloc: Global, text: &str, words: &Words) -> Result<Option<Outcome>, NoMemory> {
    let Some(safe) = compiled(alloc, text)? else {
        return Ok(None);
    };
    if words.as_slice().len() != safe.code().ins as usize {
        return Ok(None);
    }
    let executable = Executable::new(alloc, safe)?;
    if !executable.is_in_registers() {
        return Ok(None);
    }
    Ok(Some(executable.run(alloc, HOME, words)?))
}

/// An outcome as the tables write it: the words, or the name of the trap.
pub fn written(alloc: Global, outcome: &Option<Outcome>) -> Result<String, AllocError> {
    match outcome {
        None => String::from_str(alloc, "no outcome"),
        Some(Outcome::Trapped(trap)) => {
            let kind = trap.kind;
            format!(in alloc; "{kind:?}")
        }
        Some(Outcome::Value(words)) => {
            let mut text = String::new(alloc);
            for (k, word) in words.as_slice().iter().enumerate() {
                if k > 0 {
                    text.push(' ')?;
                }
                let digits = format!(in alloc; "{word}")?;
                text.push_str(digits.as_str())?;
            }
            Ok(text)
        }
    }
}

/// The words of a line of a table.
pub fn words_of(alloc: Global, text: &str) -> Result<Words, Fail> {
    let mut words = Words::new(alloc);
    for word in text.split(' ') {
        words.push(word.parse::<i64>().map_err(|_| "no number")?)?;
    }
    Ok(words)
}

/// Each line of a table has what stands in a module, the words that it takes, and what it makes of
/// them.
fn check_lines(
    rt: &impl Abort,
    alloc: Global,
    table: &str,
    before: &str,
    after: &str,
) -> Result<(), Fail> {
    for line in table.lines() {
        let (body, case) = line.split_once(" : ").ok_or("no words")?;
        let (words, expected) = case.split_once(" : ").ok_or("no outcome")?;
        let text = format!(in alloc; "seq main {before}{body}{after} end seq")?;
        let given = outcome(alloc, text.as_str(), &words_of(alloc, words)?)?;
        let given = written(alloc, &given)?;
        assert!(rt; given.as_str() == expected, "{given} for {line}");
    }
    Ok(())
}

/// Expressions over `a` and `b`, with values by the rules of C99 on 64 bits that wrap.
const EXPRESSIONS: &str = "a + b : 9223372036854775807 1 : -9223372036854775808
a + b : -9223372036854775808 -1 : 9223372036854775807
a + b : -9223372036854775808 -9223372036854775808 : 0
a - b : -9223372036854775808 1 : 9223372036854775807
a - b : 0 -9223372036854775808 : -9223372036854775808
a - b : 9223372036854775807 -1 : -9223372036854775808
a * b : 9223372036854775807 2 : -2
a * b : -9223372036854775808 -1 : -9223372036854775808
a * b : 4294967296 4294967296 : 0
a / b : -7 2 : -3
a / b : 7 -2 : -3
a / b : -9223372036854775808 1 : -9223372036854775808
a / b : 1 0 : DivZero
a / b : -9223372036854775808 -1 : DivOver
a % b : -7 2 : -1
a % b : 7 -2 : 1
a % b : -9223372036854775808 9223372036854775807 : -1
a % b : 5 0 : DivZero
a % b : -9223372036854775808 -1 : DivOver
a << b : 1 63 : -9223372036854775808
a << b : 3 0 : 3
a << b : -1 1 : -2
a << b : 1 64 : Shift
a << b : 1 -1 : Shift
a >> b : -9223372036854775808 63 : -1
a >> b : -5 0 : -5
a >> b : -5 1 : -3
a >> b : 1 64 : Shift
a >> b : 1 -1 : Shift
a & b : -1 9223372036854775807 : 9223372036854775807
a & b : 12 10 : 8
a | b : -9223372036854775808 1 : -9223372036854775807
a | b : 12 10 : 14
a ^ b : -1 9223372036854775807 : -9223372036854775808
a ^ b : 12 10 : 6
a == b : -9223372036854775808 -9223372036854775808 : 1
a == b : 0 1 : 0
a != b : -9223372036854775808 9223372036854775807 : 1
a != b : 7 7 : 0
a < b : -9223372036854775808 9223372036854775807 : 1
a < b : 3 3 : 0
a <= b : 3 3 : 1
a <= b : 9223372036854775807 -9223372036854775808 : 0
a > b : 9223372036854775807 -9223372036854775808 : 1
a > b : 3 3 : 0
a >= b : 3 3 : 1
a >= b : -9223372036854775808 9223372036854775807 : 0
a && b : 5 -3 : 1
a && b : 5 0 : 0
a && b : 0 5 : 0
a || b : 0 -3 : 1
a || b : 0 0 : 0
a || b : -9223372036854775808 0 : 1
-a : 5 0 : -5
-a : -9223372036854775808 0 : -9223372036854775808
-a : 9223372036854775807 0 : -9223372036854775807
!a : 0 0 : 1
!a : -9223372036854775808 0 : 0
~a : 0 0 : -1
~a : -9223372036854775808 0 : 9223372036854775807
~a : 5 0 : -6
a - b - 3 * -a : 7 2 : 26
a << 2 + b : 3 1 : 24
a & b == 2 : 7 2 : 1
(a | b) ^ ~b : 12 10 : -5
1 / a + 1 << 64 : 0 0 : DivZero
(1 << b) + 1 / a : 0 64 : Shift
a % (b - 5) : 1 5 : DivZero
a && 1 / b : 0 0 : 0
a && 1 / b : 3 0 : DivZero
a || 1 / b : 3 0 : 1
a || 1 / b : 0 0 : DivZero
a && b && 1 / (a - b) : 4 0 : 0
a || b && 1 / 0 : 0 0 : 0
!(a && b) + (a || b) * 2 : 0 9 : 3";

/// Whole bodies.
const BODIES: &str = "in(int x) out(int y) ${ y = 100 / x; }$ : 5 : 20
in(int x) out(int y) ${ y = 100 / x; }$ : 0 : DivZero
in(int x) out(int y) ${ y = 100 / x; }$ : 2 : 50
in(int x) out(int y) budget 3 ${ int i; for (i = 0; i < x; i = i + 1) { y = y + 1; } }$ : 3 : 3
in(int x) out(int y) budget 3 ${ int i; for (i = 0; i < x; i = i + 1) { y = y + 1; } }$ : 4 : Budget
in(int x) out(int y) ${ y = x / -1; }$ : -9223372036854775808 : DivOver
in(int x) out(int y) ${ y = x % 3; }$ : -7 : -1
in(int x) out(int y) ${ y = x >> 1; }$ : -3 : -2
in(int x) out(int y) ${ if (x < 0) { y = 1 << 64; } else { y = 100 / x; } }$ : 5 : 20
in(int x) out(int y) ${ if (x < 0) { y = 1 << 64; } else { y = 100 / x; } }$ : -1 : Shift
in(int x) out(int y) ${ if (x < 0) { y = 1 << 64; } else { y = 100 / x; } }$ : 0 : DivZero
in(int x) out(int y) ${ if (x < 0) { y = 1 << 64; } else { y = 100 / x; } }$ : 2 : 50
in(int i, int a[3]) out(int y) ${ y = a[i]; }$ : 0 7 8 9 : 7
in(int i, int a[3]) out(int y) ${ y = a[i]; }$ : 2 7 8 9 : 9
in(int i, int a[3]) out(int y) ${ y = a[i]; }$ : 3 7 8 9 : Index
in(int i, int a[3]) out(int y) ${ y = a[i]; }$ : -1 7 8 9 : Index
in(int i, int j, int a[2][3]) out(int y) ${ y = a[i][j]; }$ : 0 0 1 2 3 4 5 6 : 1
in(int i, int j, int a[2][3]) out(int y) ${ y = a[i][j]; }$ : 1 2 1 2 3 4 5 6 : 6
in(int i, int j, int a[2][3]) out(int y) ${ y = a[i][j]; }$ : 0 2 1 2 3 4 5 6 : 3
in(int i, int j, int a[2][3]) out(int y) ${ y = a[i][j]; }$ : 1 0 1 2 3 4 5 6 : 4
in(int i, int j, int a[2][3]) out(int y) ${ y = a[i][j]; }$ : 2 0 1 2 3 4 5 6 : Index
in(int i, int j, int a[2][3]) out(int y) ${ y = a[i][j]; }$ : -1 0 1 2 3 4 5 6 : Index
in(int i, int j, int a[2][3]) out(int y) ${ y = a[i][j]; }$ : 0 3 1 2 3 4 5 6 : Index
in(int i, int j, int a[2][3]) out(int y) ${ y = a[i][j]; }$ : 1 -1 1 2 3 4 5 6 : Index
in(int i, int x) out(int b[2][2]) ${ b[i][1 - i] = x; }$ : 0 5 : 0 5 0 0
in(int i, int x) out(int b[2][2]) ${ b[i][1 - i] = x; }$ : 1 5 : 0 0 5 0
in(int i, int x) out(int b[2][2]) ${ b[i][1 - i] = x; }$ : 2 5 : Index
in(int i, int x) out(int b[2]) ${ b[i] = 1 / x; }$ : 2 0 : Index
in(int i, int x) out(int b[2]) ${ b[i] = 1 / x; }$ : 1 0 : DivZero
in(int x) out(int y) ${ int a[2][2]; y = a[2][1 / x]; }$ : 0 : Index
in(int x) out(int y) ${ int a[2][2]; y = a[1 / x][2]; }$ : 0 : DivZero
in(int x) out(int y) budget 5 ${ while (y < 3) { y = y + 1; } while (y < x) { y = y + 1; } }$ : 5 : 5
in(int x) out(int y) budget 5 ${ while (y < 3) { y = y + 1; } while (y < x) { y = y + 1; } }$ : 6 : Budget
in(int x) out(int y) budget 6 ${ int i; int j; for (i = 0; i < 2; i = i + 1) { for (j = 0; j < x; j = j + 1) { y = y + 1; } } }$ : 2 : 4
in(int x) out(int y) budget 6 ${ int i; int j; for (i = 0; i < 2; i = i + 1) { for (j = 0; j < x; j = j + 1) { y = y + 1; } } }$ : 3 : Budget
in(int x) out(int y) ${ if (x) { y = 1; } else { y = 2; } }$ : -5 : 1
in(int x) out(int y) ${ if (x) { y = 1; } else { y = 2; } }$ : 0 : 2
in(int x) out(int y) ${ if (x) { y = 1; } y = y + 2; }$ : 7 : 3
in(int x) out(int y) ${ if (x) { y = 1; } y = y + 2; }$ : 0 : 2
in(int x) out(int y) ${ while (1 / x) { y = 1; } }$ : 0 : DivZero
in(int x) out(int y) ${ while (1 / x) { y = 1; } }$ : 2 : 0
in(int x) out(int y, int z) ${ y = z; }$ : 9 : 0 0
in(int x) out(int y) ${ y = x; y = 1 << y; y = y / (y - 2); }$ : 1 : DivZero
in(int x) out(int y) ${ y = x; y = 1 << y; y = y / (y - 2); }$ : 64 : Shift
in(int x) out(int y) ${ y = x; y = 1 << y; y = y / (y - 2); }$ : 2 : 2
in(int a, int b) out(int g) ${ int x; int y; int t; x = a; y = b; while (y) { t = x % y; x = y; y = t; } g = x; }$ : 48 36 : 12
in(int a, int b) out(int g) ${ int x; int y; int t; x = a; y = b; while (y) { t = x % y; x = y; y = t; } g = x; }$ : 17 5 : 1
in(int a, int b) out(int g) ${ int x; int y; int t; x = a; y = b; while (y) { t = x % y; x = y; y = t; } g = x; }$ : 0 0 : 0
in(int a, int b) out(int g) ${ int x; int y; int t; x = a; y = b; while (y) { t = x % y; x = y; y = t; } g = x; }$ : 5 0 : 5
in(int n) out(int k) ${ int m; for (m = n; m != 1; k = k + 1) { if (m & 1) { m = 3 * m + 1; } else { m = m / 2; } } }$ : 1 : 0
in(int n) out(int k) ${ int m; for (m = n; m != 1; k = k + 1) { if (m & 1) { m = 3 * m + 1; } else { m = m / 2; } } }$ : 6 : 8
in(int n) out(int k) ${ int m; for (m = n; m != 1; k = k + 1) { if (m & 1) { m = 3 * m + 1; } else { m = m / 2; } } }$ : 27 : 111
in(int a[5]) out(int b[5]) ${ int i; int j; int t; for (i = 0; i < 5; i = i + 1) { b[i] = a[i]; } for (i = 0; i < 4; i = i + 1) { for (j = 0; j < 4 - i; j = j + 1) { if (b[j] > b[j + 1]) { t = b[j]; b[j] = b[j + 1]; b[j + 1] = t; } } } }$ : 5 1 4 -2 3 : -2 1 3 4 5
in(int a[2][2], int b[2][2]) out(int c[2][2]) ${ int i; int j; int k; for (i = 0; i < 2; i = i + 1) { for (j = 0; j < 2; j = j + 1) { for (k = 0; k < 2; k = k + 1) { c[i][j] = c[i][j] + a[i][k] * b[k][j]; } } } }$ : 1 2 3 4 5 6 7 8 : 19 22 43 50
in(int x) out(int y) ${ int a[4]; a[0] = 2; a[a[0]] = 3; a[a[a[0]]] = x; y = a[a[a[0]]] + a[3]; }$ : 8 : 16";

#[test]
fn expressions_at_their_edges(rt: HostRuntime) -> Result<(), Fail> {
    let head = "in(int a, int b) out(int y) ${ y = ";
    check_lines(&rt, rt.alloc(), EXPRESSIONS, head, "; }$")
}

#[test]
fn bodies_with_loops_arrays_and_traps(rt: HostRuntime) -> Result<(), Fail> {
    check_lines(&rt, rt.alloc(), BODIES, "", "")
}
