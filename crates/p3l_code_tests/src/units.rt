// Programs of texts whose root runs in one process, run by the units of their trees.

ghost use Rattle.std.specs.Prelude.{◌≡◌, IfSome, length};
ghost use Rattle.p3l_ast.specs.Tree.{program_tree};
ghost use Rattle.p3l_skel.specs.declared.tree.Form.TheVariants as forms;
ghost use Rattle.p3l_skel.specs.Tree.{node_at, IsUnit, HasFittingLength};
ghost use Rattle.p3l_body_laws.specs.Checked.{IsRead};

use crate::bodies::{words_of, written};
use p3l_ast::Program;
use p3l_base::{NoMemory, Outcome, Words};
use p3l_body_laws::resolved_serve;
use p3l_check::resolve;
use p3l_compile::units_of;
use p3l_reader::read;
use p3l_skel::{Form, Tree, Units};
use p3l_units::UnitTable;
use std::alloc::Global;
use std::test::*;

/// Returns the number of words that the root of a tree takes, if it is a comp.
fn comp_ins(tree: &Tree) -> Option<u32>
    ensures unit { IfSome result (λ _. IsUnit tree.now 0) }
    ensures fits { IfSome result (λ ins. HasFittingLength tree.now 0 ins) }
{
    let Some(node) = tree.node(0) else {
        return None;
    };
    match node.form {
        Form::Comp => Some(node.ins),
        _ => None,
    }
}

/// Returns what the root of a tree makes of words; nothing where it is no comp, or takes another
/// number of them.
fn root_outcome(
    alloc: Global,
    units: &UnitTable<'_>,
    words: &Words,
) -> Result<Option<Outcome>, NoMemory> {
    let Some(ins) = comp_ins(units.tree()) else {
        return Ok(None);
    };
    if words.as_slice().len() != ins as usize {
        return Ok(None);
    }
    Ok(Some(units.run(alloc, 0, words)?))
}

/// Returns what the root of a program makes of words; nothing where the program breaks a rule.
fn program_outcome(
    alloc: Global,
    text: &str,
    program: &Program,
    words: &Words,
) -> Result<Option<Outcome>, NoMemory>
    requires { IsRead text.now (program_tree program.now) }
{
    let Ok(resolved) = resolve(alloc, program) else {
        return Ok(None);
    };
    resolved_serve();
    let units = units_of(alloc, &resolved.tree, resolved.seqs.as_slice())?;
    root_outcome(alloc, &units, words)
}

/// Returns what the root of a text's program makes of words.
fn outcome(alloc: Global, text: &str, words: &Words) -> Result<Option<Outcome>, NoMemory> {
    let Ok(program) = read(alloc, text.as_bytes()) else {
        return Ok(None);
    };
    program_outcome(alloc, text, &program, words)
}

/// Each line has a program, the words that it takes, and what it makes of them.
const COMPS: &str =
    "seq dv in(int x) out(int y) ${ if (x < 0) { y = 1 << 64; } else { y = 100 / x; } }$ end seq map each in(int a[4]) out(int b[4]) workers 2 dv in(a[*i]) out(b[*i]) end map comp main in(int a[4]) out(int b[4]) each in(a) out(b) end comp : 5 -1 0 2 : Shift
seq dv in(int x) out(int y) ${ y = 100 / x; }$ end seq map each in(int a[4]) out(int b[4]) dv in(a[*i]) out(b[*i]) end map comp main in(int a[4]) out(int b[4]) each in(a) out(b) end comp : 5 1 100 2 : 20 100 1 50
seq sub in(int x, int y) out(int z) ${ z = x - y; }$ end seq reduce total in(int a[5]) out(int s) workers 4 sub in(a[*i]) out(s) end reduce comp main in(int a[5]) out(int s) total in(a) out(s) end comp : 1 2 3 4 5 : -5
seq dot in(int a[2], int b[2]) out(int c) ${ c = a[0] * b[0] + a[1] * b[1]; }$ end seq map product in(int a[2][2], int b[2][2]) out(int c[2][2]) dot in(a[*i][], b[][*j]) out(c[*i][*j]) end map comp main in(int a[2][2], int b[2][2]) out(int c[2][2]) product in(a, b) out(c) end comp : 1 2 3 4 5 6 7 8 : 19 22 43 50
const K = 3; seq add in(int x) out(int y) ${ y = x + K; }$ end seq const L = 5; seq times in(int x) out(int y) ${ y = x * L - K; }$ end seq comp main in(int x) out(int y) add in(x) out(int a) times in(a) out(int b) add in(b) out(y) end comp : 4 : 35";

#[test]
fn comps_of_maps_and_reduces(rt: HostRuntime) -> Result<(), Fail> {
    for line in COMPS.lines() {
        let (text, case) = line.split_once(" : ").ok_or("no words")?;
        let (words, expected) = case.split_once(" : ").ok_or("no outcome")?;
        let given = outcome(rt.alloc(), text, &words_of(rt.alloc(), words)?)?;
        let given = written(rt.alloc(), &given)?;
        assert!(rt; given.as_str() == expected, "{given} for {line}");
    }
    Ok(())
}
