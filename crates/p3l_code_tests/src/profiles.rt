// Programs of texts, profiled on items: the cost files that come out. The instructions of each body
// are counted by hand.

ghost use Rattle.std.specs.Prelude.{◌≡◌};
ghost use Rattle.std.specs.List.{All};
ghost use Rattle.p3l_ast.specs.Tree.{program_tree};
ghost use Rattle.p3l_skel.specs.Lawful.{IsLawfulTree};
ghost use Rattle.p3l_skel.specs.Tree.{node_at};
ghost use Rattle.p3l_units.specs.Table.{HasCode};
ghost use Rattle.p3l_body_laws.specs.Checked.{IsRead};

use crate::bodies::words_of;
use p3l_ast::Program;
use p3l_base::List;
use p3l_body_laws::resolved_serve;
use p3l_check::resolve;
use p3l_code::SafeCode;
use p3l_compile::codes_of;
use p3l_cost::read_costs;
use p3l_profile::Profile;
use p3l_reader::read;
use p3l_skel::Tree;
use std::alloc::Global;
use std::test::*;

/// Returns the number of words that the root of a tree takes, and 0 if it has no root.
fn width_of(tree: &Tree) -> usize
    ensures { result ≡ (node_at tree.now 0).ins }
{
    match tree.node(0) {
        Some(root) => root.ins as usize,
        None => 0,
    }
}

/// The cost file of a profile, which is read as one of its tree.
fn cost_file(alloc: Global, tree: &Tree, profile: &Profile) -> Result<List<u8>, Fail>
    requires { IsLawfulTree tree.now }
{
    let text = profile.text(alloc, tree)?;
    match read_costs(alloc, text.as_slice(), tree) {
        Ok(_) => Ok(text),
        Err(_) => Err(Fail::new("no cost file of its tree")),
    }
}

/// The cost file of a tree for items, one after another between bars.
fn tree_profile(
    alloc: Global,
    tree: &Tree,
    codes: &List<SafeCode>,
    items: &str,
) -> Result<List<u8>, Fail>
    requires lawful { IsLawfulTree tree.now }
    requires codes { All (HasCode (record { tree = tree.now; codes = codes.now })) tree.now.nodes }
{
    let width = width_of(tree);
    let mut profile = Profile::new(alloc, tree)?;
    for item in items.split_terminator(" | ") {
        let words = words_of(alloc, item)?;
        if words.len() != width {
            return Err(Fail::new("another number of words"));
        }
        profile.item(alloc, tree, codes, &words)?;
    }
    cost_file(alloc, tree, &profile)
}

/// The cost file of a program for items.
fn program_profile(
    alloc: Global,
    text: &str,
    program: &Program,
    items: &str,
) -> Result<List<u8>, Fail>
    requires { IsRead text.now (program_tree program.now) }
{
    let Ok(resolved) = resolve(alloc, program) else {
        return Err(Fail::new("a broken rule"));
    };
    resolved_serve();
    let codes = codes_of(alloc, resolved.seqs.as_slice())?;
    tree_profile(alloc, &resolved.tree, &codes, items)
}

/// The cost file of a text's program for items.
fn profile(alloc: Global, text: &str, items: &str) -> Result<List<u8>, Fail> {
    let Ok(program) = read(alloc, text.as_bytes()) else {
        return Err(Fail::new("no program"));
    };
    program_profile(alloc, text, &program, items)
}

/// Each line has a program, items, and what comes after the first two lines of their cost file, whose
/// lines stand between semicolons. The body `up` does 10 instructions where its word is 1, 235 where it
/// is 4, and the 3 up to its trap where it is 0.
const PROFILES: &str =
    "seq main in(int x) out(int y) ${ y = x * 2 + 1; }$ end seq : 1 | 2 | -3 : [seq];main = 7;
seq main in(int x) out(int y) ${ y = x * 2 + 1; }$ end seq :  : [seq];main = 0;
seq half in(int x, int c) out(int y, int d) ${ y = x / 2; d = c + 1; }$ end seq seq more in(int x, int c) out(int z) ${ z = x > 1; }$ end seq loop main in(int x, int c) out(int y, int d) turns 10 half in(x, c) out(y, d) while more in(y, d) out(int z) end loop : 64 0 | 3 0 : [seq];half = 9;more = 5;[turns];main = 6;
seq half in(int x, int c) out(int y, int d) ${ y = x / 2; d = c + 1; }$ end seq seq more in(int x, int c) out(int z) ${ z = x > 1; }$ end seq loop main in(int x, int c) out(int y, int d) turns 10 half in(x, c) out(y, d) while more in(y, d) out(int z) end loop :  : [seq];half = 0;more = 0;[turns];main = 1;
seq up in(int x) out(int y) ${ y = 100 / x; while (y < 50) { y = y + 1; } }$ end seq map each in(int a[3]) out(int b[3]) up in(a[*i]) out(b[*i]) end map comp main in(int a[3]) out(int b[3]) rescue 7 each in(a) out(b) end comp : 1 0 4 : [seq];up = 10;
seq up in(int x) out(int y) ${ y = 100 / x; while (y < 50) { y = y + 1; } }$ end seq map each in(int a[3]) out(int b[3]) up in(a[*i]) out(b[*i]) end map comp main in(int a[3]) out(int b[3]) rescue 7 each in(a) out(b) end comp : 1 0 4 | 4 1 0 : [seq];up = 235;
seq up in(int x, int z) out(int y) ${ y = 100 / x; while (y < 50) { y = y + 1; } }$ end seq reduce total in(int a[4]) out(int s) up in(a[*i]) out(s) end reduce comp main in(int a[4]) out(int s) rescue 7 total in(a) out(s) end comp : 0 1 4 1 : [seq];up = 3;
seq up in(int x) out(int y) ${ y = 100 / x; while (y < 50) { y = y + 1; } }$ end seq seq id in(int x) out(int y) ${ y = x; }$ end seq comp main in(int x) out(int y) rescue 7 up in(x) out(int t) id in(t) out(y) end comp : 0 : [seq];up = 3;id = 0;";

#[test]
fn cost_files_of_items(rt: HostRuntime) -> Result<(), Fail> {
    for line in PROFILES.lines() {
        let (text, case) = line.split_once(" : ").ok_or("no items")?;
        let (items, expected) = case.split_once(" : ").ok_or("no cost file")?;
        let given = profile(rt.alloc(), text, items)?;
        let lines = expected.replace(rt.alloc(), ";", "\n")?;
        let expected = format!(in rt.alloc(); "setup = 10\nword = 1\n{lines}")?;
        assert!(rt; given.as_slice() == expected.as_str().as_bytes(), "{line}");
    }
    Ok(())
}
