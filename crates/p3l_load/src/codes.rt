// The codes of a tree's `seq` modules.

ghost use Rattle.std.specs.Prelude.{◌≡◌, ◌↔◌, ◌<◌, ◌^◌, length, IsTrue};
ghost use Rattle.p3l_base.specs.Memory.{IfGiven};
ghost use Rattle.std.specs.Option.{option_map};
ghost use Rattle.p3l_units.specs.Table.{HasCode, HasPlaces, HasWordsOf};
ghost use Rattle.p3l_units.specs.Table.{code_of, is_seq_kind, one_if_seq};
ghost use Rattle.p3l_load.specs.Codes.{HasCodes, seqs_in};

use p3l_base::{List, NoMemory};
use p3l_code::Code;
use p3l_skel::{Form, ModuleInfo, ModuleKind, Node, Tree};
use std::alloc::Global;
use std::marker::Model;

// Tests that a module is written as `seq`.
fn is_seq(info: &ModuleInfo) -> bool
    ensures { result ≡ is_seq_kind info.now.kind }
{
    match info.kind {
        ModuleKind::Seq => true,
        _ => false,
    }
}

// The number of `seq` modules.
fn seqs_in(modules: &[ModuleInfo]) -> usize
    ensures { result ≡ seqs_in modules.now }
{
    modules.iter().filter(|info| is_seq(info)).count()
}

// The codes of a tree, found by their modules. Contracts see the tree and the codes.
#[derive(Drop)]
struct CodeTable<'a> {
    tree: &'a Tree,
    codes: &'a [Code],
    // For each module, the number of `seq` modules before it.
    places: List<u32>,
}

impl<'a> Model for CodeTable<'a> {
    ghost use Rattle.p3l_units.specs.Table.{Served, HasPlaces};

    ghost Value = { Served };

    ghost view = { λ it. record { tree = it.tree.now; codes = it.codes.now } };

    ghost invariant = { λ it. HasPlaces it.tree.now.modules it.places };
}

impl<'a> CodeTable<'a> {
    // The table of a tree and these codes.
    fn new(alloc: Global, tree: &'a Tree, codes: &'a [Code]) -> Result<CodeTable<'a>, NoMemory>
        requires { length tree.now.modules < 2 ^ 32 }
        ensures { IfGiven result (λ table. table ≡ record { tree = tree.now; codes = codes.now }) }
    {
        let places = code_places(alloc, tree.modules.as_slice())?;
        Ok(CodeTable {
            tree,
            codes,
            places,
        })
    }

    // The code of a `seq` module.
    fn code_of(&self, home: u32) -> Option<&Code>
        ensures { option_map (λ code. code.now) result ≡ code_of self.now home }
    {
        let info = self.tree.modules.as_slice().get(home as usize)?;
        if !is_seq(info) {
            return None;
        }
        let place = self.places.as_slice().get(home as usize)?;
        self.codes.get(*place as usize)
    }

    // Tests that a node, if it is a `seq` node, has a code with its words.
    fn has_code(&self, node: &Node) -> bool
        ensures { IsTrue result ↔ HasCode self.now node.now }
    {
        match &node.form {
            Form::Seq => match self.code_of(node.module) {
                Some(code) => has_words_of(node, code),
                None => false,
            },
            _ => true,
        }
    }
}

// Tests that a code takes and gives the words of a node.
fn has_words_of(node: &Node, code: &Code) -> bool
    ensures { IsTrue result ↔ HasWordsOf node.now code.now }
{
    code.ins == node.ins && code.outs == node.outs
}

// 1 for a `seq` module, else 0.
fn one_if_seq(info: &ModuleInfo) -> u32
    ensures { result ≡ one_if_seq info.now.kind }
{
    match info.kind {
        ModuleKind::Seq => 1,
        _ => 0,
    }
}

// For each module, the number of `seq` modules before it.
fn code_places(alloc: Global, modules: &[ModuleInfo]) -> Result<List<u32>, NoMemory>
    requires { length modules.now < 2 ^ 32 }
    ensures { IfGiven result (HasPlaces modules.now) }
{
    let mut places = List::new(alloc);
    let mut before: u32 = 0;
    for info in modules {
        places.push(before)?;
        before += one_if_seq(info);
    }
    Ok(places)
}

/// Tests that there is one code for each `seq` module of a tree, in their order, with the words of that
/// module's nodes.
pub fn has_codes(alloc: Global, tree: &Tree, codes: &[Code]) -> Result<bool, NoMemory>
    requires { length tree.now.modules < 2 ^ 32 }
    ensures { IfGiven result (λ has. IsTrue has ↔ HasCodes tree.now codes.now) }
{
    if codes.len() != seqs_in(tree.modules.as_slice()) {
        return Ok(false);
    }
    let table = CodeTable::new(alloc, tree, codes)?;
    Ok(
        tree.nodes
            .as_slice()
            .iter()
            .all(|node| table.has_code(node)),
    )
}
