// The bodies of a tree's `seq` nodes, run and counted.

ghost use Rattle.std.specs.Prelude.{◌≡◌, ◌<◌, length, IfOk, Some};
ghost use Rattle.p3l_base.specs.Memory.{IfGiven};
ghost use Rattle.p3l_skel.specs.declared.tree.Form.TheVariants as forms;
ghost use Rattle.p3l_skel.specs.Tree.{node_at};
ghost use Rattle.p3l_units.specs.Table.{ArePlaced, code_of, leaf};
ghost use Rattle.p3l_profile.specs.Notes.{steps_at};

use p3l_base::{List, NoMemory, Words};
use p3l_code::{Counted, SafeCode, run_counted};
use p3l_skel::Tree;
use std::alloc::Global;
use std::marker::Model;

/// A tree with the codes of its `seq` modules in their order, which contracts see.
#[derive(Drop)]
pub struct Bodies<'t> {
    tree: &'t Tree,
    codes: &'t List<SafeCode>,
    // For each module, how many `seq` modules are before it.
    places: &'t List<u32>,
}

impl<'t> Model for Bodies<'t> {
    ghost use Rattle.p3l_units.specs.Table.{ArePlaced, Served};

    ghost Value = { Served };

    ghost view = { λ it. record { tree = it.tree.now; codes = it.codes.now } };

    ghost invariant = { λ it. ArePlaced it.tree.now it.codes.now it.places.now };
}

impl<'t> Bodies<'t> {
    /// The bodies of a tree, by the codes of its `seq` modules and the places of the modules among
    /// them.
    pub fn new(tree: &'t Tree, codes: &'t List<SafeCode>, places: &'t List<u32>) -> Bodies<'t>
        requires { ArePlaced tree.now codes.now places.now }
        ensures { result ≡ record { tree = tree.now; codes = codes.now } }
    {
        Bodies {
            tree,
            codes,
            places,
        }
    }

    /// The tree that the bodies are those of.
    pub fn tree(&self) -> &Tree
        ensures { result.now ≡ self.now.tree }
    {
        self.tree
    }

    /// Runs the code of a `seq` node, and counts its instructions.
    pub fn run_counted(&self, alloc: Global, node: u32, words: &Words) -> Result<Counted, NoMemory>
        requires there { node < length self.now.tree.nodes }
        requires form { (node_at self.now.tree node).form ≡ forms.Seq }
        requires fits { length words.now ≡ (node_at self.now.tree node).ins }
        ensures outcome { IfGiven result (λ counted. counted.outcome
            ≡ leaf self.now (node_at self.now.tree node).«module» words.now) }
        ensures steps { IfOk result (λ counted. counted.steps
            ≡ steps_at self.now (node_at self.now.tree node).«module» words.now) }
    {
        let Some(found) = self.tree.node(node) else {
            unreachable!();
        };
        let code = self.code_of(node, found.module);
        run_counted(alloc, code, found.module, words)
    }

    // The code of a `seq` node of this module.
    fn code_of(&self, node: u32, module: u32) -> &SafeCode
        requires there { node < length self.now.tree.nodes }
        requires form { (node_at self.now.tree node).form ≡ forms.Seq }
        requires own { «module» ≡ (node_at self.now.tree node).«module» }
        ensures { code_of self.now (node_at self.now.tree node).«module» ≡ Some result.now }
    {
        let place = self.places.as_slice()[module as usize];
        &self.codes.as_slice()[place as usize]
    }
}
