// The tree of skeletons and the counts of workers.

ghost use Rattle.std.specs.Prelude.{◌≡◌, ◌↔◌, ◌<◌, ◌≤◌, IsSome, IfSome, IfNone, length, slice_index};
ghost use Rattle.p3l_base.specs.Memory.{IfGiven};
ghost use Rattle.p3l_skel.specs.Tree.{node_at, rescue_of, seq_tree};

use p3l_base::{Cut, List, Name, NoMemory};
use std::alloc::Global;

/// The most levels of nested nodes; the root counts as one.
pub const NESTING: u32 = 6;

/// The skeleton of a node, with the numbers of its module's clauses.
#[derive(Debug, Drop)]
pub enum Form {
    /// Runs the body of a `seq` module.
    Seq,
    /// Runs its parts one after the other, all in one process.
    Comp,
    /// Runs its parts one after the other, each on its own processes.
    Pipe,
    /// Runs its part on one of many workers.
    Farm {
        workers: Option<u32>,
    },
    /// Runs its part on each element of the item, on several workers.
    Map {
        workers: Option<u32>,
        cut: Cut,
    },
    /// Folds `len` elements of `elem` words each with its part, on several workers.
    Reduce {
        workers: Option<u32>,
        len: u32,
        elem: u32,
    },
    /// Runs its body until its condition gives 0, for at most `turns` turns an item, with at most
    /// `tokens` items at once.
    Loop {
        turns: u32,
        tokens: u32,
    },
}

/// One instance of a module: its form, the module's number in the order of the source, the words
/// that it takes and gives, and the numbers of its parts. A loop's parts are its body and its
/// condition, in this order.
#[derive(Debug, Drop)]
pub struct Node {
    pub form: Form,
    pub module: u32,
    pub ins: u32,
    pub outs: u32,
    pub parts: List<u32>,
}

/// A module of the program. If it has a rescue number, a trap that arises within one of its nodes
/// becomes a value whose words are all this number: only a `seq` or `comp` module may have one.
#[derive(Debug, Drop)]
pub struct ModuleInfo {
    pub name: Name,
    pub kind: ModuleKind,
    pub rescue: Option<i64>,
}

/// The skeleton that a module is written with.
#[derive(Clone, Copy, Debug, Drop, PartialEq, Eq)]
pub enum ModuleKind {
    Seq,
    Comp,
    Pipe,
    Farm,
    Map,
    Reduce,
    Loop,
}

/// The instances of a program's modules, in preorder from the root 0, and the modules in the order
/// of the source.
#[derive(Debug, Drop)]
pub struct Tree {
    pub nodes: List<Node>,
    pub modules: List<ModuleInfo>,
}

/// The numbers of workers, or of segments of a reduce, of all farm, map and reduce nodes outside
/// units, in preorder.
#[derive(Debug, Drop)]
pub struct Counts {
    pub list: List<u32>,
}

impl Tree {
    /// The tree of a program of one `seq` module with this name, which takes `ins` words and gives
    /// `outs`.
    pub fn of_seq(alloc: Global, name: Name, ins: u32, outs: u32) -> Result<Tree, NoMemory>
        ensures { IfGiven result (λ tree. tree ≡ seq_tree name ins outs) }
    {
        let mut nodes = List::new(alloc);
        nodes.push(Node {
            form: Form::Seq,
            module: 0,
            ins,
            outs,
            parts: List::new(alloc),
        })?;
        let mut modules = List::new(alloc);
        modules.push(ModuleInfo {
            name,
            kind: ModuleKind::Seq,
            rescue: None,
        })?;
        Ok(Tree { nodes, modules })
    }

    /// The node of a number, if there is one.
    pub fn node(&self, number: u32) -> Option<&Node>
        ensures there { IsSome result ↔ (number < length self.now.nodes) }
        ensures found { IfSome result (λ node. node.now ≡ node_at self.now number) }
        ensures past { IfNone result (length self.now.nodes ≤ number) }
    {
        self.nodes.as_slice().get(number as usize)
    }

    /// The rescue number of a module, if it has one.
    pub fn rescue_of(&self, module: u32) -> Option<i64>
        ensures { result ≡ rescue_of self.now «module» }
    {
        match self.modules.as_slice().get(module as usize) {
            Some(info) => info.rescue,
            None => None,
        }
    }
}

impl Node {
    /// The number of part `k`, and 0 where the node has no such part.
    pub fn part(&self, k: usize) -> u32
        ensures { result ≡ slice_index self.now.parts k }
    {
        self.parts.as_slice().get(k).copied().unwrap_or(0)
    }
}
