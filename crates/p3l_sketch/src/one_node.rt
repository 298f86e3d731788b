// The tree of one node, and bodies for it. Contracts see the tree, and the outcomes of the bodies.

ghost use Rattle.std.specs.Prelude.{◌≡◌};
ghost use Rattle.p3l_base.specs.Memory.{IfGiven};
ghost use Rattle.p3l_sketch.specs.OneNode.{one_node};

use p3l_base::{List, Name, NoMemory, Outcome, Trap, TrapKind, Words};
use p3l_skel::{Form, ModuleInfo, ModuleKind, Node, Tree, Units};
use std::alloc::Global;

/// A body that returns the word that it is given.
pub struct Echo;

impl Units for Echo {
    ghost use Rattle.std.specs.Prelude.{false};
    ghost use Rattle.p3l_sketch.specs.OneNode.{one_node, given_back};
    ghost use Rattle.p3l_sketch.specs.OneNodeLaws.{gives_back};

    ghost tree = { λ _. one_node };

    ghost leaf = { λ _. given_back };

    ghost may_want = { false };

    ghost gives_outs = { λ _. gives_back };

    fn run(&self, alloc: Global, _node: u32, words: &Words) -> Result<Outcome, NoMemory> {
        let copy = words.as_slice().to_vec(alloc)?;
        Ok(Outcome::Value(Words::from_vec(copy)))
    }
}

/// The body that traps on each word.
pub struct Refusing;

impl Units for Refusing {
    ghost use Rattle.std.specs.Prelude.{false};
    ghost use Rattle.p3l_sketch.specs.OneNode.{one_node};
    ghost use Rattle.p3l_sketch.specs.Refusing.{refusing, gives_none};

    ghost tree = { λ _. one_node };

    ghost leaf = { λ _. refusing };

    ghost may_want = { false };

    ghost gives_outs = { λ _. gives_none };

    fn run(&self, _alloc: Global, _node: u32, _words: &Words) -> Result<Outcome, NoMemory> {
        Ok(Outcome::Trapped(Trap {
            kind: TrapKind::DivZero,
            module: 0,
        }))
    }
}

/// The tree of the node `main`, a `seq` that takes and gives one word.
pub fn tree_of_one(alloc: Global) -> Result<Tree, NoMemory>
    ensures { IfGiven result (λ tree. tree ≡ one_node) }
{
    let mut nodes = List::new(alloc);
    nodes.push(Node {
        form: Form::Seq,
        module: 0,
        ins: 1,
        outs: 1,
        parts: List::new(alloc),
    })?;
    let mut modules = List::new(alloc);
    modules.push(ModuleInfo {
        name: Name::from_text(alloc, "main")?,
        kind: ModuleKind::Seq,
        rescue: None,
    })?;
    Ok(Tree { nodes, modules })
}
