// The numbers of the cost model.

ghost use Rattle.std.specs.Prelude.{◌≡◌, IfOk};
ghost use Rattle.p3l_base.specs.Memory.{IfGiven};
ghost use Rattle.p3l_skel.specs.Lawful.{IsLawfulTree};
ghost use Rattle.p3l_cost.specs.Costs.{AreCostsOf};
ghost use Rattle.p3l_cost.specs.Standard.{standard_costs, standard_ticks, full_turns, turns_or, turns_in};

use p3l_base::{List, NoMemory};
use p3l_skel::{Form, ModuleKind, Node, Tree};
use std::alloc::Global;

/// The costs of a tree's modules, in ticks. A token of `w` words is taken or handed on in
/// `setup + word * w` ticks; an item costs a `seq` module its `ticks`; and `turns` are how often a
/// `loop` module's body is expected to run for an item. Both lists have one number for each module,
/// in the order of the source, which counts only for a module of that skeleton.
#[derive(Debug, Drop)]
pub struct Costs {
    pub setup: u32,
    pub word: u32,
    pub ticks: List<u32>,
    pub turns: List<u32>,
}

/// The standard costs of a tree: setup 10, 1 for each word, 100 ticks for each `seq` module, and
/// for each `loop` module as many turns as its clause allows.
pub fn standard(alloc: Global, tree: &Tree) -> Result<Costs, NoMemory>
    requires { IsLawfulTree tree.now }
    ensures costs { IfGiven result (λ costs. costs ≡ standard_costs tree.now) }
    ensures lawful { IfOk result (AreCostsOf tree.now) }
{
    let mut ticks = List::new(alloc);
    let mut turns = List::new(alloc);
    for home in 0..tree.modules.len() {
        ticks.push(standard_ticks(tree.modules.as_slice()[home].kind))?;
        turns.push(full_turns(tree.nodes.as_slice(), home as u32))?;
    }
    Ok(Costs {
        setup: 10,
        word: 1,
        ticks,
        turns,
    })
}

// The standard ticks of a module.
fn standard_ticks(kind: ModuleKind) -> u32
    ensures { result ≡ standard_ticks kind }
{
    match kind {
        ModuleKind::Seq => 100,
        _ => 0,
    }
}

/// The turns that a loop module allows, if one of these nodes is its loop; 1 for other modules.
pub(crate) fn full_turns(nodes: &[Node], home: u32) -> u32
    ensures { result ≡ full_turns nodes.now home }
{
    turns_or(nodes, home, 1)
}

/// The turns that a loop module allows, if one of these nodes is its loop; otherwise another number.
pub(crate) fn turns_or(nodes: &[Node], home: u32, other: u32) -> u32
    ensures { result ≡ turns_or other nodes.now home }
{
    for node in nodes {
        match turns_in(node, home) {
            Some(turns) => return turns,
            None => {}
        }
    }
    other
}

// The turns that a node allows, if it is a loop of this module.
fn turns_in(node: &Node, home: u32) -> Option<u32>
    ensures { result ≡ turns_in node.now home }
{
    match &node.form {
        Form::Loop { turns, .. } if node.module == home => Some(*turns),
        _ => None,
    }
}
