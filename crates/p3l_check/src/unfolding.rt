// Trees of modules.

ghost use Rattle.std.specs.Prelude.{◌≡◌, ◌<◌, IfOk, IfErr, length};
ghost use Rattle.p3l_check.specs.Wiring.{IsWiring};
ghost use Rattle.p3l_check.specs.Refusing.{IsUnfolded, IsRefused};
ghost use Rattle.p3l_check.specs.declared.unfolding.UnfoldRefusal.TheVariants.{NoMemory};

use crate::callables::Callable;
use crate::instance::instance;
use crate::nesting::is_nested;
use p3l_base::List;
use p3l_skel::tree::NESTING;
use p3l_skel::work::is_light;
use p3l_skel::{ModuleInfo, Tree};
use std::alloc::Global;

/// Why a module has no lawful tree; the first of these, in this order, is the one that is given.
#[derive(Clone, Copy, Debug, Drop, PartialEq, Eq)]
pub enum UnfoldRefusal {
    /// Instances are nested more than `NESTING` deep.
    TooDeep,
    /// There are more than `MOST_NODES` instances.
    TooManyInstances,
    /// One item makes more firings or runs of bodies than a tree may make.
    TooHeavy,
    /// Out of memory.
    NoMemory,
}

impl From<p3l_base::NoMemory> for UnfoldRefusal {
    ghost from_gives = { λ _ refusal. refusal ≡ NoMemory };

    fn from(_want: p3l_base::NoMemory) -> UnfoldRefusal {
        UnfoldRefusal::NoMemory
    }
}

/// The tree of the module `root`: its instance with the instances of the modules that it calls, in
/// preorder. The time it takes grows with the calls and with the tree alone.
pub fn unfold(
    alloc: Global,
    infos: List<ModuleInfo>,
    callables: &[Callable],
    root: u32,
) -> Result<Tree, UnfoldRefusal>
    requires wiring { IsWiring infos callables.now }
    requires root { root < length callables.now }
    ensures tree { IfOk result (IsUnfolded infos callables.now root) }
    ensures refused { IfErr result (IsRefused infos callables.now root) }
{
    if !is_nested(alloc, callables, root)? {
        return Err(UnfoldRefusal::TooDeep);
    }
    let nodes = instance(alloc, callables, NESTING, root, 0)?;
    let tree = Tree {
        nodes: List::from_vec(nodes),
        modules: infos,
    };
    if is_light(&tree) {
        Ok(tree)
    } else {
        Err(UnfoldRefusal::TooHeavy)
    }
}
