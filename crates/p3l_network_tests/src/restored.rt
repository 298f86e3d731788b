// Machines that are saved, and go on as what is restored.

ghost use Rattle.std.specs.Prelude.{◌≡◌, IfOk};
ghost use Rattle.p3l_base.specs.Memory.{IfGiven};
ghost use Rattle.p3l_link.specs.Net.{linked_net};

use crate::stepping::net_of;
use p3l_base::NoMemory;
use p3l_net::Machine;
use p3l_skel::{Counts, Tree};
use std::alloc::Global;
use std::process::Abort;

/// The machine that is restored from what is saved of another.
fn again<'t>(
    rt: &impl Abort,
    alloc: Global,
    machine: &Machine<'_>,
    tree: &'t Tree,
    counts: &Counts,
) -> Result<Machine<'t>, NoMemory>
    requires tree { machine.now.tree ≡ tree.now }
    requires net { machine.now.net ≡ linked_net tree.now counts.now.list 1 }
    ensures tree { IfGiven result (λ same. same.tree ≡ tree.now) }
    ensures net { IfOk result (λ same. same.net ≡ linked_net tree.now counts.now.list 1) }
{
    assert!(rt; !machine.trapped());
    let shot = machine.save(alloc)?;
    assert!(rt; shot.is_countable());
    let net = net_of(rt, alloc, tree, counts)?;
    Machine::restore(alloc, tree, net, shot)
}

/// Saves a machine, and puts what is restored of it in its place.
pub fn renew<'t>(
    rt: &impl Abort,
    alloc: Global,
    machine: &mut Machine<'t>,
    tree: &'t Tree,
    counts: &Counts,
) -> Result<(), NoMemory>
    requires tree { machine.old.tree ≡ tree.now }
    requires net { machine.old.net ≡ linked_net tree.now counts.now.list 1 }
    ensures tree { machine.new.tree ≡ machine.old.tree }
    ensures net { machine.new.net ≡ machine.old.net }
{
    *machine = again(rt, alloc, machine, tree, counts)?;
    Ok(())
}
