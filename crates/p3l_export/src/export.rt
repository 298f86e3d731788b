// The text of a program that is exported under a capacity, or under none.

ghost use Rattle.std.specs.Prelude.{◌≡◌, ◌≤◌};
ghost use Rattle.p3l_base.specs.Limits.{most_processes, most_tokens};
ghost use Rattle.p3l_base.specs.Memory.{IfGiven};
ghost use Rattle.p3l_skel.specs.Counts.{HasLawfulCounts};
ghost use Rattle.p3l_skel.specs.Lawful.{IsLawfulTree};
ghost use Rattle.p3l_skel.specs.Numbers.{procs};
ghost use Rattle.p3l_export.specs.Export.{IsCapacity, IsExported, is_chosen, linked_capacity};

use crate::file::export_text;
use p3l_base::{List, NoMemory};
use p3l_cost::Costs;
use p3l_link::link;
use p3l_skel::{Counts, Tree};
use std::alloc::Global;

/// The capacity that a program is linked with: under none the least, so that each channel has what
/// its template needs.
fn linked_capacity(capacity: Option<u32>) -> u32
    requires { IsCapacity capacity }
    ensures value { result ≡ linked_capacity capacity }
    ensures some { 1 ≤ result }
    ensures few { result ≤ most_tokens }
{
    match capacity {
        Some(cap) => cap,
        None => 1,
    }
}

/// Tells whether capacities are chosen.
fn is_chosen(capacity: Option<u32>) -> bool
    ensures { result ≡ is_chosen capacity }
{
    match capacity {
        Some(_) => false,
        None => true,
    }
}

/// The text of a tree that is exported under a capacity, with these bodies, between the two parts of
/// an engine. Without a capacity each channel gets one that suits the costs of its processes.
pub fn export_program(
    alloc: Global,
    tree: &Tree,
    counts: &Counts,
    costs: &Costs,
    capacity: Option<u32>,
    head: &str,
    bodies: &[u8],
    engine: &str,
) -> Result<List<u8>, NoMemory>
    requires tree { IsLawfulTree tree.now }
    requires counts { HasLawfulCounts tree.now counts.now.list }
    requires procs { procs tree.now counts.now.list 0 ≤ most_processes }
    requires capacity { IsCapacity capacity }
    ensures { IfGiven result (IsExported tree.now counts.now.list costs.now capacity
        head.now bodies.now engine.now) }
{
    let net = link(alloc, tree, counts, linked_capacity(capacity))?;
    let chosen = is_chosen(capacity);
    export_text(
        alloc, tree, counts, costs, &net, chosen, head, bodies, engine,
    )
}
