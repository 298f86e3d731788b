// The whole text of an exported program.

ghost use Rattle.std.specs.Prelude.{◌≡◌, ◌≤◌, ◌++◌, length};
ghost use Rattle.p3l_base.specs.Limits.{most_processes};
ghost use Rattle.p3l_base.specs.Memory.{IfGiven, OnGiven};
ghost use Rattle.p3l_skel.specs.Counts.{HasLawfulCounts};
ghost use Rattle.p3l_skel.specs.Lawful.{IsLawfulTree};
ghost use Rattle.p3l_skel.specs.Numbers.{procs};
ghost use Rattle.p3l_firing.specs.Typed.{IsTyped};
ghost use Rattle.p3l_export.specs.File.{IsExport, program_tables};

use crate::capacity::rows;
use crate::lines::put;
use crate::loads::loads;
use crate::tables::put_tables;
use p3l_base::{List, NoMemory};
use p3l_cost::Costs;
use p3l_firing::Net;
use p3l_fitting::surveyed;
use p3l_net::ends::Sides;
use p3l_skel::{Counts, Tree};
use std::alloc::Global;

/// Puts the tables of a tree and its net after a text.
fn put_program(
    alloc: Global,
    text: &mut Vec<u8>,
    tree: &Tree,
    counts: &Counts,
    costs: &Costs,
    net: &Net,
    ends: &Sides,
    chosen: bool,
) -> Result<(), NoMemory>
    requires tree { IsLawfulTree tree.now }
    requires counts { HasLawfulCounts tree.now counts.now.list }
    requires procs { procs tree.now counts.now.list 0 ≤ most_processes }
    requires few { length net.now.chans ≤ 1048576 }
    requires written { length ends.now.writers ≡ length net.now.chans }
    requires read { length ends.now.readers ≡ length net.now.chans }
    ensures { OnGiven result (text.new.items ≡ text.old.items
        ++ program_tables tree.now counts.now.list costs.now net.now ends.now chosen) }
{
    let survey = surveyed(alloc, tree, counts)?;
    let loads = loads(alloc, tree, counts, costs, net)?;
    let widths = survey.widths.as_slice();
    let rows = rows(alloc, tree, costs, net, ends, widths, chosen)?;
    let procs = net.procs.as_slice();
    put_tables(alloc, text, tree, procs, loads.as_slice(), rows.as_slice())
}

/// The text of an exported program: the engine's first part, the functions of the bodies, the tables
/// of the tree and of its net, and the engine's second part.
///
/// Capacities are chosen or those of the net. A chosen one has room for some 10,000,000 ticks of
/// work by the costs, 2 to 64 tokens but no more than a mebibyte of words, and for no less than in
/// the net.
pub fn export_text(
    alloc: Global,
    tree: &Tree,
    counts: &Counts,
    costs: &Costs,
    net: &Net,
    chosen: bool,
    head: &str,
    bodies: &[u8],
    engine: &str,
) -> Result<List<u8>, NoMemory>
    requires tree { IsLawfulTree tree.now }
    requires counts { HasLawfulCounts tree.now counts.now.list }
    requires procs { procs tree.now counts.now.list 0 ≤ most_processes }
    requires typed { IsTyped tree.now net.now }
    ensures { IfGiven result (IsExport tree.now counts.now.list costs.now net.now chosen
        head.now bodies.now engine.now) }
{
    let ends = Sides::of(alloc, net)?;
    let mut text = Vec::new(alloc);
    put(&mut text, head)?;
    text.extend_from_slice(bodies)?;
    put_program(alloc, &mut text, tree, counts, costs, net, &ends, chosen)?;
    put(&mut text, engine)?;
    Ok(List::from_vec(text))
}
