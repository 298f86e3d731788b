// All tables of a program.

ghost use Rattle.std.specs.Prelude.{◌≡◌, ◌++◌};
ghost use Rattle.p3l_base.specs.Memory.{OnGiven};
ghost use Rattle.p3l_export.specs.Tables.{counts_text, net_text, tables_text, tree_text};

use crate::channels::{ChannelRow, put_channels};
use crate::lines::put;
use crate::modules::put_modules;
use crate::nodes::{put_nodes, put_parts};
use crate::processes::{put_ends, put_processes};
use crate::slices::{put_dims, put_slices};
use p3l_base::NoMemory;
use p3l_firing::Proc;
use p3l_skel::Tree;
use std::alloc::Global;

/// Puts after a text how many rows the tables have.
#[tactic(auto, unfolding(crate::specs::Tables::counts_text))]
fn put_counts(
    alloc: Global,
    text: &mut Vec<u8>,
    modules: usize,
    nodes: usize,
    processes: usize,
    channels: usize,
) -> Result<(), NoMemory>
    ensures { OnGiven result (text.new.items
        ≡ text.old.items ++ counts_text modules nodes processes channels) }
{
    let words = format!(in alloc;
        "enum {{ MODULES = {modules}, NODES = {nodes}, PROCESSES = {processes}, CHANNELS = {channels} }};\n\n"
    )?;
    put(text, words.as_str())
}

/// Puts the tables of a tree after a text.
#[tactic(auto, unfolding(crate::specs::Tables::tree_text))]
fn put_tree(alloc: Global, text: &mut Vec<u8>, tree: &Tree) -> Result<(), NoMemory>
    ensures { OnGiven result (text.new.items ≡ text.old.items ++ tree_text tree.now) }
{
    let nodes = tree.nodes.as_slice();
    put_modules(alloc, text, tree.modules.as_slice())?;
    put_nodes(alloc, text, nodes)?;
    put_parts(alloc, text, nodes)?;
    put_slices(alloc, text, nodes)?;
    put_dims(alloc, text, nodes)
}

/// Puts the tables of a net after a text.
#[tactic(auto, unfolding(crate::specs::Tables::net_text))]
fn put_net(
    alloc: Global,
    text: &mut Vec<u8>,
    procs: &[Proc],
    loads: &[u64],
    rows: &[ChannelRow],
) -> Result<(), NoMemory>
    ensures { OnGiven result (text.new.items
        ≡ text.old.items ++ net_text procs.now loads.now rows.now) }
{
    put_processes(alloc, text, loads, procs)?;
    put_ends(alloc, text, procs)?;
    put_channels(alloc, text, rows)
}

/// Puts the tables of a program after a text: of its tree, of its processes with the load of each,
/// and of its channels.
#[tactic(auto, unfolding(crate::specs::Tables::tables_text))]
pub fn put_tables(
    alloc: Global,
    text: &mut Vec<u8>,
    tree: &Tree,
    procs: &[Proc],
    loads: &[u64],
    rows: &[ChannelRow],
) -> Result<(), NoMemory>
    ensures { OnGiven result (text.new.items
        ≡ text.old.items ++ tables_text tree.now procs.now loads.now rows.now) }
{
    let modules = tree.modules.len();
    let nodes = tree.nodes.len();
    put_counts(alloc, text, modules, nodes, procs.len(), rows.len())?;
    put_tree(alloc, text, tree)?;
    put_net(alloc, text, procs, loads, rows)
}
