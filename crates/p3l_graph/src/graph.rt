// The text of a network.

ghost use Rattle.std.specs.Prelude.{◌≡◌, ◌++◌, ◌≤◌, length, string_bytes};
ghost use Rattle.p3l_base.specs.Memory.{IfGiven, OnGiven};
ghost use Rattle.p3l_firing.specs.Typed.{IsTyped};
ghost use Rattle.p3l_graph.specs.Boxes.{channel_line, process_line};
ghost use Rattle.p3l_graph.specs.Frames.{frames};
ghost use Rattle.p3l_graph.specs.Graph.{IsGraph, head};
ghost use Rattle.p3l_graph.specs.Numbered.{numbered};

use crate::boxes::{put_channel, put_process};
use crate::frames::put_frame;
use p3l_base::{List, NoMemory};
use p3l_firing::Net;
use p3l_net::ends::Sides;
use p3l_skel::Tree;
use p3l_skel::tree::NESTING;
use std::alloc::Global;

/// Puts the boxes of all processes after a text.
fn put_processes(alloc: Global, text: &mut String, tree: &Tree, net: &Net) -> Result<(), NoMemory>
    ensures { OnGiven result (string_bytes text.new
        ≡ string_bytes text.old ++ numbered (process_line tree.now) 0 net.now.procs) }
{
    let processes = net.procs.as_slice();
    for number in 0..processes.len() {
        put_process(alloc, text, tree, number, &processes[number])?;
    }
    Ok(())
}

/// Puts the arrows of all channels after a text.
fn put_channels(alloc: Global, text: &mut String, net: &Net, ends: &Sides) -> Result<(), NoMemory>
    requires few { length net.now.chans ≤ 1048576 }
    requires written { length ends.now.writers ≡ length net.now.chans }
    requires read { length ends.now.readers ≡ length net.now.chans }
    ensures { OnGiven result (string_bytes text.new
        ≡ string_bytes text.old ++ numbered (channel_line ends.now) 0 net.now.chans) }
{
    let channels = net.chans.as_slice();
    for number in 0..channels.len() {
        put_channel(alloc, text, ends, number, &channels[number])?;
    }
    Ok(())
}

/// The text of the network of a tree in the DOT language: a box for each process with its number,
/// what it does and its module, an arrow for each channel with its capacity, and a frame round the
/// processes of each skeleton.
pub fn graph_text(alloc: Global, tree: &Tree, net: &Net) -> Result<List<u8>, NoMemory>
    requires { IsTyped tree.now net.now }
    ensures { IfGiven result (IsGraph tree.now net.now) }
{
    let ends = Sides::of(alloc, net)?;
    let mut text = String::from_str(
        alloc,
        "digraph network {\n  rankdir=LR;\n  node [shape=box];\n",
    )?;
    put_processes(alloc, &mut text, tree, net)?;
    put_channels(alloc, &mut text, net, &ends)?;
    put_frame(alloc, &mut text, tree, net, NESTING, 0)?;
    text.push_str("}\n")?;
    Ok(List::from_vec(text.into_bytes()))
}
