// The processes of each node of a tree, as a table.

ghost use Rattle.std.specs.Prelude.{◌≡◌, ◌++◌, ◌<◌, ◌^◌, length, string_bytes};
ghost use Rattle.p3l_base.specs.Memory.{IfGiven, OnGiven};
ghost use Rattle.p3l_graph.specs.Frames.{frame_name};
ghost use Rattle.p3l_graph.specs.Numbered.{numbered};
ghost use Rattle.p3l_graph.specs.Processes.{line_with, member_words, name_of_form, node_head, node_line, process_words, processes_text, stream_words};

use crate::boxes::{is_placed, kind_name, name_at};
use crate::frames::frame_name;
use p3l_base::{List, NoMemory};
use p3l_firing::{Net, Proc};
use p3l_skel::{Form, Node, Tree};
use std::alloc::Global;

/// The name of the skeleton that a node of this form is written with.
fn name_of_form(form: &Form) -> &'static str
    ensures { result.now ≡ name_of_form form.now (frame_name form.now) }
{
    match frame_name(form) {
        Some(name) => name,
        None => match form {
            Form::Seq => "seq",
            _ => "comp",
        },
    }
}

/// Puts a process with what it does after a text.
fn put_process(
    alloc: Global,
    text: &mut String,
    number: usize,
    process: &Proc,
) -> Result<(), NoMemory>
    ensures { OnGiven result (string_bytes text.new
        ≡ string_bytes text.old ++ process_words number process.now) }
{
    let kind = kind_name(process.kind);
    let words = format!(in alloc; " {number} {kind}")?;
    text.push_str(words.as_str())?;
    Ok(())
}

/// Puts a process after a text, if it is one of this node.
fn put_member(
    alloc: Global,
    text: &mut String,
    node: u32,
    number: usize,
    process: &Proc,
) -> Result<(), NoMemory>
    ensures { OnGiven result (string_bytes text.new
        ≡ string_bytes text.old ++ member_words node number process.now) }
{
    if is_placed(process.kind) && process.node == node {
        put_process(alloc, text, number, process)?;
    }
    Ok(())
}

/// Puts a process after a text, if it is the source or the sink.
fn put_end(alloc: Global, text: &mut String, number: usize, process: &Proc) -> Result<(), NoMemory>
    ensures { OnGiven result (string_bytes text.new
        ≡ string_bytes text.old ++ stream_words number process.now) }
{
    if !is_placed(process.kind) {
        put_process(alloc, text, number, process)?;
    }
    Ok(())
}

/// The processes of a node.
fn members(alloc: Global, net: &Net, node: u32) -> Result<String, NoMemory>
    ensures { IfGiven result (λ text. string_bytes text
        ≡ numbered (member_words node) 0 net.now.procs) }
{
    let mut text = String::new(alloc);
    let processes = net.procs.as_slice();
    for number in 0..processes.len() {
        put_member(alloc, &mut text, node, number, &processes[number])?;
    }
    Ok(text)
}

/// The source and the sink.
fn ends(alloc: Global, net: &Net) -> Result<String, NoMemory>
    ensures { IfGiven result (λ text. string_bytes text ≡ numbered stream_words 0 net.now.procs) }
{
    let mut text = String::new(alloc);
    let processes = net.procs.as_slice();
    for number in 0..processes.len() {
        put_end(alloc, &mut text, number, &processes[number])?;
    }
    Ok(text)
}

/// Puts a line after a text that begins with a head, if there is more to be said.
fn put_line(text: &mut String, head: &str, words: &str) -> Result<(), NoMemory>
    ensures { OnGiven result (string_bytes text.new
        ≡ string_bytes text.old ++ line_with head.now words.now) }
{
    if !words.is_empty() {
        text.push_str(head)?;
        text.push_str(":")?;
        text.push_str(words)?;
        text.push_str("\n")?;
    }
    Ok(())
}

/// The number, the form and the module of a node.
fn node_head(alloc: Global, tree: &Tree, number: u32, node: &Node) -> Result<String, NoMemory>
    ensures { IfGiven result (λ text. string_bytes text ≡ node_head tree.now number node.now) }
{
    let form = name_of_form(&node.form);
    let name = name_at(tree, number);
    Ok(format!(in alloc; "{number} {form} {name}")?)
}

/// Puts the line of a node after a text, if the node has processes of its own.
fn put_node(
    alloc: Global,
    text: &mut String,
    tree: &Tree,
    net: &Net,
    number: u32,
    node: &Node,
) -> Result<(), NoMemory>
    ensures { OnGiven result (string_bytes text.new
        ≡ string_bytes text.old ++ node_line tree.now net.now number node.now) }
{
    let head = node_head(alloc, tree, number, node)?;
    let words = members(alloc, net, number)?;
    put_line(text, head.as_str(), words.as_str())
}

/// Puts the lines of all nodes that have processes of their own after a text.
fn put_nodes(alloc: Global, text: &mut String, tree: &Tree, net: &Net) -> Result<(), NoMemory>
    requires { length tree.now.nodes < 2 ^ 32 }
    ensures { OnGiven result (string_bytes text.new
        ≡ string_bytes text.old ++ numbered (node_line tree.now net.now) 0 tree.now.nodes) }
{
    let nodes = tree.nodes.as_slice();
    for number in 0..nodes.len() {
        put_node(alloc, text, tree, net, number as u32, &nodes[number])?;
    }
    Ok(())
}

/// The processes of a network by the nodes of its tree: a line for the source and the sink, and one
/// for each node that has processes of its own, with each one's number and what it does.
pub fn processes_text(alloc: Global, tree: &Tree, net: &Net) -> Result<List<u8>, NoMemory>
    requires { length tree.now.nodes < 2 ^ 32 }
    ensures { IfGiven result (λ text. text ≡ processes_text tree.now net.now) }
{
    let mut text = String::new(alloc);
    let stream = ends(alloc, net)?;
    put_line(&mut text, "stream", stream.as_str())?;
    put_nodes(alloc, &mut text, tree, net)?;
    Ok(List::from_vec(text.into_bytes()))
}
