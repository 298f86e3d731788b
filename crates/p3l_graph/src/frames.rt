// The frames round the processes of skeletons.

ghost use Rattle.std.specs.Prelude.{◌≡◌, ◌++◌, IfNone, IfSome, None, Some, string_bytes};
ghost use Rattle.p3l_base.specs.Memory.{OnGiven};
ghost use Rattle.std.specs.List.{flat_map};
ghost use Rattle.p3l_graph.specs.Frames.{frame_head, frame_name, frame_to, member_line, members};

use crate::boxes::{is_placed, name_at};
use p3l_base::NoMemory;
use p3l_firing::{Net, Proc};
use p3l_skel::counts::outside_parts;
use p3l_skel::{Form, Tree};
use std::alloc::Global;

/// The name of the frame of a node of this form; a node that one process runs has no frame.
pub(crate) fn frame_name(form: &Form) -> Option<&'static str>
    ensures some { IfSome result (λ name. frame_name form.now ≡ Some name.now) }
    ensures none { IfNone result (frame_name form.now ≡ None) }
{
    match form {
        Form::Seq | Form::Comp => None,
        Form::Pipe => Some("pipe"),
        Form::Farm { .. } => Some("farm"),
        Form::Map { .. } => Some("map"),
        Form::Reduce { .. } => Some("reduce"),
        Form::Loop { .. } => Some("loop"),
    }
}

/// Puts a process after a text, if it is one of this node.
fn put_member(
    alloc: Global,
    text: &mut String,
    node: u32,
    number: usize,
    process: &Proc,
) -> Result<(), NoMemory>
    ensures { OnGiven result (string_bytes text.new
        ≡ string_bytes text.old ++ member_line node number process.now) }
{
    if is_placed(process.kind) && process.node == node {
        let words = format!(in alloc; "    p{number};\n")?;
        text.push_str(words.as_str())?;
    }
    Ok(())
}

/// Puts the processes of a node after a text.
fn put_members(alloc: Global, text: &mut String, net: &Net, node: u32) -> Result<(), NoMemory>
    ensures { OnGiven result (string_bytes text.new ≡ string_bytes text.old ++ members net.now node) }
{
    let processes = net.procs.as_slice();
    for number in 0..processes.len() {
        put_member(alloc, text, node, number, &processes[number])?;
    }
    Ok(())
}

/// Puts the beginning of the frame of a node after a text: its number, its skeleton, and its
/// module.
fn put_head(
    alloc: Global,
    text: &mut String,
    tree: &Tree,
    number: u32,
    kind: &str,
) -> Result<(), NoMemory>
    ensures { OnGiven result (string_bytes text.new
        ≡ string_bytes text.old ++ frame_head tree.now number kind.now) }
{
    let name = name_at(tree, number);
    let words = format!(in alloc;
        "  subgraph cluster_{number} {{\n    label=\"{number} {kind} {name}\";\n"
    )?;
    text.push_str(words.as_str())?;
    Ok(())
}

/// Puts the processes of a node and of the nodes below it that are outside units after a text,
/// down to a number of levels.
#[cycle(frame)]
fn put_inner(
    alloc: Global,
    text: &mut String,
    tree: &Tree,
    net: &Net,
    levels: u32,
    number: u32,
    parts: &[u32],
) -> Result<(), NoMemory>
    ensures { OnGiven result (string_bytes text.new ≡ string_bytes text.old
        ++ (members net.now number ++ flat_map (frame_to tree.now net.now levels) parts.now)) }
{
    put_members(alloc, text, net, number)?;
    for part in parts {
        put_frame(alloc, text, tree, net, levels, *part)?;
    }
    Ok(())
}

/// Puts a node after a text with its own processes and those of the nodes below it that are outside
/// units, in a frame where it is a skeleton, down to a number of levels.
#[cycle(frame)]
pub(crate) fn put_frame(
    alloc: Global,
    text: &mut String,
    tree: &Tree,
    net: &Net,
    levels: u32,
    number: u32,
) -> Result<(), NoMemory>
    ensures { OnGiven result (string_bytes text.new
        ≡ string_bytes text.old ++ frame_to tree.now net.now levels number) }
{
    if levels == 0 {
        return Ok(());
    }
    let Some(node) = tree.nodes.as_slice().get(number as usize) else {
        return Ok(());
    };
    let parts = outside_parts(node);
    match frame_name(&node.form) {
        None => put_inner(alloc, text, tree, net, levels - 1, number, parts),
        Some(kind) => {
            put_head(alloc, text, tree, number, kind)?;
            put_inner(alloc, text, tree, net, levels - 1, number, parts)?;
            text.push_str("  }\n")?;
            Ok(())
        }
    }
}
