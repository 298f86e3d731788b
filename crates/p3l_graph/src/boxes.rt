// The boxes of processes and the arrows of channels.

ghost use Rattle.std.specs.Prelude.{◌≡◌, ◌++◌, ◌<◌, ◌^◌, length, string_bytes};
ghost use Rattle.p3l_base.specs.Memory.{OnGiven};
ghost use Rattle.p3l_skel.specs.Tree.{node_at};
ghost use Rattle.p3l_graph.specs.Boxes.{channel_line, is_placed, kind_name, label_of, name_at, name_in, process_line};

use p3l_base::NoMemory;
use p3l_firing::{Chan, Proc, ProcKind};
use p3l_net::ends::Sides;
use p3l_skel::Tree;
use std::alloc::Global;

/// The name of a process in the picture, by its kind.
pub(crate) fn kind_name(kind: ProcKind) -> &'static str
    ensures { result.now ≡ kind_name kind }
{
    match kind {
        ProcKind::Source => "source",
        ProcKind::Sink => "sink",
        ProcKind::Run => "run",
        ProcKind::Emit => "emit",
        ProcKind::Collect => "collect",
        ProcKind::Scatter => "scatter",
        ProcKind::Gather => "gather",
        ProcKind::Split => "split",
        ProcKind::FoldGather => "fold-gather",
        ProcKind::Join => "join",
        ProcKind::Head => "head",
        ProcKind::Tail => "tail",
    }
}

/// Returns true exactly if a process belongs to a node of the tree: all but the source and the
/// sink do.
pub(crate) fn is_placed(kind: ProcKind) -> bool
    ensures { result ≡ is_placed kind }
{
    match kind {
        ProcKind::Source | ProcKind::Sink => false,
        _ => true,
    }
}

/// The module of a node, and the first where the node is not there.
fn module_of(tree: &Tree, number: u32) -> u32
    ensures { result ≡ (node_at tree.now number).module }
{
    match tree.node(number) {
        Some(node) => node.module,
        None => 0,
    }
}

/// The name of the module of a node, and none where it is not there.
pub(crate) fn name_at(tree: &Tree, number: u32) -> &str
    ensures { result.now ≡ name_at tree.now number }
{
    match tree
        .modules
        .as_slice()
        .get(module_of(tree, number) as usize)
    {
        Some(found) => found.name.as_str(),
        None => "",
    }
}

/// Puts the box of a process after a text: its number, what it does, and its module.
pub(crate) fn put_process(
    alloc: Global,
    text: &mut String,
    tree: &Tree,
    number: usize,
    process: &Proc,
) -> Result<(), NoMemory>
    ensures { OnGiven result (string_bytes text.new
        ≡ string_bytes text.old ++ process_line tree.now number process.now) }
{
    let kind = kind_name(process.kind);
    let words = if is_placed(process.kind) {
        let name = name_at(tree, process.node);
        format!(in alloc; "  p{number} [label=\"{number} {kind} {name}\"];\n")?
    } else {
        format!(in alloc; "  p{number} [label=\"{number} {kind}\"];\n")?
    };
    text.push_str(words.as_str())?;
    Ok(())
}

/// Puts the arrow of a channel after a text, from the process that writes it to the one that reads
/// it, with its capacity.
pub(crate) fn put_channel(
    alloc: Global,
    text: &mut String,
    ends: &Sides,
    number: usize,
    channel: &Chan,
) -> Result<(), NoMemory>
    requires small { number < 2 ^ 32 }
    requires written { number < length ends.now.writers }
    requires read { number < length ends.now.readers }
    ensures { OnGiven result (string_bytes text.new
        ≡ string_bytes text.old ++ channel_line ends.now number channel.now) }
{
    let writer = ends.writer(number as u32);
    let reader = ends.reader(number as u32);
    let capacity = channel.cap;
    let words = format!(in alloc; "  p{writer} -> p{reader} [label=\"{capacity}\"];\n")?;
    text.push_str(words.as_str())?;
    Ok(())
}
