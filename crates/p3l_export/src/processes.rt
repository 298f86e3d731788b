// The tables of the processes and of their channels.

ghost use Rattle.std.specs.Prelude.{◌≡◌, ◌++◌, slice_index};
ghost use Rattle.std.specs.List.{flat_map};
ghost use Rattle.p3l_base.specs.Memory.{OnGiven};
ghost use Rattle.p3l_export.specs.Numbered.{numbered};
ghost use Rattle.p3l_export.specs.Processes.{ends_line, ends_text, kind_name, process_line, process_numbers, process_words, processes_text};

use crate::lines::{put, put_closed_table, put_numbers, put_table};
use p3l_base::NoMemory;
use p3l_firing::{Proc, ProcKind};
use std::alloc::Global;

/// The name of a kind of process in the engine.
fn kind_name(kind: ProcKind) -> &'static str
    ensures { result.now ≡ kind_name kind }
{
    match kind {
        ProcKind::Source => "KIND_SOURCE",
        ProcKind::Sink => "KIND_SINK",
        ProcKind::Run => "KIND_RUN",
        ProcKind::Emit => "KIND_EMIT",
        ProcKind::Collect => "KIND_COLLECT",
        ProcKind::Scatter => "KIND_SCATTER",
        ProcKind::Gather => "KIND_GATHER",
        ProcKind::Split => "KIND_SPLIT",
        ProcKind::FoldGather => "KIND_FOLD_GATHER",
        ProcKind::Join => "KIND_JOIN",
        ProcKind::Head => "KIND_HEAD",
        ProcKind::Tail => "KIND_TAIL",
    }
}

/// The load of a process, and 0 where it is not known.
fn load_at(loads: &[u64], number: usize) -> u64
    ensures { result ≡ slice_index loads.now number }
{
    loads.get(number).copied().unwrap_or(0)
}

/// Puts the first half of a process's row after a text.
fn put_words(alloc: Global, text: &mut Vec<u8>, process: &Proc) -> Result<(), NoMemory>
    ensures { OnGiven result (text.new.items ≡ text.old.items ++ process_words process.now) }
{
    let kind = kind_name(process.kind);
    let node = process.node;
    let arg = process.arg;
    let words = format!(in alloc; "    {{ {kind}, {node}, {arg}")?;
    put(text, words.as_str())
}

/// Puts the second half of a process's row after a text.
fn put_load(alloc: Global, text: &mut Vec<u8>, process: &Proc, load: u64) -> Result<(), NoMemory>
    ensures { OnGiven result (text.new.items
        ≡ text.old.items ++ process_numbers process.now load) }
{
    let ins = process.ins.len();
    let outs = process.outs.len();
    let words = format!(in alloc; ", {ins}, {outs}, {load} }},\n")?;
    put(text, words.as_str())
}

/// Puts the row of a process after a text.
#[tactic(auto, unfolding(crate::specs::Processes::process_line))]
fn put_process(
    alloc: Global,
    text: &mut Vec<u8>,
    loads: &[u64],
    number: usize,
    process: &Proc,
) -> Result<(), NoMemory>
    ensures { OnGiven result (text.new.items
        ≡ text.old.items ++ process_line loads.now number process.now) }
{
    put_words(alloc, text, process)?;
    put_load(alloc, text, process, load_at(loads, number))
}

/// Puts the rows of the processes after a text.
fn put_rows(
    alloc: Global,
    text: &mut Vec<u8>,
    loads: &[u64],
    procs: &[Proc],
) -> Result<(), NoMemory>
    ensures { OnGiven result (text.new.items
        ≡ text.old.items ++ numbered (process_line loads.now) 0 procs.now) }
{
    for number in 0..procs.len() {
        put_process(alloc, text, loads, number, &procs[number])?;
    }
    Ok(())
}

/// Puts the channels of a process after a text.
#[tactic(auto, unfolding(crate::specs::Processes::ends_line))]
fn put_ends_of(alloc: Global, text: &mut Vec<u8>, process: &Proc) -> Result<(), NoMemory>
    ensures { OnGiven result (text.new.items ≡ text.old.items ++ ends_line process.now) }
{
    put(text, "   ")?;
    put_numbers(alloc, text, process.ins.as_slice())?;
    put_numbers(alloc, text, process.outs.as_slice())?;
    put(text, "\n")
}

/// Puts the channels of all processes after a text.
fn put_all_ends(alloc: Global, text: &mut Vec<u8>, procs: &[Proc]) -> Result<(), NoMemory>
    ensures { OnGiven result (text.new.items ≡ text.old.items ++ flat_map ends_line procs.now) }
{
    for process in procs {
        put_ends_of(alloc, text, process)?;
    }
    Ok(())
}

/// Puts the table of the processes after a text.
#[tactic(auto, unfolding(crate::specs::Processes::processes_text))]
pub(crate) fn put_processes(
    alloc: Global,
    text: &mut Vec<u8>,
    loads: &[u64],
    procs: &[Proc],
) -> Result<(), NoMemory>
    ensures { OnGiven result (text.new.items ≡ text.old.items ++ processes_text loads.now procs.now) }
{
    let mut rows = Vec::new(alloc);
    put_rows(alloc, &mut rows, loads, procs)?;
    put_table(
        alloc,
        text,
        "kind, node, argument, channels in, channels out, load",
        "struct process_row PROCESS",
        rows.as_slice(),
    )
}

/// Puts the list of the processes' channels after a text.
#[tactic(auto, unfolding(crate::specs::Processes::ends_text))]
pub(crate) fn put_ends(alloc: Global, text: &mut Vec<u8>, procs: &[Proc]) -> Result<(), NoMemory>
    ensures { OnGiven result (text.new.items ≡ text.old.items ++ ends_text procs.now) }
{
    let mut rows = Vec::new(alloc);
    put_all_ends(alloc, &mut rows, procs)?;
    put_closed_table(
        alloc,
        text,
        "the channels of the processes: those that each reads, then those that it writes",
        "int32_t END",
        rows.as_slice(),
        "-1",
    )
}
