// The number of arguments that a call gives, and the number that its module takes.

ghost use Rattle.std.specs.Prelude.{OnErr};
ghost use Rattle.p3l_base.specs.Memory.{Refused};

use p3l_ast::{Call, Entry, Inside, Kind, Module, Pos, Program, SourceRefusal};
use p3l_base::NoMemory;
use p3l_reader::read;
use std::alloc::Global;

/// Adds how many ins and outs the module has that is called at a place, and how many the call gives.
/// It gives false where the text has no such call, and for the call of a `reduce`, which gives one of
/// each.
pub(crate) fn put_arity(
    alloc: Global,
    message: &mut String,
    text: &[u8],
    at: Pos,
) -> Result<bool, NoMemory>
    ensures { OnErr result Refused }
{
    match read(alloc, text) {
        Ok(program) => put_counts(alloc, message, &program, at),
        Err(SourceRefusal::At { .. }) => Ok(false),
        Err(SourceRefusal::NoMemory) => Err(NoMemory),
    }
}

/// Adds the same, in a program.
fn put_counts(
    alloc: Global,
    message: &mut String,
    program: &Program,
    at: Pos,
) -> Result<bool, NoMemory>
    ensures { OnErr result Refused }
{
    let entries = program.entries.as_slice();
    let Some(call) = entries.iter().find_map(|entry| call_in(entry, at)) else {
        return Ok(false);
    };
    let name = call.at.name.as_str();
    let Some(module) = entries.iter().find_map(|entry| module_of(entry, name)) else {
        return Ok(false);
    };
    let (ins, outs) = (module.ins.len(), module.outs.len());
    let (in_word, out_word) = (word_of(ins, "in", "ins"), word_of(outs, "out", "outs"));
    let (given, taken) = (call.ins.len(), call.outs.len());
    let text = format!(in alloc;
        "`{name}` has {ins} {in_word} and {outs} {out_word}; this call gives {given} and {taken}. "
    )?;
    message.push_str(text.as_str())?;
    Ok(true)
}

/// The call at a place in an entry, if it has one there and is no `reduce`.
fn call_in(entry: &Entry, at: Pos) -> Option<&Call> {
    let Entry::Module(module) = entry else {
        return None;
    };
    if module.kind == Kind::Reduce {
        return None;
    }
    match &module.inside {
        Inside::Body(_) => None,
        Inside::Calls(calls) => calls.as_slice().iter().find(|call| call.at.pos == at),
        Inside::Turning(body, condition) => [body, condition]
            .iter()
            .copied()
            .find(|call| call.at.pos == at),
    }
}

/// The module that an entry is, if it has this name.
fn module_of<'a>(entry: &'a Entry, name: &str) -> Option<&'a Module> {
    match entry {
        Entry::Module(module) if module.at.name.as_str() == name => Some(module),
        _ => None,
    }
}

/// The word for one of a kind, or for another number of them.
fn word_of(count: usize, one: &'static str, many: &'static str) -> &'static str {
    if count == 1 { one } else { many }
}
