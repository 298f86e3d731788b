// The argument that a call takes at a place where it has another.

ghost use Rattle.std.specs.Prelude.{OnErr};
ghost use Rattle.p3l_base.specs.Memory.{Refused};

use p3l_ast::{Arg, Call, Entry, Inside, Kind, OutArg, Port, Pos, Program, SourceRefusal};
use p3l_base::NoMemory;
use p3l_reader::read;
use std::alloc::Global;

/// The names that the ins or the outs of a call are to have, in order.
#[derive(Clone, Copy, Drop)]
enum Row<'a> {
    /// Those of a module's ports.
    Ports(&'a [Port]),
    /// Those that the call before declares.
    Outs(&'a [OutArg]),
    /// Names of new ports, which the call itself declares.
    Fresh,
}

impl<'a> Row<'a> {
    /// The name at a place, counted from 0, if one is to be there.
    fn name_at(self, place: usize) -> Option<&'a str> {
        match self {
            Row::Ports(ports) => Some(ports.get(place)?.at.name.as_str()),
            Row::Outs(outs) => Some(name_of(outs.get(place)?)),
            Row::Fresh => None,
        }
    }
}

/// The difference between an argument and the one that its call takes there. The name that is found
/// comes first.
#[derive(Clone, Copy, Drop)]
enum Difference<'a> {
    /// Another name comes next.
    Other(&'a str, &'a str),
    /// The name comes without brackets.
    Brackets(&'a str),
    /// A new port comes next.
    Old(&'a str),
    /// A new port, and this name comes next.
    New(&'a str, &'a str),
    /// No name comes next.
    TooMany(&'a str),
    /// The call ends, and this name comes next.
    TooFew(&'a str),
}

/// Adds which argument the call takes at a place where it has another. It gives false where the text
/// has no such call, and for the calls of a `map` or a `reduce`.
pub(crate) fn put_wiring(
    alloc: Global,
    message: &mut String,
    text: &[u8],
    at: Pos,
) -> Result<bool, NoMemory>
    ensures { OnErr result Refused }
{
    match read(alloc, text) {
        Ok(program) => put_difference(alloc, message, &program, at),
        Err(SourceRefusal::At { .. }) => Ok(false),
        Err(SourceRefusal::NoMemory) => Err(NoMemory),
    }
}

/// Adds the same, in a program.
fn put_difference(
    alloc: Global,
    message: &mut String,
    program: &Program,
    at: Pos,
) -> Result<bool, NoMemory>
    ensures { OnErr result Refused }
{
    for entry in program.entries.as_slice() {
        if let Some(difference) = difference_in(entry, at) {
            let text = difference.sentence(alloc)?;
            message.push_str(text.as_str())?;
            return Ok(true);
        }
    }
    Ok(false)
}

/// The difference at a place in an entry, if it has one there.
fn difference_in<'a>(entry: &'a Entry, at: Pos) -> Option<Difference<'a>> {
    let Entry::Module(module) = entry else {
        return None;
    };
    if module.kind == Kind::Map || module.kind == Kind::Reduce {
        return None;
    }
    let ins = Row::Ports(module.ins.as_slice());
    let outs = Row::Ports(module.outs.as_slice());
    match &module.inside {
        Inside::Body(_) => None,
        Inside::Calls(calls) => difference_among(calls.as_slice(), ins, outs, at),
        Inside::Turning(body, condition) => match difference_of(body, ins, outs, at) {
            Some(difference) => Some(difference),
            None => difference_of(condition, outs, Row::Fresh, at),
        },
    }
}

/// The difference at a place in calls that follow one another, each with the outs of the one before.
fn difference_among<'a>(
    calls: &'a [Call],
    ins: Row<'a>,
    outs: Row<'a>,
    at: Pos,
) -> Option<Difference<'a>> {
    let mut taken = ins;
    let mut left = calls.len();
    for call in calls {
        left = left.saturating_sub(1);
        let filled = if left == 0 { outs } else { Row::Fresh };
        if let Some(difference) = difference_of(call, taken, filled, at) {
            return Some(difference);
        }
        taken = Row::Outs(call.outs.as_slice());
    }
    None
}

/// The difference at a place in a call with these ins and outs.
fn difference_of<'a>(
    call: &'a Call,
    taken: Row<'a>,
    filled: Row<'a>,
    at: Pos,
) -> Option<Difference<'a>> {
    if call.at.pos == at {
        return difference_at_end(call, taken, filled);
    }
    for (place, arg) in call.ins.as_slice().iter().enumerate() {
        if arg.at.pos == at {
            return Some(difference_on(arg, taken, place));
        }
    }
    for (place, out) in call.outs.as_slice().iter().enumerate() {
        match out {
            OutArg::Fresh(port) if port.at.pos == at => {
                let next = filled.name_at(place)?;
                return Some(Difference::New(port.at.name.as_str(), next));
            }
            OutArg::Old(arg) if arg.at.pos == at => {
                return Some(difference_on(arg, filled, place));
            }
            _ => {}
        }
    }
    None
}

/// The name that comes behind the ins of a call, or else behind its outs.
fn difference_at_end<'a>(
    call: &'a Call,
    taken: Row<'a>,
    filled: Row<'a>,
) -> Option<Difference<'a>> {
    if let Some(next) = taken.name_at(call.ins.len()) {
        return Some(Difference::TooFew(next));
    }
    Some(Difference::TooFew(filled.name_at(call.outs.len())?))
}

/// The difference of an argument from the one that comes at its place.
fn difference_on<'a>(arg: &'a Arg, row: Row<'a>, place: usize) -> Difference<'a> {
    let found = arg.at.name.as_str();
    match (row, row.name_at(place)) {
        (Row::Fresh, _) => Difference::Old(found),
        (_, None) => Difference::TooMany(found),
        (_, Some(next)) if next == found => Difference::Brackets(found),
        (_, Some(next)) => Difference::Other(found, next),
    }
}

/// The name of an out.
fn name_of(out: &OutArg) -> &str {
    match out {
        OutArg::Fresh(port) => port.at.name.as_str(),
        OutArg::Old(arg) => arg.at.name.as_str(),
    }
}

impl<'a> Difference<'a> {
    /// The sentence that says so, with a blank behind it.
    fn sentence(self, alloc: Global) -> Result<String, NoMemory>
        ensures { OnErr result Refused }
    {
        let sentence = match self {
            Difference::Other(found, next) => {
                format!(in alloc; "Found `{found}`; the next name here is `{next}`. ")
            }
            Difference::Brackets(name) => {
                format!(in alloc; "Found `{name}` with brackets; here comes `{name}` alone. ")
            }
            Difference::Old(found) => {
                format!(in alloc; "Found `{found}`; here comes a new port, as `int {found}`. ")
            }
            Difference::New(found, next) => {
                format!(in alloc; "Found `{found}` as a new port; here comes `{next}` alone. ")
            }
            Difference::TooMany(found) => {
                format!(in alloc; "Found `{found}`; no other name comes here. ")
            }
            Difference::TooFew(next) => {
                format!(in alloc; "The call lacks `{next}`, which comes next in it. ")
            }
        };
        Ok(sentence?)
    }
}
