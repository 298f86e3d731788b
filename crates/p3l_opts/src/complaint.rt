// Complaints about words that spell no command.

ghost use Rattle.p3l_base.specs.Memory.{Refused};
ghost use Rattle.p3l_opts.specs.Wanted.{ClapWanted};
ghost use Rattle.std.specs.Prelude.{◌⊎◌, OnErr};

use crate::app::clap_command;
use crate::command::OptsRefusal;
use crate::matches::refusal_of;
use crate::table::{Entry, entry_named};
use crate::value::{count_of, number_in, schedule_of};
use crate::word::{CAPACITY, ITEMS, PROCESSORS, SEGMENTS, Value, Word};
use clap::ArgMatches;
use p3l_base::NoMemory;
use std::alloc::Global;

/// A form that a value must have.
#[derive(Clone, Copy, Drop)]
enum ValueForm {
    /// Any text.
    Text,
    /// A number from 1 to this one.
    Count(u32),
    /// A number of 32 bits.
    Number,
    /// A schedule.
    Schedule,
    /// A schedule of picks in a file.
    Picks,
}

/// Says what is wrong with words of which the first names a command: what `clap` finds, or the first
/// value that is out of its form. It says nothing of words that spell a command.
pub fn complaint_on(alloc: Global, words: &[&str]) -> Result<Option<String>, NoMemory>
    ensures { OnErr result (Refused ⊎ ClapWanted) }
{
    let Some(first) = words.first() else {
        return Ok(None);
    };
    match entry_named(first) {
        Some(listed) => complaint_of(alloc, listed, words),
        None => Ok(None),
    }
}

/// Describes the fault of words that begin with the name of this command.
fn complaint_of(alloc: Global, listed: Entry, words: &[&str]) -> Result<Option<String>, NoMemory>
    ensures { OnErr result (Refused ⊎ ClapWanted) }
{
    let command = clap_command(alloc, listed)?;
    match command.try_get_matches_from(words) {
        Ok(matches) => Ok(value_complaint(alloc, listed, &matches)?),
        Err(error) => match refusal_of(&error) {
            OptsRefusal::Usage => Ok(Some(format!(in alloc; "{error}")?)),
            OptsRefusal::NoMemory => Err(NoMemory),
        },
    }
}

/// Says which value is out of its form: the first count, or else the first other value.
fn value_complaint(
    alloc: Global,
    listed: Entry,
    matches: &ArgMatches,
) -> Result<Option<String>, NoMemory>
    ensures { OnErr result Refused }
{
    match complaint_among(alloc, listed.2, true, matches)? {
        Some(complaint) => Ok(Some(complaint)),
        None => complaint_among(alloc, listed.2, false, matches),
    }
}

/// Says which count, or which other value, is the first that is out of its form.
fn complaint_among(
    alloc: Global,
    words: &[Word],
    counts: bool,
    matches: &ArgMatches,
) -> Result<Option<String>, NoMemory>
    ensures { OnErr result Refused }
{
    for word in words {
        let value = word.value();
        let form = value.form();
        if form.is_count() == counts {
            if let Some(text) = matches.get_str(value.name()) {
                if !form.takes(alloc, text)? {
                    return Ok(Some(form.complaint(alloc, value.name(), text)?));
                }
            }
        }
    }
    Ok(None)
}

/// Tells whether a text spells a schedule.
fn spells_schedule(alloc: Global, text: &str) -> Result<bool, NoMemory>
    ensures { OnErr result Refused }
{
    match schedule_of(alloc, text) {
        Ok(_) => Ok(true),
        Err(OptsRefusal::Usage) => Ok(false),
        Err(OptsRefusal::NoMemory) => Err(NoMemory),
    }
}

impl Value {
    /// Returns the form of the value.
    fn form(self) -> ValueForm {
        match self {
            Value::Processors => ValueForm::Count(PROCESSORS.most),
            Value::Segments => ValueForm::Count(SEGMENTS.most),
            Value::Capacity => ValueForm::Count(CAPACITY.most),
            Value::Items => ValueForm::Count(ITEMS.most),
            Value::Number => ValueForm::Number,
            Value::Schedule => ValueForm::Schedule,
            Value::Recorded => ValueForm::Picks,
            _ => ValueForm::Text,
        }
    }
}

impl ValueForm {
    /// Tells whether the values are counts.
    fn is_count(self) -> bool {
        match self {
            ValueForm::Count(_) => true,
            _ => false,
        }
    }

    /// Tells whether a value has the form.
    fn takes(self, alloc: Global, text: &str) -> Result<bool, NoMemory>
        ensures { OnErr result Refused }
    {
        match self {
            ValueForm::Text => Ok(true),
            ValueForm::Count(most) => Ok(count_of(text, most).is_some()),
            ValueForm::Number => Ok(number_in(text).is_some()),
            ValueForm::Schedule => spells_schedule(alloc, text),
            ValueForm::Picks => Ok(text.starts_with("file:") && spells_schedule(alloc, text)?),
        }
    }

    /// Says that a value does not have the form.
    fn complaint(self, alloc: Global, id: &str, text: &str) -> Result<String, NoMemory>
        ensures { OnErr result Refused }
    {
        let complaint = match self {
            ValueForm::Count(most) => {
                format!(in alloc; "error: {id}: '{text}' is no number from 1 to {most}\n")
            }
            ValueForm::Number => format!(in alloc;
                "error: {id}: '{text}' is no number of 32 bits\n"
            ),
            ValueForm::Picks => format!(in alloc; "error: --{id}: '{text}' is not file:NAME\n"),
            ValueForm::Schedule | ValueForm::Text => {
                format!(in alloc; "error: --{id}: '{text}' is not rr, seed:N or file:NAME\n")
            }
        };
        Ok(complaint?)
    }
}
