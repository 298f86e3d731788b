// The values that `clap` finds in the words of a command.

ghost use Rattle.std.specs.Prelude.{◌≡◌, ◌≢◌, ◌⊎◌, ℕ, [], Option, Some, None, IfOk, IfSome, IfNone, IsErrOf, option_map};
ghost use Rattle.p3l_base.specs.Memory.{IfGiven, Refused};
ghost use Rattle.clap.specs.Words.{found_of, kind_of, rows_of};
ghost use Rattle.p3l_opts.specs.Command.{HasChoice, HasCount, HasNumber, HasSchedule, Parses, says_true, text_of, texts_of};
ghost use Rattle.p3l_opts.specs.declared.command.Sched.{Sched};
ghost use Rattle.p3l_opts.specs.App.{faults, rows};
ghost use Rattle.p3l_opts.specs.Table.{entry_named, shown};
ghost use Rattle.p3l_opts.specs.Wanted.{ClapWanted};

use crate::app::clap_command;
use crate::command::{OptsRefusal, Sched};
use crate::table::Entry;
use crate::value::{count_of, number_in, schedule_of};
use crate::word::{CAPACITY, Range, Value};
use clap::error::ErrorKind;
use clap::{ArgMatches, Error};
use p3l_base::{Name, NoMemory};
use std::alloc::Global;

/// Returns the matches of `clap`, if it takes the words after the first as words of the command that
/// the first names.
pub(crate) fn matches_of<'a>(
    alloc: Global,
    name: &str,
    listed: Entry,
    words: &'a [&'a str],
) -> Result<ArgMatches<'a>, OptsRefusal>
    requires { entry_named name.now ≡ Some (shown listed) }
    ensures taken { IfOk result (λ _. faults (shown listed.entry) (texts_of words.entry.now) ≡ []) }
    ensures found { IfOk result (λ matches. rows_of (found_of matches)
        ≡ rows (shown listed.entry) (texts_of words.entry.now)) }
    ensures usage { IsErrOf result OptsRefusal.Usage
        → faults (shown listed.entry) (texts_of words.entry.now) ≢ [] }
    ensures memory { IsErrOf result OptsRefusal.NoMemory → Refused ⊎ ClapWanted }
{
    let command = match clap_command(alloc, listed) {
        Ok(command) => command,
        Err(want) => return Err(OptsRefusal::from(want)),
    };
    match command.try_get_matches_from(words) {
        Ok(matches) => Ok(matches),
        Err(error) => Err(refusal_of(&error)),
    }
}

/// Memory apart, each of `clap`'s errors is a fault of the words.
pub(crate) fn refusal_of(error: &Error) -> OptsRefusal
    ensures usage { result ≡ OptsRefusal.Usage → kind_of error.now ≢ ErrorKind.OutOfMemory }
    ensures memory { result ≡ OptsRefusal.NoMemory → ClapWanted }
{
    match error.kind() {
        ErrorKind::OutOfMemory => OptsRefusal::NoMemory,
        _ => OptsRefusal::Usage,
    }
}

/// The text that the words have for a value.
pub(crate) fn text_of<'a>(matches: &ArgMatches<'a>, value: Value) -> Option<&'a str>
    ensures { option_map (λ text. text.now) result
        ≡ text_of value (rows_of (found_of matches.now)) }
{
    matches.get_str(value.name())
}

/// The name that the words have for a value.
pub(crate) fn name_of(
    alloc: Global,
    matches: &ArgMatches,
    value: Value,
) -> Result<Name, OptsRefusal>
    ensures { Parses (λ name. text_of value (rows_of (found_of matches.now)) ≡ Some name) result }
{
    match text_of(matches, value) {
        Some(text) => Ok(Name::from_text(alloc, text)?),
        None => Err(OptsRefusal::Usage),
    }
}

/// The name that the words have for a value, if they have one.
pub(crate) fn name_if_given(
    alloc: Global,
    matches: &ArgMatches,
    value: Value,
) -> Result<Option<Name>, NoMemory>
    ensures { IfGiven result (λ name. name ≡ text_of value (rows_of (found_of matches.now))) }
{
    match text_of(matches, value) {
        Some(text) => Ok(Some(Name::from_text(alloc, text)?)),
        None => Ok(None),
    }
}

/// The count of this range that a text spells, or its default.
pub(crate) fn count_spelled(text: Option<&str>, range: Range) -> Result<u32, OptsRefusal>
    ensures { Parses (HasCount range (option_map (λ text. text.now) text.entry)) result }
{
    let count = match text {
        Some(text) => count_of(text, range.most),
        None => range.default,
    };
    count.ok_or(OptsRefusal::Usage)
}

/// The count of this range that the words have for a value, or its default.
pub(crate) fn count_in(matches: &ArgMatches, value: Value, range: Range) -> Result<u32, OptsRefusal>
    ensures { Parses (HasCount range (text_of value (rows_of (found_of matches.now)))) result }
{
    count_spelled(text_of(matches, value), range)
}

/// The capacity that the words have for a value, if they have one.
pub(crate) fn capacity_if_given(matches: &ArgMatches) -> Result<Option<u32>, OptsRefusal>
    ensures { Parses (HasChoice (text_of Value.Capacity (rows_of (found_of matches.now)))) result }
{
    match text_of(matches, Value::Capacity) {
        Some(text) => match count_of(text, CAPACITY.most) {
            Some(capacity) => Ok(Some(capacity)),
            None => Err(OptsRefusal::Usage),
        },
        None => Ok(None),
    }
}

/// The schedule that the words have for a value, or round robin.
pub(crate) fn schedule_in(
    alloc: Global,
    matches: &ArgMatches,
    value: Value,
) -> Result<Sched, OptsRefusal>
    ensures { Parses (HasSchedule (text_of value (rows_of (found_of matches.now)))) result }
{
    match text_of(matches, value) {
        Some(text) => schedule_of(alloc, text),
        None => Ok(Sched::RoundRobin),
    }
}

/// The number of 32 bits that the words have for a value.
pub(crate) fn number_of(matches: &ArgMatches) -> Result<u32, OptsRefusal>
    ensures { Parses (HasNumber (text_of Value.Number (rows_of (found_of matches.now)))) result }
{
    match text_of(matches, Value::Number) {
        Some(text) => number_in(text).ok_or(OptsRefusal::Usage),
        None => Err(OptsRefusal::Usage),
    }
}

/// Tests that the words have this flag.
pub(crate) fn is_given(matches: &ArgMatches, value: Value) -> bool
    ensures { result ≡ says_true (text_of value (rows_of (found_of matches.now))) }
{
    match text_of(matches, value) {
        Some(text) => text == "true",
        None => false,
    }
}
