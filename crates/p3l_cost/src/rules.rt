// The rules of keys and values.

ghost use Rattle.std.specs.Prelude.{◌≡◌, ◌<◌, ◌^◌, bytes_eq, length, option_map};
ghost use Rattle.p3l_base.specs.Memory.{IfGiven};
ghost use Rattle.std.specs.Map.{lookup};
ghost use Rattle.toml.specs.View.{table_view, view};
ghost use Rattle.p3l_base.specs.Limits.{most_cost};
ghost use Rattle.p3l_cost.specs.File.{Gives, entries_rule, entry_key, entry_within, found, is_number_key, key_rule, keys_rule, section_rule, whole_in};

use crate::limits::{Limits, limits_of};
use crate::refusal::CostRefusal;
use crate::section::Section;
use p3l_base::limits::MOST_COST;
use p3l_base::{Name, NoMemory};
use p3l_skel::Tree;
use std::alloc::Global;
use toml::{Table, Value};

/// A whole number from `low` to `high`.
pub(crate) fn whole_in(low: u32, high: u32, value: &Value) -> Option<u32>
    ensures { result ≡ whole_in low high (view value.now) }
{
    match value.as_integer() {
        Some(number) => {
            if (low as i64) <= number && number <= (high as i64) {
                Some(number as u32)
            } else {
                None
            }
        }
        None => None,
    }
}

/// The key of an entry as a refusal reports it: `seq.NAME` or `turns.NAME`.
fn entry_key(alloc: Global, section: Section, name: &str) -> Result<Name, NoMemory>
    ensures { IfGiven result (λ key. key ≡ entry_key section name.now) }
{
    let table = section.key();
    let text = format!(in alloc; "{table}.{name}")?;
    Name::from_text(alloc, text.as_str())
}

/// Tells whether an entry names a module that its table speaks of, with a number in range.
fn check_entry(
    alloc: Global,
    section: Section,
    name: &str,
    value: &Value,
    limits: &Limits,
) -> Result<(), CostRefusal>
    ensures { Gives result (entry_within section name.now (view value.now)
        (lookup (bytes_eq name.now) limits.now)) }
{
    let module = Name::from_text(alloc, name)?;
    match limits.get(&module) {
        None => Err(CostRefusal::BadKey(entry_key(alloc, section, name)?)),
        Some(most) => match whole_in(section.least(), most, value) {
            None => Err(CostRefusal::BadValue(entry_key(alloc, section, name)?)),
            Some(_) => Ok(()),
        },
    }
}

/// Tells whether the entries of a table keep the rules.
fn check_entries(
    alloc: Global,
    section: Section,
    entries: &Table,
    limits: &Limits,
) -> Result<(), CostRefusal>
    ensures { Gives result (entries_rule (λ name. lookup (bytes_eq name) limits.now)
        section (table_view entries.now)) }
{
    'entries: for (name, value) in entries.iter() {
        check_entry(alloc, section, name.as_str(), value, limits)?;
    }
    Ok(())
}

/// Tells whether a value is a table whose entries keep the rules.
fn check_section(
    alloc: Global,
    section: Section,
    value: &Value,
    tree: &Tree,
) -> Result<(), CostRefusal>
    requires few { length tree.now.modules < 2 ^ 32 }
    ensures { Gives result (section_rule tree.now section (view value.now)) }
{
    match value.as_table() {
        None => Err(CostRefusal::BadValue(Name::from_text(alloc, section.key())?)),
        Some(entries) => {
            let limits = limits_of(alloc, tree, section)?;
            check_entries(alloc, section, entries, &limits)
        }
    }
}

/// Returns true exactly if a key is that of a number.
fn is_number_key(key: &str) -> bool
    ensures { result ≡ is_number_key key.now }
{
    key == "setup" || key == "word" || key == "default"
}

/// Tells whether a value is a number of the cost model.
fn check_number(alloc: Global, key: &str, value: &Value) -> Result<(), CostRefusal>
    ensures { Gives result (found key.now (whole_in 0 most_cost (view value.now))) }
{
    match whole_in(0, MOST_COST, value) {
        Some(_) => Ok(()),
        None => Err(CostRefusal::BadValue(Name::from_text(alloc, key)?)),
    }
}

/// Tells whether a key of the document is known, and its value keeps the rules.
fn check_key(alloc: Global, key: &str, value: &Value, tree: &Tree) -> Result<(), CostRefusal>
    requires few { length tree.now.modules < 2 ^ 32 }
    ensures { Gives result (key_rule tree.now key.now (view value.now)) }
{
    if is_number_key(key) {
        check_number(alloc, key, value)
    } else if key == Section::Ticks.key() {
        check_section(alloc, Section::Ticks, value, tree)
    } else if key == Section::Turns.key() {
        check_section(alloc, Section::Turns, value, tree)
    } else {
        Err(CostRefusal::BadKey(Name::from_text(alloc, key)?))
    }
}

/// Tells whether all keys of the document keep the rules; the first in the order of bytes that
/// doesn't is reported.
pub(crate) fn check_keys(alloc: Global, document: &Table, tree: &Tree) -> Result<(), CostRefusal>
    requires few { length tree.now.modules < 2 ^ 32 }
    ensures { Gives result (keys_rule tree.now (table_view document.now)) }
{
    'keys: for (key, value) in document.iter() {
        check_key(alloc, key.as_str(), value, tree)?;
    }
    Ok(())
}
