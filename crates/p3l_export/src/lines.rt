// Text after text.

ghost use Rattle.std.specs.Prelude.{◌≡◌, ◌++◌};
ghost use Rattle.std.specs.List.{flat_map};
ghost use Rattle.p3l_base.specs.Memory.{OnGiven};
ghost use Rattle.p3l_export.specs.Lines.{closed_table, number_item, numbers_line, table, table_head};

use p3l_base::NoMemory;
use std::alloc::Global;

/// Puts words after a text.
pub(crate) fn put(text: &mut Vec<u8>, words: &str) -> Result<(), NoMemory>
    ensures { OnGiven result (text.new.items ≡ text.old.items ++ words.now) }
{
    text.extend_from_slice(words.as_bytes())?;
    Ok(())
}

/// Puts a number of a list after a text.
fn put_number(alloc: Global, text: &mut Vec<u8>, number: u32) -> Result<(), NoMemory>
    ensures { OnGiven result (text.new.items ≡ text.old.items ++ number_item number) }
{
    let words = format!(in alloc; " {number},")?;
    put(text, words.as_str())
}

/// Puts the numbers of a list after a text.
pub(crate) fn put_numbers(
    alloc: Global,
    text: &mut Vec<u8>,
    numbers: &[u32],
) -> Result<(), NoMemory>
    ensures { OnGiven result (text.new.items
        ≡ text.old.items ++ flat_map number_item numbers.now) }
{
    for number in numbers {
        put_number(alloc, text, *number)?;
    }
    Ok(())
}

/// Puts the numbers of a list after a text, on a line of their own if there are any.
pub(crate) fn put_line(alloc: Global, text: &mut Vec<u8>, numbers: &[u32]) -> Result<(), NoMemory>
    ensures { OnGiven result (text.new.items ≡ text.old.items ++ numbers_line numbers.now) }
{
    if numbers.is_empty() {
        return Ok(());
    }
    put(text, "   ")?;
    put_numbers(alloc, text, numbers)?;
    put(text, "\n")
}

/// Puts the beginning of a table after a text: what its rows have, their type and its name.
#[tactic(auto, unfolding(crate::specs::Lines::table_head))]
fn open_table(alloc: Global, text: &mut Vec<u8>, columns: &str, name: &str) -> Result<(), NoMemory>
    ensures { OnGiven result (text.new.items
        ≡ text.old.items ++ table_head columns.now name.now) }
{
    let words = format!(in alloc; "/* {columns} */\nstatic const {name}[] = {{\n")?;
    put(text, words.as_str())
}

/// Puts a table of these rows after a text.
#[tactic(auto, unfolding(crate::specs::Lines::table))]
pub(crate) fn put_table(
    alloc: Global,
    text: &mut Vec<u8>,
    columns: &str,
    name: &str,
    rows: &[u8],
) -> Result<(), NoMemory>
    ensures { OnGiven result (text.new.items
        ≡ text.old.items ++ table columns.now name.now rows.now) }
{
    open_table(alloc, text, columns, name)?;
    text.extend_from_slice(rows)?;
    put(text, "};\n\n")
}

/// Puts a list of these rows after a text, with a last row that no one reads.
#[tactic(auto, unfolding(crate::specs::Lines::closed_table))]
pub(crate) fn put_closed_table(
    alloc: Global,
    text: &mut Vec<u8>,
    columns: &str,
    name: &str,
    rows: &[u8],
    last: &str,
) -> Result<(), NoMemory>
    ensures { OnGiven result (text.new.items
        ≡ text.old.items ++ closed_table columns.now name.now rows.now last.now) }
{
    open_table(alloc, text, columns, name)?;
    text.extend_from_slice(rows)?;
    let words = format!(in alloc; "    {last}\n}};\n\n")?;
    put(text, words.as_str())
}
