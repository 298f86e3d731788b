// The text of a cost file.

ghost use Rattle.std.specs.Prelude.{◌≡◌, ◌++◌, ◌&&◌, slice_index, string_bytes};
ghost use Rattle.p3l_base.specs.Memory.{IfGiven, OnGiven};
ghost use Rattle.p3l_profile.specs.Text.{entries, entry_if, is_used, number_of, speaks_of, text_of, turns_table};

use crate::highs::Highs;
use p3l_base::limits::MOST_COST;
use p3l_base::{List, NoMemory};
use p3l_skel::{ModuleInfo, ModuleKind, Node, Tree};
use std::alloc::Global;

/// The tables of a cost file: the ticks of `seq` modules, and the turns of `loop` modules.
#[derive(Clone, Copy, Debug, Drop, PartialEq, Eq)]
pub enum CostTable {
    Ticks,
    Turns,
}

/// Returns true exactly if a module is that of some node.
fn is_used(nodes: &[Node], home: usize) -> bool
    ensures { result ≡ is_used nodes.now home }
{
    nodes.iter().any(|node| node.module as usize == home)
}

/// Puts a module's entry after a text, if it is to be there.
fn put_entry(
    alloc: Global,
    text: &mut String,
    is_there: bool,
    info: &ModuleInfo,
    number: u64,
) -> Result<(), NoMemory>
    ensures { OnGiven result (string_bytes text.new
        ≡ string_bytes text.old ++ entry_if is_there info.now.name number) }
{
    if is_there {
        let name = info.name.as_str();
        let line = format!(in alloc; "{name} = {number}\n")?;
        text.push_str(line.as_str())?;
    }
    Ok(())
}

/// Returns true exactly if a module has an entry in a table: the table speaks of it, and it is on a
/// node.
fn has_entry(table: CostTable, tree: &Tree, home: usize, info: &ModuleInfo) -> bool
    ensures { result ≡ speaks_of table info.now.kind && is_used tree.now.nodes home }
{
    let is_spoken_of = match (table, info.kind) {
        (CostTable::Ticks, ModuleKind::Seq) => true,
        (CostTable::Turns, ModuleKind::Loop) => true,
        _ => false,
    };
    is_spoken_of && is_used(tree.nodes.as_slice(), home)
}

/// The number of a module in a table.
fn number_of(table: CostTable, highs: &Highs, home: usize) -> u64
    ensures { result
        ≡ number_of table (slice_index highs.now.work) (slice_index highs.now.took) home }
{
    match table {
        CostTable::Ticks => highs.work(home).min(MOST_COST as u64),
        CostTable::Turns => u64::from(highs.took(home)),
    }
}

/// Puts the entries of a table after a text.
fn put_entries(
    alloc: Global,
    text: &mut String,
    table: CostTable,
    tree: &Tree,
    highs: &Highs,
) -> Result<(), NoMemory>
    ensures { OnGiven result (string_bytes text.new
        ≡ string_bytes text.old ++ entries table
        (number_of table (slice_index highs.now.work) (slice_index highs.now.took))
        tree.now.nodes 0 tree.now.modules) }
{
    let modules = tree.modules.as_slice();
    for (home, info) in modules.iter().enumerate() {
        let is_there = has_entry(table, tree, home, info);
        put_entry(alloc, text, is_there, info, number_of(table, highs, home))?;
    }
    Ok(())
}

/// Puts the table of turns with these entries after a text, if there is one.
fn put_turns(text: &mut String, turns: &str) -> Result<(), NoMemory>
    ensures { OnGiven result (string_bytes text.new ≡ string_bytes text.old ++ turns_table turns.now) }
{
    if turns.is_empty() {
        return Ok(());
    }
    text.push_str("[turns]\n")?;
    text.push_str(turns)?;
    Ok(())
}

/// The cost file of what was noted of a tree.
pub(crate) fn cost_text(alloc: Global, tree: &Tree, highs: &Highs) -> Result<List<u8>, NoMemory>
    ensures { IfGiven result (λ text. text ≡ text_of tree.now highs.now) }
{
    let mut turns = String::new(alloc);
    put_entries(alloc, &mut turns, CostTable::Turns, tree, highs)?;
    let mut text = String::from_str(alloc, "setup = 10\nword = 1\n[seq]\n")?;
    put_entries(alloc, &mut text, CostTable::Ticks, tree, highs)?;
    put_turns(&mut text, turns.as_str())?;
    Ok(List::from_vec(text.into_bytes()))
}
