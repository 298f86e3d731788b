// Costs of a tree, read from a text.

ghost use Rattle.std.specs.Prelude.{◌≡◌, ◌<◌, ◌^◌, IfOk, IfErr, length, option_map};
ghost use Rattle.p3l_base.specs.Memory.{IfGiven};
ghost use Rattle.toml.specs.Data.{get_member};
ghost use Rattle.toml.specs.View.{table_view, view};
ghost use Rattle.p3l_skel.specs.Lawful.{IsLawfulTree};
ghost use Rattle.p3l_cost.specs.Costs.{AreCostsOf};
ghost use Rattle.p3l_cost.specs.File.{Gives, IsDocument, IsNoDocument, IsRead, all_ticks, all_turns, costs_in, entry_in, is_used, number_in, ticks_of, turns_of_module};

use crate::costs::{Costs, full_turns, turns_or};
use crate::refusal::CostRefusal;
use crate::rules::{check_keys, whole_in};
use crate::section::Section;
use p3l_base::limits::MOST_COST;
use p3l_base::{List, Name, NoMemory};
use p3l_skel::{ModuleInfo, Node, Tree};
use std::alloc::Global;
use toml::{Table, Value};

/// The document that a text is.
fn read_document(alloc: Global, text: &[u8]) -> Result<Table, CostRefusal>
    ensures ok { IfOk result (λ document. IsDocument text.now (table_view document)) }
    ensures refused { IfErr result (IsNoDocument text.now) }
{
    match std::str::from_utf8(text) {
        Err(_) => Err(CostRefusal::NotToml),
        Ok(text) => match toml::table_from_str(alloc, text) {
            Ok(document) => Ok(document),
            Err(error) if error.is_memory() => Err(CostRefusal::NoMemory),
            Err(_) => Err(CostRefusal::NotToml),
        },
    }
}

/// The value of a key.
fn value_at<'a>(table: &'a Table, key: &str) -> Option<&'a Value>
    ensures { option_map (λ value. view value.now) result
        ≡ get_member key.now (table_view table.now) }
{
    table.get(key)
}

/// A number of the document.
fn number_in(document: &Table, key: &str) -> Option<u32>
    ensures { result ≡ number_in (table_view document.now) key.now }
{
    match value_at(document, key) {
        None => None,
        Some(value) => whole_in(0, MOST_COST, value),
    }
}

/// The number of the entry of a module.
fn entry_in(document: &Table, section: Section, most: u32, name: &Name) -> Option<u32>
    ensures { result ≡ entry_in (table_view document.now) section most name.now }
{
    match value_at(document, section.key()) {
        None => None,
        Some(value) => match value.as_table() {
            None => None,
            Some(entries) => match value_at(entries, name.as_str()) {
                None => None,
                Some(value) => whole_in(section.least(), most, value),
            },
        },
    }
}

/// Returns true exactly if some node is of a module.
fn is_used(nodes: &[Node], home: u32) -> bool
    ensures { result ≡ is_used nodes.now home }
{
    nodes.iter().any(|node| node.module == home)
}

/// The ticks of a module.
fn ticks_of(
    alloc: Global,
    tree: &Tree,
    document: &Table,
    home: u32,
    info: &ModuleInfo,
) -> Result<u32, CostRefusal>
    ensures { Gives result (ticks_of tree.now (table_view document.now) home info.now) }
{
    if !Section::Ticks.speaks_of(info.kind) {
        return Ok(0);
    }
    match entry_in(document, Section::Ticks, MOST_COST, &info.name) {
        Some(ticks) => Ok(ticks),
        None => match number_in(document, "default") {
            Some(ticks) => Ok(ticks),
            None if is_used(tree.nodes.as_slice(), home) => Err(CostRefusal::Missing(
                Name::from_text(alloc, info.name.as_str())?,
            )),
            None => Ok(0),
        },
    }
}

/// The ticks of all modules.
fn all_ticks(alloc: Global, tree: &Tree, document: &Table) -> Result<List<u32>, CostRefusal>
    requires few { length tree.now.modules < 2 ^ 32 }
    ensures { Gives result (all_ticks tree.now (table_view document.now) 0 tree.now.modules) }
{
    let mut ticks = List::new(alloc);
    for (home, info) in tree.modules.as_slice().iter().enumerate() {
        ticks.push(ticks_of(alloc, tree, document, home as u32, info)?)?;
    }
    Ok(ticks)
}

/// The expected turns of a module.
fn turns_of(tree: &Tree, document: &Table, home: u32, info: &ModuleInfo) -> u32
    ensures { result ≡ turns_of_module tree.now (table_view document.now) home info.now }
{
    if !Section::Turns.speaks_of(info.kind) {
        return 1;
    }
    let nodes = tree.nodes.as_slice();
    let most = turns_or(nodes, home, MOST_COST);
    match entry_in(document, Section::Turns, most, &info.name) {
        Some(turns) => turns,
        None => full_turns(nodes, home),
    }
}

/// The expected turns of all modules.
fn all_turns(alloc: Global, tree: &Tree, document: &Table) -> Result<List<u32>, NoMemory>
    requires few { length tree.now.modules < 2 ^ 32 }
    ensures { IfGiven result (λ turns. turns
        ≡ all_turns tree.now (table_view document.now) 0 tree.now.modules) }
{
    let mut turns = List::new(alloc);
    for (home, info) in tree.modules.as_slice().iter().enumerate() {
        turns.push(turns_of(tree, document, home as u32, info))?;
    }
    Ok(turns)
}

/// The costs that a document says.
#[tactic(auto, using(crate::proofs::Given::broken_first, crate::proofs::Given::kept_first), unfolding(crate::specs::File::costs_in))]
fn costs_in(alloc: Global, document: &Table, tree: &Tree) -> Result<Costs, CostRefusal>
    requires few { length tree.now.modules < 2 ^ 32 }
    ensures { Gives result (costs_in tree.now (table_view document.now)) }
{
    check_keys(alloc, document, tree)?;
    let ticks = all_ticks(alloc, tree, document)?;
    let turns = all_turns(alloc, tree, document)?;
    Ok(Costs {
        setup: number_in(document, "setup").unwrap_or(0),
        word: number_in(document, "word").unwrap_or(0),
        ticks,
        turns,
    })
}

/// The costs of a tree that a text says: a TOML document with the numbers `setup` and `word`, each
/// 0 where it is absent, `default`, and the tables `seq` and `turns`.
#[tactic(auto, using(crate::proofs::Reading::read_is, crate::proofs::Reading::read_lawful))]
pub fn read_costs(alloc: Global, text: &[u8], tree: &Tree) -> Result<Costs, CostRefusal>
    requires { IsLawfulTree tree.now }
    ensures read { IsRead tree.now text.now result }
    ensures lawful { IfOk result (AreCostsOf tree.now) }
{
    let document = read_document(alloc, text)?;
    costs_in(alloc, &document, tree)
}
