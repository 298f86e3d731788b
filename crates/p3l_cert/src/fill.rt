// Rows made for the keys that a certificate needs, and filled with what their rules find.

ghost use Rattle.std.specs.Prelude.{◌≡◌};
ghost use Rattle.p3l_base.specs.Memory.{IfGiven, OnGiven};
ghost use Rattle.std.specs.List.{All};
ghost use Rattle.p3l_skel.specs.Lawful.{IsLawfulTree};
ghost use Rattle.p3l_cost.specs.Costs.{AreCostsOf};
ghost use Rattle.p3l_cert.specs.Fill.{is_next, with_key, AreRowsOf, AreClosed, IsFilledFrom};
ghost use Rattle.p3l_cert.specs.Keys.{AreSorted, IsSmall};
ghost use Rattle.p3l_cert.specs.Rows.{AreRows};
ghost use Rattle.p3l_cert.specs.Table.{IsTable};

use crate::cert::{Key, Row};
use crate::find::is_below;
use crate::table::rule;
use p3l_base::NoMemory;
use p3l_cost::Costs;
use p3l_model::NodeCost;
use p3l_skel::Tree;
use std::alloc::Global;

// Returns true exactly if a key is another than that of the last row.
fn is_next(rows: &[Row], key: Key) -> bool
    ensures { result ≡ is_next rows.now key }
{
    match rows.last() {
        None => true,
        Some(row) => is_below(row, key),
    }
}

// Puts a row of a key after others, if it is another than that of the last row.
fn add(rows: &mut Vec<Row>, key: Key) -> Result<(), NoMemory>
    ensures { OnGiven result (rows.new.items ≡ with_key rows.old.items key) }
{
    if !is_next(rows.as_slice(), key) {
        return Ok(());
    }
    rows.push(Row {
        node: key.node,
        bound: key.bound,
        cap: key.cap,
        least: 1,
    })?;
    Ok(())
}

/// A row of each of some sorted keys, each once, of which the least is not found yet.
pub fn rows_of(alloc: Global, keys: &[Key]) -> Result<Vec<Row>, NoMemory>
    requires sorted { AreSorted keys.now }
    requires small { All IsSmall keys.now }
    ensures { IfGiven result (λ rows. AreRowsOf keys.now rows.items) }
{
    let mut rows: Vec<Row> = Vec::new(alloc);
    for key in keys {
        add(&mut rows, *key)?;
    }
    Ok(rows)
}

// Gives each row the least that its rule finds, from the last row on, so that those that it depends
// on have theirs.
fn fill(tree: &Tree, costs: &Costs, table: &[Option<NodeCost>], rows: &mut [Row])
    requires tree { IsLawfulTree tree.now }
    requires costs { AreCostsOf tree.now costs.now }
    requires table { IsTable tree.now costs.now table.now }
    requires rows { AreRows rows.old }
    requires closed { AreClosed tree.now costs.now rows.old }
    ensures { IsFilledFrom tree.now costs.now rows.old 0 rows.new }
{
    let mut left = rows.len();
    while left > 0 {
        left -= 1;
        let row = rows[left];
        if let Ok(least) = rule(tree, costs, table, rows, &row) {
            rows[left].least = least;
        }
    }
}

/// Gives each of some rows the least that its rule finds.
pub fn fill_all(tree: &Tree, costs: &Costs, table: &[Option<NodeCost>], rows: &mut Vec<Row>)
    requires tree { IsLawfulTree tree.now }
    requires costs { AreCostsOf tree.now costs.now }
    requires table { IsTable tree.now costs.now table.now }
    requires rows { AreRows rows.old.items }
    requires closed { AreClosed tree.now costs.now rows.old.items }
    ensures { IsFilledFrom tree.now costs.now rows.old.items 0 rows.new.items }
{
    fill(tree, costs, table, rows.as_mut_slice());
}
