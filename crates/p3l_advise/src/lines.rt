// The tree with its counts, a line a node.

ghost use Rattle.std.specs.Prelude.{◌≡◌, ◌-◌, ◌++◌, ℕ, string_bytes};
ghost use Rattle.std.specs.List.{Contains};
ghost use Rattle.p3l_base.specs.Memory.{OnGiven};
ghost use Rattle.p3l_skel.specs.Counts.{HasLawfulCounts, outside, outside_from};
ghost use Rattle.p3l_skel.specs.Lawful.{IsLawfulTree};
ghost use Rattle.p3l_skel.specs.Tree.{node_at};
ghost use Rattle.p3l_cost.specs.Costs.{AreCostsOf};
ghost use Rattle.p3l_advise.specs.Bottleneck.{bottleneck};
ghost use Rattle.p3l_advise.specs.Lines.{indent, lines_from, mark, node_line, term_name, tree_lines};

use crate::bottleneck::{Term, bottleneck, term_of};
use p3l_alloc::explanation::{kind_name, name_of, put_count};
use p3l_base::NoMemory;
use p3l_cost::Costs;
use p3l_model::service;
use p3l_model::workers::workers;
use p3l_skel::counts::outside_parts;
use p3l_skel::tree::NESTING;
use p3l_skel::{Counts, Node, Tree};
use std::alloc::Global;

/// Appends two blanks a level to a text.
fn put_indent(text: &mut String, depth: u32) -> Result<(), NoMemory>
    ensures { OnGiven result (string_bytes text.new ≡ string_bytes text.old ++ indent depth) }
{
    for _level in 0..depth {
        text.push_str("  ")?;
    }
    Ok(())
}

/// The words for a part of a node's time.
fn term_name(term: Term) -> &'static str
    ensures { result.now ≡ term_name term }
{
    match term {
        Term::Reading => "reading",
        Term::Work => "its work",
        Term::Writing => "writing",
    }
}

/// Appends the mark of the bottleneck to a text, if the node is it.
fn put_mark(
    text: &mut String,
    tree: &Tree,
    costs: &Costs,
    counts: &Counts,
    worst: u32,
    number: u32,
    node: &Node,
) -> Result<(), NoMemory>
    requires tree { IsLawfulTree tree.now }
    requires costs { AreCostsOf tree.now costs.now }
    requires counts { HasLawfulCounts tree.now counts.now.list }
    requires outside { Contains (outside tree.now) number }
    requires node { node.now ≡ node_at tree.now number }
    requires worst { worst ≡ bottleneck tree.now costs.now counts.now.list }
    ensures { OnGiven result (string_bytes text.new
        ≡ string_bytes text.old ++ mark tree.now costs.now counts.now.list number) }
{
    if number != worst {
        return Ok(());
    }
    let time = service(tree, costs, counts, number);
    let count = workers(tree, counts, number);
    text.push_str(" bottleneck: ")?;
    text.push_str(term_name(term_of(tree, costs, number, node, time, count)))?;
    Ok(())
}

/// Appends the line of a node outside units to a text.
fn put_line(
    alloc: Global,
    text: &mut String,
    tree: &Tree,
    costs: &Costs,
    counts: &Counts,
    worst: u32,
    depth: u32,
    number: u32,
    node: &Node,
) -> Result<(), NoMemory>
    requires tree { IsLawfulTree tree.now }
    requires costs { AreCostsOf tree.now costs.now }
    requires counts { HasLawfulCounts tree.now counts.now.list }
    requires outside { Contains (outside tree.now) number }
    requires node { node.now ≡ node_at tree.now number }
    requires worst { worst ≡ bottleneck tree.now costs.now counts.now.list }
    ensures { OnGiven result (string_bytes text.new
        ≡ string_bytes text.old ++ node_line tree.now costs.now counts.now.list depth number) }
{
    put_indent(text, depth)?;
    text.push_str(name_of(tree, node.module))?;
    text.push_str(" ")?;
    text.push_str(kind_name(&node.form))?;
    put_count(alloc, text, &node.form, workers(tree, counts, number))?;
    let time = service(tree, costs, counts, number);
    let words = format!(in alloc; " service {time}")?;
    text.push_str(words.as_str())?;
    put_mark(text, tree, costs, counts, worst, number, node)?;
    text.push_str("\n")?;
    Ok(())
}

/// Appends the lines of a node outside units and of those outside units below it to a text, down
/// to `levels` levels.
fn put_lines(
    alloc: Global,
    text: &mut String,
    tree: &Tree,
    costs: &Costs,
    counts: &Counts,
    worst: u32,
    levels: u32,
    number: u32,
) -> Result<(), NoMemory>
    requires tree { IsLawfulTree tree.now }
    requires costs { AreCostsOf tree.now costs.now }
    requires counts { HasLawfulCounts tree.now counts.now.list }
    requires worst { worst ≡ bottleneck tree.now costs.now counts.now.list }
    requires outside { (node : ℕ) → Contains (outside_from tree.now levels number) node
        → Contains (outside tree.now) node }
    ensures { OnGiven result (string_bytes text.new ≡ string_bytes text.old
        ++ lines_from tree.now costs.now counts.now.list levels number) }
{
    let Some(node) = tree.node(number) else {
        return Ok(());
    };
    let depth = NESTING.saturating_sub(levels);
    put_line(alloc, text, tree, costs, counts, worst, depth, number, node)?;
    if levels == 0 {
        return Ok(());
    }
    for part in outside_parts(node) {
        put_lines(alloc, text, tree, costs, counts, worst, levels - 1, *part)?;
    }
    Ok(())
}

/// Appends the lines of the tree to a text.
pub fn put_tree(
    alloc: Global,
    text: &mut String,
    tree: &Tree,
    costs: &Costs,
    counts: &Counts,
) -> Result<(), NoMemory>
    requires tree { IsLawfulTree tree.now }
    requires costs { AreCostsOf tree.now costs.now }
    requires counts { HasLawfulCounts tree.now counts.now.list }
    ensures { OnGiven result (string_bytes text.new
        ≡ string_bytes text.old ++ tree_lines tree.now costs.now counts.now.list) }
{
    let worst = bottleneck(tree, costs, counts);
    put_lines(alloc, text, tree, costs, counts, worst, NESTING, 0)
}
