// The text that explains an allocation.

ghost use Rattle.std.specs.Prelude.{◌≡◌, ◌≤◌, ◌++◌, ℕ, string_bytes};
ghost use Rattle.p3l_base.specs.Memory.{IfGiven, OnGiven};
ghost use Rattle.std.specs.List.{Contains};
ghost use Rattle.p3l_skel.specs.Counts.{HasLawfulCounts, outside, outside_from};
ghost use Rattle.p3l_skel.specs.Lawful.{IsLawfulTree};
ghost use Rattle.p3l_skel.specs.Tree.{node_at};
ghost use Rattle.p3l_cost.specs.Costs.{AreCostsOf};
ghost use Rattle.p3l_alloc.specs.Explanation.{allocation_text, count_words, kind_name, module_name, node_line, node_lines, node_words, whole_line};

use crate::allocation::Choice;
use p3l_base::{List, NoMemory};
use p3l_cost::Costs;
use p3l_model::workers::workers;
use p3l_model::{procs, service};
use p3l_skel::counts::outside_parts;
use p3l_skel::tree::NESTING;
use p3l_skel::{Counts, Form, Node, Tree};
use std::alloc::Global;

/// The keyword of a form.
pub fn kind_name(form: &Form) -> &'static str
    ensures { result.now ≡ kind_name form.now }
{
    match form {
        Form::Seq => "seq",
        Form::Comp => "comp",
        Form::Pipe => "pipe",
        Form::Farm { .. } => "farm",
        Form::Map { .. } => "map",
        Form::Reduce { .. } => "reduce",
        Form::Loop { .. } => "loop",
    }
}

/// Appends a node's count to a text, if the node has one.
pub fn put_count(alloc: Global, text: &mut String, form: &Form, count: u32) -> Result<(), NoMemory>
    ensures { OnGiven result (string_bytes text.new
        ≡ string_bytes text.old ++ count_words form.now count) }
{
    match form {
        Form::Farm { .. } | Form::Map { .. } | Form::Reduce { .. } => {
            let words = format!(in alloc; " count {count}")?;
            text.push_str(words.as_str())?;
            Ok(())
        }
        Form::Seq | Form::Comp | Form::Pipe | Form::Loop { .. } => Ok(()),
    }
}

/// Appends the line of a node outside units to a text.
fn put_node(
    alloc: Global,
    text: &mut String,
    tree: &Tree,
    costs: &Costs,
    counts: &Counts,
    number: u32,
    node: &Node,
) -> Result<(), NoMemory>
    requires tree { IsLawfulTree tree.now }
    requires costs { AreCostsOf tree.now costs.now }
    requires counts { HasLawfulCounts tree.now counts.now.list }
    requires outside { Contains (outside tree.now) number }
    requires node { node.now ≡ node_at tree.now number }
    ensures { OnGiven result (string_bytes text.new
        ≡ string_bytes text.old ++ node_line tree.now costs.now counts.now.list number) }
{
    let kind = kind_name(&node.form);
    let name = name_of(tree, node.module);
    let used = procs(tree, counts, number);
    let time = service(tree, costs, counts, number);
    let words = format!(in alloc; "{number} {kind} {name} procs {used} service {time}")?;
    text.push_str(words.as_str())?;
    put_count(alloc, text, &node.form, workers(tree, counts, number))?;
    text.push('\n')?;
    Ok(())
}

/// The name of the module of a number, and none where there is none of this number.
pub fn name_of(tree: &Tree, number: u32) -> &str
    ensures { result.now ≡ module_name tree.now number }
{
    match tree.modules.as_slice().get(number as usize) {
        Some(found) => found.name.as_str(),
        None => "",
    }
}

/// Appends the lines of a node outside units and of those outside units below it to a text, down
/// to `levels` levels.
fn put_nodes(
    alloc: Global,
    text: &mut String,
    tree: &Tree,
    costs: &Costs,
    counts: &Counts,
    levels: u32,
    number: u32,
) -> Result<(), NoMemory>
    requires tree { IsLawfulTree tree.now }
    requires costs { AreCostsOf tree.now costs.now }
    requires counts { HasLawfulCounts tree.now counts.now.list }
    requires outside { (node : ℕ) → Contains (outside_from tree.now levels number) node
        → Contains (outside tree.now) node }
    ensures { OnGiven result (string_bytes text.new
        ≡ string_bytes text.old
        ++ node_lines tree.now costs.now counts.now.list (outside_from tree.now levels number)) }
{
    let Some(node) = tree.node(number) else {
        return Ok(());
    };
    put_node(alloc, text, tree, costs, counts, number, node)?;
    if levels == 0 {
        return Ok(());
    }
    for part in outside_parts(node) {
        put_nodes(alloc, text, tree, costs, counts, levels - 1, *part)?;
    }
    Ok(())
}

/// The text that explains a choice of counts for a number of processors: `processors P used U
/// service T`, and in preorder a line `NODE KIND NAME procs U service T` for each node that has
/// processes of its own, with ` count C` for a farm, a map and a reduce.
pub fn allocation_text(
    alloc: Global,
    tree: &Tree,
    costs: &Costs,
    processors: u32,
    choice: &Choice,
) -> Result<List<u8>, NoMemory>
    requires tree { IsLawfulTree tree.now }
    requires costs { AreCostsOf tree.now costs.now }
    requires counts { HasLawfulCounts tree.now choice.now.counts.list }
    ensures { IfGiven result (λ text. text
        ≡ allocation_text tree.now costs.now processors choice.now.counts.list choice.now.used
        choice.now.service) }
{
    let used = choice.used;
    let time = choice.service;
    let mut text = format!(in alloc; "processors {processors} used {used} service {time}\n")?;
    put_nodes(alloc, &mut text, tree, costs, &choice.counts, NESTING, 0)?;
    Ok(List::from_vec(text.into_bytes()))
}
