// The tables of the nodes and of their parts.

ghost use Rattle.std.specs.Prelude.{◌≡◌, ◌++◌, string_bytes};
ghost use Rattle.std.specs.List.{flat_map};
ghost use Rattle.p3l_base.specs.Memory.{IfGiven, OnGiven};
ghost use Rattle.p3l_export.specs.Nodes.{first_number, form_name, form_numbers, in_slices, node_line, node_numbers, node_words, nodes_text, out_slices, parts_line, parts_text, second_number};

use crate::lines::{put, put_closed_table, put_line, put_table};
use p3l_base::NoMemory;
use p3l_skel::{Form, Node};
use std::alloc::Global;

/// The name of a form in the engine.
fn form_name(form: &Form) -> &'static str
    ensures { result.now ≡ form_name form.now }
{
    match form {
        Form::Seq => "FORM_SEQ",
        Form::Comp => "FORM_COMP",
        Form::Pipe => "FORM_PIPE",
        Form::Farm { .. } => "FORM_FARM",
        Form::Map { .. } => "FORM_MAP",
        Form::Reduce { .. } => "FORM_REDUCE",
        Form::Loop { .. } => "FORM_LOOP",
    }
}

/// The size of a map's first free index, the elements of a reduce, the turns of a loop.
fn first_number(form: &Form) -> u32
    ensures { result ≡ first_number form.now }
{
    match form {
        Form::Map { cut, .. } => cut.first,
        Form::Reduce { len, .. } => *len,
        Form::Loop { turns, .. } => *turns,
        Form::Seq | Form::Comp | Form::Pipe | Form::Farm { .. } => 0,
    }
}

/// The size of a map's second free index, the words of a reduce's element, the tokens of a loop.
fn second_number(form: &Form) -> u32
    ensures { result ≡ second_number form.now }
{
    match form {
        Form::Map { cut, .. } => cut.second,
        Form::Reduce { elem, .. } => *elem,
        Form::Loop { tokens, .. } => *tokens,
        Form::Seq | Form::Comp | Form::Pipe | Form::Farm { .. } => 0,
    }
}

/// The count of slices that an element of a map takes.
fn in_slices(form: &Form) -> usize
    ensures { result ≡ in_slices form.now }
{
    match form {
        Form::Map { cut, .. } => cut.ins.len(),
        Form::Seq
        | Form::Comp
        | Form::Pipe
        | Form::Farm { .. }
        | Form::Reduce { .. }
        | Form::Loop { .. } => 0,
    }
}

/// The count of slices that an element's result fills.
fn out_slices(form: &Form) -> usize
    ensures { result ≡ out_slices form.now }
{
    match form {
        Form::Map { cut, .. } => cut.outs.len(),
        Form::Seq
        | Form::Comp
        | Form::Pipe
        | Form::Farm { .. }
        | Form::Reduce { .. }
        | Form::Loop { .. } => 0,
    }
}

/// The numbers of a form's row.
fn form_numbers(alloc: Global, form: &Form) -> Result<String, NoMemory>
    ensures { IfGiven result (λ text. string_bytes text ≡ form_numbers form.now) }
{
    let first = first_number(form);
    let second = second_number(form);
    let ins = in_slices(form);
    let outs = out_slices(form);
    let text = format!(in alloc; "{first}, {second}, {ins}, {outs}")?;
    Ok(text)
}

/// Puts the first half of a node's row after a text.
fn put_words(alloc: Global, text: &mut Vec<u8>, node: &Node) -> Result<(), NoMemory>
    ensures { OnGiven result (text.new.items ≡ text.old.items ++ node_words node.now) }
{
    let name = form_name(&node.form);
    let home = node.module;
    let ins = node.ins;
    let outs = node.outs;
    let words = format!(in alloc; "    {{ {name}, {home}, {ins}, {outs}")?;
    put(text, words.as_str())
}

/// Puts the second half of a node's row after a text.
fn put_form(alloc: Global, text: &mut Vec<u8>, node: &Node) -> Result<(), NoMemory>
    ensures { OnGiven result (text.new.items ≡ text.old.items ++ node_numbers node.now) }
{
    let parts = node.parts.len();
    let numbers = form_numbers(alloc, &node.form)?;
    let words = format!(in alloc; ", {parts}, {numbers} }},\n")?;
    put(text, words.as_str())
}

/// Puts the row of a node after a text.
#[tactic(auto, unfolding(crate::specs::Nodes::node_line))]
fn put_node(alloc: Global, text: &mut Vec<u8>, node: &Node) -> Result<(), NoMemory>
    ensures { OnGiven result (text.new.items ≡ text.old.items ++ node_line node.now) }
{
    put_words(alloc, text, node)?;
    put_form(alloc, text, node)
}

/// Puts the rows of the nodes after a text.
fn put_rows(alloc: Global, text: &mut Vec<u8>, nodes: &[Node]) -> Result<(), NoMemory>
    ensures { OnGiven result (text.new.items ≡ text.old.items ++ flat_map node_line nodes.now) }
{
    for node in nodes {
        put_node(alloc, text, node)?;
    }
    Ok(())
}

/// Puts the parts of the nodes after a text.
fn put_all_parts(alloc: Global, text: &mut Vec<u8>, nodes: &[Node]) -> Result<(), NoMemory>
    ensures { OnGiven result (text.new.items ≡ text.old.items ++ flat_map parts_line nodes.now) }
{
    for node in nodes {
        put_line(alloc, text, node.parts.as_slice())?;
    }
    Ok(())
}

/// Puts the table of the nodes after a text.
#[tactic(auto, unfolding(crate::specs::Nodes::nodes_text))]
pub(crate) fn put_nodes(alloc: Global, text: &mut Vec<u8>, nodes: &[Node]) -> Result<(), NoMemory>
    ensures { OnGiven result (text.new.items ≡ text.old.items ++ nodes_text nodes.now) }
{
    let mut rows = Vec::new(alloc);
    put_rows(alloc, &mut rows, nodes)?;
    put_table(
        alloc,
        text,
        "form, module, words in, words out, parts, two numbers of the form, slices in, slices out",
        "struct node_row NODE",
        rows.as_slice(),
    )
}

/// Puts the list of the nodes' parts after a text.
#[tactic(auto, unfolding(crate::specs::Nodes::parts_text))]
pub(crate) fn put_parts(alloc: Global, text: &mut Vec<u8>, nodes: &[Node]) -> Result<(), NoMemory>
    ensures { OnGiven result (text.new.items ≡ text.old.items ++ parts_text nodes.now) }
{
    let mut rows = Vec::new(alloc);
    put_all_parts(alloc, &mut rows, nodes)?;
    put_closed_table(
        alloc,
        text,
        "the parts of the nodes, node by node",
        "int32_t PART",
        rows.as_slice(),
        "-1",
    )
}
