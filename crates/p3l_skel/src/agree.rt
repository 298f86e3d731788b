// The agreement of the nodes of one module.

ghost use Rattle.std.specs.Prelude.{◌≡◌, ◌↔◌, Option, IsTrue};
ghost use Rattle.std.specs.List.{All};
ghost use Rattle.p3l_skel.specs.Lawful.{AgreesWith, AgreesWithAll};

use crate::tree::{Form, Node};
use p3l_base::{Cut, Dim, Place, Slice};

/// Returns true exactly if two places are the same.
fn same_place(one: Place, other: Place) -> bool
    ensures { IsTrue result ↔ (one ≡ other) }
{
    match one {
        Place::Rest => matches!(other, Place::Rest),
        Place::First => matches!(other, Place::First),
        Place::Second => matches!(other, Place::Second),
    }
}

/// Returns true exactly if two dimensions are the same.
fn same_dim(one: Dim, other: Dim) -> bool
    ensures { IsTrue result ↔ (one ≡ other) }
{
    one.size == other.size && same_place(one.place, other.place)
}

/// Returns true exactly if two arrays have the same dimensions.
fn same_dims(one: &[Dim], other: &[Dim]) -> bool
    ensures { IsTrue result ↔ (one.now ≡ other.now) }
{
    if one.len() != other.len() {
        return false;
    }
    for i in 0..one.len() {
        if !same_dim(one[i], other[i]) {
            return false;
        }
    }
    true
}

/// Returns true exactly if two slices are the same.
fn same_slice(one: &Slice, other: &Slice) -> bool
    ensures { IsTrue result ↔ (one.now ≡ other.now) }
{
    one.start == other.start && same_dims(one.dims.as_slice(), other.dims.as_slice())
}

/// Returns true exactly if two lists have the same slices.
fn same_slices(one: &[Slice], other: &[Slice]) -> bool
    ensures { IsTrue result ↔ (one.now ≡ other.now) }
{
    if one.len() != other.len() {
        return false;
    }
    for i in 0..one.len() {
        if !same_slice(&one[i], &other[i]) {
            return false;
        }
    }
    true
}

/// Returns true exactly if two cuts are the same.
fn same_cut(one: &Cut, other: &Cut) -> bool
    ensures { IsTrue result ↔ (one.now ≡ other.now) }
{
    one.first == other.first
        && one.second == other.second
        && same_slices(one.ins.as_slice(), other.ins.as_slice())
        && same_slices(one.outs.as_slice(), other.outs.as_slice())
}

/// Returns true exactly if two clauses are the same.
fn same_clause(one: Option<u32>, other: Option<u32>) -> bool
    ensures { IsTrue result ↔ (one ≡ other) }
{
    match (one, other) {
        (None, None) => true,
        (Some(n), Some(m)) => n == m,
        (None, Some(_)) | (Some(_), None) => false,
    }
}

/// Returns true exactly if a form is that of a farm with this clause.
fn is_farm(form: &Form, clause: Option<u32>) -> bool
    ensures { IsTrue result ↔ (form.now ≡ Form.Farm clause) }
{
    match form {
        Form::Farm { workers } => same_clause(*workers, clause),
        _ => false,
    }
}

/// Returns true exactly if a form is that of a map with this clause and cut.
fn is_map(form: &Form, clause: Option<u32>, other: &Cut) -> bool
    ensures { IsTrue result ↔ (form.now ≡ Form.Map clause other.now) }
{
    match form {
        Form::Map { workers, cut } => same_clause(*workers, clause) && same_cut(cut, other),
        _ => false,
    }
}

/// Returns true exactly if a form is that of a reduce with this clause and these numbers.
fn is_reduce(form: &Form, clause: Option<u32>, length: u32, element: u32) -> bool
    ensures { IsTrue result ↔ (form.now ≡ Form.Reduce clause length element) }
{
    match form {
        Form::Reduce { workers, len, elem } => same_clause(*workers, clause)
            && *len == length
            && *elem == element,
        _ => false,
    }
}

/// Returns true exactly if a form is that of a loop with these numbers.
fn is_loop(form: &Form, most_turns: u32, most_tokens: u32) -> bool
    ensures { IsTrue result ↔ (form.now ≡ Form.Loop most_turns most_tokens) }
{
    match form {
        Form::Loop { turns, tokens } => *turns == most_turns && *tokens == most_tokens,
        _ => false,
    }
}

/// Returns true exactly if two forms are the same.
fn same_form(one: &Form, other: &Form) -> bool
    ensures { IsTrue result ↔ (one.now ≡ other.now) }
{
    match other {
        Form::Seq => matches!(one, Form::Seq),
        Form::Comp => matches!(one, Form::Comp),
        Form::Pipe => matches!(one, Form::Pipe),
        Form::Farm { workers } => is_farm(one, *workers),
        Form::Map { workers, cut } => is_map(one, *workers, cut),
        Form::Reduce { workers, len, elem } => is_reduce(one, *workers, *len, *elem),
        Form::Loop { turns, tokens } => is_loop(one, *turns, *tokens),
    }
}

/// Returns true exactly if two nodes agree in form and words.
fn agree(node: &Node, other: &Node) -> bool
    ensures { IsTrue result ↔ AgreesWith node.now other.now }
{
    same_form(&node.form, &other.form) && node.ins == other.ins && node.outs == other.outs
}

/// Returns true exactly if two nodes agree if they are of one module.
fn agree_in_module(node: &Node, other: &Node) -> bool
    ensures { IsTrue result ↔ (node.now.module ≡ other.now.module → AgreesWith node.now other.now) }
{
    node.module != other.module || agree(node, other)
}

/// Returns true exactly if a node agrees with all nodes of its module.
fn agrees_with_all(nodes: &[Node], node: &Node) -> bool
    ensures { IsTrue result ↔ AgreesWithAll nodes.now node.now }
{
    nodes.iter().all(|other| agree_in_module(node, other))
}

/// Returns true exactly if the nodes of each module agree.
pub fn modules_agree(nodes: &[Node]) -> bool
    ensures { IsTrue result ↔ All (AgreesWithAll nodes.now) nodes.now }
{
    nodes.iter().all(|node| agrees_with_all(nodes, node))
}
