// The tables of the slices of maps and of their dimensions.

ghost use Rattle.std.specs.Prelude.{◌≡◌, ◌++◌};
ghost use Rattle.std.specs.List.{flat_map};
ghost use Rattle.p3l_base.specs.Memory.{OnGiven};
ghost use Rattle.p3l_export.specs.Slices.{dim_line, dims_lines, dims_text, node_dims, node_slices, place_name, slice_line, slices_text};

use crate::lines::{put, put_closed_table};
use p3l_base::{Dim, NoMemory, Place, Slice};
use p3l_skel::{Form, Node};
use std::alloc::Global;

/// The name of a place in the engine.
fn place_name(place: Place) -> &'static str
    ensures { result.now ≡ place_name place }
{
    match place {
        Place::Rest => "PLACE_REST",
        Place::First => "PLACE_FIRST",
        Place::Second => "PLACE_SECOND",
    }
}

/// Puts the row of a slice after a text.
fn put_slice(alloc: Global, text: &mut Vec<u8>, slice: &Slice) -> Result<(), NoMemory>
    ensures { OnGiven result (text.new.items ≡ text.old.items ++ slice_line slice.now) }
{
    let start = slice.start;
    let dims = slice.dims.len();
    let words = format!(in alloc; "    {{ {start}, {dims} }},\n")?;
    put(text, words.as_str())
}

/// Puts the rows of slices after a text.
fn put_each(alloc: Global, text: &mut Vec<u8>, slices: &[Slice]) -> Result<(), NoMemory>
    ensures { OnGiven result (text.new.items ≡ text.old.items ++ flat_map slice_line slices.now) }
{
    for slice in slices {
        put_slice(alloc, text, slice)?;
    }
    Ok(())
}

/// Puts the row of a dimension after a text.
fn put_dim(alloc: Global, text: &mut Vec<u8>, dim: Dim) -> Result<(), NoMemory>
    ensures { OnGiven result (text.new.items ≡ text.old.items ++ dim_line dim) }
{
    let size = dim.size;
    let place = place_name(dim.place);
    let words = format!(in alloc; "    {{ {size}, {place} }},\n")?;
    put(text, words.as_str())
}

/// Puts the rows of a slice's dimensions after a text.
fn put_dims_of(alloc: Global, text: &mut Vec<u8>, slice: &Slice) -> Result<(), NoMemory>
    ensures { OnGiven result (text.new.items ≡ text.old.items ++ dims_lines slice.now) }
{
    for dim in slice.dims.as_slice() {
        put_dim(alloc, text, *dim)?;
    }
    Ok(())
}

/// Puts the rows of the dimensions of slices after a text.
fn put_each_dims(alloc: Global, text: &mut Vec<u8>, slices: &[Slice]) -> Result<(), NoMemory>
    ensures { OnGiven result (text.new.items ≡ text.old.items ++ flat_map dims_lines slices.now) }
{
    for slice in slices {
        put_dims_of(alloc, text, slice)?;
    }
    Ok(())
}

/// Puts the rows of the slices of a node after a text.
fn put_node_slices(alloc: Global, text: &mut Vec<u8>, node: &Node) -> Result<(), NoMemory>
    ensures { OnGiven result (text.new.items ≡ text.old.items ++ node_slices node.now) }
{
    match &node.form {
        Form::Map { cut, .. } => {
            put_each(alloc, text, cut.ins.as_slice())?;
            put_each(alloc, text, cut.outs.as_slice())
        }
        Form::Seq
        | Form::Comp
        | Form::Pipe
        | Form::Farm { .. }
        | Form::Reduce { .. }
        | Form::Loop { .. } => Ok(()),
    }
}

/// Puts the rows of the dimensions of a node's slices after a text.
fn put_node_dims(alloc: Global, text: &mut Vec<u8>, node: &Node) -> Result<(), NoMemory>
    ensures { OnGiven result (text.new.items ≡ text.old.items ++ node_dims node.now) }
{
    match &node.form {
        Form::Map { cut, .. } => {
            put_each_dims(alloc, text, cut.ins.as_slice())?;
            put_each_dims(alloc, text, cut.outs.as_slice())
        }
        Form::Seq
        | Form::Comp
        | Form::Pipe
        | Form::Farm { .. }
        | Form::Reduce { .. }
        | Form::Loop { .. } => Ok(()),
    }
}

/// Puts the rows of all slices after a text.
fn put_all_slices(alloc: Global, text: &mut Vec<u8>, nodes: &[Node]) -> Result<(), NoMemory>
    ensures { OnGiven result (text.new.items ≡ text.old.items ++ flat_map node_slices nodes.now) }
{
    for node in nodes {
        put_node_slices(alloc, text, node)?;
    }
    Ok(())
}

/// Puts the rows of the dimensions of all slices after a text.
fn put_all_dims(alloc: Global, text: &mut Vec<u8>, nodes: &[Node]) -> Result<(), NoMemory>
    ensures { OnGiven result (text.new.items ≡ text.old.items ++ flat_map node_dims nodes.now) }
{
    for node in nodes {
        put_node_dims(alloc, text, node)?;
    }
    Ok(())
}

/// Puts the table of the slices after a text.
#[tactic(auto, unfolding(crate::specs::Slices::slices_text))]
pub(crate) fn put_slices(alloc: Global, text: &mut Vec<u8>, nodes: &[Node]) -> Result<(), NoMemory>
    ensures { OnGiven result (text.new.items ≡ text.old.items ++ slices_text nodes.now) }
{
    let mut rows = Vec::new(alloc);
    put_all_slices(alloc, &mut rows, nodes)?;
    put_closed_table(
        alloc,
        text,
        "first word, dimensions: of the slices of each map, in and then out",
        "struct slice_row SLICE",
        rows.as_slice(),
        "{ 0, 0 }",
    )
}

/// Puts the table of the dimensions of the slices after a text.
#[tactic(auto, unfolding(crate::specs::Slices::dims_text))]
pub(crate) fn put_dims(alloc: Global, text: &mut Vec<u8>, nodes: &[Node]) -> Result<(), NoMemory>
    ensures { OnGiven result (text.new.items ≡ text.old.items ++ dims_text nodes.now) }
{
    let mut rows = Vec::new(alloc);
    put_all_dims(alloc, &mut rows, nodes)?;
    put_closed_table(
        alloc,
        text,
        "size, place: of the dimensions of each slice",
        "struct dim_row DIM",
        rows.as_slice(),
        "{ 0, PLACE_REST }",
    )
}
