// Trees as tables of rows, with their costs.

use p3l_base::{Dim, List, NoMemory, Place};
use p3l_cost::Costs;
use p3l_skel::{Form, Tree};
use p3l_sketch::{add_node, cut_of, no_nodes};
use std::alloc::Global;

/// Kinds of nodes. A map has `elements` in and out.
#[derive(Clone, Copy, Drop)]
pub enum RowForm {
    Seq,
    Comp,
    Pipe,
    Farm { workers: Option<u32> },
    Map { workers: Option<u32>, elements: u32 },
    Reduce { workers: Option<u32>, len: u32 },
    Loop { turns: u32 },
}

/// A node of a tree, in preorder: the row of the node that it is a part of, what it
/// does, its words, the ticks of a seq or the turns that are expected of a loop, and whether it lies
/// in a unit.
#[derive(Clone, Copy, Drop)]
pub struct Row {
    pub parent: u32,
    pub shape: RowForm,
    pub ins: u32,
    pub outs: u32,
    pub cost: u32,
    pub in_unit: bool,
}

/// A token of `w` words is taken or handed on in `setup + word * w` ticks.
#[derive(Clone, Copy, Drop)]
pub struct Tokens {
    pub setup: u32,
    pub word: u32,
}

/// A node outside units.
pub fn node(parent: u32, shape: RowForm, ins: u32, outs: u32) -> Row {
    Row {
        parent,
        shape,
        ins,
        outs,
        cost: 0,
        in_unit: false,
    }
}

/// A seq outside units.
pub fn seq(parent: u32, ins: u32, outs: u32, ticks: u32) -> Row {
    Row {
        parent,
        shape: RowForm::Seq,
        ins,
        outs,
        cost: ticks,
        in_unit: false,
    }
}

/// A loop outside units.
pub fn turning(parent: u32, turns: u32, words: u32, expected: u32) -> Row {
    Row {
        parent,
        shape: RowForm::Loop { turns },
        ins: words,
        outs: words,
        cost: expected,
        in_unit: false,
    }
}

/// The node in a unit.
pub fn in_unit(row: Row) -> Row {
    Row {
        parent: row.parent,
        shape: row.shape,
        ins: row.ins,
        outs: row.outs,
        cost: row.cost,
        in_unit: true,
    }
}

/// The number of the row at a place.
pub fn number_at(place: usize) -> u32 {
    u32::try_from(place).unwrap_or(u32::MAX)
}

// So many elements, as equal as the words allow.
fn array_of(elements: u32, words: u32) -> [Dim; 2] {
    [
        Dim {
            size: elements,
            place: Place::First,
        },
        Dim {
            size: words.checked_div(elements).unwrap_or(1),
            place: Place::Rest,
        },
    ]
}

fn map_of(alloc: Global, row: Row, workers: Option<u32>, elements: u32) -> Result<Form, NoMemory> {
    let ins = array_of(elements, row.ins);
    let outs = array_of(elements, row.outs);
    let cut = cut_of(alloc, elements, 1, &[(0, &ins)], &[(0, &outs)])?;
    Ok(Form::Map { workers, cut })
}

fn form_of(alloc: Global, row: Row) -> Result<Form, NoMemory> {
    match row.shape {
        RowForm::Seq => Ok(Form::Seq),
        RowForm::Comp => Ok(Form::Comp),
        RowForm::Pipe => Ok(Form::Pipe),
        RowForm::Farm { workers } => Ok(Form::Farm { workers }),
        RowForm::Map { workers, elements } => map_of(alloc, row, workers, elements),
        RowForm::Reduce { workers, len } => Ok(Form::Reduce {
            workers,
            len,
            elem: row.outs,
        }),
        RowForm::Loop { turns } => Ok(Form::Loop { turns, tokens: 4 }),
    }
}

// The rows that are parts of one.
fn parts_of(alloc: Global, rows: &[Row], number: u32) -> Result<List<u32>, NoMemory> {
    let mut parts = List::new(alloc);
    for (place, row) in rows.iter().enumerate() {
        if place > 0 && row.parent == number {
            parts.push(number_at(place))?;
        }
    }
    Ok(parts)
}

/// The tree of the rows, each of which is a node of a module of its own.
pub fn tree_of(alloc: Global, rows: &[Row]) -> Result<Tree, NoMemory> {
    let mut tree = no_nodes(alloc);
    for (place, row) in rows.iter().enumerate() {
        let form = form_of(alloc, *row)?;
        let parts = parts_of(alloc, rows, number_at(place))?;
        add_node(alloc, &mut tree, form, (row.ins, row.outs), parts, None)?;
    }
    Ok(tree)
}

fn ticks_of(row: Row) -> u32 {
    match row.shape {
        RowForm::Seq => row.cost,
        _ => 0,
    }
}

fn turns_of(row: Row) -> u32 {
    match row.shape {
        RowForm::Loop { .. } => row.cost,
        _ => 1,
    }
}

/// The costs of the rows.
pub fn costs_of(alloc: Global, rows: &[Row], tokens: Tokens) -> Result<Costs, NoMemory> {
    let mut ticks = List::new(alloc);
    let mut turns = List::new(alloc);
    for row in rows {
        ticks.push(ticks_of(*row))?;
        turns.push(turns_of(*row))?;
    }
    Ok(Costs {
        setup: tokens.setup,
        word: tokens.word,
        ticks,
        turns,
    })
}
