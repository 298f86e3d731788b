// The trees and codes of sketches.

use crate::bodies::code_of;
use crate::sketch::{Row, SketchForm};
use p3l_base::{List, NoMemory};
use p3l_code::Code;
use p3l_skel::Tree;
use p3l_sketch::{NodeForm as Bare, add_row, no_nodes};
use std::alloc::Global;

// Returns what a node does, without its body and its rescue number.
fn bare(shape: SketchForm) -> Bare {
    match shape {
        SketchForm::Seq(_) | SketchForm::RescuedSeq(..) => Bare::Seq,
        SketchForm::Comp | SketchForm::RescuedComp(_) => Bare::Comp,
        SketchForm::Pipe => Bare::Pipe,
        SketchForm::Farm => Bare::Farm(None),
        SketchForm::Map(first, second, ins, outs) => Bare::Map(None, first, second, ins, outs),
        SketchForm::Reduce(len, elem) => Bare::Reduce(None, len, elem),
        SketchForm::Loop(turns, tokens) => Bare::Loop(turns, tokens),
    }
}

// The rescue number of the module of a node.
fn rescue_of(shape: SketchForm) -> Option<i64> {
    match shape {
        SketchForm::RescuedSeq(_, number) | SketchForm::RescuedComp(number) => Some(number),
        _ => None,
    }
}

/// The tree of these rows.
pub fn tree_of(alloc: Global, rows: &[Row]) -> Result<Tree, NoMemory> {
    let mut tree = no_nodes(alloc);
    for (shape, ins, outs, parts) in rows {
        let row = (bare(*shape), *ins, *outs, *parts);
        add_row(alloc, &mut tree, row, rescue_of(*shape))?;
    }
    Ok(tree)
}

/// The codes of the `seq` modules of these rows.
pub fn codes_of(alloc: Global, rows: &[Row]) -> Result<List<Code>, NoMemory> {
    let mut codes = List::new(alloc);
    for row in rows {
        if let SketchForm::Seq(body) | SketchForm::RescuedSeq(body, _) = row.0 {
            codes.push(code_of(alloc, body)?)?;
        }
    }
    Ok(codes)
}
