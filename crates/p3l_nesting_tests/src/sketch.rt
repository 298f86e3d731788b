// Trees as tables, a row for each node in preorder. Each node is a module of its own, so that a
// trap names the node that it came from.

use crate::bodies::Body;
use p3l_base::{Dim, Place};
use p3l_sketch::Array;

/// Kinds of nodes. No `workers` clause is written: the counts are beside the rows.
#[derive(Clone, Copy, Drop)]
pub enum SketchForm {
    Seq(Body),
    Comp,
    /// A seq and a comp whose modules have this rescue number.
    RescuedSeq(Body, i64),
    RescuedComp(i64),
    Pipe,
    Farm,
    /// The numbers of first and of second indices, and the arrays that are taken apart and filled.
    Map(u32, u32, &'static [Array], &'static [Array]),
    /// The number of elements, and the words of each.
    Reduce(u32, u32),
    /// The turns, and the tokens at once.
    Loop(u32, u32),
}

/// A node: what it does, the words that it takes and gives, and its parts.
pub type Row = (SketchForm, u32, u32, &'static [u32]);

/// A tree: its name in messages, its nodes, and the numbers of its workers.
pub type Sketch = (&'static str, &'static [Row], &'static [u32]);

// Nodes of `seq` modules.
pub const ONE: Row = (SketchForm::Seq(Body::One), 1, 1, &[]);

pub const TWO: Row = (SketchForm::Seq(Body::Two), 2, 2, &[]);

pub const JOIN: Row = (SketchForm::Seq(Body::Join), 2, 1, &[]);

pub const TEST: Row = (SketchForm::Seq(Body::Test), 2, 1, &[]);

// Sizes of arrays of two rows, and of their rows.
const OF_TWO: Dim = Dim {
    size: 2,
    place: Place::First,
};

const ALL_TWO: Dim = Dim {
    size: 2,
    place: Place::Rest,
};

const ALL_FOUR: Dim = Dim {
    size: 4,
    place: Place::Rest,
};

const SINGLES: [Array; 1] = [(0, &[OF_TWO])];

const PAIRS: [Array; 1] = [(0, &[OF_TWO, ALL_TWO])];

const FOURS: [Array; 1] = [(0, &[OF_TWO, ALL_FOUR])];

const COLUMNS: [Array; 1] = [(0, &[ALL_TWO, OF_TWO])];

/// Maps of two elements: of a word each, of two words, of two words for one, of four words for two,
/// and of four words for one.
pub const ONES: SketchForm = SketchForm::Map(2, 1, &SINGLES, &SINGLES);

pub const TWOS: SketchForm = SketchForm::Map(2, 1, &PAIRS, &PAIRS);

pub const JOINS: SketchForm = SketchForm::Map(2, 1, &PAIRS, &SINGLES);

pub const HALVES: SketchForm = SketchForm::Map(2, 1, &FOURS, &PAIRS);

pub const FOLDS: SketchForm = SketchForm::Map(2, 1, &FOURS, &SINGLES);

/// A map of two elements, each of a word of the first half and the one beside it in the second.
pub const ACROSS: SketchForm = SketchForm::Map(2, 1, &COLUMNS, &SINGLES);
