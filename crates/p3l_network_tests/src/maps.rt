// Maps over four pieces of one array, for a word each.

use p3l_base::{Dim, Place};
use p3l_sketch::{Array, NodeForm};

const FOUR: Dim = Dim {
    size: 4,
    place: Place::First,
};

const ONE: Dim = Dim {
    size: 1,
    place: Place::Rest,
};

const TWO: Dim = Dim {
    size: 2,
    place: Place::Rest,
};

const WORDS: [Array; 1] = [(0, &[FOUR, ONE])];

const PAIRS: [Array; 1] = [(0, &[FOUR, TWO])];

/// Of pieces of one word.
pub const MAP_OF_WORDS: NodeForm = NodeForm::Map(None, 4, 1, &WORDS, &WORDS);

/// Of pieces of two words.
pub const MAP_OF_PAIRS: NodeForm = NodeForm::Map(None, 4, 1, &PAIRS, &WORDS);
