// Nets of skeletons in others. Each node has its channels and processes first, then its parts in
// order, each whole.

use crate::expected::{Expected, compare};
use p3l_base::{Dim, Place};
use p3l_sketch::{Array, NodeForm, Row};
use std::test::Fail;

const OF_TWO: Dim = Dim {
    size: 2,
    place: Place::First,
};

const TWO_WORDS: Dim = Dim {
    size: 2,
    place: Place::Rest,
};

const FOUR_WORDS: Dim = Dim {
    size: 4,
    place: Place::Rest,
};

// Two elements, of a word each, of two and of four.
const SINGLES: [Array; 1] = [(0, &[OF_TWO])];

const PAIRS: [Array; 1] = [(0, &[OF_TWO, TWO_WORDS])];

const FOURS: [Array; 1] = [(0, &[OF_TWO, FOUR_WORDS])];

const HALVES: NodeForm = NodeForm::Map(None, 2, 1, &FOURS, &PAIRS);

const JOINS: NodeForm = NodeForm::Map(None, 2, 1, &PAIRS, &SINGLES);

// Nodes of `seq` modules: of two words for two, and of two for one.
const TWO: Row = (NodeForm::Seq, 2, 2, &[]);

const JOIN: Row = (NodeForm::Seq, 2, 1, &[]);

const FARM_OF_FARM: [Row; 3] = [
    (NodeForm::Farm(None), 2, 2, &[1]),
    (NodeForm::Farm(None), 2, 2, &[2]),
    TWO,
];

const MAP_OF_MAP: [Row; 3] = [(HALVES, 8, 4, &[1]), (JOINS, 4, 2, &[2]), JOIN];

const FARM_OF_REDUCE: [Row; 3] = [
    (NodeForm::Farm(None), 5, 1, &[1]),
    (NodeForm::Reduce(None, 5, 1), 5, 1, &[2]),
    JOIN,
];

const FARM_OF_LOOP: [Row; 4] = [
    (NodeForm::Farm(None), 2, 2, &[1]),
    (NodeForm::Loop(12, 2), 2, 2, &[2, 3]),
    TWO,
    JOIN,
];

const PIPE_OF_PIPE: [Row; 5] = [
    (NodeForm::Pipe, 2, 1, &[1, 4]),
    (NodeForm::Pipe, 2, 2, &[2, 3]),
    TWO,
    TWO,
    JOIN,
];

const LOOP_OF_LOOP: [Row; 7] = [
    (NodeForm::Loop(12, 3), 2, 2, &[1, 4]),
    (NodeForm::Loop(12, 2), 2, 2, &[2, 3]),
    TWO,
    JOIN,
    (NodeForm::Comp, 2, 1, &[5, 6]),
    TWO,
    JOIN,
];

const COMP_OF_MAP: [Row; 4] = [
    (NodeForm::Comp, 4, 1, &[1, 3]),
    (JOINS, 4, 2, &[2]),
    JOIN,
    JOIN,
];

const LOOP_BY_REDUCE: [Row; 4] = [
    (NodeForm::Loop(12, 3), 2, 2, &[1, 2]),
    TWO,
    (NodeForm::Reduce(None, 2, 1), 2, 1, &[3]),
    JOIN,
];

const FARMS: &str = "Source 0 0 [] [0]\n\
     Sink 0 0 [1] []\n\
     Emit 0 0 [0] [2, 3]\n\
     Collect 0 0 [4, 5] [1]\n\
     Emit 1 0 [2] [6, 7]\n\
     Collect 1 0 [8, 9] [4]\n\
     Run 2 0 [6] [8]\n\
     Run 2 0 [7] [9]\n\
     Emit 1 0 [3] [10, 11]\n\
     Collect 1 0 [12, 13] [5]\n\
     Run 2 0 [10] [12]\n\
     Run 2 0 [11] [13]\n\
     channels 1+0 1+0 1+0 1+0 1+0 1+0 1+0 1+0 1+0 1+0 1+0 1+0 1+0 1+0";

const MAPS: &str = "Source 0 0 [] [0]\n\
     Sink 0 0 [1] []\n\
     Scatter 0 0 [0] [2, 3]\n\
     Gather 0 0 [4, 5] [1]\n\
     Scatter 1 0 [2] [6]\n\
     Gather 1 0 [7] [4]\n\
     Run 2 0 [6] [7]\n\
     Scatter 1 0 [3] [8]\n\
     Gather 1 0 [9] [5]\n\
     Run 2 0 [8] [9]\n\
     channels 4+0 4+0 4+0 4+0 4+0 4+0 4+0 4+0 4+0 4+0";

// The segments have two and three elements.
const REDUCES: &str = "Source 0 0 [] [0]\n\
     Sink 0 0 [1] []\n\
     Emit 0 0 [0] [2, 3]\n\
     Collect 0 0 [4, 5] [1]\n\
     Split 1 0 [2] [6, 7]\n\
     Join 1 0 [8, 9] [4]\n\
     Run 1 2 [6] [8]\n\
     Run 1 3 [7] [9]\n\
     Split 1 0 [3] [10, 11]\n\
     Join 1 0 [12, 13] [5]\n\
     Run 1 2 [10] [12]\n\
     Run 1 3 [11] [13]\n\
     channels 1+0 1+0 1+0 1+0 1+0 1+0 1+0 1+0 1+0 1+0 1+0 1+0 1+0 1+0";

// Each copy has its own way back and its own credits.
const LOOPS: &str = "Source 0 0 [] [0]\n\
     Sink 0 0 [1] []\n\
     Emit 0 0 [0] [2, 3]\n\
     Collect 0 0 [4, 5] [1]\n\
     Head 1 0 [2, 8, 9] [6]\n\
     Tail 1 0 [7] [4, 8, 9]\n\
     Run 2 0 [6] [7]\n\
     Head 1 0 [3, 12, 13] [10]\n\
     Tail 1 0 [11] [5, 12, 13]\n\
     Run 2 0 [10] [11]\n\
     channels 1+0 1+0 1+0 1+0 1+0 1+0 1+0 1+0 2+0 2+2 1+0 1+0 2+0 2+2";

// Channel 2 is the outer pipe's, and 3 the inner one's.
const STAGES: &str = "Source 0 0 [] [0]\n\
     Sink 0 0 [1] []\n\
     Run 2 0 [0] [3]\n\
     Run 3 0 [3] [2]\n\
     Run 4 0 [2] [1]\n\
     channels 2+0 2+0 2+0 2+0";

const TURNS: &str = "Source 0 0 [] [0]\n\
     Sink 0 0 [1] []\n\
     Head 0 0 [0, 4, 5] [2]\n\
     Tail 0 0 [3] [1, 4, 5]\n\
     Head 1 0 [2, 8, 9] [6]\n\
     Tail 1 0 [7] [3, 8, 9]\n\
     Run 2 0 [6] [7]\n\
     channels 4+0 4+0 4+0 4+0 3+0 3+3 4+0 4+0 2+0 2+2";

// The parts of a unit place nothing, and neither does a condition.
const UNIT: &str = "Source 0 0 [] [0]\n\
     Sink 0 0 [1] []\n\
     Run 0 0 [0] [1]\n\
     channels 4+0 4+0";

const CONDITION: &str = "Source 0 0 [] [0]\n\
     Sink 0 0 [1] []\n\
     Head 0 0 [0, 4, 5] [2]\n\
     Tail 0 0 [3] [1, 4, 5]\n\
     Run 1 0 [2] [3]\n\
     channels 2+0 2+0 2+0 2+0 3+0 3+3";

const COPIES: [Expected; 4] = [
    (&FARM_OF_FARM, &[2, 2], 1, FARMS),
    (&MAP_OF_MAP, &[2, 1], 4, MAPS),
    (&FARM_OF_REDUCE, &[2, 2], 1, REDUCES),
    (&FARM_OF_LOOP, &[2], 1, LOOPS),
];

const PARTS: [Expected; 4] = [
    (&PIPE_OF_PIPE, &[], 2, STAGES),
    (&LOOP_OF_LOOP, &[], 4, TURNS),
    (&COMP_OF_MAP, &[], 4, UNIT),
    (&LOOP_BY_REDUCE, &[], 2, CONDITION),
];

#[test]
fn each_copy_is_whole(rt: HostRuntime) -> Result<(), Fail> {
    compare(&rt, rt.alloc(), &COPIES)
}

#[test]
fn parts_stand_after_their_node(rt: HostRuntime) -> Result<(), Fail> {
    compare(&rt, rt.alloc(), &PARTS)
}
