// Skeletons inside others.

use crate::expected::{Expected, compare};
use crate::maps::MAP_OF_PAIRS;
use p3l_sketch::{NodeForm, Row};
use std::test::Fail;

const FARM_IN_PIPE: [Row; 4] = [
    (NodeForm::Pipe, 1, 1, &[1, 2]),
    (NodeForm::Seq, 1, 1, &[]),
    (NodeForm::Farm(None), 1, 1, &[3]),
    (NodeForm::Seq, 1, 1, &[]),
];

const STAGE: Expected = (
    &FARM_IN_PIPE,
    &[5],
    4,
    "Source 0 0 [] [0]\n\
     Sink 0 0 [1] []\n\
     Run 1 0 [0] [2]\n\
     Emit 2 0 [2] [3, 4, 5, 6, 7]\n\
     Collect 2 0 [8, 9, 10, 11, 12] [1]\n\
     Run 3 0 [3] [8]\n\
     Run 3 0 [4] [9]\n\
     Run 3 0 [5] [10]\n\
     Run 3 0 [6] [11]\n\
     Run 3 0 [7] [12]\n\
     channels 4+0 4+0 4+0 4+0 4+0 4+0 4+0 4+0 4+0 4+0 4+0 4+0 4+0",
);

#[test]
fn a_farm_is_a_stage(rt: HostRuntime) -> Result<(), Fail> {
    compare(&rt, rt.alloc(), &[STAGE])
}

const FARM_IN_LOOP: [Row; 4] = [
    (NodeForm::Loop(10, 4), 2, 2, &[1, 3]),
    (NodeForm::Farm(Some(2)), 2, 2, &[2]),
    (NodeForm::Seq, 2, 2, &[]),
    (NodeForm::Seq, 2, 1, &[]),
];

const BODY: Expected = (
    &FARM_IN_LOOP,
    &[2],
    1,
    "Source 0 0 [] [0]\n\
     Sink 0 0 [1] []\n\
     Head 0 0 [0, 4, 5] [2]\n\
     Tail 0 0 [3] [1, 4, 5]\n\
     Emit 1 0 [2] [6, 7]\n\
     Collect 1 0 [8, 9] [3]\n\
     Run 2 0 [6] [8]\n\
     Run 2 0 [7] [9]\n\
     channels 1+0 1+0 1+0 1+0 4+0 4+4 1+0 1+0 1+0 1+0",
);

#[test]
fn a_farm_is_the_body_of_a_loop(rt: HostRuntime) -> Result<(), Fail> {
    compare(&rt, rt.alloc(), &[BODY])
}

const PIPE_IN_MAP: [Row; 5] = [
    (MAP_OF_PAIRS, 8, 4, &[1]),
    (NodeForm::Pipe, 2, 1, &[2, 4]),
    (NodeForm::Reduce(None, 2, 1), 2, 1, &[3]),
    (NodeForm::Seq, 2, 1, &[]),
    (NodeForm::Seq, 1, 1, &[]),
];

// The map's channels are 2 to 5. The first copy of the pipe has channel 6 between its stages, and its
// reduce 7 and 8 to the segments and 9 and 10 from them; the second has 11, and 12 to 15.
const COPIES: Expected = (
    &PIPE_IN_MAP,
    &[2, 2],
    2,
    "Source 0 0 [] [0]\n\
     Sink 0 0 [1] []\n\
     Scatter 0 0 [0] [2, 3]\n\
     Gather 0 0 [4, 5] [1]\n\
     Split 2 0 [2] [7, 8]\n\
     Join 2 0 [9, 10] [6]\n\
     Run 2 1 [7] [9]\n\
     Run 2 1 [8] [10]\n\
     Run 4 0 [6] [4]\n\
     Split 2 0 [3] [12, 13]\n\
     Join 2 0 [14, 15] [11]\n\
     Run 2 1 [12] [14]\n\
     Run 2 1 [13] [15]\n\
     Run 4 0 [11] [5]\n\
     channels 2+0 2+0 2+0 2+0 2+0 2+0 2+0 2+0 2+0 2+0 2+0 2+0 2+0 2+0 2+0 2+0",
);

#[test]
fn copies_of_a_part_stand_one_after_the_other(rt: HostRuntime) -> Result<(), Fail> {
    compare(&rt, rt.alloc(), &[COPIES])
}
