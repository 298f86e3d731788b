// Each skeleton alone.

use crate::expected::{Expected, compare};
use crate::maps::MAP_OF_WORDS;
use p3l_sketch::{NodeForm, Row};
use std::test::Fail;

const SEQ: [Row; 1] = [(NodeForm::Seq, 1, 1, &[])];

const COMP: [Row; 3] = [
    (NodeForm::Comp, 1, 1, &[1, 2]),
    (NodeForm::Seq, 1, 2, &[]),
    (NodeForm::Seq, 2, 1, &[]),
];

const REDUCE: [Row; 2] = [
    (NodeForm::Reduce(None, 5, 1), 5, 1, &[1]),
    (NodeForm::Seq, 2, 1, &[]),
];

const ONE_PROCESS: &str = "Source 0 0 [] [0]\n\
     Sink 0 0 [1] []\n\
     Run 0 0 [0] [1]\n\
     channels 4+0 4+0";

const UNITS: [Expected; 3] = [
    (&SEQ, &[], 4, ONE_PROCESS),
    (&COMP, &[], 4, ONE_PROCESS),
    (&REDUCE, &[1], 4, ONE_PROCESS),
];

#[test]
fn a_unit_is_one_process(rt: HostRuntime) -> Result<(), Fail> {
    compare(&rt, rt.alloc(), &UNITS)
}

const PIPE: [Row; 4] = [
    (NodeForm::Pipe, 1, 1, &[1, 2, 3]),
    (NodeForm::Seq, 1, 2, &[]),
    (NodeForm::Seq, 2, 3, &[]),
    (NodeForm::Seq, 3, 1, &[]),
];

const STAGES: Expected = (
    &PIPE,
    &[],
    2,
    "Source 0 0 [] [0]\n\
     Sink 0 0 [1] []\n\
     Run 1 0 [0] [2]\n\
     Run 2 0 [2] [3]\n\
     Run 3 0 [3] [1]\n\
     channels 2+0 2+0 2+0 2+0",
);

#[test]
fn a_pipe_has_a_channel_between_two_stages(rt: HostRuntime) -> Result<(), Fail> {
    compare(&rt, rt.alloc(), &[STAGES])
}

const FARM: [Row; 2] = [
    (NodeForm::Farm(None), 1, 1, &[1]),
    (NodeForm::Seq, 1, 1, &[]),
];

const MAP: [Row; 2] = [(MAP_OF_WORDS, 4, 4, &[1]), (NodeForm::Seq, 1, 1, &[])];

const WORKERS: [Expected; 2] = [
    (
        &FARM,
        &[2],
        1,
        "Source 0 0 [] [0]\n\
         Sink 0 0 [1] []\n\
         Emit 0 0 [0] [2, 3]\n\
         Collect 0 0 [4, 5] [1]\n\
         Run 1 0 [2] [4]\n\
         Run 1 0 [3] [5]\n\
         channels 1+0 1+0 1+0 1+0 1+0 1+0",
    ),
    (
        &MAP,
        &[2],
        1,
        "Source 0 0 [] [0]\n\
         Sink 0 0 [1] []\n\
         Scatter 0 0 [0] [2, 3]\n\
         Gather 0 0 [4, 5] [1]\n\
         Run 1 0 [2] [4]\n\
         Run 1 0 [3] [5]\n\
         channels 1+0 1+0 1+0 1+0 1+0 1+0",
    ),
];

#[test]
fn workers_stand_between_two_processes(rt: HostRuntime) -> Result<(), Fail> {
    compare(&rt, rt.alloc(), &WORKERS)
}

const REDUCE_OF_FOUR: [Row; 2] = [
    (NodeForm::Reduce(Some(4), 5, 1), 5, 1, &[1]),
    (NodeForm::Seq, 2, 1, &[]),
];

// The segments have 1, 1, 1 and 2 elements; their channels are 2 to 5, and those of the places 2 to 7
// are 6 to 11.
const SEGMENTS: Expected = (
    &REDUCE_OF_FOUR,
    &[4],
    4,
    "Source 0 0 [] [0]\n\
     Sink 0 0 [1] []\n\
     Split 0 0 [0] [2, 3, 4, 5]\n\
     Join 0 0 [6, 7] [1]\n\
     Join 0 0 [8, 9] [6]\n\
     Join 0 0 [10, 11] [7]\n\
     Run 0 1 [2] [8]\n\
     Run 0 1 [3] [9]\n\
     Run 0 1 [4] [10]\n\
     Run 0 2 [5] [11]\n\
     channels 4+0 4+0 4+0 4+0 4+0 4+0 4+0 4+0 4+0 4+0 4+0 4+0",
);

#[test]
fn segments_are_joined_two_by_two(rt: HostRuntime) -> Result<(), Fail> {
    compare(&rt, rt.alloc(), &[SEGMENTS])
}

const LOOP: [Row; 3] = [
    (NodeForm::Loop(10, 3), 2, 2, &[1, 2]),
    (NodeForm::Seq, 2, 2, &[]),
    (NodeForm::Seq, 2, 1, &[]),
];

const WAY_BACK: Expected = (
    &LOOP,
    &[],
    1,
    "Source 0 0 [] [0]\n\
     Sink 0 0 [1] []\n\
     Head 0 0 [0, 4, 5] [2]\n\
     Tail 0 0 [3] [1, 4, 5]\n\
     Run 1 0 [2] [3]\n\
     channels 1+0 1+0 1+0 1+0 3+0 3+3",
);

#[test]
fn a_loop_has_a_way_back_and_credits(rt: HostRuntime) -> Result<(), Fail> {
    compare(&rt, rt.alloc(), &[WAY_BACK])
}
