// Maps of each other skeleton.

use crate::comparing::compare;
use crate::sketch::{FOLDS, HALVES, JOIN, JOINS, Row, Sketch, SketchForm, TEST, TWO, TWOS};
use std::test::Fail;

const OF_FARM: [Row; 3] = [(TWOS, 4, 4, &[1]), (SketchForm::Farm, 2, 2, &[2]), TWO];

const OF_MAP: [Row; 3] = [(HALVES, 8, 4, &[1]), (JOINS, 4, 2, &[2]), JOIN];

const OF_REDUCE: [Row; 3] = [
    (FOLDS, 8, 2, &[1]),
    (SketchForm::Reduce(4, 1), 4, 1, &[2]),
    JOIN,
];

const OF_LOOP: [Row; 4] = [
    (TWOS, 4, 4, &[1]),
    (SketchForm::Loop(12, 2), 2, 2, &[2, 3]),
    TWO,
    TEST,
];

const OF_PIPE: [Row; 4] = [
    (JOINS, 4, 2, &[1]),
    (SketchForm::Pipe, 2, 1, &[2, 3]),
    TWO,
    JOIN,
];

const OF_COMP: [Row; 4] = [
    (JOINS, 4, 2, &[1]),
    (SketchForm::Comp, 2, 1, &[2, 3]),
    TWO,
    JOIN,
];

const WITH_WORKERS: [Sketch; 3] = [
    ("map of farm", &OF_FARM, &[2, 3]),
    ("map of map", &OF_MAP, &[2, 2]),
    ("map of reduce", &OF_REDUCE, &[2, 4]),
];

const WITHOUT: [Sketch; 3] = [
    ("map of loop", &OF_LOOP, &[2]),
    ("map of pipe", &OF_PIPE, &[2]),
    ("map of comp", &OF_COMP, &[2]),
];

#[test]
fn maps_of_workers_are_as_the_plain_program(rt: HostRuntime) -> Result<(), Fail> {
    compare(&rt, rt.alloc(), &WITH_WORKERS)
}

#[test]
fn maps_are_as_the_plain_program(rt: HostRuntime) -> Result<(), Fail> {
    compare(&rt, rt.alloc(), &WITHOUT)
}
