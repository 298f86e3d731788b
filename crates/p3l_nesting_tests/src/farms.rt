// Farms of each other skeleton.

use crate::comparing::compare;
use crate::sketch::{JOIN, JOINS, Row, Sketch, SketchForm, TEST, TWO};
use std::test::Fail;

const OF_FARM: [Row; 3] = [
    (SketchForm::Farm, 2, 2, &[1]),
    (SketchForm::Farm, 2, 2, &[2]),
    TWO,
];

const OF_MAP: [Row; 3] = [(SketchForm::Farm, 4, 2, &[1]), (JOINS, 4, 2, &[2]), JOIN];

const OF_REDUCE: [Row; 3] = [
    (SketchForm::Farm, 5, 1, &[1]),
    (SketchForm::Reduce(5, 1), 5, 1, &[2]),
    JOIN,
];

const OF_LOOP: [Row; 4] = [
    (SketchForm::Farm, 2, 2, &[1]),
    (SketchForm::Loop(12, 2), 2, 2, &[2, 3]),
    TWO,
    TEST,
];

const OF_PIPE: [Row; 4] = [
    (SketchForm::Farm, 2, 1, &[1]),
    (SketchForm::Pipe, 2, 1, &[2, 3]),
    TWO,
    JOIN,
];

const OF_COMP: [Row; 4] = [
    (SketchForm::Farm, 2, 1, &[1]),
    (SketchForm::Comp, 2, 1, &[2, 3]),
    TWO,
    JOIN,
];

const WITH_WORKERS: [Sketch; 3] = [
    ("farm of farm", &OF_FARM, &[2, 3]),
    ("farm of map", &OF_MAP, &[3, 2]),
    ("farm of reduce", &OF_REDUCE, &[2, 4]),
];

const WITHOUT: [Sketch; 3] = [
    ("farm of loop", &OF_LOOP, &[2]),
    ("farm of pipe", &OF_PIPE, &[3]),
    ("farm of comp", &OF_COMP, &[3]),
];

#[test]
fn farms_of_workers_are_as_the_plain_program(rt: HostRuntime) -> Result<(), Fail> {
    compare(&rt, rt.alloc(), &WITH_WORKERS)
}

#[test]
fn farms_are_as_the_plain_program(rt: HostRuntime) -> Result<(), Fail> {
    compare(&rt, rt.alloc(), &WITHOUT)
}
