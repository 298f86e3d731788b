// Pipes of each other skeleton.

use crate::comparing::compare;
use crate::sketch::{JOIN, JOINS, ONE, Row, Sketch, SketchForm, TEST, TWO};
use std::test::Fail;

const OF_FARM: [Row; 5] = [
    (SketchForm::Pipe, 2, 1, &[1, 2, 4]),
    TWO,
    (SketchForm::Farm, 2, 2, &[3]),
    TWO,
    JOIN,
];

const OF_MAP: [Row; 4] = [
    (SketchForm::Pipe, 4, 1, &[1, 3]),
    (JOINS, 4, 2, &[2]),
    JOIN,
    JOIN,
];

const OF_REDUCE: [Row; 4] = [
    (SketchForm::Pipe, 4, 1, &[1, 3]),
    (SketchForm::Reduce(4, 1), 4, 1, &[2]),
    JOIN,
    ONE,
];

const OF_LOOP: [Row; 6] = [
    (SketchForm::Pipe, 2, 1, &[1, 2, 5]),
    TWO,
    (SketchForm::Loop(12, 2), 2, 2, &[3, 4]),
    TWO,
    TEST,
    JOIN,
];

const OF_PIPE: [Row; 5] = [
    (SketchForm::Pipe, 2, 1, &[1, 4]),
    (SketchForm::Pipe, 2, 2, &[2, 3]),
    TWO,
    TWO,
    JOIN,
];

const OF_COMP: [Row; 5] = [
    (SketchForm::Pipe, 2, 1, &[1, 4]),
    (SketchForm::Comp, 2, 2, &[2, 3]),
    TWO,
    TWO,
    JOIN,
];

const WITH_WORKERS: [Sketch; 3] = [
    ("pipe of farm", &OF_FARM, &[3]),
    ("pipe of map", &OF_MAP, &[2]),
    ("pipe of reduce", &OF_REDUCE, &[4]),
];

const WITHOUT: [Sketch; 3] = [
    ("pipe of loop", &OF_LOOP, &[]),
    ("pipe of pipe", &OF_PIPE, &[]),
    ("pipe of comp", &OF_COMP, &[]),
];

#[test]
fn pipes_of_workers_are_as_the_plain_program(rt: HostRuntime) -> Result<(), Fail> {
    compare(&rt, rt.alloc(), &WITH_WORKERS)
}

#[test]
fn pipes_are_as_the_plain_program(rt: HostRuntime) -> Result<(), Fail> {
    compare(&rt, rt.alloc(), &WITHOUT)
}
