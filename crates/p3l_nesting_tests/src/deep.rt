// Skeletons nested three to six deep.

use crate::comparing::compare;
use crate::sketch::{FOLDS, JOIN, ONE, ONES, Row, Sketch, SketchForm, TEST, TWO, TWOS};
use std::test::Fail;

// A pipe of a farm of a loop of a map of a pipe: the six levels that there may be.
const SIX: [Row; 9] = [
    (SketchForm::Pipe, 2, 1, &[1, 8]),
    (SketchForm::Farm, 2, 2, &[2]),
    (SketchForm::Loop(12, 2), 2, 2, &[3, 7]),
    (ONES, 2, 2, &[4]),
    (SketchForm::Pipe, 1, 1, &[5, 6]),
    ONE,
    ONE,
    TEST,
    JOIN,
];
// A map of a farm of a pipe of a loop.
const COPIES: [Row; 7] = [
    (TWOS, 4, 4, &[1]),
    (SketchForm::Farm, 2, 2, &[2]),
    (SketchForm::Pipe, 2, 2, &[3, 6]),
    (SketchForm::Loop(12, 2), 2, 2, &[4, 5]),
    TWO,
    TEST,
    TWO,
];
// A loop of a farm of a map of a farm.
const WORKERS: [Row; 6] = [
    (SketchForm::Loop(12, 4), 2, 2, &[1, 5]),
    (SketchForm::Farm, 2, 2, &[2]),
    (ONES, 2, 2, &[3]),
    (SketchForm::Farm, 1, 1, &[4]),
    ONE,
    TEST,
];
// A pipe of a map of a reduce, and of a farm of a reduce of a comp.
const SEGMENTS: [Row; 9] = [
    (SketchForm::Pipe, 8, 1, &[1, 4]),
    (FOLDS, 8, 2, &[2]),
    (SketchForm::Reduce(4, 1), 4, 1, &[3]),
    JOIN,
    (SketchForm::Farm, 2, 1, &[5]),
    (SketchForm::Reduce(2, 1), 2, 1, &[6]),
    (SketchForm::Comp, 2, 1, &[7, 8]),
    TWO,
    JOIN,
];

const DEEP: [Sketch; 2] = [("six levels", &SIX, &[2, 2]), ("copies", &COPIES, &[2, 2])];

const WIDE: [Sketch; 2] = [
    ("workers of workers", &WORKERS, &[2, 2, 2]),
    ("segments", &SEGMENTS, &[2, 4, 2, 2]),
];

#[test]
fn deep_trees_are_as_the_plain_program(rt: HostRuntime) -> Result<(), Fail> {
    compare(&rt, rt.alloc(), &DEEP)
}

#[test]
fn wide_trees_are_as_the_plain_program(rt: HostRuntime) -> Result<(), Fail> {
    compare(&rt, rt.alloc(), &WIDE)
}
