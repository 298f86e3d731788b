// Reduces of each other skeleton that an operator can be: those that run in one process.

use crate::comparing::compare;
use crate::sketch::{ACROSS, JOIN, Row, Sketch, SketchForm, TWO};
use std::test::Fail;

const OF_COMP: [Row; 4] = [
    (SketchForm::Reduce(5, 1), 5, 1, &[1]),
    (SketchForm::Comp, 2, 1, &[2, 3]),
    TWO,
    JOIN,
];

const OF_MAP: [Row; 3] = [
    (SketchForm::Reduce(4, 2), 8, 2, &[1]),
    (ACROSS, 4, 2, &[2]),
    JOIN,
];

const OF_REDUCE: [Row; 3] = [
    (SketchForm::Reduce(5, 1), 5, 1, &[1]),
    (SketchForm::Reduce(2, 1), 2, 1, &[2]),
    JOIN,
];

const REDUCES: [Sketch; 3] = [
    ("reduce of comp", &OF_COMP, &[4]),
    ("reduce of map", &OF_MAP, &[2]),
    ("reduce of reduce", &OF_REDUCE, &[4]),
];

#[test]
fn reduces_are_as_the_plain_program(rt: HostRuntime) -> Result<(), Fail> {
    compare(&rt, rt.alloc(), &REDUCES)
}
