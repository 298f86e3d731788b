// Comps of each other skeleton that a stage of one can be: those that run in one process.

use crate::comparing::compare;
use crate::sketch::{JOIN, JOINS, ONE, Row, Sketch, SketchForm, TWO};
use std::test::Fail;

const OF_COMP: [Row; 5] = [
    (SketchForm::Comp, 2, 1, &[1, 4]),
    (SketchForm::Comp, 2, 2, &[2, 3]),
    TWO,
    TWO,
    JOIN,
];

const OF_MAP: [Row; 4] = [
    (SketchForm::Comp, 4, 1, &[1, 3]),
    (JOINS, 4, 2, &[2]),
    JOIN,
    JOIN,
];

const OF_REDUCE: [Row; 4] = [
    (SketchForm::Comp, 4, 1, &[1, 3]),
    (SketchForm::Reduce(4, 1), 4, 1, &[2]),
    JOIN,
    ONE,
];

const COMPS: [Sketch; 3] = [
    ("comp of comp", &OF_COMP, &[]),
    ("comp of map", &OF_MAP, &[]),
    ("comp of reduce", &OF_REDUCE, &[]),
];

#[test]
fn comps_are_as_the_plain_program(rt: HostRuntime) -> Result<(), Fail> {
    compare(&rt, rt.alloc(), &COMPS)
}
