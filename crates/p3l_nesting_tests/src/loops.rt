// Loops whose body is each other skeleton, and whose condition is each that runs in one process.

use crate::comparing::compare;
use crate::sketch::{ACROSS, JOIN, ONE, ONES, Row, Sketch, SketchForm, TEST, TWO};
use p3l_base::{Dim, Place};
use p3l_sketch::Array;
use std::test::Fail;

const TURNING: SketchForm = SketchForm::Loop(12, 3);

const OF_FARM: [Row; 4] = [
    (TURNING, 2, 2, &[1, 3]),
    (SketchForm::Farm, 2, 2, &[2]),
    TWO,
    TEST,
];

const OF_MAP: [Row; 4] = [(TURNING, 2, 2, &[1, 3]), (ONES, 2, 2, &[2]), ONE, TEST];
// A reduce that gives as many words as it takes has one element.
const OF_REDUCE: [Row; 5] = [
    (TURNING, 2, 2, &[1, 4]),
    (SketchForm::Reduce(1, 2), 2, 2, &[2]),
    (ACROSS, 4, 2, &[3]),
    JOIN,
    TEST,
];

const OF_LOOP: [Row; 7] = [
    (TURNING, 2, 2, &[1, 4]),
    (SketchForm::Loop(12, 2), 2, 2, &[2, 3]),
    TWO,
    TEST,
    (SketchForm::Comp, 2, 1, &[5, 6]),
    TWO,
    TEST,
];

const OF_PIPE: [Row; 5] = [
    (TURNING, 2, 2, &[1, 4]),
    (SketchForm::Pipe, 2, 2, &[2, 3]),
    TWO,
    TWO,
    TEST,
];

const OF_COMP: [Row; 5] = [
    (TURNING, 2, 2, &[1, 4]),
    (SketchForm::Comp, 2, 2, &[2, 3]),
    TWO,
    TWO,
    TEST,
];

const WITH_WORKERS: [Sketch; 3] = [
    ("loop of farm", &OF_FARM, &[2]),
    ("loop of map", &OF_MAP, &[2]),
    ("loop of reduce", &OF_REDUCE, &[1]),
];

const WITHOUT: [Sketch; 3] = [
    ("loop of loop", &OF_LOOP, &[]),
    ("loop of pipe", &OF_PIPE, &[]),
    ("loop of comp", &OF_COMP, &[]),
];

// A map of one element, of two words.
const ONLY: Dim = Dim {
    size: 1,
    place: Place::First,
};

const PAIR: Dim = Dim {
    size: 2,
    place: Place::Rest,
};

const TAKEN: [Array; 1] = [(0, &[ONLY, PAIR])];

const FILLED: [Array; 1] = [(0, &[ONLY])];

const BY_COMP: [Row; 5] = [
    (TURNING, 2, 2, &[1, 2]),
    TWO,
    (SketchForm::Comp, 2, 1, &[3, 4]),
    TWO,
    TEST,
];

const BY_MAP: [Row; 4] = [
    (TURNING, 2, 2, &[1, 2]),
    TWO,
    (SketchForm::Map(1, 1, &TAKEN, &FILLED), 2, 1, &[3]),
    TEST,
];

const BY_REDUCE: [Row; 4] = [
    (TURNING, 2, 2, &[1, 2]),
    TWO,
    (SketchForm::Reduce(2, 1), 2, 1, &[3]),
    TEST,
];

const CONDITIONS: [Sketch; 3] = [
    ("loop by comp", &BY_COMP, &[]),
    ("loop by map", &BY_MAP, &[]),
    ("loop by reduce", &BY_REDUCE, &[]),
];

#[test]
fn loops_of_workers_are_as_the_plain_program(rt: HostRuntime) -> Result<(), Fail> {
    compare(&rt, rt.alloc(), &WITH_WORKERS)
}

#[test]
fn loops_are_as_the_plain_program(rt: HostRuntime) -> Result<(), Fail> {
    compare(&rt, rt.alloc(), &WITHOUT)
}

#[test]
fn conditions_are_as_the_plain_program(rt: HostRuntime) -> Result<(), Fail> {
    compare(&rt, rt.alloc(), &CONDITIONS)
}
