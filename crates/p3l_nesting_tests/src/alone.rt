// Each skeleton alone.

use crate::comparing::compare;
use crate::sketch::{JOIN, ONE, Row, Sketch, SketchForm, TEST, TWO};
use p3l_base::{Dim, Place};
use p3l_sketch::Array;
use std::test::Fail;

const SEQ: [Row; 1] = [TWO];

const COMP: [Row; 3] = [(SketchForm::Comp, 2, 1, &[1, 2]), TWO, JOIN];

const PIPE: [Row; 4] = [(SketchForm::Pipe, 2, 1, &[1, 2, 3]), TWO, TWO, JOIN];

const FARM: [Row; 2] = [(SketchForm::Farm, 2, 2, &[1]), TWO];

const REDUCE: [Row; 2] = [(SketchForm::Reduce(5, 1), 5, 1, &[1]), JOIN];

const LOOP: [Row; 3] = [(SketchForm::Loop(12, 3), 2, 2, &[1, 2]), TWO, TEST];

const LOOP_OF_ONE_TOKEN: [Row; 3] = [(SketchForm::Loop(12, 1), 2, 2, &[1, 2]), TWO, TEST];

const FOUR: Dim = Dim {
    size: 4,
    place: Place::First,
};

const PAIR: Dim = Dim {
    size: 2,
    place: Place::Rest,
};

const PAIRS: [Array; 1] = [(0, &[FOUR, PAIR])];

const SINGLES: [Array; 1] = [(0, &[FOUR])];

const MAP: [Row; 2] = [(SketchForm::Map(4, 1, &PAIRS, &SINGLES), 8, 4, &[1]), JOIN];

// A matrix that is turned over.
const ROW: Dim = Dim {
    size: 3,
    place: Place::First,
};

const COLUMN: Dim = Dim {
    size: 2,
    place: Place::Second,
};

const TAKEN: [Array; 1] = [(0, &[COLUMN, ROW])];

const FILLED: [Array; 1] = [(0, &[ROW, COLUMN])];

const MATRIX: [Row; 2] = [(SketchForm::Map(3, 2, &TAKEN, &FILLED), 6, 6, &[1]), ONE];

const UNITS: [Sketch; 3] = [
    ("seq", &SEQ, &[]),
    ("comp", &COMP, &[]),
    ("reduce of one segment", &REDUCE, &[1]),
];

const PIPES_AND_LOOPS: [Sketch; 3] = [
    ("pipe", &PIPE, &[]),
    ("loop", &LOOP, &[]),
    ("loop of one token", &LOOP_OF_ONE_TOKEN, &[]),
];

const WORKERS: [Sketch; 6] = [
    ("farm of one worker", &FARM, &[1]),
    ("farm of three", &FARM, &[3]),
    ("map of one worker", &MAP, &[1]),
    ("map of three", &MAP, &[3]),
    ("map of four", &MAP, &[4]),
    ("map of a matrix", &MATRIX, &[4]),
];

const SEGMENTS: [Sketch; 2] = [
    ("reduce of two segments", &REDUCE, &[2]),
    ("reduce of four", &REDUCE, &[4]),
];

#[test]
fn units_are_as_the_plain_program(rt: HostRuntime) -> Result<(), Fail> {
    compare(&rt, rt.alloc(), &UNITS)
}

#[test]
fn pipes_and_loops_are_as_the_plain_program(rt: HostRuntime) -> Result<(), Fail> {
    compare(&rt, rt.alloc(), &PIPES_AND_LOOPS)
}

#[test]
fn workers_are_as_the_plain_program(rt: HostRuntime) -> Result<(), Fail> {
    compare(&rt, rt.alloc(), &WORKERS)
}

#[test]
fn segments_are_as_the_plain_program(rt: HostRuntime) -> Result<(), Fail> {
    compare(&rt, rt.alloc(), &SEGMENTS)
}
