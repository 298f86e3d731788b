// Small trees of each form.

use crate::trees::{Row, RowForm, in_unit, node, seq, turning};

const FARM: RowForm = RowForm::Farm { workers: None };

fn map_of(workers: Option<u32>, elements: u32) -> RowForm {
    RowForm::Map { workers, elements }
}

fn reduce_of(workers: Option<u32>, len: u32) -> RowForm {
    RowForm::Reduce { workers, len }
}

pub fn one_unit() -> [Row; 1] {
    [seq(0, 2, 3, 40)]
}

/// A comp of a map and a reduce, which have no numbers of workers in it.
pub fn a_comp() -> [Row; 5] {
    [
        node(0, RowForm::Comp, 4, 1),
        in_unit(node(0, map_of(None, 4), 4, 4)),
        in_unit(seq(1, 1, 1, 7)),
        in_unit(node(0, reduce_of(Some(2), 4), 4, 1)),
        in_unit(seq(3, 2, 1, 5)),
    ]
}

pub fn three_stages() -> [Row; 4] {
    [
        node(0, RowForm::Pipe, 1, 2),
        seq(0, 1, 3, 20),
        seq(0, 3, 3, 50),
        seq(0, 3, 2, 10),
    ]
}

pub fn a_stage_and_a_farm() -> [Row; 4] {
    [
        node(0, RowForm::Pipe, 1, 1),
        seq(0, 1, 1, 10),
        node(0, FARM, 1, 1),
        seq(2, 1, 1, 60),
    ]
}

/// Whose workers can be shared out in many ways that are as good.
pub fn two_like_farms() -> [Row; 5] {
    [
        node(0, RowForm::Pipe, 1, 1),
        node(0, FARM, 1, 1),
        seq(1, 1, 1, 60),
        node(0, FARM, 1, 1),
        seq(3, 1, 1, 60),
    ]
}

pub fn farms_without_ticks() -> [Row; 6] {
    [
        node(0, RowForm::Pipe, 1, 1),
        node(0, FARM, 1, 1),
        seq(1, 1, 1, 0),
        node(0, FARM, 1, 1),
        node(3, FARM, 1, 1),
        seq(4, 1, 1, 0),
    ]
}

pub fn a_farm(workers: Option<u32>) -> [Row; 2] {
    [node(0, RowForm::Farm { workers }, 2, 1), seq(0, 2, 1, 100)]
}

pub fn a_farm_of_farms() -> [Row; 3] {
    [node(0, FARM, 1, 1), node(0, FARM, 1, 1), seq(1, 1, 1, 100)]
}

pub fn a_farm_of_pipes() -> [Row; 5] {
    [
        node(0, FARM, 1, 1),
        node(0, RowForm::Pipe, 1, 1),
        seq(1, 1, 2, 30),
        node(1, FARM, 2, 1),
        seq(3, 2, 1, 90),
    ]
}

/// A map of 6 elements of 2 words.
pub fn a_map(workers: Option<u32>) -> [Row; 4] {
    [
        node(0, map_of(workers, 6), 12, 6),
        node(0, RowForm::Comp, 2, 1),
        in_unit(seq(1, 2, 3, 25)),
        in_unit(seq(1, 3, 1, 5)),
    ]
}

pub fn a_map_of_farms() -> [Row; 3] {
    [
        node(0, map_of(None, 4), 4, 4),
        node(0, FARM, 1, 1),
        seq(1, 1, 1, 50),
    ]
}

/// A map of 3 elements, each of which is reduced.
pub fn a_map_of_reduces() -> [Row; 3] {
    [
        node(0, map_of(None, 3), 12, 3),
        node(0, reduce_of(None, 4), 4, 1),
        in_unit(seq(1, 2, 1, 15)),
    ]
}

/// A reduce of elements of 2 words.
pub fn a_reduce(workers: Option<u32>, len: u32) -> [Row; 4] {
    [
        node(0, reduce_of(workers, len), 2_u32.saturating_mul(len), 2),
        in_unit(node(0, RowForm::Comp, 4, 2)),
        in_unit(seq(1, 4, 1, 12)),
        in_unit(seq(1, 1, 2, 3)),
    ]
}

pub fn a_farm_of_reduces() -> [Row; 3] {
    [
        node(0, FARM, 5, 1),
        node(0, reduce_of(None, 5), 5, 1),
        in_unit(seq(1, 2, 1, 20)),
    ]
}

/// A loop of 5 turns, of which 3 are expected.
pub fn a_loop() -> [Row; 3] {
    [
        turning(0, 5, 2, 3),
        seq(0, 2, 2, 30),
        in_unit(seq(0, 2, 1, 4)),
    ]
}

/// A loop whose condition has a map, which has no number of workers in it.
pub fn a_loop_of_farms() -> [Row; 7] {
    [
        turning(0, 4, 2, 2),
        node(0, FARM, 2, 2),
        seq(1, 2, 2, 80),
        in_unit(node(0, RowForm::Comp, 2, 1)),
        in_unit(node(3, map_of(None, 2), 2, 2)),
        in_unit(seq(4, 1, 1, 2)),
        in_unit(seq(3, 2, 1, 1)),
    ]
}

pub fn a_loop_of_maps_and_a_farm() -> [Row; 7] {
    [
        node(0, RowForm::Pipe, 4, 4),
        turning(0, 3, 4, 3),
        node(1, map_of(None, 4), 4, 4),
        seq(2, 1, 1, 9),
        in_unit(seq(1, 4, 1, 6)),
        node(0, FARM, 4, 4),
        seq(5, 4, 4, 70),
    ]
}

pub fn a_farm_a_map_and_a_reduce() -> [Row; 7] {
    [
        node(0, RowForm::Pipe, 4, 1),
        node(0, FARM, 4, 4),
        seq(1, 4, 4, 30),
        node(0, map_of(None, 4), 4, 4),
        seq(3, 1, 1, 20),
        node(0, reduce_of(None, 4), 4, 1),
        in_unit(seq(5, 2, 1, 10)),
    ]
}

/// Returns a tree for which 7 processes are the fewest for the stage's 50 ticks, with counts 1 and
/// 2 or 4 and 1.
pub fn a_stage_and_a_map_of_reduces() -> [Row; 5] {
    [
        node(0, RowForm::Pipe, 16, 4),
        seq(0, 16, 16, 50),
        node(0, map_of(None, 4), 16, 4),
        node(2, reduce_of(None, 4), 4, 1),
        in_unit(seq(3, 2, 1, 10)),
    ]
}

/// Returns a tree for which 11 processes are the fewest for the stage's 30 ticks, with counts 1 and
/// 6 or 2 and 2.
pub fn a_stage_and_a_map_of_maps() -> [Row; 5] {
    [
        node(0, RowForm::Pipe, 12, 12),
        seq(0, 12, 12, 30),
        node(0, map_of(None, 2), 12, 12),
        node(2, map_of(None, 6), 6, 6),
        seq(3, 1, 1, 10),
    ]
}
