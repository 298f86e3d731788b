// The largest networks against the plain program: as many workers, pieces and segments as there may
// be, with as much room, and a gatherer after a thousand other processes.

ghost use Rattle.p3l_nesting_tests.specs.Ready.{IsReady};

use crate::comparing::compare_run;
use crate::items::{Case, case_of};
use crate::serving::loaded_of;
use crate::sketch::{JOIN, ONE, ONES, Row, Sketch, SketchForm, TWO};
use p3l_base::{Dim, List, Place};
use p3l_load::Loaded;
use p3l_sketch::Array;
use p3l_units::UnitTable;
use std::alloc::Global;
use std::process::Abort;
use std::test::Fail;

const FARM: [Row; 2] = [(SketchForm::Farm, 2, 2, &[1]), TWO];

/// The map's two processes have the numbers 1,028 and 1,029.
const MAP_AFTER_FARM: [Row; 7] = [
    (SketchForm::Pipe, 2, 2, &[1, 5]),
    (SketchForm::Farm, 2, 2, &[2]),
    (SketchForm::Pipe, 2, 2, &[3, 4]),
    TWO,
    TWO,
    (ONES, 2, 2, &[6]),
    ONE,
];

const PIECE: Dim = Dim {
    size: 512,
    place: Place::First,
};

const PIECES: [Array; 1] = [(0, &[PIECE])];

const MAP: [Row; 2] = [
    (SketchForm::Map(512, 1, &PIECES, &PIECES), 512, 512, &[1]),
    ONE,
];

/// The joins are a tree of nine levels.
const REDUCE: [Row; 2] = [(SketchForm::Reduce(512, 1), 512, 1, &[1]), JOIN];

const LARGEST: [Sketch; 4] = [
    ("farm of 512 workers", &FARM, &[512]),
    ("map after 1,026 processes", &MAP_AFTER_FARM, &[512, 2]),
    ("map of 512 pieces", &MAP, &[512]),
    ("reduce of 512 segments", &REDUCE, &[512]),
];

/// As much as a channel may hold, and the seeds by which processes are drawn.
const SETTINGS: [(u32, Option<u64>); 2] = [(1024, None), (1024, Some(7))];

/// Three items of odd words.
fn items_of(rt: &impl Abort, alloc: Global, units: &UnitTable<'_>) -> Result<List<Case>, Fail> {
    let width = match units.tree().node(0) {
        Some(root) => root.ins,
        None => 0,
    };
    let mut cases = List::new(alloc);
    for first in [1i64, -7, 33] {
        let mut words = Vec::new(alloc);
        for place in 0..width {
            words.push(first.wrapping_add(2 * place as i64))?;
        }
        cases.push(case_of(rt, alloc, units, words.as_slice())?)?;
    }
    Ok(cases)
}

/// Compares the runs of what was loaded.
fn compare_loaded(rt: &impl Abort, alloc: Global, loaded: Loaded) -> Result<(), Fail>
    requires { IsReady loaded }
{
    let Loaded {
        tree,
        counts,
        codes,
        ..
    } = loaded;
    let units = UnitTable::new(alloc, &tree, codes)?;
    let cases = items_of(rt, alloc, &units)?;
    for setting in SETTINGS {
        let left = compare_run(rt, alloc, &units, &counts, setting, cases.as_slice())?;
        assert!(rt; left.is_empty());
    }
    Ok(())
}

#[test]
fn the_largest_networks_are_as_the_plain_program(rt: HostRuntime) -> Result<(), Fail> {
    for sketch in LARGEST {
        let loaded = loaded_of(&rt, rt.alloc(), sketch)?;
        compare_loaded(&rt, rt.alloc(), loaded)?;
    }
    Ok(())
}
