// Rescued modules in each place that they can have, with traps of stages before them.

use crate::bodies::Body;
use crate::comparing::compare;
use crate::items::{Case, cases_of};
use crate::serving::loaded_of;
use crate::sketch::{ONE, Row, Sketch, SketchForm, TEST};
use p3l_base::Outcome;
use p3l_load::Loaded;
use p3l_sketch::has_words;
use p3l_units::UnitTable;
use std::alloc::Global;
use std::process::Abort;
use std::test::Fail;

/// Traps on a 0, which its module turns into 9.
const RESCUED: Row = (SketchForm::RescuedSeq(Body::One, 9), 1, 1, &[]);

const SEQ_IN_PIPE: [Row; 3] = [(SketchForm::Pipe, 2, 1, &[1, 2]), TEST, RESCUED];

const COMP_IN_PIPE: [Row; 5] = [
    (SketchForm::Pipe, 2, 1, &[1, 2]),
    TEST,
    (SketchForm::RescuedComp(9), 1, 1, &[3, 4]),
    ONE,
    ONE,
];

const SEQ_IN_COMP: [Row; 4] = [(SketchForm::Comp, 2, 1, &[1, 2, 3]), TEST, RESCUED, ONE];

const SEQ_IN_FARM: [Row; 4] = [
    (SketchForm::Pipe, 2, 1, &[1, 2]),
    TEST,
    (SketchForm::Farm, 1, 1, &[3]),
    RESCUED,
];

const RESCUES: [Sketch; 4] = [
    ("pipe to a rescued seq", &SEQ_IN_PIPE, &[]),
    ("pipe to a rescued comp", &COMP_IN_PIPE, &[]),
    ("comp of a rescued seq", &SEQ_IN_COMP, &[]),
    ("pipe to a farm of a rescued seq", &SEQ_IN_FARM, &[3]),
];

#[test]
fn rescued_modules_are_as_the_plain_program(rt: HostRuntime) -> Result<(), Fail> {
    compare(&rt, rt.alloc(), &RESCUES)
}

/// Outcomes of each sketch for the items `1 3`, `5 7`, `-1 9` and `11 -5`: its first stage gives 0,
/// 4, 4 and 0, and the next traps on 0.
const BY_HAND: [[i64; 4]; 4] = [
    [9, 38, 38, 9],
    [9, 344, 344, 9],
    [83, 344, 344, 83],
    [9, 38, 38, 9],
];

/// The place of the item `0 49`, on which the first stage traps.
const TRAPPING: usize = 17;

/// Returns true exactly if an outcome is a trap of the module 1.
fn is_first_trap(case: Option<&Case>) -> bool {
    match case {
        Some(case) => match &case.outcome {
            Outcome::Trapped(trap) => trap.module == 1,
            Outcome::Value(_) => false,
        },
        None => false,
    }
}

// Compares what the plain program makes of the items with what was worked out.
fn compare_units(
    rt: &impl Abort,
    alloc: Global,
    units: &UnitTable<'_>,
    words: &[i64; 4],
) -> Result<(), Fail> {
    let cases = cases_of(rt, alloc, units)?;
    for (case, word) in cases.as_slice().iter().zip(words) {
        assert!(rt; has_words(&case.outcome, &[*word]), "{word}");
    }
    assert!(rt; is_first_trap(cases.as_slice().get(TRAPPING)));
    Ok(())
}

#[test]
fn traps_become_words_where_they_arise(rt: HostRuntime) -> Result<(), Fail> {
    for (sketch, words) in RESCUES.iter().zip(&BY_HAND) {
        let Loaded { tree, codes, .. } = loaded_of(&rt, rt.alloc(), *sketch)?;
        let units = UnitTable::new(rt.alloc(), &tree, codes)?;
        compare_units(&rt, rt.alloc(), &units, words)?;
    }
    Ok(())
}
