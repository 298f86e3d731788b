// Networks against the plain program.

ghost use Rattle.p3l_nesting_tests.specs.Ready.{IsReady};

use crate::items::{Case, cases_of};
use crate::running::{Setting, emitted};
use crate::serving::loaded_of;
use crate::sketch::Sketch;
use p3l_load::Loaded;
use p3l_skel::Counts;
use p3l_sketch::{is_same, is_trap};
use p3l_units::UnitTable;
use std::alloc::Global;
use std::process::Abort;
use std::test::Fail;

/// The capacities of channels.
const CAPACITIES: [u32; 3] = [1, 2, 4];

/// The seeds are those below.
const SEEDS: u64 = 16;

// The number of outcomes of these items: those up to the first trap and with it.
fn expected(cases: &[Case]) -> usize {
    match cases.iter().position(|case| is_trap(&case.outcome)) {
        Some(place) => place.saturating_add(1),
        None => cases.len(),
    }
}

/// Compares one run; gives the items after those that it had outcomes of.
pub fn compare_run<'c>(
    rt: &impl Abort,
    alloc: Global,
    units: &UnitTable<'_>,
    counts: &Counts,
    setting: Setting,
    cases: &'c [Case],
) -> Result<&'c [Case], Fail> {
    let outcomes = emitted(rt, alloc, units, counts, setting, cases)?;
    let expected = expected(cases);
    assert_eq!(rt; outcomes.len(), expected);
    for (outcome, case) in outcomes.as_slice().iter().zip(cases) {
        assert!(rt; is_same(outcome, &case.outcome));
    }
    assert!(rt; expected <= cases.len());
    Ok(cases.split_at(expected).1)
}

// Compares the runs on these items, each but the first begun after the trap that ended the one
// before.
fn compare_runs(
    rt: &impl Abort,
    alloc: Global,
    units: &UnitTable<'_>,
    counts: &Counts,
    setting: Setting,
    cases: &[Case],
) -> Result<(), Fail> {
    let mut left = cases;
    for _run in 0..cases.len() {
        if left.is_empty() {
            return Ok(());
        }
        left = compare_run(rt, alloc, units, counts, setting, left)?;
    }
    Ok(())
}

// Compares the runs with channels of this capacity, by turns and by each seed.
fn compare_schedules(
    rt: &impl Abort,
    alloc: Global,
    units: &UnitTable<'_>,
    counts: &Counts,
    cap: u32,
    cases: &[Case],
) -> Result<(), Fail> {
    compare_runs(rt, alloc, units, counts, (cap, None), cases)?;
    for seed in 0..SEEDS {
        compare_runs(rt, alloc, units, counts, (cap, Some(seed)), cases)?;
    }
    Ok(())
}

// Compares the runs on the items of the tree that these units serve. Some trap is in their middle.
fn compare_units(
    rt: &impl Abort,
    alloc: Global,
    units: &UnitTable<'_>,
    counts: &Counts,
) -> Result<(), Fail> {
    let cases = cases_of(rt, alloc, units)?;
    let cases = cases.as_slice();
    assert!(rt; expected(cases) > 1 && expected(cases) < cases.len());
    for cap in CAPACITIES {
        compare_schedules(rt, alloc, units, counts, cap, cases)?;
    }
    Ok(())
}

// Compares the runs of what was loaded.
fn compare_loaded(rt: &impl Abort, alloc: Global, loaded: Loaded) -> Result<(), Fail>
    requires { IsReady loaded }
{
    let Loaded {
        tree,
        counts,
        codes,
        ..
    } = loaded;
    let units = UnitTable::new(alloc, &tree, codes)?;
    compare_units(rt, alloc, &units, &counts)
}

/// Compares the networks of sketches with the plain program.
pub fn compare(rt: &impl Abort, alloc: Global, sketches: &[Sketch]) -> Result<(), Fail> {
    for sketch in sketches {
        let loaded = loaded_of(rt, alloc, *sketch)?;
        compare_loaded(rt, alloc, loaded)?;
    }
    Ok(())
}
