// Saved states of machines of nested trees in the middle of a run are orderly, and no longer so if
// they claim one more item sent.

ghost use Rattle.std.specs.Prelude.{◌≡◌};
ghost use Rattle.p3l_skel.specs.Lawful.{IsLawfulTree};

use crate::items::cases_of;
use crate::running::saved_after;
use crate::serving::loaded_of;
use crate::sketch::{ONE, ONES, Row, Sketch, SketchForm, TEST, TWO};
use p3l_base::NoMemory;
use p3l_load::Loaded;
use p3l_model::{is_outside, procs};
use p3l_net::Shot;
use p3l_orderly::is_orderly;
use p3l_skel::{Counts, Tree, lawful_counts};
use p3l_units::UnitTable;
use std::alloc::Global;
use std::process::Abort;
use std::test::Fail;

// A farm of a pipe of a map and a loop.
const ROWS: [Row; 7] = [
    (SketchForm::Farm, 2, 2, &[1]),
    (SketchForm::Pipe, 2, 2, &[2, 4]),
    (ONES, 2, 2, &[3]),
    ONE,
    (SketchForm::Loop(12, 2), 2, 2, &[5, 6]),
    TWO,
    TEST,
];

const NESTED: Sketch = ("farm of map and loop", &ROWS, &[2, 2]);

/// After how many picks machines are saved.
const PICKS: [u32; 4] = [0, 9, 30, 60];

// Tells whether what was saved is orderly.
fn is_sound(
    rt: &impl Abort,
    alloc: Global,
    tree: &Tree,
    counts: &Counts,
    shot: &Shot,
) -> Result<bool, NoMemory>
    requires { IsLawfulTree tree.now }
{
    assert!(rt; lawful_counts(tree, counts));
    assert!(rt; is_outside(tree, 0));
    assert!(rt; procs(tree, counts, 0) <= 4096);
    assert!(rt; shot.has_few_tags());
    is_orderly(alloc, tree, counts, shot)
}

// Looks at what is saved after each of these numbers of picks.
fn look_at(
    rt: &impl Abort,
    alloc: Global,
    units: &UnitTable<'_>,
    counts: &Counts,
) -> Result<(), Fail> {
    let cases = cases_of(rt, alloc, units)?;
    for picks in PICKS {
        let mut shot = saved_after(rt, alloc, units, counts, picks, cases.as_slice())?;
        assert!(rt; is_sound(rt, alloc, units.tree(), counts, &shot)?);
        assert!(rt; shot.is_countable());
        shot.sent += 1;
        assert!(rt; !is_sound(rt, alloc, units.tree(), counts, &shot)?);
    }
    Ok(())
}

#[test]
fn what_is_saved_is_orderly(rt: HostRuntime) -> Result<(), Fail> {
    let alloc = rt.alloc();
    let Loaded {
        tree,
        counts,
        codes,
        ..
    } = loaded_of(&rt, alloc, NESTED)?;
    let units = UnitTable::new(alloc, &tree, codes)?;
    look_at(&rt, alloc, &units, &counts)
}
