// Skeletons that can't be parts of others: what has processes of its own can't run in one.

use crate::building::tree_of;
use crate::sketch::{JOIN, Row, SketchForm, TEST, TWO};
use p3l_base::NoMemory;
use p3l_skel::lawful_tree;
use std::alloc::Global;
use std::test::Fail;

const FARM_IN_COMP: [Row; 4] = [
    (SketchForm::Comp, 2, 1, &[1, 3]),
    (SketchForm::Farm, 2, 2, &[2]),
    TWO,
    JOIN,
];

const PIPE_IN_COMP: [Row; 5] = [
    (SketchForm::Comp, 2, 1, &[1, 4]),
    (SketchForm::Pipe, 2, 2, &[2, 3]),
    TWO,
    TWO,
    JOIN,
];

const LOOP_IN_COMP: [Row; 5] = [
    (SketchForm::Comp, 2, 1, &[1, 4]),
    (SketchForm::Loop(12, 2), 2, 2, &[2, 3]),
    TWO,
    TEST,
    JOIN,
];

const FARM_IN_REDUCE: [Row; 3] = [
    (SketchForm::Reduce(5, 1), 5, 1, &[1]),
    (SketchForm::Farm, 2, 1, &[2]),
    JOIN,
];

const PIPE_IN_REDUCE: [Row; 4] = [
    (SketchForm::Reduce(5, 1), 5, 1, &[1]),
    (SketchForm::Pipe, 2, 1, &[2, 3]),
    TWO,
    JOIN,
];

// Each with the node that has processes, or that has a part with processes, and what that node has to
// be for the tree to be lawful.
const REFUSED: [(&[Row], usize, SketchForm); 5] = [
    (&FARM_IN_COMP, 0, SketchForm::Pipe),
    (&PIPE_IN_COMP, 0, SketchForm::Pipe),
    (&LOOP_IN_COMP, 0, SketchForm::Pipe),
    (&FARM_IN_REDUCE, 1, SketchForm::Comp),
    (&PIPE_IN_REDUCE, 1, SketchForm::Comp),
];

// Tells whether the tree of these rows is lawful.
fn is_lawful(alloc: Global, rows: &[Row]) -> Result<bool, NoMemory> {
    Ok(lawful_tree(&tree_of(alloc, rows)?))
}

#[test]
fn what_has_processes_is_no_part_of_a_unit(rt: HostRuntime) -> Result<(), Fail> {
    for (rows, place, shape) in REFUSED {
        let mut mended = rows.to_vec(rt.alloc())?;
        assert!(rt; !is_lawful(rt.alloc(), rows)?);
        if let Some(row) = mended.get_mut(place) {
            row.0 = shape;
        }
        assert!(rt; is_lawful(rt.alloc(), &mended)?);
    }
    Ok(())
}
