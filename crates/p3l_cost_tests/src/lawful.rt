// Lawful trees and counts, and one broken rule at a time.

use p3l_base::{Dim, NoMemory, Place};
use p3l_skel::{ModuleKind, lawful_counts, lawful_tree};
use p3l_sketch::{Array, ModuleRow, NodeForm, Sketch, counts_of, tree_with, tree_with_rescue};
use std::alloc::Global;
use std::process::Abort;
use std::test::Fail;

const OF_FOUR: Dim = Dim {
    size: 4,
    place: Place::First,
};

const OF_FIVE: Dim = Dim {
    size: 5,
    place: Place::First,
};

const ALL_FOUR: Dim = Dim {
    size: 4,
    place: Place::Rest,
};

/// Four words, each an element; five; four from word 1 on; and four that each element has all of.
const FOUR: [Array; 1] = [(0, &[OF_FOUR])];

const FIVE: [Array; 1] = [(0, &[OF_FIVE])];

const LATE: [Array; 1] = [(1, &[OF_FOUR])];

const SHARED: [Array; 1] = [(0, &[ALL_FOUR])];

/// A pipe of a map and of a loop whose body is a comp and whose condition is a reduce.
const WHOLE: Sketch = (
    &[
        (NodeForm::Pipe, 0, 4, 4, &[1, 3]),
        (NodeForm::Map(None, 4, 1, &FOUR, &FOUR), 1, 4, 4, &[2]),
        (NodeForm::Seq, 2, 1, 1, &[]),
        (NodeForm::Loop(10, 4), 3, 4, 4, &[4, 6]),
        (NodeForm::Comp, 4, 4, 4, &[5]),
        (NodeForm::Seq, 5, 4, 4, &[]),
        (NodeForm::Reduce(Some(2), 4, 1), 6, 4, 1, &[7]),
        (NodeForm::Seq, 7, 2, 1, &[]),
    ],
    &[
        ModuleKind::Pipe,
        ModuleKind::Map,
        ModuleKind::Seq,
        ModuleKind::Loop,
        ModuleKind::Comp,
        ModuleKind::Seq,
        ModuleKind::Reduce,
        ModuleKind::Seq,
    ],
);

/// Rows in place of those of the whole tree, each of which breaks a rule.
const BROKEN: [(usize, ModuleRow); 24] = [
    (0, (NodeForm::Pipe, 0, 0, 4, &[1, 3])),
    (0, (NodeForm::Pipe, 0, 4, 4, &[3, 3])),
    (1, (NodeForm::Map(None, 3, 1, &FOUR, &FOUR), 1, 4, 4, &[2])),
    (1, (NodeForm::Map(None, 4, 2, &FOUR, &FOUR), 1, 4, 4, &[2])),
    (1, (NodeForm::Map(None, 4, 1, &LATE, &FOUR), 1, 4, 4, &[2])),
    (1, (NodeForm::Map(None, 4, 1, &FIVE, &FOUR), 1, 4, 4, &[2])),
    (1, (NodeForm::Map(None, 4, 1, &FOUR, &LATE), 1, 4, 4, &[2])),
    (
        1,
        (NodeForm::Map(None, 4, 1, &FOUR, &SHARED), 1, 4, 4, &[2]),
    ),
    (
        1,
        (NodeForm::Map(Some(5), 4, 1, &FOUR, &FOUR), 1, 4, 4, &[2]),
    ),
    (1, (NodeForm::Map(None, 4, 1, &FOUR, &FOUR), 1, 4, 5, &[2])),
    (2, (NodeForm::Seq, 2, 2, 1, &[])),
    (2, (NodeForm::Seq, 2, 1, 1, &[3])),
    (3, (NodeForm::Loop(0, 4), 3, 4, 4, &[4, 6])),
    (3, (NodeForm::Loop(65_537, 4), 3, 4, 4, &[4, 6])),
    (3, (NodeForm::Loop(10, 0), 3, 4, 4, &[4, 6])),
    (3, (NodeForm::Loop(10, 1025), 3, 4, 4, &[4, 6])),
    (3, (NodeForm::Loop(10, 4), 3, 4, 4, &[4])),
    (4, (NodeForm::Comp, 0, 4, 4, &[5])),
    (5, (NodeForm::Seq, 9, 4, 4, &[])),
    (6, (NodeForm::Reduce(Some(3), 4, 1), 6, 4, 1, &[7])),
    (6, (NodeForm::Reduce(Some(8), 4, 1), 6, 4, 1, &[7])),
    (6, (NodeForm::Reduce(Some(2), 3, 1), 6, 4, 1, &[7])),
    (6, (NodeForm::Reduce(Some(2), 4, 2), 6, 4, 1, &[7])),
    (7, (NodeForm::Seq, 5, 2, 1, &[])),
];

/// Tells whether a tree is lawful.
fn is_lawful(alloc: Global, sketch: Sketch) -> Result<bool, NoMemory> {
    Ok(lawful_tree(&tree_with(alloc, sketch.0, sketch.1)?))
}

/// Tells whether a tree is lawful with another row in one place.
fn is_lawful_with(
    alloc: Global,
    sketch: Sketch,
    place: usize,
    row: ModuleRow,
) -> Result<bool, NoMemory> {
    let mut rows = Vec::from_slice(alloc, sketch.0)?;
    if let Some(old) = rows.get_mut(place) {
        *old = row;
    }
    Ok(lawful_tree(&tree_with(alloc, rows.as_slice(), sketch.1)?))
}

/// No tree may be lawful with one of these rows in its place.
fn refuse(
    rt: &impl Abort,
    alloc: Global,
    sketch: Sketch,
    table: &[(usize, ModuleRow)],
) -> Result<(), NoMemory> {
    for (number, (place, row)) in table.iter().enumerate() {
        let lawful = is_lawful_with(alloc, sketch, *place, *row)?;
        assert!(rt; !lawful, "{number}");
    }
    Ok(())
}

#[test]
fn one_broken_rule_is_refused(rt: HostRuntime) -> Result<(), Fail> {
    assert!(rt; is_lawful(rt.alloc(), WHOLE)?);
    Ok(refuse(&rt, rt.alloc(), WHOLE, &BROKEN)?)
}

/// True if the whole tree is lawful with a rescue number for each of its modules in turn.
const RESCUES: [bool; 8] = [false, false, true, false, true, true, false, true];

#[test]
fn seqs_and_comps_alone_are_rescued(rt: HostRuntime) -> Result<(), Fail> {
    for (number, expected) in RESCUES.iter().enumerate() {
        let lawful = lawful_tree(&tree_with_rescue(rt.alloc(), WHOLE, number, -7)?);
        assert!(rt; lawful == *expected, "{number}");
    }
    Ok(())
}

/// Comps, each around the next, around a seq.
const FIVE_COMPS: Sketch = (
    &[
        (NodeForm::Comp, 0, 1, 1, &[1]),
        (NodeForm::Comp, 0, 1, 1, &[2]),
        (NodeForm::Comp, 0, 1, 1, &[3]),
        (NodeForm::Comp, 0, 1, 1, &[4]),
        (NodeForm::Comp, 0, 1, 1, &[5]),
        (NodeForm::Seq, 1, 1, 1, &[]),
    ],
    &[ModuleKind::Comp, ModuleKind::Seq],
);

const SIX_COMPS: Sketch = (
    &[
        (NodeForm::Comp, 0, 1, 1, &[1]),
        (NodeForm::Comp, 0, 1, 1, &[2]),
        (NodeForm::Comp, 0, 1, 1, &[3]),
        (NodeForm::Comp, 0, 1, 1, &[4]),
        (NodeForm::Comp, 0, 1, 1, &[5]),
        (NodeForm::Comp, 0, 1, 1, &[6]),
        (NodeForm::Seq, 1, 1, 1, &[]),
    ],
    &[ModuleKind::Comp, ModuleKind::Seq],
);

const OF_MANY: Dim = Dim {
    size: 65_536,
    place: Place::First,
};

const MANY: [Array; 1] = [(0, &[OF_MANY])];

/// A loop around a map of 65,536 elements. 682 turns fire 682 * 196612 + 1 times, which is within
/// 2 ^ 27, and 683 turns are past it.
const HEAVY: Sketch = (
    &[
        (NodeForm::Loop(682, 1), 0, 65_536, 65_536, &[1, 3]),
        (
            NodeForm::Map(None, 65_536, 1, &MANY, &MANY),
            1,
            65_536,
            65_536,
            &[2],
        ),
        (NodeForm::Seq, 2, 1, 1, &[]),
        (NodeForm::Seq, 3, 65_536, 1, &[]),
    ],
    &[
        ModuleKind::Loop,
        ModuleKind::Map,
        ModuleKind::Seq,
        ModuleKind::Seq,
    ],
);

const TOO_HEAVY: ModuleRow = (NodeForm::Loop(683, 1), 0, 65_536, 65_536, &[1, 3]);

#[test]
fn depth_and_work_are_limited(rt: HostRuntime) -> Result<(), Fail> {
    let alloc = rt.alloc();
    assert!(rt; is_lawful(alloc, FIVE_COMPS)?);
    assert!(rt; !is_lawful(alloc, SIX_COMPS)?);
    assert!(rt; is_lawful(alloc, HEAVY)?);
    assert!(rt; !is_lawful_with(alloc, HEAVY, 0, TOO_HEAVY)?);
    Ok(())
}

/// Each of these numbers of workers must be lawful for the tree or not, as its row says.
fn compare_counts(
    rt: &impl Abort,
    alloc: Global,
    sketch: Sketch,
    table: &[(&[u32], bool)],
) -> Result<(), NoMemory> {
    let tree = tree_with(alloc, sketch.0, sketch.1)?;
    for (counts, lawful) in table {
        let found = lawful_counts(&tree, &counts_of(alloc, counts)?);
        assert_eq!(rt; found, *lawful, "{counts:?}");
    }
    Ok(())
}

const COUNTS: [(&[u32], bool); 8] = [
    (&[0], false),
    (&[1], true),
    (&[2], true),
    (&[3], true),
    (&[4], true),
    (&[5], false),
    (&[], false),
    (&[2, 2], false),
];

#[test]
fn counts_are_those_of_the_nodes_outside_units(rt: HostRuntime) -> Result<(), Fail> {
    Ok(compare_counts(&rt, rt.alloc(), WHOLE, &COUNTS)?)
}

/// Reduces of five words: without a clause, and with one.
const FREE: Sketch = (
    &[
        (NodeForm::Reduce(None, 5, 1), 0, 5, 1, &[1]),
        (NodeForm::Seq, 1, 2, 1, &[]),
    ],
    &[ModuleKind::Reduce, ModuleKind::Seq],
);

const FIXED: Sketch = (
    &[
        (NodeForm::Reduce(Some(2), 5, 1), 0, 5, 1, &[1]),
        (NodeForm::Seq, 1, 2, 1, &[]),
    ],
    &[ModuleKind::Reduce, ModuleKind::Seq],
);

const TOO_MANY: ModuleRow = (NodeForm::Reduce(Some(8), 5, 1), 0, 5, 1, &[1]);

const FREE_COUNTS: [(&[u32], bool); 9] = [
    (&[0], false),
    (&[1], true),
    (&[2], true),
    (&[3], false),
    (&[4], true),
    (&[5], false),
    (&[6], false),
    (&[7], false),
    (&[8], false),
];

const FIXED_COUNTS: [(&[u32], bool); 2] = [(&[2], true), (&[4], false)];

#[test]
fn segments_are_powers_of_two_and_keep_the_clause(rt: HostRuntime) -> Result<(), Fail> {
    let alloc = rt.alloc();
    compare_counts(&rt, alloc, FREE, &FREE_COUNTS)?;
    assert!(rt; is_lawful(alloc, FIXED)?);
    assert!(rt; !is_lawful_with(alloc, FIXED, 0, TOO_MANY)?);
    compare_counts(&rt, alloc, FIXED, &FIXED_COUNTS)?;
    Ok(())
}
