// The numbers of small trees, one of each skeleton.

use p3l_base::{Dim, NoMemory, Place};
use p3l_model::{firings, is_outside, procs};
use p3l_skel::{Counts, ModuleKind, Tree, lawful_counts, lawful_tree};
use p3l_sketch::{Array, NodeForm, Sketch, counts_of, tree_with};
use std::alloc::Global;
use std::process::Abort;
use std::test::Fail;

/// Numbers of workers and a node: the node's processes, and the network's firings for one item.
type Expected = (&'static [u32], u32, (u64, u64));

// A node's processes and the network's firings for one item.
fn numbers(rt: &impl Abort, tree: &Tree, counts: &Counts, node: u32) -> (u64, u64) {
    assert!(rt; lawful_tree(tree));
    assert!(rt; lawful_counts(tree, counts));
    assert!(rt; is_outside(tree, node));
    (procs(tree, counts, node), firings(tree, counts))
}

// Each row of a table must have the numbers of the tree.
fn compare(
    rt: &impl Abort,
    alloc: Global,
    sketch: Sketch,
    table: &[Expected],
) -> Result<(), NoMemory> {
    let tree = tree_with(alloc, sketch.0, sketch.1)?;
    for (counts, node, expected) in table {
        let counts = counts_of(alloc, counts)?;
        assert_eq!(rt; numbers(rt, &tree, &counts, *node), *expected);
    }
    Ok(())
}

const FIRST: Dim = Dim {
    size: 2,
    place: Place::First,
};

const SECOND: Dim = Dim {
    size: 2,
    place: Place::Second,
};

const REST: Dim = Dim {
    size: 2,
    place: Place::Rest,
};

/// The product of two 2 by 2 matrices, cut into inner products.
const FACTORS: [Array; 2] = [(0, &[FIRST, REST]), (4, &[REST, SECOND])];

const PRODUCT: [Array; 1] = [(0, &[FIRST, SECOND])];

const MAP: Sketch = (
    &[
        (NodeForm::Map(None, 2, 2, &FACTORS, &PRODUCT), 0, 8, 4, &[1]),
        (NodeForm::Seq, 1, 4, 1, &[]),
    ],
    &[ModuleKind::Map, ModuleKind::Seq],
);

const OF_THE_MAP: [Expected; 3] = [(&[1], 0, (3, 16)), (&[2], 0, (4, 16)), (&[3], 0, (5, 16))];

#[test]
fn a_map_scatters_and_gathers(rt: HostRuntime) -> Result<(), Fail> {
    Ok(compare(&rt, rt.alloc(), MAP, &OF_THE_MAP)?)
}

const REDUCE: Sketch = (
    &[
        (NodeForm::Reduce(None, 5, 1), 0, 5, 1, &[1]),
        (NodeForm::Seq, 1, 2, 1, &[]),
    ],
    &[ModuleKind::Reduce, ModuleKind::Seq],
);

const OF_THE_REDUCE: [Expected; 2] = [(&[4], 0, (8, 14)), (&[1], 0, (1, 3))];

#[test]
fn a_reduce_folds_its_segments(rt: HostRuntime) -> Result<(), Fail> {
    Ok(compare(&rt, rt.alloc(), REDUCE, &OF_THE_REDUCE)?)
}

/// Loops whose bodies are a seq and a farm.
const LOOP: Sketch = (
    &[
        (NodeForm::Loop(10, 4), 0, 2, 2, &[1, 2]),
        (NodeForm::Seq, 1, 2, 2, &[]),
        (NodeForm::Seq, 2, 2, 1, &[]),
    ],
    &[ModuleKind::Loop, ModuleKind::Seq, ModuleKind::Seq],
);

const LOOP_OF_FARM: Sketch = (
    &[
        (NodeForm::Loop(10, 4), 0, 2, 2, &[1, 3]),
        (NodeForm::Farm(Some(4)), 1, 2, 2, &[2]),
        (NodeForm::Seq, 2, 2, 2, &[]),
        (NodeForm::Seq, 3, 2, 1, &[]),
    ],
    &[
        ModuleKind::Loop,
        ModuleKind::Farm,
        ModuleKind::Seq,
        ModuleKind::Seq,
    ],
);

#[test]
fn a_loop_turns_its_body(rt: HostRuntime) -> Result<(), Fail> {
    compare(&rt, rt.alloc(), LOOP, &[(&[], 0, (3, 33))])?;
    compare(&rt, rt.alloc(), LOOP_OF_FARM, &[(&[4], 0, (8, 53))])?;
    Ok(())
}

const PIPE: Sketch = (
    &[
        (NodeForm::Pipe, 0, 1, 1, &[1, 2]),
        (NodeForm::Seq, 1, 1, 1, &[]),
        (NodeForm::Farm(None), 2, 1, 1, &[3]),
        (NodeForm::Seq, 3, 1, 1, &[]),
    ],
    &[
        ModuleKind::Pipe,
        ModuleKind::Seq,
        ModuleKind::Farm,
        ModuleKind::Seq,
    ],
);

const OF_THE_PIPE: [Expected; 2] = [(&[5], 0, (8, 6)), (&[5], 2, (7, 6))];

#[test]
fn a_pipe_adds_its_stages(rt: HostRuntime) -> Result<(), Fail> {
    Ok(compare(&rt, rt.alloc(), PIPE, &OF_THE_PIPE)?)
}
