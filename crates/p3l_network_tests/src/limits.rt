// Nets at the limits of their sizes, with ample memory: as many processes, channels, workers and
// segments as there may be, and as much room.

use p3l_base::{Dim, Place};
use p3l_firing::Net;
use p3l_link::{is_linked, link};
use p3l_model::{is_outside, procs};
use p3l_skel::{Counts, Tree, lawful_counts, lawful_tree};
use p3l_sketch::{Array, NodeForm, Row, counts_of, tree_of};
use std::alloc::Global;
use std::process::Abort;
use std::test::Fail;

/// The nodes of a tree, the numbers of its workers, and the processes and channels of its net.
type Sizes = (&'static [Row], &'static [u32], usize, usize);

const ONE: Row = (NodeForm::Seq, 1, 1, &[]);

/// A farm of pipes of seven, before another farm.
const FARMS: [Row; 12] = [
    (NodeForm::Pipe, 1, 1, &[1, 10]),
    (NodeForm::Farm(None), 1, 1, &[2]),
    (NodeForm::Pipe, 1, 1, &[3, 4, 5, 6, 7, 8, 9]),
    ONE,
    ONE,
    ONE,
    ONE,
    ONE,
    ONE,
    ONE,
    (NodeForm::Farm(None), 1, 1, &[11]),
    ONE,
];

const PIECES: Dim = Dim {
    size: 512,
    place: Place::First,
};

const WORDS: [Array; 1] = [(0, &[PIECES])];

const MAP: [Row; 2] = [
    (NodeForm::Map(None, 512, 1, &WORDS, &WORDS), 512, 512, &[1]),
    ONE,
];

const REDUCE: [Row; 2] = [
    (NodeForm::Reduce(None, 512, 1), 512, 1, &[1]),
    (NodeForm::Seq, 2, 1, &[]),
];

/// With source and sink, and their channels. The first has 4,096 processes of its own: 512 pipes of 7
/// and 508 workers, each farm with an emitter and a collector; its channels are 2 to and from the ends,
/// one between the farms, 2 for each worker, and 6 in each pipe. A reduce has 511 joins, and two
/// channels to each.
const LARGEST: [Sizes; 3] = [
    (&FARMS, &[512, 508], 4098, 5115),
    (&MAP, &[512], 516, 1026),
    (&REDUCE, &[512], 1026, 1536),
];

/// The net of a tree with as much room as there may be. It is known again, and with this room alone.
fn compare_net(
    rt: &impl Abort,
    alloc: Global,
    tree: &Tree,
    counts: &Counts,
    sizes: (usize, usize),
) -> Result<(), Fail> {
    assert!(rt; lawful_tree(tree));
    assert!(rt; lawful_counts(tree, counts));
    assert!(rt; is_outside(tree, 0));
    assert!(rt; procs(tree, counts, 0) <= 4096);
    let net: Net = link(alloc, tree, counts, 1024)?;
    assert_eq!(rt; net.procs.len(), sizes.0);
    assert_eq!(rt; net.chans.len(), sizes.1);
    assert!(rt; is_linked(alloc, &net, tree, counts, 1024)?);
    assert!(rt; !is_linked(alloc, &net, tree, counts, 1023)?);
    Ok(())
}

#[test]
fn the_largest_nets_are_linked_and_known(rt: HostRuntime) -> Result<(), Fail> {
    let alloc = rt.alloc();
    for (rows, counts, processes, channels) in LARGEST {
        let tree = tree_of(alloc, rows)?;
        let counts = counts_of(alloc, counts)?;
        compare_net(&rt, alloc, &tree, &counts, (processes, channels))?;
    }
    Ok(())
}
