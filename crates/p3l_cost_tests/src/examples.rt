// The trees of the example programs, and their certificates at the standard costs, which are worked
// out by hand.

use crate::damaged::first_unlike;
use crate::making::{made, refusal};
use p3l_base::{Dim, List, NoMemory, Place};
use p3l_cost::{Costs, standard};
use p3l_skel::{Tree, lawful_tree};
use p3l_sketch::{Array, NodeForm, Row, tree_of};
use std::alloc::Global;
use std::process::Abort;
use std::test::Fail;

const LINE_ROWS: [Row; 1] = [(NodeForm::Seq, 1, 1, &[])];

const NORM_ROWS: [Row; 3] = [
    (NodeForm::Comp, 4, 1, &[1, 2]),
    (NodeForm::Seq, 4, 4, &[]),
    (NodeForm::Seq, 4, 1, &[]),
];

const HALVE_ROWS: [Row; 3] = [
    (NodeForm::Loop(64, 4), 2, 2, &[1, 2]),
    (NodeForm::Seq, 2, 2, &[]),
    (NodeForm::Seq, 2, 1, &[]),
];

const GREATEST_ROWS: [Row; 2] = [
    (NodeForm::Reduce(Some(4), 10, 1), 10, 1, &[1]),
    (NodeForm::Seq, 2, 1, &[]),
];

const TOTAL_ROWS: [Row; 2] = [
    (NodeForm::Reduce(None, 16, 1), 16, 1, &[1]),
    (NodeForm::Seq, 2, 1, &[]),
];

const SIGNAL_ROWS: [Row; 4] = [
    (NodeForm::Pipe, 8, 8, &[1, 2]),
    (NodeForm::Seq, 8, 8, &[]),
    (NodeForm::Farm(None), 8, 8, &[3]),
    (NodeForm::Seq, 8, 8, &[]),
];

const FARMS_ROWS: [Row; 5] = [
    (NodeForm::Pipe, 1, 1, &[1, 3]),
    (NodeForm::Farm(None), 1, 1, &[2]),
    (NodeForm::Seq, 1, 1, &[]),
    (NodeForm::Farm(Some(3)), 1, 1, &[4]),
    (NodeForm::Seq, 1, 1, &[]),
];

const FIRST: Dim = Dim {
    size: 3,
    place: Place::First,
};

const SECOND: Dim = Dim {
    size: 3,
    place: Place::Second,
};

const REST: Dim = Dim {
    size: 3,
    place: Place::Rest,
};

const FACTORS: [Array; 2] = [(0, &[FIRST, REST]), (9, &[REST, SECOND])];

const PRODUCT: [Array; 1] = [(0, &[FIRST, SECOND])];

const MATRIX_ROWS: [Row; 2] = [
    (NodeForm::Map(None, 3, 3, &FACTORS, &PRODUCT), 18, 9, &[1]),
    (NodeForm::Seq, 6, 1, &[]),
];

// The certificate for this number of processors is this text, it is accepted, and no prefix of it is
// one; and for a few processors more, what is made is accepted too.
fn check_example(
    rt: &impl Abort,
    alloc: Global,
    tree: &Tree,
    costs: &Costs,
    processors: u32,
    expected: &[u8],
) -> Result<(), Fail> {
    let text = made(rt, alloc, tree, costs, processors)?;
    assert_eq!(rt; text.as_slice(), expected);
    assert_eq!(rt; first_unlike(alloc, expected), None);
    for more in 0..12 {
        let many = processors.saturating_add(more);
        let text = made(rt, alloc, tree, costs, many)?;
        assert_eq!(rt;
            refusal(rt, alloc, tree, costs, text.as_slice()),
            None,
            "{many}"
        );
    }
    Ok(())
}

// Checks each example at the standard costs.
fn check_examples(rt: &impl Abort, alloc: Global, table: &[Example]) -> Result<(), Fail> {
    for (rows, processors, expected) in table {
        let tree = tree_of(alloc, rows)?;
        assert!(rt; lawful_tree(&tree));
        let costs = standard(alloc, &tree)?;
        check_example(rt, alloc, &tree, &costs, *processors, expected)?;
    }
    Ok(())
}

const LINE: &[u8] =
    b"p3l-cert 1\nprocessors 4\ncounts\nservice 122\nused 1\nrow 0 121 4 5\nrow 0 122 4 1\nend\n";

const NORM: &[u8] =
    b"p3l-cert 1\nprocessors 2\ncounts\nservice 225\nused 1\nrow 0 224 2 3\nrow 0 225 2 1\nend\n";

const HALVE: &[u8] =
    b"p3l-cert 1\nprocessors 4\ncounts\nservice 7936\nused 3\nrow 0 7935 4 5\nrow 0 7936 4 3\nrow 1 124 2 1\nend\n";

const GREATEST: &[u8] =
    b"p3l-cert 1\nprocessors 8\ncounts 4\nservice 224\nused 8\nrow 0 223 8 9\nrow 0 224 8 8\nend\n";

const TOTAL: &[u8] =
    b"p3l-cert 1\nprocessors 9\ncounts 4\nservice 325\nused 8\nrow 0 324 9 10\nrow 0 325 9 8\nend\n";

const MATRIX: &[u8] =
    b"p3l-cert 1\nprocessors 5\ncounts 3\nservice 381\nused 5\nrow 0 380 5 6\nrow 0 381 5 5\nrow 1 42 3 4\nrow 1 76 1 2\nrow 1 126 1 2\nrow 1 127 1 1\nend\n";

const SIGNAL: &[u8] =
    b"p3l-cert 1\nprocessors 5\ncounts 1\nservice 136\nused 4\nrow 0 135 5 6\nrow 0 136 5 4\nrow 1 135 5 6\nrow 1 136 5 1\nrow 2 135 5 4\nrow 2 136 5 3\nrow 3 135 3 4\nrow 3 136 3 1\nrow 3 270 1 1\nrow 3 272 1 1\nrow 3 405 1 1\nrow 3 408 1 1\nend\n";

const FARMS: &[u8] =
    b"p3l-cert 1\nprocessors 9\ncounts 2 3\nservice 61\nused 9\nrow 0 60 9 10\nrow 0 61 9 9\nrow 1 60 9 5\nrow 1 61 9 4\nrow 2 60 7 8\nrow 2 61 7 8\nrow 2 120 3 4\nrow 2 122 3 1\nrow 2 180 2 1\nrow 2 183 2 1\nrow 2 240 1 1\nrow 2 244 1 1\nrow 2 300 1 1\nrow 2 305 1 1\nrow 2 360 1 1\nrow 2 366 1 1\nrow 2 420 1 1\nrow 2 427 1 1\nrow 3 60 9 5\nrow 3 61 9 5\nrow 4 180 2 1\nrow 4 183 2 1\nend\n";

/// The rows of a tree, for how many processors its certificate is, and its text.
type Example = (&'static [Row], u32, &'static [u8]);

const UNITS: [Example; 2] = [(&LINE_ROWS, 4, LINE), (&NORM_ROWS, 2, NORM)];

#[test]
fn certificates_of_units(rt: HostRuntime) -> Result<(), Fail> {
    check_examples(&rt, rt.alloc(), &UNITS)
}

const REDUCES: [Example; 2] = [(&GREATEST_ROWS, 8, GREATEST), (&TOTAL_ROWS, 9, TOTAL)];

#[test]
fn certificates_of_reduces(rt: HostRuntime) -> Result<(), Fail> {
    check_examples(&rt, rt.alloc(), &REDUCES)
}

const LOOP_AND_MAP: [Example; 2] = [(&HALVE_ROWS, 4, HALVE), (&MATRIX_ROWS, 5, MATRIX)];

#[test]
fn certificates_of_a_loop_and_a_map(rt: HostRuntime) -> Result<(), Fail> {
    check_examples(&rt, rt.alloc(), &LOOP_AND_MAP)
}

const PIPES: [Example; 2] = [(&SIGNAL_ROWS, 5, SIGNAL), (&FARMS_ROWS, 9, FARMS)];

#[test]
fn certificates_of_pipes_of_farms(rt: HostRuntime) -> Result<(), Fail> {
    check_examples(&rt, rt.alloc(), &PIPES)
}

const NO_TIME: &[u8] = b"p3l-cert 1\nprocessors 4\ncounts\nservice 0\nused 1\nrow 0 0 4 1\nend\n";

// Costs of one unit, all of them 0.
fn no_costs(alloc: Global) -> Result<Costs, NoMemory> {
    Ok(Costs {
        setup: 0,
        word: 0,
        ticks: List::from_vec(Vec::from_slice(alloc, &[0])?),
        turns: List::from_vec(Vec::from_slice(alloc, &[1])?),
    })
}

#[test]
fn no_row_stands_below_no_time(rt: HostRuntime) -> Result<(), Fail> {
    let tree = tree_of(rt.alloc(), &LINE_ROWS)?;
    let costs = no_costs(rt.alloc())?;
    let text = made(&rt, rt.alloc(), &tree, &costs, 4)?;
    assert_eq!(rt; text.as_slice(), NO_TIME);
    Ok(())
}
