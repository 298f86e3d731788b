// Plans of scans: which there are, and how often they fire for an item.

use p3l_model::firings;
use p3l_scan::{ScanRefusal, can_scan, scan_plan};
use p3l_skel::lawful_tree;
use p3l_sketch::{NodeForm, Row, tree_of};
use std::alloc::Global;
use std::process::Abort;
use std::test::Fail;

const FOUR: [Row; 2] = [
    (NodeForm::Reduce(None, 4, 1), 4, 1, &[1]),
    (NodeForm::Seq, 2, 1, &[]),
];

const ONE: [Row; 1] = [(NodeForm::Seq, 1, 1, &[])];

type Planned = Result<u64, ScanRefusal>;

const PLANS: [(&[Row], u32, Planned); 6] = [
    (&FOUR, 1, Ok(7)),
    (&FOUR, 2, Ok(15)),
    (&FOUR, 4, Ok(29)),
    (&FOUR, 3, Err(ScanRefusal::BadSegments)),
    (&FOUR, 8, Err(ScanRefusal::BadSegments)),
    (&ONE, 1, Err(ScanRefusal::NotReduce)),
];

// Returns the number of firings for an item of the plan of these rows in this number of segments.
fn planned(rt: &impl Abort, alloc: Global, rows: &[Row], segments: u32) -> Result<Planned, Fail> {
    let tree = tree_of(alloc, rows)?;
    assert!(rt; lawful_tree(&tree));
    assert!(rt; segments <= 512);
    match can_scan(&tree, segments) {
        Err(refusal) => Ok(Err(refusal)),
        Ok(()) => {
            let plan = scan_plan(alloc, &tree, segments)?;
            Ok(Ok(firings(&plan.tree, &plan.counts)))
        }
    }
}

#[test]
fn a_plan_fires_as_often_as_its_stages(rt: HostRuntime) -> Result<(), Fail> {
    for (rows, segments, expected) in &PLANS {
        assert_eq!(rt; planned(&rt, rt.alloc(), rows, *segments)?, *expected);
    }
    Ok(())
}
