// The plan of a scan: a pipe of stages, each a map over blocks.

ghost use Rattle.std.specs.Prelude.{◌≡◌, ◌↔◌, ◌≤◌, ◌*◌, ℕ, IfOk, IfErr, IsTrue};
ghost use Rattle.p3l_base.specs.Limits.{most_workers};
ghost use Rattle.p3l_base.specs.Memory.{IfGiven};
ghost use Rattle.std.specs.Int.{IsPowerOfTwo};
ghost use Rattle.p3l_skel.specs.Lawful.{IsLawfulTree};
ghost use Rattle.p3l_scan.specs.Plan.{IsScannable};
ghost use Rattle.p3l_scan.specs.Planned.{IsPlanOf, IsRunnable, IsUnscannable};

use crate::refusal::ScanRefusal;
use crate::tree::{plan_counts, plan_tree};
use p3l_base::NoMemory;
use p3l_skel::{Counts, Form, Tree};
use std::alloc::Global;

/// A pipe of stages, each a map over blocks, with the numbers of blocks.
///
/// The first stage scans each of the `segments` blocks; each later one merges the two halves of its
/// blocks, which are half as many.
#[derive(Debug, Drop)]
pub struct ScanPlan {
    pub tree: Tree,
    pub counts: Counts,
    /// The operator, a node of the tree that is scanned.
    pub op: u32,
    /// The number of words of an element.
    pub elem: u32,
    pub segments: u32,
}

/// Tests a number for a power of two.
fn is_power_of_two(n: u32) -> bool
    ensures { IsTrue result ↔ IsPowerOfTwo n }
{
    n != 0 && 1 << n.ilog2() == n
}

/// Tests that `segments` is a power of two that divides `len`.
fn divides(segments: u32, len: u32) -> bool
    ensures { IsTrue result ↔ (IsPowerOfTwo segments × ((size : ℕ) × (len ≡ segments * size))) }
{
    is_power_of_two(segments) && len % segments == 0
}

/// Tests that the root of a tree can be scanned in `segments` segments.
pub fn can_scan(tree: &Tree, segments: u32) -> Result<(), ScanRefusal>
    requires few { segments ≤ most_workers }
    ensures can { IfOk result (λ _. IsScannable tree.now segments) }
    ensures refused { IfErr result (IsUnscannable tree.now segments) }
{
    let Some(root) = tree.node(0) else {
        return Err(ScanRefusal::NotReduce);
    };
    let Form::Reduce { len, .. } = &root.form else {
        return Err(ScanRefusal::NotReduce);
    };
    if divides(segments, *len) {
        Ok(())
    } else {
        Err(ScanRefusal::BadSegments)
    }
}

/// The plan of a scan of a tree's root, in `segments` segments.
pub fn scan_plan(alloc: Global, tree: &Tree, segments: u32) -> Result<ScanPlan, NoMemory>
    requires lawful { IsLawfulTree tree.now }
    requires can { IsScannable tree.now segments }
    ensures planned { IfGiven result (IsPlanOf tree.now segments) }
    ensures runs { IfOk result IsRunnable }
{
    let Some(root) = tree.node(0) else {
        unreachable!();
    };
    let Form::Reduce { len, elem, .. } = &root.form else {
        unreachable!();
    };
    let levels = segments.ilog2();
    let tree = plan_tree(alloc, levels, *len / segments * *elem)?;
    let counts = plan_counts(alloc, levels)?;
    Ok(ScanPlan {
        tree,
        counts: Counts { list: counts },
        op: root.part(0),
        elem: *elem,
        segments,
    })
}
