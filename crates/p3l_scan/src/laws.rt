// Laws of plans and scans: each is the contract of a function that does nothing.

ghost use Rattle.p3l_skel.specs.Item.{item};
ghost use Rattle.p3l_scan.specs.Placed.{LinksTheTemplate};
ghost use Rattle.p3l_scan.specs.Staged.{GoesByStages, NeverGuards, TrapsAsTheOperator};
ghost use Rattle.p3l_scan.specs.Step.{step_leaf};
ghost use Rattle.p3l_scan.specs.Value.{EndsWithTheFold, IsScan};

use crate::units::ScanUnits;
use p3l_skel::Units;

/// The root of a plan turns an item into the scan of its elements, or into the trap that the scan comes to;
/// so its outcome doesn't depend on the number of segments.
pub fn a_plan_scans<U: Units>(_units: &ScanUnits<U>)
    ensures { IsScan _units.now.levels _units.now.words _units.now.elem
        (step_leaf _units.now.elem
        (item (U.tree _units.now.inner) (U.leaf _units.now.inner) _units.now.op))
        (item (U.tree _units.now.inner) (U.leaf _units.now.inner) _units.now.op) }
{
    _units.look();
}

/// The root of a plan turns an item into what its stages in order turn it into, each block by block
/// and without any guard; so of several traps the first by stage, and then by block, comes out.
pub fn a_plan_goes_by_stages<U: Units>(_units: &ScanUnits<U>)
    ensures { GoesByStages _units.now.levels _units.now.words _units.now.elem
        (step_leaf _units.now.elem
        (item (U.tree _units.now.inner) (U.leaf _units.now.inner) _units.now.op))
        (item (U.tree _units.now.inner) (U.leaf _units.now.inner) _units.now.op) }
{
    _units.look();
}

/// A trap that comes out of a plan is one of the operator on two elements; so it has the number of
/// a module of the tree that is scanned.
pub fn a_plan_traps_as_its_operator<U: Units>(_units: &ScanUnits<U>)
    ensures { TrapsAsTheOperator _units.now.levels _units.now.words _units.now.elem
        (step_leaf _units.now.elem
        (item (U.tree _units.now.inner) (U.leaf _units.now.inner) _units.now.op))
        (item (U.tree _units.now.inner) (U.leaf _units.now.inner) _units.now.op) }
{
    _units.look();
}

/// The guard of a step never acts on a block of its stage.
pub fn a_step_never_guards<U: Units>(_units: &ScanUnits<U>)
    ensures { NeverGuards _units.now.levels _units.now.words _units.now.elem
        (item (U.tree _units.now.inner) (U.leaf _units.now.inner) _units.now.op) }
{
    _units.look();
}

/// The last of a scan's folds is the tree fold of the elements.
pub fn a_scan_ends_with_the_fold()
    ensures { EndsWithTheFold }
{}

/// The linked net of a plan is the source, the sink and the template of the scan between them.
pub fn a_plan_links_its_template()
    ensures { LinksTheTemplate }
{}
