// The units of a plan: its steps, by the operator of the tree that is scanned.

ghost use Rattle.std.specs.Prelude.{◌≡◌, ◌≤◌, ◌-◌, ◌*◌, ◌^◌, length, map, true, IfOk};
ghost use Rattle.p3l_base.specs.Memory.{IfGiven, IfGivenOr};
ghost use Rattle.p3l_skel.specs.Item.{item, pieces};
ghost use Rattle.p3l_skel.specs.Lawful.{IsLawfulTree};
ghost use Rattle.p3l_skel.specs.Tree.{node_at};
ghost use Rattle.p3l_scan.specs.Plan.{plan_tree, step_node};
ghost use Rattle.p3l_scan.specs.Planned.{IsPlanOf};
ghost use Rattle.p3l_scan.specs.Row.{in_row};
ghost use Rattle.p3l_scan.specs.Step.{IsScanning, step_leaf};

use crate::block::{merge_halves, scan};
use crate::plan::ScanPlan;
use crate::tree::power_of_two;
use p3l_base::{NoMemory, Outcome, Words};
use p3l_skel::outcome::paired;
use p3l_skel::{Tree, Units};
use std::alloc::Global;
use std::marker::Model;

/// The bodies of a plan's nodes, over those of the tree that is scanned.
#[derive(Drop)]
pub struct ScanUnits<U: Units> {
    // The number of stages after the first, and the number of words in a block of the first.
    levels: u32,
    words: u32,
    elem: u32,
    op: u32,
    inner: U,
}

impl<U: Units> Model for ScanUnits<U> {
    ghost use Rattle.p3l_scan.specs.Step.{IsScanning, Scanning};

    ghost Value = { Scanning U };

    ghost view = { λ it. record { levels = it.levels; words = it.words; elem = it.elem; op = it.op; inner = it.inner } };

    ghost invariant = { λ it. IsScanning (U.tree it.inner) it.levels it.words it.elem it.op };
}

/// The number of words of an item of a tree.
fn root_words(tree: &Tree) -> u32
    ensures { result ≡ (node_at tree.now 0).ins }
{
    match tree.node(0) {
        Some(root) => root.ins,
        None => 0,
    }
}

impl<U: Units> ScanUnits<U> {
    /// The units of a plan of a tree, over the units of this tree.
    pub fn new(plan: &ScanPlan, inner: U) -> Result<ScanUnits<U>, NoMemory>
        requires lawful { IsLawfulTree (U.tree inner) }
        requires planned { IsPlanOf (U.tree inner) plan.now.segments plan.now }
        ensures tree { IfGiven result (λ units. plan_tree units.levels units.words ≡ plan.now.tree) }
        ensures elem { IfOk result (λ units. units.elem ≡ plan.now.elem) }
        ensures op { IfOk result (λ units. units.op ≡ plan.now.op) }
        ensures inner { IfOk result (λ units. units.inner ≡ inner) }
    {
        Ok(ScanUnits {
            levels: plan.segments.ilog2(),
            words: root_words(&plan.tree) / plan.segments,
            elem: plan.elem,
            op: plan.op,
            inner,
        })
    }

    /// States the invariant of the units.
    pub(crate) fn look(&self)
        ensures { IsScanning (U.tree self.now.inner) self.now.levels self.now.words self.now.elem
            self.now.op }
    {
        let _levels = self.levels;
    }

    /// Runs the step of stage `stage` on a block.
    fn step(&self, alloc: Global, stage: u32, block: &[i64]) -> Result<Outcome, NoMemory>
        requires there { stage ≤ self.now.levels }
        requires fits { length block.now ≡ 2 ^ stage * self.now.words }
        ensures { IfGivenOr result (λ outcome. outcome
            ≡ step_leaf self.now.elem
            (item (U.tree self.now.inner) (U.leaf self.now.inner) self.now.op) (step_node stage)
            block.now) (U.may_want ≡ true) }
    {
        if stage == 0 {
            scan(alloc, &self.inner, self.op, self.elem, block)
        } else {
            merge_halves(alloc, &self.inner, self.op, self.elem, block)
        }
    }
}

/// Runs the step of stage `stage` on `blocks` blocks of `size` words, one after the other.
///
/// A net runs the steps of a stage on its own processes; this runs them one after the other.
fn row_outcome<U: Units>(
    alloc: Global,
    units: &ScanUnits<U>,
    stage: u32,
    blocks: u32,
    size: u32,
    words: &[i64],
) -> Result<Outcome, NoMemory>
    requires there { stage ≤ units.now.levels }
    requires size { size ≡ 2 ^ stage * units.now.words }
    requires fits { length words.now ≡ blocks * size }
    ensures { IfGivenOr result (λ outcome. outcome
        ≡ in_row (map (step_leaf units.now.elem
        (item (U.tree units.now.inner) (U.leaf units.now.inner) units.now.op) (step_node stage))
        (pieces blocks size words.now))) (U.may_want ≡ true) }
{
    if blocks == 0 {
        return Ok(Outcome::Value(Words::new(alloc)));
    }
    let (block, more) = words.split_at(size as usize);
    let first = units.step(alloc, stage, block)?;
    let rest = row_outcome(alloc, units, stage, blocks - 1, size, more)?;
    paired(alloc, first, rest)
}

impl<U: Units> ScanUnits<U> {
    /// Runs stage `stage` on words.
    fn stage(&self, alloc: Global, stage: u32, words: &[i64]) -> Result<Outcome, NoMemory>
        requires there { stage ≤ self.now.levels }
        requires fits { length words.now ≡ 2 ^ (self.now.levels - stage) * (2 ^ stage * self.now.words) }
        ensures { IfGivenOr result (λ outcome. outcome
            ≡ in_row (map (step_leaf self.now.elem
            (item (U.tree self.now.inner) (U.leaf self.now.inner) self.now.op) (step_node stage))
            (pieces (2 ^ (self.now.levels - stage)) (2 ^ stage * self.now.words) words.now)))
            (U.may_want ≡ true) }
    {
        let blocks = power_of_two(self.levels - stage);
        let size = power_of_two(stage) * self.words;
        row_outcome(alloc, self, stage, blocks, size, words)
    }
}

impl<U: Units> Units for ScanUnits<U> {
    ghost use Rattle.p3l_skel.specs.Item.{item};
    ghost use Rattle.p3l_scan.specs.Plan.{plan_tree};
    ghost use Rattle.p3l_scan.specs.Step.{step_leaf};
    ghost use Rattle.p3l_scan.specs.laws.Step.{gives_outs};

    ghost tree = { λ s. plan_tree s.levels s.words };

    ghost leaf = { λ s. step_leaf s.elem (item (U.tree s.inner) (U.leaf s.inner) s.op) };

    ghost may_want = { U.may_want };

    ghost gives_outs = { λ s. gives_outs s.levels s.words s.elem
        (item (U.tree s.inner) (U.leaf s.inner) s.op) };

    fn run(&self, alloc: Global, node: u32, words: &Words) -> Result<Outcome, NoMemory> {
        if node % 2 == 1 {
            self.stage(alloc, node / 2, words.as_slice())
        } else {
            self.step(alloc, node / 2 - 1, words.as_slice())
        }
    }
}
