// Joins.

ghost use Rattle.std.specs.Prelude.{◌≡◌, ◌+◌, true, length, None, OnErr};
ghost use Rattle.p3l_base.specs.Memory.{IfGivenOr};
ghost use Rattle.p3l_net.specs.Machine.{Stands};
ghost use Rattle.p3l_net.specs.Steps.{Done, IfValues, MayFire, ready_at};
ghost use Rattle.p3l_skel.specs.Fold.{combined};
ghost use Rattle.p3l_skel.specs.Item.{item};
ghost use Rattle.p3l_skel.specs.Tree.{IsUnit, HasFittingLength};

use crate::store::Store;
use crate::touched::Touched;
use p3l_base::{NoMemory, Outcome, Words};
use p3l_firing::{Proc, ProcKind};
use p3l_skel::Units;
use std::alloc::Global;

// The outcome of an operator on two outcomes: the left trap, else the right trap, else what its
// node makes of the words of the left followed by those of the right.
pub(super) fn combined_of<U: Units>(
    alloc: Global,
    units: &U,
    operator: u32,
    left: &Outcome,
    right: &Outcome,
) -> Result<Outcome, NoMemory>
    requires sequential { IsUnit (U.tree units.now) operator }
    requires fits { IfValues left.now right.now (λ v w. HasFittingLength (U.tree units.now)
        operator (length v + length w)) }
    ensures { IfGivenOr result (λ made. made
        ≡ combined (item (U.tree units.now) (U.leaf units.now) operator) left.now right.now)
        (U.may_want ≡ true) }
{
    match (left, right) {
        (Outcome::Trapped(trap), _) => Ok(Outcome::Trapped(*trap)),
        (Outcome::Value(_), Outcome::Trapped(trap)) => Ok(Outcome::Trapped(*trap)),
        (Outcome::Value(left), Outcome::Value(right)) => {
            let both = Words::joined(alloc, left.as_slice(), right.as_slice())?;
            units.run(alloc, operator, &both)
        }
    }
}

impl<'t> Store<'t> {
    // Returns true exactly if a join can fire.
    pub(super) fn can_join(&self, p: u32, process: &Proc) -> bool
        requires stands { Stands self.now p process.now }
        requires kind { process.now.kind ≡ ProcKind.Join }
        ensures { result ≡ ready_at self.now p }
    {
        let left = process.nth_input(0);
        let right = process.nth_input(1);
        let output = process.output();
        let left_comes = self.has_token(left);
        let right_comes = self.has_token(right);
        let room = self.has_room(output);
        left_comes & (right_comes & room)
    }

    // The join `p` takes a token on both sides, and appends what the operator makes of them, with
    // the left one's tags. Returns the channels touched.
    pub(super) fn fire_join<U: Units>(
        &mut self,
        alloc: Global,
        units: &U,
        p: u32,
    ) -> Result<Touched, NoMemory>
        requires may { MayFire self.old p ProcKind.Join }
        requires units { U.tree units.now ≡ self.old.tree }
        ensures done { IfGivenOr result (λ touched. Done (U.leaf units.now)
            self.old self.new p touched None) (U.may_want ≡ true) }
        ensures err { OnErr result (self.new ≡ self.old) }
    {
        let process = self.process(p);
        let left = process.nth_input(0);
        let right = process.nth_input(1);
        let output = process.output();
        let operator = self.node(process.node).part(0);
        let outcome = combined_of(
            alloc,
            units,
            operator,
            self.front_body(left),
            self.front_body(right),
        )?;
        let token = self.take(left);
        let _right = self.take(right);
        self.put(output, token.with_body(outcome));
        self.tick();
        Ok(Touched::three(left, right, output))
    }
}
