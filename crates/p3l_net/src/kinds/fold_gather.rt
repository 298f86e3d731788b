// Processes that gather the outcomes of segments, and fold them.

ghost use Rattle.std.specs.Prelude.{◌≡◌, ◌<◌, ◌≤◌, true, length, None, Some, IfOk, OnErr, slice_get};
ghost use Rattle.p3l_base.specs.Memory.{IfGivenOr};
ghost use Rattle.std.specs.List.{AllByRecursion};
ghost use Rattle.p3l_skel.specs.Fold.{tree_fold};
ghost use Rattle.p3l_skel.specs.Item.{item};
ghost use Rattle.p3l_skel.specs.Tree.{HasLength};
ghost use Rattle.p3l_firing.specs.declared.process.Proc.{Proc};
ghost use Rattle.p3l_firing.specs.declared.token.Token.{Token};
ghost use Rattle.p3l_firing.specs.Lists.{first_or};
ghost use Rattle.p3l_firing.specs.Nodes.{fold_of};
ghost use Rattle.p3l_firing.specs.State.{own_at};
ghost use Rattle.p3l_firing.specs.Token.{bodies, credit};
ghost use Rattle.p3l_firing.specs.kinds.FoldGather.{is_full, line_of};
ghost use Rattle.p3l_net.specs.Machine.{Stands};
ghost use Rattle.p3l_net.specs.Operators.{IsOperator, outs_of};
ghost use Rattle.p3l_net.specs.Steps.{Done, MayFire, ready_at};

use crate::kinds::join::combined_of;
use crate::store::Store;
use crate::touched::Touched;
use p3l_base::{NoMemory, Outcome};
use p3l_firing::copies::same;
use p3l_firing::{Proc, ProcKind, Token};
use p3l_skel::Units;
use std::alloc::Global;

// The fold by halves of what these tokens came to, of which there is one at least.
#[cycle(folded)]
fn folded<U: Units>(
    alloc: Global,
    units: &U,
    operator: u32,
    tokens: &[Token],
) -> Result<Outcome, NoMemory>
    requires operator { IsOperator (U.tree units.now) (U.leaf units.now) operator }
    requires some { 1 ≤ length tokens.now }
    requires sized { AllByRecursion (λ (token : Token).
        HasLength (outs_of (U.tree units.now) operator) token.body) tokens.now }
    ensures folded { IfGivenOr result (λ outcome. outcome
        ≡ tree_fold (item (U.tree units.now) (U.leaf units.now) operator) (bodies tokens.now))
        (U.may_want ≡ true) }
    ensures sized { IfOk result (λ outcome. HasLength (outs_of (U.tree units.now) operator) outcome) }
{
    if tokens.len() == 1 {
        return same(alloc, &tokens[0].body);
    }
    let (front, back) = tokens.split_at(tokens.len() / 2);
    let left = folded(alloc, units, operator, front)?;
    let right = folded(alloc, units, operator, back)?;
    combined_of(alloc, units, operator, &left, &right)
}

impl<'t> Store<'t> {
    // Returns true exactly if a fold-gather holds the outcomes of all segments.
    fn has_all_outcomes(&self, p: u32, process: &Proc) -> bool
        requires { p < length self.now.owns }
        ensures { result ≡ is_full (own_at self.now.owns p) process.now }
    {
        process.ins.len() <= self.held(p).len()
    }

    // The channel of the outcome that a fold-gather takes next.
    fn outcome_line(&self, p: u32, process: &Proc) -> u32
        requires there { p < length self.now.owns }
        requires more { length (own_at self.now.owns p).held < length process.now.ins }
        ensures { result ≡ line_of (own_at self.now.owns p) process.now }
    {
        process.nth_input(self.held(p).len())
    }

    // Returns true exactly if a fold-gather can fire.
    pub(super) fn can_fold_gather(&self, p: u32, process: &Proc) -> bool
        requires stands { Stands self.now p process.now }
        requires kind { process.now.kind ≡ ProcKind.FoldGather }
        ensures { result ≡ ready_at self.now p }
    {
        if self.has_all_outcomes(p, process) {
            let output = process.output();
            self.has_room(output)
        } else {
            let line = self.outcome_line(p, process);
            self.has_token(line)
        }
    }

    // The fold-gather `p` folds the outcomes that it holds, if these are all; else it takes the
    // next one. Returns the channel touched.
    pub(super) fn fire_fold_gather<U: Units>(
        &mut self,
        alloc: Global,
        units: &U,
        p: u32,
    ) -> Result<Touched, NoMemory>
        requires may { MayFire self.old p ProcKind.FoldGather }
        requires units { U.tree units.now ≡ self.old.tree }
        ensures done { IfGivenOr result (λ touched. Done (U.leaf units.now)
            self.old self.new p touched None) (U.may_want ≡ true) }
        ensures err { OnErr result (self.new ≡ self.old) }
    {
        let process = self.process(p);
        if self.has_all_outcomes(p, process) {
            self.send_fold(alloc, units, p)
        } else {
            let line = self.outcome_line(p, process);
            self.take_piece(p, line)
        }
    }

    // The fold-gather `p` sends the fold of the outcomes that it holds, and drops them.
    fn send_fold<U: Units>(&mut self, alloc: Global, units: &U, p: u32) -> Result<Touched, NoMemory>
        requires may { MayFire self.old p ProcKind.FoldGather }
        requires full { (q : Proc) → slice_get self.old.net.procs p ≡ Some q
            → is_full (own_at self.old.owns p) q ≡ true }
        requires units { U.tree units.now ≡ self.old.tree }
        ensures done { IfGivenOr result (λ touched. Done (U.leaf units.now)
            self.old self.new p touched None) (U.may_want ≡ true) }
        ensures err { OnErr result (self.new ≡ self.old) }
    {
        let process = self.process(p);
        let output = process.output();
        let fold = self.fold_held(alloc, units, p, process)?;
        self.put(output, fold);
        self.release(p);
        self.tick();
        Ok(Touched::one(output))
    }

    // The outcomes that the fold-gather `p` holds, folded, with the tags of the first.
    fn fold_held<U: Units>(
        &self,
        alloc: Global,
        units: &U,
        p: u32,
        process: &Proc,
    ) -> Result<Token, NoMemory>
        requires stands { Stands self.now p process.now }
        requires kind { process.now.kind ≡ ProcKind.FoldGather }
        requires full { is_full (own_at self.now.owns p) process.now ≡ true }
        requires units { U.tree units.now ≡ self.now.tree }
        ensures { IfGivenOr result (λ token. token ≡ record {
          tags = (first_or credit (own_at self.now.owns p).held).tags;
          body = fold_of self.now.tree (U.leaf units.now)
              process.now.node (bodies (own_at self.now.owns p).held);
        }) (U.may_want ≡ true) }
    {
        let operator = self.node(process.node).part(0);
        let held = self.held(p);
        let body = folded(alloc, units, operator, held)?;
        Ok(held[0].copy_with(body))
    }
}
