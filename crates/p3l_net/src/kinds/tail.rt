// Tails of loops.

ghost use Rattle.std.specs.Prelude.{◌≡◌, ◌<◌, [], None, Some, true, false, length, slice_get, OnErr};
ghost use Rattle.p3l_base.specs.Memory.{IfGivenOr};
ghost use Rattle.p3l_base.specs.declared.outcome.Outcome.{Outcome};
ghost use Rattle.p3l_base.specs.declared.outcome.Outcome.TheVariants.{Trapped};
ghost use Rattle.p3l_skel.specs.Tree.{IsUnit, HasFittingLength};
ghost use Rattle.p3l_firing.specs.declared.process.Proc.{Proc};
ghost use Rattle.p3l_firing.specs.Lists.{has_first, first_or};
ghost use Rattle.p3l_firing.specs.Nodes.{Leaf, outcome_of, most_turns};
ghost use Rattle.p3l_firing.specs.Process.{in_of};
ghost use Rattle.p3l_firing.specs.State.{own_at};
ghost use Rattle.p3l_firing.specs.Token.{credit};
ghost use Rattle.p3l_firing.specs.kinds.Tail.{by_test, can_release, next_turn, turn_of};
ghost use Rattle.p3l_net.specs.Channel.{tokens_at};
ghost use Rattle.p3l_net.specs.Machine.{Stands, may_want_memory, state_of};
ghost use Rattle.p3l_net.specs.Steps.{Done, IfValue, MayFire, ready_at};
ghost use Rattle.p3l_net.specs.Turns.{row_turn};

use crate::store::Store;
use crate::touched::Touched;
use p3l_base::{NoMemory, Outcome, Trap, TrapKind};
use p3l_firing::{Proc, ProcKind, Token};
use p3l_skel::outcome::is_done;
use p3l_skel::{Form, Units};
use std::alloc::Global;

// The turn of a token that comes out of the body, as its tail decides it.
#[derive(Clone, Copy, Debug, Drop)]
enum Turn {
    // It holds the token.
    Stays,
    // It holds the token, whose outcome is this trap from now on.
    Traps(Trap),
    // It sends the token round once more.
    Again,
}

// By the condition's outcome on the value of a token, the trap of spent turns, and whether more
// turns are left.
fn by_test(answer: &Outcome, spent: Trap, more: bool) -> Turn
    ensures { (body : Outcome)
        → row_turn result body ≡ by_test answer.now body (Trapped spent) more }
{
    match answer {
        Outcome::Trapped(trap) => Turn::Traps(*trap),
        Outcome::Value(words) => {
            if is_done(words) {
                Turn::Stays
            } else if more {
                Turn::Again
            } else {
                Turn::Traps(spent)
            }
        }
    }
}

// Decides the turn of a token with this outcome: a trap stays, and a value goes by the condition's
// outcome on it.
fn turn_of<U: Units>(
    alloc: Global,
    units: &U,
    condition: u32,
    spent: Trap,
    more: bool,
    body: &Outcome,
) -> Result<Turn, NoMemory>
    requires sequential { IsUnit (U.tree units.now) condition }
    requires fits { IfValue body.now (λ words. HasFittingLength (U.tree units.now)
        condition (length words)) }
    ensures { IfGivenOr result (λ turn. row_turn turn body.now
        ≡ turn_of (outcome_of (U.tree units.now) (U.leaf units.now) condition) (Trapped spent)
        more body.now) (U.may_want ≡ true) }
{
    match body {
        Outcome::Trapped(_) => Ok(Turn::Stays),
        Outcome::Value(words) => {
            let answer = units.run(alloc, condition, words)?;
            Ok(by_test(&answer, spent, more))
        }
    }
}

// The most turns of a form, if it is that of a loop.
fn most_turns(form: &Form) -> u32
    ensures { result ≡ most_turns form.now }
{
    match form {
        Form::Loop { turns, .. } => *turns,
        _ => 0,
    }
}

impl<'t> Store<'t> {
    // Returns true exactly if a tail can let a token out.
    fn can_release(&self, p: u32, process: &Proc) -> bool
        requires stands { Stands self.now p process.now }
        requires kind { process.now.kind ≡ ProcKind.Tail }
        ensures { result
            ≡ can_release self.now.net (state_of self.now []) (own_at self.now.owns p) process.now }
    {
        let outside = process.output();
        let credits = process.nth_output(2);
        let due = self.holds_expected(p);
        let room = self.has_room(outside);
        let credit_room = self.has_room(credits);
        due & (room & credit_room)
    }

    // Returns true exactly if a tail can fire.
    pub(super) fn can_tail(&self, p: u32, process: &Proc) -> bool
        requires stands { Stands self.now p process.now }
        requires kind { process.now.kind ≡ ProcKind.Tail }
        ensures { result ≡ ready_at self.now p }
    {
        let input = process.input();
        let back = process.nth_output(1);
        let lets_out = self.can_release(p, process);
        let comes = self.has_token(input);
        let room = self.has_room(back);
        lets_out | (comes & room)
    }

    // The tail `p` lets a token out, if it can; else it takes one. Returns the channels
    // touched.
    pub(super) fn fire_tail<U: Units>(
        &mut self,
        alloc: Global,
        units: &U,
        p: u32,
    ) -> Result<Touched, NoMemory>
        requires may { MayFire self.old p ProcKind.Tail }
        requires units { U.tree units.now ≡ self.old.tree }
        ensures done { IfGivenOr result (λ touched. Done (U.leaf units.now)
            self.old self.new p touched None) (U.may_want ≡ true) }
        ensures err { OnErr result (self.new ≡ self.old) }
        ensures memory { OnErr result (may_want_memory self.old p ≡ true) }
    {
        let process = self.process(p);
        if self.can_release(p, process) {
            Ok(self.let_token_out(alloc, p))
        } else {
            self.take_turn(alloc, units, p)
        }
    }

    // The tail `p` lets the token out that is expected, without its two tags, and returns its
    // credit.
    fn let_token_out(&mut self, alloc: Global, p: u32) -> Touched
        requires may { MayFire self.old p ProcKind.Tail }
        requires leaves { (q : Proc) → slice_get self.old.net.procs p ≡ Some q
            → can_release self.old.net (state_of self.old []) (own_at self.old.owns p) q ≡ true }
        ensures { (leaf : Leaf) → Done leaf self.old self.new p result None }
    {
        let process = self.process(p);
        let outside = process.output();
        let credits = process.nth_output(2);
        let token = self.pop_expected(p);
        self.put(outside, token.untagged().untagged());
        self.put(credits, Token::credit(alloc));
        self.tick();
        Touched::two(outside, credits)
    }

    // The tail `p` takes the token that comes out of the body: it holds it, or sends it round once
    // more.
    fn take_turn<U: Units>(&mut self, alloc: Global, units: &U, p: u32) -> Result<Touched, NoMemory>
        requires may { MayFire self.old p ProcKind.Tail }
        requires stays { (q : Proc) → slice_get self.old.net.procs p ≡ Some q
            → can_release self.old.net (state_of self.old []) (own_at self.old.owns p) q ≡ false }
        requires units { U.tree units.now ≡ self.old.tree }
        ensures done { IfGivenOr result (λ touched. Done (U.leaf units.now)
            self.old self.new p touched None) (U.may_want ≡ true) }
        ensures err { OnErr result (self.new ≡ self.old) }
    {
        let process = self.process(p);
        let input = process.input();
        let back = process.nth_output(1);
        match self.next_turn(alloc, units, p, process)? {
            Turn::Stays => {
                self.gather(p, input)?;
                self.tick();
                Ok(Touched::one(input))
            }
            Turn::Traps(trap) => {
                self.gather_trapped(p, input, trap)?;
                self.tick();
                Ok(Touched::one(input))
            }
            Turn::Again => {
                let token = self.take(input);
                self.put(back, token.once_more());
                self.tick();
                Ok(Touched::two(input, back))
            }
        }
    }

    // Decides the turn of the token that comes out of the body.
    fn next_turn<U: Units>(
        &self,
        alloc: Global,
        units: &U,
        p: u32,
        process: &Proc,
    ) -> Result<Turn, NoMemory>
        requires stands { Stands self.now p process.now }
        requires kind { process.now.kind ≡ ProcKind.Tail }
        requires comes { has_first (tokens_at self.now.queues (in_of process.now 0)) ≡ true }
        requires units { U.tree units.now ≡ self.now.tree }
        ensures { IfGivenOr result (λ turn.
            row_turn turn (first_or credit (tokens_at self.now.queues (in_of process.now 0))).body
            ≡ next_turn self.now.tree (U.leaf units.now) (state_of self.now []) process.now)
            (U.may_want ≡ true) }
    {
        let input = process.input();
        let node = self.node(process.node);
        let more = self.front_newest_tag(input) < most_turns(&node.form) as u64;
        let spent = Trap {
            kind: TrapKind::Turns,
            module: node.module,
        };
        turn_of(
            alloc,
            units,
            node.part(1),
            spent,
            more,
            self.front_body(input),
        )
    }
}
