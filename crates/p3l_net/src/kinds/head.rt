// Heads of loops.

ghost use Rattle.std.specs.Prelude.{◌≡◌, None, Some, slice_get, true, false};
ghost use Rattle.p3l_firing.specs.declared.process.Proc.{Proc};
ghost use Rattle.p3l_firing.specs.Lists.{has_first};
ghost use Rattle.p3l_firing.specs.Nodes.{Leaf};
ghost use Rattle.p3l_firing.specs.Process.{in_of};
ghost use Rattle.p3l_net.specs.Channel.{tokens_at};
ghost use Rattle.p3l_net.specs.Machine.{Stands};
ghost use Rattle.p3l_net.specs.Steps.{Done, MayFire, ready_at};

use crate::store::Store;
use crate::touched::Touched;
use p3l_firing::{Proc, ProcKind};

impl<'t> Store<'t> {
    // Returns true exactly if a head can fire.
    pub(super) fn can_head(&self, p: u32, process: &Proc) -> bool
        requires stands { Stands self.now p process.now }
        requires kind { process.now.kind ≡ ProcKind.Head }
        ensures { result ≡ ready_at self.now p }
    {
        let outside = process.nth_input(0);
        let back = process.nth_input(1);
        let credits = process.nth_input(2);
        let body = process.output();
        let room = self.has_room(body);
        let comes_back = self.has_token(back);
        let comes_in = self.has_token(outside);
        let has_credit = self.has_token(credits);
        room & (comes_back | (comes_in & has_credit))
    }

    // The head `p` sends a token round that came back, or lets one in. Returns the channels
    // touched.
    pub(super) fn fire_head(&mut self, p: u32) -> Touched
        requires { MayFire self.old p ProcKind.Head }
        ensures { (leaf : Leaf) → Done leaf self.old self.new p result None }
    {
        let process = self.process(p);
        let back = process.nth_input(1);
        let comes_back = self.has_token(back);
        if comes_back {
            self.send_round(p)
        } else {
            self.let_in(p)
        }
    }

    // The head `p` sends a token round that came back.
    fn send_round(&mut self, p: u32) -> Touched
        requires may { MayFire self.old p ProcKind.Head }
        requires back { (q : Proc) → slice_get self.old.net.procs p ≡ Some q
            → has_first (tokens_at self.old.queues (in_of q 1)) ≡ true }
        ensures { (leaf : Leaf) → Done leaf self.old self.new p result None }
    {
        let process = self.process(p);
        let back = process.nth_input(1);
        let body = process.output();
        let token = self.take(back);
        self.put(body, token);
        self.tick();
        Touched::two(back, body)
    }

    // The head `p` takes a credit, and lets a token in, with its number and turn 1.
    fn let_in(&mut self, p: u32) -> Touched
        requires may { MayFire self.old p ProcKind.Head }
        requires none { (q : Proc) → slice_get self.old.net.procs p ≡ Some q
            → has_first (tokens_at self.old.queues (in_of q 1)) ≡ false }
        ensures { (leaf : Leaf) → Done leaf self.old self.new p result None }
    {
        let process = self.process(p);
        let outside = process.nth_input(0);
        let credits = process.nth_input(2);
        let body = process.output();
        let number = self.number(p);
        let token = self.take(outside);
        let _credit = self.take(credits);
        let numbered = token.tagged(number);
        let admitted = numbered.tagged(1);
        self.put(body, admitted);
        self.count(p);
        self.tick();
        Touched::three(outside, credits, body)
    }
}
