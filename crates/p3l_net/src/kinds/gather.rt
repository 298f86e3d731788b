// Gathers.

ghost use Rattle.std.specs.Prelude.{◌≡◌, ◌<◌, true, length, None, Some, OnErr, slice_get};
ghost use Rattle.p3l_base.specs.Memory.{IfGiven};
ghost use Rattle.std.specs.List.{AllByRecursion};
ghost use Rattle.p3l_base.specs.Cut.{HasLawfulOuts, element_count, element_size, joined_words};
ghost use Rattle.p3l_skel.specs.Item.{gathered};
ghost use Rattle.p3l_skel.specs.Tree.{HasLength, node_at};
ghost use Rattle.p3l_firing.specs.declared.process.Proc.{Proc};
ghost use Rattle.p3l_firing.specs.declared.token.Token.{Token};
ghost use Rattle.p3l_firing.specs.Lists.{first_or};
ghost use Rattle.p3l_firing.specs.Nodes.{Leaf, joined_of};
ghost use Rattle.p3l_firing.specs.State.{own_at};
ghost use Rattle.p3l_firing.specs.Token.{bodies, credit};
ghost use Rattle.p3l_firing.specs.kinds.Gather.{is_full, line_of};
ghost use Rattle.p3l_net.specs.Forms.{IsMap};
ghost use Rattle.p3l_net.specs.Machine.{Stands};
ghost use Rattle.p3l_net.specs.Steps.{Done, MayFire, ready_at};

use crate::kinds::pieces::{cut_of, last_element};
use crate::store::Store;
use crate::touched::Touched;
use p3l_base::{Cut, List, NoMemory, Outcome, join};
use p3l_firing::{Proc, ProcKind, Token};
use p3l_skel::outcome::copied;
use std::alloc::Global;

// The first trap of the results of all elements, else the whole token that their words fill.
fn joined_of(alloc: Global, cut: &Cut, held: &[Token]) -> Result<Outcome, NoMemory>
    requires outs { HasLawfulOuts cut.now }
    requires count { length held.now ≡ element_count cut.now }
    requires sizes { AllByRecursion (λ (token : Token). HasLength (element_size cut.now.outs)
        token.body) held.now }
    ensures { IfGiven result (λ whole. whole ≡ gathered (joined_words cut.now) (bodies held.now)) }
{
    let mut results = List::new(alloc);
    for token in held {
        match &token.body {
            Outcome::Value(words) => results.push(copied(alloc, words)?)?,
            Outcome::Trapped(trap) => return Ok(Outcome::Trapped(*trap)),
        }
    }
    Ok(Outcome::Value(join(alloc, cut, &results)?))
}

impl<'t> Store<'t> {
    // The channel of the result that a gather takes next.
    fn result_line(&self, p: u32, process: &Proc) -> u32
        requires there { p < length self.now.owns }
        requires some { 0 < length process.now.ins }
        ensures { result ≡ line_of (own_at self.now.owns p) process.now }
    {
        let ins = process.ins.as_slice();
        let line = self.held(p).len() % ins.len();
        ins[line]
    }

    // Returns true exactly if a gather holds the results of all elements.
    fn has_all_results(&self, p: u32, process: &Proc) -> bool
        requires there { p < length self.now.owns }
        requires node { process.now.node < length self.now.tree.nodes }
        requires map { IsMap (node_at self.now.tree process.now.node).form }
        ensures { result ≡ is_full self.now.tree (own_at self.now.owns p) process.now }
    {
        let last = last_element(cut_of(self.node(process.node)));
        last < self.held(p).len() as u64
    }

    // Returns true exactly if a gather can fire.
    pub(super) fn can_gather(&self, p: u32, process: &Proc) -> bool
        requires stands { Stands self.now p process.now }
        requires kind { process.now.kind ≡ ProcKind.Gather }
        ensures { result ≡ ready_at self.now p }
    {
        if self.has_all_results(p, process) {
            let output = process.output();
            self.has_room(output)
        } else {
            let line = self.result_line(p, process);
            self.has_token(line)
        }
    }

    // The gather `p` joins the results that it holds, if these are all; else it takes the next one.
    // Returns the channel touched.
    pub(super) fn fire_gather(&mut self, alloc: Global, p: u32) -> Result<Touched, NoMemory>
        requires { MayFire self.old p ProcKind.Gather }
        ensures done { IfGiven result (λ touched. (leaf : Leaf)
            → Done leaf self.old self.new p touched None) }
        ensures err { OnErr result (self.new ≡ self.old) }
    {
        let process = self.process(p);
        let line = self.result_line(p, process);
        if self.has_all_results(p, process) {
            self.send_whole(alloc, p)
        } else {
            self.take_piece(p, line)
        }
    }

    // The gather `p` sends the whole that the results which it holds make, and drops them.
    fn send_whole(&mut self, alloc: Global, p: u32) -> Result<Touched, NoMemory>
        requires may { MayFire self.old p ProcKind.Gather }
        requires full { (q : Proc) → slice_get self.old.net.procs p ≡ Some q
            → is_full self.old.tree (own_at self.old.owns p) q ≡ true }
        ensures done { IfGiven result (λ touched. (leaf : Leaf)
            → Done leaf self.old self.new p touched None) }
        ensures err { OnErr result (self.new ≡ self.old) }
    {
        let process = self.process(p);
        let output = process.output();
        let whole = self.whole_held(alloc, p, process)?;
        self.put(output, whole);
        self.release(p);
        self.tick();
        Ok(Touched::one(output))
    }

    // The results that the gather `p` holds, made one, with the tags of the first.
    fn whole_held(&self, alloc: Global, p: u32, process: &Proc) -> Result<Token, NoMemory>
        requires stands { Stands self.now p process.now }
        requires kind { process.now.kind ≡ ProcKind.Gather }
        requires full { is_full self.now.tree (own_at self.now.owns p) process.now ≡ true }
        ensures { IfGiven result (λ token. token ≡ record {
          tags = (first_or credit (own_at self.now.owns p).held).tags;
          body = joined_of self.now.tree process.now.node (bodies (own_at self.now.owns p).held);
        }) }
    {
        let cut = cut_of(self.node(process.node));
        let held = self.held(p);
        let body = joined_of(alloc, cut, held)?;
        Ok(held[0].copy_with(body))
    }
}
