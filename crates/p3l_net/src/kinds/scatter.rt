// Scatters.

ghost use Rattle.std.specs.Prelude.{◌≡◌, ◌<◌, true, length, None, OnErr};
ghost use Rattle.p3l_base.specs.Memory.{IfGiven};
ghost use Rattle.p3l_base.specs.declared.outcome.Outcome.TheVariants.{Value};
ghost use Rattle.p3l_base.specs.Cut.{HasLawfulIns, element_count, element_words};
ghost use Rattle.p3l_skel.specs.Item.{on_value};
ghost use Rattle.p3l_firing.specs.Lists.{has_first, first_or};
ghost use Rattle.p3l_firing.specs.Nodes.{Leaf, element_of};
ghost use Rattle.p3l_firing.specs.State.{own_at};
ghost use Rattle.p3l_firing.specs.Token.{credit, over};
ghost use Rattle.p3l_firing.specs.kinds.Scatter.{line_of};
ghost use Rattle.p3l_net.specs.Machine.{Stands};
ghost use Rattle.p3l_net.specs.Steps.{Done, IfValue, MayFire, ready_at};

use crate::kinds::pieces::{cut_of, last_element};
use crate::store::Store;
use crate::touched::Touched;
use p3l_base::{Cut, NoMemory, Outcome};
use p3l_firing::{Proc, ProcKind, Token};
use p3l_skel::element;
use std::alloc::Global;

// Element `k` of an outcome: a trap stays as it is.
fn element_of(alloc: Global, cut: &Cut, k: u64, outcome: &Outcome) -> Result<Outcome, NoMemory>
    requires there { k < element_count cut.now }
    requires fits { IfValue outcome.now (λ words. HasLawfulIns cut.now (length words)) }
    ensures { IfGiven result (λ made. made
        ≡ on_value (λ words. Value (element_words cut.now.ins cut.now.second words k)) outcome.now) }
{
    match outcome {
        Outcome::Value(words) => Ok(Outcome::Value(element::gather(alloc, cut, words, k)?)),
        Outcome::Trapped(trap) => Ok(Outcome::Trapped(*trap)),
    }
}

impl<'t> Store<'t> {
    // The channel of the element that a scatter sends next.
    fn element_line(&self, p: u32, process: &Proc) -> u32
        requires there { p < length self.now.owns }
        requires some { 0 < length process.now.outs }
        ensures { result ≡ line_of (own_at self.now.owns p) process.now }
    {
        let outs = process.outs.as_slice();
        let line = self.number(p) % outs.len() as u64;
        outs[line as usize]
    }

    // Returns true exactly if a scatter can fire.
    pub(super) fn can_scatter(&self, p: u32, process: &Proc) -> bool
        requires stands { Stands self.now p process.now }
        requires kind { process.now.kind ≡ ProcKind.Scatter }
        ensures { result ≡ ready_at self.now p }
    {
        if self.is_holding(p) {
            let line = self.element_line(p, process);
            self.has_room(line)
        } else {
            let input = process.input();
            self.has_token(input)
        }
    }

    // The scatter `p` sends the next element of the token that it holds, or takes a token. Returns
    // the channel touched.
    pub(super) fn fire_scatter(&mut self, alloc: Global, p: u32) -> Result<Touched, NoMemory>
        requires { MayFire self.old p ProcKind.Scatter }
        ensures done { IfGiven result (λ touched. (leaf : Leaf)
            → Done leaf self.old self.new p touched None) }
        ensures err { OnErr result (self.new ≡ self.old) }
    {
        let process = self.process(p);
        let input = process.input();
        if self.is_holding(p) {
            self.send_element(alloc, p)
        } else {
            Ok(self.take_whole(p, input))
        }
    }

    // The scatter `p` sends the next element of the token that it holds, and drops it after the
    // last.
    fn send_element(&mut self, alloc: Global, p: u32) -> Result<Touched, NoMemory>
        requires may { MayFire self.old p ProcKind.Scatter }
        requires holds { has_first (own_at self.old.owns p).held ≡ true }
        ensures done { IfGiven result (λ touched. (leaf : Leaf)
            → Done leaf self.old self.new p touched None) }
        ensures err { OnErr result (self.new ≡ self.old) }
    {
        let process = self.process(p);
        let line = self.element_line(p, process);
        let last = last_element(cut_of(self.node(process.node)));
        let more = self.number(p) < last;
        let element = self.next_element(alloc, p, process)?;
        self.put(line, element);
        self.pass_piece(p, more);
        self.tick();
        Ok(Touched::one(line))
    }

    // The element that the scatter `p` sends next, with the tags of the token that it holds.
    fn next_element(&self, alloc: Global, p: u32, process: &Proc) -> Result<Token, NoMemory>
        requires stands { Stands self.now p process.now }
        requires kind { process.now.kind ≡ ProcKind.Scatter }
        requires holds { has_first (own_at self.now.owns p).held ≡ true }
        ensures { IfGiven result (λ token. token
            ≡ over (element_of self.now.tree process.now.node (own_at self.now.owns p).number)
            (first_or credit (own_at self.now.owns p).held)) }
    {
        let cut = cut_of(self.node(process.node));
        let whole = &self.held(p)[0];
        let number = self.number(p);
        let body = element_of(alloc, cut, number, &whole.body)?;
        Ok(whole.copy_with(body))
    }
}
