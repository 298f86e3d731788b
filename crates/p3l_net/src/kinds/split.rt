// Splits.

ghost use Rattle.std.specs.Prelude.{◌≡◌, ◌<◌, ◌≤◌, true, length, None, OnErr};
ghost use Rattle.p3l_base.specs.Limits.{most_workers};
ghost use Rattle.p3l_base.specs.Memory.{IfGiven};
ghost use Rattle.std.specs.Int.{IsPowerOfTwo};
ghost use Rattle.p3l_base.specs.declared.outcome.Outcome.TheVariants.{Value};
ghost use Rattle.p3l_skel.specs.Item.{on_value};
ghost use Rattle.p3l_firing.specs.Lists.{has_first, first_or};
ghost use Rattle.p3l_firing.specs.Nodes.{Leaf, elem_of, segment_of};
ghost use Rattle.p3l_firing.specs.Process.{out_of};
ghost use Rattle.p3l_firing.specs.Segments.{segment_words};
ghost use Rattle.p3l_firing.specs.State.{own_at};
ghost use Rattle.p3l_firing.specs.Token.{credit, over};
ghost use Rattle.p3l_net.specs.Forms.{IsReduce, IsInElements};
ghost use Rattle.p3l_net.specs.Machine.{Stands};
ghost use Rattle.p3l_net.specs.Steps.{Done, IfValue, MayFire, ready_at};

use crate::store::Store;
use crate::touched::Touched;
use p3l_base::{NoMemory, Outcome, Words};
use p3l_firing::{Proc, ProcKind, Token};
use p3l_skel::{Form, Node};
use std::alloc::Global;

// The count of words of a reduce's element.
fn elem_of(node: &Node) -> u32
    requires { IsReduce node.now.form }
    ensures { result ≡ elem_of node.now.form }
{
    match &node.form {
        Form::Reduce { elem, .. } => *elem,
        _ => unreachable!(),
    }
}

// Segment `s` of the `count` segments of elements of `elem` words each: one of the two halves'.
#[cycle(segment)]
fn segment(words: &[i64], elem: usize, count: usize, s: usize) -> &[i64]
    requires some { 0 < elem }
    requires whole { IsInElements elem (length words.now) }
    requires power { IsPowerOfTwo count }
    requires few { count ≤ most_workers }
    requires there { s < count }
    ensures { result.now ≡ segment_words elem count s words.now }
{
    if count < 2 {
        return words;
    }
    let (front, back) = words.split_at(words.len() / elem / 2 * elem);
    let half = count / 2;
    if s < half {
        segment(front, elem, half, s)
    } else {
        segment(back, elem, half, s - half)
    }
}

// Segment `s` of `count` of an outcome: a trap stays as it is.
fn segment_of(
    alloc: Global,
    elem: u32,
    count: usize,
    s: usize,
    outcome: &Outcome,
) -> Result<Outcome, NoMemory>
    requires some { 0 < elem }
    requires fits { IfValue outcome.now (λ words. IsInElements elem (length words)) }
    requires power { IsPowerOfTwo count }
    requires few { count ≤ most_workers }
    requires there { s < count }
    ensures { IfGiven result (λ made. made
        ≡ on_value (λ words. Value (segment_words elem count s words)) outcome.now) }
{
    match outcome {
        Outcome::Value(words) => {
            let part = segment(words.as_slice(), elem as usize, count, s);
            Ok(Outcome::Value(Words::from_slice(alloc, part)?))
        }
        Outcome::Trapped(trap) => Ok(Outcome::Trapped(*trap)),
    }
}

impl<'t> Store<'t> {
    // The channel of the segment that a split sends next.
    fn segment_line(&self, p: u32, process: &Proc) -> u32
        requires there { p < length self.now.owns }
        requires number { (own_at self.now.owns p).number < length process.now.outs }
        ensures { result ≡ out_of process.now (own_at self.now.owns p).number }
    {
        let number = self.number(p);
        process.outs.as_slice()[number as usize]
    }

    // Returns true exactly if a split can fire.
    pub(super) fn can_split(&self, p: u32, process: &Proc) -> bool
        requires stands { Stands self.now p process.now }
        requires kind { process.now.kind ≡ ProcKind.Split }
        ensures { result ≡ ready_at self.now p }
    {
        if self.is_holding(p) {
            let line = self.segment_line(p, process);
            self.has_room(line)
        } else {
            let input = process.input();
            self.has_token(input)
        }
    }

    // The split `p` sends the next segment of the token that it holds, or takes a token. Returns
    // the channel touched.
    pub(super) fn fire_split(&mut self, alloc: Global, p: u32) -> Result<Touched, NoMemory>
        requires { MayFire self.old p ProcKind.Split }
        ensures done { IfGiven result (λ touched. (leaf : Leaf)
            → Done leaf self.old self.new p touched None) }
        ensures err { OnErr result (self.new ≡ self.old) }
    {
        let process = self.process(p);
        let input = process.input();
        if self.is_holding(p) {
            self.send_segment(alloc, p)
        } else {
            Ok(self.take_whole(p, input))
        }
    }

    // The split `p` sends the next segment of the token that it holds, and drops it after the
    // last.
    fn send_segment(&mut self, alloc: Global, p: u32) -> Result<Touched, NoMemory>
        requires may { MayFire self.old p ProcKind.Split }
        requires holds { has_first (own_at self.old.owns p).held ≡ true }
        ensures done { IfGiven result (λ touched. (leaf : Leaf)
            → Done leaf self.old self.new p touched None) }
        ensures err { OnErr result (self.new ≡ self.old) }
    {
        let process = self.process(p);
        let line = self.segment_line(p, process);
        let next = self.number(p) + 1;
        let more = next < process.outs.len() as u64;
        let segment = self.next_segment(alloc, p, process)?;
        self.put(line, segment);
        self.pass_piece(p, more);
        self.tick();
        Ok(Touched::one(line))
    }

    // The segment that the split `p` sends next, with the tags of the token that it holds.
    fn next_segment(&self, alloc: Global, p: u32, process: &Proc) -> Result<Token, NoMemory>
        requires stands { Stands self.now p process.now }
        requires kind { process.now.kind ≡ ProcKind.Split }
        requires holds { has_first (own_at self.now.owns p).held ≡ true }
        ensures { IfGiven result (λ token. token
            ≡ over (segment_of self.now.tree process.now.node (length process.now.outs)
            (own_at self.now.owns p).number) (first_or credit (own_at self.now.owns p).held)) }
    {
        let elem = elem_of(self.node(process.node));
        let count = process.outs.len();
        let whole = &self.held(p)[0];
        let number = self.number(p) as usize;
        let body = segment_of(alloc, elem, count, number, &whole.body)?;
        Ok(whole.copy_with(body))
    }
}
