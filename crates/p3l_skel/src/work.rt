// The work that one item makes, counted up to the limit.

ghost use Rattle.std.specs.Prelude.{◌≡◌, ◌↔◌, ◌≤◌, ◌<◌, ◌+◌, IsTrue, min};
ghost use Rattle.p3l_skel.specs.Numbers.{most_segments, power_up_to, reduce_firings, firings_row, firings_by, segments_at, runs_row, runs_to, runs};
ghost use Rattle.p3l_base.specs.Cut.{element_count};
ghost use Rattle.p3l_skel.specs.Work.{capped, IsLight};

use crate::counts::outside_parts;
use crate::tree::{Form, NESTING, Tree};
use p3l_base::Cut;

/// The most firings, and the most runs of bodies, that one item may make.
pub const MOST_WORK: u64 = 134_217_728;

/// A way in which the results of a reduce's segments come together.
#[derive(Clone, Copy, Debug, Drop, PartialEq, Eq)]
pub enum Joining {
    /// One process gathers them all.
    Flat,
    /// A tree of processes joins them two by two.
    Tree,
}

/// A number, as far as it counts: past the limit all are alike.
pub fn capped(n: u64) -> u64
    ensures { result ≡ capped n }
{
    n.min(MOST_WORK + 1)
}

/// The greatest power of two up to a length and 512, and 1 for no length.
fn greatest_power(len: u32) -> u32
    ensures { result ≡ power_up_to 9 len }
{
    1 << len.clamp(1, 512).ilog2()
}

/// The most segments that a reduce of this form may have.
fn most_segments(form: &Form) -> u32
    ensures { result ≡ most_segments form.now }
{
    match form {
        Form::Reduce {
            workers: Some(workers),
            ..
        } => *workers,
        Form::Reduce {
            workers: None,
            len,
            ..
        } => greatest_power(*len),
        _ => 1,
    }
}

/// The firings of a reduce with this number of segments.
fn reduce_firings(joining: Joining, segments: u32) -> u64
    ensures { result ≡ reduce_firings joining segments }
{
    let segments = segments as u64;
    match joining {
        _ if segments == 1 => 1,
        Joining::Flat => 3 * segments + 2,
        Joining::Tree => 3 * segments,
    }
}

/// The count of elements of a cut, as far as they count.
fn element_count(cut: &Cut) -> u64
    ensures { result ≡ capped (element_count cut.now) }
{
    capped(cut.first as u64 * cut.second as u64)
}

/// The firings for one item of a node of this form, with `segments` segments where it is a reduce,
/// as far as they count, where its parts outside units have `inner` in all.
pub fn firings_over(form: &Form, joining: Joining, segments: u32, inner: u64) -> u64
    requires { inner ≤ 134217729 }
    ensures { result ≡ capped (firings_row (reduce_firings joining) form.now segments inner) }
{
    match form {
        Form::Seq | Form::Comp => 1,
        Form::Pipe => capped(inner),
        Form::Farm { .. } => capped(2 + inner),
        Form::Map { cut, .. } => {
            let count = element_count(cut);
            capped(2 + 2 * count + count * inner)
        }
        Form::Reduce { .. } => capped(reduce_firings(joining, segments)),
        Form::Loop { turns, .. } => {
            let turns = *turns as u64;
            capped(turns * inner + 2 * turns + 1)
        }
    }
}

/// The runs of bodies of a node of this form, where its parts have `inner` in all.
fn runs_over(form: &Form, inner: u64) -> u64
    requires { inner ≤ 134217729 }
    ensures { result ≡ capped (runs_row form.now inner) }
{
    match form {
        Form::Seq => 1,
        Form::Comp | Form::Pipe | Form::Farm { .. } => capped(inner),
        Form::Map { cut, .. } => capped(element_count(cut) * inner),
        Form::Reduce { len, .. } => capped(len.saturating_sub(1) as u64 * inner),
        Form::Loop { turns, .. } => capped(*turns as u64 * inner),
    }
}

/// The firings of a node for one item, with the most segments, as far as they count.
fn firings(tree: &Tree, joining: Joining, levels: u32, number: u32) -> u64
    ensures { result
        ≡ capped (firings_by (reduce_firings joining) tree.now (segments_at tree.now) levels number) }
{
    if levels == 0 {
        return 1;
    }
    let Some(node) = tree.node(number) else {
        return 0;
    };
    let mut inner = 0;
    for part in outside_parts(node) {
        inner = capped(inner + firings(tree, joining, levels - 1, *part));
    }
    firings_over(&node.form, joining, most_segments(&node.form), inner)
}

/// The count of times that a node runs bodies for one item, as far as it counts.
fn runs(tree: &Tree, levels: u32, number: u32) -> u64
    ensures { result ≡ capped (runs_to tree.now levels number) }
{
    if levels == 0 {
        return 1;
    }
    let Some(node) = tree.node(number) else {
        return 0;
    };
    let mut inner = 0;
    for part in node.parts.as_slice() {
        inner = capped(inner + runs(tree, levels - 1, *part));
    }
    runs_over(&node.form, inner)
}

/// Returns true exactly if one item makes no more work than the limit.
pub fn is_light(tree: &Tree) -> bool
    ensures { IsTrue result ↔ IsLight tree.now }
{
    firings(tree, Joining::Flat, NESTING, 0) <= MOST_WORK
        && firings(tree, Joining::Tree, NESTING, 0) <= MOST_WORK
        && runs(tree, NESTING, 0) <= MOST_WORK
}
