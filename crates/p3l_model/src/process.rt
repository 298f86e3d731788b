// The number of processes of a tree.

ghost use Rattle.std.specs.Prelude.{◌≡◌, ◌≤◌, ◌^◌};
ghost use Rattle.std.specs.List.{Contains};
ghost use Rattle.p3l_skel.specs.Counts.{HasLawfulCounts, outside, count_of};
ghost use Rattle.p3l_skel.specs.Lawful.{IsLawfulTree};
ghost use Rattle.p3l_skel.specs.Numbers.{joined_procs, procs, procs_by, procs_row};
ghost use Rattle.p3l_model.specs.Fitted.{fitted};

use crate::workers::workers;
use p3l_skel::counts::outside_parts;
use p3l_skel::tree::NESTING;
use p3l_skel::{Counts, Form, Tree};

/// The processes of a node outside units and of all nodes below it. The source and the sink of the
/// network aren't counted.
pub fn procs(tree: &Tree, counts: &Counts, node: u32) -> u64
    requires tree { IsLawfulTree tree.now }
    requires counts { HasLawfulCounts tree.now counts.now.list }
    requires outside { Contains (outside tree.now) node }
    ensures number { result ≡ procs tree.now counts.now.list node }
    ensures small { result ≤ 2 ^ 60 }
{
    procs_from(tree, counts, NESTING, node)
}

// The processes of a node and of `levels` levels below it.
fn procs_from(tree: &Tree, counts: &Counts, levels: u32, number: u32) -> u64
    ensures { result
        ≡ fitted (procs_by tree.now (count_of tree.now counts.now.list) levels number) }
{
    if levels == 0 {
        return 1;
    }
    let Some(node) = tree.node(number) else {
        return 0;
    };
    let mut inner: u64 = 0;
    for part in outside_parts(node) {
        inner = inner.saturating_add(procs_from(tree, counts, levels - 1, *part));
    }
    procs_over(&node.form, workers(tree, counts, number), inner)
}

/// The processes of a node of this form with this number of workers, where its parts outside units
/// have `inner` in all, as far as they fit.
pub fn procs_over(form: &Form, workers: u32, inner: u64) -> u64
    ensures { result ≡ fitted (procs_row form.now workers inner) }
{
    match form {
        Form::Seq | Form::Comp => 1,
        Form::Pipe => inner,
        Form::Farm { .. } | Form::Map { .. } => (workers as u64)
            .saturating_mul(inner)
            .saturating_add(2),
        Form::Reduce { .. } => reduce_procs(workers),
        Form::Loop { .. } => inner.saturating_add(2),
    }
}

// The processes of a reduce: one that folds the whole, or one for each segment, one that splits, and
// the others that join the segments' results two by two.
fn reduce_procs(segments: u32) -> u64
    ensures { result ≡ joined_procs segments }
{
    if segments == 1 {
        1
    } else {
        2 * segments as u64
    }
}
