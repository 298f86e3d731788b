// Lawful numbers of workers.

ghost use Rattle.std.specs.Prelude.{◌≡◌, ◌↔◌, ◌<◌, ℕ, ◌+◌, IsTrue, IfSome, IfNone, List, drop};
ghost use Rattle.std.specs.Int.{IsPowerOfTwo};
ghost use Rattle.p3l_skel.specs.Tree.{node_at};
ghost use Rattle.p3l_skel.specs.Counts.{workers_of, IsCountInRange, IsLawfulCount, TakesLawful, outside_parts, own_counted, counted_from, HasLawfulCounts};

use crate::tree::{Counts, Form, NESTING, Node, Tree};
use p3l_base::limits::MOST_WORKERS;

/// Returns true exactly if a number is a power of two.
fn is_power_of_two(n: u32) -> bool
    ensures { IsTrue result ↔ IsPowerOfTwo n }
{
    n != 0 && 1 << n.ilog2() == n
}

impl Form {
    /// The number of the `workers` clause.
    pub fn workers(&self) -> Option<u32>
        ensures { result ≡ workers_of self.now }
    {
        match self {
            Form::Farm { workers } | Form::Map { workers, .. } | Form::Reduce { workers, .. } =>
                *workers,
            Form::Seq | Form::Comp | Form::Pipe | Form::Loop { .. } => None,
        }
    }

    /// Returns true exactly if a node of this form may have `count` workers, whatever its clause
    /// says.
    pub fn is_count_in_range(&self, count: u32) -> bool
        ensures { IsTrue result ↔ IsCountInRange self.now count }
    {
        match self {
            Form::Farm { .. } => 1 <= count && count <= MOST_WORKERS,
            Form::Map { cut, .. } => {
                let elements = cut.first as u64 * cut.second as u64;
                1 <= count && count as u64 <= elements && count <= MOST_WORKERS
            }
            Form::Reduce { len, .. } => is_power_of_two(count)
                && count <= *len
                && count <= MOST_WORKERS,
            Form::Seq | Form::Comp | Form::Pipe | Form::Loop { .. } => false,
        }
    }

    /// Returns true exactly if a node of this form may have `count` workers.
    pub fn is_lawful_count(&self, count: u32) -> bool
        ensures { IsTrue result ↔ IsLawfulCount self.now count }
    {
        let meets = match self.workers() {
            Some(workers) => count == workers,
            None => true,
        };
        meets && self.is_count_in_range(count)
    }
}

/// The parts that are outside units, of a node that is.
pub fn outside_parts(node: &Node) -> &[u32]
    ensures { result.now ≡ outside_parts node.now.form node.now.parts }
{
    let parts = node.parts.as_slice();
    match &node.form {
        Form::Seq | Form::Comp | Form::Reduce { .. } => &[],
        Form::Pipe => parts,
        Form::Farm { .. } | Form::Map { .. } | Form::Loop { .. } => &parts[..parts.len().min(1)],
    }
}

/// The place after a node's own number in the counts, from a place on; none where the number is
/// missing or not lawful.
fn after_own(tree: &Tree, number: u32, counts: &[u32], from: usize) -> Option<usize>
    ensures ok { IfSome result (λ next.
        TakesLawful tree.now (own_counted (node_at tree.now number).form number)
        (drop from counts.now) (drop next counts.now)) }
    ensures none { IfNone result ((rest : List ℕ)
        → ¬ TakesLawful tree.now (own_counted (node_at tree.now number).form number)
        (drop from counts.now) rest) }
{
    let Some(node) = tree.node(number) else {
        return Some(from);
    };
    match &node.form {
        Form::Farm { .. } | Form::Map { .. } | Form::Reduce { .. } => {
            let count = counts.get(from)?;
            if !node.form.is_lawful_count(*count) {
                return None;
            }
            Some(from + 1)
        }
        Form::Seq | Form::Comp | Form::Pipe | Form::Loop { .. } => Some(from),
    }
}

/// The place after the counts of a node outside units and of the nodes below it, from a place on;
/// none where one is missing or not lawful.
fn after(tree: &Tree, levels: u32, number: u32, counts: &[u32], from: usize) -> Option<usize>
    ensures ok { IfSome result (λ next. TakesLawful tree.now (counted_from tree.now levels number)
        (drop from counts.now) (drop next counts.now)) }
    ensures none { IfNone result ((rest : List ℕ)
        → ¬ TakesLawful tree.now (counted_from tree.now levels number) (drop from counts.now) rest) }
{
    let Some(node) = tree.node(number) else {
        return Some(from);
    };
    if levels == 0 {
        return Some(from);
    }
    let mut next = after_own(tree, number, counts, from)?;
    for part in outside_parts(node) {
        next = after(tree, levels - 1, *part, counts, next)?;
    }
    Some(next)
}

/// Returns true exactly if each farm, map and reduce outside units has a number of workers that it
/// may have, and no number is left over.
pub fn lawful_counts(tree: &Tree, counts: &Counts) -> bool
    ensures { IsTrue result ↔ HasLawfulCounts tree.now counts.now.list }
{
    let counts = counts.list.as_slice();
    match after(tree, NESTING, 0, counts, 0) {
        Some(next) => next >= counts.len(),
        None => false,
    }
}
