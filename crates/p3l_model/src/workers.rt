// The number of workers that the counts of a tree give a node.

ghost use Rattle.std.specs.Prelude.{◌≡◌, ℕ, ◌++◌, List, drop};
ghost use Rattle.p3l_skel.specs.Counts.{own_counted, counted_from, count_in, count_of};
ghost use Rattle.p3l_model.specs.Search.{count_found};

use p3l_skel::counts::outside_parts;
use p3l_skel::tree::NESTING;
use p3l_skel::{Counts, Form, Tree};

/// The end of a search through the counts of some nodes.
#[derive(Clone, Copy, Drop)]
pub enum SearchResult {
    /// The count of the node that was looked for; 0 where the counts end before it.
    Found(u32),
    /// The place in the counts after those of the nodes, none of which was looked for.
    After(usize),
}

/// The number of workers that the counts give a node, and 0 where the node has none.
pub fn workers(tree: &Tree, counts: &Counts, node: u32) -> u32
    ensures { result ≡ count_of tree.now counts.now.list node }
{
    match search(tree, NESTING, 0, counts.list.as_slice(), 0, node) {
        SearchResult::Found(count) => count,
        SearchResult::After(_) => 0,
    }
}

// Looks for a node's count in those of the subtree at `number`, which begin at a place.
fn search(
    tree: &Tree,
    levels: u32,
    number: u32,
    counts: &[u32],
    from: usize,
    wanted: u32,
) -> SearchResult
    ensures { (more : List ℕ)
        → count_found result (λ next. count_in more (drop next counts.now) wanted)
        ≡ count_in (counted_from tree.now levels number ++ more) (drop from counts.now) wanted }
{
    if levels == 0 {
        return SearchResult::After(from);
    }
    let Some(node) = tree.node(number) else {
        return SearchResult::After(from);
    };
    let mut next = match search_own(&node.form, number, counts, from, wanted) {
        SearchResult::Found(count) => return SearchResult::Found(count),
        SearchResult::After(next) => next,
    };
    for part in outside_parts(node) {
        match search(tree, levels - 1, *part, counts, next, wanted) {
            SearchResult::Found(count) => return SearchResult::Found(count),
            SearchResult::After(after) => next = after,
        }
    }
    SearchResult::After(next)
}

// Looks for a node's count in that of the node `number` itself, if it has one, at a place.
fn search_own(form: &Form, number: u32, counts: &[u32], at: usize, wanted: u32) -> SearchResult
    ensures { (more : List ℕ)
        → count_found result (λ next. count_in more (drop next counts.now) wanted)
        ≡ count_in (own_counted form.now number ++ more) (drop at counts.now) wanted }
{
    match form {
        Form::Farm { .. } | Form::Map { .. } | Form::Reduce { .. } => match counts.get(at) {
            Some(_) if number != wanted => SearchResult::After(at + 1),
            Some(count) => SearchResult::Found(*count),
            None => SearchResult::Found(0),
        },
        Form::Seq | Form::Comp | Form::Pipe | Form::Loop { .. } => SearchResult::After(at),
    }
}
