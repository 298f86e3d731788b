// Widths of the channels of a reduce.

ghost use Rattle.std.specs.Prelude.{◌≡◌, ◌++◌, ◌≤◌, map};
ghost use Rattle.p3l_base.specs.Memory.{OnGiven};
ghost use Rattle.p3l_skel.specs.Tree.{node_at};
ghost use Rattle.p3l_firing.specs.Nodes.{elem_of};
ghost use Rattle.p3l_firing.specs.Segments.{segment_lengths};
ghost use Rattle.p3l_reduce.specs.ReduceKind.{reduce_widths, segment_width};

use crate::segments::segment_count;
use p3l_base::{List, NoMemory};
use p3l_skel::{Form, Tree};
use p3l_template::Width;
use p3l_template::width::push_same;

/// The words of an element of a node, if it is a reduce.
pub(crate) fn elem_of(tree: &Tree, node: u32) -> u32
    ensures { result ≡ elem_of (node_at tree.now node).form }
{
    match tree.node(node) {
        Some(found) => match &found.form {
            Form::Reduce { elem, .. } => *elem,
            _ => 0,
        },
        None => 0,
    }
}

// Puts the widths of the channels of the segments of `len` elements, which are halved `level` times,
// behind others.
#[tactic(auto, using(crate::proofs::Segmenting::segments_none, crate::proofs::Segmenting::segments_halved))]
fn push_segments(
    row: &mut List<Width>,
    elem: u32,
    tags: u32,
    level: u32,
    len: u32,
) -> Result<(), NoMemory>
    ensures { OnGiven result (row.new
        ≡ row.old ++ map (segment_width elem tags) (segment_lengths level len)) }
{
    if level == 0 {
        let words = len as u64 * elem as u64;
        row.push(Width { words, tags })?;
        return Ok(());
    }
    let first = len / 2;
    push_segments(row, elem, tags, level - 1, first)?;
    push_segments(row, elem, tags, level - 1, len - first)?;
    Ok(())
}

/// Puts the widths of the channels of a reduce that is halved `level` times, of its segments and then
/// between its joins, behind others.
#[tactic(auto, using(crate::proofs::Segmenting::reduce_none, crate::proofs::Segmenting::reduce_some))]
pub(crate) fn push_reduce(
    row: &mut List<Width>,
    elem: u32,
    len: u32,
    joined: Width,
    level: u32,
) -> Result<(), NoMemory>
    requires { level ≤ 9 }
    ensures { OnGiven result (row.new
        ≡ row.old ++ reduce_widths elem len joined.tags joined level) }
{
    if level == 0 {
        return Ok(());
    }
    push_segments(row, elem, joined.tags, level, len)?;
    let segments = segment_count(level);
    push_same(row, segments + segments - 2, joined)?;
    Ok(())
}
