// The processes and channels of a reduce of several segments.

ghost use Rattle.std.specs.Prelude.{◌≡◌, ◌+◌, ◌-◌, ◌*◌, ◌<◌, ◌≤◌, ◌^◌, [], length};
ghost use Rattle.p3l_base.specs.Memory.{IfGiven};
ghost use Rattle.p3l_reduce.specs.Reduce.{tee_by, join_at, fold_at, join_procs, fold_procs, tree_shape};
ghost use Rattle.p3l_template.specs.Shape.{base_of, added};

use crate::segments::segment_lengths;
use p3l_base::{List, NoMemory};
use p3l_firing::{Proc, ProcKind};
use p3l_template::builder::one_channel;
use p3l_template::{Builder, Ports};
use std::alloc::Global;

/// The channel that leads up from place q: the channels of the places from 2 on have the numbers
/// from `from` on.
pub(crate) fn tee(output: u32, from: u32, q: u32) -> u32
    requires { from + q < 2 ^ 32 }
    ensures { result ≡ tee_by output from q }
{
    if q < 2 { output } else { from + (q - 2) }
}

// The join of place q, which reads the channels of the two places below it.
fn join(alloc: Global, node: u32, output: u32, from: u32, q: u32) -> Result<Proc, NoMemory>
    requires { (from ≤ 1048576) × (q ≤ 1048576) }
    ensures { IfGiven result (λ proc. proc ≡ join_at node output from q) }
{
    let ins = List::from_vec(vec![in alloc;
        tee(output, from, q + q),
        tee(output, from, q + q + 1),
    ]?);
    let outs = one_channel(alloc, tee(output, from, q))?;
    Ok(Proc {
        kind: ProcKind::Join,
        node,
        arg: 0,
        ins,
        outs,
    })
}

// Segment s, of `elements` elements, folded; the segments' channels are numbered from
// `first` on.
fn fold(
    alloc: Global,
    node: u32,
    count: u32,
    output: u32,
    first: u32,
    from: u32,
    s: u32,
    elements: u32,
) -> Result<Proc, NoMemory>
    requires { (first + s < 2 ^ 32) × (from + (count + s) < 2 ^ 32) }
    ensures { IfGiven result (λ proc. proc ≡ fold_at node count output first from s elements) }
{
    let ins = one_channel(alloc, first + s)?;
    let outs = one_channel(alloc, tee(output, from, count + s))?;
    Ok(Proc {
        kind: ProcKind::Run,
        node,
        arg: elements,
        ins,
        outs,
    })
}

// The joins of places 1 to m - 1.
fn place_joins(
    alloc: Global,
    node: u32,
    m: u32,
    builder: &mut Builder,
    output: u32,
    from: u32,
) -> Result<(), NoMemory>
    requires room { length builder.old.procs + m ≤ 1048576 }
    requires chans { from ≤ 1048576 }
    ensures { IfGiven result (λ _. builder.new
        ≡ added builder.old (join_procs node output from 1 (m - 1)) []) }
{
    for q in 1..m {
        let proc = join(alloc, node, output, from, q)?;
        let _join = builder.process(proc)?;
    }
    Ok(())
}

// The folds of the segments of these lengths.
fn place_folds(
    alloc: Global,
    node: u32,
    lengths: &[u32],
    builder: &mut Builder,
    output: u32,
    first: u32,
    from: u32,
) -> Result<(), NoMemory>
    requires room { length builder.old.procs + length lengths.now ≤ 1048576 }
    requires chans { (first ≤ 1048576) × (from ≤ 1048576) }
    ensures { IfGiven result (λ _. builder.new
        ≡ added builder.old (fold_procs node (length lengths.now) output first from 0 lengths.now)
        []) }
{
    let count = lengths.len() as u32;
    for s in 0..count {
        let proc = fold(
            alloc,
            node,
            count,
            output,
            first,
            from,
            s,
            lengths[s as usize],
        )?;
        let _fold = builder.process(proc)?;
    }
    Ok(())
}

/// The split, the joins and the folds of two to this level, not 0, segments.
pub(crate) fn place_tree(
    alloc: Global,
    node: u32,
    level: u32,
    len: u32,
    builder: &mut Builder,
    at: &Ports,
    cap: u32,
) -> Result<(), NoMemory>
    requires level { (0 < level) × (level ≤ 9) }
    requires room { (length builder.old.procs + 2 * 2 ^ level ≤ 1048576)
        × (length builder.old.chans + 3 * 2 ^ level ≤ 1048578) }
    ensures { IfGiven result (λ _. builder.new
        ≡ added builder.old ((tree_shape node (2 ^ level) (level - 1)
        len).procs (base_of at.now builder.old))
        ((tree_shape node (2 ^ level) (level - 1) len).laid cap (base_of at.now builder.old))) }
{
    let lengths = segment_lengths(alloc, level, len)?;
    let count = lengths.len() as u32;
    let first = builder.channel_count() as u32;
    let segments = builder.channels(alloc, count, cap)?;
    let from = builder.channel_count() as u32;
    let _tees = builder.channels(alloc, count + count - 2, cap)?;
    let input = one_channel(alloc, at.input)?;
    let _split = builder.process(Proc {
        kind: ProcKind::Split,
        node,
        arg: 0,
        ins: input,
        outs: segments,
    })?;
    place_joins(alloc, node, count, builder, at.output, from)?;
    place_folds(alloc, node, &lengths, builder, at.output, first, from)?;
    Ok(())
}
