// The net of a tree.

ghost use Rattle.std.specs.Prelude.{◌≡◌, ◌↔◌, ◌≤◌, ◌+◌, ◌*◌, IfOk, IsTrue, ℕ, List, length};
ghost use Rattle.p3l_base.specs.Limits.{most_processes, most_tokens};
ghost use Rattle.p3l_base.specs.Memory.{IfGiven};
ghost use Rattle.p3l_skel.specs.declared.tree.Tree.{Tree};
ghost use Rattle.p3l_skel.specs.Counts.{HasLawfulCounts};
ghost use Rattle.p3l_skel.specs.Lawful.{IsLawfulTree};
ghost use Rattle.p3l_skel.specs.Numbers.{procs};
ghost use Rattle.p3l_firing.specs.Typed.{IsTyped};
ghost use Rattle.p3l_link.specs.Net.{end_net, linked_net};

use crate::compare::same_net;
use crate::place::place_node;
use p3l_base::{List, NoMemory};
use p3l_firing::{Net, Proc, ProcKind};
use p3l_skel::tree::NESTING;
use p3l_skel::{Counts, Tree};
use p3l_template::builder::one_channel;
use p3l_template::{Builder, Ports};
use std::alloc::Global;

/// The net of a tree under these counts, whose channels hold `cap` tokens each, but for those of a
/// loop that hold as many as the loop has.
///
/// Process 0 is the source and process 1 the sink; the root is between channels 0 and 1. Each
/// node has its own processes and channels first, then those of its parts in order.
pub fn link(alloc: Global, tree: &Tree, counts: &Counts, cap: u32) -> Result<Net, NoMemory>
    requires tree { IsLawfulTree tree.now }
    requires counts { HasLawfulCounts tree.now counts.now.list }
    requires procs { procs tree.now counts.now.list 0 ≤ most_processes }
    requires cap { (1 ≤ cap) × (cap ≤ most_tokens) }
    ensures net { IfGiven result (λ net. net ≡ linked_net tree.now counts.now.list cap) }
    ensures typed { IfOk result (λ net. IsTyped tree.now net) }
{
    let mut builder = with_ends(alloc, cap)?;
    let at = Ports {
        input: 0,
        output: 1,
    };
    place_node(alloc, tree, counts, NESTING, 0, &mut builder, &at, cap)?;
    Ok(builder.finish())
}

/// The source and the sink, with the channels that they write and read.
fn with_ends(alloc: Global, cap: u32) -> Result<Builder, NoMemory>
    ensures { IfGiven result (λ builder. builder ≡ end_net cap) }
{
    let mut builder = Builder::new(alloc);
    let first = builder.channel(cap, 0)?;
    let last = builder.channel(cap, 0)?;
    let to_root = one_channel(alloc, first)?;
    let _source = builder.process(Proc {
        kind: ProcKind::Source,
        node: 0,
        arg: 0,
        ins: List::new(alloc),
        outs: to_root,
    })?;
    let from_root = one_channel(alloc, last)?;
    let _sink = builder.process(Proc {
        kind: ProcKind::Sink,
        node: 0,
        arg: 0,
        ins: from_root,
        outs: List::new(alloc),
    })?;
    Ok(builder)
}

/// Compares a net with the one of a tree under these counts, with channels of this capacity.
pub fn is_linked(
    alloc: Global,
    net: &Net,
    tree: &Tree,
    counts: &Counts,
    cap: u32,
) -> Result<bool, NoMemory>
    requires tree { IsLawfulTree tree.now }
    requires counts { HasLawfulCounts tree.now counts.now.list }
    requires procs { procs tree.now counts.now.list 0 ≤ most_processes }
    requires cap { (1 ≤ cap) × (cap ≤ most_tokens) }
    ensures { IfGiven result (λ same. IsTrue same
        ↔ (net.now ≡ linked_net tree.now counts.now.list cap)) }
{
    let linked = link(alloc, tree, counts, cap)?;
    Ok(same_net(net, &linked))
}

/// The net of a lawful tree under lawful counts is typed for the tree.
pub fn a_linked_net_is_typed()
    ensures { (tree : Tree) (counts : List ℕ) (cap : ℕ) → IsLawfulTree tree
        → HasLawfulCounts tree counts
        → procs tree counts 0 ≤ most_processes → 1 ≤ cap → IsTyped tree (linked_net tree counts cap) }
{}

/// The net of a lawful tree has a process for each that is counted, besides the source and the sink,
/// and at most twice as many channels as are counted.
pub fn a_linked_net_is_counted()
    ensures procs { (tree : Tree) (counts : List ℕ) (cap : ℕ) → IsLawfulTree tree
        → HasLawfulCounts tree counts
        → length (linked_net tree counts cap).procs ≡ procs tree counts 0 + 2 }
    ensures chans { (tree : Tree) (counts : List ℕ) (cap : ℕ) → IsLawfulTree tree
        → HasLawfulCounts tree counts
        → length (linked_net tree counts cap).chans ≤ 2 * procs tree counts 0 }
{}
