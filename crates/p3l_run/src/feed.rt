// Feeding a machine from a stream.

ghost use Rattle.std.specs.Prelude.{◌≡◌, ◌≤◌, None, OnErr};
ghost use Rattle.p3l_base.specs.Memory.{Refused};
ghost use Rattle.p3l_io.specs.Change.{change};
ghost use Rattle.p3l_run.specs.Feed.{IsFed, IsOpenOrEnded, input_limit};
ghost use Rattle.p3l_skel.specs.Tree.{node_at};

use p3l_base::NoMemory;
use p3l_io::Source;
use p3l_net::Machine;
use p3l_stream::Lines;
use p3l_stream::laws::a_stream_gives_its_items;
use std::alloc::Global;

/// The most bytes of the input.
pub const INPUT_LIMIT: u64 = 68_719_476_736;

/// Requests the next item of the stream and offers it to the machine, where its inbox is empty and
/// the stream isn't ended.
#[inline(always)]
pub fn feed<S: Source>(
    alloc: Global,
    machine: &mut Machine<'_>,
    lines: &mut Lines,
    input: &mut S,
) -> Result<(), NoMemory>
    requires wide { lines.old.words ≡ (node_at machine.old.tree 0).ins }
    requires open { IsOpenOrEnded lines.old }
    ensures does { IsFed (node_at machine.old.tree 0).ins machine.old machine.new
        lines.old lines.new (change (S.observed input.old) (S.observed input.new)) result }
    ensures wants { OnErr result Refused }
{
    if !machine.wants_item() {
        return Ok(());
    }
    if lines.ending().is_some() {
        return Ok(());
    }
    offer_next(alloc, machine, lines, input)
}

/// Requests the next item of an open stream, and offers it to a machine whose inbox is empty.
#[inline(never)]
fn offer_next<S: Source>(
    alloc: Global,
    machine: &mut Machine<'_>,
    lines: &mut Lines,
    input: &mut S,
) -> Result<(), NoMemory>
    requires wide { lines.old.words ≡ (node_at machine.old.tree 0).ins }
    requires open { lines.old.closed ≡ None }
    requires empty { machine.old.inbox ≡ None }
    ensures does { IsFed (node_at machine.old.tree 0).ins machine.old machine.new
        lines.old lines.new (change (S.observed input.old) (S.observed input.new)) result }
    ensures wants { OnErr result Refused }
{
    a_stream_gives_its_items();
    let answer = lines.next(input)?;
    match answer.into_item() {
        Ok(item) => {
            machine.offer(alloc, item)?;
            Ok(())
        }
        Err(_) => Ok(()),
    }
}
