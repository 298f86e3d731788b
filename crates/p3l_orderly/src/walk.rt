// The tokens pending in a node and in all nodes below it: one walk over the tree, in the order of
// the linker.

ghost use Rattle.std.specs.Prelude.{◌≡◌};
ghost use Rattle.p3l_base.specs.Memory.{IfGiven};
ghost use Rattle.p3l_skel.specs.Counts.{count_of};
ghost use Rattle.p3l_skel.specs.Lawful.{IsLawfulTree};
ghost use Rattle.p3l_firing.specs.Shot.{HaveFewTags, state_of};
ghost use Rattle.p3l_template.specs.Finding.{Finding, if_orderly};
ghost use Rattle.p3l_link.specs.Counts.{IsCounted};
ghost use Rattle.p3l_orderly.specs.Walked.{HasRoomAt, found_at, found_to, walk_found, walk_piece};

use p3l_base::{List, NoMemory};
use p3l_firing::{Shot, Token};
use p3l_link::{part_of, template_of};
use p3l_skel::{Counts, Tree};
use p3l_template::{Kind, Site};
use std::alloc::Global;

/// A part that is orderly: the tokens pending in it, without their outcomes, and the first process
/// and channel after its own.
#[derive(Debug, Drop)]
pub(crate) struct Found {
    pub pending: List<Token>,
    pub proc: u32,
    pub chan: u32,
}

/// The tokens found in a node and in all nodes below it, `levels` levels at most, if its part is
/// orderly.
pub(crate) fn find_in(
    alloc: Global,
    tree: &Tree,
    counts: &Counts,
    levels: u32,
    number: u32,
    shot: &Shot,
    place: &Site,
) -> Result<Option<Found>, NoMemory>
    requires lawful { IsLawfulTree tree.now }
    requires counted { IsCounted tree.now (count_of tree.now counts.now.list) levels number }
    requires room { HasRoomAt (walk_piece tree.now (count_of tree.now counts.now.list) levels number
        place.now) place.now }
    requires few { HaveFewTags shot.now }
    ensures { IfGiven result (λ found. found
        ≡ found_at (walk_found tree.now (count_of tree.now counts.now.list) levels number place.now
        (state_of shot.now))
        (walk_piece tree.now (count_of tree.now counts.now.list) levels number place.now) place.now) }
{
    let template = template_of(tree, counts, number);
    let slots = template.slots(alloc, place)?;
    let mut inner = List::new(alloc);
    let mut proc = place.proc + template.proc_count() as u32;
    let mut chan = place.chan + template.chan_count() as u32;
    for slot in slots.as_slice() {
        let at = Site {
            input: slot.input,
            output: slot.output,
            proc,
            chan,
        };
        let part = part_of(tree, number, slot.part);
        let found = find_in(alloc, tree, counts, levels - 1, part, shot, &at)?;
        let Some(found) = found else {
            return Ok(None);
        };
        proc = found.proc;
        chan = found.chan;
        inner.push(found.pending)?;
    }
    let own = template.pending(alloc, tree, shot, place, inner.as_slice())?;
    Ok(ending_at(own, proc, chan))
}

// These pending tokens of a part, if it is orderly, with its end.
fn ending_at(pending: Option<List<Token>>, proc: u32, chan: u32) -> Option<Found>
    ensures { (f : Finding) → pending ≡ if_orderly f → result ≡ found_to f proc chan }
{
    match pending {
        Some(pending) => Some(Found {
            pending,
            proc,
            chan,
        }),
        None => None,
    }
}
