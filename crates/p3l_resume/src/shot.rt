// The saved states of machines as fields.

ghost use Rattle.p3l_resume.specs.Shot.{own_format, shot_format};
ghost use Rattle.p3l_resume.specs.laws.Shot.{lawful_own, lawful_shot};

use crate::number::{MOST_ITEMS, NumberField};
use crate::token::{TOKENS, TokenField};
use crate::words::InboxField;
use p3l_base::NoMemory;
use p3l_format::{Field, ListField, ReadError, read_u64, write_u64};
use p3l_net::{Own, Shot};
use std::alloc::Global;

/// The local state of a process: its number, and the tokens that it holds.
#[derive(Clone, Copy, Drop)]
pub struct OwnField;

impl Field for OwnField {
    type Value = Own;

    ghost format = { λ _. own_format };

    ghost lawful = { λ _. lawful_own };

    #[tactic(auto, unfolding(crate::specs::Shot::own_format, p3l_format::specs::Format::pair, p3l_format::specs::Format::as_form))]
    fn read<'a>(&self, alloc: Global, bytes: &'a [u8]) -> Result<(Own, &'a [u8]), ReadError> {
        let (number, rest) = read_u64(bytes)?;
        let (held, rest) = TOKENS.read(alloc, rest)?;
        Ok((Own { number, held }, rest))
    }

    #[tactic(auto, unfolding(crate::specs::Shot::own_format, p3l_format::specs::Format::pair, p3l_format::specs::Format::as_form))]
    fn write(&self, value: &Own, out: &mut Vec<u8>) -> Result<(), NoMemory> {
        write_u64(value.number, out)?;
        TOKENS.write(&value.held, out)
    }
}

const OWNS: ListField<OwnField> = ListField {
    low: 0,
    high: MOST_ITEMS,
    item: OwnField,
};

const CHANS: ListField<ListField<TokenField>> = ListField {
    low: 0,
    high: MOST_ITEMS,
    item: TOKENS,
};

/// The state of a machine: how many items were sent and outcomes emitted, its inbox, what its
/// processes keep, and the tokens of its channels.
#[derive(Clone, Copy, Drop)]
pub struct ShotField;

impl Field for ShotField {
    type Value = Shot;

    ghost format = { λ _. shot_format };

    ghost lawful = { λ _. lawful_shot };

    #[tactic(auto, unfolding(crate::specs::Shot::shot_format, p3l_format::specs::Format::pair, p3l_format::specs::Format::as_form))]
    fn read<'a>(&self, alloc: Global, bytes: &'a [u8]) -> Result<(Shot, &'a [u8]), ReadError> {
        let (sent, rest) = read_u64(bytes)?;
        let (emitted, rest) = read_u64(rest)?;
        let (inbox, rest) = InboxField.read(alloc, rest)?;
        let (owns, rest) = OWNS.read(alloc, rest)?;
        let (chans, rest) = CHANS.read(alloc, rest)?;
        Ok((
            Shot {
                chans,
                owns,
                inbox,
                sent,
                emitted,
            },
            rest,
        ))
    }

    #[tactic(auto, unfolding(crate::specs::Shot::shot_format, p3l_format::specs::Format::pair, p3l_format::specs::Format::as_form))]
    fn write(&self, value: &Shot, out: &mut Vec<u8>) -> Result<(), NoMemory> {
        write_u64(value.sent, out)?;
        write_u64(value.emitted, out)?;
        InboxField.write(&value.inbox, out)?;
        OWNS.write(&value.owns, out)?;
        CHANS.write(&value.chans, out)
    }
}
