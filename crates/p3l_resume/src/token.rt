// Tokens as fields.

ghost use Rattle.std.specs.Prelude.{◌≡◌, ◌++◌};
ghost use Rattle.p3l_base.specs.Memory.{OnGiven};
ghost use Rattle.p3l_format.specs.Format.{Gives};
ghost use Rattle.p3l_resume.specs.Token.{outcome_format, token_format, trap_format, trap_kind_format, trap_number};
ghost use Rattle.p3l_resume.specs.laws.Token.{lawful_outcome, lawful_token};

use crate::number::{MOST_ITEMS, NumberField};
use crate::words::{WordsField, read_flag, write_flag};
use p3l_base::{NoMemory, Outcome, Trap, TrapKind};
use p3l_format::{Field, ListField, ReadError, read_one_of, read_u32, write_u8, write_u32};
use p3l_net::SavedToken;
use std::alloc::Global;

const TRAP_KINDS: [TrapKind; 6] = [
    TrapKind::DivZero,
    TrapKind::DivOver,
    TrapKind::Index,
    TrapKind::Shift,
    TrapKind::Budget,
    TrapKind::Turns,
];

// The kind at the front, and what is after it.
fn read_trap_kind(bytes: &[u8]) -> Result<(TrapKind, &[u8]), ReadError>
    ensures { Gives (λ x. (x.0, x.1.now)) result (trap_kind_format.read bytes.now) }
{
    read_one_of(&TRAP_KINDS, bytes)
}

// The byte that stands for a kind.
fn trap_number(kind: TrapKind) -> u8
    ensures { result ≡ trap_number kind }
{
    match kind {
        TrapKind::DivZero => 0,
        TrapKind::DivOver => 1,
        TrapKind::Index => 2,
        TrapKind::Shift => 3,
        TrapKind::Budget => 4,
        TrapKind::Turns => 5,
    }
}

// The trap at the front, and what is after it.
#[tactic(auto, unfolding(crate::specs::Token::trap_format, p3l_format::specs::Format::pair, p3l_format::specs::Format::as_form))]
fn read_trap(bytes: &[u8]) -> Result<(Trap, &[u8]), ReadError>
    ensures { Gives (λ x. (x.0, x.1.now)) result (trap_format.read bytes.now) }
{
    let (kind, rest) = read_trap_kind(bytes)?;
    let (module, rest) = read_u32(rest)?;
    Ok((Trap { kind, module }, rest))
}

// Puts a trap after others.
#[tactic(auto, unfolding(crate::specs::Token::trap_format, p3l_format::specs::Format::pair, p3l_format::specs::Format::as_form, p3l_format::specs::Numbers::one_of, p3l_format::specs::Numbers::u8_format, p3l_format::specs::Format::coded))]
fn write_trap(trap: Trap, out: &mut Vec<u8>) -> Result<(), NoMemory>
    ensures { OnGiven result (out.new.items ≡ out.old.items ++ trap_format.spell trap) }
{
    write_u8(trap_number(trap.kind), out)?;
    write_u32(trap.module, out)
}

/// An outcome: whether it is a trap, and the words or the trap.
#[derive(Clone, Copy, Drop)]
pub struct OutcomeField;

impl Field for OutcomeField {
    type Value = Outcome;

    ghost format = { λ _. outcome_format };

    ghost lawful = { λ _. lawful_outcome };

    #[tactic(auto, unfolding(crate::specs::Token::outcome_format, crate::specs::Token::body_format, p3l_format::specs::Format::tagged, p3l_format::specs::Format::as_form))]
    fn read<'a>(&self, alloc: Global, bytes: &'a [u8]) -> Result<(Outcome, &'a [u8]), ReadError> {
        let (is_trap, rest) = read_flag(bytes)?;
        if is_trap {
            let (trap, rest) = read_trap(rest)?;
            return Ok((Outcome::Trapped(trap), rest));
        }
        let (words, rest) = WordsField.read(alloc, rest)?;
        Ok((Outcome::Value(words), rest))
    }

    #[tactic(auto, unfolding(crate::specs::Token::outcome_format, crate::specs::Token::body_format, p3l_format::specs::Format::tagged, p3l_format::specs::Format::as_form))]
    fn write(&self, value: &Outcome, out: &mut Vec<u8>) -> Result<(), NoMemory> {
        match value {
            Outcome::Value(words) => {
                write_flag(false, out)?;
                WordsField.write(words, out)
            }
            Outcome::Trapped(trap) => {
                write_flag(true, out)?;
                write_trap(*trap, out)
            }
        }
    }
}

const TAGS: ListField<NumberField> = ListField {
    low: 0,
    high: MOST_ITEMS,
    item: NumberField,
};

/// A token: its tags, and its outcome.
#[derive(Clone, Copy, Drop)]
pub struct TokenField;

impl Field for TokenField {
    type Value = SavedToken;

    ghost format = { λ _. token_format };

    ghost lawful = { λ _. lawful_token };

    #[tactic(auto, unfolding(crate::specs::Token::token_format, p3l_format::specs::Format::pair, p3l_format::specs::Format::as_form))]
    fn read<'a>(
        &self,
        alloc: Global,
        bytes: &'a [u8],
    ) -> Result<(SavedToken, &'a [u8]), ReadError> {
        let (tags, rest) = TAGS.read(alloc, bytes)?;
        let (body, rest) = OutcomeField.read(alloc, rest)?;
        Ok((SavedToken { tags, body }, rest))
    }

    #[tactic(auto, unfolding(crate::specs::Token::token_format, p3l_format::specs::Format::pair, p3l_format::specs::Format::as_form))]
    fn write(&self, value: &SavedToken, out: &mut Vec<u8>) -> Result<(), NoMemory> {
        TAGS.write(&value.tags, out)?;
        OutcomeField.write(&value.body, out)
    }
}

/// The tokens of a channel, or those that a process holds.
pub const TOKENS: ListField<TokenField> = ListField {
    low: 0,
    high: MOST_ITEMS,
    item: TokenField,
};
