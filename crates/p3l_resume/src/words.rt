// The words of items and values as fields.

ghost use Rattle.std.specs.Prelude.{◌≡◌, ◌++◌};
ghost use Rattle.p3l_base.specs.Memory.{OnGiven};
ghost use Rattle.p3l_format.specs.Format.{Gives, read_many};
ghost use Rattle.p3l_format.specs.Numbers.{i64_format};
ghost use Rattle.p3l_resume.specs.Words.{flag_format, inbox_format, words_format};
ghost use Rattle.p3l_resume.specs.laws.Words.{lawful_inbox, lawful_words};

use crate::number::{MOST_ITEMS, WordField};
use p3l_base::{NoMemory, Words};
use p3l_format::{
    Field, ReadError, read_i64, read_one_of, read_u32_in, write_each, write_u8, write_u32,
};
use std::alloc::Global;

// `count` words, one after the other, and what is after them. Memory is taken as they come.
fn read_so_many_words(alloc: Global, count: u32, bytes: &[u8]) -> Result<(Words, &[u8]), ReadError>
    ensures { Gives (λ x. (x.0, x.1.now)) result (read_many i64_format.read count bytes.now) }
{
    let mut words = Words::new(alloc);
    let mut rest = bytes;
    for _ in 0..count {
        let (word, after) = read_i64(rest)?;
        words.push(word)?;
        rest = after;
    }
    Ok((words, rest))
}

/// The words of an item or a value.
#[derive(Clone, Copy, Drop)]
pub struct WordsField;

impl Field for WordsField {
    type Value = Words;

    ghost format = { λ _. words_format };

    ghost lawful = { λ _. lawful_words };

    #[tactic(auto, unfolding(p3l_format::specs::Format::counted))]
    fn read<'a>(&self, alloc: Global, bytes: &'a [u8]) -> Result<(Words, &'a [u8]), ReadError> {
        let (count, rest) = read_u32_in(0, MOST_ITEMS, bytes)?;
        read_so_many_words(alloc, count, rest)
    }

    #[tactic(auto, unfolding(p3l_format::specs::Format::counted, p3l_format::specs::Format::within, p3l_format::specs::Numbers::number))]
    fn write(&self, value: &Words, out: &mut Vec<u8>) -> Result<(), NoMemory> {
        write_u32(value.len() as u32, out)?;
        write_each(&WordField, value.as_slice(), out)
    }
}

/// The flag in front, and the bytes after it.
pub fn read_flag(bytes: &[u8]) -> Result<(bool, &[u8]), ReadError>
    ensures { Gives (λ x. (x.0, x.1.now)) result (flag_format.read bytes.now) }
{
    read_one_of(&[false, true], bytes)
}

/// Puts a flag after others.
#[tactic(auto, unfolding(p3l_format::specs::Numbers::one_of, p3l_format::specs::Numbers::u8_format, p3l_format::specs::Format::coded))]
pub fn write_flag(flag: bool, out: &mut Vec<u8>) -> Result<(), NoMemory>
    ensures { OnGiven result (out.new.items ≡ out.old.items ++ flag_format.spell flag) }
{
    let number = if flag { 1 } else { 0 };
    write_u8(number, out)
}

/// The item in an inbox, or that there is none.
#[derive(Clone, Copy, Drop)]
pub struct InboxField;

impl Field for InboxField {
    type Value = Option<Words>;

    ghost format = { λ _. inbox_format };

    ghost lawful = { λ _. lawful_inbox };

    #[tactic(auto, unfolding(crate::specs::Words::inbox_format, crate::specs::Words::item_format, p3l_format::specs::Format::tagged, p3l_format::specs::Format::as_form, p3l_format::specs::Format::nothing))]
    fn read<'a>(
        &self,
        alloc: Global,
        bytes: &'a [u8],
    ) -> Result<(Option<Words>, &'a [u8]), ReadError> {
        let (has, rest) = read_flag(bytes)?;
        if !has {
            return Ok((None, rest));
        }
        let (words, rest) = WordsField.read(alloc, rest)?;
        Ok((Some(words), rest))
    }

    #[tactic(auto, unfolding(crate::specs::Words::inbox_format, crate::specs::Words::item_format, p3l_format::specs::Format::tagged, p3l_format::specs::Format::as_form, p3l_format::specs::Format::nothing))]
    fn write(&self, value: &Option<Words>, out: &mut Vec<u8>) -> Result<(), NoMemory> {
        match value {
            None => write_flag(false, out),
            Some(words) => {
                write_flag(true, out)?;
                WordsField.write(words, out)
            }
        }
    }
}
