// Modules as fields.

ghost use Rattle.std.specs.Prelude.{◌≡◌, ◌++◌};
ghost use Rattle.p3l_base.specs.Memory.{OnGiven};
ghost use Rattle.std.specs.List.{list_all};
ghost use Rattle.p3l_format.specs.Format.{Gives};
ghost use Rattle.p3l_lexer.specs.Piece.{is_word_byte};
ghost use Rattle.p3l_tree_format.specs.Module.{kind_number, kind_format, is_word, is_name, name_format, module_format};
ghost use Rattle.p3l_tree_format.specs.laws.Module.{lawful_name, lawful_module};

use crate::rescue::RescueField;
use crate::version::Version;
use p3l_base::{Name, NoMemory};
use p3l_format::{
    Cause, Field, ReadError, fault_of, read_block, read_one_of, read_u8_in, write_u8,
};
use p3l_lexer::bytes::{letter, word_byte};
use p3l_lexer::mark::keyword;
use p3l_skel::{ModuleInfo, ModuleKind};
use std::alloc::Global;

/// A name after its length.
#[derive(Clone, Copy, Drop)]
pub struct NameField;

impl Field for NameField {
    type Value = Name;

    ghost format = { λ _. name_format };

    ghost lawful = { λ _. lawful_name };

    #[tactic(auto, unfolding(crate::specs::Module::name_format, p3l_format::specs::Format::pair, p3l_format::specs::Format::as_form, p3l_format::specs::Format::within))]
    fn read<'a>(&self, alloc: Global, bytes: &'a [u8]) -> Result<(Name, &'a [u8]), ReadError> {
        let (len, text) = read_u8_in(1, 64, bytes)?;
        let (name, rest) = read_block(len as usize, text)?;
        if !is_name(name) {
            return Err(fault_of(Cause::Range, text));
        }
        match str::from_utf8(name) {
            Ok(name) => Ok((Name::from_text(alloc, name)?, rest)),
            Err(_) => Err(fault_of(Cause::Range, text)),
        }
    }

    #[tactic(auto, unfolding(crate::specs::Module::name_format, p3l_format::specs::Format::pair, p3l_format::specs::Format::as_form, p3l_format::specs::Format::within, p3l_format::specs::Numbers::block, p3l_format::specs::Numbers::u8_format))]
    fn write(&self, value: &Name, out: &mut Vec<u8>) -> Result<(), NoMemory> {
        let text = value.as_str().as_bytes();
        write_u8(text.len() as u8, out)?;
        out.extend_from_slice(text)?;
        Ok(())
    }
}

// Tests that each byte is a letter, a digit or `_`.
fn are_word_bytes(bytes: &[u8]) -> bool
    ensures { result ≡ list_all is_word_byte bytes.now }
{
    bytes.iter().all(|byte| word_byte(*byte))
}

// Tests that bytes are letters, digits and `_`, the first of them no digit.
fn is_word(bytes: &[u8]) -> bool
    ensures { result ≡ is_word bytes.now }
{
    let Some((first, rest)) = bytes.split_first() else {
        return false;
    };
    letter(*first) && are_word_bytes(rest)
}

// Tests that bytes are a word that is no keyword, or `rescue`, which was a name in the first images.
fn is_name(bytes: &[u8]) -> bool
    ensures { result ≡ is_name bytes.now }
{
    is_word(bytes) && (bytes == b"rescue".as_slice() || keyword(bytes).is_none())
}

/// A module in a version of images: its kind, its name, and its rescue number if it has one.
#[derive(Clone, Copy, Drop)]
pub struct ModuleField {
    pub version: Version,
}

impl Field for ModuleField {
    type Value = ModuleInfo;

    ghost format = { λ it. module_format it.version };

    ghost lawful = { λ it. lawful_module it.version };

    #[tactic(auto, unfolding(crate::specs::Module::module_format, p3l_format::specs::Format::pair, p3l_format::specs::Format::as_form))]
    fn read<'a>(
        &self,
        alloc: Global,
        bytes: &'a [u8],
    ) -> Result<(ModuleInfo, &'a [u8]), ReadError> {
        let (kind, rest) = read_kind(bytes)?;
        let (name, rest) = NameField.read(alloc, rest)?;
        let field = RescueField {
            version: self.version,
            kind,
        };
        let (rescue, rest) = field.read(alloc, rest)?;
        Ok((ModuleInfo { name, kind, rescue }, rest))
    }

    #[tactic(auto, unfolding(crate::specs::Module::module_format, p3l_format::specs::Format::pair, p3l_format::specs::Format::as_form))]
    fn write(&self, value: &ModuleInfo, out: &mut Vec<u8>) -> Result<(), NoMemory> {
        write_kind(value.kind, out)?;
        NameField.write(&value.name, out)?;
        let field = RescueField {
            version: self.version,
            kind: value.kind,
        };
        field.write(&value.rescue, out)
    }
}

const KINDS: [ModuleKind; 7] = [
    ModuleKind::Seq,
    ModuleKind::Comp,
    ModuleKind::Pipe,
    ModuleKind::Farm,
    ModuleKind::Map,
    ModuleKind::Reduce,
    ModuleKind::Loop,
];

// The kind at the front, and what is after it.
fn read_kind(bytes: &[u8]) -> Result<(ModuleKind, &[u8]), ReadError>
    ensures { Gives (λ x. (x.0, x.1.now)) result (kind_format.read bytes.now) }
{
    read_one_of(&KINDS, bytes)
}

// Puts a kind after others.
#[tactic(auto, unfolding(p3l_format::specs::Numbers::one_of, p3l_format::specs::Numbers::u8_format, p3l_format::specs::Format::coded))]
fn write_kind(kind: ModuleKind, out: &mut Vec<u8>) -> Result<(), NoMemory>
    ensures { OnGiven result (out.new.items ≡ out.old.items ++ kind_format.spell kind) }
{
    write_u8(kind_number(kind), out)
}

// The byte that stands for a kind.
fn kind_number(kind: ModuleKind) -> u8
    ensures { result ≡ kind_number kind }
{
    match kind {
        ModuleKind::Seq => 0,
        ModuleKind::Comp => 1,
        ModuleKind::Pipe => 2,
        ModuleKind::Farm => 3,
        ModuleKind::Map => 4,
        ModuleKind::Reduce => 5,
        ModuleKind::Loop => 6,
    }
}
