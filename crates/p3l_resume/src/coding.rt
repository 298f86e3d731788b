// Snapshots as bytes.

ghost use Rattle.std.specs.Prelude.{◌≡◌, ◌++◌, [], List, ℕ, Ok, IfOk};
ghost use Rattle.p3l_base.specs.Memory.{IfGiven};
ghost use Rattle.p3l_format.specs.Format.{read_all};
ghost use Rattle.p3l_resume.specs.declared.saved.Saved.{Saved as TheSaved};
ghost use Rattle.p3l_resume.specs.Places.{FieldsAreTheBytes, IsAtFirstFault};
ghost use Rattle.p3l_resume.specs.Refusal.{Answers, refusal_of};
ghost use Rattle.p3l_resume.specs.Saved.{CanBeWritten, IsSpelling, SnapshotBeginsNoOther, body_format, saved_format, saved_text};
ghost use Rattle.p3l_resume.specs.laws.Saved.{lawful_body, lawful_saved};

use crate::number::{ByteField, MOST_ITEMS};
use crate::saved::{Saved, ShotRefusal};
use crate::shot::ShotField;
use p3l_base::{List, NoMemory};
use p3l_format::{Field, FieldFault, ListField, ReadError, read_exact, write_u32};
use std::alloc::Global;

const MAGIC: u32 = 0x5033_4c53;

const VERSION: u32 = 1;

const IMAGE: ListField<ByteField> = ListField {
    low: 0,
    high: MOST_ITEMS,
    item: ByteField,
};

// The fields after the magic number and the version.
#[derive(Clone, Copy, Drop)]
struct BodyField;

impl Field for BodyField {
    type Value = Saved;

    ghost format = { λ _. body_format };

    ghost lawful = { λ _. lawful_body };

    #[tactic(auto, unfolding(crate::specs::Saved::body_format, p3l_format::specs::Format::pair, p3l_format::specs::Format::as_form))]
    fn read<'a>(&self, alloc: Global, bytes: &'a [u8]) -> Result<(Saved, &'a [u8]), ReadError> {
        let (shot, rest) = ShotField.read(alloc, bytes)?;
        let (image, rest) = IMAGE.read(alloc, rest)?;
        Ok((Saved { shot, image }, rest))
    }

    #[tactic(auto, unfolding(crate::specs::Saved::body_format, p3l_format::specs::Format::pair, p3l_format::specs::Format::as_form))]
    fn write(&self, value: &Saved, out: &mut Vec<u8>) -> Result<(), NoMemory> {
        ShotField.write(&value.shot, out)?;
        IMAGE.write(&value.image, out)
    }
}

// A whole snapshot.
#[derive(Clone, Copy, Drop)]
struct SavedField;

impl Field for SavedField {
    type Value = Saved;

    ghost format = { λ _. saved_format };

    ghost lawful = { λ _. lawful_saved };

    #[tactic(auto, unfolding(crate::specs::Saved::saved_format, p3l_format::specs::Format::after))]
    fn read<'a>(&self, alloc: Global, bytes: &'a [u8]) -> Result<(Saved, &'a [u8]), ReadError> {
        let rest = read_exact(MAGIC, bytes)?;
        let rest = read_exact(VERSION, rest)?;
        BodyField.read(alloc, rest)
    }

    #[tactic(auto, unfolding(crate::specs::Saved::saved_format, p3l_format::specs::Format::after, p3l_format::specs::Format::within))]
    fn write(&self, value: &Saved, out: &mut Vec<u8>) -> Result<(), NoMemory> {
        write_u32(MAGIC, out)?;
        write_u32(VERSION, out)?;
        BodyField.write(value, out)
    }
}

/// The bytes of a snapshot whose lists can be counted in 32 bits.
pub fn shot_text(alloc: Global, saved: &Saved) -> Result<List<u8>, NoMemory>
    requires { CanBeWritten saved.now }
    ensures { IfGiven result (λ bytes. bytes ≡ saved_text saved.now) }
{
    p3l_format::encode(&SavedField, alloc, saved)
}

/// The snapshot that bytes spell, or the place of the first field that isn't whole or is out of its
/// range, or of the first byte after the last field. Memory is taken for what is there, and not for
/// what a count promises.
pub fn read_shot(alloc: Global, bytes: &[u8]) -> Result<Saved, ShotRefusal>
    // The bytes are the spelling of the snapshot that is read.
    ensures found { IfOk result (λ saved. IsSpelling saved bytes.now) }
    // A snapshot that is spelled so is read, unless memory runs out.
    ensures only { (saved : TheSaved) → IsSpelling saved bytes.now
        → Answers bytes.now result (Ok saved) }
    // A snapshot that was read can be written.
    ensures again { IfOk result CanBeWritten }
    // The place of a refusal is that of the first field that isn't whole or is out of its range.
    ensures place { IsAtFirstFault bytes.now result }
    // The place that it is, also after the last field.
    ensures exact { Answers bytes.now result (read_all saved_format bytes.now) }
{
    match p3l_format::decode(&SavedField, alloc, bytes) {
        Ok(saved) => Ok(saved),
        Err(ReadError::NoMemory) => Err(ShotRefusal::NoMemory),
        Err(ReadError::Wrong(fault)) => Err(refusal(bytes, fault)),
    }
}

// The refusal of bytes with this first fault.
fn refusal(bytes: &[u8], fault: FieldFault) -> ShotRefusal
    ensures { result ≡ refusal_of bytes.now fault }
{
    ShotRefusal::BadShot(bytes.len().saturating_sub(fault.left) as u64)
}

/// No snapshot begins another.
pub fn snapshot_begins_no_other()
    ensures { SnapshotBeginsNoOther }
{}

/// The fields of a snapshot's spelling are its bytes.
pub fn fields_are_the_bytes()
    ensures { FieldsAreTheBytes }
{}
