// The rescue numbers of modules as fields.

ghost use Rattle.std.specs.Prelude.{◌≡◌, ◌++◌};
ghost use Rattle.p3l_base.specs.Memory.{OnGiven};
ghost use Rattle.p3l_format.specs.Format.{Gives};
ghost use Rattle.p3l_skel.specs.declared.tree.ModuleKind.{ModuleKind as TheKind};
ghost use Rattle.p3l_tree_format.specs.declared.version.Version.TheVariants.{Two};
ghost use Rattle.p3l_tree_format.specs.Rescue.{flag_format, rescue_format};
ghost use Rattle.p3l_tree_format.specs.laws.Rescue.{lawful_rescue};

use crate::version::Version;
use p3l_base::NoMemory;
use p3l_format::{Cause, Field, ReadError, fault_of, read_i64, read_one_of, write_i64, write_u8};
use p3l_skel::ModuleKind;
use std::alloc::Global;

// Tests that a module of a kind has a rescue number; and the bytes after the flag.
#[tactic(auto, unfolding(crate::specs::Rescue::flag_format, p3l_format::specs::Format::within))]
fn read_flag(kind: ModuleKind, bytes: &[u8]) -> Result<(bool, &[u8]), ReadError>
    ensures { Gives (λ x. (x.0, x.1.now)) result ((flag_format kind).read bytes.now) }
{
    let (has, rest) = read_one_of(&[false, true], bytes)?;
    if has && !kind.may_rescue() {
        return Err(fault_of(Cause::Range, bytes));
    }
    Ok((has, rest))
}

// The rescue number of a module of a kind in version 2, if it has one, and what is after it.
#[tactic(auto, unfolding(crate::specs::Rescue::rescue_format, crate::specs::Rescue::number_format, p3l_format::specs::Format::tagged, p3l_format::specs::Format::as_form, p3l_format::specs::Format::nothing))]
fn read_rescue(kind: ModuleKind, bytes: &[u8]) -> Result<(Option<i64>, &[u8]), ReadError>
    ensures { Gives (λ x. (x.0, x.1.now)) result ((rescue_format Two kind).read bytes.now) }
{
    let (has, rest) = read_flag(kind, bytes)?;
    if !has {
        return Ok((None, rest));
    }
    let (number, rest) = read_i64(rest)?;
    Ok((Some(number), rest))
}

// Puts a rescue number, or that there is none, after others.
#[tactic(auto, unfolding(crate::specs::Rescue::rescue_format, crate::specs::Rescue::flag_format, crate::specs::Rescue::number_format, p3l_format::specs::Format::tagged, p3l_format::specs::Format::as_form, p3l_format::specs::Format::nothing, p3l_format::specs::Format::within, p3l_format::specs::Format::coded, p3l_format::specs::Numbers::one_of, p3l_format::specs::Numbers::u8_format))]
fn write_rescue(rescue: Option<i64>, out: &mut Vec<u8>) -> Result<(), NoMemory>
    ensures { (kind : TheKind)
        → OnGiven result (out.new.items ≡ out.old.items ++ (rescue_format Two kind).spell rescue) }
{
    match rescue {
        None => write_u8(0, out),
        Some(number) => {
            write_u8(1, out)?;
            write_i64(number, out)
        }
    }
}

/// The rescue number of a module of a kind, in a version of images.
#[derive(Clone, Copy, Drop)]
pub struct RescueField {
    pub version: Version,
    pub kind: ModuleKind,
}

impl Field for RescueField {
    type Value = Option<i64>;

    ghost format = { λ it. rescue_format it.version it.kind };

    ghost lawful = { λ it. lawful_rescue it.version it.kind };

    #[tactic(auto, unfolding(crate::specs::Rescue::rescue_format, p3l_format::specs::Format::nothing))]
    fn read<'a>(
        &self,
        _alloc: Global,
        bytes: &'a [u8],
    ) -> Result<(Option<i64>, &'a [u8]), ReadError> {
        match self.version {
            Version::One => Ok((None, bytes)),
            Version::Two => read_rescue(self.kind, bytes),
        }
    }

    #[tactic(auto, unfolding(crate::specs::Rescue::rescue_format, p3l_format::specs::Format::nothing))]
    fn write(&self, value: &Option<i64>, out: &mut Vec<u8>) -> Result<(), NoMemory> {
        match self.version {
            Version::One => Ok(()),
            Version::Two => write_rescue(*value, out),
        }
    }
}
