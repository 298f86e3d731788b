// The forms of nodes as fields.

ghost use Rattle.std.specs.Prelude.{◌≡◌, ◌++◌, true};
ghost use Rattle.p3l_base.specs.Memory.{OnGiven};
ghost use Rattle.p3l_format.specs.Format.{Gives};
ghost use Rattle.p3l_tree_format.specs.Form.{clause_of, clause_format, form_format};
ghost use Rattle.p3l_tree_format.specs.laws.Form.{lawful_form_of};

use crate::slice::CutField;
use p3l_base::NoMemory;
use p3l_base::limits::{MOST_TOKENS, MOST_TURNS, MOST_WORDS, MOST_WORKERS};
use p3l_format::{Field, ReadError, read_u32_in, write_u32};
use p3l_skel::{Form, ModuleKind};
use std::alloc::Global;

// The number of a clause, at most that of workers, and the bytes after it.
#[tactic(auto, unfolding(crate::specs::Form::clause_format, p3l_format::specs::Format::as_form))]
fn read_clause(bytes: &[u8]) -> Result<(Option<u32>, &[u8]), ReadError>
    ensures { Gives (λ x. (x.0, x.1.now)) result (clause_format.read bytes.now) }
{
    let (number, rest) = read_u32_in(0, MOST_WORKERS, bytes)?;
    Ok((clause(number), rest))
}

// The clause that a number stands for.
fn clause(number: u32) -> Option<u32>
    ensures { result ≡ clause_of number }
{
    if number == 0 {
        return None;
    }
    Some(number)
}

// Puts the number of a clause after others.
#[tactic(auto, unfolding(crate::specs::Form::clause_format, p3l_format::specs::Format::as_form, p3l_format::specs::Format::within))]
fn write_clause(clause: Option<u32>, out: &mut Vec<u8>) -> Result<(), NoMemory>
    ensures { OnGiven result (out.new.items ≡ out.old.items ++ clause_format.spell clause) }
{
    write_u32(clause.unwrap_or(0), out)
}

/// The form of a node whose module has this kind.
#[derive(Clone, Copy, Drop)]
pub struct FormField {
    pub kind: ModuleKind,
}

impl Field for FormField {
    type Value = Form;

    ghost format = { λ it. form_format it.kind };

    ghost lawful = { λ it. lawful_form_of it.kind };

    #[tactic(auto, unfolding(crate::specs::Form::form_format, p3l_format::specs::Format::pair, p3l_format::specs::Format::as_form, p3l_format::specs::Format::nothing))]
    fn read<'a>(&self, alloc: Global, bytes: &'a [u8]) -> Result<(Form, &'a [u8]), ReadError> {
        match self.kind {
            ModuleKind::Seq => Ok((Form::Seq, bytes)),
            ModuleKind::Comp => Ok((Form::Comp, bytes)),
            ModuleKind::Pipe => Ok((Form::Pipe, bytes)),
            ModuleKind::Farm => {
                let (workers, rest) = read_clause(bytes)?;
                Ok((Form::Farm { workers }, rest))
            }
            ModuleKind::Map => {
                let (workers, rest) = read_clause(bytes)?;
                let (cut, rest) = CutField.read(alloc, rest)?;
                Ok((Form::Map { workers, cut }, rest))
            }
            ModuleKind::Reduce => {
                let (workers, rest) = read_clause(bytes)?;
                let (len, rest) = read_u32_in(1, MOST_WORDS as u32, rest)?;
                let (elem, rest) = read_u32_in(1, MOST_WORDS as u32, rest)?;
                Ok((Form::Reduce { workers, len, elem }, rest))
            }
            ModuleKind::Loop => {
                let (turns, rest) = read_u32_in(1, MOST_TURNS, bytes)?;
                let (tokens, rest) = read_u32_in(1, MOST_TOKENS, rest)?;
                Ok((Form::Loop { turns, tokens }, rest))
            }
        }
    }

    #[tactic(auto, unfolding(crate::specs::Form::form_format, p3l_format::specs::Format::pair, p3l_format::specs::Format::as_form, p3l_format::specs::Format::nothing, p3l_format::specs::Format::within))]
    fn write(&self, value: &Form, out: &mut Vec<u8>) -> Result<(), NoMemory> {
        match value {
            Form::Seq | Form::Comp | Form::Pipe => Ok(()),
            Form::Farm { workers } => write_clause(*workers, out),
            Form::Map { workers, cut } => {
                write_clause(*workers, out)?;
                CutField.write(cut, out)
            }
            Form::Reduce { workers, len, elem } => {
                write_clause(*workers, out)?;
                write_u32(*len, out)?;
                write_u32(*elem, out)
            }
            Form::Loop { turns, tokens } => {
                write_u32(*turns, out)?;
                write_u32(*tokens, out)
            }
        }
    }
}
