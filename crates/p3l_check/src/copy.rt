// Copies of forms, one for each instance of a module.

ghost use Rattle.std.specs.Prelude.{◌≡◌};
ghost use Rattle.p3l_base.specs.Memory.{IfGiven};

use p3l_base::{Cut, List, NoMemory, Slice};
use p3l_skel::Form;
use std::alloc::Global;

/// A copy of slices.
fn copy_slices(alloc: Global, slices: &[Slice]) -> Result<List<Slice>, NoMemory>
    ensures { IfGiven result (λ copy. copy ≡ slices.now) }
{
    let mut copy = List::new(alloc);
    for slice in slices {
        let dims = slice.dims.as_slice().to_vec(alloc)?;
        copy.push(Slice {
            start: slice.start,
            dims: List::from_vec(dims),
        })?;
    }
    Ok(copy)
}

/// A copy of a cut.
fn copy_cut(alloc: Global, cut: &Cut) -> Result<Cut, NoMemory>
    ensures { IfGiven result (λ copy. copy ≡ cut.now) }
{
    let ins = copy_slices(alloc, cut.ins.as_slice())?;
    let outs = copy_slices(alloc, cut.outs.as_slice())?;
    Ok(Cut {
        first: cut.first,
        second: cut.second,
        ins,
        outs,
    })
}

/// A copy of a form.
pub(crate) fn copy_form(alloc: Global, form: &Form) -> Result<Form, NoMemory>
    ensures { IfGiven result (λ copy. copy ≡ form.now) }
{
    match form {
        Form::Seq => Ok(Form::Seq),
        Form::Comp => Ok(Form::Comp),
        Form::Pipe => Ok(Form::Pipe),
        Form::Farm { workers } => Ok(Form::Farm { workers: *workers }),
        Form::Map { workers, cut } => {
            let cut = copy_cut(alloc, cut)?;
            Ok(Form::Map {
                workers: *workers,
                cut,
            })
        }
        Form::Reduce { workers, len, elem } => Ok(Form::Reduce {
            workers: *workers,
            len: *len,
            elem: *elem,
        }),
        Form::Loop { turns, tokens } => Ok(Form::Loop {
            turns: *turns,
            tokens: *tokens,
        }),
    }
}
