// The forms of the nodes of a table.

ghost use Rattle.std.specs.Prelude.{OnErr};
ghost use Rattle.p3l_base.specs.Memory.{Refused};

use p3l_base::{Cut, Dim, List, NoMemory, Slice};
use p3l_skel::Form;
use std::alloc::Global;

/// An array: the word that it starts at, and its dimensions.
pub type Array = (u32, &'static [Dim]);

/// The form of a node, as a table gives it.
#[derive(Clone, Copy, Drop)]
pub enum NodeForm {
    Seq,
    Comp,
    Pipe,
    /// The workers of the clause.
    Farm(Option<u32>),
    /// The workers of the clause, the numbers of first and of second indices, and the arrays that
    /// are taken apart and filled.
    Map(Option<u32>, u32, u32, &'static [Array], &'static [Array]),
    /// The workers of the clause, the number of elements, and the words of each.
    Reduce(Option<u32>, u32, u32),
    /// The turns, and the tokens at once.
    Loop(u32, u32),
}

/// The list of these numbers.
pub fn list_of(alloc: Global, numbers: &[u32]) -> Result<List<u32>, NoMemory>
    ensures { OnErr result Refused }
{
    Ok(List::from_vec(Vec::from_slice(alloc, numbers)?))
}

fn slices_of(alloc: Global, arrays: &[(u32, &[Dim])]) -> Result<List<Slice>, NoMemory>
    ensures { OnErr result Refused }
{
    let mut slices = List::new(alloc);
    for (start, dims) in arrays {
        slices.push(Slice {
            start: *start,
            dims: List::from_vec(Vec::from_slice(alloc, dims)?),
        })?;
    }
    Ok(slices)
}

/// A cut by its numbers of first and second indices, the arrays that it takes apart and those that
/// it fills.
pub fn cut_of(
    alloc: Global,
    first: u32,
    second: u32,
    ins: &[(u32, &[Dim])],
    outs: &[(u32, &[Dim])],
) -> Result<Cut, NoMemory>
    ensures { OnErr result Refused }
{
    let ins = slices_of(alloc, ins)?;
    let outs = slices_of(alloc, outs)?;
    Ok(Cut {
        first,
        second,
        ins,
        outs,
    })
}

/// The form of a node of this shape.
pub fn form_of(alloc: Global, shape: NodeForm) -> Result<Form, NoMemory>
    ensures { OnErr result Refused }
{
    Ok(match shape {
        NodeForm::Seq => Form::Seq,
        NodeForm::Comp => Form::Comp,
        NodeForm::Pipe => Form::Pipe,
        NodeForm::Farm(workers) => Form::Farm { workers },
        NodeForm::Map(workers, first, second, ins, outs) => Form::Map {
            workers,
            cut: cut_of(alloc, first, second, ins, outs)?,
        },
        NodeForm::Reduce(workers, len, elem) => Form::Reduce { workers, len, elem },
        NodeForm::Loop(turns, tokens) => Form::Loop { turns, tokens },
    })
}
