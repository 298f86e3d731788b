// The lines of a trace, where they are kept.

ghost use Rattle.std.specs.Prelude.{◌≡◌, ◌∷◌, ◌++◌, [], option_map};
ghost use Rattle.p3l_base.specs.Memory.{OnGiven};
ghost use Rattle.p3l_run.specs.Keeping.{kept_by};

use p3l_base::{List, NoMemory};
use p3l_firing::ProcKind;
use p3l_trace::TraceLine;
use std::alloc::Global;

/// The part of the picks of a run that is kept.
#[derive(Clone, Copy, Debug, Drop, PartialEq, Eq)]
pub enum Keeping {
    /// A line for each pick.
    Lines,
    /// Nothing, so that no memory is taken for lines.
    Nothing,
}

/// No line yet, where lines are to be kept.
pub(crate) fn no_lines(alloc: Global, keeping: Keeping) -> Option<List<TraceLine>>
    ensures { result ≡ kept_by keeping [] }
{
    match keeping {
        Keeping::Lines => Some(List::new(alloc)),
        Keeping::Nothing => None,
    }
}

/// Keeps a pick, and the kind of what it fired as, or none for an idle pick, after the lines that
/// are kept, where lines are.
pub(crate) fn keep(
    kept: &mut Option<List<TraceLine>>,
    pick: u32,
    kind: Option<ProcKind>,
) -> Result<(), NoMemory>
    ensures { OnGiven result (kept.new
        ≡ option_map (λ lines. lines ++ record { pick = pick; kind = kind } ∷ []) kept.old) }
{
    match kept {
        None => Ok(()),
        Some(lines) => lines.push(TraceLine { pick, kind }),
    }
}
