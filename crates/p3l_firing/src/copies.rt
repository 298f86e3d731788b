// Copies of outcomes.

ghost use Rattle.std.specs.Prelude.{◌≡◌};
ghost use Rattle.p3l_base.specs.Memory.{IfGiven};

use p3l_base::{NoMemory, Outcome};
use p3l_skel::outcome::copied;
use std::alloc::Global;

/// Copies an outcome.
pub fn same(alloc: Global, outcome: &Outcome) -> Result<Outcome, NoMemory>
    ensures { IfGiven result (λ copy. copy ≡ outcome.now) }
{
    match outcome {
        Outcome::Value(words) => Ok(Outcome::Value(copied(alloc, words)?)),
        Outcome::Trapped(trap) => Ok(Outcome::Trapped(*trap)),
    }
}
