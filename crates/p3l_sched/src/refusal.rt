// Refusals of recorded picks.

ghost use Rattle.std.specs.Prelude.{◌≡◌};
ghost use Rattle.p3l_sched.specs.declared.refusal.PickRefusal.TheVariants.{NoMemory};

use thiserror::Error;

/// The reasons to refuse recorded picks. Lines count from 1.
#[derive(Clone, Copy, Debug, Drop, PartialEq, Eq, Error)]
pub enum PickRefusal {
    /// A word is no number of 64 bits in decimal digits.
    #[error("line {line} has a word that is no pick")]
    BadPick { line: u64 },
    /// A pick is not below the number of processes.
    #[error("line {line} picks process {pick} of {count}")]
    NoSuchProcess { line: u64, pick: u64, count: u32 },
    /// Out of memory.
    #[error("no memory")]
    NoMemory,
}

impl From<p3l_base::NoMemory> for PickRefusal {
    ghost from_gives = { λ _ refusal. refusal ≡ NoMemory };

    fn from(_want: p3l_base::NoMemory) -> PickRefusal {
        PickRefusal::NoMemory
    }
}
