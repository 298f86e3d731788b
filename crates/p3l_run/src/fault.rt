// Why a run ends early.

ghost use Rattle.std.specs.Prelude.{◌≡◌};
ghost use Rattle.p3l_run.specs.declared.fault.RunFault.TheVariants as faults;

use p3l_io::Failed;

/// Why a run ends early.
#[derive(Clone, Copy, Debug, Drop, PartialEq, Eq)]
pub enum RunFault {
    /// Writing failed.
    Write,
    /// Out of memory.
    NoMemory,
}

impl From<p3l_base::NoMemory> for RunFault {
    ghost from_gives = { λ _ e. e ≡ faults.NoMemory };

    fn from(_want: p3l_base::NoMemory) -> RunFault {
        RunFault::NoMemory
    }
}

impl From<Failed> for RunFault {
    ghost from_gives = { λ _ e. e ≡ faults.Write };

    fn from(_failed: Failed) -> RunFault {
        RunFault::Write
    }
}
