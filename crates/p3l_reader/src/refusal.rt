//! Why tokens could not be read.

ghost use Rattle.std.specs.Prelude.{◌≡◌};
ghost use Rattle.p3l_base.specs.Memory.{Refused};
ghost use Rattle.p3l_reader.specs.declared.refusal.Refusal.TheVariants.{NoMemory};

use p3l_base::NoMemory as Wanting;
use std::alloc::{AllocError, AllocFailed};

/// Why tokens could not be read.
#[derive(Clone, Copy, Debug, Drop)]
pub enum Refusal {
    NoMemory,
    /// No program begins with the tokens up to and with the first of the last `left`; at 0 the end
    /// comes too early.
    Expected { left: usize },
}

impl From<AllocError> for Refusal {
    ghost from_gives = { λ _ e. (e ≡ NoMemory) × Refused };

    fn from(failed: AllocError) -> Refusal {
        let _want = Wanting::from(failed);
        Refusal::NoMemory
    }
}

impl<T: Drop> From<AllocFailed<T>> for Refusal {
    ghost from_gives = { λ _ e. (e ≡ NoMemory) × Refused };

    fn from(failed: AllocFailed<T>) -> Refusal {
        let _want = Wanting::from(failed);
        Refusal::NoMemory
    }
}

impl From<Wanting> for Refusal {
    ghost from_gives = { λ _ e. e ≡ NoMemory };

    fn from(_want: Wanting) -> Refusal {
        Refusal::NoMemory
    }
}
