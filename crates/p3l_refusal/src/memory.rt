// Out of memory.

ghost use Rattle.std.specs.Prelude.{◌≡◌};
ghost use Rattle.p3l_refusal.specs.Memory.{Refused};

use std::alloc::{AllocError, AllocFailed};

/// Out of memory. Every contract that ends with it says that a request for memory was refused, and only
/// the two conversions of std's errors below conclude this.
#[derive(Clone, Copy, Debug, Drop, PartialEq, Eq)]
pub struct NoMemory;

impl<T: Drop> From<AllocFailed<T>> for NoMemory {
    ghost from_gives = { λ _ _. Refused };

    fn from(_failed: AllocFailed<T>) -> NoMemory {
        NoMemory
    }
}

impl From<AllocError> for NoMemory {
    ghost from_gives = { λ _ _. Refused };

    fn from(_failed: AllocError) -> NoMemory {
        NoMemory
    }
}

/// A value that was not stored, and the refusal of the memory for it.
pub fn parted<T>(failed: AllocFailed<T>) -> (T, NoMemory)
    ensures value { result.0 ≡ failed.value }
    ensures refused { Refused }
{
    (failed.value, NoMemory)
}
