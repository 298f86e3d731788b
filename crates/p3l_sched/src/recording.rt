// Recorded picks, taken one by one.

ghost use Rattle.std.specs.Prelude.{◌≡◌, ◌<◌, ℕ, IfSome, drop};
ghost use Rattle.std.specs.List.{AllByRecursion, slice_get};

use p3l_base::List;
use std::marker::Model;

/// Recorded picks, which contracts see as the list of those that are left.
#[derive(Debug, Drop)]
pub(crate) struct Recording {
    picks: List<u32>,
    next: usize,
}

impl Model for Recording {
    ghost use Rattle.std.specs.Prelude.{ℕ, List, drop, ◌≤◌, length};

    ghost Value = { List ℕ };

    ghost view = { λ it. drop it.next it.picks };

    ghost invariant = { λ it. it.next ≤ length it.picks };
}

impl Recording {
    /// All of these picks are left.
    pub(crate) fn new(picks: List<u32>) -> Recording
        ensures { result ≡ picks }
    {
        Recording { picks, next: 0 }
    }

    /// Takes the first pick that is left.
    pub(crate) fn take(&mut self) -> Option<u32>
        ensures first { result ≡ slice_get self.old 0 }
        ensures rest { self.new ≡ drop 1 self.old }
        ensures below { (size : ℕ) → AllByRecursion (λ pick. pick < size) self.old
            → IfSome result (λ pick. pick < size) }
    {
        let first = self.picks.as_slice().get(self.next)?;
        self.next += 1;
        Some(*first)
    }
}
