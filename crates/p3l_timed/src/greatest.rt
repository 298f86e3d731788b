// The greatest of some totals.

ghost use Rattle.std.specs.Prelude.{◌≡◌, ◌<◌, ◌≤◌, length, slice_index};
ghost use Rattle.p3l_timed.specs.Clock.{IsBusiest};

// The place of the greater of two totals, and the first where they are equal.
fn greater(totals: &[u128], best: usize, p: usize) -> usize
    requires first { best < length totals.now }
    requires second { p < length totals.now }
    ensures more { slice_index totals.now best < slice_index totals.now p → result ≡ p }
    ensures no_more { slice_index totals.now p ≤ slice_index totals.now best → result ≡ best }
{
    if totals[best] < totals[p] { p } else { best }
}

/// The place of the greatest of some totals, the first of equals.
pub(crate) fn greatest(totals: &[u128]) -> usize
    requires { 0 < length totals.now }
    ensures { IsBusiest totals.now result }
{
    let mut best = 0;
    for p in 1..totals.len() {
        best = greater(totals, best, p);
    }
    best
}
