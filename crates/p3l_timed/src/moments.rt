// Due moments of numbers: a tree of the least ones, kept in an array.

ghost use Rattle.std.specs.Prelude.{◌≡◌, ◌≢◌, ℕ, suc, ◌+◌, ◌^◌, ◌<◌, ◌≤◌, length, drop, replicate, set, slice_set, IsTrue, IsFalse, IfSome, IsNone, Some, None};
ghost use Rattle.p3l_base.specs.Memory.{IfGiven};
ghost use Rattle.p3l_timed.specs.Moments.{IsDown, IsLeast, IsNeverDue, IsNoLater, IsSooner, IsSoonest, IsTree, IsTreeBut, due_at};

use p3l_base::NoMemory;
use std::alloc::Global;
use std::marker::Model;

/// The moments at which the numbers below a size are due, if they are: contracts see their list.
///
/// They are the last `size` of twice as many cells, a power of two. Each cell j before them, from 1
/// on, has the sooner of the moments in cells 2 j and 2 j + 1, so that cell 1 has the least of all;
/// a change mends the cells above it, one a level.
#[derive(Debug, Drop)]
pub struct Moments {
    levels: u32,
    size: usize,
    cells: Vec<Option<u128>>,
}

impl Model for Moments {
    ghost use Rattle.std.specs.Prelude.{ℕ, List, Option, drop};
    ghost use Rattle.p3l_timed.specs.Moments.{IsLevelled};

    ghost Value = { List (Option ℕ) };

    ghost view = { λ it. drop it.size it.cells.items };

    ghost invariant = { λ it. IsLevelled it.levels it.size it.cells.items };
}

// Returns true exactly if `a` comes no later than `b`.
fn is_no_later(a: Option<u128>, b: Option<u128>) -> bool
    ensures yes { IsTrue result → IsNoLater a b }
    ensures no { IsFalse result → IsSooner b a }
{
    match (a, b) {
        (Some(x), Some(y)) => x <= y,
        (None, Some(_)) => false,
        (Some(_), None) => true,
        (None, None) => true,
    }
}

// The sooner of two, and the first of equals.
fn soonest(a: Option<u128>, b: Option<u128>) -> Option<u128>
    ensures { IsSoonest a b result }
{
    if is_no_later(a, b) { a } else { b }
}

// Returns true exactly if there is a moment in cell `i`.
fn is_due(cells: &[Option<u128>], i: usize) -> bool
    requires { i < length cells.now }
    ensures yes { IsTrue result → due_at cells.now i ≢ None }
    ensures no { IsFalse result → due_at cells.now i ≡ None }
{
    cells[i].is_some()
}

// Mends the cells above cell `from`, which has changed.
fn mend(cells: &mut [Option<u128>], size: usize, from: usize)
    requires some { 1 ≤ from }
    requires there { from < length cells.old }
    requires tree { IsTreeBut size from cells.old }
    ensures tree { IsTree size cells.new }
    ensures numbers { drop size cells.new ≡ drop size cells.old }
{
    let mut i = from;
    while i > 1 {
        i = i / 2;
        cells[i] = soonest(cells[i + i], cells[i + i + 1]);
    }
}

// One step down from cell `i`: the first of the two cells below that has its moment.
fn down(cells: &[Option<u128>], i: usize) -> usize
    requires { suc (i + i) < length cells.now }
    ensures left { result ≡ i + i → IsNoLater (due_at cells.now (i + i)) (due_at cells.now (suc (i + i))) }
    ensures right { result ≡ suc (i + i) → IsSooner (due_at cells.now (suc (i + i))) (due_at cells.now (i + i)) }
    ensures either { (i + i ≤ result) × (result ≤ suc (i + i)) }
{
    if is_no_later(cells[i + i], cells[i + i + 1]) {
        i + i
    } else {
        i + i + 1
    }
}

// The first cell of a number that has the root's moment.
fn first_least(cells: &[Option<u128>], levels: u32) -> usize
    requires few { levels ≤ 32 }
    requires tree { IsTree (2 ^ levels) cells.now }
    ensures { IsDown cells.now levels result }
{
    let mut i = 1;
    for _level in 0..levels {
        i = down(cells, i);
    }
    i
}

impl Moments {
    /// `count` numbers at least, none of which is due.
    pub fn new(alloc: Global, count: u32) -> Result<Moments, NoMemory>
        ensures { IfGiven result (λ moments. (count ≤ length moments) × IsNeverDue moments) }
    {
        let mut levels = 0;
        let mut size = 1;
        while size < count as usize {
            size = size + size;
            levels += 1;
        }
        let cells = vec![in alloc; None; size + size]?;
        Ok(Moments {
            levels,
            size,
            cells,
        })
    }

    /// Sets or clears the due time of number `p`.
    pub fn put(&mut self, p: u32, due: Option<u128>)
        requires { p < length self.old }
        ensures { self.new ≡ slice_set self.old p due }
    {
        let leaf = self.size + p as usize;
        self.cells[leaf] = due;
        mend(self.cells.as_mut_slice(), self.size, leaf);
    }

    /// The moment at which number `p` is due.
    pub fn due(&self, p: u32) -> Option<u128>
        requires { p < length self.now }
        ensures { result ≡ due_at self.now p }
    {
        self.cells[self.size + p as usize]
    }

    /// The number that is due first, the lowest of equals.
    pub fn least(&self) -> Option<u32>
        ensures least { IfSome result (λ p. IsLeast self.now p) }
        ensures none { IsNone result → IsNeverDue self.now }
    {
        if !is_due(self.cells.as_slice(), 1) {
            return None;
        }
        let cell = first_least(self.cells.as_slice(), self.levels);
        Some((cell - self.size) as u32)
    }
}
