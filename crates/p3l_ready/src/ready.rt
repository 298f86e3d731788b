// The set of processes that are ready.

ghost use Rattle.std.specs.Prelude.{◌≡◌, ℕ, ◌+◌, ◌-◌, ◌*◌, ◌<◌, ◌≤◌, length, replicate, slice_set, slice_index, true, false, nat_eq, IsTrue, find};
ghost use Rattle.p3l_base.specs.Memory.{IfGiven};
ghost use Rattle.std.specs.List.{range_with_len};
ghost use Rattle.p3l_ready.specs.Flags.{flag_at, count_from, in_turn};

use p3l_base::NoMemory;
use std::alloc::Global;
use std::marker::Model;

/// The numbers that are counted together.
const BLOCK: u32 = 64;

/// A set of numbers below a size, which contracts see as a flag for each number. The numbers of each
/// block are counted, so a search passes over empty blocks.
#[derive(Debug, Drop)]
pub struct ReadySet {
    flags: Vec<bool>,
    blocks: Vec<u32>,
    count: u32,
}

impl Model for ReadySet {
    ghost use Rattle.std.specs.Prelude.{List, Bool};
    ghost use Rattle.p3l_ready.specs.Flags.{IsCounted};

    ghost Value = { List Bool };

    ghost view = { λ it. it.flags.items };

    ghost invariant = { λ it. IsCounted it.flags.items it.blocks.items it.count };
}

impl ReadySet {
    /// The empty set of numbers below `size`.
    pub fn new(alloc: Global, size: u32) -> Result<ReadySet, NoMemory>
        requires { size ≤ 1048576 }
        ensures { IfGiven result (λ set. set ≡ replicate size false) }
    {
        let flags = vec![in alloc; false; size as usize]?;
        let blocks = vec![in alloc; 0u32; size.div_ceil(BLOCK) as usize]?;
        Ok(ReadySet {
            flags,
            blocks,
            count: 0,
        })
    }

    /// Returns true exactly if the number is in the set.
    pub fn contains(&self, p: u32) -> bool
        requires { p < length self.now }
        ensures { result ≡ flag_at self.now p }
    {
        self.flags[p as usize]
    }

    /// Puts a number into the set, or takes it out.
    pub fn put(&mut self, p: u32, flag: bool)
        requires { p < length self.old }
        ensures { self.new ≡ slice_set self.old p flag }
    {
        if self.flags[p as usize] != flag {
            self.flags[p as usize] = flag;
            if flag {
                self.blocks[(p / BLOCK) as usize] += 1;
                self.count += 1;
            } else {
                self.blocks[(p / BLOCK) as usize] -= 1;
                self.count -= 1;
            }
        }
    }

    /// The count of numbers in the set.
    pub fn count(&self) -> u32
        ensures { result ≡ count_from (flag_at self.now) 0 (length self.now) }
    {
        self.count
    }

    // A count of numbers from `p` on that are not in the set; it is 0 exactly where `p` is in it.
    fn gap(&self, p: u32) -> u32
        requires { p < length self.now }
        ensures here { result ≡ 0 → flag_at self.now p ≡ true }
        ensures none { find (flag_at self.now) (range_with_len p result) ≡ None }
        ensures few { result ≤ 64 }
    {
        if p % BLOCK == 0 && self.blocks[(p / BLOCK) as usize] == 0 {
            BLOCK
        } else if self.flags[p as usize] {
            0
        } else {
            1
        }
    }

    // The first number of the set from `from` on, below `to`.
    fn first_between(&self, from: u32, to: u32) -> Option<u32>
        requires ordered { from ≤ to }
        requires there { to ≤ length self.now }
        requires few { length self.now ≤ 1048576 }
        ensures { result ≡ find (flag_at self.now) (range_with_len from (to - from)) }
    {
        let mut p = from;
        while p < to {
            let gap = self.gap(p);
            if gap == 0 {
                return Some(p);
            }
            p += gap;
        }
        None
    }

    /// The first number of the set at or after `from`, cyclically.
    pub fn next(&self, from: u32) -> Option<u32>
        requires there { from ≤ length self.now }
        requires few { length self.now ≤ 1048576 }
        ensures { result ≡ find (flag_at self.now) (in_turn (length self.now) from) }
    {
        match self.first_between(from, self.flags.len() as u32) {
            Some(p) => Some(p),
            None => self.first_between(0, from),
        }
    }

    // The start of the block that holds the number with `k` others before it, and the count of
    // those others within the block.
    fn block_of(&self, k: u32) -> (u32, u32)
        requires { k < count_from (flag_at self.now) 0 (length self.now) }
        ensures inside { result.0 ≤ length self.now }
        ensures left { result.1 + count_from (flag_at self.now) 0 result.0 ≡ k }
    {
        let mut left = k;
        for b in 0..self.blocks.len() {
            let count = self.blocks[b];
            if left < count {
                return (b as u32 * BLOCK, left);
            }
            left -= count;
        }
        unreachable!()
    }

    // The number from `start` on that has `k` others between `start` and it.
    fn nth_from(&self, start: u32, k: u32) -> u32
        requires inside { start ≤ length self.now }
        requires few { length self.now ≤ 1048576 }
        requires there { k < count_from (flag_at self.now) start (length self.now - start) }
        ensures there { (start ≤ result) × (result < length self.now) }
        ensures flag { flag_at self.now result ≡ true }
        ensures before { count_from (flag_at self.now) start (result - start) ≡ k }
    {
        let mut left = k;
        for p in start..self.flags.len() as u32 {
            if self.flags[p as usize] {
                if left == 0 {
                    return p;
                }
                left -= 1;
            }
        }
        unreachable!()
    }

    /// The number of the set that has `k` others of it below.
    pub fn nth(&self, k: u32) -> u32
        requires few { length self.now ≤ 1048576 }
        requires there { k < count_from (flag_at self.now) 0 (length self.now) }
        ensures there { result < length self.now }
        ensures flag { flag_at self.now result ≡ true }
        ensures before { count_from (flag_at self.now) 0 result ≡ k }
    {
        let (start, left) = self.block_of(k);
        self.nth_from(start, left)
    }
}
