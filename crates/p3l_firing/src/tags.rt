// Tags of tokens.

ghost use Rattle.std.specs.Prelude.{◌≡◌, ◌<◌, ◌≤◌, ◌^◌, ◌↔◌, [], ◌∷◌, length, reverse, IsTrue};
ghost use Rattle.p3l_base.specs.Memory.{IfGiven};
ghost use Rattle.p3l_firing.specs.Token.{most_tags, first_tag, later_tags, next_tag};

use arrayvec::ArrayVec;
use p3l_base::{List, NoMemory};
use std::alloc::Global;
use std::marker::Model;

/// The most tags of a token: two for each level of nodes that may be one in another.
pub const MOST_TAGS: usize = 12;

/// The tags of a token, which contracts see as a list from the newest to the oldest. They lie in the
/// token itself, so that a tag more takes no memory.
#[derive(Debug, Drop)]
pub struct Tags {
    items: ArrayVec<u64, 12>,
}

impl Model for Tags {
    ghost use Rattle.std.specs.Prelude.{List, ℕ, reverse};

    ghost Value = { List ℕ };

    ghost view = { λ it. reverse it.items.items };
}

impl Tags {
    /// No tags.
    pub fn new() -> Tags
        ensures { result ≡ [] }
    {
        Tags {
            items: ArrayVec::new(),
        }
    }

    /// The tags that were saved, from the oldest to the newest.
    pub fn restore(saved: &[u64]) -> Tags
        requires { length saved.now ≤ most_tags }
        ensures { result ≡ reverse saved.now }
    {
        let mut tags = Tags::new();
        for tag in saved {
            tags.add(*tag);
        }
        tags
    }

    /// Saves the tags, from the oldest to the newest.
    pub fn save(&self, alloc: Global) -> Result<List<u64>, NoMemory>
        ensures { IfGiven result (λ saved. saved ≡ reverse self.now) }
    {
        Ok(List::from_vec(Vec::from_slice(alloc, self.items.as_slice())?))
    }

    /// Returns true exactly if there is no tag.
    pub fn is_empty(&self) -> bool
        ensures { IsTrue result ↔ (self.now ≡ []) }
    {
        self.items.as_slice().is_empty()
    }

    /// Adds a tag.
    pub fn add(&mut self, tag: u64)
        requires { length self.old < 12 }
        ensures { self.new ≡ tag ∷ self.old }
    {
        self.items.push(tag);
    }

    /// The same tags.
    pub fn copy(&self) -> Tags
        ensures { result ≡ self.now }
    {
        let mut items = ArrayVec::new();
        for tag in self.items.as_slice() {
            items.push(*tag);
        }
        Tags { items }
    }

    /// The newest tag, 0 if there is none.
    pub fn newest(&self) -> u64
        ensures { result ≡ first_tag self.now }
    {
        let items = self.items.as_slice();
        if items.len() == 0 {
            0
        } else {
            items[items.len() - 1]
        }
    }

    /// The second newest tag, 0 if there is none.
    pub fn second(&self) -> u64
        ensures { result ≡ first_tag (later_tags self.now) }
    {
        let items = self.items.as_slice();
        if items.len() < 2 {
            0
        } else {
            items[items.len() - 2]
        }
    }

    /// Counts one more in the newest tag, if there is one.
    pub fn count_newest(&mut self)
        requires { first_tag self.old < 2 ^ 63 }
        ensures { self.new ≡ next_tag self.old }
    {
        let newest = self.newest();
        if self.items.as_slice().len() > 0 {
            let _newest = self.items.pop();
            self.items.push(newest + 1);
        }
    }

    /// Drops the newest tag, if there is one.
    pub fn drop_newest(&mut self)
        ensures { self.new ≡ later_tags self.old }
    {
        let _newest = self.items.pop();
    }
}
