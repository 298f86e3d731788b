// Lists of 64-bit whole numbers.

ghost use Rattle.std.specs.Prelude.{◌≡◌, ◌↔◌, [], ◌∷◌, ◌++◌, length, OnErr, IsTrue};
ghost use Rattle.p3l_base.specs.Memory.{IfGiven, OnGiven};

use p3l_refusal::NoMemory;
use smallvec::SmallVec;
use std::alloc::Global;
use std::marker::Model;

/// The count of words that lie in the value itself; more take memory.
const WORDS_IN_PLACE: usize = 4;

/// The words of a token, which contracts see as a list of whole numbers.
#[derive(Debug, Drop)]
pub struct Words {
    items: SmallVec<i64, WORDS_IN_PLACE>,
}

impl Model for Words {
    ghost use Rattle.std.specs.Prelude.{List, ℤ};

    ghost Value = { List ℤ };

    ghost view = { λ it. it.items.items };
}

impl Words {
    /// Makes an empty list of words, which later takes memory from `alloc`.
    pub fn new(alloc: Global) -> Words
        ensures { result ≡ [] }
    {
        Words {
            items: SmallVec::new(alloc),
        }
    }

    /// The words of a vector, whose memory is kept where it has room for more than lie in place.
    pub fn from_vec(items: Vec<i64>) -> Words
        ensures { result ≡ items.items }
    {
        Words {
            items: SmallVec::from_vec(items),
        }
    }

    /// A copy of these words, which takes memory only where more come than lie in place.
    pub fn from_slice(alloc: Global, words: &[i64]) -> Result<Words, NoMemory>
        ensures { IfGiven result (λ copy. copy ≡ words.now) }
    {
        Ok(Words {
            items: SmallVec::from_slice(alloc, words)?,
        })
    }

    /// The words on the left followed by those on the right.
    pub fn joined(alloc: Global, left: &[i64], right: &[i64]) -> Result<Words, NoMemory>
        ensures { IfGiven result (λ both. both ≡ left.now ++ right.now) }
    {
        let mut items = SmallVec::with_capacity(alloc, left.len().saturating_add(right.len()))?;
        items.extend_from_slice(left)?;
        items.extend_from_slice(right)?;
        Ok(Words { items })
    }

    /// The count of words.
    pub fn len(&self) -> usize
        ensures { result ≡ length self.now }
    {
        self.items.len()
    }

    /// Returns true exactly if there is no word.
    pub fn is_empty(&self) -> bool
        ensures { IsTrue result ↔ (self.now ≡ []) }
    {
        self.items.is_empty()
    }

    /// Puts a word after the others.
    pub fn push(&mut self, word: i64) -> Result<(), NoMemory>
        ensures ok { OnGiven result (self.new ≡ self.old ++ word ∷ []) }
        ensures err { OnErr result (self.new ≡ self.old) }
    {
        self.items.push(word)?;
        Ok(())
    }

    /// The words in order.
    pub fn as_slice(&self) -> &[i64]
        ensures { result.now ≡ self.now }
    {
        self.items.as_slice()
    }
}
