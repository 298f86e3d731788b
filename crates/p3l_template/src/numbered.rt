// Tokens in the order of their numbers, in a pass over the tokens and one over as many slots.

ghost use Rattle.std.specs.Prelude.{◌≡◌, ◌+◌, ◌++◌, [], ◌∷◌, List, ℕ, IsTrue, IsFalse, None, Option, length, nat_eq, replicate, false};
ghost use Rattle.p3l_base.specs.Memory.{IfGiven};
ghost use Rattle.p3l_firing.specs.declared.token.Token.{Token};
ghost use Rattle.p3l_template.specs.Bag.{all_within, numbered};
ghost use Rattle.p3l_template.specs.Numbered.{AreSlotted, ordered};

use crate::bare::bare;
use p3l_base::{List, NoMemory};
use p3l_firing::Token;
use std::alloc::Global;

/// Returns true exactly if all numbers lie from `from` up to `to`.
pub fn lie_within(tokens: &[Token], from: u64, to: u64) -> bool
    ensures { result ≡ all_within from to tokens.now }
{
    for token in tokens {
        let number = token.newest_tag();
        if number < from || number >= to {
            return false;
        }
    }
    true
}

// `count` slots without a token.
fn free_slots(alloc: Global, count: usize) -> Result<Vec<Option<Token>>, NoMemory>
    ensures { IfGiven result (λ slots. slots.items ≡ replicate count None) }
{
    let mut slots = Vec::new(alloc);
    for _slot in 0..count {
        slots.push(None)?;
    }
    Ok(slots)
}

// Puts a token into the slot of its number, where there is one and it is free.
fn fill(alloc: Global, slots: &mut [Option<Token>], from: u64, token: &Token) -> bool
    ensures length { length slots.new ≡ length slots.old }
    ensures yes { IsTrue result → (xs : List Token) → AreSlotted from slots.old xs
        → AreSlotted from slots.new (xs ++ token.now ∷ []) }
    ensures no { IsFalse result → (xs rest : List Token) → AreSlotted from slots.old xs
        → length (xs ++ token.now ∷ rest) ≡ length slots.old
        → numbered (xs ++ token.now ∷ rest) from ≡ false }
{
    let number = token.newest_tag();
    if number < from {
        return false;
    }
    let place = number - from;
    if place >= slots.len() as u64 {
        return false;
    }
    let place = place as usize;
    if slots[place].is_some() {
        return false;
    }
    slots[place] = Some(bare(alloc, token).untagged());
    true
}

// The tokens of the slots, if none is free.
fn unslot(alloc: Global, slots: Vec<Option<Token>>) -> Result<Option<List<Token>>, NoMemory>
    ensures { (xs : List Token) (from : ℕ) → AreSlotted from slots.items xs
        → length xs ≡ length slots.items
        → IfGiven result (λ list. list ≡ ordered xs from) }
{
    let mut list = List::new(alloc);
    for slot in slots {
        let Some(token) = slot else {
            return Ok(None);
        };
        list.push(token)?;
    }
    Ok(Some(list))
}

/// The tokens in the order of their numbers, without these and without their outcomes, if their
/// numbers are those from `from` on, each once.
pub fn in_order(alloc: Global, tokens: &[Token], from: u64) -> Result<Option<List<Token>>, NoMemory>
    ensures { IfGiven result (λ list. list ≡ ordered tokens.now from) }
{
    let mut slots = free_slots(alloc, tokens.len())?;
    for token in tokens {
        if !fill(alloc, slots.as_mut_slice(), from, token) {
            return Ok(None);
        }
    }
    unslot(alloc, slots)
}

/// Returns true exactly if `count` numbers from `from` on lead to `to`.
pub fn lead_to(from: u64, count: usize, to: u64) -> bool
    ensures { result ≡ nat_eq (from + count) to }
{
    to >= from && to - from == count as u64
}
