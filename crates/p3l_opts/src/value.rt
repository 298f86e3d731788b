// Values as words spell them.

ghost use Rattle.std.specs.Prelude.{◌≡◌, ◌<◌, ◌≤◌, ◌^◌, ◌↔◌, ◌++◌, ℕ, List, slice_index, IsTrue, IfSome, IfNone};
ghost use Rattle.std.specs.Fmt.{decimal};
ghost use Rattle.p3l_opts.specs.Command.{Parses, SpellsSchedule};

use crate::command::{OptsRefusal, Sched};
use p3l_base::Name;
use std::alloc::Global;

/// Tests that a word is this text.
fn is_word(word: &str, text: &str) -> bool
    ensures { IsTrue result ↔ (word.now ≡ text.now) }
{
    word == text
}

/// Tests that a word begins with one of the digits 1 to 9.
fn begins_with_digit(word: &str) -> bool
    ensures { IsTrue result ↔ ((48 < slice_index word.now 0) × (slice_index word.now 0 < 58)) }
{
    match word.as_bytes().first() {
        Some(byte) => b'0' < *byte && *byte <= b'9',
        None => false,
    }
}

/// The number above 0 that a word spells in digits, with no sign and no leading zero.
fn number_of(word: &str) -> Option<u64>
    ensures some { IfSome result (λ number. (1 ≤ number) × (number < 2 ^ 64)
        × (word.now ≡ decimal number)) }
    ensures none { IfNone result ((number : ℕ) → 1 ≤ number → number < 2 ^ 64
        → word.now ≡ decimal number → ⊥) }
{
    if begins_with_digit(word) {
        word.parse::<u64>().ok()
    } else {
        None
    }
}

/// A number from 1 to `most`.
pub(crate) fn count_of(word: &str, most: u32) -> Option<u32>
    ensures some { IfSome result (λ count. (1 ≤ count) × (count ≤ most)
        × (word.now ≡ decimal count)) }
    ensures none { IfNone result ((count : ℕ) → 1 ≤ count → count ≤ most → word.now ≡ decimal count
        → ⊥) }
{
    match number_of(word) {
        Some(count) if count <= u64::from(most) => Some(count as u32),
        _ => None,
    }
}

/// The number of 64 bits that a word spells: 0, or a number above.
fn seed_of(word: &str) -> Option<u64>
    ensures some { IfSome result (λ seed. (seed < 2 ^ 64) × (word.now ≡ decimal seed)) }
    ensures none { IfNone result ((seed : ℕ) → seed < 2 ^ 64 → word.now ≡ decimal seed → ⊥) }
{
    if is_word(word, "0") {
        Some(0)
    } else {
        number_of(word)
    }
}

/// A number of 32 bits.
pub(crate) fn number_in(word: &str) -> Option<u32>
    ensures some { IfSome result (λ number. (number < 2 ^ 32) × (word.now ≡ decimal number)) }
    ensures none { IfNone result ((number : ℕ) → number < 2 ^ 32 → word.now ≡ decimal number → ⊥) }
{
    match seed_of(word) {
        Some(number) if number <= u64::from(u32::MAX) => Some(number as u32),
        _ => None,
    }
}

/// The text after a prefix of a word, if it begins with the prefix.
fn after<'a>(word: &'a str, front: &str) -> Option<&'a str>
    ensures some { IfSome result (λ rest. word.entry.now ≡ front.now ++ rest.now) }
    ensures none { IfNone result ((rest : List ℕ) → word.entry.now ≡ front.now ++ rest → ⊥) }
{
    word.strip_prefix(front)
}

/// The schedule that a word spells.
pub(crate) fn schedule_of(alloc: Global, word: &str) -> Result<Sched, OptsRefusal>
    ensures { Parses (SpellsSchedule word.now) result }
{
    if word == "rr" {
        return Ok(Sched::RoundRobin);
    }
    if let Some(name) = after(word, "file:") {
        return Ok(Sched::File(Name::from_text(alloc, name)?));
    }
    match after(word, "seed:") {
        Some(number) => match seed_of(number) {
            Some(seed) => Ok(Sched::Seeded(seed)),
            None => Err(OptsRefusal::Usage),
        },
        None => Err(OptsRefusal::Usage),
    }
}
