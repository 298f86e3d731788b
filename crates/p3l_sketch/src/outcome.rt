// Outcomes compared.

use p3l_base::Outcome;

/// Returns true exactly if two outcomes are the same.
pub fn is_same(one: &Outcome, other: &Outcome) -> bool {
    match (one, other) {
        (Outcome::Value(words), Outcome::Value(others)) => words.as_slice() == others.as_slice(),
        (Outcome::Trapped(trap), Outcome::Trapped(another)) => trap == another,
        _ => false,
    }
}

/// Returns true exactly if an outcome is the value of these words.
pub fn has_words(outcome: &Outcome, words: &[i64]) -> bool {
    match outcome {
        Outcome::Value(value) => value.as_slice() == words,
        Outcome::Trapped(_) => false,
    }
}

/// Returns true exactly if an outcome is a trap.
pub fn is_trap(outcome: &Outcome) -> bool {
    matches!(outcome, Outcome::Trapped(_))
}
