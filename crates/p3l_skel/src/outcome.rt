// Words and outcomes by themselves.

ghost use Rattle.p3l_base.specs.declared.outcome.Outcome.{Outcome};
ghost use Rattle.p3l_skel.specs.Fold.{combined};
ghost use Rattle.p3l_skel.specs.Item.{is_done, on_value, rescued};
ghost use Rattle.p3l_skel.specs.Tree.{rescue_of};
ghost use Rattle.std.specs.Prelude.{◌≡◌, ℤ, List, replicate};
ghost use Rattle.p3l_base.specs.Memory.{IfGiven};

use crate::tree::{Node, Tree};
use p3l_base::{NoMemory, Outcome, Words};
use std::alloc::Global;

/// The same words again.
pub fn copied(alloc: Global, words: &Words) -> Result<Words, NoMemory>
    ensures { IfGiven result (λ copy. copy ≡ words.now) }
{
    Words::from_slice(alloc, words.as_slice())
}

/// Returns what an operator is to be run on, of what the two halves of a fold came to: the words of
/// the left followed by those of the right, or the left trap, else the right one.
pub fn paired(alloc: Global, left: Outcome, right: Outcome) -> Result<Outcome, NoMemory>
    ensures { IfGiven result (λ both. (operator : List ℤ → Outcome)
        → on_value operator both ≡ combined operator left right) }
{
    match (left, right) {
        (Outcome::Trapped(trap), _) => Ok(Outcome::Trapped(trap)),
        (Outcome::Value(_), Outcome::Trapped(trap)) => Ok(Outcome::Trapped(trap)),
        (Outcome::Value(left), Outcome::Value(right)) => {
            let both = Words::joined(alloc, left.as_slice(), right.as_slice())?;
            Ok(Outcome::Value(both))
        }
    }
}

/// Returns true exactly if the words of a loop's condition say that the loop is done: the word is
/// 0.
pub fn is_done(answer: &Words) -> bool
    ensures { result ≡ is_done answer.now }
{
    match answer.as_slice() {
        [first, ..] => *first == 0,
        [] => false,
    }
}

/// Makes of a trap that arose within a node as many words as the node gives, each the rescue number
/// of the node's module, where that module has one; any other outcome stays as it is.
pub fn rescue(
    alloc: Global,
    tree: &Tree,
    node: &Node,
    outcome: Outcome,
) -> Result<Outcome, NoMemory>
    ensures { IfGiven result (λ kept. kept
        ≡ rescued (rescue_of tree.now node.now.«module») node.now.outs outcome) }
{
    match outcome {
        Outcome::Value(words) => Ok(Outcome::Value(words)),
        Outcome::Trapped(trap) => match tree.rescue_of(node.module) {
            Some(number) => Ok(Outcome::Value(filled(alloc, number, node.outs)?)),
            None => Ok(Outcome::Trapped(trap)),
        },
    }
}

/// `count` words, each this number.
fn filled(alloc: Global, number: i64, count: u32) -> Result<Words, NoMemory>
    ensures { IfGiven result (λ words. words ≡ replicate count number) }
{
    Ok(Words::from_vec(vec![in alloc; number; count as usize]?))
}
