// Elements, halves and answers of the plain program, by hand.

ghost use Rattle.std.specs.Prelude.{◌≡◌};
ghost use Rattle.p3l_base.specs.Memory.{IfGiven};

use p3l_base::{NoMemory, Outcome, Trap, TrapKind, Words};
use p3l_skel::element::elements;
use p3l_skel::outcome::{is_done, paired};
use p3l_sketch::has_words;
use std::alloc::Global;
use std::test::*;

fn words(alloc: Global, words: &[i64]) -> Result<Words, NoMemory>
    ensures { IfGiven result (λ list. list ≡ words.now) }
{
    Ok(Words::from_vec(words.to_vec(alloc)?))
}

#[test]
fn words_are_cut_into_elements(rt: HostRuntime) -> Result<(), Fail> {
    let five = words(rt.alloc(), &[1, 2, 3, 4, 5])?;
    let list = elements(rt.alloc(), &five, 2)?;
    let are_two = match list.as_slice() {
        [first, second] => {
            first.as_slice() == [1, 2].as_slice() && second.as_slice() == [3, 4].as_slice()
        }
        _ => false,
    };
    assert!(rt; are_two);
    Ok(())
}

/// Tells whether these words make up these two halves.
fn are_halves(alloc: Global, left: &[i64], right: &[i64], both: &[i64]) -> Result<bool, NoMemory> {
    let left = words(alloc, left)?;
    let right = words(alloc, right)?;
    let pair = paired(alloc, Outcome::Value(left), Outcome::Value(right))?;
    Ok(has_words(&pair, both))
}

#[test]
fn halves_are_paired_and_the_left_trap_comes_first(rt: HostRuntime) -> Result<(), Fail> {
    assert!(rt; are_halves(rt.alloc(), &[1, 2], &[3], &[1, 2, 3])?);
    let left = Trap {
        kind: TrapKind::Shift,
        module: 1,
    };
    let right = Trap {
        kind: TrapKind::DivZero,
        module: 2,
    };
    let both = paired(rt.alloc(), Outcome::Trapped(left), Outcome::Trapped(right))?;
    assert!(rt; matches!(both, Outcome::Trapped(trap) if trap == left));
    Ok(())
}

/// Tells whether a loop is done that has this word.
fn is_done_at(alloc: Global, word: i64) -> Result<bool, NoMemory> {
    let words = words(alloc, &[word])?;
    Ok(is_done(&words))
}

#[test]
fn a_loop_is_done_at_0(rt: HostRuntime) -> Result<(), Fail> {
    assert!(rt; is_done_at(rt.alloc(), 0)?);
    assert!(rt; !is_done_at(rt.alloc(), 1)? && !is_done_at(rt.alloc(), -1)?);
    Ok(())
}
