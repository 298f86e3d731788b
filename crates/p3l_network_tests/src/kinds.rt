// Kinds of processes by hand: the firings of a net, and what can fire after each.

ghost use Rattle.std.specs.Prelude.{◌≡◌};

use crate::looped::{CountsDown, tree_of_loop};
use crate::stepping::{Network, run};
use crate::with_part::{Checks, Refuses, Subtracts, tree_of_map, tree_of_reduce};
use p3l_base::{List, Outcome, Trap, TrapKind};
use p3l_skel::{Tree, Units};
use p3l_sketch::{counts_of, has_words};
use std::alloc::Global;
use std::process::Abort;
use std::test::Fail;

/// A map of four elements with two workers: 0 and 1 are the source and the sink, 2 scatters, 3
/// gathers, and 4 and 5 work. The second worker is done with its first element before the first.
const MAP: [(u32, u32); 16] = [
    (0, 0b100),
    (2, 0b100),
    (2, 0b10100),
    (2, 0b110000),
    (5, 0b10000),
    (4, 0b1100),
    (2, 0b1100),
    (2, 0b1000),
    (3, 0b11000),
    (3, 0b110000),
    (4, 0b101000),
    (3, 0b100000),
    (5, 0b1000),
    (3, 0b1000),
    (3, 0b10),
    (1, 0b0),
];

/// A reduce in two segments: 2 splits, 3 joins, 4 folds the first segment and 5 the second.
const REDUCE: [(u32, u32); 8] = [
    (0, 0b100),
    (2, 0b100),
    (2, 0b10100),
    (2, 0b110000),
    (5, 0b10000),
    (4, 0b1000),
    (3, 0b10),
    (1, 0b0),
];

/// A loop of two tokens: 2 is its head, 3 its tail and 4 its body. The first item goes round three
/// times, the second once: it is held until the first is let out.
const LOOP: [(u32, u32); 18] = [
    (0, 0b100),
    (2, 0b10001),
    (0, 0b10000),
    (4, 0b1100),
    (2, 0b1000),
    (3, 0b10000),
    (4, 0b1100),
    (3, 0b100),
    (2, 0b10000),
    (4, 0b1000),
    (3, 0b100),
    (2, 0b10000),
    (4, 0b1000),
    (3, 0b1000),
    (3, 0b10),
    (1, 0b1000),
    (3, 0b10),
    (1, 0b0),
];

/// One token of the loop whose turns are spent with the third.
const SPENT: [(u32, u32); 12] = [
    (0, 0b100),
    (2, 0b10000),
    (4, 0b1000),
    (3, 0b100),
    (2, 0b10000),
    (4, 0b1000),
    (3, 0b100),
    (2, 0b10000),
    (4, 0b1000),
    (3, 0b1000),
    (3, 0b10),
    (1, 0b0),
];

/// Expected results of a network: items of these words, or one trap.
#[derive(Clone, Copy)]
enum Expected<'a> {
    Words(&'a [&'a [i64]]),
    Trap(TrapKind, u32),
}

/// Returns true exactly if these are words of items.
fn are_words(outcomes: &[Outcome], items: &[&[i64]]) -> bool {
    for (outcome, words) in outcomes.iter().zip(items) {
        if !has_words(outcome, words) {
            return false;
        }
    }
    outcomes.len() == items.len()
}

/// Returns true exactly if this is a trap alone.
fn is_trap(outcomes: &[Outcome], trap: Trap) -> bool {
    match outcomes.first() {
        Some(Outcome::Trapped(first)) => *first == trap && outcomes.len() == 1,
        _ => false,
    }
}

/// Returns true exactly if these outcomes are as expected.
fn are_expected(outcomes: &[Outcome], expected: Expected<'_>) -> bool {
    match expected {
        Expected::Words(items) => are_words(outcomes, items),
        Expected::Trap(kind, module) => is_trap(outcomes, Trap { kind, module }),
    }
}

/// The network of a tree must hand this out of items under these picks, as it goes on by itself and
/// as it is restored before each pick.
fn hand_out<U: Units>(
    rt: &impl Abort,
    alloc: Global,
    tree: &Tree,
    units: &U,
    workers: &[u32],
    items: &[&[i64]],
    steps: &[(u32, u32)],
    expected: Expected<'_>,
) -> Result<(), Fail>
    requires { U.tree units.now ≡ tree.now }
{
    let counts = counts_of(alloc, workers)?;
    for is_restored in [false, true] {
        let network = Network {
            tree,
            units,
            counts: &counts,
            is_restored,
        };
        let mut outcomes = List::new(alloc);
        run(rt, alloc, &network, items, steps, &mut outcomes)?;
        assert!(rt; are_expected(outcomes.as_slice(), expected));
    }
    Ok(())
}

#[test]
fn elements_are_scattered_and_gathered_in_turn(rt: HostRuntime) -> Result<(), Fail> {
    let alloc = rt.alloc();
    let tree = tree_of_map(alloc)?;
    let cases: [(&[i64], Expected<'_>); 2] = [
        (&[7, 1, 3, 2], Expected::Words(&[&[7, 1, 3, 2]])),
        (&[5, -1, 0, 2], Expected::Trap(TrapKind::Shift, 1)),
    ];
    for (item, expected) in cases {
        hand_out(&rt, alloc, &tree, &Checks, &[2], &[item], &MAP, expected)?;
    }
    Ok(())
}

#[test]
fn segments_are_split_and_joined(rt: HostRuntime) -> Result<(), Fail> {
    let alloc = rt.alloc();
    let tree = tree_of_reduce(alloc, 5)?;
    let items: [&[i64]; 1] = [&[1, 2, 3, 4, 5]];
    let fold = Expected::Words(&[&[-5]]);
    hand_out(&rt, alloc, &tree, &Subtracts, &[2], &items, &REDUCE, fold)
}

#[test]
fn a_trap_on_the_right_side_passes_a_join(rt: HostRuntime) -> Result<(), Fail> {
    let alloc = rt.alloc();
    let tree = tree_of_reduce(alloc, 3)?;
    let items: [&[i64]; 1] = [&[7, 1, 2]];
    let trap = Expected::Trap(TrapKind::DivZero, 0);
    hand_out(&rt, alloc, &tree, &Refuses, &[2], &items, &REDUCE, trap)
}

#[test]
fn a_token_that_is_done_first_waits_in_a_loop(rt: HostRuntime) -> Result<(), Fail> {
    let alloc = rt.alloc();
    let tree = tree_of_loop(alloc)?;
    let items: [&[i64]; 2] = [&[3, 0], &[1, 0]];
    let both = Expected::Words(&[&[0, 3], &[0, 1]]);
    hand_out(&rt, alloc, &tree, &CountsDown, &[], &items, &LOOP, both)
}

#[test]
fn a_token_whose_turns_are_spent_is_a_trap(rt: HostRuntime) -> Result<(), Fail> {
    let alloc = rt.alloc();
    let tree = tree_of_loop(alloc)?;
    let items: [&[i64]; 1] = [&[4, 0]];
    let spent = Expected::Trap(TrapKind::Turns, 0);
    hand_out(&rt, alloc, &tree, &CountsDown, &[], &items, &SPENT, spent)
}
