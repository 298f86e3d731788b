// Chosen numbers of workers beside the best of all.

use crate::plain::{Tried, best, fewest, try_all, workers_of};
use crate::samples::*;
use crate::trees::{Row, Tokens, costs_of, tree_of};
use p3l_alloc::{AllocRefusal, Choice, choose};
use p3l_cost::lawful_costs;
use p3l_skel::lawful_tree;
use std::alloc::Global;
use std::process::Abort;
use std::test::Fail;

const FREE: Tokens = Tokens { setup: 0, word: 0 };

const DEAR: Tokens = Tokens { setup: 3, word: 2 };

fn chosen(
    rt: &impl Abort,
    alloc: Global,
    rows: &[Row],
    tokens: Tokens,
    processors: u32,
) -> Result<Result<Choice, AllocRefusal>, Fail> {
    let tree = tree_of(alloc, rows)?;
    let costs = costs_of(alloc, rows, tokens)?;
    assert!(rt; lawful_tree(&tree));
    assert!(rt; lawful_costs(&tree, &costs));
    assert!(rt; 1 <= processors && processors <= 512);
    Ok(choose(alloc, &tree, &costs, processors))
}

// Returns true exactly if a choice is the best of all.
fn is_best(choice: &Choice, best: Tried, workers: &[u32]) -> bool {
    choice.service == best.service as u128
        && choice.used as u64 == best.used
        && choice.counts.list.len() == workers.len()
        && choice
            .counts
            .list
            .as_slice()
            .iter()
            .rev()
            .zip(workers.iter())
            .all(|(count, worker)| *count == *worker)
}

// Tells whether a choice, or that there is none, is what trying comes to.
fn agrees(
    alloc: Global,
    rows: &[Row],
    tried: &[Tried],
    processors: u32,
    choice: &Result<Choice, AllocRefusal>,
) -> Result<bool, Fail> {
    match (best(tried, processors as u64), choice) {
        (Some(best), Ok(choice)) => {
            let workers = workers_of(alloc, rows, best)?;
            Ok(is_best(choice, best, workers.as_slice()))
        }
        (None, Err(AllocRefusal::TooFew { need })) => Ok(*need == fewest(tried)),
        _ => Ok(false),
    }
}

fn check_with(rt: &impl Abort, alloc: Global, rows: &[Row], tokens: Tokens) -> Result<(), Fail> {
    let tried = try_all(alloc, rows, tokens)?;
    for processors in 1..13 {
        let choice = chosen(rt, alloc, rows, tokens, processors)?;
        assert!(rt;
            agrees(alloc, rows, tried.as_slice(), processors, &choice)?,
            "{processors}"
        );
    }
    Ok(())
}

// For 1 to 12 processors the chosen numbers of workers are the best, at two prices of tokens.
fn check_tree(rt: &impl Abort, alloc: Global, rows: &[Row]) -> Result<(), Fail> {
    check_with(rt, alloc, rows, FREE)?;
    check_with(rt, alloc, rows, DEAR)
}

#[test]
fn units(rt: HostRuntime) -> Result<(), Fail> {
    let alloc = rt.alloc();
    check_tree(&rt, alloc, &one_unit())?;
    check_tree(&rt, alloc, &a_comp())
}

#[test]
fn pipes(rt: HostRuntime) -> Result<(), Fail> {
    let alloc = rt.alloc();
    check_tree(&rt, alloc, &three_stages())?;
    check_tree(&rt, alloc, &a_stage_and_a_farm())?;
    check_tree(&rt, alloc, &two_like_farms())?;
    check_tree(&rt, alloc, &farms_without_ticks())
}

#[test]
fn farms(rt: HostRuntime) -> Result<(), Fail> {
    let alloc = rt.alloc();
    check_tree(&rt, alloc, &a_farm(None))?;
    check_tree(&rt, alloc, &a_farm(Some(5)))?;
    check_tree(&rt, alloc, &a_farm(Some(20)))?;
    check_tree(&rt, alloc, &a_farm_of_farms())?;
    check_tree(&rt, alloc, &a_farm_of_pipes())
}

#[test]
fn maps(rt: HostRuntime) -> Result<(), Fail> {
    let alloc = rt.alloc();
    check_tree(&rt, alloc, &a_map(None))?;
    check_tree(&rt, alloc, &a_map(Some(3)))?;
    check_tree(&rt, alloc, &a_map_of_farms())?;
    check_tree(&rt, alloc, &a_map_of_reduces())
}

#[test]
fn reduces(rt: HostRuntime) -> Result<(), Fail> {
    let alloc = rt.alloc();
    check_tree(&rt, alloc, &a_reduce(None, 8))?;
    check_tree(&rt, alloc, &a_reduce(None, 5))?;
    check_tree(&rt, alloc, &a_reduce(Some(4), 6))?;
    check_tree(&rt, alloc, &a_farm_of_reduces())
}

#[test]
fn loops(rt: HostRuntime) -> Result<(), Fail> {
    let alloc = rt.alloc();
    check_tree(&rt, alloc, &a_loop())?;
    check_tree(&rt, alloc, &a_loop_of_farms())?;
    check_tree(&rt, alloc, &a_loop_of_maps_and_a_farm())
}

#[test]
fn three_numbers(rt: HostRuntime) -> Result<(), Fail> {
    check_tree(&rt, rt.alloc(), &a_farm_a_map_and_a_reduce())
}

#[test]
fn counts_that_are_as_good(rt: HostRuntime) -> Result<(), Fail> {
    let alloc = rt.alloc();
    check_tree(&rt, alloc, &a_stage_and_a_map_of_reduces())?;
    check_tree(&rt, alloc, &a_stage_and_a_map_of_maps())
}
