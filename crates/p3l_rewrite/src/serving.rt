// Programs that serve in another's place, and their service times.

ghost use Rattle.std.specs.Prelude.{◌≡◌, ◌-◌, ◌≤◌, ◌++◌, IfSome, IfNone, length, replicate};
ghost use Rattle.p3l_base.specs.Limits.{most_processors};
ghost use Rattle.p3l_base.specs.Memory.{IfGiven, OnGiven, IfGivenOr};
ghost use Rattle.p3l_ast.specs.Tree.{program_tree};
ghost use Rattle.p3l_skel.specs.Lawful.{IsLawfulTree};
ghost use Rattle.p3l_cost.specs.Costs.{AreCostsOf};
ghost use Rattle.p3l_check.specs.Many.{AreMany};
ghost use Rattle.p3l_rewrite.specs.Costs.{KeepsCosts};
ghost use Rattle.p3l_rewrite.specs.Rewriting.{IsAccepted, with_added, costs_for, IsServed};
ghost use Rattle.p3l_rewrite.specs.Serving.{IsAcceptedTree, IsServiceTime};

use p3l_alloc::{AllocRefusal, choose};
use p3l_ast::{Program, SourceRefusal};
use p3l_base::{List, NoMemory};
use p3l_check::resolve;
use p3l_cost::Costs;
use p3l_skel::Tree;
use std::alloc::Global;

/// The tree of a program, if it keeps the rules.
pub fn accepted_tree(alloc: Global, program: &Program) -> Result<Option<Tree>, NoMemory>
    ensures { IfGivenOr result (IsAcceptedTree (program_tree program.now))
        (AreMany (program_tree program.now).entries) }
{
    match resolve(alloc, program) {
        Ok(resolved) => Ok(Some(resolved.tree)),
        Err(SourceRefusal::At { .. }) => Ok(None),
        Err(SourceRefusal::NoMemory) => Err(NoMemory),
    }
}

/// The least service time of a tree on some processors, if it fits them.
pub fn service_time(
    alloc: Global,
    tree: &Tree,
    costs: &Costs,
    processors: u32,
) -> Result<Option<u128>, NoMemory>
    requires tree { IsLawfulTree tree.now }
    requires costs { AreCostsOf tree.now costs.now }
    requires some { 1 ≤ processors }
    requires few { processors ≤ most_processors }
    ensures { IfGiven result (IsServiceTime tree.now costs.now processors) }
{
    match choose(alloc, tree, costs, processors) {
        Ok(choice) => Ok(Some(choice.service)),
        Err(AllocRefusal::TooFew { .. }) => Ok(None),
        Err(AllocRefusal::NoMemory) => Err(NoMemory),
    }
}

/// So many numbers after others.
fn put_times(all: &mut Vec<u32>, times: usize, number: u32) -> Result<(), NoMemory>
    ensures { OnGiven result (all.new.items ≡ all.old.items ++ replicate times number) }
{
    for _ in 0..times {
        all.push(number)?;
    }
    Ok(())
}

/// Numbers of modules, with some added from a module on.
fn with_added(
    alloc: Global,
    root: usize,
    added: usize,
    number: u32,
    numbers: &[u32],
) -> Result<List<u32>, NoMemory>
    ensures { IfGiven result (λ all. all ≡ with_added root added number numbers.now) }
{
    let mut all = Vec::new(alloc);
    if root < numbers.len() {
        all.extend_from_slice(&numbers[..root])?;
        put_times(&mut all, added, number)?;
        all.extend_from_slice(&numbers[root..])?;
    } else {
        all.extend_from_slice(numbers)?;
        put_times(&mut all, added, number)?;
    }
    Ok(List::from_vec(all))
}

/// The costs of a tree, for another one that has more modules from `main` on.
fn costs_for(alloc: Global, tree: &Tree, costs: &Costs, other: &Tree) -> Result<Costs, NoMemory>
    ensures { IfGiven result (λ own. own ≡ costs_for tree.now costs.now other.now) }
{
    let root = match tree.node(0) {
        Some(root) => root.module as usize,
        None => 0,
    };
    let added = other.modules.len().saturating_sub(tree.modules.len());
    let ticks = with_added(alloc, root, added, 0, costs.ticks.as_slice())?;
    let turns = with_added(alloc, root, added, 1, costs.turns.as_slice())?;
    Ok(Costs {
        setup: costs.setup,
        word: costs.word,
        ticks,
        turns,
    })
}

/// The service time of a program in place of one of this tree and these costs, if it keeps the rules and fits
/// the processors.
pub fn served(
    alloc: Global,
    tree: &Tree,
    costs: &Costs,
    processors: u32,
    other: &Program,
) -> Result<Option<u128>, NoMemory>
    requires keeps { KeepsCosts tree.now costs.now (program_tree other.now) }
    requires some { 1 ≤ processors }
    requires few { processors ≤ most_processors }
    ensures { IfGivenOr result (IsServed tree.now costs.now processors (program_tree other.now))
        (AreMany (program_tree other.now).entries) }
{
    let Some(own) = accepted_tree(alloc, other)? else {
        return Ok(None);
    };
    let costs = costs_for(alloc, tree, costs, &own)?;
    service_time(alloc, &own, &costs, processors)
}
