// The best way to write a program.

ghost use Rattle.std.specs.Prelude.{◌≤◌, [], ◌∷◌, IfSome, option_map};
ghost use Rattle.p3l_base.specs.Limits.{most_processors};
ghost use Rattle.p3l_base.specs.Memory.{IfGiven, IfGivenOr};
ghost use Rattle.p3l_ast.specs.Tree.{program_tree};
ghost use Rattle.p3l_check.specs.Many.{AreMany};
ghost use Rattle.p3l_rewrite.specs.Costs.{KeepsCosts};
ghost use Rattle.p3l_rewrite.specs.Rewriting.{IsAccepted, IsBest, StaysBest, MayBeRewritten, IsRewriting};
ghost use Rattle.p3l_rewrite.specs.Serving.{HasTree, HasMany, MayBeMany};

use crate::candidate::{Ways, find_ways};
use crate::program::program as copy_of;
use crate::serving::{accepted_tree, served, service_time};
use p3l_ast::Program;
use p3l_base::NoMemory;
use p3l_cost::Costs;
use p3l_skel::Tree;
use std::alloc::Global;

/// A program with the same meaning, and its service time.
#[derive(Drop)]
pub struct Rewritten {
    pub program: Program,
    pub service: u128,
}

/// The better of a program and another, if there is one; of two with the same service time the first.
fn better(
    alloc: Global,
    tree: &Tree,
    costs: &Costs,
    processors: u32,
    best: Rewritten,
    other: Option<Program>,
) -> Result<Rewritten, NoMemory>
    requires keeps { IfSome (option_map program_tree other) (KeepsCosts tree.now costs.now) }
    requires some { 1 ≤ processors }
    requires few { processors ≤ most_processors }
    ensures { IfGivenOr result (λ better. StaysBest tree.now costs.now processors
        (program_tree best.program) best.service (option_map program_tree other)
        (program_tree better.program) better.service) (HasMany (option_map program_tree other)) }
{
    let Some(program) = other else {
        return Ok(best);
    };
    let Some(service) = served(alloc, tree, costs, processors, &program)? else {
        return Ok(best);
    };
    if service < best.service {
        return Ok(Rewritten { program, service });
    }
    Ok(best)
}

/// The tree of a program that keeps the rules.
fn own_tree(alloc: Global, program: &Program) -> Result<Tree, NoMemory>
    requires { IsAccepted (program_tree program.now) }
    ensures { IfGivenOr result (HasTree (program_tree program.now))
        (AreMany (program_tree program.now).entries) }
{
    match accepted_tree(alloc, program)? {
        Some(tree) => Ok(tree),
        None => unreachable!(),
    }
}

/// A copy of a program that fits the processors, with its service time.
fn own(
    alloc: Global,
    program: &Program,
    tree: &Tree,
    costs: &Costs,
    processors: u32,
) -> Result<Rewritten, NoMemory>
    requires may { MayBeRewritten (program_tree program.now) costs.now processors }
    requires tree { HasTree (program_tree program.now) tree.now }
    ensures { IfGiven result (λ own. IsBest tree.now costs.now processors
        (program_tree program.now ∷ []) (program_tree own.program) own.service) }
{
    match service_time(alloc, tree, costs, processors)? {
        Some(service) => {
            let program = copy_of(alloc, program)?;
            Ok(Rewritten { program, service })
        }
        None => unreachable!(),
    }
}

/// The best way to write a program that keeps the rules and fits the processors: it means the same, has a text, and
/// its service time is no greater. The costs are those of the program's tree; modules that are added cost
/// nothing of their own. A program of too many entries is out of memory too.
pub fn rewrite(
    alloc: Global,
    program: &Program,
    costs: &Costs,
    processors: u32,
) -> Result<Rewritten, NoMemory>
    requires { MayBeRewritten (program_tree program.now) costs.now processors }
    ensures { IfGivenOr result (λ best. IsRewriting (program_tree program.now) costs.now processors
        (program_tree best.program) best.service) (MayBeMany (program_tree program.now)) }
{
    let tree = own_tree(alloc, program)?;
    let best = own(alloc, program, &tree, costs, processors)?;
    let Ways { farmed, fused } = find_ways(alloc, program, &tree)?;
    let best = better(alloc, &tree, costs, processors, best, farmed)?;
    better(alloc, &tree, costs, processors, best, fused)
}
