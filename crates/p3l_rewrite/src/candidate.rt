// The ways to write a program whose `main` is a pipe.

ghost use Rattle.std.specs.Prelude.{◌≡◌, [], ◌∷◌, ◌++◌, Some, codes, map, option_map};
ghost use Rattle.p3l_base.specs.Memory.{IfGiven, OnGiven};
ghost use Rattle.std.specs.List.{list_all};
ghost use Rattle.p3l_ast.specs.Tree.{module_tree, entry_tree, program_tree, defined};
ghost use Rattle.p3l_skel.specs.Tree.{node_at, is_sequential};
ghost use Rattle.p3l_rewrite.specs.Candidates.{longer, farm_with, has_name, next_farms, farms_of, farm_called, with_calls, farmed_entries, work_of, fused_entries, farmed_of, fused_of, others_around, others};
ghost use Rattle.p3l_rewrite.specs.Around.{around_tree};
ghost use Rattle.p3l_rewrite.specs.Rewriting.{listed};
ghost use Rattle.p3l_rewrite.specs.Ways.{ways_list};

use crate::farm::{
    FARM, farm_of, farm_with, farms_called, is_among, longer, longer_name, no_clauses,
};
use crate::module::{module, with_inside};
use crate::place::{Around, around_main, named_in};
use crate::program::put_entries;
use crate::{Copied, copies};
use p3l_ast::{Call, Entry, Inside, Kind, Module, Program};
use p3l_base::{List, NoMemory};
use p3l_skel::Tree;
use p3l_skel::shape::is_sequential;
use p3l_skel::tree::NESTING;
use std::alloc::Global;

/// The most bytes of a name.
const MOST_NAME: usize = 64;

/// The end of the name of the comp of main's stages, behind `main`'s name.
const WORK: &str = "_work";

/// The numbers of the root's parts.
fn root_parts(tree: &Tree) -> &[u32]
    ensures { result.now ≡ (node_at tree.now 0).parts }
{
    match tree.node(0) {
        Some(root) => root.parts.as_slice(),
        None => &[],
    }
}

/// Puts the farm of the module that a call names after others, where the call's node is sequential and there
/// is none yet.
fn put_farm(
    alloc: Global,
    front: &[Entry],
    sequential: bool,
    farms: &mut List<Module>,
    call: &Call,
) -> Result<(), NoMemory>
    ensures { OnGiven result (map module_tree farms.new
        ≡ next_farms (map entry_tree front.now) sequential (map module_tree farms.old) call.now) }
{
    let name = longer_name(alloc, &call.at.name, FARM)?;
    if sequential && !is_among(farms.as_slice(), &name) {
        if let Some(module) = named_in(front, &call.at.name) {
            farms.push(farm_of(alloc, module)?)?;
        }
    }
    Ok(())
}

/// Farms of the modules that are called where these parts are sequential, each once, in the order of first
/// calls.
fn farms_of(
    alloc: Global,
    front: &[Entry],
    tree: &Tree,
    calls: &[Call],
    parts: &[u32],
) -> Result<List<Module>, NoMemory>
    ensures { IfGiven result (λ farms. map module_tree farms
        ≡ farms_of (map entry_tree front.now) tree.now [] calls.now parts.now) }
{
    let mut farms = List::new(alloc);
    for (place, call) in calls.iter().enumerate() {
        let Some(part) = parts.get(place) else {
            return Ok(farms);
        };
        let sequential = is_sequential(tree, NESTING, *part);
        put_farm(alloc, front, sequential, &mut farms, call)?;
    }
    Ok(farms)
}

/// True if modules have names of no more bytes than a name may have.
fn have_names(modules: &[Module]) -> bool
    ensures { result ≡ list_all has_name (map module_tree modules.now) }
{
    modules
        .iter()
        .all(|module| module.at.name.as_str().len() <= MOST_NAME)
}

/// True if nodes are sequential.
fn are_sequential(tree: &Tree, parts: &[u32]) -> bool
    ensures { result ≡ list_all (is_sequential tree.now) parts.now }
{
    parts.iter().all(|part| is_sequential(tree, NESTING, *part))
}

/// Puts copies of modules after entries.
fn put_modules(alloc: Global, entries: &mut List<Entry>, modules: &[Module]) -> Result<(), NoMemory>
    ensures { OnGiven result (map entry_tree entries.new ≡ map entry_tree entries.old
        ++ map (λ m. defined m) (map module_tree modules.now)) }
{
    for own in modules {
        entries.push(Entry::Module(module(alloc, own)?))?;
    }
    Ok(())
}

/// A copy of a module with calls that name farms where there are such.
fn with_farms(
    alloc: Global,
    main: &Module,
    farms: &[Module],
    calls: &[Call],
) -> Result<Entry, NoMemory>
    ensures { IfGiven result (λ entry. entry_tree entry ≡ defined (with_calls (module_tree main.now)
        (map (farm_called (map module_tree farms.now)) calls.now))) }
{
    let called = farms_called(alloc, farms, calls)?;
    Ok(Entry::Module(with_inside(alloc, main, Inside::Calls(called))?))
}

/// Puts farms after entries, and `main` with calls that name these.
fn put_farmed(
    alloc: Global,
    entries: &mut List<Entry>,
    main: &Module,
    farms: &[Module],
    calls: &[Call],
) -> Result<(), NoMemory>
    ensures { OnGiven result (map entry_tree entries.new ≡ (map entry_tree entries.old
        ++ map (λ m. defined m) (map module_tree farms.now))
        ++ defined (with_calls (module_tree main.now)
        (map (farm_called (map module_tree farms.now)) calls.now)) ∷ []) }
{
    put_modules(alloc, entries, farms)?;
    entries.push(with_farms(alloc, main, farms, calls)?)
}

/// The entries with farms just before `main`.
fn farmed_entries(
    alloc: Global,
    around: &Around,
    farms: &[Module],
    calls: &[Call],
) -> Result<List<Entry>, NoMemory>
    ensures { IfGiven result (λ entries. map entry_tree entries
        ≡ farmed_entries (around_tree around.now) (map module_tree farms.now) calls.now) }
{
    let mut entries = List::new(alloc);
    put_entries(alloc, &mut entries, around.front)?;
    put_farmed(alloc, &mut entries, around.main, farms, calls)?;
    put_entries(alloc, &mut entries, around.back)?;
    Ok(entries)
}

/// The program with its sequential stages farmed, if the farms have names.
fn farmed(
    alloc: Global,
    program: &Program,
    tree: &Tree,
    around: &Around,
    calls: &[Call],
) -> Result<Option<Program>, NoMemory>
    ensures { IfGiven result (λ way. listed (option_map program_tree way)
        ≡ farmed_of (program_tree program.now) tree.now (around_tree around.now) calls.now) }
{
    let farms = farms_of(alloc, around.front, tree, calls, root_parts(tree))?;
    if !have_names(farms.as_slice()) {
        return Ok(None);
    }
    let entries = farmed_entries(alloc, around, farms.as_slice(), calls)?;
    Ok(Some(Program {
        entries,
        end: program.end,
    }))
}

/// A comp of the calls of `main`, with its ports.
fn work_of(alloc: Global, main: &Module, calls: &[Call]) -> Result<Module, NoMemory>
    ensures { IfGiven result (λ work. module_tree work ≡ work_of (module_tree main.now) calls.now) }
{
    let at = longer(alloc, &main.at, WORK)?;
    let ins = copies(alloc, main.ins.as_slice())?;
    let outs = copies(alloc, main.outs.as_slice())?;
    let inside = Inside::Calls(copies(alloc, calls)?);
    Ok(Module {
        kind: Kind::Comp,
        at,
        ins,
        outs,
        clauses: no_clauses(),
        inside,
    })
}

/// A farm of the comp of the stages of `main`, with its name and its ports.
fn main_farm(alloc: Global, main: &Module) -> Result<Module, NoMemory>
    ensures { IfGiven result (λ farm. module_tree farm
        ≡ farm_with main.now.at (longer (codes "_work") main.now.at) main.now.ins main.now.outs) }
{
    let at = main.at.copied(alloc)?;
    let worker = longer(alloc, &main.at, WORK)?;
    farm_with(alloc, at, worker, main)
}

/// Puts the comp of the stages of `main` after entries, and a farm of it.
fn put_fused(
    alloc: Global,
    entries: &mut List<Entry>,
    main: &Module,
    calls: &[Call],
) -> Result<(), NoMemory>
    ensures { OnGiven result (map entry_tree entries.new ≡ map entry_tree entries.old
        ++ defined (work_of (module_tree main.now) calls.now)
        ∷ (defined (farm_with main.now.at (longer (codes "_work") main.now.at)
        main.now.ins main.now.outs) ∷ [])) }
{
    let work = work_of(alloc, main, calls)?;
    entries.push(Entry::Module(work))?;
    let farm = main_farm(alloc, main)?;
    entries.push(Entry::Module(farm))
}

/// The entries with a comp in place of `main`, and a farm of it.
fn fused_entries(alloc: Global, around: &Around, calls: &[Call]) -> Result<List<Entry>, NoMemory>
    ensures { IfGiven result (λ entries. map entry_tree entries
        ≡ fused_entries (around_tree around.now) calls.now) }
{
    let mut entries = List::new(alloc);
    put_entries(alloc, &mut entries, around.front)?;
    put_fused(alloc, &mut entries, around.main, calls)?;
    put_entries(alloc, &mut entries, around.back)?;
    Ok(entries)
}

/// The program fused and farmed, if all stages are sequential.
fn fused(
    alloc: Global,
    program: &Program,
    tree: &Tree,
    around: &Around,
    calls: &[Call],
) -> Result<Option<Program>, NoMemory>
    ensures { IfGiven result (λ way. listed (option_map program_tree way)
        ≡ fused_of (program_tree program.now) tree.now (around_tree around.now) calls.now) }
{
    if !are_sequential(tree, root_parts(tree)) {
        return Ok(None);
    }
    let entries = fused_entries(alloc, around, calls)?;
    Ok(Some(Program {
        entries,
        end: program.end,
    }))
}

/// The other ways to write a program: with its sequential stages farmed, and fused and farmed.
#[derive(Drop)]
pub struct Ways {
    pub farmed: Option<Program>,
    pub fused: Option<Program>,
}

fn no_ways() -> Ways
    ensures { ways_list result ≡ [] }
{
    Ways {
        farmed: None,
        fused: None,
    }
}

/// The ways to write a program whose `main` stands so.
fn ways_around(
    alloc: Global,
    program: &Program,
    tree: &Tree,
    around: &Around,
) -> Result<Ways, NoMemory>
    ensures { IfGiven result (λ ways. ways_list ways
        ≡ others_around (program_tree program.now) tree.now (Some (around_tree around.now))) }
{
    match (around.main.kind, &around.main.inside) {
        (Kind::Pipe, Inside::Calls(calls)) => {
            let farmed = farmed(alloc, program, tree, around, calls.as_slice())?;
            let fused = fused(alloc, program, tree, around, calls.as_slice())?;
            Ok(Ways { farmed, fused })
        }
        _ => Ok(no_ways()),
    }
}

/// The ways to write a program of this tree.
#[tactic(auto, unfolding(crate::specs::Candidates::others))]
pub fn find_ways(alloc: Global, program: &Program, tree: &Tree) -> Result<Ways, NoMemory>
    ensures { IfGiven result (λ ways. ways_list ways ≡ others (program_tree program.now) tree.now) }
{
    match around_main(program.entries.as_slice()) {
        Some(around) => ways_around(alloc, program, tree, &around),
        None => Ok(no_ways()),
    }
}
