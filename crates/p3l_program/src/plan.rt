// The way from a text to a network: the program that it spells, its costs, the counts that are chosen
// for it, and the net of its tree under them. Each command takes its beginning from here.

ghost use Rattle.std.specs.Prelude.{◌≡◌, ◌<◌, ◌≤◌, ◌*◌, ◌^◌, length, IfOk, IfErr, OnOk};
ghost use Rattle.p3l_base.specs.Memory.{IfGiven};
ghost use Rattle.p3l_check.specs.Resolving.{ResolvedTree};
ghost use Rattle.p3l_io.specs.Change.{HasSameContent, change};
ghost use Rattle.p3l_model.specs.Optimal.{IsChosen};
ghost use Rattle.p3l_model.specs.Service.{service};
ghost use Rattle.p3l_run.specs.Feed.{most_of_input};
ghost use Rattle.p3l_run.specs.Network.{network};
ghost use Rattle.p3l_skel.specs.Counts.{HasLawfulCounts};
ghost use Rattle.p3l_skel.specs.Lawful.{IsLawfulTree};
ghost use Rattle.p3l_skel.specs.Numbers.{firings, procs};
ghost use Rattle.p3l_skel.specs.Tree.{node_at};
ghost use Rattle.p3l_program.specs.File.{text_limit};
ghost use Rattle.p3l_program.specs.Load.{AcceptsText, IsCostless, IsNotLoaded, IsReady, IsUnchosen, Loads, LoadsCosts, LoadsNetwork, LoadsProgram};
ghost use Rattle.p3l_program.specs.LoadImage.{IsReadyImage};
ghost use Rattle.p3l_program.specs.Origin.{built};
ghost use Rattle.p3l_program.specs.Plan.{IsCompiled, IsTextRefused, network_in, network_of};
ghost use Rattle.p3l_program.specs.Stage.{build_stages, program_stages};
ghost use Rattle.p3l_program.specs.Time.{LoadsLinked};
ghost use Rattle.p3l_program.specs.Wants.{Wants};

use crate::file::{TEXT_LIMIT, find_text};
use p3l_alloc::{AllocRefusal, Choice, choose};
use p3l_ast::SourceRefusal;
use p3l_base::{List, Name, NoMemory};
use p3l_body_laws::resolved_serve;
use p3l_check::resolve;
use p3l_code::SafeCode;
use p3l_compile::codes_of;
use p3l_cost::{Costs, read_costs, standard};
use p3l_firing::Net;
use p3l_io::Files;
use p3l_link::link;
use p3l_load::Loaded;
use p3l_model::firings;
use p3l_opts::Build;
use p3l_reader::read;
use p3l_report::{Refusal, Verdict};
use p3l_run::Plan;
use p3l_skel::{Counts, Tree, Units};
use std::alloc::Global;

/// A program that keeps all rules: its tree, and the codes of its `seq` modules in their order.
#[derive(Drop)]
pub struct Accepted {
    pub tree: Tree,
    pub codes: List<SafeCode>,
}

/// The program that a text spells, if it keeps all rules; else the first fault.
pub fn accept(alloc: Global, text: &[u8]) -> Result<Accepted, SourceRefusal>
    requires { length text.now ≤ text_limit }
    ensures accepted { IfOk result (AcceptsText text.now) }
    ensures refused { IfErr result (IsTextRefused text.now) }
{
    resolved_serve();
    let program = read(alloc, text)?;
    let resolved = resolve(alloc, &program)?;
    let codes = codes_of(alloc, resolved.seqs.as_slice())?;
    Ok(Accepted {
        tree: resolved.tree,
        codes,
    })
}

/// The program of the file of this name, or the verdict that there is none.
pub fn load_program<F: Files>(alloc: Global, name: Name, files: &mut F) -> Result<Accepted, Verdict>
    ensures loaded { IfOk result (LoadsProgram (F.observed files.old).content name) }
    ensures unchanged { OnOk result (F.observed files.new ≡ F.observed files.old) }
    ensures refused { IfErr result
        (IsNotLoaded (change (F.observed files.old) (F.observed files.new)) (program_stages name)) }
    ensures same_files { HasSameContent (change (F.observed files.old) (F.observed files.new)) }
    ensures wants { IfErr result (Wants F.may_want) }
{
    match find_text(alloc, name, TEXT_LIMIT, files) {
        Err(refusal) => Err(Verdict::from(refusal)),
        Ok(text) => match accept(alloc, text.as_slice()) {
            Ok(program) => Ok(program),
            Err(SourceRefusal::At { fault, pos }) => {
                Err(Verdict::Refused(Refusal::Source { fault, pos }))
            }
            Err(SourceRefusal::NoMemory) => Err(Verdict::NoMemory),
        },
    }
}

/// The costs of a tree that the file of this name says.
fn costs_in<F: Files>(
    alloc: Global,
    name: Name,
    tree: &Tree,
    files: &mut F,
) -> Result<Costs, Verdict>
    requires lawful { IsLawfulTree tree.now }
    ensures loaded { IfOk result (LoadsCosts (F.observed files.old).content (Some name) tree.now) }
    ensures unchanged { OnOk result (F.observed files.new ≡ F.observed files.old) }
    ensures refused { IfErr result
        (IsCostless (change (F.observed files.old) (F.observed files.new)) (Some name) tree.now) }
    ensures same_files { HasSameContent (change (F.observed files.old) (F.observed files.new)) }
    ensures wants { IfErr result (Wants F.may_want) }
{
    match find_text(alloc, name, TEXT_LIMIT, files) {
        Err(refusal) => Err(Verdict::from(refusal)),
        Ok(text) => match read_costs(alloc, text.as_slice(), tree) {
            Ok(costs) => Ok(costs),
            Err(refusal) => Err(Verdict::from(Refusal::Costs(refusal))),
        },
    }
}

/// The costs of a tree, by the file that is named for them; without one, the standard costs.
pub fn load_costs<F: Files>(
    alloc: Global,
    name: Option<Name>,
    tree: &Tree,
    files: &mut F,
) -> Result<Costs, Verdict>
    requires lawful { IsLawfulTree tree.now }
    ensures loaded { IfOk result (LoadsCosts (F.observed files.old).content name tree.now) }
    ensures unchanged { OnOk result (F.observed files.new ≡ F.observed files.old) }
    ensures refused { IfErr result
        (IsCostless (change (F.observed files.old) (F.observed files.new)) name tree.now) }
    ensures same_files { HasSameContent (change (F.observed files.old) (F.observed files.new)) }
    ensures wants { IfErr result (Wants F.may_want) }
{
    match name {
        Some(name) => costs_in(alloc, name, tree, files),
        None => match standard(alloc, tree) {
            Ok(costs) => Ok(costs),
            Err(_) => Err(Verdict::NoMemory),
        },
    }
}

/// The costs of a tree, and the counts of workers that are chosen for it by them.
#[derive(Drop)]
pub struct Chosen {
    pub costs: Costs,
    pub choice: Choice,
}

/// Loads the costs of a tree, by the file that is named for them, and chooses the counts of workers
/// for this number of processors; or returns the verdict that there are none.
pub fn choose_counts<F: Files>(
    alloc: Global,
    tree: &Tree,
    name: Option<Name>,
    processors: u32,
    files: &mut F,
) -> Result<Chosen, Verdict>
    requires lawful { IsLawfulTree tree.now }
    requires some { 1 ≤ processors }
    requires few { processors ≤ 512 }
    ensures costs { IfOk result (λ chosen. LoadsCosts (F.observed files.old).content name tree.now
        chosen.costs) }
    ensures chosen { IfOk result (λ chosen.
        IsChosen tree.now chosen.costs processors chosen.choice.counts.list) }
    ensures service { IfOk result (λ chosen.
        chosen.choice.service ≡ service tree.now chosen.costs chosen.choice.counts.list 0) }
    ensures used { IfOk result (λ chosen.
        chosen.choice.used ≡ procs tree.now chosen.choice.counts.list 0) }
    ensures unchanged { OnOk result (F.observed files.new ≡ F.observed files.old) }
    ensures refused { IfErr result
        (IsUnchosen (change (F.observed files.old) (F.observed files.new)) name tree.now
        processors) }
    ensures same_files { HasSameContent (change (F.observed files.old) (F.observed files.new)) }
    ensures wants { IfErr result (Wants F.may_want) }
{
    let costs = load_costs(alloc, name, tree, files)?;
    match choose(alloc, tree, &costs, processors) {
        Ok(choice) => Ok(Chosen { costs, choice }),
        Err(AllocRefusal::TooFew { need }) => Err(Verdict::Refused(Refusal::TooFew { need })),
        Err(AllocRefusal::NoMemory) => Err(Verdict::NoMemory),
    }
}

/// A program with its costs, and the counts of workers that are chosen for it.
#[derive(Drop)]
pub struct Allotted {
    pub program: Accepted,
    pub costs: Costs,
    pub choice: Choice,
}

/// The program, its costs and the counts that are chosen, or the verdict that there are none.
pub fn allot<F: Files>(alloc: Global, build: Build, files: &mut F) -> Result<Allotted, Verdict>
    requires some { 1 ≤ build.processors }
    requires few { build.processors ≤ 512 }
    ensures loaded { IfOk result (Loads (F.observed files.old).content build) }
    ensures unchanged { OnOk result (F.observed files.new ≡ F.observed files.old) }
    ensures refused { IfErr result
        (IsNotLoaded (change (F.observed files.old) (F.observed files.new)) (build_stages build)) }
    ensures same_files { HasSameContent (change (F.observed files.old) (F.observed files.new)) }
    ensures wants { IfErr result (Wants F.may_want) }
{
    let processors = build.processors;
    let program = load_program(alloc, build.program, files)?;
    let chosen = choose_counts(alloc, &program.tree, build.costs, processors, files)?;
    Ok(Allotted {
        program,
        costs: chosen.costs,
        choice: chosen.choice,
    })
}

/// The network of a program, with the costs by which its counts were chosen.
#[derive(Drop)]
pub struct Linked {
    pub network: Loaded,
    pub costs: Costs,
}

/// Returns what an image of a loaded program holds: its tree under the counts that are chosen, with
/// channels of this capacity, and the codes of its bodies; and its costs.
fn link_allotted(alloc: Global, loaded: Allotted, capacity: u32) -> Result<Linked, NoMemory>
    requires ready { IsReady loaded }
    requires some { 1 ≤ capacity }
    requires few { capacity ≤ 1024 }
    ensures ready { IfGiven result (λ linked. IsReadyImage linked.network) }
    ensures network { IfOk result (λ linked. (r : ResolvedTree) → IsCompiled r loaded.program
        → network_in linked.network ≡ network_of r loaded.choice.counts.list capacity) }
    ensures tree { IfOk result (λ linked. linked.network.tree ≡ loaded.program.tree) }
    ensures costs { IfOk result (λ linked. linked.costs ≡ loaded.costs) }
{
    let Allotted {
        program,
        costs,
        choice,
    } = loaded;
    let Accepted { tree, codes } = program;
    let counts = choice.counts;
    let net = link(alloc, &tree, &counts, capacity)?;
    let network = Loaded {
        cap: capacity,
        tree,
        counts,
        codes,
        net,
    };
    Ok(Linked { network, costs })
}

/// The network of the program of a file, under the counts that are chosen for it and with channels of
/// the capacity that is requested, with its costs, or the verdict that there is none.
pub fn load_linked<F: Files>(alloc: Global, build: Build, files: &mut F) -> Result<Linked, Verdict>
    requires processors { (1 ≤ build.processors) × (build.processors ≤ 512) }
    requires capacity { (1 ≤ build.capacity) × (build.capacity ≤ 1024) }
    ensures loaded { IfOk result (LoadsLinked (F.observed files.old).content build) }
    ensures ready { IfOk result (λ linked. IsReadyImage linked.network) }
    ensures unchanged { OnOk result (F.observed files.new ≡ F.observed files.old) }
    ensures refused { IfErr result
        (IsNotLoaded (change (F.observed files.old) (F.observed files.new)) (build_stages build)) }
    ensures same_files { HasSameContent (change (F.observed files.old) (F.observed files.new)) }
    ensures wants { IfErr result (Wants F.may_want) }
{
    let capacity = build.capacity;
    let allotted = allot(alloc, build, files)?;
    match link_allotted(alloc, allotted, capacity) {
        Ok(linked) => Ok(linked),
        Err(_) => Err(Verdict::NoMemory),
    }
}

/// The network of the program of a file, as `load_linked` loads it, without its costs.
pub fn load_network<F: Files>(alloc: Global, build: Build, files: &mut F) -> Result<Loaded, Verdict>
    requires processors { (1 ≤ build.processors) × (build.processors ≤ 512) }
    requires capacity { (1 ≤ build.capacity) × (build.capacity ≤ 1024) }
    ensures network { IfOk result
        (λ loaded. LoadsNetwork (F.observed files.old).content (built build) (network_in loaded)) }
    ensures ready { IfOk result IsReadyImage }
    ensures unchanged { OnOk result (F.observed files.new ≡ F.observed files.old) }
    ensures refused { IfErr result
        (IsNotLoaded (change (F.observed files.old) (F.observed files.new)) (build_stages build)) }
    ensures same_files { HasSameContent (change (F.observed files.old) (F.observed files.new)) }
    ensures wants { IfErr result (Wants F.may_want) }
{
    match load_linked(alloc, build, files) {
        Ok(linked) => Ok(linked.network),
        Err(verdict) => Err(verdict),
    }
}

/// The number of words of an item of a tree.
fn width_of(tree: &Tree) -> u32
    ensures { result ≡ (node_at tree.now 0).ins }
{
    match tree.node(0) {
        Some(root) => root.ins,
        None => 0,
    }
}

/// The plan of a run of a tree under counts, by units of it and a net.
pub fn plan_of<'a, U: Units>(tree: &'a Tree, counts: &Counts, units: &'a U, net: Net) -> Plan<'a, U>
    requires lawful { IsLawfulTree tree.now }
    requires counts { HasLawfulCounts tree.now counts.now.list }
    requires units { U.tree units.now ≡ tree.now }
    ensures network { network result.tree.now (U.leaf result.units.now) result.net result.firings
        ≡ network tree.now (U.leaf units.now) net (firings tree.now counts.now.list) }
    ensures units { U.tree result.units.now ≡ result.tree.now }
    ensures width { result.width ≡ (node_at result.tree.now 0).ins }
    ensures wide { 1 ≤ result.width }
    ensures fits { result.firings * most_of_input < 2 ^ 63 }
{
    Plan {
        tree,
        units,
        net,
        firings: firings(tree, counts),
        width: width_of(tree),
    }
}
