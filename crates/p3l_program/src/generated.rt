// The command `gen`: a program that is generated with its costs and its items, run in memory.

ghost use Rattle.std.specs.Prelude.{◌≡◌, ◌≢◌, ◌++◌, ◌≤◌, ◌<◌, ◌^◌, ◌⊎◌, length, IfOk, IfErr, string_bytes, Bool};
ghost use Rattle.p3l_base.specs.Memory.{IfGiven};
ghost use Rattle.p3l_check.specs.Resolving.{ResolvedTree};
ghost use Rattle.p3l_io.specs.Change.{change};
ghost use Rattle.p3l_opts.specs.Command.{IsMade};
ghost use Rattle.p3l_report.specs.declared.verdict.Verdict.TheVariants as verdict;
ghost use Rattle.p3l_program.specs.Plan.{IsCompiled, network_of};
ghost use Rattle.p3l_program.specs.File.{text_limit};
ghost use Rattle.p3l_program.specs.Generated.{AreNotLoaded, AreTextsOf, Gen, IsGenExpected, IsGenRun, IsGenUnsaved, IsLineOf, IsPicked, IsRanUnder, LoadsTexts, comes_whole, gen_capacity, gen_of, line_at, saves_for, saves_with, summary_line};
ghost use Rattle.p3l_program.specs.Load.{IsReady};
ghost use Rattle.p3l_program.specs.Saved.{HasSave, HasSaves};
ghost use Rattle.p3l_program.specs.Wants.{Wants};

use crate::memory::{NoSink, TextSource};
use crate::plan::{Accepted, Allotted, accept, plan_of};
use crate::save::save;
use crate::verdict::fault_verdict;
use p3l_alloc::{AllocRefusal, choose};
use p3l_ast::SourceRefusal;
use p3l_base::{List, Name, NoMemory};
use p3l_compile::table_of;
use p3l_cost::read_costs;
use p3l_gen::{Generated, generate};
use p3l_io::{Files, Sink};
use p3l_link::laws::every_linked_net_has_invariants;
use p3l_link::link;
use p3l_opts::Sched;
use p3l_report::line::numbers_text;
use p3l_report::{Finish, Refusal, Verdict};
use p3l_run::run::run;
use p3l_run::write::write;
use p3l_run::{Keeping, Ran, RunEnd};
use p3l_sched::Schedule;
use p3l_stream::Ending;
use std::alloc::Global;

/// The most tokens that a channel of the network holds.
const CAPACITY: u32 = 4;

/// The name that begins with one text and ends with another.
fn name_with(alloc: Global, prefix: &Name, suffix: &str) -> Result<Name, NoMemory>
    ensures { IfGiven result (λ name. name ≡ prefix.now ++ suffix.now) }
{
    let mut text = String::from_str(alloc, prefix.as_str())?;
    text.push_str(suffix)?;
    Name::from_text(alloc, text.as_str())
}

/// Writes a text to the file whose name has these two parts.
fn save_as<F: Files>(
    alloc: Global,
    prefix: &Name,
    suffix: &str,
    text: &[u8],
    files: &mut F,
) -> Result<(), Verdict>
    ensures saved { HasSave (change (F.observed files.old) (F.observed files.new))
        (prefix.now ++ suffix.now) text.now result }
    ensures wants { IfErr result (Wants F.may_want) }
{
    match name_with(alloc, prefix, suffix) {
        Ok(name) => save(alloc, &name, text, files),
        Err(_) => Err(Verdict::NoMemory),
    }
}

/// Writes the three texts to the files whose names begin so.
fn save_texts<F: Files>(
    alloc: Global,
    prefix: &Name,
    texts: &Generated,
    files: &mut F,
) -> Result<(), Verdict>
    ensures saved { HasSaves (change (F.observed files.old) (F.observed files.new))
        (saves_for prefix.now texts.now.program texts.now.costs texts.now.stream) result }
    ensures wants { IfErr result (Wants F.may_want) }
{
    save_as(alloc, prefix, ".p3l", texts.program.as_slice(), files)?;
    save_as(alloc, prefix, ".toml", texts.costs.as_slice(), files)?;
    save_as(alloc, prefix, ".txt", texts.stream.as_slice(), files)
}

/// Does so where a beginning of the names is given.
fn save_where<F: Files>(
    alloc: Global,
    prefix: Option<Name>,
    texts: &Generated,
    files: &mut F,
) -> Result<(), Verdict>
    ensures saved { HasSaves (change (F.observed files.old) (F.observed files.new))
        (saves_with prefix texts.now.program texts.now.costs texts.now.stream) result }
    ensures wants { IfErr result (Wants F.may_want) }
{
    match prefix {
        Some(prefix) => save_texts(alloc, &prefix, texts, files),
        None => Ok(()),
    }
}

/// The program that a text spells, with the costs that another says and the counts that are chosen
/// for this number of processors, or the verdict that there are none.
fn load_texts(
    alloc: Global,
    program: &[u8],
    costs: &[u8],
    processors: u32,
) -> Result<Allotted, Verdict>
    requires within { length program.now ≤ text_limit }
    requires some { 1 ≤ processors }
    requires few { processors ≤ 512 }
    ensures loaded { IfOk result (LoadsTexts program.now costs.now processors) }
    ensures refused { IfErr result (AreNotLoaded program.now costs.now processors) }
    ensures wants { (files : Bool) → IfErr result (Wants files) }
{
    let program = match accept(alloc, program) {
        Ok(program) => program,
        Err(SourceRefusal::At { fault, pos }) => {
            return Err(Verdict::Refused(Refusal::Source { fault, pos }));
        }
        Err(SourceRefusal::NoMemory) => return Err(Verdict::NoMemory),
    };
    let costs = match read_costs(alloc, costs, &program.tree) {
        Ok(costs) => costs,
        Err(refusal) => return Err(Verdict::from(Refusal::Costs(refusal))),
    };
    match choose(alloc, &program.tree, &costs, processors) {
        Ok(choice) => Ok(Allotted {
            program,
            costs,
            choice,
        }),
        Err(AllocRefusal::TooFew { need }) => Err(Verdict::Refused(Refusal::TooFew { need })),
        Err(AllocRefusal::NoMemory) => Err(Verdict::NoMemory),
    }
}

/// The schedule that is requested, where its picks are made.
fn schedule_of(request: Sched) -> Schedule
    requires { IsMade request }
    ensures { IsPicked request result }
{
    match request {
        Sched::RoundRobin => Schedule::RoundRobin,
        Sched::Seeded(seed) => Schedule::Seeded(seed),
        Sched::File(_) => unreachable!(),
    }
}

/// Runs the network of a program on the items of a text; what it emits is not written.
fn run_text(alloc: Global, loaded: Allotted, request: Sched, text: List<u8>) -> Result<Ran, Verdict>
    requires ready { IsReady loaded }
    requires made { IsMade request }
    requires short { length text < 2 ^ 36 }
    ensures ran { IfOk result (λ ran. (r : ResolvedTree) → IsCompiled r loaded.program
        → IsRanUnder (network_of r loaded.choice.counts.list gen_capacity) request text ran) }
    ensures wanting { IfErr result (λ v. v ≡ verdict.NoMemory) }
    ensures wants { (files : Bool) → IfErr result (Wants files) }
{
    every_linked_net_has_invariants();
    let Allotted {
        program,
        choice,
        ..
    } = loaded;
    let Accepted { tree, codes } = program;
    let counts = choice.counts;
    let Ok(units) = table_of(alloc, &tree, codes) else {
        return Err(Verdict::NoMemory);
    };
    let Ok(net) = link(alloc, &tree, &counts, CAPACITY) else {
        return Err(Verdict::NoMemory);
    };
    let plan = plan_of(&tree, &counts, &units, net);
    let mut input = TextSource::new(text);
    match run(
        alloc,
        plan,
        schedule_of(request),
        Keeping::Nothing,
        &mut input,
        &mut NoSink,
    ) {
        Ok(ran) => Ok(ran),
        Err(fault) => Err(fault_verdict(fault)),
    }
}

/// The line of a run of the texts of a number, with the service time and the processes of the counts.
fn summary_line(
    alloc: Global,
    number: u32,
    ran: &Ran,
    service: u128,
    used: u32,
) -> Result<String, NoMemory>
    ensures { IfGiven result (λ line. string_bytes line
        ≡ summary_line number ran.now.stats service used ran.now.sum) }
{
    let text = numbers_text(alloc, &ran.stats)?;
    let numbers = text.as_str();
    let sum = ran.sum;
    Ok(format!(in alloc; "gen {number}: {numbers}, service {service}, used {used}, sum {sum}\n")?)
}

/// Returns true exactly if a run came to the end of its items without a trap.
fn comes_whole(finish: &RunEnd) -> bool
    ensures { result ≡ comes_whole finish.now }
{
    matches!(finish, RunEnd::Stream(Ending::End))
}

/// Writes the line of a run that came to the end of its items, and of another one nothing.
fn put_summary<K: Sink>(
    alloc: Global,
    number: u32,
    ran: Ran,
    service: u128,
    used: u32,
    out: &mut K,
) -> Verdict
    ensures put { IsLineOf (change (K.observed out.old) (K.observed out.new)) ran.finish
        (line_at ran.finish (summary_line number ran.stats service used ran.sum)) result }
    ensures wants { (files : Bool) → Wants files result }
{
    if !comes_whole(&ran.finish) {
        return Verdict::Ended(Finish::Run(ran.finish), None);
    }
    let Ok(line) = summary_line(alloc, number, &ran, service, used) else {
        return Verdict::NoMemory;
    };
    match write(out, line.as_str().as_bytes()) {
        Ok(()) => Verdict::Ended(Finish::Run(ran.finish), None),
        Err(fault) => fault_verdict(fault),
    }
}

/// Runs the texts of a number, and writes the line of the run.
fn run_texts<K: Sink>(
    alloc: Global,
    number: u32,
    processors: u32,
    texts: Generated,
    request: Sched,
    out: &mut K,
) -> Verdict
    requires processors { (1 ≤ processors) × (processors ≤ 512) }
    requires made { IsMade request }
    requires within { length texts.program ≤ text_limit }
    requires short { length texts.stream < 2 ^ 36 }
    ensures ran { (g : Gen) → AreTextsOf g texts → g.number ≡ number → g.processors ≡ processors
        → g.request ≡ request → IsGenRun (change (K.observed out.old) (K.observed out.new)) g
        result }
    ensures wants { (files : Bool) → Wants files result }
{
    let Generated {
        program,
        costs,
        stream,
    } = texts;
    let loaded = match load_texts(alloc, program.as_slice(), costs.as_slice(), processors) {
        Ok(loaded) => loaded,
        Err(verdict) => return verdict,
    };
    let service = loaded.choice.service;
    let used = loaded.choice.used;
    match run_text(alloc, loaded, request, stream) {
        Ok(ran) => put_summary(alloc, number, ran, service, used, out),
        Err(verdict) => verdict,
    }
}

/// Generates the texts of a number with this number of items, saves them to files whose names begin
/// so, if that is requested, and runs them.
pub fn run_generated<F: Files, K: Sink>(
    alloc: Global,
    number: u32,
    processors: u32,
    items: u32,
    request: Sched,
    prefix: Option<Name>,
    files: &mut F,
    out: &mut K,
) -> Verdict
    requires processors { (1 ≤ processors) × (processors ≤ 512) }
    requires items { items ≤ 100000 }
    requires made { IsMade request }
    ensures expected { IsGenExpected (change (F.observed files.old) (F.observed files.new))
        (change (K.observed out.old) (K.observed out.new))
        (gen_of number processors items request prefix) result
        ⊎ IsGenUnsaved (change (F.observed files.old) (F.observed files.new))
        (change (K.observed out.old) (K.observed out.new))
        (gen_of number processors items request prefix) result }
    ensures wants { Wants F.may_want result }
{
    let Ok(texts) = generate(alloc, number, items) else {
        return Verdict::NoMemory;
    };
    match save_where(alloc, prefix, &texts, files) {
        Ok(()) => run_texts(alloc, number, processors, texts, request, out),
        Err(verdict) => verdict,
    }
}
