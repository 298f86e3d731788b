// The command that the words of a command line spell.

ghost use Rattle.std.specs.Prelude.{◌≡◌, ◌⊎◌, Some, IfOk, IsErrOf, option_map, slice_get};
ghost use Rattle.p3l_base.specs.Memory.{Refused};
ghost use Rattle.clap.specs.Words.{found_of, rows_of};
ghost use Rattle.p3l_opts.specs.Command.{HasBuild, HasExported, HasPriced, HasSchedule, IsCommand, IsMade, Parses, Spells, text_of, texts_of};
ghost use Rattle.p3l_opts.specs.Table.{entry_named, shown};
ghost use Rattle.p3l_opts.specs.Wanted.{ClapWanted};

use crate::command::{Build, Command, Exported, OptsRefusal, Sched};
use crate::matches::{
    capacity_if_given, count_in, count_spelled, is_given, matches_of, name_if_given, name_of,
    number_of, schedule_in, text_of,
};
use crate::table::{Entry, Verb, entry_named};
use crate::word::{ADVISED, CAPACITY, ITEMS, PROCESSORS, Range, SEGMENTS, Value};
use clap::ArgMatches;
use p3l_base::Name;
use std::alloc::Global;

/// The command that the words spell; the program's own name is none of them.
pub fn parse(alloc: Global, words: &[&str]) -> Result<Command, OptsRefusal>
    ensures spelled { IfOk result (Spells (texts_of words.now)) }
    ensures usage { IsErrOf result OptsRefusal.Usage → (command : Command)
        → Spells (texts_of words.now) command → ⊥ }
    ensures memory { IsErrOf result OptsRefusal.NoMemory → Refused ⊎ ClapWanted }
{
    match words.first() {
        Some(first) => match entry_named(first) {
            Some(listed) => parse_after(alloc, first, listed, words),
            None => Err(OptsRefusal::Usage),
        },
        None => Err(OptsRefusal::Usage),
    }
}

/// The command that the words spell, if the first word names this one.
fn parse_after(
    alloc: Global,
    first: &str,
    listed: Entry,
    words: &[&str],
) -> Result<Command, OptsRefusal>
    requires first { slice_get (texts_of words.now) 0 ≡ Some first.now }
    requires named { entry_named first.now ≡ Some (shown listed) }
    ensures spelled { IfOk result (Spells (texts_of words.now)) }
    ensures usage { IsErrOf result OptsRefusal.Usage → (command : Command)
        → Spells (texts_of words.now) command → ⊥ }
    ensures memory { IsErrOf result OptsRefusal.NoMemory → Refused ⊎ ClapWanted }
{
    let matches = matches_of(alloc, first, listed, words)?;
    command_of(alloc, listed.0, &matches)
}

/// The command of this verb with the values that were found.
fn command_of(alloc: Global, verb: Verb, matches: &ArgMatches) -> Result<Command, OptsRefusal>
    ensures { Parses (IsCommand verb (rows_of (found_of matches.now))) result }
{
    match verb {
        Verb::Check => check_of(alloc, matches),
        Verb::Fmt => fmt_of(alloc, matches),
        Verb::Explain => explain_of(alloc, matches),
        Verb::Advise => advise_of(alloc, matches),
        Verb::Compile => compile_of(alloc, matches),
        Verb::Run => run_of(alloc, matches),
        Verb::Exec => exec_of(alloc, matches),
        Verb::Migrate => migrate_of(alloc, matches),
        Verb::Export => export_of(alloc, matches),
        Verb::Graph => graph_of(alloc, matches),
        Verb::VerifyCert => verify_cert_of(alloc, matches),
        Verb::CheckTrace => check_trace_of(alloc, matches),
        Verb::Gen => gen_of(alloc, matches),
        Verb::Rewrite => rewrite_of(alloc, matches),
        Verb::Profile => profile_of(alloc, matches),
        Verb::Time => time_of(alloc, matches),
        Verb::Scan => scan_of(alloc, matches),
        Verb::Save => save_of(alloc, matches),
        Verb::Resume => resume_of(alloc, matches),
    }
}

/// A program with the processors and the costs that are requested for it.
#[derive(Drop)]
struct Priced {
    program: Name,
    processors: u32,
    costs: Option<Name>,
}

/// Returns the program, the processors of this range, and the costs that were found.
fn priced_of(alloc: Global, matches: &ArgMatches, range: Range) -> Result<Priced, OptsRefusal>
    ensures { Parses (λ priced. HasPriced range (rows_of (found_of matches.now)) priced.program priced.processors priced.costs) result }
{
    let processors = count_in(matches, Value::Processors, range)?;
    let program = name_of(alloc, matches, Value::Program)?;
    let costs = name_if_given(alloc, matches, Value::Costs)?;
    Ok(Priced {
        program,
        processors,
        costs,
    })
}

/// Returns how a network is built, by the values that were found and this text of its capacity.
fn build_with(
    alloc: Global,
    matches: &ArgMatches,
    range: Range,
    capacity: Option<&str>,
) -> Result<Build, OptsRefusal>
    ensures { Parses (HasBuild range (rows_of (found_of matches.now)) (option_map (λ text. text.now) capacity.entry)) result }
{
    let capacity = count_spelled(capacity, CAPACITY)?;
    let priced = priced_of(alloc, matches, range)?;
    Ok(Build {
        program: priced.program,
        processors: priced.processors,
        costs: priced.costs,
        capacity,
    })
}

/// Returns how a network is built, by the values that were found.
fn build_of(alloc: Global, matches: &ArgMatches) -> Result<Build, OptsRefusal>
    ensures { Parses (HasBuild PROCESSORS (rows_of (found_of matches.now)) (text_of Value.Capacity (rows_of (found_of matches.now)))) result }
{
    build_with(
        alloc,
        matches,
        PROCESSORS,
        text_of(matches, Value::Capacity),
    )
}

/// Returns what is exported, by the values that were found.
fn exported_of(alloc: Global, matches: &ArgMatches) -> Result<Exported, OptsRefusal>
    ensures { Parses (HasExported (rows_of (found_of matches.now))) result }
{
    let capacity = capacity_if_given(matches)?;
    let priced = priced_of(alloc, matches, PROCESSORS)?;
    Ok(Exported {
        program: priced.program,
        processors: priced.processors,
        costs: priced.costs,
        capacity,
    })
}

/// Returns the schedule, or round robin, unless its picks come from a file.
fn made_in(alloc: Global, matches: &ArgMatches) -> Result<Sched, OptsRefusal>
    ensures { Parses (λ schedule. HasSchedule (text_of Value.Schedule (rows_of (found_of matches.now))) schedule × IsMade schedule) result }
{
    match schedule_in(alloc, matches, Value::Schedule)? {
        Sched::RoundRobin => Ok(Sched::RoundRobin),
        Sched::Seeded(seed) => Ok(Sched::Seeded(seed)),
        Sched::File(_) => Err(OptsRefusal::Usage),
    }
}

/// Returns the name of the file that the picks of the schedule come from.
fn recorded_in(alloc: Global, matches: &ArgMatches) -> Result<Name, OptsRefusal>
    ensures { Parses (λ name. HasSchedule (text_of Value.Recorded (rows_of (found_of matches.now))) (Sched.File name)) result }
{
    match schedule_in(alloc, matches, Value::Recorded)? {
        Sched::File(name) => Ok(name),
        Sched::RoundRobin | Sched::Seeded(_) => Err(OptsRefusal::Usage),
    }
}

/// The command `check` with the values that were found.
fn check_of(alloc: Global, matches: &ArgMatches) -> Result<Command, OptsRefusal>
    ensures { Parses (IsCommand Verb.Check (rows_of (found_of matches.now))) result }
{
    let program = name_of(alloc, matches, Value::Program)?;
    Ok(Command::Check { program })
}

/// The command `fmt` with the values that were found.
fn fmt_of(alloc: Global, matches: &ArgMatches) -> Result<Command, OptsRefusal>
    ensures { Parses (IsCommand Verb.Fmt (rows_of (found_of matches.now))) result }
{
    let program = name_of(alloc, matches, Value::Program)?;
    Ok(Command::Fmt { program })
}

/// The command `explain` with the values that were found.
fn explain_of(alloc: Global, matches: &ArgMatches) -> Result<Command, OptsRefusal>
    ensures { Parses (IsCommand Verb.Explain (rows_of (found_of matches.now))) result }
{
    let build = build_with(alloc, matches, PROCESSORS, None)?;
    let cert = name_if_given(alloc, matches, Value::Cert)?;
    Ok(Command::Explain { build, cert })
}

/// The command `advise` with the values that were found.
fn advise_of(alloc: Global, matches: &ArgMatches) -> Result<Command, OptsRefusal>
    ensures { Parses (IsCommand Verb.Advise (rows_of (found_of matches.now))) result }
{
    let build = build_with(alloc, matches, ADVISED, None)?;
    let processes = is_given(matches, Value::Processes);
    Ok(Command::Advise { build, processes })
}

/// The command `compile` with the values that were found.
fn compile_of(alloc: Global, matches: &ArgMatches) -> Result<Command, OptsRefusal>
    ensures { Parses (IsCommand Verb.Compile (rows_of (found_of matches.now))) result }
{
    let build = build_of(alloc, matches)?;
    let output = name_of(alloc, matches, Value::Output)?;
    Ok(Command::Compile { build, output })
}

/// The command `run` with the values that were found.
fn run_of(alloc: Global, matches: &ArgMatches) -> Result<Command, OptsRefusal>
    ensures { Parses (IsCommand Verb.Run (rows_of (found_of matches.now))) result }
{
    let build = build_of(alloc, matches)?;
    let schedule = schedule_in(alloc, matches, Value::Schedule)?;
    let trace = name_if_given(alloc, matches, Value::Trace)?;
    let stats = is_given(matches, Value::Stats);
    Ok(Command::Run {
        build,
        schedule,
        trace,
        stats,
    })
}

/// The command `exec` with the values that were found.
fn exec_of(alloc: Global, matches: &ArgMatches) -> Result<Command, OptsRefusal>
    ensures { Parses (IsCommand Verb.Exec (rows_of (found_of matches.now))) result }
{
    let image = name_of(alloc, matches, Value::Image)?;
    let schedule = schedule_in(alloc, matches, Value::Schedule)?;
    let trace = name_if_given(alloc, matches, Value::Trace)?;
    let stats = is_given(matches, Value::Stats);
    Ok(Command::Exec {
        image,
        schedule,
        trace,
        stats,
    })
}

/// The command `migrate` with the values that were found.
fn migrate_of(alloc: Global, matches: &ArgMatches) -> Result<Command, OptsRefusal>
    ensures { Parses (IsCommand Verb.Migrate (rows_of (found_of matches.now))) result }
{
    let image = name_of(alloc, matches, Value::Image)?;
    let output = name_of(alloc, matches, Value::Output)?;
    Ok(Command::Migrate { image, output })
}

/// The command `export` with the values that were found.
fn export_of(alloc: Global, matches: &ArgMatches) -> Result<Command, OptsRefusal>
    ensures { Parses (IsCommand Verb.Export (rows_of (found_of matches.now))) result }
{
    let exported = exported_of(alloc, matches)?;
    let output = name_of(alloc, matches, Value::Output)?;
    Ok(Command::Export { exported, output })
}

/// The command `graph` with the values that were found.
fn graph_of(alloc: Global, matches: &ArgMatches) -> Result<Command, OptsRefusal>
    ensures { Parses (IsCommand Verb.Graph (rows_of (found_of matches.now))) result }
{
    let build = build_of(alloc, matches)?;
    Ok(Command::Graph { build })
}

/// The command `verify-cert` with the values that were found.
fn verify_cert_of(alloc: Global, matches: &ArgMatches) -> Result<Command, OptsRefusal>
    ensures { Parses (IsCommand Verb.VerifyCert (rows_of (found_of matches.now))) result }
{
    let program = name_of(alloc, matches, Value::Program)?;
    let cert = name_of(alloc, matches, Value::Cert)?;
    let costs = name_if_given(alloc, matches, Value::Costs)?;
    Ok(Command::VerifyCert {
        program,
        cert,
        costs,
    })
}

/// The command `check-trace` with the values that were found.
fn check_trace_of(alloc: Global, matches: &ArgMatches) -> Result<Command, OptsRefusal>
    ensures { Parses (IsCommand Verb.CheckTrace (rows_of (found_of matches.now))) result }
{
    let build = build_of(alloc, matches)?;
    let trace = name_of(alloc, matches, Value::Trace)?;
    Ok(Command::CheckTrace { build, trace })
}

/// The command `gen` with the values that were found.
fn gen_of(alloc: Global, matches: &ArgMatches) -> Result<Command, OptsRefusal>
    ensures { Parses (IsCommand Verb.Gen (rows_of (found_of matches.now))) result }
{
    let number = number_of(matches)?;
    let processors = count_in(matches, Value::Processors, PROCESSORS)?;
    let items = count_in(matches, Value::Items, ITEMS)?;
    let schedule = made_in(alloc, matches)?;
    let save = name_if_given(alloc, matches, Value::Save)?;
    Ok(Command::Gen {
        number,
        processors,
        items,
        schedule,
        save,
    })
}

/// The command `rewrite` with the values that were found.
fn rewrite_of(alloc: Global, matches: &ArgMatches) -> Result<Command, OptsRefusal>
    ensures { Parses (IsCommand Verb.Rewrite (rows_of (found_of matches.now))) result }
{
    let priced = priced_of(alloc, matches, PROCESSORS)?;
    Ok(Command::Rewrite {
        program: priced.program,
        processors: priced.processors,
        costs: priced.costs,
    })
}

/// The command `profile` with the values that were found.
fn profile_of(alloc: Global, matches: &ArgMatches) -> Result<Command, OptsRefusal>
    ensures { Parses (IsCommand Verb.Profile (rows_of (found_of matches.now))) result }
{
    let program = name_of(alloc, matches, Value::Program)?;
    Ok(Command::Profile { program })
}

/// The command `time` with the values that were found.
fn time_of(alloc: Global, matches: &ArgMatches) -> Result<Command, OptsRefusal>
    ensures { Parses (IsCommand Verb.Time (rows_of (found_of matches.now))) result }
{
    let build = build_of(alloc, matches)?;
    let picks = name_if_given(alloc, matches, Value::Picks)?;
    Ok(Command::Time { build, picks })
}

/// The command `scan` with the values that were found.
fn scan_of(alloc: Global, matches: &ArgMatches) -> Result<Command, OptsRefusal>
    ensures { Parses (IsCommand Verb.Scan (rows_of (found_of matches.now))) result }
{
    let segments = count_in(matches, Value::Segments, SEGMENTS)?;
    let capacity = count_in(matches, Value::Capacity, CAPACITY)?;
    let program = name_of(alloc, matches, Value::Program)?;
    let schedule = schedule_in(alloc, matches, Value::Schedule)?;
    let stats = is_given(matches, Value::Stats);
    Ok(Command::Scan {
        program,
        segments,
        schedule,
        capacity,
        stats,
    })
}

/// The command `save` with the values that were found.
fn save_of(alloc: Global, matches: &ArgMatches) -> Result<Command, OptsRefusal>
    ensures { Parses (IsCommand Verb.Save (rows_of (found_of matches.now))) result }
{
    let build = build_of(alloc, matches)?;
    let picks = recorded_in(alloc, matches)?;
    let output = name_of(alloc, matches, Value::Output)?;
    Ok(Command::Save {
        build,
        picks,
        output,
    })
}

/// The command `resume` with the values that were found.
fn resume_of(alloc: Global, matches: &ArgMatches) -> Result<Command, OptsRefusal>
    ensures { Parses (IsCommand Verb.Resume (rows_of (found_of matches.now))) result }
{
    let snapshot = name_of(alloc, matches, Value::Snapshot)?;
    let schedule = schedule_in(alloc, matches, Value::Schedule)?;
    let stats = is_given(matches, Value::Stats);
    Ok(Command::Resume {
        snapshot,
        schedule,
        stats,
    })
}
