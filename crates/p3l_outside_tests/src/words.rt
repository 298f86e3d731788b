// Words that spell commands, and words that spell none.

use crate::lists::spelled_words;
use p3l_base::Name;
use p3l_opts::{Build, Command, Exported, OptsRefusal, Sched, parse};
use std::alloc::Global;
use std::fmt;
use std::fmt::{Display, Formatter};
use std::test::Fail;

/// Words with a bar between two, and the command that they spell.
const COMMANDS: &str = "check|m.p3l => check m.p3l
fmt|m.p3l => fmt m.p3l
fmt|--|--odd => fmt --odd
check|check => check check
check|- => check -
run|m.p3l|--processors|4 => run m.p3l 4 - 4 rr - false
run|--processors|512|m.p3l => run m.p3l 512 - 4 rr - false
run|--stats|--processors=1|m.p3l => run m.p3l 1 - 4 rr - true
run|m.p3l|--processors|16|--stats => run m.p3l 16 - 4 rr - true
run|--processors|9|--|m.p3l => run m.p3l 9 - 4 rr - false
run|-|--processors|10 => run - 10 - 4 rr - false
run|run|--processors|2 => run run 2 - 4 rr - false
run|m.p3l|--processors=4|--schedule|seed:0|--capacity=1 => run m.p3l 4 - 1 seed:0 - false
run|--schedule=seed:18446744073709551615|m.p3l|--processors|4 => run m.p3l 4 - 4 seed:18446744073709551615 - false
run|m|--processors|4|--schedule|file:p|--costs=c|--trace=t => run m 4 c 4 file:p t false
run|m|--processors|4|--schedule|file:|--capacity|1024 => run m 4 - 1024 file: - false
run|m|--schedule|rr|--processors|4 => run m 4 - 4 rr - false
explain|a.p3l|--processors|8|--costs|a.toml|--cert|x => explain a.p3l 8 a.toml 4 x
advise|m => advise m 512 - 4 false
advise|--processes|m|--costs|c|--processors|8 => advise m 8 c 4 true
compile|a|--output=i|--processors=8|--capacity=2 => compile a 8 - 2 i
exec|i|--stats => exec i rr - true
migrate|--output|j|i => migrate i j
export|a|--output=m.c|--processors=8 => export a 8 - - m.c
export|--capacity=1024|--costs|c|a|--output|m|--processors|512 => export a 512 c 1024 m
graph|m|--processors|4|--capacity|1 => graph m 4 - 1
exec|i|--schedule|seed:7|--trace|t => exec i seed:7 t false
verify-cert|a|--cert|x => verify-cert a x -
check-trace|a|--trace|t|--processors|3 => check-trace a 3 - 4 t
gen|0|--processors|16 => gen 0 16 1000 rr -
gen|4294967295|--processors=1|--items=100000|--save|s => gen 4294967295 1 100000 rr s
rewrite|m|--processors|512 => rewrite m 512 -
rewrite|--costs|c|--processors=1|m => rewrite m 1 c
profile|m.p3l => profile m.p3l
profile|--|--odd => profile --odd
time|--picks=p|m|--processors|4 => time m 4 - 4 p
time|m|--processors|4|--costs|c => time m 4 c 4 -
scan|m|--segments|1 => scan m 1 rr 4 false
scan|--segments=512|--stats|--|--odd => scan --odd 512 rr 4 true
scan|m|--schedule|file:p|--capacity|1024|--segments|3 => scan m 3 file:p 1024 false
save|m|--processors|4|--schedule|file:p|--output|s => save m 4 - 4 p s
save|--output=s|--schedule=file:|--capacity=1|--processors=512|--costs=c|m => save m 512 c 1  s
save|m|--schedule=file:rr|--processors=1|--output|m => save m 1 - 4 rr m
resume|s => resume s rr false
resume|--stats|s|--schedule|seed:7 => resume s seed:7 true
resume|--schedule=file:p|--|--odd => resume --odd file:p false
fmt| => fmt\x20
run|a b|--processors|99 => run a b 99 - 4 rr - false";

/// Words with a bar between two, which spell no command.
const NO_COMMANDS: &str = "walk
Run|m.p3l|--processors|4
run
run|m.p3l
run|--processors|4
run|m.p3l|--processors
fmt
check
m.p3l|check
run|m.p3l|--processors|
run|m.p3l|--processors|0
run|m.p3l|--processors|513
run|m.p3l|--processors|04
run|m.p3l|--processors|+4
run|m.p3l|--processors|-4
run|m.p3l|--processors|0x4
run|m.p3l|--processors|4294967300
run|m.p3l|--processors|18446744073709551620
run|m.p3l|--processors|4|--processors|4
run|m.p3l|--processors|4|--stats|--stats
run|m.p3l|--processors|4|--stats=yes
run|m.p3l|n.p3l|--processors|4
run|m.p3l|--proc|4
run|m.p3l|--processors|4|--help
run|m.p3l|--processors|4|-V
fmt|m.p3l|n.p3l
fmt|m.p3l|--stats
check|m.p3l|--processors|4
run|m|--processors|4|--schedule|seed:007
run|m|--processors|4|--schedule|seed:
run|m|--processors|4|--schedule|seed:18446744073709551616
run|m|--processors|4|--schedule|RR
run|m|--processors|4|--schedule|
run|m|--processors|4|--capacity|0
run|m|--processors|4|--capacity|1025
explain|m|--processors|4|--capacity|1
compile|m|--processors|4
advise
advise|m|--processors|513
advise|m|--capacity|1
exec|i|--processors|4
migrate|i
export|m|--processors|4
export|m|--output|c
export|m|--processors|4|--output|c|--capacity|0
export|m|--processors|4|--output|c|--capacity|1025
export|m|--processors|4|--output|c|--capacity|
graph|m|--output|g
verify-cert|m
check-trace|m|--processors|4
gen|4294967296|--processors|4
gen|01|--processors|4
gen|1|--processors|4|--items|0
gen|1|--processors|4|--items|100001
gen|1|--processors|4|--schedule|file:p
rewrite|m
rewrite|--processors|4
rewrite|m|--processors|513
rewrite|m|--processors|4|--capacity|1
profile
profile|m.p3l|n.p3l
profile|m.p3l|--costs|c
time|m
time|m|--processors|4|--stats
time|m|--processors|4|--schedule|rr
scan|m
scan|--segments|4
scan|m|--segments|0
scan|m|--segments|513
scan|m|--segments|04
scan|m|--segments|4|--processors|4
scan|m|--segments|4|--trace|t
scan|m|--segments|4|--capacity|0
save|m|--processors=4|--output=s
save|m|--processors=4|--schedule=file:p
save|m|--schedule=file:p|--output=s
save|m|--processors=4|--schedule=rr|--output=s
save|m|--processors=4|--schedule=seed:7|--output=s
save|m|--processors=4|--schedule=p|--output=s
save|m|--processors=4|--schedule=file:p|--output=s|--stats
resume
resume|s|t
resume|s|--processors|4
resume|s|--trace|t
resume|s|--output|t
resume|s|--schedule|seed:
resume|s|--stats|--stats

run|m.p3l|--processors|4\x20";

/// A command as a text: its values in their order, and a hyphen for a name that isn't there.
#[derive(Clone, Copy)]
struct Shown<'a>(&'a Command);

/// A value of a command, with a blank before it.
#[derive(Clone, Copy)]
enum Value<'a> {
    Text(&'a str),
    Number(u32),
    /// The way to make picks, from the words.
    Picks(&'a Sched),
    /// The way to build a network: the program, the processors, the costs and the capacity.
    Build(&'a Build),
    /// The program to export, the processors, the costs and the capacity.
    Exported(&'a Exported),
    /// No value, where a command has fewer than others.
    Nothing,
}

/// A name that is there.
fn text(name: &Name) -> Value<'_> {
    Value::Text(name.as_str())
}

/// A name, or a hyphen.
fn or_hyphen(name: &Option<Name>) -> Value<'_> {
    match name {
        Some(name) => text(name),
        None => Value::Text("-"),
    }
}

/// Tells whether something is requested.
fn flag(requested: bool) -> Value<'static> {
    Value::Text(if requested { "true" } else { "false" })
}

/// The name of a command, and its values.
fn values_of(command: &Command) -> (&'static str, [Value<'_>; 5]) {
    let no = Value::Nothing;
    match command {
        Command::Check { program } => ("check", [text(program), no, no, no, no]),
        Command::Fmt { program } => ("fmt", [text(program), no, no, no, no]),
        Command::Explain { build, cert } => {
            (
                "explain",
                [Value::Build(build), or_hyphen(cert), no, no, no],
            )
        }
        Command::Advise { build, processes } => {
            (
                "advise",
                [Value::Build(build), flag(*processes), no, no, no],
            )
        }
        Command::Compile { build, output } => {
            ("compile", [Value::Build(build), text(output), no, no, no])
        }
        Command::Run {
            build,
            schedule,
            trace,
            stats,
        } => {
            let picks = Value::Picks(schedule);
            (
                "run",
                [
                    Value::Build(build),
                    picks,
                    or_hyphen(trace),
                    flag(*stats),
                    no,
                ],
            )
        }
        Command::Exec {
            image,
            schedule,
            trace,
            stats,
        } => {
            let picks = Value::Picks(schedule);
            (
                "exec",
                [text(image), picks, or_hyphen(trace), flag(*stats), no],
            )
        }
        Command::Migrate { image, output } => ("migrate", [text(image), text(output), no, no, no]),
        Command::Export { exported, output } => {
            (
                "export",
                [Value::Exported(exported), text(output), no, no, no],
            )
        }
        Command::Graph { build } => ("graph", [Value::Build(build), no, no, no, no]),
        Command::VerifyCert {
            program,
            cert,
            costs,
        } => {
            (
                "verify-cert",
                [text(program), text(cert), or_hyphen(costs), no, no],
            )
        }
        Command::CheckTrace { build, trace } => {
            (
                "check-trace",
                [Value::Build(build), text(trace), no, no, no],
            )
        }
        Command::Gen {
            number,
            processors,
            items,
            schedule,
            save,
        } => {
            let processors = Value::Number(*processors);
            let items = Value::Number(*items);
            let picks = Value::Picks(schedule);
            (
                "gen",
                [
                    Value::Number(*number),
                    processors,
                    items,
                    picks,
                    or_hyphen(save),
                ],
            )
        }
        Command::Rewrite {
            program,
            processors,
            costs,
        } => {
            let processors = Value::Number(*processors);
            (
                "rewrite",
                [text(program), processors, or_hyphen(costs), no, no],
            )
        }
        Command::Profile { program } => ("profile", [text(program), no, no, no, no]),
        Command::Time { build, picks } => {
            ("time", [Value::Build(build), or_hyphen(picks), no, no, no])
        }
        Command::Scan {
            program,
            segments,
            schedule,
            capacity,
            stats,
        } => {
            let segments = Value::Number(*segments);
            let capacity = Value::Number(*capacity);
            (
                "scan",
                [
                    text(program),
                    segments,
                    Value::Picks(schedule),
                    capacity,
                    flag(*stats),
                ],
            )
        }
        Command::Save {
            build,
            picks,
            output,
        } => {
            (
                "save",
                [Value::Build(build), text(picks), text(output), no, no],
            )
        }
        Command::Resume {
            snapshot,
            schedule,
            stats,
        } => {
            (
                "resume",
                [text(snapshot), Value::Picks(schedule), flag(*stats), no, no],
            )
        }
    }
}

impl<'a> Display for Shown<'a> {
    fn fmt<W: fmt::Write>(&self, f: &mut Formatter<W>) -> fmt::Result {
        let (name, values) = values_of(self.0);
        f.write_str(name)?;
        for value in values {
            write!(f, "{value}")?;
        }
        Ok(())
    }
}

impl<'a> Display for Value<'a> {
    fn fmt<W: fmt::Write>(&self, f: &mut Formatter<W>) -> fmt::Result {
        match self {
            Value::Text(text) => write!(f, " {text}"),
            Value::Number(number) => write!(f, " {number}"),
            Value::Picks(sched) => show_picks(sched, f),
            Value::Build(build) => show_build(build, f),
            Value::Exported(exported) => show_exported(exported, f),
            Value::Nothing => Ok(()),
        }
    }
}

/// Returns a name, or a hyphen.
fn shown_name(name: &Option<Name>) -> &str {
    match name {
        Some(name) => name.as_str(),
        None => "-",
    }
}

/// Writes how a network is built.
fn show_build<W: fmt::Write>(build: &Build, f: &mut Formatter<W>) -> fmt::Result {
    let program = build.program.as_str();
    let processors = build.processors;
    let costs = shown_name(&build.costs);
    let capacity = build.capacity;
    write!(f, " {program} {processors} {costs} {capacity}")
}

/// Writes what is exported, with a hyphen for a capacity that isn't there.
fn show_exported<W: fmt::Write>(exported: &Exported, f: &mut Formatter<W>) -> fmt::Result {
    let program = exported.program.as_str();
    let processors = exported.processors;
    let costs = shown_name(&exported.costs);
    write!(f, " {program} {processors} {costs}")?;
    match exported.capacity {
        Some(capacity) => write!(f, " {capacity}"),
        None => f.write_str(" -"),
    }
}

/// Writes how picks are made.
fn show_picks<W: fmt::Write>(sched: &Sched, f: &mut Formatter<W>) -> fmt::Result {
    match sched {
        Sched::RoundRobin => f.write_str(" rr"),
        Sched::Seeded(seed) => write!(f, " seed:{seed}"),
        Sched::File(name) => write!(f, " file:{}", name.as_str()),
    }
}

/// Tells whether a command is shown as this text.
fn is_shown(alloc: Global, command: &Command, text: &str) -> Result<bool, Fail> {
    let shown = format!(in alloc; "{}", Shown(command))?;
    Ok(shown.as_str() == text)
}

/// Tells whether the words of a text spell this command.
fn are_spelled(alloc: Global, text: &str, command: &str) -> Result<bool, Fail> {
    let words = spelled_words(alloc, text)?;
    match parse(alloc, words.as_slice()) {
        Ok(parsed) => is_shown(alloc, &parsed, command),
        Err(_) => Ok(false),
    }
}

/// Tells whether the words of a text spell no command.
fn spell_none(alloc: Global, text: &str) -> Result<bool, Fail> {
    let words = spelled_words(alloc, text)?;
    Ok(parse(alloc, words.as_slice()).err() == Some(OptsRefusal::Usage))
}

#[test]
fn words_spell_their_command(rt: HostRuntime) -> Result<(), Fail> {
    for row in COMMANDS.lines() {
        let (words, command) = row.split_once(" => ").ok_or("no command")?;
        assert!(rt; are_spelled(rt.alloc(), words, command)?, "{words}");
    }
    Ok(())
}

#[test]
fn faulty_words_spell_no_command(rt: HostRuntime) -> Result<(), Fail> {
    for row in NO_COMMANDS.lines() {
        assert!(rt; spell_none(rt.alloc(), row)?, "{row}");
    }
    assert!(rt; parse(rt.alloc(), &[]).err() == Some(OptsRefusal::Usage));
    Ok(())
}
