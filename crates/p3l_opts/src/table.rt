// The commands: a row for each, with its first word and the words that may come after it.

ghost use Rattle.std.specs.Prelude.{◌≡◌, bytes_eq, find, map};
ghost use Rattle.std.specs.Option.{option_map};
ghost use Rattle.p3l_opts.specs.Table.{entry_named, shown};

use crate::word::Value::{
    Capacity, Cert, Costs, Image, Items, Number, Output, Picks, Processes, Processors, Program,
    Recorded, Save, Schedule, Segments, Snapshot, Stats, Trace,
};
use crate::word::Word;
use crate::word::Word::{Flag, Mandatory, Optional, Positional};

/// The action of a command, named by its first word.
#[derive(Clone, Copy, Drop)]
pub enum Verb {
    Check,
    Fmt,
    Explain,
    Advise,
    Compile,
    Run,
    Exec,
    Migrate,
    Export,
    Graph,
    VerifyCert,
    CheckTrace,
    Gen,
    Rewrite,
    Profile,
    Time,
    Scan,
    Save,
    Resume,
}

/// A command: its action, its first word, and the words that may come after it.
pub type Entry = (Verb, &'static str, &'static [Word]);

/// All commands.
pub const COMMANDS: [(Verb, &str, &[Word]); 19] = [
    (Verb::Check, "check", &[Positional(Program)]),
    (Verb::Fmt, "fmt", &[Positional(Program)]),
    (
        Verb::Explain,
        "explain",
        &[
            Positional(Program),
            Mandatory(Processors),
            Optional(Costs),
            Optional(Cert),
        ],
    ),
    (
        Verb::Advise,
        "advise",
        &[
            Positional(Program),
            Optional(Processors),
            Optional(Costs),
            Flag(Processes),
        ],
    ),
    (
        Verb::Compile,
        "compile",
        &[
            Positional(Program),
            Mandatory(Processors),
            Mandatory(Output),
            Optional(Costs),
            Optional(Capacity),
        ],
    ),
    (
        Verb::Run,
        "run",
        &[
            Positional(Program),
            Mandatory(Processors),
            Optional(Costs),
            Optional(Schedule),
            Optional(Capacity),
            Optional(Trace),
            Flag(Stats),
        ],
    ),
    (
        Verb::Exec,
        "exec",
        &[
            Positional(Image),
            Optional(Schedule),
            Optional(Trace),
            Flag(Stats),
        ],
    ),
    (
        Verb::Migrate,
        "migrate",
        &[Positional(Image), Mandatory(Output)],
    ),
    (
        Verb::Export,
        "export",
        &[
            Positional(Program),
            Mandatory(Processors),
            Mandatory(Output),
            Optional(Costs),
            Optional(Capacity),
        ],
    ),
    (
        Verb::Graph,
        "graph",
        &[
            Positional(Program),
            Mandatory(Processors),
            Optional(Costs),
            Optional(Capacity),
        ],
    ),
    (
        Verb::VerifyCert,
        "verify-cert",
        &[Positional(Program), Mandatory(Cert), Optional(Costs)],
    ),
    (
        Verb::CheckTrace,
        "check-trace",
        &[
            Positional(Program),
            Mandatory(Processors),
            Mandatory(Trace),
            Optional(Costs),
            Optional(Capacity),
        ],
    ),
    (
        Verb::Gen,
        "gen",
        &[
            Positional(Number),
            Mandatory(Processors),
            Optional(Items),
            Optional(Schedule),
            Optional(Save),
        ],
    ),
    (
        Verb::Rewrite,
        "rewrite",
        &[Positional(Program), Mandatory(Processors), Optional(Costs)],
    ),
    (Verb::Profile, "profile", &[Positional(Program)]),
    (
        Verb::Time,
        "time",
        &[
            Positional(Program),
            Mandatory(Processors),
            Optional(Costs),
            Optional(Capacity),
            Optional(Picks),
        ],
    ),
    (
        Verb::Scan,
        "scan",
        &[
            Positional(Program),
            Mandatory(Segments),
            Optional(Schedule),
            Optional(Capacity),
            Flag(Stats),
        ],
    ),
    (
        Verb::Save,
        "save",
        &[
            Positional(Program),
            Mandatory(Processors),
            Mandatory(Recorded),
            Mandatory(Output),
            Optional(Costs),
            Optional(Capacity),
        ],
    ),
    (
        Verb::Resume,
        "resume",
        &[Positional(Snapshot), Optional(Schedule), Flag(Stats)],
    ),
];

/// Borrows the first of these commands whose first word this is.
fn entry_among<'a>(entries: &'a [Entry], word: &str) -> Option<&'a Entry>
    ensures { option_map (λ entry. entry.now) result
        ≡ find (λ entry. bytes_eq entry.1.now word.now) entries.entry.now }
{
    entries
        .iter()
        .find(|entry| entry.1.as_bytes() == word.as_bytes())
}

/// Returns the first of these commands whose first word this is.
fn entry_in(entries: &[Entry], word: &str) -> Option<Entry>
    ensures { option_map shown result
        ≡ find (λ entry. bytes_eq entry.1 word.now) (map shown entries.now) }
{
    match entry_among(entries, word) {
        Some(entry) => Some(*entry),
        None => None,
    }
}

/// Returns the command whose first word this is.
pub(crate) fn entry_named(word: &str) -> Option<Entry>
    ensures { option_map shown result ≡ entry_named word.now }
{
    entry_in(&COMMANDS, word)
}
