// The pages of this program.

use crate::command::COMMANDS;
use crate::fault::{EVIDENCE, MODULES, RUNS, SHEETS, TEXTS};
use crate::handbook::Handbook;
use crate::language::LANGUAGE;
use crate::page::Page;
use crate::program::{PROGRAM, STATUS, VERSION};

/// All pages.
pub fn all_pages() -> Handbook {
    Handbook {
        commands: commands(),
        topics: topics(),
        texts: texts(),
        modules: modules(),
        sheets: sheets(),
        evidence: evidence(),
        runs: runs(),
    }
}

// Each table is named in a function of its own, and those of numbers are five: the proof of a
// function that names a table compares all its pages with each other.

fn commands() -> &'static [Page] {
    COMMANDS
}

fn topics() -> &'static [Page] {
    TOPICS
}

fn texts() -> &'static [Page] {
    TEXTS
}

fn modules() -> &'static [Page] {
    MODULES
}

fn sheets() -> &'static [Page] {
    SHEETS
}

fn evidence() -> &'static [Page] {
    EVIDENCE
}

fn runs() -> &'static [Page] {
    RUNS
}

/// A page for each topic that is no command and no number.
const TOPICS: &[Page] = &[
    Page {
        topic: "help",
        text: PROGRAM,
    },
    Page {
        topic: "status",
        text: STATUS,
    },
    Page {
        topic: "language",
        text: LANGUAGE,
    },
    Page {
        topic: "version",
        text: VERSION,
    },
];
