// Commands as `clap` reads them.

ghost use Rattle.std.specs.Prelude.{◌≡◌, false};
ghost use Rattle.p3l_base.specs.Memory.{IfGiven};
ghost use Rattle.clap.specs.Words.{app_of, rule_of};
ghost use Rattle.p3l_opts.specs.App.{app_for, rule_for};
ghost use Rattle.p3l_opts.specs.Table.{shown};

use crate::table::Entry;
use crate::word::Word;
use clap::{Arg, ArgAction, Command};
use p3l_base::NoMemory;
use std::alloc::Global;

/// Returns what is declared to `clap` of a word.
fn arg_for<'a>(alloc: Global, word: Word) -> Arg<'a>
    ensures rule { rule_of result ≡ rule_for word }
    ensures local { result.global ≡ false }
{
    match word {
        Word::Positional(value) => Arg::new(alloc, value.name()).required(true),
        Word::Mandatory(value) => {
            Arg::new(alloc, value.name())
                .long(value.name())
                .required(true)
        }
        Word::Optional(value) => Arg::new(alloc, value.name()).long(value.name()),
        Word::Flag(value) => {
            Arg::new(alloc, value.name())
                .long(value.name())
                .action(ArgAction::SetTrue)
        }
    }
}

/// Returns the command of `clap` that reads the words of a command.
pub(crate) fn clap_command<'a>(alloc: Global, listed: Entry) -> Result<Command<'a>, NoMemory>
    ensures { IfGiven result (λ command. app_of command ≡ app_for (shown listed.entry)) }
{
    let (_, name, words) = listed;
    let mut command = Command::new(alloc, name);
    'words: for word in words {
        command = command.arg(arg_for(alloc, *word))?;
    }
    Ok(command)
}
