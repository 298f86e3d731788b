// The writing of the one text of a command.

ghost use Rattle.std.specs.Prelude.{Bool};
ghost use Rattle.p3l_io.specs.Change.{change};
ghost use Rattle.p3l_program.specs.Text.{IsWritten};
ghost use Rattle.p3l_program.specs.Wants.{Wants};

use crate::verdict::fault_verdict;
use p3l_io::Sink;
use p3l_report::{Finish, Verdict};
use p3l_run::write::write;

/// Writes the text of a command, which ends it.
pub fn write_text<K: Sink>(text: &[u8], out: &mut K) -> Verdict
    ensures written { IsWritten (change (K.observed out.old) (K.observed out.new)) text.now result }
    ensures wants { (files : Bool) → Wants files result }
{
    match write(out, text) {
        Ok(()) => Verdict::Ended(Finish::Done, None),
        Err(fault) => fault_verdict(fault),
    }
}
