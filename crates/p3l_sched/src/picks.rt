// Picks in a text.

ghost use Rattle.std.specs.Prelude.{◌<◌, ◌≤◌, IfOk, length};
ghost use Rattle.std.specs.List.{AllByRecursion};
ghost use Rattle.p3l_sched.specs.Picks.{Reads};

use crate::refusal::PickRefusal;
use crate::word::{feeds_in, next_word, pick_of};
use p3l_base::List;
use std::alloc::Global;

/// The picks of a text, each a number of one of `count` processes, separated by spaces, tabs and
/// line ends. The first word that is no number of 64 bits, or names no process, decides.
pub fn read_picks(alloc: Global, text: &[u8], count: u32) -> Result<List<u32>, PickRefusal>
    ensures read { Reads text.now count result }
    ensures few { IfOk result (λ picks. length picks ≤ length text.now) }
    ensures below { IfOk result (AllByRecursion (λ pick. pick < count)) }
{
    let mut picks = List::new(alloc);
    let mut rest = text;
    let mut line: u64 = 1;
    while let Some((gap, word, after)) = next_word(rest) {
        line += feeds_in(gap);
        let pick = pick_of(word, line, count)?;
        picks.push(pick)?;
        rest = after;
    }
    Ok(picks)
}
