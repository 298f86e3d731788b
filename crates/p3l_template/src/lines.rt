// Lines of workers in a snapshot: the tokens behind, in and before each, without their outcomes.

ghost use Rattle.std.specs.Prelude.{◌≡◌, ◌++◌, ◌+◌, ◌≤◌, length};
ghost use Rattle.p3l_base.specs.Memory.{IfGiven};
ghost use Rattle.p3l_firing.specs.Shot.{HaveFewTags, state_of};
ghost use Rattle.p3l_template.specs.Finding.{line_of};
ghost use Rattle.p3l_template.specs.Lines.{lines_by};
ghost use Rattle.p3l_template.specs.Shape.{fan_slots};

use crate::bare::{add_bare, add_saved};
use crate::template::Ports;
use crate::workers::worker_slot;
use p3l_base::{List, NoMemory};
use p3l_firing::{Shot, Token};
use std::alloc::Global;

/// Puts the line of an inner part after other tokens, without their outcomes.
pub fn add_line(
    alloc: Global,
    shot: &Shot,
    to: &mut List<Token>,
    slot: &Ports,
    pending: &List<Token>,
) -> Result<(), NoMemory>
    requires { HaveFewTags shot.now }
    ensures { IfGiven result (λ _. to.new
        ≡ to.old ++ line_of (state_of shot.now) slot.now.input slot.now.output pending.now) }
{
    add_saved(alloc, to, shot.tokens(slot.output as usize))?;
    add_bare(alloc, to, pending.as_slice())?;
    add_saved(alloc, to, shot.tokens(slot.input as usize))
}

/// The lines of the workers, each without its outcomes, whose in channels are those from `chan` on.
pub fn all_lines(
    alloc: Global,
    shot: &Shot,
    chan: u32,
    workers: u32,
    inner: &[List<Token>],
) -> Result<List<List<Token>>, NoMemory>
    requires inner { length inner.now ≡ workers }
    requires room { chan + (workers + workers) ≤ 1048576 }
    requires few { HaveFewTags shot.now }
    ensures { IfGiven result (λ lines. lines
        ≡ lines_by (state_of shot.now) (fan_slots chan (chan + workers) workers) inner.now) }
{
    let mut lines = List::new(alloc);
    for worker in 0..workers {
        let slot = worker_slot(chan, workers, worker).ports();
        let mut line = List::new(alloc);
        add_line(alloc, shot, &mut line, &slot, &inner[worker as usize])?;
        lines.push(line)?;
    }
    Ok(lines)
}
