// Agreement of the lines of a trace with a machine, and of its counts with the lines.

ghost use Rattle.std.specs.Prelude.{◌≡◌, ◌↔◌, List, IsTrue, not};
ghost use Rattle.p3l_base.specs.declared.outcome.Outcome.{Outcome};
ghost use Rattle.p3l_net.specs.Machine.{HasEmitted, state_of};
ghost use Rattle.p3l_trace.specs.Agreement.{AgreesIn, AgreesWith, IsCounted, fired_of, idle_of, is_kind};

use crate::trace::{TraceLine, Traced};
use p3l_firing::Net;
use p3l_net::Machine;

/// Tests that a line agrees with a machine, whose net is given: the process that it names is there, and
/// can fire and is of the line's kind, or can't fire and the line is an idle one.
pub fn agrees(line: &TraceLine, machine: &Machine<'_>, net: &Net) -> bool
    requires { net.now ≡ machine.now.net }
    ensures machine { IsTrue result ↔ AgreesWith machine.now line.now }
    ensures state { (emitted : List Outcome) → HasEmitted machine.now emitted
        → IsTrue result
        ↔ AgreesIn machine.now.tree net.now (state_of machine.now emitted) line.now }
{
    let Some(process) = net.procs.as_slice().get(line.pick as usize) else {
        return false;
    };
    if machine.can_step(line.pick) {
        return line.kind == Some(process.kind);
    }
    line.kind.is_none()
}

// Counts the lines of firings.
fn fired_of(lines: &[TraceLine]) -> u64
    ensures { result ≡ fired_of lines.now }
{
    lines.iter().filter(|line| line.kind.is_some()).count() as u64
}

// Counts the lines of idle picks.
fn idle_of(lines: &[TraceLine]) -> u64
    ensures { result ≡ idle_of lines.now }
{
    lines.iter().filter(|line| line.kind.is_none()).count() as u64
}

/// Tests that the counts of the last line are those of the others.
pub fn is_counted(traced: &Traced) -> bool
    ensures { IsTrue result ↔ IsCounted traced.now }
{
    let lines = traced.lines.as_slice();
    traced.fired == fired_of(lines) && traced.idle == idle_of(lines)
}
