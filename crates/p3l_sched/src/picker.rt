// Picks of the next process.

ghost use Rattle.std.specs.Prelude.{◌≡◌, ◌≢◌, ◌<◌, ◌+◌, ◌%◌, [], Some, IfSome, length, find, slice_get};
ghost use Rattle.std.specs.Option.{option_map_or};
ghost use Rattle.p3l_net.specs.Machine.{can_step, ready_list};
ghost use Rattle.p3l_ready.specs.Flags.{in_turn};
ghost use Rattle.p3l_sched.specs.Picker.{HasPlace, HasProcesses, begun, next_after, pick_of};
ghost use Rattle.rand_core.specs.Pcg32Seed.{pcg32_seed};
ghost use Rattle.rand_pcg.specs.Pcg.{pcg32, pcg32_of_seed};

use crate::recording::Recording;
use crate::schedule::Schedule;
use p3l_net::Machine;
use rand_core::SeedableRng;
use rand_core::utils::NextWord;
use rand_pcg::Lcg64Xsh32;
use std::marker::Model;

/// The source of the next pick.
#[derive(Drop)]
pub(crate) enum Way {
    /// The process that comes first in turn.
    Turns(u32),
    /// The generator, which draws.
    Draws(Lcg64Xsh32),
    /// The picks that are left.
    Reads(Recording),
}

/// Picks processes of a machine, one after another, as a schedule says.
///
/// Contracts see what the next pick is made by: the cursor of the turns, the generator, or the
/// recorded picks that are left.
#[derive(Drop)]
pub struct Picker {
    way: Way,
}

impl Model for Picker {
    ghost use Rattle.p3l_sched.specs.declared.picker.Way.{Way};

    ghost Value = { Way };

    ghost view = { λ it. it.way };
}

impl Picker {
    /// A picker that has made no pick.
    pub fn new(schedule: Schedule) -> Picker
        ensures { result ≡ begun schedule }
    {
        let way = match schedule {
            Schedule::RoundRobin => Way::Turns(0),
            Schedule::Seeded(seed) => Way::Draws(Lcg64Xsh32::seed_from_u64(seed)),
            Schedule::Recorded(picks) => Way::Reads(Recording::new(picks)),
        };
        Picker { way }
    }

    /// The next pick, where some process can fire; None exactly where recorded picks are ended.
    #[inline(always)]
    pub fn pick(&mut self, machine: &Machine<'_>) -> Option<u32>
        requires ready { ready_list machine.now ≢ [] }
        requires place { HasPlace (length machine.now.net.procs) self.old }
        ensures pick { result
            ≡ pick_of (can_step machine.now) (length machine.now.net.procs) self.old }
        ensures after { self.new ≡ next_after (length machine.now.net.procs) self.old result }
        ensures place { HasPlace (length machine.now.net.procs) self.new }
        ensures there { HasProcesses (length machine.now.net.procs) self.old
            → IfSome result (λ p. p < length machine.now.net.procs) }
    {
        match &mut self.way {
            Way::Turns(cursor) => take_turn(cursor, machine),
            Way::Draws(generator) => Some(draw(generator, machine)),
            Way::Reads(recording) => recording.take(),
        }
    }
}

/// The first process at or after the cursor, cyclically, that can fire; the cursor moves after it.
#[inline(always)]
fn take_turn(cursor: &mut u32, machine: &Machine<'_>) -> Option<u32>
    requires { cursor.old < length machine.now.net.procs }
    ensures pick { result
        ≡ find (can_step machine.now) (in_turn (length machine.now.net.procs) cursor.old) }
    ensures after { cursor.new
        ≡ option_map_or (λ p. (p + 1) % length machine.now.net.procs) result cursor.old }
    ensures place { cursor.new < length machine.now.net.procs }
    ensures there { IfSome result (λ p. p < length machine.now.net.procs) }
{
    let size = machine.size();
    let process = machine.next_ready(*cursor)?;
    *cursor = after(process, size);
    Some(process)
}

/// The process after this one in turn, of `size` of them, without a division: it would cost as
/// much as the rest of a pick.
fn after(process: u32, size: u32) -> u32
    requires { process < size }
    ensures { result ≡ (process + 1) % size }
{
    if process + 1 == size { 0 } else { process + 1 }
}

/// One of the processes that can fire, drawn by the next word of a generator.
fn draw(generator: &mut Lcg64Xsh32, machine: &Machine<'_>) -> u32
    requires { ready_list machine.now ≢ [] }
    ensures pick { slice_get (ready_list machine.now)
        ((pcg32 generator.old).0 % length (ready_list machine.now)) ≡ Some result }
    ensures after { generator.new ≡ (pcg32 generator.old).1 }
    ensures there { result < length machine.now.net.procs }
{
    let word = generator.next_word();
    machine.ready_at(word % machine.ready())
}
