// The network of the tree of one node: a source, a sink and the body between them.

ghost use Rattle.std.specs.Prelude.{◌≡◌, ◌<◌, ◌^◌, IfOk};
ghost use Rattle.p3l_sketch.specs.OneNode.{one_node};
ghost use Rattle.p3l_sched.specs.Picker.{NamesProcesses, recorded};

use p3l_io::{MemSink, MemSource};
use p3l_net::laws::{the_net_of_one_unit_has_invariants, the_net_of_one_unit_is_typed};
use p3l_net::unit_net;
use p3l_run::run::run;
use p3l_run::{Keeping, Plan, Ran, RunFault};
use p3l_sched::{Schedule, read_picks};
use p3l_skel::Units;
use p3l_sketch::tree_of_one;
use std::alloc::Global;
use std::process::Abort;
use std::test::Fail;

/// A schedule of a table.
#[derive(Clone, Copy)]
pub enum Sched {
    Turns,
    Seed(u64),
    Picks(&'static [u8]),
}

/// The schedule that a table names, for three processes.
pub fn schedule_of(rt: &impl Abort, alloc: Global, sched: Sched) -> Result<Schedule, Fail>
    ensures named { IfOk result (NamesProcesses 3) }
    ensures few { IfOk result (λ schedule. recorded schedule < 2 ^ 63) }
{
    let text = match sched {
        Sched::Turns => return Ok(Schedule::RoundRobin),
        Sched::Seed(seed) => return Ok(Schedule::Seeded(seed)),
        Sched::Picks(text) => text,
    };
    let picks = read_picks(alloc, text, 3)?;
    assert!(rt; picks.len() < 1000);
    Ok(Schedule::Recorded(picks))
}

/// Runs the network under a schedule.
pub fn run_on<U: Units>(
    alloc: Global,
    units: &U,
    schedule: Schedule,
    keeping: Keeping,
    input: &mut MemSource,
    out: &mut MemSink,
) -> Result<Ran, RunFault>
    requires units { U.tree units.now ≡ one_node }
    requires named { NamesProcesses 3 schedule }
    requires few { recorded schedule < 2 ^ 63 }
{
    the_net_of_one_unit_is_typed();
    the_net_of_one_unit_has_invariants();
    let tree = tree_of_one(alloc)?;
    let net = unit_net(alloc, 4)?;
    let plan = Plan {
        tree: &tree,
        units,
        net,
        firings: 3,
        width: 1,
    };
    run(alloc, plan, schedule, keeping, input, out)
}
