// The lines that are kept of runs of a network of three processes, and the sums of their words.

ghost use Rattle.std.specs.Prelude.{◌≡◌};
ghost use Rattle.p3l_sketch.specs.OneNode.{one_node};

use crate::network::{Sched, run_on, schedule_of};
use p3l_base::List;
use p3l_firing::ProcKind;
use p3l_io::{MemSink, MemSource};
use p3l_run::Keeping;
use p3l_skel::Units;
use p3l_sketch::{Echo, Refusing};
use p3l_trace::TraceLine;
use std::alloc::Global;
use std::process::Abort;
use std::test::Fail;

/// The line of a firing.
fn fired(pick: u32, kind: ProcKind) -> TraceLine {
    TraceLine {
        pick,
        kind: Some(kind),
    }
}

/// The line of an idle pick.
fn idle(pick: u32) -> TraceLine {
    TraceLine { pick, kind: None }
}

/// A run on these bytes: its lines, if they are kept, and its sum.
fn traced_of<U: Units>(
    rt: &impl Abort,
    alloc: Global,
    units: &U,
    sched: Sched,
    keeping: Keeping,
    input: &[u8],
) -> Result<Option<(Option<List<TraceLine>>, i64)>, Fail>
    requires { U.tree units.now ≡ one_node }
{
    let bytes = List::from_vec(Vec::from_slice(alloc, input)?);
    let mut source = MemSource::new(bytes, 3, List::new(alloc));
    let mut sink = MemSink::new(alloc, 1024, List::new(alloc))?;
    let schedule = schedule_of(rt, alloc, sched)?;
    Ok(
        match run_on(alloc, units, schedule, keeping, &mut source, &mut sink) {
            Ok(ran) => Some((ran.lines, ran.sum)),
            Err(_) => None,
        },
    )
}

/// Returns true exactly if these lines were kept, and this is the sum.
fn is_traced(
    traced: &Option<(Option<List<TraceLine>>, i64)>,
    lines: &[TraceLine],
    sum: i64,
) -> bool {
    match traced {
        Some((Some(kept), total)) => kept.as_slice() == lines && *total == sum,
        _ => false,
    }
}

#[test]
fn each_pick_is_a_line(rt: HostRuntime) -> Result<(), Fail> {
    // The sink can't fire at first, and the body not before the source.
    let traced = traced_of(
        &rt,
        rt.alloc(),
        &Echo,
        Sched::Picks(b"1 0 2 2 1 0"),
        Keeping::Lines,
        b"5\n-7\n9\n",
    )?;
    let lines = [
        idle(1),
        fired(0, ProcKind::Source),
        fired(2, ProcKind::Run),
        idle(2),
        fired(1, ProcKind::Sink),
        fired(0, ProcKind::Source),
    ];
    assert!(rt; is_traced(&traced, &lines, 5));
    Ok(())
}

#[test]
fn a_whole_run_is_kept(rt: HostRuntime) -> Result<(), Fail> {
    let traced = traced_of(
        &rt,
        rt.alloc(),
        &Echo,
        Sched::Turns,
        Keeping::Lines,
        b"9223372036854775807\n3\n",
    )?;
    let lines = [
        fired(0, ProcKind::Source),
        fired(2, ProcKind::Run),
        fired(0, ProcKind::Source),
        fired(1, ProcKind::Sink),
        fired(2, ProcKind::Run),
        fired(1, ProcKind::Sink),
    ];
    assert!(rt; is_traced(&traced, &lines, -9223372036854775806));
    Ok(())
}

#[test]
fn a_trap_has_no_words(rt: HostRuntime) -> Result<(), Fail> {
    let traced = traced_of(
        &rt,
        rt.alloc(),
        &Refusing,
        Sched::Picks(b"0 2 1"),
        Keeping::Lines,
        b"5\n",
    )?;
    let lines = [
        fired(0, ProcKind::Source),
        fired(2, ProcKind::Run),
        fired(1, ProcKind::Sink),
    ];
    assert!(rt; is_traced(&traced, &lines, 0));
    Ok(())
}

#[test]
fn no_line_is_kept_without_a_request(rt: HostRuntime) -> Result<(), Fail> {
    let traced = traced_of(
        &rt,
        rt.alloc(),
        &Echo,
        Sched::Turns,
        Keeping::Nothing,
        b"5\n-7\n",
    )?;
    assert!(rt; matches!(traced, Some((None, -2))));
    Ok(())
}
