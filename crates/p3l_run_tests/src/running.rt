// Runs of a network of three processes: 0 is the source, 1 the sink, and 2 runs the body.

ghost use Rattle.std.specs.Prelude.{◌≡◌};
ghost use Rattle.p3l_sketch.specs.OneNode.{one_node};

use crate::network::{Sched, run_on, schedule_of};
use p3l_base::List;
use p3l_io::{MemSink, MemSource, PutFail};
use p3l_run::{Keeping, Ran, RunEnd, RunFault};
use p3l_skel::Units;
use p3l_sketch::{Echo, Refusing};
use p3l_stream::Ending;
use std::alloc::Global;
use std::fmt;
use std::fmt::{Display, Formatter};
use std::process::Abort;
use std::test::Fail;

/// The list of these items.
fn list<T: Copy + Drop>(alloc: Global, items: &[T]) -> Result<List<T>, Fail> {
    Ok(List::from_vec(Vec::from_slice(alloc, items)?))
}

/// The end of a run, as a text.
#[derive(Clone, Copy)]
struct Shown<'a>(&'a Result<Ran, RunFault>);

impl<'a> Display for Shown<'a> {
    fn fmt<W: fmt::Write>(&self, f: &mut Formatter<W>) -> fmt::Result {
        match self.0 {
            Ok(ran) => show(ran, f),
            Err(RunFault::Write) => f.write_str("write fault"),
            Err(RunFault::NoMemory) => f.write_str("no memory"),
        }
    }
}

/// Writes the numbers of a run, and how it ended.
fn show<W: fmt::Write>(ran: &Ran, f: &mut Formatter<W>) -> fmt::Result {
    let items = ran.stats.items;
    let fired = ran.stats.fired;
    let idle = ran.stats.idle;
    let bound = ran.stats.bound;
    write!(f, "{items} {fired} {idle} {bound} ")?;
    match &ran.finish {
        RunEnd::Stopped { fired, idle } => write!(f, "stopped {fired} {idle}"),
        RunEnd::Trapped { item, module, .. } => write!(f, "trap {item} {}", module.as_str()),
        RunEnd::Stream(ending) => f.write_str(ending_shown(*ending)),
    }
}

fn ending_shown(ending: Ending) -> &'static str {
    match ending {
        Ending::End => "end",
        Ending::ReadFault => "read fault",
        Ending::TooLong => "too long",
        _ => "refused",
    }
}

/// The input and the output of a run.
#[derive(Drop)]
struct Ends {
    source: MemSource,
    sink: MemSink,
}

/// A source of these bytes that gives at most `piece` of them at once, and a sink with this much
/// room; with their calls that fail.
fn ends_of(
    alloc: Global,
    input: &[u8],
    piece: usize,
    room: usize,
    takes: &[u64],
    puts: &[PutFail],
) -> Result<Ends, Fail> {
    let bytes = list(alloc, input)?;
    let source = MemSource::new(bytes, piece.max(1), list(alloc, takes)?);
    let sink = MemSink::new(alloc, room, list(alloc, puts)?)?;
    Ok(Ends { source, sink })
}

/// The end of a run whose lines are not kept, as a text.
fn ended<U: Units>(
    rt: &impl Abort,
    alloc: Global,
    units: &U,
    sched: Sched,
    ends: &mut Ends,
) -> Result<String, Fail>
    requires { U.tree units.now ≡ one_node }
{
    let schedule = schedule_of(rt, alloc, sched)?;
    let source = &mut ends.source;
    let ran = run_on(
        alloc,
        units,
        schedule,
        Keeping::Nothing,
        source,
        &mut ends.sink,
    );
    Ok(format!(in alloc; "{}", Shown(&ran))?)
}

/// A run on these bytes, given one by one, by a source that fails at these calls, must end so, with
/// this text written; gives how often the source was called.
fn run_under<U: Units>(
    rt: &impl Abort,
    alloc: Global,
    units: &U,
    sched: Sched,
    input: &[u8],
    takes: &[u64],
    how: &str,
    text: &[u8],
) -> Result<u64, Fail>
    requires { U.tree units.now ≡ one_node }
{
    let mut ends = ends_of(alloc, input, 1, 1024, takes, &[])?;
    let shown = ended(rt, alloc, units, sched, &mut ends)?;
    assert!(rt;
        shown.as_str() == how && ends.sink.taken() == text,
        "{shown}"
    );
    Ok(ends.source.calls())
}

#[test]
fn each_schedule_runs_item_by_item(rt: HostRuntime) -> Result<(), Fail> {
    let three: &[u8] = b"1\n2\n-3\n";
    let table: [(Sched, &[u8], &str, &[u8], u64); 10] = [
        (Sched::Turns, three, "3 9 0 9 end", three, 8),
        (Sched::Turns, b"", "0 0 0 0 end", b"", 1),
        (Sched::Seed(1), three, "3 9 0 9 end", three, 8),
        (Sched::Seed(2), three, "3 9 0 9 end", three, 8),
        (
            Sched::Picks(b"0 2 0 1"),
            three,
            "2 4 0 6 stopped 4 0",
            b"1\n",
            7,
        ),
        (Sched::Picks(b"1 1 0"), three, "1 1 2 3 stopped 1 2", b"", 4),
        (Sched::Picks(b""), three, "0 0 0 0 stopped 0 0", b"", 2),
        (
            Sched::Picks(b"0 2 1 0 2 1 0 2 1"),
            three,
            "3 9 0 9 end",
            three,
            8,
        ),
        (
            Sched::Picks(b"0 2 1 0 2 1 0 2 1 1 1"),
            three,
            "3 9 0 9 end",
            three,
            8,
        ),
        (
            Sched::Turns,
            b"1\n2\n1 x\n4\n",
            "2 6 0 6 refused",
            b"1\n2\n",
            8,
        ),
    ];
    for (schedule, input, how, text, calls) in table {
        let taken = run_under(&rt, rt.alloc(), &Echo, schedule, input, &[], how, text)?;
        assert!(rt; taken == calls, "{how}");
    }
    Ok(())
}

#[test]
fn no_item_is_requested_before_the_network_wants_it(rt: HostRuntime) -> Result<(), Fail> {
    let alloc = rt.alloc();
    let lines: &[u8] = b"5\n5\n5\n5\n5\n5\n5\n5\n5\n5\n5\n5\n5\n5\n5\n5\n";
    let table: [(Sched, &str, u64); 5] = [
        (Sched::Turns, "2 4 0 6 trap 1 main", 6),
        (Sched::Seed(0), "1 3 0 3 trap 1 main", 4),
        (Sched::Seed(1), "2 5 0 6 trap 1 main", 6),
        (Sched::Seed(7), "5 7 0 15 trap 1 main", 12),
        (Sched::Seed(18446744073709551615), "3 7 0 9 trap 1 main", 8),
    ];
    for (sched, how, calls) in table {
        let taken = run_under(&rt, alloc, &Refusing, sched, lines, &[], how, b"")?;
        assert!(rt; taken == calls, "{how}");
    }
    Ok(())
}

#[test]
fn a_fault_of_each_take_ends_the_stream(rt: HostRuntime) -> Result<(), Fail> {
    let three: &[u8] = b"1\n2\n-3\n";
    let table: [(u64, &str, &[u8]); 9] = [
        (1, "0 0 0 0 read fault", b""),
        (2, "0 0 0 0 read fault", b""),
        (3, "1 3 0 3 read fault", b"1\n"),
        (4, "1 3 0 3 read fault", b"1\n"),
        (5, "2 6 0 6 read fault", b"1\n2\n"),
        (6, "2 6 0 6 read fault", b"1\n2\n"),
        (7, "2 6 0 6 read fault", b"1\n2\n"),
        (8, "3 9 0 9 read fault", b"1\n2\n-3\n"),
        (9, "3 9 0 9 end", b"1\n2\n-3\n"),
    ];
    for (call, how, text) in table {
        run_under(
            &rt,
            rt.alloc(),
            &Echo,
            Sched::Turns,
            three,
            &[call],
            how,
            text,
        )?;
    }
    Ok(())
}

#[test]
fn a_fault_of_each_put_ends_the_run(rt: HostRuntime) -> Result<(), Fail> {
    let table: [(u64, usize, &[u8]); 4] = [
        (1, 0, b""),
        (2, 0, b"1\n"),
        (2, 1, b"1\n2"),
        (3, 0, b"1\n2\n"),
    ];
    let alloc = rt.alloc();
    for (call, prefix, text) in table {
        let puts = [PutFail { call, prefix }];
        let mut ends = ends_of(alloc, b"1\n2\n-3\n", 4096, 1024, &[], &puts)?;
        let shown = ended(&rt, alloc, &Echo, Sched::Turns, &mut ends)?;
        assert!(rt;
            shown.as_str() == "write fault" && ends.sink.taken() == text,
            "{shown}"
        );
    }
    Ok(())
}

/// More items than any other test has.
const MANY: usize = 4_100_000;

#[test]
fn four_million_items_are_run(rt: HostRuntime) -> Result<(), Fail> {
    let alloc = rt.alloc();
    let text = "1\n".repeat(alloc, MANY)?;
    let mut ends = ends_of(alloc, text.as_str().as_bytes(), 4096, 16_777_216, &[], &[])?;
    let shown = ended(&rt, alloc, &Echo, Sched::Turns, &mut ends)?;
    assert!(rt; ends.sink.taken().len() == 2 * MANY, "{shown}");
    Ok(())
}
