// Texts of traces, read and written.

use p3l_base::{List, NoMemory};
use p3l_firing::ProcKind;
use p3l_trace::{TraceLine, TraceRefusal, Traced, read_trace, trace_text};
use std::alloc::Global;
use std::process::Abort;
use std::test::Fail;

/// A text, its lines, each with its pick and what fires, and the two numbers of its end.
type Written = (&'static [u8], &'static [(u32, Option<ProcKind>)], u64, u64);

const FEW: &[(u32, Option<ProcKind>)] = &[
    (0, Some(ProcKind::Source)),
    (2, Some(ProcKind::Run)),
    (1, Some(ProcKind::Sink)),
];

// Each kind, and the greatest pick.
const EACH: &[(u32, Option<ProcKind>)] = &[
    (0, Some(ProcKind::Source)),
    (1, Some(ProcKind::Sink)),
    (2, Some(ProcKind::Run)),
    (9, Some(ProcKind::Emit)),
    (10, Some(ProcKind::Collect)),
    (99, Some(ProcKind::Scatter)),
    (100, Some(ProcKind::Gather)),
    (4097, Some(ProcKind::Split)),
    (65_535, Some(ProcKind::FoldGather)),
    (65_536, Some(ProcKind::Join)),
    (999_999_999, Some(ProcKind::Head)),
    (1_000_000_000, Some(ProcKind::Tail)),
    (4_294_967_295, None),
];

const EACH_TEXT: &[u8] =
    b"p3l-trace 1\n0 source\n1 sink\n2 run\n9 emit\n10 collect\n99 scatter\n100 gather\n4097 split\n65535 fold-gather\n65536 join\n999999999 head\n1000000000 tail\n4294967295 idle\nend 18446744073709551615 18446744073709551614\n";

const TEXTS: [Written; 4] = [
    (
        b"p3l-trace 1\n0 source\n2 run\n1 sink\nend 3 0\n",
        FEW,
        3,
        0,
    ),
    (b"p3l-trace 1\nend 0 0\n", &[], 0, 0),
    (b"p3l-trace 1\n7 idle\nend 12 345\n", &[(7, None)], 12, 345),
    (
        EACH_TEXT,
        EACH,
        18_446_744_073_709_551_615,
        18_446_744_073_709_551_614,
    ),
];

/// A trace of these lines and counts.
fn traced(
    alloc: Global,
    rows: &[(u32, Option<ProcKind>)],
    fired: u64,
    idle: u64,
) -> Result<Traced, NoMemory> {
    let mut lines = List::new(alloc);
    for (pick, kind) in rows {
        lines.push(TraceLine {
            pick: *pick,
            kind: *kind,
        })?;
    }
    Ok(Traced { lines, fired, idle })
}

/// A text must be read as this trace.
fn must_read(rt: &impl Abort, alloc: Global, text: &[u8], trace: &Traced) {
    match read_trace(alloc, text) {
        Ok(read) => {
            assert!(rt; read.lines.as_slice() == trace.lines.as_slice());
            assert_eq!(rt; read.fired, trace.fired);
            assert_eq!(rt; read.idle, trace.idle);
        }
        Err(_) => assert!(rt; false),
    }
}

/// Each text must be read as its lines and counts, and these must be written as it is.
fn both_ways(rt: &impl Abort, alloc: Global, table: &[Written]) -> Result<(), NoMemory> {
    for (text, rows, fired, idle) in table {
        let trace = traced(alloc, rows, *fired, *idle)?;
        must_read(rt, alloc, text, &trace);
        let written = trace_text(alloc, &trace)?;
        assert!(rt; written.as_slice() == *text);
    }
    Ok(())
}

#[test]
fn texts_are_read_and_written(rt: HostRuntime) -> Result<(), Fail> {
    Ok(both_ways(&rt, rt.alloc(), &TEXTS)?)
}

#[test]
fn no_front_of_a_text_is_read(rt: HostRuntime) -> Result<(), Fail> {
    let alloc = rt.alloc();
    for length in 0..EACH_TEXT.len() {
        let front = &EACH_TEXT[..length];
        let feeds = front.iter().filter(|byte| **byte == b'\n').count() as u64;
        match read_trace(alloc, front) {
            Err(TraceRefusal::BadLine { line }) => assert_eq!(rt; line, feeds.saturating_add(1)),
            _ => assert!(rt; false),
        }
    }
    Ok(())
}
