// Counts of the calls of readers and writers: one for a piece, and another if they were
// interrupted.

use crate::lists::list;
use p3l_base::List;
use p3l_host::{HostErr, HostOut, Output};
use p3l_io::{MemSource, Sink};
use p3l_stream::{Lines, Next};
use std::alloc::Global;
use std::cell::Cell;
use std::io;
use std::io::{ErrorKind, Write};
use std::test::Fail;

/// Counts of the calls of a writer to write and to flush, and of the bytes that it was given.
#[derive(Drop)]
struct Calls {
    writes: Cell<usize>,
    bytes: Cell<usize>,
    flushes: Cell<usize>,
}

impl Calls {
    /// Nothing yet.
    fn new() -> Calls {
        Calls {
            writes: Cell::new(0),
            bytes: Cell::new(0),
            flushes: Cell::new(0),
        }
    }

    /// Returns true exactly if these many writes were given these many bytes, and these many
    /// flushes were made.
    fn are(&self, writes: usize, bytes: usize, flushes: usize) -> bool {
        self.writes.get() == writes && self.bytes.get() == bytes && self.flushes.get() == flushes
    }
}

/// One more in a cell, or several.
fn add(cell: &Cell<usize>, more: usize) {
    cell.set(cell.get().saturating_add(more));
}

/// A writer that takes all that it is given, and whose first flush is interrupted.
#[derive(Drop)]
struct Counting<'a> {
    calls: &'a Calls,
}

impl<'a> Write for Counting<'a> {
    fn write(&mut self, buf: &[u8]) -> io::Result<usize> {
        add(&self.calls.writes, 1);
        add(&self.calls.bytes, buf.len());
        Ok(buf.len())
    }

    fn flush(&mut self) -> io::Result<()> {
        add(&self.calls.flushes, 1);
        match self.calls.flushes.get() {
            1 => Err(ErrorKind::Interrupted.into()),
            _ => Ok(()),
        }
    }
}

#[test]
fn a_line_of_the_error_is_written_whole_by_one_call(rt: HostRuntime) {
    let calls = Calls::new();
    let mut err = HostErr::new(Counting { calls: &calls });
    assert!(rt; err.put(b"stopped: 4 fired, 0 idle\n").is_ok());
    assert!(rt; calls.are(1, 25, 2));
}

#[test]
fn an_interrupted_flush_is_no_fault(rt: HostRuntime) -> Result<(), Fail> {
    let calls = Calls::new();
    let output = Output::new(rt.alloc(), Counting { calls: &calls })?;
    assert!(rt; HostOut::new(&output).put(b"1\n").is_ok());
    assert!(rt; output.flush().is_ok());
    assert!(rt; calls.are(1, 2, 2));
    Ok(())
}

/// A source of five thousand items in ten thousand bytes.
fn long_source(alloc: Global) -> Result<MemSource, Fail> {
    let text = "1\n".repeat(alloc, 5_000)?;
    let bytes = list(alloc, text.as_str().as_bytes())?;
    Ok(MemSource::new(bytes, 16_384, List::new(alloc)))
}

/// Counts the items that a source gives.
fn items_in(alloc: Global, source: &mut MemSource) -> Result<usize, Fail> {
    let mut lines = Lines::new(alloc, 1, 1_000_000)?;
    let mut items: usize = 0;
    for _ in 0..6_000u32 {
        if let Next::Item(_) = lines.next(source)? {
            items = items.saturating_add(1);
        }
    }
    Ok(items)
}

/// Ten thousand bytes are three pieces of 4,096 at most; a fourth call finds the end.
#[test]
fn a_stream_is_taken_in_pieces(rt: HostRuntime) -> Result<(), Fail> {
    let mut source = long_source(rt.alloc())?;
    assert_eq!(rt; items_in(rt.alloc(), &mut source)?, 5_000);
    assert_eq!(rt; source.calls(), 4);
    Ok(())
}
