// The standard output, whose pieces are gathered and written together.

ghost use Rattle.std.specs.Prelude.{◌≡◌, true, is_err, OnOk};
ghost use Rattle.std.specs.Io.Buffered.{writer_contents};
ghost use Rattle.std.specs.Io.KnownBytes.{Appends, Keeps};

use crate::retry::flushed;
use p3l_base::NoMemory;
use p3l_io::Failed;
use std::alloc::Global;
use std::cell::RefCell;
use std::io::{BufWriter, Write};

/// The count of bytes that are gathered before they are written.
const CAPACITY: usize = 65_536;

/// A writer, the bytes that it was not given yet, and whether it has failed.
#[derive(Drop)]
struct Gathering<W: Write + Drop> {
    writer: BufWriter<W>,
    failed: bool,
}

impl<W: Write + Drop> Gathering<W> {
    /// Gathers a piece; what was gathered is written first where there is no room for it. After a
    /// failed write nothing is taken.
    fn put(&mut self, piece: &[u8]) -> Result<(), Failed>
        ensures bytes { OnOk result (Appends (writer_contents W.contents self.old.writer)
            (writer_contents W.contents self.new.writer) piece.now) }
        ensures failed { is_err result ≡ self.new.failed }
        ensures stays { self.old.failed ≡ true → self.new.failed ≡ true }
    {
        if !self.failed {
            self.failed = self.writer.write_all(piece).is_err();
        }
        self.answer()
    }

    /// Writes all that was gathered. After a failed write nothing more is written.
    fn flush(&mut self) -> Result<(), Failed>
        ensures bytes { OnOk result (Keeps (writer_contents W.contents self.old.writer)
            (writer_contents W.contents self.new.writer)) }
        ensures failed { is_err result ≡ self.new.failed }
        ensures stays { self.old.failed ≡ true → self.new.failed ≡ true }
    {
        if !self.failed {
            self.failed = flushed(&mut self.writer).is_err();
        }
        self.answer()
    }

    /// The fault, if there was one.
    fn answer(&self) -> Result<(), Failed>
        ensures { is_err result ≡ self.now.failed }
    {
        if self.failed { Err(Failed) } else { Ok(()) }
    }
}

/// The standard output. Its pieces are gathered, and written when there are 64 KiB of them and
/// where `flush` requests it: before the program waits for input, before a file or a line of the
/// standard error is written, and at its end. It is shared by those that put pieces and those that
/// come after them, so that contracts know nothing of what it has gathered.
///
/// A write that fails is reported by that call, and by each later one: no piece is lost in silence.
#[derive(Drop)]
pub struct Output<W: Write + Drop> {
    cell: RefCell<Gathering<W>>,
}

impl<W: Write + Drop> Output<W> {
    /// The output into a writer, as `rt.stdout()`, with its memory for what is gathered.
    pub fn new(alloc: Global, writer: W) -> Result<Output<W>, NoMemory> {
        match BufWriter::with_capacity(alloc, CAPACITY, writer) {
            Ok(writer) => Ok(Output {
                cell: RefCell::new(Gathering {
                    writer,
                    failed: false,
                }),
            }),
            Err(_) => Err(NoMemory),
        }
    }

    /// Takes a piece after those before.
    pub fn put(&self, piece: &[u8]) -> Result<(), Failed> {
        match self.cell.try_borrow_mut() {
            Ok(mut gathering) => gathering.put(piece),
            Err(_) => Err(Failed),
        }
    }

    /// Writes all pieces that were taken.
    pub fn flush(&self) -> Result<(), Failed> {
        match self.cell.try_borrow_mut() {
            Ok(mut gathering) => gathering.flush(),
            Err(_) => Err(Failed),
        }
    }
}
