// The file system, a reader to its end, and the standard streams.

use crate::lists::{is_read, takes};
use p3l_base::List;
use p3l_host::{HostErr, HostFiles, HostIn, HostOut, Output, SinkAfter, SourceAfter};
use p3l_io::{Failed, FileFault, Files, MemSink, Sink, Source, WriteFault};
use std::alloc::Global;
use std::cell::Cell;
use std::io::{ErrorKind, Read, Write};
use std::test::Fail;
use std::{fs, io};

/// Returns true exactly if a file is written, written again by fewer bytes, and read back within a
/// limit.
fn are_kept<F: Files>(alloc: Global, files: &mut F, name: &str) -> bool {
    files.write(alloc, name, b"longer than it will be").is_ok()
        && files.write(alloc, name, b"abc").is_ok()
        && is_read(alloc, files, name, 3, Ok(b"abc"))
        && is_read(alloc, files, name, 2, Err(FileFault::TooLong))
}

/// Returns true exactly if faults are reported: of files that can't be opened, and after the
/// opening of others.
fn report_faults<F: Files>(alloc: Global, files: &mut F) -> bool {
    let nowhere = "p3l_host_no_such_directory/file";
    is_read(
        alloc,
        files,
        "p3l_host_no_such_file",
        9,
        Err(FileFault::Failed),
    ) && files.write(alloc, nowhere, b"abc") == Err(WriteFault::Failed)
        && is_read(alloc, files, ".", 9, Err(FileFault::Failed))
        && files.write(alloc, "/dev/full", b"abc") == Err(WriteFault::Failed)
}

#[test]
fn files_are_written_and_read_back(rt: HostRuntime) -> Result<(), Fail> {
    let name = "files_are_written_and_read_back.tmp";
    let output = Output::new(rt.alloc(), rt.stdout())?;
    let mut files = HostFiles::new(&rt, &output);
    assert!(rt; are_kept(rt.alloc(), &mut files, name));
    assert!(rt; report_faults(rt.alloc(), &mut files));
    fs::remove_file(&rt, name)?;
    Ok(())
}

/// Returns true exactly if a line is put to the output and another one to the error.
fn put_lines<W: Write + Drop, E: Write + Drop>(output: &Output<W>, error: E) -> bool {
    let mut error = HostErr::new(error);
    HostOut::new(output).put(b"written to the output\n").is_ok()
        && output.flush().is_ok()
        && error.put(b"written to the error\n").is_ok()
}

#[test]
fn streams_take_and_put(rt: HostRuntime) -> Result<(), Fail> {
    let mut input = HostIn::new(b"ab".as_slice());
    let mut buf = [0u8; 8];
    assert!(rt; takes(&mut input, &mut buf, Some(2), b"ab\0\0\0\0\0\0"));
    assert!(rt; takes(&mut input, &mut buf, Some(0), b"ab\0\0\0\0\0\0"));
    let output = Output::new(rt.alloc(), rt.stdout())?;
    assert!(rt; put_lines(&output, rt.stderr()));
    Ok(())
}

/// The first call is interrupted, the second is done, and each later one fails; so does a flush.
#[derive(Drop)]
struct Faulty {
    calls: u8,
}

impl Faulty {
    fn call(&mut self) -> io::Result<()> {
        self.calls = self.calls.saturating_add(1);
        match self.calls {
            1 => Err(ErrorKind::Interrupted.into()),
            2 => Ok(()),
            _ => Err(ErrorKind::Other.into()),
        }
    }
}

impl Read for Faulty {
    fn read(&mut self, buf: &mut [u8]) -> io::Result<usize> {
        self.call()?;
        if buf.is_empty() {
            return Ok(0);
        }
        buf[0] = b'a';
        Ok(1)
    }
}

impl Write for Faulty {
    fn write(&mut self, buf: &[u8]) -> io::Result<usize> {
        self.call()?;
        Ok(buf.len())
    }

    fn flush(&mut self) -> io::Result<()> {
        Err(ErrorKind::Other.into())
    }
}

#[test]
fn interrupted_calls_are_made_again_and_faults_are_reported(rt: HostRuntime) {
    let mut input = HostIn::new(Faulty { calls: 0 });
    let mut buf = [0u8; 8];
    assert!(rt; takes(&mut input, &mut buf, Some(1), b"a\0\0\0\0\0\0\0"));
    assert!(rt; takes(&mut input, &mut buf, None, b"a\0\0\0\0\0\0\0"));
    assert!(rt; HostErr::new(Faulty { calls: 0 }).put(b"ab") == Err(Failed));
}

/// The bytes that a writer was given, its calls, and the bytes that it takes until it fails.
#[derive(Drop)]
struct Account {
    bytes: Cell<usize>,
    calls: Cell<usize>,
    room: usize,
}

/// A writer that keeps an account.
#[derive(Drop)]
struct Accountant<'a> {
    account: &'a Account,
}

impl<'a> Write for Accountant<'a> {
    fn write(&mut self, buf: &[u8]) -> io::Result<usize> {
        let bytes = self.account.bytes.get().saturating_add(buf.len());
        if bytes > self.account.room {
            return Err(ErrorKind::Other.into());
        }
        self.account.bytes.set(bytes);
        self.account
            .calls
            .set(self.account.calls.get().saturating_add(1));
        Ok(buf.len())
    }

    fn flush(&mut self) -> io::Result<()> {
        Ok(())
    }
}

impl Account {
    /// An account of nothing yet, with this much room.
    fn new(room: usize) -> Account {
        Account {
            bytes: Cell::new(0),
            calls: Cell::new(0),
            room,
        }
    }

    /// Returns the number of bytes taken, and the number of calls.
    fn counts(&self) -> (usize, usize) {
        (self.bytes.get(), self.calls.get())
    }
}

/// An output into a writer that keeps an account, with a line that was gathered.
fn gathered<'a>(rt: &HostRuntime, account: &'a Account) -> Result<Output<Accountant<'a>>, Fail> {
    let output = Output::new(rt.alloc(), Accountant { account })?;
    let _ = output.put(b"one\n");
    Ok(output)
}

/// Returns what a read of the input answers that comes after an output.
fn read_after(output: &Output<Accountant>) -> Result<usize, Failed> {
    let mut input = SourceAfter::new(HostIn::new(b"ab".as_slice()), output);
    let mut buf = [0u8; 8];
    input.take(&mut buf)
}

/// Tells whether a line of the standard error is put that comes after an output.
fn puts_a_line(rt: &HostRuntime, output: &Output<Accountant>) -> Result<bool, Fail> {
    let sink = MemSink::new(rt.alloc(), 9, List::new(rt.alloc()))?;
    Ok(SinkAfter::new(sink, output).put(b"an error").is_ok())
}

/// Returns what the writing of a file answers that comes after an output.
fn file_after(rt: &HostRuntime, output: &Output<Accountant>, name: &str) -> Result<(), WriteFault> {
    HostFiles::new(rt, output).write(rt.alloc(), name, b"a file")
}

/// Tells whether all that was put on an output is written before each of what comes after it.
fn is_written_before(
    rt: &HostRuntime,
    output: &Output<Accountant>,
    account: &Account,
    name: &str,
) -> Result<bool, Fail> {
    let is_gathered = HostOut::new(output).put(b"two\n").is_ok() && account.counts() == (0, 0);
    let before_a_read = read_after(output) == Ok(2) && account.counts() == (8, 1);
    let _ = output.put(b"three\n");
    let before_a_line = puts_a_line(rt, output)? && account.counts() == (14, 2);
    let _ = output.put(b"four\n");
    let before_a_file = file_after(rt, output, name) == Ok(()) && account.counts() == (19, 3);
    Ok(is_gathered && before_a_read && before_a_line && before_a_file)
}

#[test]
fn output_is_gathered_until_something_comes_after_it(rt: HostRuntime) -> Result<(), Fail> {
    let name = "output_is_gathered.tmp";
    let account = Account::new(1_000_000);
    let output = gathered(&rt, &account)?;
    assert!(rt; is_written_before(&rt, &output, &account, name)?);
    fs::remove_file(&rt, name)?;
    Ok(())
}

#[test]
fn output_is_gathered_until_it_is_full(rt: HostRuntime) -> Result<(), Fail> {
    let account = Account::new(1_000_000);
    let output = gathered(&rt, &account)?;
    for _ in 0..20_000u32 {
        let _ = output.put(b"gathered\n");
    }
    assert!(rt; account.calls.get() == 2);
    assert!(rt; output.flush() == Ok(()) && account.counts() == (180_004, 3));
    Ok(())
}

/// Tells whether an output whose write fails reports it by each call after that of a read.
fn reports_each_time(rt: &HostRuntime, output: &Output<Accountant>) -> Result<bool, Fail> {
    let is_read_from = read_after(output) == Ok(2);
    let is_put = output.put(b"t").is_ok() || puts_a_line(rt, output)?;
    let mut files = HostFiles::new(rt, output);
    let fails_for_files = files.write(rt.alloc(), "name", b"a file") == Err(WriteFault::Failed)
        && is_read(rt.alloc(), &mut files, "name", 9, Err(FileFault::Failed));
    Ok(is_read_from && !is_put && fails_for_files && output.flush() == Err(Failed))
}

#[test]
fn failed_write_is_reported_by_each_later_call(rt: HostRuntime) -> Result<(), Fail> {
    let account = Account::new(3);
    let output = gathered(&rt, &account)?;
    assert!(rt; reports_each_time(&rt, &output)?);
    assert!(rt; account.counts() == (0, 0));
    Ok(())
}

/// Tells whether an output reports the write that fails when this comes after what was gathered: a
/// piece for which there is no room, a line of the standard error, a file or the end.
fn reports(rt: &HostRuntime, output: &Output<Accountant>, what: &str) -> Result<bool, Fail> {
    match what {
        "a piece" => Ok(output.put(&[b'1'; 65_533]) == Err(Failed)),
        "a line" => Ok(!puts_a_line(rt, output)?),
        "a file" => Ok(file_after(rt, output, "name") == Err(WriteFault::Failed)),
        _ => Ok(output.flush() == Err(Failed)),
    }
}

/// The same of a new output into this account.
fn reports_anew(rt: &HostRuntime, account: &Account, what: &str) -> Result<bool, Fail> {
    let output = gathered(rt, account)?;
    reports(rt, &output, what)
}

#[test]
fn failed_write_is_reported_whenever_it_is_made(rt: HostRuntime) -> Result<(), Fail> {
    let account = Account::new(0);
    for what in ["a piece", "a line", "a file", "the end"] {
        assert!(rt; reports_anew(&rt, &account, what)?, "{what}");
    }
    assert!(rt; account.counts() == (0, 0));
    Ok(())
}
