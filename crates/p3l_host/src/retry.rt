// Reads and writes, again where they were interrupted.

ghost use Rattle.std.specs.Prelude.{◌≡◌, ◌+◌, ◌-◌, ◌^◌, ◌≤◌, length, min, IfOk, OnOk, OnErr};
ghost use Rattle.std.specs.Io.KnownBytes.{Appends, Keeps, ReadConsumes};

use p3l_io::Failed;
use std::io::{ErrorKind, Read, Write};

/// Reads into `buf` once.
pub(crate) fn read_into<R: Read>(reader: &mut R, buf: &mut [u8]) -> Result<usize, Failed>
    ensures within { IfOk result (λ count. count ≤ length buf.new) }
    ensures bytes { ReadConsumes (R.remaining reader.old) (R.remaining reader.new) result buf.new }
{
    for _ in 0..u64::MAX {
        match reader.read(buf) {
            Ok(count) => return Ok(count),
            Err(error) if error.kind() == ErrorKind::Interrupted => {}
            Err(_) => return Err(Failed),
        }
    }
    Err(Failed)
}

/// Writes the bytes, all of them, and flushes. A write of no byte is a fault.
pub(crate) fn write_from<W: Write>(writer: &mut W, bytes: &[u8]) -> Result<(), Failed>
    ensures { OnOk result (Appends (W.contents writer.old) (W.contents writer.new) bytes.now) }
{
    let mut rest = bytes;
    for _ in 0..u64::MAX {
        if rest.is_empty() {
            return flushed(writer);
        }
        match writer.write(rest) {
            Ok(0) => return Err(Failed),
            Ok(count) => rest = &rest[count..],
            Err(error) if error.kind() == ErrorKind::Interrupted => {}
            Err(_) => return Err(Failed),
        }
    }
    Err(Failed)
}

/// Hands on what a writer holds back.
pub(crate) fn flushed<W: Write>(writer: &mut W) -> Result<(), Failed>
    ensures { Keeps (W.contents writer.old) (W.contents writer.new) }
{
    for _ in 0..u64::MAX {
        match writer.flush() {
            Ok(()) => return Ok(()),
            Err(error) if error.kind() == ErrorKind::Interrupted => {}
            Err(_) => return Err(Failed),
        }
    }
    Err(Failed)
}

/// One more fault than before; the count stays at its last value.
pub(crate) fn after_fault(faults: u64) -> u64
    ensures { result ≡ min (faults + 1) (2 ^ 64 - 1) }
{
    faults.saturating_add(1)
}

/// The count of faults after an answer, which a fault raises.
pub(crate) fn faults_after<T>(faults: u64, answer: &Result<T, Failed>) -> u64
    ensures ok { OnOk answer.now (result ≡ faults) }
    ensures fault { OnErr answer.now (result ≡ min (faults + 1) (2 ^ 64 - 1)) }
{
    match answer {
        Ok(_) => faults,
        Err(_) => after_fault(faults),
    }
}
