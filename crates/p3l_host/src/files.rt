// The file system.

ghost use Rattle.std.specs.Prelude.{◌≡◌, ◌≤◌, None, Some, true, length, IfOk, OnErr};
ghost use Rattle.p3l_base.specs.Memory.{OnGiven};
ghost use Rattle.p3l_host.specs.Faults.{IsAfterFault, observation};
ghost use Rattle.p3l_host.specs.Reads.{ReadsWithin};
ghost use Rattle.p3l_io.specs.Change.{change};

use crate::gather::Output;
use crate::inputs::{Inputs, id_of};
use crate::retry::{after_fault, read_into};
use crate::whole::write_whole;
use p3l_base::{List, Name, NoMemory};
use p3l_io::{Failed, FileFault, Files, WriteFault};
use std::alloc::Global;
use std::fs::OpenFile;
use std::io::{ErrorKind, Read, Write};
use std::marker::Model;
use std::{fs, rt};

/// The most bytes that a read requests.
const PIECE: usize = 16_384;

/// The files of the file system, which contracts see as their faults. A file is written after all that
/// was put on the output; where that can't be written, the file is left as it was. One that was read
/// is not written.
#[derive(Drop)]
pub struct HostFiles<'a, R: rt::Files, W: Write + Drop> {
    rt: &'a R,
    output: &'a Output<W>,
    faults: u64,
    /// The name of the file of the latest call that failed, if one did.
    failed: Option<Name>,
    inputs: Inputs,
}

impl<'a, R: rt::Files, W: Write + Drop> Model for HostFiles<'a, R, W> {
    ghost use Rattle.p3l_host.specs.Faults.{Faults};

    ghost Value = { Faults };

    ghost view = { λ s. record { count = s.faults; failed = s.failed } };
}

impl<'a, R: rt::Files, W: Write + Drop> HostFiles<'a, R, W> {
    /// The files that the runtime reaches, written after this output.
    pub fn new(rt: &'a R, output: &'a Output<W>) -> HostFiles<'a, R, W>
        ensures { result ≡ record { count = 0; failed = None } }
    {
        HostFiles {
            rt,
            output,
            faults: 0,
            failed: None,
            inputs: Inputs::new(),
        }
    }

    /// Counts a fault of the file of this name, unless memory for the name runs out.
    fn fail(&mut self, alloc: Global, name: &str) -> Result<(), NoMemory>
        ensures counted { OnGiven result (IsAfterFault
            (change (observation self.old) (observation self.new)) name.now) }
        ensures same { OnErr result (self.new ≡ self.old) }
    {
        self.failed = Some(Name::from_text(alloc, name)?);
        self.faults = after_fault(self.faults);
        Ok(())
    }
}

impl<'a, R: rt::Files, W: Write + Drop> Files for HostFiles<'a, R, W> {
    ghost observed = { observation };

    ghost may_want = { true };

    fn read(&mut self, alloc: Global, name: &str, limit: u64) -> Result<List<u8>, FileFault> {
        match read_file(alloc, self.rt, &mut self.inputs, name, limit) {
            Err(FileFault::Failed) => match self.fail(alloc, name) {
                Ok(()) => Err(FileFault::Failed),
                Err(NoMemory) => Err(FileFault::NoMemory),
            },
            answer => answer,
        }
    }

    fn write(&mut self, alloc: Global, name: &str, bytes: &[u8]) -> Result<(), WriteFault> {
        let answer = match self.output.flush() {
            Ok(()) => write_whole(alloc, self.rt, &self.inputs, name, bytes),
            Err(Failed) => Err(WriteFault::Failed),
        };
        match answer {
            Err(WriteFault::Failed) => match self.fail(alloc, name) {
                Ok(()) => Err(WriteFault::Failed),
                Err(NoMemory) => Err(WriteFault::NoMemory),
            },
            answer => answer,
        }
    }
}

/// The bytes of a file, if there are at most `limit`. It is then one of those that were read.
fn read_file<R: rt::Files>(
    alloc: Global,
    rt: &R,
    inputs: &mut Inputs,
    name: &str,
    limit: u64,
) -> Result<List<u8>, FileFault>
    ensures { IfOk result (λ bytes. length bytes ≤ limit) }
{
    match fs::open(rt, name) {
        Ok(mut file) => {
            note_input(alloc, inputs, &file)?;
            read_within(alloc, &mut file, limit)
        }
        Err(error) if error.kind() == ErrorKind::OutOfMemory => Err(FileFault::NoMemory),
        Err(_) => Err(FileFault::Failed),
    }
}

/// Notes that an open file is read.
fn note_input<F: OpenFile>(alloc: Global, inputs: &mut Inputs, file: &F) -> Result<(), FileFault> {
    match file.metadata() {
        Ok(found) => match inputs.note(alloc, id_of(&found)) {
            Ok(()) => Ok(()),
            Err(NoMemory) => Err(FileFault::NoMemory),
        },
        Err(_) => Err(FileFault::Failed),
    }
}

/// The bytes that a reader gives to its end, if there are at most `limit`. It requests one byte
/// more at most.
fn read_within<R: Read>(alloc: Global, reader: &mut R, limit: u64) -> Result<List<u8>, FileFault>
    ensures { ReadsWithin (R.remaining reader.old) (R.remaining reader.new) limit result }
{
    let mut bytes = Vec::new(alloc);
    let mut buf = [0u8; PIECE];
    for _ in 0..u64::MAX {
        let room = (limit - bytes.len() as u64).min(PIECE as u64 - 1) as usize + 1;
        let count = match read_into(reader, &mut buf[..room]) {
            Ok(count) => count,
            Err(_) => return Err(FileFault::Failed),
        };
        if count == 0 {
            return Ok(List::from_vec(bytes));
        }
        if count as u64 > limit - bytes.len() as u64 {
            return Err(FileFault::TooLong);
        }
        if let Err(failed) = bytes.extend_from_slice(&buf[..count]) {
            let _want = NoMemory::from(failed);
            return Err(FileFault::NoMemory);
        }
    }
    Err(FileFault::Failed)
}
