// Files in memory.

ghost use Rattle.std.specs.Prelude.{◌≡◌, ◌≤◌, [], Some, None, false, length, is_none, is_ok, ◌||◌, IfOk, OnErr};
ghost use Rattle.p3l_base.specs.Memory.{OnGiven, Refused};
ghost use Rattle.std.specs.Option.{option_copied};
ghost use Rattle.p3l_io.specs.Causes.{HasReadCause, HasWriteCause, ReadBlames, ReadWants, WriteBlames, WriteWants};
ghost use Rattle.p3l_io.specs.Change.{change};
ghost use Rattle.p3l_io.specs.Content.{IsPut, Reads, Writes};
ghost use Rattle.p3l_io.specs.Calls.{next_count};
ghost use Rattle.p3l_io.specs.MemFiles.{IsAdded, IsCalled, IsCopy, ReadFailsIf, WriteFailsIf, after_call, bytes_under, fails_next, observation, read_failed, texts, write_failed};

use crate::calls::{after_one_more, is_named};
use crate::fault::{FileFault, WriteFault};
use crate::files::Files;
use p3l_base::{List, Name, NoMemory};
use std::alloc::Global;
use std::collections::BTreeMap;
use std::marker::Model;

/// Files by their names, with the calls that fail.
#[derive(Drop)]
pub struct MemFiles {
    alloc: Global,
    files: BTreeMap<String, List<u8>>,
    fails: List<u64>,
    calls: u64,
    faults: u64,
    /// The name of the file of the latest call that failed, if one did.
    failed: Option<Name>,
}

impl Model for MemFiles {
    ghost use Rattle.p3l_io.specs.MemFiles.{FilesState, texts};

    ghost Value = { FilesState };

    ghost view = { λ s. record { files = texts s.files.entries; fails = s.fails; calls = s.calls; faults = s.faults; failed = s.failed } };
}

/// Puts a copy of the bytes under the name.
fn put(
    alloc: Global,
    files: &mut BTreeMap<String, List<u8>>,
    name: &str,
    bytes: &[u8],
) -> Result<(), NoMemory>
    ensures ok { OnGiven result (IsPut (bytes_under (texts files.old.entries))
        (bytes_under (texts files.new.entries)) name.now bytes.now) }
    ensures err { OnErr result (files.new.entries ≡ files.old.entries) }
{
    let bytes = List::from_vec(Vec::from_slice(alloc, bytes)?);
    let name = String::from_str(alloc, name)?;
    files.insert(name, bytes)?;
    Ok(())
}

impl MemFiles {
    /// No files yet. `fails` has the numbers of the calls of `read` and `write` that fail, counted
    /// together from 1.
    pub fn new(alloc: Global, fails: List<u64>) -> MemFiles
        ensures { result ≡ record { files = []; fails = fails; calls = 0; faults = 0; failed = None } }
    {
        MemFiles {
            alloc,
            files: BTreeMap::new(alloc),
            fails,
            calls: 0,
            faults: 0,
            failed: None,
        }
    }

    /// Puts bytes under a name, in the place of those that it had. This is no call that is counted.
    pub fn add(&mut self, name: &str, bytes: &[u8]) -> Result<(), NoMemory>
        ensures ok { OnGiven result (IsAdded self.old self.new name.now bytes.now) }
        ensures err { OnErr result (self.new ≡ self.old) }
    {
        put(self.alloc, &mut self.files, name, bytes)
    }

    /// The bytes under a name, if it has some.
    pub fn get(&self, name: &str) -> Option<&[u8]>
        ensures { option_copied result ≡ bytes_under self.now.files name.now }
    {
        match self.files.get(name) {
            Some(bytes) => Some(bytes.as_slice()),
            None => None,
        }
    }

    /// Decides whether the next call fails by its number.
    fn fails_next(&self) -> bool
        ensures { result ≡ fails_next self.now }
    {
        is_named(self.fails.as_slice(), after_one_more(self.calls))
    }

    /// Counts a call that doesn't fail.
    fn pass(&mut self)
        ensures { self.new ≡ record self.old { calls = next_count self.old.calls } }
    {
        self.calls = after_one_more(self.calls);
    }

    /// Counts a call that fails, on the file of this name; it is no fault where memory for the name
    /// runs out.
    fn fail(&mut self, name: &str) -> Result<(), NoMemory>
        ensures refused { OnErr result Refused }
        ensures after { self.new ≡ after_call self.old name.now (is_ok result) }
        ensures later { self.old.faults ≤ self.new.faults }
    {
        self.calls = after_one_more(self.calls);
        self.failed = Some(Name::from_text(self.alloc, name)?);
        self.faults = after_one_more(self.faults);
        Ok(())
    }
}

/// A copy of the bytes found, if there are at most `limit`.
fn copy_within(alloc: Global, found: Option<&[u8]>, limit: u64) -> Result<List<u8>, FileFault>
    ensures { IsCopy (option_copied found.entry) limit result }
{
    match found {
        None => Err(FileFault::Failed),
        Some(bytes) if bytes.len() as u64 > limit => Err(FileFault::TooLong),
        Some(bytes) => match Vec::from_slice(alloc, bytes) {
            Ok(copy) => Ok(List::from_vec(copy)),
            Err(failed) => {
                let _want = NoMemory::from(failed);
                Err(FileFault::NoMemory)
            }
        },
    }
}

impl Files for MemFiles {
    ghost observed = { observation };

    ghost may_want = { false };

    fn read(&mut self, alloc: Global, name: &str, limit: u64) -> Result<List<u8>, FileFault>
        ensures within { IfOk result (λ bytes. length bytes ≤ limit) }
        ensures bytes { Reads
            (change (observation self.old) (observation self.new)) name.now limit result }
        ensures cause { HasReadCause (change (observation self.old) (observation self.new)) result }
        ensures blames { ReadBlames
            (change (observation self.old) (observation self.new)) name.now result }
        ensures wants { ReadWants false result }
        ensures failed { ReadFailsIf
            (fails_next self.old || is_none (bytes_under self.old.files name.now)) result }
        ensures after { self.new ≡ after_call self.old name.now (read_failed result) }
    {
        let answer = if self.fails_next() {
            Err(FileFault::Failed)
        } else {
            copy_within(alloc, self.get(name), limit)
        };
        match answer {
            Err(FileFault::Failed) => match self.fail(name) {
                Ok(()) => Err(FileFault::Failed),
                Err(NoMemory) => Err(FileFault::NoMemory),
            },
            answer => {
                self.pass();
                answer
            }
        }
    }

    fn write(&mut self, alloc: Global, name: &str, bytes: &[u8]) -> Result<(), WriteFault>
        ensures bytes { Writes
            (change (observation self.old) (observation self.new)) name.now bytes.now result }
        ensures cause { HasWriteCause
            (change (observation self.old) (observation self.new)) result }
        ensures blames { WriteBlames
            (change (observation self.old) (observation self.new)) name.now result }
        ensures wants { WriteWants false result }
        ensures failed { WriteFailsIf (fails_next self.old) result }
        ensures after { IsCalled self.old self.new name.now (write_failed result) }
        ensures kept { OnErr result (self.new.files ≡ self.old.files) }
    {
        if self.fails_next() {
            return match self.fail(name) {
                Ok(()) => Err(WriteFault::Failed),
                Err(NoMemory) => Err(WriteFault::NoMemory),
            };
        }
        self.pass();
        match put(alloc, &mut self.files, name, bytes) {
            Ok(()) => Ok(()),
            Err(NoMemory) => Err(WriteFault::NoMemory),
        }
    }
}
