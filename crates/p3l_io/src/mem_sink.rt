// A sink in memory.

ghost use Rattle.std.specs.Prelude.{◌≡◌, ◌-◌, ◌≤◌, [], ◌++◌, length, is_err};
ghost use Rattle.p3l_base.specs.Memory.{IfGiven};
ghost use Rattle.p3l_io.specs.Causes.{HasCause};
ghost use Rattle.p3l_io.specs.Change.{change};
ghost use Rattle.p3l_io.specs.Content.{Puts};
ghost use Rattle.p3l_io.specs.MemSink.{after_put, entry_of, fails_at, observation};

use crate::calls::after_one_more;
use crate::fault::Failed;
use crate::sink::Sink;
use p3l_base::{List, NoMemory};
use std::alloc::Global;
use std::marker::Model;

/// A call of `put` that fails: its number, counted from 1, and how many bytes of the piece it still
/// puts.
#[derive(Clone, Copy, Debug, Drop, PartialEq, Eq)]
pub struct PutFail {
    pub call: u64,
    pub prefix: usize,
}

/// Room for bytes, with the calls that fail.
#[derive(Drop)]
pub struct MemSink {
    bytes: Vec<u8>,
    room: usize,
    fails: List<PutFail>,
    calls: u64,
    faults: u64,
}

impl Model for MemSink {
    ghost use Rattle.std.specs.Prelude.{◌-◌, ◌≤◌, vec_len, vec_capacity};
    ghost use Rattle.p3l_io.specs.MemSink.{SinkState};

    ghost Value = { SinkState };

    ghost view = { λ s. record { taken = s.bytes.items; left = s.room - vec_len s.bytes; fails = s.fails; calls = s.calls; faults = s.faults } };

    ghost invariant = { λ s. (vec_len s.bytes ≤ s.room) × (s.room ≤ vec_capacity s.bytes) };
}

/// The first entry of a call.
fn find_entry(fails: &[PutFail], call: u64) -> Option<PutFail>
    ensures { result ≡ entry_of fails.now call }
{
    fails
        .iter()
        .copied()
        .find(|entry| entry.call == call && call < u64::MAX)
}

impl MemSink {
    /// A sink that takes the memory for `room` bytes now and no more later. `fails` has the calls
    /// that fail, of which the first entry of a call counts.
    pub fn new(alloc: Global, room: usize, fails: List<PutFail>) -> Result<MemSink, NoMemory>
        ensures { IfGiven result (λ sink. sink
            ≡ record { taken = []; left = room; fails = fails; calls = 0; faults = 0 }) }
    {
        Ok(MemSink {
            bytes: Vec::with_capacity(alloc, room)?,
            room,
            fails,
            calls: 0,
            faults: 0,
        })
    }

    /// The bytes that were put so far.
    pub fn taken(&self) -> &[u8]
        ensures { result.now ≡ self.now.taken }
    {
        self.bytes.as_slice()
    }

    /// Puts bytes for which there is room.
    fn append(&mut self, bytes: &[u8])
        requires { length bytes.now ≤ self.old.left }
        ensures { self.new
            ≡ record self.old {
              taken = self.old.taken
                  ++ bytes.now;
              left = self.old.left - length bytes.now;
            } }
    {
        if self.bytes.extend_from_slice(bytes).is_err() {
            unreachable!()
        }
    }
}

impl Sink for MemSink {
    ghost observed = { observation };

    fn put(&mut self, piece: &[u8]) -> Result<(), Failed>
        ensures bytes { Puts
            (change (observation self.old) (observation self.new)) result piece.now }
        ensures cause { HasCause (change (observation self.old) (observation self.new)) result }
        ensures failed { is_err result ≡ fails_at self.old piece.now }
        ensures after { self.new ≡ after_put self.old piece.now (is_err result) }
    {
        self.calls = after_one_more(self.calls);
        let fits = piece.len().min(self.room - self.bytes.len());
        let (count, fails) = match find_entry(self.fails.as_slice(), self.calls) {
            Some(entry) => (entry.prefix.min(fits), true),
            None => (fits, fits < piece.len()),
        };
        self.append(&piece[..count]);
        if fails {
            self.faults = after_one_more(self.faults);
            return Err(Failed);
        }
        Ok(())
    }
}
