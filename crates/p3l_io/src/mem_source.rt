// A source in memory.

ghost use Rattle.std.specs.Prelude.{◌≡◌, ◌<◌, ◌≤◌, drop, length, is_err, IfOk};
ghost use Rattle.p3l_io.specs.Causes.{HasCause};
ghost use Rattle.p3l_io.specs.Change.{change};
ghost use Rattle.p3l_io.specs.Content.{Takes};
ghost use Rattle.p3l_io.specs.MemSource.{after_take, fails_next, given, observation};

use crate::calls::{after_one_more, is_named};
use crate::fault::Failed;
use crate::source::Source;
use p3l_base::List;
use std::marker::Model;

/// Bytes that are given in pieces, with the calls that fail.
#[derive(Drop)]
pub struct MemSource {
    bytes: List<u8>,
    at: usize,
    piece: usize,
    fails: List<u64>,
    calls: u64,
    faults: u64,
}

impl Model for MemSource {
    ghost use Rattle.std.specs.Prelude.{◌<◌, ◌≤◌, drop, length};
    ghost use Rattle.p3l_io.specs.MemSource.{SourceState};

    ghost Value = { SourceState };

    ghost view = { λ s. record { rest = drop s.at s.bytes; piece = s.piece; fails = s.fails; calls = s.calls; faults = s.faults } };

    ghost invariant = { λ s. (s.at ≤ length s.bytes) × (0 < s.piece) };
}

impl MemSource {
    /// A source of these bytes, of which a call gives at most `piece`. `fails` has the numbers of
    /// the calls that fail, counted from 1.
    pub fn new(bytes: List<u8>, piece: usize, fails: List<u64>) -> MemSource
        requires { 0 < piece }
        ensures { result
            ≡ record { rest = bytes; piece = piece; fails = fails; calls = 0; faults = 0 } }
    {
        MemSource {
            bytes,
            at: 0,
            piece,
            fails,
            calls: 0,
            faults: 0,
        }
    }

    /// The count of calls of `take`; it stays at the last value of a `u64`.
    pub fn calls(&self) -> u64
        ensures { result ≡ self.now.calls }
    {
        self.calls
    }
}

impl Source for MemSource {
    ghost observed = { observation };

    fn take(&mut self, buf: &mut [u8]) -> Result<usize, Failed>
        requires { 0 < length buf.old }
        ensures bound { IfOk result (λ n. n ≤ length buf.new) }
        ensures bytes { Takes
            (change (observation self.old) (observation self.new)) result buf.new }
        ensures cause { HasCause (change (observation self.old) (observation self.new)) result }
        ensures failed { is_err result ≡ fails_next self.old }
        ensures count { IfOk result (λ n. n ≡ given self.old (length buf.new)) }
        ensures after { self.new ≡ after_take self.old result }
    {
        self.calls = after_one_more(self.calls);
        if is_named(self.fails.as_slice(), self.calls) {
            self.faults = after_one_more(self.faults);
            return Err(Failed);
        }
        let rest = &self.bytes.as_slice()[self.at..];
        let count = rest.len().min(buf.len()).min(self.piece);
        buf[..count].copy_from_slice(&rest[..count]);
        self.at += count;
        Ok(count)
    }
}
