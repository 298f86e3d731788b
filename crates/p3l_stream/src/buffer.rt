// Bytes that were taken and not yet answered.

ghost use Rattle.std.specs.Prelude.{◌≡◌, ◌<◌, ◌≤◌, [], ◌∷◌, ◌++◌, drop, take, length, position, OnErr};
ghost use Rattle.p3l_base.specs.Memory.{IfGiven, OnGiven};
ghost use Rattle.p3l_stream.specs.Lines.{is_feed};

use crate::line::first_feed;
use p3l_base::NoMemory;
use std::alloc::Global;
use std::marker::Model;

/// Bytes in their order, which contracts see as their list.
///
/// Those that were answered stay until more are pushed, and each byte is searched for a line feed
/// once, so that neither a line nor a piece costs more than its length.
#[derive(Drop)]
pub(crate) struct Buffer {
    bytes: Vec<u8>,
    start: usize,
    searched: usize,
}

impl Model for Buffer {
    ghost use Rattle.std.specs.Prelude.{◌≡◌, ◌≤◌, ◌-◌, ℕ, List, None, drop, take, vec_len, position};
    ghost use Rattle.p3l_stream.specs.Lines.{is_feed};

    ghost Value = { List ℕ };

    ghost view = { λ it. drop it.start it.bytes.items };

    // No byte from the start on that was searched is a line feed.
    ghost invariant = { λ it. (it.start ≤ it.searched) × (it.searched ≤ vec_len it.bytes) × (position is_feed (take (it.searched - it.start) (drop it.start it.bytes.items)) ≡ None) };
}

impl Buffer {
    /// No bytes yet, and room for `room`.
    pub(crate) fn new(alloc: Global, room: usize) -> Result<Buffer, NoMemory>
        ensures { IfGiven result (λ buffer. buffer ≡ []) }
    {
        Ok(Buffer {
            bytes: Vec::with_capacity(alloc, room)?,
            start: 0,
            searched: 0,
        })
    }

    /// The count of bytes.
    pub(crate) fn len(&self) -> usize
        ensures { result ≡ length self.now }
    {
        self.bytes.len() - self.start
    }

    /// The bytes in order.
    pub(crate) fn as_slice(&self) -> &[u8]
        ensures { result.now ≡ self.now }
    {
        &self.bytes.as_slice()[self.start..]
    }

    /// The first bytes.
    pub(crate) fn front(&self, count: usize) -> &[u8]
        requires { count ≤ length self.now }
        ensures { result.now ≡ take count self.now }
    {
        &self.as_slice()[..count]
    }

    /// The place of the first line feed.
    #[inline(always)]
    pub(crate) fn first_feed(&mut self) -> Option<usize>
        ensures same { self.new ≡ self.old }
        ensures first { result ≡ position is_feed self.old }
    {
        let unsearched = &self.bytes.as_slice()[self.searched..];
        match first_feed(unsearched) {
            Some(place) => Some(self.searched - self.start + place),
            None => {
                self.searched = self.bytes.len();
                None
            }
        }
    }

    /// Lets the first bytes go.
    pub(crate) fn pass(&mut self, count: usize)
        requires { count ≤ length self.old }
        ensures { self.new ≡ drop count self.old }
    {
        self.start += count;
        self.searched = self.start;
    }

    /// Lets all bytes go.
    pub(crate) fn clear(&mut self)
        ensures { self.new ≡ [] }
    {
        self.bytes.clear();
        self.start = 0;
        self.searched = 0;
    }

    /// Puts a minus sign in the place of the first byte.
    pub(crate) fn put_minus(&mut self)
        requires { 0 < length self.old }
        ensures { self.new ≡ 45 ∷ drop 1 self.old }
    {
        self.bytes[self.start] = b'-';
        self.searched = self.start;
    }

    /// Puts a piece after the bytes.
    pub(crate) fn push(&mut self, piece: &[u8]) -> Result<(), NoMemory>
        ensures ok { OnGiven result (self.new ≡ self.old ++ piece.now) }
        ensures err { OnErr result (self.new ≡ self.old) }
    {
        self.forget_passed();
        self.bytes.extend_from_slice(piece)?;
        Ok(())
    }

    /// Moves the bytes to the front of the room.
    fn forget_passed(&mut self)
        ensures { self.new ≡ self.old }
    {
        drop(self.bytes.drain(..self.start));
        self.searched -= self.start;
        self.start = 0;
    }
}
