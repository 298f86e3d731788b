// Objects in memory, of which no call fails.

ghost use Rattle.std.specs.Prelude.{◌≡◌, ◌<◌, ◌≤◌, None, Some, length, IfOk};
ghost use Rattle.p3l_io.specs.Causes.{HasCause};
ghost use Rattle.p3l_io.specs.Change.{stream};
ghost use Rattle.p3l_io.specs.Content.{Puts, Takes};

use p3l_base::List;
use p3l_io::{Failed, Sink, Source};
use std::marker::Model;

/// A text that is read, which contracts see as the bytes that are left.
#[derive(Drop)]
pub struct TextSource {
    bytes: List<u8>,
    at: usize,
}

impl Model for TextSource {
    ghost use Rattle.std.specs.Prelude.{◌≤◌, ℕ, List, drop, length};

    ghost Value = { List ℕ };

    ghost view = { λ s. drop s.at s.bytes };

    ghost invariant = { λ s. s.at ≤ length s.bytes };
}

impl TextSource {
    /// The source of a text.
    pub fn new(bytes: List<u8>) -> TextSource
        ensures { result ≡ bytes }
    {
        TextSource { bytes, at: 0 }
    }
}

impl Source for TextSource {
    ghost observed = { λ rest. stream (Some rest) 0 };

    fn take(&mut self, buf: &mut [u8]) -> Result<usize, Failed> {
        let rest = &self.bytes.as_slice()[self.at..];
        let count = rest.len().min(buf.len());
        buf[..count].copy_from_slice(&rest[..count]);
        self.at += count;
        Ok(count)
    }
}

/// A sink that keeps nothing of what is put.
#[derive(Drop)]
pub struct NoSink;

impl Sink for NoSink {
    ghost observed = { λ _. stream None 0 };

    fn put(&mut self, _piece: &[u8]) -> Result<(), Failed> {
        Ok(())
    }
}
