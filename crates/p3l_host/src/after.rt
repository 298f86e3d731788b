// Calls that come after the output: a read that may wait, and a line of the standard error.

ghost use Rattle.std.specs.Prelude.{◌≡◌};
ghost use Rattle.p3l_io.specs.Change.{stream};

use crate::gather::Output;
use crate::retry::faults_after;
use p3l_io::{Failed, Sink, Source};
use std::io::Write;
use std::marker::Model;

/// A source that is read after all that was put on the output is written: who types the input, or
/// waits at the end of a pipe, has seen by then every result that came out. A write that fails is
/// reported by the output's next call, and the source is read all the same.
#[derive(Drop)]
pub struct SourceAfter<'a, S: Source + Drop, W: Write + Drop> {
    source: S,
    output: &'a Output<W>,
}

impl<'a, S: Source + Drop, W: Write + Drop> Model for SourceAfter<'a, S, W> {
    ghost Value = { S };

    ghost view = { λ s. s.source };
}

impl<'a, S: Source + Drop, W: Write + Drop> SourceAfter<'a, S, W> {
    /// The source, read after the output is written.
    pub fn new(source: S, output: &'a Output<W>) -> SourceAfter<'a, S, W>
        ensures { result ≡ source }
    {
        SourceAfter { source, output }
    }
}

impl<'a, S: Source + Drop, W: Write + Drop> Source for SourceAfter<'a, S, W> {
    ghost observed = { S.observed };

    fn take(&mut self, buf: &mut [u8]) -> Result<usize, Failed> {
        let _ = self.output.flush();
        self.source.take(buf)
    }
}

/// A sink whose pieces are put after all that was put on the output is written. Where that fails, the
/// piece is not put: it would report an end that the run did not come to.
#[derive(Drop)]
pub struct SinkAfter<'a, S: Sink + Drop, W: Write + Drop> {
    sink: S,
    output: &'a Output<W>,
    faults: u64,
}

impl<'a, S: Sink + Drop, W: Write + Drop> Model for SinkAfter<'a, S, W> {
    ghost use Rattle.std.specs.Prelude.{ℕ};

    ghost Value = { S × ℕ };

    ghost view = { λ s. (s.sink, s.faults) };
}

impl<'a, S: Sink + Drop, W: Write + Drop> SinkAfter<'a, S, W> {
    /// The sink, put into after the output is written.
    pub fn new(sink: S, output: &'a Output<W>) -> SinkAfter<'a, S, W>
        ensures { result ≡ (sink, 0) }
    {
        SinkAfter {
            sink,
            output,
            faults: 0,
        }
    }

    /// The sink below.
    pub fn sink(&self) -> &S
        ensures { result.now ≡ self.now.0 }
    {
        &self.sink
    }
}

impl<'a, S: Sink + Drop, W: Write + Drop> Sink for SinkAfter<'a, S, W> {
    ghost observed = { λ s. stream (S.observed s.0).content s.1 };

    fn put(&mut self, piece: &[u8]) -> Result<(), Failed> {
        let answer = match self.output.flush() {
            Ok(()) => self.sink.put(piece),
            Err(Failed) => Err(Failed),
        };
        self.faults = faults_after(self.faults, &answer);
        answer
    }
}
