// The standard output and the standard error.

ghost use Rattle.std.specs.Prelude.{◌≡◌, None};
ghost use Rattle.p3l_io.specs.Change.{stream};

use crate::gather::Output;
use crate::retry::{faults_after, write_from};
use p3l_io::{Failed, Sink};
use std::io::Write;
use std::marker::Model;

/// The standard output, whose pieces are gathered; contracts see it as its count of faults.
#[derive(Drop)]
pub struct HostOut<'a, W: Write + Drop> {
    output: &'a Output<W>,
    faults: u64,
}

impl<'a, W: Write + Drop> Model for HostOut<'a, W> {
    ghost use Rattle.std.specs.Prelude.{ℕ};

    ghost Value = { ℕ };

    ghost view = { λ s. s.faults };
}

impl<'a, W: Write + Drop> HostOut<'a, W> {
    /// The sink into an output.
    pub fn new(output: &'a Output<W>) -> HostOut<'a, W>
        ensures { result ≡ 0 }
    {
        HostOut { output, faults: 0 }
    }
}

impl<'a, W: Write + Drop> Sink for HostOut<'a, W> {
    ghost observed = { stream None };

    fn put(&mut self, piece: &[u8]) -> Result<(), Failed> {
        let answer = self.output.put(piece);
        self.faults = faults_after(self.faults, &answer);
        answer
    }
}

/// The standard error, whose pieces are written as they come; contracts see it as its count of
/// faults.
#[derive(Drop)]
pub struct HostErr<W: Write + Drop> {
    writer: W,
    faults: u64,
}

impl<W: Write + Drop> Model for HostErr<W> {
    ghost use Rattle.std.specs.Prelude.{ℕ};

    ghost Value = { ℕ };

    ghost view = { λ s. s.faults };
}

impl<W: Write + Drop> HostErr<W> {
    /// The sink into a writer, as `rt.stderr()`.
    pub fn new(writer: W) -> HostErr<W>
        ensures { result ≡ 0 }
    {
        HostErr { writer, faults: 0 }
    }
}

impl<W: Write + Drop> Sink for HostErr<W> {
    ghost observed = { stream None };

    fn put(&mut self, piece: &[u8]) -> Result<(), Failed> {
        let answer = write_from(&mut self.writer, piece);
        self.faults = faults_after(self.faults, &answer);
        answer
    }
}
