// The standard input.

ghost use Rattle.std.specs.Prelude.{◌≡◌, None};
ghost use Rattle.p3l_io.specs.Change.{stream};

use crate::retry::{faults_after, read_into};
use p3l_io::{Failed, Source};
use std::io::Read;
use std::marker::Model;

/// The standard input, which contracts see as its count of faults.
#[derive(Drop)]
pub struct HostIn<R: Read + Drop> {
    reader: R,
    faults: u64,
}

impl<R: Read + Drop> Model for HostIn<R> {
    ghost use Rattle.std.specs.Prelude.{ℕ};

    ghost Value = { ℕ };

    ghost view = { λ s. s.faults };
}

impl<R: Read + Drop> HostIn<R> {
    /// The source of what a reader gives, as `rt.stdin()`.
    pub fn new(reader: R) -> HostIn<R>
        ensures { result ≡ 0 }
    {
        HostIn { reader, faults: 0 }
    }
}

impl<R: Read + Drop> Source for HostIn<R> {
    ghost observed = { stream None };

    fn take(&mut self, buf: &mut [u8]) -> Result<usize, Failed> {
        let answer = read_into(&mut self.reader, buf);
        self.faults = faults_after(self.faults, &answer);
        answer
    }
}
