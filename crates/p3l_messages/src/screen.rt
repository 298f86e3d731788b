// The standard error as a person sees it.

ghost use Rattle.std.specs.Prelude.{◌≡◌, None};
ghost use Rattle.p3l_io.specs.Change.{stream};

use crate::safe::safe_line;
use p3l_io::{Failed, Sink};
use std::alloc::Global;
use std::marker::Model;

/// Another sink, of which the last line is remembered. A terminal gets each line in a form that can't
/// steer it. Contracts see the other sink's faults.
#[derive(Drop)]
pub struct Screen<E: Sink + Drop> {
    alloc: Global,
    sink: E,
    is_terminal: bool,
    heard: Vec<u8>,
}

impl<E: Sink + Drop> Model for Screen<E> {
    ghost Value = { E };

    ghost view = { λ s. s.sink };
}

impl<E: Sink + Drop> Screen<E> {
    /// The sink, which is a terminal or isn't.
    pub fn new(alloc: Global, sink: E, is_terminal: bool) -> Screen<E>
        ensures { result ≡ sink }
    {
        Screen {
            alloc,
            sink,
            is_terminal,
            heard: Vec::new(alloc),
        }
    }

    /// The bytes of the last line that was put; none where memory for them ran out.
    pub fn heard(&self) -> &[u8] {
        self.heard.as_slice()
    }

    /// Remembers a line in the place of the one before.
    fn hear(&mut self, line: &[u8])
        ensures { self.new ≡ self.old }
    {
        self.heard = match Vec::from_slice(self.alloc, line) {
            Ok(copy) => copy,
            Err(_) => Vec::new(self.alloc),
        };
    }
}

impl<E: Sink + Drop> Sink for Screen<E> {
    ghost observed = { λ sink. stream None (E.observed sink).faults };

    fn put(&mut self, piece: &[u8]) -> Result<(), Failed> {
        self.hear(piece);
        if !self.is_terminal {
            return self.sink.put(piece);
        }
        match safe_line(self.alloc, piece) {
            Ok(safe) => self.sink.put(safe.as_slice()),
            // a line that could steer the terminal is not shown
            Err(_) => self.sink.put(b"no memory for a message\n"),
        }
    }
}
