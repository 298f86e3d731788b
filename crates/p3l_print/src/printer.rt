// A text that grows at its end, and lists in it.

ghost use Rattle.std.specs.Prelude.{◌≡◌, ◌++◌, []};
ghost use Rattle.p3l_base.specs.Memory.{OnGiven};
ghost use Rattle.std.specs.Fmt.{signed_decimal};
ghost use Rattle.std.specs.List.{join_by};
ghost use Rattle.p3l_print.specs.Printer.{interface_text};

use p3l_base::{List, NoMemory};
use std::alloc::Global;
use std::marker::Model;

/// The text so far, which contracts see as its bytes.
#[derive(Drop)]
pub struct Printer {
    pub alloc: Global,
    text: Vec<u8>,
}

impl Model for Printer {
    ghost use Rattle.std.specs.Prelude.{List, ℕ};

    ghost Value = { List ℕ };

    ghost view = { λ it. it.text.items };
}

/// Values that are written as one piece.
pub trait Print {
    ghost use Rattle.std.specs.Prelude.{List, ℕ};

    ghost text: { Self → List ℕ };

    /// Puts the value's text after the printer's.
    fn print_on(&self, printer: &mut Printer) -> Result<(), NoMemory>
        ensures { OnGiven result (printer.new ≡ printer.old ++ text self.now) };
}

impl Printer {
    /// No text yet.
    pub fn new(alloc: Global) -> Printer
        ensures { result ≡ [] }
    {
        Printer {
            alloc,
            text: Vec::new(alloc),
        }
    }

    /// The whole text.
    pub fn finish(self) -> List<u8>
        ensures { result ≡ self }
    {
        let Printer { text, .. } = self;
        List::from_vec(text)
    }

    /// Puts bytes after the text.
    pub fn put(&mut self, bytes: &[u8]) -> Result<(), NoMemory>
        ensures { OnGiven result (self.new ≡ self.old ++ bytes.now) }
    {
        self.text.extend_from_slice(bytes)?;
        Ok(())
    }

    /// Puts a number in decimal after the text.
    pub fn decimal(&mut self, number: i64) -> Result<(), NoMemory>
        ensures { OnGiven result (self.new ≡ self.old ++ signed_decimal number) }
    {
        let mut buffer = itoa::Buffer::new();
        self.put(buffer.format(number).as_bytes())
    }

    /// Puts the texts of items after the text, with a separator between each two.
    pub fn separated<T: Print>(&mut self, separator: &[u8], items: &[T]) -> Result<(), NoMemory>
        ensures { OnGiven result (self.new ≡ self.old ++ join_by T.text separator.now items.now) }
    {
        let Some((first, rest)) = items.split_first() else {
            return Ok(());
        };
        first.print_on(self)?;
        for item in rest {
            self.put(separator)?;
            item.print_on(self)?;
        }
        Ok(())
    }

    /// Puts what goes in and what comes out after the text.
    #[tactic(auto, unfolding(crate::specs::Printer::interface_text))]
    pub fn interface<I: Print, O: Print>(&mut self, ins: &[I], outs: &[O]) -> Result<(), NoMemory>
        ensures { OnGiven result (self.new
            ≡ self.old ++ interface_text I.text ins.now O.text outs.now) }
    {
        self.put(b" in(")?;
        self.separated(b", ", ins)?;
        self.put(b") out(")?;
        self.separated(b", ", outs)?;
        self.put(b")")
    }
}
