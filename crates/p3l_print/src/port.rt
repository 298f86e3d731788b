// Ports, and the numbers of sizes and clauses.

ghost use Rattle.std.specs.Prelude.{◌≡◌, ◌++◌, flat_map};
ghost use Rattle.p3l_base.specs.Memory.{OnGiven};
ghost use Rattle.p3l_print.specs.Port.{num_text, size_text, port_text};

use crate::printer::{Print, Printer};
use p3l_ast::{Num, Port};
use p3l_base::{Name, NoMemory};

impl Print for Port {
    ghost text = { port_text };

    fn print_on(&self, printer: &mut Printer) -> Result<(), NoMemory> {
        printer.port(self)
    }
}

impl Printer {
    pub fn name(&mut self, name: &Name) -> Result<(), NoMemory>
        ensures { OnGiven result (self.new ≡ self.old ++ name.now) }
    {
        self.put(name.as_str().as_bytes())
    }

    pub fn port(&mut self, port: &Port) -> Result<(), NoMemory>
        ensures { OnGiven result (self.new ≡ self.old ++ port_text port.now) }
    {
        self.put(b"int ")?;
        self.name(&port.at.name)?;
        self.sizes(port.sizes.as_slice())
    }

    pub fn num(&mut self, num: &Num) -> Result<(), NoMemory>
        ensures { OnGiven result (self.new ≡ self.old ++ num_text num.now) }
    {
        match num {
            Num::Digits(value, _) => self.decimal(*value),
            Num::Named(spot) => self.name(&spot.name),
        }
    }

    fn sizes(&mut self, sizes: &[Num]) -> Result<(), NoMemory>
        ensures { OnGiven result (self.new ≡ self.old ++ flat_map size_text sizes.now) }
    {
        for size in sizes {
            self.put(b"[")?;
            self.num(size)?;
            self.put(b"]")?;
        }
        Ok(())
    }
}
