// Calls of modules.

ghost use Rattle.std.specs.Prelude.{◌≡◌, ◌++◌, flat_map};
ghost use Rattle.p3l_base.specs.Memory.{OnGiven};
ghost use Rattle.p3l_print.specs.Call.{sub_text, arg_text, out_arg_text, call_text};

use crate::printer::{Print, Printer};
use p3l_ast::{Arg, Call, OutArg, Sub};
use p3l_base::NoMemory;

impl Print for Arg {
    ghost text = { arg_text };

    fn print_on(&self, printer: &mut Printer) -> Result<(), NoMemory> {
        printer.name(&self.at.name)?;
        printer.subs(self.subs.as_slice())
    }
}

impl Print for OutArg {
    ghost text = { out_arg_text };

    fn print_on(&self, printer: &mut Printer) -> Result<(), NoMemory> {
        match self {
            OutArg::Fresh(port) => port.print_on(printer),
            OutArg::Old(arg) => arg.print_on(printer),
        }
    }
}

impl Printer {
    fn sub(&mut self, sub: &Sub) -> Result<(), NoMemory>
        ensures { OnGiven result (self.new ≡ self.old ++ sub_text sub.now) }
    {
        match sub {
            Sub::Whole => self.put(b"[]"),
            Sub::Free(spot) => {
                self.put(b"[*")?;
                self.name(&spot.name)?;
                self.put(b"]")
            }
        }
    }

    fn subs(&mut self, subs: &[Sub]) -> Result<(), NoMemory>
        ensures { OnGiven result (self.new ≡ self.old ++ flat_map sub_text subs.now) }
    {
        for sub in subs {
            self.sub(sub)?;
        }
        Ok(())
    }

    pub fn call(&mut self, call: &Call) -> Result<(), NoMemory>
        ensures { OnGiven result (self.new ≡ self.old ++ call_text call.now) }
    {
        self.name(&call.at.name)?;
        self.interface(call.ins.as_slice(), call.outs.as_slice())
    }
}
