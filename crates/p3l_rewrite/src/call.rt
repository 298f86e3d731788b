// Copies of calls and their arguments.

use crate::copied::{Copied, copies};
use p3l_ast::{Arg, Call, OutArg, Sub};
use p3l_base::NoMemory;
use std::alloc::Global;

impl Copied for Sub {
    fn copied(&self, alloc: Global) -> Result<Sub, NoMemory> {
        match self {
            Sub::Whole => Ok(Sub::Whole),
            Sub::Free(spot) => Ok(Sub::Free(spot.copied(alloc)?)),
        }
    }
}

impl Copied for Arg {
    fn copied(&self, alloc: Global) -> Result<Arg, NoMemory> {
        let at = self.at.copied(alloc)?;
        let subs = copies(alloc, self.subs.as_slice())?;
        Ok(Arg { at, subs })
    }
}

impl Copied for OutArg {
    fn copied(&self, alloc: Global) -> Result<OutArg, NoMemory> {
        match self {
            OutArg::Fresh(port) => Ok(OutArg::Fresh(port.copied(alloc)?)),
            OutArg::Old(arg) => Ok(OutArg::Old(arg.copied(alloc)?)),
        }
    }
}

impl Copied for Call {
    fn copied(&self, alloc: Global) -> Result<Call, NoMemory> {
        let at = self.at.copied(alloc)?;
        let ins = copies(alloc, self.ins.as_slice())?;
        let outs = copies(alloc, self.outs.as_slice())?;
        Ok(Call { at, ins, outs })
    }
}
