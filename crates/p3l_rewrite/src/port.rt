// Copies of names, numbers and ports.

use crate::copied::{Copied, copies};
use p3l_ast::{Num, Port, Spot};
use p3l_base::{Name, NoMemory};
use std::alloc::Global;

impl Copied for Spot {
    fn copied(&self, alloc: Global) -> Result<Spot, NoMemory> {
        Ok(Spot {
            name: Name::from_text(alloc, self.name.as_str())?,
            pos: self.pos,
        })
    }
}

impl Copied for Num {
    fn copied(&self, alloc: Global) -> Result<Num, NoMemory> {
        match self {
            Num::Digits(value, pos) => Ok(Num::Digits(*value, *pos)),
            Num::Named(spot) => Ok(Num::Named(spot.copied(alloc)?)),
        }
    }
}

impl Copied for Port {
    fn copied(&self, alloc: Global) -> Result<Port, NoMemory> {
        let at = self.at.copied(alloc)?;
        let sizes = copies(alloc, self.sizes.as_slice())?;
        Ok(Port { at, sizes })
    }
}
