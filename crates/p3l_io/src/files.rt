// Files by their names.

ghost use Rattle.std.specs.Prelude.{◌≤◌, Bool, length, IfOk};
ghost use Rattle.p3l_io.specs.Causes.{HasReadCause, HasWriteCause, ReadBlames, ReadWants, WriteBlames, WriteWants};
ghost use Rattle.p3l_io.specs.Change.{Observation, change};
ghost use Rattle.p3l_io.specs.Content.{Held, Reads, Writes};

use crate::fault::{FileFault, WriteFault};
use p3l_base::List;
use std::alloc::Global;

/// Files by their names.
pub trait Files {
    // their content: the bytes under each name that has some
    ghost observed: { Self → Observation Held };

    // true if a call may answer that memory ran out where no request was refused, as an operating
    // system may
    ghost may_want: { Bool };

    /// The bytes under a name, if there are at most `limit`. A missing file is a fault.
    fn read(&mut self, alloc: Global, name: &str, limit: u64) -> Result<List<u8>, FileFault>
        ensures within { IfOk result (λ bytes. length bytes ≤ limit) }
        ensures bytes { Reads
            (change (observed self.old) (observed self.new)) name.now limit result }
        ensures cause { HasReadCause (change (observed self.old) (observed self.new)) result }
        ensures blames { ReadBlames
            (change (observed self.old) (observed self.new)) name.now result }
        ensures wants { ReadWants may_want result };

    /// Puts the bytes under a name, in the place of those that it had. An error may leave any bytes
    /// under this one name.
    fn write(&mut self, alloc: Global, name: &str, bytes: &[u8]) -> Result<(), WriteFault>
        ensures bytes { Writes
            (change (observed self.old) (observed self.new)) name.now bytes.now result }
        ensures cause { HasWriteCause (change (observed self.old) (observed self.new)) result }
        ensures blames { WriteBlames
            (change (observed self.old) (observed self.new)) name.now result }
        ensures wants { WriteWants may_want result };
}
