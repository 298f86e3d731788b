// Bytes that come in.

ghost use Rattle.std.specs.Prelude.{◌<◌, ◌≤◌, ℕ, List, length, IfOk};
ghost use Rattle.p3l_io.specs.Causes.{HasCause};
ghost use Rattle.p3l_io.specs.Change.{Observation, change};
ghost use Rattle.p3l_io.specs.Content.{Takes};

use crate::fault::Failed;

/// A source of bytes.
pub trait Source {
    // its content: the bytes that are left
    ghost observed: { Self → Observation (List ℕ) };

    /// Puts the next bytes at the front of `buf` and says how many; 0 is the end.
    /// A fault loses no byte of the source.
    fn take(&mut self, buf: &mut [u8]) -> Result<usize, Failed>
        requires { 0 < length buf.old }
        ensures bound { IfOk result (λ n. n ≤ length buf.new) }
        ensures bytes { Takes (change (observed self.old) (observed self.new)) result buf.new }
        ensures cause { HasCause (change (observed self.old) (observed self.new)) result };
}
