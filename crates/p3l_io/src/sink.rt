// Bytes that go out.

ghost use Rattle.std.specs.Prelude.{ℕ, List};
ghost use Rattle.p3l_io.specs.Causes.{HasCause};
ghost use Rattle.p3l_io.specs.Change.{Observation, change};
ghost use Rattle.p3l_io.specs.Content.{Puts};

use crate::fault::Failed;

/// A sink of bytes.
pub trait Sink {
    // its content: the bytes that were put so far
    ghost observed: { Self → Observation (List ℕ) };

    /// Puts the whole piece after what was put before; a fault may put a prefix of it.
    fn put(&mut self, piece: &[u8]) -> Result<(), Failed>
        ensures bytes { Puts (change (observed self.old) (observed self.new)) result piece.now }
        ensures cause { HasCause (change (observed self.old) (observed self.new)) result };
}
