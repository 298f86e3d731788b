// Ports, and the shapes that arguments need to have.

ghost use Rattle.std.specs.Prelude.{◌≡◌, Err, bytes_eq, slice_get};
ghost use Rattle.p3l_ast.specs.declared.refusal.SourceRefusal.TheVariants.{At};
ghost use Rattle.p3l_calls.specs.Port.{has_shape};

use p3l_ast::{Fault, Pos, SourceRefusal};
use p3l_body::Var;
use p3l_types::Shape;

/// A fault at its place.
pub(crate) fn refused<T>(fault: Fault, pos: Pos) -> Result<T, SourceRefusal>
    ensures { result ≡ Err (At fault pos) }
{
    Err(SourceRefusal::At { fault, pos })
}

/// True if two lists of sizes are the same.
pub(crate) fn same_sizes(one: &[u32], other: &[u32]) -> bool
    ensures { result ≡ bytes_eq one.now other.now }
{
    one == other
}

/// True if the port at this place is there and has this shape.
pub(crate) fn has_shape(ports: &[Var], k: usize, shape: &Shape) -> bool
    ensures { result ≡ has_shape (slice_get ports.now k) shape.now }
{
    match ports.get(k) {
        Some(port) => same_sizes(port.shape.sizes.as_slice(), shape.sizes.as_slice()),
        None => false,
    }
}
