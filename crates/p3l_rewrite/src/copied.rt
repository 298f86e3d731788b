// Values that can be copied.

ghost use Rattle.std.specs.Prelude.{◌≡◌};
ghost use Rattle.p3l_base.specs.Memory.{IfGiven};

use p3l_base::{List, NoMemory};
use std::alloc::Global;

/// Values whose copies contracts can't distinguish from them.
pub trait Copied: Drop {
    /// A copy.
    fn copied(&self, alloc: Global) -> Result<Self, NoMemory>
        ensures { IfGiven result (λ copy. copy ≡ self.now) };
}

/// Copies of items, in their order.
pub fn copies<T: Copied>(alloc: Global, items: &[T]) -> Result<List<T>, NoMemory>
    ensures { IfGiven result (λ copies. copies ≡ items.now) }
{
    let mut copies = List::new(alloc);
    for item in items {
        copies.push(item.copied(alloc)?)?;
    }
    Ok(copies)
}
