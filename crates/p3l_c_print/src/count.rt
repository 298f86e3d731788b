// Numbers of temps.

ghost use Rattle.std.specs.Prelude.{◌≡◌, ◌+◌, ◌≤◌};
ghost use Rattle.p3l_base.specs.Memory.{IfGiven};

use p3l_base::NoMemory;
use std::alloc::Global;

/// The sum of a number of temps and one or two more. A byte of memory is requested for each temp:
/// no memory has 2 to the 63 bytes, so a sum that would overflow is refused before it is formed.
pub fn sum(alloc: Global, left: u64, right: u64) -> Result<u64, NoMemory>
    requires { right ≤ 2 }
    ensures { IfGiven result (λ sum. sum ≡ left + right) }
{
    let held: Vec<u8> = Vec::with_capacity(alloc, left as usize)?;
    Ok(held.capacity() as u64 + right)
}
