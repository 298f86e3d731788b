// The places of workers side by side.

ghost use Rattle.std.specs.Prelude.{◌≡◌, ◌+◌, ◌<◌, ◌≤◌};
ghost use Rattle.p3l_base.specs.Memory.{IfGiven};
ghost use Rattle.p3l_template.specs.Built.{all_ports};
ghost use Rattle.p3l_template.specs.Shape.{fan_slots};

use crate::place::Slot;
use crate::template::Ports;
use p3l_base::{List, NoMemory};
use std::alloc::Global;

/// The slot of one of `workers` workers: their in channels are those from `first` on, and their out
/// channels come after them.
pub(crate) fn worker_slot(first: u32, workers: u32, worker: u32) -> Slot
    requires there { worker < workers }
    requires room { (first + workers) + workers ≤ 1048576 }
    ensures { result ≡ record {
      input = first + worker;
      output = (first + workers) + worker;
      part = 0;
    } }
{
    Slot {
        input: first + worker,
        output: first + workers + worker,
        part: 0,
    }
}

/// The slots of all workers in order.
pub(crate) fn worker_slots(alloc: Global, first: u32, workers: u32) -> Result<List<Slot>, NoMemory>
    requires { (first + workers) + workers ≤ 1048576 }
    ensures { IfGiven result (λ slots. slots ≡ fan_slots first (first + workers) workers) }
{
    let mut slots = List::new(alloc);
    for worker in 0..workers {
        slots.push(worker_slot(first, workers, worker))?;
    }
    Ok(slots)
}

/// The ports of all workers in order.
pub(crate) fn worker_ports(alloc: Global, first: u32, workers: u32) -> Result<List<Ports>, NoMemory>
    requires { (first + workers) + workers ≤ 1048576 }
    ensures { IfGiven result (λ ports. ports ≡ all_ports (fan_slots first (first + workers) workers)) }
{
    let mut ports = List::new(alloc);
    for worker in 0..workers {
        ports.push(worker_slot(first, workers, worker).ports())?;
    }
    Ok(ports)
}
