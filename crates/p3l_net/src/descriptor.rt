// Processes in short.

ghost use Rattle.std.specs.Prelude.{◌≡◌, map, slice_index};
ghost use Rattle.p3l_base.specs.Memory.{IfGiven};
ghost use Rattle.p3l_net.specs.Descriptor.{descriptor_of};

use p3l_base::NoMemory;
use p3l_firing::{Proc, ProcKind};
use std::alloc::Global;

/// A process in short: its kind, its node, and the first channels that it reads and writes, 0 where
/// it has none. A firing looks at three processes, and finds all of this in one place in memory.
#[derive(Debug, Drop)]
pub struct Descriptor {
    pub kind: ProcKind,
    pub node: u32,
    pub input: u32,
    pub output: u32,
}

impl Descriptor {
    // The descriptor of a process.
    fn of(process: &Proc) -> Descriptor
        ensures { result ≡ descriptor_of process.now }
    {
        Descriptor {
            kind: process.kind,
            node: process.node,
            input: first_of(process.ins.as_slice()),
            output: first_of(process.outs.as_slice()),
        }
    }
}

// The first of these channels, 0 where there is none.
fn first_of(channels: &[u32]) -> u32
    ensures { result ≡ slice_index channels.now 0 }
{
    match channels.first() {
        Some(channel) => *channel,
        None => 0,
    }
}

/// The descriptors of processes, in their order.
pub(crate) fn describe_all(alloc: Global, procs: &[Proc]) -> Result<Vec<Descriptor>, NoMemory>
    ensures { IfGiven result (λ descriptors. descriptors.items ≡ map descriptor_of procs.now) }
{
    let mut descriptors = Vec::new(alloc);
    for process in procs {
        descriptors.push(Descriptor::of(process))?;
    }
    Ok(descriptors)
}
