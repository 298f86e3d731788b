// The two ends of each channel, and the processes in short.

ghost use Rattle.std.specs.Prelude.{◌≡◌, ◌<◌, length, slice_get, slice_index, Some};
ghost use Rattle.p3l_base.specs.Memory.{IfGiven};
ghost use Rattle.std.specs.List.{AllByRecursion};
ghost use Rattle.p3l_skel.specs.declared.tree.Tree.{Tree};
ghost use Rattle.p3l_net.specs.Steps.{HasEnds, marked};
ghost use Rattle.p3l_firing.specs.Typed.{IsTyped};

use crate::descriptor::{Descriptor, describe_all};
use p3l_base::NoMemory;
use p3l_firing::Net;
use std::alloc::Global;
use std::marker::Model;

/// The process that writes each channel, and the one that reads it; and the descriptor of each
/// process.
#[derive(Debug, Drop)]
pub struct Sides {
    writers: Vec<u32>,
    readers: Vec<u32>,
    descriptors: Vec<Descriptor>,
}

impl Model for Sides {
    ghost use Rattle.p3l_net.specs.Steps.{Ends};

    ghost Value = { Ends };

    ghost view = { λ it. record { writers = it.writers.items; readers = it.readers.items; descriptors = it.descriptors.items } };
}

// Enters process `p` for these channels.
fn mark(table: &mut Vec<u32>, channels: &[u32], p: u32)
    requires { AllByRecursion (λ c. c < length table.old.items) channels.now }
    ensures { table.new.items ≡ marked table.old.items channels.now p }
{
    for channel in channels {
        table[*channel as usize] = p;
    }
}

impl Sides {
    /// The ends of the channels of a net, and the descriptors of its processes.
    pub fn of(alloc: Global, net: &Net) -> Result<Sides, NoMemory>
        requires { (tree : Tree) × IsTyped tree net.now }
        ensures { IfGiven result (λ sides. HasEnds net.now sides) }
    {
        let count = net.chans.len();
        let mut writers = vec![in alloc; 0u32; count]?;
        let mut readers = vec![in alloc; 0u32; count]?;
        let procs = net.procs.as_slice();
        for p in 0..procs.len() {
            let process = &procs[p];
            mark(&mut writers, process.outs.as_slice(), p as u32);
            mark(&mut readers, process.ins.as_slice(), p as u32);
        }
        let descriptors = describe_all(alloc, procs)?;
        Ok(Sides {
            writers,
            readers,
            descriptors,
        })
    }

    /// The process that writes a channel.
    pub fn writer(&self, c: u32) -> u32
        requires { c < length self.now.writers }
        ensures { result ≡ slice_index self.now.writers c }
    {
        self.writers[c as usize]
    }

    /// The process that reads a channel.
    pub fn reader(&self, c: u32) -> u32
        requires { c < length self.now.readers }
        ensures { result ≡ slice_index self.now.readers c }
    {
        self.readers[c as usize]
    }

    /// The descriptor of a process.
    pub fn descriptor(&self, p: u32) -> &Descriptor
        requires { p < length self.now.descriptors }
        ensures { slice_get self.now.descriptors p ≡ Some result.now }
    {
        &self.descriptors[p as usize]
    }
}
