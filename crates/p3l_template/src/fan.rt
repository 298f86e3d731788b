// Workers side by side between two processes of their node, as in a farm and in a map.

ghost use Rattle.std.specs.Prelude.{◌≡◌, ◌+◌, ◌≤◌, IfOk, length, replicate};
ghost use Rattle.p3l_base.specs.Memory.{IfGiven};
ghost use Rattle.p3l_template.specs.Built.{all_ports};
ghost use Rattle.p3l_template.specs.Fan.{fan_procs};
ghost use Rattle.p3l_template.specs.Shape.{Base, base_of, added, HasRoomFor, empty_chan, fan_slots};

use crate::builder::{Builder, one_channel};
use crate::place::Slot;
use crate::template::Ports;
use crate::workers::{worker_ports, worker_slots};
use p3l_base::{List, NoMemory};
use p3l_firing::{Proc, ProcKind};
use std::alloc::Global;

/// Workers side by side, a process of their node before them and one after them.
#[derive(Clone, Copy, Debug, Drop)]
pub struct Fan {
    pub node: u32,
    pub workers: u32,
    /// The kind of the process before the workers.
    pub first: ProcKind,
    /// The kind of the process after the workers.
    pub last: ProcKind,
}

impl Fan {
    /// Adds both processes and, for each worker, a channel to it and one from it; gives the workers'
    /// ports in order.
    pub fn place(
        &self,
        alloc: Global,
        builder: &mut Builder,
        at: &Ports,
        cap: u32,
    ) -> Result<List<Ports>, NoMemory>
        requires room { HasRoomFor builder.old 2 (self.now.workers + self.now.workers) }
        ensures placed { IfGiven result (λ ports. builder.new
            ≡ added builder.old
            (fan_procs self.now.first self.now.last self.now.node self.now.workers (base_of at.now
            builder.old))
            (replicate (self.now.workers + self.now.workers) (empty_chan cap))) }
        ensures ports { IfOk result (λ ports. ports
            ≡ all_ports (fan_slots (base_of at.now builder.old).chan
            ((base_of at.now builder.old).chan + self.now.workers) self.now.workers)) }
    {
        let from = builder.channel_count() as u32;
        let to_workers = builder.channels(alloc, self.workers, cap)?;
        let from_workers = builder.channels(alloc, self.workers, cap)?;
        let input = one_channel(alloc, at.input)?;
        let output = one_channel(alloc, at.output)?;
        let _first = builder.process(Proc {
            kind: self.first,
            node: self.node,
            arg: 0,
            ins: input,
            outs: to_workers,
        })?;
        let _last = builder.process(Proc {
            kind: self.last,
            node: self.node,
            arg: 0,
            ins: from_workers,
            outs: output,
        })?;
        let ports = worker_ports(alloc, from, self.workers)?;
        Ok(ports)
    }

    /// Gives the number of both processes.
    pub fn proc_count(&self) -> usize
        ensures { (base : Base) → length (fan_procs self.now.first self.now.last self.now.node
            self.now.workers base) ≡ result }
    {
        2
    }

    /// Gives the number of channels: two for each worker.
    pub fn chan_count(&self) -> usize
        ensures { result ≡ self.now.workers + self.now.workers }
    {
        self.workers as usize + self.workers as usize
    }

    /// Gives the slots of the workers in order, where the channels are those from `chan` on.
    pub fn slots(&self, alloc: Global, chan: u32) -> Result<List<Slot>, NoMemory>
        requires { chan + (self.now.workers + self.now.workers) ≤ 1048576 }
        ensures { IfGiven result (λ slots. slots
            ≡ fan_slots chan (chan + self.now.workers) self.now.workers) }
    {
        worker_slots(alloc, chan, self.workers)
    }
}
