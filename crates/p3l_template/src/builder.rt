// Nets that are being built.

ghost use Rattle.std.specs.Prelude.{◌≡◌, ◌<◌, ◌≤◌, ◌+◌, ◌++◌, [], ◌∷◌, length, IfOk, replicate};
ghost use Rattle.p3l_base.specs.Memory.{IfGiven};
ghost use Rattle.p3l_template.specs.Shape.{empty_chan};
ghost use Rattle.p3l_template.specs.Shape.{numbers_from};

use p3l_base::{List, NoMemory};
use p3l_firing::{Chan, Net, Proc};
use std::alloc::Global;
use std::marker::Model;

/// The list of one channel.
pub fn one_channel(alloc: Global, channel: u32) -> Result<List<u32>, NoMemory>
    ensures { IfGiven result (λ channels. channels ≡ channel ∷ []) }
{
    let mut channels = List::new(alloc);
    channels.push(channel)?;
    Ok(channels)
}

/// A net that is being built: processes and channels, each numbered by its place from 0.
///
/// A builder that was refused memory is to be dropped.
#[derive(Drop)]
pub struct Builder {
    procs: List<Proc>,
    chans: List<Chan>,
}

impl Model for Builder {
    ghost use Rattle.p3l_firing.specs.declared.net.Net.{Net};

    ghost Value = { Net };

    ghost view = { λ b. record { procs = b.procs; chans = b.chans } };
}

impl Builder {
    /// A net with nothing in it yet.
    pub fn new(alloc: Global) -> Builder
        ensures { result ≡ record { procs = []; chans = [] } }
    {
        Builder {
            procs: List::new(alloc),
            chans: List::new(alloc),
        }
    }

    /// Adds a channel and gives its number.
    pub fn channel(&mut self, cap: u32, credits: u32) -> Result<u32, NoMemory>
        requires { length self.old.chans < 1048576 }
        ensures number { IfGiven result (λ n. n ≡ length self.old.chans) }
        ensures added { IfOk result (λ n. self.new
            ≡ record {
              procs = self.old.procs;
              chans = self.old.chans
                  ++ record { cap = cap; credits = credits } ∷ [];
            }) }
    {
        let number = self.chans.len() as u32;
        self.chans.push(Chan { cap, credits })?;
        Ok(number)
    }

    /// Adds a process and gives its number.
    pub fn process(&mut self, proc: Proc) -> Result<u32, NoMemory>
        requires { length self.old.procs < 1048576 }
        ensures number { IfGiven result (λ n. n ≡ length self.old.procs) }
        ensures added { IfOk result (λ n. self.new
            ≡ record { procs = self.old.procs ++ proc ∷ []; chans = self.old.chans }) }
    {
        let number = self.procs.len() as u32;
        self.procs.push(proc)?;
        Ok(number)
    }

    /// Adds `count` channels without credits and gives their numbers.
    pub fn channels(&mut self, alloc: Global, count: u32, cap: u32) -> Result<List<u32>, NoMemory>
        requires { length self.old.chans + count ≤ 1048576 }
        ensures numbers { IfGiven result (λ numbers. numbers
            ≡ numbers_from (length self.old.chans) count) }
        ensures added { IfOk result (λ numbers. self.new
            ≡ record {
              procs = self.old.procs;
              chans = self.old.chans
                  ++ replicate count (empty_chan cap);
            }) }
    {
        let mut numbers = List::new(alloc);
        for _done in 0..count {
            let number = self.channel(cap, 0)?;
            numbers.push(number)?;
        }
        Ok(numbers)
    }

    /// The number of processes.
    pub fn process_count(&self) -> usize
        ensures { result ≡ length self.now.procs }
    {
        self.procs.len()
    }

    /// The number of channels.
    pub fn channel_count(&self) -> usize
        ensures { result ≡ length self.now.chans }
    {
        self.chans.len()
    }

    /// The net as it was built.
    pub fn finish(self) -> Net
        ensures { result ≡ self }
    {
        Net {
            procs: self.procs,
            chans: self.chans,
        }
    }
}
