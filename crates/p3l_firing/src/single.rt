// The net of a tree that is one unit.

ghost use Rattle.std.specs.Prelude.{◌≡◌, [], ◌∷◌};
ghost use Rattle.p3l_base.specs.Memory.{IfGiven};
ghost use Rattle.p3l_firing.specs.Single.{unit_net};

use crate::net::{Chan, Net};
use crate::process::{Proc, ProcKind};
use p3l_base::{List, NoMemory};
use std::alloc::Global;

/// The net of source, run and sink in a row, with channels of this capacity.
pub fn unit_net(alloc: Global, cap: u32) -> Result<Net, NoMemory>
    ensures { IfGiven result (λ net. net ≡ unit_net cap) }
{
    let mut procs = List::new(alloc);
    procs.push(process(ProcKind::Source, List::new(alloc), single(alloc, 0)?))?;
    procs.push(process(ProcKind::Sink, single(alloc, 1)?, List::new(alloc)))?;
    procs.push(process(ProcKind::Run, single(alloc, 0)?, single(alloc, 1)?))?;
    let mut chans = List::new(alloc);
    chans.push(Chan { cap, credits: 0 })?;
    chans.push(Chan { cap, credits: 0 })?;
    Ok(Net { procs, chans })
}

// A process of the root.
fn process(kind: ProcKind, ins: List<u32>, outs: List<u32>) -> Proc
    ensures { result ≡ record { kind = kind; node = 0; arg = 0; ins = ins; outs = outs } }
{
    Proc {
        kind,
        node: 0,
        arg: 0,
        ins,
        outs,
    }
}

// The list of one channel.
fn single(alloc: Global, channel: u32) -> Result<List<u32>, NoMemory>
    ensures { IfGiven result (λ list. list ≡ channel ∷ []) }
{
    let mut list = List::new(alloc);
    list.push(channel)?;
    Ok(list)
}
