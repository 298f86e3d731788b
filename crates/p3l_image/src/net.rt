// Nets as fields.

ghost use Rattle.std.specs.Prelude.{◌≡◌, ◌++◌};
ghost use Rattle.p3l_base.specs.Memory.{OnGiven};
ghost use Rattle.p3l_format.specs.Format.{Gives};
ghost use Rattle.p3l_image.specs.Net.{chan_format, proc_number, proc_kind_format, proc_format, procs_format, net_format};
ghost use Rattle.p3l_image.specs.laws.Net.{lawful_chan, lawful_proc, lawful_procs, lawful_net};

use p3l_base::limits::MOST_TOKENS;
use p3l_base::{List, NoMemory};
use p3l_firing::{Chan, Net, Proc, ProcKind};
use p3l_format::{
    Field, ListField, ReadError, read_one_of, read_u32, read_u32_below, read_u32_in, write_u8,
    write_u32,
};
use p3l_tree_format::IndicesField;
use std::alloc::Global;

/// A channel: how many tokens it holds at most, and how many credits it begins with.
#[derive(Clone, Copy, Drop)]
pub struct ChanField;

impl Field for ChanField {
    type Value = Chan;

    ghost format = { λ _. chan_format };

    ghost lawful = { λ _. lawful_chan };

    #[tactic(auto, unfolding(crate::specs::Net::chan_format, p3l_format::specs::Format::pair, p3l_format::specs::Format::as_form))]
    fn read<'a>(&self, _alloc: Global, bytes: &'a [u8]) -> Result<(Chan, &'a [u8]), ReadError> {
        let (cap, rest) = read_u32_in(1, MOST_TOKENS, bytes)?;
        let (credits, rest) = read_u32_in(0, cap, rest)?;
        Ok((Chan { cap, credits }, rest))
    }

    #[tactic(auto, unfolding(crate::specs::Net::chan_format, p3l_format::specs::Format::pair, p3l_format::specs::Format::as_form, p3l_format::specs::Format::within))]
    fn write(&self, value: &Chan, out: &mut Vec<u8>) -> Result<(), NoMemory> {
        write_u32(value.cap, out)?;
        write_u32(value.credits, out)
    }
}

const CHANS: ListField<ChanField> = ListField {
    low: 0,
    high: 4_294_967_295,
    item: ChanField,
};

const KINDS: [ProcKind; 12] = [
    ProcKind::Source,
    ProcKind::Sink,
    ProcKind::Run,
    ProcKind::Emit,
    ProcKind::Collect,
    ProcKind::Scatter,
    ProcKind::Gather,
    ProcKind::Split,
    ProcKind::FoldGather,
    ProcKind::Join,
    ProcKind::Head,
    ProcKind::Tail,
];

// The kind at the front, and what is after it.
fn read_kind(bytes: &[u8]) -> Result<(ProcKind, &[u8]), ReadError>
    ensures { Gives (λ x. (x.0, x.1.now)) result (proc_kind_format.read bytes.now) }
{
    read_one_of(&KINDS, bytes)
}

// Puts a kind after others.
#[tactic(auto, unfolding(p3l_format::specs::Numbers::one_of, p3l_format::specs::Numbers::u8_format, p3l_format::specs::Format::coded))]
fn write_kind(kind: ProcKind, out: &mut Vec<u8>) -> Result<(), NoMemory>
    ensures { OnGiven result (out.new.items ≡ out.old.items ++ proc_kind_format.spell kind) }
{
    write_u8(kind_number(kind), out)
}

// The byte that stands for a kind.
fn kind_number(kind: ProcKind) -> u8
    ensures { result ≡ proc_number kind }
{
    match kind {
        ProcKind::Source => 0,
        ProcKind::Sink => 1,
        ProcKind::Run => 2,
        ProcKind::Emit => 3,
        ProcKind::Collect => 4,
        ProcKind::Scatter => 5,
        ProcKind::Gather => 6,
        ProcKind::Split => 7,
        ProcKind::FoldGather => 8,
        ProcKind::Join => 9,
        ProcKind::Head => 10,
        ProcKind::Tail => 11,
    }
}

/// A process of a tree of `nodes` nodes, in a net of `chans` channels.
#[derive(Clone, Copy, Drop)]
pub struct ProcField {
    pub nodes: usize,
    pub chans: usize,
}

impl Field for ProcField {
    type Value = Proc;

    ghost format = { λ it. proc_format it.nodes it.chans };

    ghost lawful = { λ it. lawful_proc it.nodes it.chans };

    #[tactic(auto, unfolding(crate::specs::Net::proc_format, p3l_format::specs::Format::pair, p3l_format::specs::Format::as_form))]
    fn read<'a>(&self, alloc: Global, bytes: &'a [u8]) -> Result<(Proc, &'a [u8]), ReadError> {
        let (kind, rest) = read_kind(bytes)?;
        let (node, rest) = read_u32_below(self.nodes, rest)?;
        let (arg, rest) = read_u32(rest)?;
        let (ins, rest) = IndicesField { limit: self.chans }.read(alloc, rest)?;
        let (outs, rest) = IndicesField { limit: self.chans }.read(alloc, rest)?;
        Ok((
            Proc {
                kind,
                node,
                arg,
                ins,
                outs,
            },
            rest,
        ))
    }

    #[tactic(auto, unfolding(crate::specs::Net::proc_format, p3l_format::specs::Format::pair, p3l_format::specs::Format::as_form, p3l_format::specs::Format::within))]
    fn write(&self, value: &Proc, out: &mut Vec<u8>) -> Result<(), NoMemory> {
        write_kind(value.kind, out)?;
        write_u32(value.node, out)?;
        write_u32(value.arg, out)?;
        IndicesField { limit: self.chans }.write(&value.ins, out)?;
        IndicesField { limit: self.chans }.write(&value.outs, out)
    }
}

/// The processes of a tree of `nodes` nodes, in a net of `chans` channels.
#[derive(Clone, Copy, Drop)]
pub struct ProcsField {
    pub nodes: usize,
    pub chans: usize,
}

impl Field for ProcsField {
    type Value = List<Proc>;

    ghost format = { λ it. procs_format it.nodes it.chans };

    ghost lawful = { λ it. lawful_procs it.nodes it.chans };

    #[tactic(auto, unfolding(crate::specs::Net::procs_format))]
    fn read<'a>(
        &self,
        alloc: Global,
        bytes: &'a [u8],
    ) -> Result<(List<Proc>, &'a [u8]), ReadError> {
        ListField {
            low: 0,
            high: 4_294_967_295,
            item: ProcField {
                nodes: self.nodes,
                chans: self.chans,
            },
        }
        .read(alloc, bytes)
    }

    #[tactic(auto, unfolding(crate::specs::Net::procs_format))]
    fn write(&self, value: &List<Proc>, out: &mut Vec<u8>) -> Result<(), NoMemory> {
        ListField {
            low: 0,
            high: 4_294_967_295,
            item: ProcField {
                nodes: self.nodes,
                chans: self.chans,
            },
        }
        .write(value, out)
    }
}

/// A net of a tree of `nodes` nodes: its channels, and its processes.
#[derive(Clone, Copy, Drop)]
pub struct NetField {
    pub nodes: usize,
}

impl Field for NetField {
    type Value = Net;

    ghost format = { λ it. net_format it.nodes };

    ghost lawful = { λ it. lawful_net it.nodes };

    #[tactic(auto, unfolding(crate::specs::Net::net_format, p3l_format::specs::Format::pair, p3l_format::specs::Format::as_form))]
    fn read<'a>(&self, alloc: Global, bytes: &'a [u8]) -> Result<(Net, &'a [u8]), ReadError> {
        let (chans, rest) = CHANS.read(alloc, bytes)?;
        let field = ProcsField {
            nodes: self.nodes,
            chans: chans.len(),
        };
        let (procs, rest) = field.read(alloc, rest)?;
        Ok((Net { procs, chans }, rest))
    }

    #[tactic(auto, unfolding(crate::specs::Net::net_format, p3l_format::specs::Format::pair, p3l_format::specs::Format::as_form))]
    fn write(&self, value: &Net, out: &mut Vec<u8>) -> Result<(), NoMemory> {
        CHANS.write(&value.chans, out)?;
        let field = ProcsField {
            nodes: self.nodes,
            chans: value.chans.len(),
        };
        field.write(&value.procs, out)
    }
}
