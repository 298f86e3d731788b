// The template of a node, whatever its kind.

ghost use Rattle.std.specs.Prelude.{◌≡◌};
ghost use Rattle.p3l_link.specs.Node.{IsFit, Serves, kind_of};
ghost use Rattle.p3l_link.specs.NodeLaw.{kind_counted, kind_found, kind_lawful, kind_tagged, kind_typed};

use p3l_base::{List, NoMemory};
use p3l_farm::FarmTemplate;
use p3l_firing::{Shot, Token};
use p3l_loop::LoopTemplate;
use p3l_map::MapTemplate;
use p3l_reduce::ReduceTemplate;
use p3l_skel::Tree;
use p3l_template::{Builder, Kind, PipeTemplate, Ports, RunTemplate, Site, Slot, Template, Width};
use std::alloc::Global;

/// The template of a node, one variant a kind: what is asked of it, its kind answers.
#[derive(Clone, Copy, Debug, Drop)]
pub enum NodeTemplate {
    Run(RunTemplate),
    Pipe(PipeTemplate),
    Farm(FarmTemplate),
    Map(MapTemplate),
    Reduce(ReduceTemplate),
    Loop(LoopTemplate),
}

impl Template for NodeTemplate {
    ghost shape = { λ t. (kind_of t).shape };

    ghost is_fit = { λ t. IsFit t };

    ghost serves = { λ t tree node. Serves t tree node };

    fn place(
        &self,
        alloc: Global,
        builder: &mut Builder,
        at: &Ports,
        cap: u32,
    ) -> Result<List<Ports>, NoMemory> {
        match self {
            NodeTemplate::Run(it) => it.place(alloc, builder, at, cap),
            NodeTemplate::Pipe(it) => it.place(alloc, builder, at, cap),
            NodeTemplate::Farm(it) => it.place(alloc, builder, at, cap),
            NodeTemplate::Map(it) => it.place(alloc, builder, at, cap),
            NodeTemplate::Reduce(it) => it.place(alloc, builder, at, cap),
            NodeTemplate::Loop(it) => it.place(alloc, builder, at, cap),
        }
    }

    ghost lawful = { λ t fit. kind_lawful t fit };

    ghost typed = { λ t tree node s. kind_typed t tree node s };
}

impl Kind for NodeTemplate {
    ghost widths = { λ t. (kind_of t).widths };

    ghost deeper = { λ t. (kind_of t).deeper };

    ghost is_loop = { λ t. (kind_of t).is_loop };

    ghost finds = { λ t. (kind_of t).finds };

    fn proc_count(&self) -> usize {
        match self {
            NodeTemplate::Run(it) => it.proc_count(),
            NodeTemplate::Pipe(it) => it.proc_count(),
            NodeTemplate::Farm(it) => it.proc_count(),
            NodeTemplate::Map(it) => it.proc_count(),
            NodeTemplate::Reduce(it) => it.proc_count(),
            NodeTemplate::Loop(it) => it.proc_count(),
        }
    }

    fn chan_count(&self) -> usize {
        match self {
            NodeTemplate::Run(it) => it.chan_count(),
            NodeTemplate::Pipe(it) => it.chan_count(),
            NodeTemplate::Farm(it) => it.chan_count(),
            NodeTemplate::Map(it) => it.chan_count(),
            NodeTemplate::Reduce(it) => it.chan_count(),
            NodeTemplate::Loop(it) => it.chan_count(),
        }
    }

    fn slots(&self, alloc: Global, place: &Site) -> Result<List<Slot>, NoMemory> {
        match self {
            NodeTemplate::Run(it) => it.slots(alloc, place),
            NodeTemplate::Pipe(it) => it.slots(alloc, place),
            NodeTemplate::Farm(it) => it.slots(alloc, place),
            NodeTemplate::Map(it) => it.slots(alloc, place),
            NodeTemplate::Reduce(it) => it.slots(alloc, place),
            NodeTemplate::Loop(it) => it.slots(alloc, place),
        }
    }

    fn push_widths(
        &self,
        row: &mut List<Width>,
        tree: &Tree,
        node: u32,
        tags: u32,
    ) -> Result<(), NoMemory> {
        match self {
            NodeTemplate::Run(it) => it.push_widths(row, tree, node, tags),
            NodeTemplate::Pipe(it) => it.push_widths(row, tree, node, tags),
            NodeTemplate::Farm(it) => it.push_widths(row, tree, node, tags),
            NodeTemplate::Map(it) => it.push_widths(row, tree, node, tags),
            NodeTemplate::Reduce(it) => it.push_widths(row, tree, node, tags),
            NodeTemplate::Loop(it) => it.push_widths(row, tree, node, tags),
        }
    }

    fn deeper(&self) -> u32 {
        match self {
            NodeTemplate::Run(it) => it.deeper(),
            NodeTemplate::Pipe(it) => it.deeper(),
            NodeTemplate::Farm(it) => it.deeper(),
            NodeTemplate::Map(it) => it.deeper(),
            NodeTemplate::Reduce(it) => it.deeper(),
            NodeTemplate::Loop(it) => it.deeper(),
        }
    }

    fn is_loop(&self) -> bool {
        match self {
            NodeTemplate::Run(it) => it.is_loop(),
            NodeTemplate::Pipe(it) => it.is_loop(),
            NodeTemplate::Farm(it) => it.is_loop(),
            NodeTemplate::Map(it) => it.is_loop(),
            NodeTemplate::Reduce(it) => it.is_loop(),
            NodeTemplate::Loop(it) => it.is_loop(),
        }
    }

    fn pending(
        &self,
        alloc: Global,
        tree: &Tree,
        shot: &Shot,
        place: &Site,
        inner: &[List<Token>],
    ) -> Result<Option<List<Token>>, NoMemory> {
        match self {
            NodeTemplate::Run(it) => it.pending(alloc, tree, shot, place, inner),
            NodeTemplate::Pipe(it) => it.pending(alloc, tree, shot, place, inner),
            NodeTemplate::Farm(it) => it.pending(alloc, tree, shot, place, inner),
            NodeTemplate::Map(it) => it.pending(alloc, tree, shot, place, inner),
            NodeTemplate::Reduce(it) => it.pending(alloc, tree, shot, place, inner),
            NodeTemplate::Loop(it) => it.pending(alloc, tree, shot, place, inner),
        }
    }

    ghost tagged = { λ t tree node. kind_tagged t tree node };

    ghost counted = { λ t tree node tags base s. kind_counted t tree node tags base s };

    ghost found = { λ t. kind_found t };
}
