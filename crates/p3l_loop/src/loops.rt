// The template of a loop.

ghost use Rattle.std.specs.Prelude.{◌≡◌, ◌<◌, ◌≤◌, ℕ, refl};
ghost use Rattle.p3l_base.specs.declared.outcome.Outcome.{Outcome};
ghost use Rattle.p3l_loop.specs.Loop.{IsLoopNode, Laps, rounds, turns};
ghost use Rattle.p3l_loop.specs.LoopKind.{loop_kind};
ghost use Rattle.p3l_loop.specs.laws.LoopFound.{loop_found};
ghost use Rattle.p3l_loop.specs.laws.LoopLaw.{loop_lawful};
ghost use Rattle.p3l_loop.specs.laws.LoopTyping.{loop_serves};
ghost use Rattle.p3l_loop.specs.laws.LoopWidths.{loop_tagged};

use crate::found::{by_seen, look_at, turns_of};
use p3l_base::{List, NoMemory};
use p3l_firing::{Proc, ProcKind, Shot, Token};
use p3l_skel::Tree;
use p3l_template::builder::one_channel;
use p3l_template::width::{ins_width, outs_width};
use p3l_template::{Builder, Kind, NO_WIDTH, Ports, Site, Slot, Template, Width};
use std::alloc::Global;

/// A loop with at most `tokens` tokens in it at once, each of which goes round its body until the
/// condition says that it is done; all leave in the order in which they came.
#[derive(Clone, Copy, Debug, Drop)]
pub struct LoopTemplate {
    pub node: u32,
    pub tokens: u32,
}

impl Template for LoopTemplate {
    ghost shape = { λ t. (loop_kind t.node t.tokens).shape };

    ghost is_fit = { λ t. 1 ≤ t.tokens };

    ghost serves = { λ t tree node. (t.node ≡ node) × IsLoopNode tree node };

    fn place(
        &self,
        alloc: Global,
        builder: &mut Builder,
        at: &Ports,
        cap: u32,
    ) -> Result<List<Ports>, NoMemory> {
        let to_body = builder.channel(cap, 0)?;
        let from_body = builder.channel(cap, 0)?;
        let back = builder.channel(self.tokens, 0)?;
        let credits = builder.channel(self.tokens, self.tokens)?;
        let head_ins = List::from_vec(vec![in alloc; at.input, back, credits]?);
        let head_outs = one_channel(alloc, to_body)?;
        let _head = builder.process(Proc {
            kind: ProcKind::Head,
            node: self.node,
            arg: 0,
            ins: head_ins,
            outs: head_outs,
        })?;
        let tail_ins = one_channel(alloc, from_body)?;
        let tail_outs = List::from_vec(vec![in alloc; at.output, back, credits]?);
        let _tail = builder.process(Proc {
            kind: ProcKind::Tail,
            node: self.node,
            arg: 0,
            ins: tail_ins,
            outs: tail_outs,
        })?;
        let mut ports = List::new(alloc);
        ports.push(Ports {
            input: to_body,
            output: from_body,
        })?;
        Ok(ports)
    }

    ghost lawful = { λ t fit. loop_lawful t.node t.tokens fit };

    ghost typed = { λ t tree node s. loop_serves tree t.node node t.tokens s };
}

impl Kind for LoopTemplate {
    ghost widths = { λ t. (loop_kind t.node t.tokens).widths };

    ghost deeper = { λ t. (loop_kind t.node t.tokens).deeper };

    ghost is_loop = { λ t. (loop_kind t.node t.tokens).is_loop };

    ghost finds = { λ t. (loop_kind t.node t.tokens).finds };

    fn proc_count(&self) -> usize {
        2
    }

    fn chan_count(&self) -> usize {
        4
    }

    fn slots(&self, alloc: Global, place: &Site) -> Result<List<Slot>, NoMemory> {
        let mut slots = List::new(alloc);
        slots.push(Slot {
            input: place.chan,
            output: place.chan + 1,
            part: 0,
        })?;
        Ok(slots)
    }

    fn push_widths(
        &self,
        row: &mut List<Width>,
        tree: &Tree,
        node: u32,
        tags: u32,
    ) -> Result<(), NoMemory> {
        let ins = ins_width(tree, node, tags + 2);
        row.push(ins)?;
        row.push(outs_width(tree, node, tags + 2))?;
        row.push(ins)?;
        row.push(NO_WIDTH)
    }

    fn deeper(&self) -> u32 {
        2
    }

    fn is_loop(&self) -> bool {
        true
    }

    fn pending(
        &self,
        alloc: Global,
        tree: &Tree,
        shot: &Shot,
        place: &Site,
        inner: &[List<Token>],
    ) -> Result<Option<List<Token>>, NoMemory> {
        let seen = look_at(alloc, shot, place, &inner[0])?;
        by_seen(alloc, turns_of(tree, self.node), self.tokens, &seen)
    }

    ghost tagged = { λ t tree node. loop_tagged t.node t.tokens tree node };

    ghost counted = { λ t tree node tags base _. refl };

    ghost found = { λ t. loop_found t.node t.tokens };
}

/// The rounds of a token in the ring compute the turns of the loop.
pub fn goes_round_as_said()
    ensures { (l : Laps) (outcome : Outcome) → 0 < l.turns
        → rounds l outcome ≡ turns l l.turns outcome }
{}
