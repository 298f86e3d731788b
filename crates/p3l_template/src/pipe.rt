// The kind of a pipe. The tokens pending in it are those in its stages and between them, from the
// last stage on.

ghost use Rattle.std.specs.Prelude.{◌≡◌, ◌≤◌, ◌-◌, ◌+◌, ◌++◌, length};
ghost use Rattle.p3l_base.specs.Memory.{IfGiven};
ghost use Rattle.p3l_firing.specs.Shot.{HaveFewTags, state_of};
ghost use Rattle.p3l_template.specs.Finding.{bares};
ghost use Rattle.p3l_template.specs.Pipe.{stage_slots};
ghost use Rattle.p3l_template.specs.PipeKind.{in_stages, pipe_kind, waiting};
ghost use Rattle.p3l_template.specs.Typing.{IsPipeNode};
ghost use Rattle.p3l_template.specs.laws.PipeFound.{pipe_found};
ghost use Rattle.p3l_template.specs.laws.PipeLaw.{pipe_lawful};
ghost use Rattle.p3l_template.specs.laws.PipeTyping.{pipe_counted, pipe_serves};
ghost use Rattle.p3l_template.specs.laws.Widths.{pipe_tagged};

use crate::bare::{add_bare, add_saved};
use crate::builder::Builder;
use crate::kind::Kind;
use crate::place::{Site, Slot};
use crate::template::{Ports, Template};
use crate::width::{Width, push_stages};
use p3l_base::{List, NoMemory};
use p3l_firing::{Shot, Token};
use p3l_skel::Tree;
use std::alloc::Global;

/// Stages one after the other, each on processes of its own.
#[derive(Clone, Copy, Debug, Drop)]
pub struct PipeTemplate {
    pub stages: u32,
}

impl Template for PipeTemplate {
    ghost shape = { λ t. (pipe_kind t.stages).shape };

    ghost is_fit = { λ t. 1 ≤ t.stages };

    ghost serves = { λ t tree node. IsPipeNode tree node t.stages };

    fn place(
        &self,
        alloc: Global,
        builder: &mut Builder,
        at: &Ports,
        cap: u32,
    ) -> Result<List<Ports>, NoMemory> {
        let mut ports = List::new(alloc);
        let mut input = at.input;
        for _stage in 0..self.stages - 1 {
            let output = builder.channel(cap, 0)?;
            ports.push(Ports { input, output })?;
            input = output;
        }
        ports.push(Ports {
            input,
            output: at.output,
        })?;
        Ok(ports)
    }

    ghost lawful = { λ t _. pipe_lawful (t.stages - 1) };

    ghost typed = { λ t tree node is. pipe_serves tree t.stages node is };
}

impl Kind for PipeTemplate {
    ghost widths = { λ t. (pipe_kind t.stages).widths };

    ghost deeper = { λ t. (pipe_kind t.stages).deeper };

    ghost is_loop = { λ t. (pipe_kind t.stages).is_loop };

    ghost finds = { λ t. (pipe_kind t.stages).finds };

    fn proc_count(&self) -> usize {
        0
    }

    fn chan_count(&self) -> usize {
        self.stages as usize - 1
    }

    fn slots(&self, alloc: Global, place: &Site) -> Result<List<Slot>, NoMemory> {
        let last = self.stages - 1;
        stage_slots(alloc, last, place.input, place.chan, place.output)
    }

    fn push_widths(
        &self,
        row: &mut List<Width>,
        tree: &Tree,
        node: u32,
        tags: u32,
    ) -> Result<(), NoMemory> {
        let Some(found) = tree.node(node) else {
            return Ok(());
        };
        push_stages(row, tree, tags, found.parts.as_slice())
    }

    fn deeper(&self) -> u32 {
        0
    }

    fn is_loop(&self) -> bool {
        false
    }

    fn pending(
        &self,
        alloc: Global,
        _tree: &Tree,
        shot: &Shot,
        place: &Site,
        inner: &[List<Token>],
    ) -> Result<Option<List<Token>>, NoMemory> {
        let pending = in_pipe(alloc, shot, place.chan, inner)?;
        Ok(Some(pending))
    }

    ghost tagged = { λ t tree node. pipe_tagged t.stages tree node };

    ghost counted = { λ t tree node tags base is. pipe_counted tree t.stages node tags is };

    ghost found = { λ t. pipe_found (t.stages - 1) };
}

// The slots of the stages between channels `from` and `to`, where the `last` channels between them
// are those from `chan` on.
fn stage_slots(
    alloc: Global,
    last: u32,
    from: u32,
    chan: u32,
    to: u32,
) -> Result<List<Slot>, NoMemory>
    requires { chan + last ≤ 1048576 }
    ensures { IfGiven result (λ slots. slots ≡ stage_slots 0 from chan to last) }
{
    let mut slots = List::new(alloc);
    let mut input = from;
    for part in 0..last {
        let output = chan + part;
        slots.push(Slot {
            input,
            output,
            part,
        })?;
        input = output;
    }
    slots.push(Slot {
        input,
        output: to,
        part: last,
    })?;
    Ok(slots)
}

// Puts what is pending in a stage after other tokens, and then what waits before it in a channel of
// the pipe's own, which are those from `chan` on.
fn add_stage(
    alloc: Global,
    shot: &Shot,
    list: &mut List<Token>,
    chan: u32,
    stage: usize,
    pending: &List<Token>,
) -> Result<(), NoMemory>
    requires stage { chan + stage ≤ 1048577 }
    requires few { HaveFewTags shot.now }
    ensures { IfGiven result (λ _. list.new
        ≡ list.old ++ (bares pending.now ++ waiting (state_of shot.now) chan stage)) }
{
    add_bare(alloc, list, pending.as_slice())?;
    if stage == 0 {
        return Ok(());
    }
    add_saved(alloc, list, shot.tokens(chan as usize + (stage - 1)))
}

// The tokens pending in a pipe whose own channels are those from `chan` on.
fn in_pipe(
    alloc: Global,
    shot: &Shot,
    chan: u32,
    inner: &[List<Token>],
) -> Result<List<Token>, NoMemory>
    requires chans { chan + length inner.now ≤ 1048577 }
    requires few { HaveFewTags shot.now }
    ensures { IfGiven result (λ list. list ≡ in_stages (state_of shot.now) chan inner.now) }
{
    let mut list = List::new(alloc);
    for later in 0..inner.len() {
        let stage = inner.len() - 1 - later;
        add_stage(alloc, shot, &mut list, chan, stage, &inner[stage])?;
    }
    Ok(list)
}
