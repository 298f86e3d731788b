// The kind of a node that is one process: nothing is ever pending in it.

ghost use Rattle.std.specs.Prelude.{◌≡◌, refl};
ghost use Rattle.p3l_template.specs.RunKind.{run_kind};
ghost use Rattle.p3l_template.specs.Typing.{IsRunNode};
ghost use Rattle.p3l_template.specs.laws.RunFound.{run_found};
ghost use Rattle.p3l_template.specs.laws.RunLaw.{run_lawful};
ghost use Rattle.p3l_template.specs.laws.RunTyping.{run_serves};
ghost use Rattle.p3l_template.specs.laws.Widths.{run_tagged};

use crate::builder::{Builder, one_channel};
use crate::kind::Kind;
use crate::place::{Site, Slot};
use crate::template::{Ports, Template};
use crate::width::Width;
use p3l_base::{List, NoMemory};
use p3l_firing::{Proc, ProcKind, Shot, Token};
use p3l_skel::Tree;
use std::alloc::Global;

/// A node that is one process: a `seq`, a `comp`, or a `reduce` of one segment.
#[derive(Clone, Copy, Debug, Drop)]
pub struct RunTemplate {
    pub node: u32,
}

impl Template for RunTemplate {
    ghost shape = { λ t. (run_kind t.node).shape };

    ghost is_fit = { λ t. Unit {0} };

    ghost serves = { λ t tree node. (t.node ≡ node) × IsRunNode tree node };

    fn place(
        &self,
        alloc: Global,
        builder: &mut Builder,
        at: &Ports,
        _cap: u32,
    ) -> Result<List<Ports>, NoMemory> {
        let ins = one_channel(alloc, at.input)?;
        let outs = one_channel(alloc, at.output)?;
        let _run = builder.process(Proc {
            kind: ProcKind::Run,
            node: self.node,
            arg: 0,
            ins,
            outs,
        })?;
        Ok(List::new(alloc))
    }

    ghost lawful = { λ t _. run_lawful t.node };

    ghost typed = { λ t tree node s. run_serves tree t.node node s };
}

impl Kind for RunTemplate {
    ghost widths = { λ t. (run_kind t.node).widths };

    ghost deeper = { λ t. (run_kind t.node).deeper };

    ghost is_loop = { λ t. (run_kind t.node).is_loop };

    ghost finds = { λ t. (run_kind t.node).finds };

    fn proc_count(&self) -> usize {
        1
    }

    fn chan_count(&self) -> usize {
        0
    }

    fn slots(&self, alloc: Global, _place: &Site) -> Result<List<Slot>, NoMemory> {
        Ok(List::new(alloc))
    }

    fn push_widths(
        &self,
        _row: &mut List<Width>,
        _tree: &Tree,
        _node: u32,
        _tags: u32,
    ) -> Result<(), NoMemory> {
        Ok(())
    }

    fn deeper(&self) -> u32 {
        0
    }

    fn is_loop(&self) -> bool {
        false
    }

    fn pending(
        &self,
        alloc: Global,
        _tree: &Tree,
        _shot: &Shot,
        _place: &Site,
        _inner: &[List<Token>],
    ) -> Result<Option<List<Token>>, NoMemory> {
        Ok(Some(List::new(alloc)))
    }

    ghost tagged = { λ t tree node. run_tagged t.node tree node };

    ghost counted = { λ t tree node tags base s. refl };

    ghost found = { λ t. run_found t.node };
}
