// Farms on demand.

ghost use Rattle.std.specs.Prelude.{◌≡◌, ◌≤◌};
ghost use Rattle.p3l_firing.specs.declared.process.ProcKind.TheVariants.{Emit, Collect};
ghost use Rattle.p3l_farm.specs.Farm.{IsFarmNode};
ghost use Rattle.p3l_farm.specs.FarmKind.{farm_kind};
ghost use Rattle.p3l_farm.specs.laws.FarmFound.{farm_found};
ghost use Rattle.p3l_farm.specs.laws.FarmLaw.{farm_lawful};
ghost use Rattle.p3l_farm.specs.laws.FarmTyping.{farm_serves};
ghost use Rattle.p3l_farm.specs.laws.FarmWidths.{farm_tagged};
ghost use Rattle.p3l_template.specs.laws.FanTyping.{rows_count};

use crate::found::by_lines;
use p3l_base::{List, NoMemory};
use p3l_firing::{ProcKind, Shot, Token};
use p3l_skel::Tree;
use p3l_template::lines::all_lines;
use p3l_template::width::{ins_width, outs_width, push_workers};
use p3l_template::{Builder, Fan, Kind, Ports, Site, Slot, Template, Width};
use std::alloc::Global;

/// A farm on demand: each token goes to the worker that has the fewest waiting, and all leave in the
/// order in which they came.
#[derive(Clone, Copy, Debug, Drop)]
pub struct FarmTemplate {
    pub node: u32,
    pub workers: u32,
}

impl FarmTemplate {
    // The workers, between Emit and Collect.
    fn fan(&self) -> Fan
        ensures { result ≡ record {
          node = self.now.node;
          workers = self.now.workers;
          first = Emit;
          last = Collect;
        } }
    {
        Fan {
            node: self.node,
            workers: self.workers,
            first: ProcKind::Emit,
            last: ProcKind::Collect,
        }
    }
}

impl Template for FarmTemplate {
    ghost shape = { λ t. (farm_kind t.node t.workers).shape };

    ghost is_fit = { λ t. 1 ≤ t.workers };

    ghost serves = { λ t tree node. (t.node ≡ node) × IsFarmNode tree node t.workers };

    fn place(
        &self,
        alloc: Global,
        builder: &mut Builder,
        at: &Ports,
        cap: u32,
    ) -> Result<List<Ports>, NoMemory> {
        self.fan().place(alloc, builder, at, cap)
    }

    ghost lawful = { λ t fit. farm_lawful t.node t.workers fit };

    ghost typed = { λ t tree node s. farm_serves tree t.node node t.workers s };
}

impl Kind for FarmTemplate {
    ghost widths = { λ t. (farm_kind t.node t.workers).widths };

    ghost deeper = { λ t. (farm_kind t.node t.workers).deeper };

    ghost is_loop = { λ t. (farm_kind t.node t.workers).is_loop };

    ghost finds = { λ t. (farm_kind t.node t.workers).finds };

    fn proc_count(&self) -> usize {
        self.fan().proc_count()
    }

    fn chan_count(&self) -> usize {
        self.fan().chan_count()
    }

    fn slots(&self, alloc: Global, place: &Site) -> Result<List<Slot>, NoMemory> {
        self.fan().slots(alloc, place.chan)
    }

    fn push_widths(
        &self,
        row: &mut List<Width>,
        tree: &Tree,
        node: u32,
        tags: u32,
    ) -> Result<(), NoMemory> {
        let before = ins_width(tree, node, tags + 1);
        push_workers(row, self.workers, before, outs_width(tree, node, tags + 1))
    }

    fn deeper(&self) -> u32 {
        1
    }

    fn is_loop(&self) -> bool {
        false
    }

    fn pending(
        &self,
        alloc: Global,
        _tree: &Tree,
        shot: &Shot,
        place: &Site,
        inner: &[List<Token>],
    ) -> Result<Option<List<Token>>, NoMemory> {
        let lines = all_lines(alloc, shot, place.chan, self.workers, inner)?;
        let next = shot.number(place.proc as usize);
        let least = shot.number(place.proc as usize + 1);
        by_lines(alloc, next, least, lines.as_slice())
    }

    ghost tagged = { λ t tree node. farm_tagged t.node t.workers tree node };

    ghost counted = { λ t tree node tags base s. rows_count t.workers _ _ };

    ghost found = { λ t. farm_found t.node t.workers };
}
