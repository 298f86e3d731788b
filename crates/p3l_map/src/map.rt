// Maps.

ghost use Rattle.std.specs.Prelude.{◌≡◌, ◌≤◌};
ghost use Rattle.p3l_skel.specs.Tree.{part_at};
ghost use Rattle.p3l_firing.specs.declared.process.ProcKind.TheVariants.{Scatter, Gather};
ghost use Rattle.p3l_map.specs.MapKind.{map_kind};
ghost use Rattle.p3l_map.specs.MapShape.{IsMapNode};
ghost use Rattle.p3l_map.specs.laws.MapFound.{map_found};
ghost use Rattle.p3l_map.specs.laws.MapLaw.{map_lawful};
ghost use Rattle.p3l_map.specs.laws.MapTyping.{map_serves};
ghost use Rattle.p3l_map.specs.laws.MapWidths.{map_tagged};
ghost use Rattle.p3l_template.specs.laws.FanTyping.{rows_count};

use crate::found::{by_lines, number_of_pieces};
use p3l_base::{List, NoMemory};
use p3l_firing::{ProcKind, Shot, Token};
use p3l_skel::Tree;
use p3l_template::lines::all_lines;
use p3l_template::width::{ins_width, outs_width, push_workers};
use p3l_template::{Builder, Fan, Kind, Ports, Site, Slot, Template, Width};
use std::alloc::Global;

/// A map: the elements of each token go to the workers by turns, and their results are joined in
/// the elements' order.
#[derive(Clone, Copy, Debug, Drop)]
pub struct MapTemplate {
    pub node: u32,
    pub workers: u32,
}

impl MapTemplate {
    // The workers, between Scatter and Gather.
    fn fan(&self) -> Fan
        ensures { result ≡ record {
          node = self.now.node;
          workers = self.now.workers;
          first = Scatter;
          last = Gather;
        } }
    {
        Fan {
            node: self.node,
            workers: self.workers,
            first: ProcKind::Scatter,
            last: ProcKind::Gather,
        }
    }
}

impl Template for MapTemplate {
    ghost shape = { λ t. (map_kind t.node t.workers).shape };

    ghost is_fit = { λ t. 1 ≤ t.workers };

    ghost serves = { λ t tree node. (t.node ≡ node) × IsMapNode tree node t.workers };

    fn place(
        &self,
        alloc: Global,
        builder: &mut Builder,
        at: &Ports,
        cap: u32,
    ) -> Result<List<Ports>, NoMemory> {
        self.fan().place(alloc, builder, at, cap)
    }

    ghost lawful = { λ t fit. map_lawful t.node t.workers fit };

    ghost typed = { λ t tree node s. map_serves tree t.node node t.workers s };
}

impl Kind for MapTemplate {
    ghost widths = { λ t. (map_kind t.node t.workers).widths };

    ghost deeper = { λ t. (map_kind t.node t.workers).deeper };

    ghost is_loop = { λ t. (map_kind t.node t.workers).is_loop };

    ghost finds = { λ t. (map_kind t.node t.workers).finds };

    fn proc_count(&self) -> usize {
        self.fan().proc_count()
    }

    fn chan_count(&self) -> usize {
        self.fan().chan_count()
    }

    fn slots(&self, alloc: Global, place: &Site) -> Result<List<Slot>, NoMemory> {
        self.fan().slots(alloc, place.chan)
    }

    fn push_widths(
        &self,
        row: &mut List<Width>,
        tree: &Tree,
        node: u32,
        tags: u32,
    ) -> Result<(), NoMemory> {
        let part = first_part(tree, node);
        let before = ins_width(tree, part, tags);
        push_workers(row, self.workers, before, outs_width(tree, part, tags))
    }

    fn deeper(&self) -> u32 {
        0
    }

    fn is_loop(&self) -> bool {
        false
    }

    fn pending(
        &self,
        alloc: Global,
        tree: &Tree,
        shot: &Shot,
        place: &Site,
        inner: &[List<Token>],
    ) -> Result<Option<List<Token>>, NoMemory> {
        let lines = all_lines(alloc, shot, place.chan, self.workers, inner)?;
        let number = number_of_pieces(tree, self.node);
        let held = shot.held(place.proc as usize + 1);
        let sending = shot.held(place.proc as usize);
        let sent = shot.number(place.proc as usize);
        by_lines(alloc, number, held, lines.as_slice(), sending, sent)
    }

    ghost tagged = { λ t tree node. map_tagged t.node t.workers tree node };

    ghost counted = { λ t tree node tags base s. rows_count t.workers _ _ };

    ghost found = { λ t. map_found t.node t.workers };
}

// The number of a node's first part.
fn first_part(tree: &Tree, node: u32) -> u32
    ensures { result ≡ part_at tree.now node 0 }
{
    match tree.node(node) {
        Some(found) => found.part(0),
        None => 0,
    }
}
