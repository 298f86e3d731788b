// The template of a reduce.

ghost use Rattle.std.specs.Prelude.{◌≡◌, ◌≤◌, ◌^◌, ℕ};
ghost use Rattle.p3l_firing.specs.Segments.{level_of};
ghost use Rattle.p3l_reduce.specs.Meaning.{JoinsFoldTheWhole};
ghost use Rattle.p3l_reduce.specs.Reduce.{IsReduceNode};
ghost use Rattle.p3l_reduce.specs.ReduceKind.{reduce_kind};
ghost use Rattle.p3l_reduce.specs.laws.ReduceFound.{reduce_found};
ghost use Rattle.p3l_reduce.specs.laws.ReduceLaw.{reduce_lawful};
ghost use Rattle.p3l_reduce.specs.laws.ReduceTyping.{reduce_counted, reduce_serves};
ghost use Rattle.p3l_reduce.specs.laws.ReduceWidths.{reduce_tagged};

use crate::found::in_joins;
use crate::segments::{level_within, segment_count};
use crate::tree::place_tree;
use crate::widths::{elem_of, push_reduce};
use p3l_base::{List, NoMemory};
use p3l_firing::{Shot, Token};
use p3l_skel::Tree;
use p3l_template::width::outs_width;
use p3l_template::{Builder, Kind, Ports, RunTemplate, Site, Slot, Template, Width};
use std::alloc::Global;

/// A reduce of `len` elements, which are cut into `segments` segments: these are folded side by
/// side, and their results are joined two by two. One segment is one process. A number of segments
/// that is no power of two counts as the greatest one below it, and one above the limit of workers
/// counts as that limit.
#[derive(Clone, Copy, Debug, Drop)]
pub struct ReduceTemplate {
    pub node: u32,
    pub segments: u32,
    pub len: u32,
}

impl ReduceTemplate {
    // The number of times that its segments can be halved.
    fn level(&self) -> u32
        ensures value { result ≡ level_of self.now.segments }
        ensures few { result ≤ 9 }
    {
        level_within(9, self.segments)
    }
}

impl Template for ReduceTemplate {
    ghost shape = { λ t. (reduce_kind t.node t.len (level_of t.segments)).shape };

    ghost is_fit = { λ t. 1 ≤ t.segments };

    ghost serves = { λ t tree node. (t.node ≡ node) × IsReduceNode tree node t.segments t.len };

    fn place(
        &self,
        alloc: Global,
        builder: &mut Builder,
        at: &Ports,
        cap: u32,
    ) -> Result<List<Ports>, NoMemory> {
        let level = self.level();
        if level == 0 {
            return RunTemplate { node: self.node }.place(alloc, builder, at, cap);
        }
        place_tree(alloc, self.node, level, self.len, builder, at, cap)?;
        Ok(List::new(alloc))
    }

    ghost lawful = { λ t _. reduce_lawful t.node t.len (level_of t.segments) };

    ghost typed = { λ t tree node s. reduce_serves tree t.node node t.segments t.len s };
}

impl Kind for ReduceTemplate {
    ghost widths = { λ t. (reduce_kind t.node t.len (level_of t.segments)).widths };

    ghost deeper = { λ t. (reduce_kind t.node t.len (level_of t.segments)).deeper };

    ghost is_loop = { λ t. (reduce_kind t.node t.len (level_of t.segments)).is_loop };

    ghost finds = { λ t. (reduce_kind t.node t.len (level_of t.segments)).finds };

    fn proc_count(&self) -> usize {
        let level = self.level();
        if level == 0 {
            return 1;
        }
        2 * segment_count(level) as usize
    }

    fn chan_count(&self) -> usize {
        let level = self.level();
        if level == 0 {
            return 0;
        }
        3 * segment_count(level) as usize - 2
    }

    fn slots(&self, alloc: Global, _place: &Site) -> Result<List<Slot>, NoMemory> {
        Ok(List::new(alloc))
    }

    fn push_widths(
        &self,
        row: &mut List<Width>,
        tree: &Tree,
        node: u32,
        tags: u32,
    ) -> Result<(), NoMemory> {
        let joined = outs_width(tree, node, tags);
        push_reduce(row, elem_of(tree, node), self.len, joined, self.level())
    }

    fn deeper(&self) -> u32 {
        0
    }

    fn is_loop(&self) -> bool {
        false
    }

    fn pending(
        &self,
        alloc: Global,
        _tree: &Tree,
        shot: &Shot,
        place: &Site,
        _inner: &[List<Token>],
    ) -> Result<Option<List<Token>>, NoMemory> {
        let level = self.level();
        if level == 0 {
            return Ok(Some(List::new(alloc)));
        }
        in_joins(alloc, shot, place, level)
    }

    ghost tagged = { λ t tree node. reduce_tagged t.node t.len (level_of t.segments) tree node };

    ghost counted = { λ t tree node tags base _. reduce_counted tree t.node node t.len (level_of t.segments) tags base };

    ghost found = { λ t. reduce_found t.node t.len (level_of t.segments) };
}

/// The joins of the segments' folds give the tree fold of the whole, for every power of two of
/// segments.
pub fn joins_fold_the_whole()
    ensures { JoinsFoldTheWhole }
{}

/// The level of a power of two of segments is its exponent.
pub fn keeps_powers_of_two()
    ensures { (k : ℕ) → k ≤ 9 → level_of (2 ^ k) ≡ k }
{}
