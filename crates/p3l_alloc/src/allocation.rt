// The best numbers of workers.

ghost use Rattle.std.specs.Prelude.{◌≡◌, ◌<◌, ◌≤◌, ℕ, List, IfOk, IfErr, IfSome, IfNone};
ghost use Rattle.p3l_base.specs.Limits.{most_processors};
ghost use Rattle.p3l_skel.specs.Lawful.{IsLawfulTree};
ghost use Rattle.p3l_skel.specs.Numbers.{Fits, procs};
ghost use Rattle.p3l_cost.specs.Costs.{AreCostsOf};
ghost use Rattle.p3l_model.specs.NodeCost.{never};
ghost use Rattle.p3l_model.specs.Optimal.{IsChosen};
ghost use Rattle.p3l_model.specs.Service.{service};
ghost use Rattle.p3l_alloc.specs.Best.{IsBest, best_at};
ghost use Rattle.p3l_alloc.specs.Chosen.{IsRefused};
ghost use Rattle.p3l_alloc.specs.Table.{IsTableFrom};

use crate::entry::soonest;
use crate::need::least_procs;
use crate::table::{row_in, table};
use crate::walk::{first_counts, first_within};
use p3l_base::{List, NoMemory};
use p3l_cost::Costs;
use p3l_model::NEVER;
use p3l_skel::tree::NESTING;
use p3l_skel::{Counts, Tree};
use std::alloc::Global;

/// Numbers of workers, with their service time and their processes.
#[derive(Debug, Drop)]
pub struct Choice {
    pub counts: Counts,
    pub service: u128,
    pub used: u32,
}

/// The service time and the processes of the best numbers of workers.
#[derive(Clone, Copy, Debug, Drop, PartialEq, Eq)]
pub struct Best {
    pub service: u128,
    pub used: u32,
}

/// Why there is no choice.
#[derive(Clone, Copy, Debug, Drop, PartialEq, Eq)]
pub enum AllocRefusal {
    /// No lawful numbers fit the processors; the least number of processes of any is `need`.
    TooFew { need: u64 },
    /// Out of memory.
    NoMemory,
}

impl From<NoMemory> for AllocRefusal {
    ghost use Rattle.std.specs.Prelude.{◌≡◌};
    ghost use Rattle.p3l_alloc.specs.declared.allocation.AllocRefusal.TheVariants as refusal;

    ghost from_gives = { λ _ refused. refused ≡ refusal.NoMemory };

    fn from(_no_memory: NoMemory) -> AllocRefusal {
        AllocRefusal::NoMemory
    }
}

/// The best numbers of workers for a number of processors: those with the least service time, of
/// these those with the fewest processes, and of these the first in preorder.
pub fn choose(
    alloc: Global,
    tree: &Tree,
    costs: &Costs,
    processors: u32,
) -> Result<Choice, AllocRefusal>
    requires tree { IsLawfulTree tree.now }
    requires costs { AreCostsOf tree.now costs.now }
    requires some { 1 ≤ processors }
    requires few { processors ≤ most_processors }
    ensures chosen { IfOk result (λ choice.
        IsChosen tree.now costs.now processors choice.counts.list) }
    ensures service { IfOk result (λ choice. choice.service
        ≡ service tree.now costs.now choice.counts.list 0) }
    ensures used { IfOk result (λ choice. choice.used ≡ procs tree.now choice.counts.list 0) }
    ensures refused { IfErr result (IsRefused tree.now processors) }
{
    let rows = table(alloc, tree, costs, processors)?;
    choose_within(alloc, tree, costs, rows.as_slice(), processors, processors)
}

/// The best numbers of workers for a number of processors, by a table for up to `most`.
pub fn choose_within(
    alloc: Global,
    tree: &Tree,
    costs: &Costs,
    rows: &[List<u128>],
    most: u32,
    processors: u32,
) -> Result<Choice, AllocRefusal>
    requires tree { IsLawfulTree tree.now }
    requires costs { AreCostsOf tree.now costs.now }
    requires rows { IsTableFrom tree.now costs.now most rows.now 0 }
    requires few { most ≤ most_processors }
    requires within { processors ≤ most }
    ensures chosen { IfOk result (λ choice.
        IsChosen tree.now costs.now processors choice.counts.list) }
    ensures service { IfOk result (λ choice. choice.service
        ≡ service tree.now costs.now choice.counts.list 0) }
    ensures used { IfOk result (λ choice. choice.used ≡ procs tree.now choice.counts.list 0) }
    ensures refused { IfErr result (IsRefused tree.now processors) }
{
    let Some(best) = best_within(tree, costs, rows, most, processors) else {
        return Err(AllocRefusal::TooFew {
            need: least_procs(tree),
        });
    };
    let mut list = List::new(alloc);
    let used = first_counts(
        tree,
        costs,
        rows,
        most,
        NESTING,
        0,
        best.service,
        best.used,
        &mut list,
    )?;
    Ok(Choice {
        counts: Counts { list },
        service: best.service,
        used,
    })
}

/// The service time and the processes of the best numbers of workers for a number of processors, by
/// a table for up to `most`; none where no numbers fit.
pub fn best_within(
    tree: &Tree,
    costs: &Costs,
    rows: &[List<u128>],
    most: u32,
    processors: u32,
) -> Option<Best>
    requires tree { IsLawfulTree tree.now }
    requires costs { AreCostsOf tree.now costs.now }
    requires rows { IsTableFrom tree.now costs.now most rows.now 0 }
    requires few { most ≤ most_processors }
    requires within { processors ≤ most }
    ensures best { IfSome result (IsBest tree.now costs.now processors) }
    ensures given { IfSome result (λ best. best ≡ best_at tree.now rows.now processors) }
    ensures small { IfSome result (λ best. best.service < never) }
    ensures within { IfSome result (λ best. best.used ≤ processors) }
    ensures none { IfNone result ((counts : List ℕ) → ¬ Fits tree.now processors counts) }
{
    let row = row_in(tree, rows, 0);
    let service = soonest(row, processors);
    if service >= NEVER {
        return None;
    }
    let used = first_within(row, service) as u32;
    Some(Best { service, used })
}
