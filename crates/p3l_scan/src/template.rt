// The template of a scan.

ghost use Rattle.std.specs.Prelude.{◌≡◌, ◌≤◌, ◌-◌, length};
ghost use Rattle.p3l_scan.specs.Template.{IsScan, scan_shape};
ghost use Rattle.p3l_scan.specs.laws.ScanLaw.{scan_lawful, scan_serves};

use crate::plan::ScanPlan;
use crate::stages::StagesTemplate;
use p3l_base::{List, NoMemory};
use p3l_template::{Builder, Ports, Template};
use std::alloc::Global;

/// The processes and channels of a plan: a pipe of stages, each a map over blocks.
#[derive(Debug, Drop)]
pub struct ScanTemplate {
    pub plan: ScanPlan,
}

impl Template for ScanTemplate {
    ghost shape = { λ t. scan_shape (length t.plan.counts.list - 1) };

    ghost is_fit = { λ t. (1 ≤ length t.plan.counts.list) × (length t.plan.counts.list ≤ 10) };

    ghost serves = { λ t tree node. (node ≡ 0) × IsScan tree (length t.plan.counts.list - 1) };

    fn place(
        &self,
        alloc: Global,
        builder: &mut Builder,
        at: &Ports,
        cap: u32,
    ) -> Result<List<Ports>, NoMemory> {
        let stages = StagesTemplate {
            levels: (self.plan.counts.list.len() - 1) as u32,
        };
        stages.place(alloc, builder, at, cap)
    }

    ghost lawful = { λ t _. scan_lawful (length t.plan.counts.list - 1) };

    ghost typed = { λ t tree node s. scan_serves tree (length t.plan.counts.list - 1) node s };
}
