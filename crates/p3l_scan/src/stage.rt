// The template of a stage: a map over blocks whose part is one process.

ghost use Rattle.std.specs.Prelude.{◌≡◌, ◌≤◌};
ghost use Rattle.p3l_scan.specs.Template.{IsStage, stage_shape};
ghost use Rattle.p3l_scan.specs.laws.ScanLaw.{stage_lawful, stage_serves};

use p3l_base::{List, NoMemory};
use p3l_map::MapTemplate;
use p3l_template::{Builder, Ports, RunTemplate, Template};
use std::alloc::Global;

/// A map over blocks, each of which goes through one process.
#[derive(Clone, Copy, Debug, Drop)]
pub struct StageTemplate {
    /// The node of the map.
    pub stage: u32,
    /// The node of its part.
    pub step: u32,
    pub blocks: u32,
}

impl Template for StageTemplate {
    ghost shape = { λ t. stage_shape t.stage t.step t.blocks };

    ghost is_fit = { λ t. 1 ≤ t.blocks };

    ghost serves = { λ t tree node. (t.stage ≡ node) × IsStage tree node t.step t.blocks };

    fn place(
        &self,
        alloc: Global,
        builder: &mut Builder,
        at: &Ports,
        cap: u32,
    ) -> Result<List<Ports>, NoMemory> {
        let map = MapTemplate {
            node: self.stage,
            workers: self.blocks,
        };
        let ports = map.place(alloc, builder, at, cap)?;
        let run = RunTemplate { node: self.step };
        for (_block, inner) in ports.as_slice().iter().enumerate() {
            let _closed = run.place(alloc, builder, inner, cap)?;
        }
        Ok(List::new(alloc))
    }

    ghost lawful = { λ t fit. stage_lawful t.stage t.step t.blocks fit };

    ghost typed = { λ t tree node s. stage_serves tree t.stage node t.step t.blocks s };
}
