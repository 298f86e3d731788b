// The template of the stages of a scan: a pipe.

ghost use Rattle.std.specs.Prelude.{◌≡◌, ◌≤◌};
ghost use Rattle.p3l_scan.specs.Plan.{stage_node, step_node};
ghost use Rattle.p3l_scan.specs.Template.{IsScan, blocks, scan_shape};
ghost use Rattle.p3l_scan.specs.laws.ScanLaw.{scan_lawful, scan_serves};

use crate::stage::StageTemplate;
use p3l_base::{List, NoMemory};
use p3l_template::{Builder, PipeTemplate, Ports, Template};
use std::alloc::Global;

/// The template of stage `stage`, where `levels` stages follow the first.
fn stage_template(levels: u32, stage: usize) -> StageTemplate
    requires few { levels ≤ 9 }
    requires there { stage ≤ levels }
    ensures stage { result.stage ≡ stage_node stage }
    ensures step { result.step ≡ step_node stage }
    ensures blocks { result.blocks ≡ blocks levels stage }
{
    let number = stage as u32;
    StageTemplate {
        stage: number + number + 1,
        step: number + number + 2,
        blocks: 1 << (levels - number),
    }
}

/// A pipe of stages, of which each has half as many blocks as the one before it, and the last has one.
#[derive(Clone, Copy, Debug, Drop)]
pub struct StagesTemplate {
    /// The number of stages after the first.
    pub levels: u32,
}

impl Template for StagesTemplate {
    ghost shape = { λ t. scan_shape t.levels };

    ghost is_fit = { λ t. t.levels ≤ 9 };

    ghost serves = { λ t tree node. (node ≡ 0) × IsScan tree t.levels };

    fn place(
        &self,
        alloc: Global,
        builder: &mut Builder,
        at: &Ports,
        cap: u32,
    ) -> Result<List<Ports>, NoMemory> {
        let pipe = PipeTemplate {
            stages: self.levels + 1,
        };
        let ports = pipe.place(alloc, builder, at, cap)?;
        for (stage, inner) in ports.as_slice().iter().enumerate() {
            let template = stage_template(self.levels, stage);
            let _closed = template.place(alloc, builder, inner, cap)?;
        }
        Ok(List::new(alloc))
    }

    ghost lawful = { λ t _. scan_lawful t.levels };

    ghost typed = { λ t tree node s. scan_serves tree t.levels node s };
}
