// The command `scan`: a program whose `main` is a reduce, run on the input so that the folds of all
// prefixes of each list are written.

ghost use Rattle.std.specs.Prelude.{◌≡◌, ◌≤◌, ◌⊎◌, [], None, IfOk, IfErr, OnOk};
ghost use Rattle.p3l_check.specs.Resolving.{ResolvedTree};
ghost use Rattle.p3l_io.specs.Change.{HasSameContent, change};
ghost use Rattle.p3l_program.specs.Load.{IsNotLoaded};
ghost use Rattle.p3l_program.specs.Origin.{scanned};
ghost use Rattle.p3l_program.specs.Plan.{IsCompiled, scan_network};
ghost use Rattle.p3l_program.specs.Run.{IsRunExpected, IsRunOf, KeepsRun, RunsOver};
ghost use Rattle.p3l_program.specs.Saved.{KeepsFiles};
ghost use Rattle.p3l_program.specs.Scan.{IsReadyScan, LoadsScan};
ghost use Rattle.p3l_program.specs.Stage.{scan_stages};
ghost use Rattle.p3l_program.specs.World.{world};
ghost use Rattle.p3l_program.specs.Wants.{Wants};

use crate::plan::{Accepted, load_program, plan_of};
use crate::running::run_plan;
use p3l_base::Name;
use p3l_compile::table_of;
use p3l_io::{Files, Sink, Source};
use p3l_link::laws::every_linked_net_has_invariants;
use p3l_link::link;
use p3l_opts::Sched;
use p3l_report::{Refusal, Verdict};
use p3l_scan::{ScanPlan, ScanUnits, can_scan, scan_plan};
use std::alloc::Global;

/// A program whose `main` can be scanned, with the plan of its scan.
#[derive(Drop)]
pub struct Planned {
    pub program: Accepted,
    pub plan: ScanPlan,
}

/// The program of a file with the plan of its scan in this number of segments, or the verdict that
/// there is none.
fn load_scan<F: Files>(
    alloc: Global,
    name: Name,
    segments: u32,
    files: &mut F,
) -> Result<Planned, Verdict>
    requires { segments ≤ 512 }
    ensures loaded { IfOk result (LoadsScan (F.observed files.old).content name segments) }
    ensures unchanged { OnOk result (F.observed files.new ≡ F.observed files.old) }
    ensures refused { IfErr result
        (IsNotLoaded (change (F.observed files.old) (F.observed files.new))
        (scan_stages name segments)) }
    ensures same_files { HasSameContent (change (F.observed files.old) (F.observed files.new)) }
    ensures wants { IfErr result (Wants F.may_want) }
{
    let program = match load_program(alloc, name, files) {
        Ok(program) => program,
        Err(verdict) => return Err(verdict),
    };
    match can_scan(&program.tree, segments) {
        Err(refusal) => Err(Verdict::Refused(Refusal::Scan(refusal))),
        Ok(()) => match scan_plan(alloc, &program.tree, segments) {
            Ok(plan) => Ok(Planned { program, plan }),
            Err(_) => Err(Verdict::NoMemory),
        },
    }
}

/// Runs the plan of a program's scan, whose channels hold this number of tokens; the program's
/// modules name a trap.
fn run_scan<F: Files, S: Source, K: Sink>(
    alloc: Global,
    loaded: Planned,
    capacity: u32,
    request: Sched,
    reported: bool,
    files: &mut F,
    input: &mut S,
    out: &mut K,
) -> Verdict
    requires ready { IsReadyScan loaded }
    requires capacity { (1 ≤ capacity) × (capacity ≤ 1024) }
    ensures ran { (r : ResolvedTree) → IsCompiled r loaded.program
        → IsRunOf (scan_network r loaded.plan capacity)
        (change (F.observed files.old) (F.observed files.new))
        (change (S.observed input.old) (S.observed input.new))
        (change (K.observed out.old) (K.observed out.new)) request None reported result }
    ensures kept { (r : ResolvedTree) → IsCompiled r loaded.program
        → KeepsRun (scan_network r loaded.plan capacity)
        (change (F.observed files.old) (F.observed files.new))
        (change (S.observed input.old) (S.observed input.new))
        (change (K.observed out.old) (K.observed out.new)) request None result }
    ensures wants { Wants F.may_want result }
{
    every_linked_net_has_invariants();
    let Planned { program, plan } = loaded;
    let Accepted { tree, codes } = program;
    let Ok(net) = link(alloc, &plan.tree, &plan.counts, capacity) else {
        return Verdict::NoMemory;
    };
    let Ok(table) = table_of(alloc, &tree, codes) else {
        return Verdict::NoMemory;
    };
    let Ok(units) = ScanUnits::new(&plan, table) else {
        return Verdict::NoMemory;
    };
    let run = plan_of(&plan.tree, &plan.counts, &units, net);
    run_plan(
        alloc, run, &tree, request, None, reported, files, input, out,
    )
}

/// Scans the lists of the input in this number of segments, by the reduce that is the `main` of the
/// program of a file; the numbers of the run are to be reported or not.
pub fn scan<F: Files, S: Source, K: Sink>(
    alloc: Global,
    name: Name,
    segments: u32,
    request: Sched,
    capacity: u32,
    reported: bool,
    files: &mut F,
    input: &mut S,
    out: &mut K,
) -> Verdict
    requires segments { segments ≤ 512 }
    requires capacity { (1 ≤ capacity) × (capacity ≤ 1024) }
    ensures expected { IsRunExpected
        (world (change (F.observed files.old) (F.observed files.new))
        (change (S.observed input.old) (S.observed input.new))
        (change (K.observed out.old) (K.observed out.new))) (scanned name segments capacity) request
        None reported result }
    ensures kept { KeepsFiles (change (F.observed files.old) (F.observed files.new)) [] result }
    ensures over { HasSameContent (change (F.observed files.old) (F.observed files.new))
        ⊎ RunsOver (world (change (F.observed files.old) (F.observed files.new))
        (change (S.observed input.old) (S.observed input.new))
        (change (K.observed out.old) (K.observed out.new))) (scanned name segments capacity)
        request }
    ensures wants { Wants F.may_want result }
{
    match load_scan(alloc, name, segments, files) {
        Err(verdict) => verdict,
        Ok(loaded) => {
            run_scan(
                alloc, loaded, capacity, request, reported, files, input, out,
            )
        }
    }
}
