// The command `check-trace`: a trace of a file, checked against the run of a program on the input.

ghost use Rattle.std.specs.Prelude.{◌≡◌, ◌<◌, ◌≤◌, ◌*◌, ◌^◌, IfOk, IfErr, OnOk, string_bytes, Bool, ◌||◌};
ghost use Rattle.p3l_base.specs.Memory.{IfGiven};
ghost use Rattle.p3l_io.specs.Change.{HasSameContent, change};
ghost use Rattle.p3l_run.specs.Feed.{most_of_input};
ghost use Rattle.p3l_run.specs.Network.{IsSound, network};
ghost use Rattle.p3l_skel.specs.Tree.{node_at};
ghost use Rattle.p3l_program.specs.LoadImage.{IsReadyImage};
ghost use Rattle.p3l_program.specs.Plan.{network_in};
ghost use Rattle.p3l_program.specs.Trace.{IsAgreed, IsCheckExpected, IsCheckOf, IsUntraced, holds_line};
ghost use Rattle.p3l_program.specs.TraceFile.{HasTrace};
ghost use Rattle.p3l_program.specs.World.{world};
ghost use Rattle.p3l_program.specs.Wants.{Wants};

use crate::file::find_text;
use crate::plan::{load_network, plan_of};
use crate::text::write_text;
use p3l_base::{Name, NoMemory};
use p3l_io::{Files, Sink, Source};
use p3l_link::laws::every_linked_net_has_invariants;
use p3l_load::Loaded;
use p3l_opts::Build;
use p3l_report::{Evidence, Finish, Refusal, Verdict};
use p3l_run::retrace::{Retraced, retrace};
use p3l_run::{Plan, RunEnd};
use p3l_skel::Units;
use p3l_stream::Ending;
use p3l_trace::{Traced, read_trace};
use p3l_units::UnitTable;
use std::alloc::Global;

/// The most bytes of a file of a trace.
pub const TRACE_LIMIT: u64 = 268_435_456;

/// The trace in the file of this name.
fn load_trace<F: Files>(alloc: Global, name: Name, files: &mut F) -> Result<Traced, Verdict>
    ensures found { IfOk result (HasTrace (F.observed files.old).content name) }
    ensures unchanged { OnOk result (F.observed files.new ≡ F.observed files.old) }
    ensures refused { IfErr result
        (IsUntraced (change (F.observed files.old) (F.observed files.new)) name) }
    ensures same_files { HasSameContent (change (F.observed files.old) (F.observed files.new)) }
    ensures wants { IfErr result (Wants F.may_want) }
{
    match find_text(alloc, name, TRACE_LIMIT, files) {
        Err(refusal) => Err(Verdict::from(refusal)),
        Ok(text) => match read_trace(alloc, text.as_slice()) {
            Ok(traced) => Ok(traced),
            Err(refusal) => Err(Verdict::from(Refusal::Evidence(Evidence::Trace(refusal)))),
        },
    }
}

/// The line of a trace that is that of a run.
fn holds_line(alloc: Global, traced: &Traced) -> Result<String, NoMemory>
    ensures { IfGiven result (λ line. string_bytes line ≡ holds_line traced.now) }
{
    let fired = traced.fired;
    let idle = traced.idle;
    Ok(format!(in alloc; "trace holds: {fired} fired, {idle} idle\n")?)
}

/// The verdict of a trace of which no line differs, on a stream that ended so, if it did.
fn agreed<K: Sink>(alloc: Global, traced: &Traced, close: Option<Ending>, out: &mut K) -> Verdict
    ensures checked { IsAgreed (change (K.observed out.old) (K.observed out.new)) traced.now close
        result }
    ensures wants { (files : Bool) → Wants files result }
{
    if let Some(ending) = close
        && ending != Ending::End
    {
        return Verdict::Ended(Finish::Run(RunEnd::Stream(ending)), None);
    }
    match holds_line(alloc, traced) {
        Ok(line) => write_text(line.as_str().as_bytes(), out),
        Err(_) => Verdict::NoMemory,
    }
}

/// Checks the trace of a file against a plan on the items of the input.
fn check_plan<U: Units, F: Files, S: Source, K: Sink>(
    alloc: Global,
    plan: Plan<'_, U>,
    name: Name,
    files: &mut F,
    input: &mut S,
    out: &mut K,
) -> Verdict
    requires units { U.tree plan.units.now ≡ plan.tree.now }
    requires sound { IsSound (network plan.tree.now (U.leaf plan.units.now) plan.net plan.firings) }
    requires width { plan.width ≡ (node_at plan.tree.now 0).ins }
    requires wide { 1 ≤ plan.width }
    requires fits { plan.firings * most_of_input < 2 ^ 63 }
    ensures checked { IsCheckOf (network plan.entry.tree.now (U.leaf plan.entry.units.now)
        plan.entry.net plan.entry.firings) (change (F.observed files.old) (F.observed files.new))
        (change (S.observed input.old) (S.observed input.new))
        (change (K.observed out.old) (K.observed out.new)) name result }
    ensures same_files { HasSameContent (change (F.observed files.old) (F.observed files.new)) }
    ensures wants { Wants (U.may_want || F.may_want) result }
{
    let traced = match load_trace(alloc, name, files) {
        Ok(traced) => traced,
        Err(verdict) => return verdict,
    };
    match retrace(alloc, plan, &traced, input) {
        Err(_) => Verdict::NoMemory,
        Ok(Retraced::Differs(line)) => Verdict::Ended(Finish::Differs { line }, None),
        Ok(Retraced::Agreed(close)) => agreed(alloc, &traced, close, out),
    }
}

/// Checks the trace of a file against a network that was loaded, on the items of the input.
fn check_network<F: Files, S: Source, K: Sink>(
    alloc: Global,
    loaded: Loaded,
    name: Name,
    files: &mut F,
    input: &mut S,
    out: &mut K,
) -> Verdict
    requires ready { IsReadyImage loaded }
    ensures checked { IsCheckOf (network_in loaded)
        (change (F.observed files.old) (F.observed files.new))
        (change (S.observed input.old) (S.observed input.new))
        (change (K.observed out.old) (K.observed out.new)) name result }
    ensures same_files { HasSameContent (change (F.observed files.old) (F.observed files.new)) }
    ensures wants { Wants F.may_want result }
{
    every_linked_net_has_invariants();
    let Loaded {
        tree,
        counts,
        codes,
        net,
        ..
    } = loaded;
    let Ok(units) = UnitTable::new(alloc, &tree, codes) else {
        return Verdict::NoMemory;
    };
    let plan = plan_of(&tree, &counts, &units, net);
    check_plan(alloc, plan, name, files, input, out)
}

/// Checks the trace of a file against the run of the program of another on the input.
pub fn check_trace<F: Files, S: Source, K: Sink>(
    alloc: Global,
    build: Build,
    name: Name,
    files: &mut F,
    input: &mut S,
    out: &mut K,
) -> Verdict
    requires processors { (1 ≤ build.processors) × (build.processors ≤ 512) }
    requires capacity { (1 ≤ build.capacity) × (build.capacity ≤ 1024) }
    ensures expected { IsCheckExpected
        (world (change (F.observed files.old) (F.observed files.new))
        (change (S.observed input.old) (S.observed input.new))
        (change (K.observed out.old) (K.observed out.new))) build name result }
    ensures same_files { HasSameContent (change (F.observed files.old) (F.observed files.new)) }
    ensures wants { Wants F.may_want result }
{
    match load_network(alloc, build, files) {
        Err(verdict) => verdict,
        Ok(loaded) => check_network(alloc, loaded, name, files, input, out),
    }
}
