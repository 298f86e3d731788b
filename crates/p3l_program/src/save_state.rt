// The command `save`: a program of a file, run on the input under recorded picks, and the state that
// they come to written as a snapshot.

ghost use Rattle.std.specs.Prelude.{◌≡◌, ◌∷◌, ◌<◌, ◌≤◌, ◌*◌, ◌^◌, ◌⊎◌, [], IfOk, IfErr, OnOk, ◌||◌};
ghost use Rattle.p3l_io.specs.Change.{HasSameContent, HasSameFaults, change};
ghost use Rattle.p3l_resume.specs.Ranges.{IsFew};
ghost use Rattle.p3l_run.specs.Feed.{most_of_input};
ghost use Rattle.p3l_run.specs.Network.{IsSound, network};
ghost use Rattle.p3l_skel.specs.Tree.{node_at};
ghost use Rattle.p3l_program.specs.Plan.{network_in};
ghost use Rattle.p3l_program.specs.SaveState.{FitsSome, HasLongImage, IsReached, IsReadyToSave, IsSaveExpected, IsSaveOf, IsUnreached, IsWriting, KeepsSave, SavesOver};
ghost use Rattle.p3l_program.specs.Saved.{KeepsFiles};
ghost use Rattle.p3l_program.specs.World.{world};
ghost use Rattle.p3l_program.specs.Wants.{Wants};

use crate::imaged::{Imaged, load_imaged};
use crate::plan::plan_of;
use crate::save::save;
use crate::schedule::picks_in;
use crate::verdict::fault_verdict;
use p3l_base::{List, Name};
use p3l_io::{Files, Sink, Source};
use p3l_link::laws::every_linked_net_has_invariants;
use p3l_load::Loaded;
use p3l_opts::Build;
use p3l_report::{Finish, Stats, Verdict};
use p3l_resume::{Saved, have_ranges, shot_text};
use p3l_resume_laws::kept::{every_saved_shot_is_sound, every_table_names_modules};
use p3l_resume_laws::saved::what_fits_can_be_written;
use p3l_run::laws::laws;
use p3l_run::{Checkpoint, CheckpointEnd, Plan, run_to_checkpoint};
use p3l_skel::Units;
use p3l_units::UnitTable;
use std::alloc::Global;

/// Runs a plan on the items of the input under the picks of a file, writes each value as it comes
/// out, and gives the checkpoint that they come to, or the verdict where they come to none.
fn reach<U: Units, F: Files, S: Source, K: Sink>(
    alloc: Global,
    plan: Plan<'_, U>,
    name: Name,
    files: &mut F,
    input: &mut S,
    out: &mut K,
) -> Result<Checkpoint, Verdict>
    requires units { U.tree plan.units.now ≡ plan.tree.now }
    requires sound { IsSound (network plan.tree.now (U.leaf plan.units.now) plan.net plan.firings) }
    requires width { plan.width ≡ (node_at plan.tree.now 0).ins }
    requires wide { 1 ≤ plan.width }
    requires fits { plan.firings * most_of_input < 2 ^ 63 }
    ensures reached { IfOk result
        (IsReached (network plan.entry.tree.now (U.leaf plan.entry.units.now) plan.entry.net
        plan.entry.firings) (change (F.observed files.old) (F.observed files.new))
        (change (S.observed input.old) (S.observed input.new))
        (change (K.observed out.old) (K.observed out.new)) name) }
    ensures unchanged { OnOk result (F.observed files.new ≡ F.observed files.old) }
    ensures same_faults { OnOk result
        (HasSameFaults (change (K.observed out.old) (K.observed out.new))) }
    ensures ended { IfErr result (IsUnreached
        (network plan.entry.tree.now (U.leaf plan.entry.units.now) plan.entry.net
        plan.entry.firings) (change (F.observed files.old) (F.observed files.new))
        (change (S.observed input.old) (S.observed input.new))
        (change (K.observed out.old) (K.observed out.new)) name) }
    ensures same_files { HasSameContent (change (F.observed files.old) (F.observed files.new)) }
    ensures wants { IfErr result (Wants (U.may_want || F.may_want)) }
{
    laws();
    let count = plan.net.procs.len() as u32;
    let picks = match picks_in(alloc, name, count, files) {
        Ok(picks) => picks,
        Err(verdict) => return Err(verdict),
    };
    match run_to_checkpoint(alloc, plan, picks, input, out) {
        Err(fault) => Err(fault_verdict(fault)),
        Ok(CheckpointEnd::Ended(end)) => Err(Verdict::Ended(Finish::Run(end), None)),
        Ok(CheckpointEnd::Saved(checkpoint)) => Ok(checkpoint),
    }
}

/// Writes the snapshot of a checkpoint, with the bytes of an image, to the file of a name.
fn write_snapshot<F: Files>(
    alloc: Global,
    checkpoint: Checkpoint,
    image: List<u8>,
    name: &Name,
    files: &mut F,
) -> Verdict
    requires fits { FitsSome checkpoint.shot }
    requires few { IsFew image }
    ensures written { IsWriting (change (F.observed files.old) (F.observed files.new)) checkpoint
        image name.now result }
    ensures wants { Wants F.may_want result }
{
    what_fits_can_be_written();
    let Checkpoint { shot, items, picks } = checkpoint;
    let saved = Saved { shot, image };
    have_ranges(&saved);
    let Ok(text) = shot_text(alloc, &saved) else {
        return Verdict::NoMemory;
    };
    match save(alloc, name, text.as_slice(), files) {
        Ok(()) => Verdict::Ended(Finish::Done, Some(Stats::Saved { items, picks })),
        Err(verdict) => verdict,
    }
}

/// Runs a network that was loaded under the picks of a file, and writes the snapshot of the state that
/// they come to, with the bytes of its image, to the file of another name.
fn save_network<F: Files, S: Source, K: Sink>(
    alloc: Global,
    imaged: Imaged,
    name: Name,
    output: Name,
    files: &mut F,
    input: &mut S,
    out: &mut K,
) -> Verdict
    requires ready { IsReadyToSave imaged }
    ensures saved { IsSaveOf (network_in imaged.network) imaged.network.counts.list
        imaged.network.cap imaged.image (change (F.observed files.old) (F.observed files.new))
        (change (S.observed input.old) (S.observed input.new))
        (change (K.observed out.old) (K.observed out.new)) name output result }
    ensures kept { KeepsSave (network_in imaged.network)
        (change (F.observed files.old) (F.observed files.new))
        (change (S.observed input.old) (S.observed input.new))
        (change (K.observed out.old) (K.observed out.new)) name output result }
    ensures wants { Wants F.may_want result }
{
    every_linked_net_has_invariants();
    every_table_names_modules();
    every_saved_shot_is_sound();
    let Imaged { network, image } = imaged;
    let Loaded {
        tree,
        counts,
        codes,
        net,
        ..
    } = network;
    let Ok(units) = UnitTable::new(alloc, &tree, codes) else {
        return Verdict::NoMemory;
    };
    let plan = plan_of(&tree, &counts, &units, net);
    match reach(alloc, plan, name, files, input, out) {
        Err(verdict) => verdict,
        Ok(checkpoint) => write_snapshot(alloc, checkpoint, image, &output, files),
    }
}

/// Runs the program of a file on the input under the picks of another, and writes the state that they
/// come to, with the image of the program, to a third.
pub fn save_state<F: Files, S: Source, K: Sink>(
    alloc: Global,
    build: Build,
    name: Name,
    output: Name,
    files: &mut F,
    input: &mut S,
    out: &mut K,
) -> Verdict
    requires processors { (1 ≤ build.processors) × (build.processors ≤ 512) }
    requires capacity { (1 ≤ build.capacity) × (build.capacity ≤ 1024) }
    ensures expected { IsSaveExpected
        (world (change (F.observed files.old) (F.observed files.new))
        (change (S.observed input.old) (S.observed input.new))
        (change (K.observed out.old) (K.observed out.new))) build name output result }
    ensures kept { KeepsFiles (change (F.observed files.old) (F.observed files.new)) (output ∷ [])
        result }
    ensures over { HasSameContent (change (F.observed files.old) (F.observed files.new))
        ⊎ SavesOver (world (change (F.observed files.old) (F.observed files.new))
        (change (S.observed input.old) (S.observed input.new))
        (change (K.observed out.old) (K.observed out.new))) build name }
    ensures wants { Wants F.may_want result ⊎ HasLongImage (F.observed files.old).content build }
{
    match load_imaged(alloc, build, files) {
        Err(verdict) => verdict,
        Ok(imaged) => save_network(alloc, imaged, name, output, files, input, out),
    }
}
