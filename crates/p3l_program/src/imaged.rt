// A program that is loaded to be run, with the bytes of its image.

ghost use Rattle.std.specs.Prelude.{◌≡◌, ◌≤◌, ◌⊎◌, IfOk, IfErr, OnOk};
ghost use Rattle.p3l_base.specs.Memory.{IfGivenOr};
ghost use Rattle.p3l_io.specs.Change.{HasSameContent, change};
ghost use Rattle.p3l_load.specs.Compiled.{AreCodesOf, IsImageText, image_of};
ghost use Rattle.p3l_resume.specs.Ranges.{IsFew};
ghost use Rattle.p3l_skel.specs.Counts.{HasLawfulCounts};
ghost use Rattle.p3l_skel.specs.Numbers.{procs};
ghost use Rattle.p3l_program.specs.Load.{IsNotLoaded};
ghost use Rattle.p3l_program.specs.SaveState.{HasLongImage, IsImagedAs, IsLongImage, IsReadyToSave, LoadsImaged};
ghost use Rattle.p3l_program.specs.Stage.{build_stages};
ghost use Rattle.p3l_program.specs.Wants.{Wants};

use crate::plan::{Accepted, Allotted, allot};
use p3l_base::{List, NoMemory};
use p3l_code::SafeCode;
use p3l_image::{Image, encode};
use p3l_io::Files;
use p3l_load::laws::{
    every_compiled_image_can_be_run, every_module_has_a_name, every_runnable_image_can_be_written,
};
use p3l_load::{Loaded, have_operands, have_rescues, image_of};
use p3l_opts::Build;
use p3l_report::Verdict;
use p3l_resume::number::MOST_ITEMS;
use p3l_skel::{Counts, Tree};
use std::alloc::Global;

/// A network, and the bytes of the image from which it can be loaded.
#[derive(Drop)]
pub struct Imaged {
    pub network: Loaded,
    pub image: List<u8>,
}

/// An image of a program that keeps the rules, with its bytes. It says that memory ran out where these
/// can't be counted in 32 bits, too.
fn write_image(
    alloc: Global,
    tree: Tree,
    counts: Counts,
    codes: &[SafeCode],
    capacity: u32,
) -> Result<(Image, List<u8>), NoMemory>
    requires program { AreCodesOf tree codes.now }
    requires counted { HasLawfulCounts tree counts.list }
    requires procs { procs tree counts.list 0 ≤ 4096 }
    requires some { 1 ≤ capacity }
    requires few { capacity ≤ 1024 }
    ensures image { IfGivenOr result (λ made. made.0
        ≡ image_of tree counts.list codes.now capacity)
        (IsLongImage tree counts.list codes.now capacity) }
    ensures text { IfOk result (λ made. IsImageText
        (image_of tree counts.list codes.now capacity) made.1) }
    ensures few { IfOk result (λ made. IsFew made.1) }
{
    every_module_has_a_name();
    every_compiled_image_can_be_run();
    every_runnable_image_can_be_written();
    let image = image_of(alloc, tree, counts, codes, capacity)?;
    have_rescues(image.tree.modules.as_slice());
    have_operands(image.codes.as_slice());
    let bytes = encode(alloc, &image)?;
    if bytes.len() > MOST_ITEMS as usize {
        return Err(NoMemory);
    }
    Ok((image, bytes))
}

/// The network of a program under the counts that are chosen for it, with channels of this capacity,
/// and the bytes of its image.
fn image_allotted(alloc: Global, loaded: Allotted, capacity: u32) -> Result<Imaged, NoMemory>
    requires program { AreCodesOf loaded.program.tree loaded.program.codes }
    requires counted { HasLawfulCounts loaded.program.tree loaded.choice.counts.list }
    requires procs { procs loaded.program.tree loaded.choice.counts.list 0 ≤ 4096 }
    requires some { 1 ≤ capacity }
    requires few { capacity ≤ 1024 }
    ensures { IfGivenOr result (IsImagedAs loaded capacity) (IsLongImage
        loaded.program.tree loaded.choice.counts.list loaded.program.codes capacity) }
{
    let Allotted {
        program,
        choice,
        ..
    } = loaded;
    let Accepted { tree, codes } = program;
    let (made, image) = write_image(alloc, tree, choice.counts, codes.as_slice(), capacity)?;
    let Image {
        cap,
        tree,
        counts,
        net,
        ..
    } = made;
    let network = Loaded {
        cap,
        tree,
        counts,
        codes,
        net,
    };
    Ok(Imaged { network, image })
}

/// The network of the program of a file, under the counts that are chosen for it and with channels of
/// the capacity that is requested, with the bytes of its image, or the verdict that there is none.
pub fn load_imaged<F: Files>(alloc: Global, build: Build, files: &mut F) -> Result<Imaged, Verdict>
    requires processors { (1 ≤ build.processors) × (build.processors ≤ 512) }
    requires capacity { (1 ≤ build.capacity) × (build.capacity ≤ 1024) }
    ensures loaded { IfOk result (LoadsImaged (F.observed files.old).content build) }
    ensures ready { IfOk result IsReadyToSave }
    ensures unchanged { OnOk result (F.observed files.new ≡ F.observed files.old) }
    ensures refused { IfErr result
        (IsNotLoaded (change (F.observed files.old) (F.observed files.new)) (build_stages build)) }
    ensures same_files { HasSameContent (change (F.observed files.old) (F.observed files.new)) }
    ensures wants { IfErr result (λ v. Wants F.may_want v
        ⊎ HasLongImage (F.observed files.old).content build) }
{
    let capacity = build.capacity;
    let allotted = allot(alloc, build, files)?;
    match image_allotted(alloc, allotted, capacity) {
        Ok(imaged) => Ok(imaged),
        Err(_) => Err(Verdict::NoMemory),
    }
}
