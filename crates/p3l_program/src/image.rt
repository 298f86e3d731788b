// Loading the image that a command runs.

ghost use Rattle.std.specs.Prelude.{◌≡◌, ◌≤◌, IfOk, IfErr, OnOk, Bool};
ghost use Rattle.p3l_io.specs.Change.{HasSameContent, change};
ghost use Rattle.p3l_program.specs.Load.{IsNotLoaded, LoadsNetwork};
ghost use Rattle.p3l_program.specs.LoadImage.{IsReadyImage, IsUnloadable, LoadsBytes};
ghost use Rattle.p3l_program.specs.Origin.{imaged};
ghost use Rattle.p3l_program.specs.Plan.{network_in};
ghost use Rattle.p3l_program.specs.Migrate.{Migrates};
ghost use Rattle.p3l_program.specs.Stage.{image_stages, migrate_stages};
ghost use Rattle.p3l_program.specs.Wants.{Wants};

use crate::file::find_text;
use p3l_base::Name;
use p3l_image::{Image, decode};
use p3l_io::Files;
use p3l_load::{Loaded, load, migrate};
use p3l_report::{Evidence, Refusal, Verdict};
use std::alloc::Global;

/// The most bytes of a file of an image.
pub const IMAGE_LIMIT: u64 = 67_108_864;

/// The image that these bytes spell, if it can be run; else the verdict that it can't.
pub fn load_bytes(alloc: Global, bytes: &[u8]) -> Result<Loaded, Verdict>
    ensures loaded { IfOk result (LoadsBytes bytes.now) }
    ensures refused { IfErr result (IsUnloadable bytes.now) }
    ensures wants { (files : Bool) → IfErr result (Wants files) }
{
    let image = match decode(alloc, bytes) {
        Ok(image) => image,
        Err(refusal) => return Err(Verdict::from(Refusal::Evidence(Evidence::Image(refusal)))),
    };
    match load(alloc, image) {
        Ok(loaded) => Ok(loaded),
        Err(refusal) => Err(Verdict::from(Refusal::Evidence(Evidence::Load(refusal)))),
    }
}

/// The image of the file of this name, if it can be run; else the verdict that it can't.
pub fn load_image<F: Files>(alloc: Global, name: Name, files: &mut F) -> Result<Loaded, Verdict>
    ensures network { IfOk result
        (λ loaded. LoadsNetwork (F.observed files.old).content (imaged name) (network_in loaded)) }
    ensures ready { IfOk result IsReadyImage }
    ensures unchanged { OnOk result (F.observed files.new ≡ F.observed files.old) }
    ensures refused { IfErr result
        (IsNotLoaded (change (F.observed files.old) (F.observed files.new)) (image_stages name)) }
    ensures same_files { HasSameContent (change (F.observed files.old) (F.observed files.new)) }
    ensures wants { IfErr result (Wants F.may_want) }
{
    match find_text(alloc, name, IMAGE_LIMIT, files) {
        Ok(bytes) => load_bytes(alloc, bytes.as_slice()),
        Err(refusal) => Err(Verdict::from(refusal)),
    }
}

/// The image of the file of this name with its net linked anew, if it can be run so; else the verdict
/// that it can't.
pub fn migrate_image<F: Files>(alloc: Global, name: Name, files: &mut F) -> Result<Image, Verdict>
    ensures migrated { IfOk result (Migrates (F.observed files.old).content name) }
    ensures unchanged { OnOk result (F.observed files.new ≡ F.observed files.old) }
    ensures refused { IfErr result
        (IsNotLoaded (change (F.observed files.old) (F.observed files.new)) (migrate_stages name)) }
    ensures same_files { HasSameContent (change (F.observed files.old) (F.observed files.new)) }
    ensures wants { IfErr result (Wants F.may_want) }
{
    let bytes = match find_text(alloc, name, IMAGE_LIMIT, files) {
        Ok(bytes) => bytes,
        Err(refusal) => return Err(Verdict::from(refusal)),
    };
    let image = match decode(alloc, bytes.as_slice()) {
        Ok(image) => image,
        Err(refusal) => return Err(Verdict::from(Refusal::Evidence(Evidence::Image(refusal)))),
    };
    match migrate(alloc, image) {
        Ok(migrated) => Ok(migrated),
        Err(refusal) => Err(Verdict::from(Refusal::Evidence(Evidence::Load(refusal)))),
    }
}
