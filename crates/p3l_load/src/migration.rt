// Images are migrated: their nets are relinked.

ghost use Rattle.std.specs.Prelude.{◌≡◌, ◌≤◌, IfOk, IfErr};
ghost use Rattle.p3l_base.specs.Limits.{most_tokens};
ghost use Rattle.p3l_load.specs.Load.{IsRunnable, RefusesMigration, migrated_of};

use crate::loaded::LoadRefusal;
use crate::loader::is_whole;
use crate::seal::seal_codes;
use p3l_image::Image;
use p3l_link::link;
use std::alloc::Global;

/// The image with the net of its tree in place of its own, whatever that was: an image that `load`
/// takes. It is refused as `load` refuses it, but for its net.
pub fn migrate(alloc: Global, image: Image) -> Result<Image, LoadRefusal>
    requires some { 1 ≤ image.cap }
    requires few { image.cap ≤ most_tokens }
    ensures migrated { IfOk result (λ migrated. migrated ≡ migrated_of image) }
    ensures runs { IfOk result IsRunnable }
    ensures refused { IfErr result (RefusesMigration image) }
{
    if !is_whole(alloc, &image)? {
        return Err(LoadRefusal::TreeWrong);
    }
    let _safe = seal_codes(alloc, image.codes.as_slice())?;
    let net = link(alloc, &image.tree, &image.counts, image.cap)?;
    Ok(Image {
        cap: image.cap,
        tree: image.tree,
        counts: image.counts,
        codes: image.codes,
        net,
    })
}
