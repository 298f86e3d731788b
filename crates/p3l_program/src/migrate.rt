// The command `migrate`: an image in the newest version, with its net linked anew.

ghost use Rattle.std.specs.Prelude.{◌≡◌, ◌∷◌, []};
ghost use Rattle.p3l_io.specs.Change.{change};
ghost use Rattle.p3l_program.specs.Migrate.{IsMigrated};
ghost use Rattle.p3l_program.specs.Saved.{IsFileExpected, KeepsFiles};
ghost use Rattle.p3l_program.specs.Stage.{migrate_stages};
ghost use Rattle.p3l_program.specs.Wants.{Wants};

use crate::image::migrate_image;
use crate::save::save;
use p3l_base::Name;
use p3l_image::encode;
use p3l_io::Files;
use p3l_load::laws::every_migrated_image_can_be_written;
use p3l_report::{Finish, Verdict};
use std::alloc::Global;

/// Writes the image of a file in the newest version, with its net linked anew, to the file of another
/// name.
pub fn migrate<F: Files>(alloc: Global, name: Name, output: Name, files: &mut F) -> Verdict
    ensures expected { IsFileExpected (change (F.observed files.old) (F.observed files.new))
        (migrate_stages name) output (IsMigrated (F.observed files.old).content name) result }
    ensures kept { KeepsFiles (change (F.observed files.old) (F.observed files.new)) (output ∷ [])
        result }
    ensures wants { Wants F.may_want result }
{
    every_migrated_image_can_be_written();
    let image = match migrate_image(alloc, name, files) {
        Ok(image) => image,
        Err(verdict) => return verdict,
    };
    let Ok(bytes) = encode(alloc, &image) else {
        return Verdict::NoMemory;
    };
    match save(alloc, &output, bytes.as_slice(), files) {
        Ok(()) => Verdict::Ended(Finish::Done, None),
        Err(verdict) => verdict,
    }
}
