// Loading the snapshot that a command resumes.

ghost use Rattle.std.specs.Prelude.{◌≡◌, IfOk, IfErr, OnOk};
ghost use Rattle.p3l_io.specs.Change.{HasSameContent, change};
ghost use Rattle.p3l_program.specs.Load.{IsNotLoaded, LoadsNetwork};
ghost use Rattle.p3l_program.specs.LoadSnapshot.{IsReadySnapshot, LoadsSnapshot, ReadsSnapshot};
ghost use Rattle.p3l_program.specs.Origin.{continued};
ghost use Rattle.p3l_program.specs.Plan.{continued_network};
ghost use Rattle.p3l_program.specs.Stage.{snapshot_stages};
ghost use Rattle.p3l_program.specs.Wants.{Wants};

use crate::file::find_text;
use crate::image::load_bytes;
use p3l_base::Name;
use p3l_io::Files;
use p3l_load::Loaded;
use p3l_net::Shot;
use p3l_orderly::is_sound;
use p3l_report::{Evidence, Refusal, Verdict};
use p3l_resume::{Saved, read_shot};
use std::alloc::Global;

/// The most bytes of a file of a snapshot.
pub const SNAPSHOT_LIMIT: u64 = 268_435_456;

/// The network of a snapshot, with the shot from which a run of it can be resumed.
#[derive(Drop)]
pub struct ResumableNetwork {
    pub network: Loaded,
    pub shot: Shot,
}

/// The snapshot of the file of this name, or the verdict that there is none.
fn read_snapshot<F: Files>(alloc: Global, name: Name, files: &mut F) -> Result<Saved, Verdict>
    ensures read { IfOk result (ReadsSnapshot (F.observed files.old).content name) }
    ensures unchanged { OnOk result (F.observed files.new ≡ F.observed files.old) }
    ensures refused { IfErr result
        (IsNotLoaded (change (F.observed files.old) (F.observed files.new))
        (snapshot_stages name)) }
    ensures same_files { HasSameContent (change (F.observed files.old) (F.observed files.new)) }
    ensures wants { IfErr result (Wants F.may_want) }
{
    match find_text(alloc, name, SNAPSHOT_LIMIT, files) {
        Err(refusal) => Err(Verdict::from(refusal)),
        Ok(bytes) => match read_shot(alloc, bytes.as_slice()) {
            Ok(saved) => Ok(saved),
            Err(refusal) => Err(Verdict::from(Refusal::Evidence(Evidence::Shot(refusal)))),
        },
    }
}

/// The snapshot of the file of this name with its image loaded, if it can be resumed; else the verdict
/// that it can't.
pub fn load_snapshot<F: Files>(
    alloc: Global,
    name: Name,
    files: &mut F,
) -> Result<ResumableNetwork, Verdict>
    ensures network { IfOk result
        (λ snapshot. LoadsNetwork (F.observed files.old).content (continued name)
        (continued_network snapshot.network snapshot.shot)) }
    ensures ready { IfOk result IsReadySnapshot }
    ensures unchanged { OnOk result (F.observed files.new ≡ F.observed files.old) }
    ensures refused { IfErr result
        (IsNotLoaded (change (F.observed files.old) (F.observed files.new))
        (snapshot_stages name)) }
    ensures same_files { HasSameContent (change (F.observed files.old) (F.observed files.new)) }
    ensures wants { IfErr result (Wants F.may_want) }
{
    let saved = match read_snapshot(alloc, name, files) {
        Ok(saved) => saved,
        Err(verdict) => return Err(verdict),
    };
    let Saved { shot, image } = saved;
    let network = match load_bytes(alloc, image.as_slice()) {
        Ok(network) => network,
        Err(verdict) => return Err(verdict),
    };
    let Ok(sound) = is_sound(alloc, &network.tree, &network.counts, &network.net, &shot) else {
        return Err(Verdict::NoMemory);
    };
    if !sound {
        return Err(Verdict::Refused(Refusal::Evidence(Evidence::NotSound)));
    }
    Ok(ResumableNetwork { network, shot })
}
