// Images are loaded.

ghost use Rattle.std.specs.Prelude.{◌≡◌, ◌↔◌, ◌≤◌, IsTrue, IfOk, IfErr};
ghost use Rattle.p3l_base.specs.Limits.{most_tokens};
ghost use Rattle.p3l_base.specs.Memory.{IfGiven};
ghost use Rattle.p3l_load.specs.Load.{IsWhole, IsRunnable, Refuses, loaded_of};

use crate::codes::has_codes;
use crate::loaded::{LoadRefusal, Loaded};
use crate::seal::seal_codes;
use p3l_base::NoMemory;
use p3l_base::limits::MOST_PROCESSES;
use p3l_image::Image;
use p3l_link::is_linked;
use p3l_link::linker::a_linked_net_is_typed;
use p3l_model::procs;
use p3l_skel::{lawful_counts, lawful_tree};
use std::alloc::Global;

/// Tests that the tree of an image, its counts and its codes are lawful together, and the tree has
/// few processes; the source and the sink aren't counted.
pub(crate) fn is_whole(alloc: Global, image: &Image) -> Result<bool, NoMemory>
    ensures { IfGiven result (λ whole. IsTrue whole ↔ IsWhole image.now) }
{
    if !lawful_tree(&image.tree) || !lawful_counts(&image.tree, &image.counts) {
        return Ok(false);
    }
    if procs(&image.tree, &image.counts, 0) > MOST_PROCESSES {
        return Ok(false);
    }
    has_codes(alloc, &image.tree, image.codes.as_slice())
}

/// The program of an image, as `decode` gives it, if it can be run. Its codes are copied, since a
/// list keeps its items.
pub fn load(alloc: Global, image: Image) -> Result<Loaded, LoadRefusal>
    requires some { 1 ≤ image.cap }
    requires few { image.cap ≤ most_tokens }
    ensures loaded { IfOk result (λ loaded. loaded ≡ loaded_of image) }
    ensures runs { IfOk result (λ loaded. IsRunnable image) }
    ensures refused { IfErr result (Refuses image) }
{
    a_linked_net_is_typed();
    if !is_whole(alloc, &image)? {
        return Err(LoadRefusal::TreeWrong);
    }
    let codes = seal_codes(alloc, image.codes.as_slice())?;
    if !is_linked(alloc, &image.net, &image.tree, &image.counts, image.cap)? {
        return Err(LoadRefusal::NotLinked);
    }
    Ok(Loaded {
        cap: image.cap,
        tree: image.tree,
        counts: image.counts,
        codes,
        net: image.net,
    })
}
