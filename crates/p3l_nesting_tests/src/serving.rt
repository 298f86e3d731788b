// Sketches that are linked, loaded and served.

ghost use Rattle.std.specs.Prelude.{◌≡◌, IfOk};
ghost use Rattle.p3l_nesting_tests.specs.Ready.{IsReady};

use crate::building::{codes_of, tree_of};
use crate::sketch::Sketch;
use p3l_base::NoMemory;
use p3l_firing::Net;
use p3l_image::Image;
use p3l_link::link;
use p3l_load::{Loaded, load};
use p3l_model::{is_outside, procs};
use p3l_skel::{Counts, Tree, lawful_counts, lawful_tree};
use p3l_sketch::counts_of;
use std::alloc::Global;
use std::process::Abort;
use std::test::Fail;

// The net of a tree, whose channels hold one token.
fn net_of(
    rt: &impl Abort,
    alloc: Global,
    name: &str,
    tree: &Tree,
    counts: &Counts,
) -> Result<Net, NoMemory> {
    assert!(rt; lawful_tree(tree), "{name}");
    assert!(rt; lawful_counts(tree, counts), "{name}");
    assert!(rt; is_outside(tree, 0));
    assert!(rt; procs(tree, counts, 0) <= 4096);
    link(alloc, tree, counts, 1)
}

// The image of a sketch.
fn image_of(rt: &impl Abort, alloc: Global, sketch: Sketch) -> Result<Image, Fail>
    ensures { IfOk result (λ image. image.cap ≡ 1) }
{
    let (name, rows, counts) = sketch;
    let tree = tree_of(alloc, rows)?;
    let counts = counts_of(alloc, counts)?;
    let net = net_of(rt, alloc, name, &tree, &counts)?;
    let codes = codes_of(alloc, rows)?;
    Ok(Image {
        cap: 1,
        tree,
        counts,
        codes,
        net,
    })
}

/// A sketch as it is loaded.
pub fn loaded_of(rt: &impl Abort, alloc: Global, sketch: Sketch) -> Result<Loaded, Fail>
    ensures { IfOk result IsReady }
{
    let image = image_of(rt, alloc, sketch)?;
    Ok(load(alloc, image)?)
}
