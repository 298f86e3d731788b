// The image of a program: made from its tree, counts and codes, and written.

ghost use Rattle.std.specs.Prelude.{◌≡◌, ◌≤◌, IfOk};
ghost use Rattle.p3l_base.specs.Limits.{most_processes, most_tokens};
ghost use Rattle.p3l_base.specs.Memory.{IfGiven};
ghost use Rattle.std.specs.List.{All};
ghost use Rattle.p3l_skel.specs.Counts.{HasLawfulCounts};
ghost use Rattle.p3l_skel.specs.Lawful.{IsLawfulTree};
ghost use Rattle.p3l_skel.specs.Numbers.{procs};
ghost use Rattle.p3l_code.specs.Safe.{IsSafe};
ghost use Rattle.p3l_load.specs.Written.{HasAllOperands};
ghost use Rattle.p3l_load.specs.Compiled.{AreCodesOf, IsImageText, image_of};

use crate::laws::{
    every_compiled_image_can_be_run, every_module_has_a_name, every_runnable_image_can_be_written,
};
use crate::operands::have_operands;
use crate::rescues::have_rescues;
use p3l_base::{List, NoMemory};
use p3l_code::{Code, SafeCode};
use p3l_image::{Image, encode};
use p3l_link::link;
use p3l_skel::{Counts, Tree};
use std::alloc::Global;

// A copy of a code that was sealed.
fn copy_of(alloc: Global, safe: &SafeCode) -> Result<Code, NoMemory>
    ensures same { IfGiven result (λ code. code ≡ safe.now) }
    ensures safe { IfOk result IsSafe }
{
    let code = safe.code();
    let instrs = List::from_vec(code.instrs.as_slice().to_vec(alloc)?);
    Ok(Code {
        budget: code.budget,
        ins: code.ins,
        outs: code.outs,
        memory: code.memory,
        instrs,
    })
}

// Copies of codes that were sealed.
fn copies(alloc: Global, codes: &[SafeCode]) -> Result<List<Code>, NoMemory>
    ensures same { IfGiven result (λ copies. copies ≡ codes.now) }
    ensures safe { IfOk result (All IsSafe) }
{
    let mut copies = List::new(alloc);
    for code in codes {
        copies.push(copy_of(alloc, code)?)?;
    }
    Ok(copies)
}

/// The image of a tree under these counts, whose `seq` modules have these codes, with channels of
/// this capacity.
pub fn image_of(
    alloc: Global,
    tree: Tree,
    counts: Counts,
    codes: &[SafeCode],
    capacity: u32,
) -> Result<Image, NoMemory>
    requires lawful { IsLawfulTree tree }
    requires counted { HasLawfulCounts tree counts.list }
    requires procs { procs tree counts.list 0 ≤ most_processes }
    requires capacity { (1 ≤ capacity) × (capacity ≤ most_tokens) }
    ensures image { IfGiven result (λ image. image ≡ image_of tree counts.list codes.now capacity) }
    ensures safe { IfOk result (λ image. All IsSafe image.codes) }
{
    let net = link(alloc, &tree, &counts, capacity)?;
    let codes = copies(alloc, codes)?;
    Ok(Image {
        cap: capacity,
        tree,
        counts,
        codes,
        net,
    })
}

/// The bytes of the image of a program that keeps the rules. Whoever reads them has the image again,
/// and can run it.
pub fn image_text(
    alloc: Global,
    tree: Tree,
    counts: Counts,
    codes: &[SafeCode],
    capacity: u32,
) -> Result<List<u8>, NoMemory>
    requires program { AreCodesOf tree codes.now }
    requires counted { HasLawfulCounts tree counts.list }
    requires procs { procs tree counts.list 0 ≤ most_processes }
    requires some { 1 ≤ capacity }
    requires few { capacity ≤ most_tokens }
    ensures { IfGiven result (IsImageText (image_of tree counts.list codes.now capacity)) }
{
    every_module_has_a_name();
    every_compiled_image_can_be_run();
    every_runnable_image_can_be_written();
    let image = image_of(alloc, tree, counts, codes, capacity)?;
    have_rescues(image.tree.modules.as_slice());
    have_operands(image.codes.as_slice());
    encode(alloc, &image)
}
