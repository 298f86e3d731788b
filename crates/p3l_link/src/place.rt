// The places of a node of a tree, and of all that is below it, in a net that is being built.

ghost use Rattle.std.specs.Prelude.{◌≡◌, ◌≤◌, length};
ghost use Rattle.p3l_base.specs.Memory.{IfGiven};
ghost use Rattle.p3l_skel.specs.Counts.{count_of};
ghost use Rattle.p3l_skel.specs.Lawful.{IsLawfulTree};
ghost use Rattle.p3l_template.specs.Shape.{base_of};
ghost use Rattle.p3l_link.specs.Counts.{IsCounted};
ghost use Rattle.p3l_link.specs.Net.{HasRoom, node_piece, with_piece};

use crate::table::{part_of, template_of};
use p3l_base::NoMemory;
use p3l_skel::{Counts, Tree};
use p3l_template::{Builder, Kind, Ports, Site, Template};
use std::alloc::Global;

/// The place between two channels, after what is built so far.
fn place_after(builder: &Builder, at: &Ports) -> Site
    requires { (length builder.now.procs ≤ 1048576) × (length builder.now.chans ≤ 1048576) }
    ensures { result ≡ base_of at.now builder.now }
{
    Site {
        input: at.input,
        output: at.output,
        proc: builder.process_count() as u32,
        chan: builder.channel_count() as u32,
    }
}

/// Adds a node and all that is below it, `levels` levels at most, between two channels.
pub(crate) fn place_node(
    alloc: Global,
    tree: &Tree,
    counts: &Counts,
    levels: u32,
    number: u32,
    builder: &mut Builder,
    at: &Ports,
    cap: u32,
) -> Result<(), NoMemory>
    requires lawful { IsLawfulTree tree.now }
    requires counted { IsCounted tree.now (count_of tree.now counts.now.list) levels number }
    requires room { HasRoom builder.old
        (node_piece tree.now counts.now.list cap levels number (base_of at.now builder.old)) }
    ensures { IfGiven result (λ _. builder.new
        ≡ with_piece builder.old
        (node_piece tree.now counts.now.list cap levels number (base_of at.now builder.old))) }
{
    let template = template_of(tree, counts, number);
    let slots = template.slots(alloc, &place_after(builder, at))?;
    let _ports = template.place(alloc, builder, at, cap)?;
    for slot in slots.as_slice() {
        let part = part_of(tree, number, slot.part);
        let inner = Ports {
            input: slot.input,
            output: slot.output,
        };
        place_node(alloc, tree, counts, levels - 1, part, builder, &inner, cap)?;
    }
    Ok(())
}
