// Templates: the calls of each, and the laws that it satisfies.

ghost use Rattle.std.specs.Prelude.{◌≡◌, ℕ, ◌≤◌, ◌<◌, length, IfOk};
ghost use Rattle.p3l_base.specs.Memory.{IfGiven};
ghost use Rattle.p3l_skel.specs.declared.tree.Tree.{Tree};
ghost use Rattle.p3l_firing.specs.declared.net.Net.{Net};
ghost use Rattle.p3l_template.specs.Built.{all_ports};
ghost use Rattle.p3l_template.specs.Placed.{IsLawfulShape};
ghost use Rattle.p3l_template.specs.Typing.{IsTypedShape};
ghost use Rattle.p3l_template.specs.Shape.{Blueprint, base_of, added, HasRoomFor};

use crate::builder::Builder;
use p3l_base::{List, NoMemory};
use std::alloc::Global;

/// The two channels that a part of a net is between.
#[derive(Clone, Copy, Debug, Drop, PartialEq, Eq)]
pub struct Ports {
    pub input: u32,
    pub output: u32,
}

/// The processes and channels that a node of the tree places in a net.
pub trait Template {
    /// Its processes and channels, round any inner parts.
    ghost shape: { Self → Blueprint };

    /// Its numbers are in range.
    ghost is_fit: { Self → Type 0 };

    /// The node of a tree is one that it is made for.
    ghost serves: { Self → Tree → ℕ → Type 0 };

    /// Adds the template's own processes and channels, in a net whose channels have capacity `cap`,
    /// and gives the ports of its inner parts in order.
    fn place(
        &self,
        alloc: Global,
        builder: &mut Builder,
        at: &Ports,
        cap: u32,
    ) -> Result<List<Ports>, NoMemory>
        requires fit { is_fit self.now }
        requires room { HasRoomFor builder.old (length ((shape self.now).procs (base_of at.now
            builder.old)))
            ((shape self.now).chans (base_of at.now builder.old)) }
        ensures placed { IfGiven result (λ ports. builder.new
            ≡ added builder.old ((shape self.now).procs (base_of at.now builder.old))
            ((shape self.now).laid cap (base_of at.now builder.old))) }
        ensures ports { IfOk result (λ ports. ports
            ≡ all_ports ((shape self.now).slots (base_of at.now builder.old))) };

    /// Placed round lawful parts, it is a lawful part.
    ghost lawful: { (t : Self) → is_fit t → IsLawfulShape (shape t) };

    /// For such a node its processes fit between channels of the words and tags that `widths` says.
    ghost typed: { (t : Self) (tree : Tree) (node : ℕ) → serves t tree node → IsTypedShape tree node (shape t) };
}

/// Placed round lawful parts, any template whose numbers are in range is a lawful part.
pub fn every_template_is_lawful<T: Template>(_template: &T)
    requires { T.is_fit _template.now }
    ensures { IsLawfulShape (T.shape _template.now) }
{}

/// For a node that it is made for, any template fits between channels of the node's words.
pub fn every_template_is_typed<T: Template>(_template: &T)
    ensures { (tree : Tree) (node : ℕ) → T.serves _template.now tree node
        → IsTypedShape tree node (T.shape _template.now) }
{}
