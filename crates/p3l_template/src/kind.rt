// Kinds of nodes: templates with all that surveys of nets and the order of states need of them.

ghost use Rattle.std.specs.Prelude.{◌≡◌, ◌++◌, ◌+◌, ◌<◌, ◌≤◌, ◌^◌, ℕ, Bool, List, length};
ghost use Rattle.p3l_base.specs.Memory.{IfGiven, OnGiven};
ghost use Rattle.p3l_skel.specs.declared.tree.Tree.{Tree};
ghost use Rattle.p3l_firing.specs.Shot.{HaveFewTags, state_of};
ghost use Rattle.p3l_template.specs.Finding.{Finds, IsFoundShape, if_orderly};
ghost use Rattle.p3l_template.specs.Shape.{Base, FitsAt};
ghost use Rattle.p3l_template.specs.Tagged.{IsTagged};
ghost use Rattle.p3l_template.specs.declared.width.Width.{Width};

use crate::place::{Site, Slot};
use crate::template::Template;
use crate::width::Width;
use p3l_base::{List, NoMemory};
use p3l_firing::{Shot, Token};
use p3l_skel::Tree;
use std::alloc::Global;

/// A kind of node: its template, and what surveys of nets and the order of states need of it.
pub trait Kind: Template {
    /// The widths of its own channels in order, for a node of a tree, where tokens outside it have
    /// this number of tags.
    ghost widths: { Self → Tree → ℕ → ℕ → List Width };

    /// The number of tags that the tokens inside it have more.
    ghost deeper: { Self → ℕ };

    /// It is a loop: its first process is the head, and its second the tail.
    ghost is_loop: { Self → Bool };

    /// The tokens found in any state itself.
    ghost finds: { Self → Finds };

    /// Gives the number of its own processes.
    fn proc_count(&self) -> usize
        requires fit { Self.is_fit self.now }
        ensures { (base : Base) → length ((Self.shape self.now).procs base) ≡ result };

    /// Gives the number of its own channels.
    fn chan_count(&self) -> usize
        requires fit { Self.is_fit self.now }
        ensures { (base : Base) → (Self.shape self.now).chans base ≡ result };

    /// Gives the places of its inner parts in order.
    fn slots(&self, alloc: Global, place: &Site) -> Result<List<Slot>, NoMemory>
        requires fit { Self.is_fit self.now }
        requires room { FitsAt (Self.shape self.now) place.now }
        ensures { IfGiven result (λ slots. slots ≡ (Self.shape self.now).slots place.now) };

    /// Puts the widths of its own channels behind others.
    fn push_widths(
        &self,
        row: &mut List<Width>,
        tree: &Tree,
        node: u32,
        tags: u32,
    ) -> Result<(), NoMemory>
        requires fit { Self.is_fit self.now }
        requires tags { tags + 2 < 2 ^ 32 }
        ensures { OnGiven result (row.new ≡ row.old ++ widths self.now tree.now node tags) };

    /// Gives the number of tags that the tokens inside it have more: two at most.
    fn deeper(&self) -> u32
        ensures more { result ≡ deeper self.now }
        ensures few { result ≤ 2 };

    /// Returns true exactly if it is a loop.
    fn is_loop(&self) -> bool
        ensures { result ≡ is_loop self.now };

    /// Gives the tokens pending in its part, without their outcomes, if the part is orderly, where
    /// its inner parts are orderly and these tokens are pending in them.
    fn pending(
        &self,
        alloc: Global,
        tree: &Tree,
        shot: &Shot,
        place: &Site,
        inner: &[List<Token>],
    ) -> Result<Option<List<Token>>, NoMemory>
        requires fit { Self.is_fit self.now }
        requires inner { length inner.now ≡ (Self.shape self.now).inner }
        requires room { FitsAt (Self.shape self.now) place.now }
        requires few { HaveFewTags shot.now }
        ensures { IfGiven result (λ pending. pending
            ≡ if_orderly (finds self.now tree.now place.now (state_of shot.now) inner.now)) };

    /// The tokens inside it and in its own channels have two tags more at most.
    ghost tagged: { (t : Self) (tree : Tree) (node : ℕ) → IsTagged (deeper t) (widths t tree node) };

    /// For a node that it is made for, there is a width for each of its own channels.
    ghost counted: { (t : Self) (tree : Tree) (node tags : ℕ) (base : Base) → Self.serves t tree node
        → length (widths t tree node tags) ≡ (Self.shape t).chans base };

    /// The tokens found are those of its part, whatever the units make of words.
    ghost found: { (t : Self) → IsFoundShape (Self.shape t) (finds t) };
}
