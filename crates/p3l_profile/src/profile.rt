// Profiles: what is noted of a tree, item by item.

ghost use Rattle.std.specs.Prelude.{◌≡◌, length, IfOk, OnOk};
ghost use Rattle.p3l_base.specs.Memory.{IfGiven};
ghost use Rattle.std.specs.List.{All};
ghost use Rattle.p3l_skel.specs.Item.{item};
ghost use Rattle.p3l_skel.specs.Lawful.{IsLawfulTree};
ghost use Rattle.p3l_skel.specs.Tree.{node_at};
ghost use Rattle.p3l_units.specs.Table.{HasCode, HasPlaces, leaf, one_if_seq};
ghost use Rattle.p3l_profile.specs.Greatest.{IsProfileOf, none_noted, noted_all};
ghost use Rattle.p3l_profile.specs.Notes.{notes};
ghost use Rattle.p3l_profile.specs.Text.{text_of};

use crate::bodies::Bodies;
use crate::highs::Highs;
use crate::text::cost_text;
use p3l_base::{List, NoMemory, Outcome, Words};
use p3l_code::SafeCode;
use p3l_skel::{ModuleKind, Tree};
use p3l_walk::item_outcome;
use std::alloc::Global;
use std::marker::Model;

/// The most work that the bodies of a tree did, and the most turns of its loops. Its memory doesn't
/// grow with the items.
#[derive(Debug, Drop)]
pub struct Profile {
    highs: Highs,
    // For each module, how many `seq` modules are before it.
    places: List<u32>,
}

impl Model for Profile {
    ghost use Rattle.p3l_profile.specs.Greatest.{Profiled};

    ghost Value = { Profiled };

    ghost view = { λ it. record { greatest = it.highs; places = it.places } };
}

impl Profile {
    /// The profile of a tree before its first item.
    pub fn new(alloc: Global, tree: &Tree) -> Result<Profile, NoMemory>
        requires { IsLawfulTree tree.now }
        ensures none { IfGiven result (λ profile. profile.greatest
            ≡ none_noted (length tree.now.modules)) }
        ensures of { IfOk result (IsProfileOf tree.now) }
    {
        let highs = Highs::new(alloc, tree.modules.len())?;
        let places = code_places(alloc, tree)?;
        Ok(Profile { highs, places })
    }

    /// The outcome of the root of the tree on an item, with a code for each `seq` module in their
    /// order. Its runs and turns are noted.
    pub fn item(
        &mut self,
        alloc: Global,
        tree: &Tree,
        codes: &List<SafeCode>,
        words: &Words,
    ) -> Result<Outcome, NoMemory>
        requires lawful { IsLawfulTree tree.now }
        requires of { IsProfileOf tree.now self.old }
        requires codes { All (HasCode (record { tree = tree.now; codes = codes.now })) tree.now.nodes }
        requires fits { length words.now ≡ (node_at tree.now 0).ins }
        ensures item { IfGiven result (λ outcome. outcome
            ≡ item tree.now (leaf (record { tree = tree.now; codes = codes.now })) 0 words.now) }
        ensures noted { OnOk result (self.new.greatest
            ≡ noted_all self.old.greatest
            (notes tree.now (record { tree = tree.now; codes = codes.now }) 0 words.now)) }
        ensures of { OnOk result (IsProfileOf tree.now self.new) }
    {
        let bodies = Bodies::new(tree, codes, &self.places);
        item_outcome(alloc, tree, &bodies, &mut self.highs, 0, words)
    }

    /// The cost file of what was noted.
    pub fn text(&self, alloc: Global, tree: &Tree) -> Result<List<u8>, NoMemory>
        ensures { IfGiven result (λ text. text ≡ text_of tree.now self.now.greatest) }
    {
        cost_text(alloc, tree, &self.highs)
    }
}

// For each module, how many `seq` modules are before it.
fn code_places(alloc: Global, tree: &Tree) -> Result<List<u32>, NoMemory>
    requires { IsLawfulTree tree.now }
    ensures { IfGiven result (HasPlaces tree.now.modules) }
{
    let mut places = List::new(alloc);
    let mut before = 0;
    for info in tree.modules.as_slice() {
        places.push(before)?;
        before += one_if_seq(info.kind);
    }
    Ok(places)
}

// 1 for a `seq` module, else 0.
fn one_if_seq(kind: ModuleKind) -> u32
    ensures { result ≡ one_if_seq kind }
{
    match kind {
        ModuleKind::Seq => 1,
        _ => 0,
    }
}
