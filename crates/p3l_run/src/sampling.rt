// The profile of an input.

ghost use Rattle.std.specs.Prelude.{◌≡◌, ◌≤◌, OnOk};
ghost use Rattle.p3l_base.specs.Memory.{IfGiven};
ghost use Rattle.std.specs.List.{All};
ghost use Rattle.p3l_io.specs.Change.{change};
ghost use Rattle.p3l_skel.specs.Lawful.{IsLawfulTree};
ghost use Rattle.p3l_skel.specs.Tree.{node_at};
ghost use Rattle.p3l_units.specs.Table.{HasCode};
ghost use Rattle.p3l_profile.specs.Greatest.{IsProfileOf};
ghost use Rattle.p3l_run.specs.Sampling.{IsSampled};

use crate::feed::INPUT_LIMIT;
use p3l_base::{List, NoMemory, Outcome, TrapKind};
use p3l_code::SafeCode;
use p3l_io::Source;
use p3l_profile::Profile;
use p3l_skel::Tree;
use p3l_stream::laws::a_stream_gives_its_items;
use p3l_stream::{Ending, Lines};
use std::alloc::Global;

/// The end of a profile of an input.
#[derive(Clone, Copy, Debug, Drop, PartialEq, Eq)]
pub enum Sampled {
    /// All items were noted, and the stream ended so.
    Stream(Ending),
    /// The item of this number, from 1, has a trap.
    Trapped {
        item: u64,
        kind: TrapKind,
        module: u32,
    },
}

/// Notes in a profile of a tree what is done for each item of an input, up to its end or the first
/// item with a trap. Its memory doesn't grow with the input.
pub fn sample<S: Source>(
    alloc: Global,
    tree: &Tree,
    codes: &List<SafeCode>,
    profile: &mut Profile,
    input: &mut S,
) -> Result<Sampled, NoMemory>
    requires lawful { IsLawfulTree tree.now }
    requires of { IsProfileOf tree.now profile.old }
    requires codes { All (HasCode (record { tree = tree.now; codes = codes.now })) tree.now.nodes }
    ensures sampled { IfGiven result (IsSampled tree.now
        (record { tree = tree.now; codes = codes.now })
        profile.old.greatest profile.new.greatest
        (change (S.observed input.old) (S.observed input.new))) }
    ensures of { OnOk result (IsProfileOf tree.now profile.new) }
{
    a_stream_gives_its_items();
    let mut lines = Lines::new(alloc, width_of(tree), INPUT_LIMIT)?;
    for before in 0..u64::MAX {
        let answer = lines.next(input)?;
        let words = match answer.into_item() {
            Ok(words) => words,
            Err(ending) => return Ok(Sampled::Stream(ending)),
        };
        match profile.item(alloc, tree, codes, &words)? {
            Outcome::Value(_) => {}
            Outcome::Trapped(trap) => {
                return Ok(Sampled::Trapped {
                    item: before + 1,
                    kind: trap.kind,
                    module: trap.module,
                });
            }
        }
    }
    unreachable!()
}

/// The count of words in an item of a tree.
fn width_of(tree: &Tree) -> u32
    requires { IsLawfulTree tree.now }
    ensures width { result ≡ (node_at tree.now 0).ins }
    ensures some { 1 ≤ result }
{
    match tree.node(0) {
        Some(root) => root.ins,
        None => 1,
    }
}
