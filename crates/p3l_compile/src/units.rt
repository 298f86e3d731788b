// The units of a tree from the bodies of its modules.

ghost use Rattle.std.specs.Prelude.{◌≡◌, IfOk, List, map};
ghost use Rattle.p3l_base.specs.Memory.{IfGiven};
ghost use Rattle.std.specs.List.{AllByRecursion};
ghost use Rattle.p3l_body.specs.Seq.{SeqTree, seq_tree};
ghost use Rattle.p3l_skel.specs.Lawful.{IsLawfulTree};
ghost use Rattle.p3l_units.specs.Table.{leaf};
ghost use Rattle.p3l_compile.specs.Condition.{IsCompilable};
ghost use Rattle.p3l_compile.specs.Leaves.{AreBodies, AreCodes, HasBodies, LeavesAreEvals, body_leaf};

use crate::body::compile;
use p3l_base::{List, NoMemory};
use p3l_body::CheckedSeq;
use p3l_code::SafeCode;
use p3l_skel::Tree;
use p3l_units::UnitTable;
use std::alloc::Global;

/// The codes of bodies, in their order.
pub fn codes_of(alloc: Global, seqs: &[CheckedSeq<'_>]) -> Result<List<SafeCode>, NoMemory>
    requires { AllByRecursion IsCompilable (map seq_tree seqs.now) }
    ensures { IfGiven result (AreCodes (map seq_tree seqs.now)) }
{
    let mut codes = List::new(alloc);
    for seq in seqs {
        codes.push(compile(alloc, seq)?)?;
    }
    Ok(codes)
}

/// The units of a lawful tree on the codes of its `seq` modules: what they make of words is what the
/// bodies mean that the codes were compiled from.
pub fn table_of<'t>(
    alloc: Global,
    tree: &'t Tree,
    codes: List<SafeCode>,
) -> Result<UnitTable<'t>, NoMemory>
    requires lawful { IsLawfulTree tree.now }
    requires bodies { HasBodies tree.now codes }
    ensures tree { IfGiven result (λ table. table.tree ≡ tree.now) }
    ensures leaf { (seqs : List SeqTree) → AreBodies tree.now seqs → AreCodes seqs codes
        → IfOk result (λ table. leaf table ≡ body_leaf tree.now seqs) }
{
    UnitTable::new(alloc, tree, codes)
}

/// The units of a lawful tree, from the bodies of its `seq` modules in their order: what they make
/// of words is what the bodies mean.
pub fn units_of<'t>(
    alloc: Global,
    tree: &'t Tree,
    seqs: &[CheckedSeq<'_>],
) -> Result<UnitTable<'t>, NoMemory>
    requires lawful { IsLawfulTree tree.now }
    requires bodies { AreBodies tree.now (map seq_tree seqs.now) }
    ensures tree { IfGiven result (λ table. table.tree ≡ tree.now) }
    ensures leaf { IfOk result (λ table. leaf table ≡ body_leaf tree.now (map seq_tree seqs.now)) }
{
    let codes = codes_of(alloc, seqs)?;
    table_of(alloc, tree, codes)
}

/// A law of the bodies of a tree: at each `seq` node, and on the words that it takes, what they make of
/// these is what the body of its module means.
pub fn leaves_are_evals()
    ensures { LeavesAreEvals }
{}
