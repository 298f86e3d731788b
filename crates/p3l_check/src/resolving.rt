// Whole programs.

ghost use Rattle.std.specs.Prelude.{◌≡◌, ◌<◌, IfOk, length, map};
ghost use Rattle.p3l_ast.specs.Tree.{entry_tree, program_tree};
ghost use Rattle.p3l_types.specs.Verdict.{Gives};
ghost use Rattle.p3l_skel.specs.Lawful.{IsLawfulTree};
ghost use Rattle.p3l_check.specs.Resolving.{main_place, root_of, limit_of, resolved_tree, whole, resolved};
ghost use Rattle.p3l_check.specs.Many.{GivesUnlessMany};
ghost use Rattle.p3l_check.specs.Callables.{AreCallables};
ghost use Rattle.p3l_check.specs.Entry.{checked_of};

use crate::UnfoldRefusal;
use crate::modules::Modules;
use crate::places::spot_of;
use crate::progress::Progress;
use p3l_ast::{Entry, Fault, Pos, Program, SourceRefusal};
use p3l_base::{List, Name};
use p3l_body::CheckedSeq;
use p3l_skel::Tree;
use std::alloc::Global;

/// A program that keeps the rules: its tree, and the bodies of its `seq` modules in the order of the
/// source.
#[derive(Drop)]
pub struct Resolved<'a> {
    pub tree: Tree,
    pub seqs: List<CheckedSeq<'a>>,
}

/// The name of the module that a stream of items goes into.
const MAIN: &str = "main";

/// The position of the entry of the name `main`.
#[tactic(auto, using(crate::proofs::MainPlace::places))]
fn main_place(end: Pos, entries: &[Entry]) -> Pos
    ensures { result ≡ main_place end (map entry_tree entries.now) }
{
    for entry in entries {
        let spot = spot_of(entry);
        if spot.name.as_str() == MAIN {
            return spot.pos;
        }
    }
    end
}

/// The number of the module `main`, in a program that ends at this place.
fn root_of(alloc: Global, end: Pos, modules: &Modules) -> Result<u32, SourceRefusal>
    ensures root { Gives result (root_of end modules.now) }
    ensures within { IfOk result (λ root. root < length modules.now.callables) }
{
    let main = Name::from_text(alloc, MAIN)?;
    match modules.number(&main) {
        Some(root) => Ok(root),
        None => Err(SourceRefusal::At {
            fault: Fault::NoMain,
            pos: end,
        }),
    }
}

/// The limit that the instances of a root at this place pass.
fn limit_of(pos: Pos, refusal: UnfoldRefusal) -> SourceRefusal
    ensures { result ≡ limit_of pos refusal }
{
    let fault = match refusal {
        UnfoldRefusal::TooDeep => Fault::TooDeep,
        UnfoldRefusal::TooManyInstances => Fault::TooManyInstances,
        UnfoldRefusal::TooHeavy => Fault::TooHeavy,
        UnfoldRefusal::NoMemory => return SourceRefusal::NoMemory,
    };
    SourceRefusal::At { fault, pos }
}

/// The rules of the whole program, after those of its entries.
fn whole<'a>(
    alloc: Global,
    program: &Program,
    progress: Progress<'a>,
) -> Result<Resolved<'a>, SourceRefusal>
    requires { AreCallables progress.modules.infos progress.modules.callables }
    ensures resolved { Gives (resolved_tree result)
        (whole (program_tree program.now) (checked_of progress.entry)) }
    ensures lawful { IfOk result (λ resolved. IsLawfulTree resolved.tree) }
{
    let Progress { modules, seqs, .. } = progress;
    let root = root_of(alloc, program.end, &modules)?;
    match modules.unfold(alloc, root) {
        Ok(tree) => Ok(Resolved { tree, seqs }),
        Err(refusal) => {
            let at = main_place(program.end, program.entries.as_slice());
            Err(limit_of(at, refusal))
        }
    }
}

/// The tree and the bodies of a program that keeps the rules of the language; else the first fault in
/// their order, at its place. A program of too many entries is out of memory too.
pub fn resolve<'a>(alloc: Global, program: &'a Program) -> Result<Resolved<'a>, SourceRefusal>
    ensures resolved { GivesUnlessMany (program_tree program.now).entries (resolved_tree result)
        (resolved (program_tree program.now)) }
    ensures lawful { IfOk result (λ resolved. IsLawfulTree resolved.tree) }
{
    match Progress::of(alloc, program.entries.as_slice()) {
        Ok(progress) => whole(alloc, program, progress),
        Err(refusal) => Err(refusal),
    }
}
