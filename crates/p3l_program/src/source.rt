// A program as it is written, with its tree, its costs and the counts that are chosen for it.

ghost use Rattle.std.specs.Prelude.{◌≡◌, ◌≤◌, length, IfOk, IfErr, OnOk};
ghost use Rattle.p3l_ast.specs.Tree.{program_tree};
ghost use Rattle.p3l_io.specs.Change.{HasSameContent, change};
ghost use Rattle.p3l_rewrite.specs.Serving.{HasTree};
ghost use Rattle.p3l_program.specs.File.{text_limit};
ghost use Rattle.p3l_program.specs.Load.{IsNotLoaded};
ghost use Rattle.p3l_program.specs.Plan.{IsTextRefused};
ghost use Rattle.p3l_program.specs.Source.{BreaksRules, IsSourceOf, LoadsPriced, LoadsSource};
ghost use Rattle.p3l_program.specs.Stage.{build_stages, program_stages};
ghost use Rattle.p3l_program.specs.Wants.{Wants};

use crate::file::{TEXT_LIMIT, find_text};
use crate::plan::choose_counts;
use p3l_ast::{Program, SourceRefusal};
use p3l_base::Name;
use p3l_check::resolve;
use p3l_cost::Costs;
use p3l_io::Files;
use p3l_opts::Build;
use p3l_reader::read;
use p3l_report::{Refusal, Verdict};
use p3l_skel::{Counts, Tree};
use std::alloc::Global;

/// A program that keeps all rules, as it is written, and its tree.
#[derive(Drop)]
pub struct SourceText {
    pub program: Program,
    pub tree: Tree,
}

/// The tree of a program that keeps all rules; else the first fault.
fn tree_of(alloc: Global, program: &Program) -> Result<Tree, SourceRefusal>
    ensures kept { IfOk result (HasTree (program_tree program.now)) }
    ensures broken { IfErr result (BreaksRules (program_tree program.now)) }
{
    match resolve(alloc, program) {
        Ok(resolved) => Ok(resolved.tree),
        Err(refusal) => Err(refusal),
    }
}

/// The program that a text spells, with its tree, if it keeps all rules; else the first fault.
fn source_of(alloc: Global, text: &[u8]) -> Result<SourceText, SourceRefusal>
    requires { length text.now ≤ text_limit }
    ensures kept { IfOk result (IsSourceOf text.now) }
    ensures refused { IfErr result (IsTextRefused text.now) }
{
    let program = read(alloc, text)?;
    let tree = tree_of(alloc, &program)?;
    Ok(SourceText { program, tree })
}

/// The program of the file of this name, as it is written, or the verdict that there is none.
fn load_source<F: Files>(alloc: Global, name: Name, files: &mut F) -> Result<SourceText, Verdict>
    ensures loaded { IfOk result (LoadsSource (F.observed files.old).content name) }
    ensures unchanged { OnOk result (F.observed files.new ≡ F.observed files.old) }
    ensures refused { IfErr result
        (IsNotLoaded (change (F.observed files.old) (F.observed files.new)) (program_stages name)) }
    ensures same_files { HasSameContent (change (F.observed files.old) (F.observed files.new)) }
    ensures wants { IfErr result (Wants F.may_want) }
{
    match find_text(alloc, name, TEXT_LIMIT, files) {
        Err(refusal) => Err(Verdict::from(refusal)),
        Ok(text) => match source_of(alloc, text.as_slice()) {
            Ok(source) => Ok(source),
            Err(SourceRefusal::At { fault, pos }) => {
                Err(Verdict::Refused(Refusal::Source { fault, pos }))
            }
            Err(SourceRefusal::NoMemory) => Err(Verdict::NoMemory),
        },
    }
}

/// A program with its tree, its costs, and the counts of workers that are chosen for it.
#[derive(Drop)]
pub struct Priced {
    pub program: Program,
    pub tree: Tree,
    pub costs: Costs,
    pub counts: Counts,
}

/// The program, its costs and the counts that are chosen, or the verdict that there are none.
pub fn load_priced<F: Files>(alloc: Global, build: Build, files: &mut F) -> Result<Priced, Verdict>
    requires some { 1 ≤ build.processors }
    requires few { build.processors ≤ 512 }
    ensures loaded { IfOk result (LoadsPriced (F.observed files.old).content build) }
    ensures unchanged { OnOk result (F.observed files.new ≡ F.observed files.old) }
    ensures refused { IfErr result
        (IsNotLoaded (change (F.observed files.old) (F.observed files.new)) (build_stages build)) }
    ensures same_files { HasSameContent (change (F.observed files.old) (F.observed files.new)) }
    ensures wants { IfErr result (Wants F.may_want) }
{
    let processors = build.processors;
    let source = load_source(alloc, build.program, files)?;
    let chosen = choose_counts(alloc, &source.tree, build.costs, processors, files)?;
    Ok(Priced {
        program: source.program,
        tree: source.tree,
        costs: chosen.costs,
        counts: chosen.choice.counts,
    })
}
