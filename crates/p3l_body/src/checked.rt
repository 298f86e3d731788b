// The checked form of a `seq` module.

ghost use Rattle.p3l_ast.specs.Tree.{module_tree, statements};
ghost use Rattle.p3l_types.specs.Verdict.{Gives};
ghost use Rattle.p3l_body.specs.Seq.{checked_locals, checked_seq, checked_tree};

use crate::mention::Names;
use crate::ports::{Ports, budget_of, ports_of, rescue_of};
use crate::scope::{Variables, declare};
use crate::var::Var;
use p3l_ast::{Block, Fault, Inside, Module, SourceRefusal, Stmt};
use p3l_base::List;
use p3l_types::Consts;
use std::alloc::Global;

/// A `seq` module that keeps the rules: its number in the order of the source, its variables with
/// their shapes, its budget, its statements, and the constants before it.
#[derive(Drop)]
pub struct CheckedSeq<'a> {
    pub module: u32,
    pub ins: List<Var>,
    pub outs: List<Var>,
    pub locals: List<Var>,
    pub budget: u32,
    pub body: &'a [Stmt],
    pub consts: Consts,
}

/// The local variables of a body whose statements keep the rules of names.
fn locals_of(
    alloc: Global,
    consts: &Consts,
    scope: &mut Variables,
    block: &Block,
) -> Result<List<Var>, SourceRefusal>
    ensures { Gives result (checked_locals consts.now scope.old block.now.locals (statements
        block.now.stmts)) }
{
    let locals = declare(
        alloc,
        Fault::DeclaredTwice,
        false,
        consts,
        scope,
        block.locals.as_slice(),
    )?;
    let names = Names { consts, scope };
    names.check_statements(block.stmts.as_slice())?;
    Ok(locals)
}

/// Checks the `seq` module of this number: its ports, its budget and rescue, its local variables, and every name
/// of its statements in the order of the text.
pub fn check_body<'a>(
    alloc: Global,
    seq: &'a Module,
    home: u32,
    consts: &Consts,
) -> Result<CheckedSeq<'a>, SourceRefusal>
    ensures { Gives (checked_tree result) (checked_seq consts.now home (module_tree seq.now)) }
{
    let mut scope = Variables::new(alloc);
    let ports = ports_of(
        alloc,
        consts,
        &mut scope,
        seq.ins.as_slice(),
        seq.outs.as_slice(),
    )?;
    let budget = budget_of(consts, &seq.clauses.budget)?;
    rescue_of(consts, &seq.clauses.rescue)?;
    let Inside::Body(block) = &seq.inside else {
        return Err(SourceRefusal::At {
            fault: Fault::Expected,
            pos: seq.at.pos,
        });
    };
    let locals = locals_of(alloc, consts, &mut scope, block)?;
    let Ports { ins, outs } = ports;
    Ok(CheckedSeq {
        module: home,
        ins,
        outs,
        locals,
        budget,
        body: block.stmts.as_slice(),
        consts: consts.copy()?,
    })
}
