// Whole bodies.

ghost use Rattle.std.specs.Prelude.{◌≡◌, ◌≤◌};
ghost use Rattle.p3l_base.specs.Memory.{IfGiven};
ghost use Rattle.p3l_base.specs.Limits.{most_words};
ghost use Rattle.p3l_body.specs.Seq.{seq_tree};
ghost use Rattle.p3l_compile.specs.Scope.{names_of};
ghost use Rattle.p3l_compile.specs.Condition.{total, IsCompilable, Compiles, body_code};

use crate::emit::put;
use crate::scope::Scope;
use crate::statement::emit_stmts;
use p3l_base::{List, NoMemory};
use p3l_body::{CheckedSeq, Var};
use p3l_code::{Code, Instr, SafeCode};
use p3l_types::words_of;
use std::alloc::Global;

/// The code of a checked body: safe code that gives on all in words what the body means within its
/// budget of turns.
pub fn compile(alloc: Global, seq: &CheckedSeq<'_>) -> Result<SafeCode, NoMemory>
    requires { IsCompilable (seq_tree seq.now) }
    ensures { IfGiven result (Compiles (seq_tree seq.now)) }
{
    let ins = total(seq.ins.as_slice());
    let outs = total(seq.outs.as_slice());
    let memory = ins + outs + total(seq.locals.as_slice());
    let instrs = instrs_of(alloc, seq)?;
    Ok(SafeCode::seal(Code {
        budget: seq.budget,
        ins,
        outs,
        memory,
        instrs,
    }))
}

// The instructions of a checked body.
fn instrs_of(alloc: Global, seq: &CheckedSeq<'_>) -> Result<List<Instr>, NoMemory>
    requires { IsCompilable (seq_tree seq.now) }
    ensures { IfGiven result (λ instrs. instrs ≡ body_code (seq_tree seq.now)) }
{
    let scope = scope_of(alloc, seq)?;
    let mut instrs = Vec::new(alloc);
    emit_stmts(&scope, &mut instrs, seq.body)?;
    put(&mut instrs, Instr::End)?;
    Ok(List::from_vec(instrs))
}

// The names of a checked body.
fn scope_of<'s>(alloc: Global, seq: &'s CheckedSeq<'_>) -> Result<Scope<'s>, NoMemory>
    requires { IsCompilable (seq_tree seq.now) }
    ensures { IfGiven result (λ scope. scope ≡ names_of (seq_tree seq.now)) }
{
    let mut scope = Scope::new(alloc, &seq.consts);
    let outs = scope.enter(alloc, 0, seq.ins.as_slice())?;
    let locals = scope.enter(alloc, outs, seq.outs.as_slice())?;
    scope.enter(alloc, locals, seq.locals.as_slice())?;
    Ok(scope)
}

// The number of words of variables.
fn total(vars: &[Var]) -> u32
    requires { total vars.now ≤ most_words }
    ensures { result ≡ total vars.now }
{
    let mut words = 0;
    for var in vars {
        words += words_of(&var.shape);
    }
    words
}
