// Effects of statements on a valuation: one function per form, which call one another.

ghost use Rattle.std.specs.Prelude.{◌≡◌, Ok, IfOk};
ghost use Rattle.p3l_ast.specs.Tree.{phrase, phrases, one, statements, join, assign, done};
ghost use Rattle.p3l_ast.specs.Meaning.Operator.{holds};
ghost use Rattle.p3l_ast.specs.Meaning.Valuation.{HasSizes};
ghost use Rattle.p3l_ast.specs.Meaning.Expression.{given, value_of};
ghost use Rattle.p3l_ast.specs.Meaning.Statement.{assigned, loop_of, run_of, LoopsUnroll};
ghost use Rattle.p3l_ast.specs.Meaning.Run.{Gives};

use crate::expression::{Expr, Target};
use crate::meaning::expression::{place, value};
use crate::meaning::stop::Stop;
use crate::meaning::valuation::{Valuation, turned, with_word};
use crate::statement::Stmt;
use p3l_base::TrapKind;
use std::alloc::Global;

/// Runs statements on a valuation within a budget of turns, one statement after another.
#[cycle(statement)]
pub fn run_statements(
    alloc: Global,
    budget: u32,
    stmts: &[Stmt],
    valuation: Valuation,
) -> Result<Valuation, Stop>
    requires { HasSizes valuation }
    ensures run { Gives result (run_of budget (statements stmts.now) valuation) }
    ensures sizes { IfOk result HasSizes }
{
    let mut valuation = valuation;
    for stmt in stmts {
        valuation = run_statement(alloc, budget, stmt, valuation)?;
    }
    Ok(valuation)
}

/// Runs a statement on a valuation within a budget of turns.
#[cycle(statement)]
fn run_statement(
    alloc: Global,
    budget: u32,
    stmt: &Stmt,
    valuation: Valuation,
) -> Result<Valuation, Stop>
    requires { HasSizes valuation }
    ensures run { Gives result (run_of budget (one stmt.now) valuation) }
    ensures sizes { IfOk result HasSizes }
{
    match stmt {
        Stmt::Assign(target, expr) => assigned(alloc, target, expr, valuation),
        Stmt::If(condition, then, otherwise) => {
            if holds(&valuation, condition)? {
                return run_statements(alloc, budget, then, valuation);
            }
            match otherwise {
                Some(otherwise) => run_statements(alloc, budget, otherwise, valuation),
                None => Ok(valuation),
            }
        }
        Stmt::While(condition, body) => run_while(alloc, budget, condition, body, valuation),
        Stmt::For(first, start, condition, next, step, body) => {
            let valuation = assigned(alloc, first, start, valuation)?;
            run_for(alloc, budget, condition, next, step, body, valuation)
        }
    }
}

/// Runs a `while` on a valuation: its turns, as long as the condition holds.
#[cycle(statement)]
fn run_while(
    alloc: Global,
    budget: u32,
    condition: &Expr,
    body: &[Stmt],
    valuation: Valuation,
) -> Result<Valuation, Stop>
    requires { HasSizes valuation }
    ensures run { Gives result (loop_of budget (phrase condition.now) (statements body.now)
        valuation) }
    ensures sizes { IfOk result HasSizes }
{
    let mut valuation = valuation;
    while holds(&valuation, condition)? {
        valuation = turned(budget, valuation)?;
        valuation = run_statements(alloc, budget, body, valuation)?;
    }
    Ok(valuation)
}

/// Runs a `for` on the valuation after its first assignment: its turns, each with the assignment after
/// the body.
#[cycle(statement)]
fn run_for(
    alloc: Global,
    budget: u32,
    condition: &Expr,
    next: &Target,
    step: &Expr,
    body: &[Stmt],
    valuation: Valuation,
) -> Result<Valuation, Stop>
    requires { HasSizes valuation }
    ensures run { Gives result (loop_of budget (phrase condition.now)
        (join (statements body.now)
        (assign next.now.at (phrases next.now.index.items) (phrase step.now) done)) valuation) }
    ensures sizes { IfOk result HasSizes }
{
    let mut valuation = valuation;
    while holds(&valuation, condition)? {
        valuation = turned(budget, valuation)?;
        valuation = run_statements(alloc, budget, body, valuation)?;
        valuation = assigned(alloc, next, step, valuation)?;
    }
    Ok(valuation)
}

/// True if a condition holds.
fn holds(valuation: &Valuation, condition: &Expr) -> Result<bool, TrapKind>
    requires { HasSizes valuation.now }
    ensures { result
        ≡ given (value_of valuation.now (phrase condition.now)) (λ word. Ok (holds word)) }
{
    let word = value(valuation, condition)?;
    Ok(word != 0)
}

/// Runs an assignment on a valuation: first the indices of the target, then the right side.
fn assigned(
    alloc: Global,
    target: &Target,
    expr: &Expr,
    valuation: Valuation,
) -> Result<Valuation, Stop>
    requires { HasSizes valuation }
    ensures run { Gives result (assigned target.now.at.name (phrases target.now.index.items)
        (phrase expr.now) valuation) }
    ensures sizes { IfOk result HasSizes }
{
    let place = place(&valuation, target)?;
    let word = value(&valuation, expr)?;
    Ok(with_word(alloc, &valuation, &target.at.name, place, word)?)
}

/// A law of the meaning of loops, for all budgets, conditions, bodies and valuations: a loop is one
/// turn and the loop again, as long as its condition holds and the budget has a turn.
pub fn loops_unroll()
    ensures { LoopsUnroll }
{}
