// The code of statements, put after the code so far.

ghost use Rattle.std.specs.Prelude.{◌≡◌, ℕ, ◌+◌, ◌≤◌, [], ◌++◌, length, OnOk};
ghost use Rattle.p3l_base.specs.Memory.{OnGiven};
ghost use Rattle.p3l_base.specs.Limits.{most_instructions};
ghost use Rattle.p3l_ast.specs.Tree.{phrase, phrases, one, statements as tree_of, join, done, assign, if_, if_else, while_, for_};
ghost use Rattle.p3l_compile.specs.Scope.{found};
ghost use Rattle.p3l_compile.specs.Statement.{assign_size, assign_code, statement_size, statement_code, store_code, store_at_code};
ghost use Rattle.p3l_compile.specs.Correct.{CompiledMeans};

use crate::emit::{emit_expr, emit_index, place, put};
use crate::scope::Scope;
use p3l_ast::{Expr, Stmt, Target};
use p3l_base::{Name, NoMemory};
use p3l_code::Instr;

/// Puts the code of statements after the code so far.
#[cycle(statement)]
pub fn emit_stmts(scope: &Scope<'_>, code: &mut Vec<Instr>, stmts: &[Stmt]) -> Result<(), NoMemory>
    requires { length code.old.items + statement_size (tree_of stmts.now) ≤ most_instructions }
    ensures code { OnGiven result (code.new.items
        ≡ code.old.items ++ statement_code scope.now (length code.old.items) (tree_of stmts.now)) }
    ensures size { OnOk result (length code.new.items
        ≡ length code.old.items + statement_size (tree_of stmts.now)) }
{
    for stmt in stmts {
        emit_stmt(scope, code, stmt)?;
    }
    Ok(())
}

// Puts the code of a statement after the code so far.
#[cycle(statement)]
fn emit_stmt(scope: &Scope<'_>, code: &mut Vec<Instr>, stmt: &Stmt) -> Result<(), NoMemory>
    requires { length code.old.items + statement_size (one stmt.now) ≤ most_instructions }
    ensures code { OnGiven result (code.new.items
        ≡ code.old.items ++ statement_code scope.now (length code.old.items) (one stmt.now)) }
    ensures size { OnOk result (length code.new.items
        ≡ length code.old.items + statement_size (one stmt.now)) }
{
    match stmt {
        Stmt::Assign(target, expr) => emit_assign(scope, code, target, expr),
        Stmt::If(condition, then, other) => match other {
            Some(other) => emit_choice(scope, code, condition, then, other),
            None => emit_if(scope, code, condition, then),
        },
        Stmt::While(condition, body) => emit_while(scope, code, condition, body),
        Stmt::For(first, start, condition, next, step, body) => {
            emit_assign(scope, code, first, start)?;
            emit_turns(scope, code, condition, next, step, body)
        }
    }
}

// Puts the code of an `if` with no `else` after the code so far.
#[cycle(statement)]
fn emit_if(
    scope: &Scope<'_>,
    code: &mut Vec<Instr>,
    condition: &Expr,
    then: &[Stmt],
) -> Result<(), NoMemory>
    requires { length code.old.items + statement_size (if_ (phrase condition.now) (tree_of then.now)
        done) ≤ most_instructions }
    ensures code { OnGiven result (code.new.items
        ≡ code.old.items
        ++ statement_code scope.now (length code.old.items)
        (if_ (phrase condition.now) (tree_of then.now) done)) }
    ensures size { OnOk result (length code.new.items
        ≡ length code.old.items + statement_size (if_ (phrase condition.now) (tree_of then.now)
        done)) }
{
    emit_expr(scope, code, condition)?;
    let jump = code.len();
    put(code, Instr::JumpZero(0))?;
    emit_stmts(scope, code, then)?;
    code[jump] = Instr::JumpZero(place(code));
    Ok(())
}

// Puts the code of an `if` with an `else` after the code so far.
#[cycle(statement)]
fn emit_choice(
    scope: &Scope<'_>,
    code: &mut Vec<Instr>,
    condition: &Expr,
    then: &[Stmt],
    other: &[Stmt],
) -> Result<(), NoMemory>
    requires { length code.old.items + statement_size (if_else (phrase condition.now)
        (tree_of then.now) (tree_of other.now) done) ≤ most_instructions }
    ensures code { OnGiven result (code.new.items
        ≡ code.old.items
        ++ statement_code scope.now (length code.old.items)
        (if_else (phrase condition.now) (tree_of then.now) (tree_of other.now) done)) }
    ensures size { OnOk result (length code.new.items
        ≡ length code.old.items + statement_size (if_else (phrase condition.now) (tree_of then.now)
        (tree_of other.now) done)) }
{
    emit_expr(scope, code, condition)?;
    let jump = code.len();
    put(code, Instr::JumpZero(0))?;
    emit_stmts(scope, code, then)?;
    let skip = code.len();
    put(code, Instr::Jump(0))?;
    code[jump] = Instr::JumpZero(place(code));
    emit_stmts(scope, code, other)?;
    code[skip] = Instr::Jump(place(code));
    Ok(())
}

// Puts the code of a `while` after the code so far: its condition stands after its body.
#[cycle(statement)]
fn emit_while(
    scope: &Scope<'_>,
    code: &mut Vec<Instr>,
    condition: &Expr,
    body: &[Stmt],
) -> Result<(), NoMemory>
    requires { length code.old.items + statement_size (while_ (phrase condition.now)
        (tree_of body.now) done) ≤ most_instructions }
    ensures code { OnGiven result (code.new.items
        ≡ code.old.items
        ++ statement_code scope.now (length code.old.items)
        (while_ (phrase condition.now) (tree_of body.now) done)) }
    ensures size { OnOk result (length code.new.items
        ≡ length code.old.items + statement_size (while_ (phrase condition.now) (tree_of body.now)
        done)) }
{
    let start = code.len();
    put(code, Instr::Jump(0))?;
    let top = place(code);
    put(code, Instr::Turn)?;
    emit_stmts(scope, code, body)?;
    code[start] = Instr::Jump(place(code));
    emit_expr(scope, code, condition)?;
    put(code, Instr::JumpNonZero(top))
}

// Puts the code of the turns of a `for` after the code so far.
#[cycle(statement)]
fn emit_turns(
    scope: &Scope<'_>,
    code: &mut Vec<Instr>,
    condition: &Expr,
    next: &Target,
    step: &Expr,
    body: &[Stmt],
) -> Result<(), NoMemory>
    requires { length code.old.items + statement_size (while_ (phrase condition.now)
        (join (tree_of body.now)
        (assign next.now.at (phrases next.now.index.items) (phrase step.now) done)) done)
        ≤ most_instructions }
    ensures code { OnGiven result (code.new.items
        ≡ code.old.items
        ++ statement_code scope.now (length code.old.items)
        (while_ (phrase condition.now)
        (join (tree_of body.now)
        (assign next.now.at (phrases next.now.index.items) (phrase step.now) done)) done)) }
    ensures size { OnOk result (length code.new.items
        ≡ length code.old.items + statement_size (while_ (phrase condition.now)
        (join (tree_of body.now)
        (assign next.now.at (phrases next.now.index.items) (phrase step.now) done)) done)) }
{
    let start = code.len();
    put(code, Instr::Jump(0))?;
    let top = place(code);
    put(code, Instr::Turn)?;
    emit_stmts(scope, code, body)?;
    emit_assign(scope, code, next, step)?;
    code[start] = Instr::Jump(place(code));
    emit_expr(scope, code, condition)?;
    put(code, Instr::JumpNonZero(top))
}

// Puts the code of an assignment after the code so far: first the indices of the target, then the
// right side.
fn emit_assign(
    scope: &Scope<'_>,
    code: &mut Vec<Instr>,
    target: &Target,
    expr: &Expr,
) -> Result<(), NoMemory>
    requires { length code.old.items + assign_size (phrases target.now.index.items)
        (phrase expr.now) ≤ most_instructions }
    ensures code { OnGiven result (code.new.items
        ≡ code.old.items
        ++ assign_code scope.now (length code.old.items)
        target.now.at.name (phrases target.now.index.items) (phrase expr.now)) }
    ensures size { OnOk result (length code.new.items
        ≡ length code.old.items + assign_size (phrases target.now.index.items) (phrase expr.now)) }
{
    if target.index.is_empty() {
        return emit_scalar(scope, code, target, expr);
    }
    put(code, Instr::Push(0))?;
    emit_index(scope, code, target)?;
    emit_expr(scope, code, expr)?;
    put(code, store_at(scope, &target.at.name))
}

// Puts the code of an assignment to a scalar after the code so far.
fn emit_scalar(
    scope: &Scope<'_>,
    code: &mut Vec<Instr>,
    target: &Target,
    expr: &Expr,
) -> Result<(), NoMemory>
    requires empty { target.now.index.items ≡ [] }
    requires room { length code.old.items + assign_size (phrases target.now.index.items)
        (phrase expr.now) ≤ most_instructions }
    ensures code { OnGiven result (code.new.items
        ≡ code.old.items
        ++ assign_code scope.now (length code.old.items)
        target.now.at.name (phrases target.now.index.items) (phrase expr.now)) }
    ensures size { OnOk result (length code.new.items
        ≡ length code.old.items + assign_size (phrases target.now.index.items) (phrase expr.now)) }
{
    emit_expr(scope, code, expr)?;
    put(code, store(scope, &target.at.name))
}

// The instruction that writes a scalar.
fn store(scope: &Scope<'_>, name: &Name) -> Instr
    ensures { result ≡ store_code (found scope.now name.now) }
{
    match scope.slot(name) {
        Some(slot) => Instr::Store(slot.base),
        None => Instr::Store(0),
    }
}

// The instruction that writes the element whose place is on the stack below the word.
fn store_at(scope: &Scope<'_>, name: &Name) -> Instr
    ensures { result ≡ store_at_code (found scope.now name.now) }
{
    match scope.slot(name) {
        Some(slot) => Instr::StoreAt(slot.base, slot.words),
        None => Instr::StoreAt(0, 1),
    }
}

/// A law of the code of statements, for all scopes, statements and words: the machine gives what
/// the statements mean.
pub fn compiled_means()
    ensures { CompiledMeans }
{}
