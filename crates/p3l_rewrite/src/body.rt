// Copies of expressions and statements.

ghost use Rattle.std.specs.Prelude.{◌≡◌, IfOk};
ghost use Rattle.p3l_base.specs.Memory.{IfGiven};
ghost use Rattle.p3l_ast.specs.declared.statement.Stmt.TheVariants.{For};
ghost use Rattle.p3l_ast.specs.Tree.{phrase, phrases, one, statements};

use crate::copied::Copied;
use p3l_ast::{Expr, Stmt, Target};
use p3l_base::NoMemory;
use std::alloc::Global;

#[cycle(copying)]
fn expression(alloc: Global, expr: &Expr) -> Result<Expr, NoMemory>
    ensures { IfGiven result (λ copy. phrase copy ≡ phrase expr.now) }
{
    match expr {
        Expr::Number(value) => Ok(Expr::Number(*value)),
        Expr::Read(place) => Ok(Expr::Read(target(alloc, place)?)),
        Expr::Unary(operator, operand) => {
            let operand = Box::new(alloc, expression(alloc, operand)?)?;
            Ok(Expr::Unary(*operator, operand))
        }
        Expr::Binary(operator, left, right) => {
            let left = Box::new(alloc, expression(alloc, left)?)?;
            let right = Box::new(alloc, expression(alloc, right)?)?;
            Ok(Expr::Binary(*operator, left, right))
        }
    }
}

#[cycle(copying)]
fn target(alloc: Global, place: &Target) -> Result<Target, NoMemory>
    ensures at { IfGiven result (λ copy. copy.at ≡ place.now.at) }
    ensures index { IfOk result (λ copy. phrases copy.index.items
        ≡ phrases place.now.index.items) }
{
    let mut index = Vec::new(alloc);
    for expr in &place.index {
        index.push(expression(alloc, expr)?)?;
    }
    Ok(Target {
        at: place.at.copied(alloc)?,
        index,
    })
}

/// A copy of statements.
#[cycle(statement)]
pub fn block(alloc: Global, stmts: &[Stmt]) -> Result<Vec<Stmt>, NoMemory>
    ensures { IfGiven result (λ copy. statements copy.items ≡ statements stmts.now) }
{
    let mut copies = Vec::new(alloc);
    for stmt in stmts {
        copies.push(statement(alloc, stmt)?)?;
    }
    Ok(copies)
}

/// A place and a value for it.
#[derive(Drop)]
struct Assignment {
    place: Target,
    value: Expr,
}

fn assigned(alloc: Global, place: &Target, value: &Expr) -> Result<Assignment, NoMemory>
    ensures at { IfGiven result (λ copy. copy.place.at ≡ place.now.at) }
    ensures index { IfOk result (λ copy. phrases copy.place.index.items
        ≡ phrases place.now.index.items) }
    ensures value { IfOk result (λ copy. phrase copy.value ≡ phrase value.now) }
{
    let place = target(alloc, place)?;
    let value = expression(alloc, value)?;
    Ok(Assignment { place, value })
}

#[cycle(statement)]
fn statement(alloc: Global, stmt: &Stmt) -> Result<Stmt, NoMemory>
    ensures { IfGiven result (λ copy. one copy ≡ one stmt.now) }
{
    match stmt {
        Stmt::Assign(place, value) => {
            let set = assigned(alloc, place, value)?;
            Ok(Stmt::Assign(set.place, set.value))
        }
        Stmt::If(condition, then, otherwise) => {
            let condition = expression(alloc, condition)?;
            let then = block(alloc, then)?;
            match otherwise {
                None => Ok(Stmt::If(condition, then, None)),
                Some(otherwise) => {
                    let otherwise = block(alloc, otherwise)?;
                    Ok(Stmt::If(condition, then, Some(otherwise)))
                }
            }
        }
        Stmt::While(condition, body) => {
            let condition = expression(alloc, condition)?;
            let body = block(alloc, body)?;
            Ok(Stmt::While(condition, body))
        }
        Stmt::For(first, start, condition, next, step, body) => {
            let first = assigned(alloc, first, start)?;
            let next = assigned(alloc, next, step)?;
            let condition = expression(alloc, condition)?;
            let body = block(alloc, body)?;
            Ok(for_of(first, condition, next, body))
        }
    }
}

/// A loop of its parts.
fn for_of(first: Assignment, condition: Expr, next: Assignment, body: Vec<Stmt>) -> Stmt
    ensures { result ≡ For first.place first.value condition next.place next.value body }
{
    Stmt::For(
        first.place,
        first.value,
        condition,
        next.place,
        next.value,
        body,
    )
}
