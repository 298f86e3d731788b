// Reading statements.

ghost use Rattle.std.specs.Prelude.{◌<◌, ◌≤◌, length, IfOk, IfErr, IfSome, IfNone};
ghost use Rattle.p3l_ast.specs.Tree.{phrase, phrases, done, one, statements};
ghost use Rattle.p3l_grammar.specs.Parser.{test, block, another_stmt, while_from, for_from};
ghost use Rattle.p3l_reader.specs.Reading.{Reads, Fails, Targets, FailsTarget, Sets, FailsSetting, AddsStmt, LeavesStmts, MissesStmt, FollowsIf, FailsIf, IsWord};

use crate::expr::{index, upto};
use crate::mark::{expect, skip, spot, word_comes};
use crate::refusal::Refusal;
use p3l_ast::{Expr, Stmt, Target};
use p3l_lexer::{Mark, TextToken};
use std::alloc::Global;

/// A place that is assigned.
fn target(alloc: Global, tokens: &[TextToken]) -> Result<(Target, &[TextToken]), Refusal>
    ensures ok { IfOk result (λ x. Targets tokens.now x.0.at (phrases x.0.index.items) x.1.now) }
    ensures shorter { IfOk result (λ x. length x.1.now < length tokens.now) }
    ensures err { IfErr result (λ e. FailsTarget tokens.now e) }
{
    let (at, rest) = spot(alloc, tokens)?;
    let (index, rest) = index(alloc, rest)?;
    Ok((Target { at, index }, rest))
}

/// An assignment up to a mark, and what follows the mark.
fn setting(
    alloc: Global,
    tokens: &[TextToken],
    mark: Mark,
) -> Result<(Target, Expr, &[TextToken]), Refusal>
    ensures ok { IfOk result (λ x. Sets mark tokens.now x.0.at (phrases x.0.index.items)
        (phrase x.1) x.2.now) }
    ensures shorter { IfOk result (λ x. length x.2.now < length tokens.now) }
    ensures err { IfErr result (λ e. FailsSetting mark tokens.now e) }
{
    let (target, rest) = target(alloc, tokens)?;
    let rest = expect(rest, Mark::Assign)?;
    let (value, rest) = upto(alloc, rest, mark)?;
    Ok((target, value, rest))
}

/// A condition in parentheses.
fn test(alloc: Global, tokens: &[TextToken]) -> Result<(Expr, &[TextToken]), Refusal>
    ensures ok { IfOk result (λ x. Reads test tokens.now (phrase x.0) x.1.now) }
    ensures shorter { IfOk result (λ x. length x.1.now < length tokens.now) }
    ensures err { IfErr result (λ e. Fails test tokens.now e) }
{
    let rest = expect(tokens, Mark::OpenParen)?;
    upto(alloc, rest, Mark::CloseParen)
}

/// An assignment, where the next token is a name.
fn assignment(alloc: Global, tokens: &[TextToken]) -> Result<(Stmt, &[TextToken]), Refusal>
    requires { IsWord tokens.now }
    ensures ok { IfOk result (λ x. AddsStmt tokens.now (one x.0) x.1.now) }
    ensures shorter { IfOk result (λ x. length x.1.now < length tokens.now) }
    ensures err { IfErr result (λ e. MissesStmt tokens.now e) }
{
    let (target, value, rest) = setting(alloc, tokens, Mark::Semicolon)?;
    Ok((Stmt::Assign(target, value), rest))
}

/// Reads on after an `if`.
#[cycle(statement)]
fn if_statement(alloc: Global, tokens: &[TextToken]) -> Result<(Stmt, &[TextToken]), Refusal>
    ensures ok { IfOk result (λ x. FollowsIf tokens.now (one x.0) x.1.now) }
    ensures shorter { IfOk result (λ x. length x.1.now < length tokens.now) }
    ensures err { IfErr result (λ e. FailsIf tokens.now e) }
{
    let (condition, rest) = test(alloc, tokens)?;
    let (then, rest) = block(alloc, rest)?;
    match skip(rest, Mark::Else) {
        Some(rest) => {
            let (other, rest) = block(alloc, rest)?;
            Ok((Stmt::If(condition, then, Some(other)), rest))
        }
        None => Ok((Stmt::If(condition, then, None), rest)),
    }
}

/// Reads on after a `while`.
#[cycle(statement)]
fn while_statement(alloc: Global, tokens: &[TextToken]) -> Result<(Stmt, &[TextToken]), Refusal>
    ensures ok { IfOk result (λ x. Reads while_from tokens.now (one x.0) x.1.now) }
    ensures shorter { IfOk result (λ x. length x.1.now < length tokens.now) }
    ensures err { IfErr result (λ e. Fails while_from tokens.now e) }
{
    let (condition, rest) = test(alloc, tokens)?;
    let (body, rest) = block(alloc, rest)?;
    Ok((Stmt::While(condition, body), rest))
}

/// Reads on after a `for`.
#[cycle(statement)]
fn for_statement(alloc: Global, tokens: &[TextToken]) -> Result<(Stmt, &[TextToken]), Refusal>
    ensures ok { IfOk result (λ x. Reads for_from tokens.now (one x.0) x.1.now) }
    ensures shorter { IfOk result (λ x. length x.1.now < length tokens.now) }
    ensures err { IfErr result (λ e. Fails for_from tokens.now e) }
{
    let rest = expect(tokens, Mark::OpenParen)?;
    let (first, start, rest) = setting(alloc, rest, Mark::Semicolon)?;
    let (condition, rest) = upto(alloc, rest, Mark::Semicolon)?;
    let (then, step, rest) = setting(alloc, rest, Mark::CloseParen)?;
    let (body, rest) = block(alloc, rest)?;
    Ok((Stmt::For(first, start, condition, then, step, body), rest))
}

/// Statements in braces.
#[cycle(statement)]
fn block(alloc: Global, tokens: &[TextToken]) -> Result<(Vec<Stmt>, &[TextToken]), Refusal>
    ensures ok { IfOk result (λ x. Reads block tokens.now (statements x.0.items) x.1.now) }
    ensures shorter { IfOk result (λ x. length x.1.now < length tokens.now) }
    ensures err { IfErr result (λ e. Fails block tokens.now e) }
{
    let rest = expect(tokens, Mark::OpenBrace)?;
    let (list, rest) = stmts(alloc, rest)?;
    let rest = expect(rest, Mark::CloseBrace)?;
    Ok((list, rest))
}

/// The next statement, where one comes next.
#[cycle(statement)]
fn next_stmt(alloc: Global, tokens: &[TextToken]) -> Result<Option<(Stmt, &[TextToken])>, Refusal>
    ensures some { IfOk result (λ o. IfSome o (λ x. AddsStmt tokens.now (one x.0) x.1.now)) }
    ensures shorter { IfOk result (λ o. IfSome o (λ x. length x.1.now < length tokens.now)) }
    ensures none { IfOk result (λ o. IfNone o (LeavesStmts tokens.now)) }
    ensures err { IfErr result (λ e. MissesStmt tokens.now e) }
{
    if word_comes(tokens) {
        return Ok(Some(assignment(alloc, tokens)?));
    }
    if let Some(rest) = skip(tokens, Mark::If) {
        return Ok(Some(if_statement(alloc, rest)?));
    }
    if let Some(rest) = skip(tokens, Mark::While) {
        return Ok(Some(while_statement(alloc, rest)?));
    }
    match skip(tokens, Mark::For) {
        Some(rest) => Ok(Some(for_statement(alloc, rest)?)),
        None => Ok(None),
    }
}

/// Statements, as many as there are.
#[cycle(statement)]
pub fn stmts(alloc: Global, tokens: &[TextToken]) -> Result<(Vec<Stmt>, &[TextToken]), Refusal>
    ensures ok { IfOk result (λ x. Reads (another_stmt done) tokens.now (statements x.0.items)
        x.1.now) }
    ensures shorter { IfOk result (λ x. length x.1.now ≤ length tokens.now) }
    ensures err { IfErr result (λ e. Fails (another_stmt done) tokens.now e) }
{
    let mut list = Vec::new(alloc);
    let mut rest = tokens;
    while let Some((stmt, next)) = next_stmt(alloc, rest)? {
        list.push(stmt)?;
        rest = next;
    }
    Ok((list, rest))
}
