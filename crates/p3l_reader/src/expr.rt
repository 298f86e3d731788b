// Reading expressions.

ghost use Rattle.std.specs.Prelude.{◌≡◌, ◌<◌, ◌≤◌, length, IfOk, IfErr, IfSome, IfNone};
ghost use Rattle.p3l_ast.specs.Tree.{phrase, phrases, none};
ghost use Rattle.p3l_lexer.specs.declared.mark.Mark.TheVariants.{Operator};
ghost use Rattle.p3l_ast.specs.Notation.{level};
ghost use Rattle.p3l_grammar.specs.Symbol.{sign, unary_mark};
ghost use Rattle.p3l_grammar.specs.Parser.{another_index, place_from, upto, infix_of};
ghost use Rattle.p3l_reader.specs.Reading.{Begins, NoUnary, Stops, Reads, Fails, Follows, FailsAt, AddsIndex, LeavesIndex, MissesIndex, FollowsUnary, FailsUnary};

use crate::mark::{digits_next, name_next, sign_next, skip};
use crate::refusal::Refusal;
use p3l_ast::{BinOp, Expr, Spot, Target, UnOp};
use p3l_lexer::{Mark, TextToken};
use std::alloc::Global;

/// The operator before an operand that comes next, where one comes next.
fn unary_next(tokens: &[TextToken]) -> Option<(UnOp, &[TextToken])>
    ensures some { IfSome result (λ x. Begins tokens.now (sign (unary_mark x.0)) x.1.now) }
    ensures shorter { IfSome result (λ x. length x.1.now < length tokens.now) }
    ensures none { IfNone result (NoUnary tokens.now) }
{
    let (mark, rest) = sign_next(tokens)?;
    match mark {
        Mark::Operator(BinOp::Sub) => Some((UnOp::Neg, rest)),
        Mark::Bang => Some((UnOp::Not, rest)),
        Mark::Tilde => Some((UnOp::Flip, rest)),
        _ => None,
    }
}

/// The operator that a mark is after an operand.
fn infix_of(mark: Mark) -> Option<BinOp>
    ensures { result ≡ infix_of (sign mark) }
{
    match mark {
        Mark::Operator(op) => Some(op),
        _ => None,
    }
}

/// The operator that comes next, if it binds as tight as this, and what follows it.
fn operator(tokens: &[TextToken], least: u8) -> Option<(BinOp, &[TextToken])>
    ensures tight { IfSome result (λ x. least ≤ level x.0) }
    ensures some { IfSome result (λ x. Begins tokens.now (sign (Operator x.0)) x.1.now) }
    ensures none { IfNone result (Stops least tokens.now) }
{
    let (mark, rest) = sign_next(tokens)?;
    let op = infix_of(mark)?;
    if op.level() < least {
        None
    } else {
        Some((op, rest))
    }
}

/// A number, a place, an expression in parentheses, or an operator before one of these.
#[cycle(expression)]
fn operand(alloc: Global, tokens: &[TextToken]) -> Result<(Expr, &[TextToken]), Refusal>
    ensures ok { IfOk result (λ x. Follows 10 tokens.now (phrase x.0) x.1.now) }
    ensures err { IfErr result (λ e. FailsAt 10 tokens.now e) }
{
    if let Some((op, rest)) = unary_next(tokens) {
        return unary(alloc, op, rest);
    }
    if let Some(rest) = skip(tokens, Mark::OpenParen) {
        return upto(alloc, rest, Mark::CloseParen);
    }
    if let Some((at, rest)) = name_next(alloc, tokens)? {
        return place(alloc, at, rest);
    }
    match digits_next(tokens) {
        Some((value, rest)) => Ok((Expr::Number(value), rest)),
        None => Err(Refusal::Expected { left: tokens.len() }),
    }
}

/// Reads on after an operator before its operand.
#[cycle(expression)]
fn unary(alloc: Global, op: UnOp, tokens: &[TextToken]) -> Result<(Expr, &[TextToken]), Refusal>
    ensures ok { IfOk result (λ x. FollowsUnary op tokens.now (phrase x.0) x.1.now) }
    ensures err { IfErr result (λ e. FailsUnary op tokens.now e) }
{
    let (inner, rest) = operand(alloc, tokens)?;
    Ok((Expr::Unary(op, Box::new(alloc, inner)?), rest))
}

/// Reads on after the name of a place that is read.
#[cycle(expression)]
fn place(alloc: Global, at: Spot, tokens: &[TextToken]) -> Result<(Expr, &[TextToken]), Refusal>
    ensures ok { IfOk result (λ x. Reads (place_from at) tokens.now (phrase x.0) x.1.now) }
    ensures shorter { IfOk result (λ x. length x.1.now ≤ length tokens.now) }
    ensures err { IfErr result (λ e. Fails (place_from at) tokens.now e) }
{
    let (index, rest) = index(alloc, tokens)?;
    Ok((Expr::Read(Target { at, index }), rest))
}

/// The next index in brackets, where one comes next.
#[cycle(expression)]
fn next_index(alloc: Global, tokens: &[TextToken]) -> Result<Option<(Expr, &[TextToken])>, Refusal>
    ensures some { IfOk result (λ o. IfSome o (λ x. AddsIndex tokens.now (phrase x.0) x.1.now)) }
    ensures shorter { IfOk result (λ o. IfSome o (λ x. length x.1.now < length tokens.now)) }
    ensures none { IfOk result (λ o. IfNone o (LeavesIndex tokens.now)) }
    ensures err { IfErr result (λ e. MissesIndex tokens.now e) }
{
    match skip(tokens, Mark::OpenBracket) {
        Some(rest) => Ok(Some(upto(alloc, rest, Mark::CloseBracket)?)),
        None => Ok(None),
    }
}

/// The indices in brackets, as many as there are.
#[cycle(expression)]
pub fn index(alloc: Global, tokens: &[TextToken]) -> Result<(Vec<Expr>, &[TextToken]), Refusal>
    ensures ok { IfOk result (λ x. Reads (another_index none) tokens.now (phrases x.0.items)
        x.1.now) }
    ensures shorter { IfOk result (λ x. length x.1.now ≤ length tokens.now) }
    ensures err { IfErr result (λ e. Fails (another_index none) tokens.now e) }
{
    let mut list = Vec::new(alloc);
    let mut rest = tokens;
    while let Some((value, next)) = next_index(alloc, rest)? {
        list.push(value)?;
        rest = next;
    }
    Ok((list, rest))
}

/// An expression up to a mark, and what follows the mark.
#[cycle(expression)]
pub fn upto(
    alloc: Global,
    tokens: &[TextToken],
    mark: Mark,
) -> Result<(Expr, &[TextToken]), Refusal>
    ensures ok { IfOk result (λ x. Reads (upto mark) tokens.now (phrase x.0) x.1.now) }
    ensures shorter { IfOk result (λ x. length x.1.now < length tokens.now) }
    ensures err { IfErr result (λ e. Fails (upto mark) tokens.now e) }
{
    let (value, rest) = expr(alloc, tokens, 0)?;
    match skip(rest, mark) {
        Some(rest) => Ok((value, rest)),
        None => Err(Refusal::Expected { left: rest.len() }),
    }
}

/// An expression whose operators bind as tight as this.
#[cycle(expression)]
fn expr(alloc: Global, tokens: &[TextToken], least: u8) -> Result<(Expr, &[TextToken]), Refusal>
    requires { least ≤ 10 }
    ensures ok { IfOk result (λ x. Follows least tokens.now (phrase x.0) x.1.now) }
    ensures stops { IfOk result (λ x. Stops least x.1.now) }
    ensures err { IfErr result (λ e. FailsAt least tokens.now e) }
{
    let (mut left, mut rest) = operand(alloc, tokens)?;
    while let Some((op, after)) = operator(rest, least) {
        let (right, next) = expr(alloc, after, op.level() + 1)?;
        left = Expr::Binary(op, Box::new(alloc, left)?, Box::new(alloc, right)?);
        rest = next;
    }
    Ok((left, rest))
}
