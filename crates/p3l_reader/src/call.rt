// Reading calls.

ghost use Rattle.std.specs.Prelude.{◌<◌, ◌≤◌, [], ◌∷◌, length, IfOk, IfErr, IfSome, IfNone};
ghost use Rattle.p3l_grammar.specs.Parser.{any_sub, another_sub, arg_from, arg, another_arg, arg_list, args, any_out, another_out, out_list, out_args, call_from, call, another_call, call_list};
ghost use Rattle.p3l_reader.specs.Reading.{Reads, Fails, Adds, Leaves, Misses};

use crate::list::{Listed, Separated, list_from, list_of_one, parenthesized};
use crate::mark::{expect, name_next, skip, spot};
use crate::port::port_name;
use crate::refusal::Refusal;
use p3l_ast::{Arg, BinOp, Call, OutArg, Spot, Sub};
use p3l_base::List;
use p3l_lexer::{Mark, TextToken};
use std::alloc::Global;

/// Reads on after an opening bracket.
fn sub(alloc: Global, tokens: &[TextToken]) -> Result<(Sub, &[TextToken]), Refusal>
    ensures ok { IfOk result (λ x. Reads any_sub tokens.now x.0 x.1.now) }
    ensures shorter { IfOk result (λ x. length x.1.now < length tokens.now) }
    ensures err { IfErr result (λ e. Fails any_sub tokens.now e) }
{
    if let Some(rest) = skip(tokens, Mark::CloseBracket) {
        return Ok((Sub::Whole, rest));
    }
    match skip(tokens, Mark::Operator(BinOp::Mul)) {
        Some(rest) => {
            let (index, rest) = spot(alloc, rest)?;
            let rest = expect(rest, Mark::CloseBracket)?;
            Ok((Sub::Free(index), rest))
        }
        None => Err(Refusal::Expected { left: tokens.len() }),
    }
}

/// Reads on after the name of an argument.
fn arg_of(alloc: Global, at: Spot, tokens: &[TextToken]) -> Result<(Arg, &[TextToken]), Refusal>
    ensures ok { IfOk result (λ x. Reads (arg_from at) tokens.now x.0 x.1.now) }
    ensures shorter { IfOk result (λ x. length x.1.now ≤ length tokens.now) }
    ensures err { IfErr result (λ e. Fails (arg_from at) tokens.now e) }
{
    let (subs, rest) = list_from(alloc, List::new(alloc), tokens)?;
    Ok((Arg { at, subs }, rest))
}

/// An argument.
fn arg(alloc: Global, tokens: &[TextToken]) -> Result<(Arg, &[TextToken]), Refusal>
    ensures ok { IfOk result (λ x. Reads arg tokens.now x.0 x.1.now) }
    ensures shorter { IfOk result (λ x. length x.1.now < length tokens.now) }
    ensures err { IfErr result (λ e. Fails arg tokens.now e) }
{
    let (at, rest) = spot(alloc, tokens)?;
    arg_of(alloc, at, rest)
}

/// An out argument: a port that it declares, or one that is there.
fn out(alloc: Global, tokens: &[TextToken]) -> Result<(OutArg, &[TextToken]), Refusal>
    ensures ok { IfOk result (λ x. Reads any_out tokens.now x.0 x.1.now) }
    ensures shorter { IfOk result (λ x. length x.1.now < length tokens.now) }
    ensures err { IfErr result (λ e. Fails any_out tokens.now e) }
{
    if let Some(rest) = skip(tokens, Mark::Int) {
        let (port, rest) = port_name(alloc, rest)?;
        return Ok((OutArg::Fresh(port), rest));
    }
    match name_next(alloc, tokens)? {
        Some((at, rest)) => {
            let (arg, rest) = arg_of(alloc, at, rest)?;
            Ok((OutArg::Old(arg), rest))
        }
        None => Err(Refusal::Expected { left: tokens.len() }),
    }
}

/// Arguments in parentheses, one at least.
fn args(alloc: Global, tokens: &[TextToken]) -> Result<(List<Arg>, &[TextToken]), Refusal>
    ensures ok { IfOk result (λ x. Reads args tokens.now x.0 x.1.now) }
    ensures shorter { IfOk result (λ x. length x.1.now < length tokens.now) }
    ensures err { IfErr result (λ e. Fails args tokens.now e) }
{
    parenthesized(alloc, tokens)
}

/// Out arguments in parentheses, one at least.
fn outs(alloc: Global, tokens: &[TextToken]) -> Result<(List<OutArg>, &[TextToken]), Refusal>
    ensures ok { IfOk result (λ x. Reads out_args tokens.now x.0 x.1.now) }
    ensures shorter { IfOk result (λ x. length x.1.now < length tokens.now) }
    ensures err { IfErr result (λ e. Fails out_args tokens.now e) }
{
    parenthesized(alloc, tokens)
}

/// Reads on after the name of a call.
fn call_of(alloc: Global, at: Spot, tokens: &[TextToken]) -> Result<(Call, &[TextToken]), Refusal>
    ensures ok { IfOk result (λ x. Reads (call_from at) tokens.now x.0 x.1.now) }
    ensures shorter { IfOk result (λ x. length x.1.now < length tokens.now) }
    ensures err { IfErr result (λ e. Fails (call_from at) tokens.now e) }
{
    let rest = expect(tokens, Mark::In)?;
    let (ins, rest) = args(alloc, rest)?;
    let rest = expect(rest, Mark::Out)?;
    let (outs, rest) = outs(alloc, rest)?;
    Ok((Call { at, ins, outs }, rest))
}

/// A call.
pub fn call(alloc: Global, tokens: &[TextToken]) -> Result<(Call, &[TextToken]), Refusal>
    ensures ok { IfOk result (λ x. Reads call tokens.now x.0 x.1.now) }
    ensures shorter { IfOk result (λ x. length x.1.now < length tokens.now) }
    ensures err { IfErr result (λ e. Fails call tokens.now e) }
{
    let (at, rest) = spot(alloc, tokens)?;
    call_of(alloc, at, rest)
}

/// Calls, one at least.
pub fn call_list(alloc: Global, tokens: &[TextToken]) -> Result<(List<Call>, &[TextToken]), Refusal>
    ensures ok { IfOk result (λ x. Reads call_list tokens.now x.0 x.1.now) }
    ensures shorter { IfOk result (λ x. length x.1.now < length tokens.now) }
    ensures err { IfErr result (λ e. Fails call_list tokens.now e) }
{
    let (first, rest) = call(alloc, tokens)?;
    list_from(alloc, list_of_one(alloc, first)?, rest)
}

impl Listed for Sub {
    ghost use Rattle.p3l_grammar.specs.Parser.{another_sub};

    ghost list = { another_sub };

    fn next(alloc: Global, tokens: &[TextToken]) -> Result<Option<(Sub, &[TextToken])>, Refusal> {
        match skip(tokens, Mark::OpenBracket) {
            Some(rest) => Ok(Some(sub(alloc, rest)?)),
            None => Ok(None),
        }
    }
}

impl Listed for Arg {
    ghost use Rattle.p3l_grammar.specs.Parser.{another_arg};

    ghost list = { another_arg };

    fn next(alloc: Global, tokens: &[TextToken]) -> Result<Option<(Arg, &[TextToken])>, Refusal> {
        match skip(tokens, Mark::Comma) {
            Some(rest) => Ok(Some(arg(alloc, rest)?)),
            None => Ok(None),
        }
    }
}

impl Separated for Arg {
    ghost use Rattle.p3l_grammar.specs.Parser.{arg};

    ghost one = { arg };

    fn one(alloc: Global, tokens: &[TextToken]) -> Result<(Arg, &[TextToken]), Refusal> {
        arg(alloc, tokens)
    }
}

impl Listed for OutArg {
    ghost use Rattle.p3l_grammar.specs.Parser.{another_out};

    ghost list = { another_out };

    fn next(
        alloc: Global,
        tokens: &[TextToken],
    ) -> Result<Option<(OutArg, &[TextToken])>, Refusal> {
        match skip(tokens, Mark::Comma) {
            Some(rest) => Ok(Some(out(alloc, rest)?)),
            None => Ok(None),
        }
    }
}

impl Separated for OutArg {
    ghost use Rattle.p3l_grammar.specs.Parser.{any_out};

    ghost one = { any_out };

    fn one(alloc: Global, tokens: &[TextToken]) -> Result<(OutArg, &[TextToken]), Refusal> {
        out(alloc, tokens)
    }
}

impl Listed for Call {
    ghost use Rattle.p3l_grammar.specs.Parser.{another_call};

    ghost list = { another_call };

    fn next(alloc: Global, tokens: &[TextToken]) -> Result<Option<(Call, &[TextToken])>, Refusal> {
        match name_next(alloc, tokens)? {
            Some((at, rest)) => Ok(Some(call_of(alloc, at, rest)?)),
            None => Ok(None),
        }
    }
}
