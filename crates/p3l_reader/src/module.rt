// Reading entries: constants and modules.

ghost use Rattle.std.specs.Prelude.{◌<◌, ◌≤◌, length, IfOk, IfErr};
ghost use Rattle.p3l_ast.specs.Tree.{inside_tree, entry_tree};
ghost use Rattle.p3l_grammar.specs.Parser.{clause, any_rescue, rescue_clause, body_from, loop_calls, filling, head, fixed_from, module_from};
ghost use Rattle.p3l_reader.specs.Reading.{Reads, Fails, Closes, FailsEnd};
ghost use Rattle.p3l_reader.specs.Parts.{signature_of, filling_of};

use crate::call::{call, call_list};
use crate::mark::{digits, expect, num, skip, spot};
use crate::port::{locals, ports};
use crate::refusal::Refusal;
use crate::stmt::stmts;
use p3l_ast::{BinOp, Block, Clauses, Entry, Inside, Kind, Module, Num, Port, Rescue, Spot};
use p3l_base::List;
use p3l_grammar::mark::mark_of_kind;
use p3l_lexer::{Mark, TextToken};
use std::alloc::Global;

/// The name and the ports of a module.
#[derive(Drop)]
pub struct Heading {
    pub at: Spot,
    pub ins: List<Port>,
    pub outs: List<Port>,
}

/// The part of a module between its head and its end.
#[derive(Drop)]
pub struct Contents {
    pub clauses: Clauses,
    pub inside: Inside,
}

/// A clause, where its keyword comes next.
fn clause(
    alloc: Global,
    tokens: &[TextToken],
    mark: Mark,
) -> Result<(Option<Num>, &[TextToken]), Refusal>
    ensures ok { IfOk result (λ x. Reads (clause mark) tokens.now x.0 x.1.now) }
    ensures shorter { IfOk result (λ x. length x.1.now ≤ length tokens.now) }
    ensures err { IfErr result (λ e. Fails (clause mark) tokens.now e) }
{
    match skip(tokens, mark) {
        Some(rest) => {
            let (value, rest) = num(alloc, rest)?;
            Ok((Some(value), rest))
        }
        None => Ok((None, tokens)),
    }
}

/// A number or the name of a constant, after a minus where it is negated.
fn rescue_number(alloc: Global, tokens: &[TextToken]) -> Result<(Rescue, &[TextToken]), Refusal>
    ensures ok { IfOk result (λ x. Reads any_rescue tokens.now x.0 x.1.now) }
    ensures shorter { IfOk result (λ x. length x.1.now < length tokens.now) }
    ensures err { IfErr result (λ e. Fails any_rescue tokens.now e) }
{
    match skip(tokens, Mark::Operator(BinOp::Sub)) {
        Some(rest) => {
            let (num, rest) = num(alloc, rest)?;
            Ok((Rescue { minus: true, num }, rest))
        }
        None => {
            let (num, rest) = num(alloc, tokens)?;
            Ok((Rescue { minus: false, num }, rest))
        }
    }
}

/// The rescue of a `seq` or a `comp`, where its keyword comes next.
fn rescue(alloc: Global, tokens: &[TextToken]) -> Result<(Option<Rescue>, &[TextToken]), Refusal>
    ensures ok { IfOk result (λ x. Reads rescue_clause tokens.now x.0 x.1.now) }
    ensures shorter { IfOk result (λ x. length x.1.now ≤ length tokens.now) }
    ensures err { IfErr result (λ e. Fails rescue_clause tokens.now e) }
{
    match skip(tokens, Mark::Rescue) {
        Some(rest) => {
            let (rescue, rest) = rescue_number(alloc, rest)?;
            Ok((Some(rescue), rest))
        }
        None => Ok((None, tokens)),
    }
}

/// The name and the ports of a module.
fn whole_signature(alloc: Global, tokens: &[TextToken]) -> Result<(Heading, &[TextToken]), Refusal>
    ensures ok { IfOk result (λ x. Reads head tokens.now (signature_of x.0) x.1.now) }
    ensures shorter { IfOk result (λ x. length x.1.now < length tokens.now) }
    ensures err { IfErr result (λ e. Fails head tokens.now e) }
{
    let (at, rest) = spot(alloc, tokens)?;
    let rest = expect(rest, Mark::In)?;
    let (ins, rest) = ports(alloc, rest)?;
    let rest = expect(rest, Mark::Out)?;
    let (outs, rest) = ports(alloc, rest)?;
    Ok((Heading { at, ins, outs }, rest))
}

/// The body of a `seq`.
fn body(alloc: Global, tokens: &[TextToken]) -> Result<(Inside, &[TextToken]), Refusal>
    ensures ok { IfOk result (λ x. Reads body_from tokens.now (inside_tree x.0) x.1.now) }
    ensures shorter { IfOk result (λ x. length x.1.now < length tokens.now) }
    ensures err { IfErr result (λ e. Fails body_from tokens.now e) }
{
    let rest = expect(tokens, Mark::OpenBody)?;
    let (locals, rest) = locals(alloc, rest)?;
    let (stmts, rest) = stmts(alloc, rest)?;
    let rest = expect(rest, Mark::CloseBody)?;
    let stmts = List::from_vec(stmts);
    Ok((Inside::Body(Block { locals, stmts }), rest))
}

/// The body and the condition of a `loop`.
fn loop_calls(alloc: Global, tokens: &[TextToken]) -> Result<(Inside, &[TextToken]), Refusal>
    ensures ok { IfOk result (λ x. Reads loop_calls tokens.now (inside_tree x.0) x.1.now) }
    ensures shorter { IfOk result (λ x. length x.1.now < length tokens.now) }
    ensures err { IfErr result (λ e. Fails loop_calls tokens.now e) }
{
    let (body, rest) = call(alloc, tokens)?;
    let rest = expect(rest, Mark::While)?;
    let (condition, rest) = call(alloc, rest)?;
    Ok((Inside::Turning(body, condition), rest))
}

/// Reads on after the head of a `seq`.
fn seq(alloc: Global, tokens: &[TextToken]) -> Result<(Contents, &[TextToken]), Refusal>
    ensures ok { IfOk result (λ x. Reads (filling Kind.Seq) tokens.now (filling_of x.0) x.1.now) }
    ensures shorter { IfOk result (λ x. length x.1.now < length tokens.now) }
    ensures err { IfErr result (λ e. Fails (filling Kind.Seq) tokens.now e) }
{
    let (budget, rest) = clause(alloc, tokens, Mark::Budget)?;
    let (rescue, rest) = rescue(alloc, rest)?;
    let (inside, rest) = body(alloc, rest)?;
    let clauses = Clauses {
        workers: None,
        turns: None,
        tokens: None,
        budget,
        rescue,
    };
    Ok((Contents { clauses, inside }, rest))
}

/// Reads on after the head of a `comp`.
fn comp(alloc: Global, tokens: &[TextToken]) -> Result<(Contents, &[TextToken]), Refusal>
    ensures ok { IfOk result (λ x. Reads (filling Kind.Comp) tokens.now (filling_of x.0) x.1.now) }
    ensures shorter { IfOk result (λ x. length x.1.now < length tokens.now) }
    ensures err { IfErr result (λ e. Fails (filling Kind.Comp) tokens.now e) }
{
    let (rescue, rest) = rescue(alloc, tokens)?;
    let (calls, rest) = call_list(alloc, rest)?;
    let clauses = Clauses {
        workers: None,
        turns: None,
        tokens: None,
        budget: None,
        rescue,
    };
    let inside = Inside::Calls(calls);
    Ok((Contents { clauses, inside }, rest))
}

/// Reads on after the head of a `pipe`.
fn pipe(alloc: Global, tokens: &[TextToken]) -> Result<(Contents, &[TextToken]), Refusal>
    ensures ok { IfOk result (λ x. Reads (filling Kind.Pipe) tokens.now (filling_of x.0) x.1.now) }
    ensures shorter { IfOk result (λ x. length x.1.now < length tokens.now) }
    ensures err { IfErr result (λ e. Fails (filling Kind.Pipe) tokens.now e) }
{
    let (calls, rest) = call_list(alloc, tokens)?;
    let clauses = Clauses {
        workers: None,
        turns: None,
        tokens: None,
        budget: None,
        rescue: None,
    };
    let inside = Inside::Calls(calls);
    Ok((Contents { clauses, inside }, rest))
}

/// Reads on after the head of a `farm`, a `map` or a `reduce`.
fn spread(alloc: Global, tokens: &[TextToken]) -> Result<(Contents, &[TextToken]), Refusal>
    ensures ok { IfOk result (λ x. Reads (filling Kind.Farm) tokens.now (filling_of x.0) x.1.now) }
    ensures shorter { IfOk result (λ x. length x.1.now < length tokens.now) }
    ensures err { IfErr result (λ e. Fails (filling Kind.Farm) tokens.now e) }
{
    let (workers, rest) = clause(alloc, tokens, Mark::Workers)?;
    let (call, rest) = call(alloc, rest)?;
    let mut calls = List::new(alloc);
    calls.push(call)?;
    let clauses = Clauses {
        workers,
        turns: None,
        tokens: None,
        budget: None,
        rescue: None,
    };
    let inside = Inside::Calls(calls);
    Ok((Contents { clauses, inside }, rest))
}

/// Reads on after the head of a `loop`.
fn turning(alloc: Global, tokens: &[TextToken]) -> Result<(Contents, &[TextToken]), Refusal>
    ensures ok { IfOk result (λ x. Reads (filling Kind.Loop) tokens.now (filling_of x.0) x.1.now) }
    ensures shorter { IfOk result (λ x. length x.1.now < length tokens.now) }
    ensures err { IfErr result (λ e. Fails (filling Kind.Loop) tokens.now e) }
{
    let rest = expect(tokens, Mark::Turns)?;
    let (turns, rest) = num(alloc, rest)?;
    let (capacity, rest) = clause(alloc, rest, Mark::Tokens)?;
    let (inside, rest) = loop_calls(alloc, rest)?;
    let clauses = Clauses {
        workers: None,
        turns: Some(turns),
        tokens: capacity,
        budget: None,
        rescue: None,
    };
    Ok((Contents { clauses, inside }, rest))
}

/// The part of a module between its head and its end.
fn whole_filling(
    alloc: Global,
    kind: Kind,
    tokens: &[TextToken],
) -> Result<(Contents, &[TextToken]), Refusal>
    ensures ok { IfOk result (λ x. Reads (filling kind) tokens.now (filling_of x.0) x.1.now) }
    ensures shorter { IfOk result (λ x. length x.1.now < length tokens.now) }
    ensures err { IfErr result (λ e. Fails (filling kind) tokens.now e) }
{
    match kind {
        Kind::Seq => seq(alloc, tokens),
        Kind::Comp => comp(alloc, tokens),
        Kind::Pipe => pipe(alloc, tokens),
        Kind::Farm => spread(alloc, tokens),
        Kind::Map => spread(alloc, tokens),
        Kind::Reduce => spread(alloc, tokens),
        Kind::Loop => turning(alloc, tokens),
    }
}

/// The tokens after the end of a module.
fn module_end(tokens: &[TextToken], kind: Kind) -> Result<&[TextToken], Refusal>
    ensures ok { IfOk result (λ rest. Closes kind tokens.now rest.now) }
    ensures shorter { IfOk result (λ rest. length rest.now < length tokens.now) }
    ensures err { IfErr result (λ e. FailsEnd kind tokens.now e) }
{
    let rest = expect(tokens, Mark::End)?;
    expect(rest, mark_of_kind(kind))
}

/// Reads on after the keyword of a module.
pub fn module(
    alloc: Global,
    kind: Kind,
    tokens: &[TextToken],
) -> Result<(Entry, &[TextToken]), Refusal>
    ensures ok { IfOk result (λ x. Reads (module_from kind) tokens.now (entry_tree x.0) x.1.now) }
    ensures shorter { IfOk result (λ x. length x.1.now < length tokens.now) }
    ensures err { IfErr result (λ e. Fails (module_from kind) tokens.now e) }
{
    let (Heading { at, ins, outs }, rest) = whole_signature(alloc, tokens)?;
    let (Contents { clauses, inside }, rest) = whole_filling(alloc, kind, rest)?;
    let rest = module_end(rest, kind)?;
    let module = Module {
        kind,
        at,
        ins,
        outs,
        clauses,
        inside,
    };
    Ok((Entry::Module(module), rest))
}

/// Reads on after `const`.
pub fn constant(alloc: Global, tokens: &[TextToken]) -> Result<(Entry, &[TextToken]), Refusal>
    ensures ok { IfOk result (λ x. Reads fixed_from tokens.now (entry_tree x.0) x.1.now) }
    ensures shorter { IfOk result (λ x. length x.1.now < length tokens.now) }
    ensures err { IfErr result (λ e. Fails fixed_from tokens.now e) }
{
    let (at, rest) = spot(alloc, tokens)?;
    let rest = expect(rest, Mark::Assign)?;
    let (value, rest) = digits(rest)?;
    let rest = expect(rest, Mark::Semicolon)?;
    Ok((Entry::Constant(at, value), rest))
}
