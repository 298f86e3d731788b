// Reading ports.

ghost use Rattle.std.specs.Prelude.{◌<◌, ◌≤◌, [], ◌∷◌, length, IfOk, IfErr, IfSome, IfNone};
ghost use Rattle.p3l_grammar.specs.Parser.{another_size, port_from, port, another_port, port_list, ports, another_local};
ghost use Rattle.p3l_reader.specs.Reading.{Reads, Fails, Adds, Leaves, Misses};

use crate::list::{Listed, Separated, list_from, parenthesized};
use crate::mark::{expect, num, skip, spot};
use crate::refusal::Refusal;
use p3l_ast::{Num, Port};
use p3l_base::List;
use p3l_lexer::{Mark, TextToken};
use std::alloc::Global;

/// Reads on after the `int` of a port.
pub fn port_name(alloc: Global, tokens: &[TextToken]) -> Result<(Port, &[TextToken]), Refusal>
    ensures ok { IfOk result (λ x. Reads port_from tokens.now x.0 x.1.now) }
    ensures shorter { IfOk result (λ x. length x.1.now < length tokens.now) }
    ensures err { IfErr result (λ e. Fails port_from tokens.now e) }
{
    let (at, rest) = spot(alloc, tokens)?;
    let (sizes, rest) = list_from(alloc, List::new(alloc), rest)?;
    Ok((Port { at, sizes }, rest))
}

/// A port.
fn port(alloc: Global, tokens: &[TextToken]) -> Result<(Port, &[TextToken]), Refusal>
    ensures ok { IfOk result (λ x. Reads port tokens.now x.0 x.1.now) }
    ensures shorter { IfOk result (λ x. length x.1.now < length tokens.now) }
    ensures err { IfErr result (λ e. Fails port tokens.now e) }
{
    let rest = expect(tokens, Mark::Int)?;
    port_name(alloc, rest)
}

/// Ports in parentheses, one at least.
pub fn ports(alloc: Global, tokens: &[TextToken]) -> Result<(List<Port>, &[TextToken]), Refusal>
    ensures ok { IfOk result (λ x. Reads ports tokens.now x.0 x.1.now) }
    ensures shorter { IfOk result (λ x. length x.1.now < length tokens.now) }
    ensures err { IfErr result (λ e. Fails ports tokens.now e) }
{
    parenthesized(alloc, tokens)
}

/// The next local variable, where one comes next.
fn next_local(alloc: Global, tokens: &[TextToken]) -> Result<Option<(Port, &[TextToken])>, Refusal>
    ensures some { IfOk result (λ o. IfSome o (λ x. Adds another_local tokens.now x.0 x.1.now)) }
    ensures shorter { IfOk result (λ o. IfSome o (λ x. length x.1.now < length tokens.now)) }
    ensures none { IfOk result (λ o. IfNone o (Leaves another_local tokens.now)) }
    ensures err { IfErr result (λ e. Misses another_local tokens.now e) }
{
    match skip(tokens, Mark::Int) {
        Some(rest) => {
            let (local, rest) = port_name(alloc, rest)?;
            let rest = expect(rest, Mark::Semicolon)?;
            Ok(Some((local, rest)))
        }
        None => Ok(None),
    }
}

/// The local variables of a body, as many as there are.
pub fn locals(alloc: Global, tokens: &[TextToken]) -> Result<(List<Port>, &[TextToken]), Refusal>
    ensures ok { IfOk result (λ x. Reads (another_local []) tokens.now x.0 x.1.now) }
    ensures shorter { IfOk result (λ x. length x.1.now ≤ length tokens.now) }
    ensures err { IfErr result (λ e. Fails (another_local []) tokens.now e) }
{
    let mut locals = List::new(alloc);
    let mut rest = tokens;
    while let Some((local, next)) = next_local(alloc, rest)? {
        locals.push(local)?;
        rest = next;
    }
    Ok((locals, rest))
}

impl Listed for Num {
    ghost use Rattle.p3l_grammar.specs.Parser.{another_size};

    ghost list = { another_size };

    fn next(alloc: Global, tokens: &[TextToken]) -> Result<Option<(Num, &[TextToken])>, Refusal> {
        match skip(tokens, Mark::OpenBracket) {
            Some(rest) => {
                let (size, rest) = num(alloc, rest)?;
                let rest = expect(rest, Mark::CloseBracket)?;
                Ok(Some((size, rest)))
            }
            None => Ok(None),
        }
    }
}

impl Listed for Port {
    ghost use Rattle.p3l_grammar.specs.Parser.{another_port};

    ghost list = { another_port };

    fn next(alloc: Global, tokens: &[TextToken]) -> Result<Option<(Port, &[TextToken])>, Refusal> {
        match skip(tokens, Mark::Comma) {
            Some(rest) => Ok(Some(port(alloc, rest)?)),
            None => Ok(None),
        }
    }
}

impl Separated for Port {
    ghost use Rattle.p3l_grammar.specs.Parser.{port};

    ghost one = { port };

    fn one(alloc: Global, tokens: &[TextToken]) -> Result<(Port, &[TextToken]), Refusal> {
        port(alloc, tokens)
    }
}
