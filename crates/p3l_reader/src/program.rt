// Reading a whole text.

ghost use Rattle.std.specs.Prelude.{◌≡◌, ◌<◌, [], length, map, IfOk, IfErr, Ok};
ghost use Rattle.p3l_ast.specs.Tree.{entry_tree};
ghost use Rattle.p3l_grammar.specs.Parser.{entries, all, kind_of};
ghost use Rattle.p3l_reader.specs.Reading.{AddsEntry, MissesEntry, FailsText};

use crate::mark::{sign_next, skip};
use crate::module::{constant, module};
use crate::refusal::Refusal;
use p3l_ast::{Entry, Kind};
use p3l_base::List;
use p3l_lexer::{Mark, TextToken};
use std::alloc::Global;

/// The kind of a module that begins with a mark.
fn kind_of(mark: Mark) -> Option<Kind>
    ensures { result ≡ kind_of mark }
{
    match mark {
        Mark::Seq => Some(Kind::Seq),
        Mark::Comp => Some(Kind::Comp),
        Mark::Pipe => Some(Kind::Pipe),
        Mark::Farm => Some(Kind::Farm),
        Mark::Map => Some(Kind::Map),
        Mark::Reduce => Some(Kind::Reduce),
        Mark::Loop => Some(Kind::Loop),
        _ => None,
    }
}

/// The next entry.
fn entry(alloc: Global, tokens: &[TextToken]) -> Result<(Entry, &[TextToken]), Refusal>
    requires { 0 < length tokens.now }
    ensures ok { IfOk result (λ x. AddsEntry tokens.now (entry_tree x.0) x.1.now) }
    ensures shorter { IfOk result (λ x. length x.1.now < length tokens.now) }
    ensures err { IfErr result (λ e. MissesEntry tokens.now e) }
{
    if let Some(rest) = skip(tokens, Mark::Const) {
        return constant(alloc, rest);
    }
    let Some((mark, rest)) = sign_next(tokens) else {
        return Err(Refusal::Expected { left: tokens.len() });
    };
    match kind_of(mark) {
        Some(kind) => module(alloc, kind, rest),
        None => Err(Refusal::Expected { left: tokens.len() }),
    }
}

/// The entries of the tokens.
pub fn text(alloc: Global, tokens: &[TextToken]) -> Result<List<Entry>, Refusal>
    ensures ok { IfOk result (λ list. all (entries []) tokens.now ≡ Ok (map entry_tree list)) }
    ensures err { IfErr result (λ e. FailsText tokens.now e) }
{
    let mut list = List::new(alloc);
    let mut rest = tokens;
    while !rest.is_empty() {
        let (entry, next) = entry(alloc, rest)?;
        list.push(entry)?;
        rest = next;
    }
    Ok(list)
}
