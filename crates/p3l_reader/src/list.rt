// Lists: what may come again and again.

ghost use Rattle.std.specs.Prelude.{◌≡◌, ◌≤◌, ◌<◌, [], ◌∷◌, length, IfOk, IfErr};
ghost use Rattle.p3l_base.specs.Memory.{IfGiven};
ghost use Rattle.p3l_reader.specs.Reading.{Reads, Fails, separated_list, parenthesized};

use crate::mark::expect;
use crate::refusal::Refusal;
use p3l_base::{List, NoMemory};
use p3l_lexer::{Mark, TextToken};
use std::alloc::Global;

/// A kind of element of a list of any length.
pub trait Listed: Drop + Sized {
    ghost use Rattle.std.specs.Prelude.{List, ◌<◌, length, IfOk, IfErr, IfSome, IfNone};
    ghost use Rattle.p3l_grammar.specs.Parser.{Parser};
    ghost use Rattle.p3l_reader.specs.Reading.{Adds, Leaves, Misses};

    ghost list: { List Self → (List Self → Parser) → Parser };

    /// The next one, where one comes next.
    fn next(alloc: Global, tokens: &[TextToken]) -> Result<Option<(Self, &[TextToken])>, Refusal>
        ensures some { IfOk result (λ o. IfSome o (λ x. Adds list tokens.now x.0 x.1.now)) }
        ensures shorter { IfOk result (λ o. IfSome o (λ x. length x.1.now < length tokens.now)) }
        ensures none { IfOk result (λ o. IfNone o (Leaves list tokens.now)) }
        ensures err { IfErr result (λ e. Misses list tokens.now e) };
}

/// Reads the items of a list after its first ones, as many as there are.
pub fn list_from<T: Listed>(
    alloc: Global,
    first: List<T>,
    tokens: &[TextToken],
) -> Result<(List<T>, &[TextToken]), Refusal>
    ensures ok { IfOk result (λ x. Reads (T.list first) tokens.now x.0 x.1.now) }
    ensures shorter { IfOk result (λ x. length x.1.now ≤ length tokens.now) }
    ensures err { IfErr result (λ e. Fails (T.list first) tokens.now e) }
{
    let mut list = first;
    let mut rest = tokens;
    while let Some((item, next)) = T::next(alloc, rest)? {
        list.push(item)?;
        rest = next;
    }
    Ok((list, rest))
}

/// A thing in parentheses, with commas between it and others.
pub trait Separated: Listed {
    ghost use Rattle.std.specs.Prelude.{◌<◌, length, IfOk, IfErr};
    ghost use Rattle.p3l_grammar.specs.Parser.{Parser};
    ghost use Rattle.p3l_reader.specs.Reading.{Reads, Fails};

    ghost one: { (Self → Parser) → Parser };

    /// One of them.
    fn one(alloc: Global, tokens: &[TextToken]) -> Result<(Self, &[TextToken]), Refusal>
        ensures ok { IfOk result (λ x. Reads one tokens.now x.0 x.1.now) }
        ensures shorter { IfOk result (λ x. length x.1.now < length tokens.now) }
        ensures err { IfErr result (λ e. Fails one tokens.now e) };
}

/// The list of one thing.
pub fn list_of_one<T: Drop>(alloc: Global, item: T) -> Result<List<T>, NoMemory>
    ensures { IfGiven result (λ list. list ≡ item ∷ []) }
{
    let mut list = List::new(alloc);
    list.push(item)?;
    Ok(list)
}

/// Things with commas between them, one at least.
fn separated_list<T: Separated>(
    alloc: Global,
    tokens: &[TextToken],
) -> Result<(List<T>, &[TextToken]), Refusal>
    ensures ok { IfOk result (λ x. Reads (separated_list T.one T.list) tokens.now x.0 x.1.now) }
    ensures shorter { IfOk result (λ x. length x.1.now < length tokens.now) }
    ensures err { IfErr result (λ e. Fails (separated_list T.one T.list) tokens.now e) }
{
    let (first, rest) = T::one(alloc, tokens)?;
    let first = list_of_one(alloc, first)?;
    list_from(alloc, first, rest)
}

/// The same in parentheses.
pub fn parenthesized<T: Separated>(
    alloc: Global,
    tokens: &[TextToken],
) -> Result<(List<T>, &[TextToken]), Refusal>
    ensures ok { IfOk result (λ x. Reads (parenthesized T.one T.list) tokens.now x.0 x.1.now) }
    ensures shorter { IfOk result (λ x. length x.1.now < length tokens.now) }
    ensures err { IfErr result (λ e. Fails (parenthesized T.one T.list) tokens.now e) }
{
    let rest = expect(tokens, Mark::OpenParen)?;
    let (list, rest) = separated_list(alloc, rest)?;
    let rest = expect(rest, Mark::CloseParen)?;
    Ok((list, rest))
}
