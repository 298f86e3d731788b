// Reading a source text.

ghost use Rattle.std.specs.Prelude.{◌≡◌, ◌+◌, ◌-◌, ◌<◌, ◌≤◌, [], ◌∷◌, ◌++◌, List, length, drop, map, IfOk, IfErr, Err};
ghost use Rattle.p3l_ast.specs.Tree.{entry_tree, EntryTree, ProgramTree, program_tree};
ghost use Rattle.p3l_grammar.specs.Symbol.{symbols};
ghost use Rattle.p3l_grammar.specs.Limits.{at_rest, nest_after, IsPast, IsWithin};
ghost use Rattle.p3l_grammar.specs.Grammar.{Derives, Spells};
ghost use Rattle.p3l_reader.specs.Reading.{FailsText};
ghost use Rattle.p3l_reader.specs.Faults.{own_fault, wrong_at, IsFaultIn, IsLastFault, IsOnlyList, IsRefusal, IsOnly, too_long, too_nested};

use crate::program::text;
use crate::refusal::Refusal;
use p3l_ast::{Entry, Fault, Pos, Program, SourceRefusal};
use p3l_base::List;
use p3l_grammar::nest::first_past;
use p3l_lexer::{Lexeme, TextToken, end_of, tokens};
use std::alloc::Global;

/// The most bytes of a source text.
const LIMIT: usize = 1_048_576;

/// The fault of a token with which no program goes on.
fn own_fault(token: &TextToken) -> Fault
    ensures { result ≡ own_fault token.now.lexeme }
{
    match token.lexeme {
        Lexeme::Faulty(fault) => fault,
        _ => Fault::Expected,
    }
}

/// The fault in front of the tokens that are left, where no program goes on.
fn wrong_at(left: &[TextToken], end: Pos) -> SourceRefusal
    ensures { result ≡ wrong_at left.now end }
{
    match left {
        [token, ..] => SourceRefusal::At {
            fault: own_fault(token),
            pos: token.at,
        },
        [] => SourceRefusal::At {
            fault: Fault::Expected,
            pos: end,
        },
    }
}

/// The last `left` tokens.
fn last_tokens(tokens: &[TextToken], left: usize) -> &[TextToken]
    requires { left ≤ length tokens.now }
    ensures { result.now ≡ drop (length tokens.now - left) tokens.now }
{
    &tokens[tokens.len() - left..]
}

/// The entries of tokens that pass no limit.
fn within(alloc: Global, tokens: &[TextToken], end: Pos) -> Result<List<Entry>, SourceRefusal>
    requires { IsWithin at_rest (symbols tokens.now) }
    ensures found { IfOk result (λ list. Derives (symbols tokens.now) (map entry_tree list)) }
    ensures only { (entries : List EntryTree) → Derives (symbols tokens.now) entries
        → IsOnlyList entries result }
    ensures first { IfErr result (λ e. IsFaultIn tokens.now end e) }
{
    match text(alloc, tokens) {
        Ok(list) => Ok(list),
        Err(Refusal::NoMemory) => Err(SourceRefusal::NoMemory),
        Err(Refusal::Expected { left }) => Err(wrong_at(last_tokens(tokens, left), end)),
    }
}

/// The refusal of a token that passes a limit.
fn too_nested(token: &TextToken) -> SourceRefusal
    ensures { result ≡ too_nested token.now }
{
    SourceRefusal::At {
        fault: Fault::TooNested,
        pos: token.at,
    }
}

/// The first fault of tokens when only the last passes a limit.
fn beyond(
    alloc: Global,
    tokens: &[TextToken],
    before: &[TextToken],
    last: &TextToken,
    end: Pos,
) -> SourceRefusal
    requires whole { tokens.now ≡ before.now ++ last.now ∷ [] }
    requires within { IsWithin at_rest (symbols before.now) }
    requires past { IsPast (nest_after at_rest (symbols tokens.now)) }
    ensures { IsLastFault tokens.now end result }
{
    let refusal = match text(alloc, tokens) {
        Ok(_) => return too_nested(last),
        Err(refusal) => refusal,
    };
    first_fault(refusal, tokens, before, last, end)
}

/// The same, where no program goes on with the tokens or none is whole.
fn first_fault(
    refusal: Refusal,
    tokens: &[TextToken],
    before: &[TextToken],
    last: &TextToken,
    end: Pos,
) -> SourceRefusal
    requires fault { FailsText tokens.now refusal }
    requires whole { tokens.now ≡ before.now ++ last.now ∷ [] }
    requires within { IsWithin at_rest (symbols before.now) }
    requires past { IsPast (nest_after at_rest (symbols tokens.now)) }
    ensures { IsLastFault tokens.now end result }
{
    match refusal {
        Refusal::NoMemory => SourceRefusal::NoMemory,
        Refusal::Expected { left } => {
            if left == 0 {
                return too_nested(last);
            }
            wrong_at(last_tokens(tokens, left), end)
        }
    }
}

/// The entries of the tokens.
fn entries(alloc: Global, tokens: &[TextToken], end: Pos) -> Result<List<Entry>, SourceRefusal>
    ensures found { IfOk result (λ list. Derives (symbols tokens.now) (map entry_tree list)) }
    ensures within { IfOk result (λ _. IsWithin at_rest (symbols tokens.now)) }
    ensures only { (entries : List EntryTree) → Derives (symbols tokens.now) entries
        → IsWithin at_rest (symbols tokens.now) → IsOnlyList entries result }
    ensures first { IfErr result (λ e. IsFaultIn tokens.now end e) }
{
    match first_past(tokens) {
        None => within(alloc, tokens, end),
        Some(at) => Err(beyond(alloc, &tokens[..at + 1], &tokens[..at], &tokens[at], end)),
    }
}

/// The program of a source text, or the first fault of the text.
pub fn read(alloc: Global, text: &[u8]) -> Result<Program, SourceRefusal>
    // The text spells the program that is read.
    ensures found { IfOk result (λ program. Spells text.now (program_tree program)) }
    ensures short { IfOk result (λ _. length text.now ≤ 1048576) }
    // A program that the text spells is read, unless memory runs out.
    ensures only { length text.now ≤ 1048576 → (program : ProgramTree) → Spells text.now program
        → IsOnly program result }
    // A longer text is refused as a whole, and any other at its first fault.
    ensures long { 1048576 < length text.now → result ≡ Err too_long }
    ensures first { IfErr result (λ e. IsRefusal text.now e) }
{
    if text.len() > LIMIT {
        return Err(SourceRefusal::At {
            fault: Fault::SourceTooLong,
            pos: Pos { line: 1, col: 1 },
        });
    }
    let tokens = tokens(alloc, text)?;
    let end = end_of(text);
    let entries = entries(alloc, tokens.as_slice(), end)?;
    Ok(Program { entries, end })
}
