// The tokens found in a map: the pieces of all tokens by turns, in groups that each become one
// token.

ghost use Rattle.std.specs.Prelude.{◌≡◌, ◌++◌, ◌≤◌, ◌<◌, [], ◌∷◌, List, suc, length, map, replicate, IfOk, OnErr, IsTrue, IsFalse, ℕ};
ghost use Rattle.p3l_base.specs.Memory.{IfGiven, Refused};
ghost use Rattle.std.specs.List.{All};
ghost use Rattle.p3l_firing.specs.At.{at};
ghost use Rattle.p3l_firing.specs.Lists.{first_or, has_first, rest_of};
ghost use Rattle.p3l_firing.specs.Nodes.{last_element};
ghost use Rattle.p3l_firing.specs.Shot.{HasFewTags, token_of};
ghost use Rattle.p3l_firing.specs.Token.{credit, same_tags};
ghost use Rattle.p3l_firing.specs.declared.token.Token.{Token};
ghost use Rattle.p3l_map.specs.Groups.{are_in_turn, begun, by_turns, count_of, left_at, made_alike};
ghost use Rattle.p3l_map.specs.Map.{next_piece, scatter_ok, spot};
ghost use Rattle.p3l_map.specs.MapKind.{bare_pieces, found_by, line_at};
ghost use Rattle.p3l_template.specs.Finding.{bare, bares, if_orderly};

use p3l_base::{List, NoMemory};
use p3l_firing::{SavedToken, Token};
use p3l_skel::{Form, Tree};
use p3l_template::bare::{add_saved, bare};
use p3l_template::tags::have_same_tags;
use std::alloc::Global;

/// The number of pieces that a map makes of a token: one at least.
pub(crate) fn number_of_pieces(tree: &Tree, node: u32) -> u64
    ensures { result ≡ suc (last_element tree.now node) }
{
    let Some(found) = tree.node(node) else {
        return 1;
    };
    match &found.form {
        Form::Map { cut, .. } => (cut.first as u64 * cut.second as u64).saturating_sub(1) + 1,
        _ => 1,
    }
}

// The count of tokens in the lines: of fewer than 2^64 lines, each of fewer than 2^64 tokens.
fn count_tokens(lines: &[List<Token>]) -> u128
    ensures { result ≡ count_of lines.now }
{
    let mut count: u128 = 0;
    for line in lines {
        count += line.len() as u128;
    }
    count
}

// For each line, that no token was taken from it yet.
fn none_taken(alloc: Global, lines: usize) -> Result<Vec<usize>, NoMemory>
    ensures { IfGiven result (λ taken. taken.items ≡ replicate lines 0) }
{
    let mut taken = Vec::new(alloc);
    for _line in 0..lines {
        taken.push(0)?;
    }
    Ok(taken)
}

// The line of a place: in each group from the first on.
fn line_of_place(place: usize, number: u64, lines: usize) -> usize
    requires number { 1 ≤ number }
    requires lines { 1 ≤ lines }
    ensures { result ≡ spot (bare_pieces number lines) place }
{
    (place as u64 % number) as usize % lines
}

// Puts the first token that is left of a line after others, without its outcome, if there is one.
fn take_next(
    alloc: Global,
    list: &mut List<Token>,
    lines: &[List<Token>],
    taken: &mut [usize],
    line: usize,
) -> Result<bool, NoMemory>
    requires lines { length taken.old ≡ length lines.now }
    requires line { line < length lines.now }
    ensures length { length taken.new ≡ length taken.old }
    ensures some { IfGiven result (λ some. some ≡ has_first (left_at lines.now taken.old line)) }
    ensures list { IfOk result (λ some. IsTrue some
        → list.new ≡ list.old ++ bare (first_or credit (left_at lines.now taken.old line)) ∷ []) }
    ensures left { IfOk result (λ some. IsTrue some → left_at lines.now taken.new
        ≡ at (left_at lines.now taken.old) line (rest_of (left_at lines.now taken.old line))) }
{
    let next = taken[line];
    let Some(token) = lines[line].as_slice().get(next) else {
        return Ok(false);
    };
    list.push(bare(alloc, token))?;
    taken[line] = next + 1;
    Ok(true)
}

// Puts the tokens of all lines by turns after the pieces that were gathered, without their
// outcomes, if each line has those of its places.
fn add_by_turns(
    alloc: Global,
    list: &mut List<Token>,
    number: u64,
    lines: &[List<Token>],
) -> Result<bool, NoMemory>
    requires number { 1 ≤ number }
    requires lines { 1 ≤ length lines.now }
    ensures all { IfGiven result (λ all. all ≡ are_in_turn number lines.now (length list.old)) }
    ensures list { IfOk result (λ all. IsTrue all
        → list.new ≡ list.old ++ bares (by_turns number lines.now (length list.old))) }
{
    let count = count_tokens(lines);
    let mut taken = none_taken(alloc, lines.len())?;
    for _turn in 0..count {
        let line = line_of_place(list.len(), number, lines.len());
        if !take_next(alloc, list, lines, taken.as_mut_slice(), line)? {
            return Ok(false);
        }
    }
    Ok(true)
}

// Puts a piece that is the first of its group after the first ones of the groups before; of any
// other it says whether its tags are those of the last of these.
fn add_piece(
    alloc: Global,
    firsts: &mut List<Token>,
    is_first: bool,
    piece: &Token,
) -> Result<bool, NoMemory>
    requires { IsFalse is_first → 1 ≤ length firsts.old }
    ensures first { IsTrue is_first → IfGiven result (λ alike. IsTrue alike) }
    ensures one_more { IsTrue is_first
        → IfOk result (λ alike. firsts.new ≡ firsts.old ++ bare piece.now ∷ []) }
    ensures later { IsFalse is_first → (xs : List Token) (x : Token) → firsts.old ≡ xs ++ x ∷ []
        → IfOk result (λ alike. alike ≡ same_tags piece.now.tags x.tags) }
    ensures same { IsFalse is_first → firsts.new ≡ firsts.old }
    ensures refused { OnErr result Refused }
{
    if is_first {
        firsts.push(bare(alloc, piece))?;
        return Ok(true);
    }
    let before = firsts.as_slice();
    Ok(have_same_tags(piece, &before[before.len() - 1]))
}

// The first piece of each group, without its outcome, if the pieces of each group have the tags of
// one token.
fn firsts_of_groups(
    alloc: Global,
    number: u64,
    pieces: &[Token],
) -> Result<Option<List<Token>>, NoMemory>
    requires { 1 ≤ number }
    ensures { IfGiven result (λ firsts. firsts ≡ made_alike (begun number pieces.now)) }
{
    let mut firsts = List::new(alloc);
    for k in 0..pieces.len() {
        if !add_piece(alloc, &mut firsts, k as u64 % number == 0, &pieces[k])? {
            return Ok(None);
        }
    }
    Ok(Some(firsts))
}

// Returns true exactly if one token is being scattered, of which a piece is left to send, or none.
fn is_scattering(number: u64, sending: &[SavedToken], sent: u64) -> bool
    ensures { (lines : ℕ) → result
        ≡ scatter_ok (bare_pieces number lines) (map token_of sending.now) sent }
{
    if sending.len() == 0 {
        return true;
    }
    (sending.len() == 1) & (sent < number)
}

// The piece that is sent next, 0 where no token is being scattered.
fn next_piece(sending: &[SavedToken], sent: u64) -> u64
    ensures { result ≡ next_piece (map token_of sending.now) sent }
{
    if sending.len() == 0 { 0 } else { sent }
}

/// The tokens that the groups become, if the map is orderly: a token that is being scattered stands
/// for all its pieces that are not sent yet.
pub(crate) fn by_lines(
    alloc: Global,
    number: u64,
    held: &[SavedToken],
    lines: &[List<Token>],
    sending: &[SavedToken],
    sent: u64,
) -> Result<Option<List<Token>>, NoMemory>
    requires number { 1 ≤ number }
    requires lines { 1 ≤ length lines.now }
    requires held { All HasFewTags held.now }
    requires sending { All HasFewTags sending.now }
    ensures { IfGiven result (λ pending. pending
        ≡ if_orderly (found_by (bare_pieces number (length lines.now)) (record {
          lines = line_at lines.now;
          held = map token_of held.now;
          sending = map token_of sending.now;
          sent = sent;
          input = [];
          output = [];
        }))) }
{
    if held.len() as u64 > number {
        return Ok(None);
    }
    if !is_scattering(number, sending, sent) {
        return Ok(None);
    }
    let mut pieces = List::new(alloc);
    add_saved(alloc, &mut pieces, held)?;
    if !add_by_turns(alloc, &mut pieces, number, lines)? {
        return Ok(None);
    }
    if pieces.len() as u64 % number != next_piece(sending, sent) {
        return Ok(None);
    }
    add_saved(alloc, &mut pieces, sending)?;
    firsts_of_groups(alloc, number, pieces.as_slice())
}
