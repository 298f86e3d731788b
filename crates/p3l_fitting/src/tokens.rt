// Tests of saved tokens.

ghost use Rattle.std.specs.Prelude.{◌≡◌, ◌↔◌, IsTrue};
ghost use Rattle.std.specs.List.{All};
ghost use Rattle.p3l_fitting.specs.Decided.{BodyFits, IsBareCredit, IsEmptyValue, TokenFits};

use p3l_base::Outcome;
use p3l_net::SavedToken;
use p3l_skel::Tree;
use p3l_template::Width;

/// Returns true exactly if an outcome has this number of words, or is a trap of a module of the
/// tree.
fn body_fits(tree: &Tree, words: u64, body: &Outcome) -> bool
    ensures { IsTrue result ↔ BodyFits tree.now words body.now }
{
    match body {
        Outcome::Value(items) => items.len() as u64 == words,
        Outcome::Trapped(trap) => (trap.module as usize) < tree.modules.len(),
    }
}

/// Returns true exactly if a token has this width, and a trap names a module of the tree.
fn token_fits(tree: &Tree, width: Width, token: &SavedToken) -> bool
    ensures { IsTrue result ↔ TokenFits tree.now width token.now }
{
    token.tags.len() == width.tags as usize && body_fits(tree, width.words, &token.body)
}

/// Returns true exactly if all tokens have this width, and traps name modules of the tree.
pub(crate) fn tokens_fit(tree: &Tree, width: Width, tokens: &[SavedToken]) -> bool
    ensures { IsTrue result ↔ All (TokenFits tree.now width) tokens.now }
{
    tokens.iter().all(|token| token_fits(tree, width, token))
}

/// Returns true exactly if an outcome is a value without words.
fn is_empty_value(body: &Outcome) -> bool
    ensures { IsTrue result ↔ IsEmptyValue body.now }
{
    match body {
        Outcome::Value(words) => words.is_empty(),
        Outcome::Trapped(_) => false,
    }
}

/// Returns true exactly if a token is a credit.
fn is_credit(token: &SavedToken) -> bool
    ensures { IsTrue result ↔ IsBareCredit token.now }
{
    token.tags.is_empty() && is_empty_value(&token.body)
}

/// Returns true exactly if all tokens are credits.
pub(crate) fn are_credits(tokens: &[SavedToken]) -> bool
    ensures { IsTrue result ↔ All IsBareCredit tokens.now }
{
    tokens.iter().all(is_credit)
}
