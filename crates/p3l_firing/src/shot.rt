// Snapshots of machines, and of their tokens.

ghost use Rattle.std.specs.Prelude.{◌≡◌, ◌≤◌, ◌↔◌, ◌++◌, length, map, reverse, IsTrue};
ghost use Rattle.std.specs.List.{All};
ghost use Rattle.p3l_base.specs.Memory.{IfGiven, OnGiven};
ghost use Rattle.p3l_firing.specs.Shot.{HasFewTags, HaveFewTags, IsCountable, own_saved_at, saved_at, saved_token, token_of};
ghost use Rattle.p3l_firing.specs.Token.{plain};

use crate::copies::same;
use crate::tags::{MOST_TAGS, Tags};
use crate::token::Token;
use p3l_base::{List, NoMemory, Outcome, Words};
use std::alloc::Global;

/// Counts stay below this number, so that they can be counted on.
const MOST_COUNTED: u64 = 1 << 63;

/// A token as it is saved: an outcome, with its tags from the oldest to the newest.
#[derive(Debug, Drop)]
pub struct SavedToken {
    pub tags: List<u64>,
    pub body: Outcome,
}

/// The local state of a process, from one of its firings to the next: a number, and the tokens
/// that it holds.
#[derive(Debug, Drop)]
pub struct Own {
    pub number: u64,
    pub held: List<SavedToken>,
}

/// The state of a machine that has emitted no trap: the tokens of each channel in the order of
/// sending, the local state of each process, the item in the inbox, and the numbers of items sent
/// and of outcomes emitted.
#[derive(Debug, Drop)]
pub struct Shot {
    pub chans: List<List<SavedToken>>,
    pub owns: List<Own>,
    pub inbox: Option<Words>,
    pub sent: u64,
    pub emitted: u64,
}

impl Shot {
    /// Returns true exactly if all counts are below 2^63, as a machine that is restored needs it.
    pub fn is_countable(&self) -> bool
        ensures { IsTrue result ↔ IsCountable self.now }
    {
        self.sent < MOST_COUNTED
            && self.emitted < MOST_COUNTED
            && self
                .owns
                .as_slice()
                .iter()
                .all(|own| own.number < MOST_COUNTED)
    }

    /// Returns true exactly if no token has more tags than a token may have.
    pub fn has_few_tags(&self) -> bool
        ensures { IsTrue result ↔ HaveFewTags self.now }
    {
        self.chans
            .as_slice()
            .iter()
            .all(|tokens| have_few_tags(tokens.as_slice()))
            && self
                .owns
                .as_slice()
                .iter()
                .all(|own| have_few_tags(own.held.as_slice()))
    }

    /// The tokens of a channel; none past the channels.
    pub fn tokens(&self, chan: usize) -> &[SavedToken]
        ensures saved { result.now ≡ saved_at self.now chan }
        ensures few { HaveFewTags self.now → All HasFewTags result.now }
    {
        match self.chans.as_slice().get(chan) {
            Some(tokens) => tokens.as_slice(),
            None => &[],
        }
    }

    /// The number of a process; 0 past the processes.
    pub fn number(&self, proc: usize) -> u64
        ensures { result ≡ (own_saved_at self.now proc).number }
    {
        match self.owns.as_slice().get(proc) {
            Some(own) => own.number,
            None => 0,
        }
    }

    /// The tokens that a process holds; none past the processes.
    pub fn held(&self, proc: usize) -> &[SavedToken]
        ensures saved { result.now ≡ (own_saved_at self.now proc).held }
        ensures few { HaveFewTags self.now → All HasFewTags result.now }
    {
        match self.owns.as_slice().get(proc) {
            Some(own) => own.held.as_slice(),
            None => &[],
        }
    }
}

impl SavedToken {
    /// A token with these tags, as it is saved.
    pub fn tagged(alloc: Global, tags: &Tags, body: &Outcome) -> Result<SavedToken, NoMemory>
        ensures { IfGiven result (λ saved. saved
            ≡ saved_token (record { tags = tags.now; body = body.now })) }
    {
        Ok(SavedToken {
            tags: tags.save(alloc)?,
            body: same(alloc, body)?,
        })
    }

    /// A token without tags, as it is saved.
    pub fn plain(alloc: Global, body: &Outcome) -> Result<SavedToken, NoMemory>
        ensures { IfGiven result (λ saved. saved ≡ saved_token (plain body.now)) }
    {
        Ok(SavedToken {
            tags: List::new(alloc),
            body: same(alloc, body)?,
        })
    }

    /// The token that was saved.
    pub fn restore(&self, alloc: Global) -> Result<Token, NoMemory>
        requires { HasFewTags self.now }
        ensures { IfGiven result (λ token. token ≡ token_of self.now) }
    {
        Ok(self.restore_with(same(alloc, &self.body)?))
    }

    /// A token with the tags that were saved and another outcome.
    pub fn restore_with(&self, body: Outcome) -> Token
        requires { HasFewTags self.now }
        ensures { result ≡ record { tags = reverse self.now.tags; body = body } }
    {
        Token {
            tags: Tags::restore(self.tags.as_slice()),
            body,
        }
    }
}

// Returns true exactly if none of these tokens has more tags than a token may have.
fn have_few_tags(tokens: &[SavedToken]) -> bool
    ensures { IsTrue result ↔ All HasFewTags tokens.now }
{
    tokens.iter().all(|token| token.tags.len() <= MOST_TAGS)
}

/// Saves tokens behind those that were saved before.
pub fn save_tokens(
    alloc: Global,
    tokens: &[Token],
    saved: &mut List<SavedToken>,
) -> Result<(), NoMemory>
    ensures { OnGiven result (saved.new ≡ saved.old ++ map saved_token tokens.now) }
{
    for token in tokens {
        saved.push(SavedToken::tagged(alloc, &token.tags, &token.body)?)?;
    }
    Ok(())
}
