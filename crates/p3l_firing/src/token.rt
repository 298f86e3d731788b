// Tokens, which travel through channels, and firings as they are reported.

ghost use Rattle.std.specs.Prelude.{◌≡◌, ◌<◌, ◌^◌, length};
ghost use Rattle.p3l_firing.specs.Token.{plain, credit, tagged, newest_tag, second_tag, untagged, once_more, is_trap};

use crate::process::ProcKind;
use crate::tags::Tags;
use p3l_base::{Outcome, Words};
use std::alloc::Global;

/// An outcome that travels through channels, with the tags that the processes on its way gave it.
#[derive(Debug, Drop)]
pub struct Token {
    pub tags: Tags,
    pub body: Outcome,
}

/// A firing: the kind of the process that fired, and the outcome that it took out of the net, if it
/// is the sink.
#[derive(Debug, Drop)]
pub struct Fired {
    pub kind: ProcKind,
    pub emitted: Option<Outcome>,
}

impl Token {
    /// A token without tags.
    pub fn plain(body: Outcome) -> Token
        ensures { result ≡ plain body }
    {
        Token {
            tags: Tags::new(),
            body,
        }
    }

    /// A credit: a token without tags whose value has no words.
    pub fn credit(alloc: Global) -> Token
        ensures { result ≡ credit }
    {
        Token::plain(Outcome::Value(Words::new(alloc)))
    }

    /// The token with a tag more.
    pub fn tagged(self, tag: u64) -> Token
        requires { length self.tags < 12 }
        ensures { result ≡ tagged tag self }
    {
        let Token { mut tags, body } = self;
        tags.add(tag);
        Token { tags, body }
    }

    /// The newest tag, 0 if there is none.
    pub fn newest_tag(&self) -> u64
        ensures { result ≡ newest_tag self.now }
    {
        self.tags.newest()
    }

    /// The second newest tag, 0 if there is none.
    pub fn second_tag(&self) -> u64
        ensures { result ≡ second_tag self.now }
    {
        self.tags.second()
    }

    /// The token with one more in its newest tag, if it has one: as it goes round a loop once more.
    pub fn once_more(self) -> Token
        requires { newest_tag self < 2 ^ 63 }
        ensures { result ≡ once_more self }
    {
        let Token { mut tags, body } = self;
        tags.count_newest();
        Token { tags, body }
    }

    /// The token without its newest tag.
    pub fn untagged(self) -> Token
        ensures { result ≡ untagged self }
    {
        let Token { mut tags, body } = self;
        tags.drop_newest();
        Token { tags, body }
    }

    /// A token with these tags and another outcome.
    pub fn copy_with(&self, body: Outcome) -> Token
        ensures { result ≡ record self.now { body = body } }
    {
        Token {
            tags: self.tags.copy(),
            body,
        }
    }

    /// The token with another outcome, and its own tags.
    pub fn with_body(self, body: Outcome) -> Token
        ensures { result ≡ record self { body = body } }
    {
        let Token { tags, body: _ } = self;
        Token { tags, body }
    }
}

/// Returns true exactly if the outcome is a trap.
pub fn is_trap(outcome: &Outcome) -> bool
    ensures { result ≡ is_trap outcome.now }
{
    match outcome {
        Outcome::Value(_) => false,
        Outcome::Trapped(_) => true,
    }
}
