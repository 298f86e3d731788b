// The numbers of snapshots are numbers of their types: seen by looking at them.

ghost use Rattle.std.specs.List.{All};
ghost use Rattle.p3l_firing.specs.declared.shot.Own.{Own as TheOwn};
ghost use Rattle.p3l_resume.specs.Ranges.{AreInRange, HasRanges, HasRange, IsInRange, IsTag, IsWord, WhatHasFewItemsCanBeWritten};
ghost use Rattle.std.specs.Prelude.{◌≡◌, ◌<◌, ◌^◌, IfSome, true};
ghost use Rattle.p3l_format.specs.Numbers.{is_byte};

use crate::saved::Saved;
use p3l_base::{List, Outcome, Words};
use p3l_net::{Own, SavedToken};

// Looks at a word.
fn look_at_word(_word: i64)
    ensures { IsWord _word }
{}

// Looks at words.
fn look_at_words(words: &[i64])
    ensures { All IsWord words.now }
{
    for word in words {
        look_at_word(*word);
    }
}

// Looks at tags.
fn look_at_tags(tags: &[u64])
    ensures { All IsTag tags.now }
{}

// Looks at bytes.
fn look_at_bytes(bytes: &[u8])
    ensures { All (λ byte. is_byte byte ≡ true) bytes.now }
{}

// Looks at the number of a module.
fn look_at_module(_module: u32)
    ensures { _module < 2 ^ 32 }
{}

// Looks at an outcome.
fn look_at_outcome(outcome: &Outcome)
    ensures { HasRange outcome.now }
{
    match outcome {
        Outcome::Value(words) => look_at_words(words.as_slice()),
        Outcome::Trapped(trap) => look_at_module(trap.module),
    }
}

// Looks at a token.
fn look_at_token(token: &SavedToken)
    ensures { IsInRange token.now }
{
    look_at_tags(token.tags.as_slice());
    look_at_outcome(&token.body);
}

// Looks at tokens.
fn look_at_tokens(tokens: &[SavedToken])
    ensures { AreInRange tokens.now }
{
    for token in tokens {
        look_at_token(token);
    }
}

// Looks at the tokens of channels.
fn look_at_chans(chans: &[List<SavedToken>])
    ensures { All AreInRange chans.now }
{
    for tokens in chans {
        look_at_tokens(tokens.as_slice());
    }
}

// Looks at what processes keep.
fn look_at_owns(owns: &[Own])
    ensures { All (λ (own : TheOwn). AreInRange own.held) owns.now }
{
    for own in owns {
        look_at_tokens(own.held.as_slice());
    }
}

// Looks at the item in an inbox.
fn look_at_inbox(inbox: &Option<Words>)
    ensures { IfSome inbox.now (All IsWord) }
{
    match inbox {
        Some(words) => look_at_words(words.as_slice()),
        None => {}
    }
}

/// Looks at a snapshot: its words, tags and bytes are numbers of their types.
pub fn have_ranges(saved: &Saved)
    ensures { HasRanges saved.now }
{
    look_at_chans(saved.shot.chans.as_slice());
    look_at_owns(saved.shot.owns.as_slice());
    look_at_inbox(&saved.shot.inbox);
    look_at_bytes(saved.image.as_slice());
}

/// A snapshot can be written whose numbers are numbers of their types, and whose lists can be counted
/// in 32 bits.
pub fn what_has_few_items_can_be_written()
    ensures { WhatHasFewItemsCanBeWritten }
{}
