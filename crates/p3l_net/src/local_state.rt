// Local states of processes.

ghost use Rattle.std.specs.Prelude.{◌≡◌, false, map, replicate, IfErr, IfNone, IfSome, OnErr, OnOk};
ghost use Rattle.p3l_base.specs.Memory.{IfGiven, Refused};
ghost use Rattle.std.specs.List.{All};
ghost use Rattle.p3l_firing.specs.State.{fresh, gathering};
ghost use Rattle.p3l_firing.specs.kinds.Tail.{has_number};
ghost use Rattle.p3l_firing.specs.Shot.{HasFewTags, own_of, saved_own};
ghost use Rattle.p3l_net.specs.Turns.{IsDue};

use p3l_base::{List, NoMemory};
use p3l_firing::shot::save_tokens;
use p3l_firing::{Own as SavedOwn, Token};
use std::alloc::Global;
use std::marker::Model;

/// The local state of a process: a number, and the tokens that it holds, with room for one from the
/// start.
#[derive(Debug, Drop)]
pub(crate) struct LocalState {
    pub(crate) number: u64,
    pub(crate) held: Vec<Token>,
}

impl Model for LocalState {
    ghost use Rattle.std.specs.Prelude.{◌≤◌, vec_capacity};
    ghost use Rattle.p3l_firing.specs.State.{LocalState};

    ghost Value = { LocalState };

    ghost view = { λ it. record { number = it.number; held = it.held.items } };

    ghost invariant = { λ it. 1 ≤ vec_capacity it.held };
}

impl LocalState {
    // The local state of a process that has not fired.
    fn new(alloc: Global) -> Result<LocalState, NoMemory>
        ensures { IfGiven result (λ local. local ≡ fresh) }
    {
        Ok(LocalState {
            number: 0,
            held: Vec::with_capacity(alloc, 1)?,
        })
    }

    // Restores a local state.
    fn restore(alloc: Global, saved: &SavedOwn) -> Result<LocalState, NoMemory>
        requires { All HasFewTags saved.now.held }
        ensures { IfGiven result (λ local. local ≡ own_of saved.now) }
    {
        let tokens = saved.held.as_slice();
        let mut held = Vec::with_capacity(alloc, tokens.len().max(1))?;
        for token in tokens {
            held.push(token.restore(alloc)?)?;
        }
        Ok(LocalState {
            number: saved.number,
            held,
        })
    }

    // Saves the local state.
    fn save(&self, alloc: Global) -> Result<SavedOwn, NoMemory>
        ensures { IfGiven result (λ saved. saved ≡ saved_own self.now) }
    {
        let mut held = List::new(alloc);
        save_tokens(alloc, self.held.as_slice(), &mut held)?;
        Ok(SavedOwn {
            number: self.number,
            held,
        })
    }

    /// Adds a token to those held; refused, the token comes back.
    pub(crate) fn gather(&mut self, token: Token) -> Result<(), (Token, NoMemory)>
        ensures ok { OnOk result (self.new ≡ gathering self.old token) }
        ensures err { OnErr result (self.new ≡ self.old) }
        ensures back { IfErr result (λ failed. (failed.0 ≡ token) × Refused) }
    {
        if let Err(failed) = self.held.reserve(1) {
            return Err((token, NoMemory::from(failed)));
        }
        self.held.push(token).unwrap();
        Ok(())
    }

    /// The place of the token held that is expected: the first of its number.
    pub(crate) fn expected_place(&self) -> Option<usize>
        ensures due { IfSome result (λ k. IsDue self.now.number self.now.held k) }
        ensures none { IfNone result (has_number self.now.number self.now.held ≡ false) }
    {
        for k in 0..self.held.len() {
            if self.held[k].second_tag() == self.number {
                return Some(k);
            }
        }
        None
    }
}

/// The local states of `size` processes before anything has fired.
pub(crate) fn new_all(alloc: Global, size: usize) -> Result<Vec<LocalState>, NoMemory>
    ensures { IfGiven result (λ locals. locals.items ≡ replicate size fresh) }
{
    let mut locals = Vec::with_capacity(alloc, size)?;
    for _ in 0..size {
        locals.push(LocalState::new(alloc)?)?;
    }
    Ok(locals)
}

/// Restores the local state of each process.
pub(crate) fn restore_all(alloc: Global, saved: &[SavedOwn]) -> Result<Vec<LocalState>, NoMemory>
    requires { All (λ own. All HasFewTags own.held) saved.now }
    ensures { IfGiven result (λ locals. locals.items ≡ map own_of saved.now) }
{
    let mut locals = Vec::with_capacity(alloc, saved.len())?;
    for own in saved {
        locals.push(LocalState::restore(alloc, own)?)?;
    }
    Ok(locals)
}

/// Saves the local state of each process.
pub(crate) fn save_all(alloc: Global, locals: &[LocalState]) -> Result<List<SavedOwn>, NoMemory>
    ensures { IfGiven result (λ saved. saved ≡ map saved_own locals.now) }
{
    let mut saved = List::new(alloc);
    for local in locals {
        saved.push(local.save(alloc)?)?;
    }
    Ok(saved)
}
