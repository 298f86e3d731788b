// The free indices of a map.

ghost use Rattle.std.specs.Prelude.{◌≡◌, ◌++◌, [], slice_get};
ghost use Rattle.p3l_base.specs.Memory.{IfGiven, OnGiven};
ghost use Rattle.std.specs.List.{list_all};
ghost use Rattle.p3l_calls.specs.Index.{index_in, indices_in, are_indices, is_index, is_sized, is_free, is_free_of, free_count, stands_in, has_indices, member_rule, members_rule, size_rule, sizes_rule, second_place, place_named, place_in, first_size, second_size};

use crate::port::refused;
use p3l_ast::{Fault, SourceRefusal, Sub};
use p3l_base::{List, Name, NoMemory, Place};
use std::alloc::Global;

/// A free index with its size.
#[derive(Debug, Drop)]
pub struct Index {
    pub name: Name,
    pub size: u32,
}

/// Puts the free index of a bracket after others, if there is one.
fn push_index(
    alloc: Global,
    indices: &mut List<Index>,
    sub: &Sub,
    size: u32,
) -> Result<(), NoMemory>
    ensures { OnGiven result (indices.new ≡ indices.old ++ index_in sub.now size) }
{
    let Sub::Free(spot) = sub else {
        return Ok(());
    };
    let name = Name::from_text(alloc, spot.name.as_str())?;
    indices.push(Index { name, size })?;
    Ok(())
}

/// The free indices in brackets, each with the size of its dimension.
#[tactic(auto, using(crate::proofs::Indices::brackets))]
pub(crate) fn indices_in(
    alloc: Global,
    subs: &[Sub],
    sizes: &[u32],
) -> Result<List<Index>, NoMemory>
    ensures { IfGiven result (λ indices. indices ≡ indices_in subs.now sizes.now) }
{
    let mut indices = List::new(alloc);
    for (k, size) in sizes.iter().enumerate() {
        if k >= subs.len() {
            return Ok(indices);
        }
        push_index(alloc, &mut indices, &subs[k], *size)?;
    }
    Ok(indices)
}

/// True if these are one free index, or two of different names.
pub(crate) fn are_indices(indices: &[Index]) -> bool
    ensures { result ≡ are_indices indices.now }
{
    match indices {
        [_] => true,
        [first, second] => first.name != second.name,
        _ => false,
    }
}

/// True if one of the indices has this name.
fn is_index(indices: &[Index], name: &Name) -> bool
    ensures { result ≡ is_index indices.now name.now }
{
    indices.iter().any(|index| index.name == *name)
}

/// True if the index of this name has this size.
fn is_sized(indices: &[Index], name: &Name, size: u32) -> bool
    ensures { result ≡ is_sized indices.now name.now size }
{
    indices
        .iter()
        .any(|index| index.name == *name && index.size == size)
}

/// True if a bracket holds a free index.
fn is_free(sub: &Sub) -> bool
    ensures { result ≡ is_free sub.now }
{
    match sub {
        Sub::Whole => false,
        Sub::Free(_) => true,
    }
}

/// True if a bracket holds the free index of this name.
fn is_free_of(name: &Name, sub: &Sub) -> bool
    ensures { result ≡ is_free_of name.now sub.now }
{
    match sub {
        Sub::Whole => false,
        Sub::Free(spot) => *name == spot.name,
    }
}

/// The count of free indices in brackets.
pub(crate) fn free_count(subs: &[Sub]) -> usize
    ensures { result ≡ free_count subs.now }
{
    subs.iter().filter(|sub| is_free(sub)).count()
}

/// True if a free index of this name occurs in the brackets.
fn stands_in(subs: &[Sub], name: &Name) -> bool
    ensures { result ≡ stands_in subs.now name.now }
{
    subs.iter().any(|sub| is_free_of(name, sub))
}

/// True if each of the indices occurs in the brackets.
fn all_stand_in(indices: &[Index], subs: &[Sub]) -> bool
    ensures { result ≡ list_all (λ (i : Index). stands_in subs.now i.name) indices.now }
{
    indices.iter().all(|index| stands_in(subs, &index.name))
}

/// True if the free indices in the brackets are exactly these, each once.
pub(crate) fn has_indices(indices: &[Index], subs: &[Sub]) -> bool
    ensures { result ≡ has_indices indices.now subs.now }
{
    free_count(subs) == indices.len() && all_stand_in(indices, subs)
}

/// A free index in a bracket is one of these, and in none of the brackets before.
fn check_member(indices: &[Index], before: &[Sub], sub: &Sub) -> Result<(), SourceRefusal>
    ensures { result ≡ member_rule indices.now before.now sub.now }
{
    let Sub::Free(spot) = sub else {
        return Ok(());
    };
    if !is_index(indices, &spot.name) || stands_in(before, &spot.name) {
        return refused(Fault::FreeIndex, spot.pos);
    }
    Ok(())
}

/// Each free index in the brackets is one of these and occurs there once.
pub(crate) fn check_members(indices: &[Index], subs: &[Sub]) -> Result<(), SourceRefusal>
    ensures { result ≡ members_rule indices.now [] subs.now }
{
    for (k, sub) in subs.iter().enumerate() {
        check_member(indices, &subs[..k], sub)?;
    }
    Ok(())
}

/// A free index has its one size.
fn check_size(indices: &[Index], sub: &Sub, size: u32) -> Result<(), SourceRefusal>
    ensures { result ≡ size_rule indices.now sub.now size }
{
    let Sub::Free(spot) = sub else {
        return Ok(());
    };
    if !is_sized(indices, &spot.name, size) {
        return refused(Fault::FreeIndex, spot.pos);
    }
    Ok(())
}

/// Each free index in the brackets has its one size.
#[tactic(auto, using(crate::proofs::Indices::brackets))]
pub(crate) fn check_sizes(
    indices: &[Index],
    subs: &[Sub],
    sizes: &[u32],
) -> Result<(), SourceRefusal>
    ensures { result ≡ sizes_rule indices.now subs.now sizes.now }
{
    for (k, size) in sizes.iter().enumerate() {
        if k >= subs.len() {
            return Ok(());
        }
        check_size(indices, &subs[k], *size)?;
    }
    Ok(())
}

/// Returns which free index a name is.
fn place_named(indices: &[Index], name: &Name) -> Place
    ensures { result ≡ place_named indices.now name.now }
{
    match indices {
        [first, ..] if first.name == *name => Place::First,
        [_, second, ..] if second.name == *name => Place::Second,
        _ => Place::Rest,
    }
}

/// The place of the dimension of the bracket of this number.
pub(crate) fn place_in(indices: &[Index], subs: &[Sub], k: usize) -> Place
    ensures { result ≡ place_in indices.now (slice_get subs.now k) }
{
    match subs.get(k) {
        Some(Sub::Free(spot)) => place_named(indices, &spot.name),
        _ => Place::Rest,
    }
}

/// The size of the first free index.
pub(crate) fn first_size(indices: &[Index]) -> u32
    ensures { result ≡ first_size indices.now }
{
    match indices {
        [first, ..] => first.size,
        [] => 1,
    }
}

/// The size of the second free index, and 1 where there is one alone.
pub(crate) fn second_size(indices: &[Index]) -> u32
    ensures { result ≡ second_size indices.now }
{
    match indices {
        [_, second, ..] => second.size,
        _ => 1,
    }
}
