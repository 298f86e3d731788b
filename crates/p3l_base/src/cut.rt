// Cuts: how a map takes its token apart and puts the results together.

ghost use Rattle.std.specs.Prelude.{◌≡◌, ◌+◌, ◌*◌, ◌^◌, ◌<◌, ◌≤◌, ◌++◌, length};
ghost use Rattle.p3l_base.specs.Memory.{IfGiven, OnGiven};
ghost use Rattle.std.specs.List.{All};
ghost use Rattle.p3l_base.specs.Slice.{cut_size, taken_size};
ghost use Rattle.p3l_base.specs.Cut.{element_size, element_count, HasIndexSize, HasLawfulOuts, next_first, next_second, next_place, array_words, result_word, joined_words};

use crate::list::List;
use crate::slice::{Dim, Place, Slice};
use crate::words::Words;
use p3l_refusal::NoMemory;
use std::alloc::Global;

/// A map's cut of its token into elements: the sizes of the two free indices, the slices whose
/// words an element takes, and those that its result fills. With one free index `second` is 1.
/// Elements are counted in row-major order of the free indices.
#[derive(Debug, Drop)]
pub struct Cut {
    pub first: u32,
    pub second: u32,
    pub ins: List<Slice>,
    pub outs: List<Slice>,
}

/// The whole token that the results of all elements fill, in row-major order of the free indices.
pub fn join(alloc: Global, cut: &Cut, results: &List<Words>) -> Result<Words, NoMemory>
    requires outs { HasLawfulOuts cut.now }
    requires count { length results.now ≡ element_count cut.now }
    requires sizes { All (λ words. length words ≡ element_size cut.now.outs) results.now }
    ensures { IfGiven result (λ token. token ≡ joined_words cut.now results.now) }
{
    let results = results.as_slice();
    let element_len = results[0].len();
    let mut token = Vec::with_capacity(alloc, results.len().saturating_mul(element_len))?;
    let mut at = 0;
    for slice in cut.outs.as_slice() {
        let dims = slice.dims.as_slice();
        let len = cut_len(dims);
        let corner = Corner {
            first: 0,
            second: 0,
            at,
        };
        fill_array(cut, results, dims, len, corner, &mut token)?;
        at += len;
    }
    Ok(Words::from_vec(token))
}

// The place of a walk over an array: the free indices, and the place in their element's result.
#[derive(Clone, Copy, Drop)]
struct Corner {
    first: u32,
    second: u32,
    at: usize,
}

impl Corner {
    // The corner of the inner array at an index of a dimension, where one index more is `stride`
    // words further in the result.
    fn inner(self, place: Place, index: u32, stride: usize) -> Corner
        requires { next_place place index stride self.at < 2 ^ 64 }
        ensures first { result.first ≡ next_first place index self.first }
        ensures second { result.second ≡ next_second place index self.second }
        ensures at { result.at ≡ next_place place index stride self.at }
    {
        match place {
            Place::Rest => Corner {
                first: self.first,
                second: self.second,
                at: self.at + index as usize * stride,
            },
            Place::First => Corner {
                first: index,
                second: self.second,
                at: self.at,
            },
            Place::Second => Corner {
                first: self.first,
                second: index,
                at: self.at,
            },
        }
    }
}

/// The count of words of one cut of an array: the product of the sizes that are not free.
pub fn cut_len(dims: &[Dim]) -> usize
    requires { cut_size dims.now < 2 ^ 64 }
    ensures { result ≡ cut_size dims.now }
{
    let mut product: usize = 1;
    for dim in dims {
        product = product.wrapping_mul(taken_len(*dim));
    }
    product
}

// Counts the indices of a dimension that one cut takes.
fn taken_len(dim: Dim) -> usize
    ensures { result ≡ taken_size dim.place dim.size }
{
    match dim.place {
        Place::Rest => dim.size as usize,
        Place::First | Place::Second => 1,
    }
}

// Puts the words of an array after `token`, each cut of which has `len` words.
fn fill_array(
    cut: &Cut,
    results: &[Words],
    dims: &[Dim],
    len: usize,
    corner: Corner,
    token: &mut Vec<i64>,
) -> Result<(), NoMemory>
    requires first { corner.first < cut.now.first }
    requires second { corner.second < cut.now.second }
    requires count { length results.now ≡ element_count cut.now }
    requires sizes { All (λ words. length words ≡ element_size cut.now.outs) results.now }
    requires free { All (λ dim. HasIndexSize cut.now.first cut.now.second dim.place dim.size)
        dims.now }
    requires sized { len ≡ cut_size dims.now }
    requires within { corner.at + len ≤ element_size cut.now.outs }
    requires small { element_size cut.now.outs < 2 ^ 64 }
    ensures { OnGiven result (token.new.items ≡ token.old.items
        ++ array_words (result_word results.now cut.now.second)
        dims.now corner.first corner.second corner.at) }
{
    let Some((dim, inner)) = dims.split_first() else {
        token.push(result_at(cut, results, corner))?;
        return Ok(());
    };
    if dim.size == 0 {
        return Ok(());
    }
    let stride = len / taken_len(*dim);
    for k in 0..dim.size {
        let corner = corner.inner(dim.place, k, stride);
        fill_array(cut, results, inner, stride, corner, token)?;
    }
    Ok(())
}

// The word of the results where a walk is.
fn result_at(cut: &Cut, results: &[Words], corner: Corner) -> i64
    requires first { corner.first < cut.now.first }
    requires second { corner.second < cut.now.second }
    requires count { length results.now ≡ element_count cut.now }
    requires sizes { All (λ words. length words ≡ element_size cut.now.outs) results.now }
    requires within { corner.at < element_size cut.now.outs }
    ensures { result ≡ result_word results.now cut.now.second corner.first corner.second corner.at }
{
    let element = corner.first as usize * cut.second as usize + corner.second as usize;
    results[element].as_slice()[corner.at]
}
