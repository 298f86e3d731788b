// Lawful cuts of a map.

ghost use Rattle.std.specs.Prelude.{◌≡◌, ◌↔◌, ◌≤◌, ◌<◌, ◌+◌, ◌^◌, ◌⊎◌, IsTrue, IfSome, IfNone, min};
ghost use Rattle.std.specs.List.{All};
ghost use Rattle.p3l_base.specs.Slice.{array_size, cut_size, LiesWithin};
ghost use Rattle.p3l_base.specs.Cut.{token_size, element_size, one_at_first, one_at_second, first_count, second_count, HasIndexSize, HasFreeSizes, FollowOneAnother, HasLawfulOuts, HasLawfulIns, IsLawfulCut};
ghost use Rattle.p3l_skel.specs.Lawful.{IsSize, HasSizes};

use p3l_base::{Cut, Dim, Place, Slice, array_len, cut_len};

/// The greatest size of an array, and the most words of a token.
pub const GREATEST_SIZE: u32 = 65_536;

/// The most sizes of an array.
const MOST_SIZES: usize = 3;

/// Returns true exactly if a size is in its limits.
pub fn is_size(n: u32) -> bool
    ensures { IsTrue result ↔ IsSize n }
{
    1 <= n && n <= GREATEST_SIZE
}

/// Returns true exactly if an array's sizes are in their limits.
fn has_sizes(slice: &Slice) -> bool
    ensures { IsTrue result ↔ HasSizes slice.now }
{
    slice.dims.len() <= MOST_SIZES && slice.dims.as_slice().iter().all(|dim| is_size(dim.size))
}

/// Returns true exactly if the sizes of all arrays are in their limits.
pub fn have_sizes(slices: &[Slice]) -> bool
    ensures { IsTrue result ↔ All HasSizes slices.now }
{
    slices.iter().all(|slice| has_sizes(slice))
}

/// The count of words of the array of a slice.
fn slice_len(slice: &Slice) -> u64
    requires { HasSizes slice.now }
    ensures size { result ≡ array_size slice.now.dims }
    ensures bound { result ≤ 2 ^ 48 }
{
    array_len(slice.dims.as_slice()) as u64
}

/// The count of words of one cut of a slice.
fn slice_cut_len(slice: &Slice) -> u64
    requires { HasSizes slice.now }
    ensures size { result ≡ cut_size slice.now.dims }
    ensures bound { result ≤ 2 ^ 48 }
{
    cut_len(slice.dims.as_slice()) as u64
}

/// Returns true exactly if a free dimension has the size of its index.
fn has_index_size(cut: &Cut, dim: Dim) -> bool
    ensures { IsTrue result ↔ HasIndexSize cut.now.first cut.now.second dim.place dim.size }
{
    match dim.place {
        Place::Rest => true,
        Place::First => dim.size == cut.first,
        Place::Second => dim.size == cut.second,
    }
}

/// Returns true exactly if each free dimension of an array has the size of its index.
fn has_free_sizes(cut: &Cut, slice: &Slice) -> bool
    ensures { IsTrue result ↔ HasFreeSizes cut.now.first cut.now.second slice.now }
{
    slice
        .dims
        .as_slice()
        .iter()
        .all(|dim| has_index_size(cut, *dim))
}

/// Returns true exactly if each free dimension of each array has the size of its index.
fn have_free_sizes(cut: &Cut, slices: &[Slice]) -> bool
    ensures { IsTrue result ↔ All (HasFreeSizes cut.now.first cut.now.second) slices.now }
{
    slices.iter().all(|slice| has_free_sizes(cut, slice))
}

/// 1 at a First place, else 0.
fn one_at_first(place: Place) -> usize
    ensures value { result ≡ one_at_first place }
    ensures bound { result ≤ 1 }
{
    match place {
        Place::First => 1,
        Place::Rest | Place::Second => 0,
    }
}

/// 1 at a Second place, else 0.
fn one_at_second(place: Place) -> usize
    ensures value { result ≡ one_at_second place }
    ensures bound { result ≤ 1 }
{
    match place {
        Place::Second => 1,
        Place::Rest | Place::First => 0,
    }
}

/// The count of times that First occurs among the dimensions.
fn first_len(dims: &[Dim]) -> usize
    ensures { result ≡ first_count dims.now }
{
    let mut len = 0;
    for dim in dims {
        len += one_at_first(dim.place);
    }
    len
}

/// The count of times that Second occurs among the dimensions.
fn second_len(dims: &[Dim]) -> usize
    ensures { result ≡ second_count dims.now }
{
    let mut len = 0;
    for dim in dims {
        len += one_at_second(dim.place);
    }
    len
}

/// Returns where the arrays end that follow one another from word 0 on without gaps.
fn arrays_end(slices: &[Slice]) -> Option<u64>
    requires { All HasSizes slices.now }
    ensures ok { IfSome result (λ end. FollowOneAnother 0 slices.now
        × (end ≡ token_size slices.now)) }
    ensures none { IfNone result (¬ FollowOneAnother 0 slices.now) }
{
    let mut end: u64 = 0;
    for slice in slices {
        if slice.start as u64 != end {
            return None;
        }
        end += slice_len(slice);
    }
    Some(end)
}

/// The words that an element takes from the slices, as far as they count: past 2^32 all are alike.
fn element_len(slices: &[Slice]) -> u64
    requires { All HasSizes slices.now }
    ensures { result ≡ min (element_size slices.now) (2 ^ 32) }
{
    let mut len: u64 = 0;
    for slice in slices {
        len = (len + slice_cut_len(slice)).min(1 << 32);
    }
    len
}

/// Returns true exactly if an element takes `words` words from the slices.
fn has_element_size(slices: &[Slice], words: u32) -> bool
    requires { All HasSizes slices.now }
    ensures { IsTrue result ↔ (element_size slices.now ≡ words) }
{
    element_len(slices) == words as u64
}

/// Returns true exactly if a slice lies in a token of `words` words.
fn lies_within(slice: &Slice, words: u32) -> bool
    requires { HasSizes slice.now }
    ensures { IsTrue result ↔ LiesWithin slice.now words }
{
    slice.start as u64 + slice_len(slice) <= words as u64
}

/// Returns true exactly if all slices lie in a token of `words` words.
fn lie_within(slices: &[Slice], words: u32) -> bool
    requires { All HasSizes slices.now }
    ensures { IsTrue result ↔ All (λ slice. LiesWithin slice words) slices.now }
{
    for slice in slices {
        if !lies_within(slice, words) {
            return false;
        }
    }
    true
}

/// Returns true exactly if Second occurs `times` times in each slice.
fn second_stands(slices: &[Slice], times: usize) -> bool
    ensures { IsTrue result ↔ All (λ slice. second_count slice.dims ≡ times) slices.now }
{
    slices
        .iter()
        .all(|slice| second_len(slice.dims.as_slice()) == times)
}

/// Returns true exactly if First and Second occur at most once in each slice.
fn free_at_most_once(slices: &[Slice]) -> bool
    ensures { IsTrue result
        ↔ (All (λ slice. first_count slice.dims ≤ 1) slices.now
        × All (λ slice. second_count slice.dims ≤ 1) slices.now) }
{
    slices
        .iter()
        .all(|slice| first_len(slice.dims.as_slice()) <= 1)
        && slices
            .iter()
            .all(|slice| second_len(slice.dims.as_slice()) <= 1)
}

/// Returns true exactly if the arrays follow one another from word 0 on without gaps.
fn follow_one_another(slices: &[Slice]) -> bool
    requires { All HasSizes slices.now }
    ensures { IsTrue result ↔ FollowOneAnother 0 slices.now }
{
    arrays_end(slices).is_some()
}

/// Returns true exactly if Second occurs once in each out slice, or in none, and there is one
/// second index.
fn has_lawful_second(cut: &Cut) -> bool
    ensures { IsTrue result ↔ (All (λ slice. second_count slice.dims ≡ 1) cut.now.outs
        ⊎ ((cut.now.second ≡ 1) × All (λ slice. second_count slice.dims ≡ 0) cut.now.outs)) }
{
    let outs = cut.outs.as_slice();
    second_stands(outs, 1) || (cut.second == 1 && second_stands(outs, 0))
}

/// Returns true exactly if the results of a cut's elements fill a whole token.
fn has_lawful_outs(cut: &Cut) -> bool
    requires { All HasSizes cut.now.outs }
    ensures { IsTrue result ↔ HasLawfulOuts cut.now }
{
    let outs = cut.outs.as_slice();
    cut.first >= 1
        && cut.second >= 1
        && !outs.is_empty()
        && have_free_sizes(cut, outs)
        && outs
            .iter()
            .all(|slice| first_len(slice.dims.as_slice()) == 1)
        && has_lawful_second(cut)
        && follow_one_another(outs)
}

/// Returns true exactly if the slices that an element takes fit a cut with `ins` words in.
fn has_lawful_ins(cut: &Cut, ins: u32) -> bool
    requires { All HasSizes cut.now.ins }
    ensures { IsTrue result ↔ HasLawfulIns cut.now ins }
{
    let slices = cut.ins.as_slice();
    !slices.is_empty()
        && have_free_sizes(cut, slices)
        && free_at_most_once(slices)
        && (!second_stands(cut.outs.as_slice(), 0) || second_stands(slices, 0))
        && lie_within(slices, ins)
}

/// Returns true exactly if a cut is lawful for a map with `ins` and `outs` words, and a part with
/// its own.
pub fn is_lawful_cut(cut: &Cut, ins: u32, outs: u32, part_ins: u32, part_outs: u32) -> bool
    requires in_sizes { All HasSizes cut.now.ins }
    requires out_sizes { All HasSizes cut.now.outs }
    ensures { IsTrue result ↔ IsLawfulCut cut.now ins outs part_ins part_outs }
{
    has_lawful_outs(cut)
        && has_lawful_ins(cut, ins)
        && arrays_end(cut.outs.as_slice()) == Some(outs as u64)
        && has_element_size(cut.ins.as_slice(), part_ins)
        && has_element_size(cut.outs.as_slice(), part_outs)
}
