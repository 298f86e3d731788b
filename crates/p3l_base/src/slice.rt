// Slices: where the words of one element are in a token.

ghost use Rattle.std.specs.Prelude.{◌≡◌, ◌+◌, ◌-◌, ◌^◌, ◌<◌, ◌≤◌, ◌++◌, length};
ghost use Rattle.p3l_base.specs.Memory.{IfGiven, OnGiven};
ghost use Rattle.std.specs.List.{range_with_len};
ghost use Rattle.p3l_base.specs.Slice.{array_size, cut_size, taken_indices, cut_places, words_at, cut_words, LiesWithin, IsBelowSize, AreFreeIndices};

use crate::list::List;
use crate::words::Words;
use p3l_refusal::NoMemory;
use std::alloc::Global;

/// The part of a dimension of an array in a slice.
#[derive(Clone, Copy, Debug, Drop, PartialEq, Eq)]
pub enum Place {
    /// All its indices are taken.
    Rest,
    /// Its index is the element's first free one.
    First,
    /// Its index is the element's second free one.
    Second,
}

/// One dimension of an array: how many indices it has, and what it is in a slice.
#[derive(Clone, Copy, Debug, Drop, PartialEq, Eq)]
pub struct Dim {
    pub size: u32,
    pub place: Place,
}

/// An array in a token, in row-major order from the word `start` on, with its free and its other
/// dimensions.
#[derive(Debug, Drop)]
pub struct Slice {
    pub start: u32,
    pub dims: List<Dim>,
}

/// The words of a slice at the free indices `i` and `j`, in row-major order over the other
/// dimensions.
pub fn cut_at(
    alloc: Global,
    slice: &Slice,
    words: &Words,
    i: u32,
    j: u32,
) -> Result<Words, NoMemory>
    requires within { LiesWithin slice.now (length words.now) }
    requires free { AreFreeIndices slice.now.dims i j }
    ensures words { IfGiven result (λ cut. cut ≡ cut_words slice.now words.now i j) }
    ensures size { IfGiven result (λ cut. length cut ≡ cut_size slice.now.dims) }
{
    let dims = slice.dims.as_slice();
    let mut cut = Vec::new(alloc);
    let free = FreeIndices {
        first: i,
        second: j,
    };
    copy_cut(
        words.as_slice(),
        slice.start as usize,
        dims,
        array_len(dims),
        free,
        &mut cut,
    )?;
    Ok(Words::from_vec(cut))
}

// The free indices of an element.
#[derive(Clone, Copy, Drop)]
struct FreeIndices {
    first: u32,
    second: u32,
}

// The indices of a dimension that an element takes: from the first number, and below the second.
fn taken(dim: Dim, free: FreeIndices) -> (u32, u32)
    requires { IsBelowSize free.first free.second dim.place dim.size }
    ensures indices { range_with_len result.0 (result.1 - result.0)
        ≡ taken_indices dim.place dim.size free.first free.second }
    ensures ordered { result.0 ≤ result.1 }
    ensures below { result.1 ≤ dim.size }
{
    match dim.place {
        Place::Rest => (0, dim.size),
        Place::First => (free.first, free.first + 1),
        Place::Second => (free.second, free.second + 1),
    }
}

/// The count of words of an array: the product of its sizes.
pub fn array_len(dims: &[Dim]) -> usize
    requires { array_size dims.now < 2 ^ 64 }
    ensures { result ≡ array_size dims.now }
{
    let mut product: usize = 1;
    for dim in dims {
        product = product.wrapping_mul(dim.size as usize);
    }
    product
}

// Puts the words of a cut after `cut`, of the array of `len` words from `start` on.
fn copy_cut(
    words: &[i64],
    start: usize,
    dims: &[Dim],
    len: usize,
    free: FreeIndices,
    cut: &mut Vec<i64>,
) -> Result<(), NoMemory>
    requires sized { len ≡ array_size dims.now }
    requires within { start + len ≤ length words.now }
    requires free { AreFreeIndices dims.now free.first free.second }
    ensures { OnGiven result (cut.new.items
        ≡ cut.old.items ++ words_at words.now (cut_places start dims.now free.first free.second)) }
{
    let Some((dim, inner)) = dims.split_first() else {
        cut.push(words[start])?;
        return Ok(());
    };
    if dim.size == 0 {
        return Ok(());
    }
    let stride = len / dim.size as usize;
    let (low, high) = taken(*dim, free);
    for k in low..high {
        copy_cut(words, start + k as usize * stride, inner, stride, free, cut)?;
    }
    Ok(())
}
