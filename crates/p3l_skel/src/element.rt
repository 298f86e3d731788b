// The elements of an item's words.

ghost use Rattle.p3l_base.specs.declared.slice.Slice.{Slice};
ghost use Rattle.p3l_base.specs.Slice.{LiesWithin};
ghost use Rattle.p3l_base.specs.Cut.{HasFreeSizes, element_count, element_words};
ghost use Rattle.p3l_skel.specs.Item.{elements};
ghost use Rattle.std.specs.List.{All};
ghost use Rattle.std.specs.Prelude.{◌≡◌, ◌<◌, length, IfOk};
ghost use Rattle.p3l_base.specs.Memory.{IfGiven};

use p3l_base::{Cut, List, NoMemory, Words, cut_at};
use std::alloc::Global;

/// The words that a map's element takes: its cut of each slice, one after the other.
pub fn gather(alloc: Global, cut: &Cut, words: &Words, element: u64) -> Result<Words, NoMemory>
    requires there { element < element_count cut.now }
    requires sizes { All (HasFreeSizes cut.now.first cut.now.second) cut.now.ins }
    requires within { All (λ (slice : Slice). LiesWithin slice (length words.now)) cut.now.ins }
    ensures { IfGiven result (λ gathered. gathered
        ≡ element_words cut.now.ins cut.now.second words.now element) }
{
    prove!(element / (cut.second as u64) < cut.first as u64);
    let first = (element / cut.second as u64) as u32;
    let second = (element % cut.second as u64) as u32;
    let mut gathered = Vec::new(alloc);
    for slice in cut.ins.as_slice() {
        let part = cut_at(alloc, slice, words, first, second)?;
        gathered.extend_from_slice(part.as_slice())?;
    }
    Ok(Words::from_vec(gathered))
}

/// The elements of `size` words each, in order.
pub fn elements(alloc: Global, words: &Words, size: u32) -> Result<List<Words>, NoMemory>
    requires { 0 < size }
    ensures elements { IfGiven result (λ list. list ≡ elements size words.now) }
    ensures sized { IfOk result (λ list. All (λ element. length element ≡ size) list) }
{
    let size = size as usize;
    let mut list = List::new(alloc);
    let mut rest = words.as_slice();
    while rest.len() >= size {
        let (element, more) = rest.split_at(size);
        let copy = Words::from_slice(alloc, element)?;
        list.push(copy)?;
        rest = more;
    }
    Ok(list)
}
