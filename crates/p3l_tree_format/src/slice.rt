// Slices and cuts as fields.

ghost use Rattle.std.specs.Prelude.{◌≡◌, ◌++◌};
ghost use Rattle.p3l_base.specs.Memory.{OnGiven};
ghost use Rattle.p3l_format.specs.Format.{Gives};
ghost use Rattle.p3l_tree_format.specs.Slice.{place_number, place_format, dim_format, slice_format, cut_format};
ghost use Rattle.p3l_tree_format.specs.laws.Slice.{lawful_dim, lawful_slice, lawful_cut};

use p3l_base::limits::{MOST_SIZES, MOST_WORDS};
use p3l_base::{Cut, Dim, NoMemory, Place, Slice};
use p3l_format::{
    Field, ListField, ReadError, read_one_of, read_so_many, read_u8_in, read_u32_in, write_each,
    write_u8, write_u32,
};
use std::alloc::Global;

/// A dimension: its size and its place.
#[derive(Clone, Copy, Drop)]
pub struct DimField;

impl Field for DimField {
    type Value = Dim;

    ghost format = { λ _. dim_format };

    ghost lawful = { λ _. lawful_dim };

    #[tactic(auto, unfolding(crate::specs::Slice::dim_format, p3l_format::specs::Format::pair, p3l_format::specs::Format::as_form))]
    fn read<'a>(&self, _alloc: Global, bytes: &'a [u8]) -> Result<(Dim, &'a [u8]), ReadError> {
        let (size, rest) = read_u32_in(1, MOST_WORDS as u32, bytes)?;
        let (place, rest) = read_place(rest)?;
        Ok((Dim { size, place }, rest))
    }

    #[tactic(auto, unfolding(crate::specs::Slice::dim_format, p3l_format::specs::Format::pair, p3l_format::specs::Format::as_form, p3l_format::specs::Format::within))]
    fn write(&self, value: &Dim, out: &mut Vec<u8>) -> Result<(), NoMemory> {
        write_u32(value.size, out)?;
        write_place(value.place, out)
    }
}

// The place at the front, and what is after it.
fn read_place(bytes: &[u8]) -> Result<(Place, &[u8]), ReadError>
    ensures { Gives (λ x. (x.0, x.1.now)) result (place_format.read bytes.now) }
{
    read_one_of(&[Place::Rest, Place::First, Place::Second], bytes)
}

// Puts a place after others.
#[tactic(auto, unfolding(p3l_format::specs::Numbers::one_of, p3l_format::specs::Numbers::u8_format, p3l_format::specs::Format::coded))]
fn write_place(place: Place, out: &mut Vec<u8>) -> Result<(), NoMemory>
    ensures { OnGiven result (out.new.items ≡ out.old.items ++ place_format.spell place) }
{
    write_u8(place_number(place), out)
}

// The byte that stands for a place.
fn place_number(place: Place) -> u8
    ensures { result ≡ place_number place }
{
    match place {
        Place::Rest => 0,
        Place::First => 1,
        Place::Second => 2,
    }
}

/// A slice: its first word, and at most 3 dimensions.
#[derive(Clone, Copy, Drop)]
pub struct SliceField;

impl Field for SliceField {
    type Value = Slice;

    ghost format = { λ _. slice_format };

    ghost lawful = { λ _. lawful_slice };

    #[tactic(auto, unfolding(crate::specs::Slice::slice_format, p3l_format::specs::Format::pair, p3l_format::specs::Format::as_form, p3l_format::specs::Format::counted))]
    fn read<'a>(&self, alloc: Global, bytes: &'a [u8]) -> Result<(Slice, &'a [u8]), ReadError> {
        let (start, rest) = read_u32_in(0, 65_535, bytes)?;
        let (count, rest) = read_u8_in(0, MOST_SIZES as u8, rest)?;
        let (dims, rest) = read_so_many(&DimField, alloc, u32::from(count), rest)?;
        Ok((Slice { start, dims }, rest))
    }

    #[tactic(auto, unfolding(crate::specs::Slice::slice_format, p3l_format::specs::Format::pair, p3l_format::specs::Format::as_form, p3l_format::specs::Format::within, p3l_format::specs::Format::counted))]
    fn write(&self, value: &Slice, out: &mut Vec<u8>) -> Result<(), NoMemory> {
        write_u32(value.start, out)?;
        write_u8(value.dims.len() as u8, out)?;
        write_each(&DimField, value.dims.as_slice(), out)
    }
}

const SLICES: ListField<SliceField> = ListField {
    low: 0,
    high: 4_294_967_295,
    item: SliceField,
};

/// A cut of a map.
#[derive(Clone, Copy, Drop)]
pub struct CutField;

impl Field for CutField {
    type Value = Cut;

    ghost format = { λ _. cut_format };

    ghost lawful = { λ _. lawful_cut };

    #[tactic(auto, unfolding(crate::specs::Slice::cut_format, p3l_format::specs::Format::pair, p3l_format::specs::Format::as_form))]
    fn read<'a>(&self, alloc: Global, bytes: &'a [u8]) -> Result<(Cut, &'a [u8]), ReadError> {
        let (first, rest) = read_u32_in(1, MOST_WORDS as u32, bytes)?;
        let (second, rest) = read_u32_in(1, MOST_WORDS as u32, rest)?;
        let (ins, rest) = SLICES.read(alloc, rest)?;
        let (outs, rest) = SLICES.read(alloc, rest)?;
        Ok((
            Cut {
                first,
                second,
                ins,
                outs,
            },
            rest,
        ))
    }

    #[tactic(auto, unfolding(crate::specs::Slice::cut_format, p3l_format::specs::Format::pair, p3l_format::specs::Format::as_form, p3l_format::specs::Format::within))]
    fn write(&self, value: &Cut, out: &mut Vec<u8>) -> Result<(), NoMemory> {
        write_u32(value.first, out)?;
        write_u32(value.second, out)?;
        SLICES.write(&value.ins, out)?;
        SLICES.write(&value.outs, out)
    }
}
