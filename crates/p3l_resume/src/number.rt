// Bytes, numbers and words as fields.

ghost use Rattle.p3l_format.specs.Numbers.{i64_format, u8_format, u64_format};
ghost use Rattle.p3l_format.specs.laws.Numbers.{lawful_i64, lawful_u8, lawful_u64};

use p3l_base::NoMemory;
use p3l_format::{Field, ReadError, read_i64, read_u8, read_u64, write_i64, write_u8, write_u64};
use std::alloc::Global;

/// The most items of a list.
pub const MOST_ITEMS: u32 = 4_294_967_295;

/// A byte.
#[derive(Clone, Copy, Drop)]
pub struct ByteField;

impl Field for ByteField {
    type Value = u8;

    ghost format = { λ _. u8_format };

    ghost lawful = { λ _. lawful_u8 };

    fn read<'a>(&self, _alloc: Global, bytes: &'a [u8]) -> Result<(u8, &'a [u8]), ReadError> {
        read_u8(bytes)
    }

    fn write(&self, value: &u8, out: &mut Vec<u8>) -> Result<(), NoMemory> {
        write_u8(*value, out)
    }
}

/// A number of 64 bits.
#[derive(Clone, Copy, Drop)]
pub struct NumberField;

impl Field for NumberField {
    type Value = u64;

    ghost format = { λ _. u64_format };

    ghost lawful = { λ _. lawful_u64 };

    fn read<'a>(&self, _alloc: Global, bytes: &'a [u8]) -> Result<(u64, &'a [u8]), ReadError> {
        read_u64(bytes)
    }

    fn write(&self, value: &u64, out: &mut Vec<u8>) -> Result<(), NoMemory> {
        write_u64(*value, out)
    }
}

/// A word: a number of 64 bits with a sign.
#[derive(Clone, Copy, Drop)]
pub struct WordField;

impl Field for WordField {
    type Value = i64;

    ghost format = { λ _. i64_format };

    ghost lawful = { λ _. lawful_i64 };

    fn read<'a>(&self, _alloc: Global, bytes: &'a [u8]) -> Result<(i64, &'a [u8]), ReadError> {
        read_i64(bytes)
    }

    fn write(&self, value: &i64, out: &mut Vec<u8>) -> Result<(), NoMemory> {
        write_i64(*value, out)
    }
}
