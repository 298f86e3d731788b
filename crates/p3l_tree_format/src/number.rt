// Numbers as fields.

ghost use Rattle.p3l_format.specs.Numbers.{u32_in, u32_below};
ghost use Rattle.p3l_format.specs.laws.Numbers.{lawful_u32_in, lawful_u32_below};
ghost use Rattle.p3l_tree_format.specs.Tree.{indices_format};
ghost use Rattle.p3l_tree_format.specs.laws.Tree.{lawful_indices};

use p3l_base::{List, NoMemory};
use p3l_format::{Field, ListField, ReadError, read_u32_below, read_u32_in, write_u32};
use std::alloc::Global;

/// A number of 32 bits from `low` to `high`.
#[derive(Clone, Copy, Drop)]
pub struct InField {
    pub low: u32,
    pub high: u32,
}

impl Field for InField {
    type Value = u32;

    ghost format = { λ it. u32_in it.low it.high };

    ghost lawful = { λ it. lawful_u32_in it.low it.high };

    fn read<'a>(&self, _alloc: Global, bytes: &'a [u8]) -> Result<(u32, &'a [u8]), ReadError> {
        read_u32_in(self.low, self.high, bytes)
    }

    #[tactic(auto, unfolding(p3l_format::specs::Format::within))]
    fn write(&self, value: &u32, out: &mut Vec<u8>) -> Result<(), NoMemory> {
        write_u32(*value, out)
    }
}

/// A number of 32 bits below `limit`.
#[derive(Clone, Copy, Drop)]
pub struct BelowField {
    pub limit: usize,
}

impl Field for BelowField {
    type Value = u32;

    ghost format = { λ it. u32_below it.limit };

    ghost lawful = { λ it. lawful_u32_below it.limit };

    fn read<'a>(&self, _alloc: Global, bytes: &'a [u8]) -> Result<(u32, &'a [u8]), ReadError> {
        read_u32_below(self.limit, bytes)
    }

    #[tactic(auto, unfolding(p3l_format::specs::Format::within))]
    fn write(&self, value: &u32, out: &mut Vec<u8>) -> Result<(), NoMemory> {
        write_u32(*value, out)
    }
}

/// A list of numbers of 32 bits below `limit`, as the nodes or channels that something names.
#[derive(Clone, Copy, Drop)]
pub struct IndicesField {
    pub limit: usize,
}

impl Field for IndicesField {
    type Value = List<u32>;

    ghost format = { λ it. indices_format it.limit };

    ghost lawful = { λ it. lawful_indices it.limit };

    fn read<'a>(&self, alloc: Global, bytes: &'a [u8]) -> Result<(List<u32>, &'a [u8]), ReadError> {
        ListField {
            low: 0,
            high: 4_294_967_295,
            item: BelowField { limit: self.limit },
        }
        .read(alloc, bytes)
    }

    fn write(&self, value: &List<u32>, out: &mut Vec<u8>) -> Result<(), NoMemory> {
        ListField {
            low: 0,
            high: 4_294_967_295,
            item: BelowField { limit: self.limit },
        }
        .write(value, out)
    }
}
