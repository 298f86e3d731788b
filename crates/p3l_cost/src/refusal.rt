// Why a cost file is refused.

ghost use Rattle.std.specs.Prelude.{◌≡◌};
ghost use Rattle.p3l_cost.specs.declared.refusal.CostRefusal.TheVariants as refusals;

use p3l_base::Name;

/// Why a cost file is refused. Keys of entries are written `seq.NAME` and `turns.NAME`.
#[derive(Debug, Drop)]
pub enum CostRefusal {
    /// The text is not UTF-8, or not a TOML document.
    NotToml,
    /// A key that costs don't have, or an entry that names no module of its table's skeleton.
    BadKey(Name),
    /// A value that is no table, or no whole number in the range of its key.
    BadValue(Name),
    /// The ticks of this `seq` module are given neither by an entry nor by `default`.
    Missing(Name),
    /// Out of memory.
    NoMemory,
}

impl From<p3l_base::NoMemory> for CostRefusal {
    ghost from_gives = { λ _ refusal. refusal ≡ refusals.NoMemory };

    fn from(_want: p3l_base::NoMemory) -> CostRefusal {
        CostRefusal::NoMemory
    }
}
