// Why statements may give no valuation.

use p3l_base::TrapKind;

/// Why a run of statements ended with no valuation: its first trap, or out of memory, which is no
/// part of what the statements mean.
#[derive(Clone, Copy, Debug, Drop, PartialEq, Eq)]
pub enum Stop {
    Trapped(TrapKind),
    NoMemory,
}

impl From<TrapKind> for Stop {
    ghost use Rattle.std.specs.Prelude.{◌≡◌};
    ghost use Rattle.p3l_ast.specs.declared.meaning.stop.Stop.TheVariants.{Trapped};

    ghost from_gives = { λ trap stop. stop ≡ Trapped trap };

    fn from(trap: TrapKind) -> Stop {
        Stop::Trapped(trap)
    }
}

impl From<p3l_base::NoMemory> for Stop {
    ghost use Rattle.std.specs.Prelude.{◌≡◌};
    ghost use Rattle.p3l_ast.specs.declared.meaning.stop.Stop.TheVariants.{NoMemory};

    ghost from_gives = { λ _ stop. stop ≡ NoMemory };

    fn from(_want: p3l_base::NoMemory) -> Stop {
        Stop::NoMemory
    }
}
