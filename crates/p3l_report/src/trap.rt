// The program's names for the kinds of traps.

ghost use Rattle.std.specs.Prelude.{◌≡◌};
ghost use Rattle.p3l_report.specs.Trap.{kind_text};

use p3l_base::TrapKind;

/// The words for a kind of trap.
pub fn kind_text(kind: TrapKind) -> &'static str
    ensures { result.now ≡ kind_text kind }
{
    match kind {
        TrapKind::DivZero => "division by zero",
        TrapKind::DivOver => "division overflow",
        TrapKind::Index => "index out of range",
        TrapKind::Shift => "shift out of range",
        TrapKind::Budget => "budget spent",
        TrapKind::Turns => "turns spent",
    }
}
