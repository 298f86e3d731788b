// Positions in a text.

ghost use Rattle.std.specs.Prelude.{◌≡◌, ◌+◌, ◌<◌, ◌≤◌, ◌-◌, ◌^◌, List, ℕ, ◌++◌, length};
ghost use Rattle.p3l_lexer.specs.Position.{position_after, moved};

use p3l_ast::Pos;

/// The position of the first byte.
pub const START: Pos = Pos { line: 1, col: 1 };

/// The position after one byte more.
fn next(at: Pos, byte: u8) -> Pos
    requires line { at.line + 1 < 2 ^ 32 }
    requires col { at.col + 1 < 2 ^ 32 }
    ensures moved { result ≡ moved at byte }
    ensures line { result.line ≤ at.line + 1 }
    ensures col { result.col ≤ at.col + 1 }
{
    if byte == b'\n' {
        Pos {
            line: at.line + 1,
            col: 1,
        }
    } else {
        Pos {
            line: at.line,
            col: at.col + 1,
        }
    }
}

/// The position after more bytes.
pub fn advance(at: Pos, more: &[u8]) -> Pos
    requires line { at.line + length more.now < 2 ^ 32 }
    requires col { at.col + length more.now < 2 ^ 32 }
    ensures { (before : List ℕ) → at ≡ position_after before
        → result ≡ position_after (before ++ more.now) }
{
    let mut at = at;
    for byte in more {
        at = next(at, *byte);
    }
    at
}

/// The position after the last byte of a text.
pub fn end_of(text: &[u8]) -> Pos
    requires { length text.now < 2 ^ 32 - 1 }
    ensures { result ≡ position_after text.now }
{
    advance(START, text)
}
