// Classes of bytes.

ghost use Rattle.std.specs.Prelude.{◌≡◌};
ghost use Rattle.p3l_lexer.specs.Piece.{is_blank, is_digit, is_letter, is_word_byte};

/// True if a byte separates tokens.
pub fn blank(byte: u8) -> bool
    ensures { result ≡ is_blank byte }
{
    byte == b' ' || byte == b'\t' || byte == b'\r' || byte == b'\n'
}

/// True if a byte is a decimal digit.
pub fn digit(byte: u8) -> bool
    ensures { result ≡ is_digit byte }
{
    b'0' <= byte && byte <= b'9'
}

/// True if a byte is a letter or `_`.
pub fn letter(byte: u8) -> bool
    ensures { result ≡ is_letter byte }
{
    byte == b'_' || b'a' <= byte && byte <= b'z' || b'A' <= byte && byte <= b'Z'
}

/// True if a byte may be in a word or a number.
pub fn word_byte(byte: u8) -> bool
    ensures { result ≡ is_word_byte byte }
{
    letter(byte) || digit(byte)
}
