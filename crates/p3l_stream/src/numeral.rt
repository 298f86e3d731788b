// The numerals that bytes begin with.

ghost use Rattle.std.specs.Prelude.{◌≡◌, ◌^◌, ◌≤◌, ◌<◌, Ok, IfSome, true, length, take};
ghost use Rattle.std.specs.Char.{is_ascii_digit};
ghost use Rattle.std.specs.List.{list_all};
ghost use Rattle.std.specs.Str.Parse.{digits_value};
ghost use Rattle.p3l_stream.specs.Words.{number_of};

/// The most digits that are read: they write a number below 2^63.
const MOST_DIGITS: usize = 18;

/// A numeral that bytes begin with.
#[derive(Clone, Copy)]
pub(crate) struct Numeral {
    pub(crate) number: i64,
    pub(crate) len: usize,
}

/// The count of digits that come first, of which 18 are read at most, and the number they write.
fn front_digits(bytes: &[u8]) -> (usize, u64)
    ensures within { result.0 ≤ length bytes.now }
    ensures digits { list_all is_ascii_digit (take result.0 bytes.now) ≡ true }
    ensures value { result.1 ≡ digits_value 10 (take result.0 bytes.now) }
    ensures small { result.1 < 10 ^ 18 }
{
    let mut value = 0u64;
    let mut count = 0;
    while count < MOST_DIGITS && count < bytes.len() && bytes[count].is_ascii_digit() {
        value = value * 10 + u64::from(bytes[count] - b'0');
        count += 1;
    }
    (count, value)
}

/// The numeral that comes first, or as much of it as 18 digits have; none need be found.
pub(crate) fn front_numeral(bytes: &[u8]) -> Option<Numeral>
    ensures within { IfSome result (λ found. found.len ≤ length bytes.now) }
    ensures number { IfSome result (λ found. number_of (take found.len bytes.now) ≡ Ok found.number) }
{
    match bytes {
        [b'-', digits @ ..] => {
            let (count, value) = front_digits(digits);
            if count == 0 {
                return None;
            }
            Some(Numeral {
                number: -(value as i64),
                len: count + 1,
            })
        }
        digits => {
            let (count, value) = front_digits(digits);
            if count == 0 {
                return None;
            }
            Some(Numeral {
                number: value as i64,
                len: count,
            })
        }
    }
}
