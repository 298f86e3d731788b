// The sum of words.

ghost use Rattle.std.specs.Int.{int_wrap, w64};
ghost use Rattle.std.specs.Prelude.{◌≡◌, ◌+ℤ◌};
ghost use Rattle.p3l_run.specs.Sum.{add_words};

use p3l_base::Words;

/// A sum with one word added to it, which wraps at 64 bits.
fn add_word(sum: i64, word: i64) -> i64
    ensures { result ≡ int_wrap w64 (sum +ℤ word) }
{
    sum.wrapping_add(word)
}

/// A sum with these words added to it.
pub(crate) fn add_words(sum: i64, words: &Words) -> i64
    ensures { result ≡ add_words sum words.now }
{
    let mut total = sum;
    for word in words.as_slice() {
        total = add_word(total, *word);
    }
    total
}
