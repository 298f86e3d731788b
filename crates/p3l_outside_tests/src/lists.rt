// Lists of what tests write out, words of a text, and what sources and files answer.

ghost use Rattle.std.specs.Prelude.{◌<◌, length};

use p3l_base::{List, Words};
use p3l_io::{FileFault, Files, Source};
use std::alloc::Global;
use std::test::Fail;

/// A list of these items.
pub(crate) fn list<T: Copy + Drop>(alloc: Global, items: &[T]) -> Result<List<T>, Fail> {
    Ok(List::from_vec(Vec::from_slice(alloc, items)?))
}

/// These words.
pub(crate) fn words_of(alloc: Global, words: &[i64]) -> Result<Words, Fail> {
    Ok(Words::from_vec(Vec::from_slice(alloc, words)?))
}

/// The words of a text that has a bar between two.
pub(crate) fn spelled_words<'a>(alloc: Global, text: &'a str) -> Result<Vec<&'a str>, Fail> {
    let mut words = Vec::new(alloc);
    for word in text.split('|') {
        words.push(word)?;
    }
    Ok(words)
}

/// Returns true exactly if a taking gives this number of bytes, or fails, and leaves the buffer so.
pub(crate) fn takes<S: Source>(
    source: &mut S,
    buf: &mut [u8],
    count: Option<usize>,
    left: &[u8],
) -> bool
    requires { 0 < length buf.old }
{
    source.take(buf).ok() == count && *buf == *left
}

/// Returns true exactly if a file is read as these bytes, or refused for this fault.
pub(crate) fn is_read<F: Files>(
    alloc: Global,
    files: &mut F,
    name: &str,
    limit: u64,
    answer: Result<&[u8], FileFault>,
) -> bool {
    match files.read(alloc, name, limit) {
        Ok(bytes) => matches!(answer, Ok(expected) if bytes.as_slice() == expected),
        Err(fault) => matches!(answer, Err(expected) if fault == expected),
    }
}
