// The line that the program has answered with, taken apart.

/// The number of refusal in a line: the first word of digits before a word that begins with a capital.
pub(crate) fn number_in(line: &str) -> Option<&str> {
    let place = place_of_name(line)?;
    let mut at: u64 = 0;
    for word in line.split_ascii_whitespace() {
        at = at.saturating_add(1);
        if at == place {
            return Some(word);
        }
    }
    None
}

/// Counts the words before the first that begins with a capital and follows a number.
fn place_of_name(line: &str) -> Option<u64> {
    let mut at: u64 = 0;
    let mut follows_number = false;
    for word in line.split_ascii_whitespace() {
        if follows_number && begins_with_capital(word) {
            return Some(at);
        }
        at = at.saturating_add(1);
        follows_number = is_number(word);
    }
    None
}

/// The line and the column that a line begins with, after its first word.
pub(crate) fn place_in(line: &str) -> Option<(u32, u32)> {
    let (_, rest) = line.split_once(" ")?;
    let (row, rest) = rest.split_once(":")?;
    let (column, _) = rest.split_once(":")?;
    Some((row.parse::<u32>().ok()?, column.parse::<u32>().ok()?))
}

/// The words behind a number of refusal and its name.
pub(crate) fn after_name(line: &str) -> Option<&str> {
    let (_, rest) = line.split_once(" ")?;
    let (_, rest) = rest.split_once(" ")?;
    let (_, rest) = rest.split_once(" ")?;
    Some(rest.trim_end())
}

/// The number of the item that a line is about.
pub(crate) fn item_in(line: &str) -> Option<&str> {
    let (_, rest) = line.split_once("item ")?;
    let (item, _) = rest.split_once(":")?;
    Some(item)
}

/// Returns true exactly if a word is made of digits.
fn is_number(word: &str) -> bool {
    !word.is_empty() && word.as_bytes().iter().all(|byte| byte.is_ascii_digit())
}

/// Returns true exactly if a word begins with a capital letter.
fn begins_with_capital(word: &str) -> bool {
    match word.as_bytes().first() {
        Some(byte) => byte.is_ascii_uppercase(),
        None => false,
    }
}
