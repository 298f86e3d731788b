// The pages of numbers of refusal, as far as a message has them.

ghost use Rattle.std.specs.Prelude.{OnErr};
ghost use Rattle.p3l_base.specs.Memory.{Refused};

use p3l_base::NoMemory;
use p3l_help::all_pages;

/// The most columns of a line of a message that is text.
const COLUMNS: usize = 80;

/// The text of the page on a topic, if there is one.
pub(crate) fn page_on(topic: &str) -> Option<&'static str> {
    all_pages().answer(&["help", topic])
}

/// The text of the page on a command, if the word is one.
pub(crate) fn page_of_command(word: &str) -> Option<&'static str> {
    if all_pages().is_command(word) {
        page_on(word)
    } else {
        None
    }
}

/// The part of a page below its title, up to the end of the first sentence.
pub(crate) fn first_sentence(page: &'static str) -> &'static str {
    let body = after_title(page);
    let end = match (body.find(". "), body.find(".\n")) {
        (Some(a), Some(b)) => a.min(b) + 1,
        (Some(a), None) => a + 1,
        (None, Some(b)) => b + 1,
        (None, None) => body.len(),
    };
    match body.get(..end) {
        Some(sentence) => sentence,
        None => body,
    }
}

/// The part of a page below its first empty line.
fn after_title(page: &'static str) -> &'static str {
    match page.split_once("\n\n") {
        Some((_, body)) => body,
        None => page,
    }
}

/// The part of a page above its first empty line.
pub(crate) fn title(page: &'static str) -> &'static str {
    match page.split_once("\n\n") {
        Some((title, _)) => title,
        None => page,
    }
}

/// Adds a text as lines of at most so many columns, cut between words.
pub(crate) fn put_wrapped(message: &mut String, text: &str) -> Result<(), NoMemory>
    ensures { OnErr result Refused }
{
    let mut column: usize = 0;
    for word in text.split_ascii_whitespace() {
        let end = column.saturating_add(1).saturating_add(word.len());
        if column > 0 && end <= COLUMNS {
            message.push_str(" ")?;
            column = end;
        } else {
            if column > 0 {
                message.push_str("\n")?;
            }
            column = word.len();
        }
        message.push_str(word)?;
    }
    message.push_str("\n")?;
    Ok(())
}
