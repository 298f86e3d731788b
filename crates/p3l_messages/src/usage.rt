// Messages on words that are no command.

ghost use Rattle.std.specs.Prelude.{OnErr};
ghost use Rattle.p3l_base.specs.Memory.{Refused};

use crate::page::{page_of_command, page_on, put_wrapped, title};
use crate::place::put_safely;
use p3l_base::NoMemory;
use p3l_opts::complaint_on;
use std::alloc::Global;

/// The greatest status that the program ends with.
const MOST_STATUS: u8 = 15;

/// The message on words that are no command: the list of commands, or what is wrong with the words of
/// one and how they are written. It is empty where there was no memory to find what is wrong.
pub(crate) fn usage(alloc: Global, words: &[&str]) -> Result<String, NoMemory>
    ensures { OnErr result Refused }
{
    let mut message = String::new(alloc);
    let Some(first) = words.first() else {
        put_commands(&mut message)?;
        return Ok(message);
    };
    if *first == "help" {
        put_no_page(alloc, &mut message, &words[1..])?;
        return Ok(message);
    }
    match page_of_command(first) {
        Some(page) => {
            let Ok(complaint) = complaint_on(alloc, words) else {
                return Ok(message);
            };
            if let Some(text) = complaint {
                put_lines(alloc, &mut message, sentence_of(text.as_str()))?;
            }
            message.push_str(title(page))?;
            message.push_str("\n")?;
        }
        None => put_no_command(alloc, &mut message, first)?,
    }
    Ok(message)
}

/// Adds that a word is no command, with the list of commands, or with how its page is requested if it
/// has one.
fn put_no_command(alloc: Global, message: &mut String, word: &str) -> Result<(), NoMemory>
    ensures { OnErr result Refused }
{
    message.push_str("error: '")?;
    put_safely(alloc, message, word.as_bytes())?;
    if page_on(word).is_none() {
        message.push_str("' is no command\n")?;
        return put_commands(message);
    }
    message.push_str("' is no command; its page is `p3l help ")?;
    put_safely(alloc, message, word.as_bytes())?;
    message.push_str("`\n")?;
    Ok(())
}

/// Adds that no page is on the words after `help`.
fn put_no_page(alloc: Global, message: &mut String, topics: &[&str]) -> Result<(), NoMemory>
    ensures { OnErr result Refused }
{
    let mut text = String::new(alloc);
    match topics {
        [topic] => match status_in(topic) {
            Some(status) => {
                let sentence = format!(in alloc;
                    "error: {status} is no refusal. What the status {status} means, `p3l help status` says."
                )?;
                text.push_str(sentence.as_str())?;
            }
            None => {
                text.push_str("error: no page '")?;
                put_safely(alloc, &mut text, topic.as_bytes())?;
                text.push_str(
                    "': help takes a command, a number of refusal, 'status' or 'language'",
                )?;
            }
        },
        _ => text.push_str(
            "error: help takes one word: a command, a number of refusal, 'status' or 'language'",
        )?,
    }
    put_wrapped(message, text.as_str())
}

/// The status of the program that a word is the number of, if it is one.
fn status_in(word: &str) -> Option<u8> {
    let status = word.parse::<u8>().ok()?;
    if status <= MOST_STATUS {
        Some(status)
    } else {
        None
    }
}

/// Adds the lines of a text, each in a form that can't steer a terminal.
fn put_lines(alloc: Global, message: &mut String, text: &str) -> Result<(), NoMemory>
    ensures { OnErr result Refused }
{
    for line in text.lines() {
        put_safely(alloc, message, line.as_bytes())?;
        message.push_str("\n")?;
    }
    Ok(())
}

/// Adds the list of commands.
fn put_commands(message: &mut String) -> Result<(), NoMemory>
    ensures { OnErr result Refused }
{
    message.push_str("commands:\n")?;
    message.push_str(commands())?;
    message.push_str("\n")?;
    Ok(())
}

/// The front of `clap`'s message, without the words that it adds to every one.
fn sentence_of(text: &str) -> &str {
    match text.split_once("\n\n") {
        Some((sentence, _)) => sentence,
        None => text.trim_end(),
    }
}

/// The list of commands, as the page of the program has it.
fn commands() -> &'static str {
    let Some(page) = page_on("help") else {
        return "";
    };
    match page.split_once("commands:\n") {
        Some((_, rest)) => match rest.split_once("\n\n") {
            Some((list, _)) => list,
            None => rest,
        },
        None => page,
    }
}
