// The message after the line that the program answers with.

ghost use Rattle.std.specs.Prelude.{OnErr};
ghost use Rattle.p3l_base.specs.Memory.{Refused};

use crate::costs::{put_key, put_no_document};
use crate::failure::Failure;
use crate::heard::{after_name, item_in, number_in};
use crate::kept::KeptFiles;
use crate::page::{first_sentence, page_on, put_wrapped};
use crate::place::{Style, put_safely};
use crate::program::put_refusal;
use crate::usage::usage;
use p3l_ast::{Program, SourceRefusal};
use p3l_base::NoMemory;
use p3l_check::resolve;
use p3l_io::Files;
use p3l_reader::read;
use p3l_report::Status;
use std::alloc::Global;

/// The message on too few processors.
const TOO_FEW: &str = "At least this many processors are needed. A farm or a map takes two beside \
    its workers.";

/// The message on an output that could not be written.
const LOST_OUTPUT: &str = "The standard output was closed, or its disk is full.";

/// The message on a file that could not be written, below its name.
const UNWRITTEN: &str = "It may be a folder, be in one that isn't there, be an input of this \
    command, or be on a full disk.";

/// The parts that a message is made of.
#[derive(Drop)]
pub struct Answer<'a> {
    /// The words of the command line, without the program's name.
    pub words: &'a [&'a str],
    /// The status that the program ends with.
    pub status: Status,
    /// The line that it answered with.
    pub line: &'a str,
    /// Why the last file could not be read, where one could not.
    pub failure: Option<Failure>,
    /// True if the standard output could not be written.
    pub has_lost_output: bool,
    pub style: Style,
}

/// The message after an answer: the place that it speaks of, what it means, and where more is said.
/// It is empty where the line says all, and where memory ran out for what it would be made of.
pub fn message_on<F: Files>(
    alloc: Global,
    answer: &Answer,
    files: &KeptFiles<F>,
) -> Result<String, NoMemory>
    ensures { OnErr result Refused }
{
    if files.lacks() {
        return Ok(String::new(alloc));
    }
    if answer.status.0 == 10 {
        return unwritten(alloc, answer, files);
    }
    if answer.line.is_empty() {
        return Ok(String::new(alloc));
    }
    match answer.status.0 {
        2 => usage(alloc, answer.words),
        5 => sentence(alloc, TOO_FEW),
        7 => trapped(alloc, answer),
        9 => unreadable(alloc, answer, files),
        3 | 4 | 6 | 12 | 13 | 15 => numbered(alloc, answer, files),
        _ => Ok(String::new(alloc)),
    }
}

/// A message of one sentence or two.
fn sentence(alloc: Global, text: &str) -> Result<String, NoMemory>
    ensures { OnErr result Refused }
{
    let mut message = String::new(alloc);
    put_wrapped(&mut message, text)?;
    Ok(message)
}

/// The message on an item that trapped. The items of `gen` are on no line, and those of `resume` are
/// counted from the first of another input.
fn trapped(alloc: Global, answer: &Answer) -> Result<String, NoMemory>
    ensures { OnErr result Refused }
{
    let has_lines = match answer.words.first() {
        Some(command) => *command != "gen" && *command != "resume",
        None => false,
    };
    match item_in(answer.line) {
        Some(item) if has_lines => {
            let text = format!(in alloc;
                "Item {item} is a line with words; `p3l help status` shows how to find it."
            )?;
            sentence(alloc, text.as_str())
        }
        _ => Ok(String::new(alloc)),
    }
}

/// The message on the standard output, or else a file, that could not be written.
fn unwritten<F: Files>(
    alloc: Global,
    answer: &Answer,
    files: &KeptFiles<F>,
) -> Result<String, NoMemory>
    ensures { OnErr result Refused }
{
    if answer.has_lost_output {
        return sentence(alloc, LOST_OUTPUT);
    }
    let mut message = String::new(alloc);
    if let Some(name) = files.unwritten() {
        put_safely(alloc, &mut message, name.as_bytes())?;
        message.push_str(" can't be written.\n")?;
        put_wrapped(&mut message, UNWRITTEN)?;
    }
    Ok(message)
}

/// The message on a file that could not be read.
fn unreadable<F: Files>(
    alloc: Global,
    answer: &Answer,
    files: &KeptFiles<F>,
) -> Result<String, NoMemory>
    ensures { OnErr result Refused }
{
    match (files.failed(), answer.failure) {
        (Some(_), Some(failure)) => sentence(alloc, failure.sentence()),
        (Some(_), None) => sentence(alloc, Failure::Other.sentence()),
        (None, _) => sentence(alloc, "Files of this kind may not be so long."),
    }
}

/// The message on a line with a number of refusal.
fn numbered<F: Files>(
    alloc: Global,
    answer: &Answer,
    files: &KeptFiles<F>,
) -> Result<String, NoMemory>
    ensures { OnErr result Refused }
{
    let mut message = String::new(alloc);
    let Some(number) = number_in(answer.line) else {
        return Ok(message);
    };
    let Some(page) = page_on(number) else {
        return Ok(message);
    };
    let mut text = String::new(alloc);
    let mut says_all = false;
    match answer.status.0 {
        3 => says_all = put_source(alloc, &mut message, &mut text, answer, files, number)?,
        4 => {
            if !put_costs(alloc, &mut message, answer, files)? {
                return Ok(message);
            }
        }
        6 => {
            if !put_width(alloc, &mut text, answer, files)? {
                return Ok(message);
            }
        }
        _ => {}
    }
    if !says_all {
        text.push_str(first_sentence(page))?;
    }
    put_wrapped(&mut message, text.as_str())?;
    message.push_str("More: p3l help ")?;
    message.push_str(number)?;
    message.push_str("\n")?;
    Ok(message)
}

/// Adds the place of a refusal in the text of the program, if the text was kept. It gives true where
/// the page of the refusal would only repeat what is added.
fn put_source<F: Files>(
    alloc: Global,
    message: &mut String,
    about: &mut String,
    answer: &Answer,
    files: &KeptFiles<F>,
    number: &str,
) -> Result<bool, NoMemory>
    ensures { OnErr result Refused }
{
    match program_in(answer, files) {
        Some((name, text)) => put_refusal(
            alloc,
            message,
            about,
            answer.style,
            name,
            text,
            answer.line,
            number,
        ),
        None => Ok(false),
    }
}

/// The name and the text of the program's file, if the text was kept.
fn program_in<'a, F: Files>(
    answer: &Answer<'a>,
    files: &'a KeptFiles<F>,
) -> Option<(&'a str, &'a [u8])> {
    let name = program_of(answer.words)?;
    Some((name, files.text_of(name)?))
}

/// Adds the line that a file of costs is refused at, if the file was kept. It gives false where memory
/// ran out before the line was known.
fn put_costs<F: Files>(
    alloc: Global,
    message: &mut String,
    answer: &Answer,
    files: &KeptFiles<F>,
) -> Result<bool, NoMemory>
    ensures { OnErr result Refused }
{
    let Some(name) = value_of(answer.words, "--costs") else {
        return Ok(true);
    };
    let Some(text) = files.text_of(name) else {
        return Ok(true);
    };
    match after_name(answer.line) {
        Some(key) => {
            put_key(alloc, message, answer.style, name, text, key)?;
            Ok(true)
        }
        None => put_no_document(alloc, message, answer.style, name, text),
    }
}

/// The number of words of an item of a program.
enum Width {
    Words(u32),
    /// The program is not accepted, or its text was not kept.
    Unknown,
    /// Out of memory.
    NoMemory,
}

/// Adds how many words an item of the program has, if its text was kept. It gives false where memory
/// ran out before that was known.
fn put_width<F: Files>(
    alloc: Global,
    message: &mut String,
    answer: &Answer,
    files: &KeptFiles<F>,
) -> Result<bool, NoMemory>
    ensures { OnErr result Refused }
{
    match width_in(alloc, answer, files) {
        Width::Words(1) => message.push_str("An item of this program is one word. ")?,
        Width::Words(width) => {
            let text = format!(in alloc; "An item of this program has {width} words. ")?;
            message.push_str(text.as_str())?;
        }
        Width::Unknown => {}
        Width::NoMemory => return Ok(false),
    }
    Ok(true)
}

/// The number of words of an item of the program that the answer is about.
fn width_in<F: Files>(alloc: Global, answer: &Answer, files: &KeptFiles<F>) -> Width {
    match program_in(answer, files) {
        Some((_, text)) => match read(alloc, text) {
            Ok(program) => width_of(alloc, &program),
            Err(refusal) => width_on(refusal),
        },
        None => Width::Unknown,
    }
}

/// The number of words of an item of a program.
fn width_of(alloc: Global, program: &Program) -> Width {
    match resolve(alloc, program) {
        Ok(resolved) => match resolved.tree.node(0) {
            Some(root) => Width::Words(root.ins),
            None => Width::Unknown,
        },
        Err(refusal) => width_on(refusal),
    }
}

/// Returns what is known of an item of a program that is refused.
fn width_on(refusal: SourceRefusal) -> Width {
    match refusal {
        SourceRefusal::At { .. } => Width::Unknown,
        SourceRefusal::NoMemory => Width::NoMemory,
    }
}

/// The name of the program's file: the first word after the command's that is neither an option nor
/// an option's value.
fn program_of<'a>(words: &'a [&'a str]) -> Option<&'a str> {
    let mut is_value = false;
    for word in words.iter().skip(1) {
        if is_value {
            is_value = false;
        } else if word.starts_with("--") {
            is_value = *word != "--stats" && !word.contains('=') && *word != "--";
        } else {
            return Some(word);
        }
    }
    None
}

/// The value of an option, as one word with it or as the next.
fn value_of<'a>(words: &'a [&'a str], option: &str) -> Option<&'a str> {
    let mut is_next = false;
    for word in words.iter() {
        if is_next {
            return Some(word);
        }
        if *word == option {
            is_next = true;
        } else if let Some(rest) = word.strip_prefix(option) {
            if let Some(value) = rest.strip_prefix("=") {
                return Some(value);
            }
        }
    }
    None
}
