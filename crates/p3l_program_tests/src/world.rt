// Transcripts: commands over objects in memory, what they are called with and what they must end with.
//
// A transcript is sections. A section has a title behind `= `, the lines that all its blocks begin with,
// and these blocks, with an empty line before each. A block begins anew, with no file that isn't said,
// and has lines of these forms in this order:
//
//     # what a reader should know
//     fails take 3          the third taking of the input fails in each step
//     fails file 2          the second call of the files fails, counted over all steps
//     fails put 1 after 4   the first put of the output fails, after four of its bytes
//     fails say 1 after 0   the same of the lines of standard error
//     file NAME             a file, of which each line stands behind `| `
//     file NAME = TEXT      a file that holds the text of this name in `texts`
//     $ run m.p3l           a step: its words, with a blank between two
//     < 1                   its input, a line behind each `<`; or `<= TEXT`, the text of a name
//     > 3                   its output, in the same way
//     ! stats: items 1      its lines
//     ? 7                   its status, where that is not 0
//     leaves NAME           a file that is there after all steps, said as by `file`
//     none NAME             a name that no file has after all steps
//
// `texts` says how lines spell bytes.

use crate::texts::{first_line, spelled, text_of};
use p3l_base::List;
use p3l_io::{MemFiles, MemSink, MemSource, PutFail};
use p3l_program::top::top;
use std::alloc::Global;
use std::process::Abort;
use std::test::Fail;

/// Ends of commands: the status, the number of calls that took from the input, the output and the
/// lines.
#[derive(Drop)]
pub struct Ended {
    pub status: u8,
    pub calls: u64,
    pub output: Vec<u8>,
    pub lines: Vec<u8>,
}

/// The number that a word spells.
fn number(word: &str) -> Result<u64, Fail> {
    Ok(word.parse::<u64>().map_err(|_| "no number")?)
}

/// The numbers behind a mark at the beginnings of lines.
fn numbers(alloc: Global, head: &str, mark: &str) -> Result<List<u64>, Fail> {
    let mut all = List::new(alloc);
    for line in head.lines() {
        if let Some(word) = line.strip_prefix(mark) {
            all.push(number(word)?)?;
        }
    }
    Ok(all)
}

/// The put that fails, and how many bytes of it are taken, as `1 after 0`.
fn put_of(words: &str) -> Result<PutFail, Fail> {
    let (call, prefix) = words.split_once(" after ").ok_or("no prefix")?;
    Ok(PutFail {
        call: number(call)?,
        prefix: prefix.parse::<usize>().map_err(|_| "no number")?,
    })
}

/// The puts that fail, behind a mark at the beginnings of lines.
fn puts(alloc: Global, head: &str, mark: &str) -> Result<List<PutFail>, Fail> {
    let mut all = List::new(alloc);
    for line in head.lines() {
        if let Some(words) = line.strip_prefix(mark) {
            all.push(put_of(words)?)?;
        }
    }
    Ok(all)
}

/// Returns what a step takes or gives behind a mark: the text of a name, or what its lines spell.
fn stream(alloc: Global, step: &str, named: &str, mark: char) -> Result<Vec<u8>, Fail> {
    match step.split_once(named) {
        None => spelled(alloc, step, mark),
        Some((_, rest)) => text_of(alloc, first_line(rest)),
    }
}

/// The input of a step, which gives a byte at a time, and of which the takings fail that the head says.
fn source_of(alloc: Global, step: &str, head: &str) -> Result<MemSource, Fail> {
    let bytes = stream(alloc, step, "\n<= ", '<')?;
    let fails = numbers(alloc, head, "fails take ")?;
    Ok(MemSource::new(List::from_vec(bytes), 1, fails))
}

/// Room for an output, of which the puts behind this mark fail.
fn sink_of(alloc: Global, head: &str, mark: &str) -> Result<MemSink, Fail> {
    Ok(MemSink::new(alloc, 65_536, puts(alloc, head, mark)?)?)
}

/// The words of a line that has a blank between two.
fn words_of<'a>(alloc: Global, line: &'a str) -> Result<Vec<&'a str>, Fail> {
    let mut words = Vec::new(alloc);
    for word in line.split(' ') {
        words.push(word)?;
    }
    Ok(words)
}

/// Returns what was given and said.
fn what_came(
    alloc: Global,
    status: u8,
    calls: u64,
    output: &[u8],
    lines: &[u8],
) -> Result<Ended, Fail> {
    Ok(Ended {
        status,
        calls,
        output: Vec::from_slice(alloc, output)?,
        lines: Vec::from_slice(alloc, lines)?,
    })
}

/// Does what words request, where the calls fail that a head says.
pub fn give(
    alloc: Global,
    words: &[&str],
    input: &mut MemSource,
    head: &str,
    files: &mut MemFiles,
) -> Result<Ended, Fail> {
    let mut out = sink_of(alloc, head, "fails put ")?;
    let mut err = sink_of(alloc, head, "fails say ")?;
    let answer = top(alloc, words, files, input, &mut out, &mut err);
    what_came(alloc, answer.0, input.calls(), out.taken(), err.taken())
}

/// Does what the words of a step request, where the calls fail that a head says.
pub fn perform(alloc: Global, head: &str, step: &str, files: &mut MemFiles) -> Result<Ended, Fail> {
    let words = words_of(alloc, first_line(step))?;
    let mut input = source_of(alloc, step, head)?;
    give(alloc, words.as_slice(), &mut input, head, files)
}

/// The status of a step, which is 0 where it says none.
fn status_of(step: &str) -> Result<u8, Fail> {
    match step.split_once("\n? ") {
        None => Ok(0),
        Some((_, rest)) => Ok(first_line(rest).parse::<u8>().map_err(|_| "no status")?),
    }
}

/// The bytes that came of a step must be those that it says.
fn see_bytes(rt: &impl Abort, step: &str, came: &[u8], said: &[u8]) {
    let words = first_line(step);
    assert_eq!(rt; came, said, "{words}");
}

/// The status that came of a step must be the one that it says.
fn see_status(rt: &impl Abort, step: &str, came: u8) -> Result<(), Fail> {
    let words = first_line(step);
    let said = status_of(step)?;
    assert_eq!(rt; came, said, "{words}");
    Ok(())
}

/// Compares the status, the output and the lines with those that the step says.
pub fn compare(rt: &impl Abort, alloc: Global, step: &str, ended: &Ended) -> Result<(), Fail> {
    see_status(rt, step, ended.status)?;
    let output = stream(alloc, step, "\n>= ", '>')?;
    see_bytes(rt, step, ended.output.as_slice(), output.as_slice());
    let lines = spelled(alloc, step, '!')?;
    see_bytes(rt, step, ended.lines.as_slice(), lines.as_slice());
    Ok(())
}

/// Takes a step where the calls fail that a head says.
fn take_where(
    rt: &impl Abort,
    alloc: Global,
    head: &str,
    step: &str,
    files: &mut MemFiles,
) -> Result<(), Fail> {
    let ended = perform(alloc, head, step, files)?;
    compare(rt, alloc, step, &ended)
}

/// The name that the first line of a file has.
fn name_of(part: &str) -> &str {
    let line = first_line(part);
    match line.split_once(" = ") {
        None => line,
        Some((name, _)) => name,
    }
}

/// Returns what a file holds: the text of the name in its first line, or what its lines spell.
fn held_by(alloc: Global, part: &str) -> Result<Vec<u8>, Fail> {
    match first_line(part).split_once(" = ") {
        None => spelled(alloc, part, '|'),
        Some((_, name)) => text_of(alloc, name),
    }
}

/// Adds a file that a head says.
fn add_file(alloc: Global, files: &mut MemFiles, part: &str) -> Result<(), Fail> {
    let bytes = held_by(alloc, part)?;
    Ok(files.add(name_of(part), bytes.as_slice())?)
}

/// Files that hold what a head says, of which the calls fail that it says.
pub fn files_of(alloc: Global, head: &str) -> Result<MemFiles, Fail> {
    let mut files = MemFiles::new(alloc, numbers(alloc, head, "fails file ")?);
    if let Some((_, parts)) = head.split_once("\nfile ") {
        for part in parts.split("\nfile ") {
            add_file(alloc, &mut files, part)?;
        }
    }
    Ok(files)
}

/// Returns true exactly if the files hold these bytes under the name.
pub fn holds(files: &MemFiles, name: &str, bytes: &[u8]) -> bool {
    match files.get(name) {
        None => false,
        Some(held) => held == bytes,
    }
}

/// A file that is left holds what the block says.
fn see_file(rt: &impl Abort, alloc: Global, files: &MemFiles, part: &str) -> Result<(), Fail> {
    let name = name_of(part);
    let bytes = held_by(alloc, part)?;
    assert!(rt; holds(files, name, bytes.as_slice()), "{name}");
    Ok(())
}

/// Each file that is left holds what the block says.
fn see_left(rt: &impl Abort, alloc: Global, block: &str, files: &MemFiles) -> Result<(), Fail> {
    if let Some((_, parts)) = block.split_once("\nleaves ") {
        for part in parts.split("\nleaves ") {
            see_file(rt, alloc, files, part)?;
        }
    }
    Ok(())
}

/// No file has a name that the block says is left out.
fn see_none(rt: &impl Abort, block: &str, files: &MemFiles) {
    for line in block.lines() {
        if let Some(name) = line.strip_prefix("none ") {
            assert!(rt; files.get(name).is_none(), "{name}");
        }
    }
}

/// Takes the steps one after another.
fn take_steps(
    rt: &impl Abort,
    alloc: Global,
    head: &str,
    steps: &str,
    files: &mut MemFiles,
) -> Result<(), Fail> {
    for step in steps.split("\n$ ") {
        take_where(rt, alloc, head, step, files)?;
    }
    Ok(())
}

/// Takes steps, which have a line feed, `$` and a blank between two: does what the words of each request,
/// and compares what comes of it.
pub fn take(rt: &impl Abort, alloc: Global, steps: &str, files: &mut MemFiles) -> Result<(), Fail> {
    take_steps(rt, alloc, "", steps, files)
}

/// Returns what steps leave in the file of a name, with files that hold what a head says.
pub fn left_by(
    rt: &impl Abort,
    alloc: Global,
    head: &str,
    steps: &str,
    name: &str,
) -> Result<Vec<u8>, Fail> {
    let mut files = files_of(alloc, head)?;
    take(rt, alloc, steps, &mut files)?;
    match files.get(name) {
        None => Err("nothing is left".into()),
        Some(bytes) => Ok(Vec::from_slice(alloc, bytes)?),
    }
}

/// Takes steps on files that hold what a head says, and one more of this name and these bytes.
pub fn take_with_file(
    rt: &impl Abort,
    alloc: Global,
    head: &str,
    name: &str,
    bytes: &[u8],
    steps: &str,
) -> Result<(), Fail> {
    let mut files = files_of(alloc, head)?;
    files.add(name, bytes)?;
    take(rt, alloc, steps, &mut files)
}

/// Takes the steps of a block, and looks at the files that they leave.
pub fn take_block(rt: &impl Abort, alloc: Global, block: &str) -> Result<(), Fail> {
    let (head, steps) = block.split_once("\n$ ").ok_or("no words")?;
    let mut files = files_of(alloc, head)?;
    take_steps(rt, alloc, head, steps, &mut files)?;
    see_none(rt, block, &files);
    see_left(rt, alloc, block, &files)
}

/// Beginnings of the lines of a transcript.
const MARKS: &[&str] = &[
    "= ", "#", "|", "file ", "fails ", "none ", "leaves ", "$ ", "<", ">", "!", "? ",
];

/// Returns true exactly if the line is empty or begins as those of transcripts do.
fn is_known(line: &str) -> bool {
    for mark in MARKS {
        if line.starts_with(*mark) {
            return true;
        }
    }
    line.is_empty()
}

/// No line begins otherwise, so that none is passed over.
fn see_marks(rt: &impl Abort, transcript: &str) {
    for line in transcript.lines() {
        assert!(rt; is_known(line), "{line}");
    }
}

/// Takes a block with what is common to it and others.
fn take_with(rt: &impl Abort, alloc: Global, common: &str, block: &str) -> Result<(), Fail> {
    let whole = format!(in alloc; "\n# {common}\n{block}")?;
    take_block(rt, alloc, whole.as_str())
}

/// Takes each block of a section.
fn take_section(rt: &impl Abort, alloc: Global, section: &str) -> Result<(), Fail> {
    let (common, blocks) = section.split_once("\n\n").ok_or("no block")?;
    for block in blocks.split("\n\n") {
        take_with(rt, alloc, common, block)?;
    }
    Ok(())
}

/// Takes each section of a transcript.
pub fn play(rt: &impl Abort, alloc: Global, transcript: &str) -> Result<(), Fail> {
    see_marks(rt, transcript);
    let (_, sections) = transcript.split_once("\n= ").ok_or("no section")?;
    for section in sections.split("\n= ") {
        take_section(rt, alloc, section)?;
    }
    Ok(())
}
