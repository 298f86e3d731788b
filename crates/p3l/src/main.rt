//! Compiles P3L programs to networks of processes, and runs them on streams.
#![tactic(auto)]

ghost use Rattle.std.specs.Prelude.{◌≡◌};
ghost use Rattle.std.specs.Process.{exit_status};

mod person;

use p3l_base::NoMemory;
use p3l_help::all_pages;
use p3l_host::{HostErr, HostFiles, HostIn, HostOut, Output, SinkAfter, SourceAfter};
use p3l_io::{Files, Sink};
use p3l_messages::{Answer, KeptFiles, Screen, Style, message_on};
use p3l_program::top::top;
use p3l_report::{Status, Verdict, put_no_memory, put_report, report_of};
use person::{failure_of, is_terminal, style_of, wants_long};
use std::env;
use std::io::{ErrorKind, Write};
use std::process::ExitCode;

/// Returns the words of the command line, the program's own name first. If one of them is not
/// UTF-8, it returns no words, and no words are no command.
fn words_of(rt: &HostRuntime) -> Result<Vec<String>, NoMemory> {
    match env::args(rt) {
        Ok(args) => Ok(args.collect(rt.alloc())?),
        Err(error) if error.kind() == ErrorKind::OutOfMemory => Err(NoMemory),
        Err(_) => Ok(Vec::new(rt.alloc())),
    }
}

/// The status of what put its results on the output, once they are all written. A failed write is a
/// write fault in its place.
fn finish<W: Write + Drop>(rt: &HostRuntime, output: &Output<W>, status: Status) -> Status {
    match output.flush() {
        Ok(()) => status,
        Err(_) => put_verdict(rt, &Verdict::WriteFault),
    }
}

/// Writes a text on the standard output.
fn show(rt: &HostRuntime, text: &str) -> Result<Status, NoMemory> {
    let output = Output::new(rt.alloc(), rt.stdout())?;
    // a fault stays with the output, and is reported at the end
    let _ = output.put(text.as_bytes());
    Ok(finish(rt, &output, Status(0)))
}

/// Puts the lines of a verdict on the standard error.
fn put_verdict(rt: &HostRuntime, verdict: &Verdict) -> Status {
    let mut err = HostErr::new(rt.stderr());
    match report_of(rt.alloc(), verdict) {
        Ok(report) => {
            put_report(&mut err, &report);
            verdict.status()
        }
        Err(NoMemory) => {
            put_no_memory(&mut err);
            Verdict::NoMemory.status()
        }
    }
}

/// Reads the words of the command line and does what they say.
fn start(rt: &HostRuntime) -> Result<Status, NoMemory> {
    let all = words_of(rt)?;
    let mut words: Vec<&str> = Vec::new(rt.alloc());
    for word in all.iter().skip(1) {
        words.push(word.as_str())?;
    }
    answer(rt, words.as_slice())
}

/// Shows the page that the words request, or else runs the program.
fn answer(rt: &HostRuntime, words: &[&str]) -> Result<Status, NoMemory> {
    match all_pages().answer(words) {
        Some(text) => show(rt, text),
        None => run(rt, words),
    }
}

/// Runs the program with the real files and streams. Its output is gathered, and written before the
/// program waits for input, before a file is written, before a line of the standard error, and at the
/// end. A person gets a longer message after it.
fn run(rt: &HostRuntime, words: &[&str]) -> Result<Status, NoMemory> {
    let alloc = rt.alloc();
    let is_terminal = is_terminal(rt);
    let output = Output::new(alloc, rt.stdout())?;
    let mut files = KeptFiles::new(alloc, HostFiles::new(rt, &output));
    let mut input = SourceAfter::new(HostIn::new(rt.stdin()), &output);
    let mut out = HostOut::new(&output);
    let screen = Screen::new(alloc, HostErr::new(rt.stderr()), is_terminal);
    let mut err = SinkAfter::new(screen, &output);
    let status = top(alloc, words, &mut files, &mut input, &mut out, &mut err);
    let status = finish(rt, &output, status);
    if status.0 != 0 && wants_long(rt, is_terminal) {
        let style = style_of(rt, is_terminal);
        let has_lost_output = output.flush().is_err();
        let line = err.sink().heard();
        // a message that memory runs out for is left out, and changes no status
        let _ = explain(rt, words, status, style, &files, line, has_lost_output);
    }
    Ok(status)
}

/// Puts the message on an answer on the standard error: on the last line that `top` put, and on
/// whether the standard output could not be written. One that can't be made is left out.
fn explain<F: Files>(
    rt: &HostRuntime,
    words: &[&str],
    status: Status,
    style: Style,
    files: &KeptFiles<F>,
    line: &[u8],
    has_lost_output: bool,
) -> Result<(), NoMemory> {
    let line = String::from_utf8_lossy(rt.alloc(), line)?;
    let failure = match files.failed() {
        Some(name) => Some(failure_of(rt, name)?),
        None => None,
    };
    let answer = Answer {
        words,
        status,
        line: line.as_str(),
        failure,
        has_lost_output,
        style,
    };
    let text = message_on(rt.alloc(), &answer, files)?;
    let mut err = HostErr::new(rt.stderr());
    let _ = err.put(text.as_str().as_bytes());
    Ok(())
}

/// The exit code of a status.
fn exit_of(status: Status) -> ExitCode
    ensures { exit_status result ≡ status.0 }
{
    ExitCode::from(status.0)
}

/// The status of the program; where there was no memory for its words, it says so.
fn main(rt: HostRuntime) -> ExitCode {
    match start(&rt) {
        Ok(status) => exit_of(status),
        Err(NoMemory) => exit_of(put_verdict(&rt, &Verdict::NoMemory)),
    }
}
