// Who reads the messages: a person at a terminal, or a program.

use p3l_base::NoMemory;
use p3l_messages::{Failure, Style};
use std::io::ErrorKind;
use std::{env, fs};

/// Returns true exactly if the standard error is a terminal: its link leads to the device of one.
pub fn is_terminal(rt: &HostRuntime) -> bool {
    match fs::read_link(rt, "/proc/self/fd/2") {
        Ok(path) => {
            let path = path.as_str();
            path.starts_with("/dev/pts/") || path.starts_with("/dev/tty") || path == "/dev/console"
        }
        Err(_) => false,
    }
}

/// Returns true exactly if messages are long: as the variable `P3L_MESSAGES` says, or else at a
/// terminal.
pub fn wants_long(rt: &HostRuntime, is_terminal: bool) -> bool {
    match env::var(rt, "P3L_MESSAGES") {
        Ok(value) if value.as_str() == "long" => true,
        Ok(value) if value.as_str() == "short" => false,
        _ => is_terminal,
    }
}

/// Returns the style of places: in colour at a terminal, unless the variable `NO_COLOR` has a
/// value.
pub fn style_of(rt: &HostRuntime, is_terminal: bool) -> Style {
    let is_plain = match env::var(rt, "NO_COLOR") {
        Ok(value) => !value.as_str().is_empty(),
        Err(_) => false,
    };
    Style {
        has_color: is_terminal && !is_plain,
    }
}

/// Why a file could not be read.
pub fn failure_of(rt: &HostRuntime, name: &str) -> Result<Failure, NoMemory> {
    match fs::metadata(rt, name) {
        Ok(known) if known.is_dir() => return Ok(Failure::Folder),
        Ok(_) => {}
        Err(error) => return failure_by(error.kind()),
    }
    match fs::open(rt, name) {
        Ok(_) => Ok(Failure::Other),
        Err(error) => failure_by(error.kind()),
    }
}

/// The reason that the operating system names.
fn failure_by(kind: ErrorKind) -> Result<Failure, NoMemory> {
    match kind {
        ErrorKind::NotFound => Ok(Failure::Missing),
        ErrorKind::PermissionDenied => Ok(Failure::Forbidden),
        ErrorKind::OutOfMemory => Err(NoMemory),
        _ => Ok(Failure::Other),
    }
}
