// Files that are written whole, or left as they were.

use crate::inputs::{Inputs, id_of, is_stream};
use crate::retry::write_from;
use p3l_io::WriteFault;
use std::alloc::Global;
use std::fs::{File, Metadata, OpenOptions};
use std::io::{Error, ErrorKind};
use std::os::unix::fs::{MetadataExt, chown};
use std::path::PathBuf;
use std::{fs, io, rt};

/// The most links that are followed from a name.
const MOST_LINKS: u32 = 40;

/// The most names that are tried for a new file.
const MOST_NAMES: u32 = 10_000;

/// Writes a file, whose bytes are then these alone. A regular file, and one that isn't there, is
/// written as a new file beside it that takes its name once it is complete, so that any end before
/// then leaves the file as it was. One that was read, or that is the standard input or output, is not
/// written.
pub(crate) fn write_whole<R: rt::Files>(
    alloc: Global,
    rt: &R,
    inputs: &Inputs,
    name: &str,
    bytes: &[u8],
) -> Result<(), WriteFault> {
    match fs::metadata(rt, name) {
        Ok(old) if !old.is_file() => write_into(rt, name, bytes),
        Ok(old) if inputs.have(id_of(&old)) || is_stream(rt, id_of(&old)) => {
            Err(WriteFault::Failed)
        }
        Ok(old) => replace(alloc, rt, name, &old, bytes),
        Err(error) if error.kind() == ErrorKind::NotFound => {
            let place = end_of_links(alloc, rt, name).map_err(|error| fault_of(&error))?;
            put_new(alloc, rt, place.as_str(), None, bytes)
        }
        Err(error) => Err(fault_of(&error)),
    }
}

/// Tells why a file is not written, of an error of the system.
fn fault_of(error: &Error) -> WriteFault {
    match error.kind() {
        ErrorKind::OutOfMemory => WriteFault::NoMemory,
        _ => WriteFault::Failed,
    }
}

/// Writes the bytes into what has this name, as a device or a pipe.
fn write_into<R: rt::Files>(rt: &R, name: &str, bytes: &[u8]) -> Result<(), WriteFault> {
    let mut file = fs::create(rt, name).map_err(|error| fault_of(&error))?;
    write_from(&mut file, bytes).map_err(|_| WriteFault::Failed)
}

/// Writes a regular file that may be written. What has its name in another way than by links, as an
/// open file that was removed, is written in place.
fn replace<R: rt::Files>(
    alloc: Global,
    rt: &R,
    name: &str,
    old: &Metadata,
    bytes: &[u8],
) -> Result<(), WriteFault> {
    let _may_be_written = OpenOptions::new()
        .write(true)
        .open(rt, name)
        .map_err(|error| fault_of(&error))?;
    let place = end_of_links(alloc, rt, name).map_err(|error| fault_of(&error))?;
    match fs::symlink_metadata(rt, place.as_str()) {
        Ok(found) if id_of(&found) == id_of(old) => {
            put_new(alloc, rt, place.as_str(), Some(old), bytes)
        }
        _ => write_into(rt, name, bytes),
    }
}

/// Follows the links from a name to one that is no link.
fn end_of_links<R: rt::Files>(alloc: Global, rt: &R, name: &str) -> io::Result<PathBuf> {
    let mut place = PathBuf::from_str(alloc, name)?;
    for _ in 0..MOST_LINKS {
        match fs::symlink_metadata(rt, place.as_str()) {
            Ok(found) if found.is_symlink() => {
                let next = rt.read_link(alloc, place.as_str())?;
                place = place.with_file_name(alloc, next.as_str())?;
            }
            _ => return Ok(place),
        }
    }
    Err(Error::from(ErrorKind::Other))
}

/// Writes a new file and gives it this name, in the place of the old file if there is one. A new file
/// that can't be completed is removed.
fn put_new<R: rt::Files>(
    alloc: Global,
    rt: &R,
    place: &str,
    old: Option<&Metadata>,
    bytes: &[u8],
) -> Result<(), WriteFault> {
    let (name, mut file) = new_beside(alloc, rt, place).map_err(|error| fault_of(&error))?;
    let mut answer = write_from(&mut file, bytes).map_err(|_| WriteFault::Failed);
    drop(file);
    if answer.is_ok() {
        answer = take_place(rt, name.as_str(), place, old).map_err(|error| fault_of(&error));
    }
    if answer.is_err() {
        // it stays where this fails too
        let _ = fs::remove_file(rt, name.as_str());
    }
    answer
}

/// Makes a new file in the folder of another one, by a name that no file has.
fn new_beside<R: rt::Files>(alloc: Global, rt: &R, place: &str) -> io::Result<(PathBuf, R::File)> {
    let place = PathBuf::from_str(alloc, place)?;
    for number in 0..MOST_NAMES {
        let name = format!(in alloc; ".p3l-{number}.new")?;
        let name = place.with_file_name(alloc, name.as_str())?;
        match File::create_new(rt, name.as_str()) {
            Ok(file) => return Ok((name, file)),
            Err(error) if error.kind() == ErrorKind::AlreadyExists => {}
            Err(error) => return Err(error),
        }
    }
    Err(Error::from(ErrorKind::AlreadyExists))
}

/// Gives a new file the permissions and the name of the old one.
fn take_place<R: rt::Files>(
    rt: &R,
    new: &str,
    place: &str,
    old: Option<&Metadata>,
) -> io::Result<()> {
    if let Some(old) = old {
        // who may write a file need not be allowed to give one away
        let _ = chown(rt, new, Some(old.uid()), Some(old.gid()));
        fs::set_permissions(rt, new, old.permissions())?;
    }
    fs::rename(rt, new, place)
}
