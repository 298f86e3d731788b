// The files that were read, by what tells one file from another.

ghost use Rattle.std.specs.Prelude.{OnErr};
ghost use Rattle.p3l_base.specs.Memory.{Refused};

use p3l_base::{List, NoMemory};
use std::alloc::Global;
use std::fs::Metadata;
use std::os::unix::fs::MetadataExt;
use std::{fs, rt};

/// The standard input and the standard output, as files.
const STREAMS: [&str; 2] = ["/proc/self/fd/0", "/proc/self/fd/1"];

/// A file whatever its names: its device, and its number there.
#[derive(Clone, Copy, Debug, Drop, PartialEq, Eq)]
pub(crate) struct FileId {
    device: u64,
    number: u64,
}

/// Tells which file was found.
pub(crate) fn id_of(found: &Metadata) -> FileId {
    FileId {
        device: found.dev(),
        number: found.ino(),
    }
}

/// The files that were read so far.
#[derive(Drop)]
pub(crate) struct Inputs {
    ids: Option<List<FileId>>,
}

impl Inputs {
    /// No files yet.
    pub(crate) fn new() -> Inputs {
        Inputs { ids: None }
    }

    /// Notes that a file is read.
    pub(crate) fn note(&mut self, alloc: Global, id: FileId) -> Result<(), NoMemory>
        ensures { OnErr result Refused }
    {
        match &mut self.ids {
            Some(ids) => ids.push(id),
            None => {
                let mut ids = List::new(alloc);
                ids.push(id)?;
                self.ids = Some(ids);
                Ok(())
            }
        }
    }

    /// Decides whether a file was read.
    pub(crate) fn have(&self, id: FileId) -> bool {
        match &self.ids {
            Some(ids) => ids.as_slice().contains(&id),
            None => false,
        }
    }
}

/// Decides whether the standard input or output is this file.
pub(crate) fn is_stream<R: rt::Files>(rt: &R, id: FileId) -> bool {
    for name in STREAMS {
        if let Ok(found) = fs::metadata(rt, name) {
            if id_of(&found) == id {
                return true;
            }
        }
    }
    false
}
