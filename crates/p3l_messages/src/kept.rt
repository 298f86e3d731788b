// Files that keep what was read of them.

ghost use Rattle.std.specs.Prelude.{◌≡◌};

use p3l_base::{List, Name, NoMemory};
use p3l_io::{FileFault, Files, WriteFault};
use std::alloc::Global;
use std::marker::Model;

/// The most bytes of a text that is kept: those of a program, or of a file of costs.
const MOST_KEPT: usize = 1_048_576;

/// A text that was read, and the name of its file.
#[derive(Drop)]
struct Kept {
    name: Name,
    text: List<u8>,
}

/// Other files, with copies of the texts that were read of them. Contracts see the other files.
#[derive(Drop)]
pub struct KeptFiles<F: Files> {
    files: F,
    texts: Vec<Kept>,
    /// The name of the last file that could not be read, if there is one.
    failed: Option<Name>,
    /// The name of the last file that could not be written, if there is one.
    unwritten: Option<Name>,
    /// True if memory ran out for a text or a name that was to be kept.
    lacks: bool,
}

impl<F: Files> Model for KeptFiles<F> {
    ghost Value = { F };

    ghost view = { λ s. s.files };
}

impl<F: Files> KeptFiles<F> {
    /// Files that were not read yet.
    pub fn new(alloc: Global, files: F) -> KeptFiles<F>
        ensures { result ≡ files }
    {
        KeptFiles {
            files,
            texts: Vec::new(alloc),
            failed: None,
            unwritten: None,
            lacks: false,
        }
    }

    /// Returns true exactly if memory ran out for a text or a name that was to be kept.
    pub fn lacks(&self) -> bool {
        self.lacks
    }

    /// The text that was read of the file of this name, if one was kept.
    pub fn text_of(&self, name: &str) -> Option<&[u8]> {
        for kept in self.texts.iter() {
            if kept.name.as_str() == name {
                return Some(kept.text.as_slice());
            }
        }
        None
    }

    /// The name of the last file that could not be read, if there is one.
    pub fn failed(&self) -> Option<&str> {
        match &self.failed {
            Some(name) => Some(name.as_str()),
            None => None,
        }
    }

    /// The name of the last file that could not be written, if there is one.
    pub fn unwritten(&self) -> Option<&str> {
        match &self.unwritten {
            Some(name) => Some(name.as_str()),
            None => None,
        }
    }
}

impl<F: Files> KeptFiles<F> {
    /// Keeps a copy of a text, unless it is long or memory for it runs out.
    fn keep(&mut self, alloc: Global, name: &str, text: &[u8])
        ensures { self.new ≡ self.old }
    {
        if text.len() <= MOST_KEPT && self.push(alloc, name, text).is_err() {
            self.lacks = true;
        }
    }

    /// Keeps the name of a file that could not be read, unless memory for it runs out.
    fn note_failed(&mut self, alloc: Global, name: &str)
        ensures { self.new ≡ self.old }
    {
        match Name::from_text(alloc, name) {
            Ok(name) => self.failed = Some(name),
            Err(_) => self.lacks = true,
        }
    }

    /// Keeps the name of a file that could not be written, unless memory for it runs out.
    fn note_unwritten(&mut self, alloc: Global, name: &str)
        ensures { self.new ≡ self.old }
    {
        match Name::from_text(alloc, name) {
            Ok(name) => self.unwritten = Some(name),
            Err(_) => self.lacks = true,
        }
    }

    /// Adds a copy of a text under its name.
    fn push(&mut self, alloc: Global, name: &str, text: &[u8]) -> Result<(), NoMemory>
        ensures { self.new ≡ self.old }
    {
        let name = Name::from_text(alloc, name)?;
        let text = List::from_vec(Vec::from_slice(alloc, text)?);
        self.texts.push(Kept { name, text })?;
        Ok(())
    }
}

impl<F: Files> Files for KeptFiles<F> {
    ghost observed = { F.observed };

    ghost may_want = { F.may_want };

    fn read(&mut self, alloc: Global, name: &str, limit: u64) -> Result<List<u8>, FileFault> {
        let answer = self.files.read(alloc, name, limit);
        match &answer {
            Ok(text) => self.keep(alloc, name, text.as_slice()),
            Err(FileFault::Failed) => self.note_failed(alloc, name),
            Err(_) => {}
        }
        answer
    }

    fn write(&mut self, alloc: Global, name: &str, bytes: &[u8]) -> Result<(), WriteFault> {
        let answer = self.files.write(alloc, name, bytes);
        if let Err(WriteFault::Failed) = &answer {
            self.note_unwritten(alloc, name);
        }
        answer
    }
}
