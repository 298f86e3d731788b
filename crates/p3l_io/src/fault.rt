// Failures of calls on the outside.

/// A taking or a putting of bytes failed.
#[derive(Clone, Copy, Debug, Drop, PartialEq, Eq)]
pub struct Failed;

/// Why a file was not read.
#[derive(Clone, Copy, Debug, Drop, PartialEq, Eq)]
pub enum FileFault {
    /// The reading failed; a missing file is such a fault.
    Failed,
    /// The file is longer than the limit.
    TooLong,
    /// Out of memory for its bytes.
    NoMemory,
}

/// Why a file was not written.
#[derive(Clone, Copy, Debug, Drop, PartialEq, Eq)]
pub enum WriteFault {
    /// The writing failed.
    Failed,
    /// Out of memory.
    NoMemory,
}
