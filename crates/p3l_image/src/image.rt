// Compiled programs, and why bytes are none.

use p3l_base::List;
use p3l_code::Code;
use p3l_firing::Net;
use p3l_skel::{Counts, Tree};
use thiserror::Error;

/// A compiled program: the capacity of its channels, its tree, the numbers of workers, the codes of
/// its `seq` modules in their order, and the net that runs it.
#[derive(Debug, Drop)]
pub struct Image {
    pub cap: u32,
    pub tree: Tree,
    pub counts: Counts,
    pub codes: List<Code>,
    pub net: Net,
}

/// Why bytes are no image, by the first field that is at fault. A place is the number of bytes
/// before the field.
#[derive(Clone, Copy, Debug, Drop, PartialEq, Eq, Error)]
pub enum ImageRefusal {
    /// They begin with four other bytes.
    #[error("the bytes are no image")]
    BadMagic,
    /// They are of another version.
    #[error("the image has version {0}")]
    Version(u32),
    /// The field at this place isn't whole.
    #[error("the image ends in the field at byte {0}")]
    Short(u64),
    /// The number at this place is out of its range, or the name is none.
    #[error("the field at byte {0} is out of its range")]
    BadField(u64),
    /// Bytes come after the last field, from this place on.
    #[error("bytes stand after the image, from byte {0} on")]
    TrailingBytes(u64),
    /// Out of memory.
    #[error("no memory")]
    NoMemory,
}
