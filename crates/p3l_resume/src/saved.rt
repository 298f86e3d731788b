// Snapshots, and why bytes are none.

use p3l_base::List;
use p3l_net::Shot;
use thiserror::Error;

/// A snapshot: the state of a machine, and the bytes of the image that it ran.
#[derive(Debug, Drop)]
pub struct Saved {
    pub shot: Shot,
    pub image: List<u8>,
}

/// Why bytes are no snapshot.
#[derive(Clone, Copy, Debug, Drop, PartialEq, Eq, Error)]
pub enum ShotRefusal {
    /// The field at this place isn't whole or is out of its range, or bytes stand after the last
    /// field, from this place on. A place is the number of bytes before it.
    #[error("the bytes are no snapshot, from byte {0} on")]
    BadShot(u64),
    /// Out of memory.
    #[error("no memory")]
    NoMemory,
}
