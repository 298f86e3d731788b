// Places in a source text.

use p3l_base::Name;

/// A place in a source text. Lines and columns count from 1, and a column counts bytes; a line feed
/// ends a line.
#[derive(Clone, Copy, Debug, Drop, PartialEq, Eq)]
pub struct Pos {
    pub line: u32,
    pub col: u32,
}

/// A name and where it is.
#[derive(Debug, Drop)]
pub struct Spot {
    pub name: Name,
    pub pos: Pos,
}
