// The plan that a run is made by.

use p3l_net::Net;
use p3l_skel::{Tree, Units};

/// The parts by which a run is made: the tree, the bodies of its modules, and the net that runs it.
#[derive(Drop)]
pub struct Plan<'a, U: Units> {
    pub tree: &'a Tree,
    pub units: &'a U,
    pub net: Net,
    /// The most firings of the net for one item.
    pub firings: u64,
    /// The count of words in an item.
    pub width: u32,
}
