// Why a tree has no scan.

/// Why the root of a tree can't be scanned in the number of segments requested.
#[derive(Clone, Copy, Debug, Drop, PartialEq, Eq)]
pub enum ScanRefusal {
    /// The root is no reduce.
    NotReduce,
    /// The number of segments is no power of two, or doesn't divide the length of the reduce.
    BadSegments,
}
