// Ends of the taking of bytes.

/// The cause that stopped the taking of bytes, of which definitions speak.
#[derive(Clone, Copy, Debug, Drop, PartialEq, Eq)]
pub enum Cutoff {
    /// The source was at its end.
    End,
    /// The source failed.
    Fault,
    /// The limit of bytes was reached.
    Limit,
}
