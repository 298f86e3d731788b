// Why a file could not be read.

/// Why a file could not be read, as the operating system says.
#[derive(Clone, Copy, Debug, Drop, PartialEq, Eq)]
pub enum Failure {
    /// There is no file of this name.
    Missing,
    /// The name is that of a folder.
    Folder,
    /// The user may not read it.
    Forbidden,
    /// Any other reason.
    Other,
}

impl Failure {
    /// The sentence that says so.
    pub(crate) fn sentence(self) -> &'static str {
        match self {
            Failure::Missing => "There is no such file.",
            Failure::Folder => "It is a folder.",
            Failure::Forbidden => "You are not allowed to read it.",
            Failure::Other => "It could not be read to its end.",
        }
    }
}
