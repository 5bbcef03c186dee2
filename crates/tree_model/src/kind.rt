//! The two kinds of filesystem.

/// How a filesystem's header begins, and what its files have.
#[derive(Clone, Copy, Debug, PartialEq, Eq)]
pub enum TreeKind {
    /// `SAVE`: a file has data blocks.
    Save,
    /// `VSXE`: a file has an identifier.
    Vsxe,
}
