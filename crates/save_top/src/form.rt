//! What the words of a call may ask for.

/// What a command asks for.
#[derive(Clone, Copy, Debug, PartialEq, Eq)]
pub enum Act {
    /// What the header and the active table show.
    Info,
    /// The bytes of a block of a part, both counted from 0: the part's number, then the block's.
    Peek(u64, u64),
}

/// The words of a call, read.
#[derive(Clone, Copy, Debug, PartialEq, Eq)]
pub struct Order {
    /// Whether the image has to carry its signer's tag.
    pub sealed: bool,
    pub act: Act,
}
