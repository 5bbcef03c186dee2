//! A name in a tree.

ghost use Rattle.std.specs.Prelude.{◌≡◌, ◌↔◌, replicate, IsTrue};

/// Sixteen bytes. A shorter name is filled with zero bytes at its end.
#[derive(Clone, Copy, Debug, Default, PartialEq, Eq)]
pub struct Name(pub [u8; 16]);

impl Name {
    /// Whether all bytes are zero: no entry of a tree but the root has such a name.
    pub fn is_empty(&self) -> bool
        ensures { IsTrue result ↔ (self.now.0 ≡ replicate 16 0) }
    {
        self.0 == [0; 16]
    }
}
