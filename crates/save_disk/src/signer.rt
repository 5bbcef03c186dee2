//! Signers of headers.

ghost use Rattle.std.specs.Prelude.{◌≡◌, ℕ, Bool, true, false, List, take, replicate};
ghost use Rattle.sha2.specs.Sha256.{sha256};

use sha2::{Digest, Sha256};

/// Gives the 16 bytes that stand before a header, as a function of the header's 256 bytes.
pub trait Signer {
    ghost tag_of: { Self → List ℕ → List ℕ };

    /// Whether an image without the right tag is refused.
    ghost is_demanding: { Self → Bool };

    fn tag(&self, header: &[u8; 256]) -> [u8; 16]
        ensures { result ≡ tag_of self.now header.now };

    fn demands(&self) -> bool
        ensures { result ≡ is_demanding self.now };
}

/// Its tag is 16 zero bytes, and it demands none: the real signature is put there by a tool that has
/// the keys.
#[derive(Clone, Copy, Debug)]
pub struct ZeroSigner;

impl Signer for ZeroSigner {
    ghost tag_of = { λ _ _. replicate 16 0 };

    ghost is_demanding = { λ _. false };

    fn tag(&self, _header: &[u8; 256]) -> [u8; 16] {
        [0; 16]
    }

    fn demands(&self) -> bool {
        false
    }
}

/// Its tag is the first 16 bytes of the header's SHA-256, and it demands it.
#[derive(Clone, Copy, Debug)]
pub struct PlainSigner;

impl Signer for PlainSigner {
    ghost tag_of = { λ _ header. take 16 (sha256 header) };

    ghost is_demanding = { λ _. true };

    fn tag(&self, header: &[u8; 256]) -> [u8; 16] {
        let digest = Sha256::digest(header);
        let mut tag = [0; 16];
        tag.copy_from_slice(&digest[..16]);
        tag
    }

    fn demands(&self) -> bool {
        true
    }
}
