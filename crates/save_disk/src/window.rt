//! A window on a file: bytes that were read ahead, and are known until they are written.

ghost use Rattle.std.specs.Prelude.{◌≡◌, ◌+◌, ◌<◌, ◌≤◌, ◌↔◌, ◌^◌, ℕ, List, length, take, drop, slice_index, IsTrue};

/// The most bytes that a window has.
pub(crate) const WINDOW: usize = 4096;

/// The bytes of a file as they were last read, from a place of it on.
#[derive(Drop)]
pub(crate) struct Window {
    at: u64,
    held: usize,
    bytes: [u8; WINDOW],
    ghost fits: { held ≤ 4096 },
}

impl Window {
    ghost use Rattle.save_disk.specs.Windows.{IsOf, Has, SameBeside};

    /// A window that has no byte.
    pub(crate) fn new() -> Window
        ensures { (file : List ℕ) → IsOf file result }
    {
        Window {
            at: 0,
            held: 0,
            bytes: [0; WINDOW],
        }
    }

    /// Takes the first `n` of these bytes, which were read from a place on.
    pub(crate) fn fill(&mut self, at: u64, bytes: &[u8; WINDOW], n: usize)
        requires { n ≤ 4096 }
        ensures of { (file : List ℕ) → ((k : ℕ) → k < n → slice_index bytes.now k ≡ slice_index file (at + k)) → IsOf file self.new }
        ensures has { Has at n self.new }
    {
        self.bytes = *bytes;
        self.at = at;
        self.held = n;
    }

    /// Gives the bytes from a place on, as many as `out` has, where the window has them all.
    pub(crate) fn get(&self, at: u64, out: &mut [u8]) -> bool
        ensures exact { IsTrue result ↔ Has at (length out.old) self.now }
        ensures given { IsTrue result → (file : List ℕ) → IsOf file self.now → (k : ℕ) → k < length out.new
            → slice_index out.new k ≡ slice_index file (at + k) }
        ensures size { length out.new ≡ length out.old }
    {
        if at < self.at {
            return false;
        }
        let from = at - self.at;
        if from > self.held as u64 || out.len() > self.held - from as usize {
            return false;
        }
        let from = from as usize;
        out.copy_from_slice(&self.bytes[from..from + out.len()]);
        true
    }

    /// Forgets what it has of the `n` bytes from a place on, which may be other ones from now on.
    pub(crate) fn forget(&mut self, at: u64, n: u64)
        ensures { (file other : List ℕ) → SameBeside at n file other → IsOf file self.old → IsOf other self.new }
    {
        let end = u128::from(at) + u128::from(n);
        let held_end = u128::from(self.at) + self.held as u128;
        if u128::from(self.at) < end && u128::from(at) < held_end {
            self.held = 0;
        }
    }
}
