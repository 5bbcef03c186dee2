//! What calls say over a store that fails.

ghost use Rattle.std.specs.Prelude.{refl, ◌≡◌, ◌-◌, ◌≤◌, false, None, length};
ghost use Rattle.std.proofs.Common.{◌∙◌, ap};
ghost use Rattle.std.proofs.lemmas.Bool.{false≢true};
ghost use Rattle.save_bytes.specs.Memory.{bytes_state, memory_shape};
ghost use Rattle.save_bytes.specs.MemoryLaws.{memory_size_fits};
ghost use Rattle.save_fs.specs.Mounted.{IsMountable};

use super::*;
use save_bytes::{Bad, Path, Space};
use save_samples::{Sample, sample};
use std::test::Fail;

/// A store that tells nothing of its cells. It lends so many pieces, and then none.
#[derive(Drop)]
struct Failing<'a> {
    bytes: &'a mut [u8],
    left: u64,
    faults: u64,
}

/// A store of the bytes of a level four, which lends so many pieces.
fn failing_after<'a>(bytes: &'a mut [u8], left: u64) -> Failing<'a>
    requires { length bytes.old ≡ 34816 }
    ensures { IsMountable (memory_shape (length result.bytes.now) 4096) None }
{
    Failing {
        bytes,
        left,
        faults: 0,
    }
}

impl Space for Failing<'_> {
    ghost state = { λ s. record (bytes_state s.bytes.now 4096) { told = false; faults = s.faults } };

    ghost keeps = { λ spot s t. length t.bytes.now ≡ length s.bytes.now };

    ghost lands = { λ s x spot. ⊥ };

    ghost size_fits = { λ s. memory_size_fits (record { bytes = s.bytes; block = 4096; lent = 0 }) };

    ghost plain_bytes = { λ s plain told x. tt };

    ghost no_twins = { λ s single. record { apart = λ x y same. same; free = λ x. refl } };

    ghost keeps_same = { λ spot s. refl };

    ghost keeps_join = { λ spot s t u h k. k ∙ h };

    ghost keeps_hold = { λ s t kept. kept };

    ghost keeps_shape = { λ s t kept. ap (λ n. memory_shape n 4096) kept };

    ghost keeps_cells = { λ s t sound single told. absurd (false≢true told) };

    ghost keeps_lands = { λ s t sound single told. absurd (false≢true told) };

    fn len(&self) -> u64 {
        self.bytes.len() as u64
    }

    fn piece(&mut self, at: u64, most: usize) -> Result<&[u8], Bad> {
        if self.left == 0 {
            self.faults = self.faults.saturating_add(1);
            return Err(Bad::Disk);
        }
        self.left -= 1;
        let start = at as usize;
        let end = start + most.min(self.bytes.len() - start);
        Ok(range(&self.bytes, start, end))
    }

    fn ready(&mut self, _at: u64, _n: u64) -> Result<(), Bad> {
        Ok(())
    }

    fn put(&mut self, _at: u64, _bytes: &[u8]) -> Result<(), Bad> {
        Ok(())
    }
}

fn range<'b>(bytes: &'b &mut [u8], start: usize, end: usize) -> &'b [u8]
    requires order { start ≤ end }
    requires inside { end ≤ length bytes.now.now }
    ensures { length result.now ≡ end - start }
{
    &bytes[start..end]
}

#[test]
fn a_failing_store_is_said_to_fail(rt: HostRuntime) -> Result<(), Fail> {
    let mut image = sample(rt.alloc(), Sample::Tree)?;
    let mut store = failing_after(&mut image[24_576..59_392], 9);
    let mounted = SaveFs::mount(rt.alloc(), &mut store, None);
    assert_eq!(rt; mounted.err(), Some(MountFault::Disk));
    store.left = u64::MAX;
    let fs = SaveFs::mount(rt.alloc(), &mut store, None)?;
    store.left = 3;
    let rows = fs.list(rt.alloc(), &mut store);
    assert_eq!(rt; rows.err(), Some(FsFault::Disk));
    let path = Path::read(b"/a/x")?;
    let begun = fs.begin_get(&mut store, &path);
    assert_eq!(rt; begun.err(), Some(FsFault::Disk));
    store.left = u64::MAX;
    let mut getting = fs.begin_get(&mut store, &path)?;
    store.left = 0;
    let mut out = [b'.'; 2];
    let piece = fs.get_piece(&mut store, &mut getting, &mut out);
    assert_eq!(rt; piece, Err(FsFault::Disk));
    Ok(())
}
