ghost use Rattle.std.specs.Prelude.{◌≡◌, ◌+◌, ◌<◌, ◌≤◌, length, vec_len, IfOk};
ghost use Rattle.difi.specs.Contents.{view_size};
ghost use Rattle.difi.specs.Sound.{HasBlockSizes, HasHashLevels};
ghost use Rattle.ivfc_tree.specs.Marks.{IsMadeFor};

use crate::tests::{PART, damaged, flip, hash_wide, wide_base, wide_tree};
use crate::{IvfcState, IvfcView};
use difi::Difi;
use save_bytes::{Bad, Floor, MemSpace, Space};
use save_samples::{LONE_DIFI, Sample, sample};
use std::alloc::{AllocError, Global};
use std::test::Fail;

/// The sample's hash tree: one block of 512 or 4,096 bytes at levels 1 to 3, and nine of 4,096 at level four, of which
/// the first was written.
fn lone_tree() -> Difi
    ensures logs { HasBlockSizes result }
    ensures levels { HasHashLevels result }
    ensures size { view_size result ≡ 49152 }
    ensures master { result.master.size ≡ 32 }
    ensures contents { result.ivfc4.size ≡ 34816 }
{
    LONE_DIFI
}

fn zeros(alloc: Global, len: usize) -> Result<Vec<u8>, AllocError>
    ensures { IfOk result (λ bytes. vec_len bytes ≡ len) }
{
    vec![in alloc; 0; len]
}

/// The contents that the sample's copies choose, and its master hash.
fn lone_base(alloc: Global) -> Result<(Vec<u8>, [u8; 32]), AllocError>
    ensures { IfOk result (λ made. vec_len made.0 ≡ 49152) }
{
    let image = sample(alloc, Sample::Single)?;
    let mut base = zeros(alloc, 49_152)?;
    base.copy_from_slice(&image[12_288..61_440]);
    let mut master = [0; 32];
    master.copy_from_slice(&image[1_292..1_324]);
    Ok((base, master))
}

/// The byte at a place, by a view of its own.
fn byte_at(
    difi: &Difi,
    base: &mut [u8],
    master: &mut [u8],
    state: &mut IvfcState,
    at: u64,
) -> Result<u8, Bad>
    requires logs { HasBlockSizes difi.now }
    requires levels { HasHashLevels difi.now }
    requires base { length base.old ≡ view_size difi.now }
    requires master { length master.old ≡ difi.now.master.size }
    requires made { IsMadeFor difi.now state.old }
    requires inside { at < difi.now.ivfc4.size }
    ensures { IsMadeFor difi.now state.new }
{
    let mut space = MemSpace::new(base, 4096);
    let mut view = IvfcView::new(&mut space, PART, difi, master, state);
    match view.piece(at, 1) {
        Ok(piece) => Ok(piece[0]),
        Err(bad) => Err(bad),
    }
}

fn put_at(
    difi: &Difi,
    base: &mut [u8],
    master: &mut [u8],
    state: &mut IvfcState,
    at: u64,
    bytes: &[u8],
) -> Result<(), Bad>
    requires logs { HasBlockSizes difi.now }
    requires levels { HasHashLevels difi.now }
    requires base { length base.old ≡ view_size difi.now }
    requires master { length master.old ≡ difi.now.master.size }
    requires made { IsMadeFor difi.now state.old }
    requires inside { at + length bytes.now ≤ difi.now.ivfc4.size }
    ensures { IsMadeFor difi.now state.new }
{
    let mut space = MemSpace::new(base, 4096);
    let mut view = IvfcView::new(&mut space, PART, difi, master, state);
    view.put(at, bytes)
}

fn ready_at(
    difi: &Difi,
    base: &mut [u8],
    master: &mut [u8],
    state: &mut IvfcState,
    at: u64,
    n: u64,
) -> Result<(), Bad>
    requires logs { HasBlockSizes difi.now }
    requires levels { HasHashLevels difi.now }
    requires base { length base.old ≡ view_size difi.now }
    requires master { length master.old ≡ difi.now.master.size }
    requires made { IsMadeFor difi.now state.old }
    requires inside { at + n ≤ difi.now.ivfc4.size }
    ensures { IsMadeFor difi.now state.new }
{
    let mut space = MemSpace::new(base, 4096);
    let mut view = IvfcView::new(&mut space, PART, difi, master, state);
    view.ready(at, n)
}

fn clear_at(
    difi: &Difi,
    base: &mut [u8],
    master: &mut [u8],
    state: &mut IvfcState,
    at: u64,
) -> Result<(), Bad>
    requires logs { HasBlockSizes difi.now }
    requires levels { HasHashLevels difi.now }
    requires base { length base.old ≡ view_size difi.now }
    requires master { length master.old ≡ difi.now.master.size }
    requires made { IsMadeFor difi.now state.old }
    requires inside { at < difi.now.ivfc4.size }
    ensures { IsMadeFor difi.now state.new }
{
    let mut space = MemSpace::new(base, 4096);
    let mut view = IvfcView::new(&mut space, PART, difi, master, state);
    view.clear(at)
}

fn seal_at(
    difi: &Difi,
    base: &mut [u8],
    master: &mut [u8],
    state: &mut IvfcState,
) -> Result<(), Bad>
    requires logs { HasBlockSizes difi.now }
    requires levels { HasHashLevels difi.now }
    requires base { length base.old ≡ view_size difi.now }
    requires master { length master.old ≡ difi.now.master.size }
    requires made { IsMadeFor difi.now state.old }
    ensures { IsMadeFor difi.now state.new }
{
    let mut space = MemSpace::new(base, 4096);
    let mut view = IvfcView::new(&mut space, PART, difi, master, state);
    view.seal()
}

#[test]
fn a_block_is_hashed_once(rt: HostRuntime) -> Result<(), Fail> {
    let difi = lone_tree();
    let (mut memory, mut master) = lone_base(rt.alloc())?;
    let base = &mut memory[..];
    let mut state = IvfcState::new(rt.alloc(), &difi)?;
    assert_eq!(rt; state.hashed(), 0);
    assert_eq!(rt; byte_at(&difi, base, &mut master, &mut state, 0), Ok(b'S'));
    assert_eq!(rt; state.hashed(), 4);
    assert_eq!(rt; byte_at(&difi, base, &mut master, &mut state, 1), Ok(b'A'));
    assert_eq!(rt; state.hashed(), 4);
    let blank = Err(damaged((4, 1)));
    assert_eq!(rt; byte_at(&difi, base, &mut master, &mut state, 4_096), blank);
    assert_eq!(rt; byte_at(&difi, base, &mut master, &mut state, 8_191), blank);
    assert_eq!(rt; state.hashed(), 4);
    Ok(())
}

#[test]
fn a_spoilt_block_is_hashed_once(rt: HostRuntime) -> Result<(), Fail> {
    let difi = lone_tree();
    let (mut memory, mut master) = lone_base(rt.alloc())?;
    let base = &mut memory[..];
    flip(&rt, base, &[12_288]);
    let mut state = IvfcState::new(rt.alloc(), &difi)?;
    let spoilt = Err(damaged((4, 0)));
    assert_eq!(rt; byte_at(&difi, base, &mut master, &mut state, 0), spoilt);
    assert_eq!(rt; state.hashed(), 4);
    assert_eq!(rt;
        byte_at(&difi, base, &mut master, &mut state, 4_095),
        spoilt
    );
    assert_eq!(rt; state.hashed(), 4);
    Ok(())
}

#[test]
fn bytes_beside_a_put_into_a_blank_block_are_zero_until_it_is_dropped(
    rt: HostRuntime,
) -> Result<(), Fail> {
    let difi = lone_tree();
    let (mut memory, mut master) = lone_base(rt.alloc())?;
    let base = &mut memory[..];
    let mut state = IvfcState::new(rt.alloc(), &difi)?;
    assert_eq!(rt;
        put_at(&difi, base, &mut master, &mut state, 4_096, &[7]),
        Ok(())
    );
    assert_eq!(rt; byte_at(&difi, base, &mut master, &mut state, 4_096), Ok(7));
    assert_eq!(rt; byte_at(&difi, base, &mut master, &mut state, 4_097), Ok(0));
    assert_eq!(rt; byte_at(&difi, base, &mut master, &mut state, 8_191), Ok(0));
    let next = Err(damaged((4, 2)));
    assert_eq!(rt; byte_at(&difi, base, &mut master, &mut state, 8_192), next);
    state.drop_changes();
    let (mut before, mut master) = lone_base(rt.alloc())?;
    let base = &mut before[..];
    let blank = Err(damaged((4, 1)));
    assert_eq!(rt; byte_at(&difi, base, &mut master, &mut state, 4_096), blank);
    assert_eq!(rt; byte_at(&difi, base, &mut master, &mut state, 8_191), blank);
    assert_eq!(rt; byte_at(&difi, base, &mut master, &mut state, 0), Ok(b'S'));
    Ok(())
}

#[test]
fn a_spoilt_block_is_not_written_but_cleared(rt: HostRuntime) -> Result<(), Fail> {
    let difi = lone_tree();
    let (mut memory, mut master) = lone_base(rt.alloc())?;
    let base = &mut memory[..];
    flip(&rt, base, &[12_288]);
    let mut state = IvfcState::new(rt.alloc(), &difi)?;
    let spoilt = Err(damaged((4, 0)));
    assert_eq!(rt;
        ready_at(&difi, base, &mut master, &mut state, 0, 1),
        spoilt
    );
    assert_eq!(rt;
        put_at(&difi, base, &mut master, &mut state, 1, b"x"),
        spoilt
    );
    assert_eq!(rt; base[12_289], b'A');
    assert_eq!(rt;
        clear_at(&difi, base, &mut master, &mut state, 4_095),
        Ok(())
    );
    assert_eq!(rt;
        ready_at(&difi, base, &mut master, &mut state, 0, 34_816),
        Ok(())
    );
    assert_eq!(rt; byte_at(&difi, base, &mut master, &mut state, 0), Ok(0));
    assert_eq!(rt; byte_at(&difi, base, &mut master, &mut state, 1), Ok(0));
    assert_eq!(rt; byte_at(&difi, base, &mut master, &mut state, 4_095), Ok(0));
    Ok(())
}

#[test]
fn a_put_into_a_short_block_is_found_again_behind_a_seal(rt: HostRuntime) -> Result<(), Fail> {
    let difi = lone_tree();
    let (mut memory, mut master) = lone_base(rt.alloc())?;
    let base = &mut memory[..];
    let mut state = IvfcState::new(rt.alloc(), &difi)?;
    assert_eq!(rt;
        put_at(&difi, base, &mut master, &mut state, 34_815, &[9]),
        Ok(())
    );
    assert_eq!(rt; seal_at(&difi, base, &mut master, &mut state), Ok(()));
    state.settle();
    let hashed = state.hashed();
    assert_eq!(rt;
        byte_at(&difi, base, &mut master, &mut state, 34_815),
        Ok(9)
    );
    assert_eq!(rt; state.hashed(), hashed);
    let mut fresh = IvfcState::new(rt.alloc(), &difi)?;
    assert_eq!(rt; byte_at(&difi, base, &mut master, &mut fresh, 0), Ok(b'S'));
    assert_eq!(rt;
        byte_at(&difi, base, &mut master, &mut fresh, 32_768),
        Ok(0)
    );
    assert_eq!(rt;
        byte_at(&difi, base, &mut master, &mut fresh, 34_814),
        Ok(0)
    );
    assert_eq!(rt;
        byte_at(&difi, base, &mut master, &mut fresh, 34_815),
        Ok(9)
    );
    let blank = Err(damaged((4, 7)));
    assert_eq!(rt;
        byte_at(&difi, base, &mut master, &mut fresh, 32_767),
        blank
    );
    // Levels 1 to 3, and blocks 0 and 8 of level four.
    assert_eq!(rt; fresh.hashed(), 5);
    Ok(())
}

#[test]
fn blocks_beside_a_put_are_blank_by_their_own_entries(rt: HostRuntime) -> Result<(), Fail> {
    let difi = wide_tree();
    let mut memory = wide_base(rt.alloc())?;
    let base = &mut memory[..];
    let mut master = [0; 64];
    hash_wide(&rt, base, &mut master, 0);
    let mut state = IvfcState::new(rt.alloc(), &difi)?;
    // Blocks 1,000, 1,001, 1,008 and 1,024 of level four, of which the last lies under another block of level 2.
    let blank = Err(damaged((2, 3)));
    let other = Err(damaged((2, 4)));
    assert_eq!(rt;
        byte_at(&difi, base, &mut master, &mut state, 512_000),
        blank
    );
    assert_eq!(rt;
        byte_at(&difi, base, &mut master, &mut state, 512_512),
        blank
    );
    assert_eq!(rt;
        byte_at(&difi, base, &mut master, &mut state, 516_096),
        blank
    );
    assert_eq!(rt;
        byte_at(&difi, base, &mut master, &mut state, 524_288),
        other
    );
    assert_eq!(rt;
        put_at(&difi, base, &mut master, &mut state, 512_001, b"ab"),
        Ok(())
    );
    assert_eq!(rt;
        byte_at(&difi, base, &mut master, &mut state, 512_000),
        Ok(0)
    );
    assert_eq!(rt;
        byte_at(&difi, base, &mut master, &mut state, 512_001),
        Ok(b'a')
    );
    assert_eq!(rt;
        byte_at(&difi, base, &mut master, &mut state, 512_002),
        Ok(b'b')
    );
    assert_eq!(rt;
        byte_at(&difi, base, &mut master, &mut state, 512_511),
        Ok(0)
    );
    let next = Err(damaged((4, 1_001)));
    let far = Err(damaged((3, 63)));
    assert_eq!(rt;
        byte_at(&difi, base, &mut master, &mut state, 512_512),
        next
    );
    assert_eq!(rt; byte_at(&difi, base, &mut master, &mut state, 516_096), far);
    assert_eq!(rt;
        byte_at(&difi, base, &mut master, &mut state, 524_288),
        other
    );
    Ok(())
}

#[test]
fn a_put_that_meets_a_spoilt_block_changes_no_other(rt: HostRuntime) -> Result<(), Fail> {
    let difi = wide_tree();
    let mut memory = wide_base(rt.alloc())?;
    let base = &mut memory[..];
    let mut master = [0; 64];
    hash_wide(&rt, base, &mut master, 0);
    flip(&rt, base, &[2_247_152]);
    let mut state = IvfcState::new(rt.alloc(), &difi)?;
    let last = base[2_247_151];
    let spoilt = Err(damaged((4, 4_096)));
    assert_eq!(rt;
        put_at(&difi, base, &mut master, &mut state, 2_097_151, &[0, 0]),
        spoilt
    );
    assert_eq!(rt; base[2_247_151], last);
    assert_eq!(rt;
        byte_at(&difi, base, &mut master, &mut state, 2_097_151),
        Ok(last)
    );
    assert_eq!(rt;
        byte_at(&difi, base, &mut master, &mut state, 2_097_152),
        Err(damaged((4, 4_096)))
    );
    Ok(())
}

#[test]
fn a_block_below_a_spoilt_one_is_not_cleared(rt: HostRuntime) -> Result<(), Fail> {
    let difi = lone_tree();
    let (mut memory, mut master) = lone_base(rt.alloc())?;
    let base = &mut memory[..];
    flip(&rt, base, &[8_200]);
    let mut state = IvfcState::new(rt.alloc(), &difi)?;
    let spoilt = Err(damaged((3, 0)));
    assert_eq!(rt; clear_at(&difi, base, &mut master, &mut state, 0), spoilt);
    assert_eq!(rt; base[12_288], b'S');
    Ok(())
}
