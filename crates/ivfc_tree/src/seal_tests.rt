ghost use Rattle.std.specs.Prelude.{◌≡◌, ◌+◌, ◌<◌, ◌≤◌, false, length, vec_len, IfOk};
ghost use Rattle.std.proofs.Common.{◌∙◌, ap, refl};
ghost use Rattle.std.proofs.lemmas.Bool.{false≢true};
ghost use Rattle.save_bytes.specs.Memory.{bytes_state, memory_shape};
ghost use Rattle.save_bytes.specs.MemoryLaws.{memory_size_fits};
ghost use Rattle.difi.specs.Contents.{view_size};
ghost use Rattle.difi.specs.Sound.{HasBlockSizes, HasHashLevels};
ghost use Rattle.ivfc_tree.specs.Levels.{IsLevel, level_of};
ghost use Rattle.ivfc_tree.specs.Marks.{IsMadeFor};

use crate::seal::blocks_in;
use crate::tests::{
    PART, SMALL_MASTER, damaged, fault_at, hash_wide, last_statuses, range, small_base, small_tree,
    wide_base, wide_tree,
};
use crate::{IvfcState, IvfcView, Status};
use difi::Difi;
use save_bytes::{Bad, MemSpace, Space};
use std::alloc::{AllocError, Global};
use std::process::Abort;
use std::test::Fail;

/// Marks a block of a tree.
#[tactic(auto, unfolding(crate::specs::Levels::level_of))]
fn mark(rt: &impl Abort, difi: &Difi, state: &mut IvfcState, level: u8, block: u64)
    requires logs { HasBlockSizes difi.now }
    requires level { IsLevel level }
    requires made { IsMadeFor difi.now state.old }
    ensures { IsMadeFor difi.now state.new }
{
    assert!(rt; block < blocks_in(difi, level));
    state.mark(level, block);
}

/// A state in which a block of each level is marked.
fn marked(
    rt: &impl Abort,
    alloc: Global,
    difi: &Difi,
    path: [u64; 4],
) -> Result<IvfcState, AllocError>
    requires { HasBlockSizes difi.now }
    ensures { IfOk result (IsMadeFor difi.now) }
{
    let mut state = IvfcState::new(alloc, difi)?;
    mark(rt, difi, &mut state, 1, path[0]);
    mark(rt, difi, &mut state, 2, path[1]);
    mark(rt, difi, &mut state, 3, path[2]);
    mark(rt, difi, &mut state, 4, path[3]);
    Ok(state)
}

/// Seals a tree.
fn sealed(difi: &Difi, base: &mut [u8], master: &mut [u8], state: &mut IvfcState) -> Result<(), Bad>
    requires logs { HasBlockSizes difi.now }
    requires levels { HasHashLevels difi.now }
    requires base { length base.old ≡ view_size difi.now }
    requires master { length master.old ≡ difi.now.master.size }
    requires made { IsMadeFor difi.now state.old }
    ensures { IsMadeFor difi.now state.new }
{
    let mut space = MemSpace::new(base, 4096);
    let mut view = IvfcView::new(&mut space, PART, difi, master, state);
    view.seal()
}

/// How many bytes from the first on are good.
fn good_bytes(
    difi: &Difi,
    base: &mut [u8],
    master: &mut [u8],
    state: &mut IvfcState,
) -> Result<usize, Bad>
    requires logs { HasBlockSizes difi.now }
    requires levels { HasHashLevels difi.now }
    requires base { length base.old ≡ view_size difi.now }
    requires master { length master.old ≡ difi.now.master.size }
    requires made { IsMadeFor difi.now state.old }
{
    let mut space = MemSpace::new(base, 4096);
    let mut view = IvfcView::new(&mut space, PART, difi, master, state);
    view.verify(0, 9)
}

/// Seals the blocks of a path, and says how many were hashed.
fn seal_path(
    rt: &impl Abort,
    alloc: Global,
    difi: &Difi,
    base: &mut [u8],
    master: &mut [u8],
    path: [u64; 4],
) -> Result<u64, Fail>
    requires logs { HasBlockSizes difi.now }
    requires levels { HasHashLevels difi.now }
    requires base { length base.old ≡ view_size difi.now }
    requires master { length master.old ≡ difi.now.master.size }
{
    let mut state = marked(rt, alloc, difi, path)?;
    sealed(difi, base, master, &mut state)?;
    Ok(state.hashed())
}

/// The base of the small tree with zeros for its levels 1 to 3.
fn unhashed_base() -> [u8; 101] {
    let mut base = [0; 101];
    base[96..].copy_from_slice(b"Hello");
    base
}

/// The base of the small tree with another first byte.
fn changed_base() -> [u8; 101] {
    let mut base = small_base();
    base[96] = b'J';
    base
}

#[test]
fn a_seal_writes_the_digests_of_another_program(rt: HostRuntime) -> Result<(), Fail> {
    let mut base = unhashed_base();
    let mut master = [0; 32];
    let hashed = seal_path(
        &rt,
        rt.alloc(),
        &small_tree(),
        &mut base,
        &mut master,
        [0; 4],
    )?;
    assert_eq!(rt; base, small_base());
    assert_eq!(rt; master, SMALL_MASTER);
    assert_eq!(rt; hashed, 4);
    Ok(())
}

#[test]
fn a_seal_of_nothing_changes_nothing(rt: HostRuntime) -> Result<(), Fail> {
    let difi = small_tree();
    let mut base = changed_base();
    let mut master = [7; 32];
    let mut state = IvfcState::new(rt.alloc(), &difi)?;
    sealed(&difi, &mut base, &mut master, &mut state)?;
    assert_eq!(rt; base, changed_base());
    assert_eq!(rt; master, [7; 32]);
    assert_eq!(rt; state.hashed(), 0);
    Ok(())
}

/// Digests above blocks 0, 4,095 and 4,096 of the wide tree's level four, and its master hash.
fn hashed_wide(rt: &impl Abort, alloc: Global) -> Result<(Vec<u8>, [u8; 64]), AllocError>
    ensures { IfOk result (λ tree. vec_len tree.0 ≡ 2250000) }
{
    let mut base = wide_base(alloc)?;
    let mut master = [0; 64];
    hash_wide(rt, &mut base, &mut master, 0);
    Ok((base, master))
}

/// What is wrong at a few places of the wide tree: the first byte of block 0 of level four, of block 1, of block 2, and
/// the last of block 4,095.
fn faults(
    alloc: Global,
    base: &mut [u8],
    master: &mut [u8; 64],
) -> Result<[Option<Bad>; 4], AllocError>
    requires { length base.old ≡ 2250000 }
{
    let difi = wide_tree();
    Ok([
        fault_at(alloc, &difi, base, master, 0)?,
        fault_at(alloc, &difi, base, master, 512)?,
        fault_at(alloc, &difi, base, master, 1_024)?,
        fault_at(alloc, &difi, base, master, 2_097_151)?,
    ])
}

#[test]
fn a_seal_renews_the_hashes_above_a_short_block(rt: HostRuntime) -> Result<(), Fail> {
    let (mut base, mut master) = hashed_wide(&rt, rt.alloc())?;
    let base = base.as_mut_slice();
    write(base, 2_247_152, b"Hello");
    let before = last_statuses(rt.alloc(), base, &mut master)?;
    assert_eq!(rt;
        before,
        [Status::Good, Status::Good, Status::Good, Status::Bad]
    );
    let path = [1, 16, 256, 4_096];
    let hashed = seal_path(&rt, rt.alloc(), &wide_tree(), base, &mut master, path)?;
    assert_eq!(rt; hashed, 4);
    let after = last_statuses(rt.alloc(), base, &mut master)?;
    assert_eq!(rt; after, [Status::Good; 4]);
    // The blocks below the other entry of the master hash are as they were.
    let blank = [None, Some(damaged((4, 1))), Some(damaged((4, 2))), None];
    assert_eq!(rt; faults(rt.alloc(), base, &mut master)?, blank);
    Ok(())
}

#[test]
fn a_seal_makes_one_blank_block_good(rt: HostRuntime) -> Result<(), Fail> {
    let (mut base, mut master) = hashed_wide(&rt, rt.alloc())?;
    let base = base.as_mut_slice();
    seal_path(
        &rt,
        rt.alloc(),
        &wide_tree(),
        base,
        &mut master,
        [0, 0, 0, 1],
    )?;
    let one = [None, None, Some(damaged((4, 2))), None];
    assert_eq!(rt; faults(rt.alloc(), base, &mut master)?, one);
    Ok(())
}

#[test]
fn a_settled_block_is_not_hashed_again(rt: HostRuntime) -> Result<(), Fail> {
    let difi = small_tree();
    let mut base = changed_base();
    let mut master = SMALL_MASTER;
    let mut state = marked(&rt, rt.alloc(), &difi, [0; 4])?;
    sealed(&difi, &mut base, &mut master, &mut state)?;
    state.settle();
    assert_eq!(rt;
        good_bytes(&difi, &mut base, &mut master, &mut state),
        Ok(5)
    );
    assert_eq!(rt; state.hashed(), 4);
    Ok(())
}

#[test]
fn a_marked_block_is_good_unhashed(rt: HostRuntime) -> Result<(), Fail> {
    let difi = small_tree();
    let mut base = changed_base();
    let mut master = SMALL_MASTER;
    let mut state = marked(&rt, rt.alloc(), &difi, [0; 4])?;
    assert_eq!(rt;
        good_bytes(&difi, &mut base, &mut master, &mut state),
        Ok(5)
    );
    assert_eq!(rt; state.hashed(), 0);
    Ok(())
}

#[test]
fn a_dropped_block_is_good_by_its_hashes_alone(rt: HostRuntime) -> Result<(), Fail> {
    let difi = small_tree();
    let mut base = changed_base();
    let mut master = SMALL_MASTER;
    let mut state = marked(&rt, rt.alloc(), &difi, [0; 4])?;
    state.drop_changes();
    let found = good_bytes(&difi, &mut base, &mut master, &mut state);
    assert_eq!(rt; found, Err(damaged((4, 0))));
    assert_eq!(rt; state.hashed(), 4);
    Ok(())
}

/// A space that tells nothing, and makes so many puts and no more.
#[derive(Drop)]
struct Failing<'a> {
    bytes: &'a mut [u8],
    left: u64,
    faults: u64,
}

impl Space for Failing<'_> {
    ghost state = { λ s. record (bytes_state s.bytes.now 4096) { told = false; faults = s.faults } };

    ghost keeps = { λ spot s t. length t.bytes.now ≡ length s.bytes.now };

    ghost lands = { λ s x spot. ⊥ };

    ghost size_fits = { λ s. memory_size_fits (record { bytes = s.bytes; block = 4096; lent = 0 }) };

    ghost plain_bytes = { λ s plain told x. tt };

    ghost no_twins = { λ s single. record { apart = λ x y same. same; free = λ x. refl } };

    ghost keeps_same = { λ spot s. refl };

    ghost keeps_join = { λ spot s t u h k. k ∙ h };

    ghost keeps_hold = { λ s t kept. kept };

    ghost keeps_shape = { λ s t kept. ap (λ n. memory_shape n 4096) kept };

    ghost keeps_cells = { λ s t sound single told. absurd (false≢true told) };

    ghost keeps_lands = { λ s t sound single told. absurd (false≢true told) };

    fn len(&self) -> u64 {
        self.bytes.len() as u64
    }

    fn piece(&mut self, at: u64, most: usize) -> Result<&[u8], Bad> {
        let start = at as usize;
        let end = start + most.min(self.bytes.len() - start);
        Ok(range(&self.bytes, start, end))
    }

    fn ready(&mut self, _at: u64, _n: u64) -> Result<(), Bad> {
        Ok(())
    }

    fn put(&mut self, at: u64, bytes: &[u8]) -> Result<(), Bad> {
        if self.left == 0 {
            self.faults = self.faults.saturating_add(1);
            return Err(Bad::Disk);
        }
        self.left -= 1;
        write(&mut *self.bytes, at as usize, bytes);
        Ok(())
    }
}

fn write(all: &mut [u8], at: usize, bytes: &[u8])
    requires { at + length bytes.now ≤ length all.old }
    ensures { length all.new ≡ length all.old }
{
    all[at..at + bytes.len()].copy_from_slice(bytes);
}

/// Seals the small tree over a base that makes so many puts: what the seal answers, and how many blocks it hashes.
fn seal_until(
    rt: &impl Abort,
    alloc: Global,
    puts: u64,
    base: &mut [u8],
    master: &mut [u8; 32],
) -> Result<(Result<(), Bad>, u64), AllocError>
    requires { length base.old ≡ 101 }
{
    let difi = small_tree();
    let mut state = marked(rt, alloc, &difi, [0; 4])?;
    let mut space = Failing {
        bytes: base,
        left: puts,
        faults: 0,
    };
    let answer = IvfcView::new(&mut space, PART, &difi, master, &mut state).seal();
    Ok((answer, state.hashed()))
}

#[test]
fn a_seal_ends_where_a_put_fails(rt: HostRuntime) -> Result<(), Fail> {
    for puts in 0..3 {
        let mut base = unhashed_base();
        let mut master = [0; 32];
        let (answer, hashed) = seal_until(&rt, rt.alloc(), puts, &mut base, &mut master)?;
        assert_eq!(rt; answer, Err(Bad::Disk), "{puts} puts");
        // One block is hashed before each put, from level 4 up, and none behind the one that fails.
        assert_eq!(rt; hashed, puts + 1);
        let expected = half_hashed(96 - 32 * puts as usize);
        assert_eq!(rt; base, expected);
        assert_eq!(rt; master, [0; 32]);
    }
    let mut base = unhashed_base();
    let mut master = [0; 32];
    let (answer, hashed) = seal_until(&rt, rt.alloc(), 3, &mut base, &mut master)?;
    assert_eq!(rt; answer, Ok(()));
    assert_eq!(rt; hashed, 4);
    assert_eq!(rt; base, small_base());
    assert_eq!(rt; master, SMALL_MASTER);
    Ok(())
}

/// The base of the small tree with zeros up to a place.
fn half_hashed(place: usize) -> [u8; 101]
    requires { place ≤ 101 }
{
    let mut base = small_base();
    base[..place].fill(0);
    base
}
