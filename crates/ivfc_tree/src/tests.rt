ghost use Rattle.std.specs.Prelude.{refl, ◌≡◌, ◌+◌, ◌-◌, ◌%◌, ◌<◌, ◌≤◌, false, length, vec_len, IsTrue, IfOk};
ghost use Rattle.std.proofs.Common.{◌∙◌, ap};
ghost use Rattle.std.proofs.lemmas.Bool.{false≢true};
ghost use Rattle.std.specs.Result.{result_err};
ghost use Rattle.save_bytes.specs.Memory.{bytes_state, memory_shape};
ghost use Rattle.save_bytes.specs.MemoryLaws.{memory_size_fits};
ghost use Rattle.save_bytes.specs.State.{IsInside};
ghost use Rattle.save_bytes.specs.Reads.{Reads};
ghost use Rattle.difi.specs.Contents.{view_size};
ghost use Rattle.difi.specs.Sound.{HasBlockSizes, HasHashLevels};
ghost use Rattle.ivfc_tree.specs.Levels.{HasBlock};
ghost use Rattle.ivfc_tree.specs.Marks.{SameMarks};
ghost use Rattle.ivfc_tree.specs.View.{CanViewHashes, IsVerified, view_state};
ghost use Rattle.ivfc_tree.specs.Held.{shown, HashKeeps, hash_lands};

use super::*;
use difi::{Difi, LevelPlace};
use save_bytes::{Bad, Extent, MemSpace, Space};
use save_samples::LONE_DIFI;
use sha2::{Digest, Sha256};
use std::alloc::{AllocError, Global};
use std::process::Abort;
use std::test::Fail;

/// The number of the part that each view is made for.
pub(crate) const PART: u8 = 3;

/// A range of bytes, and the place of the digest of the block that they are.
type Hashed = (usize, usize, usize);

/// Of the wide tree: what is hashed into levels 3, 2 and 1, in this order.
const WIDE: [Hashed; 9] = [
    (150_000, 512, 10_000),
    (2_246_640, 512, 141_040),
    (2_247_152, 5, 141_072),
    (10_000, 512, 1_000),
    (140_560, 512, 9_160),
    (141_072, 32, 9_192),
    (1_000, 512, 64),
    (8_680, 512, 544),
    (9_192, 32, 576),
];

/// Blocks of 512 bytes, and two or more of them at each level. The last block of level four has 5 bytes, and of each
/// other level one entry.
#[tactic(auto, unfolding(crate::specs::Levels::level_of))]
pub(crate) fn wide_tree() -> Difi
    ensures logs { HasBlockSizes result }
    ensures levels { HasHashLevels result }
    ensures size { view_size result ≡ 2250000 }
    ensures master { result.master.size ≡ 64 }
    ensures contents { result.ivfc4.size ≡ 2097157 }
    ensures last1 { HasBlock result 1 1 }
    ensures last2 { HasBlock result 2 16 }
    ensures last3 { HasBlock result 3 256 }
    ensures last4 { HasBlock result 4 4096 }
{
    Difi {
        ivfc1: level(64, 544, 9),
        ivfc2: level(1_000, 8_224, 9),
        ivfc3: level(10_000, 131_104, 9),
        ivfc4: level(150_000, 2_097_157, 9),
        dpfs3: level(4_096, 2_250_000, 12),
        master: Extent {
            at: 0x10C,
            size: 64,
        },
        ..LONE_DIFI
    }
}

fn level(at: u64, size: u64, log: u32) -> LevelPlace
    ensures at { result.at ≡ at }
    ensures size { result.size ≡ size }
    ensures log { result.log ≡ log }
{
    LevelPlace { at, size, log }
}

/// The byte at a place of a base before a tree is put there. It is never 0.
fn pattern(place: usize) -> u8
    ensures { result ≡ place % 251 + 1 }
{
    (place % 251) as u8 + 1
}

/// A base in which no byte is 0.
fn patterned(alloc: Global, len: usize) -> Result<Vec<u8>, AllocError>
    ensures { IfOk result (λ base. vec_len base ≡ len) }
{
    let mut base = vec![in alloc; 0; len]?;
    fill(&mut base);
    Ok(base)
}

fn fill(bytes: &mut [u8])
    ensures { length bytes.new ≡ length bytes.old }
{
    for (place, byte) in bytes.iter_mut().enumerate() {
        *byte = pattern(place);
    }
}

/// The SHA-256 of bytes that are filled with zeros to a block size.
fn filled_digest(bytes: &[u8], size: usize) -> [u8; 32]
    requires fits { length bytes.now ≤ size }
    requires small { size ≤ 65536 }
{
    let mut block = [0; 65_536];
    block[..bytes.len()].copy_from_slice(bytes);
    Sha256::digest(&block[..size])
}

/// Puts the digest of a block, filled with zeros to a size, at its place.
fn put_digest(rt: &impl Abort, base: &mut [u8], block: Hashed, size: usize)
    requires { size ≤ 65536 }
    ensures { length base.new ≡ length base.old }
{
    let (at, len, entry) = block;
    assert!(rt; len <= size && at < base.len() && len <= base.len() - at);
    assert!(rt; entry < base.len() && 32 <= base.len() - entry);
    let digest = filled_digest(&base[at..at + len], size);
    base[entry..entry + 32].copy_from_slice(&digest);
}

/// Puts the digest of each block, filled to its block size, at its place. Gives the master hash of a tree whose level 1
/// is the first 32 bytes, in a block of 65,536.
fn hash_up(rt: &impl Abort, base: &mut [u8], blocks: &[(Hashed, usize)]) -> [u8; 32]
    requires { 32 ≤ length base.old }
    ensures { length base.new ≡ length base.old }
{
    for (block, size) in blocks {
        assert!(rt; *size <= 65_536);
        put_digest(rt, base, *block, *size);
    }
    master_of(base)
}

fn master_of(base: &[u8]) -> [u8; 32]
    requires { 32 ≤ length base.now }
{
    filled_digest(&base[..32], 65_536)
}

/// Hashes three blocks of the wide tree's level four, 0, 4,095 and 4,096, and those above them up to the master hash;
/// or only these from one of them on.
pub(crate) fn hash_wide(rt: &impl Abort, base: &mut [u8], master: &mut [u8; 64], first: usize)
    requires base { length base.old ≡ 2250000 }
    requires first { first ≤ 9 }
    ensures { length base.new ≡ 2250000 }
{
    for block in &WIDE[first..] {
        put_digest(rt, base, *block, 512);
    }
    master[..32].copy_from_slice(&filled_digest(&base[64..576], 512));
    master[32..].copy_from_slice(&filled_digest(&base[576..608], 512));
}

/// The base of the wide tree, with zeros for its levels 1 to 3.
pub(crate) fn wide_base(alloc: Global) -> Result<Vec<u8>, AllocError>
    ensures { IfOk result (λ base. vec_len base ≡ 2250000) }
{
    let mut base = patterned(alloc, 2_250_000)?;
    clear(&mut base, 64, 608);
    clear(&mut base, 1_000, 9_224);
    clear(&mut base, 10_000, 141_104);
    Ok(base)
}

fn clear(base: &mut [u8], start: usize, end: usize)
    requires order { start ≤ end }
    requires inside { end ≤ length base.old }
    ensures { length base.new ≡ length base.old }
{
    base[start..end].fill(0);
}

/// One block of 512 bytes at each level, level four's of 5 bytes.
#[tactic(auto, unfolding(crate::specs::Levels::level_of))]
pub(crate) fn small_tree() -> Difi
    ensures logs { HasBlockSizes result }
    ensures levels { HasHashLevels result }
    ensures size { view_size result ≡ 101 }
    ensures master { result.master.size ≡ 32 }
    ensures contents { result.ivfc4.size ≡ 5 }
    ensures only4 { HasBlock result 4 0 }
{
    Difi {
        ivfc1: level(0, 32, 9),
        ivfc2: level(32, 32, 9),
        ivfc3: level(64, 32, 9),
        ivfc4: level(96, 5, 9),
        dpfs3: level(512, 101, 7),
        ..LONE_DIFI
    }
}

/// The base of the small tree, with digests that Python's hashlib made.
pub(crate) fn small_base() -> [u8; 101] {
    let mut base = [0; 101];
    base[..32].copy_from_slice(
        b"\xba\xa5\x74\xf3\x83\x99\xb2\x83\x6d\x05\x02\x40\xb2\x0f\x96\xf1\x94\x81\xba\x3c\xcb\x70\x59\xc9\x29\x94\xbe\x03\x5b\x4d\x4a\xc4",
    );
    base[32..64].copy_from_slice(
        b"\xab\xb8\xea\xcf\xfb\xa6\xc4\xed\x7a\x8f\x1b\x17\x0e\xb6\x1a\xc6\xbf\x80\x5d\x77\x55\x39\x85\x28\x7b\x96\x9a\xb2\xab\xa9\xe4\xaa",
    );
    base[64..96].copy_from_slice(
        b"\x99\x9b\x4c\xf5\x1b\xbf\x7f\x10\x7c\xac\xd9\x84\x3f\xa4\xd5\xa3\x09\x14\xd6\x86\xdf\x4e\x7c\xc3\x4f\x4d\x8b\x53\xcb\xff\x02\xd4",
    );
    base[96..].copy_from_slice(b"Hello");
    base
}

/// The master hash of the small tree, by hashlib too.
pub(crate) const SMALL_MASTER: [u8; 32] =
    *b"\xbb\x06\x07\x79\xa3\x44\x7c\x4f\xfe\x39\x2a\x5d\x15\x7e\x42\x1e\x6d\xa5\x0b\x04\x2b\x88\x85\xd0\xef\xe6\x26\x16\xce\x8b\xe8\x4f";

/// Blocks of 65,536 bytes, two at level four and one at each other level.
fn coarse_tree() -> Difi
    ensures logs { HasBlockSizes result }
    ensures levels { HasHashLevels result }
    ensures size { view_size result ≡ 70000 }
    ensures master { result.master.size ≡ 32 }
    ensures contents { result.ivfc4.size ≡ 65539 }
{
    Difi {
        ivfc1: level(0, 32, 16),
        ivfc2: level(32, 32, 16),
        ivfc3: level(64, 64, 16),
        ivfc4: level(128, 65_539, 16),
        dpfs3: level(4_096, 70_000, 12),
        ..LONE_DIFI
    }
}

/// Another block size at each level. Level four lies behind the others, wherever its own place is said to be.
fn external_tree() -> Difi
    ensures logs { HasBlockSizes result }
    ensures levels { HasHashLevels result }
    ensures size { view_size result ≡ 134072 }
    ensures master { result.master.size ≡ 32 }
    ensures contents { result.ivfc4.size ≡ 132072 }
{
    Difi {
        external: true,
        external_at: 777,
        ivfc1: level(0, 32, 16),
        ivfc2: level(40, 64, 9),
        ivfc3: level(200, 1_056, 10),
        ivfc4: level(64, 132_072, 12),
        dpfs3: level(4_096, 2_000, 12),
        ..LONE_DIFI
    }
}

/// A space that tells nothing. It lends at most three bytes at once, and after so many pieces none.
#[derive(Drop)]
struct Silent<'a> {
    bytes: &'a mut [u8],
    left: u64,
    /// Whether it changes a byte before it lends it.
    restless: bool,
    faults: u64,
}

impl Space for Silent<'_> {
    ghost state = { λ s. record (bytes_state s.bytes.now 4096) { told = false; faults = s.faults } };

    ghost keeps = { λ spot s t. length t.bytes.now ≡ length s.bytes.now };

    ghost lands = { λ s x spot. ⊥ };

    ghost size_fits = { λ s. memory_size_fits (record { bytes = s.bytes; block = 4096; lent = 0 }) };

    ghost plain_bytes = { λ s plain told x. tt };

    ghost no_twins = { λ s single. record { apart = λ x y same. same; free = λ x. refl } };

    ghost keeps_same = { λ spot s. refl };

    ghost keeps_join = { λ spot s t u h k. k ∙ h };

    ghost keeps_hold = { λ s t kept. kept };

    ghost keeps_shape = { λ s t kept. ap (λ n. memory_shape n 4096) kept };

    ghost keeps_cells = { λ s t sound single told. absurd (false≢true told) };

    ghost keeps_lands = { λ s t sound single told. absurd (false≢true told) };

    fn len(&self) -> u64 {
        self.bytes.len() as u64
    }

    fn piece(&mut self, at: u64, most: usize) -> Result<&[u8], Bad> {
        if self.left == 0 {
            self.faults = self.faults.saturating_add(1);
            return Err(Bad::Disk);
        }
        self.left -= 1;
        if self.restless {
            raise(&mut *self.bytes, at as usize);
        }
        let start = at as usize;
        let end = start + most.min(3).min(self.bytes.len() - start);
        Ok(range(&self.bytes, start, end))
    }

    fn ready(&mut self, _at: u64, _n: u64) -> Result<(), Bad> {
        Ok(())
    }

    fn put(&mut self, _at: u64, _bytes: &[u8]) -> Result<(), Bad> {
        Ok(())
    }
}

fn raise(bytes: &mut [u8], at: usize)
    requires { at < length bytes.old }
    ensures { length bytes.new ≡ length bytes.old }
{
    bytes[at] = bytes[at].wrapping_add(1);
}

pub(crate) fn range<'b>(bytes: &'b &mut [u8], start: usize, end: usize) -> &'b [u8]
    requires order { start ≤ end }
    requires inside { end ≤ length bytes.now.now }
    ensures { length result.now ≡ end - start }
{
    &bytes[start..end]
}

/// How many bytes from a place on are good, by a caller that knows of the base only that it is a space.
fn good_in<S: Space>(
    base: &mut S,
    difi: &Difi,
    master: &mut [u8],
    state: &mut IvfcState,
    at: u64,
    most: usize,
) -> Result<usize, Bad>
    requires view { CanViewHashes (S.state base.old).shape difi.now (length master.old) state.old }
    requires inside { at < difi.now.ivfc4.size }
    requires some { 1 ≤ most }
    ensures verified { IsVerified (view_state (S.state base.old) PART master.old difi.now state.old) at most result }
    ensures reads { Reads S.state S.keeps S.lands base.old base.new (result_err result) }
    ensures master { master.new ≡ master.old }
    ensures marks { SameMarks state.old state.new }
{
    let mut view = IvfcView::new(base, PART, difi, master, state);
    view.verify(at, most)
}

/// How many bytes from a place on are good, after a block's status was asked for.
fn good_after_status<S: Space>(
    view: &mut IvfcView<'_, S>,
    block: u64,
    at: u64,
    most: usize,
) -> Result<usize, Bad>
    requires there { HasBlock view.old.difi.now 4 block }
    requires inside { IsInside (shown S.state view.old).shape at 1 }
    requires some { 1 ≤ most }
    ensures { Reads (shown S.state) (HashKeeps S.keeps) (hash_lands S.lands) view.old view.new (result_err result) }
{
    match view.status(4, block) {
        Ok(_) => view.verify(at, most),
        Err(bad) => Err(bad),
    }
}

/// The same twice by one view, over a small tree in a space that tells nothing.
fn good_in_silence(
    alloc: Global,
    left: u64,
    restless: bool,
) -> Result<(Result<usize, Bad>, Result<usize, Bad>), AllocError> {
    let difi = small_tree();
    let mut bytes = small_base();
    let mut master = SMALL_MASTER;
    let mut state = IvfcState::new(alloc, &difi)?;
    let mut silent = Silent {
        bytes: &mut bytes,
        left,
        restless,
        faults: 0,
    };
    let mut view = IvfcView::new(&mut silent, PART, &difi, &mut master, &mut state);
    let first = view.verify(1, 9);
    let second = view.verify(1, 9);
    Ok((first, second))
}

/// The length, the first and the last byte of what is lent from a place on. It is refused with `Disk` where `verify`
/// gives another length.
fn lent(
    alloc: Global,
    difi: &Difi,
    base: &mut [u8],
    master: &mut [u8],
    at: u64,
    most: usize,
) -> Result<Result<(usize, u8, u8), Bad>, AllocError>
    requires logs { HasBlockSizes difi.now }
    requires levels { HasHashLevels difi.now }
    requires base { length base.old ≡ view_size difi.now }
    requires master { length master.old ≡ difi.now.master.size }
    requires inside { at < difi.now.ivfc4.size }
    requires some { 1 ≤ most }
{
    let mut state = IvfcState::new(alloc, difi)?;
    let mut space = MemSpace::new(base, 4096);
    let mut view = IvfcView::new(&mut space, PART, difi, master, &mut state);
    let verified = view.verify(at, most);
    let answer = match view.piece(at, most) {
        Ok(piece) => Ok((piece.len(), piece[0], piece[piece.len() - 1])),
        Err(bad) => Err(bad),
    };
    if answer.map(|(len, _, _)| len) == verified {
        Ok(answer)
    } else {
        Ok(Err(Bad::Disk))
    }
}

/// Why the byte at a place is not lent.
pub(crate) fn fault_at(
    alloc: Global,
    difi: &Difi,
    base: &mut [u8],
    master: &mut [u8],
    at: u64,
) -> Result<Option<Bad>, AllocError>
    requires logs { HasBlockSizes difi.now }
    requires levels { HasHashLevels difi.now }
    requires base { length base.old ≡ view_size difi.now }
    requires master { length master.old ≡ difi.now.master.size }
    requires inside { at < difi.now.ivfc4.size }
{
    Ok(lent(alloc, difi, base, master, at, 1)?.err())
}

/// What names a level and a block.
pub(crate) fn damaged((level, block): (u8, u64)) -> Bad {
    Bad::Damaged {
        part: PART,
        level,
        block,
    }
}

/// The status of the last block of each level of the wide tree, of which each lies above the next.
pub(crate) fn last_statuses(
    alloc: Global,
    base: &mut [u8],
    master: &mut [u8],
) -> Result<[Status; 4], Fail>
    requires base { length base.old ≡ 2250000 }
    requires master { length master.old ≡ 64 }
{
    let difi = wide_tree();
    let mut state = IvfcState::new(alloc, &difi)?;
    let mut space = MemSpace::new(base, 4096);
    let mut view = IvfcView::new(&mut space, PART, &difi, master, &mut state);
    Ok([
        view.status(1, 1)?,
        view.status(2, 16)?,
        view.status(3, 256)?,
        view.status(4, 4096)?,
    ])
}

fn fill_range(rt: &impl Abort, base: &mut [u8], at: usize, size: usize, byte: u8)
    ensures { length base.new ≡ length base.old }
{
    assert!(rt; at < base.len() && size <= base.len() - at);
    base[at..at + size].fill(byte);
}

/// Turns the lowest bit of the byte at each place, and back where it is called again.
pub(crate) fn flip(rt: &impl Abort, bytes: &mut [u8], places: &[usize])
    ensures { length bytes.new ≡ length bytes.old }
{
    for &place in places {
        assert!(rt; place < bytes.len());
        bytes[place] ^= 1;
    }
}

#[test]
fn good_bytes_are_lent_up_to_the_end_of_their_block(rt: HostRuntime) -> Result<(), Fail> {
    let difi = wide_tree();
    let mut memory = wide_base(rt.alloc())?;
    let base = &mut memory[..];
    let mut master = [0; 64];
    hash_wide(&rt, base, &mut master, 0);
    for (at, most, len) in [
        (0u64, 1usize, 1usize),
        (0, 511, 511),
        (0, 512, 512),
        (0, 513, 512),
        (100, usize::MAX, 412),
        (511, 1, 1),
        (511, 2, 1),
        (2_096_640, 1000, 512),
        (2_097_151, 1000, 1),
        (2_097_152, 4, 4),
        (2_097_152, 512, 5),
        (2_097_156, 512, 1),
    ] {
        assert!(rt; at < 2_097_157 && 1 <= most);
        assert!(rt; 1 <= len && len <= 512);
        let first = 150_000 + at as usize;
        let want = (len, pattern(first), pattern(first + len - 1));
        assert_eq!(rt;
            lent(rt.alloc(), &difi, base, &mut master, at, most)?,
            Ok(want)
        );
    }
    Ok(())
}

#[test]
fn the_topmost_block_that_fails_is_named(rt: HostRuntime) -> Result<(), Fail> {
    let difi = wide_tree();
    let mut memory = wide_base(rt.alloc())?;
    let base = &mut memory[..];
    let mut master = [0; 64];
    hash_wide(&rt, base, &mut master, 0);
    // The bits that are turned in the base and in the master hash, and what is said of the blocks 0, 4,095 and 4,096.
    let cases: [(&[usize], &[usize], [Option<(u8, u64)>; 3]); 20] = [
        (&[], &[], [None, None, None]),
        // A byte of level four.
        (&[150_511], &[], [Some((4, 0)), None, None]),
        (&[2_246_640], &[], [None, Some((4, 4095)), None]),
        (&[2_247_156], &[], [None, None, Some((4, 4096))]),
        // A block's entry, or another of the same block.
        (&[10_031], &[], [Some((3, 0)), None, None]),
        (&[10_032], &[], [Some((3, 0)), None, None]),
        (&[141_040], &[], [None, Some((3, 255)), None]),
        (&[141_103], &[], [None, None, Some((3, 256))]),
        (&[1_511], &[], [Some((2, 0)), None, None]),
        (&[9_160], &[], [None, Some((2, 15)), None]),
        (&[9_200], &[], [None, None, Some((2, 16))]),
        (&[300], &[], [Some((1, 0)), Some((1, 0)), None]),
        (&[576], &[], [None, None, Some((1, 1))]),
        (&[], &[0], [Some((1, 0)), Some((1, 0)), None]),
        (&[], &[63], [None, None, Some((1, 1))]),
        // Several at once.
        (&[150_000, 1_000], &[], [Some((2, 0)), None, None]),
        (&[2_246_640, 141_040], &[], [None, Some((3, 255)), None]),
        (
            &[64, 9_200, 2_247_152],
            &[],
            [Some((1, 0)), Some((1, 0)), Some((2, 16))],
        ),
        (&[141_103, 2_247_152], &[63], [None, None, Some((1, 1))]),
        // Bytes between the levels.
        (
            &[608, 9_224, 141_104, 149_999, 2_247_157],
            &[],
            [None, None, None],
        ),
    ];
    for (in_base, in_master, want) in cases {
        flip(&rt, base, in_base);
        flip(&rt, &mut master, in_master);
        for (at, fault) in [0, 2_096_640, 2_097_152].into_iter().zip(want) {
            assert!(rt; at < 2_097_157);
            let found = fault_at(rt.alloc(), &difi, base, &mut master, at)?;
            assert_eq!(rt;
                found,
                fault.map(damaged),
                "{in_base:?} {in_master:?} at {at}"
            );
        }
        flip(&rt, base, in_base);
        flip(&rt, &mut master, in_master);
    }
    Ok(())
}

#[test]
fn zeros_fill_a_short_block(rt: HostRuntime) -> Result<(), Fail> {
    let difi = wide_tree();
    let mut memory = wide_base(rt.alloc())?;
    let base = &mut memory[..];
    let mut master = [0; 64];
    // The last block of each level but the first, its entry, and from where on the blocks above are hashed. Neither
    // the digest of its own bytes alone nor that of 512 bytes of the base will do.
    for (at, size, entry, above, fault) in [
        (2_247_152usize, 5usize, 141_072usize, 3usize, (4, 4096)),
        (141_072, 32, 9_192, 6, (3, 256)),
        (9_192, 32, 576, 9, (2, 16)),
    ] {
        assert!(rt; above <= 9);
        for hashed in [size, 512] {
            assert!(rt; hashed <= 512);
            hash_wide(&rt, base, &mut master, 0);
            put_digest(&rt, base, (at, hashed, entry), hashed);
            hash_wide(&rt, base, &mut master, above);
            let found = fault_at(rt.alloc(), &difi, base, &mut master, 2_097_152)?;
            assert_eq!(rt; found, Some(damaged(fault)), "{hashed} bytes from {at} on");
        }
    }
    hash_wide(&rt, base, &mut master, 0);
    master[32..].copy_from_slice(&Sha256::digest(&base[576..608]));
    let found = fault_at(rt.alloc(), &difi, base, &mut master, 2_097_152)?;
    assert_eq!(rt; found, Some(damaged((1, 1))));
    Ok(())
}

#[test]
fn an_entry_of_zeros_is_of_a_block_never_written(rt: HostRuntime) -> Result<(), Fail> {
    use Status::{Blank, Good};
    let difi = wide_tree();
    let mut memory = wide_base(rt.alloc())?;
    let base = &mut memory[..];
    let mut master = [0; 64];
    // An entry, from where on the blocks above are hashed, the entry's block, its name, and what is said of the last
    // block of each level.
    for (entry, above, at, size, fault, statuses) in [
        (
            141_072,
            3,
            2_247_152,
            5,
            (4, 4096),
            [Good, Good, Good, Blank],
        ),
        (9_192, 6, 141_072, 32, (3, 256), [Good, Good, Blank, Blank]),
        (576, 9, 9_192, 32, (2, 16), [Good, Blank, Blank, Blank]),
    ] {
        assert!(rt; above <= 9);
        hash_wide(&rt, base, &mut master, 0);
        fill_range(&rt, base, entry, 32, 0);
        hash_wide(&rt, base, &mut master, above);
        for byte in [None, Some(0), Some(0xFF)] {
            if let Some(byte) = byte {
                fill_range(&rt, base, at, size, byte);
            }
            let found = fault_at(rt.alloc(), &difi, base, &mut master, 2_097_152)?;
            assert_eq!(rt; found, Some(damaged(fault)), "{byte:?}");
            assert_eq!(rt;
                last_statuses(rt.alloc(), base, &mut master)?,
                statuses,
                "{byte:?}"
            );
        }
    }
    hash_wide(&rt, base, &mut master, 0);
    master[32..].fill(0);
    for byte in [0, 0xFF] {
        fill_range(&rt, base, 576, 32, byte);
        let found = fault_at(rt.alloc(), &difi, base, &mut master, 2_097_152)?;
        assert_eq!(rt; found, Some(damaged((1, 1))));
        assert_eq!(rt; last_statuses(rt.alloc(), base, &mut master)?, [Blank; 4]);
    }
    Ok(())
}

#[test]
fn blocks_that_were_never_written_lie_beside_written_ones(rt: HostRuntime) -> Result<(), Fail> {
    let difi = wide_tree();
    let mut memory = wide_base(rt.alloc())?;
    let base = &mut memory[..];
    let mut master = [0; 64];
    hash_wide(&rt, base, &mut master, 0);
    for (at, fault) in [
        (512u64, (4, 1)),
        (8_191, (4, 15)),
        (8_192, (3, 1)),
        (131_071, (3, 15)),
        (131_072, (2, 1)),
        (1_966_079, (2, 14)),
        (1_966_080, (3, 240)),
        (2_096_639, (4, 4094)),
    ] {
        assert!(rt; at < 2_097_157);
        let found = fault_at(rt.alloc(), &difi, base, &mut master, at)?;
        assert_eq!(rt; found, Some(damaged(fault)), "at {at}");
    }
    Ok(())
}

#[test]
fn status_tells_of_each_level(rt: HostRuntime) -> Result<(), Fail> {
    use Status::{Bad, Blank, Good};
    let mut memory = wide_base(rt.alloc())?;
    let base = &mut memory[..];
    let mut master = [0; 64];
    // The last byte of an entry whose other bytes are made zero before the blocks above are hashed; then the bits that
    // are turned.
    let cases: [(Option<(usize, u8)>, &[usize], [Status; 4]); 9] = [
        (None, &[], [Good, Good, Good, Good]),
        (None, &[2_247_156], [Good, Good, Good, Bad]),
        (None, &[141_103], [Good, Good, Bad, Bad]),
        (None, &[9_192], [Good, Bad, Bad, Bad]),
        (None, &[607], [Bad, Bad, Bad, Bad]),
        // The topmost decides.
        (Some((141_072, 0)), &[2_247_156], [Good, Good, Good, Blank]),
        (Some((141_072, 0)), &[9_192], [Good, Bad, Bad, Bad]),
        (Some((141_072, 0)), &[141_072], [Good, Good, Bad, Bad]),
        // An entry of which one byte is not zero is a digest.
        (Some((141_072, 1)), &[], [Good, Good, Good, Bad]),
    ];
    for (entry, flips, want) in cases {
        hash_wide(&rt, base, &mut master, 0);
        if let Some((entry, last)) = entry {
            assert!(rt; entry <= 2_000_000);
            fill_range(&rt, base, entry, 31, 0);
            fill_range(&rt, base, entry + 31, 1, last);
            hash_wide(&rt, base, &mut master, 3);
        }
        flip(&rt, base, flips);
        assert_eq!(rt;
            last_statuses(rt.alloc(), base, &mut master)?,
            want,
            "{entry:?} {flips:?}"
        );
        flip(&rt, base, flips);
    }
    Ok(())
}

#[test]
fn digests_of_another_program_are_good(rt: HostRuntime) -> Result<(), Fail> {
    let difi = small_tree();
    let mut base = small_base();
    let mut master = SMALL_MASTER;
    let mut state = IvfcState::new(rt.alloc(), &difi)?;
    let mut space = MemSpace::new(&mut base, 4096);
    let mut view = IvfcView::new(&mut space, PART, &difi, &mut master, &mut state);
    assert_eq!(rt; view.len(), 5);
    assert_eq!(rt; view.verify(0, 9)?, 5);
    assert_eq!(rt; view.piece(0, 9)?, b"Hello".as_slice());
    assert_eq!(rt; view.piece(3, 9)?, b"lo".as_slice());
    assert_eq!(rt; view.status(4, 0)?, Status::Good);
    assert_eq!(rt; good_after_status(&mut view, 0, 1, 3)?, 3);
    for place in 0..101usize {
        let fault = [(1, 0), (2, 0), (3, 0), (4, 0)][place / 32];
        let mut base = small_base();
        base[place] ^= 0x80;
        let found = fault_at(rt.alloc(), &difi, &mut base, &mut master, 4)?;
        assert_eq!(rt; found, Some(damaged(fault)), "{place}");
    }
    Ok(())
}

#[test]
fn blocks_have_up_to_65536_bytes(rt: HostRuntime) -> Result<(), Fail> {
    let difi = coarse_tree();
    let mut memory = patterned(rt.alloc(), 70_000)?;
    let base = &mut memory[..];
    let blocks = [
        ((128, 65_536, 64), 65_536),
        ((65_664, 3, 96), 65_536),
        ((64, 64, 32), 65_536),
        ((32, 32, 0), 65_536),
    ];
    let mut master = hash_up(&rt, base, &blocks);
    for (at, want) in [
        (0u64, (65_536usize, pattern(128), pattern(65_663))),
        (65_535, (1, pattern(65_663), pattern(65_663))),
        (65_536, (3, pattern(65_664), pattern(65_666))),
    ] {
        assert!(rt; at < 65_539);
        assert_eq!(rt;
            lent(rt.alloc(), &difi, base, &mut master, at, 100_000)?,
            Ok(want)
        );
    }
    let cases: [(usize, [Option<(u8, u64)>; 2]); 6] = [
        (65_663, [Some((4, 0)), None]),
        (65_664, [None, Some((4, 1))]),
        (96, [Some((3, 0)), Some((3, 0))]),
        (32, [Some((2, 0)), Some((2, 0))]),
        (0, [Some((1, 0)), Some((1, 0))]),
        (65_667, [None, None]),
    ];
    for (place, want) in cases {
        flip(&rt, base, &[place]);
        for (at, fault) in [65_535, 65_536].into_iter().zip(want) {
            assert!(rt; at < 65_539);
            let found = fault_at(rt.alloc(), &difi, base, &mut master, at)?;
            assert_eq!(rt; found, fault.map(damaged), "{place} at {at}");
        }
        flip(&rt, base, &[place]);
    }
    Ok(())
}

#[test]
fn external_level_four_lies_behind_the_others(rt: HostRuntime) -> Result<(), Fail> {
    let difi = external_tree();
    let mut memory = patterned(rt.alloc(), 134_072)?;
    let base = &mut memory[..];
    base[200..1_224].fill(0);
    let blocks = [
        ((128_976, 4096, 1_192), 4096),
        ((133_072, 1000, 1_224), 4096),
        ((200, 1024, 40), 1024),
        ((1_224, 32, 72), 1024),
        ((40, 64, 0), 512),
    ];
    let mut master = hash_up(&rt, base, &blocks);
    for (at, want) in [
        (126_976u64, (4_096usize, pattern(128_976), pattern(133_071))),
        (131_072, (1_000, pattern(133_072), pattern(134_071))),
        (132_071, (1, pattern(134_071), pattern(134_071))),
    ] {
        assert!(rt; at < 132_072);
        assert_eq!(rt;
            lent(rt.alloc(), &difi, base, &mut master, at, usize::MAX)?,
            Ok(want)
        );
    }
    let cases: [(usize, [Option<(u8, u64)>; 3]); 7] = [
        (128_976, [Some((4, 0)), Some((4, 31)), None]),
        (133_072, [Some((4, 0)), None, Some((4, 32))]),
        (1_192, [Some((3, 0)), Some((3, 0)), None]),
        (1_224, [Some((4, 0)), None, Some((3, 1))]),
        (72, [Some((2, 0)), Some((2, 0)), Some((2, 0))]),
        (0, [Some((1, 0)), Some((1, 0)), Some((1, 0))]),
        (1_999, [Some((4, 0)), None, None]),
    ];
    for (place, want) in cases {
        flip(&rt, base, &[place]);
        for (at, fault) in [0, 126_976, 131_072].into_iter().zip(want) {
            assert!(rt; at < 132_072);
            let found = fault_at(rt.alloc(), &difi, base, &mut master, at)?;
            assert_eq!(rt; found, fault.map(damaged), "{place} at {at}");
        }
        flip(&rt, base, &[place]);
    }
    Ok(())
}

#[test]
fn a_caller_needs_to_know_only_that_the_base_is_a_space(rt: HostRuntime) -> Result<(), Fail> {
    let difi = small_tree();
    let mut master = SMALL_MASTER;
    let mut state = IvfcState::new(rt.alloc(), &difi)?;
    let mut base = small_base();
    let mut memory = MemSpace::new(&mut base, 4096);
    let good = good_in(&mut memory, &difi, &mut master, &mut state, 1, 9)?;
    assert_eq!(rt; good, 4);
    let mut bytes = small_base();
    let mut state = IvfcState::new(rt.alloc(), &difi)?;
    let mut silent = Silent {
        bytes: &mut bytes,
        left: 67,
        restless: false,
        faults: 0,
    };
    let refused = good_in(&mut silent, &difi, &mut master, &mut state, 1, 9);
    assert_eq!(rt; refused, Err(Bad::Disk));
    assert_eq!(rt; silent.faults, 1);
    Ok(())
}

#[test]
fn a_refusal_of_the_base_is_passed_on(rt: HostRuntime) -> Result<(), Fail> {
    // 35 pieces for the bytes of four blocks and 33 for three entries.
    let refused = Err(Bad::Disk);
    // What was found by the first call the second one does not read again.
    for left in 0..70 {
        let want = if left < 68 { refused } else { Ok(4) };
        let found = good_in_silence(rt.alloc(), left, false)?;
        assert_eq!(rt; found, (want, want), "{left}");
    }
    Ok(())
}

#[test]
fn bytes_that_change_by_themselves_are_not_lent(rt: HostRuntime) -> Result<(), Fail> {
    let (first, second) = good_in_silence(rt.alloc(), 1_000, true)?;
    assert_eq!(rt; first, Err(damaged((1, 0))));
    assert_eq!(rt; second, Err(damaged((1, 0))));
    Ok(())
}
