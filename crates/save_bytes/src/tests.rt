ghost use Rattle.std.specs.Prelude.{refl, ◌≡◌, ℕ, ◌+◌, ◌<◌, ◌≤◌, length, slice_index, IsTrue, IfOk, None};
ghost use Rattle.std.proofs.Common.{◌∙◌};
ghost use Rattle.std.specs.Result.{result_err};
ghost use Rattle.save_bytes.specs.Cells.{Byte};
ghost use Rattle.save_bytes.specs.Refusals.{NeverDamaged};
ghost use Rattle.save_bytes.specs.Answers.{IsReady, IsClearReady};
ghost use Rattle.save_bytes.specs.State.{IsInside, IsWritable, CanPut};
ghost use Rattle.save_bytes.specs.Reads.{Reads};
ghost use Rattle.save_bytes.specs.Puts.{Puts};
ghost use Rattle.save_bytes.specs.Memory.{memory_state};
ghost use Rattle.save_bytes.specs.Spots.{Spot, Mark, Hold, Misses};

use super::*;
use std::test::Fail;

#[test]
fn fields_stand_lowest_byte_first(rt: HostRuntime) {
    let mut bytes = [0u8; 12];
    set_u32(&mut bytes, 1, 0x0403_0201);
    assert_eq!(rt; bytes, [0, 1, 2, 3, 4, 0, 0, 0, 0, 0, 0, 0]);
    assert_eq!(rt; u32_at(&bytes, 1), 0x0403_0201);
    set_u64(&mut bytes, 4, 0x0c0b_0a09_0807_0605);
    assert_eq!(rt; bytes, [0, 1, 2, 3, 5, 6, 7, 8, 9, 10, 11, 12]);
    assert_eq!(rt; u64_at(&bytes, 4), 0x0c0b_0a09_0807_0605);
    assert_eq!(rt; u32_at(&bytes, 8), 0x0c0b_0a09);
}

#[test]
fn a_name_is_empty_where_each_byte_is_zero(rt: HostRuntime) {
    assert!(rt; Name([0; 16]).is_empty());
    assert!(rt; !Name(*b"a\0\0\0\0\0\0\0\0\0\0\0\0\0\0\0").is_empty());
    assert!(rt; !Name([0, 0, 0, 0, 0, 0, 0, 0, 0, 0, 0, 0, 0, 0, 0, 1]).is_empty());
}

#[test]
fn words_are_kept_in_order(rt: HostRuntime) -> Result<(), Fail> {
    let mut words = Words::new(rt.alloc());
    assert_eq!(rt; words.count(), 0);
    words.push("image")?;
    words.push("")?;
    words.push("info")?;
    assert_eq!(rt; words.count(), 3);
    assert_eq!(rt; words.get(0), b"image".as_slice());
    assert_eq!(rt; words.get(1), b"".as_slice());
    assert_eq!(rt; words.get(2), b"info".as_slice());
    Ok(())
}

// A space that lends one byte at a time.
#[derive(Drop)]
struct Narrow<'a, S> {
    base: &'a mut S,
}

impl<S: Space> Space for Narrow<'_, S> {
    ghost state = { λ v. S.state v.base.now };

    ghost keeps = { λ spot s t. (t.base.ghost_name ≡ s.base.ghost_name) × S.keeps spot s.base.now t.base.now };

    ghost lands = { λ v. S.lands v.base.now };

    ghost size_fits = { λ v. S.size_fits v.base.now };

    ghost plain_bytes = { λ v. S.plain_bytes v.base.now };

    ghost no_twins = { λ v. S.no_twins v.base.now };

    ghost keeps_same = { λ spot v. (refl, S.keeps_same spot v.base.now) };

    ghost keeps_join = { λ spot s t u h k. (k.0 ∙ h.0, S.keeps_join spot s.base.now t.base.now u.base.now h.1 k.1) };

    ghost keeps_hold = { λ s t h. (h.0, S.keeps_hold s.base.now t.base.now h.1) };

    ghost keeps_shape = { λ s t h. S.keeps_shape s.base.now t.base.now h.1 };

    ghost keeps_cells = { λ s t sound single told still kept. S.keeps_cells s.base.now t.base.now sound single told still (λ spot. (kept spot).1) };

    ghost keeps_lands = { λ s t sound single told still kept. S.keeps_lands s.base.now t.base.now sound single told still (λ spot. (kept spot).1) };

    fn len(&self) -> u64 {
        self.base.len()
    }

    fn piece(&mut self, at: u64, _most: usize) -> Result<&[u8], Bad> {
        let base = &mut *self.base;
        base.piece(at, 1)
    }

    fn ready(&mut self, at: u64, n: u64) -> Result<(), Bad> {
        let base = &mut *self.base;
        base.ready(at, n)
    }

    fn put(&mut self, at: u64, bytes: &[u8]) -> Result<(), Bad> {
        let base = &mut *self.base;
        base.put(at, bytes)
    }
}

// The bytes at two places.
fn read_two<S: Space>(space: &mut S, at: u64, other: u64) -> Result<(u8, u8), Bad>
    requires first { IsInside (S.state space.old).shape at 1 }
    requires second { IsInside (S.state space.old).shape other 1 }
    ensures bytes { IsTrue (S.state space.old).told → IfOk result
        (λ two. ((S.state space.old).cells at ≡ Byte two.0) × ((S.state space.old).cells other ≡ Byte two.1)) }
    ensures reads { Reads S.state S.keeps S.lands space.old space.new (result_err result) }
{
    let first = read_one(space, at)?;
    let second = read_one(space, other)?;
    Ok((first, second))
}

fn read_one<S: Space>(space: &mut S, at: u64) -> Result<u8, Bad>
    requires { IsInside (S.state space.old).shape at 1 }
    ensures byte { IsTrue (S.state space.old).told → IfOk result (λ byte. (S.state space.old).cells at ≡ Byte byte) }
    ensures reads { Reads S.state S.keeps S.lands space.old space.new (result_err result) }
{
    let piece = space.piece(at, 1)?;
    Ok(piece[0])
}

// What was put is read again, and no other spot was touched.
fn put_and_read<S: Space>(space: &mut S, at: u64, bytes: [u8; 2]) -> Result<(u8, u8), Bad>
    requires { IsWritable (S.state space.old).shape at 2 }
    ensures read_back { CanPut (S.state space.old) at 2 → IfOk result
        (λ two. (two.0 ≡ slice_index bytes 0) × (two.1 ≡ slice_index bytes 1)) }
    ensures hold { S.keeps Hold space.old space.new }
    ensures spots { CanPut (S.state space.old) at 2 → (spot : Spot)
        → Misses (S.lands space.old) at 2 spot → S.keeps spot space.old space.new }
{
    space.put(at, &bytes)?;
    read_two(space, at, at + 1)
}

// A place of a block that was cleared reads as zero.
fn clear_and_read<F: Floor>(space: &mut F, at: u64) -> Result<u8, Bad>
    requires { IsInside (F.state space.old).shape at 1 }
    ensures zero { IsTrue (F.state space.old).told → IfOk result (λ byte. byte ≡ 0) }
    ensures hold { F.keeps Hold space.old space.new }
{
    space.clear(at)?;
    read_one(space, at)
}

// Where the block of a place lies, once it is known that it may be cleared.
fn clearable_block<F: Floor>(space: &mut F, at: u64) -> Result<(u64, u64), Bad>
    requires { IsInside (F.state space.old).shape at 1 }
    ensures block { IfOk result (λ block. (block.0 ≡ (F.state space.old).shape.block_start at) × (block.1 ≡ (F.state space.old).shape.block_len at)) }
    ensures ready { IsClearReady (F.state space.old) at (result_err result) }
    ensures reads { Reads F.state F.keeps F.lands space.old space.new (result_err result) }
{
    let block = space.block_of(at);
    match space.clear_ready(at) {
        Ok(()) => Ok(block),
        Err(bad) => Err(bad),
    }
}

// How many bytes a space has, asked through its bound.
fn size_of_space<S: Space>(space: &S) -> u64
    requires { IsTrue (S.state space.now).shape.sound }
    ensures { result ≡ (S.state space.now).shape.size }
{
    space.len()
}

// A floor has no twins and no fixed places, so each place of it may be written.
fn put_on_floor<F: Floor>(space: &mut F, at: u64, bytes: &[u8]) -> Result<(), Bad>
    requires { IsInside (F.state space.old).shape at (length bytes.now) }
    ensures puts { Puts (F.state space.old) at bytes.now (F.state space.new) (result_err result) }
    ensures hold { F.keeps Hold space.old space.new }
{
    space.put(at, bytes)
}

// Where `ready` told that two ranges may be written, neither put is refused as damaged. A spot that neither range touches
// was left alone, a mark among them.
fn put_twice<S: Space>(space: &mut S, at: u64, other: u64, bytes: [u8; 2]) -> Result<(), Bad>
    requires first { IsWritable (S.state space.old).shape at 2 }
    requires second { IsWritable (S.state space.old).shape other 2 }
    requires first_ready { IsReady (S.state space.old) at 2 None }
    requires second_ready { IsReady (S.state space.old) other 2 None }
    ensures never { CanPut (S.state space.old) at 2 → CanPut (S.state space.old) other 2 → NeverDamaged (result_err result) }
    ensures hold { S.keeps Hold space.old space.new }
    ensures spots { CanPut (S.state space.old) at 2 → CanPut (S.state space.old) other 2 → (spot : Spot)
        → Misses (S.lands space.old) at 2 spot → Misses (S.lands space.old) other 2 spot → S.keeps spot space.old space.new }
    ensures marks { CanPut (S.state space.old) at 2 → CanPut (S.state space.old) other 2 → (part level block : ℕ)
        → Misses (S.lands space.old) at 2 (Mark part level block) → Misses (S.lands space.old) other 2 (Mark part level block)
        → S.keeps (Mark part level block) space.old space.new }
{
    space.put(other, &bytes)?;
    space.put(at, &bytes)
}

// A space in memory refuses no call.
fn memory_answers_ok(space: &mut MemSpace, at: u64) -> bool
    requires { IsInside (memory_state space.old).shape at 1 }
    ensures { IsTrue result }
{
    let lent = space.piece(at, 1).is_ok();
    let ready = space.ready(at, 1).is_ok();
    let put = space.put(at, &[1]).is_ok();
    let clear_ready = space.clear_ready(at).is_ok();
    let clear = space.clear(at).is_ok();
    lent && ready && put && clear_ready && clear
}

#[test]
fn pieces_are_no_longer_than_asked_and_stop_at_the_end(rt: HostRuntime) -> Result<(), Fail> {
    let cases: [(u64, usize, &[u8]); 5] = [
        (0, 1, &[10]),
        (0, 3, &[10, 11, 12]),
        (3, 2, &[13, 14]),
        (4, 9, &[14, 15, 16]),
        (6, usize::MAX, &[16]),
    ];
    for (at, most, want) in cases {
        let mut bytes = [10, 11, 12, 13, 14, 15, 16];
        let mut space = MemSpace::new(&mut bytes, 4);
        assert!(rt; at < 7 && 1 <= most);
        assert_eq!(rt; space.len(), 7);
        assert_eq!(rt; space.piece(at, most)?, want, "at {at}");
        assert!(rt; memory_answers_ok(&mut space, at));
    }
    Ok(())
}

#[test]
fn a_memory_counts_the_bytes_that_it_lent(rt: HostRuntime) -> Result<(), Fail> {
    let cases: [(u64, usize, u64); 4] = [(0, 1, 1), (2, 3, 3), (4, 9, 3), (6, usize::MAX, 1)];
    for (at, most, want) in cases {
        let mut bytes = [10, 11, 12, 13, 14, 15, 16];
        let mut space = MemSpace::new(&mut bytes, 4);
        assert!(rt; at < 7 && 1 <= most);
        assert_eq!(rt; space.lent(), 0);
        let _ = space.piece(at, most)?;
        assert_eq!(rt; space.lent(), want, "at {at}");
        space.ready(at, 1)?;
        space.put(at, &[1])?;
        space.clear_ready(at)?;
        space.clear(at)?;
        assert_eq!(rt; space.lent(), want, "at {at}");
        let _ = space.piece(0, 2)?;
        assert_eq!(rt; space.lent(), want + 2, "at {at}");
    }
    Ok(())
}

#[test]
fn a_put_shows_at_its_place_alone(rt: HostRuntime) -> Result<(), Fail> {
    let cases: [(u64, &[u8], [u8; 6]); 5] = [
        (0, &[7], [7, 1, 1, 1, 1, 1]),
        (2, &[7, 8], [1, 1, 7, 8, 1, 1]),
        (5, &[7], [1, 1, 1, 1, 1, 7]),
        (0, &[2, 3, 4, 5, 6, 7], [2, 3, 4, 5, 6, 7]),
        (6, &[], [1, 1, 1, 1, 1, 1]),
    ];
    for (at, piece, want) in cases {
        let mut bytes = [1; 6];
        let mut space = MemSpace::new(&mut bytes, 4);
        assert!(rt; at <= 6 && at + piece.len() as u64 <= 6);
        space.ready(at, piece.len() as u64)?;
        space.put(at, piece)?;
        assert_eq!(rt; bytes, want, "at {at}");
    }
    Ok(())
}

#[test]
fn the_last_block_is_cut_by_the_end(rt: HostRuntime) -> Result<(), Fail> {
    let cases: [(u64, (u64, u64), [u8; 10]); 4] = [
        (0, (0, 4), [0, 0, 0, 0, 5, 6, 7, 8, 9, 10]),
        (3, (0, 4), [0, 0, 0, 0, 5, 6, 7, 8, 9, 10]),
        (5, (4, 4), [1, 2, 3, 4, 0, 0, 0, 0, 9, 10]),
        (9, (8, 2), [1, 2, 3, 4, 5, 6, 7, 8, 0, 0]),
    ];
    for (at, block, want) in cases {
        let mut bytes = [1, 2, 3, 4, 5, 6, 7, 8, 9, 10];
        let mut space = MemSpace::new(&mut bytes, 4);
        assert!(rt; at < 10);
        assert_eq!(rt; size_of_space(&space), 10);
        assert_eq!(rt; clearable_block(&mut space, at)?, block, "at {at}");
        space.clear(at)?;
        assert_eq!(rt; bytes, want, "at {at}");
    }
    Ok(())
}

#[test]
fn numbers_are_read_across_pieces(rt: HostRuntime) -> Result<(), Fail> {
    let mut bytes = [9, 1, 2, 3, 4, 5, 6, 7, 8, 9];
    let mut space = MemSpace::new(&mut bytes, 16);
    let mut narrow = Narrow { base: &mut space };
    assert_eq!(rt; space_u32(&mut narrow, 1)?, 0x0403_0201);
    assert_eq!(rt; space_u64(&mut narrow, 1)?, 0x0807_0605_0403_0201);
    let mut out = [0; 3];
    space_copy(&mut narrow, 7, &mut out)?;
    assert_eq!(rt; out, [7, 8, 9]);
    space_copy(&mut narrow, 10, &mut [])?;
    assert_eq!(rt; space_u32(&mut space, 6)?, 0x0908_0706);
    Ok(())
}

#[test]
fn generic_calls_act_on_the_bytes_in_memory(rt: HostRuntime) -> Result<(), Fail> {
    let mut bytes = [1, 2, 3, 4, 5, 6, 7, 8];
    let mut space = MemSpace::new(&mut bytes, 4);
    assert_eq!(rt; read_two(&mut space, 7, 0)?, (8, 1));
    assert_eq!(rt; put_and_read(&mut space, 1, [20, 30])?, (20, 30));
    assert_eq!(rt; clear_and_read(&mut space, 5)?, 0);
    put_twice(&mut space, 0, 6, [40, 50])?;
    put_on_floor(&mut space, 3, &[60])?;
    assert_eq!(rt; bytes, [40, 50, 30, 60, 0, 0, 40, 50]);
    Ok(())
}
