//! Seals of a sample image's only partition, and what the image holds then.

ghost use Rattle.std.specs.Prelude.{◌≡◌, ◌+◌, ◌<◌, ◌≤◌, false, length, slice_range, IfOk};
ghost use Rattle.std.proofs.Common.{◌∙◌, ap, refl};
ghost use Rattle.std.proofs.lemmas.Bool.{false≢true};
ghost use Rattle.save_bytes.specs.Memory.{bytes_state, memory_shape};
ghost use Rattle.save_bytes.specs.MemoryLaws.{memory_size_fits};
ghost use Rattle.part_store.specs.Parts.{CanViewPart};

use crate::tests::{open, put_at, table_of};
use crate::{Part, PartView};
use save_bytes::{Bad, MemSpace, Space};
use save_samples::{Sample, sample};
use std::alloc::{AllocError, Global};
use std::test::Fail;

/// The selector stands here in the table.
const SELECTOR: usize = 0x39;

/// Puts bytes at a place of level four, and seals the partition.
fn seal_after_put<S: Space>(
    base: &mut S,
    part: &mut Part,
    table: &mut [u8],
    at: u64,
    bytes: &[u8],
) -> Result<u8, Bad>
    requires view { CanViewPart (S.state base.old).shape part.old (length table.old) }
    requires inside { at + length bytes.now ≤ part.old.difi.ivfc4.size }
    ensures shape { (S.state base.new).shape ≡ (S.state base.old).shape }
    ensures view { CanViewPart (S.state base.new).shape part.new (length table.new) }
    ensures descriptor { part.new.difi ≡ part.old.difi }
    ensures table { length table.new ≡ length table.old }
    ensures selector { IfOk result (λ selector. selector < 2) }
{
    match put_at(base, part, table, at, bytes) {
        Ok(()) => seal(base, part, table),
        Err(bad) => Err(bad),
    }
}

fn seal<S: Space>(base: &mut S, part: &mut Part, table: &mut [u8]) -> Result<u8, Bad>
    requires view { CanViewPart (S.state base.old).shape part.old (length table.old) }
    ensures shape { (S.state base.new).shape ≡ (S.state base.old).shape }
    ensures view { CanViewPart (S.state base.new).shape part.new (length table.new) }
    ensures descriptor { part.new.difi ≡ part.old.difi }
    ensures table { length table.new ≡ length table.old }
    ensures selector { IfOk result (λ selector. selector < 2) }
{
    let mut view = PartView::new(base, part, table);
    view.seal()
}

/// What is answered of the first four bytes at a place of level four by a partition that is opened with a selector.
fn four_reopened(
    alloc: Global,
    image: &mut [u8],
    table: &mut [u8; 300],
    selector: u8,
    at: u64,
) -> Result<Result<[u8; 4], Bad>, AllocError>
    requires image { length image.old ≡ 110592 }
    requires selector { selector < 2 }
    requires inside { at < 34816 }
    ensures { length image.new ≡ 110592 }
{
    let mut part = open(alloc, 0)?;
    part.settle(selector);
    let mut space = MemSpace::new(image, 512);
    let mut view = PartView::new(&mut space, &mut part, table);
    let mut four = [0; 4];
    match view.piece(at, 4) {
        Ok(piece) => {
            let n = piece.len();
            four[..n].copy_from_slice(piece);
            Ok(Ok(four))
        }
        Err(bad) => Ok(Err(bad)),
    }
}

/// Puts four bytes into the image's partition, and seals it.
fn seal_image(
    image: &mut [u8],
    part: &mut Part,
    table: &mut [u8; 300],
    at: u64,
    bytes: &[u8; 4],
) -> Result<u8, Bad>
    requires image { length image.old ≡ 110592 }
    requires view { CanViewPart (memory_shape 110592 512) part.old 300 }
    requires size { part.old.difi.ivfc4.size ≡ 34816 }
    requires inside { at < 34813 }
    ensures image { length image.new ≡ 110592 }
    ensures view { CanViewPart (memory_shape 110592 512) part.new 300 }
    ensures size { part.new.difi.ivfc4.size ≡ 34816 }
{
    let mut space = MemSpace::new(image, 512);
    seal_after_put(&mut space, part, table, at, bytes)
}

/// Takes the selector that a seal answered.
fn settle(part: &mut Part, selector: u8)
    requires view { CanViewPart (memory_shape 110592 512) part.old 300 }
    requires size { part.old.difi.ivfc4.size ≡ 34816 }
    requires selector { selector < 2 }
    ensures view { CanViewPart (memory_shape 110592 512) part.new 300 }
    ensures size { part.new.difi.ivfc4.size ≡ 34816 }
{
    part.settle(selector);
}

/// What a seal answers once four bytes were put, and what is answered then of the four at a place, by the sealed table,
/// and of the first four by the table as it was.
fn four_sealed(
    alloc: Global,
    at: u64,
    from: u64,
) -> Result<(Result<u8, Bad>, Result<[u8; 4], Bad>, Result<[u8; 4], Bad>), Fail>
    requires at { at < 34813 }
    requires from { from < 34816 }
{
    let mut image = sample(alloc, Sample::Single)?;
    let mut table = table_of(&image);
    let mut was = table;
    let mut part = open(alloc, 0)?;
    let sealed = seal_image(&mut image, &mut part, &mut table, at, b"DATA");
    let now = four_reopened(alloc, &mut image, &mut table, 1, from)?;
    let before = four_reopened(alloc, &mut image, &mut was, 0, 0)?;
    Ok((sealed, now, before))
}

#[test]
fn sealed_bytes_are_read_again(rt: HostRuntime) -> Result<(), Fail> {
    let alloc = rt.alloc();
    for (at, from, want) in [
        (0, 0, *b"DATA"),
        (1, 0, *b"SDAT"),
        // The other bytes of a block that was never written are zeros.
        (5000, 4998, *b"\0\0DA"),
        (4096, 8188, [0; 4]),
        // The last block is shorter than the others.
        (34_812, 34_812, *b"DATA"),
        (34_000, 32_768, [0; 4]),
    ] {
        let found = four_sealed(alloc, at, from)?;
        assert_eq!(rt; found, (Ok(1), Ok(want), Ok(*b"SAVE")));
    }
    Ok(())
}

#[test]
fn blank_blocks_beside_a_sealed_one_stay_blank(rt: HostRuntime) -> Result<(), Fail> {
    let alloc = rt.alloc();
    let mut image = sample(alloc, Sample::Single)?;
    let mut table = table_of(&image);
    let mut part = open(alloc, 0)?;
    assert_eq!(rt;
        seal_image(&mut image, &mut part, &mut table, 8192, b"DATA"),
        Ok(1)
    );
    for (at, block) in [(4096, 1), (12_288, 3), (34_812, 8)] {
        let blames = Bad::Damaged {
            part: 0,
            level: 4,
            block,
        };
        assert_eq!(rt;
            four_reopened(alloc, &mut image, &mut table, 1, at)?,
            Err(blames)
        );
    }
    Ok(())
}

#[test]
fn a_second_seal_turns_the_selector_back(rt: HostRuntime) -> Result<(), Fail> {
    let alloc = rt.alloc();
    let mut image = sample(alloc, Sample::Single)?;
    let mut table = table_of(&image);
    let mut part = open(alloc, 0)?;
    assert_eq!(rt;
        seal_image(&mut image, &mut part, &mut table, 0, b"DATA"),
        Ok(1)
    );
    settle(&mut part, 1);
    let mut first = table;
    assert_eq!(rt;
        seal_image(&mut image, &mut part, &mut table, 4, b"MORE"),
        Ok(0)
    );
    assert_eq!(rt; table[SELECTOR], 0);
    assert_eq!(rt;
        four_reopened(alloc, &mut image, &mut table, 0, 0)?,
        Ok(*b"DATA")
    );
    assert_eq!(rt;
        four_reopened(alloc, &mut image, &mut table, 0, 4)?,
        Ok(*b"MORE")
    );
    // What the first seal left is there still.
    assert_eq!(rt;
        four_reopened(alloc, &mut image, &mut first, 1, 0)?,
        Ok(*b"DATA")
    );
    assert_eq!(rt;
        four_reopened(alloc, &mut image, &mut first, 1, 8)?,
        Ok([0x20, 0, 0, 0])
    );
    Ok(())
}

/// Bytes in memory that tell nothing, and to which so many puts are made and no more.
#[derive(Drop)]
struct Failing<'a> {
    bytes: &'a mut [u8],
    left: u64,
    faults: u64,
}

impl Space for Failing<'_> {
    ghost state = { λ s. record (bytes_state s.bytes.now 512) { told = false; faults = s.faults } };

    ghost keeps = { λ spot s t. length t.bytes.now ≡ length s.bytes.now };

    ghost lands = { λ s x spot. ⊥ };

    ghost size_fits = { λ s. memory_size_fits (record { bytes = s.bytes; block = 512; lent = 0 }) };

    ghost plain_bytes = { λ s plain told x. tt };

    ghost no_twins = { λ s single. record { apart = λ x y same. same; free = λ x. refl } };

    ghost keeps_same = { λ spot s. refl };

    ghost keeps_join = { λ spot s t u h k. k ∙ h };

    ghost keeps_hold = { λ s t kept. kept };

    ghost keeps_shape = { λ s t kept. ap (λ n. memory_shape n 512) kept };

    ghost keeps_cells = { λ s t sound single told. absurd (false≢true told) };

    ghost keeps_lands = { λ s t sound single told. absurd (false≢true told) };

    fn len(&self) -> u64 {
        self.bytes.len() as u64
    }

    fn piece(&mut self, at: u64, most: usize) -> Result<&[u8], Bad> {
        let start = at as usize;
        let end = start + most.min(self.bytes.len() - start);
        Ok(range(&self.bytes, start, end))
    }

    fn ready(&mut self, _at: u64, _n: u64) -> Result<(), Bad> {
        Ok(())
    }

    fn put(&mut self, at: u64, bytes: &[u8]) -> Result<(), Bad> {
        if self.left == 0 {
            self.faults = self.faults.saturating_add(1);
            return Err(Bad::Disk);
        }
        self.left -= 1;
        write(&mut *self.bytes, at as usize, bytes);
        Ok(())
    }
}

/// The bytes from `start` up to `end`.
fn range<'b>(bytes: &'b &mut [u8], start: usize, end: usize) -> &'b [u8]
    requires ordered { start ≤ end }
    requires inside { end ≤ length bytes.now.now }
    ensures { result.now ≡ slice_range bytes.now.now start end }
{
    &bytes[start..end]
}

fn write(all: &mut [u8], at: usize, bytes: &[u8])
    requires { at + length bytes.now ≤ length all.old }
    ensures { length all.new ≡ length all.old }
{
    all[at..at + bytes.len()].copy_from_slice(bytes);
}

/// Puts the first four bytes into the image's partition and seals it, over a base that takes so many puts.
fn seal_until(
    alloc: Global,
    image: &mut [u8],
    table: &mut [u8; 300],
    puts: u64,
) -> Result<Result<u8, Bad>, AllocError>
    requires { length image.old ≡ 110592 }
    ensures { length image.new ≡ 110592 }
{
    let mut part = open(alloc, 0)?;
    let mut space = Failing {
        bytes: image,
        left: puts,
        faults: 0,
    };
    Ok(seal_after_put(&mut space, &mut part, table, 0, b"DATA"))
}

// Four blocks of the contents are written, each in one piece behind the eight that are copied. Then two blocks of bits are
// copied, and a word is turned in each.
#[test]
fn what_was_sealed_before_stands_wherever_a_put_fails(rt: HostRuntime) -> Result<(), Fail> {
    let alloc = rt.alloc();
    for puts in 0..40 {
        let mut image = sample(alloc, Sample::Single)?;
        let mut table = table_of(&image);
        let mut was = table;
        let sealed = seal_until(alloc, &mut image, &mut table, puts)?;
        assert_eq!(rt; sealed, Err(Bad::Disk), "{puts} puts");
        assert_eq!(rt; table[SELECTOR], 0, "{puts} puts");
        assert_eq!(rt;
            four_reopened(alloc, &mut image, &mut was, 0, 0)?,
            Ok(*b"SAVE"),
            "{puts} puts"
        );
    }
    let mut image = sample(alloc, Sample::Single)?;
    let mut table = table_of(&image);
    assert_eq!(rt; seal_until(alloc, &mut image, &mut table, 40)?, Ok(1));
    assert_eq!(rt;
        four_reopened(alloc, &mut image, &mut table, 1, 0)?,
        Ok(*b"DATA")
    );
    Ok(())
}
