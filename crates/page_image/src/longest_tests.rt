ghost use Rattle.std.specs.Prelude.{◌≡◌, ℕ, ◌*◌, ◌+◌, ◌^◌, ◌<◌, ◌≤◌, IsTrue, None, length};
ghost use Rattle.save_disk.specs.Grains.{is_grain};
ghost use Rattle.page_image.specs.Images.{IsDiskOf};

use super::*;
use crate::tests::read_one;
use save_bytes::Bad;
use save_disk::{Disk, Failed};
use std::test::Fail;

// The bytes of the longest image, and its pages.
const LONGEST: u64 = 67_108_864;

const PAGES: u64 = 16_384;

/// A disk of zeros but for one byte in each page, which are worked out when they are read. It tells no trace, and keeps
/// no write.
#[derive(Drop)]
struct WorkedOut {
    size: u64,
    grain: u64,
    reads: u64,
    ghost is_known: { IsTrue (is_grain grain) },
    ghost is_small: { size < 2 ^ 64 },
}

impl Disk for WorkedOut {
    ghost use Rattle.save_disk.specs.Grains.{known_grain};

    ghost state = { λ disk. record {
      told = None;
      size = disk.size;
      grain = disk.grain;
      counts = record { disk = 0; source = 0; sink = 0 };
    } };

    ghost sound = { λ disk. record {
      grain = known_grain disk.grain disk.is_known;
      size = disk.is_small;
      told_size = tt;
      told_grain = tt;
      told_writes = tt;
    } };

    fn grain(&self) -> u64 {
        self.grain
    }

    fn len(&mut self) -> Result<u64, Failed> {
        Ok(self.size)
    }

    fn read(&mut self, sector: u64, out: &mut [u8]) -> Result<(), Failed> {
        self.reads = self.reads.saturating_add(1);
        out.fill(0);
        let at = sector * self.grain;
        let place = mark_place(at / 4096);
        if at <= place {
            if let Some(byte) = out.get_mut((place - at) as usize) {
                *byte = mark_of(at / 4096);
            }
        }
        Ok(())
    }

    fn write(&mut self, _sector: u64, _bytes: &[u8]) -> Result<(), Failed> {
        Ok(())
    }

    fn sync(&mut self) -> Result<(), Failed> {
        Ok(())
    }
}

/// The place in a page that has another byte than 0.
fn mark_place(page: u64) -> u64
    requires { page < 2 ^ 52 }
    ensures { result ≡ page * 4096 + 777 }
{
    page * 4096 + 777
}

/// The byte there.
fn mark_of(page: u64) -> u8 {
    (page % 251) as u8 + 1
}

/// A byte, as the image has it.
fn byte_in<D: Disk>(disk: &mut D, state: &mut ImageState, at: u64) -> Result<u8, Bad>
    requires disk_of { IsDiskOf (D.state disk.old) state.old }
    requires inside { at < state.old.len }
    ensures disk_of { IsDiskOf (D.state disk.new) state.new }
    ensures len { state.new.len ≡ state.old.len }
{
    let mut image = state.view(disk);
    read_one(&mut image, at)
}

/// How many of all pages, which are gone over so many apart, show their mark.
fn marks_shown<D: Disk>(disk: &mut D, state: &mut ImageState, apart: u64) -> Result<u64, Bad>
    requires disk_of { IsDiskOf (D.state disk.old) state.old }
    requires len { state.old.len ≡ 67108864 }
    requires apart { apart ≤ 16384 }
{
    let mut shown: u64 = 0;
    for i in 0..PAGES {
        let page = i * apart % PAGES;
        if byte_in(disk, state, mark_place(page))? == mark_of(page) {
            shown = shown.saturating_add(1);
        }
    }
    Ok(shown)
}

#[test]
fn each_page_of_the_longest_image_is_lent(rt: HostRuntime) -> Result<(), Fail> {
    for (grain, reads) in [(512u64, 131_073u64), (4096, 16_385)] {
        assert!(rt; grain == 512 || grain == 4096);
        for apart in [1u64, 5003] {
            let mut disk = WorkedOut {
                size: LONGEST,
                grain,
                reads: 0,
            };
            let Ok(mut state) = ImageState::open(rt.alloc(), &mut disk, LONGEST) else {
                return Err("not opened".into());
            };
            assert_eq!(rt; state.frames(), 16);
            let shown = marks_shown(&mut disk, &mut state, apart)?;
            assert_eq!(rt; (shown, disk.reads), (PAGES, reads), "apart {apart}");
        }
    }
    Ok(())
}
