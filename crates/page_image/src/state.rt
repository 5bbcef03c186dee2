//! What is held of an image.

ghost use Rattle.std.specs.Prelude.{◌≡◌, ℕ, ◌+◌, ◌-◌, ◌*◌, ◌/◌, ◌%◌, ◌^◌, ◌<◌, ◌≤◌, true, false, None, Some, length};
ghost use Rattle.std.specs.Prelude.{get_or, slice_index_or};
ghost use Rattle.page_image.specs.Layout.{IsImageLaidOut, IsEndOf};

/// Why an image was not opened.
#[derive(Clone, Copy, Debug, PartialEq, Eq)]
pub enum ImageFault {
    /// Memory was wanting.
    Memory,
    /// The disk failed.
    Disk,
}

/// The bytes of a page. Each frame holds one.
pub(crate) const PAGE: usize = 4096;

/// How many marks a frame has: as many as a page has sectors at most.
pub(crate) const MARKS: usize = 8;

/// At most so many pages are held at a time.
pub(crate) const MOST: usize = 16;

/// What is held of a disk's image between its views: its first 512 bytes, and in a fixed number of frames some of its
/// pages, with a mark for each of their sectors that has bytes which are not on the disk yet.
#[derive(Drop)]
pub struct ImageState {
    pub(crate) len: u64,
    pub(crate) grain: u64,
    // bytes 0 to 511 as last read or written
    pub(crate) header: [u8; 512],
    // for each page the frame that holds it, if one does
    pub(crate) slots: Vec<u8>,
    // for each frame the page that it holds
    pub(crate) pages: Vec<Option<u32>>,
    // the pages, one frame behind the other
    pub(crate) bytes: Vec<u8>,
    // for each frame the marks of its sectors
    pub(crate) changed: Vec<bool>,
    // for each frame when it was last asked for, by the clock; 0 where it holds no page
    pub(crate) uses: Vec<u64>,
    pub(crate) clock: u64,
    ghost layout: { IsImageLaidOut len grain (length slots.items) (length pages.items) (length bytes.items)
        (length changed.items) (length uses.items) },
}

impl ImageState {
    ghost use Rattle.save_disk.specs.State.{State};
    ghost use Rattle.page_image.specs.Images.{frame_of, is_held, is_changed, IsHeldPiece};
    ghost use Rattle.page_image.specs.Frames.{IsTouched, IsEmptied, TakesPage};
    ghost use Rattle.page_image.specs.Puts.{IsImagePut, IsUnmarked, IsFirstMarked, IsHeaded};
    ghost use Rattle.page_image.specs.WriteOuts.{IsSectorOf};

    pub(crate) fn len(&self) -> u64
        ensures { result ≡ self.now.len }
    {
        self.len
    }

    pub(crate) fn grain(&self) -> u64
        ensures { result ≡ self.now.grain }
    {
        self.grain
    }

    /// How many frames there are: as many as the image has pages, and at most 16. It never changes.
    pub fn frames(&self) -> usize
        ensures count { result ≡ length self.now.pages.items }
        ensures most { result ≤ 16 }
    {
        self.pages.len()
    }

    // The first 512 bytes.
    pub(crate) fn header(&self) -> &[u8; 512]
        ensures value { result.now ≡ self.now.header }
        ensures len { length result.now ≡ 512 }
    {
        &self.header
    }

    // How many sectors there are, the short last one among them.
    pub(crate) fn sectors(&self) -> usize
        ensures begins { (sector : ℕ) → sector < result → sector * self.now.grain < self.now.len }
        ensures covers { (sector : ℕ) → sector * self.now.grain < self.now.len → sector < result }
    {
        self.len.div_ceil(self.grain) as usize
    }

    // The frame that holds the page, if one does.
    fn frame_of(&self, page: usize) -> usize
        requires { page < length self.now.slots.items }
        ensures { result ≡ frame_of self.now page }
    {
        self.slots[page] as usize
    }

    // Whether a frame holds the page.
    pub(crate) fn is_held(&self, page: usize) -> bool
        requires { page < length self.now.slots.items }
        ensures { result ≡ is_held self.now page }
    {
        let frame = self.frame_of(page);
        if self.pages.len() <= frame {
            return false;
        }
        match self.page_in(frame) {
            Some(held) => held as usize == page,
            None => false,
        }
    }

    // Where the byte at a place lies among those of the frames, where its page is held.
    fn byte_at(&self, at: usize) -> usize
        requires inside { at < self.now.len }
        requires there { is_held self.now (at / 4096) ≡ true }
        ensures is { result ≡ frame_of self.now (at / 4096) * 4096 + at % 4096 }
        ensures fits { result + 4096 ≤ length self.now.bytes.items + at % 4096 }
    {
        self.frame_of(at / PAGE) * PAGE + at % PAGE
    }

    // Where the mark lies of the sector that begins at a place, where its page is held.
    fn mark_at(&self, at: usize) -> usize
        requires inside { at < self.now.len }
        requires there { is_held self.now (at / 4096) ≡ true }
        ensures is { result ≡ frame_of self.now (at / 4096) * 8 + at % 4096 / 512 }
        ensures fits { result + 8 ≤ length self.now.changed.items + at % 4096 / 512 }
    {
        self.frame_of(at / PAGE) * MARKS + at % PAGE / 512
    }

    // The page that a frame holds.
    pub(crate) fn page_in(&self, frame: usize) -> Option<u32>
        requires { frame < length self.now.pages.items }
        ensures { result ≡ get_or self.now.pages.items frame None }
    {
        self.pages[frame]
    }

    // A frame that was not asked for since any other was. One that holds no page goes first.
    pub(crate) fn oldest(&self) -> usize
        ensures { result < length self.now.pages.items }
    {
        let mut oldest = 0;
        for frame in 1..self.uses.len() {
            if self.uses[frame] < self.uses[oldest] {
                oldest = frame;
            }
        }
        oldest
    }

    // A page that is held is asked for.
    pub(crate) fn touch(&mut self, page: usize)
        requires page { page < length self.old.slots.items }
        requires held { is_held self.old page ≡ true }
        ensures { IsTouched self.old self.new }
    {
        let frame = self.frame_of(page);
        self.clock = self.clock.saturating_add(1);
        self.uses[frame] = self.clock;
    }

    // A frame holds no page any more.
    pub(crate) fn empty(&mut self, frame: usize)
        requires { frame < length self.old.pages.items }
        ensures { IsEmptied frame self.old self.new }
    {
        self.pages[frame] = None;
        self.uses[frame] = 0;
    }

    // A frame holds the page, and nothing of it is changed.
    pub(crate) fn settle(&mut self, frame: usize, page: usize)
        requires frame { frame < length self.old.pages.items }
        requires page { page < length self.old.slots.items }
        ensures { TakesPage frame page self.old self.new }
    {
        self.slots[page] = frame as u8;
        self.pages[frame] = Some(page as u32);
        self.changed[frame * MARKS..frame * MARKS + MARKS].fill(false);
    }

    // The bytes from `start` of a frame on.
    pub(crate) fn part(&self, start: usize, n: usize) -> &[u8]
        requires { start + n ≤ length self.now.bytes.items }
        ensures len { length result.now ≡ n }
        ensures bytes { (k : ℕ) → k < n → get_or result.now k 0 ≡ get_or self.now.bytes.items (start + k) 0 }
    {
        &self.bytes[start..start + n]
    }

    // The bytes from `start` on of the first 512.
    fn front(&self, start: usize, n: usize) -> &[u8]
        requires { start + n ≤ 512 }
        ensures len { length result.now ≡ n }
        ensures bytes { (k : ℕ) → k < n → get_or result.now k 0 ≡ get_or self.now.header (start + k) 0 }
    {
        &self.header[start..start + n]
    }

    /// Lends 1 to `most` bytes of the image from `at` on, as they are held.
    pub fn held(&self, at: u64, most: usize) -> &[u8]
        requires inside { at + 1 ≤ self.now.len }
        requires there { is_held self.now (at / 4096) ≡ true }
        requires some { 1 ≤ most }
        ensures { (disk : State) → IsHeldPiece disk self.now at most result.now }
    {
        let start = at as usize;
        let rest = most.min(self.len as usize - start);
        if start < 512 {
            return self.front(start, rest.min(512 - start));
        }
        self.part(self.byte_at(start), rest.min(PAGE - start % PAGE))
    }

    // A mark.
    fn mark(&self, i: usize) -> bool
        requires { i < length self.now.changed.items }
        ensures { result ≡ get_or self.now.changed.items i false }
    {
        self.changed[i]
    }

    // Whether the sector has a byte that is not on the disk yet.
    pub(crate) fn is_changed(&self, sector: usize) -> bool
        requires { sector * self.now.grain < self.now.len }
        ensures { result ≡ is_changed self.now sector }
    {
        let start = sector * self.grain as usize;
        if !self.is_held(start / PAGE) {
            return false;
        }
        self.mark(self.mark_at(start))
    }

    // Gives the bytes of a sector, with those of the header in the first one.
    pub(crate) fn copy_sector(&self, sector: usize, out: &mut [u8])
        requires inside { sector * self.now.grain < self.now.len }
        requires there { is_held self.now (sector * self.now.grain / 4096) ≡ true }
        requires whole { length out.old ≡ self.now.grain }
        ensures { (disk : State) → IsSectorOf disk self.now sector out.new }
    {
        let start = sector * self.grain as usize;
        out.copy_from_slice(self.part(self.byte_at(start), self.grain as usize));
        if sector == 0 {
            put_front(&self.header, out);
        }
    }

    // A sector that was written is not changed.
    pub(crate) fn unmark(&mut self, sector: usize)
        requires inside { sector * self.old.grain < self.old.len }
        requires there { is_held self.old (sector * self.old.grain / 4096) ≡ true }
        ensures { IsUnmarked sector self.old self.new }
    {
        let start = sector * self.grain as usize;
        let i = self.mark_at(start);
        self.changed[i] = false;
    }

    // Sector 0 is not changed.
    fn unmark_first(&mut self)
        ensures { IsUnmarked 0 self.old self.new }
    {
        if self.is_held(0) {
            self.unmark(0);
        }
    }

    // Sector 0 is changed, if its page is held.
    pub(crate) fn mark_first(&mut self)
        ensures { IsFirstMarked self.old self.new }
    {
        if self.is_held(0) {
            let i = self.mark_at(0);
            self.changed[i] = true;
        }
    }

    // The first 512 bytes are these, and all bytes of sector 0 are on the disk.
    pub(crate) fn set_header(&mut self, header: &[u8; 512])
        ensures { IsHeaded header.now self.old self.new }
    {
        self.unmark_first();
        self.header = *header;
    }

    // Puts a piece at a place. The sectors that it meets are changed.
    pub(crate) fn put(&mut self, at: u64, piece: &[u8])
        requires some { 1 ≤ length piece.now }
        requires inside { at + length piece.now ≤ self.old.len }
        requires in_page { at % 4096 + length piece.now ≤ 4096 }
        requires there { is_held self.old (at / 4096) ≡ true }
        ensures { IsImagePut at piece.now self.old self.new }
    {
        let start = self.byte_at(at as usize);
        let first = at / self.grain;
        let end = end_sector(at, piece.len() as u64, self.grain);
        let first_mark = self.mark_at((first * self.grain) as usize);
        write_part(&mut self.bytes, start, piece);
        set_marks(&mut self.changed, first_mark, (end - first) as usize);
    }
}

// Puts the first 512 bytes of an image to the front of a sector.
pub(crate) fn put_front(header: &[u8; 512], out: &mut [u8])
    requires { 512 ≤ length out.old }
    ensures front { (k : ℕ) → k < 512 → get_or out.new k 0 ≡ get_or header.now k 0 }
    ensures behind { (k : ℕ) → 512 ≤ k → get_or out.new k 0 ≡ get_or out.old k 0 }
    ensures len { length out.new ≡ length out.old }
{
    out[..512].copy_from_slice(header);
}

// The number behind the last sector that has one of the `n` places from `at` on.
#[tactic(auto, using(crate::proofs::SectorLemmas::sectors_up_to))]
fn end_sector(at: u64, n: u64, grain: u64) -> u64
    requires grain { 1 ≤ grain }
    requires some { 1 ≤ n }
    requires small { at + n < 2 ^ 63 }
    ensures { IsEndOf result at n grain }
{
    (at + n - 1) / grain + 1
}

// Puts a piece into the bytes from `start` on.
fn write_part(bytes: &mut Vec<u8>, start: usize, piece: &[u8])
    requires { start + length piece.now ≤ length bytes.old.items }
    ensures within { (k : ℕ) → k < length piece.now → get_or bytes.new.items (start + k) 0 ≡ get_or piece.now k 0 }
    ensures before { (x : ℕ) → x < start → get_or bytes.new.items x 0 ≡ get_or bytes.old.items x 0 }
    ensures behind { (x : ℕ) → start + length piece.now ≤ x → get_or bytes.new.items x 0 ≡ get_or bytes.old.items x 0 }
    ensures len { length bytes.new.items ≡ length bytes.old.items }
{
    bytes[start..start + piece.len()].copy_from_slice(piece);
}

// Sets `n` marks from `first` on.
fn set_marks(changed: &mut Vec<bool>, first: usize, n: usize)
    requires { first + n ≤ length changed.old.items }
    ensures within { (k : ℕ) → first ≤ k → k < first + n → slice_index_or changed.new.items k false ≡ true }
    ensures before { (k : ℕ) → k < first
        → slice_index_or changed.new.items k false ≡ slice_index_or changed.old.items k false }
    ensures behind { (k : ℕ) → first + n ≤ k
        → slice_index_or changed.new.items k false ≡ slice_index_or changed.old.items k false }
    ensures len { length changed.new.items ≡ length changed.old.items }
{
    changed[first..first + n].fill(true);
}
