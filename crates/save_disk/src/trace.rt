//! What a desk in memory remembers: the image, what happened to it, and its source.

ghost use Rattle.std.specs.Prelude.{◌≡◌, ◌*◌, ◌+◌, ◌^◌, ◌<◌, ◌≤◌, ◌++◌, [], ◌∷◌, min, length, map, take, drop, vec_len, vec_capacity, IsTrue, IfOk, OnOk};
ghost use Rattle.save_disk.specs.Trace.{Write, Sync, Said, with_sector, image_after, said_of, sector_of, image_now};
ghost use Rattle.save_disk.specs.Stops.{EachWrite, Fits};
ghost use Rattle.save_disk.specs.State.{then_event};
ghost use Rattle.save_disk.specs.Grains.{is_grain};
ghost use Rattle.save_disk.specs.KeptEvents.{event_of};

use std::alloc::{AllocError, Global};

/// An event with its bytes.
#[derive(Drop)]
pub(crate) enum KeptEvent {
    Write(u64, Vec<u8>),
    Sync,
    Said(Vec<u8>),
}

/// The trace of a desk, the image as it is now, and all that was said.
#[derive(Drop)]
pub(crate) struct Trace {
    start: Vec<u8>,
    image: Vec<u8>,
    grain: u64,
    events: Vec<KeptEvent>,
    said: Vec<u8>,
    source: Vec<u8>,
    heard: usize,
    ghost is_known: { IsTrue (is_grain grain) },
    ghost is_small: { length start.items < 2 ^ 64 },
    ghost is_sized: { length image.items ≡ length start.items },
    ghost is_written: { image.items ≡ image_after grain start.items (map event_of events.items) },
    ghost is_said: { said.items ≡ said_of (map event_of events.items) },
    ghost is_heard: { heard ≤ length source.items },
    ghost fits: { EachWrite (Fits grain (length start.items)) (map event_of events.items) },
}

impl Trace {
    ghost use Rattle.save_disk.specs.Traces.{told_of, fresh, heard, HasRoom};

    pub(crate) fn new(
        alloc: Global,
        grain: u64,
        image: &[u8],
        source: &[u8],
    ) -> Result<Trace, AllocError>
        requires { IsTrue (is_grain grain) }
        ensures { IfOk result (λ trace. told_of trace ≡ fresh grain image.now source.now) }
    {
        Ok(Trace {
            start: image.to_vec(alloc)?,
            image: image.to_vec(alloc)?,
            grain,
            events: Vec::new(alloc),
            said: Vec::new(alloc),
            source: source.to_vec(alloc)?,
            heard: 0,
        })
    }

    pub(crate) fn grain(&self) -> u64
        ensures value { result ≡ (told_of self.now).grain }
        ensures known { IsTrue (is_grain result) }
    {
        self.grain
    }

    pub(crate) fn len(&self) -> u64
        ensures { result ≡ length (told_of self.now).start }
    {
        self.start.len() as u64
    }

    pub(crate) fn image(&self) -> &[u8]
        ensures { result.now ≡ image_now (told_of self.now) }
    {
        &self.image
    }

    pub(crate) fn said(&self) -> &[u8]
        ensures { result.now ≡ said_of (told_of self.now).events }
    {
        &self.said
    }

    /// Makes room for an event that says `n` bytes.
    pub(crate) fn make_room(&mut self, n: usize) -> Result<(), AllocError>
        ensures told { told_of self.new ≡ told_of self.old }
        ensures room { OnOk result (HasRoom n self.new) }
    {
        self.events.reserve(1)?;
        self.said.reserve(n)
    }

    /// A copy of the bytes, and room for an event that says them.
    pub(crate) fn keep(&mut self, bytes: &[u8]) -> Result<Vec<u8>, AllocError>
        ensures told { told_of self.new ≡ told_of self.old }
        ensures kept { IfOk result (λ kept. kept.items ≡ bytes.now) }
        ensures room { OnOk result (HasRoom (length bytes.now) self.new) }
    {
        self.make_room(bytes.len())?;
        bytes.to_vec(*self.events.allocator())
    }

    pub(crate) fn read(&self, sector: u64, out: &mut [u8])
        requires begins_inside { sector * (told_of self.now).grain < length (told_of self.now).start }
        requires whole { length out.old ≡ (told_of self.now).grain }
        ensures { out.new ≡ sector_of (told_of self.now).grain (image_now (told_of self.now)) sector }
    {
        read_sector(&self.image, sector, out);
    }

    pub(crate) fn write(&mut self, sector: u64, bytes: Vec<u8>)
        requires room { HasRoom 0 self.old }
        requires begins_inside { sector * (told_of self.old).grain < length (told_of self.old).start }
        requires whole { length bytes.items ≡ (told_of self.old).grain }
        ensures { told_of self.new ≡ then_event (Write sector bytes.items) (told_of self.old) }
    {
        write_sector(&mut self.image, sector, &bytes);
        add(&mut self.events, KeptEvent::Write(sector, bytes));
    }

    pub(crate) fn sync(&mut self)
        requires room { HasRoom 0 self.old }
        ensures { told_of self.new ≡ then_event Sync (told_of self.old) }
    {
        add(&mut self.events, KeptEvent::Sync);
    }

    pub(crate) fn say(&mut self, bytes: Vec<u8>)
        requires room { HasRoom (length bytes.items) self.old }
        ensures { told_of self.new ≡ then_event (Said bytes.items) (told_of self.old) }
    {
        speak(&mut self.said, &bytes);
        add(&mut self.events, KeptEvent::Said(bytes));
    }

    /// Takes the next bytes of the source, as many as there are and `out` has.
    pub(crate) fn hear(&mut self, out: &mut [u8]) -> usize
        ensures count { result ≡ min (length out.old) (length (told_of self.old).left) }
        ensures bytes { take result out.new ≡ take result (told_of self.old).left }
        ensures told { told_of self.new ≡ record (told_of self.old) { left = drop result (told_of self.old).left } }
    {
        let rest = &self.source[self.heard..];
        let n = rest.len().min(out.len());
        out[..n].copy_from_slice(&rest[..n]);
        self.heard += n;
        n
    }
}

/// Reads a sector of as many bytes as `out` has, with zeros after the image's end.
fn read_sector(image: &[u8], sector: u64, out: &mut [u8])
    requires { sector * length out.old < length image.now }
    ensures { out.new ≡ sector_of (length out.old) image.now sector }
{
    let rest = &image[sector as usize * out.len()..];
    let n = rest.len().min(out.len());
    let (front, back) = out.split_at_mut(n);
    front.copy_from_slice(&rest[..n]);
    back.fill(0);
}

/// Writes a sector, but for those of its bytes that lie past the image's end.
#[tactic(auto, unfolding(crate::specs::Trace::with_sector))]
fn write_sector(image: &mut Vec<u8>, sector: u64, bytes: &[u8])
    requires { sector * length bytes.now < length image.old.items }
    ensures written { image.new.items ≡ with_sector (length bytes.now) image.old.items sector bytes.now }
    ensures size { length image.new.items ≡ length image.old.items }
{
    let at = sector as usize * bytes.len();
    let n = bytes.len().min(image.len() - at);
    image[at..at + n].copy_from_slice(&bytes[..n]);
}

/// Adds an event for which there is room.
fn add(events: &mut Vec<KeptEvent>, event: KeptEvent)
    requires { vec_len events.old < vec_capacity events.old }
    ensures { events.new.items ≡ events.old.items ++ event ∷ [] }
{
    events.push(event).unwrap();
}

/// Adds bytes for which there is room.
fn speak(said: &mut Vec<u8>, bytes: &[u8])
    requires { vec_len said.old + length bytes.now ≤ vec_capacity said.old }
    ensures { said.new.items ≡ said.old.items ++ bytes.now }
{
    said.extend_from_slice(bytes).unwrap();
}
