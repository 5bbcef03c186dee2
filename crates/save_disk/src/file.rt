//! A desk over a file, the standard input and the standard output.

ghost use Rattle.std.specs.Prelude.{◌≡◌, ◌*◌, ◌^◌, ◌<◌, ◌≤◌, None, length, take, IsTrue, IsErr, IfOk, OnOk, OnErr};
ghost use Rattle.save_disk.specs.Trace.{Write, Sync, Said};
ghost use Rattle.save_disk.specs.State.{IsSteady, IsQuiet, Happens, IsRead, GoesOn, WriteFails, Hears, HasCause};
ghost use Rattle.save_disk.specs.Calls.{no_faults};
ghost use Rattle.save_disk.specs.Grains.{is_grain};

use crate::window::{WINDOW, Window};
use crate::{Desk, Disk, Failed};
use std::fs::{File, OpenOptions};
use std::io::{ErrorKind, Read, Write};
use std::os::fd::AsRawFd;
use std::os::unix::fs::FileExt;
use std::path::Path;
use std::{fs, io};

/// How often a call on a standard stream is tried that was interrupted.
const TRIES: usize = 100;

/// The image's file.
#[derive(Drop)]
struct Opened {
    file: File,
    len: u64,
    /// The folder of a file that was made, until it is synced.
    folder: Option<File>,
}

/// A disk over a regular file, and a desk over the standard streams. It tells no trace.
#[derive(Drop)]
pub struct FileDesk<'a> {
    opened: Option<Opened>,
    window: Window,
    streams: Option<&'a HostRuntime>,
    size: u64,
    grain: u64,
    is_at_end: bool,
    disk: u64,
    source: u64,
    sink: u64,
    ghost is_known: { IsTrue (is_grain grain) },
    ghost is_small: { size < 2 ^ 64 },
}

impl<'a> FileDesk<'a> {
    ghost use Rattle.save_disk.specs.FileDesks.{file_state, IsClosed, IsMute};

    /// A desk over the file at a path, in sectors of `grain` bytes. It is opened for reading alone where it
    /// may not be written. Where nothing stands at the path and `create` gives a length in bytes, a file of so
    /// many zeros is made, and the next sync covers its folder too. Where no regular file could be opened or
    /// made, every call of the disk fails.
    pub fn new(rt: &'a HostRuntime, path: &str, create: Option<u64>, grain: u64) -> FileDesk<'a>
        requires { IsTrue (is_grain grain) }
        ensures told { (file_state result).told ≡ None }
        ensures grain { (file_state result).grain ≡ grain }
        ensures counts { (file_state result).counts ≡ no_faults }
        ensures heard { IsMute result → ⊥ }
    {
        FileDesk::over(rt, open(rt, path, create).ok(), grain)
    }

    /// The same over a file that is opened for reading alone: every write fails. None is made.
    pub fn reading(rt: &'a HostRuntime, path: &str, grain: u64) -> FileDesk<'a>
        requires { IsTrue (is_grain grain) }
        ensures told { (file_state result).told ≡ None }
        ensures grain { (file_state result).grain ≡ grain }
        ensures counts { (file_state result).counts ≡ no_faults }
        ensures heard { IsMute result → ⊥ }
    {
        FileDesk::over(rt, open_to_read(rt, path).ok(), grain)
    }

    fn over(rt: &'a HostRuntime, opened: Option<Opened>, grain: u64) -> FileDesk<'a>
        requires { IsTrue (is_grain grain) }
        ensures told { (file_state result).told ≡ None }
        ensures grain { (file_state result).grain ≡ grain }
        ensures counts { (file_state result).counts ≡ no_faults }
        ensures heard { IsMute result → ⊥ }
    {
        let size = match &opened {
            Some(opened) => opened.len,
            None => 0,
        };
        FileDesk {
            opened,
            window: Window::new(),
            streams: Some(rt),
            size,
            grain,
            is_at_end: false,
            disk: 0,
            source: 0,
            sink: 0,
        }
    }

    /// A desk whose every call fails.
    pub fn none(_rt: &'a HostRuntime) -> FileDesk<'a>
        ensures told { (file_state result).told ≡ None }
        ensures grain { (file_state result).grain ≡ 512 }
        ensures counts { (file_state result).counts ≡ no_faults }
        ensures closed { IsClosed result }
        ensures mute { IsMute result }
    {
        FileDesk {
            opened: None,
            window: Window::new(),
            streams: None,
            size: 0,
            grain: 512,
            is_at_end: false,
            disk: 0,
            source: 0,
            sink: 0,
        }
    }
}

impl<'a> Disk for FileDesk<'a> {
    ghost use Rattle.save_disk.specs.FileDesks.{file_state, is_sound, IsClosed, StaysOpened};

    ghost state = { file_state };

    ghost sound = { is_sound };

    fn grain(&self) -> u64 {
        self.grain
    }

    fn len(&mut self) -> Result<u64, Failed>
        ensures value { IfOk result (λ n. n ≡ (file_state self.old).size) }
        ensures quiet { IsQuiet (file_state self.old) (file_state self.new) }
        ensures steady { IsSteady (file_state self.old) (file_state self.new) }
        ensures cause { HasCause (file_state self.old).counts.disk (file_state self.new).counts.disk result }
        ensures closed { IsClosed self.old → IsErr result }
        ensures stays { StaysOpened self.old self.new }
    {
        let outcome = match &self.opened {
            Some(_) => Ok(self.size),
            None => Err(Failed),
        };
        counted(outcome, &mut self.disk)
    }

    fn read(&mut self, sector: u64, out: &mut [u8]) -> Result<(), Failed>
        requires begins_inside { sector * (file_state self.old).grain < (file_state self.old).size }
        requires whole { length out.old ≡ (file_state self.old).grain }
        ensures value { OnOk result (IsRead (file_state self.old) sector out.new) }
        ensures quiet { IsQuiet (file_state self.old) (file_state self.new) }
        ensures steady { IsSteady (file_state self.old) (file_state self.new) }
        ensures cause { HasCause (file_state self.old).counts.disk (file_state self.new).counts.disk result }
        ensures closed { IsClosed self.old → IsErr result }
        ensures stays { StaysOpened self.old self.new }
    {
        let at = sector * self.grain;
        let part = (self.size - at).min(self.grain) as usize;
        let outcome = match &self.opened {
            Some(opened) => read_part(opened, &mut self.window, at, part, out),
            None => Err(Failed),
        };
        counted(outcome, &mut self.disk)
    }

    fn write(&mut self, sector: u64, bytes: &[u8]) -> Result<(), Failed>
        requires begins_inside { sector * (file_state self.old).grain < (file_state self.old).size }
        requires whole { length bytes.now ≡ (file_state self.old).grain }
        ensures written { OnOk result (Happens (Write sector bytes.now) (file_state self.old) (file_state self.new)) }
        ensures failed { OnErr result (GoesOn (WriteFails sector bytes.now) (file_state self.old) (file_state self.new)) }
        ensures steady { IsSteady (file_state self.old) (file_state self.new) }
        ensures cause { HasCause (file_state self.old).counts.disk (file_state self.new).counts.disk result }
        ensures closed { IsClosed self.old → IsErr result }
        ensures stays { StaysOpened self.old self.new }
    {
        let at = sector * self.grain;
        let part = (self.size - at).min(self.grain) as usize;
        self.window.forget(at, part as u64);
        let outcome = match &self.opened {
            Some(opened) => opened.file.write_all_at(&bytes[..part], at).or(Err(Failed)),
            None => Err(Failed),
        };
        counted(outcome, &mut self.disk)
    }

    fn sync(&mut self) -> Result<(), Failed>
        ensures synced { OnOk result (Happens Sync (file_state self.old) (file_state self.new)) }
        ensures failed { OnErr result (IsQuiet (file_state self.old) (file_state self.new)) }
        ensures steady { IsSteady (file_state self.old) (file_state self.new) }
        ensures cause { HasCause (file_state self.old).counts.disk (file_state self.new).counts.disk result }
        ensures closed { IsClosed self.old → IsErr result }
        ensures stays { StaysOpened self.old self.new }
    {
        let outcome = match &mut self.opened {
            Some(opened) => sync(opened).or(Err(Failed)),
            None => Err(Failed),
        };
        counted(outcome, &mut self.disk)
    }
}

impl<'a> Desk for FileDesk<'a> {
    ghost use Rattle.save_disk.specs.FileDesks.{file_state, IsMute, IsEnded, StaysOpened};

    fn hear(&mut self, out: &mut [u8]) -> Result<usize, Failed>
        requires { 1 ≤ length out.old }
        ensures count { IfOk result (λ n. n ≤ length out.new) }
        ensures heard { IfOk result (λ n. GoesOn (Hears n out.new) (file_state self.old) (file_state self.new)) }
        ensures failed { OnErr result (IsQuiet (file_state self.old) (file_state self.new)) }
        ensures steady { IsSteady (file_state self.old) (file_state self.new) }
        ensures cause { HasCause (file_state self.old).counts.source (file_state self.new).counts.source result }
        ensures mute { IsMute self.old → IsErr result }
        ensures ends { IfOk result (λ n. n ≡ 0 → IsEnded self.new) }
        ensures ended { IsEnded self.old → IfOk result (λ n. n ≡ 0) }
        ensures stays { StaysOpened self.old self.new }
    {
        let outcome = match self.streams {
            Some(_) if self.is_at_end => Ok(0),
            Some(rt) => read_some(rt, out),
            None => Err(Failed),
        };
        let n = counted(outcome, &mut self.source)?;
        self.is_at_end = n == 0;
        Ok(n)
    }

    fn say(&mut self, bytes: &[u8]) -> Result<usize, Failed>
        requires { 1 ≤ length bytes.now }
        ensures some { IfOk result (λ n. 1 ≤ n) }
        ensures count { IfOk result (λ n. n ≤ length bytes.now) }
        ensures said { IfOk result (λ n. Happens (Said (take n bytes.now)) (file_state self.old) (file_state self.new)) }
        ensures failed { OnErr result (IsQuiet (file_state self.old) (file_state self.new)) }
        ensures steady { IsSteady (file_state self.old) (file_state self.new) }
        ensures cause { HasCause (file_state self.old).counts.sink (file_state self.new).counts.sink result }
        ensures mute { IsMute self.old → IsErr result }
        ensures stays { StaysOpened self.old self.new }
    {
        let outcome = match self.streams {
            Some(rt) => write_some(rt, bytes),
            None => Err(Failed),
        };
        counted(outcome, &mut self.sink)
    }
}

/// Counts a failure.
fn counted<T>(outcome: Result<T, Failed>, count: &mut u64) -> Result<T, Failed>
    ensures same { result ≡ outcome }
    ensures cause { HasCause count.old count.new result }
    ensures grows { count.old ≤ count.new }
{
    if outcome.is_err() {
        *count = count.saturating_add(1);
    }
    outcome
}

/// Reads the part of a sector that lies in the file, and puts zeros after it.
fn read_part(
    opened: &Opened,
    window: &mut Window,
    at: u64,
    part: usize,
    out: &mut [u8],
) -> Result<(), Failed>
    requires { part ≤ length out.old }
{
    read_through(opened, window, at, &mut out[..part])?;
    out[part..].fill(0);
    Ok(())
}

/// Reads bytes of the file: from the window, from one that is filled anew, or where that fails alone.
fn read_through(
    opened: &Opened,
    window: &mut Window,
    at: u64,
    out: &mut [u8],
) -> Result<(), Failed> {
    if window.get(at, out) || refill(opened, window, at).is_ok() && window.get(at, out) {
        return Ok(());
    }
    opened.file.read_exact_at(out, at).or(Err(Failed))
}

/// Fills the window with the bytes that lie around a place of the file.
fn refill(opened: &Opened, window: &mut Window, at: u64) -> io::Result<()> {
    let start = at - at % WINDOW as u64;
    let n = opened.len.saturating_sub(start).min(WINDOW as u64) as usize;
    let mut bytes = [0; WINDOW];
    opened.file.read_exact_at(&mut bytes[..n], start)?;
    window.fill(start, &bytes, n);
    Ok(())
}

/// Syncs the file, and the folder of one that was made.
fn sync(opened: &mut Opened) -> io::Result<()> {
    opened.file.sync_all()?;
    if let Some(folder) = &opened.folder {
        folder.sync_all()?;
    }
    opened.folder = None;
    Ok(())
}

/// Reads some bytes of the standard input, or none at its end.
fn read_some(rt: &HostRuntime, out: &mut [u8]) -> Result<usize, Failed>
    ensures count { IfOk result (λ n. n ≤ length out.new) }
    ensures size { length out.new ≡ length out.old }
{
    for _ in 0..TRIES {
        match rt.stdin().read(out) {
            Ok(n) => return Ok(n),
            Err(error) if error.kind() == ErrorKind::Interrupted => {}
            Err(_) => return Err(Failed),
        }
    }
    Err(Failed)
}

/// Writes some of the bytes to the standard output.
fn write_some(rt: &HostRuntime, bytes: &[u8]) -> Result<usize, Failed>
    ensures some { IfOk result (λ n. 1 ≤ n) }
    ensures count { IfOk result (λ n. n ≤ length bytes.now) }
{
    for _ in 0..TRIES {
        match rt.stdout().write(bytes) {
            Ok(0) => return Err(Failed),
            Ok(n) => return Ok(n),
            Err(error) if error.kind() == ErrorKind::Interrupted => {}
            Err(_) => return Err(Failed),
        }
    }
    Err(Failed)
}

/// Opens the regular file at a path, or makes one where nothing stands.
fn open(rt: &HostRuntime, path: &str, create: Option<u64>) -> io::Result<Opened> {
    match (fs::metadata(rt, path), create) {
        (Ok(found), _) if found.is_file() => regular(open_found(rt, path)?),
        (Ok(_), _) => Err(ErrorKind::Unsupported.into()),
        (Err(error), Some(len)) if error.kind() == ErrorKind::NotFound => make(rt, path, len),
        (Err(error), _) => Err(error),
    }
}

/// Opens the regular file at a path for reading alone.
fn open_to_read(rt: &HostRuntime, path: &str) -> io::Result<Opened> {
    if fs::metadata(rt, path)?.is_file() {
        regular(File::open(rt, path)?)
    } else {
        Err(ErrorKind::Unsupported.into())
    }
}

/// Opens a file for reading and writing, or where it may not be written for reading.
fn open_found(rt: &HostRuntime, path: &str) -> io::Result<File> {
    match OpenOptions::new().read(true).write(true).open(rt, path) {
        Err(error) if may_not_be_written(error.kind()) => File::open(rt, path),
        outcome => outcome,
    }
}

fn may_not_be_written(kind: ErrorKind) -> bool {
    kind == ErrorKind::PermissionDenied || kind == ErrorKind::ReadOnlyFilesystem
}

fn regular(file: File) -> io::Result<Opened> {
    let found = file.metadata()?;
    if !found.is_file() {
        return Err(ErrorKind::Unsupported.into());
    }
    Ok(Opened {
        file: above_streams(file)?,
        len: found.len(),
        folder: None,
    })
}

/// Makes a file of zeros. One that can't get its length is removed.
fn make(rt: &HostRuntime, path: &str, len: u64) -> io::Result<Opened> {
    let folder = open_folder(rt, path)?;
    let file = File::create_new(rt, path)?;
    match lengthen(file, len) {
        Ok(file) => Ok(Opened {
            file,
            len,
            folder: Some(folder),
        }),
        Err(error) => {
            let _ = fs::remove_file(rt, path);
            Err(error)
        }
    }
}

fn lengthen(file: File, len: u64) -> io::Result<File> {
    file.set_len(len)?;
    above_streams(file)
}

fn open_folder(rt: &HostRuntime, path: &str) -> io::Result<File> {
    match Path::new(path).parent() {
        Some(folder) if !folder.as_str().is_empty() => File::open(rt, folder),
        _ => File::open(rt, "."),
    }
}

/// Keeps a file from standing in for a standard stream that was closed.
fn above_streams(file: File) -> io::Result<File> {
    if file.as_raw_fd() <= 2 {
        file.try_clone()
    } else {
        Ok(file)
    }
}
