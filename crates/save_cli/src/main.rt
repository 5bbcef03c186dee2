//! The program on a file and the standard streams.
#![tactic(auto)]

ghost use Rattle.std.specs.Prelude.{◌≡◌, ◌≤◌, ◌↔◌, None, Some, IsSome, IfSome, IsTrue};
ghost use Rattle.save_disk.specs.FileDesks.{IsClosed};
ghost use Rattle.save_top.specs.Words.{order_of};
ghost use Rattle.save_cli.specs.Complaint.{complaint_of};
ghost use Rattle.save_cli.specs.Signing.{AsksForTag};

use save_bytes::Words;
use save_disk::{FileDesk, PlainSigner, ZeroSigner};
use save_top::{DISK_FAULT, NO_MEMORY, SINK_FAULT, SOURCE_FAULT, USAGE, order, run};
use std::alloc::AllocError;
use std::process::ExitCode;
use std::{env, str};

/// The bytes of a sector that is read and written at once.
const GRAIN: u64 = 512;

// The words after the program's name, or none where they cannot be read.
fn words_of(rt: &HostRuntime) -> Result<Words, AllocError> {
    let mut words = Words::new(rt.alloc());
    let Ok(all) = env::args(rt) else {
        return Ok(words);
    };
    for word in all.skip(1) {
        words.push(word.as_str())?;
    }
    Ok(words)
}

// The desk for these words: words that are no form touch no file.
fn desk_for<'a>(rt: &'a HostRuntime, words: &Words) -> FileDesk<'a>
    ensures { order_of words.now ≡ None → IsClosed result }
{
    if order(words).is_none() || words.count() == 0 {
        return FileDesk::none(rt);
    }
    match str::from_utf8(words.get(0)) {
        Ok(path) => FileDesk::reading(rt, path, GRAIN),
        Err(_) => FileDesk::none(rt),
    }
}

// Whether the image has to carry its signer's tag.
fn is_sealed(words: &Words) -> bool
    ensures { IsTrue result ↔ AsksForTag (order_of words.now) }
{
    match order(words) {
        Some(order) => order.sealed,
        None => false,
    }
}

// What is said on the standard error for a status: one line for each that is neither done nor refused.
fn complaint(status: u8) -> Option<&'static str>
    ensures some { IsSome result ↔ ((2 ≤ status) × (status ≤ 6)) }
    ensures text { IfSome result (λ text. complaint_of status ≡ Some text.now) }
{
    match status {
        USAGE => Some("usage: save_cli FILE [sealed] COMMAND"),
        DISK_FAULT => Some("disk fault"),
        SOURCE_FAULT => Some("source fault"),
        SINK_FAULT => Some("sink fault"),
        NO_MEMORY => Some("out of memory"),
        _ => None,
    }
}

fn main(rt: HostRuntime) -> ExitCode {
    let status = match words_of(&rt) {
        Ok(words) => {
            let mut desk = desk_for(&rt, &words);
            if is_sealed(&words) {
                run(rt.alloc(), &words, &mut desk, &PlainSigner)
            } else {
                run(rt.alloc(), &words, &mut desk, &ZeroSigner)
            }
        }
        Err(AllocError) => NO_MEMORY,
    };
    if let Some(text) = complaint(status) {
        let _ = rt.eprintln(text);
    }
    ExitCode::from(status)
}
