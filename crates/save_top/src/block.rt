//! The text of a block: its numbers, then its bytes in lines of hex digits.

ghost use Rattle.std.specs.Prelude.{◌≡◌, ◌≤◌, ◌+◌, ◌*◌, ◌++◌, min, length, IfOk, OnOk};
ghost use Rattle.std.specs.Int.{div_ceil};
ghost use Rattle.save_top.specs.Texts.{hex_line, block_text};

use crate::text::put_triple;
use arrayvec::ArrayVec;
use std::alloc::{AllocError, Global};

/// The most bytes that a line has the digits of.
const WIDTH: usize = 32;

/// The text of a block: `block PART BLOCK LEN`, then its LEN bytes in lines of 64 lower-case hex digits
/// each, of which the last may be shorter. The part and the block are counted from 0.
pub fn block_text(alloc: Global, part: u64, block: u64, bytes: &[u8]) -> Result<Vec<u8>, AllocError>
    ensures { IfOk result (λ text. text.items ≡ block_text part block bytes.now) }
{
    let mut front = ArrayVec::new();
    put_triple(&mut front, b"block ", part, block, bytes.len() as u64);
    let mut text = Vec::with_capacity(alloc, room_for(front.len(), bytes.len()))?;
    text.extend_from_slice(front.as_slice())?;
    for piece in bytes.chunks(WIDTH) {
        push_line(&mut text, piece)?;
    }
    Ok(text)
}

// The bytes of a text whose first line has `front` and whose block has `len`, or the most that are
// counted.
fn room_for(front: usize, len: usize) -> usize
    ensures { result ≡ min (front + 2 * len + div_ceil len WIDTH) usize.MAX }
{
    let digits = len.saturating_mul(2);
    digits
        .saturating_add(len.div_ceil(WIDTH))
        .saturating_add(front)
}

// Adds the line of at most 32 bytes.
fn push_line(text: &mut Vec<u8>, bytes: &[u8]) -> Result<(), AllocError>
    requires { length bytes.now ≤ WIDTH }
    ensures { OnOk result (text.new.items ≡ text.old.items ++ hex_line bytes.now) }
{
    let mut digits = [0; 64];
    let line = &mut digits[..2 * bytes.len()];
    let _ = hex::encode_to_slice(bytes, line);
    text.extend_from_slice(line)?;
    text.push(b'\n')?;
    Ok(())
}
