//! The words of a call.

ghost use Rattle.std.specs.Prelude.{◌≡◌, ◌≤◌, ◌↔◌, IsTrue, slice_get, drop, length, codes};
ghost use Rattle.save_top.specs.Words.{info_of, peek_of, act_of, order_of};

use crate::form::{Act, Order};
use save_bytes::Words;
use tree_model::read_number;

/// Reads the words after the program's name: FILE, which is not empty, then `sealed` or not, then
/// `info` or `peek PART BLOCK`, whose two numbers stand as they are printed. Nothing else is a form.
pub fn order(words: &Words) -> Option<Order>
    ensures { result ≡ order_of words.now }
{
    if words.count() == 0 || words.get(0).is_empty() {
        return None;
    }
    let sealed = is_sealed(words);
    let act = read_act(words, if sealed { 2 } else { 1 })?;
    Some(Order { sealed, act })
}

// Whether the word after FILE is `sealed`.
fn is_sealed(words: &Words) -> bool
    ensures { IsTrue result ↔ (slice_get words.now 1 ≡ Some (codes "sealed")) }
{
    words.count() > 1 && words.get(1) == b"sealed".as_slice()
}

// The command at word `at`, with the words after it.
fn read_act(words: &Words, at: usize) -> Option<Act>
    ensures { result ≡ act_of (drop at words.now) }
{
    if words.count() <= at {
        return None;
    }
    let command = words.get(at);
    if command == b"info".as_slice() {
        return read_info(words, at + 1);
    }
    if command == b"peek".as_slice() {
        return read_peek(words, at + 1);
    }
    None
}

// No word stands after `info`.
fn read_info(words: &Words, at: usize) -> Option<Act>
    requires { at ≤ length words.now }
    ensures { result ≡ info_of (drop at words.now) }
{
    if words.count() == at {
        Some(Act::Info)
    } else {
        None
    }
}

// Two numbers stand after `peek`.
fn read_peek(words: &Words, at: usize) -> Option<Act>
    requires { at ≤ length words.now }
    ensures { result ≡ peek_of (drop at words.now) }
{
    if words.count() - at != 2 {
        return None;
    }
    let part = read_number(words.get(at))?;
    let block = read_number(words.get(at + 1))?;
    Some(Act::Peek(part, block))
}
