//! The program's one top call.

ghost use Rattle.std.specs.Prelude.{◌≡◌, ◌⊎◌, ◌≤◌, ◌↔◌, Bool, List, ℕ, IsTrue, IfOk, IfErr, Some, None};
ghost use Rattle.save_disk.specs.State.{IsQuiet, IsSteady, Rose};
ghost use Rattle.save_disk.specs.Stops.{Since};
ghost use Rattle.save_disk.specs.Trace.{OnlySays};
ghost use Rattle.save_disk.specs.Tells.{Tells, WhenFresh, NoneRose, tells};
ghost use Rattle.page_image.specs.Images.{IsDiskOf};
ghost use Rattle.page_image.specs.WriteOuts.{IsClean};
ghost use Rattle.container.specs.Signers.{Signing, signing};
ghost use Rattle.container.specs.Openings.{fault_of};
ghost use Rattle.container.specs.Containers.{IsWholeContainer};
ghost use Rattle.save_top.specs.declared.form.Order.{Order};
ghost use Rattle.save_top.specs.declared.form.Act.{Act};
ghost use Rattle.save_top.specs.Words.{order_of};
ghost use Rattle.save_top.specs.Texts.{info_text};
ghost use Rattle.save_top.specs.Output.{Reply, Says, SaysReply, SaysOneReply, Answers, IsEnd};
ghost use Rattle.save_top.specs.Replies.{peek_reply, reply_by, IsReplyTo};
ghost use Rattle.save_top.specs.Failures.{IsFailureBy};
ghost use Rattle.save_top.specs.Peeks.{Holds};

use crate::failure::{Failure, of_fault, of_miss};
use crate::form::{Act, Order};
use crate::peek::show;
use crate::text::put_info;
use crate::words::order;
use arrayvec::ArrayVec;
use container::Container;
use container_header::Header;
use desk_output::say_all;
use save_bytes::Words;
use save_disk::{Desk, Signer};
use std::alloc::Global;

/// The command was done.
pub const DONE: u8 = 0;
/// The command was refused, and the last line said names the refusal.
pub const REFUSED: u8 = 1;
/// The words are none of the forms.
pub const USAGE: u8 = 2;
/// The disk failed.
pub const DISK_FAULT: u8 = 3;
/// The source failed.
pub const SOURCE_FAULT: u8 = 4;
/// The sink failed.
pub const SINK_FAULT: u8 = 5;
/// Memory was wanting.
pub const NO_MEMORY: u8 = 6;

// Says a whole text, and answers the status, or that the sink failed.
fn say<D: Desk>(desk: &mut D, status: u8, text: &[u8]) -> u8
    requires { status ≤ 1 }
    ensures says { Says status text.now (D.state desk.old) (D.state desk.new) result }
    ensures known { (result ≡ status) ⊎ (result ≡ 5) }
    ensures sink { result ≡ 5 → Rose (D.state desk.old).counts.sink (D.state desk.new).counts.sink }
    ensures steady { IsSteady (D.state desk.old) (D.state desk.new) }
{
    match say_all(desk, text) {
        Ok(()) => status,
        Err(_) => SINK_FAULT,
    }
}

// Says the line of a refusal, and answers the status of a failure.
fn fail<D: Desk>(desk: &mut D, failure: &Failure) -> u8
    ensures says { (reply : Reply) → IsFailureBy reply failure.now → Says reply.status reply.text (D.state desk.old) (D.state desk.new) result }
    ensures known { IsEnd result }
    ensures disk { result ≡ 3 → failure.now ≡ Failure.Disk }
    ensures sink { result ≡ 5 → Rose (D.state desk.old).counts.sink (D.state desk.new).counts.sink }
    ensures steady { IsSteady (D.state desk.old) (D.state desk.new) }
{
    match failure {
        Failure::Memory => NO_MEMORY,
        Failure::Disk => DISK_FAULT,
        Failure::Refused(line) => say(desk, REFUSED, line.as_slice()),
    }
}

// Says what the image's header shows.
fn info<D: Desk>(desk: &mut D, header: &Header) -> u8
    ensures says { Says 0 (info_text header.now) (D.state desk.old) (D.state desk.new) result }
    ensures known { (result ≡ 0) ⊎ (result ≡ 5) }
    ensures sink { result ≡ 5 → Rose (D.state desk.old).counts.sink (D.state desk.new).counts.sink }
    ensures steady { IsSteady (D.state desk.old) (D.state desk.new) }
{
    let mut text = ArrayVec::new();
    put_info(&mut text, header);
    say(desk, DONE, text.as_slice())
}

// Says the bytes of a block of an open image.
fn peek<D: Desk>(
    alloc: Global,
    container: &mut Container,
    desk: &mut D,
    part: u64,
    block: u64,
) -> u8
    requires whole { IsWholeContainer container.old }
    requires disk { IsDiskOf (D.state desk.old) container.old.image }
    requires clean { IsClean container.old.image }
    ensures says { (sign : Signing) (image : List ℕ) → IsTrue (tells (D.state desk.old)) → Holds sign image (D.state desk.old) container.old
        → let reply = peek_reply image container.old.header part block in
        Says reply.status reply.text (D.state desk.old) (D.state desk.new) result }
    ensures silent { Tells OnlySays (D.state desk.old) (D.state desk.new) }
    ensures known { IsEnd result }
    ensures disk { result ≡ 3 → Rose (D.state desk.old).counts.disk (D.state desk.new).counts.disk }
    ensures sink { result ≡ 5 → Rose (D.state desk.old).counts.sink (D.state desk.new).counts.sink }
    ensures steady { IsSteady (D.state desk.old) (D.state desk.new) }
{
    match show(alloc, container, desk, part, block) {
        Ok(text) => say(desk, DONE, text.as_slice()),
        Err(miss) => fail(desk, &of_miss(miss)),
    }
}

// Opens the image at the desk.
fn open<D: Desk, G: Signer>(alloc: Global, desk: &mut D, signer: &G) -> Result<Container, Failure>
    ensures opened { IfOk result (λ container. WhenFresh (λ told. Holds (signing G.tag_of G.is_demanding signer.now)
        told.start (D.state desk.new) container) (D.state desk.old)) }
    ensures whole { IfOk result IsWholeContainer }
    ensures disk { IfOk result (λ container. IsDiskOf (D.state desk.new) container.image) }
    ensures clean { IfOk result (λ container. IsClean container.image) }
    ensures failure { IfErr result (λ failure. WhenFresh (λ told. (act : Act)
        → IsFailureBy (reply_by (fault_of (signing G.tag_of G.is_demanding signer.now) told.start) act told.start) failure) (D.state desk.old)) }
    ensures cause { IfErr result (λ failure. failure ≡ Failure.Disk → Rose (D.state desk.old).counts.disk (D.state desk.new).counts.disk) }
    ensures quiet { IsQuiet (D.state desk.old) (D.state desk.new) }
    ensures steady { IsSteady (D.state desk.old) (D.state desk.new) }
{
    match Container::open(alloc, desk, signer) {
        Ok(container) => Ok(container),
        Err(fault) => Err(of_fault(&fault)),
    }
}

// Does what an order asks for.
fn obey<D: Desk, G: Signer>(alloc: Global, order: Order, desk: &mut D, signer: &G) -> u8
    ensures answers { WhenFresh (λ told. Answers
        (IsReplyTo (signing G.tag_of G.is_demanding signer.now) order told.start)
        (D.state desk.old) (D.state desk.new) result) (D.state desk.old) }
    ensures silent { Tells OnlySays (D.state desk.old) (D.state desk.new) }
    ensures known { IsEnd result }
    ensures disk { result ≡ 3 → Rose (D.state desk.old).counts.disk (D.state desk.new).counts.disk }
    ensures sink { result ≡ 5 → Rose (D.state desk.old).counts.sink (D.state desk.new).counts.sink }
    ensures steady { IsSteady (D.state desk.old) (D.state desk.new) }
{
    let mut container = match open(alloc, desk, signer) {
        Ok(container) => container,
        Err(failure) => return fail(desk, &failure),
    };
    match order.act {
        Act::Info => info(desk, container.header()),
        Act::Peek(part, block) => peek(alloc, &mut container, desk, part, block),
    }
}

/// Does what the words ask for at the desk, and answers a status: 0 done, 1 refused, 2 words that are
/// no form, 3, 4 and 5 a fault of the disk, the source or the sink, 6 want of memory.
pub fn run<D: Desk, G: Signer>(alloc: Global, words: &Words, desk: &mut D, signer: &G) -> u8
    // The words are no form exactly at 2, and then no call of the desk was made.
    ensures form { (result ≡ 2) ↔ (order_of words.now ≡ None) }
    ensures untouched { result ≡ 2 → desk.new ≡ desk.old }

    // At each moment nothing was written or synced, and nothing said, or a front of the text of one reply that the
    // order has on the image of the start, under this signer.
    ensures any_moment { (order : Order) → order_of words.now ≡ Some order
        → WhenFresh (λ told. Since
        (SaysOneReply (IsReplyTo (signing G.tag_of G.is_demanding signer.now) order told.start))
        told (D.state desk.new).told) (D.state desk.old) }

    // On every desk that tells its trace, whatever came before and of whichever reads it tells, output alone was added.
    ensures silent { Tells OnlySays (D.state desk.old) (D.state desk.new) }

    // At 0 and 1 all the text of such a reply was said, and the status is that reply's.
    ensures whole { result ≤ 1 → (order : Order) → order_of words.now ≡ Some order
        → WhenFresh (λ told. SaysReply (IsReplyTo (signing G.tag_of G.is_demanding signer.now) order told.start)
        result told (D.state desk.new)) (D.state desk.old) }

    // Where no count rose, the order was done or refused, or memory was wanting.
    ensures complete { (order : Order) → order_of words.now ≡ Some order
        → NoneRose (D.state desk.old) (D.state desk.new) → (result ≤ 1) ⊎ (result ≡ 6) }

    // Each fault has its cause.
    ensures disk_fault { result ≡ 3 → Rose (D.state desk.old).counts.disk (D.state desk.new).counts.disk }
    ensures source_fault { result ≡ 4 → Rose (D.state desk.old).counts.source (D.state desk.new).counts.source }
    ensures sink_fault { result ≡ 5 → Rose (D.state desk.old).counts.sink (D.state desk.new).counts.sink }
    ensures known { result ≤ 6 }
    ensures steady { IsSteady (D.state desk.old) (D.state desk.new) }
{
    let Some(order) = order(words) else {
        return USAGE;
    };
    obey(alloc, order, desk, signer)
}
