//! Reading the next bytes.

ghost use Rattle.std.specs.Prelude.{◌≡◌, ℕ, ◌+◌, ◌≤◌, ◌<◌, min, length, take, drop, List, IsTrue, IfOk, OnOk};
ghost use Rattle.std.specs.Result.{result_err};
ghost use Rattle.save_bytes.specs.Answers.{IsFirstFault};
ghost use Rattle.save_bytes.specs.Refusals.{NeverDamaged};
ghost use Rattle.save_bytes.specs.Reads.{Reads};
ghost use Rattle.chain_nodes.specs.Table.{table_in, HasAllocationTable};
ghost use Rattle.chain_nodes.specs.Faults.{refusal_of};
ghost use Rattle.chain_nodes.specs.Runs.{DoneUnlessDisk};
ghost use Rattle.file_reader.specs.Contents.{contents_in, DoneOrDamaged};
ghost use Rattle.file_reader.specs.Reading.{IsReadingAt, IsPieceRead};

use crate::reading::Reading;
use chain_nodes::{ChainFault, advance};
use save_bytes::{Space, space_copy};

// The same place with the next run of the chain in hand.
fn next_run<S: Space>(store: &mut S, reading: Reading) -> Result<Reading, ChainFault>
    requires { HasAllocationTable (S.state store.old).shape reading.info }
    ensures some { IfOk result (λ next. 1 ≤ next.run) }
    ensures info { IfOk result (λ next. next.info ≡ reading.info) }
    ensures left { IfOk result (λ next. next.left ≡ reading.left) }
    ensures taken { let table = table_in (S.state store.old).cells reading.info in IsTrue (S.state store.old).told
        → (start size : ℕ) (list : List ℕ) (x : ℕ) → IsReadingAt table start size list x reading → reading.run ≡ 0
        → x < size → DoneUnlessDisk result (IsReadingAt table start size list x) }
    ensures plain { IsTrue (S.state store.old).shape.plain → NeverDamaged (refusal_of (result_err result)) }
    ensures reads { Reads S.state S.keeps S.lands store.old store.new (refusal_of (result_err result)) }
{
    let info = reading.info;
    let cursor = reading.cursor;
    if !cursor.is_within(info.count) || cursor.is_at_end() || info.block == 0 {
        return Err(ChainFault::Broken {
            entry: cursor.first(),
        });
    }
    match advance(store, info, cursor) {
        Ok((run, behind)) => Ok(reading.with_run(run, behind)),
        Err(fault) => Err(fault),
    }
}

// The same place with a run in hand that has bytes.
fn with_bytes<S: Space>(store: &mut S, reading: Reading) -> Result<Reading, ChainFault>
    requires { HasAllocationTable (S.state store.old).shape reading.info }
    ensures some { IfOk result (λ next. 1 ≤ next.run) }
    ensures info { IfOk result (λ next. next.info ≡ reading.info) }
    ensures left { IfOk result (λ next. next.left ≡ reading.left) }
    ensures taken { let table = table_in (S.state store.old).cells reading.info in IsTrue (S.state store.old).told
        → (start size : ℕ) (list : List ℕ) (x : ℕ) → IsReadingAt table start size list x reading → x < size
        → DoneUnlessDisk result (IsReadingAt table start size list x) }
    ensures plain { IsTrue (S.state store.old).shape.plain → NeverDamaged (refusal_of (result_err result)) }
    ensures reads { Reads S.state S.keeps S.lands store.old store.new (refusal_of (result_err result)) }
{
    if reading.run == 0 {
        return next_run(store, reading);
    }
    Ok(reading)
}

// Copies the next bytes to the front of `out`, as many as lie there in one run, and says how many: at least one.
fn copy_run<S: Space>(
    store: &mut S,
    reading: &mut Reading,
    out: &mut [u8],
) -> Result<usize, ChainFault>
    requires table { HasAllocationTable (S.state store.old).shape reading.old.info }
    requires some { 1 ≤ length out.old }
    requires within { length out.old ≤ reading.old.left }
    ensures count { IfOk result (λ n. (1 ≤ n) × (n ≤ length out.old)) }
    ensures info { reading.new.info ≡ reading.old.info }
    ensures left { IfOk result (λ n. reading.new.left + n ≡ reading.old.left) }
    ensures piece { let cells = (S.state store.old).cells in let table = table_in cells reading.old.info in
        IsTrue (S.state store.old).told → (start size : ℕ) (list : List ℕ) (x : ℕ)
        → IsReadingAt table start size list x reading.old
        → DoneOrDamaged result (λ n. IsPieceRead table cells start size list x n (take n out.new) reading.new)
        (IsFirstFault (contents_in reading.old.info list cells) x (length out.old)) }
    ensures plain { IsTrue (S.state store.old).shape.plain → NeverDamaged (refusal_of (result_err result)) }
    ensures reads { Reads S.state S.keeps S.lands store.old store.new (refusal_of (result_err result)) }
{
    let next = match with_bytes(store, *reading) {
        Ok(next) => next,
        Err(fault) => return Err(fault),
    };
    let n = next.run.min(out.len() as u64) as usize;
    match space_copy(store, next.at, &mut out[..n]) {
        Ok(()) => {
            *reading = next.behind(n as u64);
            Ok(n)
        }
        Err(bad) => Err(ChainFault::Bad(bad)),
    }
}

// Copies the next bytes into `out`, which it fills.
fn fill<S: Space>(store: &mut S, reading: &mut Reading, out: &mut [u8]) -> Result<(), ChainFault>
    requires table { HasAllocationTable (S.state store.old).shape reading.old.info }
    requires within { length out.old ≤ reading.old.left }
    ensures info { reading.new.info ≡ reading.old.info }
    ensures left { OnOk result (reading.new.left + length out.old ≡ reading.old.left) }
    ensures piece { let cells = (S.state store.old).cells in let table = table_in cells reading.old.info in
        IsTrue (S.state store.old).told → (start size : ℕ) (list : List ℕ) (x : ℕ)
        → IsReadingAt table start size list x reading.old
        → DoneOrDamaged result
        (λ _. IsPieceRead table cells start size list x (length out.old) out.new reading.new)
        (IsFirstFault (contents_in reading.old.info list cells) x (length out.old)) }
    ensures plain { IsTrue (S.state store.old).shape.plain → NeverDamaged (refusal_of (result_err result)) }
    ensures reads { Reads S.state S.keeps S.lands store.old store.new (refusal_of (result_err result)) }
{
    let mut done = 0;
    while done < out.len() {
        match copy_run(store, reading, &mut out[done..]) {
            Ok(n) => done += n,
            Err(fault) => return Err(fault),
        }
    }
    Ok(())
}

/// Copies the next bytes of the contents to the front of `into`, as many as it has or as are left, and says how many.
/// It goes on behind the last piece: each node of the chain is read once. `Damaged` comes exactly where one of the
/// bytes is none, and names the first; the reading is of no use then.
pub fn read_piece<S: Space>(
    store: &mut S,
    reading: &mut Reading,
    into: &mut [u8],
) -> Result<usize, ChainFault>
    requires { HasAllocationTable (S.state store.old).shape reading.old.info }
    ensures count { IfOk result (λ n. n ≡ min reading.old.left (length into.old)) }
    ensures info { reading.new.info ≡ reading.old.info }
    ensures left { IfOk result (λ n. reading.new.left + n ≡ reading.old.left) }
    ensures piece { let cells = (S.state store.old).cells in let table = table_in cells reading.old.info in
        IsTrue (S.state store.old).told → (start size : ℕ) (list : List ℕ) (x : ℕ)
        → IsReadingAt table start size list x reading.old
        → DoneOrDamaged result (λ n. IsPieceRead table cells start size list x n (take n into.new) reading.new)
        (IsFirstFault (contents_in reading.old.info list cells) x (min reading.old.left (length into.old))) }
    ensures rest { IfOk result (λ n. drop n into.new ≡ drop n into.old) }
    ensures plain { IsTrue (S.state store.old).shape.plain → NeverDamaged (refusal_of (result_err result)) }
    ensures reads { Reads S.state S.keeps S.lands store.old store.new (refusal_of (result_err result)) }
{
    let n = reading.left.min(into.len() as u64) as usize;
    match fill(store, reading, &mut into[..n]) {
        Ok(()) => Ok(n),
        Err(fault) => Err(fault),
    }
}
