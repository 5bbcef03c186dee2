//! The calls that a desk in memory was given, and which of them are to fail.

ghost use Rattle.std.specs.Prelude.{◌≡◌, ◌≢◌, ◌<◌, ◌↔◌, Some, IfOk, OnErr, IsTrue, slice_index, slice_get};
ghost use Rattle.save_disk.specs.declared.calls.Call.{Call};
ghost use Rattle.save_disk.specs.Calls.{call_number, count_of, listed, faulted, fell_short, IsNewLog, IsNamed, NoneFell};

use crate::Failed;
use std::alloc::Global;

/// The kinds of calls of a desk.
#[derive(Clone, Copy, Debug, PartialEq, Eq)]
pub enum Call {
    Len,
    Read,
    Write,
    Sync,
    Hear,
    Say,
}

/// The place of a kind in the tables below.
fn place(call: Call) -> usize
    ensures value { result ≡ call_number call }
    ensures below { result < 6 }
{
    match call {
        Call::Len => 0,
        Call::Read => 1,
        Call::Write => 2,
        Call::Sync => 3,
        Call::Hear => 4,
        Call::Say => 5,
    }
}

/// The list of all calls, and what failed.
#[derive(Drop)]
pub(crate) struct CallLog {
    calls: Vec<Call>,
    made: [u64; 6],
    named: [Option<u32>; 6],
    disk: u64,
    source: u64,
    sink: u64,
    short: u64,
    ghost counted: { (call : Call) → slice_index made (call_number call) ≡ count_of call calls.items },
}

impl CallLog {
    ghost use Rattle.save_disk.specs.CallLogs.{log_of};

    pub(crate) fn new(alloc: Global) -> CallLog
        ensures { IsNewLog (log_of result) }
    {
        CallLog {
            calls: Vec::new(alloc),
            made: [0; 6],
            named: [None; 6],
            disk: 0,
            source: 0,
            sink: 0,
            short: 0,
        }
    }

    /// Names a call to fail: the nth of its kind, counted from 1.
    pub(crate) fn name(&mut self, call: Call, nth: u32)
        ensures named { (log_of self.new).named call ≡ Some nth }
        ensures others { (other : Call) → other ≢ call → (log_of self.new).named other ≡ (log_of self.old).named other }
        ensures rest { log_of self.new ≡ record (log_of self.old) { named = (log_of self.new).named } }
    {
        self.named[place(call)] = Some(nth);
    }

    pub(crate) fn get(&self, i: usize) -> Option<Call>
        ensures { result ≡ slice_get (log_of self.now).calls i }
    {
        self.calls.get(i).copied()
    }

    pub(crate) fn short(&self) -> u64
        ensures { result ≡ (log_of self.now).short }
    {
        self.short
    }

    /// Adds a call to the list, and answers whether it is named to fail.
    pub(crate) fn enlist(&mut self, call: Call) -> Result<bool, Failed>
        ensures listed { IfOk result (λ named. log_of self.new ≡ listed call (log_of self.old)) }
        ensures named { IfOk result (λ named. IsTrue named ↔ IsNamed call (log_of self.old)) }
        ensures short { OnErr result (log_of self.new ≡ fell_short call (log_of self.old)) }
        ensures counts { NoneFell (log_of self.old).counts (log_of self.new).counts }
    {
        if self.calls.push(call).is_err() {
            return Err(self.fall_short(call));
        }
        let at = place(call);
        self.made[at] += 1;
        match self.named[at] {
            Some(nth) => Ok(u64::from(nth) == self.made[at]),
            None => Ok(false),
        }
    }

    /// Counts a call whose record found no memory.
    pub(crate) fn fall_short(&mut self, call: Call) -> Failed
        ensures short { log_of self.new ≡ fell_short call (log_of self.old) }
        ensures counts { NoneFell (log_of self.old).counts (log_of self.new).counts }
    {
        self.short = self.short.saturating_add(1);
        self.fault(call)
    }

    /// Counts a fault of the part that the call speaks to.
    pub(crate) fn fault(&mut self, call: Call) -> Failed
        ensures fault { log_of self.new ≡ faulted call (log_of self.old) }
        ensures counts { NoneFell (log_of self.old).counts (log_of self.new).counts }
    {
        match call {
            Call::Len | Call::Read | Call::Write | Call::Sync => {
                self.disk = self.disk.saturating_add(1);
            }
            Call::Hear => self.source = self.source.saturating_add(1),
            Call::Say => self.sink = self.sink.saturating_add(1),
        }
        Failed
    }
}
