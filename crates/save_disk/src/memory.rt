//! A desk in memory, whose calls fail where they are told to.

ghost use Rattle.std.specs.Prelude.{◌≡◌, ◌≢◌, ◌*◌, ◌<◌, ◌≤◌, Some, min, length, take, slice_get, IfOk, OnOk, OnErr};
ghost use Rattle.save_disk.specs.declared.calls.Call.{Call};
ghost use Rattle.save_disk.specs.Trace.{Write, Sync, Said, image_now, said_of};
ghost use Rattle.save_disk.specs.State.{IsSteady, IsQuiet, Happens, IsRead, GoesOn, WriteFails, Hears, HasCause, then_event};
ghost use Rattle.save_disk.specs.Calls.{IsNewLog};
ghost use Rattle.save_disk.specs.Traces.{fresh, heard};
ghost use Rattle.save_disk.specs.Memory.{Ends};
ghost use Rattle.save_disk.specs.MemDesks.{memory_of, state_of, is_sound};

use crate::calls::CallLog;
use crate::trace::Trace;
use crate::{Call, Desk, Disk, Failed};
use std::alloc::{AllocError, Global};

/// A disk and desk whose image, source and output are in memory. It tells its trace, and keeps a list
/// of all its calls.
#[derive(Drop)]
pub struct MemDesk {
    trace: Trace,
    log: CallLog,
}

impl MemDesk {
    /// A desk with this image, in sectors of 512 bytes, and this source.
    pub fn new(alloc: Global, image: &[u8], source: &[u8]) -> Result<MemDesk, AllocError>
        ensures trace { IfOk result (λ desk. (memory_of desk).trace ≡ fresh 512 image.now source.now) }
        ensures log { IfOk result (λ desk. IsNewLog (memory_of desk).log) }
    {
        Ok(MemDesk {
            trace: Trace::new(alloc, 512, image, source)?,
            log: CallLog::new(alloc),
        })
    }

    /// The same with sectors of 4,096 bytes.
    pub fn wide(alloc: Global, image: &[u8], source: &[u8]) -> Result<MemDesk, AllocError>
        ensures trace { IfOk result (λ desk. (memory_of desk).trace ≡ fresh 4096 image.now source.now) }
        ensures log { IfOk result (λ desk. IsNewLog (memory_of desk).log) }
    {
        Ok(MemDesk {
            trace: Trace::new(alloc, 4096, image, source)?,
            log: CallLog::new(alloc),
        })
    }

    /// Names a call to fail: the nth of its kind, counted from 1 over the list of calls. Of each kind
    /// one is named, the last that was.
    pub fn fail(&mut self, call: Call, nth: u32)
        ensures named { (memory_of self.new).log.named call ≡ Some nth }
        ensures others { (other : Call) → other ≢ call → (memory_of self.new).log.named other ≡ (memory_of self.old).log.named other }
        ensures log { (memory_of self.new).log ≡ record (memory_of self.old).log { named = (memory_of self.new).log.named } }
        ensures trace { (memory_of self.new).trace ≡ (memory_of self.old).trace }
    {
        self.log.name(call, nth);
    }

    /// The kind of a call, counted from 0, and none past the last one. A call that fails is in the list, but
    /// for those that `short` counts.
    pub fn call(&self, i: usize) -> Option<Call>
        ensures { result ≡ slice_get (memory_of self.now).log.calls i }
    {
        self.log.get(i)
    }

    /// How many calls failed since the list of calls or the trace found no memory. Such a call did nothing.
    pub fn short(&self) -> u64
        ensures { result ≡ (memory_of self.now).log.short }
    {
        self.log.short()
    }

    /// All that was said.
    pub fn said(&self) -> &[u8]
        ensures { result.now ≡ said_of (memory_of self.now).trace.events }
    {
        self.trace.said()
    }

    /// The image with all writes of the trace.
    pub fn image(&self) -> &[u8]
        ensures { result.now ≡ image_now (memory_of self.now).trace }
    {
        self.trace.image()
    }
}

impl Disk for MemDesk {
    ghost state = { state_of };

    ghost sound = { is_sound };

    fn grain(&self) -> u64 {
        self.trace.grain()
    }

    fn len(&mut self) -> Result<u64, Failed>
        ensures value { IfOk result (λ n. n ≡ (state_of self.old).size) }
        ensures quiet { IsQuiet (state_of self.old) (state_of self.new) }
        ensures steady { IsSteady (state_of self.old) (state_of self.new) }
        ensures cause { HasCause (state_of self.old).counts.disk (state_of self.new).counts.disk result }
        ensures ends { let trace = (memory_of self.old).trace in Ends Call.Len (λ _. trace) trace (memory_of self.old) (memory_of self.new) result }
    {
        if self.log.enlist(Call::Len)? {
            return Err(self.log.fault(Call::Len));
        }
        Ok(self.trace.len())
    }

    fn read(&mut self, sector: u64, out: &mut [u8]) -> Result<(), Failed>
        requires begins_inside { sector * (state_of self.old).grain < (state_of self.old).size }
        requires whole { length out.old ≡ (state_of self.old).grain }
        ensures value { OnOk result (IsRead (state_of self.old) sector out.new) }
        ensures quiet { IsQuiet (state_of self.old) (state_of self.new) }
        ensures steady { IsSteady (state_of self.old) (state_of self.new) }
        ensures cause { HasCause (state_of self.old).counts.disk (state_of self.new).counts.disk result }
        ensures unread { OnErr result (out.new ≡ out.old) }
        ensures ends { let trace = (memory_of self.old).trace in Ends Call.Read (λ _. trace) trace (memory_of self.old) (memory_of self.new) result }
    {
        if self.log.enlist(Call::Read)? {
            return Err(self.log.fault(Call::Read));
        }
        self.trace.read(sector, out);
        Ok(())
    }

    fn write(&mut self, sector: u64, bytes: &[u8]) -> Result<(), Failed>
        requires begins_inside { sector * (state_of self.old).grain < (state_of self.old).size }
        requires whole { length bytes.now ≡ (state_of self.old).grain }
        ensures written { OnOk result (Happens (Write sector bytes.now) (state_of self.old) (state_of self.new)) }
        ensures failed { OnErr result (GoesOn (WriteFails sector bytes.now) (state_of self.old) (state_of self.new)) }
        ensures steady { IsSteady (state_of self.old) (state_of self.new) }
        ensures cause { HasCause (state_of self.old).counts.disk (state_of self.new).counts.disk result }
        ensures ends { let trace = then_event (Write sector bytes.now) (memory_of self.old).trace in
            Ends Call.Write (λ _. trace) trace (memory_of self.old) (memory_of self.new) result }
    {
        let Ok(kept) = self.trace.keep(bytes) else {
            return Err(self.log.fall_short(Call::Write));
        };
        let is_named = self.log.enlist(Call::Write)?;
        self.trace.write(sector, kept);
        if is_named {
            return Err(self.log.fault(Call::Write));
        }
        Ok(())
    }

    fn sync(&mut self) -> Result<(), Failed>
        ensures synced { OnOk result (Happens Sync (state_of self.old) (state_of self.new)) }
        ensures failed { OnErr result (IsQuiet (state_of self.old) (state_of self.new)) }
        ensures steady { IsSteady (state_of self.old) (state_of self.new) }
        ensures cause { HasCause (state_of self.old).counts.disk (state_of self.new).counts.disk result }
        ensures ends { let trace = (memory_of self.old).trace in
            Ends Call.Sync (λ _. then_event Sync trace) trace (memory_of self.old) (memory_of self.new) result }
    {
        if self.trace.make_room(0).is_err() {
            return Err(self.log.fall_short(Call::Sync));
        }
        if self.log.enlist(Call::Sync)? {
            return Err(self.log.fault(Call::Sync));
        }
        self.trace.sync();
        Ok(())
    }
}

impl Desk for MemDesk {
    fn hear(&mut self, out: &mut [u8]) -> Result<usize, Failed>
        requires { 1 ≤ length out.old }
        ensures count { IfOk result (λ n. n ≤ length out.new) }
        ensures heard { IfOk result (λ n. GoesOn (Hears n out.new) (state_of self.old) (state_of self.new)) }
        ensures failed { OnErr result (IsQuiet (state_of self.old) (state_of self.new)) }
        ensures steady { IsSteady (state_of self.old) (state_of self.new) }
        ensures cause { HasCause (state_of self.old).counts.source (state_of self.new).counts.source result }
        ensures unheard { OnErr result (out.new ≡ out.old) }
        ensures all { IfOk result (λ n. n ≡ min (length out.old) (length (memory_of self.old).trace.left)) }
        ensures ends { let trace = (memory_of self.old).trace in Ends Call.Hear (λ n. heard n trace) trace (memory_of self.old) (memory_of self.new) result }
    {
        if self.log.enlist(Call::Hear)? {
            return Err(self.log.fault(Call::Hear));
        }
        Ok(self.trace.hear(out))
    }

    fn say(&mut self, bytes: &[u8]) -> Result<usize, Failed>
        requires { 1 ≤ length bytes.now }
        ensures some { IfOk result (λ n. 1 ≤ n) }
        ensures count { IfOk result (λ n. n ≤ length bytes.now) }
        ensures said { IfOk result (λ n. Happens (Said (take n bytes.now)) (state_of self.old) (state_of self.new)) }
        ensures failed { OnErr result (IsQuiet (state_of self.old) (state_of self.new)) }
        ensures steady { IsSteady (state_of self.old) (state_of self.new) }
        ensures cause { HasCause (state_of self.old).counts.sink (state_of self.new).counts.sink result }
        ensures all { IfOk result (λ n. n ≡ length bytes.now) }
        ensures ends { let trace = (memory_of self.old).trace in
            Ends Call.Say (λ _. then_event (Said bytes.now) trace) trace (memory_of self.old) (memory_of self.new) result }
    {
        let Ok(kept) = self.trace.keep(bytes) else {
            return Err(self.log.fall_short(Call::Say));
        };
        if self.log.enlist(Call::Say)? {
            return Err(self.log.fault(Call::Say));
        }
        self.trace.say(kept);
        Ok(bytes.len())
    }
}
