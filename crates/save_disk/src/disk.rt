//! A disk, and a desk: a disk with an input and an output.

ghost use Rattle.std.specs.Prelude.{◌≡◌, ◌⊎◌, ◌*◌, ◌<◌, ◌≤◌, length, take, IfOk, OnOk, OnErr};
ghost use Rattle.save_disk.specs.Trace.{Write, Sync, Said};
ghost use Rattle.save_disk.specs.State.{State, IsSound, IsSteady, IsQuiet, Happens, IsRead, GoesOn, WriteFails, Hears, HasCause};

/// A call of a disk or desk failed.
#[derive(Clone, Copy, Debug, PartialEq, Eq)]
pub struct Failed;

/// An image of a fixed length, read and written by sectors. A sector is as many bytes as the grain
/// says, and is written whole or not at all. A disk may tell its trace, and clauses on content then
/// hold; those on causes hold of every disk.
pub trait Disk {
    ghost state: { Self → State };

    /// The bytes of a sector: 512 or 4,096. It never changes.
    fn grain(&self) -> u64
        ensures value { result ≡ (state self.now).grain }
        ensures known { (result ≡ 512) ⊎ (result ≡ 4096) }
        ensures least { 512 ≤ result }
        ensures most { result ≤ 4096 };

    /// The image's length in bytes. It never changes.
    fn len(&mut self) -> Result<u64, Failed>
        ensures value { IfOk result (λ n. n ≡ (state self.old).size) }
        ensures quiet { IsQuiet (state self.old) (state self.new) }
        ensures steady { IsSteady (state self.old) (state self.new) }
        ensures cause { HasCause (state self.old).counts.disk (state self.new).counts.disk result };

    /// Reads a sector. A short last one has zeros after the image's end.
    fn read(&mut self, sector: u64, out: &mut [u8]) -> Result<(), Failed>
        requires begins_inside { sector * (state self.old).grain < (state self.old).size }
        requires whole { length out.old ≡ (state self.old).grain }
        ensures value { OnOk result (IsRead (state self.old) sector out.new) }
        ensures quiet { IsQuiet (state self.old) (state self.new) }
        ensures steady { IsSteady (state self.old) (state self.new) }
        ensures cause { HasCause (state self.old).counts.disk (state self.new).counts.disk result };

    /// Writes a sector. Of a short last one, what lies past the image's end is not kept.
    fn write(&mut self, sector: u64, bytes: &[u8]) -> Result<(), Failed>
        requires begins_inside { sector * (state self.old).grain < (state self.old).size }
        requires whole { length bytes.now ≡ (state self.old).grain }
        ensures written { OnOk result (Happens (Write sector bytes.now) (state self.old) (state self.new)) }
        ensures failed { OnErr result (GoesOn (WriteFails sector bytes.now) (state self.old) (state self.new)) }
        ensures steady { IsSteady (state self.old) (state self.new) }
        ensures cause { HasCause (state self.old).counts.disk (state self.new).counts.disk result };

    /// Keeps all writes before it, whatever stops later.
    fn sync(&mut self) -> Result<(), Failed>
        ensures synced { OnOk result (Happens Sync (state self.old) (state self.new)) }
        ensures failed { OnErr result (IsQuiet (state self.old) (state self.new)) }
        ensures steady { IsSteady (state self.old) (state self.new) }
        ensures cause { HasCause (state self.old).counts.disk (state self.new).counts.disk result };

    ghost sound: { (disk : Self) → IsSound (state disk) };
}

/// A disk with a source of input and a sink for output.
pub trait Desk: Disk {
    /// Takes the next bytes of the source: at least one and at most as many as `out` has, or none at
    /// the source's end.
    fn hear(&mut self, out: &mut [u8]) -> Result<usize, Failed>
        requires { 1 ≤ length out.old }
        ensures count { IfOk result (λ n. n ≤ length out.new) }
        ensures heard { IfOk result (λ n. GoesOn (Hears n out.new) (Self.state self.old) (Self.state self.new)) }
        ensures failed { OnErr result (IsQuiet (Self.state self.old) (Self.state self.new)) }
        ensures steady { IsSteady (Self.state self.old) (Self.state self.new) }
        ensures cause { HasCause (Self.state self.old).counts.source (Self.state self.new).counts.source result };

    /// Gives the sink a front of the bytes, at least one, and answers how many it took.
    fn say(&mut self, bytes: &[u8]) -> Result<usize, Failed>
        requires { 1 ≤ length bytes.now }
        ensures some { IfOk result (λ n. 1 ≤ n) }
        ensures count { IfOk result (λ n. n ≤ length bytes.now) }
        ensures said { IfOk result (λ n. Happens (Said (take n bytes.now)) (Self.state self.old) (Self.state self.new)) }
        ensures failed { OnErr result (IsQuiet (Self.state self.old) (Self.state self.new)) }
        ensures steady { IsSteady (Self.state self.old) (Self.state self.new) }
        ensures cause { HasCause (Self.state self.old).counts.sink (Self.state self.new).counts.sink result };
}
