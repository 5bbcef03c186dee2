//! Saying whole texts.

ghost use Rattle.std.specs.Prelude.{◌≡◌, OnOk, OnErr};
ghost use Rattle.save_disk.specs.State.{IsSteady, HasCause};
ghost use Rattle.save_disk.specs.Tells.{Tells};
ghost use Rattle.desk_output.specs.Output.{SaysAll, SaysFront, HasOnlySaid};

use save_disk::{Desk, Failed};

/// Says all the bytes, in as many pieces as the sink takes them.
pub fn say_all<D: Desk>(desk: &mut D, bytes: &[u8]) -> Result<(), Failed>
    ensures whole { OnOk result (Tells (SaysAll bytes.now) (D.state desk.old) (D.state desk.new)) }
    ensures cut { OnErr result (Tells (SaysFront bytes.now) (D.state desk.old) (D.state desk.new)) }
    ensures only { HasOnlySaid (D.state desk.old).told (D.state desk.new).told }
    ensures steady { IsSteady (D.state desk.old) (D.state desk.new) }
    ensures cause { HasCause (D.state desk.old).counts.sink (D.state desk.new).counts.sink result }
{
    let mut rest = bytes;
    while !rest.is_empty() {
        let taken = desk.say(rest)?;
        rest = &rest[taken..];
    }
    Ok(())
}
