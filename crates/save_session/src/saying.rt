//! Saying while a container is open over the desk.

ghost use Rattle.std.specs.Prelude.{◌≡◌, OnOk, OnErr};
ghost use Rattle.save_disk.specs.State.{IsSteady, HasCause};
ghost use Rattle.save_disk.specs.Tells.{Tells};
ghost use Rattle.desk_output.specs.Output.{SaysAll, SaysFront, HasOnlySaid};
ghost use Rattle.page_image.specs.declared.state.ImageState.{ImageState};
ghost use Rattle.page_image.specs.Images.{IsDiskOf};
ghost use Rattle.container.specs.declared.open.Container.{Container};
ghost use Rattle.container.specs.StoreHeld.{store_of};
ghost use Rattle.save_session.specs.Saying.{with_faults};

use desk_output::say_all;
use save_disk::{Desk, Failed};

/// Says all the bytes, in as many pieces as the sink takes them. A container that is open over the desk keeps its
/// disk, and its store shows all that it showed, but for the count of faults.
///
/// # Errors
///
/// Where the sink fails. A front of the bytes may then be said.
pub fn say_piece<D: Desk>(desk: &mut D, bytes: &[u8]) -> Result<(), Failed>
    ensures whole { OnOk result (Tells (SaysAll bytes.now) (D.state desk.old) (D.state desk.new)) }
    ensures cut { OnErr result (Tells (SaysFront bytes.now) (D.state desk.old) (D.state desk.new)) }
    ensures only { HasOnlySaid (D.state desk.old).told (D.state desk.new).told }
    ensures disk { (image : ImageState) → IsDiskOf (D.state desk.old) image → IsDiskOf (D.state desk.new) image }
    ensures store { (container : Container) → store_of (D.state desk.new) container
        ≡ with_faults (store_of (D.state desk.old) container) (D.state desk.new).counts.disk }
    ensures steady { IsSteady (D.state desk.old) (D.state desk.new) }
    ensures cause { HasCause (D.state desk.old).counts.sink (D.state desk.new).counts.sink result }
{
    say_all(desk, bytes)
}
