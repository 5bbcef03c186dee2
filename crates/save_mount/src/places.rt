//! Where a filesystem lies in its store.

ghost use Rattle.std.specs.Prelude.{◌≡◌, ℕ, ◌+◌, ◌≤◌, ◌||◌, nat_lt, false, IsTrue, IfOk, IfErr, IfSome, None};
ghost use Rattle.std.specs.Result.{result_err};
ghost use Rattle.save_bytes.specs.Reads.{Reads};
ghost use Rattle.tree_rules.specs.Information.{header_len, information_len, front_len};
ghost use Rattle.container_header.specs.Conditions.{first_failing};
ghost use Rattle.tree_rules.specs.Layout.{passes_end, place_faults};
ghost use Rattle.tree_layout.specs.Headers.{HasHeader};
ghost use Rattle.save_mount.specs.Causes.{refusal_in, HasHeaderCause, IsPlaced, HasPlaceCause};

use crate::fault::{MountFault, refused};
use save_bytes::Space;
use tree_layout::{front_len, place_fault, read_header, read_information};
use tree_rules::{Information, TreeKind};

// The information begins in the header, or does not lie in the first `front` bytes.
fn is_misplaced(front: u64, at: u64) -> bool
    ensures is { result ≡ (nat_lt at header_len || passes_end front at information_len) }
    ensures fits { result ≡ false → at + 0x68 ≤ front }
{
    at < 0x20 || u128::from(front) < u128::from(at) + 0x68
}

// Reads the header: where the information begins.
fn find_information<S: Space>(store: &mut S, kind: TreeKind) -> Result<u64, MountFault>
    requires { IsTrue (S.state store.old).shape.sound }
    ensures found { IsTrue (S.state store.old).told → IfOk result
        (HasHeader kind (S.state store.old).shape.size (S.state store.old).cells) }
    ensures cause { IsTrue (S.state store.old).told → IfErr result
        (HasHeaderCause kind (S.state store.old).shape.size (S.state store.old).cells) }
    ensures reads { Reads S.state S.keeps S.lands store.old store.new (refusal_in result) }
{
    match read_header(store, kind) {
        Ok(found) => match found {
            Some(at) => Ok(at),
            None => Err(MountFault::NotSave),
        },
        Err(bad) => Err(refused(bad)),
    }
}

/// Reads the header and the information of a filesystem, and tries the conditions that need nothing else.
pub(crate) fn read_places<S: Space>(
    store: &mut S,
    kind: TreeKind,
    split: Option<u64>,
) -> Result<Information, MountFault>
    requires sound { IsTrue (S.state store.old).shape.sound }
    requires inside { IfSome split (λ n. n ≤ (S.state store.old).shape.size) }
    ensures placed { IsTrue (S.state store.old).told → IfOk result
        (IsPlaced kind (S.state store.old).shape.size split (S.state store.old).cells) }
    ensures faultless { IfOk result (λ info.
        first_failing 1 (place_faults kind split (S.state store.old).shape.size info) ≡ None) }
    ensures cause { IsTrue (S.state store.old).told → IfErr result
        (HasPlaceCause kind (S.state store.old).shape.size split (S.state store.old).cells) }
    ensures reads { Reads S.state S.keeps S.lands store.old store.new (refusal_in result) }
{
    let size = store.len();
    let front = front_len(split, size);
    let at = match find_information(store, kind) {
        Ok(at) => at,
        Err(fault) => return Err(fault),
    };
    if is_misplaced(front, at) {
        return Err(MountFault::Layout { condition: 1 });
    }
    let info = match read_information(store, at) {
        Ok(info) => info,
        Err(bad) => return Err(refused(bad)),
    };
    match place_fault(kind, split, size, &info) {
        None => Ok(info),
        Some(condition) => Err(MountFault::Layout { condition }),
    }
}
