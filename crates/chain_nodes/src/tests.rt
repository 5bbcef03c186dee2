ghost use Rattle.std.specs.Prelude.{◌≡◌, ◌+◌, ◌*◌, ◌≤◌, length};

use super::*;
use save_bytes::{MemSpace, set_u32};
use std::test::Fail;

/// A table of 9 entries behind entry 0, and 9 blocks of 4 bytes each.
const NINE: ChainInfo = ChainInfo {
    table_at: 0,
    count: 9,
    region_at: 80,
    block: 4,
};

// Sets the two words of an entry of a table that begins at 0.
fn set_entry(bytes: &mut [u8], entry: usize, u: u32, v: u32)
    requires { 8 * entry + 8 ≤ length bytes.old }
{
    set_u32(bytes, 8 * entry, u);
    set_u32(bytes, 8 * entry + 4, v);
}

// A chain of a node of entries 3 to 5 and a node of entry 9.
fn two_nodes() -> [u8; 116] {
    let mut bytes = [0; 116];
    set_entry(&mut bytes, 3, FLAG, FLAG + 9);
    set_entry(&mut bytes, 4, FLAG + 3, 5);
    set_entry(&mut bytes, 5, FLAG + 3, 5);
    set_entry(&mut bytes, 9, 3, 0);
    bytes
}

#[test]
fn a_node_is_read_by_its_three_entries(rt: HostRuntime) -> Result<(), Fail> {
    let mut bytes = two_nodes();
    let mut space = MemSpace::new(&mut bytes, 16);
    let link = read_node(&mut space, NINE, Lead::Opens, 3)?;
    assert_eq!(rt; link.node, Node { first: 3, last: 5 });
    assert_eq!(rt; link.next, 9);
    let other = read_node(&mut space, NINE, Lead::Follows(4), 9);
    assert!(rt; other.is_err());
    Ok(())
}

#[test]
fn a_list_is_walked_node_by_node(rt: HostRuntime) -> Result<(), Fail> {
    let mut bytes = two_nodes();
    let mut space = MemSpace::new(&mut bytes, 16);
    assert_eq!(rt; list_len(&mut space, NINE, Lead::Opens, 3)?, 4);
    assert_eq!(rt;
        seek(&mut space, NINE, Lead::Opens, 3, 1)?,
        Some(Run { block: 3, len: 2 })
    );
    assert_eq!(rt; seek(&mut space, NINE, Lead::Opens, 3, 4)?, None);
    let (run, behind) = advance(&mut space, NINE, Cursor::start(Lead::Opens, 3))?;
    assert_eq!(rt; run, Run { block: 2, len: 3 });
    assert_eq!(rt; behind.passed(), 3);
    Ok(())
}
