ghost use Rattle.std.specs.Prelude.{◌≡◌, ◌+◌, ◌*◌, ◌<◌, ◌≤◌, length};
ghost use Rattle.chain_nodes.specs.Table.{HasAllocationTable};

use super::*;
use chain_nodes::FLAG;
use save_bytes::{Bad, MemSpace, Space, set_u32};
use save_samples::{Hole, HoleSpace};

/// A table of 9 entries behind entry 0, and 9 blocks of 4 bytes each.
const NINE: ChainInfo = ChainInfo {
    table_at: 0,
    count: 9,
    region_at: 80,
    block: 4,
};

// Sets the two words of an entry of a table that begins at 0.
fn set_entry(bytes: &mut [u8], entry: usize, u: u32, v: u32)
    requires { 8 * entry + 8 ≤ length bytes.old }
{
    set_u32(bytes, 8 * entry, u);
    set_u32(bytes, 8 * entry + 4, v);
}

// A chain of a node of entries 3 to 5 and a node of entry 9. Each byte of the blocks is its number among them.
fn two_nodes() -> [u8; 116] {
    let mut bytes = [0; 116];
    set_entry(&mut bytes, 3, FLAG, FLAG + 9);
    set_entry(&mut bytes, 4, FLAG + 3, 5);
    set_entry(&mut bytes, 5, FLAG + 3, 5);
    set_entry(&mut bytes, 9, 3, 0);
    for i in 0..36 {
        bytes[80 + i] = i as u8;
    }
    bytes
}

// Reads the first two pieces of contents of so many bytes, and says how long they are.
fn read_two<S: Space>(
    space: &mut S,
    start: u32,
    size: u64,
    first: &mut [u8],
    second: &mut [u8],
) -> Result<(usize, usize), ChainFault>
    requires { HasAllocationTable (S.state space.old).shape NINE }
{
    let mut reading = match begin_reading(space, NINE, start, size) {
        Ok(reading) => reading,
        Err(fault) => return Err(fault),
    };
    let one = match read_piece(space, &mut reading, first) {
        Ok(n) => n,
        Err(fault) => return Err(fault),
    };
    match read_piece(space, &mut reading, second) {
        Ok(n) => Ok((one, n)),
        Err(fault) => Err(fault),
    }
}

// The same of bytes in memory.
fn read_in_memory(
    bytes: &mut [u8],
    start: u32,
    size: u64,
    first: &mut [u8],
    second: &mut [u8],
) -> Result<(usize, usize), ChainFault>
    requires { length bytes.old ≡ 116 }
{
    let mut space = MemSpace::new(bytes, 16);
    read_two(&mut space, start, size, first, second)
}

// Blocks that are filled but one, which was never written.
fn with_hole(hole: usize) -> [Hole; 29]
    requires { hole < 29 }
{
    let mut holes = [Hole::Filled; 29];
    holes[hole] = Hole::NeverWritten(4);
    holes
}

// What begins to be read of the chain, where one block of the store is a hole.
fn begun_with(hole: usize, size: u64) -> Result<u64, ChainFault>
    requires { hole < 29 }
{
    let mut bytes = two_nodes();
    let mut holes = with_hole(hole);
    let mut space = HoleSpace::new(&mut bytes, 4, &mut holes);
    match begin_reading(&mut space, NINE, 2, size) {
        Ok(reading) => Ok(reading.left()),
        Err(fault) => Err(fault),
    }
}

#[test]
fn pieces_cross_the_nodes_of_a_chain(rt: HostRuntime) {
    let mut bytes = two_nodes();
    let mut first = [99; 5];
    let mut second = [99; 12];
    // Blocks 2, 3, 4 and 8, of which the last one is read by half.
    let read = read_in_memory(&mut bytes, 2, 14, &mut first, &mut second);
    assert_eq!(rt; read, Ok((5, 9)));
    assert_eq!(rt; first, [8, 9, 10, 11, 12]);
    assert_eq!(rt; second, [13, 14, 15, 16, 17, 18, 19, 32, 33, 99, 99, 99]);
}

#[test]
fn no_bytes_are_read_of_an_empty_file(rt: HostRuntime) {
    let mut bytes = two_nodes();
    for start in [0x8000_0000, u32::MAX, 2] {
        let mut first = [99; 2];
        let mut second = [99; 2];
        let read = read_in_memory(&mut bytes, start, 0, &mut first, &mut second);
        assert_eq!(rt; read, Ok((0, 0)), "first block {start}");
        assert_eq!(rt; (first, second), ([99; 2], [99; 2]), "first block {start}");
    }
}

// The store's blocks have 4 bytes: block 20 is that of the table's first data block.
#[test]
fn the_first_byte_that_is_none_is_named(rt: HostRuntime) {
    for (hole, size, want) in [
        (22, 14, Some(22)),
        (24, 14, Some(24)),
        (28, 14, Some(28)),
        (28, 12, None),
        (25, 14, None),
        (6, 14, Some(6)),
    ] {
        let found = begun_with(hole, size);
        match want {
            Some(block) => {
                let bad = Bad::Damaged {
                    part: 0,
                    level: 4,
                    block,
                };
                assert_eq!(rt; found, Err(ChainFault::Bad(bad)), "hole {hole}");
            }
            None => assert_eq!(rt; found, Ok(size), "hole {hole}"),
        }
    }
}
