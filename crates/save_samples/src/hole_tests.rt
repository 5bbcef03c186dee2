//! Tests of the floor with holes.

use super::*;
use save_bytes::{Bad, Floor, Space};
use std::test::Fail;

const BYTES: [u8; 15] = [1, 2, 3, 4, 5, 6, 7, 8, 9, 10, 11, 12, 13, 14, 15];

const HOLES: [Hole; 4] = [
    Hole::Filled,
    Hole::NeverWritten(3),
    Hole::Broken(2),
    Hole::Broken(4),
];

#[test]
fn a_piece_ends_with_its_block(rt: HostRuntime) -> Result<(), Fail> {
    let cases: [(u64, usize, &[u8]); 3] = [(0, 1, &[1]), (1, 2, &[2, 3]), (2, 9, &[3, 4])];
    for (at, most, want) in cases {
        let (mut bytes, mut holes) = (BYTES, HOLES);
        let mut space = HoleSpace::new(&mut bytes, 4, &mut holes);
        assert!(rt; at < 15 && 1 <= most);
        assert_eq!(rt; space.piece(at, most)?, want, "at {at}");
    }
    Ok(())
}

#[test]
fn a_hole_is_named_by_its_level_and_block(rt: HostRuntime) {
    let cases: [(u64, u8, u64); 4] = [(4, 3, 1), (7, 3, 1), (8, 2, 2), (14, 4, 3)];
    for (at, level, block) in cases {
        let (mut bytes, mut holes) = (BYTES, HOLES);
        let mut space = HoleSpace::new(&mut bytes, 4, &mut holes);
        assert!(rt; at < 15);
        let bad = Bad::Damaged {
            part: 0,
            level,
            block,
        };
        assert!(rt; space.piece(at, 1) == Err(bad), "at {at}");
    }
}

#[test]
fn a_put_softens_the_rest_of_a_block_that_was_never_written(rt: HostRuntime) -> Result<(), Fail> {
    let cases: [(u64, &[u8], [u8; 8]); 4] = [
        (0, &[20], [20, 2, 3, 4, 5, 6, 7, 8]),
        (5, &[20], [1, 2, 3, 4, 0, 20, 0, 0]),
        (3, &[20, 21], [1, 2, 3, 20, 21, 0, 0, 0]),
        (4, &[20, 21, 22, 23], [1, 2, 3, 4, 20, 21, 22, 23]),
    ];
    for (at, piece, want) in cases {
        let (mut bytes, mut holes) = (BYTES, HOLES);
        let mut space = HoleSpace::new(&mut bytes, 4, &mut holes);
        assert!(rt; at + piece.len() as u64 <= 15);
        space.ready(at, piece.len() as u64)?;
        space.put(at, piece)?;
        assert_eq!(rt; &bytes[..8], want.as_slice(), "at {at}");
    }
    Ok(())
}

#[test]
fn a_spoilt_block_refuses_a_put_and_from_level_four_on_may_be_cleared(rt: HostRuntime) {
    let cases: [(u64, Option<(u8, u64)>); 4] = [
        (3, None),
        (4, None),
        (9, Some((2, 2))),
        (12, None),
    ];
    for (at, refused) in cases {
        let (mut bytes, mut holes) = (BYTES, HOLES);
        let mut space = HoleSpace::new(&mut bytes, 4, &mut holes);
        assert!(rt; at < 15);
        let want = match refused {
            None => Ok(()),
            Some((level, block)) => Err(Bad::Damaged {
                part: 0,
                level,
                block,
            }),
        };
        assert!(rt; space.clear_ready(at) == want, "at {at}");
        assert!(rt; space.clear(at) == want, "at {at}");
        assert!(rt; refused.is_some() || space.put(at, &[7]).is_ok(), "at {at}");
    }
}

#[test]
fn a_put_that_meets_a_spoilt_block_changes_nothing(rt: HostRuntime) {
    let (mut bytes, mut holes) = (BYTES, HOLES);
    let mut space = HoleSpace::new(&mut bytes, 4, &mut holes);
    let bad = Bad::Damaged {
        part: 0,
        level: 2,
        block: 2,
    };
    assert!(rt; space.put(6, &[7, 7, 7]) == Err(bad));
    assert_eq!(rt; bytes, BYTES);
    assert_eq!(rt; holes, HOLES);
}
