use super::*;
use save_bytes::Name;

/// Names of one byte.
const A: Name = Name(*b"a\0\0\0\0\0\0\0\0\0\0\0\0\0\0\0");

const D: Name = Name(*b"d\0\0\0\0\0\0\0\0\0\0\0\0\0\0\0");

const J: Name = Name(*b"j\0\0\0\0\0\0\0\0\0\0\0\0\0\0\0");

const P: Name = Name(*b"p\0\0\0\0\0\0\0\0\0\0\0\0\0\0\0");

const X: Name = Name(*b"x\0\0\0\0\0\0\0\0\0\0\0\0\0\0\0");

// Among so many buckets a bucket's number is the whole hash.
#[test]
fn hashes_take_in_the_parent_and_the_name(rt: HostRuntime) {
    let none = Name([0; 16]);
    for (parent, name, hash) in [
        (0, none, 0xC091_A2B3),
        (1, A, 0xF091_A2BF),
        (2, X, 0xE091_A2BC),
        (9, X, 0x5091_A2BC),
    ] {
        assert_eq!(rt; bucket(parent, &name, u32::MAX), hash);
    }
}

#[test]
fn buckets_are_hashes_by_their_number(rt: HostRuntime) {
    let none = Name([0; 16]);
    for (parent, name, count, number) in [
        (0, none, 3, 0),
        (0, none, 9, 0),
        (1, A, 3, 0),
        (1, A, 5, 3),
        (1, A, 9, 6),
        (1, A, 1, 0),
        (2, X, 9, 5),
        (9, X, 9, 5),
        (1, D, 9, 8),
        (1, J, 9, 8),
        (1, P, 9, 8),
    ] {
        assert!(rt; count >= 1);
        assert_eq!(rt; bucket(parent, &name, count), number);
    }
}
