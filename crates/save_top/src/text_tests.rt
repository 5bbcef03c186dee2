//! The words of a call, and the lines on a fault and on a block.

use crate::block::block_text;
use crate::form::{Act, Order};
use crate::text::{ROOM, put_damaged, put_no_block, put_no_part, put_open_fault};
use crate::words::order;
use arrayvec::ArrayVec;
use container::OpenFault;
use container_header::HeaderFault;
use difi::DifiFault;
use save_bytes::Words;
use std::alloc::{AllocError, Global};
use std::test::Fail;

fn read(alloc: Global, all: &[&str]) -> Result<Option<Order>, AllocError> {
    let mut words = Words::new(alloc);
    for word in all {
        words.push(word)?;
    }
    Ok(order(&words))
}

#[test]
fn forms_are_read(rt: HostRuntime) -> Result<(), Fail> {
    let alloc = rt.alloc();
    let rows: [(&[&str], bool, Act); 6] = [
        (&["F", "info"], false, Act::Info),
        (&["sealed", "info"], false, Act::Info),
        (&["F", "sealed", "info"], true, Act::Info),
        (&["F", "peek", "0", "0"], false, Act::Peek(0, 0)),
        (&["F", "sealed", "peek", "1", "20"], true, Act::Peek(1, 20)),
        (
            &["F", "peek", "0", "18446744073709551615"],
            false,
            Act::Peek(0, 18446744073709551615),
        ),
    ];
    for (words, sealed, act) in rows {
        assert_eq!(rt; read(alloc, words)?, Some(Order { sealed, act }));
    }
    Ok(())
}

#[test]
fn other_words_are_no_form(rt: HostRuntime) -> Result<(), Fail> {
    let alloc = rt.alloc();
    let rows: [&[&str]; 18] = [
        &[],
        &["F"],
        &["", "info"],
        &["F", "sealed"],
        &["F", "sealed", "sealed", "info"],
        &["F", "info", "sealed"],
        &["F", "peek"],
        &["F", "peek", "0"],
        &["F", "sealed", "peek", "0"],
        &["F", "peek", "0", "1", "2"],
        &["F", "peek", "01", "0"],
        &["F", "peek", "0", "00"],
        &["F", "peek", "0", "+1"],
        &["F", "peek", "-1", "0"],
        &["F", "peek", "", "0"],
        &["F", "peek", "0", " 1"],
        &["F", "peek", "0", "18446744073709551616"],
        &["F", "PEEK", "0", "0"],
    ];
    for words in rows {
        assert_eq!(rt; read(alloc, words)?, None);
    }
    Ok(())
}

#[test]
fn each_fault_has_its_line(rt: HostRuntime) -> Result<(), Fail> {
    let want = *b"\x00\x01\x02\x03\x04\x05\x06\x07\x08\x09\x0a\x0b\x0c\x0d\x0e\x0f";
    let found = [0xF0; 16];
    let version = DifiFault::Version { which: 3 };
    let layout = DifiFault::Layout { condition: 13 };
    let rows = [
        (OpenFault::Memory, ""),
        (OpenFault::Disk, ""),
        (
            OpenFault::Header(HeaderFault::NotImage),
            "refused NotImage\n",
        ),
        (
            OpenFault::Tag { want, found },
            "refused Tag 000102030405060708090a0b0c0d0e0f f0f0f0f0f0f0f0f0f0f0f0f0f0f0f0f0\n",
        ),
        (OpenFault::TableHash, "refused TableHash\n"),
        (
            OpenFault::Difi {
                part: 0,
                fault: DifiFault::Magic { which: 2 },
            },
            "refused DifiMagic 0 2\n",
        ),
        (
            OpenFault::Difi {
                part: 1,
                fault: version,
            },
            "refused DifiVersion 1 3\n",
        ),
        (
            OpenFault::Difi {
                part: 1,
                fault: layout,
            },
            "refused DifiLayout 1 13\n",
        ),
    ];
    for (fault, line) in rows {
        let mut out = ArrayVec::<u8, ROOM>::new();
        put_open_fault(&mut out, &fault);
        assert_eq!(rt; out.as_slice(), line.as_bytes());
    }
    Ok(())
}

#[test]
fn what_is_wanting_has_its_line(rt: HostRuntime) -> Result<(), Fail> {
    let mut out = ArrayVec::new();
    put_no_part(&mut out, 2);
    assert_eq!(rt; out.as_slice(), b"refused NoPart 2\n".as_slice());
    let mut out = ArrayVec::new();
    put_no_block(&mut out, 18446744073709551615);
    assert_eq!(rt;
        out.as_slice(),
        b"refused NoBlock 18446744073709551615\n".as_slice()
    );
    let mut out = ArrayVec::new();
    put_damaged(&mut out, 1, 4, 305);
    assert_eq!(rt; out.as_slice(), b"refused Damaged 1 4 305\n".as_slice());
    Ok(())
}

#[test]
fn block_has_lines_of_32_bytes(rt: HostRuntime) -> Result<(), Fail> {
    let alloc = rt.alloc();
    let bytes =
        *b"\x00\x01\x02\x03\x04\x05\x06\x07\x08\x09\x0a\x0b\x0c\x0d\x0e\x0fABCDEFGHIJKLMNOP\xff";
    let rows = [
        (0, "block 1 70000 0\n"),
        (1, "block 1 70000 1\n00\n"),
        (
            32,
            "block 1 70000 32\n000102030405060708090a0b0c0d0e0f4142434445464748494a4b4c4d4e4f50\n",
        ),
        (
            33,
            "block 1 70000 33\n000102030405060708090a0b0c0d0e0f4142434445464748494a4b4c4d4e4f50\nff\n",
        ),
    ];
    for (len, want) in rows {
        assert!(rt; len <= 33);
        let text = block_text(alloc, 1, 70000, &bytes[..len])?;
        assert_eq!(rt; text.as_slice(), want.as_bytes(), "{len} bytes");
    }
    Ok(())
}
