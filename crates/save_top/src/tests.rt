//! What the program says and answers, on desks in memory.
//!
//! The digests of tables and of texts are those of images that were made once in another language, from the format
//! alone.

ghost use Rattle.std.specs.Prelude.{◌≡◌, ◌+◌, ◌≤◌, length};

use super::*;
use save_bytes::{Words, set_u32, set_u64};
use save_disk::{Call, MemDesk, PlainSigner, Signer, ZeroSigner};
use save_samples::{Sample, put_digest, sample};
use sha2::{Digest, Sha256};
use std::alloc::{AllocError, Global};
use std::process::Abort;
use std::test::Fail;

const SINGLE: &str =
    "kind DISA\nactive primary\ntable 1024 300\npart A 4096 106496\nhash 18b7c5bd47916f21b79f8fa36183b4e91c4072e3f4a774d4cf69354a9cc07bed\n";

const DUAL: &str =
    "kind DISA\nactive primary\ntable 1536 604\npart A 4096 40960\npart B 45056 65536\nhash 1f2f002023c9df27c3b5c618b2f236417038727a8aafcc4e92234e278e76ecf4\n";

const VSXE: &str =
    "kind DIFF\nactive primary\ntable 1024 300\npart A 4096 106496\nunique 0\nhash ec91ab9b20d9fab02edf7eb4c3a586f429ef884268b1fd2798c377bc36e6e872\n";

/// The words of a line, one space apart.
fn words_of(alloc: Global, line: &str) -> Result<Words, AllocError> {
    let mut words = Words::new(alloc);
    for word in line.split(' ') {
        words.push(word)?;
    }
    Ok(words)
}

/// That no call of the desk was a write or a sync, and that its image is this one.
fn assert_unwritten(rt: &impl Abort, desk: &MemDesk, image: &[u8], line: &str) {
    for i in 0..300 {
        assert_ne!(rt; desk.call(i), Some(Call::Write), "{line}");
        assert_ne!(rt; desk.call(i), Some(Call::Sync), "{line}");
    }
    assert_eq!(rt; desk.call(300), None, "{line}");
    assert_eq!(rt; desk.image(), image, "{line}");
}

/// That the words have this status and this text on the image, in sectors of 512 bytes, and write nothing.
fn assert_reply<G: Signer>(
    rt: &impl Abort,
    alloc: Global,
    image: &[u8],
    signer: &G,
    line: &str,
    want: (u8, &str),
) -> Result<(), AllocError> {
    let words = words_of(alloc, line)?;
    let mut desk = MemDesk::new(alloc, image, &[])?;
    assert_eq!(rt; run(alloc, &words, &mut desk, signer), want.0, "{line}");
    assert_eq!(rt; desk.said(), want.1.as_bytes(), "{line}");
    assert_unwritten(rt, &desk, image, line);
    Ok(())
}

/// That a block is said, in sectors of 4,096 bytes: the text's front, its length and its digest.
fn assert_block(
    rt: &impl Abort,
    alloc: Global,
    image: &[u8],
    line: &str,
    front: &str,
    len: usize,
    digest: &[u8; 32],
) -> Result<(), AllocError> {
    let words = words_of(alloc, line)?;
    let mut desk = MemDesk::wide(alloc, image, &[])?;
    assert_eq!(rt; run(alloc, &words, &mut desk, &ZeroSigner), DONE, "{line}");
    let said = desk.said();
    assert!(rt; said.starts_with(front.as_bytes()), "{line}");
    assert_eq!(rt; said.len(), len, "{line}");
    assert_eq!(rt; &Sha256::digest(said), digest, "{line}");
    assert_unwritten(rt, &desk, image, line);
    Ok(())
}

#[test]
fn info_says_each_kind(rt: HostRuntime) -> Result<(), Fail> {
    let alloc = rt.alloc();
    let rows = [
        (Sample::Single, SINGLE),
        (Sample::Dual, DUAL),
        (Sample::Vsxe, VSXE),
    ];
    for (which, text) in rows {
        let image = sample(alloc, which)?;
        assert_reply(&rt, alloc, &image, &ZeroSigner, "F info", (DONE, text))?;
    }
    Ok(())
}

// The primary table's copy is the active one, and the digest is its own.
#[test]
fn active_table_alone_decides(rt: HostRuntime) -> Result<(), Fail> {
    let alloc = rt.alloc();
    let mut image = sample(alloc, Sample::Single)?;
    image.copy_within(1024..1324, 512);
    image[1024] ^= 1;
    let refused = (REFUSED, "refused TableHash\n");
    assert_reply(&rt, alloc, &image, &ZeroSigner, "F info", refused)?;
    assert_reply(&rt, alloc, &image, &ZeroSigner, "F peek 0 0", refused)?;
    image[0x168] = 1;
    let secondary =
        "kind DISA\nactive secondary\ntable 512 300\npart A 4096 106496\nhash 18b7c5bd47916f21b79f8fa36183b4e91c4072e3f4a774d4cf69354a9cc07bed\n";
    assert_reply(&rt, alloc, &image, &ZeroSigner, "F info", (DONE, secondary))?;
    Ok(())
}

// 4,096 bytes have 128 lines of 65 bytes, and 1,560 bytes have 48 of them and one of 49.
#[test]
fn block_is_said_whole(rt: HostRuntime) -> Result<(), Fail> {
    let alloc = rt.alloc();
    let image = sample(alloc, Sample::Single)?;
    let front =
        "block 0 0 4096\n53415645000004002000000000000000d8000000000000000002000000000000\n";
    let digest =
        b"\x05\x2d\x67\x8a\xdd\xde\x07\x7b\xf5\x2a\x44\x2d\xf5\x6d\x9e\x1c\x4c\xb0\xe6\x85\x9b\xe8\x50\x23\x9e\x03\xa6\xc3\x49\x72\xcf\xe1";
    assert_block(&rt, alloc, &image, "F peek 0 0", front, 8335, digest)?;
    let image = sample(alloc, Sample::Vsxe)?;
    let front =
        "block 0 0 4096\n56535845000003003801000000000000d8000000000000000002000000000000\n";
    let digest =
        b"\x70\x79\xd1\x26\x7e\x75\x28\x4d\x4d\xd9\xc9\xd3\xde\x1f\xd2\x41\x78\xcb\xde\x20\xa7\x8f\xe8\xc1\x71\xc0\xee\xae\x21\x39\x23\x91";
    assert_block(&rt, alloc, &image, "F peek 0 0", front, 8335, digest)?;
    let image = sample(alloc, Sample::Dual)?;
    let front =
        "block 0 0 1560\n53415645000004002000000000000000d8000000000000000002000000000000\n";
    let digest =
        b"\x94\x76\xc7\x0c\xce\x9a\x5f\x7c\x82\xe3\xa8\xaf\x91\x94\xde\x88\xa2\xb3\x74\x6c\xdb\xe2\x55\x7d\xac\xd3\xf8\xde\x8d\x4f\x60\x15";
    assert_block(&rt, alloc, &image, "F peek 0 0", front, 3184, digest)?;
    Ok(())
}

// The bytes of part 1 follow the 32,768 bytes of part 0.
#[test]
fn part_1_is_shown_behind_part_0(rt: HostRuntime) -> Result<(), Fail> {
    let alloc = rt.alloc();
    let image = sample(alloc, Sample::Loose)?;
    let info = "kind DISA\nactive primary\ntable 1536 604\npart A 45056 65536\npart B 4096 40960\n\
         hash 1f2f002023c9df27c3b5c618b2f236417038727a8aafcc4e92234e278e76ecf4\n";
    let damaged = (REFUSED, "refused Damaged 0 1 0\n");
    assert_reply(&rt, alloc, &image, &ZeroSigner, "F info", (DONE, info))?;
    assert_reply(&rt, alloc, &image, &ZeroSigner, "F peek 0 0", damaged)?;
    let front =
        "block 1 0 1560\n53415645000004002000000000000000d8000000000000000002000000000000\n";
    let digest =
        b"\x5b\x51\x12\x92\xb1\xeb\xa6\xfe\x14\x36\xd3\xc4\x6b\x2a\xc4\x4a\x86\x4e\xf9\x00\xcb\x68\xde\x2a\x27\x47\x97\xf9\x77\x7c\xc9\x6a";
    assert_block(&rt, alloc, &image, "F peek 1 0", front, 3184, digest)?;
    Ok(())
}

// Level four of the lone partition has 34,816 bytes, of the two 1,560 and 32,768, all in blocks of 4,096. Block 0 of
// each part 0 alone was written.
#[test]
fn other_blocks_are_refused(rt: HostRuntime) -> Result<(), Fail> {
    let alloc = rt.alloc();
    let rows = [
        (Sample::Single, "F peek 0 1", "refused Damaged 0 4 1\n"),
        (Sample::Single, "F peek 0 8", "refused Damaged 0 4 8\n"),
        (Sample::Single, "F peek 0 9", "refused NoBlock 9\n"),
        (Sample::Single, "F peek 1 0", "refused NoPart 1\n"),
        (Sample::Single, "F peek 256 0", "refused NoPart 1\n"),
        (Sample::Dual, "F peek 0 1", "refused NoBlock 1\n"),
        (Sample::Dual, "F peek 1 0", "refused Damaged 1 1 0\n"),
        (Sample::Dual, "F peek 1 8", "refused NoBlock 8\n"),
        (Sample::Dual, "F peek 2 9", "refused NoPart 2\n"),
        (
            Sample::Dual,
            "F peek 1 18446744073709551615",
            "refused NoBlock 8\n",
        ),
    ];
    for (which, line, text) in rows {
        let image = sample(alloc, which)?;
        assert_reply(&rt, alloc, &image, &ZeroSigner, line, (REFUSED, text))?;
    }
    Ok(())
}

// One bit is changed in the block of each level, from level four up to the top.
#[test]
fn topmost_failing_block_is_named(rt: HostRuntime) -> Result<(), Fail> {
    let alloc = rt.alloc();
    let mut image = sample(alloc, Sample::Single)?;
    let rows = [
        (24_576, "refused Damaged 0 4 0\n"),
        (20_480, "refused Damaged 0 3 0\n"),
        (16_384, "refused Damaged 0 2 0\n"),
        (12_288, "refused Damaged 0 1 0\n"),
    ];
    for (at, text) in rows {
        assert!(rt; at < image.len());
        image[at] ^= 1;
        let want = (REFUSED, text);
        assert_reply(&rt, alloc, &image, &ZeroSigner, "F peek 0 0", want)?;
        let mut lone = sample(alloc, Sample::Single)?;
        lone[at] ^= 1;
        assert_reply(&rt, alloc, &lone, &ZeroSigner, "F peek 0 0", want)?;
        assert_reply(&rt, alloc, &lone, &ZeroSigner, "F info", (DONE, SINGLE))?;
    }
    Ok(())
}

// One byte of the image is changed.
#[test]
fn first_fault_is_said(rt: HostRuntime) -> Result<(), Fail> {
    let alloc = rt.alloc();
    let rows = [
        (1024, 1, "refused TableHash\n"),
        (1323, 1, "refused TableHash\n"),
        (0x18B, 0xEC, "refused TableHash\n"),
        (0x102, b'F', "refused NotImage\n"),
        (0x103, b'X', "refused NotImage\n"),
        (0x104, 1, "refused Version\n"),
        (0x108, 3, "refused Layout 2\n"),
        (0x108, 2, "refused Layout 8\n"),
        (0x168, 2, "refused Layout 3\n"),
        (0x11F, 0xFF, "refused Layout 5\n"),
    ];
    for (at, byte, text) in rows {
        let mut image = sample(alloc, Sample::Single)?;
        assert!(rt; at < 2048);
        image[at] = byte;
        assert_reply(&rt, alloc, &image, &ZeroSigner, "F info", (REFUSED, text))?;
        assert_reply(
            &rt,
            alloc,
            &image,
            &ZeroSigner,
            "F peek 9 9",
            (REFUSED, text),
        )?;
    }
    let image = sample(alloc, Sample::Single)?;
    for len in [0, 1, 256, 511] {
        assert!(rt; len < 2048);
        let want = (REFUSED, "refused NotImage\n");
        assert_reply(&rt, alloc, &image[..len], &ZeroSigner, "F info", want)?;
    }
    Ok(())
}

// The table and the partition of a DISA are zeros: its SHA-256 is that of 68 zero bytes, as sha256sum gives it.
fn smallest() -> [u8; 2048] {
    let mut image = [0; 2048];
    image[0x100..0x104].copy_from_slice(b"DISA");
    set_u32(&mut image, 0x104, 0x40000);
    set_u32(&mut image, 0x108, 1);
    set_u64(&mut image, 0x110, 512);
    set_u64(&mut image, 0x118, 1024);
    set_u64(&mut image, 0x120, 68);
    set_u64(&mut image, 0x130, 68);
    set_u64(&mut image, 0x148, 1536);
    set_u64(&mut image, 0x150, 512);
    image[0x16C..0x18C].copy_from_slice(
        b"\x17\x51\xac\x12\xe7\x0e\x15\xb4\xf7\x6c\x16\x77\x5c\xd3\x29\xae\x55\x97\x3b\x61\x25\x21\xda\xb2\xde\x82\x8a\x5c\xdb\x6c\x8a\xb3",
    );
    image
}

// Part 1's selector is 2, and then part 0's version of IVFC is another one too.
#[test]
fn first_fault_of_a_descriptor_is_said(rt: HostRuntime) -> Result<(), Fail> {
    let alloc = rt.alloc();
    let magic = (REFUSED, "refused DifiMagic 0 1\n");
    assert_reply(&rt, alloc, &smallest(), &ZeroSigner, "F info", magic)?;
    let mut image = sample(alloc, Sample::Dual)?;
    image[1840 + 0x39] = 2;
    put_digest(&mut image, 1536, 604, 0x16C);
    let layout = (REFUSED, "refused DifiLayout 1 5\n");
    assert_reply(&rt, alloc, &image, &ZeroSigner, "F peek 0 0", layout)?;
    image[1536 + 0x44 + 4] = 1;
    put_digest(&mut image, 1536, 604, 0x16C);
    let version = (REFUSED, "refused DifiVersion 0 2\n");
    assert_reply(&rt, alloc, &image, &ZeroSigner, "F peek 0 0", version)?;
    Ok(())
}

// The tag is the front of the SHA-256 of the header's 256 bytes. Whose signer it is decides, and not the word.
#[test]
fn tag_is_demanded_where_sealed(rt: HostRuntime) -> Result<(), Fail> {
    let alloc = rt.alloc();
    let mut image = sample(alloc, Sample::Single)?;
    let want = (
        REFUSED,
        "refused Tag ce2e3cf437cbbc8b57f5c8bc8d8b0b59 00000000000000000000000000000000\n",
    );
    let told = (DONE, SINGLE);
    assert_reply(&rt, alloc, &image, &PlainSigner, "F sealed info", want)?;
    assert_reply(&rt, alloc, &image, &PlainSigner, "F sealed peek 0 0", want)?;
    assert_reply(&rt, alloc, &image, &ZeroSigner, "F sealed info", told)?;
    image[..16].copy_from_slice(
        b"\xce\x2e\x3c\xf4\x37\xcb\xbc\x8b\x57\xf5\xc8\xbc\x8d\x8b\x0b\x59",
    );
    assert_reply(&rt, alloc, &image, &PlainSigner, "F sealed info", told)?;
    image[15] ^= 1;
    let other = (
        REFUSED,
        "refused Tag ce2e3cf437cbbc8b57f5c8bc8d8b0b59 ce2e3cf437cbbc8b57f5c8bc8d8b0b58\n",
    );
    assert_reply(&rt, alloc, &image, &PlainSigner, "F sealed info", other)?;
    Ok(())
}

#[test]
fn words_of_no_form_touch_no_desk(rt: HostRuntime) -> Result<(), Fail> {
    let alloc = rt.alloc();
    let lines = [
        "",
        "F",
        "F lst",
        "F INFO",
        " info",
        "F info info",
        "F sealed",
        "F peek 0",
        "F peek 0 01",
        "F peek 0 -1",
        "F peek 0 0 0",
        "F sealed sealed info",
    ];
    let image = sample(alloc, Sample::Single)?;
    for line in lines {
        let words = words_of(alloc, line)?;
        let mut desk = MemDesk::new(alloc, &image, &[])?;
        assert_eq!(rt; run(alloc, &words, &mut desk, &ZeroSigner), USAGE, "{line}");
        assert_eq!(rt; desk.call(0), None, "{line}");
        assert_eq!(rt; desk.said(), b"".as_slice(), "{line}");
    }
    let mut desk = MemDesk::new(alloc, &image, &[])?;
    assert_eq!(rt;
        run(alloc, &Words::new(alloc), &mut desk, &ZeroSigner),
        USAGE
    );
    assert_eq!(rt; desk.call(0), None);
    Ok(())
}

/// That a run with this call failing has this status, says nothing, and makes no call after it.
fn assert_last(
    rt: &impl Abort,
    alloc: Global,
    image: &[u8],
    line: &str,
    which: (Call, u32),
    at: usize,
    status: u8,
) -> Result<(), AllocError>
    requires { at ≤ 100 }
{
    let (call, nth) = which;
    let words = words_of(alloc, line)?;
    let mut desk = MemDesk::wide(alloc, image, &[])?;
    desk.fail(call, nth);
    assert_eq!(rt;
        run(alloc, &words, &mut desk, &ZeroSigner),
        status,
        "at {at}"
    );
    assert_eq!(rt; desk.said(), b"".as_slice(), "at {at}");
    assert_eq!(rt; desk.call(at), Some(call), "at {at}");
    assert_eq!(rt; desk.call(at + 1), None, "at {at}");
    assert_eq!(rt; desk.short(), 0);
    Ok(())
}

// In sectors of 4,096 bytes an image is opened by three reads: its front, its table, and its first bytes. A block is
// shown by one more for each page that it and its path lie in.
#[test]
fn failed_call_is_the_last(rt: HostRuntime) -> Result<(), Fail> {
    let alloc = rt.alloc();
    let image = sample(alloc, Sample::Single)?;
    for (line, reads) in [("F info", 3u32), ("F peek 0 0", 9), ("F peek 0 1", 8)] {
        assert_last(&rt, alloc, &image, line, (Call::Len, 1), 0, DISK_FAULT)?;
        for nth in 1..=reads {
            let at = nth as usize;
            assert_last(&rt, alloc, &image, line, (Call::Read, nth), at, DISK_FAULT)?;
        }
        let at = reads as usize + 1;
        assert_last(&rt, alloc, &image, line, (Call::Say, 1), at, SINK_FAULT)?;
    }
    let words = words_of(alloc, "F peek 0 0")?;
    let mut desk = MemDesk::wide(alloc, &image, &[])?;
    desk.fail(Call::Len, 2);
    desk.fail(Call::Read, 10);
    desk.fail(Call::Say, 2);
    assert_eq!(rt; run(alloc, &words, &mut desk, &ZeroSigner), DONE);
    assert_eq!(rt; desk.call(10), Some(Call::Say));
    assert_eq!(rt; desk.call(11), None);
    Ok(())
}

/// An image with so many bytes of zero behind it that it has this length.
fn lengthened(alloc: Global, image: &[u8], len: usize) -> Result<Vec<u8>, AllocError>
    requires { length image.now ≤ len }
{
    let mut bytes = vec![in alloc; 0u8; len]?;
    bytes[..image.len()].copy_from_slice(image);
    Ok(bytes)
}

// Of 984 sectors of 512 bytes three are read.
#[test]
fn info_reads_few_sectors(rt: HostRuntime) -> Result<(), Fail> {
    let alloc = rt.alloc();
    let image = sample(alloc, Sample::Single)?;
    let len: usize = 984 * 512;
    assert!(rt; image.len() <= len);
    let long = lengthened(alloc, &image, len)?;
    let words = words_of(alloc, "F info")?;
    let mut desk = MemDesk::new(alloc, &long, &[])?;
    assert_eq!(rt; run(alloc, &words, &mut desk, &ZeroSigner), DONE);
    assert_eq!(rt; desk.said(), SINGLE.as_bytes());
    for i in 1..=3 {
        assert_eq!(rt; desk.call(i), Some(Call::Read));
    }
    assert_eq!(rt; desk.call(4), Some(Call::Say));
    assert_eq!(rt; desk.call(5), None);
    Ok(())
}

// With ample memory the block is said. Where an allocation of the run finds no memory, nothing is said or written, and
// a fault is the desk's own: its list of calls found none.
#[test]
fn want_of_memory_writes_nothing(rt: HostRuntime) -> Result<(), Fail> {
    let alloc = rt.alloc();
    let image = sample(alloc, Sample::Single)?;
    let words = words_of(alloc, "F peek 0 0")?;
    let mut desk = MemDesk::wide(alloc, &image, &[])?;
    let status = run(alloc, &words, &mut desk, &ZeroSigner);
    let said = (desk.said().len(), desk.short());
    match status {
        DONE => assert_eq!(rt; said, (8335, 0)),
        NO_MEMORY => assert_eq!(rt; said, (0, 0)),
        DISK_FAULT | SINK_FAULT => assert_eq!(rt; said, (0, 1)),
        _ => assert!(rt; false, "status {status}"),
    }
    assert_unwritten(&rt, &desk, &image, "F peek 0 0");
    Ok(())
}
