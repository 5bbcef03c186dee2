ghost use Rattle.std.specs.Prelude.{◌≡◌, ◌<◌, ◌*◌};
ghost use Rattle.save_disk.specs.State.{IsSteady};
ghost use Rattle.save_disk.specs.MemDesks.{state_of};
ghost use Rattle.save_disk.specs.FileDesks.{file_state};

use crate::{Call, Desk, Disk, Failed, FileDesk, MemDesk, PlainSigner, Signer, ZeroSigner};
use std::fs;
use std::test::Fail;

const KINDS: [Call; 6] = [
    Call::Len,
    Call::Read,
    Call::Write,
    Call::Sync,
    Call::Hear,
    Call::Say,
];

#[test]
fn keeps_a_short_last_sector(rt: HostRuntime) -> Result<(), Fail> {
    let mut desk = MemDesk::new(rt.alloc(), &[1; 515], &[])?;
    let mut out = [9; 512];
    assert_eq!(rt; (desk.grain(), desk.len()?), (512, 515));
    desk.read(1, &mut out)?;
    assert_eq!(rt; (out[2], out[3], out[511]), (1, 0, 0));
    desk.write(1, &[7; 512])?;
    desk.sync()?;
    desk.read(1, &mut out)?;
    assert_eq!(rt; (out[2], out[3], out[511]), (7, 0, 0));
    desk.read(0, &mut out)?;
    assert_eq!(rt; out, [1; 512]);
    let image = desk.image();
    assert_eq!(rt; image.len(), 515);
    assert_eq!(rt; (image[511], image[512], image[514]), (1, 7, 7));
    let calls = [
        Call::Len,
        Call::Read,
        Call::Write,
        Call::Sync,
        Call::Read,
        Call::Read,
    ];
    for (i, call) in calls.iter().enumerate() {
        assert_eq!(rt; desk.call(i), Some(*call));
    }
    assert_eq!(rt; desk.call(6), None);
    Ok(())
}

#[test]
fn hears_in_pieces_and_says_all(rt: HostRuntime) -> Result<(), Fail> {
    let mut desk = MemDesk::new(rt.alloc(), &[0; 512], b"hello")?;
    let mut out = [0; 3];
    assert_eq!(rt; desk.hear(&mut out)?, 3);
    assert_eq!(rt; out, *b"hel");
    assert_eq!(rt; desk.hear(&mut out)?, 2);
    assert_eq!(rt; out, *b"lol");
    assert_eq!(rt; desk.hear(&mut out)?, 0);
    assert_eq!(rt; desk.hear(&mut out)?, 0);
    assert_eq!(rt; desk.say(b"one ")?, 4);
    assert_eq!(rt; desk.say(b"two")?, 3);
    assert_eq!(rt; desk.said(), b"one two".as_slice());
    assert_eq!(rt; desk.short(), 0);
    Ok(())
}

/// Each call once, and which of them were done.
fn round(desk: &mut MemDesk, byte: u8) -> [bool; 6]
    requires grain { (state_of desk.old).grain ≡ 512 }
    requires size { 0 < (state_of desk.old).size }
    ensures { IsSteady (state_of desk.old) (state_of desk.new) }
{
    let mut out = [0; 512];
    [
        desk.len().is_ok(),
        desk.read(0, &mut out).is_ok(),
        desk.write(0, &[byte; 512]).is_ok(),
        desk.sync().is_ok(),
        desk.hear(&mut out[..1]).is_ok(),
        desk.say(&[byte]).is_ok(),
    ]
}

#[test]
fn fails_where_a_call_is_named(rt: HostRuntime) -> Result<(), Fail> {
    for (at, call) in KINDS.iter().enumerate() {
        for nth in 1..=2 {
            let mut desk = MemDesk::new(rt.alloc(), &[0; 512], b"abc")?;
            desk.fail(*call, 9);
            desk.fail(*call, nth);
            let mut wanted = [[true; 6]; 2];
            wanted[nth as usize - 1][at] = false;
            let first = round(&mut desk, b'x');
            assert_eq!(rt; first, wanted[0], "{call:?} {nth}");
            assert_eq!(rt; desk.image()[0], b'x', "{call:?} {nth}");
            assert_eq!(rt; round(&mut desk, b'y'), wanted[1], "{call:?} {nth}");
            assert_eq!(rt; desk.image()[0], b'y', "{call:?} {nth}");
            assert_eq!(rt; round(&mut desk, b'z'), [true; 6], "{call:?} {nth}");
            let said = match (call, nth) {
                (Call::Say, 1) => b"yz".as_slice(),
                (Call::Say, _) => b"xz".as_slice(),
                _ => b"xyz".as_slice(),
            };
            assert_eq!(rt; desk.said(), said, "{call:?} {nth}");
            assert_eq!(rt; desk.call(17), Some(Call::Say), "{call:?} {nth}");
            assert_eq!(rt; desk.call(18), None, "{call:?} {nth}");
        }
    }
    Ok(())
}

#[test]
fn signs_as_sha256_does(rt: HostRuntime) {
    assert_eq!(rt; ZeroSigner.tag(&[0; 256]), [0; 16]);
    assert!(rt; !ZeroSigner.demands());
    let tag = [
        0x53, 0x41, 0xe6, 0xb2, 0x64, 0x69, 0x79, 0xa7, 0x0e, 0x57, 0x65, 0x30, 0x07, 0xa1, 0xf3,
        0x10,
    ];
    assert_eq!(rt; PlainSigner.tag(&[0; 256]), tag);
    assert!(rt; PlainSigner.demands());
}

#[test]
fn keeps_a_file(rt: HostRuntime) -> Result<(), Fail> {
    let path = "save_disk_test.image";
    let _ = fs::remove_file(&rt, path);
    assert!(rt; FileDesk::new(&rt, path, None, 512).len().is_err());
    let mut made = FileDesk::new(&rt, path, Some(515), 512);
    assert_eq!(rt; made.grain(), 512);
    let len = made.len()?;
    assert_eq!(rt; len, 515);
    made.write(1, &[7; 512])?;
    made.sync()?;
    made.sync()?;
    let mut found = FileDesk::new(&rt, path, Some(9), 4096);
    assert_eq!(rt; found.grain(), 4096);
    let len = found.len()?;
    assert_eq!(rt; len, 515);
    let mut out = [9; 4096];
    found.read(0, &mut out)?;
    assert_eq!(rt;
        (out[0], out[511], out[512], out[514], out[515]),
        (0, 0, 7, 7, 0)
    );
    assert_eq!(rt; fs::read(&rt, path)?.len(), 515);
    fs::remove_file(&rt, path)?;
    Ok(())
}

/// The first and the last byte of a sector.
fn ends_of(desk: &mut FileDesk<'_>, sector: u64) -> Result<(u8, u8), Failed>
    requires grain { (file_state desk.old).grain ≡ 512 }
    requires inside { sector * 512 < (file_state desk.old).size }
    ensures { IsSteady (file_state desk.old) (file_state desk.new) }
{
    let mut out = [9; 512];
    match desk.read(sector, &mut out) {
        Ok(()) => Ok((out[0], out[511])),
        Err(failed) => Err(failed),
    }
}

#[test]
fn reads_what_was_written_last(rt: HostRuntime) -> Result<(), Fail> {
    let path = "save_disk_window.image";
    let _ = fs::remove_file(&rt, path);
    let mut desk = FileDesk::new(&rt, path, Some(8195), 512);
    let len = desk.len()?;
    assert_eq!(rt; len, 8195);
    let ends = ends_of(&mut desk, 7)?;
    assert_eq!(rt; ends, (0, 0));
    desk.write(7, &[7; 512])?;
    let ends = (ends_of(&mut desk, 7)?, ends_of(&mut desk, 6)?);
    assert_eq!(rt; ends, ((7, 7), (0, 0)));
    desk.write(8, &[8; 512])?;
    let ends = (ends_of(&mut desk, 8)?, ends_of(&mut desk, 7)?);
    assert_eq!(rt; ends, ((8, 8), (7, 7)));
    let ends = ends_of(&mut desk, 16)?;
    assert_eq!(rt; ends, (0, 0));
    desk.write(16, &[16; 512])?;
    let ends = (ends_of(&mut desk, 16)?, ends_of(&mut desk, 9)?);
    assert_eq!(rt; ends, ((16, 0), (0, 0)));
    assert_eq!(rt; fs::read(&rt, path)?.len(), 8195);
    fs::remove_file(&rt, path)?;
    Ok(())
}

#[test]
fn writes_nothing_where_it_reads_alone(rt: HostRuntime) -> Result<(), Fail> {
    let path = "save_disk_reading.image";
    let _ = fs::remove_file(&rt, path);
    assert!(rt; FileDesk::reading(&rt, path, 512).len().is_err());
    fs::write(&rt, path, [5; 600])?;
    let mut desk = FileDesk::reading(&rt, path, 512);
    let len = desk.len()?;
    assert_eq!(rt; len, 600);
    assert!(rt; desk.write(0, &[7; 512]).is_err());
    let mut out = [9; 512];
    desk.read(0, &mut out)?;
    assert_eq!(rt; out, [5; 512]);
    assert_eq!(rt; fs::read(&rt, path)?.as_slice(), [5; 600].as_slice());
    fs::remove_file(&rt, path)?;
    Ok(())
}

#[test]
fn leaves_no_file_that_has_not_its_length(rt: HostRuntime) {
    let path = "save_disk_too_long.image";
    let _ = fs::remove_file(&rt, path);
    assert!(rt; FileDesk::new(&rt, path, Some(u64::MAX), 512).len().is_err());
    assert!(rt; fs::metadata(&rt, path).is_err());
}

#[test]
fn fails_every_call_without_a_file(rt: HostRuntime) {
    let mut folder = FileDesk::new(&rt, ".", Some(512), 512);
    assert!(rt; folder.len().is_err() && folder.sync().is_err());
    let mut none = FileDesk::none(&rt);
    assert!(rt; none.len().is_err() && none.sync().is_err());
    assert!(rt; none.hear(&mut [0]).is_err() && none.say(b"a").is_err());
    let mut read = FileDesk::reading(&rt, ".", 512);
    assert!(rt; read.len().is_err() && read.sync().is_err());
}
