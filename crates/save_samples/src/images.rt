//! Each image from its pieces: level four, the descriptors, the digests above level four, and the header.

ghost use Rattle.std.specs.Prelude.{◌≡◌, ◌≤◌, length, vec_len, IfOk};

use crate::fields::put_digest;
use crate::filesystem::{
    put_save_header, put_vsxe_header, put_with_chained_tables, put_with_placed_tables,
};
use crate::headers::{put_diff, put_dual_disa, put_single_disa, turn_partitions};
use crate::partition::{DATA, LEVEL_FOUR, LONE, TREE, put_descriptor, put_digests};
use crate::trees::{put_holes, put_tree};
use crate::which::Sample;
use std::alloc::{AllocError, Global};

/// The image of this kind.
///
/// # Errors
///
/// Where memory runs out.
pub fn sample(alloc: Global, which: Sample) -> Result<Vec<u8>, AllocError>
    ensures { IfOk result (λ image. vec_len image ≡ 110592) }
{
    let mut image = zeros(alloc, 110_592)?;
    match which {
        Sample::Single => put_single(&mut image),
        Sample::Dual => put_dual(&mut image),
        Sample::Loose => put_loose(&mut image),
        Sample::Vsxe => put_vsxe(&mut image),
        Sample::Tree => put_small_tree(&mut image),
        Sample::Holes => put_unwritten_file(&mut image),
    }
    Ok(image)
}

fn zeros(alloc: Global, len: usize) -> Result<Vec<u8>, AllocError>
    ensures { IfOk result (λ bytes. vec_len bytes ≡ len) }
{
    vec![in alloc; 0; len]
}

fn put_single(image: &mut [u8])
    requires { length image.old ≡ 110592 }
{
    put_save(&mut image[LEVEL_FOUR..]);
    put_above_save(image);
}

fn put_small_tree(image: &mut [u8])
    requires { length image.old ≡ 110592 }
{
    let level_four = &mut image[LEVEL_FOUR..];
    put_save(level_four);
    put_tree(level_four);
    put_above_save(image);
}

fn put_unwritten_file(image: &mut [u8])
    requires { length image.old ≡ 110592 }
{
    let level_four = &mut image[LEVEL_FOUR..];
    put_save(level_four);
    put_holes(level_four);
    put_above_save(image);
}

fn put_save(level_four: &mut [u8])
    requires { 4096 ≤ length level_four.old }
{
    put_save_header(level_four);
    put_with_chained_tables(level_four, 0x20);
}

/// What stands above the level four of a DISA with one partition.
fn put_above_save(image: &mut [u8])
    requires { length image.old ≡ 110592 }
{
    put_descriptor(&mut image[1024..1324], &LONE);
    put_digests(image, 1024 + 0x10C);
    put_single_disa(&mut image[0x100..0x200]);
    put_digest(image, 1024, 300, 0x100 + 0x6C);
}

fn put_dual(image: &mut [u8])
    requires { length image.old ≡ 110592 }
    ensures { length image.new ≡ 110592 }
{
    let level_four = &mut image[LEVEL_FOUR..];
    put_save_header(level_four);
    put_with_placed_tables(level_four, 0x20);
    put_descriptor(&mut image[1536..1836], &TREE);
    put_descriptor(&mut image[1840..2140], &DATA);
    put_digests(image, 1536 + 0x10C);
    put_dual_disa(&mut image[0x100..0x200]);
    put_digest(image, 1536, 604, 0x100 + 0x6C);
}

fn put_loose(image: &mut [u8])
    requires { length image.old ≡ 110592 }
{
    put_dual(image);
    turn_partitions(&mut image[0x100..0x200]);
}

fn put_vsxe(image: &mut [u8])
    requires { length image.old ≡ 110592 }
{
    let level_four = &mut image[LEVEL_FOUR..];
    put_vsxe_header(level_four);
    put_with_chained_tables(level_four, 0x138);
    put_descriptor(&mut image[1024..1324], &LONE);
    put_digests(image, 1024 + 0x10C);
    put_diff(&mut image[0x100..0x200]);
    put_digest(image, 1024, 300, 0x100 + 0x34);
}
