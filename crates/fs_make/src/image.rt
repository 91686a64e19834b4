//! The whole image.

ghost use Rattle.std.specs.Prelude.{◌≡◌, ◌-◌, ◌*◌, ◌<◌, ◌≤◌, ◌^◌, ◌++◌, None, length, min, OnOk, IfOk};
ghost use Rattle.fs_make.specs.MakeFaults.{make_fault};
ghost use Rattle.fs_make.specs.MadeImage.{bitmap_byte, bitmap_bytes, made_super, made_image};

use crate::blocks::{bitmap_blocks, blocks_used, first_data_block, root_size, span_of};
use crate::nodes::{make_entry, push_files_blocks, push_node_blocks, push_zeros, root_bytes};
use fs_layout::{BLKSIZE, FTYPE_DIR, MAXBLOCKS, Super, encode_super};
use jos_host::NamedBytes;
use std::alloc::{AllocError, Global};

/// A byte of the bitmap.
fn bitmap_byte(used: u32, k: u32) -> u8
    requires { k < 2 ^ 29 }
    ensures { result ≡ bitmap_byte used k }
{
    let in_use = used.saturating_sub(8 * k).min(8);
    (256 - (1u32 << in_use)) as u8
}

/// Adds the bitmap.
fn push_bitmap_bytes(image: &mut Vec<u8>, blocks: u32, used: u32) -> Result<(), AllocError>
    requires { blocks ≤ MAXBLOCKS }
    ensures { OnOk result (image.new.items ≡ image.old.items ++ bitmap_bytes blocks used) }
{
    for k in 0..BLKSIZE * bitmap_blocks(blocks) {
        image.push(bitmap_byte(used, k))?;
    }
    Ok(())
}

/// The super block.
#[tactic(auto, unfolding(crate::specs::MadeImage::made_super))]
fn make_super(blocks: u32, files: &[NamedBytes]) -> [u8; BLKSIZE as usize]
    requires few { length files.now < 2 ^ 32 }
    requires good { make_fault blocks files.now ≡ None }
    ensures { result ≡ made_super blocks files.now }
{
    let size = root_size(files.len()) as u32;
    let mut bytes = [0; BLKSIZE as usize];
    encode_super(
        &Super {
            blocks,
            root: make_entry(b"/", size, FTYPE_DIR, first_data_block(blocks)),
        },
        &mut bytes,
    );
    bytes
}

/// The image of files without a fault.
#[tactic(auto, unfolding(crate::specs::MadeImage::made_image))]
pub(crate) fn make_image(
    alloc: Global,
    blocks: u32,
    files: &[NamedBytes],
) -> Result<Vec<u8>, AllocError>
    requires few { length files.now < 2 ^ 32 }
    requires good { make_fault blocks files.now ≡ None }
    ensures { IfOk result (λ image. image.items ≡ made_image blocks files.now) }
{
    let first = first_data_block(blocks);
    let first_file = first + span_of(root_size(files.len())) as u32;
    let used = blocks_used(blocks, files) as u32;
    let root = root_bytes(alloc, first_file, files)?;
    let mut image = Vec::with_capacity(alloc, BLKSIZE as usize * blocks as usize)?;
    push_zeros(&mut image, BLKSIZE)?;
    image.extend_from_slice(&make_super(blocks, files))?;
    push_bitmap_bytes(&mut image, blocks, used)?;
    push_node_blocks(&mut image, first, &root)?;
    push_files_blocks(&mut image, first_file, files)?;
    push_zeros(&mut image, BLKSIZE * (blocks - used))?;
    Ok(image)
}
