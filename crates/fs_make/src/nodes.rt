//! The records and the blocks of files and of the root directory. What is made is added behind the bytes that are there.

ghost use Rattle.std.specs.Prelude.{◌≡◌, ◌+◌, ◌-◌, ◌*◌, ◌<◌, ◌≤◌, ◌^◌, ◌++◌, length, nat_lt, All, OnOk, IfOk, if◌then◌else◌};
ghost use Rattle.jos_base.specs.TrapFrames.{bytes_of_words};
ghost use Rattle.fs_layout.specs.Layout.{zeros, entry_bytes};
ghost use Rattle.fs_make.specs.MakeFaults.{root_size, span_of, spans_of};
ghost use Rattle.fs_make.specs.MadeImage.{padded, direct_numbers, indirect_number, further_numbers, made_entry, node_blocks, files_entries, files_blocks, root_bytes};

use crate::blocks::{blocks_of, file_size, needs_indirect, root_size, span_of};
use fs_layout::{
    BLKSIZE, FTYPE_REG, FileEntry, MAXBLOCKS, MAXFILESIZE, MAXNAMELEN, NDIRECT, NINDIRECT,
    RECORDSIZE, encode_entry,
};
use jos_host::NamedBytes;
use std::alloc::{AllocError, Global};

/// Adds zeros.
pub(crate) fn push_zeros(image: &mut Vec<u8>, count: u32) -> Result<(), AllocError>
    ensures bytes { OnOk result (image.new.items ≡ image.old.items ++ zeros count) }
    ensures len { OnOk result (length image.new.items ≡ length image.old.items + count) }
{
    image.resize(image.len() + count as usize, 0)
}

/// Adds bytes, and zeros behind them, so that whole blocks are filled.
fn push_padded(image: &mut Vec<u8>, bytes: &[u8]) -> Result<(), AllocError>
    requires { length bytes.now < 2 ^ 31 }
    ensures { OnOk result (image.new.items ≡ image.old.items ++ padded bytes.now) }
{
    let size = bytes.len() as u64;
    image.extend_from_slice(bytes)?;
    push_zeros(image, (BLKSIZE as u64 * blocks_of(size) - size) as u32)
}

/// A number, or 0 where the place is past so many blocks.
fn number_within(place: u32, blocks: u64, number: u32) -> u32
    ensures { result ≡ (if nat_lt place blocks then number else 0) }
{
    if (place as u64) < blocks { number } else { 0 }
}

/// The numbers in a record whose blocks begin with `first`.
fn direct_numbers(first: u32, size: u32) -> [u32; NDIRECT as usize]
    requires { first + span_of size ≤ MAXBLOCKS }
    ensures { result ≡ direct_numbers first size }
{
    let blocks = blocks_of(size as u64);
    let mut numbers = [0; NDIRECT as usize];
    for i in 0..NDIRECT {
        numbers[i as usize] = number_within(i, blocks, first + i);
    }
    numbers
}

/// The number of its indirect block, or 0.
fn indirect_number(first: u32, size: u32) -> u32
    requires { first + span_of size ≤ MAXBLOCKS }
    ensures { result ≡ indirect_number first size }
{
    if needs_indirect(size as u64) {
        first + NDIRECT
    } else {
        0
    }
}

/// A name in the bytes of a record.
fn pad_name(name: &[u8]) -> [u8; MAXNAMELEN as usize]
    requires { length name.now ≤ MAXNAMELEN }
    ensures { result ≡ name.now ++ zeros (MAXNAMELEN - length name.now) }
{
    let mut padded = [0; MAXNAMELEN as usize];
    padded[..name.len()].copy_from_slice(name);
    padded
}

/// The record of a file or directory whose blocks begin with `first`.
#[tactic(auto, unfolding(crate::specs::MadeImage::made_entry))]
pub(crate) fn make_entry(name: &[u8], size: u32, kind: u32, first: u32) -> FileEntry
    requires name { length name.now ≤ MAXNAMELEN }
    requires blocks { first + span_of size ≤ MAXBLOCKS }
    ensures { result ≡ made_entry name.now size kind first }
{
    FileEntry {
        name: pad_name(name),
        size,
        kind,
        direct: direct_numbers(first, size),
        indirect: indirect_number(first, size),
    }
}

/// Adds an indirect block.
fn push_further_numbers(image: &mut Vec<u8>, first: u32, size: u64) -> Result<(), AllocError>
    requires { first + span_of size ≤ MAXBLOCKS }
    ensures { OnOk result (image.new.items ≡ image.old.items ++ bytes_of_words (further_numbers first size)) }
{
    let blocks = blocks_of(size);
    for i in 0..NINDIRECT {
        let number = number_within(NDIRECT + i, blocks, first + NDIRECT + 1 + i);
        image.extend_from_slice(&number.to_le_bytes())?;
    }
    Ok(())
}

/// Adds the blocks of a file or directory, which begin with `first`.
pub(crate) fn push_node_blocks(
    image: &mut Vec<u8>,
    first: u32,
    bytes: &[u8],
) -> Result<(), AllocError>
    requires { first + span_of (length bytes.now) ≤ MAXBLOCKS }
    ensures { OnOk result (image.new.items ≡ image.old.items ++ node_blocks first bytes.now) }
{
    let size = bytes.len() as u64;
    if needs_indirect(size) {
        let named = (BLKSIZE * NDIRECT) as usize;
        image.extend_from_slice(&bytes[..named])?;
        push_further_numbers(image, first, size)?;
        push_padded(image, &bytes[named..])
    } else {
        push_padded(image, bytes)
    }
}

/// Adds the record of a file that begins with the block `first`.
fn push_file_entry(image: &mut Vec<u8>, first: u32, file: &NamedBytes) -> Result<(), AllocError>
    requires name { length file.now.name < MAXNAMELEN }
    requires blocks { first + span_of (length file.now.bytes) ≤ MAXBLOCKS }
    ensures bytes { OnOk result (image.new.items ≡ image.old.items ++ entry_bytes (made_entry file.now.name (length file.now.bytes) FTYPE_REG first)) }
    ensures len { OnOk result (length image.new.items ≡ length image.old.items + RECORDSIZE) }
{
    let entry = make_entry(
        file.name.as_bytes(),
        file_size(file) as u32,
        FTYPE_REG,
        first,
    );
    let mut bytes = [0; RECORDSIZE as usize];
    encode_entry(&entry, &mut bytes);
    image.extend_from_slice(&bytes)
}

/// Adds the blocks of a file that begins with the block `first`.
fn push_file_blocks(image: &mut Vec<u8>, first: u32, file: &NamedBytes) -> Result<(), AllocError>
    requires { first + span_of (length file.now.bytes) ≤ MAXBLOCKS }
    ensures { OnOk result (image.new.items ≡ image.old.items ++ node_blocks first file.now.bytes) }
{
    push_node_blocks(image, first, &file.bytes)
}

/// Adds the records of files, of which the first begins with the block `first`.
fn push_files_entries(
    image: &mut Vec<u8>,
    first: u32,
    files: &[NamedBytes],
) -> Result<(), AllocError>
    requires names { All (λ file. length file.name < MAXNAMELEN) files.now }
    requires blocks { first + spans_of files.now ≤ MAXBLOCKS }
    ensures bytes { OnOk result (image.new.items ≡ image.old.items ++ files_entries first files.now) }
    ensures len { OnOk result (length image.new.items ≡ length image.old.items + RECORDSIZE * length files.now) }
{
    let mut block = first;
    for file in files {
        push_file_entry(image, block, file)?;
        block += span_of(file_size(file)) as u32;
    }
    Ok(())
}

/// Adds the blocks of files, of which the first begins with the block `first`.
pub(crate) fn push_files_blocks(
    image: &mut Vec<u8>,
    first: u32,
    files: &[NamedBytes],
) -> Result<(), AllocError>
    requires { first + spans_of files.now ≤ MAXBLOCKS }
    ensures { OnOk result (image.new.items ≡ image.old.items ++ files_blocks first files.now) }
{
    let mut block = first;
    for file in files {
        push_file_blocks(image, block, file)?;
        block += span_of(file_size(file)) as u32;
    }
    Ok(())
}

/// The bytes of the root directory.
#[tactic(auto, unfolding(crate::specs::MadeImage::root_bytes))]
pub(crate) fn root_bytes(
    alloc: Global,
    first: u32,
    files: &[NamedBytes],
) -> Result<Vec<u8>, AllocError>
    requires names { All (λ file. length file.name < MAXNAMELEN) files.now }
    requires blocks { first + spans_of files.now ≤ MAXBLOCKS }
    requires root { root_size (length files.now) ≤ MAXFILESIZE }
    requires few { length files.now < 2 ^ 32 }
    ensures bytes { IfOk result (λ root. root.items ≡ root_bytes first files.now) }
    ensures len { IfOk result (λ root. length root.items ≡ root_size (length files.now)) }
{
    let mut root = Vec::new(alloc);
    push_files_entries(&mut root, first, files)?;
    let records = RECORDSIZE as u64 * files.len() as u64;
    push_zeros(&mut root, (root_size(files.len()) - records) as u32)?;
    Ok(root)
}
