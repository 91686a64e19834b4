//! How many blocks files take.

ghost use Rattle.std.specs.Prelude.{◌≡◌, ◌+◌, ◌*◌, ◌<◌, ◌≤◌, ◌^◌, length, All};
ghost use Rattle.fs_layout.specs.FileTree.{blocks_of, needs_indirect, bitmap_blocks};
ghost use Rattle.fs_layout.specs.DiskImage.{first_data_block};
ghost use Rattle.fs_make.specs.MakeFaults.{root_size, span_of, spans_of, blocks_used};

use fs_layout::{BLKBITSIZE, BLKFILES, BLKSIZE, MAXBLOCKS, MAXFILESIZE, NDIRECT};
use jos_host::NamedBytes;

/// The blocks of so many bytes.
pub(crate) fn blocks_of(size: u64) -> u64
    requires { size < 2 ^ 48 }
    ensures { result ≡ blocks_of size }
{
    (size + (BLKSIZE as u64 - 1)) / BLKSIZE as u64
}

/// Whether these are more than a record names by itself.
pub(crate) fn needs_indirect(size: u64) -> bool
    requires { size < 2 ^ 48 }
    ensures { result ≡ needs_indirect size }
{
    (NDIRECT as u64) < blocks_of(size)
}

/// These blocks with the indirect block, where one is needed.
pub(crate) fn span_of(size: u64) -> u64
    requires { size < 2 ^ 48 }
    ensures { result ≡ span_of size }
{
    blocks_of(size) + if needs_indirect(size) { 1 } else { 0 }
}

/// The size of the root directory of so many files.
#[tactic(auto, unfolding(crate::specs::MakeFaults::root_size))]
pub(crate) fn root_size(files: usize) -> u64
    requires { files < 2 ^ 32 }
    ensures { result ≡ root_size files }
{
    BLKSIZE as u64 * ((files as u64 + (BLKFILES as u64 - 1)) / BLKFILES as u64)
}

/// How many bytes a file has.
pub(crate) fn file_size(file: &NamedBytes) -> u64
    ensures { result ≡ length file.now.bytes }
{
    file.bytes.len() as u64
}

/// The blocks of all files.
fn spans_of(files: &[NamedBytes]) -> u64
    requires few { length files.now < 2 ^ 32 }
    requires sizes { All (λ file. length file.bytes ≤ MAXFILESIZE) files.now }
    ensures blocks { result ≡ spans_of files.now }
    ensures small { result ≤ 1035 * length files.now }
{
    let mut blocks = 0;
    for file in files {
        blocks += span_of(file_size(file));
    }
    blocks
}

/// The blocks of the bitmap.
pub(crate) fn bitmap_blocks(blocks: u32) -> u32
    requires { blocks ≤ MAXBLOCKS }
    ensures { result ≡ bitmap_blocks blocks }
{
    (blocks + (BLKBITSIZE - 1)) / BLKBITSIZE
}

/// The first block behind the bitmap.
pub(crate) fn first_data_block(blocks: u32) -> u32
    requires { blocks ≤ MAXBLOCKS }
    ensures { result ≡ first_data_block blocks }
{
    2 + bitmap_blocks(blocks)
}

/// How many blocks are in use.
pub(crate) fn blocks_used(blocks: u32, files: &[NamedBytes]) -> u64
    requires blocks { blocks ≤ MAXBLOCKS }
    requires few { length files.now < 2 ^ 32 }
    requires sizes { All (λ file. length file.bytes ≤ MAXFILESIZE) files.now }
    ensures { result ≡ blocks_used blocks files.now }
{
    first_data_block(blocks) as u64 + span_of(root_size(files.len())) + spans_of(files)
}
