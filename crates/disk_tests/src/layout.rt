//! Records, super blocks and paths.

use case_words::{put_words, tell_words};
use fs_layout::{
    BLKSIZE, FileEntry, RECORDSIZE, decode_entry, decode_super, encode_entry, encode_super, parts,
};
use std::alloc::{AllocError, Global};

/// Adds bytes up to the last one that is not 0: letters and the like as they are, others as two digits.
fn tell_name(text: &mut String, name: &[u8]) -> Result<(), AllocError> {
    let len = match name.iter().rposition(|byte| *byte != 0) {
        Some(last) => last + 1,
        None => 0,
    };
    for byte in &name[..len] {
        if byte.is_ascii_graphic() {
            text.push(char::from(*byte))?;
        } else {
            write!(text, "\\{byte:02x}")?;
        }
    }
    Ok(())
}

/// Adds what a record says.
pub(crate) fn tell_entry(text: &mut String, entry: &FileEntry) -> Result<(), AllocError> {
    tell_name(text, &entry.name)?;
    let (kind, size, indirect) = (entry.kind, entry.size, entry.indirect);
    write!(text, " kind {kind} size {size} blocks")?;
    for block in &entry.direct {
        write!(text, " {block}")?;
    }
    write!(text, " indirect {indirect}")
}

/// A record with these words, and the words that it is written as.
pub(crate) fn record(alloc: Global, words: &str) -> Result<String, AllocError> {
    let mut bytes = [0; RECORDSIZE as usize];
    put_words(&mut bytes, words);
    let entry = decode_entry(&bytes);
    let mut written = [0xee; RECORDSIZE as usize];
    encode_entry(&entry, &mut written);
    let mut text = String::new(alloc);
    tell_entry(&mut text, &entry)?;
    text.push_str(" written")?;
    tell_words(&mut text, &written)?;
    Ok(text)
}

/// A super block with these words, and the words that it is written as.
pub(crate) fn super_block(alloc: Global, words: &str) -> Result<String, AllocError> {
    let mut bytes = [0; BLKSIZE as usize];
    put_words(&mut bytes, words);
    let Some(block) = decode_super(&bytes) else {
        return String::from_str(alloc, "none");
    };
    let mut written = [0xee; BLKSIZE as usize];
    encode_super(&block, &mut written);
    let blocks = block.blocks;
    let mut text = format!(in alloc; "{blocks} blocks, root ")?;
    tell_entry(&mut text, &block.root)?;
    text.push_str(" written")?;
    tell_words(&mut text, &written)?;
    Ok(text)
}

/// Where the names stand in a path.
pub(crate) fn names_in(alloc: Global, path: &str) -> Result<String, AllocError> {
    let Ok(names) = parts(path.as_bytes()) else {
        return String::from_str(alloc, "refused");
    };
    let count = names.len();
    let mut text = format!(in alloc; "{count} names")?;
    for name in names.as_slice() {
        let (from, to) = (name.from, name.to);
        write!(text, " {from}-{to}")?;
    }
    Ok(text)
}
