//! Bytes as text.
//!
//! `4096:4a0530ae` is a word, its lowest byte first, at the place 4096. `8196:ffffffff*1023` is so many equal words one after
//! another. In what is given, `12424:4+1*2044/4096` is so many words of which each is greater by 1, and stands 4096 bytes
//! behind the one before it.

use std::alloc::{AllocError, Global};

/// Words.
#[derive(Drop)]
struct WordRow {
    /// Where the first one stands.
    place: usize,
    first: u32,
    count: u32,
    /// By how much each is greater than the one before it.
    step: u32,
    /// How many bytes lie from each to the next one.
    apart: usize,
}

/// Reads words.
fn read_run(text: &str) -> Option<WordRow> {
    let (place, words) = text.split_once(':')?;
    let (words, count) = words.split_once('*').unwrap_or((words, "1"));
    let (count, apart) = count.split_once('/').unwrap_or((count, "4"));
    let (first, step) = words.split_once('+').unwrap_or((words, "0"));
    Some(WordRow {
        place: place.parse().ok()?,
        first: u32::from_str_radix(first, 16).ok()?,
        count: count.parse().ok()?,
        step: step.parse().ok()?,
        apart: apart.parse().ok()?,
    })
}

/// Puts a word at a place, as far as it lies within.
fn put_word(bytes: &mut [u8], place: usize, word: u32) {
    for (k, byte) in word.to_le_bytes().iter().enumerate() {
        if let Some(to) = bytes.get_mut(place.saturating_add(k)) {
            *to = *byte;
        }
    }
}

/// Puts words at their places.
pub fn put_words(bytes: &mut [u8], words: &str) {
    for run in words.split_whitespace() {
        if let Some(run) = read_run(run) {
            let mut place = run.place;
            let mut word = run.first;
            for _ in 0..run.count {
                put_word(bytes, place, word);
                place = place.saturating_add(run.apart);
                word = word.wrapping_add(run.step);
            }
        }
    }
}

/// Bytes, cut or lengthened to so many, with words put into them.
pub fn changed(alloc: Global, bytes: &[u8], change: &str) -> Result<Vec<u8>, AllocError> {
    let (len, words) = change.split_once(' ').unwrap_or((change, ""));
    let mut changed = Vec::from_slice(alloc, bytes)?;
    changed.resize(len.parse().unwrap_or(0), 0)?;
    put_words(&mut changed, words);
    Ok(changed)
}

/// The word in four bytes or fewer, as if zeros followed.
fn word_of(bytes: &[u8]) -> u32 {
    let mut word = [0; 4];
    for (to, byte) in word.iter_mut().zip(bytes) {
        *to = *byte;
    }
    u32::from_le_bytes(word)
}

/// Adds equal words, if they are not 0.
fn tell_equal(text: &mut String, place: usize, word: u32, count: u32) -> Result<(), AllocError> {
    match (word, count) {
        (0, _) => Ok(()),
        (_, 1) => write!(text, " {place}:{word:x}"),
        _ => write!(text, " {place}:{word:x}*{count}"),
    }
}

/// Adds the words of bytes.
pub fn tell_words(text: &mut String, bytes: &[u8]) -> Result<(), AllocError> {
    let mut first = 0;
    let mut word = 0;
    let mut count = 0u32;
    let mut place = 0usize;
    for next in bytes.chunks(4) {
        let next = word_of(next);
        if next != word {
            tell_equal(text, first, word, count)?;
            first = place;
            word = next;
            count = 0;
        }
        count = count.saturating_add(1);
        place = place.saturating_add(4);
    }
    tell_equal(text, first, word, count)
}

/// How many bytes these are, and their words.
pub fn told_bytes(alloc: Global, bytes: &[u8]) -> Result<String, AllocError> {
    let len = bytes.len();
    let mut text = format!(in alloc; "{len} bytes")?;
    tell_words(&mut text, bytes)?;
    Ok(text)
}
