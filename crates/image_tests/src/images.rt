//! Cases of jos_elf.

use case_words::{Words, bytes_of};
use jos_base::{NoMemory, UTEMP, UTEXT};
use jos_elf::{ElfFault, Part, parse, write};
use std::alloc::{AllocError, Global};
use std::io;

/// What a file is read as: where it starts, and of each segment its address, its length in memory, its place and its
/// length in the file, and whether it may be written; or its fault.
fn tell_parsed(out: &mut String, file: &[u8]) -> Result<(), AllocError> {
    if file.len() >= 0x1_0000_0000 {
        return out.push_str("too long");
    }
    match parse(file) {
        Ok(image) => {
            write!(out, "entry {:x}", image.entry())?;
            for segment in image.segments() {
                let written = if segment.writable { "rw" } else { "r" };
                write!(
                    out,
                    ", {:x} {:x} {:x} {:x} {written}",
                    segment.va, segment.mem_len, segment.file_at, segment.file_len
                )?;
            }
            Ok(())
        }
        Err(fault) => out.push_str(fault.text().as_str()),
    }
}

/// A file of a length: the bytes, and behind them this one up to the length.
fn read_file(alloc: Global, words: &mut Words) -> io::Result<Vec<u8>> {
    let len = words.number();
    let fill = words.byte();
    let mut file = Vec::new(alloc);
    for digits in words.rest().split(' ') {
        file.extend_from_slice(&bytes_of(alloc, digits)?)?;
    }
    file.resize(len as usize, fill)?;
    Ok(file)
}

/// The length below which each beginning of a file is told to be cut at its end.
fn length_cut(file: &[u8]) -> usize {
    if file.len() >= 0x1_0000_0000 {
        return 0;
    }
    for len in 0..file.len() {
        match parse(&file[..len]) {
            Err(ElfFault::Truncated(at)) if at as usize == len => {}
            _ => return len,
        }
    }
    file.len()
}

fn fault_of(mut words: Words) -> Option<ElfFault> {
    match words.word() {
        "Truncated" => Some(ElfFault::Truncated(words.number())),
        "Magic" => Some(ElfFault::Magic),
        "Class" => Some(ElfFault::Class),
        "Kind" => Some(ElfFault::Kind),
        "Machine" => Some(ElfFault::Machine),
        "EntrySize" => Some(ElfFault::EntrySize),
        "TooMany" => Some(ElfFault::TooMany),
        "SegmentRange" => Some(ElfFault::SegmentRange(words.number())),
        "Overlap" => Some(ElfFault::Overlap(words.number(), words.number())),
        _ => None,
    }
}

/// Images that are written: of one part, of three, and of none.
fn written(alloc: Global, name: &str) -> Result<Vec<u8>, NoMemory> {
    let part = Part {
        va: UTEXT + 0x1234,
        at: 2,
        len: 3,
        mem_len: 0x0123_4567,
        writable: true,
    };
    // the second part's bytes are among those of the first, and the third has none
    let parts = [
        Part {
            va: UTEXT + 0x20,
            at: 0,
            len: 8,
            mem_len: 8,
            writable: false,
        },
        Part {
            va: UTEXT + 0x28,
            at: 5,
            len: 3,
            mem_len: 0x1000,
            writable: true,
        },
        Part {
            va: UTEMP - 1,
            at: 8,
            len: 0,
            mem_len: 1,
            writable: true,
        },
    ];
    match name {
        "one" => write(
            alloc,
            UTEXT + 0x1235,
            &[part],
            &[0xaa, 0xbb, 0xcc, 0xdd, 0xee, 0xff],
        ),
        "three" => write(alloc, UTEXT + 0x24, &parts, &[1, 2, 3, 4, 5, 6, 7, 8]),
        _ => write(alloc, 7, &[], &[]),
    }
}

pub fn answer(alloc: Global, out: &mut String, mut words: Words) -> io::Result<()> {
    match words.word() {
        "parse" => tell_parsed(out, &read_file(alloc, &mut words)?)?,
        "cut" => write!(
            out,
            "below {:x}",
            length_cut(&read_file(alloc, &mut words)?)
        )?,
        "fault" => match fault_of(words) {
            Some(fault) => write!(out, "{}; {fault}", fault.text().as_str())?,
            None => out.push_str("no fault")?,
        },
        "write" => match written(alloc, words.word()) {
            Ok(file) => {
                write!(out, "{} ", hex::encode(alloc, &file)?.as_str())?;
                tell_parsed(out, &file)?;
            }
            Err(NoMemory) => out.push_str("out of memory")?,
        },
        _ => out.push_str("no case")?,
    }
    Ok(())
}
