//! The words of a case: numbers, by digits or by name, and sums of them.

use anyhow::Context;
use jos_base::{
    CPUTS_MAX, ENV_NOT_RUNNABLE, FRAMES_MIN, PGSIZE, PTE_P, PTE_U, PTE_W, SYS_CGETC, SYS_CPUTS,
    SYS_ENV_DESTROY, SYS_ENV_SET_PGFAULT_UPCALL, SYS_ENV_SET_STATUS, SYS_ENV_SET_TRAPFRAME,
    SYS_EXOFORK, SYS_GETENVID, SYS_IPC_RECV, SYS_IPC_TRY_SEND, SYS_PAGE_ALLOC, SYS_PAGE_MAP,
    SYS_PAGE_UNMAP, SYS_YIELD, UENVS, ULIM, UPAGES, USTACKTOP, UTEMP, UTEXT, UTOP, UVPT,
    UXSTACKTOP,
};
use std::alloc::Global;

/// The entry's bits of a page that a user may read.
pub const READ: u32 = PTE_P + PTE_U;

/// The entry's bits of a page that a user may write.
pub const WRITE: u32 = PTE_P + PTE_W + PTE_U;

/// Names and their numbers. ENTRY is where a program reads the entry of the page at UTEXT, and DIRECTORY where it reads
/// the entries of its directory. COUNT is where it reads how often frame 21 is named, which is the first page that is
/// given to the first environment of 64 frames. RECEIVER is the record of slot 1.
#[rattlefmt::skip]
const NAMES: [(&str, u32); 34] = [
    ("SYS_CPUTS", SYS_CPUTS), ("SYS_CGETC", SYS_CGETC), ("SYS_GETENVID", SYS_GETENVID),
    ("SYS_ENV_DESTROY", SYS_ENV_DESTROY), ("SYS_PAGE_ALLOC", SYS_PAGE_ALLOC), ("SYS_PAGE_MAP", SYS_PAGE_MAP),
    ("SYS_PAGE_UNMAP", SYS_PAGE_UNMAP), ("SYS_EXOFORK", SYS_EXOFORK), ("SYS_ENV_SET_STATUS", SYS_ENV_SET_STATUS),
    ("SYS_ENV_SET_TRAPFRAME", SYS_ENV_SET_TRAPFRAME), ("SYS_ENV_SET_PGFAULT_UPCALL", SYS_ENV_SET_PGFAULT_UPCALL),
    ("SYS_YIELD", SYS_YIELD), ("SYS_IPC_TRY_SEND", SYS_IPC_TRY_SEND), ("SYS_IPC_RECV", SYS_IPC_RECV),
    ("CPUTS_MAX", CPUTS_MAX), ("ENV_NOT_RUNNABLE", ENV_NOT_RUNNABLE), ("FRAMES_MIN", FRAMES_MIN),
    ("READ", READ), ("WRITE", WRITE), ("PGSIZE", PGSIZE),
    ("UTEMP", UTEMP), ("UTEXT", UTEXT), ("USTACKTOP", USTACKTOP), ("UXSTACK", UXSTACKTOP - PGSIZE), ("UTOP", UTOP),
    ("UENVS", UENVS), ("UPAGES", UPAGES), ("UVPT", UVPT), ("ULIM", ULIM),
    ("ENTRY", UVPT + UTEXT / PGSIZE * 4), ("DIRECTORY", UVPT + 0x3bd * PGSIZE), ("COUNT", UPAGES + 21 * 8 + 4),
    ("RECEIVER", UENVS + 64), ("MAX", u32::MAX),
];

/// The number of a name.
fn named(text: &str) -> Option<u32> {
    NAMES
        .iter()
        .find(|(name, _)| *name == text)
        .map(|(_, number)| *number)
}

/// The number that digits or a name say.
fn part(text: &str) -> Option<u32> {
    match text.strip_prefix("0x") {
        Some(digits) => u32::from_str_radix(digits, 16).ok(),
        None => text.parse::<u32>().ok().or(named(text)),
    }
}

/// The sum that a word says.
pub fn number(word: &str) -> Option<u32> {
    let mut sum: u32 = 0;
    for text in word.split('+') {
        sum = sum.wrapping_add(part(text)?);
    }
    Some(sum)
}

/// The numbers that words say.
pub fn numbers(alloc: Global, words: &str) -> anyhow::Result<Vec<u32>> {
    let mut numbers = Vec::new(alloc);
    for word in words.split_whitespace() {
        let number = number(word).context(format_args!("{word} is no number"))?;
        numbers.push(number)?;
    }
    Ok(numbers)
}

/// The number at a place, 0 where it is left out.
pub fn given(numbers: &[u32], place: usize) -> u32 {
    numbers.get(place).copied().unwrap_or(0)
}
