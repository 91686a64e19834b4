//! Programs in the processor's code, each of which stands at `UTEXT + 0x20`.

/// Prints a letter and a newline twice, and destroys itself.
#[rattlefmt::skip]
const PRINTS: [u8; 33] = [
    0xb8, 0, 0, 0, 0, 0xba, 0x3f, 0, 0x80, 0, 0xb9, 2, 0, 0, 0, 0xcd, 0x30, 0xcd, 0x30,
    0xb8, 3, 0, 0, 0, 0xba, 0, 0, 0, 0, 0xcd, 0x30, b'A', 10,
];

/// Handles its page faults, of which it has three: at 0x401000, 0x402000 and 0x403000, each of the later two in the
/// handler of the one before. Then it prints the second byte of the last frame, which is one of the fault's address, and
/// destroys itself.
#[rattlefmt::skip]
const FAULTS: [u8; 83] = [
    0xb8, 4, 0, 0, 0, 0xba, 0, 0, 0, 0, 0xb9, 0, 0xf0, 0xbf, 0xee, 0xbb, 7, 0, 0, 0, 0xcd, 0x30,
    0xb8, 10, 0, 0, 0, 0xb9, 0x4c, 0, 0x80, 0, 0xcd, 0x30,
    0xbb, 0, 0, 0x40, 0, 0xb9, 4, 0, 0, 0,
    0x81, 0xc3, 0, 0x10, 0, 0, 0x49, 0x74, 2, 0x8a, 3,
    0xb8, 0, 0, 0, 0, 0x8d, 0x54, 0x24, 1, 0xb9, 1, 0, 0, 0, 0xcd, 0x30,
    0xb8, 3, 0, 0, 0, 0xba, 0, 0, 0, 0, 0xcd, 0x30,
];

/// Stops at a breakpoint.
const BREAKS: [u8; 1] = [0xcc];

/// Reads the entry of its code's page at UVPT, prints two bytes of it, and destroys itself.
#[rattlefmt::skip]
const READS_ITS_ENTRY: [u8; 32] = [
    0xa1, 0, 0x20, 0x40, 0xef, 0x50,
    0xb8, 0, 0, 0, 0, 0x89, 0xe2, 0xb9, 2, 0, 0, 0, 0xcd, 0x30,
    0xb8, 3, 0, 0, 0, 0xba, 0, 0, 0, 0, 0xcd, 0x30,
];

/// Receives a page at UTEMP, prints its first byte and the lowest of the word that came with it, which stands in the
/// record of slot 0 at UENVS, and destroys itself.
#[rattlefmt::skip]
const RECEIVES: [u8; 53] = [
    0xb8, 13, 0, 0, 0, 0xba, 0, 0, 0x40, 0, 0xb9, 0, 0, 0, 0, 0xcd, 0x30,
    0xba, 0, 0, 0x40, 0, 0xb9, 1, 0, 0, 0, 0xcd, 0x30,
    0xba, 0x28, 0, 0xc0, 0xee, 0xb9, 1, 0, 0, 0, 0xcd, 0x30,
    0xb8, 3, 0, 0, 0, 0xba, 0, 0, 0, 0, 0xcd, 0x30,
];

/// Sends a page that begins with a letter to the environment of slot 0, and another letter as the word, and destroys
/// itself.
#[rattlefmt::skip]
const SENDS: [u8; 64] = [
    0xb8, 4, 0, 0, 0, 0xba, 0, 0, 0, 0, 0xb9, 0, 0, 0x40, 0, 0xbb, 7, 0, 0, 0, 0xcd, 0x30,
    0xc6, 1, b'M',
    0xb8, 12, 0, 0, 0, 0xba, 0, 0x10, 0, 0, 0xb9, b'V', 0, 0, 0, 0xbb, 0, 0, 0x40, 0, 0xbf, 5, 0, 0, 0, 0xcd, 0x30,
    0xb8, 3, 0, 0, 0, 0xba, 0, 0, 0, 0, 0xcd, 0x30,
];

/// The code of a name.
pub(crate) fn code_of(name: &str) -> Option<&'static [u8]> {
    match name {
        "PRINTS" => Some(&PRINTS),
        "FAULTS" => Some(&FAULTS),
        "BREAKS" => Some(&BREAKS),
        "READS_ITS_ENTRY" => Some(&READS_ITS_ENTRY),
        "RECEIVES" => Some(&RECEIVES),
        "SENDS" => Some(&SENDS),
        _ => None,
    }
}
