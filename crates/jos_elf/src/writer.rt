//! An image to a file.

ghost use Rattle.std.specs.Prelude.{◌≡◌, ◌+◌, ◌^◌, ◌<◌, Ok, All, IfOk, length};
ghost use Rattle.jos_elf.specs.Parsed.{parsed};
ghost use Rattle.jos_elf.specs.Written.{elf_header, flags_of, program_header, headers_len, written_layout, written};
ghost use Rattle.jos_elf.specs.Written.{AreParts, HoldsPart};

use crate::image::Segment;
use crate::numbers::{
    EHDR_LEN, ELFCLASS32, ELFDATA2LSB, EM_386, ET_EXEC, EV_CURRENT, PF_R, PF_W, PF_X, PHDR_LEN,
    PT_LOAD,
};
use jos_base::NoMemory;
use std::alloc::Global;

/// A run of memory and the bytes that begin it.
#[derive(Clone, Copy, Debug, Default, PartialEq, Eq)]
pub struct Part {
    /// The first address.
    pub va: u32,
    /// The place of its bytes among those that are written.
    pub at: u32,
    /// How many bytes.
    pub len: u32,
    /// How many bytes of memory.
    pub mem_len: u32,
    /// Whether its pages may be written.
    pub writable: bool,
}

/// The ELF header of a file with so many program headers, which stand behind it.
#[tactic(auto, unfolding(crate::specs::Written::elf_header))]
fn elf_header(entry: u32, count: u16) -> [u8; EHDR_LEN]
    ensures { result ≡ elf_header entry count }
{
    let (class, order) = (ELFCLASS32, ELFDATA2LSB);
    let (kind, machine) = (ET_EXEC as u8, EM_386 as u8);
    let (ehdr, phdr) = (EHDR_LEN as u8, PHDR_LEN as u8);
    let [e0, e1, e2, e3] = entry.to_le_bytes();
    let [c0, c1] = count.to_le_bytes();
    [
        0x7f, b'E', b'L', b'F', class, order, EV_CURRENT, 0, 0, 0, 0, 0, 0, 0, 0, 0, // e_ident
        kind, 0, machine, 0, // e_type, e_machine
        EV_CURRENT, 0, 0, 0, // e_version
        e0, e1, e2, e3, // e_entry
        ehdr, 0, 0, 0, // e_phoff
        0, 0, 0, 0, // e_shoff
        0, 0, 0, 0, // e_flags
        ehdr, 0, phdr, 0, c0, c1, // e_ehsize, e_phentsize, e_phnum
        0, 0, 0, 0, 0, 0, // e_shentsize, e_shnum, e_shstrndx
    ]
}

/// What may be done with the memory of a segment: it may be read and run.
fn flags_of(writable: bool) -> u32
    ensures { result ≡ flags_of writable }
{
    if writable {
        PF_R + PF_W + PF_X
    } else {
        PF_R + PF_X
    }
}

/// The program header of a segment.
#[tactic(auto, unfolding(crate::specs::Written::program_header))]
fn program_header(segment: Segment) -> [u8; PHDR_LEN]
    ensures { result ≡ program_header segment }
{
    let kind = PT_LOAD as u8;
    let [f0, f1, f2, f3] = segment.file_at.to_le_bytes();
    let [v0, v1, v2, v3] = segment.va.to_le_bytes();
    let [l0, l1, l2, l3] = segment.file_len.to_le_bytes();
    let [m0, m1, m2, m3] = segment.mem_len.to_le_bytes();
    let [p0, p1, p2, p3] = flags_of(segment.writable).to_le_bytes();
    [
        kind, 0, 0, 0, // p_type
        f0, f1, f2, f3, // p_offset
        v0, v1, v2, v3, // p_vaddr
        v0, v1, v2, v3, // p_paddr
        l0, l1, l2, l3, // p_filesz
        m0, m1, m2, m3, // p_memsz
        p0, p1, p2, p3, // p_flags
        1, 0, 0, 0, // p_align
    ]
}

/// Writes an image of these parts as a file that `parse` reads: the headers, and behind them all of the bytes.
///
/// The whole file must have fewer than 2^32 bytes, as `parse` asks of it.
pub fn write(alloc: Global, entry: u32, parts: &[Part], bytes: &[u8]) -> Result<Vec<u8>, NoMemory>
    requires lawful { AreParts parts.now bytes.now }
    requires small { headers_len parts.now + length bytes.now < 2 ^ 32 }
    ensures exact { IfOk result (λ file. file.items ≡ written entry parts.now bytes.now) }
    ensures small { IfOk result (λ file. length file.items < 2 ^ 32) }
    ensures read { IfOk result (λ file. parsed file.items ≡ Ok (written_layout entry parts.now)) }
    ensures bytes { IfOk result (λ file. All (HoldsPart file.items (headers_len parts.now) bytes.now) parts.now) }
{
    let before = EHDR_LEN as u32 + PHDR_LEN as u32 * parts.len() as u32;
    let mut file = Vec::new(alloc);
    file.extend_from_slice(&elf_header(entry, parts.len() as u16))?;
    for part in parts {
        file.extend_from_slice(&program_header(Segment {
            va: part.va,
            mem_len: part.mem_len,
            file_at: before + part.at,
            file_len: part.len,
            writable: part.writable,
        }))?;
    }
    file.extend_from_slice(bytes)?;
    Ok(file)
}
