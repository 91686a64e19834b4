//! The frame of a page fault.

ghost use Rattle.std.specs.Prelude.{◌≡◌};
ghost use Rattle.jos_base.specs.TrapFrames.{frame_words, frame_bytes, from_frame, user_flags};

use byteorder::{ByteOrder, LittleEndian};
use jos_base::{
    FL_1, FL_AF, FL_CF, FL_DF, FL_IF, FL_OF, FL_PF, FL_SF, FL_ZF, PageFault, Regs, UTRAPFRAME_WORDS,
};

/// The bytes of a frame.
pub const FRAME_SIZE: usize = 4 * UTRAPFRAME_WORDS;

/// The flags that a program sets.
const FLAGS_TAKEN: u32 = FL_CF + FL_PF + FL_AF + FL_ZF + FL_SF + FL_DF + FL_OF;

/// Of a word the flags that a program sets, and beside them the bits that are always set.
pub(crate) fn user_flags(word: u32) -> u32
    ensures { result ≡ user_flags word }
{
    (FL_1 + FL_IF) | (word & FLAGS_TAKEN)
}

/// The words of a fault's frame: its address and its error code, EDI, ESI, EBP, ESP, EBX, EDX, ECX, EAX, EIP, EFLAGS, and
/// ESP again. (MIT 6.828, inc/trap.h, `struct UTrapframe`; that the first ESP equals the last is this system's own.)
#[tactic(auto, unfolding(jos_base::specs::TrapFrames::frame_words))]
pub fn frame_words(fault: PageFault, registers: &Regs) -> [u32; UTRAPFRAME_WORDS]
    ensures { result ≡ frame_words fault registers.now }
{
    let old_esp = registers.esp;
    [
        fault.va,
        fault.error,
        registers.edi,
        registers.esi,
        registers.ebp,
        old_esp,
        registers.ebx,
        registers.edx,
        registers.ecx,
        registers.eax,
        registers.eip,
        registers.eflags,
        registers.esp,
    ]
}

/// The bytes of a fault's frame.
pub fn frame_bytes(fault: PageFault, registers: &Regs) -> [u8; FRAME_SIZE]
    ensures { result ≡ frame_bytes fault registers.now }
{
    let mut bytes = [0; FRAME_SIZE];
    LittleEndian::write_u32_into(&frame_words(fault, registers), &mut bytes);
    bytes
}

/// The registers that a frame tells. Of EFLAGS those flags are taken that a program sets.
#[tactic(auto, unfolding(jos_base::specs::TrapFrames::from_frame))]
pub fn from_frame(words: &[u32; UTRAPFRAME_WORDS]) -> Regs
    ensures { result ≡ from_frame words.now }
{
    Regs {
        eax: words[9],
        ecx: words[8],
        edx: words[7],
        ebx: words[6],
        esp: words[12],
        ebp: words[4],
        esi: words[3],
        edi: words[2],
        eip: words[10],
        eflags: user_flags(words[11]),
    }
}
