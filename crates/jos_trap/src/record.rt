//! The record by which an environment's registers are set.

ghost use Rattle.std.specs.Prelude.{◌≡◌, ◌*◌, length};
ghost use Rattle.jos_base.specs.declared.numbers.TheConstants.{TRAPFRAME_WORDS};
ghost use Rattle.jos_base.specs.TrapFrames.{from_record, words_of_bytes};

use crate::frame::user_flags;
use byteorder::{ByteOrder, LittleEndian};
use jos_base::{Regs, TRAPFRAME_WORDS};

/// The bytes of a record.
pub const RECORD_SIZE: usize = 4 * TRAPFRAME_WORDS;

/// The words that stand in the bytes of a record.
pub fn words_of_record(bytes: &[u8]) -> [u32; TRAPFRAME_WORDS]
    requires { length bytes.now ≡ 4 * TRAPFRAME_WORDS }
    ensures { result ≡ words_of_bytes bytes.now }
{
    let mut words = [0; TRAPFRAME_WORDS];
    LittleEndian::read_u32_into(bytes, &mut words);
    words
}

/// The registers that a record tells. Its words are EDI, ESI, EBP, an ESP that is ignored, EBX, EDX, ECX, EAX, ES, DS, the
/// trap's number, its error code, EIP, CS, EFLAGS, ESP and SS. The segments, the number and the code are ignored, and of
/// EFLAGS those flags are taken that a program sets. (MIT 6.828, inc/trap.h, `struct Trapframe`)
#[tactic(auto, unfolding(jos_base::specs::TrapFrames::from_record))]
pub fn from_record(words: &[u32; TRAPFRAME_WORDS]) -> Regs
    ensures { result ≡ from_record words.now }
{
    Regs {
        eax: words[7],
        ecx: words[6],
        edx: words[5],
        ebx: words[4],
        esp: words[15],
        ebp: words[2],
        esi: words[1],
        edi: words[0],
        eip: words[12],
        eflags: user_flags(words[14]),
    }
}
