//! The record of the child's registers.

ghost use Rattle.std.specs.Prelude.{◌≡◌, ◌<◌};
ghost use Rattle.lib_child.specs.BearingStages as stages;

use crate::segments::Child;
use jos_base::{FL_1, FL_IF, TRAPFRAME_WORDS};
use lib_os::{BearingStep, SpawnStep};

/// The words of the record.
const RECORD_WORDS: u32 = TRAPFRAME_WORDS as u32;

/// The number of the word that tells EIP. (MIT 6.828, inc/trap.h: `tf_eip`)
pub const RECORD_EIP: u32 = 12;

/// The number of the word that tells EFLAGS. (MIT 6.828, inc/trap.h: `tf_eflags`)
pub const RECORD_EFLAGS: u32 = 14;

/// The number of the word that tells ESP. (MIT 6.828, inc/trap.h: `tf_esp`)
pub const RECORD_ESP: u32 = 15;

/// The number of a word of the record, by a word that may hold anything.
pub(crate) fn register_of(index: u32) -> u32
    ensures is { result ≡ stages.register_of index }
    ensures below { result < 17 }
{
    index % RECORD_WORDS
}

/// That word: the child is to begin at its first instruction with this ESP.
pub(crate) fn register_word(esp: u32, entry_point: u32, index: u32) -> u32
    ensures { result ≡ stages.register_word esp entry_point index }
{
    match index {
        RECORD_EIP => entry_point,
        RECORD_EFLAGS => FL_IF + FL_1,
        RECORD_ESP => esp,
        _ => 0,
    }
}

/// It goes on with this word of the record; behind the last the registers are set.
pub(crate) fn registers_from(esp: u32, entry_point: u32, of: Child, index: u32) -> SpawnStep
    ensures { result ≡ stages.registers_from esp of.fd entry_point of.headers of.child index }
{
    let Child { fd, headers, child } = of;
    if index < RECORD_WORDS {
        SpawnStep::Bearing {
            at: BearingStep::StoringRegister {
                esp,
                fd,
                entry_point,
                headers,
                child,
                index,
            },
        }
    } else {
        SpawnStep::Bearing {
            at: BearingStep::SettingRegisters { fd, headers, child },
        }
    }
}
