//! What the program gives spawn: what it asks at each step, and what it does next.

ghost use Rattle.std.specs.Prelude.{◌≡◌};
ghost use Rattle.lib_given.specs.Refusals as refusals;

use crate::address::{ARGS_MAX, address_va, ask_address, at_address, behind_kept, next_of_address};
use crate::stack::{STACK_VA, addresses_place, behind_copy, byte_place};
use crate::string::{ask_keeping, ask_string, behind_byte, behind_strings, next_of_string};
use jos_base::{Called, E_INVAL, PGSIZE, PTE_P, PTE_U, PTE_W, SYS_PAGE_ALLOC, UTEMP};
use lib_fd::is_there;
use lib_file::{ask_page_entry, ask_page_region};
use lib_os::{
    GivenStep, OpeningStep, SERVICE_SPAWN, SPAWN_ADDRESSES, SPAWN_GIVEN, SPAWN_STACK, SpawnStep,
    Step, UndoingStep, answer_of,
};
use lib_stage::{Ask, Next, Planned};

/// spawn with what the program gives, at a step: the list of the strings' addresses begins at `argv`.
#[derive(Clone, Copy)]
pub struct Given {
    pub argv: u32,
    pub at: GivenStep,
}

/// A step of spawn with what the program gives.
pub(crate) fn at_given(at: GivenStep) -> Step
    ensures { result ≡ refusals.at_given at }
{
    Step::Spawning {
        at: SpawnStep::Given { at },
    }
}

/// Where what the program gives is refused.
pub(crate) fn refused() -> Step
    ensures { result ≡ refusals.refused }
{
    Step::Spawning {
        at: SpawnStep::Undoing {
            at: UndoingStep::UndoingGiven {
                error: E_INVAL.wrapping_neg(),
            },
        },
    }
}

/// A page of zeros at this address.
fn ask_page(va: u32) -> Ask
    ensures { result ≡ refusals.page_asked va }
{
    Ask::System {
        number: SYS_PAGE_ALLOC,
        args: [0, va, PTE_P + PTE_U + PTE_W, 0, 0],
    }
}

/// Where its page has the address of the string of this number.
fn kept_va(index: u32) -> u32
    ensures { result ≡ refusals.kept_va index }
{
    UTEMP + SPAWN_ADDRESSES + 4 * index.min(ARGS_MAX)
}

impl Planned for Given {
    ghost use Rattle.lib_given.specs.GivenPlan.{giving};

    ghost plan = { giving };

    fn number(&self) -> u32 {
        SERVICE_SPAWN
    }

    fn ask(&self) -> Ask {
        match self.at {
            GivenStep::TakingGiven => ask_page(SPAWN_GIVEN),
            GivenStep::AddressRegion { index, done, .. } => {
                ask_page_region(address_va(self.argv, index, done))
            }
            GivenStep::AddressEntry { index, done, .. } => {
                ask_page_entry(address_va(self.argv, index, done))
            }
            GivenStep::AddressLoading { index, done, .. } => ask_address(self.argv, index, done),
            GivenStep::AddressFaulting { index, done } => Ask::LoadByte {
                va: address_va(self.argv, index, done),
            },
            GivenStep::AddressKeeping { index, word } => Ask::Store {
                va: kept_va(index),
                word,
            },
            GivenStep::StringAddress { index, .. } => Ask::Load { va: kept_va(index) },
            GivenStep::StringRegion { address, done, .. } => {
                ask_page_region(address.wrapping_add(done))
            }
            GivenStep::StringEntry { address, done, .. } => {
                ask_page_entry(address.wrapping_add(done))
            }
            GivenStep::StringLoading { address, done, .. } => ask_string(address, done),
            GivenStep::StringFaulting { address, done } => Ask::LoadByte {
                va: address.wrapping_add(done),
            },
            GivenStep::StringKeeping {
                used,
                done,
                word,
                ..
            } => ask_keeping(used, done, word),
            GivenStep::TakingStack { .. } => ask_page(SPAWN_STACK),
            GivenStep::StringFirst {
                count,
                size,
                index,
                copied,
            } => Ask::Store {
                va: SPAWN_STACK + addresses_place(count, size) + 4 * index.min(ARGS_MAX),
                word: STACK_VA + byte_place(size, copied),
            },
            GivenStep::StringCopying { copied, .. } => Ask::LoadByte {
                va: SPAWN_GIVEN + copied % PGSIZE,
            },
            GivenStep::StringPutting {
                size,
                copied,
                byte,
                ..
            } => Ask::StoreByte {
                va: SPAWN_STACK + byte_place(size, copied),
                byte: (byte % 256) as u8,
            },
            GivenStep::StoringArgv { count, size } => Ask::Store {
                va: SPAWN_STACK + addresses_place(count, size).saturating_sub(4),
                word: STACK_VA + addresses_place(count, size),
            },
            GivenStep::StoringArgc { count, size } => Ask::Store {
                va: SPAWN_STACK + addresses_place(count, size).saturating_sub(8),
                word: count,
            },
        }
    }

    fn next(&self, called: Called) -> Next {
        let word = answer_of(called);
        match self.at {
            GivenStep::TakingGiven => {
                if word != 0 {
                    return Next::GoOn(Step::Spawning {
                        at: SpawnStep::Undoing {
                            at: UndoingStep::UndoingPath { error: word },
                        },
                    });
                }
                Next::GoOn(at_address(self.argv, 0, 0, 0))
            }
            GivenStep::AddressRegion {
                index,
                done,
                word: bytes,
            } => {
                if !is_there(word) {
                    return Next::GoOn(at_given(GivenStep::AddressFaulting { index, done }));
                }
                Next::GoOn(at_given(GivenStep::AddressEntry {
                    index,
                    done,
                    word: bytes,
                }))
            }
            GivenStep::AddressEntry {
                index,
                done,
                word: bytes,
            } => {
                if !is_there(word) {
                    return Next::GoOn(at_given(GivenStep::AddressFaulting { index, done }));
                }
                Next::GoOn(at_given(GivenStep::AddressLoading {
                    index,
                    done,
                    word: bytes,
                }))
            }
            GivenStep::AddressLoading {
                index,
                done,
                word: bytes,
            } => next_of_address(self.argv, index, done, bytes, word),
            GivenStep::AddressFaulting { .. } => Next::Gone,
            GivenStep::AddressKeeping {
                index,
                word: address,
            } => Next::GoOn(behind_kept(self.argv, index, address)),
            GivenStep::StringAddress { index, used } => {
                Next::GoOn(behind_strings(index, used, word))
            }
            GivenStep::StringRegion {
                index,
                address,
                used,
                done,
            } => {
                if !is_there(word) {
                    return Next::GoOn(at_given(GivenStep::StringFaulting { address, done }));
                }
                Next::GoOn(at_given(GivenStep::StringEntry {
                    index,
                    address,
                    used,
                    done,
                }))
            }
            GivenStep::StringEntry {
                index,
                address,
                used,
                done,
            } => {
                if !is_there(word) {
                    return Next::GoOn(at_given(GivenStep::StringFaulting { address, done }));
                }
                Next::GoOn(at_given(GivenStep::StringLoading {
                    index,
                    address,
                    used,
                    done,
                }))
            }
            GivenStep::StringLoading {
                index,
                address,
                used,
                done,
            } => next_of_string(index, address, used, done, word),
            GivenStep::StringFaulting { .. } => Next::Gone,
            GivenStep::StringKeeping {
                index,
                address,
                used,
                done,
                word: kept,
                left,
            } => Next::GoOn(behind_byte(index, address, used, done, kept, left)),
            GivenStep::TakingStack { count, size } => {
                if word != 0 {
                    return Next::GoOn(Step::Spawning {
                        at: SpawnStep::Undoing {
                            at: UndoingStep::UndoingGiven { error: word },
                        },
                    });
                }
                Next::GoOn(at_given(GivenStep::StringFirst {
                    count,
                    size,
                    index: 0,
                    copied: 0,
                }))
            }
            GivenStep::StringFirst {
                count,
                size,
                index,
                copied,
            } => Next::GoOn(at_given(GivenStep::StringCopying {
                count,
                size,
                index,
                copied,
            })),
            GivenStep::StringCopying {
                count,
                size,
                index,
                copied,
            } => Next::GoOn(at_given(GivenStep::StringPutting {
                count,
                size,
                index,
                copied,
                byte: word,
            })),
            GivenStep::StringPutting {
                count,
                size,
                index,
                copied,
                byte,
            } => Next::GoOn(behind_copy(count, size, index, copied, byte)),
            GivenStep::StoringArgv { count, size } => {
                Next::GoOn(at_given(GivenStep::StoringArgc { count, size }))
            }
            GivenStep::StoringArgc { count, size } => Next::GoOn(Step::Spawning {
                at: SpawnStep::Opening {
                    at: OpeningStep::FreeRegion {
                        esp: STACK_VA + addresses_place(count, size).saturating_sub(8),
                    },
                },
            }),
        }
    }
}
