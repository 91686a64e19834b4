//! Sets of slots.

ghost use Rattle.std.specs.Prelude.{◌≡◌, ◌<◌, ◌≤◌};
ghost use Rattle.jos_base.specs.declared.numbers.TheConstants.{NENV};
ghost use Rattle.jos_base.specs.Words.{upd};
ghost use Rattle.jos_envs.specs.SlotSets.{contains, IsFirstSlot, IsLowest, empty};

use jos_base::NENV;

/// The slots that a word has bits for.
const WORD_SLOTS: usize = 64;

/// The slots of the table.
const SLOTS: usize = NENV as usize;

/// The words of a set.
const WORDS: usize = SLOTS / WORD_SLOTS;

/// A bit for each slot of the table.
#[derive(Clone, Copy)]
pub(crate) struct SlotSet {
    words: [u64; WORDS],
}

/// The lowest bit that a word has, from a place on.
fn lowest_from(word: u64, place: usize) -> Option<usize>
    requires { place < 64 }
    ensures { IsLowest word place result }
{
    let rest = word >> place;
    if rest == 0 {
        None
    } else {
        Some(place + rest.trailing_zeros() as usize)
    }
}

impl SlotSet {
    /// No slot.
    pub(crate) fn empty() -> SlotSet
        ensures { contains result.words ≡ empty }
    {
        SlotSet { words: [0; WORDS] }
    }

    /// Puts a slot into the set, or takes it out.
    pub(crate) fn set(&mut self, slot: usize, member: bool)
        requires { slot < NENV }
        ensures { contains self.new.words ≡ upd (contains self.old.words) slot member }
    {
        let index = slot / WORD_SLOTS;
        let bit = 1u64 << (slot % WORD_SLOTS);
        if member {
            self.words[index] |= bit;
        } else {
            self.words[index] &= !bit;
        }
    }

    /// The first slot of the set from a slot on. This looks at no more than sixteen words.
    pub(crate) fn first_from(&self, from: usize) -> Option<usize>
        requires { from ≤ NENV }
        ensures { IsFirstSlot (contains self.now.words) from result }
    {
        let mut slot = from;
        while slot < SLOTS {
            let index = slot / WORD_SLOTS;
            if let Some(place) = lowest_from(self.words[index], slot % WORD_SLOTS) {
                return Some(index * WORD_SLOTS + place);
            }
            slot = (index + 1) * WORD_SLOTS;
        }
        None
    }
}
