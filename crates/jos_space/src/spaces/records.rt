//! The records of the environments, as a user reads them.

ghost use Rattle.std.specs.Prelude.{◌≡◌, ◌<◌, slice_set};
ghost use Rattle.jos_base.specs.declared.numbers.TheConstants.{ENV_WORDS, NENV};
ghost use Rattle.jos_base.specs.SpacesState.{directories};
ghost use Rattle.jos_base.specs.Words.{upd};
ghost use Rattle.jos_space.specs.Calls.{KeepsDirectories};
ghost use Rattle.jos_space.specs.Frames.{state, records};

use crate::lists::{set_record, set_record_word};
use crate::spaces::Spaces;
use jos_base::ENV_WORDS;

impl Spaces {
    /// Sets a word of the record of a slot.
    pub fn set_env_word(&mut self, slot: usize, index: usize, word: u32)
        requires slot { slot < NENV }
        requires index { index < ENV_WORDS }
        ensures state { state self.new ≡ state self.old }
        ensures records { records self.new ≡ upd (records self.old) slot (slice_set (records self.old slot) index word) }
        ensures kept { KeepsDirectories (state self.old) (state self.new) }
        ensures directories { directories (state self.new) ≡ directories (state self.old) }
    {
        set_record_word(&mut self.records, slot, index, word);
    }

    /// Sets all words of the record of a slot.
    pub fn set_env_record(&mut self, slot: usize, words: [u32; ENV_WORDS])
        requires { slot < NENV }
        ensures state { state self.new ≡ state self.old }
        ensures records { records self.new ≡ upd (records self.old) slot words }
        ensures kept { KeepsDirectories (state self.old) (state self.new) }
        ensures directories { directories (state self.new) ≡ directories (state self.old) }
    {
        set_record(&mut self.records, slot, words);
    }
}
