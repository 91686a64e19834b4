//! The windows: what a user reads at UTOP and above, which are the kernel's records of environments and frames, the tables
//! and the directory. All but the records of environments is computed when it is read.
//! (MIT 6.828, inc/memlayout.h and mem_init of kern/pmap.c.)

ghost use Rattle.std.specs.Prelude.{◌≡◌, ◌≤◌, ◌<◌, ◌+◌, ◌/◌, ◌%◌, get_or};
ghost use Rattle.std.specs.Option.{option_map};
ghost use Rattle.jos_base.specs.declared.numbers.TheConstants.{ENV_WORDS, FRAMES_MAX, NPTENTRIES, PGSIZE, UTOP};
ghost use Rattle.jos_base.specs.SpacesState.{count_frames, directory, region_limit};
ghost use Rattle.jos_base.specs.Windows.{region_entry, directory_entry, window_page, entry_above, page_entry, walked};
ghost use Rattle.jos_base.specs.Windows.{entry_word, count_word, window_word, window_byte};
ghost use Rattle.jos_space.specs.Calls.{entry_looked};
ghost use Rattle.jos_space.specs.Frames.{state, records, region_of};

use crate::entry::is_present;
use crate::lists::word_at;
use crate::spaces::Spaces;
use crate::spaces::destroying::REGION_LIMIT;
use jos_base::{
    ENV_WORDS, Frame, NPTENTRIES, PGSIZE, PTE_A, PTE_P, PTE_U, PTE_W, Perm, UENVS, UPAGES, UTOP,
    UVPT,
};

/// The bytes of a region.
const REGION_SIZE: u32 = NPTENTRIES * PGSIZE;

/// The directory index of the records of the environments.
const ENVS_INDEX: u32 = UENVS / REGION_SIZE;

/// The directory index of the records of the frames.
const PAGES_INDEX: u32 = UPAGES / REGION_SIZE;

/// The directory index of the tables.
pub(super) const TABLE_INDEX: u32 = UVPT / REGION_SIZE;

/// The first of the frames that are reserved for the records of the environments.
const ENVS_FRAME: u32 = 1;

/// How many frames are reserved for them.
const ENVS_FRAMES: u32 = 16;

/// The first of the frames that are reserved for the records of the frames.
const PAGES_FRAME: u32 = ENVS_FRAME + ENVS_FRAMES;

/// The bits of an entry of what a user may read and never write.
const WINDOW: Perm = Perm(PTE_P + PTE_U + PTE_A);

/// The bits of the entry of a region whose word this is. A page's entry alone says what is allowed in it.
fn region_perm(word: u32) -> Perm
    ensures { option_map (λ region. (region_entry region).perm) (region_of word) ≡ option_map (λ region. result.0) (region_of word) }
{
    if word / PTE_A % 2 == 1 {
        Perm(PTE_P + PTE_W + PTE_U + PTE_A)
    } else {
        Perm(PTE_P + PTE_W + PTE_U)
    }
}

/// The entry at an index of the table of a window that has so many frames from a first one upwards.
fn window_page(first: u32, frames: u32, index: u32) -> Option<(Frame, Perm)>
    requires { first + frames ≤ FRAMES_MAX }
    ensures { entry_looked result ≡ window_page first frames index }
{
    if index < frames {
        Some((Frame(first + index), WINDOW))
    } else {
        None
    }
}

/// An entry as a word; 0 where there is none.
fn entry_word(entry: Option<(Frame, Perm)>) -> u64
    ensures { result ≡ entry_word (entry_looked entry) }
{
    match entry {
        None => 0,
        Some((frame, perm)) => frame.0 as u64 * PGSIZE as u64 + perm.0 as u64,
    }
}

impl Spaces {
    /// How many frames there are.
    fn frames(&self) -> u32
        ensures frames { result ≡ (state self.now).frames }
        ensures most { result ≤ FRAMES_MAX }
    {
        self.roles.len() as u32
    }

    /// How many frames are reserved for the records of the frames.
    fn count_frames(&self) -> u32
        ensures frames { result ≡ count_frames (state self.now).frames }
        ensures most { result ≤ 128 }
    {
        (self.frames() + 511) / 512
    }

    /// The directory's entry of a region below UTOP.
    fn region_entry(&self, space: u32, index: u32) -> Option<(Frame, Perm)>
        requires space { (state self.now).uses space ≡ directory }
        requires index { index < region_limit }
        ensures { entry_looked result ≡ option_map region_entry ((state self.now).regions space index) }
    {
        let word = word_at(&self.words, space, index);
        if is_present(word) {
            Some((Frame(word / PGSIZE), region_perm(word)))
        } else {
            None
        }
    }

    /// The directory's entry at an index.
    fn directory_entry(&self, space: u32, index: u32) -> Option<(Frame, Perm)>
        requires { (state self.now).uses space ≡ directory }
        ensures { entry_looked result ≡ directory_entry (state self.now) space index }
    {
        if index < REGION_LIMIT {
            return self.region_entry(space, index);
        }
        match index {
            ENVS_INDEX => Some((Frame(self.count_frames() + 17), WINDOW)),
            PAGES_INDEX => Some((Frame(self.count_frames() + 18), WINDOW)),
            TABLE_INDEX => Some((Frame(space), WINDOW)),
            _ => None,
        }
    }

    /// The entry of the page of this number, which lies at UTOP or above, in its table.
    fn entry_above(&self, space: u32, number: u32) -> Option<(Frame, Perm)>
        requires { (state self.now).uses space ≡ directory }
        ensures { entry_looked result ≡ entry_above (state self.now) space (number / NPTENTRIES) (number % NPTENTRIES) }
    {
        let index = number % NPTENTRIES;
        match number / NPTENTRIES {
            ENVS_INDEX => window_page(ENVS_FRAME, ENVS_FRAMES, index),
            PAGES_INDEX => window_page(PAGES_FRAME, self.count_frames(), index),
            TABLE_INDEX => self.directory_entry(space, index),
            _ => None,
        }
    }

    /// What both levels of the tables say of the page of this number, which lies at UTOP or above: no user may write it.
    pub(super) fn window_entry(&self, space: u32, number: u32) -> Option<(Frame, Perm)>
        requires space { (state self.now).uses space ≡ directory }
        requires number { UTOP / PGSIZE ≤ number }
        ensures { entry_looked result ≡ walked (state self.now) space number }
    {
        match self.entry_above(space, number) {
            None => None,
            Some((frame, _)) => Some((frame, WINDOW)),
        }
    }

    /// The entry of the page of this number.
    fn page_entry(&self, space: u32, number: u32) -> Option<(Frame, Perm)>
        requires { (state self.now).uses space ≡ directory }
        ensures { entry_looked result ≡ page_entry (state self.now) space number }
    {
        if number < UTOP / PGSIZE {
            self.entry(space, number)
        } else {
            self.entry_above(space, number)
        }
    }

    /// The word of this number of the records of the environments; 0 behind the last record.
    fn record_word(&self, number: u32) -> u64
        ensures { result ≡ get_or (records self.now (number / ENV_WORDS)) (number % ENV_WORDS) 0 }
    {
        let number = number as usize;
        match self.records.get(number / ENV_WORDS) {
            None => 0,
            Some(words) => words[number % ENV_WORDS] as u64,
        }
    }

    /// The word of this number of the records of the frames. Each has two words, and the second says how often the frame is
    /// named.
    fn count_word(&self, number: u32) -> u64
        ensures { result ≡ count_word (state self.now) (number / 2) (number % 2) }
    {
        let frame = number / 2;
        if number % 2 == 0 || frame >= self.frames() {
            0
        } else {
            self.count(Frame(frame))
        }
    }

    /// The word in which an address lies, as a user reads it.
    fn window_word(&self, space: u32, va: u32) -> u64
        requires { (state self.now).uses space ≡ directory }
        ensures { result ≡ window_word (records self.now) (state self.now) space va }
    {
        let number = va % REGION_SIZE / 4;
        match va / REGION_SIZE {
            ENVS_INDEX => self.record_word(number),
            PAGES_INDEX => self.count_word(number),
            TABLE_INDEX => entry_word(self.page_entry(space, number)),
            _ => 0,
        }
    }

    /// The byte at an address, as a user reads it. A word's lowest byte comes first.
    #[tactic(auto, unfolding(jos_base::specs::Windows::window_byte))]
    pub(super) fn window_byte(&self, space: u32, va: u32) -> u8
        requires { (state self.now).uses space ≡ directory }
        ensures { result ≡ window_byte (records self.now) (state self.now) space va }
    {
        let word = self.window_word(space, va);
        let shifted = match va % 4 {
            0 => word,
            1 => word / 0x100,
            2 => word / 0x1_0000,
            _ => word / 0x100_0000,
        };
        (shifted % 0x100) as u8
    }
}
