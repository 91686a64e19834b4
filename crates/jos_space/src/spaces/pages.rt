//! Spaces: made, and given pages.

ghost use Rattle.std.specs.Prelude.{◌≡◌, ◌≢◌, ◌<◌, ◌/◌, ◌%◌, ◌+◌, ℕ, Some, None, true, false, IfSome, IsNone, OnOk, OnErr};
ghost use Rattle.std.specs.Prelude.{[], bit_and};
ghost use Rattle.std.specs.Option.{option_map};
ghost use Rattle.jos_base.specs.declared.numbers.TheConstants.{NPTENTRIES, PGSIZE, PTE_P, PTE_U, PTE_SYSCALL, UTOP};
ghost use Rattle.jos_base.specs.Words.{upd};
ghost use Rattle.jos_base.specs.SpacesState.{with_entry, with_table, frame_of, tabled, inserted, created, page};
ghost use Rattle.jos_base.specs.SpacesState.{allocated, directories, zero_page};
ghost use Rattle.jos_base.specs.SpacesState.{fresh, free, directory, region_limit};
ghost use Rattle.jos_space.specs.Calls.{entry_looked, has_bytes, KeepsDirectories};
ghost use Rattle.jos_space.specs.Frames.{state, records};

use crate::entry::is_present;
use crate::lists::{clear_words, count_at, set_word, word_at};
use crate::role::Role;
use crate::spaces::{Empty, Space, Spaces};
use jos_base::{Frame, NPTENTRIES, PGSIZE, PTE_P, PTE_U, PTE_W, Perm, UTOP};

/// The bits of a region's entry: its pages alone say what is allowed.
const TABLE: u32 = PTE_P + PTE_W + PTE_U;

impl Spaces {
    /// The table of a region.
    pub(super) fn table(&self, space: u32, index: u32) -> Option<u32>
        requires space { (state self.now).uses space ≡ directory }
        requires index { index < region_limit }
        ensures { result ≡ option_map (λ r. r.table) ((state self.now).regions space index) }
    {
        let word = word_at(&self.words, space, index);
        if is_present(word) {
            Some(word / PGSIZE)
        } else {
            None
        }
    }

    /// Puts a page's entry into the table of its region. Answers the frame that stood there.
    fn map_page(
        &mut self,
        space: u32,
        table: u32,
        number: u32,
        frame: u32,
        perm: u32,
    ) -> Option<u32>
        requires region { option_map (λ r. r.table) ((state self.old).regions space (number / NPTENTRIES)) ≡ Some table }
        requires frame { has_bytes ((state self.old).uses frame) ≡ true }
        requires perm { perm < PGSIZE }
        requires present { perm % 2 ≡ 1 }
        ensures state { state self.new ≡ with_entry (state self.old) space number (record { frame = frame; perm = perm }) }
        ensures gone { result ≡ frame_of ((state self.old).entries space number) }
        ensures page { IfSome result (λ g. (state self.new).uses g ≡ page) }
        ensures bytes { self.new.bytes ≡ self.old.bytes }
        ensures records { records self.new ≡ records self.old }
    {
        let index = number % NPTENTRIES;
        let old = word_at(&self.words, table, index);
        set_word(&mut self.words, table, index, frame * PGSIZE + perm);
        self.roles[frame as usize] = Role::Page;
        let count = count_at(&self.counts, frame);
        self.counts[frame as usize] = count + 1;
        if is_present(old) {
            let gone = old / PGSIZE;
            let named = count_at(&self.counts, gone);
            self.counts[gone as usize] = named - 1;
            Some(gone)
        } else {
            None
        }
    }

    /// Makes a fresh frame the table of a region that has none.
    fn set_table(&mut self, space: u32, index: u32, frame: u32)
        requires space { (state self.old).uses space ≡ directory }
        requires index { index < region_limit }
        requires frame { (state self.old).uses frame ≡ fresh }
        requires region { (state self.old).regions space index ≡ None }
        ensures after { state self.new ≡ with_table (state self.old) space index frame }
        ensures bytes { self.new.bytes ≡ self.old.bytes }
        ensures records { records self.new ≡ records self.old }
    {
        clear_words(&mut self.words, frame);
        set_word(&mut self.words, space, index, frame * PGSIZE + TABLE);
        self.roles[frame as usize] = Role::Table(space, index);
    }

    /// The table of a region, made where there is none.
    fn table_for(&mut self, space: u32, index: u32) -> Option<u32>
        requires space { (state self.old).uses space ≡ directory }
        requires index { index < region_limit }
        ensures none { IsNone result → tabled (state self.old) space index ≡ None }
        ensures stays { IsNone result → self.new ≡ self.old }
        ensures some { IfSome result (λ t. tabled (state self.old) space index ≡ Some (state self.new)) }
        ensures found { IfSome result (λ t. option_map (λ r. r.table) ((state self.new).regions space index) ≡ Some t) }
        ensures keeps { IfSome result (λ t. (f : ℕ) → (state self.old).uses f ≢ free → (state self.new).uses f ≡ (state self.old).uses f) }
        ensures bytes { self.new.bytes ≡ self.old.bytes }
        ensures records { records self.new ≡ records self.old }
    {
        match self.table(space, index) {
            Some(table) => Some(table),
            None => match self.take() {
                None => None,
                Some(frame) => {
                    self.set_table(space, index, frame);
                    Some(frame)
                }
            },
        }
    }

    /// Puts a page into a space, in the place of what stood there. `Empty` where a table is needed and no frame is free.
    pub fn insert(&mut self, space: Space, va: u32, frame: Frame, perm: Perm) -> Result<(), Empty>
        requires space { (state self.old).uses space.directory.0 ≡ directory }
        requires begin { va % PGSIZE ≡ 0 }
        requires below { va < UTOP }
        requires frame { has_bytes ((state self.old).uses frame.0) ≡ true }
        requires user { bit_and perm.0 (PTE_P + PTE_U) ≡ PTE_P + PTE_U }
        requires perm { bit_and perm.0 PTE_SYSCALL ≡ perm.0 }
        ensures ok { OnOk result (inserted (state self.old) space.directory.0 (va / PGSIZE) (record { frame = frame.0; perm = perm.0 }) ≡ Some (state self.new)) }
        ensures empty { OnErr result (inserted (state self.old) space.directory.0 (va / PGSIZE) (record { frame = frame.0; perm = perm.0 }) ≡ None) }
        ensures stays { OnErr result (self.new ≡ self.old) }
        ensures page { OnOk result ((state self.new).uses frame.0 ≡ page) }
        ensures kept { KeepsDirectories (state self.old) (state self.new) }
        ensures directories { directories (state self.new) ≡ directories (state self.old) }
        ensures bytes { OnOk result ((state self.new).pages frame.0 ≡ (state self.old).pages frame.0) }
        ensures records { records self.new ≡ records self.old }
    {
        let number = va / PGSIZE;
        match self.table_for(space.directory.0, number / NPTENTRIES) {
            None => Err(Empty),
            Some(table) => {
                let gone = self.map_page(space.directory.0, table, number, frame.0, perm.0);
                self.release(gone);
                Ok(())
            }
        }
    }

    /// Puts a new page of zeros into a space, in the place of what stood there. None where a frame is wanted, for it or
    /// for its table, and none is free; nothing is changed then.
    pub fn allocate(&mut self, space: Space, va: u32, perm: Perm) -> Option<Frame>
        requires space { (state self.old).uses space.directory.0 ≡ directory }
        requires begin { va % PGSIZE ≡ 0 }
        requires below { va < UTOP }
        requires user { bit_and perm.0 (PTE_P + PTE_U) ≡ PTE_P + PTE_U }
        requires perm { bit_and perm.0 PTE_SYSCALL ≡ perm.0 }
        ensures some { IfSome result (λ frame. allocated (state self.old) space.directory.0 (va / PGSIZE) perm.0 ≡ Some (frame.0, state self.new)) }
        ensures none { IsNone result → allocated (state self.old) space.directory.0 (va / PGSIZE) perm.0 ≡ None }
        ensures stays { IsNone result → state self.new ≡ state self.old }
        ensures zero { IfSome result (λ frame. (state self.new).pages frame.0 ≡ zero_page) }
        ensures page { IfSome result (λ frame. (state self.new).uses frame.0 ≡ page) }
        ensures directories { directories (state self.new) ≡ directories (state self.old) }
        ensures records { records self.new ≡ records self.old }
    {
        let frame = match self.fresh() {
            Some(frame) => frame,
            None => return None,
        };
        match self.insert(space, va, frame, perm) {
            Ok(()) => Some(frame),
            Err(Empty) => {
                self.give_back(frame);
                None
            }
        }
    }

    /// The frame of the page of this number, which lies below UTOP, and its bits. None where there is no page.
    #[inline(always)]
    pub(super) fn entry(&self, space: u32, number: u32) -> Option<(Frame, Perm)>
        requires space { (state self.now).uses space ≡ directory }
        requires number { number < UTOP / PGSIZE }
        ensures entry { entry_looked result ≡ (state self.now).entries space number }
        ensures page { IfSome result (λ found. (state self.now).uses found.0.0 ≡ page) }
    {
        match self.table(space, number / NPTENTRIES) {
            None => None,
            Some(table) => {
                let word = word_at(&self.words, table, number % NPTENTRIES);
                if is_present(word) {
                    Some((Frame(word / PGSIZE), Perm(word % PGSIZE)))
                } else {
                    None
                }
            }
        }
    }

    /// The frame of a page and its bits. None where there is no page.
    pub fn look(&self, space: Space, va: u32) -> Option<(Frame, Perm)>
        requires { (state self.now).uses space.directory.0 ≡ directory }
        ensures entry { entry_looked result ≡ (state self.now).entries space.directory.0 (va / PGSIZE) }
        ensures page { IfSome result (λ found. (state self.now).uses found.0.0 ≡ page) }
    {
        if va >= UTOP {
            return None;
        }
        self.entry(space.directory.0, va / PGSIZE)
    }

    /// Makes a fresh frame a directory.
    fn set_directory(&mut self, frame: u32)
        requires { (state self.old).uses frame ≡ fresh }
        ensures state { state self.new ≡ record (state self.old) { uses = upd (state self.old).uses frame directory; pages = upd (state self.old).pages frame [] } }
        ensures records { records self.new ≡ records self.old }
    {
        clear_words(&mut self.words, frame);
        self.roles[frame as usize] = Role::Directory;
    }

    /// A new space without pages. None where no frame is free.
    pub fn create(&mut self) -> Option<Space>
        ensures none { IsNone result → created (state self.old) ≡ None }
        ensures stays { IsNone result → self.new ≡ self.old }
        ensures some { IfSome result (λ space. created (state self.old) ≡ Some (space.directory.0, state self.new)) }
        ensures was { IfSome result (λ space. (state self.old).uses space.directory.0 ≡ free) }
        ensures made { IfSome result (λ space. (state self.new).uses space.directory.0 ≡ directory) }
        ensures kept { KeepsDirectories (state self.old) (state self.new) }
        ensures directories { IfSome result (λ space. directories (state self.new) ≡ upd (directories (state self.old)) space.directory.0 true) }
        ensures apart { IfSome result (λ space. directories (state self.old) space.directory.0 ≡ false) }
        ensures records { records self.new ≡ records self.old }
    {
        match self.take() {
            None => None,
            Some(frame) => {
                self.set_directory(frame);
                Some(Space {
                    directory: Frame(frame),
                })
            }
        }
    }
}
