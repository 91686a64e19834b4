//! Spaces: pages taken from them, and destroyed.

ghost use Rattle.std.specs.Prelude.{◌≡◌, ◌≢◌, ◌<◌, ◌/◌, ◌%◌, ◌+◌, ◌*◌, ℕ, Some, None, IfSome, false};
ghost use Rattle.std.specs.Option.{option_map};
ghost use Rattle.jos_base.specs.declared.numbers.TheConstants.{NPTENTRIES, PGSIZE, UTOP};
ghost use Rattle.jos_base.specs.Counting.{page_limit};
ghost use Rattle.jos_base.specs.SpacesState.{SpacesState, frame_of, page, table, directory, without_entry};
ghost use Rattle.jos_base.specs.SpacesState.{unmapped, pages_removed, without_region, tables_freed, destroyed, region_limit};
ghost use Rattle.jos_base.specs.Words.{upd};
ghost use Rattle.jos_base.specs.SpacesState.{put, directories};
ghost use Rattle.jos_space.specs.Calls.{KeepsDirectories};
ghost use Rattle.jos_space.specs.Frames.{state, records, IsIdle};

use crate::entry::is_present;
use crate::lists::{count_at, set_word, word_at};
use crate::spaces::{Space, Spaces};
use jos_base::{NPTENTRIES, PGSIZE, UTOP};

/// The regions below UTOP.
pub(super) const REGION_LIMIT: u32 = UTOP / PGSIZE / NPTENTRIES;

impl Spaces {
    /// Clears a page's entry. Answers the frame that stood there.
    fn clear_entry(&mut self, space: u32, table: u32, number: u32) -> Option<u32>
        requires { option_map (λ r. r.table) ((state self.old).regions space (number / NPTENTRIES)) ≡ Some table }
        ensures state { state self.new ≡ without_entry (state self.old) space number }
        ensures gone { result ≡ frame_of ((state self.old).entries space number) }
        ensures page { IfSome result (λ g. (state self.new).uses g ≡ page) }
        ensures records { records self.new ≡ records self.old }
    {
        let index = number % NPTENTRIES;
        let old = word_at(&self.words, table, index);
        set_word(&mut self.words, table, index, 0);
        if is_present(old) {
            let gone = old / PGSIZE;
            let named = count_at(&self.counts, gone);
            self.counts[gone as usize] = named - 1;
            Some(gone)
        } else {
            None
        }
    }

    /// Takes the page at an address from a space, if there is one. Its frame is freed if no other entry names it.
    pub fn remove(&mut self, space: Space, va: u32)
        requires space { (state self.old).uses space.directory.0 ≡ directory }
        requires begin { va % PGSIZE ≡ 0 }
        requires below { va < UTOP }
        ensures after { state self.new ≡ unmapped (state self.old) space.directory.0 (va / PGSIZE) }
        ensures kept { KeepsDirectories (state self.old) (state self.new) }
        ensures directories { directories (state self.new) ≡ directories (state self.old) }
        ensures records { records self.new ≡ records self.old }
    {
        let number = va / PGSIZE;
        if let Some(table) = self.table(space.directory.0, number / NPTENTRIES) {
            let frame = self.clear_entry(space.directory.0, table, number);
            self.release(frame);
        }
    }

    /// Removes the pages of a region.
    fn remove_region(&mut self, space: u32, table: u32, index: u32)
        requires space { (state self.old).uses space ≡ directory }
        requires index { index < region_limit }
        requires region { option_map (λ r. r.table) ((state self.old).regions space index) ≡ Some table }
        ensures pages { (s : SpacesState) → state self.old ≡ pages_removed s space (index * NPTENTRIES) → state self.new ≡ pages_removed s space ((index + 1) * NPTENTRIES) }
        ensures kept { KeepsDirectories (state self.old) (state self.new) }
        ensures records { records self.new ≡ records self.old }
    {
        for i in 0..NPTENTRIES {
            let gone = self.clear_entry(space, table, index * NPTENTRIES + i);
            self.release(gone);
        }
    }

    /// Removes all pages, in rising order.
    fn remove_pages(&mut self, space: u32)
        requires { (state self.old).uses space ≡ directory }
        ensures pages { state self.new ≡ pages_removed (state self.old) space page_limit }
        ensures kept { KeepsDirectories (state self.old) (state self.new) }
        ensures records { records self.new ≡ records self.old }
    {
        for index in 0..REGION_LIMIT {
            if let Some(table) = self.table(space, index) {
                self.remove_region(space, table, index);
            }
        }
    }

    /// Takes its table from a region that has no page.
    fn clear_region(&mut self, space: u32, index: u32)
        requires space { (state self.old).uses space ≡ directory }
        requires index { index < region_limit }
        requires empty { (number : ℕ) → (state self.old).entries space number ≡ None }
        ensures state { state self.new ≡ record (state self.old) { regions = put (state self.old).regions space index None } }
        ensures idle { (table : ℕ) → option_map (λ r. r.table) ((state self.old).regions space index) ≡ Some table → IsIdle (state self.new) table }
        ensures table { (t : ℕ) → option_map (λ r. r.table) ((state self.old).regions space index) ≡ Some t → (state self.new).uses t ≡ table }
        ensures records { records self.new ≡ records self.old }
    {
        set_word(&mut self.words, space, index, 0);
    }

    /// Frees the table of a region that has no page.
    fn free_table(&mut self, space: u32, index: u32)
        requires space { (state self.old).uses space ≡ directory }
        requires index { index < region_limit }
        requires empty { (number : ℕ) → (state self.old).entries space number ≡ None }
        ensures state { state self.new ≡ without_region (state self.old) space index ((state self.old).regions space index) }
        ensures kept { KeepsDirectories (state self.old) (state self.new) }
        ensures records { records self.new ≡ records self.old }
    {
        if let Some(table) = self.table(space, index) {
            self.clear_region(space, index);
            self.free(table);
        }
    }

    /// Frees all tables of a space that has no page, in rising order.
    fn free_tables(&mut self, space: u32)
        requires space { (state self.old).uses space ≡ directory }
        requires empty { (number : ℕ) → (state self.old).entries space number ≡ None }
        ensures tables { state self.new ≡ tables_freed (state self.old) space region_limit }
        ensures kept { KeepsDirectories (state self.old) (state self.new) }
        ensures records { records self.new ≡ records self.old }
    {
        for index in 0..REGION_LIMIT {
            self.free_table(space, index);
        }
    }

    /// Destroys a space: its pages are removed, then its tables are freed, and then its directory. Pages and tables go
    /// in rising order, and a page is freed if no other entry names it.
    pub fn destroy(&mut self, space: Space)
        requires { (state self.old).uses space.directory.0 ≡ directory }
        ensures after { state self.new ≡ destroyed (state self.old) space.directory.0 }
        ensures kept { (f : ℕ) → f ≢ space.directory.0 → (state self.old).uses f ≡ directory → (state self.new).uses f ≡ directory }
        ensures directories { directories (state self.new) ≡ upd (directories (state self.old)) space.directory.0 false }
        ensures records { records self.new ≡ records self.old }
    {
        self.remove_pages(space.directory.0);
        self.free_tables(space.directory.0);
        self.free(space.directory.0);
    }
}
