//! What a user reaches, reads and writes.

ghost use Rattle.std.specs.Prelude.{◌≡◌, ◌≤◌, ◌<◌, IfOk, IfSome, ◌/◌, ◌%◌, ◌+◌, ℕ, Some, true, is_some, length, []};
ghost use Rattle.std.specs.Prelude.{slice_index, false, nat_le, ◌&&◌};
ghost use Rattle.std.specs.Option.{option_map};
ghost use Rattle.jos_base.specs.declared.numbers.TheConstants.{NPTENTRIES, PGSIZE, UTOP};
ghost use Rattle.jos_base.specs.SpacesState.{page, directory, directories};
ghost use Rattle.jos_base.specs.declared.memory.Access.TheVariants.{Read, Write};
ghost use Rattle.jos_base.specs.UserMemory.{with_region_bit, with_entry_bits, with_window_bits, with_page_bits, with_bits, reach_in, is_allowed};
ghost use Rattle.jos_base.specs.UserMemory.{touched, byte_at, byte_of, read_byte, stored_byte};
ghost use Rattle.jos_base.specs.Windows.{walked};
ghost use Rattle.jos_space.specs.AtHand.{bits_at_hand, frame_with, bytes_at_hand, IsPageAtHand, IsStill, stored_word};
ghost use Rattle.jos_space.specs.Calls.{located, entry_looked, KeepsDirectories};
ghost use Rattle.jos_space.specs.Frames.{state, records};

use crate::entry::{absent_page, access_bits, reach_page};
use crate::lists::{bytes_from, set_byte_at, set_word, set_word_at, word_at};
use crate::spaces::destroying::REGION_LIMIT;
use crate::spaces::windows::TABLE_INDEX;
use crate::spaces::{PageAtHand, Space, Spaces};
use jos_base::{
    Access, Frame, Location, NPTENTRIES, PGSIZE, PTE_A, PTE_D, PTE_P, PTE_U, PTE_W, PageFault,
    Perm, UTOP,
};

/// The bits of a region that is there and was reached.
const REGION_AT_HAND: u32 = PTE_P + PTE_A;

/// The bits of a page that a user may read with no bit left to set.
const READ_AT_HAND: u32 = PTE_P + PTE_U + PTE_A;

/// The bits of a page that a user may write with no bit left to set.
const WRITE_AT_HAND: u32 = PTE_P + PTE_W + PTE_U + PTE_A + PTE_D;

/// Where the last word of a page begins.
const LAST_WORD: u32 = PGSIZE - 4;

impl Spaces {
    /// Sets the A bit of a region.
    fn mark_region(&mut self, space: u32, index: u32)
        requires { is_some ((state self.old).regions space index) ≡ true }
        ensures state { state self.new ≡ with_region_bit (state self.old) space index }
        ensures records { records self.new ≡ records self.old }
    {
        let word = word_at(&self.words, space, index);
        set_word(&mut self.words, space, index, word | PTE_A);
    }

    /// Sets bits of a page's entry.
    fn mark_entry(&mut self, space: u32, table: u32, number: u32, bits: u32)
        requires region { option_map (λ r. r.table) ((state self.old).regions space (number / NPTENTRIES)) ≡ Some table }
        requires entry { is_some ((state self.old).entries space number) ≡ true }
        requires even { bits % 2 ≡ 0 }
        requires small { bits < PGSIZE }
        ensures state { state self.new ≡ with_entry_bits (state self.old) space number bits }
        ensures records { records self.new ≡ records self.old }
    {
        let word = word_at(&self.words, table, number % NPTENTRIES);
        set_word(&mut self.words, table, number % NPTENTRIES, word | bits);
    }

    /// Sets the A bit of a page's region and the bits of an access in the page's entry.
    fn mark_page(&mut self, space: u32, number: u32, access: Access)
        requires space { (state self.old).uses space ≡ directory }
        requires entry { is_some ((state self.old).entries space number) ≡ true }
        ensures state { state self.new ≡ with_page_bits (state self.old) space number access }
        ensures records { records self.new ≡ records self.old }
    {
        if let Some(table) = self.table(space, number / NPTENTRIES) {
            self.mark_region(space, number / NPTENTRIES);
            self.mark_entry(space, table, number, access_bits(access));
        }
    }

    /// In the region of UVPT, where the directory is the table, sets the A bit of the region whose table was read.
    fn mark_window(&mut self, space: u32, number: u32)
        requires { (state self.old).uses space ≡ directory }
        ensures state { state self.new ≡ with_window_bits (state self.old) space number }
        ensures records { records self.new ≡ records self.old }
    {
        let index = number % NPTENTRIES;
        if number / NPTENTRIES != TABLE_INDEX {
            return;
        }
        if index >= REGION_LIMIT {
            return;
        }
        if self.table(space, index).is_some() {
            self.mark_region(space, index);
        }
    }

    /// Sets the bits that an access sets, which was allowed.
    fn mark(&mut self, space: u32, va: u32, access: Access)
        requires space { (state self.old).uses space ≡ directory }
        requires entry { va < UTOP → is_some ((state self.old).entries space (va / PGSIZE)) ≡ true }
        ensures state { state self.new ≡ with_bits (state self.old) space (va / PGSIZE) access }
        ensures records { records self.new ≡ records self.old }
    {
        if va < UTOP {
            self.mark_page(space, va / PGSIZE, access);
        } else {
            self.mark_window(space, va / PGSIZE);
        }
    }

    /// What both levels of the tables say of the page of an address: its frame and its bits. None where there is no page.
    #[inline(always)]
    fn walk(&self, space: u32, va: u32) -> Option<(Frame, Perm)>
        requires { (state self.now).uses space ≡ directory }
        ensures entry { entry_looked result ≡ walked (state self.now) space (va / PGSIZE) }
        ensures page { IfSome result (λ found. va < UTOP → (state self.now).uses found.0.0 ≡ page) }
    {
        if va < UTOP {
            self.entry(space, va / PGSIZE)
        } else {
            self.window_entry(space, va / PGSIZE)
        }
    }

    /// Where an access leads, or its fault.
    fn reach(&self, space: Space, va: u32, access: Access) -> Result<Location, PageFault>
        requires { (state self.now).uses space.directory.0 ≡ directory }
        ensures result { located result ≡ reach_in (state self.now) space.directory.0 va access }
        ensures page { IfOk result (λ location. va < UTOP → (state self.now).uses location.frame.0 ≡ page) }
        ensures offset { IfOk result (λ location. location.offset < PGSIZE) }
    {
        match self.walk(space.directory.0, va) {
            None => Err(absent_page(va, access)),
            Some((frame, perm)) => reach_page(frame, perm, va, access),
        }
    }

    /// Where an access leads, or its fault. Sets the A bits of what it reaches, and D for a write.
    pub fn access(&mut self, space: Space, va: u32, access: Access) -> Result<Location, PageFault>
        requires { (state self.old).uses space.directory.0 ≡ directory }
        ensures result { located result ≡ reach_in (state self.old) space.directory.0 va access }
        ensures after { state self.new ≡ touched (state self.old) space.directory.0 va access }
        ensures page { IfOk result (λ location. va < UTOP → (state self.new).uses location.frame.0 ≡ page) }
        ensures offset { IfOk result (λ location. location.offset < PGSIZE) }
        ensures kept { KeepsDirectories (state self.old) (state self.new) }
        ensures directories { directories (state self.new) ≡ directories (state self.old) }
        ensures records { records self.new ≡ records self.old }
    {
        match self.reach(space, va, access) {
            Err(fault) => Err(fault),
            Ok(location) => {
                self.mark(space.directory.0, va, access);
                Ok(location)
            }
        }
    }

    /// The byte at an address that a user may read, which lies there.
    fn byte_of(&self, space: u32, va: u32, location: Location) -> u8
        requires space { (state self.now).uses space ≡ directory }
        requires page { va < UTOP → (state self.now).uses location.frame.0 ≡ page }
        requires offset { location.offset < PGSIZE }
        ensures { result ≡ byte_of (records self.now) (state self.now) space va (record { frame = location.frame.0; offset = location.offset }) }
    {
        if va < UTOP {
            self.byte(location)
        } else {
            self.window_byte(space, va)
        }
    }

    /// The byte that a user reads at an address, or the fault. It sets no bit.
    pub fn read(&self, space: Space, va: u32) -> Result<u8, PageFault>
        requires { (state self.now).uses space.directory.0 ≡ directory }
        ensures { result ≡ read_byte (records self.now) (state self.now) space.directory.0 va }
    {
        match self.reach(space, va, Access::Read) {
            Ok(location) => Ok(self.byte_of(space.directory.0, va, location)),
            Err(refusal) => Err(refusal),
        }
    }

    /// The byte that a user reads at an address, and 0 where none may be read. It sets no bit.
    pub fn byte_at(&self, space: Space, va: u32) -> u8
        requires { (state self.now).uses space.directory.0 ≡ directory }
        ensures { result ≡ byte_at (records self.now) (state self.now) space.directory.0 va }
    {
        match self.reach(space, va, Access::Read) {
            Err(_) => 0,
            Ok(location) => self.byte_of(space.directory.0, va, location),
        }
    }

    /// Writes a byte at an address where a user may write. It sets no bit.
    pub fn store_byte(&mut self, space: Space, va: u32, byte: u8)
        requires space { (state self.old).uses space.directory.0 ≡ directory }
        requires allowed { is_allowed (state self.old) space.directory.0 va Write ≡ true }
        ensures after { state self.new ≡ stored_byte (state self.old) space.directory.0 va byte }
        ensures kept { KeepsDirectories (state self.old) (state self.new) }
        ensures directories { directories (state self.new) ≡ directories (state self.old) }
        ensures put { byte_at (records self.new) (state self.new) space.directory.0 va ≡ byte }
        ensures records { records self.new ≡ records self.old }
    {
        if let Ok(location) = self.reach(space, va, Access::Write) {
            self.set_byte(location, byte);
        }
    }

    /// The frame of a page where all of these bits stand in its entry, and A in that of its region.
    #[inline(always)]
    fn frame_with(&self, space: u32, number: u32, bits: u32) -> Option<u32>
        requires space { (state self.now).uses space ≡ directory }
        requires present { bits % 2 ≡ 1 }
        requires small { bits < PGSIZE }
        ensures { result ≡ frame_with (state self.now) space number bits }
    {
        if number >= UTOP / PGSIZE {
            return None;
        }
        let region = word_at(&self.words, space, number / NPTENTRIES);
        if region & REGION_AT_HAND != REGION_AT_HAND {
            return None;
        }
        let word = word_at(&self.words, region / PGSIZE, number % NPTENTRIES);
        if word & bits != bits {
            return None;
        }
        Some(word / PGSIZE)
    }

    /// The page of an address, where a user may read it and reading it sets no bit. Else none.
    #[inline(always)]
    pub fn page_at_hand(&self, space: Space, va: u32) -> Option<PageAtHand>
        requires { (state self.now).uses space.directory.0 ≡ directory }
        ensures space { IfSome result (λ page. page.space ≡ space) }
        ensures number { IfSome result (λ page. page.number ≡ va / PGSIZE) }
        ensures frame { option_map (λ page. page.frame.0) result ≡ frame_with (state self.now) space.directory.0 (va / PGSIZE) (bits_at_hand Read) }
        ensures at_hand { IfSome result (IsPageAtHand (state self.now)) }
    {
        let number = va / PGSIZE;
        match self.frame_with(space.directory.0, number, READ_AT_HAND) {
            None => None,
            Some(frame) => Some(PageAtHand {
                space,
                number,
                frame: Frame(frame),
            }),
        }
    }

    /// The bytes from an address on to the end of its page, which is at hand.
    #[inline(always)]
    fn page_bytes(&self, page: PageAtHand, va: u32) -> &[u8]
        requires space { (state self.now).uses page.space.directory.0 ≡ directory }
        requires page { IsPageAtHand (state self.now) page }
        requires number { page.number ≡ va / PGSIZE }
        ensures bytes { result.now ≡ bytes_at_hand (state self.now) page.space.directory.0 va }
        ensures within { va % PGSIZE + length result.now ≤ PGSIZE }
        ensures still { (i : ℕ) → i < length result.now → IsStill (state self.now) page.space.directory.0 (va + i) Read }
        ensures byte { (i : ℕ) → i < length result.now → byte_at (records self.now) (state self.now) page.space.directory.0 (va + i) ≡ slice_index result.now i }
    {
        bytes_from(&self.bytes, page.frame.0, va % PGSIZE)
    }

    /// The bytes from an address on to the end of its page, where a user may read them and reading them sets no bit.
    /// Else none.
    #[inline(always)]
    pub fn user_bytes(&self, space: Space, va: u32) -> &[u8]
        requires { (state self.now).uses space.directory.0 ≡ directory }
        ensures bytes { result.now ≡ bytes_at_hand (state self.now) space.directory.0 va }
        ensures within { va % PGSIZE + length result.now ≤ PGSIZE }
        ensures still { (i : ℕ) → i < length result.now → IsStill (state self.now) space.directory.0 (va + i) Read }
        ensures byte { (i : ℕ) → i < length result.now → byte_at (records self.now) (state self.now) space.directory.0 (va + i) ≡ slice_index result.now i }
    {
        match self.page_at_hand(space, va) {
            None => &[],
            Some(page) => self.page_bytes(page, va),
        }
    }

    /// What `user_bytes` gives, with no walk where the address lies in this page.
    #[inline(always)]
    pub fn bytes_by(&self, page: PageAtHand, va: u32) -> &[u8]
        requires space { (state self.now).uses page.space.directory.0 ≡ directory }
        requires page { IsPageAtHand (state self.now) page }
        ensures bytes { result.now ≡ bytes_at_hand (state self.now) page.space.directory.0 va }
        ensures within { va % PGSIZE + length result.now ≤ PGSIZE }
        ensures still { (i : ℕ) → i < length result.now → IsStill (state self.now) page.space.directory.0 (va + i) Read }
        ensures byte { (i : ℕ) → i < length result.now → byte_at (records self.now) (state self.now) page.space.directory.0 (va + i) ≡ slice_index result.now i }
    {
        if page.number == va / PGSIZE {
            self.page_bytes(page, va)
        } else {
            self.user_bytes(page.space, va)
        }
    }

    /// Writes a byte where a user may write and the write sets no bit. Else nothing is changed, and the result is false.
    #[inline(always)]
    pub fn put_byte(&mut self, space: Space, va: u32, byte: u8) -> bool
        requires { (state self.old).uses space.directory.0 ≡ directory }
        ensures exact { result ≡ is_some (frame_with (state self.old) space.directory.0 (va / PGSIZE) (bits_at_hand Write)) }
        ensures still { result ≡ true → IsStill (state self.old) space.directory.0 va Write }
        ensures put { result ≡ true → state self.new ≡ stored_byte (state self.old) space.directory.0 va byte }
        ensures left { result ≡ false → self.new ≡ self.old }
        ensures kept { KeepsDirectories (state self.old) (state self.new) }
        ensures directories { directories (state self.new) ≡ directories (state self.old) }
        ensures records { records self.new ≡ records self.old }
    {
        match self.frame_with(space.directory.0, va / PGSIZE, WRITE_AT_HAND) {
            None => false,
            Some(frame) => {
                set_byte_at(&mut self.bytes, frame, va % PGSIZE, byte);
                true
            }
        }
    }

    /// Writes a word, its lowest byte first, where it lies in one page, a user may write it and the write sets no bit.
    /// Else nothing is changed, and the result is false.
    #[inline(always)]
    pub fn put_word(&mut self, space: Space, va: u32, word: u32) -> bool
        requires { (state self.old).uses space.directory.0 ≡ directory }
        ensures exact { result ≡ (nat_le (va % PGSIZE) LAST_WORD && is_some (frame_with (state self.old) space.directory.0 (va / PGSIZE) (bits_at_hand Write))) }
        ensures still { result ≡ true → (i : ℕ) → i < 4 → IsStill (state self.old) space.directory.0 (va + i) Write }
        ensures put { result ≡ true → state self.new ≡ stored_word (state self.old) space.directory.0 va word }
        ensures left { result ≡ false → self.new ≡ self.old }
        ensures kept { KeepsDirectories (state self.old) (state self.new) }
        ensures directories { directories (state self.new) ≡ directories (state self.old) }
        ensures records { records self.new ≡ records self.old }
    {
        let offset = va % PGSIZE;
        if offset > LAST_WORD {
            return false;
        }
        match self.frame_with(space.directory.0, va / PGSIZE, WRITE_AT_HAND) {
            None => false,
            Some(frame) => {
                set_word_at(&mut self.bytes, frame, offset, word);
                true
            }
        }
    }
}
