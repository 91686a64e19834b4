//! An environment's memory: as its user reaches it, and as the kernel fills it.

ghost use Rattle.std.specs.Prelude.{◌≡◌, ℕ, ◌+◌, ◌/◌, ◌%◌, ◌<◌, ◌≤◌, ◌&&◌, nat_le, bit_and, List, true, false, length};
ghost use Rattle.std.specs.Prelude.{slice_index, Some, None, IfSome, IsNone, IfErr, is_ok, is_some, option_map};
ghost use Rattle.jos_base.specs.declared.memory.Access.TheVariants.{Read, Write};
ghost use Rattle.jos_base.specs.declared.numbers.TheConstants.{PGSIZE, PTE_P, PTE_U, PTE_SYSCALL, UTOP};
ghost use Rattle.jos_base.specs.SpacesState.{allocated, overlaid, page, with_page_bytes, zero_page};
ghost use Rattle.jos_base.specs.KernelState.{with_spaces};
ghost use Rattle.jos_base.specs.UserMemory.{is_allowed, fault_at, touched, byte_at, stored_byte};
ghost use Rattle.jos_space.specs.AtHand.{bits_at_hand, frame_with, bytes_at_hand, IsPageAtHand, IsStill, stored_word};
ghost use Rattle.jos_space.specs.Calls.{has_bytes};
ghost use Rattle.jos_space.specs.Frames.{records};
ghost use Rattle.jos_sys.specs.System.{state_of, spaces_of, environments_of, in_use, Keeps, is_live_in};

use crate::system::System;
use jos_base::{Access, Frame, PageFault, Perm};
use jos_space::{PageAtHand, Space};

impl System {
    /// Reaches for a byte as a user does, and sets the bits of what it reaches.
    pub fn reach(&mut self, space: Space, va: u32, access: Access) -> Result<(), PageFault>
        requires { in_use self.old space.directory.0 ≡ true }
        ensures allowed { is_ok result ≡ is_allowed (spaces_of self.old) space.directory.0 va access }
        ensures fault { IfErr result (λ fault. fault ≡ fault_at (spaces_of self.old) space.directory.0 va access) }
        ensures state { (input : List ℕ) → state_of self.new input ≡ with_spaces (state_of self.old input) (touched (spaces_of self.old) space.directory.0 va access) }
        ensures in_use { in_use self.new ≡ in_use self.old }
        ensures spaces { Keeps self.old → Keeps self.new }
    {
        match self.spaces.access(space, va, access) {
            Ok(_) => Ok(()),
            Err(fault) => Err(fault),
        }
    }

    /// The byte that a user reads at an address, and 0 where none may be read. It sets no bit.
    pub fn byte_at(&self, space: Space, va: u32) -> u8
        requires { in_use self.now space.directory.0 ≡ true }
        ensures { result ≡ byte_at (records self.now.spaces) (spaces_of self.now) space.directory.0 va }
    {
        self.spaces.byte_at(space, va)
    }

    /// The bits of the entry of a page, below UTOP. None where there is no page.
    pub fn page_perm(&self, space: Space, va: u32) -> Option<Perm>
        requires { in_use self.now space.directory.0 ≡ true }
        ensures { option_map (λ perm. perm.0) result ≡ option_map (λ entry. entry.perm) ((spaces_of self.now).entries space.directory.0 (va / PGSIZE)) }
    {
        match self.spaces.look(space, va) {
            Some((_, perm)) => Some(perm),
            None => None,
        }
    }

    /// Writes a byte at an address where a user may write. It sets no bit.
    pub fn store_byte(&mut self, space: Space, va: u32, byte: u8)
        requires space { in_use self.old space.directory.0 ≡ true }
        requires allowed { is_allowed (spaces_of self.old) space.directory.0 va Write ≡ true }
        ensures state { (input : List ℕ) → state_of self.new input ≡ with_spaces (state_of self.old input) (stored_byte (spaces_of self.old) space.directory.0 va byte) }
        ensures put { byte_at (records self.new.spaces) (spaces_of self.new) space.directory.0 va ≡ byte }
        ensures in_use { in_use self.new ≡ in_use self.old }
        ensures spaces { Keeps self.old → Keeps self.new }
    {
        self.spaces.store_byte(space, va, byte);
    }

    /// The bytes from an address on to the end of its page, where a user may read them and reading them sets no bit.
    /// Else none.
    #[inline(always)]
    pub fn user_bytes(&self, space: Space, va: u32) -> &[u8]
        requires { in_use self.now space.directory.0 ≡ true }
        ensures bytes { result.now ≡ bytes_at_hand (spaces_of self.now) space.directory.0 va }
        ensures within { va % PGSIZE + length result.now ≤ PGSIZE }
        ensures still { (i : ℕ) → i < length result.now → IsStill (spaces_of self.now) space.directory.0 (va + i) Read }
        ensures byte { (i : ℕ) → i < length result.now → byte_at (records self.now.spaces) (spaces_of self.now) space.directory.0 (va + i) ≡ slice_index result.now i }
    {
        self.spaces.user_bytes(space, va)
    }

    /// The page of an address, where a user may read it and reading it sets no bit. Else none.
    #[inline(always)]
    pub fn page_at_hand(&self, space: Space, va: u32) -> Option<PageAtHand>
        requires { in_use self.now space.directory.0 ≡ true }
        ensures space { IfSome result (λ page. page.space ≡ space) }
        ensures number { IfSome result (λ page. page.number ≡ va / PGSIZE) }
        ensures frame { option_map (λ page. page.frame.0) result ≡ frame_with (spaces_of self.now) space.directory.0 (va / PGSIZE) (bits_at_hand Read) }
        ensures at_hand { IfSome result (IsPageAtHand (spaces_of self.now)) }
    {
        self.spaces.page_at_hand(space, va)
    }

    /// What `user_bytes` gives, with no walk where the address lies in this page.
    #[inline(always)]
    pub fn bytes_by(&self, page: PageAtHand, va: u32) -> &[u8]
        requires space { in_use self.now page.space.directory.0 ≡ true }
        requires page { IsPageAtHand (spaces_of self.now) page }
        ensures bytes { result.now ≡ bytes_at_hand (spaces_of self.now) page.space.directory.0 va }
        ensures within { va % PGSIZE + length result.now ≤ PGSIZE }
        ensures still { (i : ℕ) → i < length result.now → IsStill (spaces_of self.now) page.space.directory.0 (va + i) Read }
        ensures byte { (i : ℕ) → i < length result.now → byte_at (records self.now.spaces) (spaces_of self.now) page.space.directory.0 (va + i) ≡ slice_index result.now i }
    {
        self.spaces.bytes_by(page, va)
    }

    /// Writes a byte where a user may write and the write sets no bit. Else nothing is changed, and the result is false.
    #[inline(always)]
    pub fn put_byte(&mut self, space: Space, va: u32, byte: u8) -> bool
        requires { in_use self.old space.directory.0 ≡ true }
        ensures exact { result ≡ is_some (frame_with (spaces_of self.old) space.directory.0 (va / PGSIZE) (bits_at_hand Write)) }
        ensures still { result ≡ true → IsStill (spaces_of self.old) space.directory.0 va Write }
        ensures put { result ≡ true → (input : List ℕ) → state_of self.new input ≡ with_spaces (state_of self.old input) (stored_byte (spaces_of self.old) space.directory.0 va byte) }
        ensures left { result ≡ false → self.new ≡ self.old }
        ensures in_use { in_use self.new ≡ in_use self.old }
        ensures spaces { Keeps self.old → Keeps self.new }
    {
        self.spaces.put_byte(space, va, byte)
    }

    /// Writes a word, its lowest byte first, where it lies in one page, a user may write it and the write sets no bit.
    /// Else nothing is changed, and the result is false.
    #[inline(always)]
    pub fn put_word(&mut self, space: Space, va: u32, word: u32) -> bool
        requires { in_use self.old space.directory.0 ≡ true }
        ensures exact { result ≡ (nat_le (va % PGSIZE + 4) PGSIZE && is_some (frame_with (spaces_of self.old) space.directory.0 (va / PGSIZE) (bits_at_hand Write))) }
        ensures still { result ≡ true → (i : ℕ) → i < 4 → IsStill (spaces_of self.old) space.directory.0 (va + i) Write }
        ensures put { result ≡ true → (input : List ℕ) → state_of self.new input ≡ with_spaces (state_of self.old input) (stored_word (spaces_of self.old) space.directory.0 va word) }
        ensures left { result ≡ false → self.new ≡ self.old }
        ensures in_use { in_use self.new ≡ in_use self.old }
        ensures spaces { Keeps self.old → Keeps self.new }
    {
        self.spaces.put_word(space, va, word)
    }

    /// A new page of zeros in the space of an environment, at an address that is a multiple of `PGSIZE`, in the place of
    /// what stood there. None where no frame is free, for it or for its table.
    pub fn allocate(&mut self, slot: usize, va: u32, perm: Perm) -> Option<Frame>
        requires live { is_live_in self.old slot ≡ true }
        requires spaces { Keeps self.old }
        requires begin { va % PGSIZE ≡ 0 }
        requires below { va < UTOP }
        requires user { bit_and perm.0 (PTE_P + PTE_U) ≡ PTE_P + PTE_U }
        requires perm { bit_and perm.0 PTE_SYSCALL ≡ perm.0 }
        ensures some { IfSome result (λ frame. allocated (spaces_of self.old) ((environments_of self.old).slots slot).directory (va / PGSIZE) perm.0 ≡ Some (frame.0, spaces_of self.new)) }
        ensures none { IsNone result → allocated (spaces_of self.old) ((environments_of self.old).slots slot).directory (va / PGSIZE) perm.0 ≡ None }
        ensures stays { IsNone result → (input : List ℕ) → state_of self.new input ≡ state_of self.old input }
        ensures rest { (input : List ℕ) → state_of self.new input ≡ with_spaces (state_of self.old input) (spaces_of self.new) }
        ensures zero { IfSome result (λ frame. (spaces_of self.new).pages frame.0 ≡ zero_page) }
        ensures page { IfSome result (λ frame. (spaces_of self.new).uses frame.0 ≡ page) }
        ensures in_use { in_use self.new ≡ in_use self.old }
        ensures spaces { Keeps self.new }
    {
        let space = self.space(slot);
        self.spaces.allocate(space, va, perm)
    }

    /// Lays bytes into a page, from an offset on.
    pub fn fill(&mut self, frame: Frame, offset: u32, bytes: &[u8])
        requires frame { has_bytes ((spaces_of self.old).uses frame.0) ≡ true }
        requires room { offset + length bytes.now ≤ PGSIZE }
        ensures state { (input : List ℕ) → state_of self.new input ≡ with_spaces (state_of self.old input) (with_page_bytes (spaces_of self.old) frame.0 (overlaid ((spaces_of self.old).pages frame.0) offset bytes.now)) }
        ensures uses { (spaces_of self.new).uses ≡ (spaces_of self.old).uses }
        ensures in_use { in_use self.new ≡ in_use self.old }
        ensures spaces { Keeps self.old → Keeps self.new }
    {
        self.spaces.fill(frame, offset, bytes);
    }
}
