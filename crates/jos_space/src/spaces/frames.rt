//! Frames: handed out, given back and counted, and their bytes.

ghost use Rattle.std.specs.Prelude.{◌≡◌, ◌≢◌, ◌≤◌, ◌<◌, ◌+◌, ℕ, Some, None, true, IfSome, IsNone, length, []};
ghost use Rattle.std.specs.Prelude.{slice_set, slice_index};
ghost use Rattle.jos_base.specs.Reach.{Entry};
ghost use Rattle.jos_base.specs.declared.numbers.TheConstants.{PGSIZE};
ghost use Rattle.jos_base.specs.SpacesState.{fresh_of, freed, fresh, free, page, zero_page, with_page_bytes};
ghost use Rattle.jos_base.specs.SpacesState.{reference_count, released, overlaid, directories};
ghost use Rattle.jos_space.specs.Calls.{has_bytes, KeepsDirectories};
ghost use Rattle.jos_space.specs.Frames.{held_in, state, records, handed_out, IsIdle};

use crate::lists::{byte_in, clear_bytes, count_at, fill_at, place_at, role_at, set_byte_at};
use crate::role::{Role, own_count};
use crate::spaces::Spaces;
use jos_base::{Frame, Location};

impl Spaces {
    /// Hands out the head of the free list, with the bytes that it has.
    pub(super) fn take(&mut self) -> Option<u32>
        ensures none { IsNone result → (state self.old).free ≡ [] }
        ensures stays { IsNone result → self.new ≡ self.old }
        ensures some { IfSome result (λ h. handed_out (state self.old) (held_in self.old) h ≡ Some (state self.new)) }
        ensures fresh { IfSome result (λ h. (state self.new).uses h ≡ fresh) }
        ensures was { IfSome result (λ h. (state self.old).uses h ≡ free) }
        ensures keeps { IfSome result (λ h. (f : ℕ) → (state self.old).uses f ≢ free → (state self.new).uses f ≡ (state self.old).uses f) }
        ensures bytes { self.new.bytes ≡ self.old.bytes }
        ensures records { records self.new ≡ records self.old }
    {
        if self.free_len == 0 {
            return None;
        }
        let place = self.free_len - 1;
        let frame = place_at(&self.order, place);
        self.roles[frame as usize] = Role::Fresh;
        self.free_len = place;
        Some(frame)
    }

    /// Puts a frame at the head of the free list.
    pub(super) fn free(&mut self, frame: u32)
        requires { IsIdle (state self.old) frame }
        ensures after { state self.new ≡ freed (state self.old) frame }
        ensures bytes { self.new.bytes ≡ self.old.bytes }
        ensures records { records self.new ≡ records self.old }
    {
        self.roles[frame as usize] = Role::Free(self.free_len);
        self.order[self.free_len as usize] = frame;
        self.free_len += 1;
    }

    /// Frees a page that no entry names.
    pub(super) fn release(&mut self, frame: Option<u32>)
        requires { IfSome frame (λ g. (state self.old).uses g ≡ page) }
        ensures state { state self.new ≡ released (state self.old) frame }
        ensures kept { KeepsDirectories (state self.old) (state self.new) }
        ensures pages { (d p : ℕ) (entry : Entry) → (state self.old).entries d p ≡ Some entry → (state self.old).uses entry.frame ≡ page → (state self.new).uses entry.frame ≡ page }
        ensures bytes { self.new.bytes ≡ self.old.bytes }
        ensures records { records self.new ≡ records self.old }
    {
        if let Some(gone) = frame {
            if count_at(&self.counts, gone) == 0 {
                self.free(gone);
            }
        }
    }

    /// Puts zeros into a fresh frame.
    fn clear_page(&mut self, frame: u32)
        requires { has_bytes ((state self.old).uses frame) ≡ true }
        ensures state { state self.new ≡ with_page_bytes (state self.old) frame zero_page }
        ensures records { records self.new ≡ records self.old }
    {
        clear_bytes(&mut self.bytes, frame);
    }

    /// A fresh frame of zeros. None where no frame is free.
    pub fn fresh(&mut self) -> Option<Frame>
        ensures none { IsNone result → fresh_of (state self.old) ≡ None }
        ensures stays { IsNone result → self.new ≡ self.old }
        ensures some { IfSome result (λ frame. fresh_of (state self.old) ≡ Some (frame.0, state self.new)) }
        ensures was { IfSome result (λ frame. (state self.old).uses frame.0 ≡ free) }
        ensures fresh { IfSome result (λ frame. (state self.new).uses frame.0 ≡ fresh) }
        ensures kept { KeepsDirectories (state self.old) (state self.new) }
        ensures directories { directories (state self.new) ≡ directories (state self.old) }
        ensures zero { IfSome result (λ frame. (state self.new).pages frame.0 ≡ zero_page) }
        ensures records { records self.new ≡ records self.old }
    {
        match self.take() {
            None => None,
            Some(frame) => {
                self.clear_page(frame);
                Some(Frame(frame))
            }
        }
    }

    /// Puts a fresh frame at the head of the free list.
    pub fn give_back(&mut self, frame: Frame)
        requires { (state self.old).uses frame.0 ≡ fresh }
        ensures after { state self.new ≡ freed (state self.old) frame.0 }
        ensures kept { KeepsDirectories (state self.old) (state self.new) }
        ensures directories { directories (state self.new) ≡ directories (state self.old) }
        ensures records { records self.new ≡ records self.old }
    {
        self.free(frame.0);
    }

    /// A byte of a page or of a fresh frame.
    pub fn byte(&self, location: Location) -> u8
        requires frame { has_bytes ((state self.now).uses location.frame.0) ≡ true }
        requires offset { location.offset < PGSIZE }
        ensures { result ≡ slice_index ((state self.now).pages location.frame.0) location.offset }
    {
        byte_in(&self.bytes, location.frame.0, location.offset)
    }

    /// Sets a byte of a page or of a fresh frame.
    pub fn set_byte(&mut self, location: Location, byte: u8)
        requires frame { has_bytes ((state self.old).uses location.frame.0) ≡ true }
        requires offset { location.offset < PGSIZE }
        ensures after { state self.new ≡ with_page_bytes (state self.old) location.frame.0 (slice_set ((state self.old).pages location.frame.0) location.offset byte) }
        ensures kept { KeepsDirectories (state self.old) (state self.new) }
        ensures put { slice_index ((state self.new).pages location.frame.0) location.offset ≡ byte }
        ensures records { records self.new ≡ records self.old }
    {
        set_byte_at(&mut self.bytes, location.frame.0, location.offset, byte);
    }

    /// Lays bytes into a page or a fresh frame, from an offset on.
    pub fn fill(&mut self, frame: Frame, offset: u32, bytes: &[u8])
        requires frame { has_bytes ((state self.old).uses frame.0) ≡ true }
        requires room { offset + length bytes.now ≤ PGSIZE }
        ensures after { state self.new ≡ with_page_bytes (state self.old) frame.0 (overlaid ((state self.old).pages frame.0) offset bytes.now) }
        ensures kept { KeepsDirectories (state self.old) (state self.new) }
        ensures directories { directories (state self.new) ≡ directories (state self.old) }
        ensures records { records self.new ≡ records self.old }
    {
        fill_at(&mut self.bytes, frame.0, offset, bytes);
    }

    /// How often a frame is named by entries of pages, and once more where it is reserved, a directory or a table.
    pub fn count(&self, frame: Frame) -> u64
        ensures { result ≡ reference_count (state self.now) frame.0 }
    {
        if frame.0 as usize >= self.roles.len() {
            // reserved
            return 1;
        }
        count_at(&self.counts, frame.0) + own_count(role_at(&self.roles, frame.0))
    }
}
