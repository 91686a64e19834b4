//! The frames of a machine, and the spaces that stand in them.

ghost use Rattle.std.specs.Prelude.{◌≡◌, ◌≤◌, IfOk};
ghost use Rattle.jos_base.specs.declared.numbers.TheConstants.{FRAMES_MIN, FRAMES_MAX};
ghost use Rattle.jos_base.specs.SpacesState.{first_spaces};
ghost use Rattle.jos_base.specs.Environments.{first_environments, records_of};
ghost use Rattle.jos_space.specs.Frames.{state, records, AreSound};

use crate::beginning::{
    byte_lists, first_order, first_roles, reserved, word_lists, zero_counts, zero_records,
};
use crate::lists::{PageFrame, Record, TableFrame};
use crate::role::Role;
use jos_base::{Frame, NoMemory};
use std::alloc::Global;
use std::marker::Model;

mod destroying;
mod frames;
mod pages;
mod records;
mod user;
mod windows;

/// An address space, named by the frame of its directory.
#[derive(Clone, Copy, Debug, PartialEq, Eq)]
pub struct Space {
    pub directory: Frame,
}

/// A page of a space that a user may read with no bit left to set, and the frame of it.
#[derive(Clone, Copy, Debug, PartialEq, Eq)]
pub struct PageAtHand {
    pub space: Space,
    /// The page's number: its addresses divided by `PGSIZE`.
    pub number: u32,
    pub frame: Frame,
}

/// No frame is free.
#[derive(Clone, Copy, Debug, PartialEq, Eq)]
pub struct Empty;

/// The frames of a machine, and the address spaces that stand in them, with what a user reads there of the environments.
#[derive(Drop)]
pub struct Spaces {
    /// The words of each frame that is a directory or a table.
    words: Vec<TableFrame>,
    /// The bytes of each frame that is a page or fresh.
    bytes: Vec<PageFrame>,
    /// What each frame is used for.
    roles: Vec<Role>,
    /// How many entries of pages name each frame.
    counts: Vec<u64>,
    /// The free frames, up to `free_len`, the last to be handed out first.
    order: Vec<u32>,
    free_len: u32,
    /// The words of each slot's record in the table of environments, which a user reads.
    records: Vec<Record>,
}

impl Model for Spaces {
    ghost use Rattle.jos_space.specs.Frames.{Lists, AreSound};

    ghost Value = { Lists };

    ghost view = { λ s. record { words = s.words.items; bytes = s.bytes.items; roles = s.roles.items; counts = s.counts.items; order = s.order.items; free_len = s.free_len; records = s.records.items } };

    ghost invariant = { λ s. AreSound (record { words = s.words.items; bytes = s.bytes.items; roles = s.roles.items; counts = s.counts.items; order = s.order.items; free_len = s.free_len; records = s.records.items }) };
}

impl Spaces {
    /// So many frames, with no space: the first are reserved, and the others free in rising order. Memory is taken here
    /// alone, some 8 KiB for each frame.
    pub fn new(alloc: Global, frames: u32) -> Result<Spaces, NoMemory>
        requires least { FRAMES_MIN ≤ frames }
        requires most { frames ≤ FRAMES_MAX }
        ensures state { IfOk result (λ spaces. state spaces ≡ first_spaces frames) }
        ensures records { IfOk result (λ spaces. records spaces ≡ records_of first_environments) }
    {
        let words = word_lists(alloc, frames)?;
        let bytes = byte_lists(alloc, frames)?;
        let roles = first_roles(alloc, frames)?;
        let counts = zero_counts(alloc, frames)?;
        let order = first_order(alloc, frames)?;
        let records = zero_records(alloc)?;
        Ok(Spaces {
            words,
            bytes,
            roles,
            counts,
            order,
            free_len: frames - reserved(frames),
            records,
        })
    }

    /// Tells what holds of the frames at every moment. Nothing is done.
    #[inline(always)]
    pub fn keep_sound(&self)
        ensures { AreSound self.now }
    {
        let _ = &self.words;
    }
}
