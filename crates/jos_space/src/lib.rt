//! Frames of memory, and address spaces: pages that two levels of tables lead to, counted, handed out and freed.
//!
//! `Spaces` holds all frames of a machine. What it is in the kernel's state says `state` (`specs/Frames.antt`), and each
//! call's clauses say, by the words of `jos_base`, which state it leaves: `SpacesState` for frames, pages and spaces,
//! `UserMemory` for what a user reaches, and `Windows` for what it reads at UTOP and above, which is computed when it is
//! read. Of the records of environments, which a user reads there, the words stand here (`records`). Memory is taken at the
//! beginning alone.
//!
//! What a program's every access needs is one walk that changes nothing (`user_bytes`, `put_byte`, `put_word`): it answers
//! where all bits that the access would set are set, and else leaves the access to `access`. What it found of a page can be
//! kept (`page_at_hand`) as long as no call changes the tables, and read by (`bytes_by`).
#![tactic(auto)]

mod beginning;
mod entry;
mod lists;
mod role;
mod spaces;

pub use spaces::{Empty, PageAtHand, Space, Spaces};
