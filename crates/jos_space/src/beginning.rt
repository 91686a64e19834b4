//! The lists at the beginning, with one element for each frame.

ghost use Rattle.std.specs.Prelude.{◌≡◌, ◌≤◌, ◌<◌, ◌-◌, ℕ, IfOk, length, get_or, replicate, []};
ghost use Rattle.jos_base.specs.SpacesState.{reserved_frames};
ghost use Rattle.jos_base.specs.declared.numbers.TheConstants.{FRAMES_MAX, NENV};
ghost use Rattle.jos_space.specs.Frames.{first_role, zero_record};
ghost use Rattle.jos_space.specs.declared.role.Role.TheVariants.{Reserved};

use crate::lists::{BYTES, PageFrame, Record, TABLE_WORDS, TableFrame};
use crate::role::Role;
use jos_base::{ENV_WORDS, NENV};
use std::alloc::{AllocError, Global};

/// How many frames are reserved.
pub(crate) fn reserved(frames: u32) -> u32
    requires { frames ≤ FRAMES_MAX }
    ensures { result ≡ reserved_frames frames }
{
    (frames + 511) / 512 + 19
}

/// What each frame is used for.
pub(crate) fn first_roles(alloc: Global, frames: u32) -> Result<Vec<Role>, AllocError>
    requires { frames ≤ FRAMES_MAX }
    ensures len { IfOk result (λ roles. length roles.items ≡ frames) }
    ensures each { IfOk result (λ roles. (f : ℕ) → f < frames → get_or roles.items f Reserved ≡ first_role frames f) }
{
    let reserved = reserved(frames);
    let mut roles = Vec::new(alloc);
    for f in 0..frames {
        let role = if f < reserved {
            Role::Reserved
        } else {
            Role::Free(frames - 1 - f)
        };
        roles.push(role)?;
    }
    Ok(roles)
}

/// The free list, from its end; places behind it hold frames too, which are never looked at.
pub(crate) fn first_order(alloc: Global, frames: u32) -> Result<Vec<u32>, AllocError>
    requires { frames ≤ FRAMES_MAX }
    ensures len { IfOk result (λ order. length order.items ≡ frames) }
    ensures each { IfOk result (λ order. (k : ℕ) → k < frames → get_or order.items k 0 ≡ frames - 1 - k) }
{
    let mut order = Vec::new(alloc);
    for k in 0..frames {
        order.push(frames - 1 - k)?;
    }
    Ok(order)
}

/// Words of zero.
pub(crate) fn word_lists(alloc: Global, frames: u32) -> Result<Vec<TableFrame>, AllocError>
    ensures { IfOk result (λ words. length words.items ≡ frames) }
{
    vec![in alloc; [0; TABLE_WORDS]; frames as usize]
}

/// Bytes of zero.
pub(crate) fn byte_lists(alloc: Global, frames: u32) -> Result<Vec<PageFrame>, AllocError>
    ensures { IfOk result (λ bytes. length bytes.items ≡ frames) }
{
    vec![in alloc; [0; BYTES]; frames as usize]
}

/// Counts of 0.
pub(crate) fn zero_counts(alloc: Global, frames: u32) -> Result<Vec<u64>, AllocError>
    ensures { IfOk result (λ counts. counts.items ≡ replicate frames 0) }
{
    vec![in alloc; 0; frames as usize]
}

/// Records of zero, one for each slot of the table of environments.
#[tactic(auto, unfolding(crate::specs::Frames::zero_record))]
pub(crate) fn zero_records(alloc: Global) -> Result<Vec<Record>, AllocError>
    ensures len { IfOk result (λ records. length records.items ≡ NENV) }
    ensures each { IfOk result (λ records. (n : ℕ) → n < NENV → get_or records.items n [] ≡ zero_record) }
{
    let mut records = Vec::new(alloc);
    for _slot in 0..NENV {
        records.push([0; ENV_WORDS])?;
    }
    Ok(records)
}
