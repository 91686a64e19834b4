//! What is kept to take back a slot.

use jos_base::EnvId;

/// A slot that was given, with the id that it had before.
#[derive(Clone, Copy)]
pub(crate) struct Recent {
    pub(crate) slot: usize,
    pub(crate) id: EnvId,
}
