//! The reply of the file server, as its client reads it.

ghost use Rattle.std.specs.Prelude.{◌≡◌};
ghost use Rattle.lib_request.specs.Replies as replies;

use jos_base::{ENV_IPC_VALUE, ENV_SIZE, NENV, UENVS};

/// The address of the word that came, in the record of an environment's slot.
pub fn reply_place(id: u32) -> u32
    ensures { result ≡ replies.reply_place id }
{
    UENVS + ENV_SIZE * (id % NENV) + 4 * ENV_IPC_VALUE
}
