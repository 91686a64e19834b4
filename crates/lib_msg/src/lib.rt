//! The library's services on messages: send and receive.
//!
//! Each is one or two steps of the abstract system behind INT 0x40 (`AbstractMessages.antt` in `lib_os`), and a plan of what it
//! asks of the kernel at each stage, and of what it does next by the reply (`SendStages.antt`, `ReceiveStages.antt`). send looks
//! at the entry of its page, where there is one, in the windows, and then tries to send; as long as the other one does not wait
//! for it, it gives up its turn and tries again. receive waits, and then reads the message that has come in the record of its
//! own slot.
#![tactic(auto)]

mod receive;
mod send;

pub use receive::{Receive, ReceiveStage};
pub use send::{Send, SendStage};
