//! The library's services that ask the file server and nothing of a descriptor: sync, remove and open_file.
//!
//! Each is a few steps of the abstract system behind INT 0x40 (`FileServices.antt` in `lib_os`), and a plan of what it asks of the
//! kernel at each stage, and of what it does next by the reply (`SyncStages.antt`, `RemoveStages.antt`, `OpenStages.antt`). It sends the
//! server the word of its request; as long as the server does not wait for one, it gives up its turn and tries again. Then it waits for the
//! server alone, and answers by the word that the server has replied, which it reads in the record of its own slot. remove and open_file
//! gather their paths before in a page of their own, as write does its bytes (`lib_file`), which goes with the request, and which they give
//! back when the reply has come; open_file waits at the page of its descriptor, where that of the file comes to stand. The services on what
//! a descriptor names ask in the same way (`PageRequests.antt`).
#![tactic(auto)]

mod open;
mod page;
mod path;
mod remove;
mod reply;
mod sync;

pub use open::{Open, OpenStage};
pub use page::{ask_clearing, ask_reply, ask_with_page, next_of_asking};
pub use path::{ask_gathering, next_of_gathering, next_of_keeping};
pub use remove::{Remove, RemoveStage};
pub use reply::reply_place;
pub use sync::{Sync, SyncStage};
