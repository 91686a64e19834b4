//! What an environment waits for, and what came to it: a word and, with it, perhaps a page.
//!
//! The definitions are those of `Messages` in `jos_base`. `specs/Messages.antt` says which of its rendezvous a value here
//! is, and each call is one of those definitions. Pages are no part of this: `destination` and `perm` are kept as they are
//! given. Nothing here takes memory.
#![tactic(auto)]

mod rendezvous;

pub use rendezvous::{Offer, Rendezvous};
