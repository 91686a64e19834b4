//! How the file server serves a request, without kernel and cache.
//!
//! The server is a machine without effects: `ask_at` tells what it asks where it stands, and `next_at` where it goes by the reply, step by step
//! from a request that comes to the reply that goes. The acts on files are jobs of their own (`fs_jobs`), which it begins. Where it stands is kept in
//! words and registers beside those of the job and of the cache (`ServerWords.antt`).
#![tactic(auto)]

mod plan;
mod state;

pub use plan::{ServerAsk, ServerCall, ServerNext, ask_at, next_at};
pub use state::{ServerState, ServerStep, find_server, with_server};
