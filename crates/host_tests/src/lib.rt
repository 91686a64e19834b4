//! What is tested of the hosts of `jos_host`: a host in memory whose calls fail where they are told to, a host over the
//! system's own files and streams, and a host over a system that fails, or moves few bytes at a time.
//!
//! There is nothing here but tests, so that `jos_host` itself has none and is proved once.
#![tactic(auto)]

#[cfg(test)]
mod fake;
#[cfg(test)]
mod memory;
#[cfg(test)]
mod same;
#[cfg(test)]
mod streams;
#[cfg(test)]
mod system;
