//! Tests of the command line that need more than its program run on files: hosts of which a chosen call fails, what only an
//! outcome tells, and what words are read as.
//!
//! The runs of the built program are in `examples/commands/table`.
#![tactic(auto)]

#[cfg(test)]
mod failing_hosts;
#[cfg(test)]
mod hosts;
#[cfg(test)]
mod images;
#[cfg(test)]
mod outcomes;
#[cfg(test)]
mod words_read;
