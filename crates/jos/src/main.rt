//! `jos`: MIT 6.828's teaching kernel JOS and the modelled 80386 that it runs on, as a program over files.
//!
//! `main` makes the host over the system's files and streams, and exits with what `answer_arguments` (`jos_cli`) gives
//! for the words that the system hands out.
#![tactic(auto)]

use jos_cli::answer_arguments;
use jos_host::OsHost;
use std::env;
use std::process::ExitCode;

fn main(rt: HostRuntime) -> ExitCode {
    let mut host = OsHost::new(&rt, rt.stderr());
    answer_arguments(rt.alloc(), env::args(&rt), &mut host)
}
