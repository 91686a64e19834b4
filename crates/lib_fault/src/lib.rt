//! The library's handler of page faults.
//!
//! A fork leaves the pages of a program to its child, and a page that either may write is copied when it is first written. So
//! a page fault is not the end of a program where its page waits to be copied: the handler makes a copy, maps it over the page
//! and takes the registers back from the frame of the fault, and the program makes its instruction again, or a service that
//! writes to the program's memory its access. Every other fault ends the environment: the handler sets that it has none any
//! more, and raises the fault again as at the instruction that raised it. Each step is one call of the kernel, and a plan of
//! what the handler asks and of what it does next by the reply (`HandlerStages.antt`); where it stands is told by registers,
//! since the frame keeps those of the program.
#![tactic(auto)]

mod handler;

pub use handler::PageFaultHandler;
