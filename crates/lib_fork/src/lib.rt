//! The library's service fork.
//!
//! It is two steps of the abstract system: one in which a slot is taken for the child, and one in which the child is born with
//! what its parent has then (`AbstractFork.antt` in `lib_os`). Between the two no page is copied. The child is given the pages
//! of its parent, each where it stands, and those that either may write are copied when they are first written: that is done by
//! the handler of page faults (`lib_fault`). Here is a plan of what fork asks of the kernel at each stage, and of what it does
//! next by the reply (`ForkStages.antt`): a walk over all pages of a program, from the greatest downwards, in which each step is
//! one call.
#![tactic(auto)]

mod fork;

pub use fork::{Fork, ForkStage, first_page, is_error, page_of, page_va, region_of};
