//! How spawn's child is born, and how spawn undoes what it has done where it is refused something.
//!
//! In the abstract system (`AbstractSpawn.antt` of `lib_os`) the child is born all at once, behind a step in which the descriptor of its file is dropped;
//! and one that is not to be born goes in a step of its own, before the descriptor, and that before the answer. Here is a plan of what spawn asks of the
//! kernel at each stage, and of what it does next by the reply: the rights of the child's pages, its stacks, its handler of page faults, and the shared
//! pages that are passed on to it (`FinishingStages.antt`), and how it is destroyed (`UndoingStages.antt`).
#![tactic(auto)]

mod finishing;
mod stage;
mod undoing;

pub use stage::BirthStage;
