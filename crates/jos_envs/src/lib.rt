//! The table of environments: slots, their ids, who may name and change whom, and the free list.
//!
//! The definitions are those of `Environments` in `jos_base`. `specs/Table.antt` says which environments a table
//! holds, and each call is one of those definitions, or the change of one part of one slot. Memory is taken by
//! `Table::new` alone.
#![tactic(auto)]

mod beginning;
mod environment;
mod recent;
mod slot_set;
mod table;

pub use environment::Environment;
pub use table::Table;
