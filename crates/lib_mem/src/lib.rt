//! The library's services on the environment itself and its pages: cputs, getid, yield, page_new and page_drop, and the
//! answer to a number that names no service.
//!
//! Each is one step of the abstract system behind INT 0x40 (`MemoryServices.antt` in `lib_os`), and one call of the kernel, whose
//! answer is the service's (`MemoryPlans.antt`). A refusal that rests on the registers alone asks for the environment's id, since
//! each step makes one call.
#![tactic(auto)]

mod services;

pub use services::MemoryService;
