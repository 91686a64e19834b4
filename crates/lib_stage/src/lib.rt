//! A service of the library as two functions without effects: what it asks of the kernel at a stage, and what it does next by
//! the reply. The handler of page faults is one, too. Here stands what such asks and nexts are, as calls of the kernel and as
//! changes of its state, and the one driver that does them; a service itself knows neither the kernel nor the host.
#![tactic(auto)]

mod ask;
mod driving;
mod nowhere;
mod performing;
mod settling;

pub use ask::{Ask, Next};
pub use driving::{Planned, drive};
pub use nowhere::Nowhere;
