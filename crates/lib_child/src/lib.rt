//! How spawn makes its child, of a file that is an image.
//!
//! In the abstract system (`AbstractSpawn.antt` of `lib_os`) a slot is taken for the child in one step, each piece of its segments is asked of the file
//! server in another, and the child has nothing of them before its birth. Here is a plan of what spawn asks of the kernel at each stage of that, and of
//! what it does next by the reply (`BearingStages.antt`): the child is given its registers, then all pages of its segments, and then the bytes of
//! each piece, as it comes (`lib_image` asks for it). What else the child is given, and how it is let run or destroyed, is told by `lib_birth`.
#![tactic(auto)]

mod bearing;
mod laws;
mod nexts;
mod registers;
mod segments;

pub use bearing::Bearing;
pub use laws::record_tells;
pub use nexts::unless_refused;
pub use segments::{Child, READABLE_PERM, WRITABLE_PERM, last_page, rights_from};
