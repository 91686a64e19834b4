//! The library's fence.

use jos_kernel::Fence;
use lib_os::{in_fence, is_resident};

/// The library's fence: a program may touch what `in_fence` says, and its stack pointer may not point among the library's
/// stacks.
pub struct LibraryFence;

impl Fence for LibraryFence {
    ghost use Rattle.lib_os.specs.Fence.{is_inside};
    ghost use Rattle.jos_run.specs.FencedMemory.{may_stand};
    ghost use Rattle.jos_run.specs.MemoryProofs.{fence_pages};

    ghost inside = { is_inside };

    ghost stands = { may_stand };

    #[inline(always)]
    fn is_inside(va: u32) -> bool {
        in_fence(va, 1)
    }

    #[inline(always)]
    fn may_stand(esp: u32) -> bool {
        !is_resident(esp)
    }

    ghost pages = { fence_pages };
}
