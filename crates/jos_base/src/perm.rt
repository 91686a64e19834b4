//! What the entry of a page allows and tells.

ghost use Rattle.std.specs.Prelude.{⊤, [], ◌∷◌, codes};
ghost use Rattle.jos_base.specs.declared.numbers.TheConstants.{PTE_P, PTE_W, PTE_U, PTE_A, PTE_D, PTE_AVAIL};

use crate::numbers::{PTE_A, PTE_AVAIL, PTE_D, PTE_P, PTE_U, PTE_W};
use bitflags::{Flag, Flags, bitflag_items};

/// The twelve low bits of an entry. (MIT 6.828, inc/mmu.h; Intel 80386 Programmer's Reference Manual, 1986, section 5.2.4)
#[derive(Clone, Copy, Debug, PartialEq, Eq)]
pub struct Perm(pub u32);

bitflag_items! {
    impl Perm: u32 {
        /// The entry is there.
        const PTE_P = PTE_P;
        /// The page may be written.
        const PTE_W = PTE_W;
        /// A user may reach the page.
        const PTE_U = PTE_U;
        /// The page was reached.
        const PTE_A = PTE_A;
        /// The page was written.
        const PTE_D = PTE_D;
        /// The bits that are left to software.
        const PTE_AVAIL = PTE_AVAIL;
    }
}

impl Flags for Perm {
    type Bits = u32;

    ghost exact = { ⊤ };

    ghost table = { (codes "PTE_P", PTE_P) ∷ (codes "PTE_W", PTE_W) ∷ (codes "PTE_U", PTE_U) ∷ (codes "PTE_A", PTE_A) ∷ (codes "PTE_D", PTE_D) ∷ (codes "PTE_AVAIL", PTE_AVAIL) ∷ [] };

    ghost set_of = { λ perm. perm.0 };

    fn flags<'a>() -> &'a [Flag<Perm>] {
        Perm::FLAGS
    }

    fn bits(&self) -> u32 {
        self.0
    }

    fn from_bits_retain(bits: u32) -> Perm {
        Perm(bits)
    }
}
