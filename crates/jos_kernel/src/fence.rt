//! What a program may touch of its memory.

ghost use Rattle.std.specs.Prelude.{◌≡◌, ℕ, ◌/◌, ◌*◌, Bool};
ghost use Rattle.jos_base.specs.declared.numbers.TheConstants.{PGSIZE};

/// What a program may touch of its memory, and where its stack pointer lets it go on.
pub trait Fence {
    /// The addresses that the program may touch at all.
    ghost inside: { ℕ → Bool };
    /// Where its stack pointer lets it go on.
    ghost stands: { ℕ → Bool };

    /// Whether the program may touch an address.
    fn is_inside(va: u32) -> bool
        ensures { result ≡ inside va };

    /// Whether a stack pointer lets the program go on.
    fn may_stand(esp: u32) -> bool
        ensures { result ≡ stands esp };

    // A page lies inside whole or not at all.
    ghost pages: { (va : ℕ) → inside va ≡ inside (va / PGSIZE * PGSIZE) };
}

/// No fence: a program may touch every address, and goes on wherever its stack pointer points.
pub struct Open;

impl Fence for Open {
    ghost use Rattle.jos_cpu.specs.Memory.{anywhere};

    ghost inside = { anywhere };

    ghost stands = { anywhere };

    #[inline(always)]
    fn is_inside(_va: u32) -> bool {
        true
    }

    #[inline(always)]
    fn may_stand(_esp: u32) -> bool {
        true
    }

    ghost use Rattle.std.specs.Prelude.{refl};

    ghost pages = { λ va. refl };
}
