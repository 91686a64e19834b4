//! The free list of a table that was never used.

ghost use Rattle.std.specs.Prelude.{◌≡◌, ◌<◌, ◌-◌, ℕ, IfOk, length, get_or};
ghost use Rattle.jos_base.specs.declared.numbers.TheConstants.{NENV};

use jos_base::NENV;
use std::alloc::{AllocError, Global};

/// Slots are given in rising order.
pub(crate) fn first_order(alloc: Global) -> Result<Vec<usize>, AllocError>
    ensures len { IfOk result (λ order. length order.items ≡ NENV) }
    ensures each { IfOk result (λ order. (p : ℕ) → p < NENV → get_or order.items p 0 ≡ NENV - 1 - p) }
{
    let mut order = Vec::new(alloc);
    for p in 0..NENV as usize {
        order.push(NENV as usize - 1 - p)?;
    }
    Ok(order)
}
