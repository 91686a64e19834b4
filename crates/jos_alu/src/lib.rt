//! The processor's arithmetic: registers, sums and logic with the flags that they set, shifts, products and quotients.
//!
//! Each function is exactly its definition in `specs/`: `Registers.antt` names the registers, `Flags.antt` says
//! what ADD to CMP make of two numbers and of EFLAGS and when a condition holds, `Shifts.antt` what a shift by a
//! count is, `Products.antt` what MUL to IDIV give. What these definitions mean in numbers is said by the functions
//! of `laws`, whose clauses are theorems. Which instruction computes what, and all that reaches memory, is left to
//! jos_cpu. Nothing here fails or takes memory.
#![tactic(auto)]

mod condition;
mod flags;
mod laws;
mod operation;
mod products;
mod registers;
mod shifts;
mod width;

pub use condition::Condition;
pub use flags::{
    Computed, bit_of, combine, condition_holds, decrease, increase, is_negative, is_set, lowest,
    operate, subtract,
};
pub use laws::{
    conditions_compare, overflow_is_signed, quotients_give_back_the_dividend, rotations_go_back,
    shifts_are_products,
};
pub use operation::Operation;
pub use products::{
    Halves, Sign, double_register, extend, halves_of, is_too_long, multiply, product_flags,
    product_of, quotient_of, set_halves, sign_extend,
};
pub use registers::{advance, register, register_at, set_register, set_register_at};
pub use shifts::{Shift, shift_by};
pub use width::Width;
