//! Products and quotients of the accumulator.

ghost use Rattle.std.specs.Prelude.{◌≡◌};
ghost use Rattle.jos_cpu.specs.declared.events.Event.TheVariants.{Next};
ghost use Rattle.jos_cpu.specs.Effects.{IfRaised, product_effect, with_quotient, quotient_effect};

use crate::events::Event;
use crate::forms::Site;
use crate::places::value_at;
use crate::transfers::Inputs;
use jos_alu::{
    Halves, Sign, Width, double_register, halves_of, is_too_long, product_flags, product_of,
    quotient_of, register_at, set_halves,
};
use jos_base::{Regs, T_DIVIDE};
use jos_isa::Insn;

/// MUL and IMUL of the accumulator by the r/m operand.
pub(crate) fn make_product(sign: Sign, width: Width, insn: &Insn, regs: &mut Regs, inputs: &Inputs)
    ensures { product_effect sign width insn.now regs.old inputs.now ≡ record { registers = regs.new; value = 0; event = Next } }
{
    let a = register_at(width, regs, 0);
    let b = value_at(Site::Operand, width, insn, regs, inputs);
    let n = product_of(sign, width, a, b);
    regs.eflags = product_flags(regs.eflags, is_too_long(sign, width, n));
    set_halves(width, regs, halves_of(width, n));
}

/// Puts quotient and remainder in the place of the dividend. Where there is none, that is a divide error.
fn set_quotient(halves: Option<Halves>, width: Width, old: &Regs, regs: &mut Regs) -> Event
    ensures done { with_quotient halves width old.now regs.old ≡ record { registers = regs.new; value = 0; event = result } }
    ensures kept { IfRaised result (regs.new ≡ old.now) }
{
    match halves {
        None => {
            *regs = *old;
            Event::Raised {
                trap: T_DIVIDE,
                error: 0,
                va: 0,
            }
        }
        Some(halves) => {
            set_halves(width, regs, halves);
            Event::Next
        }
    }
}

/// DIV and IDIV of the accumulator by the r/m operand.
pub(crate) fn make_quotient(
    sign: Sign,
    width: Width,
    insn: &Insn,
    old: &Regs,
    regs: &mut Regs,
    inputs: &Inputs,
) -> Event
    ensures done { quotient_effect sign width insn.now old.now regs.old inputs.now ≡ record { registers = regs.new; value = 0; event = result } }
    ensures kept { IfRaised result (regs.new ≡ old.now) }
{
    let divisor = value_at(Site::Operand, width, insn, regs, inputs);
    let halves = quotient_of(sign, width, double_register(width, regs), divisor);
    set_quotient(halves, width, old, regs)
}
