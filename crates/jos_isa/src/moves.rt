//! An instruction that many programs are made of: the move of a number into a register.

ghost use Rattle.std.specs.Prelude.{◌≡◌, ◌<◌, IsTrue};
ghost use Rattle.jos_isa.specs.Lawful.{is_lawful};
ghost use Rattle.jos_isa.specs.Moves.{mov};

use crate::instruction::{Insn, Operand, Repeat, Row};

/// A move of a number into a register, 0 to 7.
pub fn mov(reg: u8, value: u32) -> Insn
    requires { reg < 8 }
    ensures value { result ≡ mov reg value }
    ensures lawful { IsTrue (is_lawful result) }
{
    Insn {
        row: Row::MovR32Imm32,
        repeat: Repeat::Once,
        operand: Operand::Absent,
        reg,
        imm: value,
    }
}
