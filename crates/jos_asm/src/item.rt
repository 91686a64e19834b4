//! What a program is made of.

ghost use Rattle.std.specs.Prelude.{◌≡◌};
ghost use Rattle.jos_asm.specs.Items.{is_byte_jump, relative};

use crate::name::Name;
use jos_isa::{Insn, Operand, Repeat, Row};
use std::marker::Model;

/// Bytes as they are.
#[derive(Debug, Drop)]
pub(crate) struct ByteRun(Vec<u8>);

impl Model for ByteRun {
    ghost use Rattle.std.specs.Prelude.{ℕ, List};

    ghost Value = { List ℕ };

    ghost view = { λ r. r.0.items };
}

impl ByteRun {
    pub(crate) fn new(bytes: Vec<u8>) -> ByteRun
        ensures { result ≡ bytes.items }
    {
        ByteRun(bytes)
    }

    pub(crate) fn as_slice(&self) -> &[u8]
        ensures { result.now ≡ self.now }
    {
        self.0.as_slice()
    }
}

/// What a program is made of.
#[derive(Debug, Drop)]
pub(crate) enum Item {
    /// The name of this place.
    Label(Name),
    Insn(Insn),
    /// A relative jump or call to a label.
    Jump(Row, Name),
    /// A move of a label's address into this register.
    Address(u8, Name),
    Bytes(ByteRun),
}

/// A relative jump or call over this distance.
pub(crate) fn relative(row: Row, distance: u32) -> Insn
    ensures { result ≡ relative row distance }
{
    Insn {
        row,
        repeat: Repeat::Once,
        operand: Operand::Absent,
        reg: 0,
        imm: distance,
    }
}

/// Whether a jump has a distance of one byte.
pub(crate) fn is_byte_jump(row: Row) -> bool
    ensures { result ≡ is_byte_jump row }
{
    matches!(row, Row::JccRel8(_) | Row::JmpRel8)
}
