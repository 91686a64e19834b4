//! How many bytes items take.

ghost use Rattle.std.specs.Prelude.{◌≡◌, ◌<◌, ◌≤◌, ◌^◌, IsTrue, MatchResult, length, All};
ghost use Rattle.jos_isa.specs.Lawful.{is_lawful};
ghost use Rattle.jos_isa.specs.Encoding.{encoded};
ghost use Rattle.jos_asm.specs.Items.{is_item, relative_length, length_of};
ghost use Rattle.jos_asm.specs.Program.{length_of_all};

use crate::fault::AsmFault;
use crate::item::Item;
use crate::limits::CODE_MAX;
use jos_base::INSTRUCTION_MAX;
use jos_isa::{Insn, LONGEST, Row, encode};

/// How many bytes an instruction is written as.
fn encoded_length(insn: &Insn) -> usize
    requires { IsTrue (is_lawful insn.now) }
    ensures len { result ≡ length (encoded insn.now) }
    ensures within { result ≤ LONGEST }
{
    encode(insn, &mut [0; INSTRUCTION_MAX])
}

/// How many bytes a relative jump or call has.
pub(crate) fn relative_length(row: Row) -> usize
    ensures { result ≡ relative_length row }
{
    match row {
        Row::JccRel8(_) | Row::JmpRel8 => 2,
        Row::JccRel32(_) => 6,
        Row::JmpRel32 | Row::CallRel32 => 5,
        _ => 0,
    }
}

/// How many bytes an item takes.
pub(crate) fn length_of(item: &Item) -> usize
    requires { IsTrue (is_item item.now) }
    ensures len { result ≡ length_of item.now }
    ensures small { result < 2 ^ 63 }
{
    match item {
        Item::Label(_) => 0,
        Item::Insn(insn) => encoded_length(insn),
        Item::Jump(row, _) => relative_length(*row),
        Item::Address(_, _) => 5,
        Item::Bytes(bytes) => bytes.as_slice().len(),
    }
}

/// How many bytes the items take. Too many are refused.
pub(crate) fn length_of_all(items: &[Item]) -> Result<usize, AsmFault>
    requires { All (λ i. IsTrue (is_item i)) items.now }
    ensures { MatchResult result (λ len. (len ≡ length_of_all items.now) × (length_of_all items.now ≤ CODE_MAX))
        (λ fault. (fault ≡ AsmFault.TooLong) × (CODE_MAX < length_of_all items.now)) }
{
    let mut len = 0;
    for item in items {
        len += length_of(item);
        if len > CODE_MAX {
            return Err(AsmFault::TooLong);
        }
    }
    Ok(len)
}
