//! From the items of a program to its bytes.

ghost use Rattle.std.specs.Prelude.{◌≡◌, ◌+◌, ◌*◌, ◌<◌, ◌≤◌, IsTrue, Ok, IfOk, IfErr, OnOk, OnErr, IsOkAnd, false};
ghost use Rattle.std.specs.Prelude.{length, All, ◌++◌, None, Some, vec_capacity};
ghost use Rattle.std.specs.Option.{option_map};
ghost use Rattle.std.specs.Result.{result_err};
ghost use Rattle.jos_isa.specs.Lawful.{is_lawful};
ghost use Rattle.jos_isa.specs.Encoding.{encoded};
ghost use Rattle.jos_asm.specs.Items.{is_item, length_of, target_of, relative};
ghost use Rattle.jos_asm.specs.Program.{length_of_all, item_bytes, distance, is_unknown, first_unknown, first_far};
ghost use Rattle.jos_asm.specs.Program.{is_near, is_far, reaches, place_in, known_place, spelled_from, finished};
ghost use Rattle.jos_asm.specs.Calls.{IsFault};
ghost use Rattle.jos_asm.specs.Laid.{AreLaid};
ghost use Rattle.jos_asm.specs.Labels.{far_at, unknown_in};

use crate::fault::AsmFault;
use crate::item::{Item, is_byte_jump, relative};
use crate::labels::Labels;
use crate::lengths::{length_of, length_of_all, relative_length};
use crate::limits::{CODE_MAX, NEAR_AHEAD, NEAR_BACK};
use crate::name::Name;
use jos_base::{INSTRUCTION_MAX, NoMemory};
use jos_isa::{Insn, Row, encode, mov};
use std::alloc::Global;

/// The label that an item names, if it is not one itself.
fn target_of(item: &Item) -> Option<&Name>
    ensures { option_map (λ name. name.now) result ≡ target_of item.now }
{
    match item {
        Item::Jump(_, name) => Some(name),
        Item::Address(_, name) => Some(name),
        _ => None,
    }
}

/// Refuses the name in an item, if no label has it.
fn check_name<'a>(item: &'a Item, labels: &Labels<'a>) -> Result<(), AsmFault>
    ensures known { OnOk result (is_unknown (place_in labels.now) (target_of item.now) ≡ false) }
    ensures fault { IfErr result (λ fault. unknown_in (place_in labels.now) item.now ≡ Some fault) }
{
    match target_of(item) {
        None => Ok(()),
        Some(name) => match labels.place_of(name) {
            Some(_) => Ok(()),
            None => Err(AsmFault::Unknown(name.copy())),
        },
    }
}

/// Refuses a name that no label has.
fn check_names(labels: &Labels<'_>) -> Result<(), AsmFault>
    ensures known { OnOk result (first_unknown (place_in labels.now) labels.now ≡ None) }
    ensures fault { IfErr result (λ fault. option_map AsmFault.Unknown (first_unknown (place_in labels.now) labels.now) ≡ Some fault) }
{
    for item in labels.items() {
        check_name(item, labels)?;
    }
    Ok(())
}

/// Where a label is. Each name is known.
fn known_place<'a>(labels: &Labels<'a>, name: &'a Name) -> u32
    ensures { result ≡ known_place labels.now name.now }
{
    labels.place_of(name).unwrap_or(0)
}

/// The distance to a place from the one behind the jump.
fn distance(behind: u32, place: u32) -> u32
    ensures { result ≡ distance behind place }
{
    place.wrapping_sub(behind)
}

/// Whether a signed byte spans the distance to a place from the one behind the jump.
fn is_near(behind: u32, place: u32) -> bool
    requires { behind ≤ 2 * CODE_MAX }
    ensures { result ≡ is_near behind place }
{
    behind <= place.saturating_add(NEAR_BACK) && place <= behind + NEAR_AHEAD
}

/// Whether a jump reaches a place from the one behind it.
fn reaches(row: Row, behind: u32, place: u32) -> bool
    requires { behind ≤ 2 * CODE_MAX }
    ensures { result ≡ reaches row behind place }
{
    !is_byte_jump(row) || is_near(behind, place)
}

/// Refuses a jump at `at` that does not reach its label.
fn check_jump<'a>(item: &'a Item, at: u32, labels: &Labels<'a>) -> Result<(), AsmFault>
    requires { at ≤ CODE_MAX }
    ensures near { OnOk result (is_far (known_place labels.now) at item.now ≡ false) }
    ensures fault { IfErr result (λ fault. far_at (known_place labels.now) at item.now ≡ Some fault) }
{
    match item {
        Item::Jump(row, name) => {
            let behind = at + relative_length(*row) as u32;
            if reaches(*row, behind, known_place(labels, name)) {
                Ok(())
            } else {
                Err(AsmFault::Far(name.copy()))
            }
        }
        _ => Ok(()),
    }
}

/// Refuses a label that is out of reach of its jump.
fn check_jumps(labels: &Labels<'_>) -> Result<(), AsmFault>
    ensures near { OnOk result (first_far (known_place labels.now) 0 labels.now ≡ None) }
    ensures fault { IfErr result (λ fault. option_map AsmFault.Far (first_far (known_place labels.now) 0 labels.now) ≡ Some fault) }
{
    let mut at = 0;
    for item in labels.items() {
        check_jump(item, at, labels)?;
        at += length_of(item) as u32;
    }
    Ok(())
}

/// Appends bytes for which there is room.
fn write_bytes(bytes: &[u8], code: &mut Vec<u8>)
    requires { length code.old.items + length bytes.now ≤ vec_capacity code.old }
    ensures bytes { code.new.items ≡ code.old.items ++ bytes.now }
    ensures room { vec_capacity code.old ≤ vec_capacity code.new }
{
    code.extend_from_slice(bytes).unwrap();
}

/// Appends the bytes of an instruction, for which there is room.
fn write_insn(insn: &Insn, code: &mut Vec<u8>)
    requires lawful { IsTrue (is_lawful insn.now) }
    requires room { length code.old.items + length (encoded insn.now) ≤ vec_capacity code.old }
    ensures bytes { code.new.items ≡ code.old.items ++ encoded insn.now }
    ensures room { vec_capacity code.old ≤ vec_capacity code.new }
{
    let mut bytes = [0; INSTRUCTION_MAX];
    let len = encode(insn, &mut bytes);
    write_bytes(&bytes[..len], code);
}

/// Appends the bytes of an item, for which there is room.
fn write_item<'a>(base: u32, item: &'a Item, labels: &Labels<'a>, code: &mut Vec<u8>)
    requires lawful { IsTrue (is_item item.now) }
    requires near { is_far (known_place labels.now) (length code.old.items) item.now ≡ false }
    requires small { length code.old.items + length_of item.now ≤ CODE_MAX }
    requires room { length code.old.items + length_of item.now ≤ vec_capacity code.old }
    ensures bytes { code.new.items ≡ code.old.items ++ item_bytes base (known_place labels.now) (length code.old.items) item.now }
    ensures room { vec_capacity code.old ≤ vec_capacity code.new }
{
    match item {
        Item::Label(_) => {}
        Item::Insn(insn) => write_insn(insn, code),
        Item::Jump(row, name) => {
            let behind = (code.len() + relative_length(*row)) as u32;
            let distance = distance(behind, known_place(labels, name));
            write_insn(&relative(*row, distance), code);
        }
        Item::Address(reg, name) => {
            let address = base.wrapping_add(known_place(labels, name));
            write_insn(&mov(*reg, address), code);
        }
        Item::Bytes(bytes) => write_bytes(bytes.as_slice(), code),
    }
}

/// The bytes of the items, `len` in number, each label's distance or address in its place.
fn spell(alloc: Global, base: u32, len: usize, labels: &Labels<'_>) -> Result<Vec<u8>, NoMemory>
    requires near { first_far (known_place labels.now) 0 labels.now ≡ None }
    requires len { len ≡ length_of_all labels.now }
    ensures bytes { IfOk result (λ code. code.items ≡ spelled_from base (known_place labels.now) 0 labels.now) }
    ensures memory { OnErr result (0 < len) }
{
    let mut code = Vec::with_capacity(alloc, len)?;
    for item in labels.items() {
        write_item(base, item, labels, &mut code);
    }
    Ok(code)
}

/// The bytes of the items, whose first is at `base`, or the first fault that they have.
pub(crate) fn finish(alloc: Global, base: u32, items: &[Item]) -> Result<Vec<u8>, AsmFault>
    requires { All (λ i. IsTrue (is_item i)) items.now }
    ensures exact { IfOk result (λ code. finished (record { base = base; items = items.now }) ≡ Ok code.items) }
    ensures laid { IfOk result (λ code. AreLaid (record { base = base; items = items.now }) code.items) }
    ensures small { IfOk result (λ code. length code.items ≤ CODE_MAX) }
    ensures fault { IfErr result (λ fault. IsFault fault (result_err (finished (record { base = base; items = items.now })))) }
    ensures memory { IfErr result (λ fault. fault ≡ AsmFault.NoMemory
        → IsOkAnd (finished (record { base = base; items = items.now })) (λ code. 0 < length code)) }
{
    let len = length_of_all(items)?;
    match Labels::find(alloc, items) {
        Err(fault) => Err(fault),
        Ok(labels) => {
            check_names(&labels)?;
            check_jumps(&labels)?;
            match spell(alloc, base, len, &labels) {
                Ok(code) => Ok(code),
                Err(_) => Err(AsmFault::NoMemory),
            }
        }
    }
}
