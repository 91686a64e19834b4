//! Cases of jos_asm and jos_demo.

ghost use Rattle.std.specs.Prelude.{IsTrue};
ghost use Rattle.std.specs.Bool.{OnTrue};
ghost use Rattle.jos_asm.specs.Items.{is_relative};
ghost use Rattle.jos_asm.specs.Calls.{IsName};

use case_words::Words;
use jos_asm::{Builder, NAME_MAX};
use jos_base::NoMemory;
use jos_demo::{is_program, program, work, workload_of};
use jos_isa::{Decoded, Row, decode};
use std::alloc::{AllocError, Global};
use std::io;

/// Whether a text may be the name of a label.
fn is_name(text: &str) -> bool
    ensures { OnTrue result (IsName text.now) }
{
    let bytes = text.as_bytes();
    1 <= bytes.len() && bytes.len() <= NAME_MAX && bytes.iter().all(|byte| *byte < 128)
}

/// The jump or call of a name.
fn jump_of(name: &str) -> Row
    ensures { IsTrue (is_relative result) }
{
    match name {
        "jmp8" => Row::JmpRel8,
        "jo8" => Row::JccRel8(0),
        "je8" => Row::JccRel8(4),
        "jmp32" => Row::JmpRel32,
        "jg32" => Row::JccRel32(15),
        _ => Row::CallRel32,
    }
}

/// Adds the item that the next words say; there is none behind the last word, and none where a name is no label's.
fn add_item(alloc: Global, program: &mut Builder, words: &mut Words) -> Result<(), NoMemory> {
    match words.word() {
        "label" => {
            let name = words.word();
            if is_name(name) {
                return program.label(name);
            }
            Ok(())
        }
        "jump" => {
            let row = jump_of(words.word());
            let name = words.word();
            if is_name(name) {
                return program.jump(row, name);
            }
            Ok(())
        }
        "address" => {
            let register = words.byte() % 8;
            let name = words.word();
            if is_name(name) {
                return program.address(register, name);
            }
            Ok(())
        }
        "nops" => {
            let count = words.number();
            program.bytes(&vec![in alloc; 0x90; count as usize]?)
        }
        "bytes" => match hex::decode(alloc, words.word()) {
            Ok(bytes) => program.bytes(&bytes),
            Err(_) => Err(NoMemory),
        },
        "insn" => match hex::decode(alloc, words.word()) {
            Ok(bytes) => match decode(&bytes) {
                Decoded::Found(insn, _) => program.insn(insn),
                _ => Ok(()),
            },
            Err(_) => Err(NoMemory),
        },
        _ => Ok(()),
    }
}

/// The bytes; of more than 16 their number, the first five and the last three.
fn tell_code(alloc: Global, out: &mut String, code: &[u8]) -> Result<(), AllocError> {
    let len = code.len();
    if len <= 16 {
        return out.push_str(hex::encode(alloc, code)?.as_str());
    }
    let first = hex::encode(alloc, &code[..5])?;
    let last = hex::encode(alloc, &code[len - 3..])?;
    write!(out, "{len:x} bytes {}..{}", first.as_str(), last.as_str())
}

/// The bytes of a program by its base and its items, or its fault.
pub fn assemble(alloc: Global, out: &mut String, mut words: Words) -> io::Result<()> {
    let mut program = Builder::new(alloc, words.number());
    for _ in 0..16u32 {
        if add_item(alloc, &mut program, &mut words).is_err() {
            out.push_str("not added ")?;
        }
    }
    match program.finish() {
        Ok(code) => tell_code(alloc, out, &code)?,
        Err(fault) => write!(out, "{fault}")?,
    }
    Ok(())
}

/// The file of the program of a name, which stands in quotes.
pub fn demo(alloc: Global, out: &mut String, words: Words) -> io::Result<()> {
    let name = words.rest().trim_matches('"');
    write!(out, "{} ", is_program(name))?;
    match program(alloc, name) {
        Ok(Some(file)) => out.push_str(hex::encode(alloc, &file)?.as_str())?,
        Ok(None) => out.push_str("no file")?,
        Err(NoMemory) => out.push_str("out of memory")?,
    }
    Ok(())
}

/// How much the program of a seed has to do, and its file.
pub fn tell_work(alloc: Global, out: &mut String, mut words: Words) -> io::Result<()> {
    let workload = workload_of(words.number());
    let children = workload.children as u32;
    let bytes = workload.bytes;
    write!(out, "{children:x} {bytes:x} ")?;
    match work(alloc, workload) {
        Ok(file) => out.push_str(hex::encode(alloc, &file)?.as_str())?,
        Err(NoMemory) => out.push_str("out of memory")?,
    }
    Ok(())
}
