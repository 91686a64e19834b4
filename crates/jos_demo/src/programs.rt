//! The programs that print a line, and the programs by their names.

ghost use Rattle.std.specs.Prelude.{◌≡◌, ◌≤◌, ◌||◌, [], ◌∷◌, IfOk, IsOk, Ok, None, false, is_some, length, codes};
ghost use Rattle.std.specs.Str.{bytes_eq};
ghost use Rattle.std.specs.Option.{option_map};
ghost use Rattle.jos_isa.specs.Moves.{mov};
ghost use Rattle.jos_asm.specs.declared.item.Item.TheVariants.{Insn, Address};
ghost use Rattle.jos_asm.specs.Program.{finished};
ghost use Rattle.jos_asm.specs.Calls.{IsFault};
ghost use Rattle.jos_demo.specs.declared.code.TheConstants.{TEXT, EAX, ECX, EDX};
ghost use Rattle.jos_demo.specs.Code.{int};
ghost use Rattle.jos_demo.specs.Programs.{xhello, hello, program_named, file_of};

use crate::code::{EAX, ECX, EDX, SERVICE_CPUTS, SERVICE_EXIT, TEXT, image, int};
use crate::pairs::{forkpair, sharepair};
use crate::streams::{cat, echo};
use jos_asm::{AsmFault, Builder, CODE_MAX};
use jos_base::{NoMemory, SYS_CPUTS, SYS_ENV_DESTROY, T_SERVICE, T_SYSCALL};
use jos_isa::mov;
use std::alloc::Global;

/// The line that is printed.
const LINE: [u8; 6] = *b"hello\n";

/// The beginning of a program: the line, at the label `text`, is printed by a call of this number through this gate.
fn printing(alloc: Global, number: u32, gate: u8) -> Result<Builder, NoMemory>
    ensures { IfOk result (λ program. program ≡ record {
      base = TEXT;
      items = Insn (mov EAX number) ∷ Address EDX (codes "text") ∷ Insn (mov ECX 6) ∷ Insn (int gate) ∷ [];
    }) }
{
    let mut program = Builder::new(alloc, TEXT);
    program.insn(mov(EAX, number))?;
    program.address(EDX, "text")?;
    program.insn(mov(ECX, LINE.len() as u32))?;
    program.insn(int(gate))?;
    Ok(program)
}

/// Prints a line on the bare kernel, and ends.
#[tactic(auto, unfolding(crate::specs::Programs::xhello))]
fn xhello(alloc: Global) -> Result<Builder, NoMemory>
    ensures { IfOk result (λ program. program ≡ xhello) }
{
    let mut program = printing(alloc, SYS_CPUTS, T_SYSCALL)?;
    program.insn(mov(EAX, SYS_ENV_DESTROY))?;
    program.insn(mov(EDX, 0))?;
    program.insn(int(T_SYSCALL))?;
    program.label("text")?;
    program.bytes(&LINE)?;
    Ok(program)
}

/// Prints a line under the library, and ends.
#[tactic(auto, unfolding(crate::specs::Programs::hello))]
fn hello(alloc: Global) -> Result<Builder, NoMemory>
    ensures { IfOk result (λ program. program ≡ hello) }
{
    let mut program = printing(alloc, SERVICE_CPUTS, T_SERVICE)?;
    program.insn(mov(EAX, SERVICE_EXIT))?;
    program.insn(int(T_SERVICE))?;
    program.label("text")?;
    program.bytes(&LINE)?;
    Ok(program)
}

/// The program of a name.
#[tactic(auto, unfolding(crate::specs::Programs::program_named))]
fn program_named(alloc: Global, name: &str) -> Result<Option<Builder>, NoMemory>
    ensures exact { IfOk result (λ program. program ≡ program_named name.now) }
    ensures unknown { program_named name.now ≡ None → result ≡ Ok None }
{
    if name == "xhello" {
        Ok(Some(xhello(alloc)?))
    } else if name == "hello" {
        Ok(Some(hello(alloc)?))
    } else if name == "forkpair" {
        Ok(Some(forkpair(alloc)?))
    } else if name == "sharepair" {
        Ok(Some(sharepair(alloc)?))
    } else if name == "echo" {
        Ok(Some(echo(alloc)?))
    } else if name == "cat" {
        Ok(Some(cat(alloc)?))
    } else {
        Ok(None)
    }
}

/// Whether this is one of the six names.
fn is_listed(name: &str) -> bool
    ensures { result ≡ (bytes_eq name.now (codes "xhello") || bytes_eq name.now (codes "hello")
        || bytes_eq name.now (codes "forkpair") || bytes_eq name.now (codes "sharepair")
        || bytes_eq name.now (codes "echo") || bytes_eq name.now (codes "cat")) }
{
    name == "xhello"
        || name == "hello"
        || name == "forkpair"
        || name == "sharepair"
        || name == "echo"
        || name == "cat"
}

/// Whether a program has this name.
pub fn is_program(name: &str) -> bool
    ensures file { result ≡ is_some (file_of name.now) }
    // There are six programs.
    ensures named { result ≡ (bytes_eq name.now (codes "xhello") || bytes_eq name.now (codes "hello")
        || bytes_eq name.now (codes "forkpair") || bytes_eq name.now (codes "sharepair")
        || bytes_eq name.now (codes "echo") || bytes_eq name.now (codes "cat")) }
{
    is_listed(name)
}

/// What is left of the faults of a program that has none.
fn only_memory(fault: AsmFault) -> NoMemory
    requires { IsFault fault None }
{
    match fault {
        AsmFault::NoMemory => NoMemory,
        _ => unreachable!(),
    }
}

/// The code of a program without faults.
pub(crate) fn assemble(program: Builder) -> Result<Vec<u8>, NoMemory>
    requires { IsOk (finished program) }
    ensures exact { IfOk result (λ code. finished program ≡ Ok code.items) }
    ensures small { IfOk result (λ code. length code.items ≤ CODE_MAX) }
{
    match program.finish() {
        Ok(code) => Ok(code),
        Err(fault) => Err(only_memory(fault)),
    }
}

/// The file of the program of a name, or `None` where no program has it. That no program has it takes no memory.
///
/// `xhello` and `hello` print `hello` and a newline: `xhello` runs on the bare kernel, `hello` under the library, as all
/// others. In two of these a parent and its child write on one page, and each prints what it reads there then: in
/// `forkpair` the page is each one's own, and in `sharepair` they share it, and the parent writes last. `echo` writes its
/// words but the first, with a space between two and a newline, and `cat` what it reads.
#[tactic(auto, unfolding(crate::specs::Programs::file_of))]
pub fn program(alloc: Global, name: &str) -> Result<Option<Vec<u8>>, NoMemory>
    ensures exact { IfOk result (λ file. option_map (λ bytes. bytes.items) file ≡ file_of name.now) }
    ensures unknown { is_some (file_of name.now) ≡ false → result ≡ Ok None }
{
    match program_named(alloc, name)? {
        None => Ok(None),
        Some(program) => {
            let code = assemble(program)?;
            Ok(Some(image(alloc, &code)?))
        }
    }
}
