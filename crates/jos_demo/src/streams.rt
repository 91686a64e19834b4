//! The programs that write their words and what they read.

ghost use Rattle.std.specs.Prelude.{◌≡◌, IfOk};
ghost use Rattle.jos_demo.specs.declared.code.TheConstants.{TEXT};
ghost use Rattle.jos_demo.specs.Code.{with_items};
ghost use Rattle.jos_demo.specs.Streams.{roomy, line, taken, put, ended, echo, cat};

use crate::code::{
    AL, EAX, EBX, ECX, EDI, EDX, ESI, ESP, NEGATIVE, NEWLINE, NOT_POSITIVE, NOT_ZERO, PAGE,
    PRIVATE, SERVICE_EXIT, SERVICE_PAGE_NEW, SERVICE_READ, SERVICE_WRITE, SPACE, TEXT,
    add_register, dec, lodsb, mov_byte, mov_register, pop, service, stosb, sub_register, test_al,
    test_eax,
};
use jos_asm::Builder;
use jos_base::{NoMemory, PGSIZE};
use jos_isa::{Row, mov};
use std::alloc::Global;

/// The descriptor that is read.
const INPUT: u32 = 0;

/// The descriptor that is written.
const OUTPUT: u32 = 1;

/// The beginning of a program: makes a page for bytes, and ends where it gets none.
#[tactic(auto, unfolding(crate::specs::Code::with_items))]
fn roomy(alloc: Global) -> Result<Builder, NoMemory>
    ensures { IfOk result (λ program. program ≡ record { base = TEXT; items = roomy }) }
{
    let mut program = Builder::new(alloc, TEXT);
    program.insn(mov(EDX, PAGE))?;
    program.insn(mov(ECX, PRIVATE))?;
    service(&mut program, SERVICE_PAGE_NEW)?;
    program.insn(test_eax())?;
    program.jump(Row::JccRel8(NEGATIVE), "end")?;
    Ok(program)
}

/// The program's words but the first as a line, from `PAGE` up to EDI. ESP goes to where the addresses of the words
/// stand.
#[tactic(auto, unfolding(crate::specs::Code::with_items))]
fn line(program: &mut Builder) -> Result<(), NoMemory>
    ensures { IfOk result (λ _. program.new ≡ with_items program.old line) }
{
    program.insn(pop(ECX))?;
    program.insn(pop(ESP))?;
    program.insn(pop(ESI))?;
    program.insn(mov(EDI, PAGE))?;
    program.insn(dec(ECX))?;
    program.jump(Row::JccRel8(NOT_POSITIVE), "newline")?;
    program.label("word")?;
    program.insn(pop(ESI))?;
    program.label("byte")?;
    program.insn(lodsb())?;
    program.insn(stosb())?;
    program.insn(test_al())?;
    program.jump(Row::JccRel8(NOT_ZERO), "byte")?;
    program.insn(dec(EDI))?;
    program.insn(mov_byte(AL, SPACE))?;
    program.insn(stosb())?;
    program.insn(dec(ECX))?;
    program.jump(Row::JccRel8(NOT_ZERO), "word")?;
    program.insn(dec(EDI))?;
    program.label("newline")?;
    program.insn(mov_byte(AL, NEWLINE))?;
    program.insn(stosb())?;
    Ok(())
}

/// Reads, and ends where no byte comes; else EBX of them stand from ECX on.
#[tactic(auto, unfolding(crate::specs::Code::with_items))]
fn taken(program: &mut Builder) -> Result<(), NoMemory>
    ensures { IfOk result (λ _. program.new ≡ with_items program.old taken) }
{
    program.insn(mov(EDX, INPUT))?;
    program.insn(mov(ECX, PAGE))?;
    program.insn(mov(EBX, PGSIZE))?;
    service(program, SERVICE_READ)?;
    program.insn(test_eax())?;
    program.jump(Row::JccRel8(NOT_POSITIVE), "end")?;
    program.insn(mov_register(EBX, EAX))?;
    Ok(())
}

/// Writes EBX bytes from ECX on, whatever number of them each write takes, and ends where one takes none.
#[tactic(auto, unfolding(crate::specs::Code::with_items))]
fn put(program: &mut Builder) -> Result<(), NoMemory>
    ensures { IfOk result (λ _. program.new ≡ with_items program.old put) }
{
    program.insn(mov(EDX, OUTPUT))?;
    program.label("rest")?;
    service(program, SERVICE_WRITE)?;
    program.insn(test_eax())?;
    program.jump(Row::JccRel8(NOT_POSITIVE), "end")?;
    program.insn(add_register(ECX, EAX))?;
    program.insn(sub_register(EBX, EAX))?;
    program.jump(Row::JccRel8(NOT_ZERO), "rest")?;
    Ok(())
}

/// The end of a program.
#[tactic(auto, unfolding(crate::specs::Code::with_items))]
fn ended(program: &mut Builder) -> Result<(), NoMemory>
    ensures { IfOk result (λ _. program.new ≡ with_items program.old ended) }
{
    program.label("end")?;
    service(program, SERVICE_EXIT)?;
    Ok(())
}

/// Writes its words but the first, in a line.
#[tactic(auto, unfolding(crate::specs::Code::with_items, crate::specs::Streams::echo))]
pub(crate) fn echo(alloc: Global) -> Result<Builder, NoMemory>
    ensures { IfOk result (λ program. program ≡ echo) }
{
    let mut program = roomy(alloc)?;
    line(&mut program)?;
    program.insn(mov(ECX, PAGE))?;
    program.insn(mov_register(EBX, EDI))?;
    program.insn(sub_register(EBX, ECX))?;
    put(&mut program)?;
    ended(&mut program)?;
    Ok(program)
}

/// Writes what it reads, up to the end.
#[tactic(auto, unfolding(crate::specs::Code::with_items, crate::specs::Streams::cat))]
pub(crate) fn cat(alloc: Global) -> Result<Builder, NoMemory>
    ensures { IfOk result (λ program. program ≡ cat) }
{
    let mut program = roomy(alloc)?;
    program.label("next")?;
    taken(&mut program)?;
    put(&mut program)?;
    program.jump(Row::JmpRel8, "next")?;
    ended(&mut program)?;
    Ok(program)
}
