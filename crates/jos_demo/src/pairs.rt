//! The programs in which a parent and its child write on one page and read it.

ghost use Rattle.std.specs.Prelude.{◌≡◌, IfOk, []};
ghost use Rattle.jos_asm.specs.declared.item.Item.TheVariants.{Insn};
ghost use Rattle.jos_demo.specs.declared.code.TheConstants.{TEXT};
ghost use Rattle.jos_demo.specs.Code.{with_items};
ghost use Rattle.jos_demo.specs.Pairs.{forked, received, parted, sent, joined, told};
ghost use Rattle.jos_demo.specs.Pairs.{forkpair, sharepair};

use crate::code::{
    AH, EAX, EBX, ECX, EDX, ESP, NEWLINE, NOT_ZERO, PAGE, PRIVATE, SERVICE_CPUTS, SERVICE_EXIT,
    SERVICE_FORK, SERVICE_PAGE_NEW, SERVICE_RECEIVE, SERVICE_SEND, SERVICE_WAIT, TEXT, load_al,
    mov_byte, mov_register, push_eax, service, store_byte, test_eax,
};
use jos_asm::Builder;
use jos_base::NoMemory;
use jos_isa::{Row, mov};
use std::alloc::Global;

/// The flags of a shared page that may be written. (docs/library.md: page_new)
const SHARED: u32 = 3;

/// What the child writes.
const CHILDS: u8 = b'c';

/// What the parent writes.
const PARENTS: u8 = b'p';

/// What the child prints before the byte that it has read.
const CHILD_TEXT: [u8; 6] = *b"child ";

/// What the parent prints before the byte that it has read.
const PARENT_TEXT: [u8; 7] = *b"parent ";

/// The beginning of a program: makes the page that both write on, with these flags, and forks; the child goes on
/// behind it, and writes.
#[tactic(auto, unfolding(crate::specs::Code::with_items))]
fn forked(alloc: Global, flags: u32) -> Result<Builder, NoMemory>
    ensures { IfOk result (λ program. program ≡ record { base = TEXT; items = forked flags }) }
{
    let mut program = Builder::new(alloc, TEXT);
    program.insn(mov(EDX, PAGE))?;
    program.insn(mov(ECX, flags))?;
    service(&mut program, SERVICE_PAGE_NEW)?;
    service(&mut program, SERVICE_FORK)?;
    program.insn(test_eax())?;
    program.jump(Row::JccRel8(NOT_ZERO), "parent")?;
    program.insn(store_byte(PAGE, CHILDS))?;
    Ok(program)
}

/// Receives a message of anyone.
#[tactic(auto, unfolding(crate::specs::Code::with_items))]
fn received(program: &mut Builder) -> Result<(), NoMemory>
    ensures { IfOk result (λ _. program.new ≡ with_items program.old received) }
{
    program.insn(mov(EDX, 0))?;
    program.insn(mov(ECX, 0))?;
    service(program, SERVICE_RECEIVE)?;
    Ok(())
}

/// The end of the child's own part and the beginning of the parent's.
#[tactic(auto, unfolding(crate::specs::Code::with_items))]
fn parted(program: &mut Builder) -> Result<(), NoMemory>
    ensures { IfOk result (λ _. program.new ≡ with_items program.old parted) }
{
    program.insn(mov(ECX, CHILD_TEXT.len() as u32))?;
    program.address(EDX, "child text")?;
    program.jump(Row::JmpRel8, "both")?;
    program.label("parent")?;
    program.insn(mov_register(EDX, EAX))?;
    Ok(())
}

/// Sends a message to the child, whose id is in EDX.
#[tactic(auto, unfolding(crate::specs::Code::with_items))]
fn sent(program: &mut Builder) -> Result<(), NoMemory>
    ensures { IfOk result (λ _. program.new ≡ with_items program.old sent) }
{
    program.insn(mov(ECX, 0))?;
    program.insn(mov(EBX, 0))?;
    service(program, SERVICE_SEND)?;
    Ok(())
}

/// The end of the parent's own part, in which it waits for the child, and the beginning of that of both, which reads
/// the byte.
#[tactic(auto, unfolding(crate::specs::Code::with_items))]
fn joined(program: &mut Builder) -> Result<(), NoMemory>
    ensures { IfOk result (λ _. program.new ≡ with_items program.old joined) }
{
    service(program, SERVICE_WAIT)?;
    program.insn(mov(ECX, PARENT_TEXT.len() as u32))?;
    program.address(EDX, "parent text")?;
    program.label("both")?;
    program.insn(load_al(PAGE))?;
    program.insn(mov_byte(AH, NEWLINE))?;
    program.insn(push_eax())?;
    Ok(())
}

/// The end of a program: prints the text and what is on the stack, and ends.
#[tactic(auto, unfolding(crate::specs::Code::with_items))]
fn told(program: &mut Builder) -> Result<(), NoMemory>
    ensures { IfOk result (λ _. program.new ≡ with_items program.old told) }
{
    service(program, SERVICE_CPUTS)?;
    program.insn(mov_register(EDX, ESP))?;
    program.insn(mov(ECX, 2))?;
    service(program, SERVICE_CPUTS)?;
    service(program, SERVICE_EXIT)?;
    program.label("child text")?;
    program.bytes(&CHILD_TEXT)?;
    program.label("parent text")?;
    program.bytes(&PARENT_TEXT)?;
    Ok(())
}

/// A parent and its child write on a page that each has for itself.
#[tactic(auto, unfolding(crate::specs::Code::with_items, crate::specs::Pairs::forkpair))]
pub(crate) fn forkpair(alloc: Global) -> Result<Builder, NoMemory>
    ensures { IfOk result (λ program. program ≡ forkpair) }
{
    let mut program = forked(alloc, PRIVATE)?;
    parted(&mut program)?;
    program.insn(store_byte(PAGE, PARENTS))?;
    joined(&mut program)?;
    told(&mut program)?;
    Ok(program)
}

/// A parent and its child write on a page that they share, the parent last.
#[tactic(auto, unfolding(crate::specs::Code::with_items, crate::specs::Pairs::sharepair))]
pub(crate) fn sharepair(alloc: Global) -> Result<Builder, NoMemory>
    ensures { IfOk result (λ program. program ≡ sharepair) }
{
    let mut program = forked(alloc, SHARED)?;
    received(&mut program)?;
    received(&mut program)?;
    parted(&mut program)?;
    sent(&mut program)?;
    program.insn(store_byte(PAGE, PARENTS))?;
    sent(&mut program)?;
    joined(&mut program)?;
    told(&mut program)?;
    Ok(program)
}
