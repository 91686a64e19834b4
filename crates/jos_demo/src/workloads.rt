//! The program of a seed, in which children write into a pipe, and their parent counts what comes out of it.

ghost use Rattle.std.specs.Prelude.{◌≡◌, IfOk};
ghost use Rattle.jos_demo.specs.declared.code.TheConstants.{TEXT};
ghost use Rattle.jos_demo.specs.Code.{with_items};
ghost use Rattle.jos_demo.specs.Workloads.{next_random, workload_of, IsWorkload};
ghost use Rattle.jos_demo.specs.Workloads.{made, forked, filled, written, counted, waited, spelled, told, work_program, work_file};

use crate::code::{
    BL, DL, EAX, EBP, EBX, ECX, EDI, EDX, ESI, NEWLINE, NOT_POSITIVE, NOT_ZERO, PAGE, PRIVATE,
    SERVICE_CLOSE, SERVICE_CPUTS, SERVICE_EXIT, SERVICE_FORK, SERVICE_PAGE_NEW, SERVICE_PIPE,
    SERVICE_READ, SERVICE_WAIT, SERVICE_WRITE, SPACE, TEXT, ZERO, add_byte, add_register, dec, div,
    image, inc, inc_word, lodsb, lodsd, mov_byte, mov_register, rep_stosb, service, store_at_edi,
    store_byte, stosd, sub_register, test_eax,
};
use crate::programs::assemble;
use jos_asm::Builder;
use jos_base::{NoMemory, PGSIZE};
use jos_isa::{Row, mov};
use std::alloc::Global;

/// How much a program has to do.
#[derive(Clone, Copy)]
pub struct Workload {
    /// How many children write, 2 to 8.
    pub children: u8,
    /// How many bytes each of them writes, 64 to 4,096.
    pub bytes: u32,
}

/// Where the counts stand, a word for each value of a byte, in a page behind that of the bytes.
const COUNTS: u32 = PAGE + PGSIZE;

/// Where the ids of the children stand, behind the counts.
const IDS: u32 = COUNTS + 4 * 256;

/// Where the newline of a line stands; the line ends behind it.
const NEWLINE_AT: u32 = PAGE + 15;

/// What the first child writes.
const LETTER: u8 = b'a';

/// The digit 0.
const DIGIT: u8 = b'0';

/// The number behind this one in the row of random numbers.
#[tactic(auto, unfolding(crate::specs::Workloads::next_random))]
fn next_random(x: u32) -> u32
    ensures { result ≡ next_random x }
{
    ((1_103_515_245 * x as u64 + 12_345) % (1 << 31)) as u32
}

/// How much the program of a seed has to do.
#[tactic(auto, unfolding(crate::specs::Workloads::workload_of))]
pub fn workload_of(seed: u32) -> Workload
    ensures value { result ≡ workload_of seed }
    ensures bounds { IsWorkload result }
{
    let first = next_random(seed);
    let second = next_random(first);
    Workload {
        children: (2 + first / 0x1_0000 % 7) as u8,
        bytes: 64 + second / 0x1_0000 % 4_033,
    }
}

/// The beginning of the program: makes a page for bytes, one for the counts, and a pipe, whose reading end is in EBP and
/// whose writing end in ESI.
#[tactic(auto, unfolding(crate::specs::Code::with_items))]
fn made(alloc: Global) -> Result<Builder, NoMemory>
    ensures { IfOk result (λ program. program ≡ record { base = TEXT; items = made }) }
{
    let mut program = Builder::new(alloc, TEXT);
    program.insn(mov(EDX, PAGE))?;
    program.insn(mov(ECX, PRIVATE))?;
    service(&mut program, SERVICE_PAGE_NEW)?;
    program.insn(mov(EDX, COUNTS))?;
    service(&mut program, SERVICE_PAGE_NEW)?;
    service(&mut program, SERVICE_PIPE)?;
    program.insn(mov_register(EBP, EDX))?;
    program.insn(mov_register(ESI, ECX))?;
    Ok(program)
}

/// Forks so many children, and keeps their ids; each has its letter in EBX.
#[tactic(auto, unfolding(crate::specs::Code::with_items))]
fn forked(program: &mut Builder, children: u8) -> Result<(), NoMemory>
    ensures { IfOk result (λ _. program.new ≡ with_items program.old (forked children)) }
{
    program.insn(mov(ECX, children as u32))?;
    program.insn(mov(EBX, LETTER as u32))?;
    program.insn(mov(EDI, IDS))?;
    program.label("fork")?;
    service(program, SERVICE_FORK)?;
    program.insn(test_eax())?;
    program.jump(Row::JccRel8(ZERO), "child")?;
    program.insn(stosd())?;
    program.insn(inc(EBX))?;
    program.insn(dec(ECX))?;
    program.jump(Row::JccRel8(NOT_ZERO), "fork")?;
    program.jump(Row::JmpRel8, "parent")?;
    Ok(())
}

/// The beginning of a child: closes the reading end, and has its letter so often from `PAGE` on.
#[tactic(auto, unfolding(crate::specs::Code::with_items))]
fn filled(program: &mut Builder, bytes: u32) -> Result<(), NoMemory>
    ensures { IfOk result (λ _. program.new ≡ with_items program.old (filled bytes)) }
{
    program.label("child")?;
    program.insn(mov_register(EDX, EBP))?;
    service(program, SERVICE_CLOSE)?;
    program.insn(mov_register(EAX, EBX))?;
    program.insn(mov(EDI, PAGE))?;
    program.insn(mov(ECX, bytes))?;
    program.insn(rep_stosb())?;
    Ok(())
}

/// The end of a child: writes so many bytes into the pipe, whatever number of them each write takes, and ends.
#[tactic(auto, unfolding(crate::specs::Code::with_items))]
fn written(program: &mut Builder, bytes: u32) -> Result<(), NoMemory>
    ensures { IfOk result (λ _. program.new ≡ with_items program.old (written bytes)) }
{
    program.insn(mov_register(EDX, ESI))?;
    program.insn(mov(ECX, PAGE))?;
    program.insn(mov(EBX, bytes))?;
    program.label("rest")?;
    service(program, SERVICE_WRITE)?;
    program.insn(test_eax())?;
    program.jump(Row::JccRel8(NOT_POSITIVE), "end")?;
    program.insn(add_register(ECX, EAX))?;
    program.insn(sub_register(EBX, EAX))?;
    program.jump(Row::JccRel8(NOT_ZERO), "rest")?;
    program.label("end")?;
    service(program, SERVICE_EXIT)?;
    Ok(())
}

/// The beginning of the parent's part: closes the writing end, reads up to the end, and counts the bytes by value.
#[tactic(auto, unfolding(crate::specs::Code::with_items))]
fn counted(program: &mut Builder) -> Result<(), NoMemory>
    ensures { IfOk result (λ _. program.new ≡ with_items program.old counted) }
{
    program.label("parent")?;
    program.insn(mov_register(EDX, ESI))?;
    service(program, SERVICE_CLOSE)?;
    program.label("read")?;
    program.insn(mov_register(EDX, EBP))?;
    program.insn(mov(ECX, PAGE))?;
    program.insn(mov(EBX, PGSIZE))?;
    service(program, SERVICE_READ)?;
    program.insn(test_eax())?;
    program.jump(Row::JccRel8(NOT_POSITIVE), "wait")?;
    program.insn(mov_register(ECX, EAX))?;
    program.insn(mov(ESI, PAGE))?;
    program.insn(mov(EAX, 0))?;
    program.label("count")?;
    program.insn(lodsb())?;
    program.insn(inc_word(COUNTS))?;
    program.insn(dec(ECX))?;
    program.jump(Row::JccRel8(NOT_ZERO), "count")?;
    program.jump(Row::JmpRel8, "read")?;
    Ok(())
}

/// Waits for so many children, in order.
#[tactic(auto, unfolding(crate::specs::Code::with_items))]
fn waited(program: &mut Builder, children: u8) -> Result<(), NoMemory>
    ensures { IfOk result (λ _. program.new ≡ with_items program.old (waited children)) }
{
    program.label("wait")?;
    program.insn(mov(ECX, children as u32))?;
    program.insn(mov(ESI, IDS))?;
    program.label("next")?;
    program.insn(lodsd())?;
    program.insn(mov_register(EDX, EAX))?;
    service(program, SERVICE_WAIT)?;
    program.insn(dec(ECX))?;
    program.jump(Row::JccRel8(NOT_ZERO), "next")?;
    Ok(())
}

/// Spells EAX in decimal, before EDI, which goes to the first digit.
#[tactic(auto, unfolding(crate::specs::Code::with_items))]
fn spelled(program: &mut Builder) -> Result<(), NoMemory>
    ensures { IfOk result (λ _. program.new ≡ with_items program.old spelled) }
{
    program.insn(mov(ECX, 10))?;
    program.label("digit")?;
    program.insn(mov(EDX, 0))?;
    program.insn(div(ECX))?;
    program.insn(add_byte(DL, DIGIT))?;
    program.insn(dec(EDI))?;
    program.insn(store_at_edi(DL))?;
    program.insn(test_eax())?;
    program.jump(Row::JccRel8(NOT_ZERO), "digit")?;
    Ok(())
}

/// The end of the program: prints a line for each of so many children, and ends.
#[tactic(auto, unfolding(crate::specs::Code::with_items))]
fn told(program: &mut Builder, children: u8) -> Result<(), NoMemory>
    ensures { IfOk result (λ _. program.new ≡ with_items program.old (told children)) }
{
    program.insn(store_byte(NEWLINE_AT, NEWLINE))?;
    program.insn(mov(EBP, children as u32))?;
    program.insn(mov(EBX, LETTER as u32))?;
    program.insn(mov(ESI, COUNTS + 4 * LETTER as u32))?;
    program.label("line")?;
    program.insn(lodsd())?;
    program.insn(mov(EDI, NEWLINE_AT))?;
    spelled(program)?;
    program.insn(mov_byte(DL, SPACE))?;
    program.insn(dec(EDI))?;
    program.insn(store_at_edi(DL))?;
    program.insn(dec(EDI))?;
    program.insn(store_at_edi(BL))?;
    program.insn(mov_register(EDX, EDI))?;
    program.insn(mov(ECX, NEWLINE_AT + 1))?;
    program.insn(sub_register(ECX, EDI))?;
    service(program, SERVICE_CPUTS)?;
    program.insn(inc(EBX))?;
    program.insn(dec(EBP))?;
    program.jump(Row::JccRel8(NOT_ZERO), "line")?;
    service(program, SERVICE_EXIT)?;
    Ok(())
}

/// The program that has so much to do.
#[tactic(auto, unfolding(crate::specs::Code::with_items, crate::specs::Workloads::work_program))]
fn work_program(alloc: Global, workload: Workload) -> Result<Builder, NoMemory>
    ensures { IfOk result (λ program. program ≡ work_program workload) }
{
    let mut program = made(alloc)?;
    forked(&mut program, workload.children)?;
    filled(&mut program, workload.bytes)?;
    written(&mut program, workload.bytes)?;
    counted(&mut program)?;
    waited(&mut program, workload.children)?;
    told(&mut program, workload.children)?;
    Ok(program)
}

/// The file of the program that has so much to do.
///
/// It makes a pipe and its children, of which each writes its letter into the pipe, the first `a`. It reads until nobody
/// writes any more, waits for the children in order, and prints how often it has read each letter, a line for each child.
#[tactic(auto, unfolding(crate::specs::Workloads::work_file))]
pub fn work(alloc: Global, workload: Workload) -> Result<Vec<u8>, NoMemory>
    requires { IsWorkload workload }
    ensures { IfOk result (λ file. file.items ≡ work_file workload) }
{
    let program = work_program(alloc, workload)?;
    let code = assemble(program)?;
    image(alloc, &code)
}
