//! Cases of jos_cpu.

use crate::memory::{LEN, TestMemory};
use case_words::Words;
use jos_base::{Regs, UTEXT};
use jos_cpu::{Decodings, Event, Gates, make_burst, step};
use std::alloc::{AllocError, Global};
use std::io;

/// Where the memory begins.
const BASE: u32 = UTEXT;

/// EAX to EDI and EFLAGS; EIP is where the memory begins.
fn read_regs(words: &mut Words) -> Regs {
    Regs {
        eax: words.number(),
        ecx: words.number(),
        edx: words.number(),
        ebx: words.number(),
        esp: words.number(),
        ebp: words.number(),
        esi: words.number(),
        edi: words.number(),
        eip: BASE,
        eflags: words.number(),
    }
}

/// The code at the base, and from byte 12 on bytes that go up by 37.
fn memory_of(code: &[u8]) -> TestMemory {
    let mut bytes = [0; LEN];
    let mut byte = 11u8;
    for k in 0..LEN {
        bytes[k] = if k < 12 { 0 } else { byte };
        byte = byte.wrapping_add(37);
    }
    for (to, byte) in bytes.iter_mut().zip(code) {
        *to = *byte;
    }
    TestMemory {
        base: BASE,
        locked: 16,
        standing: false,
        touched: 0,
        bytes,
    }
}

/// Code that is run from the base up to its end or for so many steps.
#[derive(Clone, Copy)]
struct TestMachine {
    end: u32,
    most: u32,
    regs: Regs,
    memory: TestMemory,
}

/// Runs it step by step with no memory at hand, or in bursts of one step with all memory at hand. There is nothing where
/// a step is not simply done.
fn run(decodings: &mut Decodings, from: &TestMachine, standing: bool) -> Option<TestMachine> {
    let mut to = *from;
    to.memory.standing = standing;
    for _ in 0..from.most {
        if to.regs.eip != from.end {
            let event = if standing {
                make_burst(decodings, &mut to.regs, &mut to.memory, Gates::Exo, 1).event
            } else {
                step(&mut to.regs, &mut to.memory, Gates::Exo)
            };
            if event != Event::Next {
                return None;
            }
        }
    }
    Some(to)
}

/// Whether two runs came to the same registers and bytes.
fn are_same(a: &Option<TestMachine>, b: &Option<TestMachine>) -> bool {
    match (a, b) {
        (Some(a), Some(b)) => {
            a.regs == b.regs && a.memory.bytes.as_slice() == b.memory.bytes.as_slice()
        }
        _ => false,
    }
}

/// The bytes as one number.
fn sum_of(bytes: &[u8; LEN]) -> u32 {
    let mut sum = 0u32;
    for byte in bytes {
        sum = sum.wrapping_mul(31).wrapping_add(*byte as u32);
    }
    sum
}

/// Registers as they are read, of EFLAGS these alone, and EIP.
fn tell_regs(out: &mut String, regs: &Regs, mask: u32) -> Result<(), AllocError> {
    write!(
        out,
        "{:08x} {:08x} {:08x} {:08x} {:08x} {:08x} {:08x} {:08x} {:03x} {:08x}",
        regs.eax,
        regs.ecx,
        regs.edx,
        regs.ebx,
        regs.esp,
        regs.ebp,
        regs.esi,
        regs.edi,
        regs.eflags & mask,
        regs.eip
    )
}

/// What code comes to, in each way: step by step, and in bursts, first with nothing decoded and then with what was
/// decoded before.
fn tell_run(
    decodings: &mut Decodings,
    out: &mut String,
    from: &TestMachine,
    mask: u32,
) -> Result<(), AllocError> {
    let plain = run(decodings, from, false);
    let first = run(decodings, from, true);
    let again = run(decodings, from, true);
    if !(are_same(&plain, &first) && are_same(&plain, &again)) {
        return out.push_str("not the same in each way");
    }
    if let Some(to) = plain {
        tell_regs(out, &to.regs, mask)?;
        write!(out, " {:08x}", sum_of(&to.memory.bytes))?;
    }
    Ok(())
}

/// How many steps code makes, by itself step by step and in one burst.
fn tell_burst(
    decodings: &mut Decodings,
    out: &mut String,
    from: &TestMachine,
) -> Result<(), AllocError> {
    let mut plain = *from;
    let mut event = Event::Next;
    let mut steps = 0u32;
    for _ in 0..from.most {
        if event == Event::Next {
            event = step(&mut plain.regs, &mut plain.memory, Gates::Exo);
            steps = steps.wrapping_add(1);
        }
    }
    let mut quick = *from;
    quick.memory.standing = true;
    let burst = make_burst(
        decodings,
        &mut quick.regs,
        &mut quick.memory,
        Gates::Exo,
        from.most.max(1),
    );
    if burst.steps == steps && burst.event == event && are_same(&Some(plain), &Some(quick)) {
        write!(out, "{steps:x}")
    } else {
        out.push_str("not the same in a burst")
    }
}

/// What comes of one step, how many bytes it reached, and whether it left the registers as they were where it raised a
/// trap.
fn tell_event(out: &mut String, gates: Gates, from: &TestMachine) -> Result<(), AllocError> {
    let mut to = *from;
    match step(&mut to.regs, &mut to.memory, gates) {
        Event::Next => out.push_str("next")?,
        Event::Soft(vector) => write!(out, "soft {vector:x}")?,
        Event::Raised { trap, error, va } => {
            write!(out, "trap {trap:x} error {error:x} at {va:x}")?;
            if to.regs != from.regs {
                out.push_str(" with other registers")?;
            }
        }
    }
    write!(out, " reached {:x}", to.memory.touched)
}

pub fn answer(
    alloc: Global,
    decodings: &mut Decodings,
    out: &mut String,
    mut words: Words,
) -> io::Result<()> {
    let kind = words.word();
    let code = words.bytes(alloc)?;
    let mut from = TestMachine {
        end: 0,
        most: 0,
        regs: read_regs(&mut words),
        memory: memory_of(&code),
    };
    match kind {
        "run" => {
            let mask = words.number();
            from.end = BASE.wrapping_add(words.number());
            from.most = words.number();
            tell_run(decodings, out, &from, mask)?;
        }
        "burst" => {
            from.regs.eip = BASE.wrapping_add(words.number());
            from.most = words.number();
            from.memory.locked = 0;
            // the last bytes are code too
            for (to, byte) in from.memory.bytes[124..]
                .iter_mut()
                .zip(&words.bytes(alloc)?)
            {
                *to = *byte;
            }
            tell_burst(decodings, out, &from)?;
        }
        "under-exo" => tell_event(out, Gates::Exo, &from)?,
        "under-run" => tell_event(out, Gates::Run, &from)?,
        _ => out.push_str("no case")?,
    }
    Ok(())
}
