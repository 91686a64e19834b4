//! What a line gives in hexadecimal digits, registers among it, and words that stand behind bars.

use jos_base::Regs;
use std::alloc::{AllocError, Global};

/// The first twelve numbers that are given in hexadecimal digits; 0 where there are fewer.
pub fn twelve_numbers(given: &str) -> [u32; 12] {
    let mut numbers = [0; 12];
    for (to, digits) in numbers.iter_mut().zip(given.split_whitespace()) {
        *to = u32::from_str_radix(digits, 16).unwrap_or(0);
    }
    numbers
}

/// The registers that such numbers give: EAX, ECX, EDX, EBX, ESP, EBP, ESI, EDI, EIP and EFLAGS.
pub fn given_registers(given: &str) -> Regs {
    let [eax, ecx, edx, ebx, esp, ebp, esi, edi, eip, eflags, _, _] = twelve_numbers(given);
    Regs {
        eax,
        ecx,
        edx,
        ebx,
        esp,
        ebp,
        esi,
        edi,
        eip,
        eflags,
    }
}

/// Registers as words, in the same order.
pub fn register_words(registers: &Regs) -> [u32; 10] {
    [
        registers.eax,
        registers.ecx,
        registers.edx,
        registers.ebx,
        registers.esp,
        registers.ebp,
        registers.esi,
        registers.edi,
        registers.eip,
        registers.eflags,
    ]
}

/// The words of a program, each of which stands behind a bar.
pub fn program_words(alloc: Global, given: &str) -> Result<Vec<&str>, AllocError> {
    let mut words = Vec::new(alloc);
    for word in given.split('|').skip(1) {
        words.push(word)?;
    }
    Ok(words)
}
