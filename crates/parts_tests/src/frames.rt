//! Where trap frames stand, and what stands in them.

use jos_base::{PageFault, Regs};
use jos_trap::{
    RECORD_SIZE, UpcallPlace, frame_bytes, frame_words, from_frame, from_record, upcall_place,
    words_of_record,
};
use std::alloc::Global;
use test_cases::{Shown, given, numbers};

/// Registers that differ from each other.
fn registers(esp: u32) -> Regs {
    Regs {
        eax: 0x11,
        ecx: 0x22,
        edx: 0x33,
        ebx: 0x44,
        esp,
        ebp: 0x66,
        esi: 0x77,
        edi: 0x88,
        eip: 0x0080_0020,
        eflags: 0x202,
    }
}

/// A record's bytes, of which numbers give the place and the value of those that are not 0.
fn record(numbers: &[u32]) -> [u8; RECORD_SIZE] {
    let mut bytes = [0; RECORD_SIZE];
    for pair in numbers.chunks_exact(2) {
        let place = given(pair, 0) as usize;
        if place < RECORD_SIZE {
            bytes[place] = (given(pair, 1) % 256) as u8;
        }
    }
    bytes
}

/// What comes of a case. Of a fault its address, its error and ESP are given.
pub(crate) fn tell_frames(alloc: Global, what: &str, words: &str) -> anyhow::Result<Shown> {
    let numbers = numbers(alloc, words)?;
    let fault = PageFault {
        va: given(&numbers, 0),
        error: given(&numbers, 1),
    };
    let registers = registers(given(&numbers, 2));
    let frame = frame_words(fault, &registers);
    let record = words_of_record(&record(&numbers));
    match what {
        "upcall_place" => Ok(match upcall_place(fault.va) {
            UpcallPlace::At(place) => Shown::Word(place),
            UpcallPlace::Overflow => Shown::Nothing,
        }),
        "frame_words" => Ok(Shown::words(alloc, &frame)?),
        "from_frame" => Ok(Shown::registers(alloc, &from_frame(&frame))?),
        "frame_bytes" => {
            let bytes = frame_bytes(fault, &registers);
            let mut shown = Vec::new(alloc);
            for byte in bytes[0..6].iter().chain(&bytes[48..52]) {
                shown.push(*byte as u32)?;
            }
            Ok(Shown::Words(shown))
        }
        "record_words" => Ok(Shown::words(alloc, &record)?),
        "from_record" => {
            let registers = from_record(&record);
            let told = [registers.eflags, registers.esp, registers.eip];
            Ok(Shown::words(alloc, &told)?)
        }
        _ => anyhow::bail!("{what} is no case of frames"),
    }
}
