//! What a service asks, or the handler of page faults, and what it does next.

use lib_os::{HandlerStep, Step};

/// What a service asks of the kernel at a stage. Each is one call.
#[derive(Clone, Copy, Debug, PartialEq, Eq)]
pub enum Ask {
    /// The system call with a number, given these words.
    System { number: u32, args: [u32; 5] },
    /// The system call exofork, given the words that stand in the environment's registers, so that the child has those.
    Exofork,
    /// The word at an address that is a multiple of four.
    Load { va: u32 },
    /// The byte at an address.
    LoadByte { va: u32 },
    /// Puts a word at an address that is a multiple of four.
    Store { va: u32, word: u32 },
    /// Puts a byte at an address.
    StoreByte { va: u32, byte: u8 },
    /// Puts a word at an address that is a multiple of four, and gives the one that stood there.
    Exchange { va: u32, word: u32 },
    /// Takes the registers back from the frame of a page fault that stands at ESP.
    RestoreFrame,
    /// An access to a byte as at the program's instruction at `ip`, where the environment stands then: the byte is loaded, or,
    /// for a write, 0 is put there.
    Touch { ip: u32, va: u32, write: bool },
}

/// What a service does by the reply.
#[derive(Clone, Copy, Debug)]
pub enum Next {
    /// It is over, and answers with a word.
    Answer(u32),
    /// It is over, and answers with four.
    Answers {
        eax: u32,
        edx: u32,
        ecx: u32,
        ebx: u32,
    },
    /// It is over, and answers 0 with the descriptors of a pipe's ends.
    AnswersEnds {
        reading: u32,
        writing: u32,
    },
    /// Nothing that anybody sees: it goes on at a step.
    GoOn(Step),
    /// Nothing that anybody sees: it is over, with the word that its last seen step has answered.
    GoBack(u32),
    /// It has made a step of the abstract system, and goes on at a step.
    Show(Step),
    /// Nothing that anybody sees: it waits for another environment, and gives up its turn by its next step.
    Wait(Step),
    /// Nothing that anybody sees: the handler of page faults goes on at a step.
    Handle(HandlerStep),
    /// Nothing that anybody sees: the handler of page faults is over, and the call has set the registers with which the program
    /// goes on.
    Leave,
    /// It has made a step of the abstract system, and the environment is gone.
    Gone,
}
