//! The instructions of the modelled 80386: which bytes spell which instruction, and how they are read.
//!
//! `specs/OpcodeMap.antt` is the manual's opcode map, and `specs/Spelling.antt` says which bytes spell an
//! instruction. `decode` answers exactly by them; `specs/Decoding.antt` has its answer part by part. `lawful` says
//! which instructions have a spelling (`specs/Lawful.antt`), `encode` writes one (`specs/Encoding.antt`; the opcode
//! of each row is in `specs/RowOpcodes.antt`), and `least_length` says how many bytes are surely needed
//! (`specs/Lengths.antt`). `mov` makes an instruction (`specs/Moves.antt`). `specs/ClauseWords.antt` has the words
//! that their clauses use beside these. What an instruction does is left to others.
#![tactic(auto)]

mod behind_opcode;
mod decoder;
mod encoder;
mod instruction;
mod lawfulness;
mod lengths;
mod moves;
mod opcode_map;
mod row_opcodes;

pub use decoder::{Decoded, decode, no_spelling_begins_another};
pub use encoder::encode;
pub use instruction::{Disp, Insn, MemArg, Operand, Repeat, Row};
pub use lawfulness::lawful;
pub use lengths::{LONGEST, least_length};
pub use moves::mov;
