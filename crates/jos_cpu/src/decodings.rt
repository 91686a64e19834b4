//! What bytes were found to spell, kept so that they need not be read again.

ghost use Rattle.std.specs.Prelude.{◌≡◌, ◌++◌, take, IfSome, vec_len};
ghost use Rattle.std.specs.Int.{w64, to_le_bytes};
ghost use Rattle.jos_isa.specs.declared.decoder.Decoded.TheVariants.{Found};
ghost use Rattle.jos_isa.specs.Decoding.{decoded};
ghost use Rattle.jos_cpu.specs.Forms.{form_of};

use crate::forms::{Form, form_of};
use jos_isa::{Decoded, Disp, Insn, MemArg, Operand, Repeat, Row, decode};
use std::alloc::{AllocError, Global};

/// How many decodings are kept.
const KEPT: usize = 1024;

/// The instruction that 16 bytes begin with, and its length.
#[derive(Clone, Copy)]
pub(crate) struct Decoding {
    front: u64,
    back: u64,
    pub(crate) insn: Insn,
    pub(crate) form: Form,
    pub(crate) len: u32,
    ghost form_is: { form ≡ form_of insn.row },
    ghost right: { decoded (to_le_bytes w64 front ++ to_le_bytes w64 back) ≡ Found insn len },
}

/// Decodings, each by the address at which the bytes were last seen.
#[derive(Drop)]
pub struct Decodings {
    kept: Vec<Decoding>,
    ghost full: { vec_len kept ≡ 1024 },
}

impl Decodings {
    /// Room for 1,024 decodings, which takes 64 KiB of memory. At first each is that of zeros.
    pub fn new(alloc: Global) -> Result<Decodings, AllocError> {
        let row = Row::AluRm8R8(0);
        let zeros = Decoding {
            front: 0,
            back: 0,
            insn: Insn {
                row,
                repeat: Repeat::Once,
                operand: Operand::Mem(MemArg {
                    base: Some(0),
                    index: None,
                    scale: 0,
                    disp: Disp::Zero,
                }),
                reg: 0,
                imm: 0,
            },
            form: form_of(row),
            len: 2,
        };
        let kept = vec![in alloc; zeros; KEPT]?;
        Ok(Decodings { kept })
    }

    /// What the first 16 bytes begin with, where it is kept.
    #[inline(always)]
    pub(crate) fn find(&self, ip: u32, bytes: &[u8]) -> Option<&Decoding>
        ensures right { IfSome result (λ d. decoded (take 16 bytes.now) ≡ Found d.now.insn d.now.len) }
        ensures form { IfSome result (λ d. d.now.form ≡ form_of d.now.insn.row) }
    {
        match bytes {
            [a, b, c, d, e, f, g, h, i, j, k, l, m, n, o, p, ..] => {
                let front = u64::from_le_bytes([*a, *b, *c, *d, *e, *f, *g, *h]);
                let back = u64::from_le_bytes([*i, *j, *k, *l, *m, *n, *o, *p]);
                let decoding = &self.kept[ip as usize % KEPT];
                if decoding.front == front && decoding.back == back {
                    Some(decoding)
                } else {
                    None
                }
            }
            _ => None,
        }
    }

    /// Keeps what the first 16 bytes begin with.
    #[cold]
    #[inline(never)]
    pub(crate) fn learn(&mut self, ip: u32, bytes: &[u8]) {
        match bytes {
            [a, b, c, d, e, f, g, h, i, j, k, l, m, n, o, p, ..] => {
                let front = u64::from_le_bytes([*a, *b, *c, *d, *e, *f, *g, *h]);
                let back = u64::from_le_bytes([*i, *j, *k, *l, *m, *n, *o, *p]);
                match decode(&[
                    *a, *b, *c, *d, *e, *f, *g, *h, *i, *j, *k, *l, *m, *n, *o, *p,
                ]) {
                    Decoded::Found(insn, len) => {
                        let known = Decoding {
                            front,
                            back,
                            insn,
                            form: form_of(insn.row),
                            len: len as u32,
                        };
                        self.kept[ip as usize % KEPT] = known;
                    }
                    Decoded::Short | Decoded::Illegal => {}
                }
            }
            _ => {}
        }
    }
}
