//! The console's input.

ghost use Rattle.std.specs.Prelude.{◌≡◌};
ghost use Rattle.jos_sys.specs.System.{left_of, IsTaken};

use jos_base::END_OF_INPUT;

/// The bytes that the console has to give, in order.
#[derive(Drop)]
pub struct Input {
    bytes: Vec<u8>,
    /// How many of them were given.
    taken: usize,
}

impl Input {
    /// The console's input, of which nothing is given yet.
    pub fn new(bytes: Vec<u8>) -> Input
        ensures { left_of result ≡ bytes.items }
    {
        Input { bytes, taken: 0 }
    }

    /// The next byte, or `END_OF_INPUT` for ever where there is none.
    pub(crate) fn take(&mut self) -> u32
        ensures { IsTaken (left_of self.old) result (left_of self.new) }
    {
        if self.taken < self.bytes.len() {
            let byte = self.bytes[self.taken];
            self.taken += 1;
            byte as u32
        } else {
            END_OF_INPUT
        }
    }
}
