//! The builder.

ghost use Rattle.std.specs.Prelude.{◌≡◌, ◌<◌, ◌≤◌, ◌⊎◌, [], Ok, IsTrue, IfOk, IfErr, OnErr, IsOkAnd, length};
ghost use Rattle.std.specs.Result.{result_err};
ghost use Rattle.jos_isa.specs.Lawful.{is_lawful};
ghost use Rattle.jos_asm.specs.Items.{is_item, is_relative};
ghost use Rattle.jos_asm.specs.Program.{finished};
ghost use Rattle.jos_asm.specs.Laid.{AreLaid};
ghost use Rattle.jos_asm.specs.Calls.{Adds, IsFault, IsFull, IsName};

use crate::fault::AsmFault;
use crate::finishing::finish;
use crate::item::{ByteRun, Item};
use crate::limits::{BLOCK, CODE_MAX};
use crate::name::Name;
use jos_base::NoMemory;
use jos_isa::{Insn, Row};
use std::alloc::Global;
use std::marker::Model;

/// A program that is being built, item by item. Memory for items is asked for `BLOCK` at a time.
#[derive(Drop)]
pub struct Builder {
    alloc: Global,
    base: u32,
    items: Vec<Item>,
}

impl Model for Builder {
    ghost use Rattle.std.specs.Prelude.{◌≤◌, IsTrue, All, vec_len, vec_capacity};
    ghost use Rattle.jos_asm.specs.Items.{is_item, room_of_blocks};
    ghost use Rattle.jos_asm.specs.Program.{Program};

    ghost Value = { Program };

    ghost view = { λ b. record { base = b.base; items = b.items.items } };

    ghost invariant = { λ b. All (λ i. IsTrue (is_item i)) b.items.items
        × (room_of_blocks (vec_len b.items) ≤ vec_capacity b.items) };
}

impl Builder {
    /// A program without items, whose first byte is to be at this address. It takes no memory.
    pub fn new(alloc: Global, base: u32) -> Builder
        ensures { result ≡ record { base = base; items = [] } }
    {
        Builder {
            alloc,
            base,
            items: Vec::new(alloc),
        }
    }

    /// Adds an item. Where each block is full it asks for another one first, so that a refusal changes nothing.
    fn add(&mut self, item: Item) -> Result<(), NoMemory>
        requires { IsTrue (is_item item) }
        ensures added { Adds self.old item result self.new }
        ensures memory { OnErr result (IsFull self.old) }
    {
        if self.items.len() % BLOCK == 0 {
            self.items.reserve(BLOCK)?;
        }
        self.items.push(item)?;
        Ok(())
    }

    /// Gives the place of the next item a name of 1 to `NAME_MAX` ASCII bytes. It takes memory only where each block of
    /// items is full.
    pub fn label(&mut self, name: &str) -> Result<(), NoMemory>
        requires { IsName name.now }
        ensures added { Adds self.old (Item.Label name.now) result self.new }
        ensures memory { OnErr result (IsFull self.old) }
    {
        self.add(Item::Label(Name::new(name)))
    }

    /// Adds a lawful instruction. It takes memory only where each block of items is full.
    pub fn insn(&mut self, insn: Insn) -> Result<(), NoMemory>
        requires { IsTrue (is_lawful insn) }
        ensures added { Adds self.old (Item.Insn insn) result self.new }
        ensures memory { OnErr result (IsFull self.old) }
    {
        self.add(Item::Insn(insn))
    }

    /// Adds a relative jump or call to the label of this name, which may stand before it or behind it. It takes
    /// memory only where each block of items is full.
    pub fn jump(&mut self, row: Row, name: &str) -> Result<(), NoMemory>
        requires row { IsTrue (is_relative row) }
        requires name { IsName name.now }
        ensures added { Adds self.old (Item.Jump row name.now) result self.new }
        ensures memory { OnErr result (IsFull self.old) }
    {
        self.add(Item::Jump(row, Name::new(name)))
    }

    /// Adds a move of the address of the label of this name into a register, 0 to 7. It takes memory only where
    /// each block of items is full.
    pub fn address(&mut self, reg: u8, name: &str) -> Result<(), NoMemory>
        requires reg { reg < 8 }
        requires name { IsName name.now }
        ensures added { Adds self.old (Item.Address reg name.now) result self.new }
        ensures memory { OnErr result (IsFull self.old) }
    {
        self.add(Item::Address(reg, Name::new(name)))
    }

    /// Adds bytes as they are. It takes memory for them, if there are any, and where each block of items is full.
    pub fn bytes(&mut self, bytes: &[u8]) -> Result<(), NoMemory>
        ensures added { Adds self.old (Item.Bytes bytes.now) result self.new }
        ensures memory { OnErr result (IsFull self.old ⊎ (0 < length bytes.now)) }
    {
        let mut copy = Vec::new(self.alloc);
        copy.extend_from_slice(bytes)?;
        self.add(Item::Bytes(ByteRun::new(copy)))
    }

    /// The bytes of the program, each label's distance or address in its place, or the first fault that it has.
    /// Want of memory is told only where there is no other fault, and where there are bytes.
    pub fn finish(self) -> Result<Vec<u8>, AsmFault>
        ensures exact { IfOk result (λ code. finished self ≡ Ok code.items) }
        // Each item stands at its place.
        ensures laid { IfOk result (λ code. AreLaid self code.items) }
        ensures small { IfOk result (λ code. length code.items ≤ CODE_MAX) }
        ensures fault { IfErr result (λ fault. IsFault fault (result_err (finished self))) }
        ensures memory { IfErr result (λ fault. fault ≡ AsmFault.NoMemory → IsOkAnd (finished self) (λ code. 0 < length code)) }
    {
        finish(self.alloc, self.base, &self.items)
    }
}
