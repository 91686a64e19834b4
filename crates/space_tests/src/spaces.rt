//! Frames, and one address space.

ghost use Rattle.std.specs.Prelude.{◌≡◌, ◌+◌, ◌<◌, ◌%◌, true, IfSome, bit_and};
ghost use Rattle.jos_base.specs.declared.numbers.TheConstants.{PGSIZE, PTE_P, PTE_U, PTE_SYSCALL, UTOP};
ghost use Rattle.jos_base.specs.SpacesState.{directory};
ghost use Rattle.jos_space.specs.Calls.{KeepsDirectories};
ghost use Rattle.jos_space.specs.Frames.{state};

use anyhow::{Context, bail};
use jos_base::{Access, ENV_WORDS, FRAMES_MIN, Frame, NENV, PGSIZE, Perm, UTOP};
use jos_space::{Space, Spaces};
use std::alloc::Global;
use std::marker::Model;
use test_cases::{Bench, READ, Shown, WRITE, given, numbers};

/// Frames, and a space of them until it is destroyed.
#[derive(Drop)]
pub(crate) struct SpaceBench {
    spaces: Spaces,
    space: Option<Space>,
}

impl Model for SpaceBench {
    ghost Value = { Unit {0} };

    ghost view = { λ bench. tt };

    ghost invariant = { λ bench. IfSome bench.space (λ space. (state bench.spaces).uses space.directory.0 ≡ directory) };
}

/// The bits of a page that a user may write, or else of one that it may read.
fn perm_of(bits: u32) -> Perm
    ensures user { bit_and result.0 (PTE_P + PTE_U) ≡ PTE_P + PTE_U }
    ensures perm { bit_and result.0 PTE_SYSCALL ≡ result.0 }
{
    if bits == WRITE {
        Perm(WRITE)
    } else {
        Perm(READ)
    }
}

/// Whether a page may stand at an address.
fn is_place(va: u32) -> bool
    ensures begin { result ≡ true → va % PGSIZE ≡ 0 }
    ensures below { result ≡ true → va < UTOP }
{
    va % PGSIZE == 0 && va < UTOP
}

/// Takes so many frames, and tells the last of them.
fn take(spaces: &mut Spaces, frames: u32) -> Option<Frame>
    ensures { KeepsDirectories (state spaces.old) (state spaces.new) }
{
    let mut last = None;
    for _ in 0..frames {
        last = spaces.fresh();
    }
    last
}

/// A new page at an address, in which bytes lie from an offset on, and whether it stands there. None where no frame is
/// free.
fn put_page(
    spaces: &mut Spaces,
    space: Space,
    numbers: &[u32],
    bytes: &[u8],
) -> Option<(Frame, bool)>
    requires { (state spaces.old).uses space.directory.0 ≡ directory }
    ensures { (state spaces.new).uses space.directory.0 ≡ directory }
{
    let va = given(numbers, 0);
    let frame = spaces.fresh()?;
    let offset = given(numbers, 2);
    if offset as usize + bytes.len() <= PGSIZE as usize {
        spaces.fill(frame, offset, bytes);
    }
    if !is_place(va) {
        return Some((frame, false));
    }
    let put = spaces.insert(space, va, frame, perm_of(given(numbers, 1)));
    Some((frame, put.is_ok()))
}

/// What is told of a page that was put.
fn page_told(alloc: Global, put: Option<(Frame, bool)>) -> anyhow::Result<Shown> {
    match put {
        Some((frame, true)) => Ok(Shown::Count(frame.0 as u64)),
        Some((frame, false)) => Ok(Shown::Text(format!(in alloc; "no place for {}", frame.0)?)),
        None => Ok(Shown::Nothing),
    }
}

/// Puts the page at an address at another, too. None where there is no page.
fn share(spaces: &mut Spaces, space: Space, numbers: &[u32]) -> Option<bool>
    requires { (state spaces.old).uses space.directory.0 ≡ directory }
    ensures { (state spaces.new).uses space.directory.0 ≡ directory }
{
    let (frame, _) = spaces.look(space, given(numbers, 0))?;
    let va = given(numbers, 1);
    if !is_place(va) {
        return None;
    }
    Some(
        spaces
            .insert(space, va, frame, perm_of(given(numbers, 2)))
            .is_ok(),
    )
}

/// The word that a user reads at an address.
fn word_read(spaces: &Spaces, space: Space, va: u32) -> u32
    requires { (state spaces.now).uses space.directory.0 ≡ directory }
{
    u32::from_le_bytes([
        spaces.byte_at(space, va),
        spaces.byte_at(space, va.wrapping_add(1)),
        spaces.byte_at(space, va.wrapping_add(2)),
        spaces.byte_at(space, va.wrapping_add(3)),
    ])
}

/// What is told of a frame and of a number beside it.
fn frame_told(alloc: Global, frame: Frame, what: &str, number: u32) -> anyhow::Result<Shown> {
    Ok(Shown::Text(format!(in alloc; "frame {}, {what} {number:#x}", frame.0)?))
}

/// Where an access leads, or its fault.
fn access(
    spaces: &mut Spaces,
    space: Space,
    alloc: Global,
    va: u32,
    access: Access,
) -> anyhow::Result<Shown>
    requires { (state spaces.old).uses space.directory.0 ≡ directory }
    ensures { (state spaces.new).uses space.directory.0 ≡ directory }
{
    match spaces.access(space, va, access) {
        Ok(location) => frame_told(alloc, location.frame, "offset", location.offset),
        Err(fault) => {
            let text = format!(in alloc; "fault at {:#x}, error {}", fault.va, fault.error)?;
            Ok(Shown::Text(text))
        }
    }
}

/// The bytes that are read from an address on by the page at hand of another address.
fn bytes_by(spaces: &Spaces, space: Space, alloc: Global, numbers: &[u32]) -> anyhow::Result<Shown>
    requires { (state spaces.now).uses space.directory.0 ≡ directory }
{
    match spaces.page_at_hand(space, given(numbers, 0)) {
        None => Ok(Shown::Nothing),
        Some(page) => {
            let bytes = spaces.bytes_by(page, given(numbers, 1));
            Ok(Shown::Text(format!(in alloc; "frame {}, {bytes:?}", page.frame.0)?))
        }
    }
}

/// What comes of a case that reads memory, and of one that no other function has.
fn tell_reads(
    spaces: &Spaces,
    space: Space,
    alloc: Global,
    what: &str,
    numbers: &[u32],
) -> anyhow::Result<Shown>
    requires { (state spaces.now).uses space.directory.0 ≡ directory }
{
    let va = given(numbers, 0);
    match what {
        "directory" => Ok(Shown::Count(space.directory.0 as u64)),
        "look" => match spaces.look(space, va) {
            Some((frame, perm)) => frame_told(alloc, frame, "bits", perm.0),
            None => Ok(Shown::Nothing),
        },
        "word" => Ok(Shown::Word(word_read(spaces, space, va))),
        "byte" => Ok(Shown::Count(spaces.byte_at(space, va) as u64)),
        "byte_or_fault" => Ok(Shown::Text(format!(in alloc; "{:?}", spaces.read(space, va))?)),
        "bytes" => Ok(Shown::Text(format!(in alloc; "{:?}", spaces.user_bytes(space, va))?)),
        "bytes_by" => bytes_by(spaces, space, alloc, numbers),
        _ => bail!("{what} is no case of spaces"),
    }
}

/// What comes of a case that writes memory, or else only reads it.
fn tell_writes(
    spaces: &mut Spaces,
    space: Space,
    alloc: Global,
    what: &str,
    numbers: &[u32],
) -> anyhow::Result<Shown>
    requires { (state spaces.old).uses space.directory.0 ≡ directory }
    ensures { (state spaces.new).uses space.directory.0 ≡ directory }
{
    let va = given(numbers, 0);
    let number = given(numbers, 1);
    match what {
        "reads" => access(spaces, space, alloc, va, Access::Read),
        "writes" => access(spaces, space, alloc, va, Access::Write),
        "put_byte" => Ok(Shown::Is(spaces.put_byte(space, va, (number % 256) as u8))),
        "put_word" => Ok(Shown::Is(spaces.put_word(space, va, number))),
        _ => tell_reads(spaces, space, alloc, what, numbers),
    }
}

/// What comes of a case that gives or takes pages, or else does not.
fn tell_pages(
    spaces: &mut Spaces,
    space: Space,
    alloc: Global,
    what: &str,
    numbers: &[u32],
) -> anyhow::Result<Shown>
    requires { (state spaces.old).uses space.directory.0 ≡ directory }
    ensures { (state spaces.new).uses space.directory.0 ≡ directory }
{
    match what {
        "page" => page_told(alloc, put_page(spaces, space, numbers, &[])),
        "page_of_six" => page_told(alloc, put_page(spaces, space, numbers, &[1, 2, 3, 4, 5, 6])),
        "share" => Ok(Shown::is(share(spaces, space, numbers))),
        "remove" => {
            let va = given(numbers, 0);
            if is_place(va) {
                spaces.remove(space, va);
            }
            Ok(Shown::Nothing)
        }
        _ => tell_writes(spaces, space, alloc, what, numbers),
    }
}

/// Sets a word of a slot's record, or all of them.
fn set_record(spaces: &mut Spaces, numbers: &[u32], all: bool)
    ensures { KeepsDirectories (state spaces.old) (state spaces.new) }
{
    let slot = given(numbers, 0) as usize;
    let index = given(numbers, 1) as usize;
    let word = given(numbers, 2);
    if slot < NENV as usize && index < ENV_WORDS {
        if all {
            spaces.set_env_record(slot, [word; ENV_WORDS]);
        } else {
            spaces.set_env_word(slot, index, word);
        }
    }
}

impl SpaceBench {
    /// 64 frames, and a space.
    fn new(alloc: Global) -> anyhow::Result<SpaceBench> {
        let mut spaces = Spaces::new(alloc, FRAMES_MIN).ok().context("no memory")?;
        match spaces.create() {
            Some(space) => Ok(SpaceBench {
                spaces,
                space: Some(space),
            }),
            None => bail!("no frame"),
        }
    }

    /// What comes of a case over the space.
    fn answer_space(
        &mut self,
        alloc: Global,
        what: &str,
        numbers: &[u32],
    ) -> anyhow::Result<Shown> {
        match self.space {
            Some(space) => tell_pages(&mut self.spaces, space, alloc, what, numbers),
            None => Ok(Shown::Nothing),
        }
    }

    /// Destroys the space.
    fn destroy(&mut self) {
        if let Some(space) = self.space {
            self.space = None;
            self.spaces.destroy(space);
        }
    }
}

impl Bench for SpaceBench {
    fn of(alloc: Global, line: &str) -> anyhow::Result<SpaceBench> {
        match line {
            "spaces" => SpaceBench::new(alloc),
            _ => bail!("{line} is not tried"),
        }
    }

    fn answer(&mut self, alloc: Global, what: &str, words: &str) -> anyhow::Result<Shown> {
        let numbers = numbers(alloc, words)?;
        let first = given(&numbers, 0);
        match what {
            "take" => Ok(Shown::count(take(&mut self.spaces, first).map(|frame| frame.0 as u64))),
            "create" => Ok(Shown::count(
                self.spaces.create().map(|space| space.directory.0 as u64),
            )),
            "count" => Ok(Shown::Count(self.spaces.count(Frame(first)))),
            "set_word" => {
                set_record(&mut self.spaces, &numbers, false);
                Ok(Shown::Nothing)
            }
            "set_words" => {
                set_record(&mut self.spaces, &numbers, true);
                Ok(Shown::Nothing)
            }
            "destroy" => {
                self.destroy();
                Ok(Shown::Nothing)
            }
            _ => self.answer_space(alloc, what, &numbers),
        }
    }
}
