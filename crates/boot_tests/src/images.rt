//! Images that are booted, each in a system of 64 frames, of which the first 20 are reserved.

ghost use Rattle.std.specs.Prelude.{◌^◌, ◌<◌, length, IfOk};
ghost use Rattle.jos_sys.specs.System.{Keeps};

use anyhow::{Context, bail, ensure};
use jos_base::{Access, FRAMES_MIN, PGSIZE, Status, UTEXT};
use jos_elf::{Part, parse, write};
use jos_kernel::boot_images;
use jos_sys::System;
use std::alloc::Global;
use std::marker::Model;
use test_cases::{Bench, Shown, given, numbers};

/// A system in which an image was booted.
#[derive(Drop)]
pub(crate) struct ImageBench {
    system: System,
}

impl Model for ImageBench {
    ghost Value = { Unit {0} };

    ghost view = { λ bench. tt };

    ghost invariant = { λ bench. Keeps bench.system };
}

/// A system of 64 frames.
fn new_system(alloc: Global) -> anyhow::Result<System>
    ensures { IfOk result Keeps }
{
    match System::new(alloc, FRAMES_MIN) {
        Ok(system) => Ok(system),
        Err(_) => bail!("no memory"),
    }
}

/// Boots what a file says. False also where it is no image.
fn boot(system: &mut System, file: Vec<u8>) -> bool
    requires spaces { Keeps system.old }
    requires small { length file.items < 2 ^ 32 }
    ensures { Keeps system.new }
{
    match parse(&file) {
        Ok(image) => boot_images(system, &[image], &[file]),
        Err(_) => false,
    }
}

/// The byte that stands at an address of the environment in slot 0, and whether it may be written. None where there is
/// no page.
fn place(system: &mut System, va: u32) -> Option<(u8, bool)>
    requires { Keeps system.old }
    ensures { Keeps system.new }
{
    match system.environment(0).status {
        Status::Free => None,
        _ => {
            let space = system.space(0);
            if system.reach(space, va, Access::Read).is_err() {
                return None;
            }
            let byte = system.byte_at(space, va);
            let writable = system.reach(space, va, Access::Write).is_ok();
            Some((byte, writable))
        }
    }
}

/// The file of an image that has so many pages of zeros.
fn empty_pages(alloc: Global, pages: u32) -> anyhow::Result<Vec<u8>>
    requires some { 0 < pages }
    requires few { pages < 100 }
    ensures { IfOk result (λ file. length file.items < 2 ^ 32) }
{
    let part = Part {
        va: UTEXT,
        at: 0,
        len: 0,
        mem_len: pages * PGSIZE,
        writable: false,
    };
    match write(alloc, UTEXT, &[part], &[]) {
        Ok(file) => Ok(file),
        Err(_) => bail!("no memory"),
    }
}

/// The frames of the directories of two images that have so many pages of zeros; of the second none where the frames are
/// too few.
fn directories(alloc: Global, first: u32, second: u32) -> anyhow::Result<(u32, Option<u32>)>
    requires first { 0 < first }
    requires few { first < 100 }
    requires second { 0 < second }
    requires few_too { second < 100 }
{
    let mut system = new_system(alloc)?;
    let one = boot(&mut system, empty_pages(alloc, first)?);
    let both = one && boot(&mut system, empty_pages(alloc, second)?);
    let directory = system.environment(0).directory.0;
    if both {
        Ok((directory, Some(system.environment(1).directory.0)))
    } else {
        Ok((directory, None))
    }
}

/// What comes of two images of so many pages.
fn tell_directories(alloc: Global, words: &str) -> anyhow::Result<Shown> {
    let numbers = numbers(alloc, words)?;
    let (first, second) = (given(&numbers, 0), given(&numbers, 1));
    if first == 0 || first >= 100 || second == 0 || second >= 100 {
        bail!("{first} and {second} pages");
    }
    let directories = directories(alloc, first, second)?;
    Ok(Shown::Text(format!(in alloc; "{directories:?}")?))
}

impl ImageBench {
    /// A system in which the image is booted whose file these digits spell.
    fn new(alloc: Global, digits: &str) -> anyhow::Result<ImageBench> {
        let file = match hex::decode(alloc, digits) {
            Ok(file) => file,
            Err(_) => bail!("no bytes"),
        };
        ensure!(file.len() < 1 << 32, "a long file");
        let mut system = new_system(alloc)?;
        if boot(&mut system, file) {
            Ok(ImageBench { system })
        } else {
            bail!("the image is not booted")
        }
    }
}

impl Bench for ImageBench {
    fn of(alloc: Global, line: &str) -> anyhow::Result<ImageBench> {
        let digits = line
            .strip_prefix("image ")
            .context(format_args!("{line} is not tried"))?;
        ImageBench::new(alloc, digits)
    }

    fn answer(&mut self, alloc: Global, what: &str, words: &str) -> anyhow::Result<Shown> {
        let environment = self.system.environment(0);
        match what {
            "status" => Ok(Shown::Text(format!(in alloc; "{:?}", environment.status)?)),
            "parent" => Ok(Shown::Word(environment.parent.0)),
            "eip" => Ok(Shown::Word(environment.registers.eip)),
            "esp" => Ok(Shown::Word(environment.registers.esp)),
            "eflags" => Ok(Shown::Word(environment.registers.eflags)),
            "directories" => tell_directories(alloc, words),
            "place" => {
                let va = given(&numbers(alloc, words)?, 0);
                Ok(Shown::Text(format!(in alloc; "{:?}", place(&mut self.system, va))?))
            }
            _ => bail!("{what} is not told of an image"),
        }
    }
}
