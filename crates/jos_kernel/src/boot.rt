//! Boot: images become environments.

ghost use Rattle.std.specs.Prelude.{◌≡◌, ℕ, ◌+◌, ◌/◌, ◌<◌, List, Some, None, All, length, true, false, bit_and};
ghost use Rattle.jos_base.specs.declared.numbers.TheConstants.{PGSIZE, PTE_P, PTE_U, PTE_SYSCALL, FDTABLE};
ghost use Rattle.jos_base.specs.SpacesState.{page};
ghost use Rattle.jos_elf.specs.Parsed.{Lies};
ghost use Rattle.jos_sys.specs.System.{state_of, spaces_of, Keeps, is_live_in};
ghost use Rattle.jos_kernel.specs.Boot.{perm_of, page_loaded};
ghost use Rattle.jos_elf.specs.Pages.{touches, any_touches, any_writes, laid, laid_all};
ghost use Rattle.jos_kernel.specs.Boot.{pages_loaded, image_loaded, image_booted, loadables, all_booted};
ghost use Rattle.jos_elf.specs.Started.{first_registers};
ghost use Rattle.jos_kernel.specs.Loading.{IsFirst, earlier, directory_of, IsRead, Loads, with_bytes_in};

use jos_base::{
    EnvId, FDTABLE, FL_1, FL_IF, Frame, PGSIZE, PTE_P, PTE_U, PTE_W, Perm, Regs, Status, USTACKTOP,
};
use jos_elf::{Image, Segment};
use jos_sys::System;

// ---- the pages of an image

/// Whether a segment's memory touches the page of this number.
fn touches(number: u32, segment: &Segment) -> bool
    ensures { result ≡ touches number segment.now }
{
    let begin = number as u64 * PGSIZE as u64;
    let end = segment.va as u64 + segment.mem_len as u64;
    (segment.va as u64) < begin + PGSIZE as u64 && begin < end
}

/// Whether a page is writable: a segment that touches it is.
fn any_writes(number: u32, segments: &[Segment]) -> bool
    ensures { result ≡ any_writes number segments.now }
{
    segments
        .iter()
        .any(|segment| touches(number, segment) && segment.writable)
}

/// The first page from a page on that the segment touches.
fn first_touched(from: u32, segment: &Segment) -> Option<u32>
    ensures { IsFirst (λ number. touches number segment.now) from result }
{
    let first = from.max(segment.va / PGSIZE);
    if touches(first, segment) {
        Some(first)
    } else {
        None
    }
}

/// The lower of two pages, where there are two.
fn earlier(first: Option<u32>, second: Option<u32>) -> Option<u32>
    ensures { result ≡ earlier first second }
{
    match (first, second) {
        (Some(first), Some(second)) => Some(first.min(second)),
        (None, page) | (page, None) => page,
    }
}

/// The first page from a page on that a segment touches.
pub fn next_touched(from: u32, segments: &[Segment]) -> Option<u32>
    ensures { IsFirst (λ number. any_touches number segments.now) from result }
{
    let mut next = None;
    for segment in segments {
        next = earlier(next, first_touched(from, segment));
    }
    next
}

/// The bits of a page's entry.
fn perm_of(writable: bool) -> Perm
    ensures bits { result.0 ≡ perm_of writable }
    ensures user { bit_and result.0 (PTE_P + PTE_U) ≡ PTE_P + PTE_U }
    ensures perm { bit_and result.0 PTE_SYSCALL ≡ result.0 }
{
    if writable {
        Perm(PTE_P + PTE_W + PTE_U)
    } else {
        Perm(PTE_P + PTE_U)
    }
}

// ---- the pages of its environment

/// Lays into a frame what of the segment's file part lies in the page of this number.
fn lay_segment(system: &mut System, frame: Frame, segment: &Segment, file: &[u8], number: u32)
    requires spaces { Keeps system.old }
    requires frame { (spaces_of system.old).uses frame.0 ≡ page }
    requires lies { Lies (length file.now) segment.now }
    requires number { number < FDTABLE / PGSIZE }
    ensures state { (input : List ℕ) → state_of system.new input ≡ with_bytes_in (state_of system.old input) frame.0
        (laid segment.now file.now number ((spaces_of system.old).pages frame.0)) }
    ensures spaces { Keeps system.new }
{
    let begin = number * PGSIZE;
    let from = segment.va.max(begin);
    let to = (segment.va + segment.file_len).min(begin + PGSIZE);
    if from < to {
        let at = segment.file_at as usize + (from - segment.va) as usize;
        system.fill(frame, from - begin, &file[at..at + (to - from) as usize]);
    }
}

/// Lays into a frame what of the file parts lies in the page of this number.
fn lay_page(system: &mut System, frame: Frame, segments: &[Segment], file: &[u8], number: u32)
    requires spaces { Keeps system.old }
    requires frame { (spaces_of system.old).uses frame.0 ≡ page }
    requires lie { All (Lies (length file.now)) segments.now }
    requires number { number < FDTABLE / PGSIZE }
    ensures state { (input : List ℕ) → state_of system.new input ≡ with_bytes_in (state_of system.old input) frame.0
        (laid_all segments.now file.now number ((spaces_of system.old).pages frame.0)) }
    ensures spaces { Keeps system.new }
{
    for segment in segments {
        lay_segment(system, frame, segment, file, number);
    }
}

/// Loads a page that a segment touches. False where a frame is wanted and none is free.
fn load_page(
    system: &mut System,
    slot: usize,
    segments: &[Segment],
    file: &[u8],
    number: u32,
) -> bool
    requires live { is_live_in system.old slot ≡ true }
    requires spaces { Keeps system.old }
    requires lie { All (Lies (length file.now)) segments.now }
    requires touched { any_touches number segments.now ≡ true }
    requires number { number < FDTABLE / PGSIZE }
    ensures loads { (input : List ℕ) →
        Loads (page_loaded segments.now file.now (directory_of system.old slot) number (spaces_of system.old))
        result (state_of system.old input) (state_of system.new input) }
    ensures spaces { Keeps system.new }
{
    let perm = perm_of(any_writes(number, segments));
    match system.allocate(slot, number * PGSIZE, perm) {
        None => false,
        Some(frame) => {
            lay_page(system, frame, segments, file, number);
            true
        }
    }
}

/// Loads all pages that segments touch, in rising order. False where a frame is wanted and none is free.
pub fn load_pages(system: &mut System, slot: usize, segments: &[Segment], file: &[u8]) -> bool
    requires live { is_live_in system.old slot ≡ true }
    requires spaces { Keeps system.old }
    requires lie { All (Lies (length file.now)) segments.now }
    ensures loads { (input : List ℕ) →
        Loads (pages_loaded segments.now file.now (directory_of system.old slot) (spaces_of system.old) (FDTABLE / PGSIZE))
        result (state_of system.old input) (state_of system.new input) }
    ensures spaces { Keeps system.new }
{
    let mut from = 0;
    while let Some(number) = next_touched(from, segments) {
        if !load_page(system, slot, segments, file, number) {
            return false;
        }
        from = number + 1;
    }
    true
}

/// Loads an image's pages and then a page for the stack. False where a frame is wanted and none is free.
fn load_image(system: &mut System, slot: usize, segments: &[Segment], file: &[u8]) -> bool
    requires live { is_live_in system.old slot ≡ true }
    requires spaces { Keeps system.old }
    requires lie { All (Lies (length file.now)) segments.now }
    ensures loads { (input : List ℕ) →
        Loads (image_loaded segments.now file.now (directory_of system.old slot) (spaces_of system.old))
        result (state_of system.old input) (state_of system.new input) }
    ensures spaces { Keeps system.new }
{
    if !load_pages(system, slot, segments, file) {
        return false;
    }
    system
        .allocate(slot, USTACKTOP - PGSIZE, perm_of(true))
        .is_some()
}

// ---- the environments

/// The registers of an environment that begins at this address. All that is not named here is 0.
pub fn first_registers(entry: u32) -> Regs
    ensures { result ≡ first_registers entry }
{
    Regs {
        eax: 0,
        ecx: 0,
        edx: 0,
        ebx: 0,
        esp: USTACKTOP,
        ebp: 0,
        esi: 0,
        edi: 0,
        eip: entry,
        eflags: FL_IF + FL_1,
    }
}

/// Boots an image: an environment without a parent, which stands at the image's entry. False where a frame or a slot
/// is wanted and none is free.
fn boot_image(system: &mut System, image: &Image, file: &[u8]) -> bool
    requires spaces { Keeps system.old }
    requires lie { All (Lies (length file.now)) image.now.segments }
    ensures booted { result ≡ true → (input : List ℕ) →
        image_booted image.now file.now (state_of system.old input) ≡ Some (state_of system.new input) }
    ensures full { result ≡ false → (input : List ℕ) → image_booted image.now file.now (state_of system.old input) ≡ None }
    ensures spaces { Keeps system.new }
{
    let slot = match system.make_environment(EnvId(0)) {
        Ok(slot) => slot,
        Err(_) => return false,
    };
    if !load_image(system, slot, image.segments(), file) {
        return false;
    }
    system.set_registers(slot, first_registers(image.entry()));
    system.set_status(slot, Status::Runnable);
    true
}

/// Boots the images in their order, each with the file that it was read from. False where a frame or a slot is wanted
/// and none is free.
pub fn boot_images(system: &mut System, images: &[Image], files: &[Vec<u8>]) -> bool
    requires spaces { Keeps system.old }
    requires read { All IsRead (loadables images.now files.now) }
    ensures booted { result ≡ true → (input : List ℕ) →
        all_booted (loadables images.now files.now) (state_of system.old input) ≡ Some (state_of system.new input) }
    ensures full { result ≡ false → (input : List ℕ) →
        all_booted (loadables images.now files.now) (state_of system.old input) ≡ None }
    ensures spaces { Keeps system.new }
{
    for (image, file) in images.iter().zip(files) {
        if !boot_image(system, image, file) {
            return false;
        }
    }
    true
}
