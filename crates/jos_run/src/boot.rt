//! How a run begins: the file server's environment in slot 0, and a program with its words in slot 1, with the stack of the
//! library's handler of page faults, and with two descriptors that name the console.

ghost use Rattle.std.specs.Prelude.{◌≡◌, ℕ, ◌+◌, ◌/◌, ◌<◌, ◌≤◌, ◌++◌, List, [], ◌∷◌, Some, None, Ok, All, IfOk, IfErr, length, true, false, map};
ghost use Rattle.std.specs.Int.{w32, to_le_bytes};
ghost use Rattle.jos_base.specs.declared.numbers.TheConstants.{FDTABLE, FRAMES_MAX, FRAMES_MIN, NPTENTRIES, PGSIZE};
ghost use Rattle.jos_base.specs.SystemCalls.{environment_made};
ghost use Rattle.jos_elf.specs.Parsed.{Lies, parsed};
ghost use Rattle.jos_sys.specs.System.{state_of, spaces_of, Keeps, is_live_in};
ghost use Rattle.jos_kernel.specs.Boot.{page_loaded};
ghost use Rattle.jos_elf.specs.Pages.{stack_page};
ghost use Rattle.jos_kernel.specs.Loading.{directory_of, Loads};
ghost use Rattle.jos_elf.specs.StackPage.{fits_stack, stack_contents, strings_of};
ghost use Rattle.jos_run.specs.Start.{HoldsFiles, start_state};
ghost use Rattle.jos_run.specs.Worlds.{beside};
ghost use Rattle.fs_layout.specs.FileTree.{FileSystem};
ghost use Rattle.lib_os.specs.Disk.{Disk};
ghost use Rattle.jos_run.specs.Begun.{IsNew, ProgramsBegin, ProgramsBoot};
ghost use Rattle.jos_run.specs.ServerStands.{StandsWhole};
ghost use Rattle.lib_os.specs.Rows.{AreBytes};
ghost use Rattle.jos_run.specs.Boot.{pages_touched, touches_region, regions_touched, boot_frames, program_loaded};
ghost use Rattle.jos_elf.specs.Started.{stack_segment};
ghost use Rattle.jos_run.specs.Boot.{handler_stack_loaded, records_loaded, console_bytes, console_loaded, program_in, server_in, booted_within};
ghost use Rattle.jos_elf.specs.Started.{program_registers};

use arrayvec::ArrayVec;
use jos_base::{
    EnvId, EnvType, FDTABLE, NPTENTRIES, PGSIZE, PTE_P, PTE_U, PTE_W, Perm, Regs, Status, USTACKTOP,
};
use jos_elf::{Image, Segment};
use jos_kernel::{BootFault, first_registers, load_pages, next_touched};
use jos_sys::System;
use lib_os::{DEVICE_CONSOLE, O_RDWR, OPEN_RECORDS, PGFAULT_UPCALL, PTE_SHARE, UXSTACK};
use lib_spawn::{stack_contents, stack_pointer};
use std::alloc::Global;

// ---- how many frames a run wants

/// Frames for what is not the program's image.
pub const FRAMES_BESIDE: u32 = 256;

/// How many pages the segments touch.
fn pages_touched(segments: &[Segment]) -> u32
    ensures count { result ≡ pages_touched segments.now }
    ensures most { result ≤ FDTABLE / PGSIZE }
{
    let mut count = 0;
    let mut from = 0;
    while let Some(number) = next_touched(from, segments) {
        if number >= FDTABLE / PGSIZE {
            return count;
        }
        count += 1;
        from = number + 1;
    }
    count
}

/// Whether they touch a page of this region.
fn touches_region(segments: &[Segment], region: u32) -> bool
    requires { region < FDTABLE / PGSIZE / NPTENTRIES }
    ensures { result ≡ touches_region segments.now region }
{
    match next_touched(region * NPTENTRIES, segments) {
        Some(number) => number / NPTENTRIES == region,
        None => false,
    }
}

/// How many regions they touch.
fn regions_touched(segments: &[Segment]) -> u32
    ensures count { result ≡ regions_touched segments.now }
    ensures most { result ≤ FDTABLE / PGSIZE / NPTENTRIES }
{
    let mut count = 0;
    for region in 0..FDTABLE / PGSIZE / NPTENTRIES {
        if touches_region(segments, region) {
            count += 1;
        }
    }
    count
}

/// How many frames a run of this program wants at least.
#[tactic(auto, unfolding(crate::specs::Boot::boot_frames))]
pub fn boot_frames(image: &Image) -> u32
    ensures { result ≡ boot_frames image.now }
{
    let segments = image.segments();
    FRAMES_BESIDE + pages_touched(segments) + regions_touched(segments)
}

// ---- the program

/// Tells that bytes are bytes. Nothing is done.
pub(crate) fn keep_bytes(bytes: &[u8])
    ensures { AreBytes bytes.now }
{}

/// A page at the top of the stack, with the program's words. False where a frame is wanted and none is free.
fn load_stack(system: &mut System, slot: usize, words: &[&str]) -> bool
    requires live { is_live_in system.old slot ≡ true }
    requires spaces { Keeps system.old }
    requires fits { fits_stack (map (λ w. w.now) words.now) ≡ true }
    ensures loads { (input : List ℕ) →
        Loads (page_loaded (stack_segment (map (λ w. w.now) words.now) ∷ []) (stack_contents (map (λ w. w.now) words.now)) (directory_of system.old slot)
        stack_page (spaces_of system.old)) result (state_of system.old input) (state_of system.new input) }
    ensures bytes { result ≡ true → AreBytes (strings_of (map (λ w. w.now) words.now)) }
    ensures spaces { Keeps system.new }
{
    match system.allocate(slot, USTACKTOP - PGSIZE, Perm(PTE_P + PTE_W + PTE_U)) {
        None => false,
        Some(frame) => {
            let bytes = stack_contents(words);
            keep_bytes(bytes.as_slice());
            system.fill(frame, PGSIZE - bytes.len() as u32, bytes.as_slice());
            true
        }
    }
}

/// The pages of the program, and that of its stack. False where a frame is wanted and none is free.
fn load_program(
    system: &mut System,
    slot: usize,
    segments: &[Segment],
    file: &[u8],
    words: &[&str],
) -> bool
    requires live { is_live_in system.old slot ≡ true }
    requires spaces { Keeps system.old }
    requires lie { All (Lies (length file.now)) segments.now }
    requires fits { fits_stack (map (λ w. w.now) words.now) ≡ true }
    ensures loads { (input : List ℕ) →
        Loads (program_loaded segments.now file.now (map (λ w. w.now) words.now) (directory_of system.old slot) (spaces_of system.old))
        result (state_of system.old input) (state_of system.new input) }
    ensures bytes { result ≡ true → AreBytes (strings_of (map (λ w. w.now) words.now)) }
    ensures spaces { Keeps system.new }
{
    if !load_pages(system, slot, segments, file) {
        return false;
    }
    load_stack(system, slot, words)
}

/// A page of zeros for the stack of the handler of page faults. False where a frame is wanted and none is free.
fn load_handler_stack(system: &mut System, slot: usize) -> bool
    requires live { is_live_in system.old slot ≡ true }
    requires spaces { Keeps system.old }
    ensures loads { (input : List ℕ) →
        Loads (handler_stack_loaded (directory_of system.old slot) (spaces_of system.old)) result
        (state_of system.old input) (state_of system.new input) }
    ensures spaces { Keeps system.new }
{
    system
        .allocate(slot, UXSTACK, Perm(PTE_P + PTE_W + PTE_U))
        .is_some()
}

/// What the page of a descriptor holds that names something.
type DescriptorBytes = ArrayVec<u8, 16>;

/// Adds a word.
fn push_word(bytes: &mut DescriptorBytes, word: u32)
    requires { length bytes.old.items + 4 ≤ 16 }
    ensures bytes { bytes.new.items ≡ bytes.old.items ++ to_le_bytes w32 word }
    ensures size { length bytes.new.items ≡ length bytes.old.items + 4 }
{
    bytes.try_extend_from_slice(&word.to_le_bytes()).unwrap();
}

/// What it holds that names the console, which may be read and written.
#[tactic(auto, unfolding(jos_base::specs::TrapFrames::bytes_of_words))]
fn console_bytes() -> DescriptorBytes
    ensures bytes { result.items ≡ console_bytes }
    ensures size { length result.items ≡ 16 }
{
    let mut bytes = DescriptorBytes::new();
    push_word(&mut bytes, DEVICE_CONSOLE);
    push_word(&mut bytes, 0);
    push_word(&mut bytes, O_RDWR);
    push_word(&mut bytes, 0);
    bytes
}

/// One page for the first two descriptors, which name the console. False where a frame is wanted and none is free.
fn load_console(system: &mut System, slot: usize) -> bool
    requires live { is_live_in system.old slot ≡ true }
    requires spaces { Keeps system.old }
    ensures loads { (input : List ℕ) →
        Loads (console_loaded (directory_of system.old slot) (spaces_of system.old)) result
        (state_of system.old input) (state_of system.new input) }
    ensures spaces { Keeps system.new }
{
    const PERM: u32 = PTE_P + PTE_W + PTE_U + PTE_SHARE;
    match system.allocate(slot, FDTABLE, Perm(PERM)) {
        None => false,
        Some(frame) => {
            let bytes = console_bytes();
            system.fill(frame, 0, bytes.as_slice());
            system
                .insert(slot, FDTABLE / PGSIZE + 1, frame, PERM)
                .is_ok()
        }
    }
}

/// The registers of a program that begins at this address, with these words.
fn program_registers(entry: u32, words: &[&str]) -> Regs
    requires { fits_stack (map (λ w. w.now) words.now) ≡ true }
    ensures { result ≡ program_registers entry (map (λ w. w.now) words.now) }
{
    Regs {
        esp: stack_pointer(words),
        ..first_registers(entry)
    }
}

/// The environment of the program, whose page faults go to the handler, and which may run. False where a frame or a slot is
/// wanted and none is free.
fn start_program(system: &mut System, image: &Image, file: &[u8], words: &[&str]) -> bool
    requires spaces { Keeps system.old }
    requires lie { All (Lies (length file.now)) image.now.segments }
    requires fits { fits_stack (map (λ w. w.now) words.now) ≡ true }
    ensures booted { result ≡ true → (input : List ℕ) →
        program_in image.now file.now (map (λ w. w.now) words.now) (environment_made (state_of system.old input) 0)
        ≡ Some (state_of system.new input) }
    ensures full { result ≡ false → (input : List ℕ) →
        program_in image.now file.now (map (λ w. w.now) words.now) (environment_made (state_of system.old input) 0) ≡ None }
    ensures bytes { result ≡ true → AreBytes (strings_of (map (λ w. w.now) words.now)) }
    ensures spaces { Keeps system.new }
{
    let slot = match system.make_environment(EnvId(0)) {
        Ok(slot) => slot,
        Err(_) => return false,
    };
    if !load_program(system, slot, image.segments(), file, words) {
        return false;
    }
    if !load_handler_stack(system, slot) {
        return false;
    }
    if !load_console(system, slot) {
        return false;
    }
    system.set_registers(slot, program_registers(image.entry(), words));
    system.set_upcall(slot, PGFAULT_UPCALL);
    system.set_status(slot, Status::Runnable);
    true
}

// ---- the server

/// A page of zeros for the records of open files. False where a frame is wanted and none is free.
fn load_records(system: &mut System, slot: usize) -> bool
    requires live { is_live_in system.old slot ≡ true }
    requires spaces { Keeps system.old }
    ensures loads { (input : List ℕ) →
        Loads (records_loaded (directory_of system.old slot) (spaces_of system.old)) result
        (state_of system.old input) (state_of system.new input) }
    ensures spaces { Keeps system.new }
{
    system
        .allocate(slot, OPEN_RECORDS, Perm(PTE_P + PTE_W + PTE_U))
        .is_some()
}

/// The environment of the file server, which has a page for the records of open files and may run. False where a frame or a slot is wanted and none is free.
fn make_server(system: &mut System) -> bool
    requires { Keeps system.old }
    ensures made { result ≡ true → (input : List ℕ) →
        server_in (environment_made (state_of system.old input) 0) ≡ Some (state_of system.new input) }
    ensures full { result ≡ false → (input : List ℕ) → server_in (environment_made (state_of system.old input) 0) ≡ None }
    ensures spaces { Keeps system.new }
{
    let slot = match system.make_environment(EnvId(0)) {
        Ok(slot) => slot,
        Err(_) => return false,
    };
    if !load_records(system, slot) {
        return false;
    }
    system.set_env_type(slot, EnvType::FileServer);
    system.set_status(slot, Status::Runnable);
    true
}

// ---- both

/// The kernel with the server and a program, which was read from this file, in so many frames.
///
/// # Errors
/// The run wants more frames, or the host's memory ran out.
pub fn boot_program(
    alloc: Global,
    image: &Image,
    file: &[u8],
    words: &[&str],
    frames: u32,
) -> Result<System, BootFault>
    requires read { parsed file.now ≡ Ok image.now }
    requires fits { fits_stack (map (λ w. w.now) words.now) ≡ true }
    requires least { FRAMES_MIN ≤ frames }
    requires most { frames ≤ FRAMES_MAX }
    ensures booted { IfOk result (λ system. (input : List ℕ) →
        booted_within image.now file.now (map (λ w. w.now) words.now) frames input ≡ Some (state_of system input)) }
    ensures pool { IfErr result (λ fault. fault ≡ BootFault.Pool → (input : List ℕ) →
        booted_within image.now file.now (map (λ w. w.now) words.now) frames input ≡ None) }
    ensures stands { IfOk result (λ system. (input : List ℕ) → AreBytes input → (d : Disk) (files : FileSystem) → HoldsFiles d files →
        StandsWhole (beside (state_of system input) (Some d)) (start_state image.now file.now (map (λ w. w.now) words.now) input files)) }
    ensures new { IfOk result (λ system. (input : List ℕ) → IsNew (state_of system input) frames) }
    ensures keeps { IfOk result Keeps }
{
    if frames < boot_frames(image) {
        return Err(BootFault::Pool);
    }
    let mut system = System::new(alloc, frames)?;
    if !make_server(&mut system) {
        return Err(BootFault::Pool);
    }
    if !start_program(&mut system, image, file, words) {
        return Err(BootFault::Pool);
    }
    Ok(system)
}

/// A program that is booted stands for the abstract state in which its run begins, and in the frames that it wants every
/// program is booted. Nothing here is to be run: each clause is a theorem.
pub fn programs_begin()
    ensures alike { ProgramsBegin }
    ensures always { ProgramsBoot }
{}
