//! A host all in memory, that tells everything.

ghost use Rattle.std.specs.Prelude.{◌≡◌, ◌↔◌, ◌+◌, ◌≤◌, [], ◌∷◌, ◌++◌, length, option_map, take, drop, min, Some};
ghost use Rattle.std.specs.Prelude.{IsSome, IsOk, IsErr, IfOk, OnOk, OnErr, Contains, position, option_copied};
ghost use Rattle.std.specs.Str.{bytes_eq};
ghost use Rattle.jos_host.specs.Count.{counted, risen};
ghost use Rattle.jos_host.specs.Files.{with_bytes, bytes_of, overwritten};
ghost use Rattle.jos_host.specs.Told.{ReadsAt};
ghost use Rattle.jos_host.specs.MemHost.{files_of, with_asked, called, call_failed, FailsAsListed, room_of};

use crate::asked_log::AskedLog;
use crate::faults::{count_fault, refuse};
use crate::{Failed, Host, HostCall};
use std::alloc::{AllocError, Global};
use std::marker::Model;

/// A file: bytes under a name.
#[derive(Debug, Drop)]
pub struct NamedBytes {
    pub name: String,
    pub bytes: Vec<u8>,
}

impl Model for NamedBytes {
    ghost use Rattle.std.specs.Prelude.{string_bytes};
    ghost use Rattle.jos_host.specs.MemHost.{Named};

    ghost Value = { Named };

    ghost view = { λ f. record { name = string_bytes f.name; bytes = f.bytes.items } };
}

/// A host all in memory: named byte lists, an input that is given at the start, and what was written.
///
/// Each call of the trait has a number, from 0 on. A call whose number is listed fails: it raises the count of
/// faults and changes nothing else. So does one that finds no memory, and memory is taken only for a new name,
/// for bytes past the end of a file, and for bytes of the console and the notes beyond the room that is there.
/// Every other call fails exactly where its number is listed.
#[derive(Drop)]
pub struct MemHost {
    alloc: Global,
    files: Vec<NamedBytes>,
    input: Vec<u8>,
    /// How many bytes of the input were read.
    taken: usize,
    console: Vec<u8>,
    notes: Vec<u8>,
    asked: AskedLog,
    fails: Vec<u64>,
    /// The number of the next call.
    calls: u64,
    faults: u64,
}

impl Model for MemHost {
    ghost use Rattle.std.specs.Prelude.{◌≤◌, length, drop};
    ghost use Rattle.jos_host.specs.MemHost.{HostState, room_of};

    ghost Value = { HostState };

    ghost view = { λ h. record {
      named = h.files.items;
      input = drop h.taken h.input.items;
      console = h.console.items;
      notes = h.notes.items;
      console_room = room_of h.console;
      notes_room = room_of h.notes;
      asked = h.asked.calls;
      fails = h.fails.items;
      calls = h.calls;
      faults = h.faults;
    } };

    ghost invariant = { λ h. h.taken ≤ length h.input.items };
}

impl MemHost {
    /// A host of these files and this input, whose calls with the numbers in `fails` fail. It takes no memory
    /// for itself. Of two files with one name the first counts.
    pub fn new(alloc: Global, files: Vec<NamedBytes>, input: Vec<u8>, fails: Vec<u64>) -> MemHost
        ensures { result ≡ record {
          named = files.items;
          input = input.items;
          console = [];
          notes = [];
          console_room = 0;
          notes_room = 0;
          asked = [];
          fails = fails.items;
          calls = 0;
          faults = 0;
        } }
    {
        MemHost {
            alloc,
            files,
            input,
            taken: 0,
            console: Vec::new(alloc),
            notes: Vec::new(alloc),
            asked: AskedLog::new(),
            fails,
            calls: 0,
            faults: 0,
        }
    }

    /// Makes room for so many more bytes on the console and in the notes. A write within the room takes no
    /// memory. Where there is none to make it of, some of the room may have been made.
    pub fn reserve(&mut self, console: usize, notes: usize) -> Result<(), AllocError>
        ensures console { OnOk result (console ≤ self.new.console_room) }
        ensures notes { OnOk result (notes ≤ self.new.notes_room) }
        ensures there { console ≤ self.old.console_room → notes ≤ self.old.notes_room → IsOk result }
        ensures rest { self.new ≡ record self.old {
          console_room = self.new.console_room;
          notes_room = self.new.notes_room;
        } }
        ensures console_kept { self.old.console_room ≤ self.new.console_room }
        ensures notes_kept { self.old.notes_room ≤ self.new.notes_room }
    {
        self.console.reserve(console)?;
        self.notes.reserve(notes)
    }

    /// The bytes under this name.
    pub fn file(&self, name: &str) -> Option<&[u8]>
        ensures { option_copied result ≡ files_of self.now.named name.now }
    {
        file_of(&self.files, name)
    }

    /// The console bytes written.
    pub fn console(&self) -> &[u8]
        ensures { result.now ≡ self.now.console }
    {
        &self.console
    }

    /// The note bytes written.
    pub fn notes(&self) -> &[u8]
        ensures { result.now ≡ self.now.notes }
    {
        &self.notes
    }

    /// How many calls have failed. The count ends at `u64::MAX`.
    pub fn faults(&self) -> u64
        ensures { result ≡ counted self.now.faults }
    {
        self.faults
    }
}

impl Host for MemHost {
    ghost files = { λ h. Some (files_of h.named) };

    ghost input = { λ h. Some h.input };

    ghost console = { λ h. Some h.console };

    ghost notes = { λ h. Some h.notes };

    ghost asked = { λ h. Some h.asked };

    ghost faults = { λ h. counted h.faults };

    ghost use Rattle.std.proofs.Common.{arith};

    ghost faults_fit = { λ h. Prim.omega arith };

    fn size(&mut self, name: &str) -> Result<Option<u64>, Failed>
        ensures listed { IsErr result ↔ Contains self.old.fails self.old.calls }
        ensures size { IfOk result (λ size. size ≡ option_map length (files_of self.old.named name.now)) }
        ensures went { OnOk result (self.new ≡ called (with_asked self.old HostCall.Size name.now)) }
        ensures failed { OnErr result (self.new ≡ call_failed (with_asked self.old HostCall.Size name.now)) }
    {
        self.asked.note(&HostCall::Size, name.as_bytes());
        begin(&self.fails, &mut self.calls, &mut self.faults)?;
        Ok(file_of(&self.files, name).map(|bytes| bytes.len() as u64))
    }

    fn read_at(&mut self, name: &str, at: u64, buf: &mut [u8]) -> Result<usize, Failed>
        ensures listed { IsErr result ↔ Contains self.old.fails self.old.calls }
        ensures within { IfOk result (λ n. n ≤ length buf.old) }
        ensures told { IfOk result
            (λ n. ReadsAt (Some (files_of self.old.named)) name.now at buf.old buf.new n) }
        ensures went { OnOk result (self.new ≡ called (with_asked self.old HostCall.Read name.now)) }
        ensures failed { OnErr result (self.new ≡ call_failed (with_asked self.old HostCall.Read name.now)) }
        ensures untouched { OnErr result (buf.new ≡ buf.old) }
    {
        self.asked.note(&HostCall::Read, name.as_bytes());
        begin(&self.fails, &mut self.calls, &mut self.faults)?;
        let bytes = file_of(&self.files, name).unwrap_or(&[]);
        Ok(fill(buf, after(bytes, at)))
    }

    fn create(&mut self, name: &str) -> Result<(), Failed>
        ensures listed { Contains self.old.fails self.old.calls → IsErr result }
        // A name that is there takes no memory.
        ensures there { IsSome (files_of self.old.named name.now) → FailsAsListed self.old result }
        ensures created { OnOk result
            (files_of self.new.named ≡ with_bytes (files_of self.old.named) name.now []) }
        ensures went { OnOk result (self.new
            ≡ record (called (with_asked self.old HostCall.Create name.now)) { named = self.new.named }) }
        ensures failed { OnErr result (self.new ≡ call_failed (with_asked self.old HostCall.Create name.now)) }
    {
        self.asked.note(&HostCall::Create, name.as_bytes());
        begin(&self.fails, &mut self.calls, &mut self.faults)?;
        count_fault(empty(self.alloc, &mut self.files, name), &mut self.faults)
    }

    fn write_at(&mut self, name: &str, at: u64, bytes: &[u8]) -> Result<(), Failed>
        requires { at ≤ length (bytes_of (files_of self.old.named) name.now) }
        ensures listed { Contains self.old.fails self.old.calls → IsErr result }
        // Bytes that are there are written over with no memory.
        ensures there { IsSome (files_of self.old.named name.now) →
            at + length bytes.now ≤ length (bytes_of (files_of self.old.named) name.now) →
            FailsAsListed self.old result }
        ensures written { OnOk result (files_of self.new.named
            ≡ with_bytes (files_of self.old.named) name.now
            (overwritten (bytes_of (files_of self.old.named) name.now) at bytes.now)) }
        ensures went { OnOk result (self.new
            ≡ record (called (with_asked self.old HostCall.Write name.now)) { named = self.new.named }) }
        ensures failed { OnErr result (self.new ≡ call_failed (with_asked self.old HostCall.Write name.now)) }
    {
        self.asked.note(&HostCall::Write, name.as_bytes());
        begin(&self.fails, &mut self.calls, &mut self.faults)?;
        count_fault(
            store(self.alloc, &mut self.files, name, at, bytes),
            &mut self.faults,
        )
    }

    fn console_read(&mut self, buf: &mut [u8]) -> Result<usize, Failed>
        ensures listed { IsErr result ↔ Contains self.old.fails self.old.calls }
        ensures count { IfOk result (λ n. n ≡ min (length buf.old) (length self.old.input)) }
        ensures taken { IfOk result (λ n. buf.new ≡ take n self.old.input ++ drop n buf.old) }
        ensures went { IfOk result
            (λ n. self.new ≡ record (called self.old) { input = drop n self.old.input }) }
        ensures failed { OnErr result (self.new ≡ call_failed self.old) }
        ensures untouched { OnErr result (buf.new ≡ buf.old) }
    {
        begin(&self.fails, &mut self.calls, &mut self.faults)?;
        let count = fill(buf, &self.input[self.taken..]);
        self.taken += count;
        Ok(count)
    }

    fn console_write(&mut self, bytes: &[u8]) -> Result<(), Failed>
        ensures listed { Contains self.old.fails self.old.calls → IsErr result }
        // What the room holds takes no memory.
        ensures in_room { length bytes.now ≤ self.old.console_room → FailsAsListed self.old result }
        ensures room { OnOk result (self.old.console_room ≤ self.new.console_room + length bytes.now) }
        ensures went { OnOk result (self.new ≡ record (called self.old) {
          console = self.old.console ++ bytes.now;
          console_room = self.new.console_room;
        }) }
        ensures failed { OnErr result (self.new ≡ call_failed self.old) }
    {
        begin(&self.fails, &mut self.calls, &mut self.faults)?;
        count_fault(append(&mut self.console, bytes), &mut self.faults)
    }

    fn note_write(&mut self, bytes: &[u8]) -> Result<(), Failed>
        ensures listed { Contains self.old.fails self.old.calls → IsErr result }
        // What the room holds takes no memory.
        ensures in_room { length bytes.now ≤ self.old.notes_room → FailsAsListed self.old result }
        ensures room { OnOk result (self.old.notes_room ≤ self.new.notes_room + length bytes.now) }
        ensures went { OnOk result (self.new ≡ record (called (with_asked self.old HostCall.NoteWrite [])) {
          notes = self.old.notes ++ bytes.now;
          notes_room = self.new.notes_room;
        }) }
        ensures failed { OnErr result (self.new ≡ call_failed (with_asked self.old HostCall.NoteWrite [])) }
    {
        self.asked.note(&HostCall::NoteWrite, &[]);
        begin(&self.fails, &mut self.calls, &mut self.faults)?;
        count_fault(append(&mut self.notes, bytes), &mut self.faults)
    }
}

/// The place of the first file of this name.
fn place(files: &[NamedBytes], name: &str) -> Option<usize>
    ensures { result ≡ position (λ file. bytes_eq name.now file.name) files.now }
{
    files.iter().position(|file| name == file.name.as_str())
}

/// The bytes of the first file of this name.
fn file_of<'a>(files: &'a [NamedBytes], name: &str) -> Option<&'a [u8]>
    ensures { option_copied result ≡ files_of files.now name.now }
{
    match place(files, name) {
        Some(at) => {
            let file = &files[at];
            Some(&file.bytes)
        }
        None => None,
    }
}

/// Counts a call, which fails where its number is listed.
fn begin(fails: &[u64], calls: &mut u64, faults: &mut u64) -> Result<(), Failed>
    ensures listed { IsErr result ↔ Contains fails.now calls.old }
    ensures calls { calls.new ≡ risen calls.old }
    ensures failed { OnErr result (faults.new ≡ risen faults.old) }
    ensures went { OnOk result (faults.new ≡ faults.old) }
{
    let number = *calls;
    *calls = number.saturating_add(1);
    if fails.contains(&number) {
        Err(refuse(faults))
    } else {
        Ok(())
    }
}

/// Adds the bytes at the end. The memory is found first.
fn append(kept: &mut Vec<u8>, bytes: &[u8]) -> Result<(), AllocError>
    ensures ok { OnOk result (kept.new.items ≡ kept.old.items ++ bytes.now) }
    ensures err { OnErr result (kept.new.items ≡ kept.old.items) }
    ensures in_room { length bytes.now ≤ room_of kept.old → IsOk result }
    ensures room { OnOk result (room_of kept.old ≤ room_of kept.new + length bytes.now) }
    ensures same_room { OnErr result (room_of kept.new ≡ room_of kept.old) }
{
    kept.reserve(bytes.len())?;
    kept.extend_from_slice(bytes)
}

/// The bytes from a place on.
fn after(bytes: &[u8], at: u64) -> &[u8]
    ensures { result.now ≡ drop at bytes.now }
{
    if at < bytes.len() as u64 {
        &bytes[at as usize..]
    } else {
        &[]
    }
}

/// Copies as many of the bytes as the buffer has room for, and says how many.
fn fill(buf: &mut [u8], bytes: &[u8]) -> usize
    ensures count { result ≡ min (length buf.old) (length bytes.now) }
    ensures filled { buf.new ≡ take result bytes.now ++ drop result buf.old }
{
    let count = buf.len().min(bytes.len());
    buf[..count].copy_from_slice(&bytes[..count]);
    count
}

/// Writes the bytes over what stands from `at` on. The memory is found first.
fn overwrite(kept: &mut Vec<u8>, at: usize, bytes: &[u8]) -> Result<(), AllocError>
    requires { at ≤ length kept.old.items }
    ensures ok { OnOk result (kept.new.items ≡ overwritten kept.old.items at bytes.now) }
    ensures err { OnErr result (kept.new.items ≡ kept.old.items) }
    ensures there { at + length bytes.now ≤ length kept.old.items → IsOk result }
{
    let (over, beyond) = bytes.split_at(bytes.len().min(kept.len() - at));
    kept.extend_from_slice(beyond)?;
    kept[at..at + over.len()].copy_from_slice(over);
    Ok(())
}

/// Adds a file. The memory is found first.
fn add(
    alloc: Global,
    files: &mut Vec<NamedBytes>,
    name: &str,
    bytes: &[u8],
) -> Result<(), AllocError>
    ensures ok { OnOk result
        (files.new.items ≡ files.old.items ++ record { name = name.now; bytes = bytes.now } ∷ []) }
    ensures err { OnErr result (files.new.items ≡ files.old.items) }
{
    let name = String::from_str(alloc, name)?;
    let bytes = Vec::from_slice(alloc, bytes)?;
    files.push(NamedBytes { name, bytes })?;
    Ok(())
}

/// Makes the name an empty file.
fn empty(alloc: Global, files: &mut Vec<NamedBytes>, name: &str) -> Result<(), AllocError>
    ensures ok { OnOk result (files_of files.new.items
        ≡ with_bytes (files_of files.old.items) name.now []) }
    ensures err { OnErr result (files.new.items ≡ files.old.items) }
    ensures there { IsSome (files_of files.old.items name.now) → IsOk result }
{
    match place(files, name) {
        Some(found) => {
            files[found].bytes.clear();
            Ok(())
        }
        None => add(alloc, files, name, &[]),
    }
}

/// Writes into the file of this name, which is added where it is absent.
fn store(
    alloc: Global,
    files: &mut Vec<NamedBytes>,
    name: &str,
    at: u64,
    bytes: &[u8],
) -> Result<(), AllocError>
    requires { at ≤ length (bytes_of (files_of files.old.items) name.now) }
    ensures ok { OnOk result (files_of files.new.items
        ≡ with_bytes (files_of files.old.items) name.now
        (overwritten (bytes_of (files_of files.old.items) name.now) at bytes.now)) }
    ensures err { OnErr result (files.new.items ≡ files.old.items) }
    ensures there { IsSome (files_of files.old.items name.now) →
        at + length bytes.now ≤ length (bytes_of (files_of files.old.items) name.now) →
        IsOk result }
{
    match place(files, name) {
        Some(found) => overwrite(&mut files[found].bytes, at as usize, bytes),
        None => add(alloc, files, name, bytes),
    }
}
