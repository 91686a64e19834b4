//! The trait `Host`.

ghost use Rattle.std.specs.Prelude.{◌≡◌, ℕ, ◌<◌, ◌≤◌, ◌^◌, List, Option, IfOk, length};
ghost use Rattle.jos_host.specs.Asked.{Asked, and_asked, and_noted};
ghost use Rattle.jos_host.specs.Files.{Files};
ghost use Rattle.jos_host.specs.Told.{HasCause, ReadsSize, ReadsAt, IsWithin, Creates, WritesAt, ReadsInput, Appends};

/// A call of the host failed, and its count of faults rose.
#[derive(Clone, Copy, Debug, PartialEq, Eq)]
pub struct Failed;

/// A call of which contracts tell that a host was asked: those on files, and the one that writes notes.
#[derive(Clone, Copy, Debug, PartialEq, Eq)]
pub enum HostCall {
    Size,
    Read,
    Create,
    Write,
    NoteWrite,
}

/// The outside: files by name, a console and a place for notes.
///
/// Names are paths as the command line gives them. Each call leaves every meaning that it does not speak of
/// as it was.
pub trait Host {
    /// The named byte lists, where they are told.
    ghost files: { Self → Option Files };
    /// The console input that is left, where it is told.
    ghost input: { Self → Option (List ℕ) };
    /// The console bytes written, where they are told.
    ghost console: { Self → Option (List ℕ) };
    /// The note bytes written, where they are told.
    ghost notes: { Self → Option (List ℕ) };
    /// The calls on files and those that write notes, in order, where they are told: a call that failed is among them.
    ghost asked: { Self → Option (List Asked) };
    /// How often a call has failed. It never falls, and is below 2^64.
    ghost faults: { Self → ℕ };

    /// The length of a file in bytes, or `None` where the name is absent.
    fn size(&mut self, name: &str) -> Result<Option<u64>, Failed>
        ensures told { IfOk result (λ size. ReadsSize (files self.old) name.now size) }
        ensures files { files self.new ≡ files self.old }
        ensures input { input self.new ≡ input self.old }
        ensures console { console self.new ≡ console self.old }
        ensures notes { notes self.new ≡ notes self.old }
        ensures asked { asked self.new ≡ and_asked (asked self.old) HostCall.Size name.now }
        ensures cause { HasCause (faults self.old) (faults self.new) result };

    /// Fills the buffer from byte `at` of the file on, and answers how many bytes came: fewer than there is
    /// room for only at the end of the file. An absent name reads as empty.
    fn read_at(&mut self, name: &str, at: u64, buf: &mut [u8]) -> Result<usize, Failed>
        ensures within { IfOk result (λ n. n ≤ length buf.old) }
        ensures told { IfOk result (λ n. ReadsAt (files self.old) name.now at buf.old buf.new n) }
        ensures files { files self.new ≡ files self.old }
        ensures input { input self.new ≡ input self.old }
        ensures console { console self.new ≡ console self.old }
        ensures notes { notes self.new ≡ notes self.old }
        ensures asked { asked self.new ≡ and_asked (asked self.old) HostCall.Read name.now }
        ensures cause { HasCause (faults self.old) (faults self.new) result };

    /// Makes the name an empty file.
    fn create(&mut self, name: &str) -> Result<(), Failed>
        ensures told { Creates (files self.old) name.now result (files self.new) }
        ensures input { input self.new ≡ input self.old }
        ensures console { console self.new ≡ console self.old }
        ensures notes { notes self.new ≡ notes self.old }
        ensures asked { asked self.new ≡ and_asked (asked self.old) HostCall.Create name.now }
        ensures cause { HasCause (faults self.old) (faults self.new) result };

    /// Writes the bytes from byte `at` on, which is not past the end: they replace what was there and extend
    /// the file. An absent name starts empty. After `Failed` what stands in the range is unknown.
    fn write_at(&mut self, name: &str, at: u64, bytes: &[u8]) -> Result<(), Failed>
        requires { IsWithin (files self.old) name.now at }
        ensures told { WritesAt (files self.old) name.now at bytes.now result (files self.new) }
        ensures input { input self.new ≡ input self.old }
        ensures console { console self.new ≡ console self.old }
        ensures notes { notes self.new ≡ notes self.old }
        ensures asked { asked self.new ≡ and_asked (asked self.old) HostCall.Write name.now }
        ensures cause { HasCause (faults self.old) (faults self.new) result };

    /// Takes console input into the buffer, and answers how many bytes came: 0 into a buffer with room only
    /// at the end of the input. After `Failed` nothing was taken.
    fn console_read(&mut self, buf: &mut [u8]) -> Result<usize, Failed>
        ensures within { IfOk result (λ n. n ≤ length buf.old) }
        ensures told { ReadsInput (input self.old) (input self.new) buf.old buf.new result }
        ensures files { files self.new ≡ files self.old }
        ensures console { console self.new ≡ console self.old }
        ensures notes { notes self.new ≡ notes self.old }
        ensures asked { asked self.new ≡ asked self.old }
        ensures cause { HasCause (faults self.old) (faults self.new) result };

    /// Writes the bytes to the console. After `Failed` a prefix of them was written.
    fn console_write(&mut self, bytes: &[u8]) -> Result<(), Failed>
        ensures told { Appends (console self.old) bytes.now result (console self.new) }
        ensures files { files self.new ≡ files self.old }
        ensures input { input self.new ≡ input self.old }
        ensures notes { notes self.new ≡ notes self.old }
        ensures asked { asked self.new ≡ asked self.old }
        ensures cause { HasCause (faults self.old) (faults self.new) result };

    /// Writes the bytes to the notes. After `Failed` a prefix of them was written.
    fn note_write(&mut self, bytes: &[u8]) -> Result<(), Failed>
        ensures told { Appends (notes self.old) bytes.now result (notes self.new) }
        ensures files { files self.new ≡ files self.old }
        ensures input { input self.new ≡ input self.old }
        ensures console { console self.new ≡ console self.old }
        ensures asked { asked self.new ≡ and_noted (asked self.old) }
        ensures cause { HasCause (faults self.old) (faults self.new) result };

    ghost faults_fit: { (host : Self) → faults host < 2 ^ 64 };
}
