//! What the program answers.

ghost use Rattle.std.specs.Prelude.{◌≡◌};

use fs_image::ImageFault;
use fs_make::MakeFault;
use jos_base::Errno;
use jos_elf::ElfFault;
pub use jos_kernel::{End, Refusal, Report, Stopped, Trace, TrapLine, Turn};
use jos_sched::ScheduleFault;

/// Which limit is passed.
#[derive(Clone, Copy, Debug, PartialEq, Eq)]
pub enum Which {
    /// The number of frames that the words give (`FRAMES_MIN`, `FRAMES_MAX`).
    Frames,
    /// The number of steps that the words give (`STEPS_MAX`).
    Steps,
    /// The number of traps that the words ask for (`TRACE_MAX`).
    Trace,
    /// The number of images (`IMAGES_MAX`).
    Images,
    /// The length of the schedule's file (`SCHEDULE_TEXT_MAX`).
    Schedule,
    /// The length of an image file (`IMAGE_MAX`).
    Image,
    /// The length of the console's input (`INPUT_MAX`).
    Input,
    /// The frames, which are too few to boot the images or the program.
    Boot,
    /// The number of a disk's blocks that the words give (`MINBLOCKS`, `MAXBLOCKS`).
    Blocks,
    /// The length of a file that is put on a disk (`FILE_MAX`).
    File,
    /// The words of a program, which are over 16 or do not fit on a page of its stack.
    Args,
    /// The number from which the words have a program made (1 to `SEED_MAX`).
    Seed,
}

/// What the program answers.
#[derive(Debug, Drop)]
pub enum Outcome {
    /// The run ended by itself. The last of its traps are told, as many as the words ask for.
    Ran(Report, Trace),
    /// The words are no command.
    Usage,
    /// The file that this word names is absent; words are counted from 0.
    Absent(usize),
    /// A limit is passed.
    Limit(Which),
    /// The text of the schedule is none, with the fault that it has.
    BadSchedule(ScheduleFault),
    /// The file that this word names is no image, with the fault that it has.
    BadImage(usize, ElfFault),
    /// A call of the host failed. Under `run`, what was done before it is told.
    HostFault(Stopped),
    /// There was no memory to begin with.
    NoMemory,
    /// So many bytes are written, to a file or to the console.
    Made(u64),
    /// The file is no disk, with the fault that it has.
    BadDisk(ImageFault),
    /// The path leads to nothing on the disk that can be read so: the error by which the file server refuses it.
    NotThere(Errno),
    /// No disk can be made of the files, with the fault that they have.
    BadMake(MakeFault),
}

impl Outcome {
    ghost use Rattle.jos_cli.specs.Outcomes.{status_of};

    /// The exit status of the program.
    pub fn status(&self) -> u8
        ensures { result ≡ status_of self.now }
    {
        match self {
            Outcome::Ran(report, _) => match report.end {
                End::Done => 0,
                End::Stuck => 9,
                End::Budget => 10,
                End::TurnsFull => 11,
            },
            Outcome::Usage => 1,
            Outcome::Absent(_) => 2,
            Outcome::Limit(_) => 3,
            Outcome::BadImage(_, _) => 4,
            Outcome::BadSchedule(_) => 5,
            Outcome::HostFault(_) => 7,
            Outcome::NoMemory => 8,
            Outcome::Made(_) => 0,
            Outcome::BadDisk(_) => 6,
            Outcome::NotThere(_) => 12,
            Outcome::BadMake(_) => 13,
        }
    }
}
