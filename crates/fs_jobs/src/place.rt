//! Where a job stands between two steps.

/// A job. Paths stand from byte 0 of the request page on, the bytes of a write from byte 8 on; what is read is handed back from
/// byte 0 on.
#[derive(Clone, Copy)]
pub enum Job {
    /// open_file of a path, in this mode.
    Open {
        mode: u32,
    },
    /// Where a path leads, for one who opens or removes a file: the place of the file's record is told.
    Find,
    /// The file of the record at this place is removed.
    Remove {
        home: u32,
    },
    /// So many bytes are read of a file, from one on.
    Read {
        home: u32,
        at: u32,
        count: u32,
    },
    /// So many bytes are written to a file, from one on.
    Write {
        home: u32,
        at: u32,
        count: u32,
    },
    /// The record with this number of a directory becomes a new file, whose name begins here in the path.
    Create {
        directory: u32,
        slot: u32,
        from: u32,
    },
    /// A file gets another size.
    SetSize {
        home: u32,
        size: u32,
    },
    /// The name, the size and the kind of a file.
    Stat {
        home: u32,
    },
    /// How many bytes a file has: that is told.
    Size {
        home: u32,
    },
}

/// A name is looked up in a directory: the name's place in the path, the directory's record, how many records it has, which one is at
/// hand, and the first that is empty, or `NONE`.
#[derive(Clone, Copy)]
pub struct Seek {
    pub from: u32,
    pub directory: u32,
    pub slots: u32,
    pub slot: u32,
    pub empty: u32,
}

/// No record.
pub const NONE: u32 = 0xffff_ffff;

/// A change of a file's or a directory's blocks that has a block.
#[derive(Clone, Copy)]
pub enum Change {
    TakeBlock,
    TakeIndirect,
    GiveBlock,
    GiveIndirect,
}

/// What the number of a block is wanted for.
#[derive(Clone, Copy)]
pub enum Wanted {
    /// The byte at this place of the bytes that are read.
    Reading { k: u32 },
    /// Of those that are written.
    Writing { k: u32 },
    /// Zeros up to the end, from this byte of the file on.
    Filling { at: u32 },
    /// It is given back.
    Giving,
    /// The record with this number becomes a new file's, whose name begins here in the path.
    Making { slot: u32, from: u32 },
}

/// What is about to be done on the way to a record.
#[derive(Clone, Copy)]
pub enum WalkPlace {
    /// The byte of the path at a place is read, behind so many bytes of its name.
    Path {
        at: u32,
        run: u32,
    },
    /// The super block's words.
    Magic,
    Count,
    RootKind,
    /// The byte of the path at a place where a name may begin; so far it leads to a record.
    Component {
        from: u32,
        home: u32,
    },
    /// The kind and the size of the directory in which the name there is looked up.
    DirectoryKind {
        from: u32,
        directory: u32,
    },
    DirectorySize {
        from: u32,
        directory: u32,
    },
    /// The number of the block of the record at hand, and the same in the indirect block.
    Slot {
        seek: Seek,
    },
    SlotIndirect {
        seek: Seek,
        indirect: u32,
    },
    /// A byte of the name of the record at hand.
    NameByte {
        seek: Seek,
        block: u32,
        k: u32,
    },
    /// The byte of the path to which it is compared.
    PathByte {
        seek: Seek,
        block: u32,
        k: u32,
        byte: u32,
    },
    /// There is no such name. The byte of the path at a place, in the name or behind it, tells whether it is the last.
    Missing {
        seek: Seek,
        at: u32,
        within: bool,
    },
    /// The kind of the record to which the path leads.
    FoundKind {
        home: u32,
    },
}

/// What is about to be done to a file, or to a directory that grows.
#[derive(Clone, Copy)]
pub enum FilePlace {
    /// Its kind, its size, and the number of its indirect block, before anything is decided.
    Kind,
    Size,
    Indirect,
    /// A word of the bitmap, behind which so many free blocks were counted.
    Free {
        word: u32,
        free: u32,
    },
    /// The size and the indirect block that it has now, before the next change.
    SizeNow,
    IndirectNow,
    /// The number of one of its blocks, and the same in the indirect block.
    Number {
        i: u32,
        wanted: Wanted,
    },
    NumberIndirect {
        i: u32,
        wanted: Wanted,
    },
    /// A byte that is read, and handed back.
    Reading {
        block: u32,
        k: u32,
    },
    Handing {
        block: u32,
        k: u32,
        byte: u32,
    },
    /// A byte that is to be written, and is.
    Gathering {
        block: u32,
        k: u32,
    },
    Writing {
        block: u32,
        k: u32,
        byte: u32,
    },
    /// A byte becomes 0; and the size that comes behind such bytes, or by which the file becomes shorter.
    Filling {
        block: u32,
        at: u32,
    },
    PutSize {
        size: u32,
    },
    /// A word of the bitmap in which a free block is looked for.
    Lowest {
        change: Change,
        word: u32,
    },
    /// The bitmap's byte of a block, and what it becomes.
    Mark {
        change: Change,
        block: u32,
    },
    PutMark {
        change: Change,
        block: u32,
        byte: u32,
    },
    /// A word of a block that was taken becomes 0.
    Zero {
        change: Change,
        block: u32,
        word: u32,
    },
    /// The size, before the last block is given back.
    PutLess {
        block: u32,
    },
    /// The number of the last block is stored, or becomes 0.
    PutNumber {
        change: Change,
        block: u32,
    },
    PutIndirect {
        change: Change,
        block: u32,
    },
    /// The size, behind the number of a block that was taken.
    PutMore,
    /// A byte of a new file's name, from the second on, and what the record gets; then its words, and its first byte.
    MakeName {
        new: u32,
        from: u32,
        k: u32,
    },
    PutName {
        new: u32,
        from: u32,
        k: u32,
        byte: u32,
        ended: bool,
    },
    MakeWord {
        new: u32,
        from: u32,
        word: u32,
    },
    MakeFirst {
        new: u32,
        from: u32,
    },
    PutFirst {
        new: u32,
        byte: u32,
    },
    /// The record becomes empty.
    Empty,
    /// A byte of what stat tells, and what is handed back; behind the name's end these are zeros.
    StatByte {
        k: u32,
        ended: bool,
    },
    HandStat {
        k: u32,
        byte: u32,
        ended: bool,
    },
}

/// A record whose blocks change: its place, the size and the indirect block that were read last, and the size that it is to have. A new
/// file's name begins at a place of the path, and its record has a number in the directory.
#[derive(Clone, Copy)]
pub struct Changed {
    pub home: u32,
    pub size: u32,
    pub indirect: u32,
    pub end: u32,
}

/// Where a job stands.
#[derive(Clone, Copy)]
pub enum TreePlace {
    Walking(WalkPlace),
    Changing(Changed, FilePlace),
}

/// A job, how many blocks the disk has, and where the job stands.
#[derive(Clone, Copy)]
pub struct TreeState {
    pub job: Job,
    pub count: u32,
    pub place: TreePlace,
}
