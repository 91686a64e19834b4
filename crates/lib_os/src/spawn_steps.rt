//! How far spawn is behind its path, and what it has found out so far.
//!
//! It has four pages of its own. In that at `UTEMP` stand the path and, from `SPAWN_ADDRESSES` on, the addresses of the strings that the program
//! gives; then each request to the file server, with the bytes that come; then the record of the child's registers. That at `SPAWN_GIVEN` has the
//! strings one behind another, and then the program headers; that at `SPAWN_STACK` is made the page of the child's stack; and at `SPAWN_HERE` a page
//! of the child's is mapped while bytes are put into it.

/// How far spawn is behind its path.
#[derive(Clone, Copy, Debug)]
pub enum SpawnStep {
    /// It takes the strings that the program gives, and makes the page of the child's stack.
    Given { at: GivenStep },
    /// The page of the stack is made, and it has the file opened.
    Opening { at: OpeningStep },
    /// It asks the file server for a part of the file.
    Reading { part: FilePart, at: ReadStep },
    /// Its page has a part of the file, and it tests whether that is an image.
    Testing { at: TestingStep },
    /// It makes the child, with the pages and the bytes of its segments.
    Bearing { at: BearingStep },
    /// The child has all bytes, and it gives the child the rest, until that runs.
    Finishing { at: FinishingStep },
    /// It was refused something, and undoes what it has done.
    Undoing { at: UndoingStep },
}

/// How far spawn is with what the program gives.
#[derive(Clone, Copy, Debug)]
pub enum GivenStep {
    /// Its page has the path, and it is about to take a page for the strings that the program gives.
    TakingGiven,
    /// It has the addresses of so many strings, and of the next address so many bytes, which are this word. It is about to read whether the region of
    /// the next byte has a table.
    AddressRegion {
        index: u32,
        done: u32,
        word: u32,
    },
    /// It is about to read the entry of that byte's page.
    AddressEntry {
        index: u32,
        done: u32,
        word: u32,
    },
    /// It is about to load the address, or its next byte.
    AddressLoading {
        index: u32,
        done: u32,
        word: u32,
    },
    /// That byte can't be loaded, and it is about to raise the fault by which the environment ends.
    AddressFaulting {
        index: u32,
        done: u32,
    },
    /// This is the address of the string of this number, and it is about to put it into its page, behind the path.
    AddressKeeping {
        index: u32,
        word: u32,
    },
    /// It has so many strings, which have so many bytes with their ends, and is about to load the address of the next from its page. Behind the last
    /// stands 0.
    StringAddress {
        index: u32,
        used: u32,
    },
    /// It has so many bytes of the string at this address, and is about to read whether the region of the next has a table.
    StringRegion {
        index: u32,
        address: u32,
        used: u32,
        done: u32,
    },
    /// It is about to read the entry of that byte's page.
    StringEntry {
        index: u32,
        address: u32,
        used: u32,
        done: u32,
    },
    /// It is about to load the next bytes of the string.
    StringLoading {
        index: u32,
        address: u32,
        used: u32,
        done: u32,
    },
    /// The next byte can't be loaded, and it is about to raise the fault by which the environment ends.
    StringFaulting {
        address: u32,
        done: u32,
    },
    /// It has loaded these bytes of a word, the next to be kept lowest, and is about to put the next of them into the page of the strings.
    StringKeeping {
        index: u32,
        address: u32,
        used: u32,
        done: u32,
        word: u32,
        left: u32,
    },
    /// It has all strings, so many with so many bytes, and is about to take the page of the child's stack.
    TakingStack {
        count: u32,
        size: u32,
    },
    /// That page has so many of the bytes, and it is about to put there the address of the string of this number, whose bytes are next.
    StringFirst {
        count: u32,
        size: u32,
        index: u32,
        copied: u32,
    },
    /// It is about to load the next of the bytes.
    StringCopying {
        count: u32,
        size: u32,
        index: u32,
        copied: u32,
    },
    /// It is about to put this one into the page of the stack.
    StringPutting {
        count: u32,
        size: u32,
        index: u32,
        copied: u32,
        byte: u32,
    },
    /// The page has all strings and their addresses, and it is about to put the place of these there.
    StoringArgv {
        count: u32,
        size: u32,
    },
    /// It is about to put there how many strings there are.
    StoringArgc {
        count: u32,
        size: u32,
    },
}

/// How far it is with the opening of the file.
#[derive(Clone, Copy, Debug)]
pub enum OpeningStep {
    /// The child's stack is ready, with this ESP, and it is about to read whether the region of descriptors' pages has a table.
    FreeRegion { esp: u32 },
    /// Every lower descriptor is open, and it is about to read the entry of this one's page.
    FreeEntry { esp: u32, fd: u32 },
    /// This is the lowest descriptor that is free, or, where all are open, their number. It is about to put the mode into its page, behind the path.
    StoringMode { esp: u32, fd: u32 },
    /// Its page tells the request, and it is about to ask for its id.
    OpenIdentifying { esp: u32, fd: u32 },
    /// With the environment's id, it is about to ask the file server.
    OpenAsking { esp: u32, fd: u32, id: u32 },
    /// It has tried in vain, and is about to give up its turn.
    OpenPausing { esp: u32, fd: u32, id: u32 },
    /// It has asked, and is about to wait for the reply, and with it for the page of the descriptor.
    OpenAwaiting { esp: u32, fd: u32, id: u32 },
    /// It waits for the reply, or is about to read the word that came.
    ReadingOpened { esp: u32, fd: u32, id: u32 },
    /// The file is open, and it is about to load how many bytes it had then.
    LoadingSize { esp: u32, fd: u32 },
}

/// A part of its file that spawn reads, with what it has found out before.
#[derive(Clone, Copy, Debug)]
pub enum FilePart {
    /// Its header, where the child's ESP is to be this, and the file had so many bytes.
    Header {
        esp: u32,
        fd: u32,
        size: u32,
    },
    /// So many program headers, from this place on; the first instruction is at this address.
    Table {
        esp: u32,
        fd: u32,
        size: u32,
        entry_point: u32,
        headers: u32,
        place: u32,
    },
    /// The bytes of a segment from so many on up to this one, which stand in the file from this place on, for the child.
    Piece {
        fd: u32,
        headers: u32,
        child: u32,
        header: u32,
        done: u32,
        end: u32,
        place: u32,
    },
}

/// How far it is with that.
#[derive(Clone, Copy, Debug)]
pub enum ReadStep {
    /// It is about to load the number of the file from the descriptor's page.
    LoadingNumber,
    /// It is about to put the number of the file into its page.
    StoringNumber { number: u32 },
    /// It is about to put there how many bytes it wants.
    StoringCount,
    /// It is about to put there the place of the first of them.
    StoringPlace,
    /// Its page tells the request, and it is about to ask for its id.
    Identifying,
    /// It is about to ask the file server.
    Asking { id: u32 },
    /// It has tried in vain, and is about to give up its turn.
    Pausing { id: u32 },
    /// It has asked, and is about to wait for the reply.
    Awaiting { id: u32 },
    /// It waits for the reply, or is about to read the word that came, which tells how many bytes its page has.
    ReadingReply { id: u32 },
}

/// How far it is with the tests of the file.
#[derive(Clone, Copy, Debug)]
pub enum TestingStep {
    /// Its page has the header of the file, which had so many bytes, and it is about to load how that begins.
    HeaderMagic {
        esp: u32,
        fd: u32,
        size: u32,
    },
    /// It is about to load the word of the header that tells how wide words are, and which of their bytes comes first.
    HeaderClass {
        esp: u32,
        fd: u32,
        size: u32,
    },
    /// It is about to load the word that tells the kind of the file and its machine.
    HeaderKind {
        esp: u32,
        fd: u32,
        size: u32,
    },
    /// It is about to load the address of the first instruction.
    HeaderEntryPoint {
        esp: u32,
        fd: u32,
        size: u32,
    },
    /// It is about to load the place of the program headers in the file.
    HeaderTable {
        esp: u32,
        fd: u32,
        size: u32,
        entry_point: u32,
    },
    /// It is about to load the word that tells how long a program header is.
    HeaderLength {
        esp: u32,
        fd: u32,
        size: u32,
        entry_point: u32,
        place: u32,
    },
    /// It is about to load the word that tells how many program headers there are.
    HeaderCount {
        esp: u32,
        fd: u32,
        size: u32,
        entry_point: u32,
        place: u32,
    },
    /// Its page has so many program headers, of whose words it has copied so many, and it is about to load the next.
    TableLoading {
        esp: u32,
        fd: u32,
        size: u32,
        entry_point: u32,
        headers: u32,
        copied: u32,
    },
    /// It is about to put this word into the page that had the strings.
    TableStoring {
        esp: u32,
        fd: u32,
        size: u32,
        entry_point: u32,
        headers: u32,
        copied: u32,
        word: u32,
    },
    /// The segments of the program headers before this one are as they should be, and it is about to load what this one says of.
    SegmentKind {
        esp: u32,
        fd: u32,
        size: u32,
        entry_point: u32,
        headers: u32,
        header: u32,
    },
    /// It is about to load how much memory the segment has.
    SegmentMemory {
        esp: u32,
        fd: u32,
        size: u32,
        entry_point: u32,
        headers: u32,
        header: u32,
    },
    /// It is about to load the segment's first address.
    SegmentAddress {
        esp: u32,
        fd: u32,
        size: u32,
        entry_point: u32,
        headers: u32,
        header: u32,
        memory: u32,
    },
    /// The segment lies where that of a program may, and it is about to load how many bytes of the file it has.
    SegmentLength {
        esp: u32,
        fd: u32,
        size: u32,
        entry_point: u32,
        headers: u32,
        header: u32,
        va: u32,
        memory: u32,
    },
    /// It is about to load the place of these in the file.
    SegmentOffset {
        esp: u32,
        fd: u32,
        size: u32,
        entry_point: u32,
        headers: u32,
        header: u32,
        va: u32,
        memory: u32,
        length: u32,
    },
    /// The bytes lie in the file, and the segments of the program headers before the other one lie elsewhere. It is about to load what the other one
    /// says of.
    OtherKind {
        esp: u32,
        fd: u32,
        size: u32,
        entry_point: u32,
        headers: u32,
        header: u32,
        va: u32,
        memory: u32,
        other: u32,
    },
    /// It is about to load how much memory the other segment has.
    OtherMemory {
        esp: u32,
        fd: u32,
        size: u32,
        entry_point: u32,
        headers: u32,
        header: u32,
        va: u32,
        memory: u32,
        other: u32,
    },
    /// It is about to load the other segment's first address.
    OtherAddress {
        esp: u32,
        fd: u32,
        size: u32,
        entry_point: u32,
        headers: u32,
        header: u32,
        va: u32,
        memory: u32,
        other: u32,
        other_memory: u32,
    },
}

/// How far it is with its child, and with the segments of that.
#[derive(Clone, Copy, Debug)]
pub enum BearingStep {
    /// The file is an image, and it is about to make the child.
    MakingChild {
        esp: u32,
        fd: u32,
        entry_point: u32,
        headers: u32,
    },
    /// It is about to put this word of the record of the child's registers into its page.
    StoringRegister {
        esp: u32,
        fd: u32,
        entry_point: u32,
        headers: u32,
        child: u32,
        index: u32,
    },
    /// Its page has the record, and it is about to set the child's registers.
    SettingRegisters {
        fd: u32,
        headers: u32,
        child: u32,
    },
    /// The child has the pages of the segments of the program headers before this one, and it is about to load what this one says of.
    PlacingKind {
        fd: u32,
        headers: u32,
        child: u32,
        header: u32,
    },
    /// It is about to load how much memory the segment has.
    PlacingMemory {
        fd: u32,
        headers: u32,
        child: u32,
        header: u32,
    },
    /// It is about to load the segment's first address.
    PlacingAddress {
        fd: u32,
        headers: u32,
        child: u32,
        header: u32,
        memory: u32,
    },
    /// It is about to give the child this page; the segment's last is that one.
    PlacingPage {
        fd: u32,
        headers: u32,
        child: u32,
        header: u32,
        page: u32,
        last: u32,
    },
    /// The child has all pages, and the bytes of the segments of the program headers before this one. It is about to load what this one says of.
    PieceKind {
        fd: u32,
        headers: u32,
        child: u32,
        header: u32,
    },
    /// It is about to load how much memory the segment has.
    PieceMemory {
        fd: u32,
        headers: u32,
        child: u32,
        header: u32,
    },
    /// The child has so many bytes of the segment, and it is about to load how many there are.
    PieceLength {
        fd: u32,
        headers: u32,
        child: u32,
        header: u32,
        done: u32,
    },
    /// The bytes from there up to this one are the next piece, and it is about to load the place of the segment's bytes in the file.
    PieceOffset {
        fd: u32,
        headers: u32,
        child: u32,
        header: u32,
        done: u32,
        end: u32,
    },
    /// Its page has the piece, and it is about to load the segment's first address.
    PieceAddress {
        fd: u32,
        headers: u32,
        child: u32,
        header: u32,
        done: u32,
        end: u32,
    },
    /// The segment begins at this address, and it is about to map the child's page of the next byte, or of the next word, into its own memory.
    MappingHere {
        fd: u32,
        headers: u32,
        child: u32,
        header: u32,
        va: u32,
        done: u32,
        end: u32,
    },
    /// It is about to load the next bytes of the piece, or those of them that stand in the first of two words.
    PieceLoading {
        fd: u32,
        headers: u32,
        child: u32,
        header: u32,
        va: u32,
        done: u32,
        end: u32,
    },
    /// It has loaded the first of two words, and is about to load the second.
    PieceRest {
        fd: u32,
        headers: u32,
        child: u32,
        header: u32,
        va: u32,
        done: u32,
        end: u32,
        first: u32,
    },
    /// It has loaded these bytes of a word, or this byte, and is about to put them into the child's page.
    PiecePutting {
        fd: u32,
        headers: u32,
        child: u32,
        header: u32,
        va: u32,
        done: u32,
        end: u32,
        word: u32,
    },
    /// The child has the piece, and so all bytes up to this one, and it is about to give the page back where it had mapped it.
    UnmappingHere {
        fd: u32,
        headers: u32,
        child: u32,
        header: u32,
        end: u32,
    },
}

/// How far it is with a child that has all bytes.
#[derive(Clone, Copy, Debug)]
pub enum FinishingStep {
    /// The child has all bytes, and the pages of the segments of the program headers before this one have their rights. It is about to load what this
    /// one says of.
    RightsKind {
        fd: u32,
        headers: u32,
        child: u32,
        header: u32,
    },
    /// It is about to load whether the segment may be written.
    RightsFlags {
        fd: u32,
        headers: u32,
        child: u32,
        header: u32,
    },
    /// The segment may not be written, and it is about to load how much memory it has.
    RightsMemory {
        fd: u32,
        headers: u32,
        child: u32,
        header: u32,
    },
    /// It is about to load the segment's first address.
    RightsAddress {
        fd: u32,
        headers: u32,
        child: u32,
        header: u32,
        memory: u32,
    },
    /// No segment that may be written has a part of the pages from this one up to the end, of those of the program headers before the other one. It
    /// is about to load what the other one says of.
    SharedKind {
        fd: u32,
        headers: u32,
        child: u32,
        header: u32,
        page: u32,
        end: u32,
        other: u32,
    },
    /// It is about to load whether the other segment may be written.
    SharedFlags {
        fd: u32,
        headers: u32,
        child: u32,
        header: u32,
        page: u32,
        end: u32,
        other: u32,
    },
    /// It is about to load how much memory the other segment has.
    SharedMemory {
        fd: u32,
        headers: u32,
        child: u32,
        header: u32,
        page: u32,
        end: u32,
        other: u32,
    },
    /// It is about to load the other segment's first address.
    SharedAddress {
        fd: u32,
        headers: u32,
        child: u32,
        header: u32,
        page: u32,
        end: u32,
        other: u32,
        other_memory: u32,
    },
    /// It is about to take from the child that it may write this page.
    RightsPage {
        fd: u32,
        headers: u32,
        child: u32,
        header: u32,
        page: u32,
        end: u32,
    },
    /// The child has its segments, and it is about to give it the stack of the handler of page faults.
    ChildStack {
        fd: u32,
        child: u32,
    },
    /// It is about to give the child the handler.
    ChildUpcall {
        fd: u32,
        child: u32,
    },
    /// It is about to give the child the page of its stack.
    GivingStack {
        fd: u32,
        child: u32,
    },
    /// The child has that page, and it is about to give it back where it had made it.
    ReleasingStack {
        fd: u32,
        child: u32,
    },
    /// It is about to give back the page that has the program headers.
    ReleasingGiven {
        fd: u32,
        child: u32,
    },
    /// It is about to give its page back.
    ReleasingPath {
        fd: u32,
        child: u32,
    },
    /// It is about to drop the descriptor of the file.
    DroppingFile {
        fd: u32,
        child: u32,
    },
    /// It is about to read whether a region of its own has a table, to pass its shared pages on.
    PassingRegion {
        child: u32,
        region: u32,
    },
    /// It is about to read the entry of its page of this number.
    PassingEntry {
        child: u32,
        page: u32,
    },
    /// That page is shared, and it is about to map it into the child, with these bits.
    PassingPage {
        child: u32,
        page: u32,
        perm: u32,
    },
    /// It is about to let the child run.
    ChildRuns {
        child: u32,
    },
}

/// How far it is where it was refused something with this answer.
#[derive(Clone, Copy, Debug)]
pub enum UndoingStep {
    /// It was refused something with this answer, and is about to destroy the child.
    DestroyingChild { fd: u32, child: u32, error: u32 },
    /// The same, and it is about to drop the descriptor of the file.
    ClosingFile { fd: u32, error: u32 },
    /// The same, and it is about to give back the page of the child's stack.
    UndoingStack { error: u32 },
    /// The same, and it is about to give back the page of the strings, or of the program headers.
    UndoingGiven { error: u32 },
    /// The same, and it is about to give its page back, by which it is over.
    UndoingPath { error: u32 },
}
