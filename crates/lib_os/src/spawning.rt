//! Where spawn stands behind its path, and the words by which that is kept.

ghost use Rattle.std.specs.Prelude.{◌≡◌, ◌≤◌};
ghost use Rattle.lib_os.specs.declared.numbers.TheConstants.{SERVICES};
ghost use Rattle.lib_os.specs.SpawnPlaces as places;

use crate::spawn_numbers::SPAWN_PART_HEADER;
use crate::spawn_numbers::SPAWN_PART_PIECE;
use crate::spawn_numbers::SPAWN_PART_TABLE;
use crate::spawn_numbers::STEP_SPAWN_ADDRESS_ENTRY;
use crate::spawn_numbers::STEP_SPAWN_ADDRESS_FAULTING;
use crate::spawn_numbers::STEP_SPAWN_ADDRESS_KEEPING;
use crate::spawn_numbers::STEP_SPAWN_ADDRESS_LOADING;
use crate::spawn_numbers::STEP_SPAWN_ADDRESS_REGION;
use crate::spawn_numbers::STEP_SPAWN_ASKING;
use crate::spawn_numbers::STEP_SPAWN_AWAITING;
use crate::spawn_numbers::STEP_SPAWN_CHILD_RUNS;
use crate::spawn_numbers::STEP_SPAWN_CHILD_STACK;
use crate::spawn_numbers::STEP_SPAWN_CHILD_UPCALL;
use crate::spawn_numbers::STEP_SPAWN_CLOSING_FILE;
use crate::spawn_numbers::STEP_SPAWN_DESTROYING_CHILD;
use crate::spawn_numbers::STEP_SPAWN_DROPPING_FILE;
use crate::spawn_numbers::STEP_SPAWN_FREE_ENTRY;
use crate::spawn_numbers::STEP_SPAWN_FREE_REGION;
use crate::spawn_numbers::STEP_SPAWN_GIVING_STACK;
use crate::spawn_numbers::STEP_SPAWN_HEADER_CLASS;
use crate::spawn_numbers::STEP_SPAWN_HEADER_COUNT;
use crate::spawn_numbers::STEP_SPAWN_HEADER_ENTRY_POINT;
use crate::spawn_numbers::STEP_SPAWN_HEADER_KIND;
use crate::spawn_numbers::STEP_SPAWN_HEADER_LENGTH;
use crate::spawn_numbers::STEP_SPAWN_HEADER_MAGIC;
use crate::spawn_numbers::STEP_SPAWN_HEADER_TABLE;
use crate::spawn_numbers::STEP_SPAWN_IDENTIFYING;
use crate::spawn_numbers::STEP_SPAWN_LOADING_NUMBER;
use crate::spawn_numbers::STEP_SPAWN_LOADING_SIZE;
use crate::spawn_numbers::STEP_SPAWN_MAKING_CHILD;
use crate::spawn_numbers::STEP_SPAWN_MAPPING_HERE;
use crate::spawn_numbers::STEP_SPAWN_OPEN_ASKING;
use crate::spawn_numbers::STEP_SPAWN_OPEN_AWAITING;
use crate::spawn_numbers::STEP_SPAWN_OPEN_IDENTIFYING;
use crate::spawn_numbers::STEP_SPAWN_OPEN_PAUSING;
use crate::spawn_numbers::STEP_SPAWN_OTHER_ADDRESS;
use crate::spawn_numbers::STEP_SPAWN_OTHER_KIND;
use crate::spawn_numbers::STEP_SPAWN_OTHER_MEMORY;
use crate::spawn_numbers::STEP_SPAWN_PASSING_ENTRY;
use crate::spawn_numbers::STEP_SPAWN_PASSING_PAGE;
use crate::spawn_numbers::STEP_SPAWN_PASSING_REGION;
use crate::spawn_numbers::STEP_SPAWN_PAUSING;
use crate::spawn_numbers::STEP_SPAWN_PIECE_ADDRESS;
use crate::spawn_numbers::STEP_SPAWN_PIECE_KIND;
use crate::spawn_numbers::STEP_SPAWN_PIECE_LENGTH;
use crate::spawn_numbers::STEP_SPAWN_PIECE_LOADING;
use crate::spawn_numbers::STEP_SPAWN_PIECE_MEMORY;
use crate::spawn_numbers::STEP_SPAWN_PIECE_OFFSET;
use crate::spawn_numbers::STEP_SPAWN_PIECE_PUTTING;
use crate::spawn_numbers::STEP_SPAWN_PIECE_REST;
use crate::spawn_numbers::STEP_SPAWN_PLACING_ADDRESS;
use crate::spawn_numbers::STEP_SPAWN_PLACING_KIND;
use crate::spawn_numbers::STEP_SPAWN_PLACING_MEMORY;
use crate::spawn_numbers::STEP_SPAWN_PLACING_PAGE;
use crate::spawn_numbers::STEP_SPAWN_READING_OPENED;
use crate::spawn_numbers::STEP_SPAWN_READING_REPLY;
use crate::spawn_numbers::STEP_SPAWN_RELEASING_GIVEN;
use crate::spawn_numbers::STEP_SPAWN_RELEASING_PATH;
use crate::spawn_numbers::STEP_SPAWN_RELEASING_STACK;
use crate::spawn_numbers::STEP_SPAWN_RIGHTS_ADDRESS;
use crate::spawn_numbers::STEP_SPAWN_RIGHTS_FLAGS;
use crate::spawn_numbers::STEP_SPAWN_RIGHTS_KIND;
use crate::spawn_numbers::STEP_SPAWN_RIGHTS_MEMORY;
use crate::spawn_numbers::STEP_SPAWN_RIGHTS_PAGE;
use crate::spawn_numbers::STEP_SPAWN_SEGMENT_ADDRESS;
use crate::spawn_numbers::STEP_SPAWN_SEGMENT_KIND;
use crate::spawn_numbers::STEP_SPAWN_SEGMENT_LENGTH;
use crate::spawn_numbers::STEP_SPAWN_SEGMENT_MEMORY;
use crate::spawn_numbers::STEP_SPAWN_SEGMENT_OFFSET;
use crate::spawn_numbers::STEP_SPAWN_SETTING_REGISTERS;
use crate::spawn_numbers::STEP_SPAWN_SHARED_ADDRESS;
use crate::spawn_numbers::STEP_SPAWN_SHARED_FLAGS;
use crate::spawn_numbers::STEP_SPAWN_SHARED_KIND;
use crate::spawn_numbers::STEP_SPAWN_SHARED_MEMORY;
use crate::spawn_numbers::STEP_SPAWN_STORING_ARGC;
use crate::spawn_numbers::STEP_SPAWN_STORING_ARGV;
use crate::spawn_numbers::STEP_SPAWN_STORING_COUNT;
use crate::spawn_numbers::STEP_SPAWN_STORING_MODE;
use crate::spawn_numbers::STEP_SPAWN_STORING_NUMBER;
use crate::spawn_numbers::STEP_SPAWN_STORING_PLACE;
use crate::spawn_numbers::STEP_SPAWN_STORING_REGISTER;
use crate::spawn_numbers::STEP_SPAWN_STRING_ADDRESS;
use crate::spawn_numbers::STEP_SPAWN_STRING_COPYING;
use crate::spawn_numbers::STEP_SPAWN_STRING_ENTRY;
use crate::spawn_numbers::STEP_SPAWN_STRING_FAULTING;
use crate::spawn_numbers::STEP_SPAWN_STRING_FIRST;
use crate::spawn_numbers::STEP_SPAWN_STRING_KEEPING;
use crate::spawn_numbers::STEP_SPAWN_STRING_LOADING;
use crate::spawn_numbers::STEP_SPAWN_STRING_PUTTING;
use crate::spawn_numbers::STEP_SPAWN_STRING_REGION;
use crate::spawn_numbers::STEP_SPAWN_TABLE_LOADING;
use crate::spawn_numbers::STEP_SPAWN_TABLE_STORING;
use crate::spawn_numbers::STEP_SPAWN_TAKING_GIVEN;
use crate::spawn_numbers::STEP_SPAWN_TAKING_STACK;
use crate::spawn_numbers::STEP_SPAWN_UNDOING_GIVEN;
use crate::spawn_numbers::STEP_SPAWN_UNDOING_PATH;
use crate::spawn_numbers::STEP_SPAWN_UNDOING_STACK;
use crate::spawn_numbers::STEP_SPAWN_UNMAPPING_HERE;
use crate::spawn_steps::BearingStep;
use crate::spawn_steps::FilePart;
use crate::spawn_steps::FinishingStep;
use crate::spawn_steps::GivenStep;
use crate::spawn_steps::OpeningStep;
use crate::spawn_steps::ReadStep;
use crate::spawn_steps::SpawnStep;
use crate::spawn_steps::TestingStep;
use crate::spawn_steps::UndoingStep;
use jos_base::Extra;

/// How far spawn is with what the program gives.
#[tactic(auto, unfolding(crate::specs::SpawnPlaces::given_step_in))]
fn find_given_step(words: &Extra) -> GivenStep
    ensures { result ≡ places.given_step_in words.now.0 }
{
    let [
        _,
        step,
        first,
        second,
        third,
        fourth,
        fifth,
        sixth,
        _,
        _,
        _,
        _,
    ] = words.0;
    match step {
        STEP_SPAWN_TAKING_GIVEN => GivenStep::TakingGiven,
        STEP_SPAWN_ADDRESS_REGION => GivenStep::AddressRegion {
            index: first,
            done: second,
            word: third,
        },
        STEP_SPAWN_ADDRESS_ENTRY => GivenStep::AddressEntry {
            index: first,
            done: second,
            word: third,
        },
        STEP_SPAWN_ADDRESS_LOADING => GivenStep::AddressLoading {
            index: first,
            done: second,
            word: third,
        },
        STEP_SPAWN_ADDRESS_FAULTING => GivenStep::AddressFaulting {
            index: first,
            done: second,
        },
        STEP_SPAWN_ADDRESS_KEEPING => GivenStep::AddressKeeping {
            index: first,
            word: second,
        },
        STEP_SPAWN_STRING_ADDRESS => GivenStep::StringAddress {
            index: first,
            used: second,
        },
        STEP_SPAWN_STRING_REGION => GivenStep::StringRegion {
            index: first,
            address: second,
            used: third,
            done: fourth,
        },
        STEP_SPAWN_STRING_ENTRY => GivenStep::StringEntry {
            index: first,
            address: second,
            used: third,
            done: fourth,
        },
        STEP_SPAWN_STRING_LOADING => GivenStep::StringLoading {
            index: first,
            address: second,
            used: third,
            done: fourth,
        },
        STEP_SPAWN_STRING_FAULTING => GivenStep::StringFaulting {
            address: first,
            done: second,
        },
        STEP_SPAWN_STRING_KEEPING => GivenStep::StringKeeping {
            index: first,
            address: second,
            used: third,
            done: fourth,
            word: fifth,
            left: sixth,
        },
        STEP_SPAWN_TAKING_STACK => GivenStep::TakingStack {
            count: first,
            size: second,
        },
        STEP_SPAWN_STRING_FIRST => GivenStep::StringFirst {
            count: first,
            size: second,
            index: third,
            copied: fourth,
        },
        STEP_SPAWN_STRING_COPYING => GivenStep::StringCopying {
            count: first,
            size: second,
            index: third,
            copied: fourth,
        },
        STEP_SPAWN_STRING_PUTTING => GivenStep::StringPutting {
            count: first,
            size: second,
            index: third,
            copied: fourth,
            byte: fifth,
        },
        STEP_SPAWN_STORING_ARGV => GivenStep::StoringArgv {
            count: first,
            size: second,
        },
        _ => GivenStep::StoringArgc {
            count: first,
            size: second,
        },
    }
}

/// How far it is with the opening of the file.
#[tactic(auto, unfolding(crate::specs::SpawnPlaces::opening_step_in))]
fn find_opening_step(words: &Extra) -> OpeningStep
    ensures { result ≡ places.opening_step_in words.now.0 }
{
    let [_, step, first, second, third, _, _, _, _, _, _, _] = words.0;
    match step {
        STEP_SPAWN_FREE_REGION => OpeningStep::FreeRegion { esp: first },
        STEP_SPAWN_FREE_ENTRY => OpeningStep::FreeEntry {
            esp: first,
            fd: second,
        },
        STEP_SPAWN_STORING_MODE => OpeningStep::StoringMode {
            esp: first,
            fd: second,
        },
        STEP_SPAWN_OPEN_IDENTIFYING => OpeningStep::OpenIdentifying {
            esp: first,
            fd: second,
        },
        STEP_SPAWN_OPEN_ASKING => OpeningStep::OpenAsking {
            esp: first,
            fd: second,
            id: third,
        },
        STEP_SPAWN_OPEN_PAUSING => OpeningStep::OpenPausing {
            esp: first,
            fd: second,
            id: third,
        },
        STEP_SPAWN_OPEN_AWAITING => OpeningStep::OpenAwaiting {
            esp: first,
            fd: second,
            id: third,
        },
        STEP_SPAWN_READING_OPENED => OpeningStep::ReadingOpened {
            esp: first,
            fd: second,
            id: third,
        },
        _ => OpeningStep::LoadingSize {
            esp: first,
            fd: second,
        },
    }
}

/// How far it is with the tests of the file.
#[tactic(auto, unfolding(crate::specs::SpawnPlaces::testing_step_in))]
fn find_testing_step(words: &Extra) -> TestingStep
    ensures { result ≡ places.testing_step_in words.now.0 }
{
    let [
        _,
        step,
        first,
        second,
        third,
        fourth,
        fifth,
        sixth,
        seventh,
        eighth,
        ninth,
        tenth,
    ] = words.0;
    match step {
        STEP_SPAWN_HEADER_MAGIC => TestingStep::HeaderMagic {
            esp: first,
            fd: second,
            size: third,
        },
        STEP_SPAWN_HEADER_CLASS => TestingStep::HeaderClass {
            esp: first,
            fd: second,
            size: third,
        },
        STEP_SPAWN_HEADER_KIND => TestingStep::HeaderKind {
            esp: first,
            fd: second,
            size: third,
        },
        STEP_SPAWN_HEADER_ENTRY_POINT => TestingStep::HeaderEntryPoint {
            esp: first,
            fd: second,
            size: third,
        },
        STEP_SPAWN_HEADER_TABLE => TestingStep::HeaderTable {
            esp: first,
            fd: second,
            size: third,
            entry_point: fourth,
        },
        STEP_SPAWN_HEADER_LENGTH => TestingStep::HeaderLength {
            esp: first,
            fd: second,
            size: third,
            entry_point: fourth,
            place: fifth,
        },
        STEP_SPAWN_HEADER_COUNT => TestingStep::HeaderCount {
            esp: first,
            fd: second,
            size: third,
            entry_point: fourth,
            place: fifth,
        },
        STEP_SPAWN_TABLE_LOADING => TestingStep::TableLoading {
            esp: first,
            fd: second,
            size: third,
            entry_point: fourth,
            headers: fifth,
            copied: sixth,
        },
        STEP_SPAWN_TABLE_STORING => TestingStep::TableStoring {
            esp: first,
            fd: second,
            size: third,
            entry_point: fourth,
            headers: fifth,
            copied: sixth,
            word: seventh,
        },
        STEP_SPAWN_SEGMENT_KIND => TestingStep::SegmentKind {
            esp: first,
            fd: second,
            size: third,
            entry_point: fourth,
            headers: fifth,
            header: sixth,
        },
        STEP_SPAWN_SEGMENT_MEMORY => TestingStep::SegmentMemory {
            esp: first,
            fd: second,
            size: third,
            entry_point: fourth,
            headers: fifth,
            header: sixth,
        },
        STEP_SPAWN_SEGMENT_ADDRESS => TestingStep::SegmentAddress {
            esp: first,
            fd: second,
            size: third,
            entry_point: fourth,
            headers: fifth,
            header: sixth,
            memory: seventh,
        },
        STEP_SPAWN_SEGMENT_LENGTH => TestingStep::SegmentLength {
            esp: first,
            fd: second,
            size: third,
            entry_point: fourth,
            headers: fifth,
            header: sixth,
            va: seventh,
            memory: eighth,
        },
        STEP_SPAWN_SEGMENT_OFFSET => TestingStep::SegmentOffset {
            esp: first,
            fd: second,
            size: third,
            entry_point: fourth,
            headers: fifth,
            header: sixth,
            va: seventh,
            memory: eighth,
            length: ninth,
        },
        STEP_SPAWN_OTHER_KIND => TestingStep::OtherKind {
            esp: first,
            fd: second,
            size: third,
            entry_point: fourth,
            headers: fifth,
            header: sixth,
            va: seventh,
            memory: eighth,
            other: ninth,
        },
        STEP_SPAWN_OTHER_MEMORY => TestingStep::OtherMemory {
            esp: first,
            fd: second,
            size: third,
            entry_point: fourth,
            headers: fifth,
            header: sixth,
            va: seventh,
            memory: eighth,
            other: ninth,
        },
        _ => TestingStep::OtherAddress {
            esp: first,
            fd: second,
            size: third,
            entry_point: fourth,
            headers: fifth,
            header: sixth,
            va: seventh,
            memory: eighth,
            other: ninth,
            other_memory: tenth,
        },
    }
}

/// How far it is with its child, and with the segments of that.
#[tactic(auto, unfolding(crate::specs::SpawnPlaces::bearing_step_in))]
fn find_bearing_step(words: &Extra) -> BearingStep
    ensures { result ≡ places.bearing_step_in words.now.0 }
{
    let [
        _,
        step,
        first,
        second,
        third,
        fourth,
        fifth,
        sixth,
        seventh,
        eighth,
        _,
        _,
    ] = words.0;
    match step {
        STEP_SPAWN_MAKING_CHILD => BearingStep::MakingChild {
            esp: first,
            fd: second,
            entry_point: third,
            headers: fourth,
        },
        STEP_SPAWN_STORING_REGISTER => BearingStep::StoringRegister {
            esp: first,
            fd: second,
            entry_point: third,
            headers: fourth,
            child: fifth,
            index: sixth,
        },
        STEP_SPAWN_SETTING_REGISTERS => BearingStep::SettingRegisters {
            fd: first,
            headers: second,
            child: third,
        },
        STEP_SPAWN_PLACING_KIND => BearingStep::PlacingKind {
            fd: first,
            headers: second,
            child: third,
            header: fourth,
        },
        STEP_SPAWN_PLACING_MEMORY => BearingStep::PlacingMemory {
            fd: first,
            headers: second,
            child: third,
            header: fourth,
        },
        STEP_SPAWN_PLACING_ADDRESS => BearingStep::PlacingAddress {
            fd: first,
            headers: second,
            child: third,
            header: fourth,
            memory: fifth,
        },
        STEP_SPAWN_PLACING_PAGE => BearingStep::PlacingPage {
            fd: first,
            headers: second,
            child: third,
            header: fourth,
            page: fifth,
            last: sixth,
        },
        STEP_SPAWN_PIECE_KIND => BearingStep::PieceKind {
            fd: first,
            headers: second,
            child: third,
            header: fourth,
        },
        STEP_SPAWN_PIECE_MEMORY => BearingStep::PieceMemory {
            fd: first,
            headers: second,
            child: third,
            header: fourth,
        },
        STEP_SPAWN_PIECE_LENGTH => BearingStep::PieceLength {
            fd: first,
            headers: second,
            child: third,
            header: fourth,
            done: fifth,
        },
        STEP_SPAWN_PIECE_OFFSET => BearingStep::PieceOffset {
            fd: first,
            headers: second,
            child: third,
            header: fourth,
            done: fifth,
            end: sixth,
        },
        STEP_SPAWN_PIECE_ADDRESS => BearingStep::PieceAddress {
            fd: first,
            headers: second,
            child: third,
            header: fourth,
            done: fifth,
            end: sixth,
        },
        STEP_SPAWN_MAPPING_HERE => BearingStep::MappingHere {
            fd: first,
            headers: second,
            child: third,
            header: fourth,
            va: fifth,
            done: sixth,
            end: seventh,
        },
        STEP_SPAWN_PIECE_LOADING => BearingStep::PieceLoading {
            fd: first,
            headers: second,
            child: third,
            header: fourth,
            va: fifth,
            done: sixth,
            end: seventh,
        },
        STEP_SPAWN_PIECE_REST => BearingStep::PieceRest {
            fd: first,
            headers: second,
            child: third,
            header: fourth,
            va: fifth,
            done: sixth,
            end: seventh,
            first: eighth,
        },
        STEP_SPAWN_PIECE_PUTTING => BearingStep::PiecePutting {
            fd: first,
            headers: second,
            child: third,
            header: fourth,
            va: fifth,
            done: sixth,
            end: seventh,
            word: eighth,
        },
        _ => BearingStep::UnmappingHere {
            fd: first,
            headers: second,
            child: third,
            header: fourth,
            end: fifth,
        },
    }
}

/// How far it is with a child that has all bytes.
#[tactic(auto, unfolding(crate::specs::SpawnPlaces::finishing_step_in))]
fn find_finishing_step(words: &Extra) -> FinishingStep
    ensures { result ≡ places.finishing_step_in words.now.0 }
{
    let [
        _,
        step,
        first,
        second,
        third,
        fourth,
        fifth,
        sixth,
        seventh,
        eighth,
        _,
        _,
    ] = words.0;
    match step {
        STEP_SPAWN_RIGHTS_KIND => FinishingStep::RightsKind {
            fd: first,
            headers: second,
            child: third,
            header: fourth,
        },
        STEP_SPAWN_RIGHTS_FLAGS => FinishingStep::RightsFlags {
            fd: first,
            headers: second,
            child: third,
            header: fourth,
        },
        STEP_SPAWN_RIGHTS_MEMORY => FinishingStep::RightsMemory {
            fd: first,
            headers: second,
            child: third,
            header: fourth,
        },
        STEP_SPAWN_RIGHTS_ADDRESS => FinishingStep::RightsAddress {
            fd: first,
            headers: second,
            child: third,
            header: fourth,
            memory: fifth,
        },
        STEP_SPAWN_SHARED_KIND => FinishingStep::SharedKind {
            fd: first,
            headers: second,
            child: third,
            header: fourth,
            page: fifth,
            end: sixth,
            other: seventh,
        },
        STEP_SPAWN_SHARED_FLAGS => FinishingStep::SharedFlags {
            fd: first,
            headers: second,
            child: third,
            header: fourth,
            page: fifth,
            end: sixth,
            other: seventh,
        },
        STEP_SPAWN_SHARED_MEMORY => FinishingStep::SharedMemory {
            fd: first,
            headers: second,
            child: third,
            header: fourth,
            page: fifth,
            end: sixth,
            other: seventh,
        },
        STEP_SPAWN_SHARED_ADDRESS => FinishingStep::SharedAddress {
            fd: first,
            headers: second,
            child: third,
            header: fourth,
            page: fifth,
            end: sixth,
            other: seventh,
            other_memory: eighth,
        },
        STEP_SPAWN_RIGHTS_PAGE => FinishingStep::RightsPage {
            fd: first,
            headers: second,
            child: third,
            header: fourth,
            page: fifth,
            end: sixth,
        },
        STEP_SPAWN_CHILD_STACK => FinishingStep::ChildStack {
            fd: first,
            child: second,
        },
        STEP_SPAWN_CHILD_UPCALL => FinishingStep::ChildUpcall {
            fd: first,
            child: second,
        },
        STEP_SPAWN_GIVING_STACK => FinishingStep::GivingStack {
            fd: first,
            child: second,
        },
        STEP_SPAWN_RELEASING_STACK => FinishingStep::ReleasingStack {
            fd: first,
            child: second,
        },
        STEP_SPAWN_RELEASING_GIVEN => FinishingStep::ReleasingGiven {
            fd: first,
            child: second,
        },
        STEP_SPAWN_RELEASING_PATH => FinishingStep::ReleasingPath {
            fd: first,
            child: second,
        },
        STEP_SPAWN_DROPPING_FILE => FinishingStep::DroppingFile {
            fd: first,
            child: second,
        },
        STEP_SPAWN_PASSING_REGION => FinishingStep::PassingRegion {
            child: first,
            region: second,
        },
        STEP_SPAWN_PASSING_ENTRY => FinishingStep::PassingEntry {
            child: first,
            page: second,
        },
        STEP_SPAWN_PASSING_PAGE => FinishingStep::PassingPage {
            child: first,
            page: second,
            perm: third,
        },
        _ => FinishingStep::ChildRuns { child: first },
    }
}

/// How far it is where it was refused something with this answer.
#[tactic(auto, unfolding(crate::specs::SpawnPlaces::undoing_step_in))]
fn find_undoing_step(words: &Extra) -> UndoingStep
    ensures { result ≡ places.undoing_step_in words.now.0 }
{
    let [_, step, first, second, third, _, _, _, _, _, _, _] = words.0;
    match step {
        STEP_SPAWN_DESTROYING_CHILD => UndoingStep::DestroyingChild {
            fd: first,
            child: second,
            error: third,
        },
        STEP_SPAWN_CLOSING_FILE => UndoingStep::ClosingFile {
            fd: first,
            error: second,
        },
        STEP_SPAWN_UNDOING_STACK => UndoingStep::UndoingStack { error: first },
        STEP_SPAWN_UNDOING_GIVEN => UndoingStep::UndoingGiven { error: first },
        _ => UndoingStep::UndoingPath { error: first },
    }
}

/// How far it is with a part of the file.
#[tactic(auto, unfolding(crate::specs::SpawnPlaces::read_step_in))]
fn find_read_step(words: &Extra) -> ReadStep
    ensures { result ≡ places.read_step_in words.now.0 }
{
    let [_, step, _, _, _, _, _, _, _, _, ninth, _] = words.0;
    match step {
        STEP_SPAWN_LOADING_NUMBER => ReadStep::LoadingNumber,
        STEP_SPAWN_STORING_NUMBER => ReadStep::StoringNumber { number: ninth },
        STEP_SPAWN_STORING_COUNT => ReadStep::StoringCount,
        STEP_SPAWN_STORING_PLACE => ReadStep::StoringPlace,
        STEP_SPAWN_IDENTIFYING => ReadStep::Identifying,
        STEP_SPAWN_ASKING => ReadStep::Asking { id: ninth },
        STEP_SPAWN_PAUSING => ReadStep::Pausing { id: ninth },
        STEP_SPAWN_AWAITING => ReadStep::Awaiting { id: ninth },
        _ => ReadStep::ReadingReply { id: ninth },
    }
}

/// Which part that is.
#[tactic(auto, unfolding(crate::specs::SpawnPlaces::file_part_in))]
fn find_file_part(words: &Extra) -> FilePart
    ensures { result ≡ places.file_part_in words.now.0 }
{
    let [
        _,
        _,
        first,
        second,
        third,
        fourth,
        fifth,
        sixth,
        seventh,
        eighth,
        _,
        _,
    ] = words.0;
    match first {
        SPAWN_PART_HEADER => FilePart::Header {
            esp: second,
            fd: third,
            size: fourth,
        },
        SPAWN_PART_TABLE => FilePart::Table {
            esp: second,
            fd: third,
            size: fourth,
            entry_point: fifth,
            headers: sixth,
            place: seventh,
        },
        _ => FilePart::Piece {
            fd: second,
            headers: third,
            child: fourth,
            header: fifth,
            done: sixth,
            end: seventh,
            place: eighth,
        },
    }
}

/// How far spawn is behind its path.
#[tactic(auto, unfolding(crate::specs::SpawnPlaces::spawn_step_in))]
pub(crate) fn find_spawn_step(words: &Extra) -> SpawnStep
    ensures { result ≡ places.spawn_step_in words.now.0 }
{
    let [_, step, _, _, _, _, _, _, _, _, _, _] = words.0;
    if STEP_SPAWN_LOADING_NUMBER <= step {
        SpawnStep::Reading {
            part: find_file_part(words),
            at: find_read_step(words),
        }
    } else if STEP_SPAWN_DESTROYING_CHILD <= step {
        SpawnStep::Undoing {
            at: find_undoing_step(words),
        }
    } else if STEP_SPAWN_RIGHTS_KIND <= step {
        SpawnStep::Finishing {
            at: find_finishing_step(words),
        }
    } else if STEP_SPAWN_MAKING_CHILD <= step {
        SpawnStep::Bearing {
            at: find_bearing_step(words),
        }
    } else if STEP_SPAWN_HEADER_MAGIC <= step {
        SpawnStep::Testing {
            at: find_testing_step(words),
        }
    } else if STEP_SPAWN_FREE_REGION <= step {
        SpawnStep::Opening {
            at: find_opening_step(words),
        }
    } else {
        SpawnStep::Given {
            at: find_given_step(words),
        }
    }
}

/// The words of spawn, which is named by its number, where it is so far with what the program gives.
#[tactic(auto, unfolding(crate::specs::SpawnPlaces::given_words_at))]
fn given_words_at(number: u32, at: GivenStep) -> Extra
    requires { number ≤ SERVICES }
    ensures { result.0 ≡ places.given_words_at number at }
{
    let (place, first, second, third, fourth, fifth, sixth) = match at {
        GivenStep::TakingGiven => (STEP_SPAWN_TAKING_GIVEN, 0, 0, 0, 0, 0, 0),
        GivenStep::AddressRegion { index, done, word } => (
            STEP_SPAWN_ADDRESS_REGION,
            index,
            done,
            word,
            0,
            0,
            0,
        ),
        GivenStep::AddressEntry { index, done, word } => (
            STEP_SPAWN_ADDRESS_ENTRY,
            index,
            done,
            word,
            0,
            0,
            0,
        ),
        GivenStep::AddressLoading { index, done, word } => (
            STEP_SPAWN_ADDRESS_LOADING,
            index,
            done,
            word,
            0,
            0,
            0,
        ),
        GivenStep::AddressFaulting { index, done } => (
            STEP_SPAWN_ADDRESS_FAULTING,
            index,
            done,
            0,
            0,
            0,
            0,
        ),
        GivenStep::AddressKeeping { index, word } => (
            STEP_SPAWN_ADDRESS_KEEPING,
            index,
            word,
            0,
            0,
            0,
            0,
        ),
        GivenStep::StringAddress { index, used } => (
            STEP_SPAWN_STRING_ADDRESS,
            index,
            used,
            0,
            0,
            0,
            0,
        ),
        GivenStep::StringRegion {
            index,
            address,
            used,
            done,
        } => (STEP_SPAWN_STRING_REGION, index, address, used, done, 0, 0),
        GivenStep::StringEntry {
            index,
            address,
            used,
            done,
        } => (STEP_SPAWN_STRING_ENTRY, index, address, used, done, 0, 0),
        GivenStep::StringLoading {
            index,
            address,
            used,
            done,
        } => (STEP_SPAWN_STRING_LOADING, index, address, used, done, 0, 0),
        GivenStep::StringFaulting { address, done } => (
            STEP_SPAWN_STRING_FAULTING,
            address,
            done,
            0,
            0,
            0,
            0,
        ),
        GivenStep::StringKeeping {
            index,
            address,
            used,
            done,
            word,
            left,
        } => (
            STEP_SPAWN_STRING_KEEPING,
            index,
            address,
            used,
            done,
            word,
            left,
        ),
        GivenStep::TakingStack { count, size } => (
            STEP_SPAWN_TAKING_STACK,
            count,
            size,
            0,
            0,
            0,
            0,
        ),
        GivenStep::StringFirst {
            count,
            size,
            index,
            copied,
        } => (STEP_SPAWN_STRING_FIRST, count, size, index, copied, 0, 0),
        GivenStep::StringCopying {
            count,
            size,
            index,
            copied,
        } => (STEP_SPAWN_STRING_COPYING, count, size, index, copied, 0, 0),
        GivenStep::StringPutting {
            count,
            size,
            index,
            copied,
            byte,
        } => (
            STEP_SPAWN_STRING_PUTTING,
            count,
            size,
            index,
            copied,
            byte,
            0,
        ),
        GivenStep::StoringArgv { count, size } => (
            STEP_SPAWN_STORING_ARGV,
            count,
            size,
            0,
            0,
            0,
            0,
        ),
        GivenStep::StoringArgc { count, size } => (
            STEP_SPAWN_STORING_ARGC,
            count,
            size,
            0,
            0,
            0,
            0,
        ),
    };
    Extra([
        number + 1,
        place,
        first,
        second,
        third,
        fourth,
        fifth,
        sixth,
        0,
        0,
        0,
        0,
    ])
}

/// The same with the opening of the file.
#[tactic(auto, unfolding(crate::specs::SpawnPlaces::opening_words_at))]
fn opening_words_at(number: u32, at: OpeningStep) -> Extra
    requires { number ≤ SERVICES }
    ensures { result.0 ≡ places.opening_words_at number at }
{
    let (place, first, second, third) = match at {
        OpeningStep::FreeRegion { esp } => (STEP_SPAWN_FREE_REGION, esp, 0, 0),
        OpeningStep::FreeEntry { esp, fd } => (STEP_SPAWN_FREE_ENTRY, esp, fd, 0),
        OpeningStep::StoringMode { esp, fd } => (STEP_SPAWN_STORING_MODE, esp, fd, 0),
        OpeningStep::OpenIdentifying { esp, fd } => (STEP_SPAWN_OPEN_IDENTIFYING, esp, fd, 0),
        OpeningStep::OpenAsking { esp, fd, id } => (STEP_SPAWN_OPEN_ASKING, esp, fd, id),
        OpeningStep::OpenPausing { esp, fd, id } => (STEP_SPAWN_OPEN_PAUSING, esp, fd, id),
        OpeningStep::OpenAwaiting { esp, fd, id } => (STEP_SPAWN_OPEN_AWAITING, esp, fd, id),
        OpeningStep::ReadingOpened { esp, fd, id } => (STEP_SPAWN_READING_OPENED, esp, fd, id),
        OpeningStep::LoadingSize { esp, fd } => (STEP_SPAWN_LOADING_SIZE, esp, fd, 0),
    };
    Extra([number + 1, place, first, second, third, 0, 0, 0, 0, 0, 0, 0])
}

/// The same with the tests of the file.
#[tactic(auto, unfolding(crate::specs::SpawnPlaces::testing_words_at))]
fn testing_words_at(number: u32, at: TestingStep) -> Extra
    requires { number ≤ SERVICES }
    ensures { result.0 ≡ places.testing_words_at number at }
{
    let (place, first, second, third, fourth, fifth, sixth, seventh, eighth, ninth, tenth) =
        match at {
            TestingStep::HeaderMagic { esp, fd, size } => (
                STEP_SPAWN_HEADER_MAGIC,
                esp,
                fd,
                size,
                0,
                0,
                0,
                0,
                0,
                0,
                0,
            ),
            TestingStep::HeaderClass { esp, fd, size } => (
                STEP_SPAWN_HEADER_CLASS,
                esp,
                fd,
                size,
                0,
                0,
                0,
                0,
                0,
                0,
                0,
            ),
            TestingStep::HeaderKind { esp, fd, size } => (
                STEP_SPAWN_HEADER_KIND,
                esp,
                fd,
                size,
                0,
                0,
                0,
                0,
                0,
                0,
                0,
            ),
            TestingStep::HeaderEntryPoint { esp, fd, size } => (
                STEP_SPAWN_HEADER_ENTRY_POINT,
                esp,
                fd,
                size,
                0,
                0,
                0,
                0,
                0,
                0,
                0,
            ),
            TestingStep::HeaderTable {
                esp,
                fd,
                size,
                entry_point,
            } => (
                STEP_SPAWN_HEADER_TABLE,
                esp,
                fd,
                size,
                entry_point,
                0,
                0,
                0,
                0,
                0,
                0,
            ),
            TestingStep::HeaderLength {
                esp,
                fd,
                size,
                entry_point,
                place,
            } => (
                STEP_SPAWN_HEADER_LENGTH,
                esp,
                fd,
                size,
                entry_point,
                place,
                0,
                0,
                0,
                0,
                0,
            ),
            TestingStep::HeaderCount {
                esp,
                fd,
                size,
                entry_point,
                place,
            } => (
                STEP_SPAWN_HEADER_COUNT,
                esp,
                fd,
                size,
                entry_point,
                place,
                0,
                0,
                0,
                0,
                0,
            ),
            TestingStep::TableLoading {
                esp,
                fd,
                size,
                entry_point,
                headers,
                copied,
            } => (
                STEP_SPAWN_TABLE_LOADING,
                esp,
                fd,
                size,
                entry_point,
                headers,
                copied,
                0,
                0,
                0,
                0,
            ),
            TestingStep::TableStoring {
                esp,
                fd,
                size,
                entry_point,
                headers,
                copied,
                word,
            } => (
                STEP_SPAWN_TABLE_STORING,
                esp,
                fd,
                size,
                entry_point,
                headers,
                copied,
                word,
                0,
                0,
                0,
            ),
            TestingStep::SegmentKind {
                esp,
                fd,
                size,
                entry_point,
                headers,
                header,
            } => (
                STEP_SPAWN_SEGMENT_KIND,
                esp,
                fd,
                size,
                entry_point,
                headers,
                header,
                0,
                0,
                0,
                0,
            ),
            TestingStep::SegmentMemory {
                esp,
                fd,
                size,
                entry_point,
                headers,
                header,
            } => (
                STEP_SPAWN_SEGMENT_MEMORY,
                esp,
                fd,
                size,
                entry_point,
                headers,
                header,
                0,
                0,
                0,
                0,
            ),
            TestingStep::SegmentAddress {
                esp,
                fd,
                size,
                entry_point,
                headers,
                header,
                memory,
            } => (
                STEP_SPAWN_SEGMENT_ADDRESS,
                esp,
                fd,
                size,
                entry_point,
                headers,
                header,
                memory,
                0,
                0,
                0,
            ),
            TestingStep::SegmentLength {
                esp,
                fd,
                size,
                entry_point,
                headers,
                header,
                va,
                memory,
            } => (
                STEP_SPAWN_SEGMENT_LENGTH,
                esp,
                fd,
                size,
                entry_point,
                headers,
                header,
                va,
                memory,
                0,
                0,
            ),
            TestingStep::SegmentOffset {
                esp,
                fd,
                size,
                entry_point,
                headers,
                header,
                va,
                memory,
                length,
            } => (
                STEP_SPAWN_SEGMENT_OFFSET,
                esp,
                fd,
                size,
                entry_point,
                headers,
                header,
                va,
                memory,
                length,
                0,
            ),
            TestingStep::OtherKind {
                esp,
                fd,
                size,
                entry_point,
                headers,
                header,
                va,
                memory,
                other,
            } => (
                STEP_SPAWN_OTHER_KIND,
                esp,
                fd,
                size,
                entry_point,
                headers,
                header,
                va,
                memory,
                other,
                0,
            ),
            TestingStep::OtherMemory {
                esp,
                fd,
                size,
                entry_point,
                headers,
                header,
                va,
                memory,
                other,
            } => (
                STEP_SPAWN_OTHER_MEMORY,
                esp,
                fd,
                size,
                entry_point,
                headers,
                header,
                va,
                memory,
                other,
                0,
            ),
            TestingStep::OtherAddress {
                esp,
                fd,
                size,
                entry_point,
                headers,
                header,
                va,
                memory,
                other,
                other_memory,
            } => (
                STEP_SPAWN_OTHER_ADDRESS,
                esp,
                fd,
                size,
                entry_point,
                headers,
                header,
                va,
                memory,
                other,
                other_memory,
            ),
        };
    Extra([
        number + 1,
        place,
        first,
        second,
        third,
        fourth,
        fifth,
        sixth,
        seventh,
        eighth,
        ninth,
        tenth,
    ])
}

/// The same with its child, and with the segments of that.
#[tactic(auto, unfolding(crate::specs::SpawnPlaces::bearing_words_at))]
fn bearing_words_at(number: u32, at: BearingStep) -> Extra
    requires { number ≤ SERVICES }
    ensures { result.0 ≡ places.bearing_words_at number at }
{
    let (place, first, second, third, fourth, fifth, sixth, seventh, eighth) = match at {
        BearingStep::MakingChild {
            esp,
            fd,
            entry_point,
            headers,
        } => (
            STEP_SPAWN_MAKING_CHILD,
            esp,
            fd,
            entry_point,
            headers,
            0,
            0,
            0,
            0,
        ),
        BearingStep::StoringRegister {
            esp,
            fd,
            entry_point,
            headers,
            child,
            index,
        } => (
            STEP_SPAWN_STORING_REGISTER,
            esp,
            fd,
            entry_point,
            headers,
            child,
            index,
            0,
            0,
        ),
        BearingStep::SettingRegisters { fd, headers, child } => (
            STEP_SPAWN_SETTING_REGISTERS,
            fd,
            headers,
            child,
            0,
            0,
            0,
            0,
            0,
        ),
        BearingStep::PlacingKind {
            fd,
            headers,
            child,
            header,
        } => (
            STEP_SPAWN_PLACING_KIND,
            fd,
            headers,
            child,
            header,
            0,
            0,
            0,
            0,
        ),
        BearingStep::PlacingMemory {
            fd,
            headers,
            child,
            header,
        } => (
            STEP_SPAWN_PLACING_MEMORY,
            fd,
            headers,
            child,
            header,
            0,
            0,
            0,
            0,
        ),
        BearingStep::PlacingAddress {
            fd,
            headers,
            child,
            header,
            memory,
        } => (
            STEP_SPAWN_PLACING_ADDRESS,
            fd,
            headers,
            child,
            header,
            memory,
            0,
            0,
            0,
        ),
        BearingStep::PlacingPage {
            fd,
            headers,
            child,
            header,
            page,
            last,
        } => (
            STEP_SPAWN_PLACING_PAGE,
            fd,
            headers,
            child,
            header,
            page,
            last,
            0,
            0,
        ),
        BearingStep::PieceKind {
            fd,
            headers,
            child,
            header,
        } => (
            STEP_SPAWN_PIECE_KIND,
            fd,
            headers,
            child,
            header,
            0,
            0,
            0,
            0,
        ),
        BearingStep::PieceMemory {
            fd,
            headers,
            child,
            header,
        } => (
            STEP_SPAWN_PIECE_MEMORY,
            fd,
            headers,
            child,
            header,
            0,
            0,
            0,
            0,
        ),
        BearingStep::PieceLength {
            fd,
            headers,
            child,
            header,
            done,
        } => (
            STEP_SPAWN_PIECE_LENGTH,
            fd,
            headers,
            child,
            header,
            done,
            0,
            0,
            0,
        ),
        BearingStep::PieceOffset {
            fd,
            headers,
            child,
            header,
            done,
            end,
        } => (
            STEP_SPAWN_PIECE_OFFSET,
            fd,
            headers,
            child,
            header,
            done,
            end,
            0,
            0,
        ),
        BearingStep::PieceAddress {
            fd,
            headers,
            child,
            header,
            done,
            end,
        } => (
            STEP_SPAWN_PIECE_ADDRESS,
            fd,
            headers,
            child,
            header,
            done,
            end,
            0,
            0,
        ),
        BearingStep::MappingHere {
            fd,
            headers,
            child,
            header,
            va,
            done,
            end,
        } => (
            STEP_SPAWN_MAPPING_HERE,
            fd,
            headers,
            child,
            header,
            va,
            done,
            end,
            0,
        ),
        BearingStep::PieceLoading {
            fd,
            headers,
            child,
            header,
            va,
            done,
            end,
        } => (
            STEP_SPAWN_PIECE_LOADING,
            fd,
            headers,
            child,
            header,
            va,
            done,
            end,
            0,
        ),
        BearingStep::PieceRest {
            fd,
            headers,
            child,
            header,
            va,
            done,
            end,
            first,
        } => (
            STEP_SPAWN_PIECE_REST,
            fd,
            headers,
            child,
            header,
            va,
            done,
            end,
            first,
        ),
        BearingStep::PiecePutting {
            fd,
            headers,
            child,
            header,
            va,
            done,
            end,
            word,
        } => (
            STEP_SPAWN_PIECE_PUTTING,
            fd,
            headers,
            child,
            header,
            va,
            done,
            end,
            word,
        ),
        BearingStep::UnmappingHere {
            fd,
            headers,
            child,
            header,
            end,
        } => (
            STEP_SPAWN_UNMAPPING_HERE,
            fd,
            headers,
            child,
            header,
            end,
            0,
            0,
            0,
        ),
    };
    Extra([
        number + 1,
        place,
        first,
        second,
        third,
        fourth,
        fifth,
        sixth,
        seventh,
        eighth,
        0,
        0,
    ])
}

/// The same with a child that has all bytes.
#[tactic(auto, unfolding(crate::specs::SpawnPlaces::finishing_words_at))]
fn finishing_words_at(number: u32, at: FinishingStep) -> Extra
    requires { number ≤ SERVICES }
    ensures { result.0 ≡ places.finishing_words_at number at }
{
    let (place, first, second, third, fourth, fifth, sixth, seventh, eighth) = match at {
        FinishingStep::RightsKind {
            fd,
            headers,
            child,
            header,
        } => (
            STEP_SPAWN_RIGHTS_KIND,
            fd,
            headers,
            child,
            header,
            0,
            0,
            0,
            0,
        ),
        FinishingStep::RightsFlags {
            fd,
            headers,
            child,
            header,
        } => (
            STEP_SPAWN_RIGHTS_FLAGS,
            fd,
            headers,
            child,
            header,
            0,
            0,
            0,
            0,
        ),
        FinishingStep::RightsMemory {
            fd,
            headers,
            child,
            header,
        } => (
            STEP_SPAWN_RIGHTS_MEMORY,
            fd,
            headers,
            child,
            header,
            0,
            0,
            0,
            0,
        ),
        FinishingStep::RightsAddress {
            fd,
            headers,
            child,
            header,
            memory,
        } => (
            STEP_SPAWN_RIGHTS_ADDRESS,
            fd,
            headers,
            child,
            header,
            memory,
            0,
            0,
            0,
        ),
        FinishingStep::SharedKind {
            fd,
            headers,
            child,
            header,
            page,
            end,
            other,
        } => (
            STEP_SPAWN_SHARED_KIND,
            fd,
            headers,
            child,
            header,
            page,
            end,
            other,
            0,
        ),
        FinishingStep::SharedFlags {
            fd,
            headers,
            child,
            header,
            page,
            end,
            other,
        } => (
            STEP_SPAWN_SHARED_FLAGS,
            fd,
            headers,
            child,
            header,
            page,
            end,
            other,
            0,
        ),
        FinishingStep::SharedMemory {
            fd,
            headers,
            child,
            header,
            page,
            end,
            other,
        } => (
            STEP_SPAWN_SHARED_MEMORY,
            fd,
            headers,
            child,
            header,
            page,
            end,
            other,
            0,
        ),
        FinishingStep::SharedAddress {
            fd,
            headers,
            child,
            header,
            page,
            end,
            other,
            other_memory,
        } => (
            STEP_SPAWN_SHARED_ADDRESS,
            fd,
            headers,
            child,
            header,
            page,
            end,
            other,
            other_memory,
        ),
        FinishingStep::RightsPage {
            fd,
            headers,
            child,
            header,
            page,
            end,
        } => (
            STEP_SPAWN_RIGHTS_PAGE,
            fd,
            headers,
            child,
            header,
            page,
            end,
            0,
            0,
        ),
        FinishingStep::ChildStack { fd, child } => (
            STEP_SPAWN_CHILD_STACK,
            fd,
            child,
            0,
            0,
            0,
            0,
            0,
            0,
        ),
        FinishingStep::ChildUpcall { fd, child } => (
            STEP_SPAWN_CHILD_UPCALL,
            fd,
            child,
            0,
            0,
            0,
            0,
            0,
            0,
        ),
        FinishingStep::GivingStack { fd, child } => (
            STEP_SPAWN_GIVING_STACK,
            fd,
            child,
            0,
            0,
            0,
            0,
            0,
            0,
        ),
        FinishingStep::ReleasingStack { fd, child } => (
            STEP_SPAWN_RELEASING_STACK,
            fd,
            child,
            0,
            0,
            0,
            0,
            0,
            0,
        ),
        FinishingStep::ReleasingGiven { fd, child } => (
            STEP_SPAWN_RELEASING_GIVEN,
            fd,
            child,
            0,
            0,
            0,
            0,
            0,
            0,
        ),
        FinishingStep::ReleasingPath { fd, child } => (
            STEP_SPAWN_RELEASING_PATH,
            fd,
            child,
            0,
            0,
            0,
            0,
            0,
            0,
        ),
        FinishingStep::DroppingFile { fd, child } => (
            STEP_SPAWN_DROPPING_FILE,
            fd,
            child,
            0,
            0,
            0,
            0,
            0,
            0,
        ),
        FinishingStep::PassingRegion { child, region } => (
            STEP_SPAWN_PASSING_REGION,
            child,
            region,
            0,
            0,
            0,
            0,
            0,
            0,
        ),
        FinishingStep::PassingEntry { child, page } => (
            STEP_SPAWN_PASSING_ENTRY,
            child,
            page,
            0,
            0,
            0,
            0,
            0,
            0,
        ),
        FinishingStep::PassingPage { child, page, perm } => (
            STEP_SPAWN_PASSING_PAGE,
            child,
            page,
            perm,
            0,
            0,
            0,
            0,
            0,
        ),
        FinishingStep::ChildRuns { child } => (STEP_SPAWN_CHILD_RUNS, child, 0, 0, 0, 0, 0, 0, 0),
    };
    Extra([
        number + 1,
        place,
        first,
        second,
        third,
        fourth,
        fifth,
        sixth,
        seventh,
        eighth,
        0,
        0,
    ])
}

/// The same where it was refused something.
#[tactic(auto, unfolding(crate::specs::SpawnPlaces::undoing_words_at))]
fn undoing_words_at(number: u32, at: UndoingStep) -> Extra
    requires { number ≤ SERVICES }
    ensures { result.0 ≡ places.undoing_words_at number at }
{
    let (place, first, second, third) = match at {
        UndoingStep::DestroyingChild { fd, child, error } => (
            STEP_SPAWN_DESTROYING_CHILD,
            fd,
            child,
            error,
        ),
        UndoingStep::ClosingFile { fd, error } => (STEP_SPAWN_CLOSING_FILE, fd, error, 0),
        UndoingStep::UndoingStack { error } => (STEP_SPAWN_UNDOING_STACK, error, 0, 0),
        UndoingStep::UndoingGiven { error } => (STEP_SPAWN_UNDOING_GIVEN, error, 0, 0),
        UndoingStep::UndoingPath { error } => (STEP_SPAWN_UNDOING_PATH, error, 0, 0),
    };
    Extra([number + 1, place, first, second, third, 0, 0, 0, 0, 0, 0, 0])
}

/// The number of a step at which a part of the file is read, and the word that is kept with it.
#[tactic(auto, unfolding(crate::specs::SpawnPlaces::read_number, crate::specs::SpawnPlaces::read_word))]
fn read_words(at: ReadStep) -> (u32, u32)
    ensures number { result.0 ≡ places.read_number at }
    ensures word { result.1 ≡ places.read_word at }
{
    match at {
        ReadStep::LoadingNumber => (STEP_SPAWN_LOADING_NUMBER, 0),
        ReadStep::StoringNumber { number } => (STEP_SPAWN_STORING_NUMBER, number),
        ReadStep::StoringCount => (STEP_SPAWN_STORING_COUNT, 0),
        ReadStep::StoringPlace => (STEP_SPAWN_STORING_PLACE, 0),
        ReadStep::Identifying => (STEP_SPAWN_IDENTIFYING, 0),
        ReadStep::Asking { id } => (STEP_SPAWN_ASKING, id),
        ReadStep::Pausing { id } => (STEP_SPAWN_PAUSING, id),
        ReadStep::Awaiting { id } => (STEP_SPAWN_AWAITING, id),
        ReadStep::ReadingReply { id } => (STEP_SPAWN_READING_REPLY, id),
    }
}

/// The words of spawn, which is named by its number, where it is so far with a part of the file.
#[tactic(auto, unfolding(crate::specs::SpawnPlaces::reading_words_at))]
fn reading_words_at(number: u32, part: FilePart, at: ReadStep) -> Extra
    requires { number ≤ SERVICES }
    ensures { result.0 ≡ places.reading_words_at number part at }
{
    let (place, word) = read_words(at);
    let (kind, first, second, third, fourth, fifth, sixth, seventh) = match part {
        FilePart::Header { esp, fd, size } => (SPAWN_PART_HEADER, esp, fd, size, 0, 0, 0, 0),
        FilePart::Table {
            esp,
            fd,
            size,
            entry_point,
            headers,
            place,
        } => (
            SPAWN_PART_TABLE,
            esp,
            fd,
            size,
            entry_point,
            headers,
            place,
            0,
        ),
        FilePart::Piece {
            fd,
            headers,
            child,
            header,
            done,
            end,
            place,
        } => (
            SPAWN_PART_PIECE,
            fd,
            headers,
            child,
            header,
            done,
            end,
            place,
        ),
    };
    Extra([
        number + 1,
        place,
        kind,
        first,
        second,
        third,
        fourth,
        fifth,
        sixth,
        seventh,
        word,
        0,
    ])
}

/// The words of spawn, which is named by its number, behind its path.
#[tactic(auto, unfolding(crate::specs::SpawnPlaces::spawn_words_at))]
pub(crate) fn spawn_words_at(number: u32, at: SpawnStep) -> Extra
    requires { number ≤ SERVICES }
    ensures { result.0 ≡ places.spawn_words_at number at }
{
    match at {
        SpawnStep::Given { at } => given_words_at(number, at),
        SpawnStep::Opening { at } => opening_words_at(number, at),
        SpawnStep::Reading { part, at } => reading_words_at(number, part, at),
        SpawnStep::Testing { at } => testing_words_at(number, at),
        SpawnStep::Bearing { at } => bearing_words_at(number, at),
        SpawnStep::Finishing { at } => finishing_words_at(number, at),
        SpawnStep::Undoing { at } => undoing_words_at(number, at),
    }
}
