//! What a client asks the file server for.

ghost use Rattle.std.specs.Prelude.{◌≡◌};
ghost use Rattle.lib_os.specs.Requests as requests;

use crate::numbers::{
    FSREQ_OPEN, FSREQ_READ, FSREQ_READ_AT, FSREQ_REMOVE, FSREQ_SEEK, FSREQ_SET_SIZE, FSREQ_STAT,
    FSREQ_SYNC, FSREQ_WRITE,
};

/// What is asked for. The page that goes with the message has what is given: the path from byte 0 on, with a NUL behind it, and
/// for `Open` the mode (`REQUEST_MODE`); or the number of the file (`REQUEST_FILE`), then a count, a size or an offset
/// (`REQUEST_COUNT`), and for `Write` the bytes (`REQUEST_BYTES`), for `ReadAt` the place of the first byte (`REQUEST_PLACE`). What is
/// read or told stands in it from byte 0 on when the reply comes. (MIT 6.828, lab 5: inc/fs.h, `union Fsipc`)
#[derive(Clone, Copy, Debug, PartialEq, Eq)]
pub enum RequestKind {
    Open,
    SetSize,
    Read,
    Write,
    Stat,
    Remove,
    Sync,
    Seek,
    ReadAt,
}

/// The word of the message.
pub fn request_word(kind: RequestKind) -> u32
    ensures { result ≡ requests.request_word kind }
{
    match kind {
        RequestKind::Open => FSREQ_OPEN,
        RequestKind::SetSize => FSREQ_SET_SIZE,
        RequestKind::Read => FSREQ_READ,
        RequestKind::Write => FSREQ_WRITE,
        RequestKind::Stat => FSREQ_STAT,
        RequestKind::Remove => FSREQ_REMOVE,
        RequestKind::Sync => FSREQ_SYNC,
        RequestKind::Seek => FSREQ_SEEK,
        RequestKind::ReadAt => FSREQ_READ_AT,
    }
}

/// What a word asks for, if anything.
pub fn request_kind(word: u32) -> Option<RequestKind>
    ensures { result ≡ requests.request_kind word }
{
    match word {
        FSREQ_OPEN => Some(RequestKind::Open),
        FSREQ_SET_SIZE => Some(RequestKind::SetSize),
        FSREQ_READ => Some(RequestKind::Read),
        FSREQ_WRITE => Some(RequestKind::Write),
        FSREQ_STAT => Some(RequestKind::Stat),
        FSREQ_REMOVE => Some(RequestKind::Remove),
        FSREQ_SYNC => Some(RequestKind::Sync),
        FSREQ_SEEK => Some(RequestKind::Seek),
        FSREQ_READ_AT => Some(RequestKind::ReadAt),
        _ => None,
    }
}
