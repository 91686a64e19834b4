//! What a service asks that asks the file server with a page.

ghost use Rattle.std.specs.Prelude.{◌≡◌};
ghost use Rattle.lib_request.specs.PageRequests as requests;

use jos_base::{
    E_IPC_NOT_RECV, FIRST_ENV_ID, PTE_P, PTE_U, PTE_W, SYS_IPC_RECV, SYS_IPC_TRY_SEND,
    SYS_PAGE_UNMAP, UTEMP, UTOP,
};
use lib_os::Step;
use lib_stage::{Ask, Next};

/// The word of its request is sent to the server, with its page.
pub fn ask_with_page(word: u32) -> Ask
    ensures { result ≡ requests.request_asked word }
{
    Ask::System {
        number: SYS_IPC_TRY_SEND,
        args: [FIRST_ENV_ID, word, UTEMP, PTE_P + PTE_U + PTE_W, 0],
    }
}

/// It waits for the reply, with which no page comes.
pub fn ask_reply() -> Ask
    ensures { result ≡ requests.reply_asked }
{
    ask_reply_at(UTOP)
}

/// It waits for the reply; a page that comes with it is put at this address.
pub(crate) fn ask_reply_at(va: u32) -> Ask
    ensures { result ≡ requests.reply_asked_at va }
{
    Ask::System {
        number: SYS_IPC_RECV,
        args: [va, FIRST_ENV_ID, 0, 0, 0],
    }
}

/// Its page is given back.
pub fn ask_clearing() -> Ask
    ensures { result ≡ requests.clearing_asked }
{
    Ask::System {
        number: SYS_PAGE_UNMAP,
        args: [0, UTEMP, 0, 0, 0],
    }
}

/// What it does next by what it was answered where it asked.
pub fn next_of_asking(id: u32, word: u32) -> Next
    ensures { result ≡ requests.next_of_asking id word }
{
    next_by(Step::Pausing { perm: id }, Step::Awaiting { id }, word)
}

/// The same, with the steps at which it pauses and waits for the reply.
pub(crate) fn next_by(pausing: Step, awaiting: Step, word: u32) -> Next
    ensures { result ≡ requests.next_by pausing awaiting word }
{
    if word == E_IPC_NOT_RECV.wrapping_neg() {
        return Next::Wait(pausing);
    }
    if word != 0 {
        return Next::Answer(word);
    }
    Next::Show(awaiting)
}
