//! What a client does: its requests to the file server, and its descriptors.

ghost use Rattle.std.specs.Prelude.{◌<◌};

use crate::bench::{Between, NO_STEPS, NOTHING, ServerBench};
use fs_jobs::negated;
use jos_base::{
    E_IPC_NOT_RECV, ENV_IPC_VALUE, FDTABLE, FIRST_ENV_ID, PGSIZE, SYS_ENV_DESTROY, SYS_IPC_RECV,
    SYS_IPC_TRY_SEND, SYS_PAGE_ALLOC, SYS_PAGE_MAP, SYS_PAGE_UNMAP, UTEMP, UTOP,
};
use lib_os::{
    FD_FILE, MAXOPEN, PTE_SHARE, REQUEST_BYTES, REQUEST_COUNT, REQUEST_FILE, REQUEST_MODE,
    REQUEST_PLACE, RequestKind, STAT_SIZE, request_word,
};
use server_bench::{OWN_PERM, Unanswered, tell_bytes, tell_word};
use std::alloc::{AllocError, Global};

/// The most steps that are made for a line.
pub(crate) const STEPS_MAX: u32 = 100_000_000;

/// The word of the record of a slot that tells whether its environment waits for a message.
const RECEIVING: u32 = 7;

/// The page of a descriptor.
pub(crate) fn descriptor_page(fd: u32) -> u32
    ensures { result < 0xd0400000 }
{
    FDTABLE + PGSIZE * (fd % MAXOPEN)
}

impl ServerBench {
    /// A word of the page of a descriptor, if that is open.
    fn descriptor_word(
        &mut self,
        client: u32,
        fd: u32,
        at: u32,
    ) -> Result<Option<u32>, Unanswered> {
        let page = descriptor_page(fd);
        if !self.machine.has_page(client, page)? {
            return Ok(None);
        }
        let word = self.machine.load(client, page + at % PGSIZE)?;
        Ok(Some(word))
    }

    /// Words of the page of a descriptor.
    pub(crate) fn words(
        &mut self,
        alloc: Global,
        client: u32,
        fd: u32,
        places: &[u32],
    ) -> Result<String, AllocError> {
        let mut text = String::new(alloc);
        for at in places {
            let blank = if text.is_empty() { "" } else { " " };
            match self.descriptor_word(client, fd, *at) {
                Ok(Some(word)) => write!(text, "{blank}{word:x}")?,
                Ok(None) => return String::from_str(alloc, "no descriptor"),
                Err(why) => return tell_word(alloc, Err(why)),
            }
        }
        Ok(text)
    }

    /// The client takes a page for a request, if it has none. What page_alloc answers.
    fn take_page(&mut self, client: u32) -> Result<u32, Unanswered> {
        if self.keeps && self.machine.has_page(client, UTEMP)? {
            return Ok(0);
        }
        self.machine
            .system(client, SYS_PAGE_ALLOC, [0, UTEMP, OWN_PERM, 0, 0])
    }

    /// Sends a request with this word. While the server does not wait it makes its steps, so many at most. What ipc_try_send answers at last.
    fn send(&mut self, client: u32, word: u32, most: u32) -> Result<u32, Unanswered> {
        for _ in 0..most {
            let args = [FIRST_ENV_ID, word, UTEMP, OWN_PERM, 0];
            let answer = self.machine.system(client, SYS_IPC_TRY_SEND, args)?;
            if answer != negated(E_IPC_NOT_RECV) {
                return Ok(answer);
            }
            self.step()?;
        }
        Err(Unanswered::NoEnd)
    }

    /// The server makes its steps, so many at most, until the client has its reply. Its word.
    fn reply(&mut self, client: u32, most: u32) -> Result<u32, Unanswered> {
        for _ in 0..most {
            if self.machine.record(client, RECEIVING)? == 0 {
                return self.machine.record(client, ENV_IPC_VALUE);
            }
            self.step()?;
        }
        Err(Unanswered::NoEnd)
    }

    /// What comes between a request and its client's waiting. Whether the client ends.
    fn pass_between(&mut self, client: u32) -> Result<bool, Unanswered> {
        let Between { steps, other, ends } = self.between;
        self.between = NOTHING;
        for _ in 0..steps {
            self.step()?;
        }
        self.stood = self.place();
        self.tried = None;
        if other != 0 {
            let args = [FIRST_ENV_ID, request_word(RequestKind::Sync), UTOP, 0, 0];
            let answer = self.machine.system(other, SYS_IPC_TRY_SEND, args)?;
            self.tried = Some(answer);
        }
        if ends {
            self.machine.system(client, SYS_ENV_DESTROY, [0; 5])?;
        }
        Ok(ends)
    }

    /// A request with this word, and these bytes at their places in the client's page; a page that comes with the reply comes to this
    /// address. What is answered.
    fn asked(
        &mut self,
        client: u32,
        word: u32,
        to: u32,
        parts: &[(u32, &[u8])],
    ) -> Result<u32, Unanswered> {
        let taken = self.take_page(client)?;
        if taken != 0 {
            return Ok(taken);
        }
        for (at, bytes) in parts {
            self.machine.put(client, UTEMP, *at, bytes)?;
        }
        let sent = self.send(client, word, STEPS_MAX)?;
        if sent != 0 {
            return Ok(sent);
        }
        self.counts = NO_STEPS;
        if self.pass_between(client)? {
            return Err(Unanswered::Gone);
        }
        self.machine
            .system(client, SYS_IPC_RECV, [to, FIRST_ENV_ID, 0, 0, 0])?;
        self.reply(client, STEPS_MAX)
    }

    /// What such a request has come to. Where it was done so many bytes of its page are told, or as many as it answers. The page is given back,
    /// unless it is kept.
    pub(crate) fn request(
        &mut self,
        alloc: Global,
        client: u32,
        word: u32,
        to: u32,
        parts: &[(u32, &[u8])],
        handed: Option<u32>,
    ) -> Result<String, AllocError> {
        let asked = self.asked(client, word, to, parts);
        let Ok(answer) = asked else {
            return tell_word(alloc, asked);
        };
        let count = if answer > PGSIZE {
            0
        } else {
            handed.unwrap_or(answer)
        };
        let bytes = self.machine.bytes(alloc, client, UTEMP, count)?;
        if !self.keeps {
            let args = [0, UTEMP, 0, 0, 0];
            if let Err(why) = self.machine.system(client, SYS_PAGE_UNMAP, args) {
                return tell_word(alloc, Err(why));
            }
        }
        if bytes.is_empty() {
            return tell_word(alloc, Ok(answer));
        }
        let digits = tell_bytes(alloc, bytes.as_slice())?;
        format!(in alloc; "{answer:x} {digits}")
    }

    /// A request about a descriptor's file, with a count, a size or an offset, and bytes: those that are written, or of the place that is told.
    pub(crate) fn of_file(
        &mut self,
        alloc: Global,
        client: u32,
        fd: u32,
        kind: RequestKind,
        count: u32,
        bytes: &[u8],
    ) -> Result<String, AllocError> {
        let handed = match kind {
            RequestKind::Read | RequestKind::ReadAt => None,
            RequestKind::Stat => Some(STAT_SIZE),
            _ => Some(0),
        };
        let rest = match kind {
            RequestKind::ReadAt => REQUEST_PLACE,
            _ => REQUEST_BYTES,
        };
        match self.descriptor_word(client, fd, FD_FILE) {
            Ok(Some(file)) => {
                let file = file.to_le_bytes();
                let count = count.to_le_bytes();
                let parts: [(u32, &[u8]); 3] = [
                    (REQUEST_FILE, &file),
                    (REQUEST_COUNT, &count),
                    (rest, bytes),
                ];
                self.request(alloc, client, request_word(kind), UTOP, &parts, handed)
            }
            Ok(None) => String::from_str(alloc, "no descriptor"),
            Err(why) => tell_word(alloc, Err(why)),
        }
    }

    /// A request with a path, with a NUL behind it, and a mode.
    pub(crate) fn of_path(
        &mut self,
        alloc: Global,
        client: u32,
        kind: RequestKind,
        mode: u32,
        path: &str,
        to: u32,
    ) -> Result<String, AllocError> {
        let path = path.as_bytes();
        let end = (path.len() % PGSIZE as usize) as u32;
        let mode = mode.to_le_bytes();
        let parts: [(u32, &[u8]); 3] = [(0, path), (end, &[0]), (REQUEST_MODE, &mode)];
        self.request(alloc, client, request_word(kind), to, &parts, Some(0))
    }

    /// Opens a path as so many descriptors from one on, in a mode. The last answer.
    pub(crate) fn open_often(
        &mut self,
        alloc: Global,
        client: u32,
        given: [u32; 3],
        path: &str,
    ) -> Result<String, AllocError> {
        let [from, count, mode] = given;
        let mut told = String::new(alloc);
        for place in 0..count % (MAXOPEN + 1) {
            let page = descriptor_page((from % MAXOPEN) + place);
            told = self.of_path(alloc, client, RequestKind::Open, mode, path, page)?;
        }
        Ok(told)
    }

    /// Closes a descriptor.
    pub(crate) fn close(&mut self, client: u32, fd: u32) -> Result<u32, Unanswered> {
        let args = [0, descriptor_page(fd), 0, 0, 0];
        self.machine.system(client, SYS_PAGE_UNMAP, args)
    }

    /// A descriptor of a client becomes one of what another names.
    pub(crate) fn share(&mut self, from: [u32; 2], to: [u32; 2]) -> Result<u32, Unanswered> {
        let [giving, given] = from;
        let [taking, taken] = to;
        let giving = self.machine.record(giving, 0)?;
        let taking = self.machine.record(taking, 0)?;
        let args = [
            giving,
            descriptor_page(given),
            taking,
            descriptor_page(taken),
            OWN_PERM + PTE_SHARE,
        ];
        self.machine.system(0, SYS_PAGE_MAP, args)
    }
}
