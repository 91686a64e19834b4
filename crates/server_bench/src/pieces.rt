//! What the programs' lines have in common: a new client, the host's file, and pages that the server holds.

use crate::given::{given_bytes, rest_of, tell_bytes};
use crate::machine::{NAME, OWN_PERM, ServerMachine, Unanswered};
use fs_layout::RECORDSIZE;
use jos_base::{
    ENV_RUNNABLE, NENV, PGSIZE, SYS_ENV_SET_STATUS, SYS_EXOFORK, SYS_PAGE_ALLOC, SYS_PAGE_UNMAP,
};
use jos_host::Host;
use lib_os::CACHE_BLOCKS;
use std::alloc::{AllocError, Global};
use test_cases::twelve_numbers;

/// Where the server takes pages.
const HELD: u32 = 0x3000_0000;

/// That something was done.
pub fn tell_done(alloc: Global) -> Result<String, AllocError> {
    String::from_str(alloc, "done")
}

/// A word that was answered.
pub fn tell_word(alloc: Global, given: Result<u32, Unanswered>) -> Result<String, AllocError> {
    match given {
        Ok(word) => format!(in alloc; "{word:x}"),
        Err(why) => format!(in alloc; "{why:?}"),
    }
}

impl ServerMachine {
    /// Makes a client, which may run, and gives its slot.
    pub fn client(&mut self) -> Result<u32, Unanswered> {
        let id = self.system(0, SYS_EXOFORK, [0; 5])?;
        self.system(0, SYS_ENV_SET_STATUS, [id, ENV_RUNNABLE, 0, 0, 0])?;
        Ok(id % NENV)
    }

    /// Puts bytes into the host's file. Whether there is such a place, and the host did not fail.
    fn put_at(&mut self, place: u32, bytes: &[u8]) -> bool {
        let length = match self.host.file(NAME) {
            Some(file) => file.len(),
            None => 0,
        };
        if place as usize > length {
            return false;
        }
        self.host.write_at(NAME, place as u64, bytes).is_ok()
    }

    /// Puts bytes into it that are given in digits, behind their place.
    pub fn put_bytes(&mut self, alloc: Global, given: &str) -> Result<String, AllocError> {
        let [place, ..] = twelve_numbers(given);
        let bytes = given_bytes(alloc, rest_of(given))?;
        if self.put_at(place, bytes.as_slice()) {
            tell_done(alloc)
        } else {
            String::from_str(alloc, "no place")
        }
    }

    /// Puts records of empty files into it, with names of one byte.
    pub fn put_records(
        &mut self,
        alloc: Global,
        place: u32,
        count: u32,
        first: u32,
    ) -> Result<String, AllocError> {
        let mut at = place;
        for number in 0..count % 256 {
            let name = ((first % 256 + number) % 256) as u8;
            if !self.put_at(at, &[name]) {
                return String::from_str(alloc, "no place");
            }
            at = at.wrapping_add(RECORDSIZE);
        }
        tell_done(alloc)
    }

    /// Bytes of the host's file.
    pub fn file(&self, alloc: Global, given: &str) -> Result<String, AllocError> {
        let [place, count, ..] = twelve_numbers(given);
        let bytes = self.host.file(NAME).unwrap_or(&[]);
        let end = (place as usize).saturating_add(count as usize);
        match bytes.get(place as usize..end) {
            Some(bytes) => tell_bytes(alloc, bytes),
            None => String::from_str(alloc, "no bytes"),
        }
    }

    /// Takes so many pages for the server, and tells how many there were.
    pub fn hold(&mut self, alloc: Global, pages: u32) -> Result<String, AllocError> {
        for page in 0..pages % CACHE_BLOCKS {
            let args = [0, HELD + PGSIZE * page, OWN_PERM, 0, 0];
            match self.system(0, SYS_PAGE_ALLOC, args) {
                Ok(0) => {}
                Ok(_) => return format!(in alloc; "{page:x}"),
                Err(why) => return tell_word(alloc, Err(why)),
            }
        }
        format!(in alloc; "{pages:x}")
    }

    /// Gives back the first of them.
    pub fn give(&mut self, alloc: Global, pages: u32) -> Result<String, AllocError> {
        for page in 0..pages % CACHE_BLOCKS {
            let args = [0, HELD + PGSIZE * page, 0, 0, 0];
            if let Err(why) = self.system(0, SYS_PAGE_UNMAP, args) {
                return tell_word(alloc, Err(why));
            }
        }
        tell_done(alloc)
    }
}
