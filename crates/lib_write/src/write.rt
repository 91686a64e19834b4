//! write: what it asks at each stage, and what it does next.

ghost use Rattle.std.specs.Prelude.{◌≡◌, ◌<◌};
ghost use Rattle.lib_write.specs.WriteStages as stages;

use jos_base::{
    Called, E_INVAL, E_NOT_SUPP, PGSIZE, PTE_P, PTE_U, PTE_W, SYS_CPUTS, SYS_GETENVID,
    SYS_PAGE_ALLOC, SYS_PAGE_UNMAP, SYS_YIELD, UTEMP,
};
use lib_fd::{ask_entry, ask_region_for, descriptor_va, is_there};
use lib_file::{
    ask_device, ask_keeping, ask_page_entry, ask_page_region, kept_at_once, moved_at_once,
    next_of_entry, next_of_region,
};
use lib_os::{
    DEVICE_CONSOLE, DEVICE_FILE, DEVICE_PIPE, FD_FILE, FD_MODE, FSREQ_WRITE, PipeStep,
    REQUEST_BYTES, REQUEST_COUNT, REQUEST_FILE, SERVICE_WRITE, Step, TRANSFER_MAX, answer_of,
    is_buffer,
};
use lib_pipe::{PipeService, PipeStage, ask_of_pipe, next_of_pipe, pipe_stage_of};
use lib_request::{ask_clearing, ask_reply, ask_with_page, next_of_asking, reply_place};
use lib_stage::{Ask, Next, Planned};

/// How far write is.
#[derive(Clone, Copy, Debug, PartialEq, Eq)]
pub enum WriteStage {
    /// It is about to read whether descriptors' pages have a table.
    Entered,
    /// It is about to read the entry of the descriptor's page.
    Entry,
    /// It is about to read what the descriptor names.
    Device,
    /// It names the console, and write is about to take a page for the bytes.
    TakingPage,
    /// It names a file, and write is about to read the mode of that.
    ReadingMode,
    /// It is about to take a page for its request, with the bytes.
    TakingRequest,
    /// It has taken so many bytes, which begin at this place in its page, and is about to read whether the region of the next has a table.
    BufferRegion {
        done: u32,
        start: u32,
    },
    /// It is about to read the entry of the next byte's page.
    BufferEntry {
        done: u32,
        start: u32,
    },
    /// It is about to load the next bytes.
    Gathering {
        done: u32,
        start: u32,
    },
    /// It has loaded the bytes of a word, of which so many are left, the next lowest, and is about to put them, or the next of them, into
    /// its page.
    Keeping {
        done: u32,
        word: u32,
        left: u32,
        start: u32,
    },
    /// Its page has all bytes for the console, and it is about to print them.
    Printing,
    /// They are printed, and it is about to give its page back.
    Releasing,
    /// The next byte can't be taken, and write is about to raise the fault that ends the environment.
    Faulting {
        done: u32,
    },
    /// Its page has all bytes for a file, and it is about to read the number of that.
    ReadingNumber,
    /// It is about to put the number into its page.
    StoringNumber {
        number: u32,
    },
    /// It is about to put there how many bytes there are.
    StoringCount,
    /// Its page tells the request, and it is about to ask for its id.
    Identifying,
    /// It is about to ask the server, and has this id.
    Asking {
        id: u32,
    },
    /// It has asked in vain, and is about to give up its turn.
    Pausing {
        id: u32,
    },
    /// It has asked, and is about to wait for the reply.
    Awaiting {
        id: u32,
    },
    /// It waits, or is about to give its page back.
    Clearing {
        id: u32,
    },
    /// It is about to read the word that came.
    ReadingReply {
        id: u32,
    },
    /// The descriptor names an end of a pipe, and write is at one of the stages of that.
    OfPipe {
        at: PipeStage,
    },
    /// It has moved its bytes into a pipe, and is about to give its page back, and to answer this.
    Returning {
        answer: u32,
    },
}

/// write(fd, va, len), at a stage.
#[derive(Clone, Copy, Debug, PartialEq, Eq)]
pub struct Write {
    pub fd: u32,
    pub va: u32,
    pub len: u32,
    pub at: WriteStage,
}

impl Write {
    /// write at a step, if it has this step.
    pub fn at_step(fd: u32, va: u32, len: u32, step: Step) -> Option<Write>
        ensures { result ≡ stages.write_at fd va len step }
    {
        let at = match step {
            Step::Entered => WriteStage::Entered,
            Step::DescriptorEntry { .. } => WriteStage::Entry,
            Step::ReadingDevice => WriteStage::Device,
            Step::TakingPage => WriteStage::TakingPage,
            Step::ReadingMode => WriteStage::ReadingMode,
            Step::TakingRequest => WriteStage::TakingRequest,
            Step::BufferRegion { done, word } => WriteStage::BufferRegion { done, start: word },
            Step::BufferEntry { done, word } => WriteStage::BufferEntry { done, start: word },
            Step::GatheringBytes { done, start } => WriteStage::Gathering { done, start },
            Step::KeepingBytes {
                done,
                word,
                left,
                start,
            } => WriteStage::Keeping {
                done,
                word,
                left,
                start,
            },
            Step::Printing => WriteStage::Printing,
            Step::Releasing => WriteStage::Releasing,
            Step::Faulting { done, .. } => WriteStage::Faulting { done },
            Step::ReadingNumber => WriteStage::ReadingNumber,
            Step::StoringNumber { number } => WriteStage::StoringNumber { number },
            Step::StoringCount => WriteStage::StoringCount,
            Step::Identifying => WriteStage::Identifying,
            Step::Asking { id } => WriteStage::Asking { id },
            Step::Pausing { perm } => WriteStage::Pausing { id: perm },
            Step::Awaiting { id } => WriteStage::Awaiting { id },
            Step::Clearing { id } => WriteStage::Clearing { id },
            Step::ReadingReply { id } => WriteStage::ReadingReply { id },
            Step::Piped { at } => match pipe_stage_of(at) {
                Some(at) => WriteStage::OfPipe { at },
                None => return None,
            },
            Step::Returning { answer } => WriteStage::Returning { answer },
            _ => return None,
        };
        Some(Write { fd, va, len, at })
    }

    /// How many bytes it takes for the console.
    fn wanted(&self) -> u32
        ensures { result ≡ stages.wanted_of self.now.len }
    {
        self.len.min(TRANSFER_MAX)
    }

    /// How many it takes where they begin at this place in its page, or, for a pipe, one page behind that.
    fn wanted_from(&self, start: u32) -> u32
        ensures { result ≡ stages.wanted_from start self.now.len }
    {
        self.len.min(PGSIZE - start % PGSIZE)
    }

    /// How many it takes at once, behind so many.
    fn moved(&self, start: u32, done: u32) -> u32
        ensures { result ≡ stages.moved self.now.va self.now.len start done }
    {
        moved_at_once(
            self.va.wrapping_add(done),
            self.wanted_from(start).saturating_sub(done),
        )
    }

    /// What it asks to take the next bytes.
    fn ask_gathering(&self, start: u32, done: u32) -> Ask
        ensures { result ≡ stages.gathering_asked self.now.va self.now.len start done }
    {
        let va = self.va.wrapping_add(done);
        if self.moved(start, done) == 4 {
            Ask::Load { va }
        } else {
            Ask::LoadByte { va }
        }
    }

    /// What it does next by the word that tells what its descriptor names.
    fn next_of_device(&self, device: u32) -> Next
        ensures { result ≡ stages.next_of_device self.now.va self.now.len device }
    {
        if device == DEVICE_FILE {
            return Next::GoOn(Step::ReadingMode);
        }
        if device == DEVICE_PIPE {
            return Next::GoOn(Step::Piped {
                at: PipeStep::EndMode,
            });
        }
        if device != DEVICE_CONSOLE {
            return Next::Answer(E_NOT_SUPP.wrapping_neg());
        }
        if !is_buffer(self.va, self.wanted()) {
            return Next::Answer(E_INVAL.wrapping_neg());
        }
        if self.len == 0 {
            return Next::Answer(0);
        }
        Next::GoOn(Step::TakingPage)
    }

    /// What it does next by the word that tells the mode of its file.
    fn next_of_mode(&self, mode: u32) -> Next
        ensures { result ≡ stages.next_of_mode self.now.va self.now.len mode }
    {
        if mode == 0 {
            return Next::Answer(E_INVAL.wrapping_neg());
        }
        if !is_buffer(self.va, self.wanted_from(REQUEST_BYTES)) {
            return Next::Answer(E_INVAL.wrapping_neg());
        }
        Next::GoOn(Step::TakingRequest)
    }

    /// What it does next when it has been answered where it took the page of its request.
    fn next_of_request(&self, word: u32) -> Next
        ensures { result ≡ stages.next_of_request self.now.len word }
    {
        if word != 0 {
            return Next::Answer(word);
        }
        if self.len == 0 {
            return Next::GoOn(Step::ReadingNumber);
        }
        Next::GoOn(Step::BufferRegion {
            done: 0,
            word: REQUEST_BYTES,
        })
    }

    /// What it does next when its page has so many bytes.
    fn next_behind(&self, start: u32, done: u32) -> Next
        ensures { result ≡ stages.next_behind self.now.va self.now.len start done }
    {
        if done >= self.wanted_from(start) {
            return next_with_all(start);
        }
        if self.va.wrapping_add(done) % PGSIZE == 0 {
            return Next::GoOn(Step::BufferRegion { done, word: start });
        }
        Next::GoOn(Step::GatheringBytes { done, start })
    }
}

/// What it does next when its page has all bytes.
fn next_with_all(start: u32) -> Next
    ensures { result ≡ stages.next_with_all start }
{
    if start == 0 {
        return Next::GoOn(Step::Printing);
    }
    if start == PGSIZE {
        return Next::GoOn(Step::Piped {
            at: PipeStep::Locking {
                done: 0,
                id: 0,
                runs: 0,
            },
        });
    }
    Next::GoOn(Step::ReadingNumber)
}

impl Planned for Write {
    ghost use Rattle.lib_write.specs.WriteStages.{writing};

    ghost plan = { writing };

    fn number(&self) -> u32 {
        SERVICE_WRITE
    }

    fn ask(&self) -> Ask {
        match self.at {
            WriteStage::Entered => ask_region_for(self.fd),
            WriteStage::Entry => ask_entry(self.fd),
            WriteStage::Device => ask_device(self.fd),
            WriteStage::TakingPage => Ask::System {
                number: SYS_PAGE_ALLOC,
                args: [0, UTEMP, PTE_P + PTE_U + PTE_W, 0, 0],
            },
            WriteStage::ReadingMode => Ask::Load {
                va: descriptor_va(self.fd) + FD_MODE,
            },
            WriteStage::TakingRequest => Ask::System {
                number: SYS_PAGE_ALLOC,
                args: [0, UTEMP, PTE_P + PTE_U + PTE_W, 0, 0],
            },
            WriteStage::BufferRegion { done, start: _ } => {
                ask_page_region(self.va.wrapping_add(done))
            }
            WriteStage::BufferEntry { done, start: _ } => ask_page_entry(
                self.va.wrapping_add(done),
            ),
            WriteStage::Gathering { done, start } => self.ask_gathering(start, done),
            WriteStage::Keeping {
                done,
                word,
                left,
                start,
            } => ask_keeping(start.wrapping_add(done), word, left),
            WriteStage::Printing => Ask::System {
                number: SYS_CPUTS,
                args: [UTEMP, self.wanted(), 0, 0, 0],
            },
            WriteStage::Releasing => Ask::System {
                number: SYS_PAGE_UNMAP,
                args: [0, UTEMP, 0, 0, 0],
            },
            WriteStage::Faulting { done } => Ask::LoadByte {
                va: self.va.wrapping_add(done),
            },
            WriteStage::ReadingNumber => Ask::Load {
                va: descriptor_va(self.fd) + FD_FILE,
            },
            WriteStage::StoringNumber { number } => Ask::Store {
                va: UTEMP + REQUEST_FILE,
                word: number,
            },
            WriteStage::StoringCount => Ask::Store {
                va: UTEMP + REQUEST_COUNT,
                word: self.wanted_from(REQUEST_BYTES),
            },
            WriteStage::Identifying => Ask::System {
                number: SYS_GETENVID,
                args: [0; 5],
            },
            WriteStage::Asking { id: _ } => ask_with_page(FSREQ_WRITE),
            WriteStage::Pausing { id: _ } => Ask::System {
                number: SYS_YIELD,
                args: [0; 5],
            },
            WriteStage::Awaiting { id: _ } => ask_reply(),
            WriteStage::Clearing { id: _ } => ask_clearing(),
            WriteStage::ReadingReply { id } => Ask::Load {
                va: reply_place(id),
            },
            WriteStage::OfPipe { at } => ask_of_pipe(
                PipeService::Write { len: self.len },
                self.fd,
                at,
            ),
            WriteStage::Returning { answer: _ } => ask_clearing(),
        }
    }

    fn next(&self, called: Called) -> Next {
        let word = answer_of(called);
        match self.at {
            WriteStage::Entered => next_of_region(self.fd, word),
            WriteStage::Entry => next_of_entry(word),
            WriteStage::Device => self.next_of_device(word),
            WriteStage::TakingPage => {
                if word != 0 {
                    return Next::Answer(word);
                }
                Next::GoOn(Step::BufferRegion { done: 0, word: 0 })
            }
            WriteStage::ReadingMode => self.next_of_mode(word),
            WriteStage::TakingRequest => self.next_of_request(word),
            WriteStage::BufferRegion { done, start } => {
                if !is_there(word) {
                    return Next::GoOn(Step::Faulting { done, word: start });
                }
                Next::GoOn(Step::BufferEntry { done, word: start })
            }
            WriteStage::BufferEntry { done, start } => {
                if !is_there(word) {
                    return Next::GoOn(Step::Faulting { done, word: start });
                }
                Next::GoOn(Step::GatheringBytes { done, start })
            }
            WriteStage::Gathering { done, start } => Next::Show(Step::KeepingBytes {
                done,
                word,
                left: self.moved(start, done),
                start,
            }),
            WriteStage::Keeping {
                done,
                word: kept,
                left,
                start,
            } => {
                let moved = kept_at_once(start.wrapping_add(done), left);
                let done = done.wrapping_add(moved);
                if left <= moved {
                    return self.next_behind(start, done);
                }
                Next::GoOn(Step::KeepingBytes {
                    done,
                    word: kept / 256,
                    left: left - moved,
                    start,
                })
            }
            WriteStage::Printing => match called {
                Called::Answered(_) => Next::Show(Step::Releasing),
                Called::Ended | Called::Blocked => Next::Gone,
            },
            WriteStage::Releasing => Next::GoBack(self.wanted()),
            WriteStage::Faulting { .. } => Next::Gone,
            WriteStage::ReadingNumber => Next::GoOn(Step::StoringNumber { number: word }),
            WriteStage::StoringNumber { number: _ } => Next::GoOn(Step::StoringCount),
            WriteStage::StoringCount => Next::GoOn(Step::Identifying),
            WriteStage::Identifying => Next::GoOn(Step::Asking { id: word }),
            WriteStage::Asking { id } => next_of_asking(id, word),
            WriteStage::Pausing { id } => Next::GoOn(Step::Asking { id }),
            WriteStage::Awaiting { id } => Next::Show(Step::Clearing { id }),
            WriteStage::Clearing { id } => Next::GoOn(Step::ReadingReply { id }),
            WriteStage::ReadingReply { id: _ } => Next::Answer(word),
            WriteStage::OfPipe { at } => {
                next_of_pipe(PipeService::Write { len: self.len }, self.va, at, word)
            }
            WriteStage::Returning { answer } => Next::GoBack(answer),
        }
    }
}
