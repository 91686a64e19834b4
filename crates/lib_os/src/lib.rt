//! What a program under `run` can see: an abstract system with no kernel in it, whose programs have pages of their own, which
//! a fork copies whole, pages with a name that several have, and files, each a list of bytes.
//!
//! `specs/` says what it is: its state (`AbstractState`) with memory (`AbstractMemory`), what a program may touch
//! (`Fence`), a step of a program (`GuestStep`), which service is asked for (`Services`), what the steps of each
//! service do (`LibraryCall`, with `MemoryServices`, `AbstractFork`, `AbstractMessages`, `Descriptors`,
//! `AbstractPipes` and `FileServices`), what the file server does (`FileServer`), and all of these as one step of a
//! slot, with when a slot may wait (`AbstractRun`). What these mean is said by a few laws, which are proved
//! (`AbstractLaws`); and how many frames they can want, by a number (`Need`).
//!
//! The library stands between this system and the kernel: `UserOs` has its calls of the kernel (`UserCalls`), `Places` where
//! a service stands between two of them, `StandsFor` when a state of the kernel stands for an abstract one, and
//! `LibrarySteps` what a step of the library promises. The services are crates of their own; what their proofs share is in
//! `proofs/` here.
//!
//! The code finds the service that a program asks for and where it stands, tells what a program may touch, and ends a
//! service. It refuses nothing and takes no memory.
#![tactic(auto)]

mod answers;
mod fence;
mod laws;
mod numbers;
mod pipe_numbers;
mod piping;
mod place;
mod progress;
mod request;
mod service;
mod spawn_numbers;
mod spawn_steps;
mod spawning;
mod user_os;

pub use answers::answer;
pub use answers::answer_of;
pub use answers::go_back;
pub use answers::go_on;
pub use answers::stopped;
pub use fence::in_fence;
pub use fence::is_buffer;
pub use fence::is_page_inside;
pub use fence::is_resident;
pub use laws::clients_leave_files;
pub use laws::counts_tell_closed;
pub use laws::fork_copies;
pub use laws::guest_memory_is_lawful;
pub use laws::need_is_reached;
pub use laws::pages_are_own_or_shared;
pub use laws::pipes_are_bounded;
pub use laws::served_clients_stay;
pub use laws::some_state_stands;
pub use laws::steps_leave_others;
pub use laws::words_tell_the_place;
pub use numbers::CACHE_BLOCKS;
pub use numbers::DESCRIPTORS;
pub use numbers::DEVICE_CONSOLE;
pub use numbers::DEVICE_FILE;
pub use numbers::DEVICE_PIPE;
pub use numbers::DISKMAP;
pub use numbers::ENV_RUNS;
pub use numbers::FD_DEVICE;
pub use numbers::FD_FILE;
pub use numbers::FD_MODE;
pub use numbers::FD_OFFSET;
pub use numbers::FD_SIZE;
pub use numbers::FDTABLE_END;
pub use numbers::FSREQ_OPEN;
pub use numbers::FSREQ_READ_AT;
pub use numbers::FSREQ_REMOVE;
pub use numbers::FSREQ_SEEK;
pub use numbers::FSREQ_SET_SIZE;
pub use numbers::FSREQ_SYNC;
pub use numbers::FSREQ_WRITE;
pub use numbers::MAXOPEN;
pub use numbers::MODE_BITS;
pub use numbers::O_RDWR;
pub use numbers::OFFSET_MAX;
pub use numbers::OPEN_RECORDS;
pub use numbers::PAGE_WORDS;
pub use numbers::PFTEMP;
pub use numbers::PGFAULT_UPCALL;
pub use numbers::PIPE_BYTES;
pub use numbers::PIPE_LOCK;
pub use numbers::PIPE_READ;
pub use numbers::PIPE_WRITE;
pub use numbers::PIPEBUFSIZ;
pub use numbers::PTE_COW;
pub use numbers::PTE_SHARE;
pub use numbers::REQUEST;
pub use numbers::REQUEST_BYTES;
pub use numbers::REQUEST_COUNT;
pub use numbers::REQUEST_FILE;
pub use numbers::REQUEST_MODE;
pub use numbers::REQUEST_PLACE;
pub use numbers::RESIDENT;
pub use numbers::SERVICE_CLOSE;
pub use numbers::SERVICE_CPUTS;
pub use numbers::SERVICE_DUP;
pub use numbers::SERVICE_EXIT;
pub use numbers::SERVICE_FORK;
pub use numbers::SERVICE_GETID;
pub use numbers::SERVICE_OPEN_FILE;
pub use numbers::SERVICE_PAGE_DROP;
pub use numbers::SERVICE_PAGE_NEW;
pub use numbers::SERVICE_PIPE;
pub use numbers::SERVICE_READ;
pub use numbers::SERVICE_RECEIVE;
pub use numbers::SERVICE_REMOVE;
pub use numbers::SERVICE_SEEK;
pub use numbers::SERVICE_SEND;
pub use numbers::SERVICE_SET_SIZE;
pub use numbers::SERVICE_SPAWN;
pub use numbers::SERVICE_STAT;
pub use numbers::SERVICE_SYNC;
pub use numbers::SERVICE_WAIT;
pub use numbers::SERVICE_WRITE;
pub use numbers::SERVICE_YIELD;
pub use numbers::SERVICES;
pub use numbers::SPAWN_ADDRESSES;
pub use numbers::SPAWN_GIVEN;
pub use numbers::SPAWN_HERE;
pub use numbers::SPAWN_STACK;
pub use numbers::STAT_SIZE;
pub use numbers::TRANSFER_MAX;
pub use numbers::UVPD;
pub use numbers::UXSTACK;
pub use place::HandlerStep;
pub use place::PipeStep;
pub use place::Place;
pub use place::Step;
pub use place::find_place;
pub use place::handler_registers;
pub use place::words_at;
pub use progress::Progress;
pub use request::RequestKind;
pub use request::request_kind;
pub use request::request_word;
pub use service::Service;
pub use service::service_of;
pub use spawn_steps::BearingStep;
pub use spawn_steps::FilePart;
pub use spawn_steps::FinishingStep;
pub use spawn_steps::GivenStep;
pub use spawn_steps::OpeningStep;
pub use spawn_steps::ReadStep;
pub use spawn_steps::SpawnStep;
pub use spawn_steps::TestingStep;
pub use spawn_steps::UndoingStep;
pub use user_os::Stop;
pub use user_os::UserOs;
