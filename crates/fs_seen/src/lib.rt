//! What the file server sees of the kernel's state, and the laws that its own calls do what it sees.
//!
//! The server sees the pages of its space (`ServerMemory.antt`): the disk, the page of a request, the table of open files. It stands over the disk with
//! a page of a request or without: between requests there is none, and a sync is told by the message alone. Of a call that concerns nobody else it is
//! shown that what comes of it is what is seen, that it does what it is to do, and that nothing stops it; and of a page that is taken for a place that
//! it is a new one, or that none was to be had (`ServerSees.antt`). So the server over the kernel makes the steps of the server by itself
//! (`fs_serving`), and serves by them as the abstract server does. It serves so by its steps on blocks, too: those of the job on files and those of a
//! flush, which leave the table as it was (`BlockSteps.antt`). And it serves on from one request to the next: it replies, gives back the page of the
//! request, waits, and is asked; and a step of another leaves it where it serves (`ServerWhole.antt`).
#![tactic(auto)]

mod laws;

pub use laws::{
    server_calls_are_seen, server_calls_go_on, server_calls_serve, server_flushes_serve,
    server_is_asked, server_is_asked_by_a_word, server_is_left_alone, server_jobs_are_lawful,
    server_jobs_serve, server_pages_are_taken, server_pauses, server_releases_its_page,
    server_replies, server_replies_with_a_word, server_serves_on, server_stands_where_it_serves,
    server_starts, server_waits_for_a_request, server_waits_to_reply, unopened_tables_are_empty,
    unopened_tables_stand,
};
