//! The services, each by its own crate.

ghost use Rattle.std.specs.Prelude.{◌≡◌};
ghost use Rattle.jos_run.specs.Plans.{plan_at, plan_of};

use jos_base::Called;
use lib_fd::{Close, Dup, Exit};
use lib_fork::Fork;
use lib_mem::MemoryService;
use lib_msg::{Receive, Send};
use lib_offset::{Offset, OffsetService};
use lib_os::{Service, Step};
use lib_pipe::Pipe;
use lib_read::{Read, Stat};
use lib_request::{Open, Remove, Sync};
use lib_spawn::{Spawn, Wait};
use lib_stage::{Ask, Next, Nowhere, Planned};
use lib_write::Write;

/// A service at a stage.
#[derive(Clone, Copy)]
pub(crate) enum ServiceStage {
    Exit(Exit),
    Fork(Fork),
    Wait(Wait),
    Send(Send),
    Receive(Receive),
    Memory(MemoryService),
    Close(Close),
    Dup(Dup),
    Pipe(Pipe),
    Read(Read),
    Write(Write),
    Offset(Offset),
    Stat(Stat),
    Sync(Sync),
    Remove(Remove),
    Open(Open),
    Spawn(Spawn),
    /// The service has not this step.
    Nowhere(Nowhere),
}

/// The service as it stands at a step.
pub(crate) fn stage_of(service: Service, step: Step) -> ServiceStage
    ensures { plan_of result ≡ plan_at service step }
{
    match service {
        Service::Exit => match Exit::at_step(step) {
            Some(exit) => ServiceStage::Exit(exit),
            None => ServiceStage::Nowhere(Nowhere),
        },
        Service::Fork => match Fork::at_step(step) {
            Some(fork) => ServiceStage::Fork(fork),
            None => ServiceStage::Nowhere(Nowhere),
        },
        Service::Wait { id } => match Wait::at_step(id, step) {
            Some(wait) => ServiceStage::Wait(wait),
            None => ServiceStage::Nowhere(Nowhere),
        },
        Service::Send { id, value, va } => match Send::at_step(id, value, va, step) {
            Some(send) => ServiceStage::Send(send),
            None => ServiceStage::Nowhere(Nowhere),
        },
        Service::Receive { va, from } => match Receive::at_step(va, from, step) {
            Some(receive) => ServiceStage::Receive(receive),
            None => ServiceStage::Nowhere(Nowhere),
        },
        Service::Close { fd } => match Close::at_step(fd, step) {
            Some(close) => ServiceStage::Close(close),
            None => ServiceStage::Nowhere(Nowhere),
        },
        Service::Dup { old, new } => match Dup::at_step(old, new, step) {
            Some(dup) => ServiceStage::Dup(dup),
            None => ServiceStage::Nowhere(Nowhere),
        },
        Service::Pipe => match Pipe::at_step(step) {
            Some(pipe) => ServiceStage::Pipe(pipe),
            None => ServiceStage::Nowhere(Nowhere),
        },
        Service::Read { fd, va, len } => match Read::at_step(fd, va, len, step) {
            Some(read) => ServiceStage::Read(read),
            None => ServiceStage::Nowhere(Nowhere),
        },
        Service::Write { fd, va, len } => match Write::at_step(fd, va, len, step) {
            Some(write) => ServiceStage::Write(write),
            None => ServiceStage::Nowhere(Nowhere),
        },
        Service::Seek { fd, offset } => match Offset::at_step(
            OffsetService::Seek { offset },
            fd,
            step,
        ) {
            Some(seek) => ServiceStage::Offset(seek),
            None => ServiceStage::Nowhere(Nowhere),
        },
        Service::Stat { fd, va } => match Stat::at_step(fd, va, step) {
            Some(stat) => ServiceStage::Stat(stat),
            None => ServiceStage::Nowhere(Nowhere),
        },
        Service::SetSize { fd, size } => match Offset::at_step(
            OffsetService::SetSize { size },
            fd,
            step,
        ) {
            Some(set_size) => ServiceStage::Offset(set_size),
            None => ServiceStage::Nowhere(Nowhere),
        },
        Service::Sync => match Sync::at_step(step) {
            Some(sync) => ServiceStage::Sync(sync),
            None => ServiceStage::Nowhere(Nowhere),
        },
        Service::Remove { path } => match Remove::at_step(path, step) {
            Some(remove) => ServiceStage::Remove(remove),
            None => ServiceStage::Nowhere(Nowhere),
        },
        Service::OpenFile { path, mode } => match Open::at_step(path, mode, step) {
            Some(open) => ServiceStage::Open(open),
            None => ServiceStage::Nowhere(Nowhere),
        },
        Service::Spawn { path, argv } => match Spawn::at_step(path, argv, step) {
            Some(spawn) => ServiceStage::Spawn(spawn),
            None => ServiceStage::Nowhere(Nowhere),
        },
        _ => match MemoryService::of(service) {
            Some(memory) => ServiceStage::Memory(memory),
            None => ServiceStage::Nowhere(Nowhere),
        },
    }
}

impl Planned for ServiceStage {
    ghost use Rattle.jos_run.specs.Plans.{plan_of};

    ghost plan = { plan_of };

    fn number(&self) -> u32 {
        match self {
            ServiceStage::Exit(exit) => exit.number(),
            ServiceStage::Fork(fork) => fork.number(),
            ServiceStage::Wait(wait) => wait.number(),
            ServiceStage::Send(send) => send.number(),
            ServiceStage::Receive(receive) => receive.number(),
            ServiceStage::Memory(memory) => memory.number(),
            ServiceStage::Close(close) => close.number(),
            ServiceStage::Dup(dup) => dup.number(),
            ServiceStage::Pipe(pipe) => pipe.number(),
            ServiceStage::Read(read) => read.number(),
            ServiceStage::Write(write) => write.number(),
            ServiceStage::Offset(service) => service.number(),
            ServiceStage::Stat(stat) => stat.number(),
            ServiceStage::Sync(sync) => sync.number(),
            ServiceStage::Remove(remove) => remove.number(),
            ServiceStage::Open(open) => open.number(),
            ServiceStage::Spawn(spawn) => spawn.number(),
            ServiceStage::Nowhere(nowhere) => nowhere.number(),
        }
    }

    fn ask(&self) -> Ask {
        match self {
            ServiceStage::Exit(exit) => exit.ask(),
            ServiceStage::Fork(fork) => fork.ask(),
            ServiceStage::Wait(wait) => wait.ask(),
            ServiceStage::Send(send) => send.ask(),
            ServiceStage::Receive(receive) => receive.ask(),
            ServiceStage::Memory(memory) => memory.ask(),
            ServiceStage::Close(close) => close.ask(),
            ServiceStage::Dup(dup) => dup.ask(),
            ServiceStage::Pipe(pipe) => pipe.ask(),
            ServiceStage::Read(read) => read.ask(),
            ServiceStage::Write(write) => write.ask(),
            ServiceStage::Offset(service) => service.ask(),
            ServiceStage::Stat(stat) => stat.ask(),
            ServiceStage::Sync(sync) => sync.ask(),
            ServiceStage::Remove(remove) => remove.ask(),
            ServiceStage::Open(open) => open.ask(),
            ServiceStage::Spawn(spawn) => spawn.ask(),
            ServiceStage::Nowhere(nowhere) => nowhere.ask(),
        }
    }

    fn next(&self, called: Called) -> Next {
        match self {
            ServiceStage::Exit(exit) => exit.next(called),
            ServiceStage::Fork(fork) => fork.next(called),
            ServiceStage::Wait(wait) => wait.next(called),
            ServiceStage::Send(send) => send.next(called),
            ServiceStage::Receive(receive) => receive.next(called),
            ServiceStage::Memory(memory) => memory.next(called),
            ServiceStage::Close(close) => close.next(called),
            ServiceStage::Dup(dup) => dup.next(called),
            ServiceStage::Pipe(pipe) => pipe.next(called),
            ServiceStage::Read(read) => read.next(called),
            ServiceStage::Write(write) => write.next(called),
            ServiceStage::Offset(service) => service.next(called),
            ServiceStage::Stat(stat) => stat.next(called),
            ServiceStage::Sync(sync) => sync.next(called),
            ServiceStage::Remove(remove) => remove.next(called),
            ServiceStage::Open(open) => open.next(called),
            ServiceStage::Spawn(spawn) => spawn.next(called),
            ServiceStage::Nowhere(nowhere) => nowhere.next(called),
        }
    }
}
