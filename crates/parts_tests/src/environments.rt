//! Slots and ids, and who gets the next turn.

ghost use Rattle.std.specs.Prelude.{◌<◌};
ghost use Rattle.jos_base.specs.declared.numbers.TheConstants.{NENV};

use jos_base::{EXTRA_WORDS, EnvId, EnvType, Extra, Frame, NENV, Regs, Status};
use jos_envs::{Environment, Table};
use jos_ipc::Rendezvous;
use jos_sched::next;
use std::alloc::Global;
use test_cases::{Shown, given, numbers};

/// Gives a slot to an environment that the kernel makes, and tells the slot and the environment's id.
fn allot(table: &mut Table) -> Option<(usize, u32)> {
    let slot = table.allot(EnvId(0))?;
    Some((slot, table.get(slot).id.0))
}

/// Ends the environment of a slot, if there is one.
fn end(table: &mut Table, slot: usize)
    requires { slot < NENV }
{
    match table.get(slot).status {
        Status::Free => {}
        _ => table.free(slot),
    }
}

/// Ends the environment of a slot and gives the slot again, so often. Tells the last id.
fn renew(table: &mut Table, slot: usize, times: u32) -> u32
    requires { slot < NENV }
{
    for _ in 0..times {
        end(table, slot);
        let _ = table.allot(EnvId(0));
    }
    table.get(slot).id.0
}

/// Lets the environment of a slot wait for a turn, if there is one.
fn make_runnable(table: &mut Table, slot: usize)
    requires { slot < NENV }
{
    match table.get(slot).status {
        Status::Free => {}
        _ => table.set_status(slot, Status::Runnable),
    }
}

/// An environment of which each part that its record tells is set.
fn environment() -> Environment {
    Environment {
        id: EnvId(0x1005),
        parent: EnvId(0x1001),
        env_type: EnvType::FileServer,
        status: Status::Running,
        runs: 3,
        registers: Regs {
            eax: 0,
            ecx: 0,
            edx: 0,
            ebx: 0,
            esp: 0,
            ebp: 0,
            esi: 0,
            edi: 0,
            eip: 0,
            eflags: 0,
        },
        extra: Extra([0; EXTRA_WORDS]),
        directory: Frame(40),
        upcall: 0x0080_0100,
        rendezvous: Rendezvous {
            receiving: true,
            wanted: EnvId(0x1007),
            destination: 0xd000_0000,
            value: 8,
            sender: EnvId(0x1009),
            perm: 7,
        },
    }
}

/// What comes of a case that names a slot.
fn tell_slot(
    table: &mut Table,
    alloc: Global,
    what: &str,
    slot: usize,
    times: u32,
) -> anyhow::Result<Shown>
    requires { slot < NENV }
{
    match what {
        "end" => {
            end(table, slot);
            Ok(Shown::Nothing)
        }
        "renew" => Ok(Shown::Word(renew(table, slot, times))),
        "runnable" => {
            make_runnable(table, slot);
            Ok(Shown::Nothing)
        }
        "next_behind" => Ok(Shown::count(next(table, Some(slot)).map(|slot| slot as u64))),
        "record" => Ok(Shown::words(alloc, &table.get(slot).record())?),
        _ => anyhow::bail!("{what} is no case of environments"),
    }
}

/// What comes of a case over a table.
pub(crate) fn tell_environments(
    table: &mut Table,
    alloc: Global,
    what: &str,
    words: &str,
) -> anyhow::Result<Shown> {
    let numbers = numbers(alloc, words)?;
    let slot = given(&numbers, 0) as usize;
    match what {
        "is_unused" => Ok(Shown::Is(table.is_unused())),
        "allot" => match allot(table) {
            Some((slot, id)) => Ok(Shown::Text(format!(in alloc; "slot {slot}, id {id:#x}")?)),
            None => Ok(Shown::Nothing),
        },
        "first_next" => Ok(Shown::count(next(table, None).map(|slot| slot as u64))),
        "full_record" => Ok(Shown::words(alloc, &environment().record())?),
        _ if slot < NENV as usize => tell_slot(table, alloc, what, slot, given(&numbers, 1)),
        _ => Ok(Shown::Nothing),
    }
}
