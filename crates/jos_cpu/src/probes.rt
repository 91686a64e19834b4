//! How the accesses of an instruction are probed, all of them before anything is read or written.

ghost use Rattle.std.specs.Prelude.{◌≡◌, true, OnOk, [], ◌∷◌};
ghost use Rattle.std.specs.Result.{result_err};
ghost use Rattle.jos_base.specs.declared.memory.Access.TheVariants.{Read, Write};
ghost use Rattle.jos_cpu.specs.Memory.{Probed, all_allowed, after};
ghost use Rattle.jos_cpu.specs.Accesses.{is_written, access_of};
ghost use Rattle.jos_cpu.specs.Probes.{probe_of, probes_of, probed_all, is_open_at, is_open};

use crate::accesses::{AccessAt, Accesses, access_of, bytes_in_width};
use crate::memory::{Mem, MemFault};
use jos_base::Access;

/// One probe.
#[tactic(auto, unfolding(crate::specs::Probes::probed_all))]
fn probe_one<M: Mem>(mem: &mut M, at: AccessAt) -> Result<(), MemFault>
    ensures after { probed_all M.table (M.seen mem.old) (probe_of at ∷ []) ≡ record { memory = M.seen mem.new; refusal = result_err result } }
    ensures open { OnOk result (is_open_at (M.table.allowed (M.seen mem.new)) at ≡ true) }
    ensures stays { M.table.allowed (M.seen mem.new) ≡ M.table.allowed (M.seen mem.old) }
{
    mem.probe(at.va, bytes_in_width(at.width), access_of(at.usage))
}

/// Probes what an instruction reaches for, up to the first access that is refused.
#[tactic(auto, unfolding(crate::specs::Probes::probed_all, crate::specs::Probes::is_open))]
pub(crate) fn probe_all<M: Mem>(mem: &mut M, accesses: &Accesses) -> Result<(), MemFault>
    ensures after { probed_all M.table (M.seen mem.old) (probes_of accesses.now) ≡ record { memory = M.seen mem.new; refusal = result_err result } }
    ensures open { OnOk result (is_open (M.table.allowed (M.seen mem.new)) accesses.now ≡ true) }
{
    match accesses {
        Accesses::None => Ok(()),
        Accesses::One(first) => probe_one(mem, *first),
        Accesses::Two(first, second) => match probe_one(mem, *first) {
            Err(fault) => Err(fault),
            Ok(()) => probe_one(mem, *second),
        },
        Accesses::PushAll(va) => mem.probe(*va, 32, Access::Write),
        Accesses::PopAll(va) => mem.probe(*va, 32, Access::Read),
    }
}
