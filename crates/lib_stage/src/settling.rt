//! What a service does next is done.

ghost use Rattle.std.specs.Prelude.{◌≡◌, ◌≤◌, true, false};
ghost use Rattle.jos_base.specs.Environments.{is_live};
ghost use Rattle.jos_base.specs.KernelState.{slot_at};
ghost use Rattle.lib_os.specs.declared.numbers.TheConstants.{SERVICES};
ghost use Rattle.lib_stage.specs.Nexts.{settled, seen_as, is_gone};

use crate::ask::Next;
use jos_base::Regs;
use lib_os::{Progress, UserOs, answer, go_back, go_on, handler_registers};

/// Ends the service, which is named by its number, or lets it, or the handler of page faults, go on at a step. This is no call
/// of the kernel.
pub fn settle<O: UserOs>(os: &mut O, number: u32, next: Next) -> Progress
    requires live { is_gone next ≡ false → is_live (slot_at (O.state os.old) (O.slot os.old)) ≡ true }
    requires number { number ≤ SERVICES }
    ensures progress { result ≡ seen_as next }
    ensures state { O.state os.new ≡ settled number next (O.state os.old) (O.slot os.old) }
    ensures slot { O.slot os.new ≡ O.slot os.old }
    ensures disk { O.disk os.new ≡ O.disk os.old }
    ensures calls { O.calls os.new ≡ O.calls os.old }
    ensures written { O.written os.new ≡ O.written os.old }
{
    match next {
        Next::Answer(word) => {
            answer(os, word);
            Progress::Finished
        }
        Next::Answers { eax, edx, ecx, ebx } => {
            let registers = os.registers();
            go_back(
                os,
                Regs {
                    eax,
                    edx,
                    ecx,
                    ebx,
                    ..registers
                },
            );
            Progress::Finished
        }
        Next::AnswersEnds { reading, writing } => {
            let registers = os.registers();
            go_back(
                os,
                Regs {
                    eax: 0,
                    edx: reading,
                    ecx: writing,
                    ..registers
                },
            );
            Progress::Finished
        }
        Next::GoOn(step) => {
            go_on(os, number, step);
            Progress::Hidden
        }
        Next::GoBack(word) => {
            answer(os, word);
            Progress::Hidden
        }
        Next::Show(step) => {
            go_on(os, number, step);
            Progress::Visible
        }
        Next::Wait(step) => {
            go_on(os, number, step);
            Progress::Waited
        }
        Next::Handle(step) => {
            let registers = os.registers();
            os.set_registers(handler_registers(registers, step));
            Progress::Hidden
        }
        Next::Leave => Progress::Hidden,
        Next::Gone => Progress::Ended,
    }
}
