//! The console's input as a whole.

ghost use Rattle.std.specs.Prelude.{◌≡◌, ℕ, ◌<◌, ◌≤◌, [], List, IfOk, OnErr, length};
ghost use Rattle.std.specs.Result.{result_err};
ghost use Rattle.jos_host.specs.Told.{HasCause};
ghost use Rattle.jos_host.specs.Frames.{Unchanged};
ghost use Rattle.jos_cli.specs.InputTaken.{HasTaken, IsInputAtEnd, HasLost};
ghost use Rattle.jos_cli.specs.Found.{IsInput};
ghost use Rattle.jos_cli.specs.Answer.{input_within};
ghost use Rattle.jos_cli.specs.Stages.{Judges};
ghost use Rattle.jos_cli.specs.Outside.{outside};
ghost use Rattle.jos_cli.specs.Effects.{Gathers};

use crate::files::host_fault;
use crate::outcome::{Outcome, Which};
use jos_base::INPUT_MAX;
use jos_host::{Failed, Host};
use std::alloc::{AllocError, Global};

/// A buffer of so many bytes.
fn buffer(alloc: Global, len: usize) -> Result<Vec<u8>, AllocError>
    ensures { IfOk result (λ bytes. length bytes.items ≡ len) }
{
    vec![in alloc; 0; len]
}

/// Takes input until the buffer is full or the input ends, and gives how many bytes came. After `Failed`, what came
/// before it is lost.
fn take_input<H: Host>(host: &mut H, buf: &mut [u8]) -> Result<usize, Failed>
    ensures within { IfOk result (λ n. n ≤ length buf.old) }
    ensures taken { IfOk result (HasTaken (H.input host.old) (H.input host.new) buf.new) }
    ensures end { IfOk result (λ n. n < length buf.old → IsInputAtEnd (H.input host.new)) }
    ensures lost { OnErr result (HasLost (H.input host.old) (H.input host.new)) }
    ensures rest { Unchanged H.files H.asked H.console H.notes host.old host.new }
    ensures cause { HasCause (H.faults host.old) (H.faults host.new) result }
{
    let mut filled = 0;
    while filled < buf.len() {
        match host.console_read(&mut buf[filled..]) {
            Ok(0) => break,
            Ok(count) => filled += count,
            Err(failed) => return Err(failed),
        }
    }
    Ok(filled)
}

/// Reads the console's input, up to its end or to the first byte past the limit.
pub(crate) fn read_input<H: Host>(alloc: Global, host: &mut H) -> Result<Vec<u8>, Outcome>
    ensures told { (input : List ℕ) × IsInput (H.input host.old) input × Judges (input_within input) (λ bytes. bytes.items) result }
    ensures did { Gathers [] (result_err result) (outside H.Host host.old host.new) }
{
    let mut bytes = match buffer(alloc, INPUT_MAX + 1) {
        Ok(bytes) => bytes,
        Err(_) => return Err(Outcome::NoMemory),
    };
    match take_input(host, &mut bytes) {
        Ok(count) => {
            if count > INPUT_MAX {
                return Err(Outcome::Limit(Which::Input));
            }
            bytes.truncate(count);
            Ok(bytes)
        }
        Err(_) => Err(host_fault(alloc)),
    }
}
