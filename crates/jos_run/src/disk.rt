//! The disk of the file server: a file of the host.

ghost use Rattle.std.specs.Prelude.{◌≡◌, ◌<◌, ◌*◌, IfOk};
ghost use Rattle.jos_host.specs.declared.host.HostCall.TheVariants.{Read, Write};
ghost use Rattle.jos_host.specs.Asked.{and_asked};
ghost use Rattle.jos_host.specs.Told.{HasCause, WritesAt};
ghost use Rattle.fs_layout.specs.declared.numbers.TheConstants.{BLKSIZE};
ghost use Rattle.lib_os.specs.Disk.{BlockCame, HasBlocks};

use crate::boot::keep_bytes;
use fs_layout::BLKSIZE;
use jos_host::{Failed, Host};
use std::marker::Model;

/// A file of the host, of which so many blocks may be moved.
#[derive(Debug, Drop)]
pub struct HostDisk {
    pub name: String,
    pub blocks: u32,
}

impl Model for HostDisk {
    ghost use Rattle.std.specs.Prelude.{string_bytes};
    ghost use Rattle.lib_os.specs.Disk.{DiskFile};

    ghost Value = { DiskFile };

    ghost view = { λ d. record { name = string_bytes d.name; blocks = d.blocks } };
}

/// Where a block begins in the file.
fn place_of(block: u32) -> u64
    ensures { result ≡ BLKSIZE * block }
{
    BLKSIZE as u64 * block as u64
}

impl HostDisk {
    /// The bytes of a block, with zeros behind the end of the file.
    pub fn read_block<H: Host>(
        &self,
        host: &mut H,
        block: u32,
    ) -> Result<[u8; BLKSIZE as usize], Failed>
        ensures came { IfOk result (λ bytes. BlockCame (H.files host.old) self.now block bytes) }
        ensures files { H.files host.new ≡ H.files host.old }
        ensures asked { H.asked host.new ≡ and_asked (H.asked host.old) Read self.now.name }
        ensures input { H.input host.new ≡ H.input host.old }
        ensures console { H.console host.new ≡ H.console host.old }
        ensures notes { H.notes host.new ≡ H.notes host.old }
        ensures cause { HasCause (H.faults host.old) (H.faults host.new) result }
    {
        let mut bytes = [0; BLKSIZE as usize];
        match host.read_at(self.name.as_str(), place_of(block), &mut bytes) {
            Ok(_) => {
                keep_bytes(&bytes);
                Ok(bytes)
            }
            Err(failed) => Err(failed),
        }
    }

    /// Puts bytes into a block, which the file has.
    pub fn write_block<H: Host>(
        &self,
        host: &mut H,
        block: u32,
        bytes: &[u8; BLKSIZE as usize],
    ) -> Result<(), Failed>
        requires there { block < self.now.blocks }
        requires whole { HasBlocks (H.files host.old) self.now }
        ensures told { WritesAt (H.files host.old) self.now.name (BLKSIZE * block) bytes.now result (H.files host.new) }
        ensures asked { H.asked host.new ≡ and_asked (H.asked host.old) Write self.now.name }
        ensures input { H.input host.new ≡ H.input host.old }
        ensures console { H.console host.new ≡ H.console host.old }
        ensures notes { H.notes host.new ≡ H.notes host.old }
        ensures cause { HasCause (H.faults host.old) (H.faults host.new) result }
    {
        host.write_at(self.name.as_str(), place_of(block), bytes)
    }
}
