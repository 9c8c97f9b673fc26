//! Serves a whole connection.

ghost use Rattle.std.specs.Prelude.{◌≡◌, ◌≤◌, ◌↔◌, length, Err, IfOk, IfErr, IsTrue};
ghost use Rattle.oram_nbd.specs.Calls.{Stays};
ghost use Rattle.oram_nbd.specs.Connection.{minimum_of, preferred_of, HasConnected, StopsConnection};
ghost use Rattle.oram_nbd.specs.Beside.{IsStopped};
ghost use Rattle.oram_nbd.specs.DeviceKind.{device_kind};
ghost use Rattle.oram_nbd.specs.Streams.{streams};
ghost use Rattle.oram_nbd.specs.declared.TheConstants.{LONGEST_NAME};

use crate::LONGEST_PAYLOAD;
use crate::arrivals::Arrived;
use crate::client_watch::ClientWatch;
use crate::disk::BlockDevice;
use crate::faults::NbdFault;
use crate::handshake::{Agreement, Export};
use crate::negotiation::negotiate;
use crate::transmission::transmit;
use std::alloc::Global;
use std::io::{Read, Write};

/// The least preferred number of bytes of a request that clients accept (NBD's proto.md, "Block size constraints").
const LEAST_PREFERRED: u32 = 512;

/// The preferred number of bytes of a request where clients don't accept that of a block: the default of the same section.
const DEFAULT_PREFERRED: u32 = 4_096;

/// The greatest minimum of the number of bytes of a request (the same section).
const GREATEST_MINIMUM: u32 = 65_536;

/// Returns the preferred number of bytes of a request: that of a block, if clients accept that number.
fn preferred(block_bytes: u32) -> u32
    ensures { result ≡ preferred_of block_bytes }
{
    if block_bytes.is_power_of_two()
        && LEAST_PREFERRED <= block_bytes
        && block_bytes <= LONGEST_PAYLOAD
    {
        block_bytes
    } else {
        DEFAULT_PREFERRED
    }
}

/// Returns the least number of bytes of a request: that of a block, if the protocol has it as a minimum. A client that keeps to
/// it sends no parts of blocks. If a block has another number of bytes, no minimum would keep a client from sending parts.
fn minimum(block_bytes: u32) -> u32
    ensures { result ≡ minimum_of block_bytes }
{
    if block_bytes.is_power_of_two() && block_bytes <= GREATEST_MINIMUM {
        block_bytes
    } else {
        1
    }
}

/// Serves one connection, from its greeting until its client leaves, and returns the number of requests that were
/// answered.
///
/// The device is the only export, under the name `name` and under the empty one. `watch` is notified when the handshake
/// is done, and asked between the rounds of a long call whether it shall go on.
pub fn serve<R: Read + Arrived, W: Write, D: BlockDevice, H: ClientWatch>(
    alloc: Global,
    reader: &mut R,
    writer: &mut W,
    disk: &mut D,
    name: &[u8],
    watch: &mut H,
) -> Result<u64, NbdFault>
    requires { length name.now ≤ LONGEST_NAME }
    ensures ok { IfOk result (λ count. HasConnected (device_kind D.block_len D.size D.failed D.asked D.had D.hears D.holds D.kept) disk.old disk.new name.now count
        (streams (R.remaining reader.old) (W.contents writer.old)) (streams (R.remaining reader.new) (W.contents writer.new))) }
    ensures err { IfErr result (λ fault. StopsConnection (device_kind D.block_len D.size D.failed D.asked D.had D.hears D.holds D.kept) disk.old disk.new name.now fault
        (streams (R.remaining reader.old) (W.contents writer.old)) (streams (R.remaining reader.new) (W.contents writer.new))) }
    ensures stopped { IfErr result (λ fault. fault ≡ NbdFault.Stopped → IsStopped D.stops disk.new) }
    ensures stays { Stays D.block_len D.size D.failed disk.old disk.new }
{
    let block_bytes = disk.block_bytes();
    let export = Export {
        name,
        size: u64::from(block_bytes) * disk.blocks(),
        minimum: minimum(block_bytes),
        preferred: preferred(block_bytes),
    };
    match negotiate(alloc, reader, writer, &export)? {
        Agreement::Gone => Ok(0),
        Agreement::Transmission => {
            watch.agreed();
            transmit(alloc, reader, writer, disk, watch)
        }
    }
}

/// Returns whether the service of a connection ended because its disk has stopped.
pub fn is_stop(served: Result<u64, NbdFault>) -> bool
    ensures { IsTrue result ↔ (served ≡ Err NbdFault.Stopped) }
{
    served == Err(NbdFault::Stopped)
}
