//! Introduces a disk to the host that its settings name.

ghost use Rattle.std.specs.Prelude.{◌≤◌};

use crate::disk_files::named;
use crate::host_faults::introduction_fault;
use oram_cli::{HostFault, SocketFault, limit_silence};
use oram_client::{AnswerLengths, Keys, TimedLink, introduce};
use oram_disk_host::{Fault, FaultKind};
use oram_geometry::Device;
use oram_settings::DiskSettings;
use oram_sockets::{Connection, Duplex, connect_to};
use std::alloc::Global;
use std::net::Net;
use std::rt::Clock;
use std::time::Duration;

/// A link over a connection to a host.
type Line<R> = TimedLink<Duplex<R, Connection<<R as Net>::Stream>>, R>;

/// Connects to the host at an address or a Unix socket. It may take `seconds` to accept the connection, and as long for each batch of messages,
/// and gives no answer that is longer than `lengths` allows.
fn connected<R: Net + Clock + Copy>(
    rt: R,
    alloc: Global,
    host: &str,
    seconds: u64,
    lengths: AnswerLengths,
) -> Result<Line<R>, SocketFault> {
    let (reader, writer) = connect_to(&rt, host, Duration::from_secs(seconds))?;
    limit_silence(&reader, Duration::from_secs(seconds))?;
    let reader = Duplex::new(rt, alloc, reader);
    let writer = Duplex::new(rt, alloc, writer);
    let limit = seconds.saturating_mul(1_000);
    match TimedLink::new(alloc, reader, writer, rt, limit, lengths) {
        Ok(line) => Ok(line),
        Err(_) => Err(SocketFault::OutOfMemory),
    }
}

/// Returns the program's fault for a connection that can't be made.
fn unreached(alloc: Global, fault: SocketFault, host: &str) -> Fault {
    match fault {
        SocketFault::OutOfMemory => Fault::OutOfMemory,
        SocketFault::Failed => named(alloc, FaultKind::Host(HostFault::OutOfReach), host),
    }
}

/// Introduces the disk with these keys, of which no command was ever accepted, to the host that the settings name. It may have been introduced
/// there before, or in part. `overhead` is how many bytes the disk's sealer adds to a bucket.
pub(crate) fn introduce_disk(
    rt: &HostRuntime,
    device: &Device,
    overhead: usize,
    keys: &Keys,
    settings: &DiskSettings,
) -> Result<(), Fault>
    requires { overhead ≤ 64 }
{
    let alloc = rt.alloc();
    let host = settings.host.as_str();
    let lengths = AnswerLengths::new(device.copy(), overhead);
    let mut line = match connected(rt, alloc, host, settings.reconnect_timeout, lengths) {
        Ok(line) => line,
        Err(fault) => return Err(unreached(alloc, fault, host)),
    };
    match introduce(
        alloc,
        device,
        overhead,
        &keys.identity,
        &keys.stamps,
        &mut line,
    ) {
        Ok(()) => Ok(()),
        Err(fault) => Err(introduction_fault(alloc, fault, settings)),
    }
}
