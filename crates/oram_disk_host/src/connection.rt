//! The line that is printed for a connection.

ghost use Rattle.std.specs.Prelude.{◌≡◌, string_bytes, IfOk};
ghost use Rattle.oram_disk_host.specs.ConnectionLine as spec;

use crate::tally::Tally;
use oram_host::ServeFault;
use oram_settings::counted;
use oram_store::StoreFault;
use std::alloc::{AllocError, Global};

/// Why a connection ended before its input did.
#[derive(Clone, Copy, Debug, PartialEq, Eq)]
pub enum EarlyEnd {
    Fault(ServeFault),
    /// A newer connection took its place.
    Displaced,
    /// The connection was silent in the middle of a message, or left an answer unread.
    Silent,
}

/// A connection that has ended.
#[derive(Debug, Drop)]
pub struct ConnectionReport {
    /// The address of the other side.
    pub peer: String,
    /// When it began, and when it ended.
    pub from: String,
    pub until: String,
    pub tally: Tally,
    pub ended: Option<EarlyEnd>,
    /// The system's error for which the disk failed, if it did, after a colon.
    pub reason: String,
}

/// Returns what the line says of an early end.
fn ending(ended: Option<EarlyEnd>) -> &'static str
    ensures { result.now ≡ spec.ending ended }
{
    match ended {
        None => "",
        Some(EarlyEnd::Displaced) => ", a newer connection took its place",
        Some(EarlyEnd::Silent) => ", it was silent for a minute",
        Some(EarlyEnd::Fault(ServeFault::Read)) => ", reading failed",
        Some(EarlyEnd::Fault(ServeFault::Write)) => ", writing failed",
        Some(EarlyEnd::Fault(ServeFault::Frame)) => ", a frame was too long",
        Some(EarlyEnd::Fault(ServeFault::Truncated)) => ", a frame was cut short",
        Some(EarlyEnd::Fault(ServeFault::Stalled)) => ", it stalled",
        Some(EarlyEnd::Fault(ServeFault::OutOfMemory)) => ", out of memory",
    }
}

/// Returns what the line says of why the store had no room, if it had none.
fn failing(failure: Option<StoreFault>) -> &'static str
    ensures { result.now ≡ spec.failing failure }
{
    match failure {
        None => "",
        Some(StoreFault::NoRoom) => ", the disk was full",
        Some(StoreFault::Io) => ", the disk failed",
        Some(StoreFault::Closed) => ", the disk had failed",
        Some(StoreFault::OutOfMemory) => ", there was no memory",
        // The other faults are reported when a file is opened.
        Some(_) => ", the file wasn't as it has to be",
    }
}

/// Returns the line of a connection. It counts what the host received and sent; the line that `oramdisk serve` prints of a
/// client counts requests.
pub fn line(alloc: Global, report: &ConnectionReport) -> Result<String, AllocError>
    ensures { IfOk result (λ text. string_bytes text ≡ spec.line_of report.now) }
{
    let peer = report.peer.as_str();
    let from = report.from.as_str();
    let until = report.until.as_str();
    let messages = counted(alloc, report.tally.messages, "message")?;
    let messages = messages.as_str();
    let received = report.tally.received;
    let sent = report.tally.sent;
    let ended = ending(report.ended);
    let failed = failing(report.tally.failure);
    let reason = report.reason.as_str();
    format!(in alloc;
        "oramdisk: {peer} from {from} until {until}, {messages}, {received} bytes in, {sent} bytes out{ended}{failed}{reason}\n"
    )
}
