//! Reads requests, has a device carry them out, and writes replies.

ghost use Rattle.std.specs.Prelude.{◌≡◌, ◌≤◌, ℕ, false, [], List, Option, IfOk, IfErr, OnOk, length, map};
ghost use Rattle.std.specs.Bool.{MatchBool};
ghost use Rattle.std.specs.Io.KnownBytes.{Appends};
ghost use Rattle.oram_nbd.specs.Batches.{IsUncalled, refusals_text, AreCollected, BreaksBatch, EndsBatch, EndsBy, AreDiskSizes, IsWithoutMemory, LeftBy};
ghost use Rattle.oram_nbd.specs.Beside.{IsStopped};
ghost use Rattle.oram_nbd.specs.Calls.{Stays};
ghost use Rattle.oram_nbd.specs.DeviceKind.{device_kind};
ghost use Rattle.oram_nbd.specs.Service.{WholeRequest};
ghost use Rattle.oram_nbd.specs.Streams.{streams, IsBegunText};
ghost use Rattle.oram_nbd.specs.Transmission.{HasTransmitted, IsCutOff, IsLast, StopsServing};

use crate::arrivals::Arrived;
use crate::batches::{Batch, Close, gather};
use crate::client_watch::ClientWatch;
use crate::disk::BlockDevice;
use crate::disk_sizes::DiskSizes;
use crate::faults::{DiskFault, NbdError, NbdFault};
use crate::lists::carry_out_all;
use crate::replies::{put_answers, put_refusals};
use crate::service::is_any_accepted;
use crate::streams::flush;
use std::alloc::Global;
use std::io::{Read, Write};

/// The most batches of a connection.
const MOST_BATCHES: u64 = 1 << 56;

/// Returns the error of requests for which the device isn't called. If it has failed, memory is no excuse.
fn uncalled_error<D: BlockDevice>(disk: &D) -> NbdError
    ensures error { IsUncalled (D.failed disk.now) result }
    ensures honest { (world : D.World) (bytes : List ℕ) → D.holds false disk.now world bytes → D.failed disk.now → ⊥ }
{
    if disk.has_failed() {
        NbdError::Io
    } else {
        NbdError::NoMemory
    }
}

/// Carries out a batch, and writes the replies. If memory runs out, the device fails or the watch ends the call, all requests of
/// the batch are refused; some of them may be done all the same. A reply that acknowledges its request says that what the batch did is kept.
fn carry_out_batch<W: Write, D: BlockDevice, H: ClientWatch>(
    alloc: Global,
    writer: &mut W,
    disk: &mut D,
    sizes: DiskSizes,
    batch: &Batch,
    watch: &mut H,
) -> Result<(), NbdFault>
    requires block { sizes.block ≡ D.block_len disk.old }
    requires size { sizes.size ≡ D.size disk.old }
    requires sizes { AreDiskSizes sizes.block sizes.size }
    requires collected { (arrived : List WholeRequest) × AreCollected sizes.size arrived batch.now.requests.items batch.now.operations.items }
    ensures ok { OnOk result ((arrived : List WholeRequest) → AreCollected sizes.size arrived batch.now.requests.items batch.now.operations.items →
        EndsBatch (device_kind D.block_len D.size D.failed D.asked D.had D.hears D.holds D.kept) disk.old disk.new arrived (W.contents writer.old) (W.contents writer.new)) }
    ensures err { IfErr result (λ fault. (arrived : List WholeRequest) → AreCollected sizes.size arrived batch.now.requests.items batch.now.operations.items →
        BreaksBatch (device_kind D.block_len D.size D.failed D.asked D.had D.hears D.holds D.kept) disk.old disk.new arrived fault (W.contents writer.old) (W.contents writer.new)) }
    ensures stopped { IfErr result (λ fault. fault ≡ NbdFault.Stopped → IsStopped D.stops disk.new) }
    ensures stays { Stays D.block_len D.size D.failed disk.old disk.new }
{
    // For the proof alone: the call's contract says what is known of the device's size.
    let _blocks = disk.blocks();
    if !is_any_accepted(&batch.requests, sizes.size) {
        return put_refusals(writer, sizes.size, &batch.requests, uncalled_error(disk));
    }
    match carry_out_all(alloc, disk, &batch.operations, watch) {
        Ok(given) => put_answers(writer, sizes.size, &batch.requests, &given),
        Err(DiskFault::Failed) => put_refusals(writer, sizes.size, &batch.requests, NbdError::Io),
        Err(DiskFault::OutOfMemory) => put_refusals(
            writer,
            sizes.size,
            &batch.requests,
            NbdError::NoMemory,
        ),
        Err(DiskFault::Interrupted) => put_refusals(
            writer,
            sizes.size,
            &batch.requests,
            NbdError::Shutdown,
        ),
        Err(DiskFault::Stopped) => Err(NbdFault::Stopped),
    }
}

/// Refuses the request for which there was no memory, if there is one, with this error, and returns their number.
fn refuse_without_memory<W: Write>(
    writer: &mut W,
    size: u64,
    error: NbdError,
    close: Close,
) -> Result<u64, NbdFault>
    ensures ok { IfOk result (λ count. (part : List ℕ) (unread : Option (List ℕ)) → EndsBy close part unread → (arrived : List WholeRequest) × (rest : List ℕ) × IsWithoutMemory close part unread arrived rest
        × (length arrived ≡ count) × Appends (W.contents writer.old) (W.contents writer.new) (refusals_text size (map (λ a. a.request) arrived) error)) }
    ensures few { IfOk result (λ count. count ≤ 1) }
    ensures err { IfErr result (λ fault. (fault ≡ NbdFault.Write) × ((part : List ℕ) (unread : Option (List ℕ)) → EndsBy close part unread → (arrived : List WholeRequest) × (rest : List ℕ) × IsWithoutMemory close part unread arrived rest
        × IsBegunText (W.contents writer.old) (W.contents writer.new) (refusals_text size (map (λ a. a.request) arrived) error))) }
{
    match close {
        Close::NoRoom(request) => {
            put_refusals(writer, size, &[request], error)?;
            Ok(1)
        }
        Close::Waits | Close::Leaves | Close::Breaks(_) => Ok(0),
    }
}

/// Returns whether further requests may follow a batch that was closed like this, or the fault of the input.
fn goes_on(close: Close) -> Result<bool, NbdFault>
    ensures ok { IfOk result (λ more. (rest : List ℕ) (unread : Option (List ℕ)) → LeftBy close rest unread → MatchBool more (rest ≡ []) (IsLast unread rest)) }
    ensures err { IfErr result (λ fault. (rest : List ℕ) (unread : Option (List ℕ)) → LeftBy close rest unread → IsCutOff fault rest unread) }
{
    match close {
        Close::Waits | Close::NoRoom(_) => Ok(true),
        Close::Leaves => Ok(false),
        Close::Breaks(fault) => Err(fault),
    }
}

/// Answers requests until the client leaves, and returns their number.
///
/// It waits for a request, and carries it out together with those that have arrived after it, up to 64 of them. All replies of
/// a batch are written and flushed before the next request is waited for. So a client that reads no replies holds back its own
/// requests, once the buffers between the two are full. Running out of memory doesn't end the service: the requests are refused
/// with `NoMemory`, and the bytes of a write that there is no memory for are skipped. If the device has failed, each request is
/// refused with `Io`, also one that there is no memory for. A device that stops ends the service, and
/// the requests of its batch get no replies. A reply that acknowledges its request says that what its batch did is kept: the
/// next process would hold it, even if this one ends before the reply is written. It still would if a later batch fails or the
/// device stops at it, except for bytes that this later batch writes.
pub fn transmit<R: Read + Arrived, W: Write, D: BlockDevice, H: ClientWatch>(
    alloc: Global,
    reader: &mut R,
    writer: &mut W,
    disk: &mut D,
    watch: &mut H,
) -> Result<u64, NbdFault>
    ensures ok { IfOk result (λ count. HasTransmitted (device_kind D.block_len D.size D.failed D.asked D.had D.hears D.holds D.kept) disk.old disk.new count
        (streams (R.remaining reader.old) (W.contents writer.old)) (streams (R.remaining reader.new) (W.contents writer.new))) }
    ensures err { IfErr result (λ fault. StopsServing (device_kind D.block_len D.size D.failed D.asked D.had D.hears D.holds D.kept) disk.old disk.new fault
        (streams (R.remaining reader.old) (W.contents writer.old)) (streams (R.remaining reader.new) (W.contents writer.new))) }
    ensures stopped { IfErr result (λ fault. fault ≡ NbdFault.Stopped → IsStopped D.stops disk.new) }
    ensures stays { Stays D.block_len D.size D.failed disk.old disk.new }
{
    let sizes = DiskSizes::of(disk);
    let mut served = 0;
    for _batch_number in 0..MOST_BATCHES {
        let (batch, close) = gather(alloc, reader, sizes);
        carry_out_batch(alloc, writer, disk, sizes, &batch, watch)?;
        // For the proof alone: the call's contract says what is known of the device's size.
        let _blocks = disk.blocks();
        let error = uncalled_error(disk);
        let without_memory = refuse_without_memory(writer, sizes.size, error, close)?;
        flush(writer)?;
        served += batch.requests.len() as u64 + without_memory;
        let more = goes_on(close)?;
        if !more {
            return Ok(served);
        }
    }
    Err(NbdFault::Read)
}
