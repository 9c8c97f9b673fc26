//! Carries out operations on byte ranges, as many at once as are on whole blocks.

ghost use Rattle.std.specs.Prelude.{◌≡◌, ◌<◌, ◌≤◌, true, false, All, drop, length, map, take, IfOk, IsErrOf, IsTrue, MatchResult, OnOk};
ghost use Rattle.oram_nbd.specs.Accesses.{AsksFirst, AsksFor, begins_whole, calls_of, is_part, part_calls, range_of};
ghost use Rattle.oram_nbd.specs.Beside.{GoesOn, HasArrays, IsStopped};
ghost use Rattle.oram_nbd.specs.Calls.{FailsByLies, IsCall, Saves, SavesAll, SavesPart};
ghost use Rattle.oram_nbd.specs.Operations.{AreBegun, IsPartOf, IsPlaced, IsWhole, IsWithin, TouchSomeByte, all_done, all_given, done_by, given_by, len_of, read_len};

use crate::client_watch::ClientWatch;
use crate::disk::BlockDevice;
use crate::faults::DiskFault;
use crate::operations::Operation;
use crate::ranges::{read_range, write_range, zero_range};
use oram_bytes::Bytes;
use std::alloc::Global;

/// Returns whether the range of an operation is one of whole blocks.
fn is_whole(block: u64, operation: &Operation) -> bool
    requires { 0 < block }
    ensures whole { IsTrue result → IsWhole block operation.now }
    ensures no_part { result ≡ true → is_part block (range_of operation.now) ≡ false }
    ensures part { result ≡ false → is_part block (range_of operation.now) ≡ true }
{
    operation.place() % block == 0 && operation.len() % block == 0
}

/// Returns how many operations at the front are on whole blocks.
fn whole_front(block: u64, operations: &[Operation]) -> usize
    requires { 0 < block }
    ensures most { result ≤ length operations.now }
    ensures whole { All (IsWhole block) (take result operations.now) }
    ensures no_parts { All (λ op. is_part block (range_of op) ≡ false) (take result operations.now) }
    ensures next { begins_whole block (map range_of (drop result operations.now)) ≡ false }
{
    for (number, operation) in operations.iter().enumerate() {
        if !is_whole(block, operation) {
            return number;
        }
    }
    operations.len()
}

/// Carries out one operation alone, whose range isn't one of whole blocks, in two calls of the device. Both calls are on the
/// same blocks whether the operation reads, writes or zeroes.
fn carry_out_alone<D: BlockDevice, H: ClientWatch>(
    alloc: Global,
    disk: &mut D,
    operation: &Operation,
    watch: &mut H,
) -> Result<Bytes, DiskFault>
    requires within { IsWithin (D.size disk.old) operation.now }
    requires part { is_part (D.block_len disk.old) (range_of operation.now) ≡ true }
    requires some { 0 < len_of operation.now }
    ensures len { IfOk result (λ given. length given ≡ read_len operation.now) }
    ensures goes { GoesOn D.had D.hears (HasArrays D.holds D.kept) disk.old (λ may_lie old new. MatchResult result
        (λ given. (given ≡ given_by operation.now old.held) × (new.held ≡ done_by operation.now old.held))
        (λ _. IsPartOf operation.now old.held new.held) × FailsByLies result may_lie
        × Saves result (0 < len_of operation.now) (IsPartOf operation.now) old new) disk.new }
    ensures asks { OnOk result (AsksFor D.asked disk.old (part_calls (D.block_len disk.old) (range_of operation.now)) disk.new) }
    ensures call { IsCall D.block_len D.size D.failed (IsStopped D.stops disk.new) disk.old result disk.new }
{
    match operation {
        Operation::Read { at, count } => {
            let bytes = read_range(alloc, disk, *at, *count, watch)?;
            Ok(bytes)
        }
        Operation::Write { at, payload } => {
            write_range(alloc, disk, *at, payload.as_slice(), watch)?;
            Ok(Bytes::from_vec(Vec::new(alloc)))
        }
        Operation::Zero { at, count } => {
            zero_range(alloc, disk, *at, *count, watch)?;
            Ok(Bytes::from_vec(Vec::new(alloc)))
        }
    }
}

/// Carries out the first operations: those at the front that are on whole blocks, in one call of the device, or else the first
/// one alone. Returns what each of them read.
fn carry_out_front<D: BlockDevice, H: ClientWatch>(
    alloc: Global,
    disk: &mut D,
    operations: &[Operation],
    watch: &mut H,
) -> Result<Vec<Bytes>, DiskFault>
    requires some { 0 < length operations.now }
    requires within { All (IsWithin (D.size disk.old)) operations.now }
    requires placed { All IsPlaced operations.now }
    ensures some { IfOk result (λ given. 0 < length given.items) }
    ensures most { IfOk result (λ given. length given.items ≤ length operations.now) }
    ensures len { IfOk result (λ given. map length given.items ≡ map read_len (take (length given.items) operations.now)) }
    ensures goes { GoesOn D.had D.hears (HasArrays D.holds D.kept) disk.old (λ may_lie old new. MatchResult result
        (λ given. let front = take (length given.items) operations.now in
        (given.items ≡ all_given front old.held) × (new.held ≡ all_done front old.held) × SavesAll (TouchSomeByte front) old new)
        (λ _. AreBegun operations.now old.held new.held × SavesPart (AreBegun operations.now) old new) × FailsByLies result may_lie) disk.new }
    ensures asks { IfOk result (λ given. AsksFirst D.asked (D.block_len disk.old) operations.now (length given.items) disk.old disk.new) }
    ensures call { IsCall D.block_len D.size D.failed (IsStopped D.stops disk.new) disk.old result disk.new }
{
    let count = whole_front(u64::from(disk.block_bytes()), operations);
    if count > 0 {
        return disk.carry_out(alloc, &operations[..count], watch);
    }
    let mut given = Vec::with_capacity(alloc, 1)?;
    let bytes = carry_out_alone(alloc, disk, &operations[0], watch)?;
    if given.push(bytes).is_err() {
        return Err(DiskFault::OutOfMemory);
    }
    Ok(given)
}

/// Carries out operations, one after the other, and returns what each of them read. Those that are on whole blocks are
/// carried out together, by one call, up to the next one that isn't. After an `Err` the first ones are done, one may be done
/// in part, and the others aren't begun. An `Ok` says that what was done is kept.
pub(crate) fn carry_out_all<D: BlockDevice, H: ClientWatch>(
    alloc: Global,
    disk: &mut D,
    operations: &[Operation],
    watch: &mut H,
) -> Result<Vec<Bytes>, DiskFault>
    requires within { All (IsWithin (D.size disk.old)) operations.now }
    requires placed { All IsPlaced operations.now }
    ensures len { IfOk result (λ given. map length given.items ≡ map read_len operations.now) }
    ensures goes { GoesOn D.had D.hears (HasArrays D.holds D.kept) disk.old (λ may_lie old new. MatchResult result
        (λ given. (given.items ≡ all_given operations.now old.held) × (new.held ≡ all_done operations.now old.held))
        (λ _. AreBegun operations.now old.held new.held) × FailsByLies result may_lie
        × Saves result (TouchSomeByte operations.now) (AreBegun operations.now) old new) disk.new }
    ensures asks { OnOk result (AsksFor D.asked disk.old (calls_of (D.block_len disk.old) (map range_of operations.now)) disk.new) }
    ensures refused { OnOk result (D.failed disk.old → ⊥) }
    ensures told { D.failed disk.old → IsErrOf result DiskFault.Failed }
    ensures call { IsCall D.block_len D.size D.failed (IsStopped D.stops disk.new) disk.old result disk.new }
{
    if disk.has_failed() {
        return Err(DiskFault::Failed);
    }
    let mut given = Vec::with_capacity(alloc, operations.len())?;
    while given.len() < operations.len() {
        let mut more = carry_out_front(alloc, disk, &operations[given.len()..], watch)?;
        given.append(&mut more)?;
    }
    Ok(given)
}
