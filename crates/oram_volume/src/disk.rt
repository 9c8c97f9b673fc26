//! A volume as a disk of bytes.

ghost use Rattle.std.specs.Prelude.{◌≡◌, ◌≢◌, ◌*◌, ◌-◌, ◌<◌, ◌≤◌, ◌^◌, [], ◌∷◌, ◌++◌, All, length, map, min, sum_by, IfErr, IfOk, IsErrOf, MatchResult, OnOk};
ghost use Rattle.std.specs.List.{flat_map};
ghost use Rattle.oram_core.specs.Core.{IsSameDevice};
ghost use Rattle.oram_semantics.specs.Events.{address_of};
ghost use Rattle.oram_session.specs.Honesty.{HasFailed};
ghost use Rattle.oram_nbd.specs.Beside.{GoesOn, HasArrays};
ghost use Rattle.oram_nbd.specs.Calls.{FailsByLies, Saves};
ghost use Rattle.oram_nbd.specs.Operations.{IsWhole, IsWithin, read_len};
ghost use Rattle.oram_volume.specs.CarriedOut.{AsksInRounds, Had, IsAfterFirst, Stops, after_commands, bodies_from};
ghost use Rattle.oram_volume.specs.DiskCalls.{data_of};
ghost use Rattle.oram_volume.specs.HeldArrays.{HostHears, HoldsArray, KeepsArray, running};
ghost use Rattle.oram_volume.specs.RangeCommands.{all_commands};

use crate::commands::{Cursor, next_round};
use crate::volume::Volume;
use oram_bucket::Sealer;
use oram_bytes::Bytes;
use oram_core::{Reply, ReplyBody};
use oram_nbd::{BlockDevice, ClientWatch, DiskFault, Operation};
use oram_rounds::{BatchLink, Keeper};
use oram_session::Tape;
use std::alloc::{AllocError, Global};

/// Appends the data of replies, one after the other. A reply without data adds nothing.
fn append_data(replies: &[Reply], out: &mut Vec<u8>) -> Result<(), AllocError>
    ensures { IfOk result (λ _. out.new.items ≡ out.old.items ++ flat_map (λ reply. data_of reply.body) replies.now) }
{
    for reply in replies {
        if let ReplyBody::Data(bytes) = &reply.body {
            out.extend_from_slice(bytes.as_slice())?;
        }
    }
    Ok(())
}

/// Returns how many bytes an operation reads.
fn read_bytes(operation: &Operation) -> u64
    ensures { result ≡ read_len operation.now }
{
    match operation {
        Operation::Read { count, .. } => *count,
        Operation::Write { .. } | Operation::Zero { .. } => 0,
    }
}

/// Returns how many bytes all operations read, or `usize::MAX` if they are more.
fn read_in_all(operations: &[Operation]) -> usize
    ensures { result ≡ min (sum_by read_len operations.now) (2 ^ 64 - 1) }
{
    let mut len: usize = 0;
    for operation in operations {
        len = len.saturating_add(read_bytes(operation) as usize);
    }
    len
}

/// Cuts the data of all reads into those of each operation.
fn cut_up(alloc: Global, operations: &[Operation], found: &[u8]) -> Result<Vec<Bytes>, DiskFault>
    ensures len { IfOk result (λ given. map length given.items ≡ map read_len operations.now) }
    ensures all { IfOk result (λ given. flat_map (λ bytes. bytes) given.items ≡ found.now) }
    ensures err { IfErr result (λ fault. fault ≡ DiskFault.OutOfMemory) }
{
    let mut given = Vec::with_capacity(alloc, operations.len())?;
    let mut rest = found;
    for operation in operations {
        let len = read_bytes(operation) as usize;
        // There is as much data as the operations read, so this never happens. The error acknowledges nothing, and doesn't
        // fail the disk.
        if len > rest.len() {
            return Err(DiskFault::OutOfMemory);
        }
        let bytes = Bytes::copy(alloc, &rest[..len])?;
        if given.push(bytes).is_err() {
            return Err(DiskFault::OutOfMemory);
        }
        rest = &rest[len..];
    }
    if !rest.is_empty() {
        return Err(DiskFault::OutOfMemory);
    }
    Ok(given)
}

/// Returns data as those of one operation, without copying them.
fn alone(alloc: Global, found: Vec<u8>) -> Result<Vec<Bytes>, AllocError>
    ensures { IfOk result (λ given. given.items ≡ found.items ∷ []) }
{
    let given = vec![in alloc; Bytes::from_vec(found)]?;
    Ok(given)
}

/// Returns the data of each operation, out of the data of all reads. One operation alone takes these over as they are.
fn given_out(
    alloc: Global,
    operations: &[Operation],
    found: Vec<u8>,
) -> Result<Vec<Bytes>, DiskFault>
    ensures len { IfOk result (λ given. map length given.items ≡ map read_len operations.now) }
    ensures all { IfOk result (λ given. flat_map (λ bytes. bytes) given.items ≡ found.items) }
    ensures err { IfErr result (λ fault. fault ≡ DiskFault.OutOfMemory) }
{
    match operations {
        [only] if read_bytes(only) == found.len() as u64 => {
            let given = alone(alloc, found)?;
            Ok(given)
        }
        _ => cut_up(alloc, operations, &found),
    }
}

impl<S: Sealer, B: BatchLink, K: Keeper, T: Tape> Volume<S, B, K, T> {
    /// Carries out the commands of operations, in rounds. Returns the data of all replies, one after the other. Between the
    /// rounds it asks `watch` whether to go on.
    fn carry_out_rounds<H: ClientWatch>(
        &mut self,
        alloc: Global,
        operations: &[Operation],
        watch: &mut H,
    ) -> Result<Vec<u8>, DiskFault>
        requires whole { All (IsWhole self.old.core.device.block_bytes) operations.now }
        requires within { All (IsWithin (self.old.core.device.block_bytes * self.old.core.device.blocks)) operations.now }
        ensures kept { IsSameDevice self.old.core self.new.core }
        ensures goes { let d = self.old.core.device in let all = all_commands d.block_bytes operations.now in
            GoesOn (Had B.batches K.reads_back) HostHears (HasArrays HoldsArray (KeepsArray K.reads_back)) (running S.cipher T.words self.old)
            (λ may_lie old new. MatchResult result
            (λ found. (found.items ≡ flat_map data_of (bodies_from d all old.held)) × (new.held ≡ after_commands d all old.held))
            (λ _. IsAfterFirst d all old.held new.held) × FailsByLies result may_lie × Saves result (all ≢ []) (IsAfterFirst d all) old new)
            (running S.cipher T.words self.new) }
        ensures asks { OnOk result (AsksInRounds B.batches K.reads_back (running S.cipher T.words self.old) (map address_of (all_commands self.old.core.device.block_bytes operations.now)) (running S.cipher T.words self.new)) }
        ensures failing { IsErrOf result DiskFault.Failed → HasFailed self.new.core.state }
        ensures still { HasFailed self.old.core.state → HasFailed self.new.core.state }
        ensures stopped { IsErrOf result DiskFault.Stopped → Stops B.batches K.reads_back (running S.cipher T.words self.old) (running S.cipher T.words self.new) }
    {
        // For the proof alone: the call's contract bounds the sizes of the device.
        let _blocks = self.blocks_in_all();
        let block = self.core.device().block_bytes() as u64;
        let mut found = Vec::with_capacity(alloc, read_in_all(operations))?;
        let mut cursor = Cursor {
            operation: 0,
            block: 0,
        };
        for round_number in 0..u64::MAX {
            let commands = next_round(alloc, block, operations, &mut cursor)?;
            if commands.is_empty() {
                return Ok(found);
            }
            if round_number > 0 && !watch.goes_on() {
                return Err(DiskFault::Interrupted);
            }
            let replies = self.carry_out_all(alloc, commands)?;
            append_data(&replies, &mut found)?;
        }
        Err(DiskFault::OutOfMemory)
    }

    /// Returns the number of blocks of the disk.
    fn blocks_in_all(&self) -> u32
        ensures value { result ≡ self.now.core.device.blocks }
        ensures bound { result ≤ 2 ^ 26 }
        ensures size { self.now.core.device.block_bytes * self.now.core.device.blocks < 2 ^ 63 }
        ensures block { (16 ≤ self.now.core.device.block_bytes) × (self.now.core.device.block_bytes ≤ 4096) }
    {
        let device = self.core.device();
        // For the proof alone: the contracts of these two calls bound the sizes of the device.
        let _trees = device.trees();
        let _block = device.block_bytes();
        device.blocks_in(0)
    }
}

impl<S: Sealer, B: BatchLink, K: Keeper, T: Tape> BlockDevice for Volume<S, B, K, T> {
    ghost use Rattle.oram_link_laws.specs.Runs.{Exchange};
    ghost use Rattle.oram_volume.specs.CarriedOut.{AsksInRounds, Had};
    ghost use Rattle.oram_volume.specs.HeldArrays.{HostBeside, HostHears, HoldsBytes, KeepsBytes};

    ghost block_len = { λ d. d.core.device.block_bytes };

    ghost size = { λ d. d.core.device.block_bytes * d.core.device.blocks };

    ghost World = { HostBeside };

    ghost Event = { Exchange };

    ghost hears = { λ may_lie w e later. HostHears may_lie w e later };

    // A call submits a command on each of these blocks, in rounds that are as long as a round can be.
    ghost asked = { λ d blocks e. AsksInRounds B.batches K.reads_back (running S.cipher T.words d) blocks (running S.cipher T.words e) };

    ghost had = { λ d events e. Had B.batches K.reads_back (running S.cipher T.words d) events (running S.cipher T.words e) };

    ghost holds = { λ may_lie d w bytes. HoldsBytes may_lie (running S.cipher T.words d) w bytes };

    ghost kept = { λ may_lie d w saved bytes. KeepsBytes K.reads_back may_lie (running S.cipher T.words d) w saved bytes };

    ghost failed = { λ d. HasFailed d.core.state };

    ghost stops = { λ d e. Stops B.batches K.reads_back (running S.cipher T.words d) (running S.cipher T.words e) };

    fn has_failed(&self) -> bool {
        self.core.failure().is_some()
    }

    fn block_bytes(&self) -> u32 {
        self.core.device().block_bytes() as u32
    }

    fn blocks(&self) -> u64 {
        u64::from(self.blocks_in_all())
    }

    fn carry_out<H: ClientWatch>(
        &mut self,
        alloc: Global,
        operations: &[Operation],
        watch: &mut H,
    ) -> Result<Vec<Bytes>, DiskFault> {
        if self.has_failed() {
            return Err(DiskFault::Failed);
        }
        // For the proof alone: the call's contract bounds the sizes of the device.
        let _blocks = self.blocks_in_all();
        let found = self.carry_out_rounds(alloc, operations, watch)?;
        let given = given_out(alloc, operations, found)?;
        Ok(given)
    }
}
