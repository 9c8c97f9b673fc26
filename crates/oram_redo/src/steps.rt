//! Steps that make a few calls on a pair of files.
ghost use Rattle.std.specs.Prelude.{◌≡◌, ◌⊎◌, ◌∷◌, [], length, IfErr, IfOk, IsErrOf, OnOk};
ghost use Rattle.oram_redo.specs.Batch.{patches_of};
ghost use Rattle.oram_redo.specs.Content.{Agrees, bytes_at};
ghost use Rattle.oram_redo.specs.FilePair.{Follows, ComesAfter, HasCause, HasFailed, IsSure, LeavesOnly, ReadOnto, Torn, WritesNothing, Wrote};
ghost use Rattle.oram_redo.specs.Log.{Smeared, put_all};
ghost use Rattle.oram_redo.specs.Steps.{Smears, Tears};

use crate::batch::Patch;
use crate::{FileKind, FilePair, RedoError};
use std::alloc::Global;

/// Reads `len` bytes of a file, and appends them to `bytes`.
pub fn read_onto<F: FilePair>(
    files: &mut F,
    file: FileKind,
    at: u64,
    len: usize,
    bytes: &mut Vec<u8>,
) -> Result<(), RedoError>
    ensures bytes { OnOk result (ReadOnto len at (F.model.seen files.old file) (F.model.is_honest files.new) bytes.old.items bytes.new.items) }
    ensures nothing_written { WritesNothing F.model files.old files.new }
    ensures failed { IsErrOf result RedoError.Failed → HasFailed F.model files.old files.new }
    ensures after { ComesAfter F.model files.old files.new }
    ensures errors { IfErr result (λ e. (e ≡ RedoError.Memory) ⊎ (e ≡ RedoError.Failed)) }
{
    files.read_onto(file, at, len, bytes)
}

/// Reads `len` bytes of a file.
pub fn read<F: FilePair>(
    alloc: Global,
    files: &mut F,
    file: FileKind,
    at: u64,
    len: usize,
) -> Result<Vec<u8>, RedoError>
    ensures len { IfOk result (λ bytes. length bytes.items ≡ len) }
    ensures bytes { IfOk result (λ bytes. F.model.is_honest files.new → bytes.items ≡ bytes_at len at (F.model.seen files.old file)) }
    ensures nothing_written { WritesNothing F.model files.old files.new }
    ensures failed { IsErrOf result RedoError.Failed → HasFailed F.model files.old files.new }
    ensures after { ComesAfter F.model files.old files.new }
    ensures errors { IfErr result (λ e. (e ≡ RedoError.Memory) ⊎ (e ≡ RedoError.Failed)) }
{
    let mut bytes = Vec::with_capacity(alloc, len)?;
    read_onto(files, file, at, len, &mut bytes)?;
    Ok(bytes)
}

/// Syncs both files. After `Ok`, a crash leaves what a read returns.
pub fn sync_both<F: FilePair>(files: &mut F) -> Result<(), RedoError>
    ensures log { OnOk result (IsSure F.model FileKind.Log files.new) }
    ensures records { OnOk result (IsSure F.model FileKind.Records files.new) }
    ensures nothing_written { WritesNothing F.model files.old files.new }
    ensures failed { IfErr result (λ e. (e ≡ RedoError.Failed) × HasFailed F.model files.old files.new) }
    ensures after { ComesAfter F.model files.old files.new }
{
    files.sync(FileKind::Log)?;
    files.sync(FileKind::Records)
}

/// Writes the bytes, and syncs the file.
pub fn write_synced<F: FilePair>(
    files: &mut F,
    file: FileKind,
    at: u64,
    bytes: &[u8],
) -> Result<(), RedoError>
    ensures written { OnOk result (Wrote file at bytes.now (F.model.seen files.old) (F.model.seen files.new)) }
    ensures sure { OnOk result (IsSure F.model file files.new) }
    ensures torn { Torn file at (length bytes.now) (F.model.seen files.old) (F.model.seen files.new) }
    ensures crash { Follows (Torn file at (length bytes.now)) (F.model.may_leave files.old) (F.model.may_leave files.new) }
    ensures moments { LeavesOnly F.model files.old files.new (Tears file at (length bytes.now) (F.model.may_leave files.old)) }
    ensures after { ComesAfter F.model files.old files.new }
    ensures cause { HasCause F.model files.old files.new result }
    ensures errors { IfErr result (λ e. (e ≡ RedoError.NoRoom) ⊎ (e ≡ RedoError.Failed)) }
{
    files.write_at(file, at, bytes)?;
    files.sync(file)
}

/// Writes bytes into the fronts of both files: into that of the log, which is then synced, and after that into that of the
/// records, which are synced too.
pub fn write_fronts<F: FilePair>(
    files: &mut F,
    at: u64,
    log: &[u8],
    records: &[u8],
) -> Result<(), RedoError>
    ensures log { OnOk result (IsSure F.model FileKind.Log files.new) }
    ensures records { OnOk result (IsSure F.model FileKind.Records files.new) }
    ensures nothing_written { WritesNothing F.model files.old files.new }
    ensures cause { HasCause F.model files.old files.new result }
    ensures errors { IfErr result (λ e. (e ≡ RedoError.NoRoom) ⊎ (e ≡ RedoError.Failed)) }
    ensures after { ComesAfter F.model files.old files.new }
{
    files.write_front(FileKind::Log, at, log)?;
    files.write_front(FileKind::Records, at, records)
}

/// Writes a byte over a gate of the log, and syncs the log. That can't be taken back, so it fails with `Failed` even if
/// it finds no room.
pub fn set_gate<F: FilePair>(files: &mut F, at: u64, gate: u8) -> Result<(), RedoError>
    ensures written { OnOk result (Wrote FileKind.Log at (gate ∷ []) (F.model.seen files.old) (F.model.seen files.new)) }
    ensures sure { OnOk result (IsSure F.model FileKind.Log files.new) }
    ensures torn { Torn FileKind.Log at 1 (F.model.seen files.old) (F.model.seen files.new) }
    ensures crash { Follows (Torn FileKind.Log at 1) (F.model.may_leave files.old) (F.model.may_leave files.new) }
    ensures moments { LeavesOnly F.model files.old files.new (Tears FileKind.Log at 1 (F.model.may_leave files.old)) }
    ensures failed { IfErr result (λ e. (e ≡ RedoError.Failed) × HasFailed F.model files.old files.new) }
    ensures after { ComesAfter F.model files.old files.new }
{
    match write_synced(files, FileKind::Log, at, &[gate]) {
        Ok(()) => Ok(()),
        Err(_) => Err(RedoError::Failed),
    }
}

/// Writes each patch to its place, without a sync.
pub fn put_in_place<F: FilePair>(files: &mut F, batch: &[Patch]) -> Result<(), RedoError>
    ensures records { OnOk result (Agrees (F.model.seen files.new FileKind.Records) (put_all (patches_of batch.now) (F.model.seen files.old FileKind.Records))) }
    ensures log { Agrees (F.model.seen files.new FileKind.Log) (F.model.seen files.old FileKind.Log) }
    ensures crash { Follows (Smeared (patches_of batch.now)) (F.model.may_leave files.old) (F.model.may_leave files.new) }
    ensures moments { LeavesOnly F.model files.old files.new (Smears (patches_of batch.now) (F.model.may_leave files.old)) }
    ensures failed { IfErr result (λ e. (e ≡ RedoError.Failed) × HasFailed F.model files.old files.new) }
    ensures after { ComesAfter F.model files.old files.new }
{
    for patch in batch {
        if files
            .write_at(FileKind::Records, patch.at, patch.bytes)
            .is_err()
        {
            return Err(RedoError::Failed);
        }
    }
    Ok(())
}
