//! The redo log. `specs/Log.antt` defines the form of its entries.
//!
//! A batch goes into the log in two writes, each with a sync: everything but its first gate, and then that gate. So a crash
//! leaves an open gate with the whole batch, or a shut gate. Then the batch is written to its places, without a sync: whatever
//! a crash does to them, replaying the log heals it.
ghost use Rattle.std.specs.Prelude.{◌≡◌, ◌⊎◌, ◌<◌, ◌≤◌, ◌+◌, ◌-◌, ◌^◌, ◌++◌, ◌∷◌, [], ◌↔◌, All, IsTrue, length, IfNone, IfOk, IfSome, IfErr, IsErrOf, OnErr, OnOk};
ghost use Rattle.oram_redo.specs.Batch.{patches_of};
ghost use Rattle.oram_redo.specs.Content.{Content, Agrees, bytes_at, put};
ghost use Rattle.oram_redo.specs.FilePair.{ComesAfter, HasFailed, LeavesOnly, ReadOnto, Rises, Torn, WritesNothing};
ghost use Rattle.oram_redo.specs.Log.{AllOrNothing, Fits, HasOddGate, Keeps, StandsAlike, StandsFor, entries, put_all};
ghost use Rattle.oram_redo.specs.Redo.{IsCrashConsistent, IsRefused, bounds_of, end_of};

use crate::batch::{OPEN, SHUT, body_of};
use crate::recovery::{replay, sound_end};
use crate::steps::{put_in_place, read, read_onto, set_gate, sync_both, write_synced};
use crate::{Bounds, FileKind, FilePair, Patch, RedoError};
use std::alloc::Global;

/// The state of a redo log between two calls: its bounds, and the place of its next entry.
///
/// After a call has failed with `Failed`, the files are in some state that a crash may leave: open them again with
/// [`recover`].
#[derive(Clone, Copy, Debug)]
pub struct Redo {
    bounds: Bounds,
    end: u64,
}

/// Syncs both files, reads the whole log, and then writes its patches to their places. A crash meanwhile does no harm. The
/// log isn't changed. If the log isn't a list of patches, or if the gate at its end is neither open nor shut, this fails with
/// `Damaged` and writes nothing.
pub fn recover<F: FilePair>(alloc: Global, files: &mut F, bounds: Bounds) -> Result<Redo, RedoError>
    // Reads return the records that the files stood for.
    ensures records { OnOk result (F.model.is_honest files.new → StandsFor bounds [] (F.model.seen files.new FileKind.Records) (F.model.seen files.old)) }
    ensures consistent { IfOk result (λ redo. F.model.is_honest files.new → IsCrashConsistent F.model redo [] files.new) }
    ensures bounds { IfOk result (λ redo. bounds_of redo ≡ bounds) }
    ensures log { Agrees (F.model.seen files.new FileKind.Log) (F.model.seen files.old FileKind.Log) }

    // A crash at any moment leaves what a crash before the call might have left, or files that stand for the same
    // records.
    ensures any_moment { F.model.is_honest files.new → LeavesOnly F.model files.old files.new
        (λ c. F.model.may_leave files.old c ⊎ StandsAlike bounds (F.model.seen files.old) c) }

    ensures damaged { F.model.is_honest files.new → IsErrOf result RedoError.Damaged → (records : Content) → StandsFor bounds [] records (F.model.seen files.old)
        → HasOddGate bounds (F.model.seen files.old FileKind.Log) }

    // A log with such a gate isn't taken.
    ensures shut { OnOk result (F.model.is_honest files.new → HasOddGate bounds (F.model.seen files.old FileKind.Log) → ⊥) }
    ensures untouched { F.model.is_honest files.new → IsErrOf result RedoError.Damaged → WritesNothing F.model files.old files.new }
    ensures after { ComesAfter F.model files.old files.new }
    ensures failed { IsErrOf result RedoError.Failed → HasFailed F.model files.old files.new }
    ensures errors { IfErr result (λ e. (e ≡ RedoError.Memory) ⊎ (e ≡ RedoError.Failed) ⊎ (e ≡ RedoError.Damaged)) }
{
    sync_both(files)?;
    let end = sound_end(alloc, files, bounds)?;
    replay(alloc, files, bounds)?;
    Ok(Redo { bounds, end })
}

impl Redo {
    /// Returns whether the log has no entries.
    pub fn is_empty(&self) -> bool
        ensures { IsTrue result ↔ (end_of self.now ≡ (bounds_of self.now).log_start) }
    {
        self.end == self.bounds.log_start
    }

    /// Returns how many bytes the log's entries take.
    pub fn log_len(&self) -> u64
        ensures { result ≡ end_of self.now - (bounds_of self.now).log_start }
    {
        self.end.saturating_sub(self.bounds.log_start)
    }

    /// Reads `len` bytes of the records.
    pub fn read<F: FilePair>(
        &self,
        alloc: Global,
        files: &mut F,
        at: u64,
        len: usize,
    ) -> Result<Vec<u8>, RedoError>
        ensures len { IfOk result (λ bytes. length bytes.items ≡ len) }
        ensures bytes { IfOk result (λ bytes. F.model.is_honest files.new → bytes.items ≡ bytes_at len at (F.model.seen files.old FileKind.Records)) }
        ensures consistent { (loose : _) → IsCrashConsistent F.model self.now loose files.old
            → IsCrashConsistent F.model self.now loose files.new }
        ensures nothing_written { WritesNothing F.model files.old files.new }
        ensures after { ComesAfter F.model files.old files.new }
        ensures failed { IsErrOf result RedoError.Failed → HasFailed F.model files.old files.new }
        ensures errors { IfErr result (λ e. (e ≡ RedoError.Memory) ⊎ (e ≡ RedoError.Failed)) }
    {
        read(alloc, files, FileKind::Records, at, len)
    }

    /// Reads `len` bytes of the records, and appends them to `bytes`.
    pub fn read_onto<F: FilePair>(
        &self,
        files: &mut F,
        at: u64,
        len: usize,
        bytes: &mut Vec<u8>,
    ) -> Result<(), RedoError>
        ensures bytes { OnOk result (ReadOnto len at (F.model.seen files.old FileKind.Records) (F.model.is_honest files.new) bytes.old.items bytes.new.items) }
        ensures consistent { (loose : _) → IsCrashConsistent F.model self.now loose files.old
            → IsCrashConsistent F.model self.now loose files.new }
        ensures nothing_written { WritesNothing F.model files.old files.new }
        ensures after { ComesAfter F.model files.old files.new }
        ensures failed { IsErrOf result RedoError.Failed → HasFailed F.model files.old files.new }
        ensures errors { IfErr result (λ e. (e ≡ RedoError.Memory) ⊎ (e ≡ RedoError.Failed)) }
    {
        read_onto(files, FileKind::Records, at, len, bytes)
    }

    /// Commits a batch. A crash before `Ok` leaves all of the batch or nothing of it. Loose patches stay loose. After
    /// `Memory`, `NoRoom` and `LogFull` nothing is done.
    pub fn commit<F: FilePair>(
        &mut self,
        alloc: Global,
        files: &mut F,
        batch: &[Patch],
    ) -> Result<(), RedoError>
        requires { All (Fits (bounds_of self.old)) (patches_of batch.now) }

        // After Ok the batch is acknowledged: each crash from then on leaves files that have it.
        ensures acknowledged { OnOk result ((loose : _) → IsCrashConsistent F.model self.old loose files.old
            → IsCrashConsistent F.model self.new loose files.new) }
        ensures records { OnOk result (Agrees (F.model.seen files.new FileKind.Records) (put_all (patches_of batch.now) (F.model.seen files.old FileKind.Records))) }

        // A crash at any moment of the call leaves what was there before it, with the whole batch or with none of it.
        ensures any_moment { (loose : _) → IsCrashConsistent F.model self.old loose files.old
            → LeavesOnly F.model files.old files.new
            (AllOrNothing (bounds_of self.old) loose (F.model.seen files.old) (patches_of batch.now)) }

        // A call that is refused has done nothing: no crash leaves the batch.
        ensures refused { IsRefused result → (loose : _) → IsCrashConsistent F.model self.old loose files.old
            → IsCrashConsistent F.model self.new loose files.new
            × LeavesOnly F.model files.old files.new (Keeps (bounds_of self.old) loose (F.model.seen files.old)) }
        ensures refused_records { IsRefused result → Agrees (F.model.seen files.new FileKind.Records) (F.model.seen files.old FileKind.Records) }

        ensures bounds { bounds_of self.new ≡ bounds_of self.old }
        ensures end_stays { OnErr result (end_of self.new ≡ end_of self.old) }
        ensures full { IsErrOf result RedoError.LogFull → (bounds_of self.old).log_end ≤ end_of self.old + length (entries (patches_of batch.now)) }
        ensures no_room { IsErrOf result RedoError.NoRoom → Rises F.model.shortages files.old files.new }
        ensures after { ComesAfter F.model files.old files.new }
        ensures failed { IsErrOf result RedoError.Failed → HasFailed F.model files.old files.new }
        ensures damaged { IsErrOf result RedoError.Damaged → ⊥ }
    {
        if batch.is_empty() {
            return Ok(());
        }
        let (body, end) = self.spell(alloc, batch)?;
        // Everything but the first gate, with a shut gate at the end. These bytes don't count yet.
        write_synced(files, FileKind::Log, self.end + 1, &body[1..])?;
        set_gate(files, self.end, OPEN)?;
        put_in_place(files, batch)?;
        self.end = end;
        Ok(())
    }

    // Returns the batch's entries with a shut gate after them, and the place of that gate.
    fn spell(&self, alloc: Global, batch: &[Patch]) -> Result<(Vec<u8>, u64), RedoError>
        requires { All (Fits (bounds_of self.now)) (patches_of batch.now) }
        ensures body { IfOk result (λ spelled. spelled.0.items ≡ entries (patches_of batch.now) ++ 15 ∷ []) }
        ensures end { IfOk result (λ spelled. spelled.1 ≡ self.now.end + length (entries (patches_of batch.now))) }
        ensures within { IfOk result (λ spelled. spelled.1 < self.now.bounds.log_end) }
        ensures in_range { IfOk result (λ spelled. spelled.1 < 2 ^ 64) }
        ensures full { IsErrOf result RedoError.LogFull → self.now.bounds.log_end ≤ self.now.end + length (entries (patches_of batch.now)) }
        ensures errors { IfErr result (λ e. (e ≡ RedoError.Memory) ⊎ (e ≡ RedoError.LogFull)) }
    {
        let body = body_of(alloc, batch)?;
        match end_behind(self.end, body.len() - 1, self.bounds.log_end) {
            Some(end) => Ok((body, end)),
            None => Err(RedoError::LogFull),
        }
    }

    /// Writes a patch that doesn't count yet: a crash before the next [`Redo::restart`] may leave any bytes in its place.
    pub fn write_loose<F: FilePair>(
        &self,
        files: &mut F,
        at: u64,
        bytes: &[u8],
    ) -> Result<(), RedoError>
        ensures loose { (loose : _) → IsCrashConsistent F.model self.now loose files.old
            → IsCrashConsistent F.model self.now ((at, bytes.now) ∷ loose) files.new }
        ensures bytes { OnOk result (Agrees (F.model.seen files.new FileKind.Records) (put bytes.now at (F.model.seen files.old FileKind.Records))) }
        ensures any_moment { (loose : _) → IsCrashConsistent F.model self.now loose files.old
            → LeavesOnly F.model files.old files.new
            (Keeps (bounds_of self.now) ((at, bytes.now) ∷ loose) (F.model.seen files.old)) }
        ensures elsewhere { Torn FileKind.Records at (length bytes.now) (F.model.seen files.old) (F.model.seen files.new) }
        ensures no_room { IsErrOf result RedoError.NoRoom → Rises F.model.shortages files.old files.new }
        ensures after { ComesAfter F.model files.old files.new }
        ensures failed { IsErrOf result RedoError.Failed → HasFailed F.model files.old files.new }
        ensures errors { IfErr result (λ e. (e ≡ RedoError.NoRoom) ⊎ (e ≡ RedoError.Failed)) }
    {
        files.write_at(FileKind::Records, at, bytes)
    }

    /// Syncs the records, so that loose patches are durable, and then empties the log. The records have to be on the disk
    /// first: an empty log heals nothing.
    pub fn restart<F: FilePair>(&mut self, files: &mut F) -> Result<(), RedoError>
        ensures consistent { OnOk result ((loose : _) → IsCrashConsistent F.model self.old loose files.old
            → IsCrashConsistent F.model self.new [] files.new) }
        ensures empty { OnOk result (end_of self.new ≡ (bounds_of self.old).log_start) }
        ensures records { Agrees (F.model.seen files.new FileKind.Records) (F.model.seen files.old FileKind.Records) }

        // A crash at any moment leaves the same records.
        ensures any_moment { (loose : _) → IsCrashConsistent F.model self.old loose files.old
            → LeavesOnly F.model files.old files.new (Keeps (bounds_of self.old) loose (F.model.seen files.old)) }

        ensures bounds { bounds_of self.new ≡ bounds_of self.old }
        ensures after { ComesAfter F.model files.old files.new }
        ensures failed { IfErr result (λ e. (e ≡ RedoError.Failed) × HasFailed F.model files.old files.new) }
    {
        files.sync(FileKind::Records)?;
        // A shut gate isn't shut again: a crash might tear that write and open the gate, and the old entries after it
        // would count.
        if self.end == self.bounds.log_start {
            return Ok(());
        }
        set_gate(files, self.bounds.log_start, SHUT)?;
        self.end = self.bounds.log_start;
        Ok(())
    }
}

// Returns the place where `size` bytes end that begin at `end`, if one more byte fits before `room_end`.
fn end_behind(end: u64, size: usize, room_end: u64) -> Option<u64>
    ensures some { IfSome result (λ next. (next ≡ end + size) × (next < room_end)) }
    ensures none { IfNone result (room_end ≤ end + size) }
{
    let next = end.checked_add(size as u64)?;
    if next < room_end { Some(next) } else { None }
}
