//! Reads a log that a crash may have left.
ghost use Rattle.std.specs.Prelude.{◌≡◌, ◌⊎◌, ◌<◌, ◌≤◌, ◌+◌, ◌^◌, ◌↔◌, None, Ok, Some, length, IfErr, IfNone, IfOk, IfSome, IsErrOf, IsTrue, OnOk};
ghost use Rattle.oram_redo.specs.Content.{Agrees};
ghost use Rattle.oram_redo.specs.FilePair.{Follows, ComesAfter, HasFailed, LeavesOnly, WritesNothing};
ghost use Rattle.oram_redo.specs.Log.{HasOddGate, IsLog, Smeared, entries, put_all};
ghost use Rattle.oram_redo.specs.Recovery.{IsDamagedAt, IsEndAt, IsEntryAt, IsWholeAt};
ghost use Rattle.oram_redo.specs.Steps.{Smears};

use crate::batch::{CHECK_LEN, HEAD_LEN, Head, SHUT, head_of, is_check_of};
use crate::steps::read;
use crate::{Bounds, FileKind, FilePair, RedoError};
use std::alloc::Global;

/// An entry with an open gate: its patch's place and length, and where the next entry begins.
#[derive(Clone, Copy, Debug)]
pub struct Entry {
    pub at: u64,
    pub len: u32,
    pub next: u64,
}

// Returns the entry with this head at a place of the log, if it fits in the log and its patch in the records.
fn entry_of(bounds: Bounds, at: u64, head: Head) -> Option<Entry>
    ensures some { IfSome result (λ found. (found.at ≡ head.at) × (found.len ≡ head.len) × (found.next ≡ at + 21 + head.len)
        × (found.next < bounds.log_end) × (found.at + found.len ≤ bounds.records_end)) }
    ensures none { IfNone result ((bounds.log_end ≤ at + 21 + head.len) ⊎ (bounds.records_end < head.at + head.len)) }
{
    let len = u64::from(head.len);
    let next = at.checked_add(len + (HEAD_LEN + CHECK_LEN) as u64)?;
    let records_end = head.at.checked_add(len)?;
    if next >= bounds.log_end || records_end > bounds.records_end {
        return None;
    }
    Some(Entry {
        at: head.at,
        len: head.len,
        next,
    })
}

// Returns whether the entry at a place of the log has the checksum of what it says.
fn is_whole<F: FilePair>(alloc: Global, files: &mut F, at: u64, len: u32) -> Result<bool, RedoError>
    requires { at + 21 + len < 2 ^ 64 }
    ensures whole { IfOk result (λ whole. F.model.is_honest files.new → IsTrue whole ↔ IsWholeAt (F.model.seen files.old FileKind.Log) at len) }
    ensures nothing_written { WritesNothing F.model files.old files.new }
    ensures failed { IsErrOf result RedoError.Failed → HasFailed F.model files.old files.new }
    ensures after { ComesAfter F.model files.old files.new }
    ensures errors { IfErr result (λ e. (e ≡ RedoError.Memory) ⊎ (e ≡ RedoError.Failed)) }
{
    let text_len = HEAD_LEN - 1 + len as usize;
    let bytes = read(alloc, files, FileKind::Log, at + 1, text_len + CHECK_LEN)?;
    Ok(is_check_of(&bytes[text_len..], &bytes[..text_len]))
}

// Reads the entry at a place of the log. Returns `None` if its gate is shut, and fails with `Damaged` if it isn't whole.
fn find_entry<F: FilePair>(
    alloc: Global,
    files: &mut F,
    bounds: Bounds,
    at: u64,
) -> Result<Option<Entry>, RedoError>
    ensures nothing_written { WritesNothing F.model files.old files.new }
    ensures found { IfOk result (λ found. F.model.is_honest files.new → IfSome found (IsEntryAt bounds (F.model.seen files.old FileKind.Log) at)) }
    ensures next { IfOk result (λ found. IfSome found (λ entry. (entry.next ≡ at + 21 + entry.len) × (entry.next < bounds.log_end))) }
    ensures end { F.model.is_honest files.new → result ≡ Ok None → IsEndAt bounds (F.model.seen files.old FileKind.Log) at }
    ensures damaged { F.model.is_honest files.new → IsErrOf result RedoError.Damaged → IsDamagedAt bounds (F.model.seen files.old FileKind.Log) at }
    ensures failed { IsErrOf result RedoError.Failed → HasFailed F.model files.old files.new }
    ensures after { ComesAfter F.model files.old files.new }
    ensures errors { IfErr result (λ e. (e ≡ RedoError.Memory) ⊎ (e ≡ RedoError.Failed) ⊎ (e ≡ RedoError.Damaged)) }
{
    if at >= bounds.log_end {
        return Err(RedoError::Damaged);
    }
    let bytes = read(alloc, files, FileKind::Log, at, HEAD_LEN)?;
    let Some(head) = head_of(&bytes) else {
        return Ok(None);
    };
    let Some(found) = entry_of(bounds, at, head) else {
        return Err(RedoError::Damaged);
    };
    if !is_whole(alloc, files, at, found.len)? {
        return Err(RedoError::Damaged);
    }
    Ok(Some(found))
}

// Returns the place where the log's last entry ends. Fails with `Damaged` if the log isn't a list of patches.
fn end_of_log<F: FilePair>(alloc: Global, files: &mut F, bounds: Bounds) -> Result<u64, RedoError>
    ensures nothing_written { WritesNothing F.model files.old files.new }
    ensures end { IfOk result (λ end. F.model.is_honest files.new → (patches : _) × IsLog bounds patches (F.model.seen files.old FileKind.Log)
        × (end ≡ bounds.log_start + length (entries patches))) }
    ensures damaged { F.model.is_honest files.new → IsErrOf result RedoError.Damaged → (patches : _) → IsLog bounds patches (F.model.seen files.old FileKind.Log) → ⊥ }
    ensures failed { IsErrOf result RedoError.Failed → HasFailed F.model files.old files.new }
    ensures after { ComesAfter F.model files.old files.new }
    ensures errors { IfErr result (λ e. (e ≡ RedoError.Memory) ⊎ (e ≡ RedoError.Failed) ⊎ (e ≡ RedoError.Damaged)) }
{
    let mut at = bounds.log_start;
    while let Some(found) = find_entry(alloc, files, bounds, at)? {
        at = found.next;
    }
    Ok(at)
}

/// Reads the whole log, and returns the place where its last entry ends. Fails with `Damaged` if the log isn't a list of
/// patches, or if the gate at its end is neither open nor shut.
pub fn sound_end<F: FilePair>(
    alloc: Global,
    files: &mut F,
    bounds: Bounds,
) -> Result<u64, RedoError>
    ensures nothing_written { WritesNothing F.model files.old files.new }
    ensures end { IfOk result (λ end. F.model.is_honest files.new → (patches : _) × IsLog bounds patches (F.model.seen files.old FileKind.Log)
        × (end ≡ bounds.log_start + length (entries patches))) }
    ensures damaged { F.model.is_honest files.new → IsErrOf result RedoError.Damaged → (patches : _) → IsLog bounds patches (F.model.seen files.old FileKind.Log)
        → HasOddGate bounds (F.model.seen files.old FileKind.Log) }
    ensures shut { OnOk result (F.model.is_honest files.new → HasOddGate bounds (F.model.seen files.old FileKind.Log) → ⊥) }
    ensures failed { IsErrOf result RedoError.Failed → HasFailed F.model files.old files.new }
    ensures after { ComesAfter F.model files.old files.new }
    ensures errors { IfErr result (λ e. (e ≡ RedoError.Memory) ⊎ (e ≡ RedoError.Failed) ⊎ (e ≡ RedoError.Damaged)) }
{
    let end = end_of_log(alloc, files, bounds)?;
    let gate = read(alloc, files, FileKind::Log, end, 1)?;
    if gate[0] != SHUT {
        return Err(RedoError::Damaged);
    }
    Ok(end)
}

/// Writes the log's patches to their places, without a sync. Call it after [`sound_end`] has found that the log isn't
/// damaged.
pub fn replay<F: FilePair>(alloc: Global, files: &mut F, bounds: Bounds) -> Result<(), RedoError>
    ensures log { Agrees (F.model.seen files.new FileKind.Log) (F.model.seen files.old FileKind.Log) }
    ensures records { F.model.is_honest files.new → (patches : _) → IsLog bounds patches (F.model.seen files.old FileKind.Log)
        → OnOk result (Agrees (F.model.seen files.new FileKind.Records) (put_all patches (F.model.seen files.old FileKind.Records))) }
    ensures crash { F.model.is_honest files.new → (patches : _) → IsLog bounds patches (F.model.seen files.old FileKind.Log)
        → Follows (Smeared patches) (F.model.may_leave files.old) (F.model.may_leave files.new) }
    ensures moments { F.model.is_honest files.new → (patches : _) → IsLog bounds patches (F.model.seen files.old FileKind.Log)
        → LeavesOnly F.model files.old files.new (Smears patches (F.model.may_leave files.old)) }
    ensures damaged { F.model.is_honest files.new → (patches : _) → IsLog bounds patches (F.model.seen files.old FileKind.Log) → IsErrOf result RedoError.Damaged → ⊥ }
    ensures failed { IsErrOf result RedoError.Failed → HasFailed F.model files.old files.new }
    ensures after { ComesAfter F.model files.old files.new }
    ensures errors { IfErr result (λ e. (e ≡ RedoError.Memory) ⊎ (e ≡ RedoError.Failed) ⊎ (e ≡ RedoError.Damaged)) }
{
    let mut at = bounds.log_start;
    while let Some(found) = find_entry(alloc, files, bounds, at)? {
        let body_at = at + HEAD_LEN as u64;
        let bytes = read(alloc, files, FileKind::Log, body_at, found.len as usize)?;
        if files.write_at(FileKind::Records, found.at, &bytes).is_err() {
            return Err(RedoError::Failed);
        }
        at = found.next;
    }
    Ok(())
}
