//! A store in a file of the system, with its log beside it.
//!
//! A file that is there is opened, and never made; a new one is made, and never opened ([`make_store`]).
ghost use Rattle.std.specs.Prelude.{◌≡◌, [], None, IfOk, false, replicate};
ghost use Rattle.oram_layout.specs.BucketFile.{IsBucketFile};
ghost use Rattle.oram_layout.specs.Records.{AreKept, records_in};
ghost use Rattle.oram_layout.specs.Trees.{Trees};
ghost use Rattle.oram_redo.specs.Content.{Content};
ghost use Rattle.oram_redo.specs.FilePair.{Same};
ghost use Rattle.oram_redo.specs.Log.{StandsFor};
ghost use Rattle.oram_redo.specs.Opened.{Opened, contents_in};
ghost use Rattle.oram_store.specs.KeptRecords.{IsSound, records_of};
ghost use Rattle.oram_store.specs.RecordFile.{bounds};

use crate::faults::StoreFault;
use crate::record_file::{BOUNDS, FORMAT};
use crate::store::FileStore;
use oram_pair::{Fill, Generation, PairFault, PairFormat, make_pair, open_files};
use oram_redo::{FilePair, Syncs, SystemPair};
use std::alloc::{AllocError, Global};
use std::fs::File;

/// At least as large as any block of memory that a host frees, in bytes.
const LARGE_BLOCK: usize = 1 << 22;

/// A store in a file.
pub type BucketFile = FileStore<SystemPair>;

/// The filling of a new store: it has no trees, so its file has nothing behind its front.
#[derive(Drop)]
struct NoTrees;

impl Fill for NoTrees {
    ghost fills = { λ _ old new. Same new old };

    fn fill<F: FilePair>(&self, _format: &PairFormat, _files: &mut F) -> Result<(), PairFault> {
        Ok(())
    }
}

/// Opens the file of a store. Its log is beside it, under the same name with `-log` appended. The two belong together. It never
/// makes a file: if there is none, it fails with `Missing`.
///
/// A file that isn't a store's, is damaged, is held by another process, or lies beside a log of another moment is refused and keeps
/// its bytes. This reads only the header of the file. It puts a copy in the place of the log, which has 64 MiB at most. If the
/// log has entries, it writes them to their places and empties it.
///
/// After the disk has failed (`StoreFault::Io`, `StoreFault::Closed`), drop the store and open its file again with this
/// function: everything that was acknowledged and committed is there.
pub fn open_store(rt: &HostRuntime, alloc: Global, path: &str) -> Result<BucketFile, StoreFault>
    // No record waits to be committed, and the store hasn't stopped. What it finds in files that are there is said by
    // `open_pair`, for all bytes that they may hold.
    ensures { IfOk result (λ store. (store.pending ≡ []) × (store.failure ≡ None) × (store.file.has_stopped ≡ false)) }
{
    keep_freed_memory(alloc);
    let mut store = open_old(rt, alloc, path)?;
    // So a copy of the log that was made while no host ran is told from the log that this one goes on with.
    if !store.has_empty_log() {
        store.empty_log()?;
    }
    Ok(store)
}

/// Makes the file of a new store and its log beside it, and opens them. It never opens or changes a file that is there: if there is
/// anything at the path, it fails with `Exists`; if there is something else where it makes the two, with `LogWithoutFile`,
/// `NewFileTaken` or `NewLogTaken`; and if another process is making the same store, with `Busy` ([`make_pair`]).
///
/// Whenever the process or the machine ends during this, there is nothing at the path, or the whole store. What is left of a making that was
/// broken off is taken away by the next one.
pub fn make_store(rt: &HostRuntime, alloc: Global, path: &str) -> Result<BucketFile, StoreFault>
    // It has no trees.
    ensures new { IfOk result (λ store. ⟦<SystemPair as FilePair>⟧.model.is_honest store.file.files
        → (store.trees ≡ replicate 256 None) × IsSound ⟦<SystemPair as FilePair>⟧.model store) }
    ensures fresh { IfOk result (λ store. (store.pending ≡ []) × (store.failure ≡ None) × (store.file.has_stopped ≡ false)) }
{
    keep_freed_memory(alloc);
    let (files, first) = make_pair(rt, alloc, path, &FORMAT, &NoTrees)?;
    FileStore::over(alloc, files, first)
}

/// Makes the C library keep freed memory. Otherwise it returns the memory of each large message to the system and takes
/// it again for the next one, which costs a page fault for every 4 KiB. It keeps twice as much as the largest block
/// that was ever freed (mallopt(3), `M_TRIM_THRESHOLD`).
fn keep_freed_memory(alloc: Global) {
    let _freed: Result<Vec<u8>, AllocError> = Vec::with_capacity(alloc, LARGE_BLOCK);
}

/// Opens the file of a store that is there, and its log.
fn open_old(rt: &HostRuntime, alloc: Global, path: &str) -> Result<BucketFile, StoreFault>
    ensures { IfOk result (λ store. (store.pending ≡ []) × (store.failure ≡ None) × (store.file.has_stopped ≡ false)) }
{
    let pair = open_files(rt, alloc, path, &FORMAT)?;
    open_pair(alloc, pair.records, pair.log, pair.generation)
}

/// Opens a store over its file and its log, whatever they hold, which `held` says. The caller has to look at their fronts first, and gives
/// the generation of the log that they say.
pub fn open_pair(
    alloc: Global,
    records: File,
    log: File,
    generation: Generation,
) -> Result<BucketFile, StoreFault>
    ghost held: { Opened }
    // If the files stand for the content of a bucket file, the store has its trees and its records.
    ensures found { IfOk result (λ store. ⟦<SystemPair as FilePair>⟧.model.is_honest store.file.files → (trees : Trees) (c : Content)
        → StandsFor bounds [] c (contents_in held) → IsBucketFile trees c
        → (store.trees ≡ trees) × IsSound ⟦<SystemPair as FilePair>⟧.model store × AreKept (records_in trees c) (records_of ⟦<SystemPair as FilePair>⟧.model store)) }
    ensures fresh { IfOk result (λ store. (store.pending ≡ []) × (store.failure ≡ None) × (store.file.has_stopped ≡ false)) }
{
    let files = SystemPair::new(records, log, BOUNDS.log_end, Syncs::Made);
    FileStore::over(alloc, files, generation)
}
