//! Makes the files of a new store, and opens those of an old one.
ghost use Rattle.std.specs.Prelude.{◌≡◌, ◌⊎◌, ℕ, None, [], false, length, IfErr, IfOk, IsErrOf, OnOk, replicate};
ghost use Rattle.oram_layout.specs.BucketFile.{IsBucketFile};
ghost use Rattle.oram_layout.specs.Fronts.{log_letters};
ghost use Rattle.oram_layout.specs.Header.{letters};
ghost use Rattle.oram_layout.specs.Records.{AreKept, records_in};
ghost use Rattle.oram_layout.specs.Trees.{Trees};
ghost use Rattle.oram_pair.specs.Fronts.{front_bytes};
ghost use Rattle.oram_redo.specs.Content.{Content, Has};
ghost use Rattle.oram_redo.specs.FilePair.{ComesAfter, HasFailed, IsSure, Rises, WritesNothing};
ghost use Rattle.oram_redo.specs.Log.{IsLog, StandsFor};
ghost use Rattle.oram_redo.specs.Redo.{IsCrashConsistent, bounds_of};
ghost use Rattle.oram_redo.specs.declared.file_pair.FileKind.TheVariants.{Log, Records};
ghost use Rattle.oram_store.specs.KeptRecords.{IsSound, records_of};
ghost use Rattle.oram_store.specs.OpenOutcomes.{IsNotOpened, IsOpened, OpensAlike};
ghost use Rattle.oram_store.specs.RecordFile.{bounds};

use crate::faults::StoreFault;
use crate::record_file::{BOUNDS, FORMAT, RecordFile};
use crate::store::FileStore;
use oram_layout::{ENTRY_LEN, TREES, Tree, entry_place, read_trees};
use oram_pair::{Generation, Identity, begin_files};
use oram_redo::{FilePair, Redo, recover};
use std::alloc::Global;

/// Turns two empty files into a store without trees, with this identity, and with a log of the first generation. After `Ok` they are
/// on the disk. After `Err` they may be neither empty nor a store's, and have to be made again.
pub fn create<F: FilePair>(files: &mut F, identity: &Identity) -> Result<(), StoreFault>
    requires { (file : _) (i : ℕ) → F.model.seen files.old file i ≡ 0 }
    ensures records { OnOk result (IsBucketFile (replicate 256 None) (F.model.seen files.new Records)) }
    ensures log { OnOk result (IsLog bounds [] (F.model.seen files.new Log)) }

    // The first gate is there and shut: a log without it counts as cut off.
    ensures gate { OnOk result (F.model.seen files.new Log bounds.log_start ≡ 15) }

    // Each file says that it has this identity.
    ensures front { OnOk result (Has (front_bytes letters identity.now) 0 (F.model.seen files.new Records)) }
    ensures log_front { OnOk result (Has (front_bytes log_letters identity.now) 0 (F.model.seen files.new Log)) }
    ensures sure { OnOk result ((file : _) → IsSure F.model file files.new) }
    ensures no_room { IsErrOf result StoreFault.NoRoom → Rises F.model.shortages files.old files.new }
    ensures failed { IsErrOf result StoreFault.Io → HasFailed F.model files.old files.new }
    ensures errors { IfErr result (λ fault. (fault ≡ StoreFault.NoRoom) ⊎ (fault ≡ StoreFault.Io)) }
    ensures after { ComesAfter F.model files.old files.new }
{
    begin_files(&FORMAT, identity, files)?;
    Ok(())
}

/// Reads the entries of trees in the header.
fn read_entries<F: FilePair>(
    alloc: Global,
    files: &mut F,
    redo: &Redo,
) -> Result<Vec<u8>, StoreFault>
    ensures len { IfOk result (λ bytes. length bytes.items ≡ 4096) }
    ensures entries { IfOk result (λ bytes. F.model.is_honest files.new → Has bytes.items 4096 (F.model.seen files.old Records)) }
    ensures consistent { (loose : _) → IsCrashConsistent F.model redo.now loose files.old
        → IsCrashConsistent F.model redo.now loose files.new }
    ensures nothing_written { WritesNothing F.model files.old files.new }
    ensures failed { IsErrOf result StoreFault.Io → HasFailed F.model files.old files.new }
    ensures errors { IfErr result (λ fault. (fault ≡ StoreFault.OutOfMemory) ⊎ (fault ≡ StoreFault.Io)) }
    ensures after { ComesAfter F.model files.old files.new }
{
    let bytes = redo.read(alloc, files, entry_place(0), ENTRY_LEN * TREES)?;
    Ok(bytes)
}

/// Recovers the files of a store, which a crash may have cut off anywhere, and reads their trees.
fn recover_trees<F: FilePair>(
    alloc: Global,
    files: &mut F,
) -> Result<(Redo, Vec<Option<Tree>>), StoreFault>
    ensures opened { IfOk result (λ found. F.model.is_honest files.new → IsOpened F.model found.0 found.1.items files.old files.new) }
    ensures bounds { IfOk result (λ found. bounds_of found.0 ≡ bounds) }
    ensures all { IfOk result (λ found. length found.1.items ≡ 256) }
    ensures any_moment { F.model.is_honest files.new → OpensAlike F.model files.old files.new }
    ensures err { IfErr result (λ why. IsNotOpened F.model why files.old files.new) }
    ensures after { ComesAfter F.model files.old files.new }
{
    let redo = recover(alloc, files, BOUNDS)?;
    let entries = read_entries(alloc, files, &redo)?;
    let trees = read_trees(alloc, &entries)?;
    Ok((redo, trees))
}

impl<F: FilePair + Drop> FileStore<F> {
    /// Opens the files of a store, as a crash or a clean end has left them. The caller has to look at their fronts
    /// first, and gives the generation of the log that they say.
    pub fn over(
        alloc: Global,
        mut files: F,
        generation: Generation,
    ) -> Result<FileStore<F>, StoreFault>
        // If the files stand for the content of a bucket file, the store has its trees and its records.
        ensures found { IfOk result (λ store. F.model.is_honest store.file.files → (trees : Trees) (c : Content) → StandsFor bounds [] c (F.model.seen files) → IsBucketFile trees c
            → (store.trees ≡ trees) × IsSound F.model store × AreKept (records_in trees c) (records_of F.model store)) }
        ensures opened { IfOk result (λ store. F.model.is_honest store.file.files → IsOpened F.model store.file.redo store.trees files store.file.files) }

        // No record waits to be committed, and the store hasn't stopped.
        ensures fresh { IfOk result (λ store. (store.pending ≡ []) × (store.failure ≡ None) × (store.file.has_stopped ≡ false)) }
        ensures any_moment { IfOk result (λ store. F.model.is_honest store.file.files → OpensAlike F.model files store.file.files) }
        ensures after { IfOk result (λ store. ComesAfter F.model files store.file.files) }

        // On an error, the files are dropped. `Damaged` comes only if they hold no bucket file, and `LogDamaged` only if they hold
        // none or if the gate at the log's end is neither open nor shut.
        ensures err { IfErr result (λ why. (last : F) × IsNotOpened F.model why files last) }
    {
        let (redo, trees) = recover_trees(alloc, &mut files)?;
        Ok(FileStore::new(alloc, RecordFile::new(files, redo, generation), trees))
    }
}
