//! Laws of the definitions, as contracts of functions that do nothing, and one run from empty files, whose promise
//! rests on no premise that might never hold.
ghost use Rattle.std.specs.Prelude.{◌≡◌, ◌<◌, ℕ, [], All, OnOk};
ghost use Rattle.oram_redo.specs.Batch.{patches_of};
ghost use Rattle.oram_redo.specs.FilePair.{Contents};
ghost use Rattle.oram_redo.specs.Laws.{BlanksAreZeros, BlanksExample, FilesStandForOne, LogsAreOne, ReplayHeals};
ghost use Rattle.oram_redo.specs.Log.{Fits, Keeps, StandsFor, put_all};
ghost use Rattle.oram_redo.specs.Opening.{OpeningExample, RecoveriesLoseNothing, RenewalsLoseNothing};
ghost use Rattle.oram_redo.specs.Redo.{IsCrashConsistent, bounds_of};
ghost use Rattle.oram_redo.specs.Renewal.{BothSyncsAreNeeded, RenewalExample, RenewedFilesStand};

use crate::{Bounds, FileKind, FilePair, Patch, Redo, RedoError, SHUT, recover};
use std::alloc::Global;

/// A log holds only one list of patches. So files stand for only one content of the records, except in loose places.
pub fn one_reading()
    ensures log { LogsAreOne }
    ensures records { FilesStandForOne }
{}

/// Replaying a log gives the same records, whatever a crash has left in the places that it writes to.
pub fn replay_heals()
    ensures { ReplayHeals }
{}

/// From a blank place on, an honest file of the system holds zeros. A log that was asked for its length is an example.
pub fn blanks_are_zeros()
    ensures law { BlanksAreZeros }
    ensures example { BlanksExample }
{}

/// A log that was renewed has the entries that it had, so files stand for the same records with it.
pub fn renewed_logs_stand()
    ensures { RenewedFilesStand }
{}

/// While a log is renewed, a loss of power leaves the log or its copy, and afterwards the copy. Without one of the two syncs it wouldn't.
pub fn renewals_need_both_syncs()
    ensures example { RenewalExample }
    ensures needed { BothSyncsAreNeeded }
{}

/// While two files are opened, nothing of their records is lost, if nothing was before: neither while the log is renewed, nor when a pair is
/// made of the file and of the log that is found then, nor while that pair is recovered.
pub fn openings_lose_nothing()
    ensures renewal { RenewalsLoseNothing }
    ensures recovery { RecoveriesLoseNothing }
    ensures example { (bounds : Bounds) → 0 < bounds.log_start → bounds.log_start < bounds.log_end → OpeningExample bounds }
{}

/// Between two calls, whatever a crash leaves stands for the records that are read, except in loose places.
pub fn crash_keeps_records<F: FilePair>(redo: &Redo, files: &F)
    ensures { (loose : _) (c : Contents) → IsCrashConsistent F.model redo.now loose files.now
        → F.model.may_leave files.now c → Keeps (bounds_of redo.now) loose (F.model.seen files.now) c }
{}

/// Begins a log in empty files, opens them and commits one batch. Each crash from then on leaves files that have the batch, and nothing else.
pub fn first_commit<F: FilePair>(
    alloc: Global,
    files: &mut F,
    bounds: Bounds,
    batch: &[Patch],
) -> Result<Redo, RedoError>
    requires fits { All (Fits bounds) (patches_of batch.now) }
    requires empty { (file : _) (i : ℕ) → F.model.seen files.old file i ≡ 0 }
    ensures { OnOk result (F.model.is_honest files.new → (c : Contents) → F.model.may_leave files.new c → StandsFor bounds [] (put_all (patches_of batch.now) (λ i. 0)) c) }
{
    files.write_at(FileKind::Log, bounds.log_start, &[SHUT])?;
    let mut redo = recover(alloc, files, bounds)?;
    redo.commit(alloc, files, batch)?;
    Ok(redo)
}
