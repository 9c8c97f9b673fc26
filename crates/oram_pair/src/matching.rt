//! Whether a log is the one that belongs beside a file as it is.
ghost use Rattle.std.specs.Prelude.{◌≡◌, ◌⊎◌, ◌<◌, ◌↔◌, true, false, Err, IfErr, IsOk};
ghost use Rattle.oram_pair.specs.Matching.{AreSound, GoTogether};

use crate::faults::PairFault;
use crate::generations::Newest;

/// Refuses a file and a log that no crash leaves side by side, by what their fronts say of the log's generation, and by whether
/// the log has no entries.
///
/// A log is begun in this order: its front says the new generation while it has no entries, then the file's front says it, and
/// then come entries. So a crash leaves both at the same generation, or a log without entries that is one ahead.
pub(crate) fn check_generations(
    file: &Newest,
    log: &Newest,
    has_entries: bool,
) -> Result<(), PairFault>
    ensures together { IsOk result ↔ GoTogether file.now log.now has_entries }
    ensures older_log { (result ≡ Err PairFault.LogOlder) ↔ (AreSound file.now log.now × (log.now.number < file.now.number)) }
    ensures older_file { (result ≡ Err PairFault.LogNewer) ↔ (AreSound file.now log.now × (file.now.number < log.now.number) × (GoTogether file.now log.now has_entries → ⊥)) }
    ensures damaged { (result ≡ Err PairFault.Damaged) ↔ ((file.now.is_whole ≡ false) × (GoTogether file.now log.now has_entries → ⊥)) }
    ensures log_damaged { (result ≡ Err PairFault.LogDamaged) ↔ ((file.now.is_whole ≡ true) × (log.now.is_whole ≡ false) × (GoTogether file.now log.now has_entries → ⊥)) }
    ensures errors { IfErr result (λ fault. (fault ≡ PairFault.LogOlder) ⊎ (fault ≡ PairFault.LogNewer) ⊎ (fault ≡ PairFault.Damaged) ⊎ (fault ≡ PairFault.LogDamaged)) }
{
    if log.number == file.number {
        return Ok(());
    }
    if !has_entries && log.number.checked_sub(1) == Some(file.number) {
        return Ok(());
    }
    if !file.is_whole {
        Err(PairFault::Damaged)
    } else if !log.is_whole {
        Err(PairFault::LogDamaged)
    } else if log.number < file.number {
        Err(PairFault::LogOlder)
    } else {
        Err(PairFault::LogNewer)
    }
}
