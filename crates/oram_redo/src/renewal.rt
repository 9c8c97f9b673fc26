//! A log is renewed: a copy of it, which is on the disk, takes its place.
ghost use Rattle.std.specs.Prelude.{◌≡◌, ◌<◌, [], false, true, Ok, IfOk, OnErr, OnOk};
ghost use Rattle.oram_redo.specs.Content.{Content};
ghost use Rattle.oram_redo.specs.NamedLog.{AreDone, HasFailed, HasOnlyRead, HasRead, IsOnDisk, IsUnnamed, calls_on, copied};
ghost use Rattle.oram_redo.specs.Renewal.{AgreesBelow, IsAsBefore, IsCopy, IsEnough, IsRenewed, NeverLosesEntries};

use crate::Bounds;
use crate::batch::SHUT;
use crate::named_log::{NamedLog, Synced, is_refused};
use std::io::{self, ErrorKind};

/// The length of the pieces in which a log is copied, in bytes.
const PIECE: usize = 1 << 16;

/// Puts a copy of a log in the log's place, and syncs the folder. The copy has the whole log; or, if the log's first gate is shut, the log
/// as far as that gate, since then it has no entries. Returns whether the copy has the log's name now. It hasn't if there is no room for it,
/// or if this process may not make it.
///
/// Why a log is copied: if a sync of it has failed, in this process or an earlier one, a read may return bytes that the disk lacks, and
/// Linux leaves them out of later syncs until they are written again. The log itself isn't written, since a crash may leave anything where
/// a file was written since its last sync. After an error, the name may be the copy's, so the log has to be opened again by its name.
pub fn renew_log(named: &mut NamedLog<'_>, bounds: Bounds) -> io::Result<bool>
    requires new { calls_on named.old ≡ [] }
    requires room { bounds.log_start < bounds.log_end }

    // Whenever the machine loses its power during this, the log at that name has the entries that it had.
    ensures any_moment { NeverLosesEntries bounds (calls_on named.new) }
    ensures renewed { result ≡ Ok true → IsRenewed bounds (calls_on named.new) }
    ensures refused { result ≡ Ok false → IsAsBefore (calls_on named.new) }

    // It gives up only if a call has failed.
    ensures why_refused { result ≡ Ok false → HasFailed (calls_on named.new) }
    ensures why { OnErr result (HasFailed (calls_on named.new)) }
{
    match make_copy(named, bounds) {
        Ok(()) => {}
        Err(error) if is_refused(&error) => return Ok(false),
        Err(error) => return Err(error),
    }
    if !named.rename()? {
        return Ok(false);
    }
    named.sync(Synced::Folder)?;
    Ok(true)
}

/// Copies a log, and syncs the copy.
fn make_copy(named: &mut NamedLog<'_>, bounds: Bounds) -> io::Result<()>
    requires new { calls_on named.old ≡ [] }
    requires room { bounds.log_start < bounds.log_end }
    ensures unnamed { IsUnnamed (calls_on named.new) }
    ensures done { OnOk result (AreDone (calls_on named.new)) }
    ensures synced { OnOk result (IsOnDisk (calls_on named.new)) }
    ensures copy { OnOk result (IsCopy bounds (calls_on named.new)) }
    ensures why { OnErr result (HasFailed (calls_on named.new)) }
{
    let end = end_of_copy(named, bounds)?;
    copy_up_to(named, end)?;
    named.sync(Synced::Copy)?;
    Ok(())
}

/// Returns the place up to which a log has to be copied, by its first gate.
fn end_of_copy(named: &mut NamedLog<'_>, bounds: Bounds) -> io::Result<u64>
    requires new { calls_on named.old ≡ [] }
    requires room { bounds.log_start < bounds.log_end }
    ensures only_read { OnOk result (HasOnlyRead (calls_on named.new)) }
    ensures unnamed { IsUnnamed (calls_on named.new) }
    ensures why { OnErr result (HasFailed (calls_on named.new)) }
    ensures enough { IfOk result (λ end. (log : Content) → HasRead log (calls_on named.new) → IsEnough bounds log end) }
{
    let mut gate = [0];
    let len = named.read_at(bounds.log_start, &mut gate)?;
    match &gate[..len] {
        [SHUT] => Ok(bounds.log_start + 1),
        _ => Ok(bounds.log_end),
    }
}

/// Copies the first `end` bytes of a log, or all if it has fewer.
fn copy_up_to(named: &mut NamedLog<'_>, end: u64) -> io::Result<()>
    requires only_read { HasOnlyRead (calls_on named.old) }
    ensures unnamed { IsUnnamed (calls_on named.new) }
    ensures reads { (log : Content) → HasRead log (calls_on named.new) → HasRead log (calls_on named.old) }
    ensures done { OnOk result (AreDone (calls_on named.new)) }
    ensures why { OnErr result (HasFailed (calls_on named.new)) }
    ensures same { OnOk result ((log : Content) → HasRead log (calls_on named.new) → AgreesBelow end log (copied (calls_on named.new))) }
{
    let mut piece = [0; PIECE];
    let mut at = 0;
    while at < end {
        let size = (end - at).min(PIECE as u64) as usize;
        let len = named.read_at(at, &mut piece[..size])?;
        if len == 0 {
            return Ok(());
        }
        match named.write_at(at, &piece[..len])? {
            0 => return Err(io::Error::from(ErrorKind::WriteZero)),
            put => at += put as u64,
        }
    }
    Ok(())
}
