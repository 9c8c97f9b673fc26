//! Before a pair is opened, a copy of its log takes the log's place.
//!
//! Why: if a sync of the log has failed, in this process or an earlier one, a read may return bytes that the disk lacks, and Linux leaves
//! them out of later syncs until they are written again. So the log is written again, as a copy, since a crash may leave anything where a
//! file was written since its last sync. `oram_redo::renew_log` says what is found at the log's name whenever the machine loses its power.
//! The file of records needs no such care: the log has what was written to it since its last sync.
ghost use Rattle.std.specs.Prelude.{◌<◌};

use crate::faults::PairFault;
use crate::files::{OWNERS_ALONE, folder_of, new_name};
use oram_redo::{Bounds, NamedLog, is_refused, renew_log};
use std::alloc::Global;
use std::fs::{self, File, OpenFile, OpenOptions};
use std::io::{self, ErrorKind};
use std::os::unix::fs::{MetadataExt, OpenOptionsExt, fchown};

/// Puts a copy of a log in its place, and returns the file that has the log's name then. `name` has no links on the way to the log.
///
/// If there is no room for a copy, or this process may not make one, it returns the log as it is. Then one case is without care: a sync of
/// the log had failed before, so it ends with a batch that only the system's memory has; and the power fails while that batch is
/// written to its places. They have a part of it then, and the log on the disk doesn't have the rest.
pub(crate) fn renewed(
    rt: &HostRuntime,
    alloc: Global,
    log: File,
    name: &str,
    bounds: &Bounds,
) -> Result<File, PairFault>
    requires room { bounds.now.log_start < bounds.now.log_end }
{
    let copy_name = new_name(alloc, name)?;
    match copy_in_place(rt, &log, name, copy_name.as_str(), bounds) {
        Ok(Some(copy)) => Ok(copy),
        Ok(None) => {
            take_away(rt, copy_name.as_str());
            Ok(log)
        }
        Err(error) => {
            take_away(rt, copy_name.as_str());
            Err(error.into())
        }
    }
}

/// Takes a copy away that didn't get the log's name, since it takes room. If that fails, the next copy replaces it.
fn take_away(rt: &HostRuntime, copy_name: &str) {
    let _gone = fs::remove_file(rt, copy_name);
}

/// Makes a copy of a log, and puts it in the log's place. Returns `None` if there is no room for it, or if this process may not do that.
fn copy_in_place(
    rt: &HostRuntime,
    log: &File,
    name: &str,
    copy_name: &str,
    bounds: &Bounds,
) -> io::Result<Option<File>>
    requires room { bounds.now.log_start < bounds.now.log_end }
{
    let (folder, copy) = match open_both(rt, log, name, copy_name) {
        Ok(both) => both,
        Err(error) if is_refused(&error) => return Ok(None),
        Err(error) => return Err(error),
    };
    let mut named = NamedLog::new(rt, log, name, &copy, copy_name, &folder);
    let is_renewed = renew_log(&mut named, *bounds)?;
    Ok(is_renewed.then_some(copy))
}

/// Opens the folder of a log, and a new file in it for a copy. The folder comes first: if it can't be opened, it couldn't be synced either.
fn open_both(
    rt: &HostRuntime,
    log: &File,
    name: &str,
    copy_name: &str,
) -> io::Result<(File, File)> {
    let folder = File::open(rt, folder_of(name))?;
    let copy = open_copy(rt, log, copy_name)?;
    Ok((folder, copy))
}

/// Makes the file for a copy of a log, with the log's owner, group and mode. It takes away what has its name, which may be a copy of an opening
/// that was killed, and never writes through a link that somebody has put there.
fn open_copy(rt: &HostRuntime, log: &File, copy_name: &str) -> io::Result<File> {
    match fs::remove_file(rt, copy_name) {
        Err(error) if error.kind() != ErrorKind::NotFound => return Err(error),
        _ => {}
    }
    let mut options = OpenOptions::new();
    options
        .read(true)
        .write(true)
        .create_new(true)
        .mode(OWNERS_ALONE);
    let copy = options.open(rt, copy_name)?;
    give_owner(log, &copy)?;
    Ok(copy)
}

/// Gives a copy the owner, the group and the mode of a log. Only root may give a file to another user. Any other user is refused, so a log that
/// belongs to somebody else stays theirs.
fn give_owner(log: &File, copy: &File) -> io::Result<()> {
    let (wanted, has) = (log.metadata()?, copy.metadata()?);
    if (wanted.uid(), wanted.gid()) != (has.uid(), has.gid()) {
        fchown(copy, Some(wanted.uid()), Some(wanted.gid()))?;
    }
    if wanted.mode() != has.mode() {
        copy.set_permissions(wanted.permissions())?;
    }
    Ok(())
}
