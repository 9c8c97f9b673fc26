//! The growth of the log ahead of what is written. It adds zeros, which is also what a read past the end of a file returns. So a crash
//! may leave any part of the growth, and a read returns the same as without it.
ghost use Rattle.std.specs.Prelude.{◌≡◌};
ghost use Rattle.oram_redo.specs.Blank.{IsBlankFrom};
ghost use Rattle.oram_redo.specs.Calls.{calls_of};
ghost use Rattle.oram_redo.specs.System.{TouchedNothing};

use crate::FileKind;
use crate::system_files::{SystemFiles, ZEROS_LEN};
use std::io::{self, ErrorKind};

/// How many bytes the log grows ahead when a write reaches past its end.
const MEBIBYTE: u64 = 1 << 20;

/// Adds zeros to the log before a write to it that ends at `end`, if that is past the log's end: a mebibyte, or fewer, so that the log doesn't
/// get longer than `room` bytes. So the sync after the write has no new length to save, and is quicker. If the zeros don't reach `end`,
/// the write makes the log longer itself.
pub(crate) fn reach(files: &mut SystemFiles, file: FileKind, end: u64, room: u64)
    ensures { TouchedNothing (calls_of files.old) (calls_of files.new) }
{
    if file != FileKind::Log {
        return;
    }
    let Ok(len) = files.len(FileKind::Log) else {
        return;
    };
    if len < end {
        add_zeros(files, len, len.saturating_add(MEBIBYTE).min(room));
    }
}

/// Adds `more` zeros to the end of the log, or fewer, so that it doesn't get longer than `room` bytes. If the system refuses, the log stays
/// as long as it is.
pub(crate) fn grow(files: &mut SystemFiles, more: u64, room: u64)
    ensures { TouchedNothing (calls_of files.old) (calls_of files.new) }
{
    if more == 0 {
        return;
    }
    let Ok(len) = files.len(FileKind::Log) else {
        return;
    };
    add_zeros(files, len, len.saturating_add(more).min(room));
}

/// Makes the log longer by zeros, from `len`, its end, to `wanted`. If there is no room for them, cuts them off again.
fn add_zeros(files: &SystemFiles, len: u64, wanted: u64)
    requires { IsBlankFrom FileKind.Log len (calls_of files.now) }
{
    if write_zeros(files, len, wanted).is_err() {
        let _as_it_was = files.cut_zeros(len);
    }
}

/// Writes zeros into the log, from its end to another place.
fn write_zeros(files: &SystemFiles, from: u64, end: u64) -> io::Result<()>
    requires { IsBlankFrom FileKind.Log from (calls_of files.now) }
{
    let mut at = from;
    while at < end {
        let len = (end - at).min(ZEROS_LEN as u64);
        match files.write_zeros(at, len as usize)? {
            0 => return Err(io::Error::from(ErrorKind::WriteZero)),
            n => at += n as u64,
        }
    }
    Ok(())
}
