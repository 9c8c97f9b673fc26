//! The length of the records' file, which its own front says, so that a file that was cut short is told.
//!
//! The pair writes it whenever the caller writes into that front ([`FilePair::write_front`](crate::FilePair::write_front)), which it does while
//! the log has no entries: by then, a sync has covered how long the file is. A file never gets shorter. So a file that is shorter than its
//! front says has lost something. Nothing else can be told by a length: the file ends behind the last place that was written so far.
ghost use Rattle.std.specs.Prelude.{◌≡◌, ◌⊎◌, ◌↔◌, IsTrue, OnOk, length};
ghost use Rattle.oram_redo.specs.Calls.{calls_of};
ghost use Rattle.oram_redo.specs.Fronts.{HasFailedLast, SaysLast, front_writes_of};
ghost use Rattle.oram_redo.specs.Length.{IsCutShort, SaysLength};
ghost use Rattle.oram_redo.specs.System.{TouchedNothing};

use crate::FileKind;
use crate::batch::check_of;
use crate::system_calls::{is_no_room, write_front};
use crate::system_files::SystemFiles;
use std::io;

/// Where the front of the records' file says how long the file is, at least. The other bytes of a front belong to the caller.
pub const LENGTH_AT: u64 = 64;

/// The number of bytes in which it says so: the length in eight bytes, the low byte first, and their checksum.
pub const LENGTH_FIELD_LEN: usize = 16;

/// Returns whether a file of `len` bytes was cut short, by these bytes of its front. If their checksum is wrong, they say no length: a crash has
/// torn them, or an earlier version has made the file.
pub fn is_cut_short(field: &[u8], len: u64) -> bool
    ensures { IsTrue result ↔ IsCutShort field.now len }
{
    if field.len() != LENGTH_FIELD_LEN || field[8..] != check_of(&field[..8])[..] {
        return false;
    }
    let least = u64::from_le_bytes([
        field[0], field[1], field[2], field[3], field[4], field[5], field[6], field[7],
    ]);
    len < least
}

/// Returns the bytes that say a length.
fn field_of(len: u64) -> [u8; LENGTH_FIELD_LEN]
    ensures { SaysLength result len }
{
    let said = len.to_le_bytes();
    let mut field = [0; LENGTH_FIELD_LEN];
    field[..8].copy_from_slice(&said);
    field[8..].copy_from_slice(&check_of(&said));
    field
}

/// Has the front of the records' file say how long the file is. If there is no room for that, the next write into the front says it.
pub(crate) fn say_length(files: &mut SystemFiles) -> io::Result<()>
    ensures said { OnOk result (SaysLast (calls_of files.old) (calls_of files.new) (front_writes_of files.old) (front_writes_of files.new)
        ⊎ HasFailedLast (front_writes_of files.new)) }
    ensures nothing { TouchedNothing (calls_of files.old) (calls_of files.new) }
{
    let len = files.len(FileKind::Records)?;
    match write_front(files, FileKind::Records, LENGTH_AT, &field_of(len)) {
        Err(error) if is_no_room(&error) => Ok(()),
        written => written,
    }
}
