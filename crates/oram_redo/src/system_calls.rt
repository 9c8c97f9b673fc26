//! Reads and writes of any length, by calls of the system that may do less than they are asked.
ghost use Rattle.std.specs.Prelude.{◌≡◌, ◌⊎◌, ◌+◌, ◌<◌, ◌≤◌, ◌∷◌, [], true, length, take, IfOk, OnErr, OnOk};
ghost use Rattle.oram_redo.specs.Calls.{calls_of};
ghost use Rattle.oram_redo.specs.Content.{bytes_at};
ghost use Rattle.oram_redo.specs.FilePair.{Contents, ReadOnto, Wrote};
ghost use Rattle.oram_redo.specs.Fronts.{HasFailedLast, WroteFront, front_writes_of};
ghost use Rattle.oram_redo.specs.Opened.{Opened};
ghost use Rattle.oram_redo.specs.System.{IsHonestHistory, Touched, TouchedNothing, seen_after};

use crate::FileKind;
use crate::system_files::{FRONT_LEN, SystemFiles};
use std::io::{self, ErrorKind};

/// Returns whether a write has failed because there is no room.
pub(crate) fn is_no_room(error: &io::Error) -> bool {
    matches!(
        error.kind(),
        ErrorKind::StorageFull | ErrorKind::QuotaExceeded
    )
}

/// Returns the place `n` bytes behind another.
fn behind(at: u64, n: usize) -> io::Result<u64>
    ensures { IfOk result (λ place. place ≡ at + n) }
{
    at.checked_add(n as u64)
        .ok_or(io::Error::from(ErrorKind::InvalidInput))
}

/// Fills `bytes` from a place of the file, with zeros past its end.
fn fill(files: &mut SystemFiles, file: FileKind, at: u64, bytes: &mut [u8]) -> io::Result<()>
    ensures bytes { OnOk result ((first : Opened) → IsHonestHistory first (calls_of files.new)
        → bytes.new ≡ bytes_at (length bytes.new) at (seen_after first (calls_of files.old) file)) }
    ensures nothing { TouchedNothing (calls_of files.old) (calls_of files.new) }
{
    let mut got = 0;
    while got < bytes.len() {
        let from = behind(at, got)?;
        match files.read_at(file, from, &mut bytes[got..])? {
            0 => {
                bytes[got..].fill(0);
                return Ok(());
            }
            n => got += n,
        }
    }
    Ok(())
}

/// Reads `len` bytes and appends them to `bytes`, with zeros past the end of the file.
pub(crate) fn read_behind(
    files: &mut SystemFiles,
    file: FileKind,
    at: u64,
    len: usize,
    bytes: &mut Vec<u8>,
) -> io::Result<()>
    ensures bytes { OnOk result ((first : Opened) → ReadOnto len at (seen_after first (calls_of files.old) file)
        (IsHonestHistory first (calls_of files.new)) bytes.old.items bytes.new.items) }
    ensures nothing { TouchedNothing (calls_of files.old) (calls_of files.new) }
{
    let start = bytes.len();
    let Some(end) = start.checked_add(len) else {
        return Err(io::Error::from(ErrorKind::OutOfMemory));
    };
    bytes.resize(end, 0)?;
    fill(files, file, at, &mut bytes[start..])?;
    Ok(())
}

/// Writes all the bytes. After `Err`, any part of them may be written.
pub(crate) fn write_all(
    files: &mut SystemFiles,
    file: FileKind,
    at: u64,
    bytes: &[u8],
) -> io::Result<()>
    ensures written { OnOk result ((first : Opened) → Wrote file at bytes.now (seen_after first (calls_of files.old)) (seen_after first (calls_of files.new))) }
    ensures touched { (first : Opened) → Touched first file at (length bytes.now) (calls_of files.old) (calls_of files.new) }
{
    let mut put = 0;
    while put < bytes.len() {
        let from = behind(at, put)?;
        match files.write_at(file, from, &bytes[put..])? {
            0 => return Err(io::Error::from(ErrorKind::WriteZero)),
            n => put += n,
        }
    }
    Ok(())
}

/// Writes bytes into the front of a file. Refuses what reaches past the front. After `Err`, any part of them may be written.
pub(crate) fn write_front(
    files: &mut SystemFiles,
    file: FileKind,
    at: u64,
    bytes: &[u8],
) -> io::Result<()>
    ensures written { OnOk result (WroteFront file at bytes.now (front_writes_of files.old) (front_writes_of files.new)) }
    ensures calls { calls_of files.new ≡ calls_of files.old }
    ensures why { OnErr result ((FRONT_LEN < at + length bytes.now) ⊎ HasFailedLast (front_writes_of files.new)) }
{
    if at > FRONT_LEN || bytes.len() as u64 > FRONT_LEN - at {
        return Err(io::Error::from(ErrorKind::InvalidInput));
    }
    let mut put = 0;
    while put < bytes.len() {
        match files.write_front(file, at + put as u64, &bytes[put..])? {
            0 => return Err(io::Error::from(ErrorKind::WriteZero)),
            len => put += len,
        }
    }
    Ok(())
}
