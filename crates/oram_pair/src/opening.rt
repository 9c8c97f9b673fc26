//! How a pair that is there is opened: what its fronts have to say, its lock, and the copy of its log.
ghost use Rattle.std.specs.Prelude.{◌≡◌, ◌<◌, ◌≤◌, ◌↔◌, ◌∷◌, [], true, false, length, replicate, take, Ok, IfErr, IsErrOf, IsOk};
ghost use Rattle.oram_pair.specs.Fronts.{IsFront};
ghost use Rattle.oram_redo.specs.Length.{IsCutShort};

use crate::faults::PairFault;
use crate::files::{bytes_at, log_name};
use crate::format::{PairFormat, PairLetters};
use crate::fronts::{FRONT_LEN, Identity, LETTERS_LEN, identity_in};
use crate::generations::{Generation, Newest, WHOLE_FRONT_LEN, newest_in};
use crate::log_copy::renewed;
use crate::matching::check_generations;
use oram_redo::{LENGTH_AT, LENGTH_FIELD_LEN, OPEN, SHUT, is_cut_short};
use std::alloc::Global;
use std::fs::{File, OpenFile, OpenOptions, TryLockError};
use std::io::ErrorKind;
use std::os::unix::fs::FileExt;
use std::{fs, io};

/// A pair that was opened.
#[derive(Drop)]
pub struct OpenedPair {
    /// The file of records, which is locked as long as it is open.
    pub records: File,
    /// The file that has the log's name.
    pub log: File,
    /// The generation of the log.
    pub generation: Generation,
}

/// Opens the file of a pair of this format and its log, looks at what their fronts say, locks the file, and puts a copy of the log in its
/// place. The two belong together: the log is beside the file, under the same name with `-log` appended. It never makes a file: if there
/// is none, it fails with `Missing`.
///
/// A file of another kind, one that was cut short, is damaged, is held by another process, or lies beside a log of another file or of
/// another moment is refused, and both keep their bytes.
pub fn open_files(
    rt: &HostRuntime,
    alloc: Global,
    path: &str,
    format: &PairFormat,
) -> Result<OpenedPair, PairFault>
    requires room { format.now.bounds.log_start < format.now.bounds.log_end }
{
    let records = open_plain(rt, path, PairFault::Missing, PairFault::NotAFile)?;
    let identity = identity_of(&records, &format.letters.records)?;
    lock(&records)?;
    check_length(&records)?;
    let name = name_of_log(rt, alloc, path)?;
    let log = open_log(rt, name.as_str(), &format.letters.log, &identity)?;
    let (generation, is_behind) = generation_of(&records, &log, format, &identity)?;
    let log = renewed(rt, alloc, log, name.as_str(), &format.bounds)?;
    // What the file says of a log with entries was synced before the first of them was written.
    if !has_entries(&log, format.bounds.log_start)? {
        say_again(&records, &log, &format.letters, &generation, is_behind)?;
    }
    Ok(OpenedPair {
        records,
        log,
        generation,
    })
}

/// Writes the generation of a log without entries into the front of the file, although the file may say it already: if a sync has
/// failed, in this process or an earlier one, a read may return a number that the disk lacks. The sync that follows covers it. If a
/// crash spoils it, the file says the number before, which is taken beside a log without entries. So that log has to be synced first. If
/// it is one ahead of the file, a sync of its number may have failed too, and there may be no copy of it: then it says that again as well.
fn say_again(
    records: &File,
    log: &File,
    letters: &PairLetters,
    generation: &Generation,
    is_behind: bool,
) -> io::Result<()> {
    if is_behind {
        log.write_all_at(&generation.field(&letters.log), generation.place())?;
    }
    log.sync_all()?;
    let field = generation.field(&letters.records);
    match records.write_all_at(&field, generation.place()) {
        // A file system that copies on write may have no room for this, and still be read.
        Err(error) if !is_behind && lacks_room(&error) => Ok(()),
        written => written,
    }
}

/// Returns the name of the log of a file that is there, after all links on the way to the file and to its log.
pub(crate) fn name_of_log(
    rt: &HostRuntime,
    alloc: Global,
    path: &str,
) -> Result<String, PairFault> {
    let real = fs::canonicalize(rt, path)?;
    let beside = log_name(alloc, real.as_str())?;
    if !is_there(rt, beside.as_str())? {
        return Err(PairFault::WithoutLog);
    }
    match fs::canonicalize(rt, beside.as_str()) {
        Ok(name) => Ok(String::from_str(alloc, name.as_str())?),
        Err(error) if error.kind() == ErrorKind::NotFound => Err(PairFault::LogOfAnotherFile),
        Err(error) => Err(error.into()),
    }
}

/// Opens the log with these letters of a file with this identity.
fn open_log(
    rt: &HostRuntime,
    name: &str,
    letters: &[u8; 16],
    identity: &Identity,
) -> Result<File, PairFault> {
    let log = open_plain(rt, name, PairFault::WithoutLog, PairFault::LogOfAnotherFile)?;
    check_log(&log, letters, identity)?;
    Ok(log)
}

/// Returns whether there is anything at a path, even a link that leads nowhere.
fn is_there(rt: &HostRuntime, path: &str) -> io::Result<bool> {
    match fs::symlink_metadata(rt, path) {
        Ok(_) => Ok(true),
        Err(error) if error.kind() == ErrorKind::NotFound => Ok(false),
        Err(error) => Err(error),
    }
}

/// Returns whether a write failed because it found no room.
fn lacks_room(error: &io::Error) -> bool {
    matches!(
        error.kind(),
        ErrorKind::StorageFull | ErrorKind::QuotaExceeded
    )
}

/// Opens a regular file for reading and writing. Fails with `missing` if the path leads to nothing, and with `not_plain` if it leads to
/// anything else. It never makes a file, also where one is gone between the look and the opening.
fn open_plain(
    rt: &HostRuntime,
    path: &str,
    missing: PairFault,
    not_plain: PairFault,
) -> Result<File, PairFault> {
    match fs::metadata(rt, path) {
        Ok(found) if found.is_file() => {}
        Ok(_) => return Err(not_plain),
        Err(error) if error.kind() == ErrorKind::NotFound => return Err(missing),
        Err(error) => return Err(error.into()),
    }
    let mut options = OpenOptions::new();
    options.read(true).write(true);
    match options.open(rt, path) {
        Ok(file) => Ok(file),
        Err(error) if error.kind() == ErrorKind::NotFound => Err(missing),
        Err(error) => Err(error.into()),
    }
}

/// Refuses a file of records that is shorter than its front says: it was cut short. While it is whole, it may have any length, since it ends
/// behind the last place that was written so far; its front says how long it was when the log was begun last.
fn check_length(records: &File) -> Result<(), PairFault> {
    let mut said = [0; LENGTH_FIELD_LEN];
    let len = bytes_at(records, LENGTH_AT, &mut said)?;
    check_whole(&said[..len], records.metadata()?.len())
}

pub(crate) fn check_whole(said: &[u8], len: u64) -> Result<(), PairFault>
    ensures cut { IsErrOf result PairFault.CutShort ↔ IsCutShort said.now len }
    ensures errors { IfErr result (λ fault. fault ≡ PairFault.CutShort) }
{
    if is_cut_short(said, len) {
        return Err(PairFault::CutShort);
    }
    Ok(())
}

/// Takes the lock of a file, which lasts as long as the file is open. Fails with `Busy` if another process holds it.
fn lock(file: &File) -> Result<(), PairFault> {
    match file.try_lock() {
        Ok(()) => Ok(()),
        Err(TryLockError::WouldBlock) => Err(PairFault::Busy),
        Err(TryLockError::Error(error)) => Err(error.into()),
    }
}

/// Returns the identity of a file of records.
fn identity_of(records: &File, letters: &[u8; 16]) -> Result<Identity, PairFault> {
    let mut front = [0; FRONT_LEN];
    let len = bytes_at(records, 0, &mut front)?;
    match identity_in(letters, &front[..len]) {
        Some(identity) => Ok(identity),
        None => Err(PairFault::OtherKind(letters_in(&front[..len]))),
    }
}

/// Returns the letters that a file begins with, and zeros if it has fewer bytes.
fn letters_in(front: &[u8]) -> [u8; 16]
    ensures whole { 16 ≤ length front.now → result ≡ take 16 front.now }
    ensures short { length front.now < 16 → result ≡ replicate 16 0 }
{
    let mut letters = [0; LETTERS_LEN];
    if front.len() >= LETTERS_LEN {
        letters.copy_from_slice(&front[..LETTERS_LEN]);
    }
    letters
}

/// Returns what the front of a file says of the log's generation. Fails with `spoilt` if it says nothing that is sound.
fn newest_of(
    file: &File,
    letters: &[u8; 16],
    identity: &Identity,
    spoilt: PairFault,
) -> Result<Newest, PairFault> {
    let mut front = [0; WHOLE_FRONT_LEN];
    let len = bytes_at(file, 0, &mut front)?;
    newest_in(letters, identity, &front[..len]).ok_or(spoilt)
}

/// Returns whether a log has entries. Its first gate is at `gate_at`.
fn has_entries(log: &File, gate_at: u64) -> Result<bool, PairFault> {
    let mut gate = [0];
    let len = bytes_at(log, gate_at, &mut gate)?;
    is_open(&gate[..len])
}

/// Returns whether the first gate of a log is open, so that the log has entries. Fails with `LogDamaged` if it is neither open nor shut.
pub(crate) fn is_open(gate: &[u8]) -> Result<bool, PairFault>
    ensures open { (result ≡ Ok true) ↔ (gate.now ≡ OPEN ∷ []) }
    ensures shut { (result ≡ Ok false) ↔ (gate.now ≡ SHUT ∷ []) }
    ensures errors { IfErr result (λ fault. fault ≡ PairFault.LogDamaged) }
{
    match gate {
        [OPEN] => Ok(true),
        [SHUT] => Ok(false),
        _ => Err(PairFault::LogDamaged),
    }
}

/// Returns the generation of a log, and whether the file doesn't say it yet. Refuses a log that belongs to another moment of this
/// file.
fn generation_of(
    records: &File,
    log: &File,
    format: &PairFormat,
    identity: &Identity,
) -> Result<(Generation, bool), PairFault> {
    let letters = &format.letters;
    let in_file = newest_of(records, &letters.records, identity, PairFault::Damaged)?;
    let in_log = newest_of(log, &letters.log, identity, PairFault::LogDamaged)?;
    let log_has_entries = has_entries(log, format.bounds.log_start)?;
    check_generations(&in_file, &in_log, log_has_entries)?;
    let generation = Generation {
        identity: *identity,
        number: in_log.number,
    };
    Ok((generation, in_file.number != in_log.number))
}

/// Refuses a log that doesn't belong to a file with this identity.
fn check_log(log: &File, letters: &[u8; 16], identity: &Identity) -> Result<(), PairFault> {
    let mut front = [0; FRONT_LEN];
    let len = bytes_at(log, 0, &mut front)?;
    check_log_front(letters, &front[..len], identity)
}

pub(crate) fn check_log_front(
    letters: &[u8; 16],
    front: &[u8],
    identity: &Identity,
) -> Result<(), PairFault>
    ensures ours { IsOk result ↔ IsFront letters.now identity.now front.now }
    ensures others { IfErr result (λ fault. fault ≡ PairFault.LogOfAnotherFile) }
{
    match identity_in(letters, front) {
        Some(found) if found == *identity => Ok(()),
        _ => Err(PairFault::LogOfAnotherFile),
    }
}
