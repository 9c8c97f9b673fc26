//! How a pair is read that another process may have open: as copies of its two files.

use crate::faults::PairFault;
use crate::format::{PairFormat, PairLetters};
use crate::fronts::{FRONT_LEN, Identity, LETTERS_LEN, identity_in};
use crate::generations::{Generation, WHOLE_FRONT_LEN, newest_in};
use crate::matching::check_generations;
use crate::opening::{check_log_front, check_whole, is_open, name_of_log};
use oram_redo::{LENGTH_AT, LENGTH_FIELD_LEN};
use std::alloc::Global;
use std::fs;
use std::io::ErrorKind;

/// What the two files of a pair held when they were read.
#[derive(Drop)]
pub struct CopiedPair {
    pub records: Vec<u8>,
    pub log: Vec<u8>,
    /// The generation of the log.
    pub generation: Generation,
}

/// Reads the two files of a pair of this format, first the records and then the log, and looks at what their fronts say, as
/// [`open_files`](crate::open_files) does. It locks nothing and changes nothing.
///
/// If a process has the pair open and writes meanwhile, the copies stand for what it had committed at some moment, as long as it doesn't begin its log
/// anew. Else they may be of two moments, and this or what reads the records then fails. So whoever needs an answer reads them again.
pub fn copy_files(
    rt: &HostRuntime,
    alloc: Global,
    path: &str,
    format: &PairFormat,
) -> Result<CopiedPair, PairFault> {
    let records = read_whole(rt, path, PairFault::Missing, PairFault::NotAFile)?;
    let identity = identity_of(&records, &format.letters)?;
    let name = name_of_log(rt, alloc, path)?;
    let log = read_whole(
        rt,
        name.as_str(),
        PairFault::WithoutLog,
        PairFault::LogOfAnotherFile,
    )?;
    let generation = generation_in(&records, &log, format, identity)?;
    Ok(CopiedPair {
        records,
        log,
        generation,
    })
}

/// Reads a file whole. Fails with `missing` if there is none, and with `no_file` if there is something else of this name, such as a folder
/// or a pipe, which is never opened.
fn read_whole(
    rt: &HostRuntime,
    path: &str,
    missing: PairFault,
    no_file: PairFault,
) -> Result<Vec<u8>, PairFault> {
    match fs::metadata(rt, path) {
        Ok(seen) if seen.is_file() => Ok(fs::read(rt, path)?),
        Ok(_) => Err(no_file),
        Err(error) if error.kind() == ErrorKind::NotFound => Err(missing),
        Err(error) => Err(error.into()),
    }
}

/// Returns `len` bytes from a place on, or as many as there are.
fn part(bytes: &[u8], at: usize, len: usize) -> &[u8] {
    match bytes.get(at..) {
        Some(rest) => &rest[..rest.len().min(len)],
        None => &[],
    }
}

/// Returns the identity that the front of a file says. Refuses a file of another kind.
fn identity_of(records: &[u8], letters: &PairLetters) -> Result<Identity, PairFault> {
    let front = part(records, 0, FRONT_LEN);
    match identity_in(&letters.records, front) {
        Some(identity) => Ok(identity),
        None => Err(PairFault::OtherKind(letters_in(front))),
    }
}

/// Returns the generation of the log beside a file with this identity. Refuses a file that was cut short, and a log of another file or of another
/// moment.
fn generation_in(
    records: &[u8],
    log: &[u8],
    format: &PairFormat,
    identity: Identity,
) -> Result<Generation, PairFault> {
    let letters = &format.letters;
    check_whole(
        part(records, LENGTH_AT as usize, LENGTH_FIELD_LEN),
        records.len() as u64,
    )?;
    check_log_front(&letters.log, part(log, 0, FRONT_LEN), &identity)?;
    let in_file = newest_in(
        &letters.records,
        &identity,
        part(records, 0, WHOLE_FRONT_LEN),
    )
    .ok_or(PairFault::Damaged)?;
    let in_log = newest_in(&letters.log, &identity, part(log, 0, WHOLE_FRONT_LEN)).ok_or(
        PairFault::LogDamaged,
    )?;
    let has_entries = is_open(part(log, format.bounds.log_start as usize, 1))?;
    check_generations(&in_file, &in_log, has_entries)?;
    Ok(Generation {
        identity,
        number: in_log.number,
    })
}

/// Returns the first bytes of a front, and zeros behind the end of a shorter one.
fn letters_in(front: &[u8]) -> [u8; LETTERS_LEN] {
    let mut letters = [0; LETTERS_LEN];
    let len = front.len().min(LETTERS_LEN);
    letters[..len].copy_from_slice(&front[..len]);
    letters
}
