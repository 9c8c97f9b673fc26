//! A pair of the operating system's files.
//!
//! What the files hold is defined by the calls that were made on them (`system_files.rt`) and by what they held at first, which may be
//! anything: `is_honest` says that each read has returned what was there.
ghost use Rattle.std.specs.Prelude.{◌≡◌, ◌⊎◌, OnOk, length, refl};
ghost use Rattle.std.proofs.Common.{inl};
ghost use Rattle.oram_redo.specs.Calls.{calls_of};
ghost use Rattle.oram_redo.specs.FilePair.{Contents};
ghost use Rattle.oram_redo.specs.Fronts.{WroteWithLength, front_writes_of};
ghost use Rattle.oram_redo.specs.Memory.{LeavesBut};
ghost use Rattle.oram_redo.specs.Opened.{Opened, contents_in};
ghost use Rattle.oram_redo.specs.System.{IsHonestHistory, LeftSince, MayLeaveAfter, TouchedNothing, has_failed_sync, only_after, seen_after};

use crate::file_bytes::FileBytes;
use crate::growth::{grow, reach};
use crate::length::say_length;
use crate::origin::Origin;
use crate::syncs::Syncs;
use crate::system_calls::{is_no_room, read_behind, write_all, write_front};
use crate::system_files::SystemFiles;
use crate::{FileKind, FilePair, RedoError};
use std::fs::File;
use std::io::{self, ErrorKind};
use std::mem;

/// A file of records and its log, both open for reading and writing. After a sync has failed, no later sync returns
/// `Ok`.
#[derive(Drop)]
pub struct SystemPair {
    files: SystemFiles,
    origin: Origin,
    /// The log doesn't grow past this length ahead of what is written.
    log_room: u64,
    /// The number of bytes that were written to the records since their last sync.
    put: u64,
    /// Whether a sync has failed.
    has_failed: bool,
    /// The number of the system's error for which a call failed last.
    errno: Option<i32>,
    ghost failed: { has_failed_sync (calls_of files) ≡ has_failed },
}

impl SystemPair {
    /// Makes a pair of two files, whatever they hold, and whatever of it no sync has covered yet: `held` says both. It makes no call on
    /// them. The log grows ahead of what is written, but not past `log_room` bytes. With [`Syncs::LeftOut`], what contracts say of a crash
    /// is true of the end of the process, and not of a loss of power.
    pub fn new(records: File, log: File, log_room: u64, syncs: Syncs) -> SystemPair
        ghost held: { Opened }
        ensures holds { ⟦<SystemPair as FilePair>⟧.model.seen result ≡ contents_in held }
        ensures leaves { (c : Contents) → ⟦<SystemPair as FilePair>⟧.model.may_leave result c → LeavesBut held.unsynced (contents_in held) c }
        ensures honest { ⟦<SystemPair as FilePair>⟧.model.is_honest result }
    {
        SystemPair {
            files: SystemFiles::new(FileBytes::File(records), FileBytes::File(log), syncs),
            origin: Origin::new(),
            log_room,
            put: 0,
            has_failed: false,
            errno: None,
        }
    }

    /// Makes a pair of copies of what two files hold. What is written to it reaches no file. So whoever may only read the files can open them as
    /// if they were his, and find what they stand for.
    pub fn of_copies(records: Vec<u8>, log: Vec<u8>) -> SystemPair
        ghost held: { Opened }
        ensures holds { ⟦<SystemPair as FilePair>⟧.model.seen result ≡ contents_in held }
        ensures leaves { (c : Contents) → ⟦<SystemPair as FilePair>⟧.model.may_leave result c → LeavesBut held.unsynced (contents_in held) c }
        ensures honest { ⟦<SystemPair as FilePair>⟧.model.is_honest result }
    {
        let (records, log) = (FileBytes::Copy(records), FileBytes::Copy(log));
        SystemPair {
            files: SystemFiles::new(records, log, Syncs::LeftOut),
            origin: Origin::new(),
            log_room: 0,
            put: 0,
            has_failed: false,
            errno: None,
        }
    }
}

/// Returns this crate's error for a read that failed.
fn read_fault(error: &io::Error) -> RedoError
    ensures { (result ≡ RedoError.Memory) ⊎ (result ≡ RedoError.Failed) }
{
    match error.kind() {
        ErrorKind::OutOfMemory => RedoError::Memory,
        _ => RedoError::Failed,
    }
}

/// Returns this crate's error for a write that failed.
fn write_fault(error: &io::Error) -> RedoError
    ensures { (result ≡ RedoError.NoRoom) ⊎ (result ≡ RedoError.Failed) }
{
    if is_no_room(error) {
        RedoError::NoRoom
    } else {
        RedoError::Failed
    }
}

/// Counts the bytes of a write to the records.
fn count_put(put: &mut u64, file: FileKind, len: u64) {
    match file {
        FileKind::Records => *put = put.saturating_add(len),
        FileKind::Log => {}
    }
}

/// After a sync of the records, returns how many bytes it covered. A formatting writes only to the records, and people wait for it anyway.
/// So the log grows beside it, and the first batches after it find a log that needn't grow.
fn take_put(put: &mut u64, synced: FileKind) -> u64 {
    match synced {
        FileKind::Records => mem::replace(put, 0),
        FileKind::Log => 0,
    }
}

/// Writes into the front of a file, and into that of the records also how long their file is.
fn write_with_length(
    files: &mut SystemFiles,
    file: FileKind,
    at: u64,
    bytes: &[u8],
) -> io::Result<()>
    ensures written { OnOk result (WroteWithLength file at bytes.now (calls_of files.old) (calls_of files.new) (front_writes_of files.old) (front_writes_of files.new)) }
    ensures nothing { TouchedNothing (calls_of files.old) (calls_of files.new) }
{
    write_front(files, file, at, bytes)?;
    match file {
        FileKind::Records => say_length(files),
        FileKind::Log => Ok(()),
    }
}

impl FilePair for SystemPair {
    // Nothing is known about what makes a call fail.
    ghost model = { record {
      seen = λ m. seen_after m.origin.held m.files.history.calls;
      may_leave = λ m. MayLeaveAfter m.origin.held m.files.history.calls;
      moment = λ m. length m.files.history.calls;
      left_since = λ m. LeftSince m.origin.held m.files.history.calls;
      is_honest = λ m. IsHonestHistory m.origin.held m.files.history.calls;
      failures = λ m n. Unit {0};
      shortages = λ m n. Unit {0};
    } };

    ghost counts_now = { λ m t c le now. inl now };

    ghost whole = { λ m file i outside. refl };

    ghost only_now = { λ m c left. only_after m.origin.held m.files.history.calls c left };

    fn read_onto(
        &mut self,
        file: FileKind,
        at: u64,
        len: usize,
        bytes: &mut Vec<u8>,
    ) -> Result<(), RedoError> {
        match read_behind(&mut self.files, file, at, len, bytes) {
            Ok(()) => Ok(()),
            Err(error) => {
                self.errno = error.raw_os_error();
                Err(read_fault(&error))
            }
        }
    }

    fn write_at(&mut self, file: FileKind, at: u64, bytes: &[u8]) -> Result<(), RedoError> {
        let len = bytes.len() as u64;
        count_put(&mut self.put, file, len);
        reach(&mut self.files, file, at.saturating_add(len), self.log_room);
        match write_all(&mut self.files, file, at, bytes) {
            Ok(()) => Ok(()),
            Err(error) => {
                self.errno = error.raw_os_error();
                Err(write_fault(&error))
            }
        }
    }

    fn sync(&mut self, file: FileKind) -> Result<(), RedoError> {
        if self.has_failed {
            return Err(RedoError::Failed);
        }
        let synced = self.files.sync(file);
        match synced {
            Ok(()) => {
                let put = take_put(&mut self.put, file);
                grow(&mut self.files, put / 2, self.log_room);
                Ok(())
            }
            Err(error) => {
                self.errno = error.raw_os_error();
                self.has_failed = true;
                Err(RedoError::Failed)
            }
        }
    }

    fn write_front(&mut self, file: FileKind, at: u64, bytes: &[u8]) -> Result<(), RedoError> {
        if self.has_failed {
            return Err(RedoError::Failed);
        }
        if let Err(error) = write_with_length(&mut self.files, file, at, bytes) {
            self.errno = error.raw_os_error();
            return Err(write_fault(&error));
        }
        match self.files.sync(file) {
            Ok(()) => Ok(()),
            Err(error) => {
                self.errno = error.raw_os_error();
                self.has_failed = true;
                Err(RedoError::Failed)
            }
        }
    }

    fn errno(&self) -> Option<i32> {
        self.errno
    }
}
