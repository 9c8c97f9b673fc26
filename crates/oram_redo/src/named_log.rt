//! The system's calls that put a copy of a log in the log's place, each in a method that makes one call and notes it.
//!
//! A history that only contracts read has the calls and their results, and `specs/NamedLog.antt` says what a loss of power leaves at the
//! log's name after them. The prover can't check that a method really makes the call that it notes: for that, read this file. Nothing here
//! writes into the log itself.
ghost use Rattle.std.specs.Prelude.{◌≡◌, ◌<◌, ◌≤◌, [], ◌∷◌, true, false, is_ok, length, take, IfOk, OnErr};
ghost use Rattle.oram_redo.specs.NamedLog.{calls_on};
ghost use Rattle.oram_redo.specs.declared.file_pair.FileKind.TheVariants.{Log};

use crate::call_history::CallHistory;
use std::fs::{self, File};
use std::io::{self, ErrorKind};
use std::os::unix::fs::FileExt;

const WRITE: u64 = 1;

const READ: u64 = 2;

const SYNC: u64 = 3;

const RENAME: u64 = 5;

const SYNC_FOLDER: u64 = 6;

const REFUSED_RENAME: u64 = 7;

/// What a sync is of.
#[derive(Clone, Copy, Debug, PartialEq, Eq)]
pub(crate) enum Synced {
    Copy,
    Folder,
}

/// A log that has a name in a folder, a copy that has another name there, and the calls that were made on them.
#[derive(Drop)]
pub struct NamedLog<'a> {
    rt: &'a HostRuntime,
    log: &'a File,
    name: &'a str,
    copy: &'a File,
    copy_name: &'a str,
    folder: &'a File,
    history: CallHistory,
}

/// Returns whether the system has refused a call because there is no room, or because this process may not make it.
pub fn is_refused(error: &io::Error) -> bool {
    matches!(
        error.kind(),
        ErrorKind::StorageFull
            | ErrorKind::QuotaExceeded
            | ErrorKind::PermissionDenied
            | ErrorKind::ReadOnlyFilesystem
    )
}

impl<'a> NamedLog<'a> {
    /// Takes a log that is open for reading, under its name, and a new file without bytes that is open for writing, under another name in
    /// the same folder.
    pub fn new(
        rt: &'a HostRuntime,
        log: &'a File,
        name: &'a str,
        copy: &'a File,
        copy_name: &'a str,
        folder: &'a File,
    ) -> NamedLog<'a>
        ensures { calls_on result ≡ [] }
    {
        NamedLog {
            rt,
            log,
            name,
            copy,
            copy_name,
            folder,
            history: CallHistory::new(),
        }
    }

    fn note(&mut self, kind: u64, at: u64, is_ok: bool, bytes: &[u8])
        ensures { calls_on self.new ≡ record { kind = kind; file = Log; at = at; is_ok = is_ok; bytes = bytes.now } ∷ calls_on self.old }
    {
        self.history.note(&[kind, 1, at, u64::from(is_ok)], bytes);
    }

    /// Reads from the log into `bytes`, and returns how many bytes the system gave. It gives none only at the log's end.
    pub(crate) fn read_at(&mut self, at: u64, bytes: &mut [u8]) -> io::Result<usize>
        requires { 0 < length bytes.old }
        ensures count { IfOk result (λ n. n ≤ length bytes.new) }
        ensures noted { IfOk result (λ n. calls_on self.new ≡ record { kind = 2; file = Log; at = at; is_ok = true; bytes = take n bytes.new } ∷ calls_on self.old) }
        ensures err { OnErr result (calls_on self.new ≡ record { kind = 2; file = Log; at = at; is_ok = false; bytes = [] } ∷ calls_on self.old) }
    {
        match self.log.read_at(bytes, at) {
            Ok(len) => {
                self.note(READ, at, true, &bytes[..len]);
                Ok(len)
            }
            Err(error) => {
                self.note(READ, at, false, &[]);
                Err(error)
            }
        }
    }

    /// Writes `bytes` into the copy, and returns how many of them the system took.
    pub(crate) fn write_at(&mut self, at: u64, bytes: &[u8]) -> io::Result<usize>
        ensures count { IfOk result (λ n. n ≤ length bytes.now) }
        ensures noted { IfOk result (λ n. calls_on self.new ≡ record { kind = 1; file = Log; at = at; is_ok = true; bytes = take n bytes.now } ∷ calls_on self.old) }
        ensures err { OnErr result (calls_on self.new ≡ record { kind = 1; file = Log; at = at; is_ok = false; bytes = bytes.now } ∷ calls_on self.old) }
    {
        match self.copy.write_at(bytes, at) {
            Ok(len) => {
                self.note(WRITE, at, true, &bytes[..len]);
                Ok(len)
            }
            Err(error) => {
                self.note(WRITE, at, false, bytes);
                Err(error)
            }
        }
    }

    /// Syncs the copy; or the folder, so that a renaming is on the disk too.
    pub(crate) fn sync(&mut self, what: Synced) -> io::Result<()>
        ensures copy { what ≡ Synced.Copy → calls_on self.new ≡ record { kind = 3; file = Log; at = 0; is_ok = is_ok result; bytes = [] } ∷ calls_on self.old }
        ensures folder { what ≡ Synced.Folder → calls_on self.new ≡ record { kind = 6; file = Log; at = 0; is_ok = is_ok result; bytes = [] } ∷ calls_on self.old }
    {
        let (kind, done) = match what {
            Synced::Copy => (SYNC, self.copy.sync_all()),
            Synced::Folder => (SYNC_FOLDER, self.folder.sync_all()),
        };
        self.note(kind, 0, done.is_ok(), &[]);
        done
    }

    /// Renames the copy to the log's name. If the system refuses that, both have their names; after any other error, the log's name may
    /// be the copy's.
    pub(crate) fn rename(&mut self) -> io::Result<bool>
        ensures noted { result ≡ Ok true → calls_on self.new ≡ record { kind = 5; file = Log; at = 0; is_ok = true; bytes = [] } ∷ calls_on self.old }
        ensures refused { result ≡ Ok false → calls_on self.new ≡ record { kind = 7; file = Log; at = 0; is_ok = false; bytes = [] } ∷ calls_on self.old }
        ensures err { OnErr result (calls_on self.new ≡ record { kind = 5; file = Log; at = 0; is_ok = false; bytes = [] } ∷ calls_on self.old) }
    {
        match fs::rename(self.rt, self.copy_name, self.name) {
            Ok(()) => {
                self.note(RENAME, 0, true, &[]);
                Ok(true)
            }
            Err(error) if is_refused(&error) => {
                self.note(REFUSED_RENAME, 0, false, &[]);
                Ok(false)
            }
            Err(error) => {
                self.note(RENAME, 0, false, &[]);
                Err(error)
            }
        }
    }
}
