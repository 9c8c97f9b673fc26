//! The system's calls on a pair of files, each in a method that makes one call and notes it.
//!
//! No contract of the standard library says what a file of the system returns. So each method notes its call and the result in a
//! history that only contracts read, and the definitions say what such a history means. The prover can't check that a method really makes
//! the call that it notes: for that, read this file. Everything that is built on these calls is proved.
//!
//! Two calls aren't noted, since they change nothing that a read of the pair returns and nothing that a crash may leave: zeros
//! that make the log longer, and cutting them off again. Each requires what makes that true. Nor does a write into the front of a file change
//! any of that: such writes are noted in a list of their own.
ghost use Rattle.std.specs.Prelude.{◌≡◌, ◌<◌, ◌≤◌, ◌+◌, [], ◌∷◌, true, false, is_ok, length, take, IfErr, IfOk, OnErr, OnOk};
ghost use Rattle.oram_redo.specs.Blank.{IsBlankFrom};
ghost use Rattle.oram_redo.specs.Calls.{calls_of};
ghost use Rattle.oram_redo.specs.Fronts.{front_writes_of};

use crate::FileKind;
use crate::call_history::CallHistory;
use crate::file_bytes::FileBytes;
use crate::syncs::Syncs;
use std::io;

/// The length of the front of each file, in bytes. Nothing but a write into the front may rest on what the front holds.
pub(crate) const FRONT_LEN: u64 = 4_096;

/// The most zeros that one call writes.
pub(crate) const ZEROS_LEN: usize = 4_096;

const ZEROS: [u8; ZEROS_LEN] = [0; ZEROS_LEN];

const WRITE: u64 = 1;

const READ: u64 = 2;

const SYNC: u64 = 3;

const LENGTH: u64 = 4;

/// Two files of the system, both open for reading and writing, and the calls that were made on them, those that wrote into their fronts
/// apart.
#[derive(Drop)]
pub(crate) struct SystemFiles {
    records: FileBytes,
    log: FileBytes,
    syncs: Syncs,
    history: CallHistory,
    fronts: CallHistory,
}

impl SystemFiles {
    pub(crate) fn new(records: FileBytes, log: FileBytes, syncs: Syncs) -> SystemFiles
        ensures { calls_of result ≡ [] }
    {
        SystemFiles {
            records,
            log,
            syncs,
            history: CallHistory::new(),
            fronts: CallHistory::new(),
        }
    }

    fn file(&self, file: FileKind) -> &FileBytes {
        match file {
            FileKind::Records => &self.records,
            FileKind::Log => &self.log,
        }
    }

    /// Writes `bytes` without a note, and returns how many of them were taken.
    fn put(&mut self, file: FileKind, at: u64, bytes: &[u8]) -> io::Result<usize>
        ensures count { IfOk result (λ n. n ≤ length bytes.now) }
        ensures calls { calls_of self.new ≡ calls_of self.old }
        ensures fronts { front_writes_of self.new ≡ front_writes_of self.old }
    {
        match file {
            FileKind::Records => self.records.write_at(bytes, at),
            FileKind::Log => self.log.write_at(bytes, at),
        }
    }

    fn note(&mut self, kind: u64, file: FileKind, at: u64, is_ok: bool, bytes: &[u8])
        ensures fronts { front_writes_of self.new ≡ front_writes_of self.old }
        ensures noted { calls_of self.new ≡ record { kind = kind; file = file; at = at; is_ok = is_ok; bytes = bytes.now } ∷ calls_of self.old }
    {
        match file {
            FileKind::Records => self.history.note(&[kind, 0, at, u64::from(is_ok)], bytes),
            FileKind::Log => self.history.note(&[kind, 1, at, u64::from(is_ok)], bytes),
        }
    }

    fn note_front(&mut self, file: FileKind, at: u64, is_ok: bool, bytes: &[u8])
        ensures calls { calls_of self.new ≡ calls_of self.old }
        ensures noted { front_writes_of self.new ≡ record { kind = 1; file = file; at = at; is_ok = is_ok; bytes = bytes.now } ∷ front_writes_of self.old }
    {
        match file {
            FileKind::Records => self.fronts.note(&[WRITE, 0, at, u64::from(is_ok)], bytes),
            FileKind::Log => self.fronts.note(&[WRITE, 1, at, u64::from(is_ok)], bytes),
        }
    }

    /// Reads into `bytes`, and returns how many bytes the system gave. It gives none only at the end of the file.
    pub(crate) fn read_at(&mut self, file: FileKind, at: u64, bytes: &mut [u8]) -> io::Result<usize>
        requires { 0 < length bytes.old }
        ensures count { IfOk result (λ n. n ≤ length bytes.new) }
        ensures noted { IfOk result (λ n. calls_of self.new ≡ record { kind = 2; file = file; at = at; is_ok = true; bytes = take n bytes.new } ∷ calls_of self.old) }
        ensures err { OnErr result (calls_of self.new ≡ calls_of self.old) }
    {
        let len = self.file(file).read_at(bytes, at)?;
        self.note(READ, file, at, true, &bytes[..len]);
        Ok(len)
    }

    /// Writes `bytes`, and returns how many of them the system took.
    pub(crate) fn write_at(&mut self, file: FileKind, at: u64, bytes: &[u8]) -> io::Result<usize>
        ensures count { IfOk result (λ n. n ≤ length bytes.now) }
        ensures noted { IfOk result (λ n. calls_of self.new ≡ record { kind = 1; file = file; at = at; is_ok = true; bytes = take n bytes.now } ∷ calls_of self.old) }
        ensures err { OnErr result (calls_of self.new ≡ record { kind = 1; file = file; at = at; is_ok = false; bytes = bytes.now } ∷ calls_of self.old) }
    {
        match self.put(file, at, bytes) {
            Ok(len) => {
                self.note(WRITE, file, at, true, &bytes[..len]);
                Ok(len)
            }
            Err(error) => {
                self.note(WRITE, file, at, false, bytes);
                Err(error)
            }
        }
    }

    /// Syncs a file. Where syncs are left out, it makes no call and notes one that was done.
    pub(crate) fn sync(&mut self, file: FileKind) -> io::Result<()>
        ensures { calls_of self.new ≡ record { kind = 3; file = file; at = 0; is_ok = is_ok result; bytes = [] } ∷ calls_of self.old }
    {
        let done = match self.syncs {
            Syncs::Made => self.file(file).sync(),
            Syncs::LeftOut => Ok(()),
        };
        self.note(SYNC, file, 0, done.is_ok(), &[]);
        done
    }

    /// Returns the length of a file.
    pub(crate) fn len(&mut self, file: FileKind) -> io::Result<u64>
        ensures fronts { front_writes_of self.new ≡ front_writes_of self.old }
        ensures noted { IfOk result (λ len. calls_of self.new ≡ record { kind = 4; file = file; at = len; is_ok = true; bytes = [] } ∷ calls_of self.old) }
        ensures err { OnErr result (calls_of self.new ≡ calls_of self.old) }
    {
        let len = self.file(file).len()?;
        self.note(LENGTH, file, len, true, &[]);
        Ok(len)
    }

    /// Writes zeros into the log behind its end, and returns how many the system took.
    pub(crate) fn write_zeros(&self, at: u64, len: usize) -> io::Result<usize>
        requires blank { IsBlankFrom FileKind.Log at (calls_of self.now) }
        requires within { len ≤ ZEROS_LEN }
        ensures { IfOk result (λ n. n ≤ len) }
    {
        self.log.write_zeros(&ZEROS[..len], at)
    }

    /// Cuts off zeros at the end of the log.
    pub(crate) fn cut_zeros(&self, len: u64) -> io::Result<()>
        requires { IsBlankFrom FileKind.Log len (calls_of self.now) }
    {
        self.log.set_len(len)
    }

    /// Writes `bytes` into the front of a file, and returns how many of them the system took.
    pub(crate) fn write_front(&mut self, file: FileKind, at: u64, bytes: &[u8]) -> io::Result<usize>
        requires { at + length bytes.now ≤ FRONT_LEN }
        ensures calls { calls_of self.new ≡ calls_of self.old }
        ensures count { IfOk result (λ n. n ≤ length bytes.now) }
        ensures noted { IfOk result (λ n. front_writes_of self.new ≡ record { kind = 1; file = file; at = at; is_ok = true; bytes = take n bytes.now } ∷ front_writes_of self.old) }
        ensures err { OnErr result (front_writes_of self.new ≡ record { kind = 1; file = file; at = at; is_ok = false; bytes = bytes.now } ∷ front_writes_of self.old) }
    {
        match self.put(file, at, bytes) {
            Ok(len) => {
                self.note_front(file, at, true, &bytes[..len]);
                Ok(len)
            }
            Err(error) => {
                self.note_front(file, at, false, bytes);
                Err(error)
            }
        }
    }
}
