//! The system's calls that make the two files of a new pair, each noted with what came of it.
//!
//! Only contracts read the notes: `specs/Making.antt` says what may be done after what, and what a loss of power leaves. The prover
//! can't check that a method really makes the call that it notes: for that, read this file.
ghost use Rattle.std.specs.Prelude.{◌≡◌, ◌++◌, ◌∷◌, [], false, is_ok, true, codes, string_bytes, IfOk, OnErr};
ghost use Rattle.oram_pair.specs.Filling.{IsFilledPair};
ghost use Rattle.oram_pair.specs.Making.{notes_of};
ghost use Rattle.oram_pair.specs.Notes.{Fills, Links, Locks, Makes, Renames, Sees, SyncsFolder, Takes, deed_of, done};

use crate::faults::PairFault;
use crate::files::{OWNERS_ALONE, bytes_at, folder_of, log_name, new_name};
use crate::filling::{Fill, fill_files};
use crate::format::PairFormat;
use crate::generations::Generation;
use crate::history::History;
use crate::leftovers::{Found, LONGEST_BLANK, is_leftover};
use crate::names::PairName;
use oram_redo::{FileKind, FilePair, Syncs, SystemPair};
use std::alloc::{AllocError, Global};
use std::fs::{self, File, OpenFile, OpenOptions, TryLockError};
use std::io::{self, ErrorKind};
use std::os::unix::fs::{MetadataExt, OpenOptionsExt};

const SEES: u64 = 1;

const TAKES: u64 = 2;

const MAKES: u64 = 3;

const LOCKS: u64 = 4;

const FILLS: u64 = 5;

const LINKS: u64 = 6;

const RENAMES: u64 = 7;

const SYNCS_FOLDER: u64 = 8;

/// The names of a pair's two files, and those under which they are made.
#[derive(Drop)]
struct PairNames {
    file: String,
    log: String,
    new_file: String,
    new_log: String,
}

impl PairNames {
    /// Returns the names for a pair at a path.
    fn of(alloc: Global, path: &str) -> Result<PairNames, AllocError> {
        let log = log_name(alloc, path)?;
        Ok(PairNames {
            file: String::from_str(alloc, path)?,
            new_file: new_name(alloc, path)?,
            new_log: new_name(alloc, log.as_str())?,
            log,
        })
    }
}

/// Two files that are being made, and what was done for that.
#[derive(Drop)]
pub struct NewPair<'a> {
    rt: &'a HostRuntime,
    names: PairNames,
    /// By this a leftover is known.
    format: PairFormat,
    history: History,
}

impl<'a> NewPair<'a> {
    /// Begins the making of a pair of this format at a path, with nothing done yet.
    pub(crate) fn new(
        rt: &'a HostRuntime,
        alloc: Global,
        path: &str,
        format: &PairFormat,
    ) -> Result<NewPair<'a>, AllocError>
        ensures { IfOk result (λ pair. notes_of pair ≡ []) }
    {
        Ok(NewPair {
            rt,
            names: PairNames::of(alloc, path)?,
            format: *format,
            history: History::new(),
        })
    }

    fn path_of(&self, name: PairName) -> &str {
        match name {
            PairName::File => self.names.file.as_str(),
            PairName::Log => self.names.log.as_str(),
            PairName::NewFile => self.names.new_file.as_str(),
            PairName::NewLog => self.names.new_log.as_str(),
        }
    }

    fn note(&mut self, kind: u64, name: PairName, found: Found, is_ok: bool)
        ensures { notes_of self.new ≡ record { deed = deed_of kind name found; is_ok = is_ok } ∷ notes_of self.old }
    {
        let numbers = [kind, name.number(), found.number(), u64::from(is_ok)];
        self.history.note(&numbers, &[]);
    }

    /// Notes a deed that finds nothing out.
    fn note_done(&mut self, kind: u64, name: PairName, is_ok: bool)
        ensures { notes_of self.new ≡ record { deed = deed_of kind name Found.Nothing; is_ok = is_ok } ∷ notes_of self.old }
    {
        self.note(kind, name, Found::Nothing, is_ok);
    }

    /// Looks at what has a name, without changing it.
    pub(crate) fn look(&mut self, name: PairName) -> Result<Found, PairFault>
        ensures noted { IfOk result (λ found. notes_of self.new ≡ done (Sees name found) ∷ notes_of self.old) }
        ensures err { OnErr result (notes_of self.new ≡ notes_of self.old) }
    {
        let path = self.path_of(name);
        let found = match name {
            PairName::File => at_own_name(self.rt, path)?,
            PairName::NewFile => { at_making_name(self.rt, path, &self.format, FileKind::Records)? }
            PairName::Log | PairName::NewLog => {
                at_making_name(self.rt, path, &self.format, FileKind::Log)?
            }
        };
        self.note(SEES, name, found, true);
        Ok(found)
    }

    /// Takes away what has a name.
    pub(crate) fn take(&mut self, name: PairName) -> io::Result<()>
        ensures { notes_of self.new ≡ record { deed = Takes name; is_ok = is_ok result } ∷ notes_of self.old }
    {
        let taken = fs::remove_file(self.rt, self.path_of(name));
        self.note_done(TAKES, name, taken.is_ok());
        taken
    }

    /// Makes a new file for its owner alone. Fails with `Busy` if there is something of this name: then another process has made it since
    /// the name was looked at.
    pub(crate) fn make(&mut self, name: PairName) -> Result<File, PairFault>
        ensures { notes_of self.new ≡ record { deed = Makes name; is_ok = is_ok result } ∷ notes_of self.old }
    {
        let mut options = OpenOptions::new();
        options
            .read(true)
            .write(true)
            .create_new(true)
            .mode(OWNERS_ALONE);
        let made = options.open(self.rt, self.path_of(name));
        self.note_done(MAKES, name, made.is_ok());
        match made {
            Ok(file) => Ok(file),
            Err(error) if error.kind() == ErrorKind::AlreadyExists => Err(PairFault::Busy),
            Err(error) => Err(error.into()),
        }
    }

    /// Locks the new file. Fails with `Busy` if another process has locked it, or has taken it away meanwhile.
    pub(crate) fn lock(&mut self, file: &File) -> Result<(), PairFault>
        ensures { notes_of self.new ≡ record { deed = Locks; is_ok = is_ok result } ∷ notes_of self.old }
    {
        let locked = lock_named(self.rt, file, self.path_of(PairName::NewFile));
        self.note_done(LOCKS, PairName::NewFile, locked.is_ok());
        locked
    }

    /// Opens and locks a new file that was left. Fails with `Busy` if another process is about to make the pair, or has just taken the
    /// file away.
    pub(crate) fn lock_leftover(&self) -> Result<File, PairFault> {
        let path = self.path_of(PairName::NewFile);
        let mut options = OpenOptions::new();
        // Over NFS only a file that may be written is locked.
        match options.read(true).write(true).open(self.rt, path) {
            Ok(file) => {
                lock_named(self.rt, &file, path)?;
                Ok(file)
            }
            Err(error) if error.kind() == ErrorKind::NotFound => Err(PairFault::Busy),
            Err(error) => Err(error.into()),
        }
    }

    /// Turns the two new files into a pair whose fronts say this generation, with this filling, and syncs them.
    pub(crate) fn fill<W: Fill>(
        &mut self,
        records: File,
        log: File,
        format: &PairFormat,
        first: &Generation,
        filling: &W,
    ) -> Result<SystemPair, PairFault>
        ensures noted { notes_of self.new ≡ record { deed = Fills; is_ok = is_ok result } ∷ notes_of self.old }
        ensures filled { IfOk result (IsFilledPair ⟦<SystemPair as FilePair>⟧.model format.now first.now.identity (W.fills filling.now)) }
    {
        let filled = filled_pair(records, log, format, first, filling);
        self.note_done(FILLS, PairName::NewFile, filled.is_ok());
        filled
    }

    /// Gives a new file its own name, by a link. Returns `false` if the file system has no links, and fails with `taken` if there is something of
    /// that name.
    pub(crate) fn link(
        &mut self,
        from: PairName,
        to: PairName,
        taken: PairFault,
    ) -> Result<bool, PairFault>
        ensures noted { IfOk result (λ is_done. notes_of self.new ≡ record { deed = Links to; is_ok = is_done } ∷ notes_of self.old) }
        ensures err { OnErr result (notes_of self.new ≡ record { deed = Links to; is_ok = false } ∷ notes_of self.old) }
    {
        let linked = fs::hard_link(self.rt, self.path_of(from), self.path_of(to));
        self.note_done(LINKS, to, linked.is_ok());
        match linked {
            Ok(()) => Ok(true),
            Err(error) if error.kind() == ErrorKind::AlreadyExists => Err(taken),
            Err(error) if lacks_links(&error) => Ok(false),
            Err(error) => Err(error.into()),
        }
    }

    /// Gives a new file its own name, in place of what has that name.
    pub(crate) fn rename(&mut self, from: PairName, to: PairName) -> io::Result<()>
        ensures { notes_of self.new ≡ record { deed = Renames to; is_ok = is_ok result } ∷ notes_of self.old }
    {
        let renamed = fs::rename(self.rt, self.path_of(from), self.path_of(to));
        self.note_done(RENAMES, to, renamed.is_ok());
        renamed
    }

    /// Syncs the folder of the two files.
    pub(crate) fn sync_folder(&mut self) -> io::Result<()>
        ensures { notes_of self.new ≡ record { deed = SyncsFolder; is_ok = is_ok result } ∷ notes_of self.old }
    {
        let synced = synced_folder(self.rt, self.names.file.as_str());
        self.note_done(SYNCS_FOLDER, PairName::File, synced.is_ok());
        synced
    }
}

/// Returns what has the name of the pair's file. Whatever it is, it is never a leftover there.
fn at_own_name(rt: &HostRuntime, path: &str) -> io::Result<Found> {
    match fs::symlink_metadata(rt, path) {
        Ok(_) => Ok(Found::Another),
        Err(error) if error.kind() == ErrorKind::NotFound => Ok(Found::Nothing),
        Err(error) => Err(error),
    }
}

/// Returns what has a name at which only a making may have left something. It reads only a regular file, and follows no link.
fn at_making_name(
    rt: &HostRuntime,
    path: &str,
    format: &PairFormat,
    kind: FileKind,
) -> Result<Found, PairFault> {
    match fs::symlink_metadata(rt, path) {
        Ok(found) if found.is_file() => {}
        Ok(_) => return Ok(Found::Another),
        Err(error) if error.kind() == ErrorKind::NotFound => return Ok(Found::Nothing),
        Err(error) => return Err(error.into()),
    }
    match File::open(rt, path) {
        Ok(file) => found_in(rt, &file, format, kind),
        // Another process has just taken it away.
        Err(error) if error.kind() == ErrorKind::NotFound => Ok(Found::Nothing),
        Err(error) => Err(error.into()),
    }
}

/// Returns what a regular file is, by its bytes.
fn found_in(
    rt: &HostRuntime,
    file: &File,
    format: &PairFormat,
    kind: FileKind,
) -> Result<Found, PairFault> {
    let mut bytes = vec![in rt.alloc(); 0u8; LONGEST_BLANK + 1]?;
    let len = bytes_at(file, 0, &mut bytes)?;
    Ok(if is_leftover(format, kind, &bytes[..len]) {
        Found::Leftover
    } else {
        Found::Another
    })
}

/// Returns whether a link failed because the file system has no links, or none to this file (link(2): EPERM, EOPNOTSUPP, ENOSYS, EXDEV, EMLINK).
fn lacks_links(error: &io::Error) -> bool {
    matches!(
        error.kind(),
        ErrorKind::PermissionDenied
            | ErrorKind::Unsupported
            | ErrorKind::CrossesDevices
            | ErrorKind::TooManyLinks
    )
}

/// Locks a file, and fails with `Busy` if another process has it locked, or if the file doesn't have this name any more. While it is locked
/// and has the name, no other process that makes a pair here takes the name from it.
fn lock_named(rt: &HostRuntime, file: &File, path: &str) -> Result<(), PairFault> {
    match file.try_lock() {
        Ok(()) => {}
        Err(TryLockError::WouldBlock) => return Err(PairFault::Busy),
        Err(TryLockError::Error(error)) => return Err(error.into()),
    }
    let locked = file.metadata()?;
    match fs::symlink_metadata(rt, path) {
        Ok(named) if (named.dev(), named.ino()) == (locked.dev(), locked.ino()) => Ok(()),
        Ok(_) => Err(PairFault::Busy),
        Err(error) if error.kind() == ErrorKind::NotFound => Err(PairFault::Busy),
        Err(error) => Err(error.into()),
    }
}

/// Turns two empty files into a pair whose fronts say this generation, with this filling.
fn filled_pair<W: Fill>(
    records: File,
    log: File,
    format: &PairFormat,
    first: &Generation,
    filling: &W,
) -> Result<SystemPair, PairFault>
    ensures { IfOk result (IsFilledPair ⟦<SystemPair as FilePair>⟧.model format.now first.now.identity (W.fills filling.now)) }
{
    let mut files = SystemPair::new(records, log, format.bounds.log_end, Syncs::Made);
    fill_files(format, first, filling, &mut files)?;
    Ok(files)
}

fn synced_folder(rt: &HostRuntime, path: &str) -> io::Result<()> {
    File::open(rt, folder_of(path))?.sync_all()
}
