//! Files that a program reads as a whole, and files that it replaces as a whole.

ghost use Rattle.std.specs.Prelude.{◌≡◌, ◌≢◌, ◌⊎◌, ◌++◌, ℕ, List, [], Some, None, codes, string_bytes, IfOk};
ghost use Rattle.std.specs.Path.{path_parent};

use crate::file_faults::{FileFault, call_fault};
use std::alloc::{AllocError, Global};
use std::fs::{File, OpenFile, OpenOptions};
use std::io::{ErrorKind, Write};
use std::os::unix::fs::OpenOptionsExt;
use std::path::Path;
use std::rt::Files;
use std::{fs, io};

/// The mode of a file that only its owner may read and write, since a state says where each block lies.
pub(crate) const OWNERS_ALONE: u32 = 0o600;

/// Reads a whole file.
pub fn bytes_in<R: Files + AllocGlobal>(rt: &R, name: &str) -> Result<Vec<u8>, FileFault> {
    match fs::read(rt, name) {
        Ok(bytes) => Ok(bytes),
        Err(error) => Err(call_fault(rt.alloc(), name, &error)),
    }
}

/// Reads a whole file as text. Returns `None` if it isn't UTF-8.
pub fn text_in<R: Files + AllocGlobal>(rt: &R, name: &str) -> Result<Option<String>, FileFault> {
    Ok(String::from_utf8(bytes_in(rt, name)?).ok())
}

/// Returns the name of the file that a link leads to, or `name` itself if it isn't a link. A file that is locked, or replaced
/// as a whole, has to be used under this name: its lock and its new file are made beside the name.
pub fn linked_name<R: Files + AllocGlobal>(rt: &R, name: String) -> Result<String, FileFault> {
    if !Path::new(name.as_str()).is_symlink(rt) {
        return Ok(name);
    }
    match rt.canonicalize(rt.alloc(), name.as_str()) {
        Ok(path) => Ok(path.into_string()),
        // What it leads to is missing, for example because its disk isn't mounted.
        Err(error) if error.kind() == ErrorKind::NotFound => Ok(name),
        Err(error) => Err(call_fault(rt.alloc(), name.as_str(), &error)),
    }
}

/// Returns the name under which a file is written before it is renamed.
pub fn new_name(alloc: Global, name: &str) -> Result<String, AllocError>
    ensures { IfOk result (λ new. string_bytes new ≡ name.now ++ codes ".new") }
{
    let mut new = String::from_str(alloc, name)?;
    new.push_str(".new")?;
    Ok(new)
}

/// Creates a file that only its owner may read and write, or empties the one that is there.
pub fn create_for_owner<R: Files>(rt: &R, name: &str) -> io::Result<R::File> {
    let mut options = OpenOptions::new();
    options
        .write(true)
        .create(true)
        .truncate(true)
        .mode(OWNERS_ALONE);
    options.open(rt, name)
}

/// Returns the folder of the file `name`, which is the working directory if the name has no folder in it.
pub fn folder_of(name: &str) -> &str
    ensures named { (folder : List ℕ) → path_parent name.now ≡ Some folder → folder ≢ [] → result.now ≡ folder }
    ensures working { (path_parent name.now ≡ None) ⊎ (path_parent name.now ≡ Some []) → result.now ≡ codes "." }
{
    match Path::new(name).parent() {
        Some(folder) if folder.as_str() != "" => folder.as_str(),
        _ => ".",
    }
}

/// Syncs a folder, so that the names in it outlast a loss of power.
pub fn sync_folder<R: Files>(rt: &R, folder: &str) -> io::Result<()> {
    File::open(rt, folder)?.sync_all()
}

/// A file that is replaced as a whole: written under another name first, then renamed. It allocates both names at the
/// start, so that a save doesn't fail because there is no memory for a name.
///
/// `oram_pair` makes a file and its log in the same way, by steps of its own: it renames the log, and then the file, which it
/// has locked before anybody can open it by its name.
#[derive(Debug, Drop)]
pub struct AtomicFile {
    name: String,
    new_name: String,
}

impl AtomicFile {
    pub fn new(alloc: Global, name: String) -> Result<AtomicFile, AllocError> {
        let new_name = new_name(alloc, name.as_str())?;
        Ok(AtomicFile { name, new_name })
    }

    pub fn name(&self) -> &str {
        self.name.as_str()
    }

    /// Returns the fault to report for a call on the file that failed with `error`.
    pub fn fault(&self, alloc: Global, error: &io::Error) -> FileFault {
        call_fault(alloc, self.name.as_str(), error)
    }

    /// Fails with [`FileReason::Exists`](crate::FileReason::Exists) if the file exists, or with the system's reason if that
    /// can't be found out.
    pub fn check_absent<R: Files + AllocGlobal>(&self, rt: &R) -> Result<(), FileFault> {
        self.check_presence(rt, false, ErrorKind::AlreadyExists)
    }

    /// Fails with [`FileReason::Missing`](crate::FileReason::Missing) if the file doesn't exist, or with the system's reason
    /// if that can't be found out.
    pub fn check_present<R: Files + AllocGlobal>(&self, rt: &R) -> Result<(), FileFault> {
        self.check_presence(rt, true, ErrorKind::NotFound)
    }

    /// Fails with an error of the kind `otherwise` if the file exists but isn't `wanted`, or is `wanted` but doesn't exist.
    fn check_presence<R: Files + AllocGlobal>(
        &self,
        rt: &R,
        wanted: bool,
        otherwise: ErrorKind,
    ) -> Result<(), FileFault> {
        match fs::exists(rt, self.name.as_str()) {
            Ok(found) if found == wanted => Ok(()),
            Ok(_) => Err(self.fault(rt.alloc(), &io::Error::from(otherwise))),
            Err(error) => Err(self.fault(rt.alloc(), &error)),
        }
    }

    /// Creates the file under its other name, for its owner alone, so that it can be written.
    pub fn begin<R: Files>(&self, rt: &R) -> io::Result<R::File> {
        create_for_owner(rt, self.new_name.as_str())
    }

    /// Syncs a file that `begin` created, renames it to its own name, and syncs its folder. Until the folder is synced, a loss
    /// of power may bring the old file back; so an error of that sync is one of the whole call, although the new file is there.
    pub fn finish<R: Files>(&self, rt: &R, file: &R::File) -> io::Result<()> {
        file.sync_all()?;
        fs::rename(rt, self.new_name.as_str(), self.name.as_str())?;
        sync_folder(rt, folder_of(self.name.as_str()))
    }

    fn write_bytes<R: Files>(&self, rt: &R, bytes: &[u8]) -> io::Result<()> {
        let mut file = self.begin(rt)?;
        file.write_all(bytes)?;
        self.finish(rt, &file)
    }

    /// Replaces the whole file with one that holds `bytes`.
    pub fn save_bytes<R: Files + AllocGlobal>(
        &self,
        rt: &R,
        bytes: &[u8],
    ) -> Result<(), FileFault> {
        match self.write_bytes(rt, bytes) {
            Ok(()) => Ok(()),
            Err(error) => Err(self.fault(rt.alloc(), &error)),
        }
    }
}
