//! Names and reads of the files of a pair.
ghost use Rattle.std.specs.Path.{path_parent};
ghost use Rattle.std.specs.Prelude.{◌≡◌, ◌≢◌, ◌⊎◌, ◌≤◌, ◌++◌, [], ℕ, List, length, codes, string_bytes, None, Some, IfOk};

use std::alloc::{AllocError, Global};
use std::fs::File;
use std::io;
use std::os::unix::fs::FileExt;
use std::path::Path;

/// The mode of a file that only its owner may read and write.
pub(crate) const OWNERS_ALONE: u32 = 0o600;

/// Returns the name of a file's log.
pub(crate) fn log_name(alloc: Global, path: &str) -> Result<String, AllocError>
    ensures { IfOk result (λ name. string_bytes name ≡ path.now ++ codes "-log") }
{
    let mut name = String::from_str(alloc, path)?;
    name.push_str("-log")?;
    Ok(name)
}

/// Returns the name under which a file is made.
pub(crate) fn new_name(alloc: Global, path: &str) -> Result<String, AllocError>
    ensures { IfOk result (λ name. string_bytes name ≡ path.now ++ codes ".unfinished") }
{
    let mut name = String::from_str(alloc, path)?;
    name.push_str(".unfinished")?;
    Ok(name)
}

/// Returns the folder of a file, which is the working directory if its path names none.
pub(crate) fn folder_of(path: &str) -> &str
    ensures named { (folder : List ℕ) → path_parent path.now ≡ Some folder → folder ≢ [] → result.now ≡ folder }
    ensures working { (path_parent path.now ≡ None) ⊎ (path_parent path.now ≡ Some []) → result.now ≡ codes "." }
{
    match Path::new(path).parent() {
        Some(folder) if folder.as_str() != "" => folder.as_str(),
        _ => ".",
    }
}

/// Reads the bytes at a place of a file, as many as there are, and returns their number.
pub(crate) fn bytes_at(file: &File, at: u64, bytes: &mut [u8]) -> io::Result<usize>
    ensures { IfOk result (λ len. len ≤ length bytes.new) }
{
    let mut got = 0;
    while got < bytes.len() {
        let Some(from) = at.checked_add(got as u64) else {
            break;
        };
        match file.read_at(&mut bytes[got..], from)? {
            0 => break,
            n => got += n,
        }
    }
    Ok(got)
}
