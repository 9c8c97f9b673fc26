//! Files that are read by their names.
ghost use Rattle.std.specs.IoError.{error_kind};
ghost use Rattle.std.specs.Prelude.{ℕ, List, MatchOption, IfErr, IfOk};
ghost use Rattle.oram_client.specs.NamedFiles.{IsFailedCall};

use oram_cli::{FileFault, call_fault};
use std::alloc::Global;
use std::io::ErrorKind;
use std::rt::Files;
use std::{fs, io};

/// Files that are read by their names.
pub trait NamedFiles {
    ghost use Rattle.std.specs.declared.io.ErrorKind.{ErrorKind};

    /// `gives files name bytes`: a reading of the name was answered with these bytes.
    ghost gives: { Self → List ℕ → List ℕ → Type 0 };

    /// `unread files name kind`: a reading of the name failed with an error of this kind.
    ghost unread: { Self → List ℕ → ErrorKind → Type 0 };

    /// Reads the whole file of a name.
    fn read(&self, name: &str) -> io::Result<Vec<u8>>
        ensures ok { IfOk result (λ bytes. gives self.now name.now bytes.items) }
        ensures err { IfErr result (λ error. unread self.now name.now (error_kind error)) };
}

/// The files of the system.
#[derive(Drop)]
pub struct SystemFiles<'a, R> {
    pub rt: &'a R,
}

impl<'a, R: Files + AllocGlobal> NamedFiles for SystemFiles<'a, R> {
    // No contract says what the system answers.
    ghost gives = { λ _ _ _. Unit {0} };

    ghost unread = { λ _ _ _. Unit {0} };

    fn read(&self, name: &str) -> io::Result<Vec<u8>> {
        fs::read(self.rt, name)
    }
}

/// Reads the file of this name, and returns `None` if there is none. Fails if it can't be read for any other reason.
pub fn read_if_there<N: NamedFiles>(
    alloc: Global,
    files: &N,
    name: &str,
) -> Result<Option<Vec<u8>>, FileFault>
    ensures ok { IfOk result (λ found. MatchOption found (N.unread files.now name.now ErrorKind.NotFound) (λ bytes. N.gives files.now name.now bytes.items)) }
    ensures err { IfErr result (IsFailedCall (N.unread files.now) name.now) }
{
    match files.read(name) {
        Ok(bytes) => Ok(Some(bytes)),
        Err(error) if error.kind() == ErrorKind::NotFound => Ok(None),
        Err(error) => Err(call_fault(alloc, name, &error)),
    }
}
