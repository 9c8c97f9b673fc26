//! Why a call on a file failed.

ghost use Rattle.std.specs.IoError.{error_kind};
ghost use Rattle.std.specs.Prelude.{◌≡◌};
ghost use Rattle.oram_cli.specs.FileFaults.{IsFaultOf};
ghost use Rattle.oram_cli.specs.FileFaults as spec;
ghost use Rattle.oram_cli.specs.declared.file_faults.FileFault.TheVariants.{OutOfMemory};

use std::alloc::{AllocError, Global};
use std::io;
use std::io::ErrorKind;
use thiserror::Error;

/// The reason that the system gives. Each reason has a variant if a user can do something about it.
#[derive(Clone, Copy, Debug, PartialEq, Eq, Error)]
pub enum FileReason {
    #[error("no such file or folder")]
    Missing,
    /// There is a file or folder of this name, where a new one is wanted.
    #[error("it is there already")]
    Exists,
    #[error("permission denied")]
    NotPermitted,
    /// The disk has no room, or none that the user may still take.
    #[error("the disk is full")]
    DiskFull,
    /// It is a folder, where a file is wanted.
    #[error("it is a folder")]
    Folder,
    #[error("it can't be opened, read or written")]
    Other,
}

/// Why a file could not be read or written.
#[derive(Debug, PartialEq, Eq, Drop, Error)]
pub enum FileFault {
    /// A call on the file or folder of this name failed for this reason.
    #[error("file {0}: {1}")]
    File(String, FileReason),
    #[error("out of memory")]
    OutOfMemory,
}

impl From<AllocError> for FileFault {
    ghost from_gives = { λ _ fault. fault ≡ OutOfMemory };

    fn from(_error: AllocError) -> FileFault {
        FileFault::OutOfMemory
    }
}

/// Returns the reason for an error of this kind.
pub fn reason_of(kind: ErrorKind) -> FileReason
    ensures { result ≡ spec.reason_of kind }
{
    match kind {
        ErrorKind::NotFound => FileReason::Missing,
        ErrorKind::AlreadyExists => FileReason::Exists,
        ErrorKind::PermissionDenied | ErrorKind::ReadOnlyFilesystem => FileReason::NotPermitted,
        ErrorKind::StorageFull | ErrorKind::QuotaExceeded => FileReason::DiskFull,
        ErrorKind::IsADirectory => FileReason::Folder,
        _ => FileReason::Other,
    }
}

/// Returns the fault for a call on the file or folder `name` that failed with `error`.
pub fn file_fault(name: String, error: &io::Error) -> FileFault
    ensures { result ≡ spec.file_fault (error_kind error.now) name }
{
    match error.kind() {
        ErrorKind::OutOfMemory => FileFault::OutOfMemory,
        kind => FileFault::File(name, reason_of(kind)),
    }
}

/// Returns the same fault for a name that stays with the caller. It is also `OutOfMemory` if there is no memory for a copy of
/// the name.
pub fn call_fault(alloc: Global, name: &str, error: &io::Error) -> FileFault
    ensures { IsFaultOf name.now (error_kind error.now) result }
{
    match String::from_str(alloc, name) {
        Ok(name) => file_fault(name, error),
        Err(_) => FileFault::OutOfMemory,
    }
}
