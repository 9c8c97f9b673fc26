//! Why a pair isn't made, or isn't opened.

use oram_redo::RedoError;
use std::alloc::{AllocError, AllocFailed};
use std::io;

/// Why a pair isn't made, or isn't opened. Whoever keeps something in a pair has words of its own for these.
#[derive(Clone, Copy, Debug, PartialEq, Eq)]
pub enum PairFault {
    /// Another process has the file open, or another value in this process has it.
    Busy,
    /// There is no file to open.
    Missing,
    /// There is something of this name, and a new pair was to be made.
    Exists,
    /// There is something at the name under which the file is made that no making has left.
    NewFileTaken,
    /// There is something at the name under which the log is made that no making has left.
    NewLogTaken,
    /// There is something of this name that isn't a file, but a folder or a device, for example.
    NotAFile,
    /// The file isn't of this kind and version. It begins with these bytes; if it has fewer, these are zeros.
    OtherKind([u8; 16]),
    /// The log beside the file is missing.
    WithoutLog,
    /// The log beside the file belongs to another file.
    LogOfAnotherFile,
    /// There is something at the log's name that no making has left, but no file beside it.
    LogWithoutFile,
    /// The log is older than the file beside it.
    LogOlder,
    /// The file is older than the log beside it.
    LogNewer,
    /// The file is shorter than it was.
    CutShort,
    /// The front of the file isn't as it was written.
    Damaged,
    /// The log isn't as it was written.
    LogDamaged,
    /// The disk is full.
    NoRoom,
    /// The system doesn't permit this process to open or to make a file.
    NotPermitted,
    /// A file or its folder can't be opened, read or written.
    Io,
    OutOfMemory,
}

impl From<AllocError> for PairFault {
    ghost use Rattle.std.specs.Prelude.{◌≡◌};
    ghost use Rattle.oram_pair.specs.declared.faults.PairFault.TheVariants.{OutOfMemory};

    ghost from_gives = { λ _ fault. fault ≡ OutOfMemory };

    fn from(_error: AllocError) -> PairFault {
        PairFault::OutOfMemory
    }
}

impl<T: Drop> From<AllocFailed<T>> for PairFault {
    ghost use Rattle.std.specs.Prelude.{◌≡◌};
    ghost use Rattle.oram_pair.specs.declared.faults.PairFault.TheVariants.{OutOfMemory};

    ghost from_gives = { λ _ fault. fault ≡ OutOfMemory };

    fn from(_error: AllocFailed<T>) -> PairFault {
        PairFault::OutOfMemory
    }
}

impl From<io::Error> for PairFault {
    fn from(error: io::Error) -> PairFault {
        match error.kind() {
            io::ErrorKind::OutOfMemory => PairFault::OutOfMemory,
            io::ErrorKind::StorageFull | io::ErrorKind::QuotaExceeded => PairFault::NoRoom,
            io::ErrorKind::PermissionDenied => PairFault::NotPermitted,
            _ => PairFault::Io,
        }
    }
}

impl From<RedoError> for PairFault {
    ghost use Rattle.std.specs.Prelude.{◌≡◌};
    ghost use Rattle.oram_pair.specs.Faults.{fault_of};

    ghost from_gives = { λ error fault. fault ≡ fault_of error };

    fn from(error: RedoError) -> PairFault {
        match error {
            RedoError::Memory => PairFault::OutOfMemory,
            RedoError::NoRoom => PairFault::NoRoom,
            RedoError::Damaged => PairFault::LogDamaged,
            RedoError::Failed | RedoError::LogFull => PairFault::Io,
        }
    }
}
