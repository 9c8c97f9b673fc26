//! Why a store can't be opened, or has no room.
ghost use Rattle.oram_store.specs.Faults.{IsOtherKind};

use oram_layout::{Front, LayoutFault, read_front};
use oram_pair::PairFault;
use oram_redo::RedoError;
use std::alloc::{AllocError, AllocFailed};
use thiserror::Error;

/// Why a store can't be opened, or didn't do what it was asked.
#[derive(Clone, Copy, Debug, PartialEq, Eq, Error)]
pub enum StoreFault {
    /// Another process has the file open, or another store of this process has it.
    #[error("another process has it open")]
    Busy,
    /// There is no file to open.
    #[error("it isn't there")]
    Missing,
    /// There is something of this name, and a new store was to be made.
    #[error("it is there already, and is left as it is")]
    Exists,
    /// There is something at the name under which the file is made that no making has left.
    #[error("the file beside it with .unfinished after its name is somebody else's, and is left as it is: move that away")]
    NewFileTaken,
    /// There is something at the name under which the log is made that no making has left.
    #[error("the file beside it with -log.unfinished after its name is somebody else's, and is left as it is: move that away")]
    NewLogTaken,
    /// The file isn't a file of buckets.
    #[error("it isn't a file of buckets")]
    NotABucketFile,
    /// The file is of the kind that an earlier version wrote.
    #[error("it is of the kind that an earlier version wrote: format the disk anew over a new file")]
    OlderVersion,
    /// The file is of a later version.
    #[error("a later version wrote it: serve it with that version")]
    NewerKind,
    /// The log beside the file is missing.
    #[error("its log, the file beside it with -log after its name, isn't there: the two belong together, so put back the log that it was served with last")]
    WithoutLog,
    /// The log beside the file belongs to another file.
    #[error("the file beside it with -log after its name isn't its log: the two belong together, so put back the log that it was served with last")]
    LogOfAnotherFile,
    /// There is something at the log's name that no making has left, but no file of buckets beside it.
    #[error("it isn't there, but a log is, the file beside it with -log after its name: put the file back that the log belongs to, or move the log away for a new one")]
    LogWithoutFile,
    /// The log is older than the file beside it.
    #[error("its log, the file beside it with -log after its name, is older than it, and both are left as they are: put back the log that it was served with last")]
    LogOlder,
    /// The file is older than the log beside it.
    #[error("it is older than its log, the file beside it with -log after its name, and both are left as they are: put back the file that the log was served with last")]
    LogNewer,
    /// The file is shorter than it was.
    #[error("it was cut short, and is left as it is: put the whole file back")]
    CutShort,
    /// The file holds something that no store writes.
    #[error("it is damaged")]
    Damaged,
    /// The log isn't as a store writes it.
    #[error("its log, the file beside it with -log after its name, is damaged, and both are left as they are: put back a copy of both, or format the disk anew over a new file")]
    LogDamaged,
    /// The disk is full.
    #[error("the disk is full")]
    NoRoom,
    /// The file can't be opened, read or written.
    #[error("it can't be opened, read or written")]
    Io,
    /// The disk failed at an earlier call, and the file has to be opened again.
    #[error("the disk failed before, and it has to be opened again")]
    Closed,
    #[error("out of memory")]
    OutOfMemory,
}

impl From<AllocError> for StoreFault {
    ghost use Rattle.std.specs.Prelude.{◌≡◌};
    ghost use Rattle.oram_store.specs.declared.faults.StoreFault.TheVariants.{OutOfMemory};

    ghost from_gives = { λ _ fault. fault ≡ OutOfMemory };

    fn from(_error: AllocError) -> StoreFault {
        StoreFault::OutOfMemory
    }
}

impl<T: Drop> From<AllocFailed<T>> for StoreFault {
    ghost use Rattle.std.specs.Prelude.{◌≡◌};
    ghost use Rattle.oram_store.specs.declared.faults.StoreFault.TheVariants.{OutOfMemory};

    ghost from_gives = { λ _ fault. fault ≡ OutOfMemory };

    fn from(_error: AllocFailed<T>) -> StoreFault {
        StoreFault::OutOfMemory
    }
}

impl From<PairFault> for StoreFault {
    ghost use Rattle.oram_store.specs.Faults.{StandsForPair};

    ghost from_gives = { λ error fault. StandsForPair error fault };

    fn from(error: PairFault) -> StoreFault {
        match error {
            PairFault::Busy => StoreFault::Busy,
            PairFault::Missing => StoreFault::Missing,
            PairFault::Exists => StoreFault::Exists,
            PairFault::NewFileTaken => StoreFault::NewFileTaken,
            PairFault::NewLogTaken => StoreFault::NewLogTaken,
            PairFault::NotAFile => StoreFault::NotABucketFile,
            PairFault::OtherKind(first) => other_kind(&first),
            PairFault::WithoutLog => StoreFault::WithoutLog,
            PairFault::LogOfAnotherFile => StoreFault::LogOfAnotherFile,
            PairFault::LogWithoutFile => StoreFault::LogWithoutFile,
            PairFault::LogOlder => StoreFault::LogOlder,
            PairFault::LogNewer => StoreFault::LogNewer,
            PairFault::CutShort => StoreFault::CutShort,
            PairFault::Damaged => StoreFault::Damaged,
            PairFault::LogDamaged => StoreFault::LogDamaged,
            PairFault::NoRoom => StoreFault::NoRoom,
            PairFault::NotPermitted | PairFault::Io => StoreFault::Io,
            PairFault::OutOfMemory => StoreFault::OutOfMemory,
        }
    }
}

/// Returns why a file that begins with these bytes is refused.
fn other_kind(first: &[u8; 16]) -> StoreFault
    ensures { IsOtherKind first.now result }
{
    match read_front(first) {
        Front::NewerVersion => StoreFault::NewerKind,
        Front::Sqlite | Front::OlderVersion => StoreFault::OlderVersion,
        Front::Ours(_) | Front::Another | Front::Empty => StoreFault::NotABucketFile,
    }
}

impl From<RedoError> for StoreFault {
    ghost use Rattle.std.specs.Prelude.{◌≡◌};
    ghost use Rattle.oram_store.specs.Faults.{fault_of};

    ghost from_gives = { λ error fault. fault ≡ fault_of error };

    fn from(error: RedoError) -> StoreFault {
        match error {
            RedoError::Memory => StoreFault::OutOfMemory,
            RedoError::NoRoom => StoreFault::NoRoom,
            RedoError::Damaged => StoreFault::LogDamaged,
            RedoError::Failed | RedoError::LogFull => StoreFault::Io,
        }
    }
}

impl From<LayoutFault> for StoreFault {
    ghost use Rattle.std.specs.Prelude.{◌≡◌};
    ghost use Rattle.oram_store.specs.Faults.{fault_in};

    ghost from_gives = { λ error fault. fault ≡ fault_in error };

    fn from(error: LayoutFault) -> StoreFault {
        match error {
            LayoutFault::Damaged => StoreFault::Damaged,
            LayoutFault::OutOfMemory => StoreFault::OutOfMemory,
        }
    }
}
