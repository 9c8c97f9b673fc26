//! Why a call was not carried out.
ghost use Rattle.std.specs.Prelude.{◌≡◌};

use std::alloc::{AllocError, AllocFailed};
use std::fmt;

/// Why a call was not carried out.
#[derive(Clone, Copy, Debug, PartialEq, Eq)]
pub enum RedoError {
    /// There was not enough memory.
    Memory,
    /// A write found no room.
    NoRoom,
    /// A read, a write or a sync failed, or a write that can't be taken back found no room.
    Failed,
    /// The log has no room for the batch.
    LogFull,
    /// The log isn't one that this crate has written.
    Damaged,
}

impl fmt::Display for RedoError {
    fn fmt<W: fmt::Write>(&self, f: &mut fmt::Formatter<W>) -> fmt::Result {
        f.write_str(match self {
            RedoError::Memory => "out of memory",
            RedoError::NoRoom => "no room for a write",
            RedoError::Failed => "a read, write or sync of the files failed",
            RedoError::LogFull => "the redo log is full",
            RedoError::Damaged => "the redo log is damaged",
        })
    }
}

impl From<AllocError> for RedoError {
    ghost use Rattle.oram_redo.specs.declared.faults.RedoError.TheVariants.{Memory};

    ghost from_gives = { λ _ e. e ≡ Memory };

    fn from(_error: AllocError) -> RedoError {
        RedoError::Memory
    }
}

impl<T: Drop> From<AllocFailed<T>> for RedoError {
    ghost use Rattle.oram_redo.specs.declared.faults.RedoError.TheVariants.{Memory};

    ghost from_gives = { λ _ e. e ≡ Memory };

    fn from(_error: AllocFailed<T>) -> RedoError {
        RedoError::Memory
    }
}
