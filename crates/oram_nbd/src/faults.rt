//! The faults of a device, of a request and of a connection.

ghost use Rattle.std.specs.Prelude.{◌≡◌};

use oram_wire::{FrameFault, WriteFault};
use std::alloc::AllocError;
use thiserror::Error;

/// Why a device didn't carry out a call.
#[derive(Clone, Copy, Debug, PartialEq, Eq)]
pub enum DiskFault {
    /// The device failed.
    Failed,
    /// There was not enough memory.
    OutOfMemory,
    /// The device can't go on, so the connection ends. Of the operations in progress the first ones are done, one perhaps in
    /// part, and the others aren't begun.
    Stopped,
    /// The client's watch wanted the call to end. Of the operations in progress the first ones are done, and the others aren't
    /// begun. The device can go on.
    Interrupted,
}

impl From<AllocError> for DiskFault {
    ghost use Rattle.oram_nbd.specs.declared.faults.DiskFault.TheVariants.{OutOfMemory};

    ghost from_gives = { λ _ f. f ≡ OutOfMemory };

    fn from(_error: AllocError) -> DiskFault {
        DiskFault::OutOfMemory
    }
}

/// Why a request was refused.
#[derive(Clone, Copy, Debug, PartialEq, Eq)]
pub enum NbdError {
    /// The device failed.
    Io,
    /// There was not enough memory.
    NoMemory,
    /// The request is malformed, or lies outside the device.
    Invalid,
    /// A write lies outside the device.
    NoSpace,
    /// The request was given up while it was carried out.
    Shutdown,
}

impl NbdError {
    ghost use Rattle.oram_nbd.specs.Errors.{error_number};

    /// Returns the protocol's number of the error.
    pub fn number(self) -> u32
        ensures { result ≡ error_number self }
    {
        match self {
            NbdError::Io => 5,
            NbdError::NoMemory => 12,
            NbdError::Invalid => 22,
            NbdError::NoSpace => 28,
            NbdError::Shutdown => 108,
        }
    }
}

/// Why a connection ended before its client was done.
#[derive(Clone, Copy, Debug, PartialEq, Eq, Error)]
pub enum NbdFault {
    #[error("the connection can't be read")]
    Read,
    #[error("the connection can't be written")]
    Write,
    #[error("the input ends in the middle of a message")]
    Truncated,
    #[error("a message doesn't begin as it has to")]
    Magic,
    #[error("the client sets a flag in the handshake that wasn't offered")]
    UnknownFlags,
    #[error("the client asks for an export that isn't there")]
    UnknownExport,
    #[error("the client takes too many options")]
    TooManyOptions,
    #[error("out of memory")]
    OutOfMemory,
    #[error("the disk has stopped")]
    Stopped,
}

impl From<AllocError> for NbdFault {
    ghost use Rattle.oram_nbd.specs.declared.faults.NbdFault.TheVariants.{OutOfMemory};

    ghost from_gives = { λ _ f. f ≡ OutOfMemory };

    fn from(_error: AllocError) -> NbdFault {
        NbdFault::OutOfMemory
    }
}

impl From<FrameFault> for NbdFault {
    ghost use Rattle.oram_nbd.specs.Errors.{reading_fault};

    ghost from_gives = { λ fault f. f ≡ reading_fault fault };

    fn from(fault: FrameFault) -> NbdFault {
        match fault {
            FrameFault::Read => NbdFault::Read,
            FrameFault::Truncated => NbdFault::Truncated,
            FrameFault::Frame => NbdFault::Magic,
            FrameFault::OutOfMemory => NbdFault::OutOfMemory,
        }
    }
}

impl From<WriteFault> for NbdFault {
    ghost use Rattle.oram_nbd.specs.declared.faults.NbdFault.TheVariants.{Write};

    ghost from_gives = { λ _ f. f ≡ Write };

    fn from(_fault: WriteFault) -> NbdFault {
        NbdFault::Write
    }
}
