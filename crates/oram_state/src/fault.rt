//! Why bytes are no state file.

ghost use Rattle.std.specs.Prelude.{◌≡◌};
ghost use Rattle.oram_state.specs.declared.fault.StateFault.TheVariants.{Content, OutOfMemory};
ghost use Rattle.oram_state.specs.Parser.{fault_number, fault_of_parts};

use oram_core::PartsFault;
use oram_geometry::ShapeFault;
use std::alloc::{AllocError, AllocFailed};

/// Why bytes are no state file, or can't be read as one.
#[derive(Clone, Copy, Debug, PartialEq, Eq)]
pub enum StateFault {
    /// The bytes don't begin with the eight letters.
    Magic,
    /// The version is unknown.
    Version,
    /// The number of bytes isn't the one that the file says, or is less than any file has.
    Length,
    /// The last 32 bytes aren't the digest of the bytes before them.
    Digest,
    /// The fields aren't the parts of any core.
    Content,
    /// Memory ran out.
    OutOfMemory,
}

impl StateFault {
    /// Returns the number by which programs name the fault, from 1 to 5 in the order above, or `None` for `OutOfMemory`.
    pub fn number(self) -> Option<u8>
        ensures { result ≡ fault_number self }
    {
        match self {
            StateFault::Magic => Some(1),
            StateFault::Version => Some(2),
            StateFault::Length => Some(3),
            StateFault::Digest => Some(4),
            StateFault::Content => Some(5),
            StateFault::OutOfMemory => None,
        }
    }
}

impl From<AllocError> for StateFault {
    ghost from_gives = { λ _ why. why ≡ OutOfMemory };

    fn from(_error: AllocError) -> StateFault {
        StateFault::OutOfMemory
    }
}

impl<T: Drop> From<AllocFailed<T>> for StateFault {
    ghost from_gives = { λ _ why. why ≡ OutOfMemory };

    fn from(_error: AllocFailed<T>) -> StateFault {
        StateFault::OutOfMemory
    }
}

impl From<PartsFault> for StateFault {
    ghost from_gives = { λ fault why. why ≡ fault_of_parts fault };

    fn from(fault: PartsFault) -> StateFault {
        match fault {
            PartsFault::Content => StateFault::Content,
            PartsFault::OutOfMemory => StateFault::OutOfMemory,
        }
    }
}

impl From<ShapeFault> for StateFault {
    ghost from_gives = { λ _ why. why ≡ Content };

    fn from(_fault: ShapeFault) -> StateFault {
        StateFault::Content
    }
}
