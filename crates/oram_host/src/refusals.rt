//! Why a host refuses a request.

ghost use Rattle.std.specs.Prelude.{◌≡◌};
ghost use Rattle.oram_host.specs.declared.refusals.HostRefusal.TheVariants.{OutOfMemory};
ghost use Rattle.oram_host.specs.Refusals.{code_of};

use std::alloc::{AllocError, AllocFailed};

/// Why a host refuses a request. The number of each is the code that is sent.
#[derive(Clone, Copy, Debug, PartialEq, Eq)]
pub enum HostRefusal {
    /// The tree has no shape.
    NoShape = 1,
    /// The tree has no such leaf.
    BadLeaf = 2,
    /// The tree has no such node.
    BadNode = 3,
    /// The body is too short or too long, or no tree can have this shape.
    BadLength = 4,
    /// The tree has a shape already.
    ShapeTaken = 5,
    /// A node of the path has never been given a record.
    Missing = 6,
    /// The first byte names no request.
    BadOp = 7,
    /// The host is out of memory.
    OutOfMemory = 8,
}

impl HostRefusal {
    /// Returns the code that is sent.
    pub fn code(self) -> u8
        ensures { result ≡ code_of self }
    {
        self as u8
    }
}

impl From<AllocError> for HostRefusal {
    ghost from_gives = { λ _ why. why ≡ OutOfMemory };

    fn from(_error: AllocError) -> HostRefusal {
        HostRefusal::OutOfMemory
    }
}

impl<T: Drop> From<AllocFailed<T>> for HostRefusal {
    ghost from_gives = { λ _ why. why ≡ OutOfMemory };

    fn from(_error: AllocFailed<T>) -> HostRefusal {
        HostRefusal::OutOfMemory
    }
}
