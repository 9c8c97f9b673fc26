//! Why a body can't be read as a message.

ghost use Rattle.std.specs.Prelude.{◌≡◌};
ghost use Rattle.oram_wire.specs.declared.faults.WireFault.TheVariants.{OutOfMemory};

use std::alloc::AllocError;

/// Why a body is no message of the expected kind.
#[derive(Clone, Copy, Debug, PartialEq, Eq)]
pub enum WireFault {
    /// The body is empty, or its first byte names no message of this kind.
    Op,
    /// The body is too short or too long for its first byte.
    Length,
    /// The code of a refusal isn't one of the known codes.
    Code,
    /// There is no memory for a copy of the bytes.
    OutOfMemory,
}

impl From<AllocError> for WireFault {
    ghost from_gives = { λ _ f. f ≡ OutOfMemory };

    fn from(_error: AllocError) -> WireFault {
        WireFault::OutOfMemory
    }
}
