//! Why answering frames ends early.
ghost use Rattle.std.specs.Prelude.{◌≡◌};

use oram_wire::{FrameFault, WriteFault};
use std::alloc::AllocError;
use std::fmt;

/// Why answering frames ended before the end of the input.
#[derive(Clone, Copy, Debug, PartialEq, Eq)]
pub enum ServeFault {
    /// The reader failed.
    Read,
    /// The writer failed.
    Write,
    /// A frame began with a length above that of the longest body.
    Frame,
    /// The input ended inside a frame.
    Truncated,
    /// In a session, one message to the host stalled four times.
    Stalled,
    /// There was not enough memory.
    OutOfMemory,
}

impl fmt::Display for ServeFault {
    fn fmt<W: fmt::Write>(&self, f: &mut fmt::Formatter<W>) -> fmt::Result {
        f.write_str(match self {
            ServeFault::Read => "the reader failed",
            ServeFault::Write => "the writer failed",
            ServeFault::Frame => "a frame is too long",
            ServeFault::Truncated => "the input ends inside a frame",
            ServeFault::Stalled => "a message to the host stalled",
            ServeFault::OutOfMemory => "out of memory",
        })
    }
}

impl From<AllocError> for ServeFault {
    ghost use Rattle.oram_host.specs.declared.serve_fault.ServeFault.TheVariants.{OutOfMemory};

    ghost from_gives = { λ _ f. f ≡ OutOfMemory };

    fn from(_error: AllocError) -> ServeFault {
        ServeFault::OutOfMemory
    }
}

impl From<FrameFault> for ServeFault {
    ghost use Rattle.oram_host.specs.ServeFaults.{frame_fault};

    ghost from_gives = { λ fault f. f ≡ frame_fault fault };

    fn from(fault: FrameFault) -> ServeFault {
        match fault {
            FrameFault::Read => ServeFault::Read,
            FrameFault::Frame => ServeFault::Frame,
            FrameFault::Truncated => ServeFault::Truncated,
            FrameFault::OutOfMemory => ServeFault::OutOfMemory,
        }
    }
}

impl From<WriteFault> for ServeFault {
    ghost use Rattle.oram_host.specs.declared.serve_fault.ServeFault.TheVariants.{Write};

    ghost from_gives = { λ _ f. f ≡ Write };

    fn from(_fault: WriteFault) -> ServeFault {
        ServeFault::Write
    }
}
