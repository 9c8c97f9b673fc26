//! Links to a host.
ghost use Rattle.std.specs.Prelude.{◌≡◌, ℕ, List};
ghost use Rattle.oram_session.specs.Outcome.{Outcome, outcome_of, faults_after};

use std::alloc::{AllocError, Global};
use std::{fmt, io};

/// Why a call of a link gives no answer.
#[derive(Clone, Copy, Debug, PartialEq, Eq)]
pub enum LinkFault {
    /// Reading or writing failed.
    Io,
    /// The other side is gone, or an earlier fault has closed the link.
    Closed,
    /// The message or the answer is longer than the body of a frame can be.
    TooLong,
    /// The frame is longer than this link can take.
    TooLarge,
    /// Memory ran out.
    OutOfMemory,
}

impl fmt::Display for LinkFault {
    fn fmt<W: fmt::Write>(&self, f: &mut fmt::Formatter<W>) -> fmt::Result {
        f.write_str(match self {
            LinkFault::Io => "the link failed",
            LinkFault::Closed => "the link is closed",
            LinkFault::TooLong => "the message or its answer is longer than a frame",
            LinkFault::TooLarge => "the frame is longer than the link takes",
            LinkFault::OutOfMemory => "out of memory",
        })
    }
}

impl From<AllocError> for LinkFault {
    ghost use Rattle.oram_session.specs.declared.link.LinkFault.TheVariants.{OutOfMemory};

    ghost from_gives = { λ _ f. f ≡ OutOfMemory };

    fn from(_error: AllocError) -> LinkFault {
        LinkFault::OutOfMemory
    }
}

impl From<io::Error> for LinkFault {
    ghost use Rattle.oram_session.specs.declared.link.LinkFault.TheVariants.{Io};

    ghost from_gives = { λ _ f. f ≡ Io };

    fn from(_error: io::Error) -> LinkFault {
        LinkFault::Io
    }
}

/// A link to a host.
pub trait Link {
    /// Whether a call with these bytes, from the first value, may have this outcome and lead to the second value.
    ghost calls: { Self → List ℕ → Outcome → Self → Type 0 };

    /// The number of calls that had a fault.
    ghost fault_count: { Self → ℕ };

    /// Sends the body of a message to the host, and returns the body of the answer.
    fn call(&mut self, alloc: Global, body: &[u8]) -> Result<Vec<u8>, LinkFault>
        ensures { calls self.old body.now (outcome_of result) self.new };

    /// Returns the number of calls that had a fault; the count stops at `u64::MAX`.
    fn faults(&self) -> u64
        ensures { result ≡ fault_count self.now };

    // The count rises by one at each fault, and at nothing else.
    ghost counts: { (l m : Self) (body : List ℕ) (outcome : Outcome)
        → calls l body outcome m → fault_count m ≡ faults_after (fault_count l) outcome };
}
