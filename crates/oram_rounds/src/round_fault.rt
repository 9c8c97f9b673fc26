//! Why a round has no replies.
ghost use Rattle.std.specs.Prelude.{◌≡◌};

use crate::keeper::KeepError;
use std::alloc::AllocError;
use std::fmt;

/// Why a round has no replies. What was done before stays done, and the round can go on from there.
#[derive(Clone, Copy, Debug, PartialEq, Eq)]
pub enum RoundFault {
    /// A message stalled each time that it was sent: it had no answer, or the host had no room.
    Stalled,
    /// The keeper failed, and no message was sent.
    NotKept,
    /// Memory ran out.
    OutOfMemory,
}

impl fmt::Display for RoundFault {
    fn fmt<W: fmt::Write>(&self, f: &mut fmt::Formatter<W>) -> fmt::Result {
        f.write_str(match self {
            RoundFault::Stalled => "a message to the host stalled",
            RoundFault::NotKept => "the state could not be kept",
            RoundFault::OutOfMemory => "out of memory",
        })
    }
}

impl From<AllocError> for RoundFault {
    ghost use Rattle.oram_rounds.specs.declared.round_fault.RoundFault.TheVariants.{OutOfMemory};

    ghost from_gives = { λ _ f. f ≡ OutOfMemory };

    fn from(_error: AllocError) -> RoundFault {
        RoundFault::OutOfMemory
    }
}

impl From<KeepError> for RoundFault {
    ghost use Rattle.oram_rounds.specs.declared.round_fault.RoundFault.TheVariants.{NotKept};

    ghost from_gives = { λ _ f. f ≡ NotKept };

    fn from(_error: KeepError) -> RoundFault {
        RoundFault::NotKept
    }
}
