//! Why a disk wasn't introduced to its host.

use oram_session::LinkFault;
use std::alloc::{AllocError, AllocFailed};
use thiserror::Error;

/// Why a disk wasn't introduced to its host. The host keeps what it has taken so far, and the disk may be introduced again.
#[derive(Clone, Copy, Debug, PartialEq, Eq, Error)]
pub enum IntroductionFault {
    /// The host has another identity.
    #[error("the host keeps another disk")]
    Taken,
    /// The host has other stamps than the first ones.
    #[error("the disk was used since")]
    Used,
    /// The host has no room for a message.
    #[error("the host has no room")]
    NoRoom,
    /// The host gave an answer that no host gives that does what it is asked to.
    #[error("the host refused a message of the introduction")]
    Refused,
    #[error("the connection to the host failed")]
    Link,
    /// The identity, fetched at the end, isn't what was put there.
    #[error("the host doesn't hold what it was given")]
    NotStored,
    #[error("out of memory")]
    OutOfMemory,
}

impl From<AllocError> for IntroductionFault {
    ghost use Rattle.std.specs.Prelude.{◌≡◌};
    ghost use Rattle.oram_client.specs.declared.faults.IntroductionFault.TheVariants.{OutOfMemory};

    ghost from_gives = { λ _ fault. fault ≡ OutOfMemory };

    fn from(_error: AllocError) -> IntroductionFault {
        IntroductionFault::OutOfMemory
    }
}

impl<T: Drop> From<AllocFailed<T>> for IntroductionFault {
    ghost use Rattle.std.specs.Prelude.{◌≡◌};
    ghost use Rattle.oram_client.specs.declared.faults.IntroductionFault.TheVariants.{OutOfMemory};

    ghost from_gives = { λ _ fault. fault ≡ OutOfMemory };

    fn from(_error: AllocFailed<T>) -> IntroductionFault {
        IntroductionFault::OutOfMemory
    }
}

impl From<LinkFault> for IntroductionFault {
    ghost use Rattle.std.specs.Prelude.{◌≡◌};
    ghost use Rattle.oram_client.specs.Introduction.{introduction_fault};

    ghost from_gives = { λ why fault. fault ≡ introduction_fault why };

    fn from(why: LinkFault) -> IntroductionFault {
        match why {
            LinkFault::OutOfMemory => IntroductionFault::OutOfMemory,
            LinkFault::Io | LinkFault::Closed | LinkFault::TooLong | LinkFault::TooLarge => {
                IntroductionFault::Link
            }
        }
    }
}
