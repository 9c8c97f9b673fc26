//! Why there is no summary.
ghost use Rattle.std.specs.Prelude.{◌≡◌};

use std::alloc::AllocError;

/// Why a summary has no text.
#[derive(Clone, Copy, Debug, PartialEq, Eq)]
pub enum EncodeFault {
    /// The stash has more than [`MOST_BLOCKS`](crate::MOST_BLOCKS) blocks.
    FullStash,
    /// Memory ran out.
    OutOfMemory,
}

impl From<AllocError> for EncodeFault {
    ghost use Rattle.oram_summary.specs.declared.faults.EncodeFault.TheVariants.{OutOfMemory};

    ghost from_gives = { λ _ f. f ≡ OutOfMemory };

    fn from(_error: AllocError) -> EncodeFault {
        EncodeFault::OutOfMemory
    }
}

/// Why bytes don't open, or their text is no summary.
#[derive(Clone, Copy, Debug, PartialEq, Eq)]
pub enum SummaryFault {
    /// The bytes are too few for a salt and a tag.
    Short,
    /// The tag isn't that of what the bytes open to: they were sealed under another key, or aren't what was sealed.
    Tag,
    /// The text is of another version.
    Version,
    /// The text isn't as long as its device wants.
    Length,
    /// The text has the right length and version, and is that of no summary.
    Content,
    /// Memory ran out.
    OutOfMemory,
}

impl From<AllocError> for SummaryFault {
    ghost use Rattle.oram_summary.specs.declared.faults.SummaryFault.TheVariants.{OutOfMemory};

    ghost from_gives = { λ _ f. f ≡ OutOfMemory };

    fn from(_error: AllocError) -> SummaryFault {
        SummaryFault::OutOfMemory
    }
}
