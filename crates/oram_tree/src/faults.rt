//! Why formatting, accessing or restoring a tree fails.
ghost use Rattle.std.specs.Prelude.{◌≡◌};

use oram_bucket::OpenFault;
use oram_wire::SinkFault;
use std::alloc::AllocError;

/// Why a tree couldn't be formatted.
#[derive(Clone, Copy, Debug, PartialEq, Eq)]
pub enum FormatFault {
    /// The sink refused a message for this reason, which isn't a lack of memory.
    Sink(SinkFault),
    /// The tree or the sink ran out of memory.
    OutOfMemory,
}

impl From<AllocError> for FormatFault {
    ghost use Rattle.oram_tree.specs.declared.faults.FormatFault.TheVariants.{OutOfMemory};

    ghost from_gives = { λ _ f. f ≡ OutOfMemory };

    fn from(_: AllocError) -> Self {
        FormatFault::OutOfMemory
    }
}

impl From<SinkFault> for FormatFault {
    ghost use Rattle.oram_tree.specs.Faults.{format_fault};

    ghost from_gives = { λ fault f. f ≡ format_fault fault };

    fn from(fault: SinkFault) -> Self {
        match fault {
            SinkFault::OutOfMemory => FormatFault::OutOfMemory,
            _ => FormatFault::Sink(fault),
        }
    }
}

/// Why an access failed.
#[derive(Clone, Copy, Debug, PartialEq, Eq)]
pub enum TreeFault {
    /// A bucket of the path doesn't open or decode, or two blocks of the path and the stash have the same address.
    Unreadable,
    OutOfMemory,
}

impl From<AllocError> for TreeFault {
    ghost use Rattle.oram_tree.specs.declared.faults.TreeFault.TheVariants.{OutOfMemory};

    ghost from_gives = { λ _ f. f ≡ OutOfMemory };

    fn from(_: AllocError) -> Self {
        TreeFault::OutOfMemory
    }
}

impl From<OpenFault> for TreeFault {
    ghost use Rattle.oram_tree.specs.Faults.{tree_fault};

    ghost from_gives = { λ fault f. f ≡ tree_fault fault };

    fn from(fault: OpenFault) -> Self {
        match fault {
            OpenFault::Broken => TreeFault::Unreadable,
            OpenFault::OutOfMemory => TreeFault::OutOfMemory,
        }
    }
}

/// Why parts don't make a tree.
#[derive(Clone, Copy, Debug, PartialEq, Eq)]
pub enum PartsFault {
    /// They can't be parts of this tree of the device.
    Content,
    OutOfMemory,
}

impl From<AllocError> for PartsFault {
    ghost use Rattle.oram_tree.specs.declared.faults.PartsFault.TheVariants.{OutOfMemory};

    ghost from_gives = { λ _ f. f ≡ OutOfMemory };

    fn from(_: AllocError) -> Self {
        PartsFault::OutOfMemory
    }
}
