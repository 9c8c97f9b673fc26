//! Why a disk isn't read to its end.
use crate::blocks::SinkStop;
use crate::visitor::VisitFault;
use oram_session::LinkFault;
use std::alloc::AllocError;
use std::fmt;

/// Why a disk isn't read to its end. The host may have received some of the requests, and nothing at the host has changed.
#[derive(Clone, Copy, Debug, PartialEq, Eq)]
pub enum ReadFault {
    /// The disk has failed: its core no longer knows its trees.
    Failed,
    /// The link to the host gave no answer.
    Link(LinkFault),
    /// The host refused a request, with this code.
    Refused(u8),
    /// The host's answer isn't a row for each node that it was asked for.
    BadAnswer,
    /// A record is the one that was stored, but its bucket doesn't open: the key isn't the one that sealed it.
    BrokenBucket,
    /// The sink for the blocks takes no more. It knows why.
    SinkStopped,
    /// Memory ran out.
    OutOfMemory,
}

impl fmt::Display for ReadFault {
    fn fmt<W: fmt::Write>(&self, f: &mut fmt::Formatter<W>) -> fmt::Result {
        match self {
            ReadFault::Failed => f.write_str("the disk has failed"),
            ReadFault::Link(fault) => write!(f, "{fault}"),
            ReadFault::Refused(code) => write!(
                f,
                "the host refused to give records, with code {code}"
            ),
            ReadFault::BadAnswer => f.write_str(
                "the host's answer has other records than it was asked for",
            ),
            ReadFault::BrokenBucket => f.write_str("a bucket doesn't open with this key"),
            ReadFault::SinkStopped => f.write_str("the image can't be written"),
            ReadFault::OutOfMemory => f.write_str("out of memory"),
        }
    }
}

impl From<AllocError> for ReadFault {
    ghost use Rattle.std.specs.Prelude.{◌≡◌};
    ghost use Rattle.oram_export.specs.declared.read_fault.ReadFault.TheVariants.{OutOfMemory};

    ghost from_gives = { λ _ f. f ≡ OutOfMemory };

    fn from(_error: AllocError) -> ReadFault {
        ReadFault::OutOfMemory
    }
}

impl From<LinkFault> for ReadFault {
    ghost use Rattle.std.specs.Prelude.{◌≡◌};
    ghost use Rattle.oram_export.specs.Faults.{link_fault};

    ghost from_gives = { λ fault f. f ≡ link_fault fault };

    fn from(fault: LinkFault) -> ReadFault {
        match fault {
            LinkFault::OutOfMemory => ReadFault::OutOfMemory,
            _ => ReadFault::Link(fault),
        }
    }
}

impl From<SinkStop> for ReadFault {
    ghost use Rattle.std.specs.Prelude.{◌≡◌};
    ghost use Rattle.oram_export.specs.declared.read_fault.ReadFault.TheVariants.{SinkStopped};

    ghost from_gives = { λ _ f. f ≡ SinkStopped };

    fn from(_stop: SinkStop) -> ReadFault {
        ReadFault::SinkStopped
    }
}

impl From<VisitFault> for ReadFault {
    ghost use Rattle.std.specs.Prelude.{◌≡◌};
    ghost use Rattle.oram_export.specs.Faults.{visit_fault};

    ghost from_gives = { λ fault f. f ≡ visit_fault fault };

    fn from(fault: VisitFault) -> ReadFault {
        match fault {
            VisitFault::BrokenBucket => ReadFault::BrokenBucket,
            VisitFault::SinkStopped => ReadFault::SinkStopped,
            VisitFault::OutOfMemory => ReadFault::OutOfMemory,
        }
    }
}
