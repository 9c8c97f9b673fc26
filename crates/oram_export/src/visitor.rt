//! Who is told of the records of a tree.
ghost use Rattle.std.specs.Prelude.{◌≡◌, ◌<◌, ℕ, List, length, OnOk};

use crate::blocks::SinkStop;
use oram_bucket::OpenFault;
use std::alloc::{AllocError, Global};

/// Why a visitor doesn't take a record.
#[derive(Clone, Copy, Debug, PartialEq, Eq)]
pub enum VisitFault {
    /// The record's bucket doesn't open.
    BrokenBucket,
    /// The sink for the blocks takes no more.
    SinkStopped,
    OutOfMemory,
}

impl From<AllocError> for VisitFault {
    ghost use Rattle.oram_export.specs.declared.visitor.VisitFault.TheVariants.{OutOfMemory};

    ghost from_gives = { λ _ f. f ≡ OutOfMemory };

    fn from(_error: AllocError) -> VisitFault {
        VisitFault::OutOfMemory
    }
}

impl From<SinkStop> for VisitFault {
    ghost use Rattle.oram_export.specs.declared.visitor.VisitFault.TheVariants.{SinkStopped};

    ghost from_gives = { λ _ f. f ≡ SinkStopped };

    fn from(_stop: SinkStop) -> VisitFault {
        VisitFault::SinkStopped
    }
}

impl From<OpenFault> for VisitFault {
    ghost use Rattle.oram_export.specs.Faults.{bucket_fault};

    ghost from_gives = { λ fault f. f ≡ bucket_fault fault };

    fn from(fault: OpenFault) -> VisitFault {
        match fault {
            OpenFault::Broken => VisitFault::BrokenBucket,
            OpenFault::OutOfMemory => VisitFault::OutOfMemory,
        }
    }
}

/// Is told of each record of a tree that is the one that was stored, in the order of the nodes, and does something with it to a
/// `target`.
pub trait RecordVisitor<T> {
    /// Whether the visitor may make the second target of the first one when it is told of this record.
    ghost sees: { Self → T → List ℕ → T → Type 0 };

    /// Tells the visitor of a record: a sealed bucket, and then 64 bytes of digests.
    fn see(&self, alloc: Global, target: &mut T, record_bytes: &[u8]) -> Result<(), VisitFault>
        requires { 64 < length record_bytes.now }
        ensures { OnOk result (sees self.now target.old record_bytes.now target.new) };
}

/// Does nothing with a record.
#[derive(Clone, Copy, Debug)]
pub struct NoVisit;

impl RecordVisitor<()> for NoVisit {
    ghost sees = { λ v s r t. t ≡ s };

    fn see(
        &self,
        _alloc: Global,
        _target: &mut (),
        _record_bytes: &[u8],
    ) -> Result<(), VisitFault> {
        Ok(())
    }
}
