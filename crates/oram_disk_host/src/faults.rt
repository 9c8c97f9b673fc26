//! How the program ends if it can't go on.

ghost use Rattle.std.specs.Prelude.{◌≡◌, ◌++◌};
ghost use Rattle.oram_host.specs.Transfers.{Begins};
ghost use Rattle.oram_disk_host.specs.Faults as spec;

use crate::kinds::FaultKind;
use oram_cli::{FileFault, FileReason, put_between};
use oram_store::StoreFault;
use std::alloc::AllocError;
use std::fmt;
use std::io::Write;

/// Why the program ends.
#[derive(Drop)]
pub enum Fault {
    /// A fault of a kind, with the name or the address that it is about.
    About(FaultKind, String),
    OutOfMemory,
    /// No more connections can be accepted.
    Accept,
    /// The system gives no random bytes.
    Random,
}

impl From<AllocError> for Fault {
    ghost use Rattle.oram_disk_host.specs.declared.faults.Fault.TheVariants.{OutOfMemory};

    ghost from_gives = { λ _ fault. fault ≡ OutOfMemory };

    fn from(_error: AllocError) -> Fault {
        Fault::OutOfMemory
    }
}

impl From<FileFault> for Fault {
    ghost use Rattle.oram_disk_host.specs.Faults.{file_fault};

    ghost from_gives = { λ why fault. fault ≡ file_fault why };

    fn from(why: FileFault) -> Fault {
        match why {
            FileFault::File(name, reason) => Fault::About(FaultKind::File(reason), name),
            FileFault::OutOfMemory => Fault::OutOfMemory,
        }
    }
}

/// Returns the program's fault if the store in the file `name` can't be opened, or has stopped.
pub fn store_fault(name: String, why: StoreFault) -> Fault
    ensures { result ≡ spec.store_fault why name }
{
    let kind = match why {
        StoreFault::Busy => FaultKind::Busy,
        StoreFault::Missing => FaultKind::NoFile,
        StoreFault::Exists => FaultKind::FileExists,
        StoreFault::NewFileTaken => FaultKind::NewFileTaken,
        StoreFault::NewLogTaken => FaultKind::NewLogTaken,
        StoreFault::NotABucketFile => FaultKind::NotABucketFile,
        StoreFault::OlderVersion => FaultKind::OlderFile,
        StoreFault::NewerKind => FaultKind::NewerFile,
        StoreFault::WithoutLog => FaultKind::WithoutLog,
        StoreFault::LogOfAnotherFile => FaultKind::LogOfAnotherFile,
        StoreFault::LogWithoutFile => FaultKind::LogWithoutFile,
        StoreFault::LogOlder => FaultKind::LogOlder,
        StoreFault::LogNewer => FaultKind::LogNewer,
        StoreFault::CutShort => FaultKind::CutShort,
        StoreFault::Damaged => FaultKind::Damaged,
        StoreFault::LogDamaged => FaultKind::LogDamaged,
        StoreFault::NoRoom => FaultKind::File(FileReason::DiskFull),
        StoreFault::Io | StoreFault::Closed => FaultKind::File(FileReason::Other),
        StoreFault::OutOfMemory => return Fault::OutOfMemory,
    };
    Fault::About(kind, name)
}

impl Fault {
    /// Returns the line in three parts: the text before a name, the name, and the text after it.
    fn texts(&self) -> (&str, &str, &str)
        ensures { result.0.now ++ result.1.now ++ result.2.now ≡ spec.line_of self.now }
    {
        match self {
            Fault::About(kind, name) => (kind.front(), name.as_str(), kind.rest()),
            Fault::OutOfMemory => ("oramdisk: ", "out of memory", "\n"),
            Fault::Accept => (
                "oramdisk: ",
                "can't accept connections",
                ": start it again\n",
            ),
            Fault::Random => (
                "oramdisk: ",
                "the system gives no random bytes",
                ": start it again\n",
            ),
        }
    }

    /// Returns the exit status.
    fn status(&self) -> u8
        ensures { result ≡ spec.status_of self.now }
    {
        match self {
            Fault::About(kind, _) => kind.status(),
            Fault::OutOfMemory => 3,
            Fault::Accept => 5,
            Fault::Random => 15,
        }
    }
}

impl fmt::Debug for Fault {
    fn fmt<W: fmt::Write>(&self, f: &mut fmt::Formatter<W>) -> fmt::Result {
        let (front, name, rest) = self.texts();
        f.write_str(front)?;
        f.write_str(name)?;
        f.write_str(rest)
    }
}

/// Writes the line of a fault, as far as the writer takes it, and returns the exit status. Allocates nothing.
pub fn report_fault<W: Write>(writer: &mut W, fault: &Fault) -> u8
    // It writes the whole line, unless the writer fails.
    ensures line { Begins (W.contents writer.old) (W.contents writer.new) (spec.line_of fault.now) }
    ensures status { result ≡ spec.status_of fault.now }
{
    let (front, name, rest) = fault.texts();
    let _passed_over = put_between(writer, front.as_bytes(), name.as_bytes(), rest.as_bytes());
    fault.status()
}
