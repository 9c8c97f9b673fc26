//! How a reading of a whole disk ends.

ghost use Rattle.std.specs.Prelude.{◌≡◌, string_bytes};
ghost use Rattle.oram_disk_client.specs.Faults.{IsAbout, IsOfKind};
ghost use Rattle.oram_disk_client.specs.Reading.{IsReadFault, IsStoreFault, are_foreign, end_of};

use crate::disk_files::named;
use crate::findings_text::{Counts, lost_text};
use crate::host_faults::host_fault;
use oram_client::Trouble;
use oram_disk_host::{Fault, FaultKind};
use oram_export::ReadFault;
use oram_session::LinkFault;
use oram_settings::DiskSettings;
use std::alloc::Global;

/// What becomes of an image once a disk was read.
#[derive(Clone, Copy, Debug, PartialEq, Eq)]
pub(crate) enum ExportEnd {
    /// It has all of the disk, and gets its name.
    Given,
    /// It lacks what was in lost records, and is removed.
    Discarded,
    /// It lacks what was in lost records, and gets its name all the same.
    GivenInPart,
}

/// Returns what becomes of an image of a disk of whose records `lost` are lost. If `is_salvage`, it may lack what was in them.
pub(crate) fn export_end(lost: u64, is_salvage: bool) -> ExportEnd
    ensures { result ≡ end_of lost is_salvage }
{
    match (lost, is_salvage) {
        (0, _) => ExportEnd::Given,
        (_, true) => ExportEnd::GivenInPart,
        (_, false) => ExportEnd::Discarded,
    }
}

/// Returns the fault that a disk has failed.
fn failed_disk(alloc: Global, settings: &DiskSettings) -> Fault
    ensures { IsAbout FaultKind.Failed (string_bytes settings.now.state) result }
{
    named(alloc, FaultKind::Failed, settings.state.as_str())
}

/// Returns the fault that a host gives answers that no host of this version gives.
fn other_answer(alloc: Global, settings: &DiskSettings) -> Fault
    ensures { IsAbout FaultKind.OtherAnswer (string_bytes settings.now.host) result }
{
    named(alloc, FaultKind::OtherAnswer, settings.host.as_str())
}

/// Returns the program's fault for one of a reading. `trouble` says why the link to the host gave up, if it did.
pub(crate) fn read_fault(
    alloc: Global,
    fault: ReadFault,
    trouble: Option<Trouble>,
    settings: &DiskSettings,
) -> Fault
    ensures { IsReadFault fault trouble settings.now result }
{
    match fault {
        ReadFault::Link(LinkFault::OutOfMemory) => Fault::OutOfMemory,
        ReadFault::Link(_) => host_fault(alloc, trouble, settings),
        ReadFault::Failed => failed_disk(alloc, settings),
        ReadFault::BadAnswer | ReadFault::Refused(_) | ReadFault::BrokenBucket => {
            other_answer(alloc, settings)
        }
        ReadFault::SinkStopped | ReadFault::OutOfMemory => Fault::OutOfMemory,
    }
}

/// Returns whether the STOREs of a state aren't those of its disk, if sending them before a reading had this fault: their link refuses them, but
/// it hasn't given up.
fn are_foreign(fault: ReadFault, trouble: Option<Trouble>) -> bool
    ensures { result ≡ are_foreign fault trouble }
{
    match (fault, trouble) {
        (ReadFault::Link(LinkFault::Closed), None) => true,
        _ => false,
    }
}

/// Returns the program's fault for the STOREs of a state that weren't carried out before a reading. `trouble` says why the link to the host
/// gave up, if it did.
pub(crate) fn store_fault(
    alloc: Global,
    fault: ReadFault,
    trouble: Option<Trouble>,
    settings: &DiskSettings,
) -> Fault
    ensures { IsStoreFault fault trouble settings.now result }
{
    if are_foreign(fault, trouble) {
        return named(alloc, FaultKind::NotADisk, settings.state.as_str());
    }
    read_fault(alloc, fault, trouble, settings)
}

/// Returns a fault of this kind about the records that a host has lost.
pub(crate) fn lost_fault(
    alloc: Global,
    kind: FaultKind,
    settings: &DiskSettings,
    counts: Counts,
) -> Fault
    ensures { IsOfKind kind result }
{
    match lost_text(alloc, settings.host.as_str(), counts) {
        Ok(text) => Fault::About(kind, text),
        Err(_) => Fault::OutOfMemory,
    }
}
