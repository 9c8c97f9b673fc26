//! Why a program ends that can't use its disk's host.

ghost use Rattle.std.specs.Prelude.{◌≡◌, None, Some, string_bytes};
ghost use Rattle.oram_disk_client.specs.Faults.{IsAbout};
ghost use Rattle.oram_disk_client.specs.HostFaults.{kind_for, kind_of};

use crate::disk_files::named;
use oram_cli::HostFault;
use oram_client::{IntroductionFault, Trouble};
use oram_disk_host::{Fault, FaultKind};
use oram_settings::DiskSettings;
use std::alloc::Global;

/// Returns the kind of fault for the trouble for which a link has given up.
pub fn host_fault_kind(trouble: Option<Trouble>) -> FaultKind
    ensures { result ≡ kind_of trouble }
{
    match trouble {
        Some(Trouble::NoRoom) => FaultKind::Host(HostFault::NoRoom),
        Some(Trouble::AnotherDisk) => FaultKind::Host(HostFault::AnotherDisk),
        Some(Trouble::NoDisk) => FaultKind::Host(HostFault::NoDisk),
        Some(Trouble::OlderState) => FaultKind::ReplacedState,
        Some(Trouble::OlderHost) => FaultKind::OlderHost,
        Some(Trouble::NoStamps) => FaultKind::NoStamps,
        Some(Trouble::OutOfReach(_)) | None => FaultKind::Host(HostFault::OutOfReach),
    }
}

/// Returns the fault of this kind. It is about the host, except if the state is older than what the host has: then it is about the state.
fn fault_about(alloc: Global, kind: FaultKind, settings: &DiskSettings) -> Fault
    ensures state { kind ≡ FaultKind.ReplacedState → IsAbout kind (string_bytes settings.now.state) result }
    ensures host { ¬ (kind ≡ FaultKind.ReplacedState) → IsAbout kind (string_bytes settings.now.host) result }
{
    match kind {
        FaultKind::ReplacedState => named(alloc, kind, settings.state.as_str()),
        _ => named(alloc, kind, settings.host.as_str()),
    }
}

/// Returns the fault for the trouble for which a link has given up. It is about the host, except if the state is older than what
/// the host has: then it is about the state.
pub fn host_fault(alloc: Global, trouble: Option<Trouble>, settings: &DiskSettings) -> Fault
    ensures state { kind_of trouble ≡ FaultKind.ReplacedState → IsAbout (kind_of trouble) (string_bytes settings.now.state) result }
    ensures host { ¬ (kind_of trouble ≡ FaultKind.ReplacedState) → IsAbout (kind_of trouble) (string_bytes settings.now.host) result }
{
    fault_about(alloc, host_fault_kind(trouble), settings)
}

/// Returns the kind of fault for a disk that wasn't introduced to its host, or `None` if memory ran out.
fn introduction_fault_kind(fault: IntroductionFault) -> Option<FaultKind>
    ensures { result ≡ kind_for fault }
{
    match fault {
        IntroductionFault::Taken => Some(FaultKind::Host(HostFault::Taken)),
        IntroductionFault::Used => Some(FaultKind::ReplacedState),
        IntroductionFault::NoRoom => Some(FaultKind::Host(HostFault::NoRoom)),
        IntroductionFault::Refused | IntroductionFault::NotStored => {
            Some(FaultKind::Host(HostFault::Refused))
        }
        IntroductionFault::Link => Some(FaultKind::Host(HostFault::OutOfReach)),
        IntroductionFault::OutOfMemory => None,
    }
}

/// Returns the fault for a disk that wasn't introduced to its host. It is about the host, except if the state is older than what the host
/// has: then it is about the state.
pub(crate) fn introduction_fault(
    alloc: Global,
    fault: IntroductionFault,
    settings: &DiskSettings,
) -> Fault
    ensures state { kind_for fault ≡ Some FaultKind.ReplacedState → IsAbout FaultKind.ReplacedState (string_bytes settings.now.state) result }
    ensures host { (kind : FaultKind) → kind_for fault ≡ Some kind → ¬ (kind ≡ FaultKind.ReplacedState) → IsAbout kind (string_bytes settings.now.host) result }
    ensures memory { kind_for fault ≡ None → result ≡ Fault.OutOfMemory }
{
    match introduction_fault_kind(fault) {
        Some(kind) => fault_about(alloc, kind, settings),
        None => Fault::OutOfMemory,
    }
}
