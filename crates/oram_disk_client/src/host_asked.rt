//! A process asks its host whether it keeps the disk, before it sends anything else.

ghost use Rattle.std.specs.Prelude.{◌≡◌, ◌≢◌, ◌⊎◌, [], IfOk, IfErr, IsOk, Result, length};
ghost use Rattle.oram_client.specs.Reconnect.{dialer_kind};
ghost use Rattle.oram_client.specs.declared.dialer.Trouble.{Trouble};
ghost use Rattle.oram_disk_client.specs.Faults.{IsAbout};
ghost use Rattle.oram_disk_client.specs.FormattedWith.{HasNearLevels};
ghost use Rattle.oram_disk_client.specs.HostAsked.{EndsAsked, HasAsked, HasNoLink, IsHostCheck, IsPathLink};
ghost use Rattle.oram_geometry.specs.Sizes.{record_len_of};
ghost use Rattle.oram_near.specs.NearCalls.{ArePathBodies};
ghost use Rattle.oram_rounds.specs.Batches.{texts};

use crate::disk_files::{formatted_levels, named};
use crate::host_faults::host_fault;
use oram_bucket::Sealer;
use oram_client::{Dial, HostWatch, ReconnectLink, Trouble};
use oram_core::Core;
use oram_disk_host::{Fault, FaultKind};
use oram_near::{FormattedRecords, NearLink, NearRecords};
use oram_rounds::{BatchLink, KeptCore, RoundLink, record_len};
use oram_session::LinkFault;
use oram_settings::DiskSettings;
use std::alloc::Global;

/// Returns the program's result for what a link learnt of its host.
fn host_check(
    alloc: Global,
    asked: Result<(), Trouble>,
    settings: &DiskSettings,
) -> Result<(), Fault>
    ensures { IsHostCheck asked settings.now result }
{
    match asked {
        Ok(()) => Ok(()),
        Err(trouble) => {
            if trouble.lacks_memory() {
                Err(Fault::OutOfMemory)
            } else {
                Err(host_fault(alloc, Some(trouble), settings))
            }
        }
    }
}

/// Asks the host whether it keeps this disk, and compares its stamps with what is known of them.
pub(crate) fn ask_host<D: Dial, W: HostWatch>(
    alloc: Global,
    link: &mut ReconnectLink<D, W>,
    settings: &DiskSettings,
) -> Result<(), Fault>
    ensures { (asked : Result Unit Trouble) × HasAsked (dialer_kind D.opens D.fails D.pauses D.reads D.carries) link.old asked link.new × IsHostCheck asked settings.now result }
{
    let asked = link.reach(alloc);
    host_check(alloc, asked, settings)
}

/// The link of a disk to its host, for whole paths: the client keeps the near records itself, and makes those that the host doesn't have.
pub type PathLink<S, D, W> = NearLink<ReconnectLink<D, W>, FormattedRecords<S>>;

/// A process that was kept, with the link to its host, which has answered.
#[derive(Drop)]
pub struct ReachedCore<S: Sealer, D: Dial + Drop, W: HostWatch + Drop> {
    pub core: Core<S>,
    pub link: RoundLink<PathLink<S, D, W>>,
}

/// Returns the link for whole paths of a process that was kept with these records and STOREs, and with so many near levels.
///
/// The changes of near records are counted from the records that were kept. So they are forgotten before the STOREs are laid over the near
/// records, and not behind that: the next keeping has to write what these STOREs change.
fn path_link<S: Sealer, D: Dial + Drop, W: HostWatch + Drop>(
    alloc: Global,
    link: ReconnectLink<D, W>,
    core: &Core<S>,
    sealer: S,
    levels: u8,
    records: Vec<u8>,
    stores: &[Vec<u8>],
) -> Result<PathLink<S, D, W>, LinkFault>
    requires sealer { core.now.sealer ≡ sealer }
    requires levels { HasNearLevels core.now.device (S.cipher sealer).overhead (length records.items) levels }
    ensures ok { IfOk result (λ l. (l.inner ≡ link) × IsPathLink core.now.device sealer (S.cipher sealer).overhead records.items (texts stores.now) l) }
    // The link tells of each near record that differs from those that were kept.
    ensures tells { IfOk result (λ l. ⟦<NearLink<ReconnectLink<D, W>, FormattedRecords<S>> as BatchLink>⟧.tells l records.items) }
    ensures err { IfErr result (λ fault. (fault ≡ LinkFault.OutOfMemory)
        ⊎ ((fault ≡ LinkFault.Closed) × ¬ ArePathBodies core.now.device (record_len_of core.now.device (S.cipher sealer).overhead) (texts stores.now))) }
{
    let device = core.device();
    let mut near = NearRecords::new(alloc, device, record_len(core), levels, records)?;
    near.forget_changes();
    let empty = FormattedRecords::new(device.copy(), sealer);
    NearLink::with_unsure(alloc, link, empty, device.copy(), near, stores)
}

/// Returns the fault for the state `state`, of which no link for whole paths can be made.
fn unlinked(alloc: Global, fault: LinkFault, state: &str) -> Fault
    ensures memory { fault ≡ LinkFault.OutOfMemory → result ≡ Fault.OutOfMemory }
    ensures others { fault ≢ LinkFault.OutOfMemory → IsAbout FaultKind.NotADisk state.now result }
{
    match fault {
        LinkFault::OutOfMemory => Fault::OutOfMemory,
        _ => named(alloc, FaultKind::NotADisk, state),
    }
}

/// Returns a process that was kept, with the link to its host, at which its STOREs wait. It first asks the host whether it keeps this
/// disk, and compares its stamps with what is known of them. Nothing else is sent.
pub fn reached<S: Sealer, D: Dial + Drop, W: HostWatch + Drop>(
    alloc: Global,
    mut link: ReconnectLink<D, W>,
    settings: &DiskSettings,
    kept: KeptCore<S>,
    records: Vec<u8>,
    sealer: S,
) -> Result<ReachedCore<S, D, W>, Fault>
    requires { kept.core.sealer ≡ sealer }
    ensures core { IfOk result (λ both. both.core ≡ kept.core) }
    ensures stores { IfOk result (λ both. (both.link.kept ≡ texts kept.stores.items) × (both.link.held ≡ []) × (both.link.device ≡ kept.core.device)) }
    ensures asked { IfOk result (λ both. (asked : Result Unit Trouble) × HasAsked (dialer_kind D.opens D.fails D.pauses D.reads D.carries) link asked both.link.inner.inner × IsOk asked) }
    // The STOREs that wait are those that count as unsure.
    ensures unsure { IfOk result (λ both. IsPathLink kept.core.device sealer (S.cipher sealer).overhead records.items both.link.kept both.link.inner) }
    // The link tells of each near record that differs from those that were kept.
    ensures tells { IfOk result (λ both. ⟦<NearLink<ReconnectLink<D, W>, FormattedRecords<S>> as BatchLink>⟧.tells both.link.inner records.items) }
    ensures err { IfErr result (λ fault. (fault ≡ Fault.OutOfMemory)
        ⊎ (EndsAsked (dialer_kind D.opens D.fails D.pauses D.reads D.carries) link settings.now fault
        ⊎ HasNoLink kept.core.device (S.cipher sealer).overhead (length records.items) (texts kept.stores.items) settings.now fault)) }
{
    ask_host(alloc, &mut link, settings)?;
    let state = settings.state.as_str();
    let KeptCore { stores, core, .. } = kept;
    let levels = formatted_levels(alloc, &core, records.len(), state)?;
    let link = match path_link(alloc, link, &core, sealer, levels, records, &stores) {
        Ok(link) => link,
        Err(fault) => return Err(unlinked(alloc, fault, state)),
    };
    let device = core.device().copy();
    match RoundLink::with_kept(alloc, link, device, record_len(&core), stores) {
        Some(link) => Ok(ReachedCore { core, link }),
        None => Err(named(alloc, FaultKind::NotADisk, state)),
    }
}
