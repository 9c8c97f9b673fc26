//! What a process that serves a disk decides before it serves, and once it stops.

ghost use Rattle.std.specs.Prelude.{◌≡◌, ◌∷◌, [], IfOk, OnOk, string_bytes};
ghost use Rattle.oram_client.specs.DiskHead.{behind_letters};
ghost use Rattle.oram_keeper.specs.Process.{IsFoundIn, IsTextOf, found_text, kept_records, kept_table};
ghost use Rattle.oram_kept.specs.Text.{Parts};
ghost use Rattle.oram_disk_client.specs.Serving.{IsLinkStop, IsStopFault, Seals, failure_of};
ghost use Rattle.oram_geometry.specs.Sizes.{trees_of};

use crate::disk_files::{KeptDisk, kept_disk, named, take_lock, unkept, unread_fault};
use crate::failures::kept_failure;
use crate::host_faults::host_fault;
use oram_bucket::{ChaChaSeal, PlainSeal};
use oram_cli::StateLock;
use oram_client::{Head, Keys, NamedFiles, SealerKind, TITLE_LEN, Trouble};
use oram_disk_host::{Fault, FaultKind};
use oram_geometry::Device;
use oram_keeper::{KeepFailure, PairKeeper, open_kept};
use oram_redo::{Syncs, SystemPair};
use oram_session::ChaChaTape;
use oram_settings::DiskSettings;
use std::alloc::Global;
use std::io::ErrorKind;
use std::marker::Model;

/// The sealer of a disk.
#[derive(Clone, Copy)]
pub enum DiskSealer {
    Plain(PlainSeal),
    ChaCha20(ChaChaSeal),
}

/// Returns the sealer that the head of a disk names, with the sealer's key of the disk.
pub fn sealer_in(head: &Head, keys: &Keys) -> DiskSealer
    ensures { Seals head.now.sealer keys.now.sealer.0 result }
{
    match head.sealer {
        SealerKind::Plain => DiskSealer::Plain(PlainSeal),
        SealerKind::ChaCha20 => DiskSealer::ChaCha20(ChaChaSeal { key: keys.sealer.0 }),
    }
}

/// Returns the tape of a disk, from the tape's key of the disk.
pub fn tape_for(keys: &Keys, device: &Device) -> ChaChaTape
    ensures key { result.key ≡ keys.now.tape.0 }
    ensures trees { result.trees ≡ trees_of device.now }
{
    ChaChaTape {
        key: keys.tape.0,
        trees: device.trees(),
    }
}

/// What the parts of a disk that has stopped tell.
#[derive(Clone, Copy, Debug)]
pub struct Stop {
    /// Why the keeper couldn't keep a process, if it couldn't.
    pub unkept: Option<KeepFailure>,
    /// Whether no access is left.
    pub is_used_up: bool,
    /// Whether the core has failed.
    pub has_failed: bool,
    /// Why the link has given up, if it has.
    pub trouble: Option<Trouble>,
}

/// Returns the fault of a disk that has stopped because its link returned a fault.
fn link_stop_fault(
    alloc: Global,
    settings: &DiskSettings,
    has_failed: bool,
    trouble: Option<Trouble>,
) -> Fault
    ensures { IsLinkStop settings.now has_failed trouble result }
{
    match trouble {
        Some(_) => host_fault(alloc, trouble, settings),
        None => {
            if has_failed {
                host_fault(alloc, None, settings)
            } else {
                // The link returns a fault without giving up only if memory ran out.
                Fault::OutOfMemory
            }
        }
    }
}

/// Returns the fault of a disk that has stopped.
pub fn stop_fault(alloc: Global, settings: &DiskSettings, stop: Stop) -> Fault
    ensures { IsStopFault settings.now stop.unkept stop.is_used_up stop.has_failed stop.trouble result }
{
    let state = settings.state.as_str();
    match stop.unkept {
        Some(failure) => unkept(alloc, FaultKind::StateNotKept, state, failure),
        None => {
            if stop.is_used_up {
                named(alloc, FaultKind::UsedUp, state)
            } else {
                link_stop_fault(alloc, settings, stop.has_failed, stop.trouble)
            }
        }
    }
}

/// A disk whose lock this process holds.
#[derive(Drop)]
pub struct LockedDisk {
    settings: DiskSettings,
    lock: StateLock,
}

impl Model for LockedDisk {
    ghost use Rattle.oram_settings.specs.declared.disk_file.DiskSettings.{DiskSettings};

    ghost Value = { DiskSettings };

    ghost view = { λ disk. disk.settings };
}

impl LockedDisk {
    /// Takes the lock of the disk with these settings.
    pub fn take(rt: &HostRuntime, settings: DiskSettings) -> Result<LockedDisk, Fault>
        ensures { IfOk result (λ disk. disk ≡ settings) }
    {
        let lock = take_lock(rt, settings.state.as_str())?;
        Ok(LockedDisk { settings, lock })
    }

    /// Returns the settings of the disk.
    pub(crate) fn settings(&self) -> &DiskSettings
        ensures { result.now ≡ self.now }
    {
        &self.settings
    }

    /// Looks whether a failure of the disk is kept. Fails with [`FaultKind::Failed`] if one is, and with the system's reason if that
    /// can't be found out.
    pub fn unfailed<N: NamedFiles>(self, alloc: Global, files: &N) -> Result<UnfailedDisk, Fault>
        ensures same { IfOk result (λ disk. disk ≡ self) }
        ensures looked { OnOk result (N.unread files.now (failure_of (string_bytes self.state)) ErrorKind.NotFound) }
    {
        match kept_failure(alloc, files, self.settings.state.as_str())? {
            None => Ok(UnfailedDisk { disk: self }),
            Some(_) => Err(named(alloc, FaultKind::Failed, self.settings.state.as_str())),
        }
    }
}

/// A disk whose lock this process holds, and which has no failure that is kept. Nobody goes on from the state that isn't read by this
/// type, so nobody does before both are known: otherwise another process could still advance the state, and this one would go on from
/// an older one.
#[derive(Drop)]
pub struct UnfailedDisk {
    disk: LockedDisk,
}

impl Model for UnfailedDisk {
    ghost use Rattle.oram_settings.specs.declared.disk_file.DiskSettings.{DiskSettings};

    ghost Value = { DiskSettings };

    ghost view = { λ disk. disk.disk };
}

impl UnfailedDisk {
    /// Returns the settings of the disk.
    pub fn settings(&self) -> &DiskSettings
        ensures { result.now ≡ self.now }
    {
        &self.disk.settings
    }

    /// Opens the files of the disk's state. Returns what is kept, and the keeper that goes on with them: with `sync` in the
    /// settings, what it keeps outlives a loss of power.
    pub fn open_state(&self, rt: &HostRuntime) -> Result<(PairKeeper<SystemPair>, KeptDisk), Fault>
        // Nothing but this process is read back by the keeper.
        ensures process { IfOk result (λ opened. (p : Parts) × (opened.0.keeper.texts ≡ p ∷ []) × IsTextOf (behind_letters opened.1.head []) (found_text opened.1.process) p) }
        // Its records are those that the keeper kept last.
        ensures records { IfOk result (λ opened. opened.1.process.records.items ≡ kept_records opened.0) }
        // Its table is the one that the keeper kept last.
        ensures table { IfOk result (λ opened. (p : Parts) × IsFoundIn opened.1.process p × (p.table ≡ kept_table opened.0)) }
    {
        let alloc = rt.alloc();
        let state = self.disk.settings.state.as_str();
        let syncs = if self.disk.settings.sync {
            Syncs::Made
        } else {
            Syncs::LeftOut
        };
        match open_kept(rt, alloc, state, TITLE_LEN, syncs) {
            Ok((keeper, process)) => {
                let kept = kept_disk(alloc, keeper.title(), process, state)?;
                Ok((keeper, kept))
            }
            Err(fault) => Err(unread_fault(rt, fault, state)),
        }
    }
}
