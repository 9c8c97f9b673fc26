//! Formats a disk.
//!
//! First the client hashes the records that an empty disk has, and makes the disk's state with what it needs of them. Only then it
//! introduces the disk to its host. So a formatting that is broken off before the state is there has sent nothing, and one that is broken
//! off later is finished by formatting once more.

ghost use Rattle.std.specs.Prelude.{◌≡◌, ◌≢◌, ◌↔◌, ◌⊎◌, ◌%◌, IfErr, IfOk, IsTrue, OnErr, OnOk};
ghost use Rattle.oram_disk_client.specs.Faults.{IsAbout, IsOfKind, IsPairFault};
ghost use Rattle.oram_disk_client.specs.Formatting.{IsUnused};
ghost use Rattle.oram_rounds.specs.Batches.{texts};
ghost use Rattle.oram_stamps.specs.Known.{first_stamp, settled};
ghost use Rattle.oram_stamps.specs.Note.{note_text};

use crate::disk_files::{
    KeptDisk, disk_in, keys_in, named, pair_fault, process_for, read_disk, sealer_of, take_lock,
    unkept,
};
use crate::failures::forget_failure;
use crate::hashing::hashed;
use crate::introducing::introduce_disk;
use crate::serving::{DiskSealer, sealer_in};
use oram_bucket::Sealer;
use oram_client::{DiskKey, Head, Keys, Salt, title_of};
use oram_core::Core;
use oram_disk_host::{Fault, FaultKind};
use oram_geometry::Device;
use oram_keeper::{KeepFailure, check_free, make_kept};
use oram_pair::PairFault;
use oram_redo::RedoError;
use oram_rounds::{KeptCore, LinkRecords, RecordChanges, encode_kept};
use oram_settings::{
    DiskSettings, SECTOR, begun_text, near_levels, sectors_complaint, stored_bytes,
};
use oram_stamps::{Known, encode_note};
use std::alloc::{AllocError, Global};
use std::io;
use std::random::RandomSource;

/// Prints how many bytes of records will be hashed.
fn print_beginning<R: Eprint + AllocGlobal>(rt: &R, stored: u64) -> io::Result<()> {
    let text = begun_text(rt.alloc(), stored)?;
    rt.eprint(text.as_str())
}

/// Returns the fault that the files of a new disk's state couldn't be made.
fn unmade(alloc: Global, fault: PairFault, state: &str) -> Fault
    // A full disk, or a call that failed or wasn't permitted, leaves the new disk without a state.
    ensures not_made { (fault ≡ PairFault.NoRoom) ⊎ (fault ≡ PairFault.Io) ⊎ (fault ≡ PairFault.NotPermitted) → IsOfKind FaultKind.StateNotMade result }
    ensures others { fault ≢ PairFault.NoRoom → fault ≢ PairFault.Io → fault ≢ PairFault.NotPermitted → IsPairFault fault state.now result }
{
    let error = match fault {
        PairFault::NoRoom => RedoError::NoRoom,
        PairFault::Io | PairFault::NotPermitted => RedoError::Failed,
        fault => return pair_fault(alloc, fault, state),
    };
    let failure = KeepFailure { error, errno: None };
    unkept(alloc, FaultKind::StateNotMade, state, failure)
}

/// Returns the note of a new disk: its host has the first stamps, and nothing was sent since.
fn new_note(alloc: Global) -> Result<Vec<u8>, AllocError>
    ensures { IfOk result (λ note. note.items ≡ note_text (settled first_stamp)) }
{
    encode_note(alloc, &Known::fresh(alloc)?)
}

/// Makes the state of a new disk with this core, and with the records that its client keeps.
fn make_state<S: Sealer>(
    rt: &HostRuntime,
    core: &Core<S>,
    records: &[u8],
    head: &Head,
    state: &str,
) -> Result<(), Fault> {
    let alloc = rt.alloc();
    let text = encode_kept(alloc, &[], &new_note(alloc)?, records, core)?;
    let records = LinkRecords {
        bytes: records,
        changes: RecordChanges::Any,
    };
    let (title, process) = (
        title_of(head),
        text.with_table(core.table(), core.changes(), records),
    );
    match make_kept(rt, alloc, state, &title, &process) {
        Ok(()) => Ok(()),
        Err(fault) => Err(unmade(alloc, fault, state)),
    }
}

/// Hashes the records of a new disk, makes its state, and then introduces it to its host.
fn format_with<S: Sealer>(
    rt: &HostRuntime,
    device: Device,
    sealer: S,
    head: &Head,
    keys: &Keys,
    settings: &DiskSettings,
) -> Result<(), Fault> {
    let _passed_over = print_beginning(rt, stored_bytes(&device, settings.sealer));
    let near = near_levels(&device, sealer.overhead(), settings.near);
    let (core, records) = hashed(rt, device, sealer, near)?;
    make_state(rt, &core, &records, head, settings.state.as_str())?;
    introduce_disk(rt, core.device(), core.overhead(), keys, settings)
}

/// Formats a disk that has no state yet.
fn format_new(
    rt: &HostRuntime,
    device: Device,
    settings: &DiskSettings,
    name: &str,
) -> Result<(), Fault> {
    // A failure that an earlier disk left, which has been removed since, says nothing about this one.
    forget_failure(rt, settings.state.as_str())?;
    let salt = new_salt(rt)?;
    let head = Head::new(&DiskKey(settings.key), salt, sealer_of(settings.sealer));
    let keys = keys_in(rt.alloc(), settings, &head, name)?;
    match sealer_in(&head, &keys) {
        DiskSealer::Plain(sealer) => format_with(rt, device, sealer, &head, &keys, settings),
        DiskSealer::ChaCha20(sealer) => format_with(rt, device, sealer, &head, &keys, settings),
    }
}

/// Returns whether a process is the one that a formatting has kept.
fn is_unused<S: Sealer>(alloc: Global, process: &KeptCore<S>) -> Result<bool, AllocError>
    ensures { IfOk result (λ unused. IsTrue unused ↔ IsUnused (texts process.now.stores.items) process.now.note.items process.now.core.state) }
{
    if !process.stores.is_empty() {
        return Ok(false);
    }
    if process.core.next_ticket() != 0 {
        return Ok(false);
    }
    let note = new_note(alloc)?;
    if process.note.as_slice() != note.as_slice() {
        return Ok(false);
    }
    Ok(true)
}

/// Fails with [`FaultKind::Formatted`] if a process of the disk of `state` was kept since the disk was formatted.
fn check_unused<S: Sealer>(alloc: Global, process: &KeptCore<S>, state: &str) -> Result<(), Fault>
    ensures ok { OnOk result (IsUnused (texts process.now.stores.items) process.now.note.items process.now.core.state) }
    ensures err { IfErr result (λ fault. (fault ≡ Fault.OutOfMemory) ⊎ (IsAbout FaultKind.Formatted state.now fault
        × ¬ IsUnused (texts process.now.stores.items) process.now.note.items process.now.core.state)) }
{
    if is_unused(alloc, process)? {
        return Ok(());
    }
    Err(named(alloc, FaultKind::Formatted, state))
}

/// Introduces a disk to its host that has a state already, if it was never used.
fn introduce_again<S: Sealer>(
    rt: &HostRuntime,
    sealer: S,
    kept: &KeptDisk,
    keys: &Keys,
    settings: &DiskSettings,
    name: &str,
) -> Result<(), Fault> {
    let alloc = rt.alloc();
    let process = process_for(alloc, settings, name, kept, sealer)?;
    check_unused(alloc, &process, settings.state.as_str())?;
    let core = &process.core;
    introduce_disk(rt, core.device(), core.overhead(), keys, settings)
}

/// Finishes the formatting of a disk that has a state already.
fn format_again(rt: &HostRuntime, settings: &DiskSettings, name: &str) -> Result<(), Fault> {
    let kept = read_disk(rt, settings.state.as_str())?;
    let keys = keys_in(rt.alloc(), settings, &kept.head, name)?;
    match sealer_in(&kept.head, &keys) {
        DiskSealer::Plain(sealer) => introduce_again(rt, sealer, &kept, &keys, settings, name),
        DiskSealer::ChaCha20(sealer) => introduce_again(rt, sealer, &kept, &keys, settings, name),
    }
}

/// Draws a random salt.
fn new_salt<R: RandomSource>(rt: &R) -> Result<Salt, Fault> {
    let mut salt = [0; 32];
    match rt.fill_bytes(&mut salt) {
        Ok(()) => Ok(Salt(salt)),
        Err(_) => Err(Fault::Random),
    }
}

/// Returns whether the state of a disk can be made. If it can't, returns `false` if there is something at its place already, and a fault if
/// something is in the way of its log, or where the two are made.
fn is_unformatted(rt: &HostRuntime, state: &str) -> Result<bool, Fault> {
    let alloc = rt.alloc();
    match check_free(rt, alloc, state) {
        Ok(()) => Ok(true),
        Err(PairFault::Exists) => Ok(false),
        Err(fault) => Err(pair_fault(alloc, fault, state)),
    }
}

/// Fails if the size in the settings of the file `name` isn't a whole number of sectors.
fn check_sectors(alloc: Global, settings: &DiskSettings, name: &str) -> Result<(), Fault>
    ensures ok { OnOk result (settings.now.size % SECTOR ≡ 0) }
    ensures fault { OnErr result (settings.now.size % SECTOR ≢ 0) }
{
    if settings.size % SECTOR == 0 {
        return Ok(());
    }
    let complaint = sectors_complaint(alloc, name)?;
    Err(Fault::About(FaultKind::Settings, complaint))
}

/// Formats the disk whose settings are in the file `name`. Refuses a size that isn't a whole number of sectors. A disk whose state is there
/// already is introduced to its host again if it was never used; any other one is refused, and its state is left as it is. Also refuses a
/// disk whose state can't be looked up.
pub fn format_disk(rt: &HostRuntime, name: String) -> Result<(), Fault> {
    let (settings, device) = disk_in(rt, name.as_str())?;
    check_sectors(rt.alloc(), &settings, name.as_str())?;
    let _lock = take_lock(rt, settings.state.as_str())?;
    if is_unformatted(rt, settings.state.as_str())? {
        format_new(rt, device, &settings, name.as_str())
    } else {
        format_again(rt, &settings, name.as_str())
    }
}
