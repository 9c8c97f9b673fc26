//! The files of a disk at its client.

ghost use Rattle.std.specs.Prelude.{◌≡◌, ◌≢◌, ◌≤◌, ◌↔◌, ◌⊎◌, ◌++◌, [], codes, string_bytes, ℕ, List, None, Some, IfErr, IfOk, IsTrue, MatchOption, OnOk, length};
ghost use Rattle.oram_client.specs.DiskHead.{IsHead, behind_letters};
ghost use Rattle.oram_client.specs.declared.disk_head.Head.{Head};
ghost use Rattle.oram_client.specs.Keys as derived;
ghost use Rattle.oram_core.specs.Core.{scheme_of};
ghost use Rattle.oram_disk_client.specs.Faults.{HasOlderLetters, IsAbout, IsKindFor, IsNoProcessFor, IsOfKind, IsPairFault, pair_fault_of};
ghost use Rattle.oram_disk_client.specs.FormattedWith.{HasNearLevels, HasNoNearLevels, IsChanged, IsUnfit, was_text};
ghost use Rattle.oram_disk_client.specs.Sealers as spec;
ghost use Rattle.oram_geometry.specs.Sizes.{depth_of};
ghost use Rattle.oram_geometry.specs.declared.Sizes.{Sizes};
ghost use Rattle.oram_keeper.specs.Process.{found_text};
ghost use Rattle.oram_rounds.specs.Batches.{texts};
ghost use Rattle.oram_rounds.specs.Files.{IsFileOf, IsFileWith, check_of};
ghost use Rattle.oram_semantics.specs.State.{State};
ghost use Rattle.oram_settings.specs.Differences.{AgreeAt, IsFirstDifference, fixed_keys};
ghost use Rattle.oram_settings.specs.Differences as formatted;

use oram_bucket::Sealer;
use oram_cli::{FileReason, InputFault, LockFault, StateLock, call_fault, linked_name, lock_state};
use oram_client::{DiskKey, Head, Keys, SealerKind, TITLE_LEN, WrongKey, head_in, keys_for};
use oram_core::Core;
use oram_disk_host::{Fault, FaultKind, settings_text};
use oram_empty::digests_len;
use oram_geometry::Device;
use oram_keeper::{FoundProcess, KeepFailure, KeeperFault, OpenFault, ReadProcess, read_kept};
use oram_kept::OpenError;
use oram_pair::PairFault;
use oram_redo::RedoError;
use oram_rounds::{KeptCore, KeptCoreFault, decode_kept};
use oram_settings::{
    DiskSettings, FixedKey, Sealing, device_of, disk_complaint, first_difference, near_len,
    near_levels, numbers_complaint, place_beside, read_disk_settings, relative_to, value_text,
};
use std::alloc::{AllocError, Global};
use std::fs;
use std::io::{self, ErrorKind};
use std::rt::Files;

/// Reads a disk's settings from the text of the file `name`.
fn settings_of(alloc: Global, name: &str, text: &str) -> Result<DiskSettings, Fault> {
    match read_disk_settings(alloc, text) {
        Ok(settings) => Ok(settings),
        Err(InputFault::Bad) => {
            let complaint = disk_complaint(alloc, name, text)?;
            Err(Fault::About(FaultKind::Settings, complaint))
        }
        Err(InputFault::OutOfMemory) => Err(Fault::OutOfMemory),
    }
}

/// Reads the settings in the file `name`, and makes the device that they describe. In the result, the path of the
/// state's file is as seen from the working directory, not from the folder of `name`, and is that of the file itself if the
/// settings name a link to it. So is the path of the socket at which the host is reached, if it is one.
pub fn disk_in<R: Files + AllocGlobal>(
    rt: &R,
    name: &str,
) -> Result<(DiskSettings, Device), Fault> {
    let alloc = rt.alloc();
    let text = settings_text(rt, name)?;
    let text = text.as_str();
    let mut settings = settings_of(alloc, name, text)?;
    settings.host = place_beside(alloc, name, settings.host.as_str())?;
    settings.state = linked_name(rt, relative_to(alloc, name, settings.state.as_str())?)?;
    match device_of(
        settings.size,
        settings.block,
        settings.slots,
        settings.leaf_load,
        settings.table,
    ) {
        Some(device) => Ok((settings, device)),
        None => {
            let complaint = numbers_complaint(alloc, name, text, &settings)?;
            Err(Fault::About(FaultKind::Settings, complaint))
        }
    }
}

/// Returns whether there is anything at a path, even a link that leads nowhere.
pub(crate) fn is_there<R: Files + AllocGlobal>(rt: &R, path: &str) -> Result<bool, Fault> {
    match fs::symlink_metadata(rt, path) {
        Ok(_) => Ok(true),
        Err(error) if error.kind() == ErrorKind::NotFound => Ok(false),
        Err(error) => Err(call_fault(rt.alloc(), path, &error).into()),
    }
}

/// Takes the lock of a disk's state, so that no other process serves, formats or retries that disk.
pub fn take_lock(rt: &HostRuntime, state: &str) -> Result<StateLock, Fault> {
    match lock_state(rt, state) {
        Ok(lock) => Ok(lock),
        Err(LockFault::InUse) => Err(named(rt.alloc(), FaultKind::InUse, state)),
        Err(LockFault::File(fault)) => Err(fault.into()),
    }
}

/// Makes a fault of this kind about `name`.
pub fn named(alloc: Global, kind: FaultKind, name: &str) -> Fault
    ensures { IsAbout kind name.now result }
{
    match String::from_str(alloc, name) {
        Ok(name) => Fault::About(kind, name),
        Err(_) => Fault::OutOfMemory,
    }
}

/// Decodes the core and the STOREs that wait in `process`, which the file `name` holds, with `records` behind it. Fails with
/// [`FaultKind::DamagedState`] if `process` doesn't begin with STOREs and a note, or says another number of bytes of records, and with
/// [`FaultKind::NotADisk`] if it holds no core with this sealer.
fn process_in<S: Sealer>(
    alloc: Global,
    sealer: S,
    process: &[u8],
    records: &[u8],
    name: &str,
) -> Result<KeptCore<S>, Fault>
    ensures sealer { IfOk result (λ kept. kept.core.sealer ≡ sealer) }
    ensures ok { IfOk result (λ kept. IsFileWith (scheme_of S.cipher kept.core) (process.now ++ records.now) (texts kept.stores.items)
        (record { text = kept.note.items; records = records.now }) kept.core.state) }
    ensures check { IfOk result (λ kept. kept.check ≡ check_of (scheme_of S.cipher kept.core) (texts kept.stores.items)
        (record { text = kept.note.items; records = records.now }) kept.core.state) }
    // It returns the process that was kept, unless memory runs out.
    ensures same { (d : Sizes) (stores : List (List ℕ)) (core : State) → (it : IsFileOf (S.cipher sealer).overhead d (process.now ++ records.now) stores core)
        → it.note.records ≡ records.now
        → IfOk result (λ kept. (texts kept.stores.items ≡ stores) × (kept.core.device ≡ d) × (kept.core.state ≡ core) × (kept.note.items ≡ it.note.text)) }
    ensures only { (d : Sizes) (stores : List (List ℕ)) (core : State) → (it : IsFileOf (S.cipher sealer).overhead d (process.now ++ records.now) stores core)
        → it.note.records ≡ records.now → IfErr result (λ fault. fault ≡ Fault.OutOfMemory) }
    ensures fault { IfErr result (IsNoProcessFor process.now records.now name.now) }
{
    match decode_kept(alloc, sealer, process, records) {
        Ok(kept) => Ok(kept),
        Err(KeptCoreFault::OutOfMemory) => Err(Fault::OutOfMemory),
        Err(KeptCoreFault::Torn) => Err(named(alloc, FaultKind::DamagedState, name)),
        Err(KeptCoreFault::Core(_)) => Err(named(alloc, FaultKind::NotADisk, name)),
    }
}

/// What is kept of a disk.
#[derive(Drop)]
pub struct KeptDisk {
    pub head: Head,
    pub process: FoundProcess,
}

/// Returns what is kept of a disk in the file `name`. Fails with [`FaultKind::NotADisk`] if `title` is the title of no disk.
pub fn kept_disk(
    alloc: Global,
    title: &[u8],
    process: FoundProcess,
    name: &str,
) -> Result<KeptDisk, Fault>
    ensures head { IfOk result (λ kept. IsHead kept.head × (title.now ≡ behind_letters kept.head [])) }
    ensures process { IfOk result (λ kept. kept.process ≡ process) }
    ensures fault { IfErr result (λ fault. IsAbout FaultKind.NotADisk name.now fault × ((head : Head) → IsHead head → title.now ≢ behind_letters head [])) }
{
    match head_in(title) {
        Some(head) => Ok(KeptDisk { head, process }),
        None => Err(named(alloc, FaultKind::NotADisk, name)),
    }
}

/// Reads what is kept of a disk in the file `state`, also while a process serves the disk.
pub(crate) fn read_disk(rt: &HostRuntime, state: &str) -> Result<KeptDisk, Fault> {
    let alloc = rt.alloc();
    match read_kept(rt, alloc, state, TITLE_LEN) {
        Ok(ReadProcess { title, process }) => kept_disk(alloc, &title, process, state),
        Err(fault) => Err(unread_fault(rt, fault, state)),
    }
}

/// Returns the kind of the fault for the files of a state that can't be opened, or `None` if memory ran out.
fn kind_of(fault: PairFault) -> Option<FaultKind>
    ensures { IsKindFor fault result }
{
    match fault {
        PairFault::Busy => Some(FaultKind::InUse),
        PairFault::Missing => Some(FaultKind::Unformatted),
        PairFault::Exists => Some(FaultKind::Formatted),
        PairFault::NewFileTaken => Some(FaultKind::NewFileTaken),
        PairFault::NewLogTaken => Some(FaultKind::NewLogTaken),
        PairFault::NotAFile => Some(FaultKind::NotADisk),
        PairFault::OtherKind(letters) => Some(if has_older_letters(&letters) {
            FaultKind::OlderState
        } else {
            FaultKind::NotADisk
        }),
        PairFault::WithoutLog => Some(FaultKind::WithoutLog),
        PairFault::LogOfAnotherFile => Some(FaultKind::LogOfAnotherFile),
        PairFault::LogWithoutFile => Some(FaultKind::LogWithoutFile),
        PairFault::LogOlder => Some(FaultKind::LogOlder),
        PairFault::LogNewer => Some(FaultKind::LogNewer),
        PairFault::CutShort => Some(FaultKind::CutShort),
        PairFault::Damaged | PairFault::LogDamaged => Some(FaultKind::DamagedState),
        PairFault::NoRoom => Some(FaultKind::File(FileReason::DiskFull)),
        PairFault::NotPermitted => Some(FaultKind::File(FileReason::NotPermitted)),
        PairFault::Io => Some(FaultKind::File(FileReason::Other)),
        PairFault::OutOfMemory => None,
    }
}

/// Returns whether a file that begins with these bytes is the state of an older version.
fn has_older_letters(letters: &[u8]) -> bool
    ensures { IsTrue result ↔ HasOlderLetters letters.now }
{
    matches!(
        letters.strip_prefix(b"VIDLAQE"),
        Some([b'1'..=b'6', ..] | [b'C', 1, ..])
    )
}

/// Returns the fault for the files of the state `state` that can't be made or opened.
pub(crate) fn pair_fault(alloc: Global, fault: PairFault, state: &str) -> Fault
    ensures { IsPairFault fault state.now result }
{
    match kind_of(fault) {
        Some(kind) => named(alloc, kind, state),
        None => Fault::OutOfMemory,
    }
}

/// Returns the fault of the files that stands for the reason why no process was read from them.
fn pair_fault_in(fault: OpenFault) -> PairFault
    ensures { result ≡ pair_fault_of fault }
{
    match fault {
        OpenFault::Pair(fault) => fault,
        OpenFault::Keeper(KeeperFault::Files(OpenError::Files(error))) => PairFault::from(error),
        OpenFault::Keeper(KeeperFault::Files(OpenError::NoText)) => PairFault::Damaged,
        OpenFault::Keeper(KeeperFault::NoTitle) => PairFault::NotAFile,
        OpenFault::Keeper(KeeperFault::OutOfMemory) => PairFault::OutOfMemory,
    }
}

/// Returns the fault for the files of the state `state` from which no process was read.
fn open_fault(alloc: Global, fault: OpenFault, state: &str) -> Fault
    ensures { IsPairFault (pair_fault_of fault) state.now result }
{
    pair_fault(alloc, pair_fault_in(fault), state)
}

/// Returns the fault for the files of the state `state` from which no process was read. A link that leads to nothing is there, for
/// example while its disk isn't mounted: then the disk isn't called unformatted.
pub(crate) fn unread_fault(rt: &HostRuntime, fault: OpenFault, state: &str) -> Fault {
    let alloc = rt.alloc();
    if fault != OpenFault::Pair(PairFault::Missing) {
        return open_fault(alloc, fault, state);
    }
    match is_there(rt, state) {
        Ok(true) => named(alloc, FaultKind::File(FileReason::Missing), state),
        Ok(false) => open_fault(alloc, fault, state),
        Err(fault) => fault,
    }
}

/// Returns the keys of the disk with this head, from the key in the settings of the file `name`.
pub fn keys_in(
    alloc: Global,
    settings: &DiskSettings,
    head: &Head,
    name: &str,
) -> Result<Keys, Fault>
    // The key is the one that the disk was formatted with.
    ensures ok { OnOk result (derived.key_check settings.now.key head.now.salt.0 ≡ head.now.key_check.0) }
    ensures wrong { IfErr result (λ fault. (derived.key_check settings.now.key head.now.salt.0 ≢ head.now.key_check.0) × IsAbout FaultKind.WrongKey name.now fault) }
    // Each of the keys is the one for its purpose.
    ensures sealer { IfOk result (λ keys. keys.sealer.0 ≡ derived.bucket_key settings.now.key head.now.salt.0) }
    ensures tape { IfOk result (λ keys. keys.tape.0 ≡ derived.tape_key settings.now.key head.now.salt.0) }
    ensures identity { IfOk result (λ keys. keys.identity.0 ≡ derived.identity settings.now.key head.now.salt.0) }
{
    match keys_for(&DiskKey(settings.key), head) {
        Ok(keys) => Ok(keys),
        Err(WrongKey) => Err(named(alloc, FaultKind::WrongKey, name)),
    }
}

/// Returns the word of the settings for a sealer.
fn sealing_of(sealer: SealerKind) -> Sealing
    ensures { result ≡ spec.sealing_of sealer }
{
    match sealer {
        SealerKind::Plain => Sealing::Plain,
        SealerKind::ChaCha20 => Sealing::ChaCha,
    }
}

/// Returns the sealer for a word of the settings.
pub(crate) fn sealer_of(sealing: Sealing) -> SealerKind
    ensures { spec.sealing_of result ≡ sealing }
{
    match sealing {
        Sealing::Plain => SealerKind::Plain,
        Sealing::ChaCha => SealerKind::ChaCha20,
    }
}

/// Returns a name, and that it was something.
fn was_something(alloc: Global, name: &str) -> Result<String, AllocError>
    ensures { IfOk result (λ text. string_bytes text ≡ name.now ++ codes " was ") }
{
    let mut text = String::from_str(alloc, name)?;
    text.push_str(" was ")?;
    Ok(text)
}

/// Returns the number of near levels of a disk whose state has so many bytes of records: they are the near records, and the digests behind
/// them. Returns `None` if no number of levels gives so many.
fn levels_in<S: Sealer>(core: &Core<S>, records: usize) -> Option<u8>
    ensures { MatchOption result (HasNoNearLevels core.now.device (S.cipher core.now.sealer).overhead records)
        (λ levels. HasNearLevels core.now.device (S.cipher core.now.sealer).overhead records levels) }
{
    let device = core.device();
    let near = records.checked_sub(digests_len(device))? as u64;
    let levels = near_levels(device, core.overhead(), near);
    if near_len(device, core.overhead(), levels) != near {
        return None;
    }
    Some(levels)
}

/// Returns the number of near levels that a disk was formatted with, from the number of bytes of records in its state. Fails with
/// [`FaultKind::DamagedState`] for the file `state` if no number of levels gives so many.
pub(crate) fn formatted_levels<S: Sealer>(
    alloc: Global,
    core: &Core<S>,
    records: usize,
    state: &str,
) -> Result<u8, Fault>
    ensures ok { IfOk result (λ levels. HasNearLevels core.now.device (S.cipher core.now.sealer).overhead records levels) }
    ensures err { IfErr result (λ fault. HasNoNearLevels core.now.device (S.cipher core.now.sealer).overhead records × IsAbout FaultKind.DamagedState state.now fault) }
{
    match levels_in(core, records) {
        Some(levels) => Ok(levels),
        None => Err(named(alloc, FaultKind::DamagedState, state)),
    }
}

/// Returns the name of the settings, and what a key in them was when the disk was formatted. It has `levels` near levels since.
fn was(
    alloc: Global,
    name: &str,
    key: FixedKey,
    device: &Device,
    sealing: Sealing,
    levels: u8,
) -> Result<String, AllocError>
    requires { levels ≤ depth_of device.now 0 }
    ensures { IfOk result (λ text. string_bytes text ≡ was_text name.now (formatted.value_text device.now sealing levels key)) }
{
    let value = value_text(alloc, key, device, sealing, levels)?;
    let mut text = was_something(alloc, name)?;
    text.push_str(value.as_str())?;
    Ok(text)
}

/// Returns the fault that a key of the settings in the file `name` isn't what it was when the disk was formatted.
fn changed(
    alloc: Global,
    name: &str,
    key: FixedKey,
    device: &Device,
    sealing: Sealing,
    levels: u8,
) -> Fault
    requires { levels ≤ depth_of device.now 0 }
    ensures { IsAbout (FaultKind.Changed key) (was_text name.now (formatted.value_text device.now sealing levels key)) result }
{
    match was(alloc, name, key, device, sealing, levels) {
        Ok(text) => Fault::About(FaultKind::Changed(key), text),
        Err(_) => Fault::OutOfMemory,
    }
}

/// Fails if the settings in the file `name` aren't those that the disk was formatted with. It has `levels` near levels since.
fn check_settings(
    alloc: Global,
    settings: &DiskSettings,
    device: &Device,
    sealing: Sealing,
    levels: u8,
    name: &str,
) -> Result<(), Fault>
    requires { levels ≤ depth_of device.now 0 }
    ensures ok { OnOk result (IsFirstDifference (AgreeAt settings.now device.now sealing levels) fixed_keys None) }
    // The fault names the first key at which they differ, and what it was.
    ensures changed { IfErr result (IsChanged settings.now name.now device.now sealing levels) }
{
    match first_difference(settings, device, sealing, levels) {
        None => Ok(()),
        Some(key) => Err(changed(alloc, name, key, device, sealing, levels)),
    }
}

/// Decodes the process that is kept of a disk, which `sealer` seals. Fails with [`FaultKind::DamagedState`] or
/// [`FaultKind::NotADisk`] if it is no such process, with [`FaultKind::DamagedState`] if its records have a length that no number of near
/// levels gives, and with [`FaultKind::Changed`] if the settings in the file `name` aren't those that the disk was formatted with.
pub fn process_for<S: Sealer>(
    alloc: Global,
    settings: &DiskSettings,
    name: &str,
    kept: &KeptDisk,
    sealer: S,
) -> Result<KeptCore<S>, Fault>
    ensures sealer { IfOk result (λ process. process.core.sealer ≡ sealer) }
    ensures ok { IfOk result (λ process. IsFileWith (scheme_of S.cipher process.core) (found_text kept.now.process) (texts process.stores.items)
        (record { text = process.note.items; records = kept.now.process.records.items }) process.core.state) }
    ensures check { IfOk result (λ process. process.check ≡ check_of (scheme_of S.cipher process.core) (texts process.stores.items)
        (record { text = process.note.items; records = kept.now.process.records.items }) process.core.state) }
    // The settings are those that the disk was formatted with.
    ensures agrees { IfOk result (λ process. (levels : ℕ)
        × HasNearLevels process.core.device (S.cipher sealer).overhead (length kept.now.process.records.items) levels
        × IsFirstDifference (AgreeAt settings.now process.core.device (spec.sealing_of kept.now.head.sealer) levels) fixed_keys None) }
    // Only a process can have records of a wrong length, or other settings than those that its disk was formatted with.
    ensures fault { IfErr result (λ fault. IsNoProcessFor kept.now.process.text.items kept.now.process.records.items (string_bytes settings.now.state) fault
        ⊎ ((process : KeptCore S)
        × IsFileWith (scheme_of S.cipher process.core) (found_text kept.now.process) (texts process.stores.items)
        (record { text = process.note.items; records = kept.now.process.records.items }) process.core.state
        × IsUnfit settings.now name.now process.core.device (spec.sealing_of kept.now.head.sealer) (S.cipher sealer).overhead (length kept.now.process.records.items) fault)) }
    // It returns all of a process that was kept, unless memory runs out, its records have a wrong length or the settings differ.
    ensures same { (d : Sizes) (stores : List (List ℕ)) (core : State) → (it : IsFileOf (S.cipher sealer).overhead d (found_text kept.now.process) stores core)
        → it.note.records ≡ kept.now.process.records.items
        → IfOk result (λ process. (texts process.stores.items ≡ stores) × (process.core.device ≡ d) × (process.core.state ≡ core) × (process.note.items ≡ it.note.text)) }
    ensures unfit { (d : Sizes) (stores : List (List ℕ)) (core : State) → (it : IsFileOf (S.cipher sealer).overhead d (found_text kept.now.process) stores core)
        → it.note.records ≡ kept.now.process.records.items → IfErr result (λ fault. (fault ≡ Fault.OutOfMemory)
        ⊎ IsUnfit settings.now name.now d (spec.sealing_of kept.now.head.sealer) (S.cipher sealer).overhead (length kept.now.process.records.items) fault) }
{
    let found = &kept.process;
    let state = settings.state.as_str();
    let process = process_in(alloc, sealer, &found.text, &found.records, state)?;
    let sealing = sealing_of(kept.head.sealer);
    let levels = formatted_levels(alloc, &process.core, found.records.len(), state)?;
    check_settings(
        alloc,
        settings,
        process.core.device(),
        sealing,
        levels,
        name,
    )?;
    Ok(process)
}

/// Returns the fault that a state can't be kept in the file `state`, with the system's reason.
pub fn unkept(alloc: Global, kind: FaultKind, state: &str, failure: KeepFailure) -> Fault
    ensures { IsOfKind kind result }
{
    match unkept_text(alloc, state, failure) {
        Ok(text) => Fault::About(kind, text),
        Err(_) => Fault::OutOfMemory,
    }
}

/// Returns the name of a state, and why it can't be kept.
fn unkept_text(alloc: Global, state: &str, failure: KeepFailure) -> Result<String, AllocError> {
    match (failure.error, failure.errno) {
        (RedoError::NoRoom, _) => format!(in alloc; "{state} (the disk is full)"),
        (RedoError::Memory, _) => format!(in alloc; "{state} (out of memory)"),
        (_, Some(number)) => {
            let error = io::Error::from_raw_os_error(number);
            format!(in alloc; "{state} ({error})")
        }
        (_, None) => format!(in alloc; "{state} (the system failed)"),
    }
}
