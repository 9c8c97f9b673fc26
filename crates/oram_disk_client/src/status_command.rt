//! Reports the status of a disk, and lets a failed one be tried again.

ghost use Rattle.std.specs.Prelude.{◌≡◌, ℕ, IfOk, length};
ghost use Rattle.oram_core.specs.Core.{scheme_of};
ghost use Rattle.oram_disk_client.specs.FormattedWith.{HasNearLevels};
ghost use Rattle.oram_keeper.specs.Process.{found_text};
ghost use Rattle.oram_rounds.specs.Batches.{texts};
ghost use Rattle.oram_rounds.specs.Files.{IsFileWith};
ghost use Rattle.oram_settings.specs.NearRecords.{near_len};
ghost use Rattle.oram_settings.specs.Status.{stands_as};

use crate::disk_files::{
    KeptDisk, disk_in, formatted_levels, is_there, keys_in, named, process_for, read_disk,
    take_lock,
};
use crate::failures::{forget_failure, kept_failure};
use crate::serving::{DiskSealer, sealer_in};
use oram_bucket::Sealer;
use oram_cli::{call_fault, is_locked};
use oram_client::SystemFiles;
use oram_disk_host::{Fault, FaultKind};
use oram_rounds::KeptCore;
use oram_settings::{DiskSettings, Status, failure_text, report, report_json, status_of};
use std::alloc::{AllocError, Global};
use std::str;

/// The report for a kept failure that isn't text.
const UNREADABLE: &str = "it has failed\n";

/// Returns the report with the reason why the disk failed in place of its state.
fn with_failure(alloc: Global, report: &str, why: &str) -> Result<String, AllocError> {
    let front = match report.rsplit_once("state: ") {
        Some((front, _)) => front,
        None => report,
    };
    format!(in alloc; "{front}state: {why}")
}

/// Returns the report of a disk whose core has this status: whether another process uses it, and then what is kept.
fn report_of(
    alloc: Global,
    status: &Status,
    is_used: bool,
    failure: Option<&[u8]>,
) -> Result<String, AllocError> {
    let text = report(alloc, status)?;
    let text = match failure {
        Some(why) => with_failure(
            alloc,
            text.as_str(),
            str::from_utf8(why).unwrap_or(UNREADABLE),
        )?,
        None => text,
    };
    let using = if is_used {
        "by another process"
    } else {
        "by nobody"
    };
    format!(in alloc; "used: {using}\n{text}")
}

/// Returns the report of a disk in JSON. `failure` has what is kept of why it failed, if anything is.
fn json_of(
    alloc: Global,
    status: &Status,
    is_used: bool,
    failure: Option<&[u8]>,
) -> Result<String, AllocError> {
    let found = failure_text(alloc, status.failure)?;
    let why = match failure {
        Some(why) => Some(str::from_utf8(why).unwrap_or(UNREADABLE).trim_end()),
        None => status.failure.map(|_| found.as_str()),
    };
    report_json(alloc, status, is_used, why)
}

/// Prints the report of a disk whose core has this status and whose state is in the file `state`. Fails with
/// [`FaultKind::Failed`] after that if the disk has failed.
fn print_report(
    rt: &HostRuntime,
    state: &str,
    status: &Status,
    is_json: bool,
) -> Result<(), Fault> {
    let alloc = rt.alloc();
    let failure = kept_failure(alloc, &SystemFiles { rt }, state)?;
    let is_used = is_locked(rt, state)?;
    let text = if is_json {
        json_of(alloc, status, is_used, failure.as_deref())?
    } else {
        report_of(alloc, status, is_used, failure.as_deref())?
    };
    if let Err(error) = rt.print(text.as_str()) {
        return Err(call_fault(alloc, "standard output", &error).into());
    }
    if failure.is_some() || status.failure.is_some() {
        return Err(named(alloc, FaultKind::Failed, state));
    }
    Ok(())
}

/// Returns the status of a disk, from what is kept of it, which `sealer` seals. Its settings are in the file `name`.
fn status_with<S: Sealer>(
    alloc: Global,
    settings: &DiskSettings,
    name: &str,
    kept: &KeptDisk,
    sealer: S,
) -> Result<Status, Fault>
    // It is the status of the process that is kept, with as many near levels as the disk was formatted with.
    ensures { IfOk result (λ status. (process : KeptCore S) × (levels : ℕ)
        × IsFileWith (scheme_of S.cipher process.core) (found_text kept.now.process) (texts process.stores.items)
        (record { text = process.note.items; records = kept.now.process.records.items }) process.core.state
        × HasNearLevels process.core.device (S.cipher process.core.sealer).overhead (length kept.now.process.records.items) levels
        × (status ≡ stands_as process.core.device (near_len process.core.device (S.cipher process.core.sealer).overhead levels) process.core.state)) }
{
    let process = process_for(alloc, settings, name, kept, sealer)?;
    let records = kept.process.records.len();
    let levels = formatted_levels(alloc, &process.core, records, settings.state.as_str())?;
    Ok(status_of(&process.core, levels))
}

/// Prints the report of the disk whose settings are in the file `name`, from its kept state, and whether a process uses it now:
/// in lines for people, or in one line of JSON. It doesn't ask the host. Fails with the same faults as a process that serves the disk, if the settings or the key aren't
/// those of the disk or if the disk has failed.
pub fn print_status(rt: &HostRuntime, name: String, is_json: bool) -> Result<(), Fault> {
    let alloc = rt.alloc();
    let (settings, _) = disk_in(rt, name.as_str())?;
    let state = settings.state.as_str();
    let kept = read_disk(rt, state)?;
    let keys = keys_in(alloc, &settings, &kept.head, name.as_str())?;
    let status = match sealer_in(&kept.head, &keys) {
        DiskSealer::Plain(sealer) => status_with(alloc, &settings, name.as_str(), &kept, sealer)?,
        DiskSealer::ChaCha20(sealer) => status_with(
            alloc,
            &settings,
            name.as_str(),
            &kept,
            sealer,
        )?,
    };
    print_report(rt, state, &status, is_json)
}

/// Lets the failed disk whose settings are in the file `name` be tried again: the next process that serves it goes on
/// from its kept state. Fails with [`FaultKind::NotFailed`] if the disk hasn't failed, with [`FaultKind::Unformatted`] if it
/// isn't formatted yet, and with the system's reason if that can't be found out.
pub fn retry(rt: &HostRuntime, name: String) -> Result<(), Fault> {
    let (settings, _) = disk_in(rt, name.as_str())?;
    let state = settings.state;
    let _lock = take_lock(rt, state.as_str())?;
    if forget_failure(rt, state.as_str())? {
        let _passed_over = rt.print("oramdisk serve goes on from the saved state\n");
        return Ok(());
    }
    if is_there(rt, state.as_str())? {
        Err(Fault::About(FaultKind::NotFailed, state))
    } else {
        Err(Fault::About(FaultKind::Unformatted, state))
    }
}
