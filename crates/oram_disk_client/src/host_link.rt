//! The link to the host of a disk, and what is printed while that host is lost.

use crate::disk_files::named;
use oram_bucket::Sealer;
use oram_client::{AnswerLengths, HostWatch, Keys, ReconnectLink, TcpDialer};
use oram_disk_host::{Fault, FaultKind};
use oram_rounds::KeptCore;
use oram_settings::{DiskSettings, counted};
use oram_stamps::{Known, NoteFault, decode_note, masked};
use std::alloc::Global;

/// Prints a line on standard error when the host is lost or has no room, and when it answers again.
#[derive(Drop)]
pub struct HostStatusPrinter<'a, R> {
    rt: &'a R,
    host: String,
    /// For how many seconds a host that is lost is tried.
    reconnect_timeout: u64,
    /// What happens while it is tried.
    meanwhile: &'static str,
}

impl<'a, R: Eprint + AllocGlobal> HostStatusPrinter<'a, R> {
    fn print(&self, what: &str) {
        let host = self.host.as_str();
        if let Ok(line) = format!(in self.rt.alloc(); "oramdisk: the host at {host} {what}\n") {
            let _passed_over = self.rt.eprint(line.as_str());
        }
    }
}

impl<'a, R: Eprint + AllocGlobal> HostWatch for HostStatusPrinter<'a, R> {
    fn lost(&mut self) {
        let alloc = self.rt.alloc();
        let Ok(time) = counted(alloc, self.reconnect_timeout, "second") else {
            return self.print("is out of reach");
        };
        let time = time.as_str();
        let meanwhile = self.meanwhile;
        if let Ok(what) = format!(in alloc;
            "is out of reach: it is tried for {time}, {meanwhile}"
        ) {
            self.print(what.as_str());
        }
    }

    fn full(&mut self) {
        self.print("has no room");
    }

    fn back(&mut self) {
        self.print("answers again");
    }
}

/// The link to a disk's host.
pub type HostLink<'a> = ReconnectLink<
    TcpDialer<&'a HostRuntime>,
    HostStatusPrinter<'a, HostRuntime>,
>;

/// Returns what is known of the host's stamps, from the note that was kept with a process.
fn known_in<S: Sealer>(
    alloc: Global,
    settings: &DiskSettings,
    keys: &Keys,
    kept: &KeptCore<S>,
) -> Result<Known, Fault> {
    let check = masked(&keys.stamps, kept.check);
    match decode_note(alloc, &kept.note, check) {
        Ok(known) => Ok(known),
        Err(NoteFault::OutOfMemory) => Err(Fault::OutOfMemory),
        Err(NoteFault::NotOurs) => {
            Err(named(alloc, FaultKind::NotADisk, settings.state.as_str()))
        }
    }
}

/// Makes the link of a process that was kept to the host that the settings name. The link works only if that host keeps the disk
/// with these keys, and shows stamps that it may have by the process's note. It takes no answer that is longer than one of the
/// disk's. While the host is lost, `meanwhile` is printed for what happens then.
pub fn link_to<'a, S: Sealer>(
    rt: &'a HostRuntime,
    settings: &DiskSettings,
    keys: &Keys,
    kept: &KeptCore<S>,
    meanwhile: &'static str,
) -> Result<HostLink<'a>, Fault> {
    let alloc = rt.alloc();
    let known = known_in(alloc, settings, keys, kept)?;
    let lengths = AnswerLengths::of(&kept.core);
    let host = settings.host.as_str();
    let address = String::from_str(alloc, host)?;
    let dialer = TcpDialer::new(rt, address, keys.identity.0, keys.stamps, known, lengths);
    let watch = HostStatusPrinter {
        rt,
        host: String::from_str(alloc, host)?,
        reconnect_timeout: settings.reconnect_timeout,
        meanwhile,
    };
    Ok(ReconnectLink::new(alloc, dialer, watch, settings.reconnect_timeout))
}
