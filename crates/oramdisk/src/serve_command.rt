//! Serves a disk to NBD clients, one connection after the other.

ghost use Rattle.std.specs.Prelude.{◌≡◌, IfOk, true};
ghost use Rattle.oram_core.specs.Core.{IsNotedSince};
ghost use Rattle.oram_keeper.specs.Process.{IsFoundIn, kept_records, kept_table};
ghost use Rattle.oram_kept.specs.Text.{Parts};

use crate::clients::{ClientAttendant, ClientLook, Dismissal};
use crate::watched_disk::{FailureKeeper, WatchedDisk};
use oram_bucket::Sealer;
use oram_client::{Dial, HostWatch, Keys, ReconnectLink, SystemFiles};
use oram_core::{Core, Reason};
use oram_disk_client::{
    DiskSealer, KeptDisk, LockedDisk, ReachedCore, Stop, UnfailedDisk, disk_in, keep_failure,
    keys_in, link_to, process_for, reached, sealer_in, stop_fault, tape_for,
};
use oram_disk_host::{Fault, FaultKind, listen_at, not_accepted, time};
use oram_keeper::{FoundProcess, PairKeeper};
use oram_nbd::{BlockDevice, DiskFault, NbdFault, is_stop, serve};
use oram_near::{FormattedRecords, NearLink};
use oram_redo::SystemPair;
use oram_rounds::{BatchLink, Keeper, KeptCore, RoundLink};
use oram_session::{ChaChaTape, Tape};
use oram_settings::{DiskSettings, counted, failure_text, relative_to, serving_text};
use oram_sockets::{Connection, Listener, Look, Peer, listen_at_path, watch};
use oram_volume::Volume;
use percent_encoding::{NON_ALPHANUMERIC, utf8_percent_encode};
use std::alloc::{AllocError, Global};
use std::fs;
use std::io::ErrorKind;
use std::net::{Net, TcpStream};
use std::os::fd::AsRawFd;
use std::rt::Clock;

/// The name of the one export. Clients may also ask for it with an empty name.
const EXPORT: &[u8] = b"disk";

/// What happens while a host that is lost is tried.
const MEANWHILE: &str = "while requests wait";

/// How serving a client ended.
#[derive(Clone, Copy)]
struct Ended {
    served: Result<u64, NbdFault>,
    dismissal: Option<Dismissal>,
}

impl Ended {
    /// Returns the end of a client that wasn't served at all because of `fault`.
    fn by(fault: NbdFault) -> Ended {
        Ended {
            served: Err(fault),
            dismissal: None,
        }
    }
}

/// Prints a line about a connection that has ended.
fn report_connection<R: Clock + Eprint + AllocGlobal>(
    rt: &R,
    peer: Peer,
    from: &str,
    ended: &Ended,
) -> Result<(), AllocError> {
    let alloc = rt.alloc();
    let until = time(rt)?;
    let line = match (ended.served, ended.dismissal) {
        (_, Some(dismissal)) => format!(in alloc;
            "oramdisk: {peer} from {from} until {until}, {dismissal}\n"
        )?,
        (Ok(requests), None) => {
            let requests = counted(alloc, requests, "request")?;
            format!(in alloc; "oramdisk: {peer} from {from} until {until}, {requests}\n")?
        }
        (Err(fault), None) => format!(in alloc;
            "oramdisk: {peer} from {from} until {until}, {fault}\n"
        )?,
    };
    let _passed_over = rt.eprint(line.as_str());
    Ok(())
}

/// The most bytes that a client's connection takes from its socket at once. 64 requests that write 4 KiB each fit into them.
const READ_ROOM: usize = 1 << 19;

/// Serves one client until its connection ends, and turns others away meanwhile.
fn serve_client<R: Net + Clock + Eprint + AllocGlobal, D: BlockDevice>(
    rt: &R,
    listener: &Listener,
    stream: Connection<TcpStream>,
    disk: &mut D,
) -> Ended {
    let alloc = rt.alloc();
    let attendant = match ClientAttendant::new(rt, listener) {
        Ok(attendant) => attendant,
        Err(_) => return Ended::by(NbdFault::Read),
    };
    let look = match Look::new(rt, alloc, stream.as_raw_fd(), listener.as_raw_fd()) {
        Ok(look) => look,
        Err(_) => return Ended::by(NbdFault::Read),
    };
    let (mut reader, mut writer) = match watch(
        rt,
        alloc,
        stream,
        listener.as_raw_fd(),
        &attendant,
        READ_ROOM,
    ) {
        Ok(halves) => halves,
        Err(error) if error.kind() == ErrorKind::OutOfMemory => {
            return Ended::by(NbdFault::OutOfMemory);
        }
        Err(_) => return Ended::by(NbdFault::Read),
    };
    let mut client = ClientLook {
        attendant: &attendant,
        look,
    };
    let served = serve(alloc, &mut reader, &mut writer, disk, EXPORT, &mut client);
    Ended {
        served,
        dismissal: attendant.dismissal(),
    }
}

/// Serves one client with a listener that doesn't block, so that clients who come meanwhile can be turned away.
fn serve_client_alone<R: Net + Clock + Eprint + AllocGlobal, D: BlockDevice>(
    rt: &R,
    listener: &Listener,
    stream: Connection<TcpStream>,
    disk: &mut D,
) -> Ended {
    if listener.set_nonblocking(true).is_err() {
        return Ended::by(NbdFault::Read);
    }
    let ended = serve_client(rt, listener, stream, disk);
    let _blocks_again = listener.set_nonblocking(false);
    ended
}

/// Records why a disk failed in a file beside its state, and prints it on standard error.
#[derive(Drop)]
struct FailureFile<'a> {
    rt: &'a HostRuntime,
    state: String,
    is_told: bool,
}

impl<'a> FailureFile<'a> {
    fn print(&self, reason: Reason) -> Result<(), AllocError> {
        let alloc = self.rt.alloc();
        let why = failure_text(alloc, Some(reason))?;
        let why = why.as_str();
        let why = why.strip_prefix("it ").unwrap_or(why);
        let line = format!(in alloc; "oramdisk: the disk {why}\n")?;
        let _passed_over = self.rt.eprint(line.as_str());
        Ok(())
    }
}

impl<'a, S: Sealer, B: BatchLink, K: Keeper, T: Tape> FailureKeeper<Volume<S, B, K, T>>
    for FailureFile<'a> {
    ghost told = { λ file. file.is_told ≡ true };

    fn is_told(&self) -> bool {
        self.is_told
    }

    fn keep_failure(&mut self, volume: &Volume<S, B, K, T>) {
        self.is_told = true;
        if let Some(reason) = volume.core.failure() {
            let _passed_over = self.print(reason);
            // If it can't be kept, the next process finds the failure again.
            let _found_again = keep_failure(self.rt, self.state.as_str(), reason);
        }
    }
}

/// Serves one client, and prints a line about it. Returns whether the disk has stopped.
fn serve_connection<R: Net + Clock + Eprint + AllocGlobal, D: BlockDevice>(
    rt: &R,
    listener: &Listener,
    stream: Connection<TcpStream>,
    peer: Peer,
    disk: &mut D,
) -> bool {
    let from = time(rt);
    let ended = serve_client_alone(rt, listener, stream, disk);
    let printed = match from {
        Ok(from) => report_connection(rt, peer, from.as_str(), &ended),
        Err(error) => Err(error),
    };
    if printed.is_err() {
        let _passed_over = rt.eprint("oramdisk: no memory for the line of a connection\n");
    }
    is_stop(ended.served)
}

/// Serves clients, one after the other, until the disk stops.
fn serve_all<R: Net + Clock + Eprint + AllocGlobal, D: BlockDevice>(
    rt: &R,
    listener: &Listener,
    disk: &mut D,
) -> Result<(), Fault> {
    for _ in 0..u64::MAX {
        match listener.accept() {
            Ok((stream, peer)) => {
                if serve_connection(rt, listener, stream, peer, disk) {
                    return Ok(());
                }
            }
            Err(error) => not_accepted(&error)?,
        }
    }
    Ok(())
}

/// Prints where a disk is served, and serves it until it stops.
fn serve_clients<D: BlockDevice>(
    rt: &HostRuntime,
    clients: &Clients,
    disk: &mut D,
) -> Result<(), Fault> {
    let size = disk.blocks().saturating_mul(u64::from(disk.block_bytes()));
    let line = serving_text(rt.alloc(), size, clients.uri.as_str())?;
    let _passed_over = rt.eprint(line.as_str());
    serve_all(rt, &clients.listener, disk)
}

/// Keeps a process in the files of a disk's state.
type DiskKeeper = PairKeeper<SystemPair>;

/// A core with the keeper of its state and the link to its host.
type DiskVolume<S, D, W> = Volume<
    S,
    NearLink<ReconnectLink<D, W>, FormattedRecords<S>>,
    DiskKeeper,
    ChaChaTape,
>;

/// Returns why a disk stopped.
fn stopped<S: Sealer, D: Dial + Drop, W: HostWatch + Drop>(
    alloc: Global,
    volume: &DiskVolume<S, D, W>,
    settings: &DiskSettings,
) -> Fault {
    let stop = Stop {
        unkept: volume.keeper.failure(),
        is_used_up: volume.core.next_ticket() >= volume.core.device().lifetime(),
        has_failed: volume.core.failure().is_some(),
        trouble: volume.link.inner().inner().trouble(),
    };
    stop_fault(alloc, settings, stop)
}

/// Serves a disk until it stops, and returns it. It first carries out the commands that still wait from before.
fn serve_volume<S: Sealer, B: BatchLink + Drop>(
    rt: &HostRuntime,
    settings: &DiskSettings,
    clients: &Clients,
    mut volume: Volume<S, B, DiskKeeper, ChaChaTape>,
) -> Result<Volume<S, B, DiskKeeper, ChaChaTape>, Fault> {
    let alloc = rt.alloc();
    let resumed = volume.resume(alloc);
    let state = String::from_str(alloc, settings.state.as_str())?;
    let mut disk = WatchedDisk {
        disk: volume,
        keeper: FailureFile {
            rt,
            state,
            is_told: false,
        },
    };
    disk.watch();
    match resumed {
        Ok(()) => serve_clients(rt, clients, &mut disk)?,
        Err(DiskFault::Failed | DiskFault::Stopped | DiskFault::Interrupted) => {}
        Err(DiskFault::OutOfMemory) => return Err(Fault::OutOfMemory),
    }
    Ok(disk.disk)
}

/// Tells a core which entries of its table may differ from the one in the files: none, if its table is that one, so that the first keeping
/// doesn't write all of it again.
fn note_table<S: Sealer>(core: &mut Core<S>, found: &FoundProcess)
    ensures noted { (p : Parts) → IsFoundIn found.now p → IsNotedSince p.table core.new }
    ensures same { core.new ≡ record core.old { noted = core.new.noted } }
{
    if found.has_table(core.table()) {
        core.forget_changes();
        return;
    }
    core.note_any_change();
}

/// A process that was kept, with the records that its link had kept, and what seals its buckets.
#[derive(Drop)]
struct KeptProcess<S: Sealer> {
    kept: KeptCore<S>,
    records: Vec<u8>,
    sealer: S,
}

/// Decodes the process that is kept of a disk, whose settings are in the file `name`.
fn process_of<S: Sealer + Copy>(
    alloc: Global,
    settings: &DiskSettings,
    name: &str,
    keeper: &DiskKeeper,
    kept: KeptDisk,
    sealer: S,
) -> Result<KeptProcess<S>, Fault>
    requires table { (p : Parts) × IsFoundIn kept.process p × (p.table ≡ kept_table keeper.now) }
    requires records { kept.process.records.items ≡ kept_records keeper.now }
    ensures table { IfOk result (λ process. IsNotedSince (kept_table keeper.now) process.kept.core) }
    ensures records { IfOk result (λ process. process.records.items ≡ kept_records keeper.now) }
    ensures sealer { IfOk result (λ process. process.kept.core.sealer ≡ process.sealer) }
{
    let mut process = process_for(alloc, settings, name, &kept, sealer)?;
    note_table(&mut process.core, &kept.process);
    Ok(KeptProcess {
        kept: process,
        records: kept.process.records,
        sealer,
    })
}

/// Puts the parts of a disk together. The core and the link below tell of all that differs from what the keeper has kept last.
fn volume_of<S: Sealer, B: BatchLink>(
    core: Core<S>,
    link: RoundLink<B>,
    keeper: DiskKeeper,
    tape: ChaChaTape,
) -> Volume<S, B, DiskKeeper, ChaChaTape>
    requires table { IsNotedSince (kept_table keeper) core }
    requires records { B.tells link.inner (kept_records keeper) }
{
    Volume {
        core,
        link,
        keeper,
        tape,
    }
}

/// Serves the disk of a process that was kept, over a link to its host, until it stops. The process goes on with `keeper`, which holds the
/// files open that the process was read from.
fn serve_over<S: Sealer, D: Dial + Drop, W: HostWatch + Drop>(
    rt: &HostRuntime,
    settings: &DiskSettings,
    clients: &Clients,
    keeper: DiskKeeper,
    keys: &Keys,
    process: KeptProcess<S>,
    link: ReconnectLink<D, W>,
) -> Result<(), Fault>
    requires table { IsNotedSince (kept_table keeper) process.kept.core }
    requires records { process.records.items ≡ kept_records keeper }
    requires sealer { process.kept.core.sealer ≡ process.sealer }
{
    let KeptProcess {
        kept,
        records,
        sealer,
    } = process;
    let ReachedCore { core, link } = reached(rt.alloc(), link, settings, kept, records, sealer)?;
    let tape = tape_for(keys, core.device());
    let volume = serve_volume(rt, settings, clients, volume_of(core, link, keeper, tape))?;
    Err(stopped(rt.alloc(), &volume, settings))
}

/// Serves the disk of a process that was kept, until it stops.
fn serve_process<S: Sealer>(
    rt: &HostRuntime,
    settings: &DiskSettings,
    clients: &Clients,
    keeper: DiskKeeper,
    keys: &Keys,
    process: KeptProcess<S>,
) -> Result<(), Fault>
    requires table { IsNotedSince (kept_table keeper) process.kept.core }
    requires records { process.records.items ≡ kept_records keeper }
    requires sealer { process.kept.core.sealer ≡ process.sealer }
{
    let link = link_to(rt, settings, keys, &process.kept, MEANWHILE)?;
    serve_over(rt, settings, clients, keeper, keys, process, link)
}

/// Where clients connect.
#[derive(Drop)]
struct Clients {
    listener: Listener,
    /// The address that is printed for clients.
    uri: String,
    /// The path of the Unix socket, if clients connect to one.
    socket: Option<String>,
}

/// Listens for clients at an address.
fn at_address(rt: &HostRuntime, address: &str) -> Result<Clients, Fault> {
    let alloc = rt.alloc();
    Ok(Clients {
        listener: Listener::Tcp(listen_at(rt, String::from_str(alloc, address)?)?),
        uri: format!(in alloc; "nbd://{address}")?,
        socket: None,
    })
}

/// Returns a path as it stands in a URI: its letters, digits and `/-._~`, and each other byte as `%` and two digits.
fn in_uri(alloc: Global, path: &str) -> Result<String, AllocError> {
    let escaped = NON_ALPHANUMERIC
        .remove(b'/')
        .remove(b'-')
        .remove(b'.')
        .remove(b'_')
        .remove(b'~');
    let mut text = String::new(alloc);
    utf8_percent_encode(path, escaped).append_to(&mut text)?;
    Ok(text)
}

/// Listens for clients at a Unix socket.
fn at_socket(rt: &HostRuntime, path: String) -> Result<Clients, Fault> {
    let alloc = rt.alloc();
    let name = path.as_str();
    let query = in_uri(alloc, name)?;
    let query = query.as_str();
    let uri = format!(in alloc; "nbd+unix:///disk?socket={query}")?;
    match listen_at_path(rt, name) {
        Ok(listener) => Ok(Clients {
            listener,
            uri,
            socket: Some(path),
        }),
        Err(error) if error.kind() == ErrorKind::OutOfMemory => Err(Fault::OutOfMemory),
        Err(_) => Err(Fault::About(FaultKind::Address, path)),
    }
}

/// Listens for clients at `place`, which the settings in the file `name` give. The path of a socket is relative to that
/// file's folder.
fn clients_at(rt: &HostRuntime, place: &str, name: &str) -> Result<Clients, Fault> {
    match place.strip_prefix("unix:") {
        Some(path) => at_socket(rt, relative_to(rt.alloc(), name, path)?),
        None => at_address(rt, place),
    }
}

/// Serves a disk whose settings were read from the file `name`, until it stops. It first carries out the commands that still
/// wait from before.
fn serve_kept(
    rt: &HostRuntime,
    disk: &UnfailedDisk,
    name: &str,
    clients: &Clients,
) -> Result<(), Fault> {
    let alloc = rt.alloc();
    let settings = disk.settings();
    let (keeper, kept) = disk.open_state(rt)?;
    let keys = keys_in(alloc, settings, &kept.head, name)?;
    match sealer_in(&kept.head, &keys) {
        DiskSealer::Plain(sealer) => {
            let process = process_of(alloc, settings, name, &keeper, kept, sealer)?;
            serve_process(rt, settings, clients, keeper, &keys, process)
        }
        DiskSealer::ChaCha20(sealer) => {
            let process = process_of(alloc, settings, name, &keeper, kept, sealer)?;
            serve_process(rt, settings, clients, keeper, &keys, process)
        }
    }
}

/// Serves the disk whose settings are in the file `name`, until it stops.
///
/// It takes the lock, looks for a failure and listens for clients before it reads the state.
pub(crate) fn serve_disk(rt: &HostRuntime, name: String) -> Result<(), Fault> {
    let (settings, _) = disk_in(rt, name.as_str())?;
    let disk = LockedDisk::take(rt, settings)?.unfailed(rt.alloc(), &SystemFiles { rt })?;
    let clients = clients_at(rt, disk.settings().listen.as_str(), name.as_str())?;
    let ended = serve_kept(rt, &disk, name.as_str(), &clients);
    if let Some(path) = &clients.socket {
        // A socket that stays is replaced by the next process.
        let _passed_over = fs::remove_file(rt, path.as_str());
    }
    ended
}
