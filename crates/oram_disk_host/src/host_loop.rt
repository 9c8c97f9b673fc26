//! The host, which serves connections one after the other, from a store in a file.

ghost use Rattle.std.specs.Prelude.{◌≡◌, ◌⊎◌, [], IsSome};

use crate::attendant::HostAttendant;
use crate::connection::{ConnectionReport, EarlyEnd, line};
use crate::disk_watch::{AnswerWriter, DiskPrinter, DiskWatch};
use crate::faults::{Fault, store_fault};
use crate::kinds::FaultKind;
use crate::serving::answer_messages;
use crate::settings_file::{HostSettings, read_host_settings, settings_text};
use crate::tallied_store::TalliedStore;
use jiff::Timestamp;
use oram_cli::{InputFault, SocketFault, listen};
use oram_host::ServeFault;
use oram_redo::FilePair;
use oram_settings::{host_complaint, hosting_text, place_beside, relative_to};
use oram_sockets::{
    Arrived, Connection, Listener, MarkedReader, MarkedWriter, Peer, UNIX, listen_at_path, watch,
};
use oram_store::{FileStore, StoreFault, make_store, open_store};
use std::alloc::{AllocError, Global};
use std::io::{Error, ErrorKind, Read, Write};
use std::net::{Net, TcpStream};
use std::os::fd::AsRawFd;
use std::rt::{Clock, Files};
use std::time::Duration;
use std::{fs, thread};

/// How many seconds a host waits before it tries again to open a file whose disk has failed.
const RETRY_AFTER: u64 = 1;

/// The most bytes that a connection takes from its socket at once. So this limits the memory of the messages that are answered together.
const READ_ROOM: usize = 1 << 22;

/// Reads the settings in the file `name`. In the result, the paths of the file of buckets and of a socket are as seen from the
/// working directory, not from the folder of `name`.
///
/// `disk_in` of `oram_disk_client` does the same for a disk's settings, and also makes the device that they describe.
fn settings_in<R: Files + AllocGlobal>(rt: &R, name: &str) -> Result<HostSettings, Fault> {
    let alloc = rt.alloc();
    let text = settings_text(rt, name)?;
    match read_host_settings(alloc, text.as_str()) {
        Ok(mut settings) => {
            settings.file = relative_to(alloc, name, settings.file.as_str())?;
            settings.listen = place_beside(alloc, name, settings.listen.as_str())?;
            Ok(settings)
        }
        Err(InputFault::Bad) => {
            let complaint = host_complaint(alloc, name, text.as_str())?;
            Err(Fault::About(FaultKind::Settings, complaint))
        }
        Err(InputFault::OutOfMemory) => Err(Fault::OutOfMemory),
    }
}

/// Listens at an address.
pub fn listen_at<R: Net>(rt: &R, address: String) -> Result<R::Listener, Fault> {
    match listen(rt, address.as_str()) {
        Ok(listener) => Ok(listener),
        Err(SocketFault::Failed) => Err(Fault::About(FaultKind::Address, address)),
        Err(SocketFault::OutOfMemory) => Err(Fault::OutOfMemory),
    }
}

/// Listens at a place: at an address, or at a Unix socket, `unix:` and its path.
fn listen_at_place(rt: &HostRuntime, place: &str) -> Result<Listener, Fault> {
    let alloc = rt.alloc();
    let Some(path) = place.strip_prefix(UNIX) else {
        return Ok(Listener::Tcp(listen_at(rt, String::from_str(alloc, place)?)?));
    };
    match listen_at_path(rt, path) {
        Ok(listener) => Ok(listener),
        Err(error) if error.kind() == ErrorKind::OutOfMemory => Err(Fault::OutOfMemory),
        Err(_) => Err(Fault::About(FaultKind::Address, String::from_str(alloc, path)?)),
    }
}

/// Returns the clock's time in whole seconds of UTC, as RFC 3339 writes it.
pub fn time<R: Clock + AllocGlobal>(rt: &R) -> Result<String, AllocError> {
    let alloc = rt.alloc();
    match Timestamp::now(rt) {
        Ok(now) => format!(in alloc; "{now:.0}"),
        Err(_) => String::from_str(alloc, "an unknown time"),
    }
}

/// A connection that the host has accepted, and the listener that it came from.
#[derive(Drop)]
struct Accepted<'a> {
    stream: Connection<TcpStream>,
    listener: &'a Listener,
}

/// Answers the messages of a connection to its end. Whenever it has been quiet for a while, the log is emptied.
fn serve_on<R: Read + Arrived, W: Write, F: FilePair, D: DiskWatch>(
    alloc: Global,
    reader: &mut R,
    writer: &mut W,
    attendant: &HostAttendant,
    hosted: &mut TalliedStore<'_, F, D>,
) -> Result<(), ServeFault> {
    for _ in 0..u64::MAX {
        let served = answer_messages(alloc, reader, writer, hosted);
        if !attendant.ends_quiet() {
            return served;
        }
        hosted.empty_log();
        if hosted.has_failed() {
            return served;
        }
    }
    Err(ServeFault::Read)
}

/// Serves a connection to its end, and returns why that came early, if it did.
fn serve<R: Net + Clock + Eprint + AllocGlobal, F: FilePair>(
    rt: &R,
    accepted: Accepted<'_>,
    disk: &DiskPrinter<'_, R>,
    hosted: &mut TalliedStore<'_, F, DiskPrinter<'_, R>>,
) -> Option<EarlyEnd>
    // After this, each record of a formatting is durable, or the tally says why not.
    ensures { hosted.old.store.pending ≡ [] → (hosted.new.store.pending ≡ []) ⊎ IsSome hosted.new.tally.failure }
{
    let alloc = rt.alloc();
    hosted.begin();
    let attendant = HostAttendant::new();
    let listener = accepted.listener.as_raw_fd();
    let (reader, writer) = match watch(
        rt,
        alloc,
        accepted.stream,
        listener,
        &attendant,
        READ_ROOM,
    ) {
        Ok(halves) => halves,
        Err(error) if error.kind() == ErrorKind::OutOfMemory => {
            return Some(EarlyEnd::Fault(ServeFault::OutOfMemory));
        }
        Err(_) => return Some(EarlyEnd::Fault(ServeFault::Read)),
    };
    let mut reader = MarkedReader::new(reader, &attendant);
    let mut writer = AnswerWriter::new(MarkedWriter::new(writer, &attendant), disk);
    let served = serve_on(alloc, &mut reader, &mut writer, &attendant, hosted);
    hosted.empty_log();
    if hosted.has_failed() {
        // The tally says why.
        return None;
    }
    attendant.early_end(served)
}

/// Returns what the line of a connection says of the system's error for which the disk has failed, if it has.
fn reason_text(alloc: Global, has_failed: bool, errno: Option<i32>) -> Result<String, AllocError> {
    match errno {
        Some(number) if has_failed => {
            let error = Error::from_raw_os_error(number);
            format!(in alloc; ": {error}")
        }
        _ => Ok(String::new(alloc)),
    }
}

/// Serves a connection, and prints its line.
fn serve_client<R: Net + Clock + Eprint + AllocGlobal, F: FilePair>(
    rt: &R,
    accepted: Accepted<'_>,
    peer: Peer,
    disk: &DiskPrinter<'_, R>,
    hosted: &mut TalliedStore<'_, F, DiskPrinter<'_, R>>,
) -> Result<(), AllocError>
    ensures { hosted.old.store.pending ≡ [] → (hosted.new.store.pending ≡ []) ⊎ IsSome hosted.new.tally.failure }
{
    let alloc = rt.alloc();
    let peer = format!(in alloc; "{peer}")?;
    let from = time(rt)?;
    let ended = serve(rt, accepted, disk, hosted);
    let report = ConnectionReport {
        peer,
        from,
        until: time(rt)?,
        tally: hosted.tally(),
        ended,
        reason: reason_text(alloc, hosted.has_failed(), hosted.errno())?,
    };
    let line = line(alloc, &report)?;
    let _passed_over = rt.eprint(line.as_str());
    Ok(())
}

/// Returns whether an error keeps only one connection from being accepted, and not the next.
fn is_transient(kind: ErrorKind) -> bool {
    matches!(
        kind,
        ErrorKind::Interrupted
            | ErrorKind::ConnectionAborted
            | ErrorKind::ConnectionReset
            | ErrorKind::HostUnreachable
            | ErrorKind::NetworkUnreachable
            | ErrorKind::NetworkDown
            | ErrorKind::TimedOut
    )
}

/// Returns the program's fault for a connection that wasn't accepted, or `Ok` if the next one may be.
pub fn not_accepted(error: &Error) -> Result<(), Fault> {
    match error.kind() {
        ErrorKind::OutOfMemory => Err(Fault::OutOfMemory),
        kind if is_transient(kind) => Ok(()),
        _ => Err(Fault::Accept),
    }
}

/// Serves connections, one after the other, until the store has to be opened again.
fn serve_all<R: Net + Clock + Eprint + AllocGlobal, F: FilePair + Drop>(
    rt: &R,
    listener: &Listener,
    store: FileStore<F>,
    file: &str,
) -> Result<(), Fault> {
    let disk = DiskPrinter::new(rt, file);
    let mut hosted = TalliedStore::new(store, &disk);
    for _ in 0..u64::MAX {
        match listener.accept() {
            Ok((stream, peer)) => {
                let accepted = Accepted { stream, listener };
                if serve_client(rt, accepted, peer, &disk, &mut hosted).is_err() {
                    let _passed_over = rt.eprint(
                        "oramdisk: no memory for a connection, or for its line\n",
                    );
                }
            }
            Err(error) => not_accepted(&error)?,
        }
        if hosted.has_failed() {
            return Ok(());
        }
    }
    Ok(())
}

/// Serves a store that was opened, until it has to be opened again.
fn serve_opened<R: Net + Clock + Eprint + AllocGlobal, F: FilePair + Drop>(
    rt: &R,
    listener: &Listener,
    opened: Result<FileStore<F>, StoreFault>,
    file: &str,
) -> Result<(), Fault> {
    match opened {
        Ok(store) => serve_all(rt, listener, store, file),
        Err(why) => Err(store_fault(String::from_str(rt.alloc(), file)?, why)),
    }
}

/// Prints that a file was opened: whether it is a new one, and where it is served.
fn print_opened(rt: &HostRuntime, place: &str, file: &str, is_new: bool) -> Result<(), AllocError> {
    let alloc = rt.alloc();
    if is_new {
        let line = format!(in alloc; "oramdisk: made {file}\n")?;
        let _passed_over = rt.eprint(line.as_str());
    }
    let line = hosting_text(alloc, file, place)?;
    let _passed_over = rt.eprint(line.as_str());
    Ok(())
}

/// Opens the file or, if a new one is asked for, makes it, and serves it until it has to be opened again. A file that is missing is made
/// only then, so a host that was started in the wrong folder says so, instead of serving an empty file.
fn serve_file(
    rt: &HostRuntime,
    listener: &Listener,
    place: &str,
    file: &str,
    is_new: bool,
) -> Result<(), Fault> {
    let opened = if is_new {
        make_store(rt, rt.alloc(), file)
    } else {
        open_store(rt, rt.alloc(), file)
    };
    if opened.is_ok() {
        print_opened(rt, place, file, is_new)?;
    }
    serve_opened(rt, listener, opened, file)
}

/// Serves the file again after its disk has failed. As long as the file can't be opened, the host waits for it, and
/// says so once: the storage that it is on, such as a volume over a network, may come back.
fn serve_again(
    rt: &HostRuntime,
    listener: &Listener,
    place: &str,
    file: &str,
) -> Result<(), Fault> {
    let mut is_reported = false;
    for _ in 0..u64::MAX {
        match serve_file(rt, listener, place, file, false) {
            Err(Fault::About(FaultKind::File(_), _)) => {}
            ended => return ended,
        }
        if !is_reported {
            let line = format!(in rt.alloc(); "oramdisk: waiting for {file}\n")?;
            let _passed_over = rt.eprint(line.as_str());
            is_reported = true;
        }
        thread::sleep(rt, Duration::from_secs(RETRY_AFTER));
    }
    Ok(())
}

/// Serves a file, and again whenever its disk has failed, until it can't be served any more.
fn serve_always(
    rt: &HostRuntime,
    listener: &Listener,
    place: &str,
    file: &str,
    is_new: bool,
) -> Result<(), Fault> {
    serve_file(rt, listener, place, file, is_new)?;
    for _ in 0..u64::MAX {
        serve_again(rt, listener, place, file)?;
    }
    Ok(())
}

/// Keeps buckets for others, until it is ended. It listens before it opens the file, so if its place is taken, the file
/// stays as it is. If it ends by itself, it takes its socket away.
pub fn host(rt: &HostRuntime, name: String, is_new: bool) -> Result<(), Fault> {
    let HostSettings { listen, file } = settings_in(rt, name.as_str())?;
    let listener = listen_at_place(rt, listen.as_str())?;
    let ended = serve_always(rt, &listener, listen.as_str(), file.as_str(), is_new);
    if let Some(path) = listen.as_str().strip_prefix(UNIX) {
        // A socket that stays is replaced by the next process.
        let _passed_over = fs::remove_file(rt, path);
    }
    ended
}
