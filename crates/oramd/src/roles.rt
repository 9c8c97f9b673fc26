//! Each role of the program, with its files and sockets.

ghost use Rattle.std.specs.Prelude.{◌≡◌};
ghost use Rattle.oram_core.specs.Core.{IsSameDevice};

use crate::command_line::Role;
use crate::endings::{after_serving, ending};
use crate::faults::{Fault, lock_fault};
use crate::files::{load_image, save_image};
use crate::formatted_state::{format_state, made_device};
use crate::frame_loop::{answer_frames, bytes_of};
use crate::loaders::load_core;
use crate::room::RoomyTape;
use crate::settings_file::{Settings, read_settings};
use oram_bucket::{ChaChaSeal, PlainSeal, Sealer};
use oram_cli::{
    AtomicFile, InputFault, SocketFault, StateLock, buffered, bytes_in, call_fault, connect,
    linked_name, listen, lock_state, text_in,
};
use oram_core::Core;
use oram_geometry::Device;
use oram_host::Server;
use oram_session::{
    ChaChaTape, Link, LinkFault, LoopLink, StreamLink, Tape, host_serve, resume, serve,
};
use oram_state::encode_state;
use std::alloc::Global;
use std::io::{BufReader, BufWriter, Read, Write};
use std::net::{Net, OpenListener, OpenStream};
use std::rt::Files;

/// Waits for the next connection, and returns its two halves, both buffered.
fn next_connection<L: OpenListener>(
    alloc: Global,
    listener: &L,
) -> Result<(BufReader<L::Stream>, BufWriter<L::Stream>), SocketFault>
where
    L::Stream: Read + Write + OpenStream,
{
    let (stream, _) = listener.accept()?;
    Ok(buffered(alloc, stream)?)
}

/// Serves the requests of `connections` connections, one after the other.
fn host_connections<L: OpenListener>(
    alloc: Global,
    listener: &L,
    connections: u64,
    server: &mut Server,
) -> Result<(), Fault>
where
    L::Stream: Read + Write + OpenStream,
{
    for _ in 0..connections {
        let (mut reader, mut writer) = next_connection(alloc, listener)?;
        after_serving(host_serve(alloc, &mut reader, &mut writer, server))?;
    }
    Ok(())
}

/// Keeps buckets for others. Saves the image however the serving ends.
fn host<R: Files + Net + AllocGlobal>(
    rt: &R,
    address: &str,
    connections: u64,
    image: String,
) -> Result<(), Fault> {
    let file = AtomicFile::new(rt.alloc(), linked_name(rt, image)?)?;
    let mut server = load_image(rt, &file)?;
    let listener = listen(rt, address)?;
    let served = host_connections(rt.alloc(), &listener, connections, &mut server);
    save_image(rt, &file, &server)?;
    served
}

/// Formats a device on a host, and writes its state file. Fails if that file exists.
fn format<R: Files + Net + AllocGlobal, S: Sealer>(
    rt: &R,
    host: &str,
    state: String,
    device: Device,
    sealer: S,
) -> Result<(), Fault>
    requires { device.leaf_load ≡ 1 }
{
    let file = AtomicFile::new(rt.alloc(), state)?;
    file.check_absent(rt)?;
    let (reader, writer) = connect(rt, host)?;
    let mut link = StreamLink::new(rt.alloc(), reader, writer);
    let bytes = format_state(rt.alloc(), device, sealer, &mut link)?;
    Ok(file.save_bytes(rt, &bytes)?)
}

/// Formats a device, sealed with `key` if there is one.
fn format_under<R: Files + Net + AllocGlobal>(
    rt: &R,
    host: &str,
    state: String,
    device: Device,
    key: Option<[u8; 32]>,
) -> Result<(), Fault>
    requires { device.leaf_load ≡ 1 }
{
    match key {
        None => format(rt, host, state, device, PlainSeal),
        Some(key) => format(rt, host, state, device, ChaChaSeal { key }),
    }
}

/// Carries out the commands that wait in the core, and then answers `connections` sessions, one after the other,
/// numbered from 0.
fn sessions<L: OpenListener, S: Sealer, H: Link, T: Tape + Drop>(
    alloc: Global,
    listener: &L,
    connections: u64,
    core: &mut Core<S>,
    link: &mut H,
    tape: &mut RoomyTape<T>,
) -> Result<(), Fault>
where
    L::Stream: Read + Write + OpenStream,
    ensures { IsSameDevice core.old core.new }
{
    after_serving(resume(alloc, core, link))?;
    for session in 0..u32::try_from(connections).unwrap_or(u32::MAX) {
        let (mut reader, mut writer) = next_connection(alloc, listener)?;
        let ended = serve(alloc, &mut reader, &mut writer, core, link, tape, session);
        after_serving(ended)?;
        tape.renew(alloc, core)?;
    }
    Ok(())
}

/// Where a proxy listens, how many sessions it answers, where its host is, and its tape's key.
#[derive(Drop)]
struct Serving {
    address: String,
    connections: u64,
    host: String,
    tape_key: [u8; 32],
}

/// Takes the lock of the state in the file `state`, so that no other proxy goes on from that state too.
fn take_lock(rt: &HostRuntime, state: &str) -> Result<StateLock, Fault> {
    match lock_state(rt, state) {
        Ok(lock) => Ok(lock),
        Err(why) => Err(lock_fault(rt.alloc(), state, &why)),
    }
}

/// Loads the core from the state file `name`.
fn saved_core<S: Sealer>(rt: &HostRuntime, name: &str, sealer: S) -> Result<Core<S>, Fault> {
    let bytes = bytes_in(rt, name)?;
    load_core(rt.alloc(), sealer, &bytes)
}

/// Saves the core to its state file.
fn save_core<S: Sealer>(rt: &HostRuntime, file: &AtomicFile, core: &Core<S>) -> Result<(), Fault> {
    let bytes = encode_state(rt.alloc(), core)?;
    Ok(file.save_bytes(rt, &bytes)?)
}

/// Answers the sessions of a device, and returns how they ended. Fails if they can't begin; the core is then as it was.
fn answer<S: Sealer>(
    rt: &HostRuntime,
    serving: &Serving,
    core: &mut Core<S>,
) -> Result<Result<(), Fault>, Fault> {
    let trees = core.device().trees();
    let tape = ChaChaTape {
        key: serving.tape_key,
        trees,
    };
    let mut tape = RoomyTape::new(rt.alloc(), tape, core)?;
    let listener = listen(rt, serving.address.as_str())?;
    let (reader, writer) = connect(rt, serving.host.as_str())?;
    let mut link = StreamLink::new(rt.alloc(), reader, writer);
    let count = serving.connections;
    Ok(sessions(rt.alloc(), &listener, count, core, &mut link, &mut tape))
}

/// Answers the sessions of the device whose state is in the file `state`. Saves the state however they end.
fn proxy<S: Sealer>(
    rt: &HostRuntime,
    serving: &Serving,
    state: String,
    sealer: S,
) -> Result<(), Fault> {
    let file = AtomicFile::new(rt.alloc(), linked_name(rt, state)?)?;
    file.check_present(rt)?;
    let _lock = take_lock(rt, file.name())?;
    let mut core = saved_core(rt, file.name(), sealer)?;
    // The memory that the tape holds is free again after this.
    let served = answer(rt, serving, &mut core)?;
    save_core(rt, &file, &core)?;
    ending(&core, served)
}

/// Answers the sessions of a device that is sealed with `key`, if there is one.
fn proxy_under(
    rt: &HostRuntime,
    serving: &Serving,
    state: String,
    key: Option<[u8; 32]>,
) -> Result<(), Fault> {
    match key {
        None => proxy(rt, serving, state, PlainSeal),
        Some(key) => proxy(rt, serving, state, ChaChaSeal { key }),
    }
}

/// Reads the settings of a role from the file `name`.
fn settings_in<R: Files + AllocGlobal>(rt: &R, role: Role, name: &str) -> Result<Settings, Fault> {
    let Some(text) = text_in(rt, name)? else {
        return Err(Fault::Settings);
    };
    match read_settings(rt.alloc(), role, text.as_str()) {
        Ok(settings) => Ok(settings),
        Err(InputFault::Bad) => Err(Fault::Settings),
        Err(InputFault::OutOfMemory) => Err(Fault::OutOfMemory),
    }
}

/// Takes a role, with the settings in the file `name`.
pub(crate) fn run(rt: &HostRuntime, role: Role, name: &str) -> Result<(), Fault> {
    match settings_in(rt, role, name)? {
        Settings::Host {
            listen,
            connections,
            image,
        } => host(rt, listen.as_str(), connections, image),
        Settings::Format {
            host,
            state,
            key,
            blocks,
            block_bytes,
            slots,
            top,
            lifetime,
        } => {
            let device = made_device(blocks, block_bytes, slots, top, lifetime)?;
            format_under(rt, host.as_str(), state, device, key)
        }
        Settings::Proxy {
            listen,
            connections,
            host,
            state,
            key,
            tape_key,
        } => {
            let serving = Serving {
                address: listen,
                connections,
                host,
                tape_key,
            };
            proxy_under(rt, &serving, state, key)
        }
    }
}

/// Prints bytes as a line of hexadecimal digits.
fn print_digits<R: Print + AllocGlobal>(rt: &R, bytes: &[u8]) -> Result<(), Fault> {
    let digits = hex::encode(rt.alloc(), bytes)?;
    match println!(rt; "{digits}") {
        Ok(()) => Ok(()),
        Err(error) => Err(Fault::from(call_fault(rt.alloc(), "standard output", &error))),
    }
}

/// Answers the session frames in `digits`, and prints the frames of the replies, even if a later frame can't be read.
pub(crate) fn loop_frames<R: Net + Print + AllocGlobal>(rt: &R, digits: &str) -> Result<(), Fault> {
    let frames = bytes_of(rt.alloc(), digits)?;
    let mut link = match LoopLink::open(rt, rt.alloc(), Server::new(rt.alloc())) {
        Ok(link) => link,
        Err(LinkFault::OutOfMemory) => return Err(Fault::OutOfMemory),
        Err(_) => return Err(Fault::Socket),
    };
    let mut replies = Vec::new(rt.alloc());
    let ended = answer_frames(rt.alloc(), &mut link, &frames, &mut replies);
    if matches!(ended, Ok(()) | Err(Fault::Hex)) {
        print_digits(rt, &replies)?;
    }
    ended
}
