//! Sockets that programs listen at and connect to.

ghost use Rattle.std.specs.IoError.{error_kind};
ghost use Rattle.std.specs.Prelude.{◌≡◌};
ghost use Rattle.oram_cli.specs.Sockets.{socket_fault};

use std::alloc::Global;
use std::io;
use std::io::{BufReader, BufWriter, ErrorKind, Read, Write};
use std::net::{Net, OpenStream, TcpListener, TcpStream, ToSocketAddrs};
use std::rt::Clock;
use std::time::{Duration, Instant};
use thiserror::Error;

/// Why a socket can't be used.
#[derive(Clone, Copy, Debug, PartialEq, Eq, Error)]
pub enum SocketFault {
    #[error("a socket failed")]
    Failed,
    #[error("out of memory")]
    OutOfMemory,
}

impl From<io::Error> for SocketFault {
    ghost from_gives = { λ error fault. fault ≡ socket_fault (error_kind error) };

    fn from(error: io::Error) -> SocketFault {
        match error.kind() {
            ErrorKind::OutOfMemory => SocketFault::OutOfMemory,
            _ => SocketFault::Failed,
        }
    }
}

/// Listens at an address.
pub fn listen<R: Net>(rt: &R, address: &str) -> Result<R::Listener, SocketFault> {
    Ok(TcpListener::bind(rt, address)?)
}

/// Returns the two directions of a stream, the reader first. What is written goes out at once.
fn halves<S: OpenStream + Drop>(stream: S) -> io::Result<(S, S)> {
    stream.set_nodelay(true)?;
    let writer = stream.try_clone()?;
    Ok((stream, writer))
}

/// Connects to an address, and returns the reader and the writer of the connection.
pub fn connect<R: Net>(rt: &R, address: &str) -> Result<(R::Stream, R::Stream), SocketFault> {
    Ok(halves(TcpStream::connect(rt, address)?)?)
}

/// The shortest time that is given to one attempt to connect, in milliseconds.
const SHORTEST_TRY: u64 = 1;

/// Returns what is left of `limit` since `begin`, but at least the time of one attempt. If the clock can't be read, all
/// of it is left.
fn left_of<R: Clock>(rt: &R, begin: Option<Instant>, limit: Duration) -> Duration {
    let passed = begin
        .and_then(|begin| begin.elapsed(rt).ok())
        .unwrap_or(Duration::ZERO);
    limit
        .saturating_sub(passed)
        .max(Duration::from_millis(SHORTEST_TRY))
}

/// Connects to an address within `limit`, and returns the reader and the writer of the connection. If a name has
/// several addresses, it tries each in turn, with the time that the earlier ones have left. If memory runs out, it tries
/// no further address, since that is no fault of the address. The time for looking up a name isn't limited.
pub fn connect_within<R: Net + Clock>(
    rt: &R,
    address: &str,
    limit: Duration,
) -> Result<(R::Stream, R::Stream), SocketFault> {
    let found = address.to_socket_addrs(rt)?;
    let begin = Instant::now(rt).ok();
    for place in found {
        match TcpStream::connect_timeout(rt, &place, left_of(rt, begin, limit)) {
            Ok(stream) => return Ok(halves(stream)?),
            Err(error) if error.kind() == ErrorKind::OutOfMemory => return Err(error.into()),
            Err(_) => {}
        }
    }
    Err(SocketFault::Failed)
}

/// Sets how long the other side of a connection may be silent, for the reader and the writer of the connection together.
pub fn limit_silence<S: OpenStream>(stream: &S, limit: Duration) -> io::Result<()> {
    stream.set_read_timeout(Some(limit))?;
    stream.set_write_timeout(Some(limit))
}

/// Returns a buffered reader and a buffered writer for a stream.
pub fn buffered<S: Read + Write + OpenStream + Drop>(
    alloc: Global,
    stream: S,
) -> io::Result<(BufReader<S>, BufWriter<S>)> {
    let (reader, writer) = halves(stream)?;
    Ok((
        BufReader::new(alloc, reader)?,
        BufWriter::new(alloc, writer)?,
    ))
}
