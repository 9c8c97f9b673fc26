//! Connections over TCP or over a Unix socket, and how a program connects to either.

ghost use Rattle.std.specs.Prelude.{None};

use oram_cli::{SocketFault, connect_within};
use std::io;
use std::io::{Read, Write};
use std::net::{Net, OpenStream};
use std::os::fd::{AsRawFd, RawFd};
use std::os::unix::net::UnixStream;
use std::rt::Clock;
use std::time::Duration;

/// What the name of a Unix socket begins with where settings name a place.
pub const UNIX: &str = "unix:";

/// A connection. `T` is the kind of those over TCP.
#[derive(Drop)]
pub enum Connection<T> {
    Tcp(T),
    Unix(UnixStream),
}

impl<T: AsRawFd> AsRawFd for Connection<T> {
    ghost raw_fd = { λ _. None };

    fn as_raw_fd(&self) -> RawFd {
        match self {
            Connection::Tcp(stream) => stream.as_raw_fd(),
            Connection::Unix(stream) => stream.as_raw_fd(),
        }
    }
}

impl<T: Read> Read for Connection<T> {
    ghost use Rattle.oram_sockets.specs.Connections.{bytes_of};

    ghost remaining = { λ c. bytes_of T.remaining c };

    fn read(&mut self, buf: &mut [u8]) -> io::Result<usize> {
        match self {
            Connection::Tcp(stream) => stream.read(buf),
            Connection::Unix(stream) => stream.read(buf),
        }
    }
}

impl<T: Write> Write for Connection<T> {
    ghost use Rattle.oram_sockets.specs.Connections.{bytes_of};

    ghost contents = { λ c. bytes_of T.contents c };

    fn write(&mut self, buf: &[u8]) -> io::Result<usize> {
        match self {
            Connection::Tcp(stream) => stream.write(buf),
            Connection::Unix(stream) => stream.write(buf),
        }
    }

    fn flush(&mut self) -> io::Result<()> {
        match self {
            Connection::Tcp(stream) => stream.flush(),
            Connection::Unix(stream) => stream.flush(),
        }
    }
}

impl<T: OpenStream> OpenStream for Connection<T> {
    // A Unix socket holds nothing back anyway.
    fn set_nodelay(&self, nodelay: bool) -> io::Result<()> {
        match self {
            Connection::Tcp(stream) => stream.set_nodelay(nodelay),
            Connection::Unix(_) => Ok(()),
        }
    }

    fn set_nonblocking(&self, nonblocking: bool) -> io::Result<()> {
        match self {
            Connection::Tcp(stream) => stream.set_nonblocking(nonblocking),
            Connection::Unix(stream) => stream.set_nonblocking(nonblocking),
        }
    }

    fn set_read_timeout(&self, limit: Option<Duration>) -> io::Result<()> {
        match self {
            Connection::Tcp(stream) => stream.set_read_timeout(limit),
            Connection::Unix(stream) => stream.set_read_timeout(limit),
        }
    }

    fn set_write_timeout(&self, limit: Option<Duration>) -> io::Result<()> {
        match self {
            Connection::Tcp(stream) => stream.set_write_timeout(limit),
            Connection::Unix(stream) => stream.set_write_timeout(limit),
        }
    }

    fn read_timeout(&self) -> io::Result<Option<Duration>> {
        match self {
            Connection::Tcp(stream) => stream.read_timeout(),
            Connection::Unix(stream) => stream.read_timeout(),
        }
    }

    fn write_timeout(&self) -> io::Result<Option<Duration>> {
        match self {
            Connection::Tcp(stream) => stream.write_timeout(),
            Connection::Unix(stream) => stream.write_timeout(),
        }
    }

    fn try_clone(&self) -> io::Result<Connection<T>> {
        Ok(match self {
            Connection::Tcp(stream) => Connection::Tcp(stream.try_clone()?),
            Connection::Unix(stream) => Connection::Unix(stream.try_clone()?),
        })
    }
}

/// Connects to a place: to an address within `limit`, or to a Unix socket, `unix:` and its path. Returns the reader and the writer
/// of the connection. The system connects to a Unix socket at once, unless more than a hundred connections wait there already.
pub fn connect_to<R: Net + Clock>(
    rt: &R,
    place: &str,
    limit: Duration,
) -> Result<(Connection<R::Stream>, Connection<R::Stream>), SocketFault> {
    match place.strip_prefix(UNIX) {
        Some(path) => {
            let stream = UnixStream::connect(rt, path)?;
            let writer = stream.try_clone()?;
            Ok((Connection::Unix(stream), Connection::Unix(writer)))
        }
        None => {
            let (reader, writer) = connect_within(rt, place, limit)?;
            Ok((Connection::Tcp(reader), Connection::Tcp(writer)))
        }
    }
}
