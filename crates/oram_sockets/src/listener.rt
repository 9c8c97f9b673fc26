//! Where connections come from: an address of this machine, or a Unix socket, which is a file.

ghost use Rattle.std.specs.Prelude.{None};

use crate::connection::Connection;
use std::fs::DirBuilder;
use std::io::{Error, ErrorKind};
use std::net::{Net, OpenListener, SocketAddr, TcpListener, TcpStream};
use std::os::fd::{AsRawFd, RawFd};
use std::os::unix::fs::{DirBuilderExt, FileTypeExt, PermissionsExt};
use std::os::unix::net::{UnixListener, UnixStream};
use std::rt::Files;
use std::{fmt, fs, io};

/// The mode of a socket's file: only its owner can connect.
const OWNERS_ALONE: u32 = 0o600;

/// The mode of the folder in which a socket is made: only its owner can open it.
const OWNERS_FOLDER: u32 = 0o700;

/// Who has connected.
#[derive(Clone, Copy, Debug, PartialEq, Eq)]
pub enum Peer {
    Address(SocketAddr),
    /// A program of this machine, over a Unix socket. It has no address.
    Local,
}

impl fmt::Display for Peer {
    fn fmt<W: fmt::Write>(&self, f: &mut fmt::Formatter<W>) -> fmt::Result {
        match self {
            Peer::Address(address) => write!(f, "{address}"),
            Peer::Local => f.write_str("a local client"),
        }
    }
}

/// A socket that accepts connections.
#[derive(Drop)]
pub enum Listener {
    Tcp(TcpListener),
    Unix(UnixListener),
}

impl Listener {
    /// Waits for a connection, and accepts it. Fails with `WouldBlock` if none waits and the listener doesn't block.
    pub fn accept(&self) -> io::Result<(Connection<TcpStream>, Peer)> {
        match self {
            Listener::Tcp(listener) => {
                let (stream, address) = listener.accept()?;
                Ok((Connection::Tcp(stream), Peer::Address(address)))
            }
            Listener::Unix(listener) => {
                let (stream, _) = listener.accept()?;
                Ok((Connection::Unix(stream), Peer::Local))
            }
        }
    }

    pub fn set_nonblocking(&self, nonblocking: bool) -> io::Result<()> {
        match self {
            Listener::Tcp(listener) => listener.set_nonblocking(nonblocking),
            Listener::Unix(listener) => listener.set_nonblocking(nonblocking),
        }
    }
}

impl AsRawFd for Listener {
    ghost raw_fd = { λ _. None };

    fn as_raw_fd(&self) -> RawFd {
        match self {
            Listener::Tcp(listener) => listener.as_raw_fd(),
            Listener::Unix(listener) => listener.as_raw_fd(),
        }
    }
}

/// Removes a socket's file if no process listens at that socket any more. A process that is killed leaves such a file.
/// The file stays, and the call fails, if a process listens (`AddrInUse`) or if it isn't a socket (`AlreadyExists`).
fn clear<R: Files + Net>(rt: &R, path: &str) -> io::Result<()> {
    let found = match fs::symlink_metadata(rt, path) {
        Ok(found) => found,
        Err(error) if error.kind() == ErrorKind::NotFound => return Ok(()),
        Err(error) => return Err(error),
    };
    if !found.file_type().is_socket() {
        return Err(Error::from(ErrorKind::AlreadyExists));
    }
    match UnixStream::connect(rt, path) {
        Ok(_) => Err(Error::from(ErrorKind::AddrInUse)),
        Err(error) if error.kind() == ErrorKind::ConnectionRefused => fs::remove_file(rt, path),
        Err(error) => Err(error),
    }
}

/// Removes the folder in which a socket is made, and what is left in it.
fn remove_folder<R: Files>(rt: &R, folder: &str, made: &str) {
    let _may_not_be_there = fs::remove_file(rt, made);
    let _may_not_be_there = fs::remove_dir(rt, folder);
}

/// Makes a listening socket under the name `made`, for its owner alone, and then gives it the name `path`.
fn listen_and_rename<R: Files + Net>(rt: &R, made: &str, path: &str) -> io::Result<UnixListener> {
    let listener = UnixListener::bind(rt, made)?;
    fs::set_permissions(rt, made, fs::Permissions::from_mode(OWNERS_ALONE))?;
    fs::rename(rt, made, path)?;
    Ok(listener)
}

/// Listens at the Unix socket `path`, to which only its owner can connect. Replaces a socket at which nobody listens any more.
///
/// The system decides by the process's umask who can connect to a new socket. So the socket is made in a folder that only its
/// owner can open, and leaves it with its mode. A process that was killed meanwhile may have left that folder.
pub fn listen_at_path<R: Files + Net + AllocGlobal>(rt: &R, path: &str) -> io::Result<Listener> {
    let alloc = rt.alloc();
    clear(rt, path)?;
    let folder = format!(in alloc; "{path}~")?;
    let made = format!(in alloc; "{path}~/s")?;
    remove_folder(rt, folder.as_str(), made.as_str());
    let mut builder = DirBuilder::new();
    builder.mode(OWNERS_FOLDER);
    builder.create(rt, folder.as_str())?;
    let listener = listen_and_rename(rt, made.as_str(), path);
    remove_folder(rt, folder.as_str(), made.as_str());
    Ok(Listener::Unix(listener?))
}
