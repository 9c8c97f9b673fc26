//! The NBD protocol over a device of whole blocks: its handshake, its requests and replies, and the service of one connection.
//!
//! The protocol is the public one (NetworkBlockDevice/nbd, doc/proto.md): the fixed newstyle handshake, simple replies,
//! and the commands READ, WRITE, FLUSH, TRIM, WRITE_ZEROES and DISC. The server serves a [`BlockDevice`]: an array of bytes
//! that carries out lists of operations on whole blocks. [`negotiate`] does the handshake, [`transmit`] answers the requests
//! after it, and [`serve`] serves a whole connection. [`is_stop`] says whether a connection ended because its disk has stopped.
#![tactic(auto)]

mod arrivals;
mod batches;
mod client_watch;
mod connection;
mod disk;
mod disk_sizes;
mod faults;
mod handshake;
mod law;
mod lists;
mod mem_disk;
mod negotiation;
mod numbers;
mod operations;
mod options;
mod ranges;
mod replies;
mod request_reader;
mod requests;
mod service;
mod streams;
mod transmission;

pub use arrivals::Arrived;
pub use client_watch::ClientWatch;
pub use connection::{is_stop, serve};
pub use disk::BlockDevice;
pub use faults::{DiskFault, NbdError, NbdFault};
pub use handshake::{Agreement, Export};
pub use law::connections_serve_arrays;
pub use mem_disk::MemDisk;
pub use negotiation::negotiate;
pub use operations::Operation;
pub use options::{HandshakeOption, OptionHead, ReplyKind, wanted_name};
pub use requests::{Command, Request};
pub use transmission::transmit;

/// The greatest number of bytes of one READ or WRITE.
pub const LONGEST_PAYLOAD: u32 = 33_554_432;

/// The greatest number of bytes that an option of the handshake may carry. A longer option is refused.
pub const LONGEST_OPTION: u32 = 65_536;

/// The greatest number of options of a handshake.
pub const MOST_OPTIONS: u32 = 1_000;

/// The longest name of an export, in bytes.
pub const LONGEST_NAME: usize = 4_096;
