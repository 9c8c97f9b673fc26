//! Connections that keep nobody out: while a server waits for one of them, it also watches the listener and the clock.
//!
//! A [`Listener`] accepts connections at an address or at a Unix socket, and [`connect_to`] connects to either. [`watch`]
//! returns both directions of a connection. An [`Attendant`] decides how long the server waits for it, and what happens when
//! somebody else connects. While the server is at work and waits for nobody, a [`Look`] sees the same.
//! A client's connection is a [`Duplex`]: it takes in what arrives while it waits to write.
//! If a server answers messages, [`MarkedReader`] and [`MarkedWriter`] tell it whether it is in the middle of one.
#![tactic(auto)]

mod connection;
mod duplex;
mod listener;
mod look;
mod marked;
mod watched;

pub use connection::{Connection, UNIX, connect_to};
pub use duplex::{Duplex, WriteDuplex};
pub use listener::{Listener, Peer, listen_at_path};
pub use look::{Look, Seen};
pub use marked::{Arrived, MarkedReader, MarkedWriter, Marks};
pub use watched::{Attendant, Direction, Halves, Watched, watch};
