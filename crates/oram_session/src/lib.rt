//! Sessions: a core answers the requests that a user sends in frames, with a host behind a link and the words of a tape.
//!
//! A [`Link`] leads to the bucket host: [`Direct`] to a server in memory, [`StreamLink`] to a host over a reader and a
//! writer, [`LoopLink`] to a server that it owns over a socket to itself, and [`FaultLink`] goes over another link and
//! simulates faults. A [`Tape`] gives each command its words: [`ListTape`] from a list, [`ChaChaTape`] from a stream
//! cipher. [`format_device`] formats a device on the host behind a link. [`serve`] answers the request frames of a
//! reader, one after the other; [`host_serve`] does the same with a bucket server, at the other end of a link.
//! [`resume`] carries out the commands that still wait in a core that was read back.
#![tactic(auto)]

mod device_format;
mod exchanges;
mod law;
mod link;
mod links;
mod recovery;
mod requests;
mod tape;
mod tapes;
mod turns;

pub use device_format::format_device;
pub use exchanges::{MOST_RETRIES, exchange};
pub use law::{
    direct_links_are_honest, faulty_links_are_honest, new_devices_hold_zeros,
    sessions_are_the_arrays,
};
pub use link::{Link, LinkFault};
pub use links::{Direct, FaultLink, LoopLink, StreamLink};
pub use oram_host::{ServeFault, host_serve};
pub use recovery::{has_no_work, reopen, resume};
pub use tape::Tape;
pub use tapes::{ChaChaTape, ListTape};
pub use turns::{serve, submit};
