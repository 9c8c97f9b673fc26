//! Laws about a device over an honest host, which answers each message as a bucket server does, or loses it.
//!
//! If such a host keeps the records of a core that serves an array, the core still serves the array after every event
//! and never fails. The same holds of a core that has just been formatted over a new server. Nothing here runs: the
//! laws are for crates that drive a core over a server of their own.
#![tactic(auto)]

mod law;

pub use law::{honest_hosts_serve, lying_hosts_fail, new_hosts_serve};
