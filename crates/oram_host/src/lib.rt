//! The bucket host in memory. It keeps the records of trees, and returns for a path the records
//! that it was last given.
//!
//! `oram_wire` defines the requests; `Server::handle` answers one. [`host_serve`] serves a connection: it reads request
//! frames and writes the answers of any [`BucketServer`], until the input ends. [`put_body`] and [`ServeFault`] serve a
//! client's sessions too.
#![tactic(auto)]

mod bucket_server;
mod connection;
mod images;
mod refusals;
mod serve_fault;
mod server;
mod sinks;
mod swaps;
mod trees;

pub use bucket_server::BucketServer;
pub use connection::{host_serve, put_body};
pub use images::{ImageFault, images_are_exact};
pub use refusals::HostRefusal;
pub use serve_fault::ServeFault;
pub use server::Server;
