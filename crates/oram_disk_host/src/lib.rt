//! The host's side of a disk's program: it keeps buckets in a file for others. It also has the faults that end the
//! program, those of the client's side included.
//!
//! [`host`] serves a file of buckets; [`read_host_settings`] reads its settings. [`answer_messages`] answers the messages of a
//! connection from a [`TalliedStore`]: a store that is served, with the [`Tally`] of a connection, which tells a [`DiskWatch`] how the disk is, and [`line`] is the line that is printed for a [`ConnectionReport`]. A [`Fault`] says
//! why the program ends: mostly by a [`FaultKind`] and the name of what it is about. [`report_fault`] writes its line, and
//! returns its exit status.
#![tactic(auto)]

mod attendant;
mod connection;
mod disk_watch;
mod faults;
mod host_loop;
mod kinds;
mod laws;
mod serving;
mod settings_file;
mod tallied_store;
mod tally;

pub use connection::{ConnectionReport, EarlyEnd, line};
pub use disk_watch::{DiskNews, DiskWatch};
pub use faults::{Fault, report_fault, store_fault};
pub use host_loop::{host, listen_at, not_accepted, time};
pub use kinds::FaultKind;
pub use laws::{answers_last, first_connection};
pub use serving::answer_messages;
pub use settings_file::{FIRST_SETTINGS, HostSettings, read_host_settings, settings_text};
pub use tallied_store::TalliedStore;
pub use tally::Tally;
