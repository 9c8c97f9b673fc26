//! A process of a device as a disk.
//!
//! A [`Volume`] is a core with the link to its host, the keeper of what has to outlive the process, and the tape of its words.
//! `oram_nbd` hands it lists of operations on whole blocks, which it carries out in rounds of up to 64 commands. It first
//! carries out the commands that still wait from before.
#![tactic(auto)]

mod commands;
mod disk;
mod law;
mod volume;

pub use law::{begun_devices_hold, held_devices_hold, kept_bytes_outlast, next_process_example};
pub use volume::Volume;
