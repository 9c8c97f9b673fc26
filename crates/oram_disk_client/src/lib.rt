//! The client's side of a disk's program, except for serving the disk: it makes a new disk, formats it, reports its status, reads
//! all of it, and lets a failed one be tried again.
//!
//! [`make_folder`], [`format_disk`], [`print_status`], [`check_host`], [`export_image`] and [`retry`] are the commands. The functions beside them read the files
//! of a disk, for these commands and for the one that serves: [`disk_in`] its settings, [`kept_disk`] and [`process_for`] its state, and
//! [`kept_failure`] why it failed. [`host_fault`] says why a program ends whose link to its host has given up.
#![tactic(auto)]

mod disk_files;
mod failures;
mod findings_text;
mod format_command;
mod hashing;
mod host_asked;
mod host_faults;
mod host_link;
mod image_file;
mod introducing;
mod new_disk;
mod progress_printer;
mod read_command;
mod reading_ends;
mod serving;
mod status_command;

pub use disk_files::{
    KeptDisk, disk_in, kept_disk, keys_in, named, process_for, take_lock, unkept,
};
pub use failures::{keep_failure, kept_failure};
pub use format_command::format_disk;
pub use host_asked::{ReachedCore, reached};
pub use host_faults::{host_fault, host_fault_kind};
pub use host_link::{HostLink, HostStatusPrinter, link_to};
pub use new_disk::make_folder;
pub use read_command::{check_host, export_image};
pub use serving::{DiskSealer, LockedDisk, Stop, UnfailedDisk, sealer_in, stop_fault, tape_for};
pub use status_command::{print_status, retry};
