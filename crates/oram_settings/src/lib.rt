//! The settings that the owner of a disk gives, and what the program shows of the disk.
//!
//! [`read_disk_settings`] reads the settings file of a disk, [`disk_text`] writes a first one, [`disk_complaint`] says what is
//! wrong with one, [`numbers_complaint`] with its numbers, and [`read_size`] reads a size as people write it; [`size_mistake`]
//! says why a new disk can't have a size.
//! [`first_difference`] finds a setting that differs from those that the disk was formatted with. [`status_of`],
//! [`report`] and [`report_json`] are for the status of a disk, [`progress_text`] and [`Meter`] for the progress of what takes long, and
//! [`stored_bytes`] for the room that a disk takes at its host. [`near_levels`] and [`near_len`] say which records the client keeps
//! itself. [`made_text`] and the functions beside it return what the program says when all goes
//! well. [`read_command_line`] reads the command line, and answers a request for help.
#![tactic(auto)]

mod amounts;
mod announcements;
mod command_line;
mod complaints;
mod differences;
mod disk_file;
mod footprint;
mod help;
mod names;
mod near_records;
mod new_size;
mod progress;
mod sizes;
mod status;

pub use amounts::{amount_text, counted, size_text};
pub use announcements::{begun_text, hosting_text, made_text, serving_text};
pub use command_line::{NoRequest, Subcommand, read_command_line};
pub use complaints::{
    SECTOR, disk_complaint, host_complaint, numbers_complaint, sectors_complaint,
};
pub use differences::{FixedKey, first_difference, value_text};
pub use disk_file::{
    DEFAULT_BLOCK, DEFAULT_LEAF_LOAD, DEFAULT_SLOTS, DiskSettings, LIFETIME, Sealing, default_near,
    default_table, device_of, disk_text, place_at, read_disk_settings,
};
pub use footprint::{overhead_of, stored_bytes};
pub use names::{place_beside, relative_to};
pub use near_records::{near_len, near_levels};
pub use new_size::size_mistake;
pub use progress::{LongWork, Meter, percent, progress_text};
pub use sizes::read_size;
pub use status::{Status, failure_text, report, report_json, status_of};
