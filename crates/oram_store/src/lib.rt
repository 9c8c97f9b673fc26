//! A bucket server that keeps its records in a file.
//!
//! It gives the same answers, code by code, as `oram_host::Server`, except that it keeps the identity of a disk from being
//! changed ([`DISK_IDENTITY_TREE`]), that it also gives the records of nodes in a row (`oram_records`), and that it gives and replaces
//! the records of some levels of a path (`oram_levels`). `oram_layout` defines the layout of the file, and a
//! redo log beside it (`oram_redo`) takes each change before the file does. `oram_pair` makes and opens the two. So a crash at any moment leaves the records
//! as they were before a request or as they are after it. A STORE is durable before it is answered; the records of a
//! formatting become durable in groups.
#![tactic(auto)]

mod answers;
mod batches;
mod cells;
mod creation;
mod faults;
mod files;
mod group_answers;
mod groups;
mod laws;
mod level_answers;
mod record_file;
mod rows;
mod sinks;
mod store;

pub use creation::create;
pub use faults::StoreFault;
pub use files::{BucketFile, make_store, open_pair, open_store};
pub use laws::{
    answered_is_found_again, first_group, first_life, found_again, groups_in_turn, identity_stays,
    new_files_stand, opening_loses_nothing,
};
pub use store::{DISK_IDENTITY_TREE, FileStore};
