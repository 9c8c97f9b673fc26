//! Keeps the process of a disk in a pair of files, a file and its redo log.
//!
//! The text that `oram_kept` keeps there is that of the process (`oram_rounds::encode_kept`), behind a title, which is the same in each
//! keeping: whoever keeps a disk has there what it needs to know of the disk before it can read the process. A keeping costs what has changed of the
//! core's table, and the texts around the table. A crash at any moment leaves the process that was kept last, or the one whose keeping was
//! under way.
#![tactic(auto)]

mod first_process;
mod found_process;
mod kept_files;
mod law;
mod pair_keeper;

pub use first_process::FirstProcess;
pub use found_process::FoundProcess;
pub use kept_files::{OpenFault, ReadProcess, check_free, make_kept, open_kept, read_kept};
pub use law::{changes_are_told, found_pair_begins, found_process_was_noted};
pub use pair_keeper::{KeepFailure, KeeperFault, PairKeeper};
