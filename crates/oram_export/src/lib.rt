//! Reads all records of a disk from its host: to check them, or to write the disk's blocks into an image.
//!
//! [`check_disk`] asks the host for the records of each tree, and [`export_disk`] for those of tree 0, which holds the disk's data. Each
//! record is checked against the digest above it, from the root digest down, which the client's core keeps (`oram_scan`). What a host
//! sees is the same list of messages for all disks of one size. It can answer whatever it likes: a record that it changes, or doesn't
//! give, is counted as lost together with all records below it that can't be checked any more, and nothing of them gets into an image.
#![tactic(auto)]

mod batches;
mod blocks;
mod check;
mod export;
mod findings;
mod law;
mod progress;
mod read_fault;
mod tree_reading;
mod visitor;
mod waiting;

pub use blocks::{BlockSink, SinkStop};
pub use check::check_disk;
pub use export::export_disk;
pub use findings::{LevelFindings, TreeFindings};
pub use law::{export_example, found_blocks_example, readings_are_right};
pub use read_fault::ReadFault;
pub use tree_reading::{ReadingWatch, TreeToRead, read_tree};
pub use visitor::{NoVisit, RecordVisitor, VisitFault};
pub use waiting::send_stores;
