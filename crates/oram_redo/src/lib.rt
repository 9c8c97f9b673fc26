//! A redo log for one file of records. Each batch of patches is in the log, on the disk, before any of it is written to
//! its place.
//!
//! The log holds entries, one after the other: a gate (a byte, 255 where it is open), a place (an offset in the records'
//! file), a length, that many bytes, and a checksum of the place, the length and the bytes. The entries that count are the
//! longest run with open gates from the log's start on. A batch is written after the last entry, all but its first gate,
//! and synced; then that gate is opened and synced. So after a crash the log has the whole batch or none of it, and that
//! rests on no checksum. A gate that is shut is never shut again, because a crash might tear that write and open the gate.
//!
//! The checksums are for what happens to the log afterwards: a disk that gets old, or a copy that goes wrong. The whole log
//! is read and found sound before any of it is written to its place. A gate that is shut is 15: four bits make it an open one,
//! and four make it 0. So a gate that is neither of the two has changed since, or the log was cut off before it, and such a log
//! is refused. Only a crash that tears the write of a single byte would leave that too. So a new log needs a shut gate at its
//! start before it is opened first.
//!
//! [`FilePair`] is the pair of files, as far as a contract can say what files do: what a read returns, what a crash may
//! leave now, and what a crash at each past moment might have left. [`recover`] opens a pair. It syncs both files
//! first, since a killed process leaves writes that no sync has covered. [`Redo::commit`] commits a batch, all of it or
//! nothing. [`Redo::write_loose`] writes a patch that doesn't count yet. [`Redo::restart`] makes loose patches durable
//! and empties the log. [`write_fronts`] writes what the caller keeps in the two files besides. [`MemoryPair`] is a pair in memory, and [`SystemPair`] is a pair of the operating system's
//! files, which may also be used without syncs ([`Syncs`]). Before a pair is made of them, [`renew_log`] puts a copy of the log in its place, so that nothing is left of a sync that failed.
//!
//! The model of a crash: bytes outside the ranges that were written since the last sync do not change, and holes read
//! as zeros.
#![tactic(auto)]

mod batch;
mod bounds;
mod call_history;
mod faults;
mod file_bytes;
mod file_pair;
mod growth;
mod laws;
mod length;
mod memory;
mod named_log;
mod origin;
mod recovery;
mod redo;
mod renewal;
mod steps;
mod syncs;
mod system;
mod system_calls;
mod system_files;

pub use batch::{OPEN, Patch, SHUT, check_of};
pub use bounds::Bounds;
pub use faults::RedoError;
pub use file_pair::{FileKind, FilePair};
pub use laws::{
    blanks_are_zeros, crash_keeps_records, first_commit, one_reading, openings_lose_nothing,
    renewals_need_both_syncs, renewed_logs_stand, replay_heals,
};
pub use length::{LENGTH_AT, LENGTH_FIELD_LEN, is_cut_short};
pub use memory::MemoryPair;
pub use named_log::{NamedLog, is_refused};
pub use origin::Origin;
pub use redo::{Redo, recover};
pub use renewal::renew_log;
pub use steps::write_fronts;
pub use syncs::Syncs;
pub use system::SystemPair;
