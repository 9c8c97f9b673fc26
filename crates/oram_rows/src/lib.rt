//! The rows of a whole disk, where the host has not all of its records.
//!
//! The client of a disk keeps the near records itself, and a formatting sends nothing. So the host has the records that were stored since, and
//! none of the near nodes. Its answer to RECORDS (`oram_records`) lacks the others. A [`RowsLink`] passes each message on and completes the
//! answers to RECORDS: the row of a near node gets the record that the client keeps, and any other row without a record gets the one that the
//! formatting made. So whoever reads a disk over it (`oram_export`) is given what a host would give that had a record for
//! each node. The law [`completed_answers_are_whole`] says so.
//!
//! A host that hides a record that was stored gains nothing: the record of the formatting in its place has another digest.
#![tactic(auto)]

mod known_records;
mod law;
mod rows_link;

pub use law::{completed_answers_are_whole, rows_example};
pub use rows_link::RowsLink;
