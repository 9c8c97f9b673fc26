//! The message RECORDS, which asks the host of a disk for the records of nodes in a row, and its answer.
//!
//! A FETCH gives the records of one path, so reading all of a tree by FETCHes would move the records near the root once for each leaf.
//! RECORDS gives each record once. The client names a tree, the first node and how many nodes it wants; the host says of each of these
//! nodes whether it has a record, and gives it. Neither depends on what is in a block.
//!
//! Only the host of a disk answers this message. All numbers are big-endian.
#![tactic(auto)]

mod request;
mod rows;

pub use request::{REQUEST_LEN, RecordsRequest};
pub use rows::{most_rows, split_row};
