//! The messages of checkpoints, and the answer to SUMMARY.
//!
//! A checkpoint is a moment of a disk to which whoever has the disk's key can go back, even if the client's files are lost. The client
//! ends it by CHECKPOINT, which leaves at the host the checkpoint's number and a summary: a text that only the key can open. SUMMARY asks
//! for the number and the summary of the last checkpoint. RECORDS asks for the records of nodes in a row, either those that the host has
//! now or those that it had at its last checkpoint, which the request names by its number.
//!
//! The host can't read a summary. So to this crate a summary is a text that isn't too long. All numbers are big-endian.
#![tactic(auto)]

mod answer;
mod numbers;
mod request;
mod view;

pub use answer::{SUMMARY_HEAD_LEN, split_summary, summary_head};
pub use request::{
    CHECKPOINT_HEADER_LEN, CheckpointRequest, LONGEST_SUMMARY, SUMMARY_BODY, checkpoint_header,
};
pub use view::{View, ViewedRecords};
