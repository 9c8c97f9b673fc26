//! Stamps: how a client of a disk notices that its state, or its host's file, is older than the other one.
//!
//! Each batch of messages that a client sends after it has kept its state has a [`Stamp`]: a number, which is greater with each batch, and
//! the check of the process that was kept, masked by a key of the disk. So a stamp names one batch of one keeping of one process. If two
//! processes go on from copies of one state and keep theirs, their stamps differ, even where the numbers are equal.
//!
//! The host keeps two stamps of its disk, each with a tag that only the disk's client can make: the stamp of the batch that it began to
//! receive last, and the stamp of the last batch whose STOREs it has all answered. [`Known`] is what a client knows of these two, and it
//! decides whether a host may show the stamps that it shows.
//!
//! A batch that is sent again has another number. Otherwise a file of the host in which a STORE is missing, since the host had no room for
//! it, would show the same stamps as its file after the STORE was carried out.
#![tactic(auto)]

mod known;
mod law;
mod note;
mod stamp;

pub use known::{FIRST_STAMP, Known, Mismatch};
pub use law::{
    life_example, newest_states_pass, older_files_are_refused, older_states_are_refused,
    refusal_example,
};
pub use note::{NoteFault, decode_note, encode_note};
pub use stamp::{Place, RECORD_LEN, Shown, Stamp, StampKey, decode_shown, encode_record, masked};
