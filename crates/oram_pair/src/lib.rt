//! A file of records with its redo log beside it (`oram_redo`): how the two are made, known as a pair, and opened.
//!
//! A pair is of a kind, which its letters name ([`PairFormat`]); what its records are is its owner's business. The front of each file, its
//! first 4,096 bytes, says the kind, an identity that only the two share, and how often the log was begun, its [`Generation`]. So a file is never
//! opened beside a log of another file or of another moment.
//!
//! [`make_pair`] makes a new pair, which its owner fills before it gets its names ([`Fill`]): whenever the process or the machine ends, there is
//! nothing at its path, or the whole pair ([`never_leaves_half`]). [`open_files`] opens one that is there, locks it, and puts a copy in
//! the place of its log.
#![tactic(auto)]

mod copying;
mod faults;
mod files;
mod filling;
mod format;
mod fronts;
mod generations;
mod history;
mod leftovers;
mod log_copy;
mod making;
mod matching;
mod names;
mod new_pair;
mod numbers;
mod opening;

pub use copying::{CopiedPair, copy_files};
pub use faults::PairFault;
pub use filling::{Fill, begin_files, fill_files};
pub use format::{PairFormat, PairLetters};
pub use fronts::{FRONT_LEN, Identity, LETTERS_LEN, front_of, identity_in};
pub use generations::{Generation, Newest, WHOLE_FRONT_LEN, newest_in};
pub use leftovers::Found;
pub use making::{Place, check_free, check_place, make_pair, never_leaves_half};
pub use numbers::eight_bytes_in;
pub use opening::{OpenedPair, open_files};
