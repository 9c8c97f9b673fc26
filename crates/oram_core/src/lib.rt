//! The core of the client: a machine that takes events, and returns what to reply and which messages to send to the
//! host.
//!
//! One event is one atomic step. The core keeps the trees' root digests and stashes, the position map of the last tree,
//! the commands without a reply, and the outstanding message (Path ORAM, CCS 2013, sections 3 and 4; the position map of
//! each tree is kept in the next tree). `oram_semantics` defines what the core has to do.
#![tactic(auto)]

mod access;
mod answers;
mod changes;
mod core_format;
mod machine;
mod messages;
mod next_fetches;
mod outcome;
mod parts;
mod path_access;
mod progress;
mod verdicts;
mod whole;

pub use changes::TableChanges;
pub use machine::{Core, MOST_WAITING};
pub use next_fetches::sound_cores_are_in_turn;
pub use oram_semantics::{
    Command, Event, Note, Reaction, Reason, Refusal, Reply, ReplyBody, Submission,
};
pub use oram_tree::{PartsFault, TreeParts};
pub use outcome::Run;
pub use parts::{Parts, Pending};
pub use whole::run;
