//! Defines what a run of the block store is and which reactions to its events are right, and states the law that a core
//! which follows one local rule is always right.
//!
//! A run is a list of events. After any beginning of the run, which is then its *past*, the definitions say what was last
//! stored at the host, what an answer means, and which note, replies and messages an event calls for. They speak of messages,
//! words of the tape and a plain array, but of no core. The local rule says what one event does to a core in a world, that is,
//! given the records at the host and what the trees hold. A core's trees *stand* in a world if the records there match their
//! root digests and, with their stashes, hold what the trees hold there; they *agree* there if each block's map entry names its
//! leaf. Whatever a core does by the local rule, from the formatting on, is right over every list of events.
#![tactic(auto)]

mod events;
mod law;

pub use events::{Command, Event, Note, Reaction, Reason, Refusal, Reply, ReplyBody, Submission};
pub use law::{
    cores_ask_in_turn, cores_serve, cores_tell, new_cores_serve, next_fetches_are_entries,
    nonces_are_apart, steps_are_right, two_worlds_look_alike,
};
