//! The result of a whole run.

use oram_semantics::Reaction;

/// The result of a run.
#[derive(Debug, Drop)]
pub struct Run {
    /// The messages of the formatting, the oldest first.
    pub format: Vec<Vec<u8>>,
    /// One reaction for each event, the oldest first. If memory ran out, only those to the first events.
    pub reactions: Vec<Reaction>,
    pub out_of_memory: bool,
}
