//! Checks the records of a whole tree by its root digest, one after the other in the order of their nodes.
//!
//! Each record holds the digests of its children's records (`oram_hash`). So whoever knows the digest of the root can check every
//! record of the tree, level by level from the root down, and needs no path for that: a [`TreeScan`] takes the records one at a time,
//! says of each whether it is the one that was stored, and remembers the digests of the records that come next. There are never
//! more of these than the tree has leaves.
//!
//! If a record isn't there, or isn't the one that was stored, nobody can say what the records below it have to be. The scan goes on
//! all the same, and says of those that they can't be checked.
#![tactic(auto)]

mod laws;
mod tree_scan;

pub use laws::{
    found_blocks_are_the_contents, honest_scans_are_sound, scan_example,
    sound_records_are_the_trees, whole_trees_give_the_content,
};
pub use tree_scan::{Finding, TreeScan};
