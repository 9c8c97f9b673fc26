//! The records that the formatting of a device makes.
//!
//! A formatting (`oram_core`) gives each node of each tree a record with an empty bucket. Such a record depends on the sealer, the device
//! and the node alone. So a client needn't send these records to the host: it can make a path of them anew when it needs it.
//!
//! An inner node's record has the digests of its children's records, and these stand for whole subtrees. A client keeps the digests that
//! end the records of the upper nodes, which are those more than three levels above the leaves: [`EmptyDigests`] borrows these. It makes the
//! few records below anew each time. The digests come from one formatting, whose messages a [`FormatSink`] takes without sending them.
#![tactic(auto)]

mod digests;
mod format_sink;
mod laws;
mod nonces;
mod paths;
mod records;

pub use digests::{EmptyDigests, digests_len};
pub use format_sink::FormatSink;
pub use laws::{
    collections_have_the_formatting, empty_paths_are_the_trees, formats_put_empty_records,
    formatting_example, lower_levels_are_the_trees, made_example, made_records_are_empty,
    made_records_are_of_nodes,
};
