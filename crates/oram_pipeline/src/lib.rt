//! Messages that go to a host ahead of their answers.
//!
//! A [`PipelinedLink`] sends the messages of a batch before their answers are wanted. So the host works and sends while its client does
//! something else, such as working through the answers of the batch before.
#![tactic(auto)]

mod one_by_one;
mod pipelined_link;

pub use pipelined_link::PipelinedLink;
