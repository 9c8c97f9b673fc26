//! The messages about some levels of a path, FETCH of levels and STORE of levels, and the answer to the first.
//!
//! A client that keeps the records of a tree's top levels itself needs only those below from the host. FETCH of levels asks for the
//! records of a path from one level to another. The host answers with as many of them as it has, without a gap: so the answer ends before
//! the first level whose node has no record. STORE of levels replaces the records of a path from one level to that of the leaf.
//!
//! Only the host of a disk answers these messages. All numbers are big-endian; level 0 is that of the root.
#![tactic(auto)]

mod answer;
mod request;

pub use answer::split_levels;
pub use request::{
    FETCH_LEVELS_LEN, LevelsRequest, STORE_HEADER_LEN, fetch_levels, store_levels_header,
};
