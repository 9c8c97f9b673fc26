//! Laws about processes whose client keeps the near records itself.
//!
//! The laws of `oram_rounds` speak of a process whose link leads to a host of whole paths. The link of a disk's process is a `NearLink` of
//! `oram_near`, and its host keeps levels of paths. These laws put both together: what `oram_rounds` promises holds of such a process, too,
//! whatever the host of levels answers.
#![tactic(auto)]

mod law;

pub use law::{
    acts_over_levels_are_safe, next_over_levels_example, next_over_levels_is_safe,
    reading_over_levels_example, replies_over_levels_are_the_arrays,
};
