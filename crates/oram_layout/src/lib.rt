//! The layout of a bucket file: a header that lists the trees, and a cell for the record of each node.
//!
//! A tree has a known number of records of one length, so each record has its place, as in a disk image: a sparse file
//! grows with what is stored, and nothing has to be read to find a record. The first byte of a cell, its mark, is 1 if
//! the cell has a record. The mark is a byte of its own, so that a torn write never touches another cell.
//! `specs/Header.antt` and `specs/Limits.antt` define the layout to the byte.
//!
//! Nothing here reads or writes a file. `specs/BucketFile.antt` says when the content of a file holds trees, and
//! `specs/Records.antt` which records they have. `specs/Changes.antt` has the patches that change them, and the laws
//! say what each patch does.
#![tactic(auto)]

mod entries;
mod faults;
mod fronts;
mod laws;
mod numbers;
mod shapes;
mod trees;

pub use entries::{TREES, entry_place, next_base, read_trees};
pub use faults::LayoutFault;
pub use fronts::{Front, LETTERS, read_front};
pub use laws::{
    a_mark_shares_a_block, a_record_is_put, a_tree_is_added, an_empty_file, levels_are_put,
    loose_patches, marked_records, one_list_of_trees, patches_fit, same_content,
};
pub use shapes::Shape;
pub use trees::{CELLS_AT, CELLS_END, ENTRY_LEN, Tree};
