//! Lists of bytes and of words on the heap, which a contract sees as plain lists of numbers.
//!
//! In a contract a `Vec` is its items, its capacity and its allocator; but in a message or a command only the items
//! matter. So the enums of the layers above hold `Bytes` and `Words`, and two of these are equal if their items are
//! equal.
#![tactic(auto)]

mod byte_list;
mod word_list;

pub use byte_list::Bytes;
pub use word_list::Words;
