//! The blocks of a tree, the bytes of a bucket, and the sealer that hides a bucket from the host.
//!
//! A bucket of a Path ORAM (Stefanov et al., CCS 2013, section 3) holds a few blocks, and dummies in its other slots.
//! The bytes of a bucket encode exactly one list of blocks, and a list of blocks has exactly one encoding. A [`Sealer`]
//! turns these bytes into the bytes that the host sees. The layers above know only a sealer's laws.
#![tactic(auto)]

mod block;
mod chacha;
mod codec;
mod sealed;
mod sealer;

pub use block::Block;
pub use chacha::ChaChaSeal;
pub use codec::{BucketFault, decode_bucket, encode_bucket};
pub use sealed::{open_bucket, seal_bucket, seal_bucket_to};
pub use sealer::{OpenFault, PlainSeal, Sealer};
