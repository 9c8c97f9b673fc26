//! HMAC-SHA-256 (RFC 2104, with SHA-256 of FIPS 180-4 as its hash): a tag of a message under a key.
//!
//! Whoever has the key can tell by the tag whether the message is the one that was tagged. That nobody else can make a tag is an
//! assumption about SHA-256, and isn't proved. What is proved of two messages or two keys that have the same tag: they show two texts
//! with one SHA-256 digest.
#![tactic(auto)]

mod law;
mod mac;
mod tags;

pub use law::{keys_have_tags_of_their_own, messages_have_tags_of_their_own, tag_example};
pub use mac::{TAG_LEN, hmac_sha256};
pub use tags::is_tag_of;
