//! The summary of a checkpoint: all that somebody with a disk's key needs to read the disk from its host, and its sealing.
//!
//! With each checkpoint the client leaves a summary at the host. It has what the host's records don't tell: the sizes of the device, the
//! root digest of tree 0, the blocks of the stash, and where the disk's life stands. With these and the key each record of tree 0 can be
//! checked and opened. The text of a summary is filled up to 64 blocks of the stash, so its length tells only which device it is of.
//!
//! The host keeps the summary sealed. Its tag and its stream have keys of their own, which come from the disk's key and the salt of the
//! formatting. First the tag of the text is made (HMAC-SHA-256, RFC 2104); from the tag comes the key of the stream (ChaCha20, RFC 8439)
//! that hides the text, as in SIV (RFC 5297). So whatever a client has forgotten, two different summaries don't share a stream, and
//! whoever opens a summary detects by its tag if it was changed.
#![tactic(auto)]

mod decoder;
mod encoder;
mod faults;
mod keys;
mod law;
mod numbers;
mod sealed;
mod sealing;
mod stash;
mod summary;

pub use decoder::decode_summary;
pub use encoder::{encode_summary, text_len};
pub use faults::{EncodeFault, SummaryFault};
pub use law::{
    formattings_share_no_stream, opened_texts_have_their_tag, other_keys_are_refused,
    sealed_texts_open, sealing_example, summaries_share_no_stream, summary_example,
    texts_tell_of_one_summary,
};
pub use sealed::{open_summary, seal_summary, sealed_len};
pub use sealing::{open, seal};
pub use summary::{MOST_BLOCKS, SealerKind, Summary, VERSION};
