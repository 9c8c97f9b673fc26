//! The keys of a disk's summaries.
ghost use Rattle.std.specs.Prelude.{◌≡◌, codes};
ghost use Rattle.oram_summary.specs.Keys as spec;

use oram_hmac::hmac_sha256;
use sha2::{Digest, Sha256};

/// Derives the key for a purpose by one step of SHA-256 (NIST SP 800-56C rev. 2, 4.1, option 1).
fn derived(key: &[u8; 32], purpose: &[u8], salt: &[u8; 32]) -> [u8; 32]
    ensures { result ≡ spec.derived_key key.now purpose.now salt.now }
{
    let mut hasher = Sha256::new();
    hasher.update(1u32.to_be_bytes());
    hasher.update(*key);
    hasher.update(purpose);
    hasher.update(*salt);
    hasher.finalize()
}

/// Derives the key of the tags of the summaries of the formatting with this salt.
#[tactic(auto, unfolding(crate::specs::Keys::tag_key))]
pub(crate) fn tag_key(key: &[u8; 32], salt: &[u8; 32]) -> [u8; 32]
    ensures { result ≡ spec.tag_key key.now salt.now }
{
    derived(key, b"vidlaqe summary tag key", salt)
}

/// Derives the key from which the keys of the streams come that hide the summaries of the formatting with this salt.
#[tactic(auto, unfolding(crate::specs::Keys::stream_secret))]
fn stream_secret(key: &[u8; 32], salt: &[u8; 32]) -> [u8; 32]
    ensures { result ≡ spec.stream_secret key.now salt.now }
{
    derived(key, b"vidlaqe summary stream key", salt)
}

/// Derives the key of the stream that hides the summary with this tag.
#[tactic(auto, unfolding(crate::specs::Keys::stream_key))]
pub(crate) fn stream_key(key: &[u8; 32], salt: &[u8; 32], tag: &[u8; 32]) -> [u8; 32]
    ensures { result ≡ spec.stream_key key.now salt.now tag.now }
{
    hmac_sha256(&stream_secret(key, salt), tag)
}
