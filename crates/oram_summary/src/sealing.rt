//! Sealing and opening of a text.
ghost use Rattle.std.specs.Prelude.{◌≡◌, ◌≢◌, ◌<◌, ◌↔◌, ◌⊎◌, ℕ, List, length, IfOk, IfErr, IsErrOf, MatchResult};
ghost use Rattle.oram_summary.specs.Sealing.{IsSealingOf, hidden, sealing, tag_of};

use crate::faults::SummaryFault;
use crate::keys::{stream_key, tag_key};
use oram_bucket::{ChaChaSeal, Sealer};
use oram_hmac::{hmac_sha256, is_tag_of};
use std::alloc::{AllocError, Global};

/// The number of bytes that a sealer puts before its stream.
const NONCE_LEN: usize = 8;

/// The nonce of each stream. There is no need of another one, since each stream has a key of its own.
const NONCE: u64 = 0;

/// How many bytes longer a sealed text is: the salt and the tag.
pub(crate) const SEAL_LEN: usize = 64;

/// Returns the bytes, each XORed with its byte of the stream under a key. So what is hidden twice is as it was.
#[tactic(auto, using(crate::proofs::SealedText::behind), unfolding(crate::specs::Sealing::hidden))]
fn hidden(alloc: Global, key: [u8; 32], bytes: &[u8]) -> Result<Vec<u8>, AllocError>
    ensures { IfOk result (λ v. v.items ≡ hidden key bytes.now) }
{
    let sealed = ChaChaSeal { key }.seal(alloc, NONCE, bytes)?;
    sealed[NONCE_LEN..].to_vec(alloc)
}

/// Returns the tag of a text under a disk's key and the salt of its formatting.
#[tactic(auto, unfolding(crate::specs::Sealing::tag_of))]
fn tag_of(key: &[u8; 32], salt: &[u8; 32], text: &[u8]) -> [u8; 32]
    ensures { result ≡ tag_of key.now salt.now text.now }
{
    hmac_sha256(&tag_key(key, salt), text)
}

/// Seals a text under a disk's key and the salt of its formatting: the salt, the tag of the text, and the text, hidden by a stream
/// whose key comes from the tag. Fails only if memory runs out.
#[tactic(auto, unfolding(crate::specs::Sealing::sealing))]
pub fn seal(
    alloc: Global,
    key: &[u8; 32],
    salt: &[u8; 32],
    text: &[u8],
) -> Result<Vec<u8>, AllocError>
    ensures { IfOk result (λ v. v.items ≡ sealing key.now salt.now text.now) }
{
    let tag = tag_of(key, salt, text);
    let hidden = hidden(alloc, stream_key(key, salt, &tag), text)?;
    let mut sealed = Vec::with_capacity(alloc, SEAL_LEN + text.len())?;
    sealed.extend_from_slice(salt)?;
    sealed.extend_from_slice(&tag)?;
    sealed.extend_from_slice(&hidden)?;
    Ok(sealed)
}

/// Opens what was sealed under this key, with whatever salt, and returns the text. Fails with `Short` if the bytes are too few for a
/// salt and a tag, and with `Tag` if the tag isn't that of the text: then the bytes were sealed under another key, or changed. The time
/// that it takes doesn't tell which bytes of the tag are wrong.
pub fn open(alloc: Global, key: &[u8; 32], sealed: &[u8]) -> Result<Vec<u8>, SummaryFault>
    ensures ok { IfOk result (λ text. IsSealingOf key.now sealed.now text.items) }
    // It returns the text that was sealed, unless memory runs out.
    ensures only { (text : List ℕ) → IsSealingOf key.now sealed.now text
        → MatchResult result (λ v. v.items ≡ text) (λ f. f ≡ SummaryFault.OutOfMemory) }

    ensures short { IsErrOf result SummaryFault.Short ↔ (length sealed.now < 64) }
    ensures tag { IsErrOf result SummaryFault.Tag → (text : List ℕ) → ¬ IsSealingOf key.now sealed.now text }
    ensures faults { IfErr result (λ f. (f ≡ SummaryFault.Short) ⊎ (f ≡ SummaryFault.Tag) ⊎ (f ≡ SummaryFault.OutOfMemory)) }
{
    let Some((salt, rest)) = sealed.split_first_chunk::<32>() else {
        return Err(SummaryFault::Short);
    };
    let Some((tag, bytes)) = rest.split_first_chunk::<32>() else {
        return Err(SummaryFault::Short);
    };
    let text = hidden(alloc, stream_key(key, salt, tag), bytes)?;
    if !is_tag_of(tag, &tag_key(key, salt), &text) {
        return Err(SummaryFault::Tag);
    }
    Ok(text)
}
