//! The answer to SUMMARY.
ghost use Rattle.std.specs.Prelude.{◌≡◌, ◌↔◌, ◌⊎◌, ◌+◌, ◌<◌, ◌++◌, ℕ, List, length, IfSome, IsNone, IsSomeAnd};
ghost use Rattle.oram_wire.specs.HostMessages.{payload_answer};
ghost use Rattle.oram_checkpoints.specs.Messages.{IsCheckpoint, numbered_text};

use crate::numbers::split_long;
use crate::request::LONGEST_SUMMARY;
use oram_wire::GOOD;

/// The number of bytes of an answer to SUMMARY before the summary.
pub const SUMMARY_HEAD_LEN: usize = 9;

/// Returns the answer to SUMMARY up to the summary, where the last checkpoint has this number.
pub fn summary_head(number: u64) -> [u8; SUMMARY_HEAD_LEN]
    ensures { (summary : List ℕ) → result ++ summary ≡ payload_answer (numbered_text number summary) }
{
    let mut head = [GOOD, 0, 0, 0, 0, 0, 0, 0, 0];
    head[1..].copy_from_slice(&number.to_be_bytes());
    head
}

/// Splits the payload of an answer to SUMMARY into the number and the summary of the last checkpoint. Returns `None` if it is no such
/// payload: if it is too short for a number, or the summary is longer than [`LONGEST_SUMMARY`].
pub fn split_summary(payload: &[u8]) -> Option<(u64, &[u8])>
    ensures some { IfSome result (λ found. IsCheckpoint found.0 found.1.now × (payload.now ≡ numbered_text found.0 found.1.now)) }
    // It splits the payload of each checkpoint into this checkpoint's number and summary.
    ensures only { (number : ℕ) (summary : List ℕ) → IsCheckpoint number summary → payload.now ≡ numbered_text number summary
        → IsSomeAnd result (λ found. (found.0 ≡ number) × (found.1.now ≡ summary)) }
    ensures none { IsNone result ↔ ((length payload.now < 8) ⊎ (8 + LONGEST_SUMMARY < length payload.now)) }
{
    let (number, summary) = split_long(payload)?;
    if summary.len() > LONGEST_SUMMARY {
        return None;
    }
    Some((number, summary))
}
