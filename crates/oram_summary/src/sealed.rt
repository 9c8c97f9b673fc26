//! A summary as the host keeps it: its text, sealed.
ghost use Rattle.std.specs.Prelude.{◌≡◌, ◌+◌, ◌<◌, ◌≤◌, ◌↔◌, ℕ, List, length, IfOk, IsErrOf, MatchResult};
ghost use Rattle.oram_summary.specs.Contents.{Contents, HasRoom, IsOfDevice};
ghost use Rattle.oram_summary.specs.Sealed.{IsSealedSummary, sealed_len_of};
ghost use Rattle.oram_summary.specs.Sealing.{IsSealingOf, sealing};
ghost use Rattle.oram_summary.specs.Text.{HasLength, HasVersion, IsTextOf, text_of};

use crate::decoder::decode_summary;
use crate::encoder::{encode_summary, text_len};
use crate::faults::{EncodeFault, SummaryFault};
use crate::sealing::{SEAL_LEN, open, seal};
use crate::summary::Summary;
use oram_checkpoints::LONGEST_SUMMARY;
use oram_geometry::Device;
use std::alloc::Global;

/// Returns how many bytes each sealed summary of a device has. It always fits into one message.
pub fn sealed_len(device: &Device) -> usize
    ensures len { result ≡ sealed_len_of device.now.block_bytes }
    ensures fits { result ≤ LONGEST_SUMMARY }
{
    SEAL_LEN + text_len(device)
}

/// Seals a summary under a disk's key and the salt of its formatting. Fails with `FullStash` if the stash has more than
/// [`MOST_BLOCKS`](crate::MOST_BLOCKS) blocks, and else only if memory runs out.
pub fn seal_summary(
    alloc: Global,
    key: &[u8; 32],
    salt: &[u8; 32],
    summary: &Summary,
) -> Result<Vec<u8>, EncodeFault>
    requires { IsOfDevice summary.now }
    ensures sealed { IfOk result (λ sealed. sealed.items ≡ sealing key.now salt.now (text_of summary.now)) }
    ensures opens { IfOk result (λ sealed. IsSealedSummary key.now sealed.items summary.now) }
    ensures len { IfOk result (λ sealed. length sealed.items ≡ sealed_len_of summary.now.device.block_bytes) }
    ensures full { IsErrOf result EncodeFault.FullStash ↔ (¬ HasRoom summary.now) }
{
    let text = match encode_summary(alloc, summary) {
        Ok(text) => text,
        Err(fault) => return Err(fault),
    };
    Ok(seal(alloc, key, salt, &text)?)
}

/// Opens a summary that was sealed under this key, with whatever salt. Fails with the fault of [`open`], and else with that of
/// [`decode_summary`].
pub fn open_summary(alloc: Global, key: &[u8; 32], sealed: &[u8]) -> Result<Summary, SummaryFault>
    ensures ok { IfOk result (IsSealedSummary key.now sealed.now) }
    // It returns the summary that was sealed, unless memory runs out.
    ensures only { (c : Contents) → IsSealedSummary key.now sealed.now c
        → MatchResult result (λ summary. summary ≡ c) (λ f. f ≡ SummaryFault.OutOfMemory) }

    // These bytes weren't sealed under this key.
    ensures short { IsErrOf result SummaryFault.Short ↔ (length sealed.now < 64) }
    ensures tag { IsErrOf result SummaryFault.Tag → (text : List ℕ) → ¬ IsSealingOf key.now sealed.now text }

    // A text was sealed under this key that is that of no summary.
    ensures version { IsErrOf result SummaryFault.Version → (text : List ℕ) × IsSealingOf key.now sealed.now text × (¬ HasVersion text) }
    ensures length { IsErrOf result SummaryFault.Length → (text : List ℕ) × IsSealingOf key.now sealed.now text × (¬ HasLength text) }
    ensures content { IsErrOf result SummaryFault.Content → (text : List ℕ) × IsSealingOf key.now sealed.now text × ((c : Contents) → ¬ IsTextOf text c) }
{
    let text = match open(alloc, key, sealed) {
        Ok(text) => text,
        Err(fault) => return Err(fault),
    };
    decode_summary(alloc, &text)
}
