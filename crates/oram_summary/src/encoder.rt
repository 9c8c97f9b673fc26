//! The text of a summary.
ghost use Rattle.std.specs.Prelude.{◌≡◌, ◌≤◌, ◌<◌, ◌^◌, ◌↔◌, ◌++◌, ℕ, length, slice_index, IfOk, OnOk, IsErrOf};
ghost use Rattle.oram_geometry.specs.Sizes.{IsDevice};
ghost use Rattle.oram_summary.specs.Contents.{HasRoom, IsOfDevice};
ghost use Rattle.oram_summary.specs.Text.{IsTextOf, numbers_of, parts_text, text_len_of};

use crate::faults::EncodeFault;
use crate::numbers::{COUNT, push_numbers};
use crate::stash::push_stash;
use crate::summary::{MOST_BLOCKS, Summary, VERSION};
use oram_bucket::Block;
use oram_geometry::Device;
use std::alloc::{AllocError, Global};

/// The number of bytes of a text before the blocks of the stash.
pub(crate) const HEAD_LEN: usize = 144;

/// Returns how many bytes the text of each summary of a device has.
pub fn text_len(device: &Device) -> usize
    ensures len { result ≡ text_len_of device.now.block_bytes }
    ensures range { result ≤ 262800 }
{
    HEAD_LEN + MOST_BLOCKS * (8 + device.block_bytes())
}

/// Returns the numbers that the text of a summary begins with.
fn numbers_of(summary: &Summary) -> [u64; COUNT]
    ensures numbers { result ≡ numbers_of summary.now }
    ensures device { IsDevice summary.now.device }
{
    let device = &summary.device;
    prove!(0 < device.trees());
    [
        VERSION,
        summary.sealer.number(),
        u64::from(device.blocks_in(0)),
        device.block_bytes() as u64,
        device.slots() as u64,
        device.top(),
        device.lifetime(),
        device.leaf_load(),
        u64::from(summary.near_levels),
        summary.time,
        summary.number,
        summary.next_ticket,
        summary.next_nonce,
        summary.stash.len() as u64,
    ]
}

/// Adds the parts of a summary to a text.
fn push_parts(
    text: &mut Vec<u8>,
    numbers: &[u64; COUNT],
    root: &[u8; 32],
    block_bytes: usize,
    stash: &[Block],
) -> Result<(), AllocError>
    requires room { length stash.now ≤ MOST_BLOCKS }
    requires small { block_bytes ≤ 4096 }
    ensures added { OnOk result (text.new.items ≡ text.old.items ++ parts_text numbers.now root.now block_bytes stash.now) }
    ensures fit { (i : ℕ) → slice_index numbers.now i < 2 ^ 64 }
    ensures root { length root.now ≡ 32 }
{
    push_numbers(text, numbers)?;
    text.extend_from_slice(root)?;
    push_stash(text, block_bytes, stash)
}

/// Returns the text of a summary. Fails with `FullStash` if its stash has more than [`MOST_BLOCKS`] blocks, and else only if memory
/// runs out.
pub fn encode_summary(alloc: Global, summary: &Summary) -> Result<Vec<u8>, EncodeFault>
    requires { IsOfDevice summary.now }
    ensures text { IfOk result (λ text. IsTextOf text.items summary.now) }
    ensures len { IfOk result (λ text. length text.items ≡ text_len_of summary.now.device.block_bytes) }
    ensures full { IsErrOf result EncodeFault.FullStash ↔ (¬ HasRoom summary.now) }
{
    if summary.stash.len() > MOST_BLOCKS {
        return Err(EncodeFault::FullStash);
    }
    let mut text = Vec::with_capacity(alloc, text_len(&summary.device))?;
    let (numbers, block_bytes) = (numbers_of(summary), summary.device.block_bytes());
    push_parts(
        &mut text,
        &numbers,
        &summary.root,
        block_bytes,
        &summary.stash,
    )?;
    Ok(text)
}
