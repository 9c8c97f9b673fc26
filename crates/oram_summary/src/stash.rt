//! The blocks of the stash in a text.
ghost use Rattle.std.specs.Prelude.{◌≡◌, ◌+◌, ◌*◌, ◌<◌, ◌≤◌, ◌^◌, ◌↔◌, ◌⊎◌, ◌++◌, ℕ, List, length, All, IsTrue, IfOk, IfErr, OnOk, MatchResult, replicate};
ghost use Rattle.std.specs.Int.{w32, to_be_bytes};
ghost use Rattle.std.specs.List.{flat_map};
ghost use Rattle.oram_geometry.specs.Sizes.{IsDevice};
ghost use Rattle.oram_bucket.specs.Cell.{Cell, IsRising};
ghost use Rattle.oram_summary.specs.Stash.{HasNumbers, IsStash, LiesIn};
ghost use Rattle.oram_summary.specs.Text.{block_text, stash_text};

use crate::faults::SummaryFault;
use crate::summary::MOST_BLOCKS;
use byteorder::{BigEndian, ByteOrder};
use oram_bucket::Block;
use oram_geometry::Device;
use std::alloc::{AllocError, Global};

/// Adds the blocks of a stash to a text.
fn push_blocks(text: &mut Vec<u8>, stash: &[Block]) -> Result<(), AllocError>
    ensures { OnOk result (text.new.items ≡ text.old.items ++ flat_map block_text stash.now) }
{
    for block in stash {
        text.extend_from_slice(&block.address.to_be_bytes())?;
        text.extend_from_slice(&block.leaf.to_be_bytes())?;
        text.extend_from_slice(&block.content)?;
    }
    Ok(())
}

/// Adds the blocks of a stash to a text, and zeros in the place of those that would still have room.
pub(crate) fn push_stash(
    text: &mut Vec<u8>,
    block_bytes: usize,
    stash: &[Block],
) -> Result<(), AllocError>
    requires room { length stash.now ≤ MOST_BLOCKS }
    requires small { block_bytes ≤ 4096 }
    ensures { OnOk result (text.new.items ≡ text.old.items ++ stash_text block_bytes stash.now) }
{
    push_blocks(text, stash)?;
    let zeros = (MOST_BLOCKS - stash.len()) * (8 + block_bytes);
    text.resize(text.len() + zeros, 0)
}

/// Reads the number of four bytes at the front, and returns the bytes after it.
fn split_short(bytes: &[u8]) -> (u32, &[u8])
    requires { 4 ≤ length bytes.now }
    ensures { bytes.now ≡ to_be_bytes w32 result.0 ++ result.1.now }
{
    (BigEndian::read_u32(bytes), &bytes[4..])
}

/// Reads the block at the front, and returns the bytes after it. Fails only if memory runs out.
fn read_block(alloc: Global, bytes: &[u8], block_bytes: usize) -> Result<(Block, &[u8]), AllocError>
    requires small { block_bytes ≤ 4096 }
    requires long { 8 + block_bytes ≤ length bytes.now }
    ensures text { IfOk result (λ x. bytes.now ≡ block_text x.0 ++ x.1.now) }
    ensures whole { IfOk result (λ x. length x.0.content ≡ block_bytes) }
    ensures fits { IfOk result (λ x. HasNumbers x.0) }
{
    let (address, rest) = split_short(bytes);
    let (leaf, rest) = split_short(rest);
    let (content, rest) = rest.split_at(block_bytes);
    let content = content.to_vec(alloc)?;
    Ok((
        Block {
            address,
            leaf,
            content,
        },
        rest,
    ))
}

/// Reads so many blocks at the front, and returns the bytes after them. Fails only if memory runs out.
fn read_blocks(
    alloc: Global,
    bytes: &[u8],
    block_bytes: usize,
    count: usize,
) -> Result<(Vec<Block>, &[u8]), AllocError>
    requires small { block_bytes ≤ 4096 }
    requires long { count * (8 + block_bytes) ≤ length bytes.now }
    ensures text { IfOk result (λ x. bytes.now ≡ flat_map block_text x.0.items ++ x.1.now) }
    ensures count { IfOk result (λ x. length x.0.items ≡ count) }
    ensures whole { IfOk result (λ x. All (λ c. length c.content ≡ block_bytes) x.0.items) }
    ensures fit { IfOk result (λ x. All HasNumbers x.0.items) }
{
    let mut read = Vec::with_capacity(alloc, count)?;
    let mut rest = bytes;
    for _ in 0..count {
        let (block, after) = read_block(alloc, rest, block_bytes)?;
        read.push(block)?;
        rest = after;
    }
    Ok((read, rest))
}

/// Returns whether all bytes are zero.
fn are_zeros(bytes: &[u8]) -> bool
    ensures { IsTrue result ↔ (bytes.now ≡ replicate (length bytes.now) 0) }
{
    bytes.iter().all(|byte| *byte == 0)
}

/// Returns whether the blocks' addresses rise.
fn is_rising(blocks: &[Block]) -> bool
    ensures { IsTrue result ↔ IsRising blocks.now }
{
    blocks.is_sorted_by(|before, block| before.address < block.address)
}

/// Returns whether each block has an address and a leaf of tree 0.
fn lie_in(device: &Device, blocks: &[Block]) -> bool
    ensures { IsTrue result ↔ All (LiesIn device.now) blocks.now }
{
    prove!(0 < device.trees());
    let (count, leaves) = (device.blocks_in(0), 1 << device.depth(0));
    blocks
        .iter()
        .all(|block| block.address < count && block.leaf < leaves)
}

/// Returns whether blocks can be a stash of tree 0, and the bytes behind them are zeros.
fn are_stash(device: &Device, blocks: &[Block], behind: &[u8]) -> bool
    ensures { IsTrue result ↔ (IsRising blocks.now × All (LiesIn device.now) blocks.now × (behind.now ≡ replicate (length behind.now) 0)) }
{
    is_rising(blocks) && lie_in(device, blocks) && are_zeros(behind)
}

/// Reads the `count` blocks of the stash of a device's tree 0, which with the zeros behind them are all of these bytes. Fails with
/// `Content` if the bytes are no such text.
pub(crate) fn read_stash(
    alloc: Global,
    device: &Device,
    bytes: &[u8],
    count: usize,
) -> Result<Vec<Block>, SummaryFault>
    requires device { IsDevice device.now }
    requires count { count ≤ MOST_BLOCKS }
    requires long { length bytes.now ≡ MOST_BLOCKS * (8 + device.now.block_bytes) }
    ensures ok { IfOk result (λ blocks. IsStash device.now count blocks.items bytes.now) }
    ensures only { (cells : List Cell) → IsStash device.now count cells bytes.now
        → MatchResult result (λ blocks. blocks.items ≡ cells) (λ f. f ≡ SummaryFault.OutOfMemory) }
    ensures fault { IfErr result (λ f. (f ≡ SummaryFault.Content) ⊎ (f ≡ SummaryFault.OutOfMemory)) }
{
    let (read, behind) = read_blocks(alloc, bytes, device.block_bytes(), count)?;
    if !are_stash(device, &read, behind) {
        return Err(SummaryFault::Content);
    }
    Ok(read)
}
