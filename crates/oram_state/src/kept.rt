//! Reads the fields of a core that isn't at work: the device and the trees, or why the core failed.

ghost use Rattle.oram_state.specs.Parser.{Gives, many, next_block, next_device, next_failure, next_reason, next_tree, reason_in};

use crate::fault::StateFault;
use crate::fields::{read_byte, read_bytes, read_half, read_long, read_short};
use crate::mode::Mode;
use oram_bucket::Block;
use oram_core::Reason;
use oram_geometry::Device;
use oram_hash::DIGEST_LEN;
use oram_tree::TreeParts;
use std::alloc::Global;

#[tactic(auto, unfolding(crate::specs::Parser::next_device))]
pub(crate) fn read_device(bytes: &[u8]) -> Result<(Device, &[u8]), StateFault>
    ensures { Gives (λ x. (x.0, x.1.now)) result (next_device bytes.now) }
{
    let (blocks, rest) = read_short(bytes)?;
    let (block_bytes, rest) = read_short(rest)?;
    let (more_load, rest) = read_half(rest)?;
    let (slots, rest) = read_half(rest)?;
    let (top, rest) = read_short(rest)?;
    let (lifetime, rest) = read_long(rest)?;
    let device = Device::packed(
        blocks.into(),
        block_bytes.into(),
        slots.into(),
        top.into(),
        lifetime,
        u64::from(more_load) + 1,
    )?;
    Ok((device, rest))
}

/// Returns the reason with this number. A tree, level or code that the reason doesn't have must be 0.
fn reason_of(kind: u8, tree: u8, level: u8, code: u8) -> Result<Reason, StateFault>
    ensures { Gives (λ why. why) result (reason_in kind tree level code) }
{
    match (kind, tree, level, code) {
        (1, 0, 0, 0) => Ok(Reason::Malformed),
        (2, _, _, 0) => Ok(Reason::Tampered(tree, level)),
        (3, 0, 0, _) => Ok(Reason::HostRefused(code)),
        _ => Err(StateFault::Content),
    }
}

#[tactic(auto, unfolding(crate::specs::Parser::next_reason))]
fn read_reason(bytes: &[u8]) -> Result<(Reason, &[u8]), StateFault>
    ensures { Gives (λ x. (x.0, x.1.now)) result (next_reason bytes.now) }
{
    let (kind, rest) = read_byte(bytes)?;
    let (tree, rest) = read_byte(rest)?;
    let (level, rest) = read_byte(rest)?;
    let (code, rest) = read_byte(rest)?;
    let why = reason_of(kind, tree, level, code)?;
    Ok((why, rest))
}

/// Reads why a core failed, if it did.
#[tactic(auto, unfolding(crate::specs::Parser::next_failure))]
pub(crate) fn read_failure(bytes: &[u8], mode: Mode) -> Result<(Option<Reason>, &[u8]), StateFault>
    ensures { Gives (λ x. (x.0, x.1.now)) result (next_failure mode bytes.now) }
{
    match mode {
        Mode::Failed => {
            let (why, rest) = read_reason(bytes)?;
            Ok((Some(why), rest))
        }
        Mode::Idle | Mode::Waiting | Mode::Stalled => Ok((None, bytes)),
    }
}

#[tactic(auto, unfolding(crate::specs::Parser::next_block))]
fn read_block<'a>(
    alloc: Global,
    bytes: &'a [u8],
    device: &Device,
) -> Result<(Block, &'a [u8]), StateFault>
    ensures { Gives (λ x. (x.0, x.1.now)) result (next_block device.now bytes.now) }
{
    let (address, rest) = read_short(bytes)?;
    let (leaf, rest) = read_short(rest)?;
    let (content, rest) = read_bytes(rest, device.block_bytes())?;
    let content = content.to_vec(alloc)?;
    Ok((
        Block {
            address,
            leaf,
            content,
        },
        rest,
    ))
}

fn read_blocks<'a>(
    alloc: Global,
    bytes: &'a [u8],
    device: &Device,
    count: u32,
) -> Result<(Vec<Block>, &'a [u8]), StateFault>
    ensures { Gives (λ x. (x.0.items, x.1.now)) result (many (next_block device.now) count bytes.now) }
{
    let mut stash = Vec::new(alloc);
    let mut rest = bytes;
    for _ in 0..count {
        let (block, after) = read_block(alloc, rest, device)?;
        stash.push(block)?;
        rest = after;
    }
    Ok((stash, rest))
}

#[tactic(auto, unfolding(crate::specs::Parser::next_tree))]
fn read_tree<'a>(
    alloc: Global,
    bytes: &'a [u8],
    device: &Device,
) -> Result<(TreeParts, &'a [u8]), StateFault>
    ensures { Gives (λ x. (x.0, x.1.now)) result (next_tree device.now bytes.now) }
{
    let (digest, rest) = read_bytes(bytes, DIGEST_LEN)?;
    let mut root = [0; DIGEST_LEN];
    root.copy_from_slice(digest);
    let (count, rest) = read_short(rest)?;
    let (stash, rest) = read_blocks(alloc, rest, device, count)?;
    Ok((TreeParts { root, stash }, rest))
}

pub(crate) fn read_trees<'a>(
    alloc: Global,
    bytes: &'a [u8],
    device: &Device,
    count: u8,
) -> Result<(Vec<TreeParts>, &'a [u8]), StateFault>
    ensures { Gives (λ x. (x.0.items, x.1.now)) result (many (next_tree device.now) count bytes.now) }
{
    let mut trees = Vec::with_capacity(alloc, count as usize)?;
    let mut rest = bytes;
    for _ in 0..count {
        let (tree, after) = read_tree(alloc, rest, device)?;
        trees.push(tree)?;
        rest = after;
    }
    Ok((trees, rest))
}
