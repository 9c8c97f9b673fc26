//! Evicts borrowed blocks, without moving them.
ghost use Rattle.std.specs.Prelude.{◌≡◌, ◌<◌, ◌^◌, map, All, IfOk};
ghost use Rattle.oram_geometry.specs.Sizes.{trees_of, depth_of};
ghost use Rattle.oram_bucket.specs.Cell.{IsRising};
ghost use Rattle.oram_stash.specs.Eviction.{IsEviction};

use crate::levels::chosen_levels;
use crate::lists::{empty_lists, move_out};
use oram_bucket::Block;
use oram_geometry::Device;
use std::alloc::{AllocError, Global};

/// The places that an eviction gives to borrowed blocks.
#[derive(Drop)]
pub struct Placement<'a> {
    /// The blocks for the path's buckets, by level, from the root down.
    pub lists: Vec<Vec<&'a Block>>,
    /// The blocks that stay in the stash.
    pub rest: Vec<&'a Block>,
}

/// Returns the leaf of each block.
fn leaves_of(alloc: Global, blocks: &[&Block]) -> Result<Vec<u32>, AllocError>
    ensures { IfOk result (λ leaves. leaves.items ≡ map (λ b. b.now.leaf) blocks.now) }
{
    blocks.iter().map(|block| block.leaf).collect(alloc)
}

/// Places blocks, whose addresses rise, as [`Stash::evict`](crate::Stash::evict) does, but without moving them.
pub fn place<'a>(
    alloc: Global,
    device: &Device,
    tree: u8,
    leaf: u32,
    blocks: Vec<&'a Block>,
) -> Result<Placement<'a>, AllocError>
    requires tree { tree < trees_of device.now }
    requires leaf_in { leaf < 2 ^ depth_of device.now tree }
    requires rising { IsRising (map (λ b. b.now) blocks.items) }
    requires leaves_in { All (λ b. b.now.leaf < 2 ^ depth_of device.now tree) blocks.items }
    ensures { IfOk result (λ p. IsEviction (depth_of device.now tree) device.now.slots leaf
        (map (λ b. b.now) blocks.entry.items) (map (λ list. map (λ b. b.now) list.items) p.lists.items)
        (map (λ b. b.now) p.rest.items)) }
{
    let leaves = leaves_of(alloc, &blocks)?;
    let levels = chosen_levels(alloc, device, tree, leaf, &leaves)?;
    let mut lists = empty_lists(alloc, usize::from(device.depth(tree)) + 1, device.slots())?;
    let mut rest = Vec::with_capacity(alloc, blocks.len())?;
    move_out(blocks, &levels, &mut lists, &mut rest);
    Ok(Placement { lists, rest })
}
