//! The values that follow from a device's six numbers.
ghost use Rattle.std.specs.Prelude.{◌≡◌, ◌+◌, ◌*◌, ◌^◌, ◌<◌, ◌≤◌, ℕ, slice_index};
ghost use Rattle.oram_geometry.specs.declared.Sizes.{Sizes};
ghost use Rattle.oram_geometry.specs.Sizes.{IsDevice, blocks_in, trees_of, depth_of, level_for, is_between, most_blocks, has_room, range_fault};

use crate::{MOST_TREES, ShapeFault, Sizes};

/// Returns whether `number` is between `low` and `high`, both included.
fn is_between(low: u64, high: u64, number: u64) -> bool
    ensures { result ≡ is_between low high number }
{
    (low..=high).contains(&number)
}

/// Returns the greatest number of blocks of a tree with this leaf load.
fn most_blocks(load: u64) -> u64
    ensures { result ≡ most_blocks load }
{
    load.min(4) << 24
}

/// Returns whether a tree with so many slots in a bucket has room for a leaf load from 1 to 8.
fn has_room(slots: u64, load: u64) -> bool
    requires slots { slots ≤ 8 }
    requires load { load ≤ 8 }
    ensures { result ≡ has_room slots load }
{
    load == 1 || (4 <= slots && 4 * load <= 5 * slots)
}

/// Returns the first number that is out of its range.
pub(crate) fn shape_fault(sizes: &Sizes) -> Option<ShapeFault>
    ensures { result ≡ range_fault sizes.now }
{
    let most = most_blocks(sizes.leaf_load);
    if !is_between(1, 8, sizes.leaf_load) {
        Some(ShapeFault::LeafLoad)
    } else if !is_between(1, most, sizes.blocks) {
        Some(ShapeFault::Blocks)
    } else if !(is_between(16, 4096, sizes.block_bytes) && sizes.block_bytes % 4 == 0) {
        Some(ShapeFault::BlockBytes)
    } else if !is_between(1, 8, sizes.slots) {
        Some(ShapeFault::Slots)
    } else if !is_between(1, most, sizes.top) {
        Some(ShapeFault::Top)
    } else if !is_between(1, 1 << 40, sizes.lifetime) {
        Some(ShapeFault::Lifetime)
    } else if !has_room(sizes.slots, sizes.leaf_load) {
        Some(ShapeFault::LeafLoad)
    } else {
        None
    }
}

/// Returns the number of blocks of each tree, including trees that this device doesn't need.
pub(crate) fn block_counts(sizes: &Sizes) -> [u32; MOST_TREES]
    requires { IsDevice sizes.now }
    ensures { (i : ℕ) → i < 14 → slice_index result i ≡ blocks_in sizes.now i }
{
    let fanout = (sizes.block_bytes / 4) as u32;
    let mut counts = [sizes.blocks as u32; MOST_TREES];
    for tree in 1..MOST_TREES {
        counts[tree] = counts[tree - 1].div_ceil(fanout);
    }
    counts
}

/// Returns the least number of trees for which the client's table has room for the last tree's entries.
pub(crate) fn tree_count(sizes: &Sizes, counts: &[u32; MOST_TREES]) -> u8
    requires ranges { IsDevice sizes.now }
    requires counts { (i : ℕ) → i < 14 → slice_index counts.now i ≡ blocks_in sizes.now i }
    ensures { result ≡ trees_of sizes.now }
{
    let mut trees = 1;
    while u64::from(counts[usize::from(trees) - 1]) > sizes.top {
        trees += 1;
    }
    trees
}

/// Returns the least level whose nodes have room for `blocks` blocks, at `load` blocks each.
fn depth_for(load: u32, blocks: u32) -> u8
    requires few { load ≤ 8 }
    requires blocks { blocks ≤ load * 2 ^ 24 }
    ensures { result ≡ level_for load blocks }
{
    let mut level = 0;
    while load << level < blocks {
        level += 1;
    }
    level
}

/// Returns the depth of each tree, given the number of its blocks.
pub(crate) fn depths_for(sizes: &Sizes, counts: &[u32; MOST_TREES]) -> [u8; MOST_TREES]
    requires ranges { IsDevice sizes.now }
    requires counts { (i : ℕ) → i < 14 → slice_index counts.now i ≡ blocks_in sizes.now i }
    ensures { (i : ℕ) → i < 14 → slice_index result i ≡ depth_of sizes.now i }
{
    let load = sizes.leaf_load as u32;
    let mut depths = [0; MOST_TREES];
    for tree in 0..MOST_TREES {
        depths[tree] = depth_for(load, counts[tree]);
    }
    depths
}
