//! Reads the blocks of a path into a separate stash.
ghost use Rattle.std.specs.Prelude.{◌≡◌, ◌≢◌, ◌⊎◌, ◌↔◌, ◌<◌, ◌++◌, Err, IfOk, OnOk, All, Contains};
ghost use Rattle.oram_geometry.specs.Sizes.{trees_of, depth_of};
ghost use Rattle.oram_bucket.specs.Cell.{Cell, IsRising};
ghost use Rattle.oram_bucket.specs.Bucket.{IsBlockOf};
ghost use Rattle.oram_bucket.specs.SealedBlocks.{Reads};
ghost use Rattle.oram_tree.specs.Access.{IsInBucket, IsReadable};

use crate::faults::TreeFault;
use oram_bucket::{Block, Sealer, open_bucket};
use oram_geometry::Device;
use oram_hash::PathView;
use oram_stash::{Stash, StashFault};
use std::alloc::Global;

/// Moves `blocks` to `near`. Fails with `Unreadable` if `near` or `stash` already has a block of one of their addresses.
fn absorb_all(stash: &Stash, near: &mut Stash, blocks: Vec<Block>) -> Result<(), TreeFault>
    requires rising { IsRising blocks.items }
    requires near_rising { IsRising near.old }
    ensures rising { IsRising near.new }
    ensures all { OnOk result ((c : Cell) →
        Contains near.new c ↔ (Contains near.old c ⊎ Contains blocks.items c)) }
    ensures apart { OnOk result ((c d : Cell) →
        Contains blocks.items c → Contains (stash.now ++ near.old) d → c.address ≢ d.address) }
    ensures twice { result ≡ Err TreeFault.Unreadable → (c : Cell) × (d : Cell)
        × Contains blocks.items c × Contains (stash.now ++ near.old) d × (c.address ≡ d.address) }
{
    for block in blocks {
        if stash.contains(block.address) {
            return Err(TreeFault::Unreadable);
        }
        match near.absorb(block) {
            Ok(()) => {}
            Err(StashFault::Duplicate(_)) => return Err(TreeFault::Unreadable),
            Err(StashFault::OutOfMemory(_)) => return Err(TreeFault::OutOfMemory),
        }
    }
    Ok(())
}

/// Opens the buckets of a path and returns their blocks in a stash of their own. `stash` is the tree's stash, and stays
/// unchanged.
pub(crate) fn gather<S: Sealer>(
    alloc: Global,
    device: &Device,
    tree: u8,
    sealer: &S,
    path: &PathView<'_>,
    stash: &Stash,
) -> Result<Stash, TreeFault>
    requires tree { tree < trees_of device.now }
    requires depth { path.now.depth ≡ depth_of device.now tree }
    ensures rising { IfOk result (λ near. IsRising near) }
    ensures blocks { IfOk result (λ near. All (IsBlockOf device.now tree) near) }
    ensures near { let reads = Reads (S.cipher sealer.now).opening device.now tree in
        IfOk result (λ near. (c : Cell) → Contains near c ↔ IsInBucket reads path.now c) }
    ensures unreadable { let reads = Reads (S.cipher sealer.now).opening device.now tree in
        result ≡ Err TreeFault.Unreadable → ¬ IsReadable reads path.now stash.now }
    ensures readable { let reads = Reads (S.cipher sealer.now).opening device.now tree in
        OnOk result (IsReadable reads path.now stash.now) }
{
    prove!(tree < device.trees());
    let mut near = Stash::new(alloc);
    for level in 0..device.depth(tree) + 1 {
        let blocks = open_bucket(alloc, sealer, device, tree, path.sealed(level))?;
        absorb_all(stash, &mut near, blocks)?;
    }
    Ok(near)
}
