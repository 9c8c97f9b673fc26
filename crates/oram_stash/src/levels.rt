//! Chooses the level to whose list each block goes.
ghost use Rattle.std.specs.Prelude.{◌≡◌, ◌⊎◌, ◌↔◌, ℕ, Any, ◌+◌, ◌<◌, ◌≤◌, ◌^◌, length, take, drop, All, Contains, IfOk, OnOk, slice_index, vec_len};
ghost use Rattle.std.specs.Ordering.{nat_cmp};
ghost use Rattle.std.specs.BTreeSet.{IsOrdered};
ghost use Rattle.std.specs.List.{HoldsAt};
ghost use Rattle.oram_geometry.specs.Sizes.{trees_of, depth_of};
ghost use Rattle.oram_geometry.specs.Path.{MeetsAt};
ghost use Rattle.oram_stash.specs.Plan.{IsPlan, Reaches, IsShared, given};

use oram_bucket::Block;
use oram_geometry::Device;
use std::alloc::{AllocError, Global};
use std::collections::BTreeSet;

/// Chooses the level for each block, given the blocks' leaves, or `None` for a block that stays.
pub fn chosen_levels(
    alloc: Global,
    device: &Device,
    tree: u8,
    leaf: u32,
    leaves: &[u32],
) -> Result<Vec<Option<u8>>, AllocError>
    requires tree { tree < trees_of device.now }
    requires leaf_in { leaf < 2 ^ depth_of device.now tree }
    requires leaves_in { All (λ own. own < 2 ^ depth_of device.now tree) leaves.now }
    ensures { IfOk result (λ levels. let deep = depth_of device.now tree in IsPlan (Reaches deep leaf leaves.now) (length leaves.now) deep device.now.slots 0 levels.items) }
{
    let shared = shared_levels(alloc, device, tree, leaf, leaves)?;
    let depth = device.depth(tree);
    let groups = grouped(alloc, &shared, usize::from(depth) + 1)?;
    let mut levels = vec![in alloc; None; leaves.len()]?;
    let mut waiting = BTreeSet::new(alloc);
    for level in (0..=depth).rev() {
        admit(&groups[usize::from(level)], &mut waiting)?;
        fill_level(device.slots(), level, &mut waiting, &mut levels);
    }
    Ok(levels)
}

/// Returns, for each of `leaves`, the greatest level at which its path meets that of `leaf`.
fn shared_levels(
    alloc: Global,
    device: &Device,
    tree: u8,
    leaf: u32,
    leaves: &[u32],
) -> Result<Vec<u8>, AllocError>
    requires tree { tree < trees_of device.now }
    requires leaf_in { leaf < 2 ^ depth_of device.now tree }
    requires leaves_in { All (λ own. own < 2 ^ depth_of device.now tree) leaves.now }
    ensures count { IfOk result (λ shared. vec_len shared ≡ length leaves.now) }
    ensures each { IfOk result (λ shared. (j : ℕ) → j < length leaves.now → IsShared (depth_of device.now tree) leaf leaves.now j (slice_index shared.items j)) }
{
    let mut shared = Vec::with_capacity(alloc, leaves.len())?;
    for own in leaves {
        shared.push(device.shared_level(tree, leaf, *own))?;
    }
    Ok(shared)
}

/// Groups the indices of `shared` by their level. All levels are less than `limit`.
fn grouped(alloc: Global, shared: &[u8], limit: usize) -> Result<Vec<Vec<usize>>, AllocError>
    requires { All (λ level. level < limit) shared.now }
    ensures count { IfOk result (λ groups. vec_len groups ≡ limit) }
    ensures places { IfOk result (λ groups. (l : ℕ) → l < limit → HoldsAt (λ group. (j : ℕ) → Contains group.items j ↔ ((j < length shared.now) × (slice_index shared.now j ≡ l))) groups.items l) }
{
    let mut groups = Vec::with_capacity(alloc, limit)?;
    for _ in 0..limit {
        groups.push(Vec::new(alloc))?;
    }
    for (at, level) in shared.iter().enumerate() {
        let group = &mut groups[usize::from(*level)];
        group.push(at)?;
    }
    Ok(groups)
}

/// Adds the indices of a group to those that wait.
fn admit(group: &[usize], waiting: &mut BTreeSet<usize>) -> Result<(), AllocError>
    requires { IsOrdered nat_cmp waiting.old }
    ensures ordered { OnOk result (IsOrdered nat_cmp waiting.new) }
    ensures added { OnOk result ((q : ℕ) → Contains waiting.new.keys q ↔ (Contains waiting.old.keys q ⊎ Contains group.now q)) }
{
    for at in group {
        waiting.insert(*at)?;
    }
    Ok(())
}

/// Gives `level` to the least indices that wait, at most `slots` of them.
fn fill_level(slots: usize, level: u8, waiting: &mut BTreeSet<usize>, levels: &mut [Option<u8>])
    requires in_range { All (λ at. at < length levels.old) waiting.old.keys }
    requires ordered { IsOrdered nat_cmp waiting.old }
    ensures rest { waiting.new.keys ≡ drop slots waiting.old.keys }
    ensures given { levels.new ≡ given level (take slots waiting.old.keys) levels.old }
    ensures still_ordered { IsOrdered nat_cmp waiting.new }
{
    for _ in 0..slots {
        let Some(at) = waiting.pop_first() else {
            break;
        };
        levels[at] = Some(level);
    }
}

/// Returns the deepest level at which the path of one of the blocks meets that of `leaf`, or `level` if that is deeper.
pub fn deepest_shared(device: &Device, tree: u8, leaf: u32, level: u8, blocks: &[Block]) -> u8
    requires tree { tree < trees_of device.now }
    requires leaf_in { leaf < 2 ^ depth_of device.now tree }
    requires leaves_in { All (λ b. b.leaf < 2 ^ depth_of device.now tree) blocks.now }
    requires level_in { level ≤ depth_of device.now tree }
    ensures in_tree { result ≤ depth_of device.now tree }
    ensures at_least { level ≤ result }
    ensures reached { (result ≡ level) ⊎ Any (λ b. MeetsAt (depth_of device.now tree) leaf b.leaf result) blocks.now }
    ensures apart { All (λ b. (k : ℕ) → result < k → k ≤ depth_of device.now tree → ¬ (MeetsAt (depth_of device.now tree) leaf b.leaf k)) blocks.now }
{
    let mut deepest = level;
    for block in blocks {
        deepest = deepest.max(device.shared_level(tree, leaf, block.leaf));
    }
    deepest
}
