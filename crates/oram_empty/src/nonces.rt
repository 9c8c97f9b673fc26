//! The nonces of a formatting.
ghost use Rattle.std.specs.Prelude.{◌≡◌, ◌-◌, ◌*◌, ◌^◌, ◌<◌, ◌≤◌, if◌then◌else◌};
ghost use Rattle.oram_geometry.specs.Sizes.{trees_of, depth_of};
ghost use Rattle.oram_geometry.specs.Path.{node_on};
ghost use Rattle.oram_hash.specs.Record.{is_left_child};
ghost use Rattle.oram_tree.specs.Content.{node_count};
ghost use Rattle.oram_semantics.specs.Nonces.{formatted_below};
ghost use Rattle.oram_empty.specs.EmptyRecords.{begins_at};

use oram_geometry::Device;

/// Returns the number of nodes of a tree of this height.
pub(crate) fn node_count(height: u8) -> u64
    requires { height ≤ 24 }
    ensures value { result ≡ node_count height }
    ensures some { 1 ≤ result }
    ensures few { result ≤ 2 ^ 25 }
{
    (2 << height) - 1
}

/// Returns the first nonce of a tree's formatting.
fn formatted_below(device: &Device, tree: u8) -> u64
    requires { tree ≤ trees_of device.now }
    ensures value { result ≡ formatted_below device.now tree }
    ensures few { result ≤ 2 ^ 25 * 14 }
{
    prove!(tree <= device.trees());
    let mut nonce = 0;
    for earlier in 0..tree {
        nonce += node_count(device.depth(earlier));
    }
    nonce
}

/// Returns how many nodes of its parent's subtree are formatted before the subtree of the node at `level` of a leaf's path: all those
/// under its left sibling, if it has one.
fn nodes_before(device: &Device, tree: u8, leaf: u32, level: u8) -> u64
    requires tree { tree < trees_of device.now }
    requires leaf { leaf < 2 ^ depth_of device.now tree }
    requires level { level ≤ depth_of device.now tree }
    ensures value { let depth = depth_of device.now tree in
        result ≡ (if is_left_child (node_on depth leaf level) then 0 else node_count (depth - level)) }
    ensures few { result ≤ 2 ^ 25 }
{
    if device.node_on(tree, leaf, level) % 2 == 1 {
        return 0;
    }
    node_count(device.depth(tree) - level)
}

/// Returns the nonce at which the subtree of the node at `level` of a leaf's path begins.
pub(crate) fn begins_at(device: &Device, tree: u8, leaf: u32, level: u8) -> u64
    requires tree { tree < trees_of device.now }
    requires leaf { leaf < 2 ^ depth_of device.now tree }
    requires level { level ≤ depth_of device.now tree }
    ensures value { result ≡ begins_at (formatted_below device.now tree) (depth_of device.now tree) leaf level }
    ensures few { result ≤ 2 ^ 25 * 38 }
{
    let mut nonce = formatted_below(device, tree);
    for below in 0..level {
        nonce += nodes_before(device, tree, leaf, below + 1);
    }
    nonce
}
