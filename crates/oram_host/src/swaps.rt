//! Exchanging two stored records.

ghost use Rattle.std.specs.Prelude.{◌≡◌, ◌≢◌, ℕ, IsSome, Some, None, MatchBool, MatchOption};
ghost use Rattle.oram_host.specs.Swaps.{IsSwapped, LacksPair, stored_at};
ghost use Rattle.oram_host.specs.Trees.{AreTrees, IsExchanged, IsRecord, IsThere, host_of, shape_in, slot_at};

use crate::trees::Tree;
use oram_bytes::Bytes;
use std::alloc::Global;
use std::collections::BTreeMap;

/// Returns the length of the record at a node, if there is one.
fn len_at(trees: &BTreeMap<u8, Tree>, tree: u8, node: u32) -> Option<u32>
    requires { AreTrees trees.now }
    ensures { MatchOption result (stored_at (host_of trees.now) tree node ≡ None)
        (IsThere trees.now tree node) }
{
    let Some(kept) = trees.get(&tree) else {
        return None;
    };
    match kept.record(node) {
        Some(_) => Some(kept.record_len),
        None => None,
    }
}

/// Exchanges the bytes at a node of a tree with `bytes`. Allocates nothing.
fn exchange(trees: &mut BTreeMap<u8, Tree>, tree: u8, node: u32, bytes: &mut Bytes)
    requires trees { AreTrees trees.old }
    requires there { IsSome (slot_at trees.old tree node) }
    requires fits { (shape : ℕ × ℕ) → shape_in trees.old tree ≡ Some shape
        → IsRecord shape.1 bytes.old }
    ensures trees { AreTrees trees.new }
    ensures taken { slot_at trees.old tree node ≡ Some bytes.new }
    ensures given { IsExchanged trees.old tree node bytes.old trees.new }
{
    match trees.get_mut(&tree) {
        Some(kept) => kept.exchange(node, bytes),
        None => unreachable!(),
    }
}

/// Returns whether two places are the same.
fn is_same(tree_a: u8, node_a: u32, tree_b: u8, node_b: u32) -> bool
    ensures { MatchBool result ((tree_a ≡ tree_b) × (node_a ≡ node_b))
        (tree_b ≡ tree_a → node_b ≢ node_a) }
{
    tree_a == tree_b && node_a == node_b
}

/// Exchanges two records, if both exist and have the same length, and returns whether they do.
/// Allocates nothing.
pub(crate) fn swap_records(
    alloc: Global,
    trees: &mut BTreeMap<u8, Tree>,
    tree_a: u8,
    node_a: u32,
    tree_b: u8,
    node_b: u32,
) -> bool
    requires { AreTrees trees.old }
    ensures trees { AreTrees trees.new }
    ensures swapped { MatchBool result
        (IsSwapped (host_of trees.old) tree_a node_a tree_b node_b (host_of trees.new))
        (LacksPair (host_of trees.old) tree_a node_a tree_b node_b
        × (host_of trees.new ≡ host_of trees.old)) }
    ensures same { tree_a ≡ tree_b → node_a ≡ node_b → host_of trees.new ≡ host_of trees.old }
{
    let Some(len_a) = len_at(trees, tree_a, node_a) else {
        return false;
    };
    let Some(len_b) = len_at(trees, tree_b, node_b) else {
        return false;
    };
    if len_a != len_b {
        return false;
    }
    if is_same(tree_a, node_a, tree_b, node_b) {
        return true;
    }
    let mut held = Bytes::from_vec(Vec::new(alloc));
    exchange(trees, tree_a, node_a, &mut held);
    exchange(trees, tree_b, node_b, &mut held);
    exchange(trees, tree_a, node_a, &mut held);
    true
}
