//! The entries of trees in the header.
ghost use Rattle.std.specs.Prelude.{◌≡◌, ◌<◌, ◌≤◌, ◌+◌, ◌*◌, ◌^◌, ◌↔◌, Option, length, IfOk, IsErrOf, IsTrue, MatchOption, OnErr, Some};
ghost use Rattle.oram_redo.specs.Content.{Content, Has};
ghost use Rattle.oram_layout.specs.Header.{HasTrees, entry_at, entry_bytes};
ghost use Rattle.oram_layout.specs.Trees.{AreApart, IsApartFrom, IsPlaced, Trees, next_of};
ghost use Rattle.oram_layout.specs.declared.trees.Tree.{Tree};

use crate::fronts::is_blank;
use crate::numbers::four_bytes_in;
use crate::{CELLS_AT, ENTRY_LEN, LayoutFault, Shape, Tree};
use oram_pair::eight_bytes_in;
use std::alloc::Global;

/// The number of trees that a header has entries for.
pub const TREES: usize = 256;

/// Where the header's entries begin.
pub(crate) const ENTRIES_AT: u64 = 4096;

/// Returns the offset of a tree's entry in the header.
pub fn entry_place(number: u8) -> u64
    ensures { result ≡ entry_at number }
{
    ENTRIES_AT + u64::from(number) * ENTRY_LEN as u64
}

/// Reads the entries of a header, one tree after the other, from tree 0 on.
pub fn read_trees(alloc: Global, bytes: &[u8]) -> Result<Vec<Option<Tree>>, LayoutFault>
    requires { length bytes.now ≡ ENTRY_LEN * TREES }
    ensures trees { IfOk result (λ trees. (c : Content) → Has bytes.now ENTRIES_AT c → HasTrees trees.items c) }
    ensures apart { IfOk result (λ trees. AreApart trees.items) }
    ensures damaged { IsErrOf result LayoutFault.Damaged
        → (trees : Trees) (c : Content) → Has bytes.now ENTRIES_AT c → HasTrees trees c → AreApart trees → ⊥ }
{
    let trees = listed(alloc, bytes)?;
    if !are_apart(&trees) {
        return Err(LayoutFault::Damaged);
    }
    Ok(trees)
}

/// Returns the offset at which the cells of the next tree will begin.
pub fn next_base(trees: &[Option<Tree>]) -> u64
    ensures place { result ≡ next_of trees.now }
    ensures within { result ≤ 2 ^ 62 }
{
    let mut next = CELLS_AT;
    for tree in trees {
        if let Some(tree) = tree {
            next = next.max(tree.end());
        }
    }
    next
}

// Returns the trees that the entries describe. They may share bytes.
fn listed(alloc: Global, bytes: &[u8]) -> Result<Vec<Option<Tree>>, LayoutFault>
    requires { length bytes.now ≡ ENTRY_LEN * TREES }
    ensures trees { IfOk result (λ trees. (c : Content) → Has bytes.now ENTRIES_AT c → HasTrees trees.items c) }
    ensures damaged { IsErrOf result LayoutFault.Damaged → (trees : Trees) (c : Content) → Has bytes.now ENTRIES_AT c → HasTrees trees c → ⊥ }
{
    let mut trees = Vec::with_capacity(alloc, TREES)?;
    for number in 0..TREES {
        trees.push(read_entry(&bytes[number * ENTRY_LEN..(number + 1) * ENTRY_LEN])?)?;
    }
    Ok(trees)
}

// Reads an entry: a tree, or none.
fn read_entry(entry: &[u8]) -> Result<Option<Tree>, LayoutFault>
    requires { length entry.now ≡ ENTRY_LEN }
    ensures found { IfOk result (λ found. entry.now ≡ entry_bytes found) }
    ensures damaged { OnErr result ((found : Option Tree) → entry.now ≡ entry_bytes found → ⊥) }
{
    if is_blank(entry) {
        return Ok(None);
    }
    match tree_in(entry) {
        Some(tree) => Ok(Some(tree)),
        None => Err(LayoutFault::Damaged),
    }
}

// Returns the tree whose entry these bytes are, with its checksum.
fn tree_in(entry: &[u8]) -> Option<Tree>
    requires { length entry.now ≡ ENTRY_LEN }
    ensures { MatchOption result ((tree : Tree) → entry.now ≡ entry_bytes (Some tree) → ⊥) (λ tree. entry.now ≡ entry_bytes (Some tree)) }
{
    let shape = Shape::new(entry[1], four_bytes_in(&entry[4..8]))?;
    let tree = Tree::place(shape, eight_bytes_in(&entry[8..16]))?;
    let own = tree.entry();
    if entry == &own[..] { Some(tree) } else { None }
}

fn are_apart(trees: &[Option<Tree>]) -> bool
    ensures { IsTrue result ↔ AreApart trees.now }
{
    for (number, tree) in trees.iter().enumerate() {
        if let Some(tree) = tree {
            if !is_placed(tree, &trees[..number]) {
                return false;
            }
        }
    }
    true
}

// Returns whether the tree's cells are after the header, begin at an even offset, and share no byte with `others`.
fn is_placed(tree: &Tree, others: &[Option<Tree>]) -> bool
    ensures { IsTrue result ↔ IsPlaced tree.now others.now }
{
    tree.base >= CELLS_AT && tree.base % 2 == 0 && is_apart(tree, others)
}

// Returns whether the tree shares no byte with any of `others`.
fn is_apart(tree: &Tree, others: &[Option<Tree>]) -> bool
    ensures { IsTrue result ↔ IsApartFrom tree.now others.now }
{
    for other in others {
        if let Some(other) = other {
            if tree.base < other.end() && other.base < tree.end() {
                return false;
            }
        }
    }
    true
}
