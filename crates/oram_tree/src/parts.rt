//! The parts of a tree that a client keeps in its state file.
ghost use Rattle.std.specs.Prelude.{◌≡◌, ◌<◌, ◌↔◌, All, IfOk, IfErr, IsOk, IsTrue};
ghost use Rattle.oram_geometry.specs.Sizes.{trees_of};
ghost use Rattle.oram_bucket.specs.Cell.{IsRising};
ghost use Rattle.oram_bucket.specs.Bucket.{IsBlockOf};
ghost use Rattle.oram_tree.specs.Parts.{parts_of, tree_of, ArePartsOf, PartsMakeTheirTree};

use crate::{PartsFault, Tree};
use oram_bucket::Block;
use oram_geometry::Device;
use oram_hash::DIGEST_LEN;
use oram_stash::Stash;
use std::alloc::{AllocError, Global};
use std::marker::Model;

/// The parts of a tree that a client keeps, except the tree's number.
#[derive(Debug, Drop)]
pub struct TreeParts {
    /// The digest of the root's record.
    pub root: [u8; DIGEST_LEN],
    /// The blocks of the stash, in increasing order of address.
    pub stash: Vec<Block>,
}

impl Model for TreeParts {
    ghost use Rattle.oram_tree.specs.Parts.{Parts};

    ghost Value = { Parts };

    ghost view = { λ p. record { root = p.root; stash = p.stash.items } };
}

impl Tree {
    /// Returns the digest of the root's record and copies of the stash's blocks. Fails only if memory runs out.
    pub fn parts(&self, alloc: Global) -> Result<TreeParts, AllocError>
        ensures same { IfOk result (λ parts. parts ≡ parts_of self.now) }
        ensures rising { IsRising self.now.stash }
    {
        Ok(TreeParts {
            root: self.root,
            stash: self.stash.list(alloc)?,
        })
    }

    /// Makes the tree of a device from its parts, or fails with `Content` if they can't be parts of this tree.
    /// Allocates nothing, since it doesn't copy the blocks.
    pub fn from_parts(
        _alloc: Global,
        device: &Device,
        tree: u8,
        parts: TreeParts,
    ) -> Result<Tree, PartsFault>
        requires { tree < trees_of device.now }
        ensures made { IfOk result (λ made. made ≡ tree_of tree parts) }
        ensures fits { IsOk result ↔ ArePartsOf device.now tree parts }
        ensures err { IfErr result (λ fault. fault ≡ PartsFault.Content) }
    {
        let TreeParts { root, stash } = parts;
        if !are_blocks(device, tree, &stash) {
            return Err(PartsFault::Content);
        }
        match Stash::from_blocks(stash) {
            Some(stash) => Ok(Tree {
                number: tree,
                root,
                stash,
            }),
            None => Err(PartsFault::Content),
        }
    }
}

/// A law: the parts of a tree whose stash has only blocks of this tree make the same tree again.
pub fn parts_make_their_tree()
    ensures { PartsMakeTheirTree }
{}

/// Returns whether all of these blocks can be in `tree`.
fn are_blocks(device: &Device, tree: u8, blocks: &[Block]) -> bool
    requires { tree < trees_of device.now }
    ensures { IsTrue result ↔ All (IsBlockOf device.now tree) blocks.now }
{
    let count = device.blocks_in(tree);
    let leaves = 1u32 << device.depth(tree);
    let block_bytes = device.block_bytes();
    blocks.iter().all(|block| {
        block.address < count && block.leaf < leaves && block.content.len() == block_bytes
    })
}
