//! A block of a tree.
ghost use Rattle.std.specs.Prelude.{◌≡◌, IfOk};

use std::alloc::{AllocError, Global};
use std::marker::Model;

/// A block: its address in its tree, the leaf that it is mapped to, and its data.
#[derive(Debug, Drop)]
pub struct Block {
    pub address: u32,
    pub leaf: u32,
    pub content: Vec<u8>,
}

impl Model for Block {
    ghost use Rattle.oram_bucket.specs.Cell.{Cell};

    ghost Value = { Cell };

    ghost view = { λ b. record { address = b.address; leaf = b.leaf; content = b.content.items } };
}

impl Block {
    /// Copies the block, with its data, to the heap. Fails only if memory runs out.
    pub fn copy(&self, alloc: Global) -> Result<Block, AllocError>
        ensures { IfOk result (λ block. block ≡ self.now) }
    {
        Ok(Block {
            address: self.address,
            leaf: self.leaf,
            content: self.content.as_slice().to_vec(alloc)?,
        })
    }
}
