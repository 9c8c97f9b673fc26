//! The sizes of a block device, and the leaves and nodes of its trees.
//!
//! A Path ORAM (Stefanov et al., CCS 2013, section 3) keeps its blocks in a binary tree of buckets, with levels
//! from 0 (the root) to the tree's depth (the leaves). Tree 0 holds the device's data. Tree i + 1 holds the position
//! map of tree i: each of its blocks has as many entries of four bytes as fit, one for each block of tree i. The
//! client itself keeps the entries of the last tree, in its table.
//!
//! A tree has as few levels as its blocks allow, given how many of them there may be for each leaf: the leaf load. With a
//! leaf load of 1 there is a leaf for each block.
#![tactic(auto)]

ghost use Rattle.std.specs.Prelude.{◌≡◌, ◌+◌, ◌-◌, ◌*◌, ◌^◌, ◌<◌, ◌≤◌, ◌↔◌, ℕ};
ghost use Rattle.oram_geometry.specs.Least.{IsLeastFrom};
ghost use Rattle.oram_geometry.specs.declared.Sizes.{Sizes};
ghost use Rattle.oram_geometry.specs.Sizes.{IsDevice, fanout, blocks_in, fits_table, trees_of, has_leaves, depth_of, record_len_of, address_in, leaf_of, fault_number, device_of};
ghost use Rattle.oram_geometry.specs.Path.{node_on, MeetsAt, IsGreatestMeeting};

mod counts;

use counts::{block_counts, depths_for, shape_fault, tree_count};
use std::marker::Model;

/// The greatest number of trees that a device can have.
pub const MOST_TREES: usize = 14;

/// The six numbers that define a device.
#[derive(Clone, Copy, Debug, PartialEq, Eq)]
pub struct Sizes {
    /// Blocks of the device, from 1 to 2^24 for each block of the leaf load, and never more than 2^26.
    pub blocks: u64,
    /// Bytes of a block, a multiple of 4 from 16 to 4,096.
    pub block_bytes: u64,
    /// Slots of a bucket, from 1 to 8.
    pub slots: u64,
    /// The greatest number of entries of the client's table, from 1 to the greatest number of blocks.
    pub top: u64,
    /// The greatest number of accepted commands, from 1 to 2^40.
    pub lifetime: u64,
    /// The greatest number of blocks of a tree for each of its leaves, from 1 to 8. From 2 on, a bucket has four slots or more, and
    /// five of them for each four blocks of the load: otherwise a tree has too little room, and the stash grows.
    pub leaf_load: u64,
}

/// Why six numbers define no device: the first number that is out of its range.
#[derive(Clone, Copy, Debug, PartialEq, Eq)]
pub enum ShapeFault {
    Blocks,
    BlockBytes,
    Slots,
    Top,
    Lifetime,
    LeafLoad,
}

impl ShapeFault {
    /// Returns the number by which programs name the fault, from 1.
    pub fn number(self) -> u8
        ensures { result ≡ fault_number self }
    {
        match self {
            ShapeFault::Blocks => 1,
            ShapeFault::BlockBytes => 2,
            ShapeFault::Slots => 3,
            ShapeFault::Top => 4,
            ShapeFault::Lifetime => 5,
            ShapeFault::LeafLoad => 6,
        }
    }
}

/// A block device: its six numbers, each in its range, and the values that follow from them, computed once.
#[derive(Debug, Drop)]
pub struct Device {
    sizes: Sizes,
    trees: u8,
    blocks: [u32; MOST_TREES],
    depths: [u8; MOST_TREES],
}

impl Model for Device {
    ghost use Rattle.oram_geometry.specs.declared.Sizes.{Sizes};

    ghost Value = { Sizes };

    ghost use Rattle.oram_geometry.specs.Measures.{IsMeasured};

    ghost view = { λ d. d.sizes };

    ghost invariant = { λ d. IsMeasured d.sizes d.trees d.blocks d.depths };
}

impl Device {
    /// Makes a device of these sizes, whose trees have a leaf for each block, or returns the fault of the first size
    /// that is out of its range.
    pub fn new(
        blocks: u64,
        block_bytes: u64,
        slots: u64,
        top: u64,
        lifetime: u64,
    ) -> Result<Device, ShapeFault>
        ensures { result ≡ device_of (record { blocks = blocks; block_bytes = block_bytes; slots = slots; top = top; lifetime = lifetime; leaf_load = 1 }) }
    {
        Device::packed(blocks, block_bytes, slots, top, lifetime, 1)
    }

    /// Makes a device of these sizes, whose trees have a leaf for each `leaf_load` blocks, or returns the fault of the
    /// first size that is out of its range.
    pub fn packed(
        blocks: u64,
        block_bytes: u64,
        slots: u64,
        top: u64,
        lifetime: u64,
        leaf_load: u64,
    ) -> Result<Device, ShapeFault>
        ensures { result ≡ device_of (record { blocks = blocks; block_bytes = block_bytes; slots = slots; top = top; lifetime = lifetime; leaf_load = leaf_load }) }
    {
        let sizes = Sizes {
            blocks,
            block_bytes,
            slots,
            top,
            lifetime,
            leaf_load,
        };
        if let Some(fault) = shape_fault(&sizes) {
            return Err(fault);
        }
        let blocks = block_counts(&sizes);
        let trees = tree_count(&sizes, &blocks);
        let depths = depths_for(&sizes, &blocks);
        Ok(Device {
            sizes,
            trees,
            blocks,
            depths,
        })
    }

    /// Returns a copy of the device.
    pub fn copy(&self) -> Device
        ensures { result ≡ self.now }
    {
        Device {
            sizes: self.sizes,
            trees: self.trees,
            blocks: self.blocks,
            depths: self.depths,
        }
    }

    /// Returns the number of trees, from 1 to 14.
    pub fn trees(&self) -> u8
        ensures count { result ≡ trees_of self.now }
        ensures least { IsLeastFrom (fits_table self.now) 1 result }
        ensures few { result ≤ 14 }
        ensures ranges { IsDevice self.now }
    {
        self.trees
    }

    /// Returns the number of bytes of a block.
    pub fn block_bytes(&self) -> usize
        ensures value { result ≡ self.now.block_bytes }
        ensures range { (16 ≤ result) × (result ≤ 4096) }
    {
        self.sizes.block_bytes as usize
    }

    /// Returns the number of slots of a bucket.
    pub fn slots(&self) -> usize
        ensures value { result ≡ self.now.slots }
        ensures range { (1 ≤ result) × (result ≤ 8) }
    {
        self.sizes.slots as usize
    }

    /// Returns the greatest number of entries of the client's table.
    pub fn top(&self) -> u64
        ensures value { result ≡ self.now.top }
        ensures range { (1 ≤ result) × (result ≤ 2 ^ 26) }
    {
        self.sizes.top
    }

    /// Returns the greatest number of commands that the device accepts in its lifetime.
    pub fn lifetime(&self) -> u64
        ensures value { result ≡ self.now.lifetime }
        ensures range { (1 ≤ result) × (result ≤ 2 ^ 40) }
    {
        self.sizes.lifetime
    }

    /// Returns the greatest number of blocks of a tree for each of its leaves.
    pub fn leaf_load(&self) -> u64
        ensures value { result ≡ self.now.leaf_load }
        ensures range { (1 ≤ result) × (result ≤ 8) }
    {
        self.sizes.leaf_load
    }

    /// Returns the number of position map entries in a map block, at four bytes each.
    pub fn fanout(&self) -> usize
        ensures value { result ≡ fanout self.now }
        ensures range { (4 ≤ result) × (result ≤ 1024) }
    {
        self.block_bytes() / 4
    }

    /// Returns the number of blocks of `tree`.
    pub fn blocks_in(&self, tree: u8) -> u32
        requires { tree < trees_of self.now }
        ensures count { result ≡ blocks_in self.now tree }
        ensures first { tree ≡ 0 → result ≡ self.now.blocks }
        ensures range { (1 ≤ result) × (result ≤ 2 ^ 26) }
    {
        self.blocks[tree as usize]
    }

    /// Returns the level of the tree's leaves. The tree has 2^depth leaves.
    pub fn depth(&self, tree: u8) -> u8
        requires { tree < trees_of self.now }
        ensures count { result ≡ depth_of self.now tree }
        ensures least { IsLeastFrom (has_leaves self.now tree) 0 result }
        ensures enough { blocks_in self.now tree ≤ self.now.leaf_load * 2 ^ result }
        ensures range { result ≤ 24 }
    {
        self.depths[tree as usize]
    }

    /// Returns the number of bytes of a record: a bucket, the `overhead` bytes that sealing adds to it, and two
    /// digests of 32 bytes.
    pub fn record_len(&self, overhead: usize) -> usize
        requires { overhead ≤ 64 }
        ensures value { result ≡ record_len_of self.now overhead }
        ensures holds_digests { 64 < result }
        ensures range { result ≤ 32960 }
    {
        self.slots() * (8 + self.block_bytes()) + overhead + 64
    }

    /// Returns the address in `tree` of the block that leads to the device's block `address`. In tree 0 it is that block
    /// itself.
    pub fn address_in(&self, tree: u8, address: u32) -> u32
        requires tree { tree < trees_of self.now }
        requires address { address < blocks_in self.now 0 }
        ensures value { result ≡ address_in self.now tree address }
        ensures range { result < blocks_in self.now tree }
    {
        let fanout = self.fanout() as u32;
        let mut within = address;
        for _ in 0..tree {
            within /= fanout;
        }
        within
    }

    /// Returns the leaf that a word of the tape names in `tree`.
    pub fn leaf_of(&self, tree: u8, word: u64) -> u32
        requires { tree < trees_of self.now }
        ensures value { result ≡ leaf_of self.now tree word }
        ensures range { result < 2 ^ depth_of self.now tree }
        ensures small { result < 2 ^ 24 }
    {
        (word % (1 << self.depth(tree))) as u32
    }

    /// Returns the number of the node at `level` on the path of `leaf`. Nodes are numbered from the root, level by level
    /// and from the left.
    pub fn node_on(&self, tree: u8, leaf: u32, level: u8) -> u32
        requires tree { tree < trees_of self.now }
        requires leaf { leaf < 2 ^ depth_of self.now tree }
        requires level { level ≤ depth_of self.now tree }
        ensures value { result ≡ node_on (depth_of self.now tree) leaf level }
        ensures range { result < 2 ^ (depth_of self.now tree + 1) - 1 }
    {
        let depth = self.depth(tree);
        (1 << level) - 1 + (leaf >> (depth - level))
    }

    /// Returns the greatest level at which the paths of the leaves `x` and `y` have the same node.
    pub fn shared_level(&self, tree: u8, x: u32, y: u32) -> u8
        requires tree { tree < trees_of self.now }
        requires x_in { x < 2 ^ depth_of self.now tree }
        requires y_in { y < 2 ^ depth_of self.now tree }
        ensures greatest { IsGreatestMeeting (depth_of self.now tree) x y result }
        ensures meets { (l : ℕ) → l ≤ depth_of self.now tree → (MeetsAt (depth_of self.now tree) x y l) ↔ (l ≤ result) }
    {
        let mut level = self.depth(tree);
        let (mut x_node, mut y_node) = (x, y);
        while x_node != y_node {
            x_node /= 2;
            y_node /= 2;
            level -= 1;
        }
        level
    }
}
