//! The client's stash, which holds the blocks that are in no bucket, and their eviction to a path.
//!
//! An access reads a path into the stash and then moves blocks back to it (Path ORAM, CCS 2013, section 3): from the
//! leaf up to the root, each bucket gets blocks whose own path goes through it, as many as it has slots. The paper
//! leaves open which of these blocks go; here those with the least addresses go first, so that an eviction has exactly
//! one outcome.
#![tactic(auto)]

ghost use Rattle.std.specs.Prelude.{◌≡◌, ◌≢◌, ◌+◌, ◌<◌, ◌≤◌, ◌^◌, ◌↔◌, ◌⊎◌, ◌==◌, List, [], ◌∷◌, ◌++◌, length, map, All, Contains, IsSome, IsNone, IfOk, IfErr, OnOk, OnErr, IfSome, IfNone, IsPermutation, AllPairs, filter, not, is_some, option_copied, vec_capacity, Some, IsTrue};
ghost use Rattle.std.specs.List.{list_any};
ghost use Rattle.oram_geometry.specs.Sizes.{trees_of, depth_of};
ghost use Rattle.oram_bucket.specs.Cell.{Cell, IsRising};
ghost use Rattle.oram_stash.specs.Blocks.{block_at, IsAt, IsGapFor};
ghost use Rattle.oram_stash.specs.Faults.{block_of};
ghost use Rattle.oram_stash.specs.Eviction.{IsEviction, IsGreedy, LeavesFewest, IsTight, OneOutcome, all_listed};

mod levels;
mod lists;
mod placement;

use levels::{chosen_levels, deepest_shared};
use lists::{empty_lists, move_out};
use oram_bucket::Block;
use oram_geometry::Device;
pub use placement::{Placement, place};
use std::alloc::{AllocError, Global};
use std::marker::Model;
use std::mem;

/// Why the stash didn't absorb a block. The fault gives the block back.
#[derive(Debug, Drop)]
pub enum StashFault {
    /// The stash has a block of this address already.
    Duplicate(Block),
    OutOfMemory(Block),
}

/// The stash: blocks in increasing order of address.
#[derive(Debug, Drop)]
pub struct Stash {
    blocks: Vec<Block>,
}

impl Model for Stash {
    ghost use Rattle.std.specs.Prelude.{List};
    ghost use Rattle.oram_bucket.specs.declared.block.Block.{Block};
    ghost use Rattle.oram_bucket.specs.Cell.{IsRising};

    ghost Value = { List Block };

    ghost view = { λ s. s.blocks.items };

    ghost invariant = { λ s. IsRising s.blocks.items };
}

impl Stash {
    /// Makes an empty stash.
    pub fn new(alloc: Global) -> Self
        ensures { result ≡ [] }
    {
        Stash {
            blocks: Vec::new(alloc),
        }
    }

    /// Makes a stash of these blocks, or returns `None` if their addresses don't rise. Allocates nothing.
    pub fn from_blocks(blocks: Vec<Block>) -> Option<Stash>
        ensures rising { IsSome result ↔ IsRising blocks.items }
        ensures same { IfSome result (λ stash. stash ≡ blocks.items) }
    {
        if is_rising(&blocks) {
            Some(Stash { blocks })
        } else {
            None
        }
    }

    /// Returns the number of blocks.
    pub fn len(&self) -> usize
        ensures { result ≡ length self.now }
    {
        self.blocks.len()
    }

    /// Returns whether the stash is empty.
    pub fn is_empty(&self) -> bool
        ensures { result ≡ (length self.now == 0) }
    {
        self.blocks.is_empty()
    }

    /// Copies the blocks to a list, in increasing order of address. Fails only if memory runs out.
    pub fn list(&self, alloc: Global) -> Result<Vec<Block>, AllocError>
        ensures same { IfOk result (λ list. list.items ≡ self.now) }
        ensures rising { IsRising self.now }
    {
        let mut list = Vec::with_capacity(alloc, self.blocks.len())?;
        for block in &self.blocks {
            list.push(block.copy(alloc)?)?;
        }
        Ok(list)
    }

    /// Copies the stash with its blocks. Fails only if memory runs out.
    pub fn copy(&self, alloc: Global) -> Result<Stash, AllocError>
        ensures same { IfOk result (λ stash. stash ≡ self.now) }
        ensures rising { IsRising self.now }
    {
        let _blocks = &self.blocks;
        Ok(Stash {
            blocks: self.list(alloc)?,
        })
    }

    /// Inserts a block at the place that its address belongs to. On a failure, the stash is unchanged.
    pub fn absorb(&mut self, block: Block) -> Result<(), StashFault>
        ensures rising { IsRising self.new }
        ensures ok { OnOk result (IsPermutation (block ∷ self.old) self.new) }

        ensures err { OnErr result (self.new ≡ self.old) }
        ensures returned { IfErr result (λ fault. block_of fault ≡ block) }
        ensures duplicate { (result ≡ Err (StashFault.Duplicate block)) ↔ IsSome (block_at self.old block.address) }
    {
        let Err(at) = self.search(block.address) else {
            return Err(StashFault::Duplicate(block));
        };
        if let Err(refused) = self.blocks.insert(at, block) {
            return Err(StashFault::OutOfMemory(refused.value));
        }
        Ok(())
    }

    /// Takes the block with `address` out, if it is there.
    pub fn take(&mut self, address: u32) -> Option<Block>
        ensures rising { IsRising self.new }
        ensures was_rising { IsRising self.old }
        ensures value { result ≡ block_at self.old address }
        ensures len { length self.new ≤ length self.old }
        ensures some { IfSome result (λ block. IsPermutation self.old (block ∷ self.new)) }
        ensures none { IfNone result (self.new ≡ self.old) }
    {
        match self.search(address) {
            Ok(at) => Some(self.blocks.remove(at)),
            Err(_) => None,
        }
    }

    /// Returns the block with `address`, if it is there.
    pub fn get(&self, address: u32) -> Option<&Block>
        ensures { option_copied result ≡ block_at self.now address }
    {
        match self.search(address) {
            Ok(at) => Some(&self.blocks[at]),
            Err(_) => None,
        }
    }

    /// Returns whether there is a block with `address`.
    pub fn contains(&self, address: u32) -> bool
        ensures { result ≡ is_some (block_at self.now address) }
    {
        match self.search(address) {
            Ok(_) => true,
            Err(_) => false,
        }
    }

    /// Borrows the blocks that wait for an eviction, in increasing order of address: those of this stash except the one
    /// with `address`, and those of `other`.
    pub fn waiting<'a>(
        &'a self,
        alloc: Global,
        other: &'a Stash,
        address: u32,
    ) -> Result<Vec<&'a Block>, AllocError>
        requires apart { (c d : Cell) → Contains self.now c → Contains other.now d → c.address ≡ d.address → c.address ≡ address }
        ensures rising { IfOk result (λ blocks. IsRising (map (λ b. b.now) blocks.items)) }
        ensures waits { IfOk result (λ blocks. (c : Cell) → Contains (map (λ b. b.now) blocks.items) c
            ↔ ((Contains self.now c × (c.address ≢ address)) ⊎ Contains other.now c)) }
    {
        let mut blocks = self.lend(alloc, other, address)?;
        blocks.sort_unstable_by_key(|block| block.address);
        Ok(blocks)
    }

    /// Allocates a vector with room for the blocks of both stashes.
    pub fn room_with(&self, alloc: Global, other: &Stash) -> Result<Vec<Block>, AllocError>
        ensures empty { IfOk result (λ room. room.items ≡ []) }
        ensures room { IfOk result (λ room. length self.now + length other.now ≤ vec_capacity room) }
    {
        Vec::with_capacity(alloc, self.blocks.len() + other.blocks.len())
    }

    /// Takes over the blocks of `other`, and keeps of all blocks only those whose addresses are in `stays`. Allocates
    /// nothing, since the blocks move to `room`, which has capacity for all of them.
    pub fn keep_left_over(&mut self, other: Stash, stays: &[u32], room: Vec<Block>)
        requires apart { (c d : Cell) → Contains self.old c → Contains other d → c.address ≢ d.address }
        requires stays { AllPairs (λ a b. a < b) stays.now }
        requires empty { room.items ≡ [] }
        requires room { length self.old + length other ≤ vec_capacity room }
        ensures rising { IsRising self.new }
        ensures kept { (c : Cell) → Contains self.new c
            ↔ ((Contains self.old c ⊎ Contains other c) × Contains stays.now c.address) }
    {
        let Stash { blocks: mut others } = other;
        let mut own = mem::replace(&mut self.blocks, room);
        self.blocks.append(&mut own).unwrap();
        self.blocks.append(&mut others).unwrap();
        self.blocks.retain(|block| is_among(stays, block.address));
        self.blocks.sort_unstable_by_key(|block| block.address);
    }

    /// Moves blocks to the path of `leaf`: at each level, from the deepest up, it takes from the blocks whose own path
    /// meets that path there those with the least addresses, as many as a bucket has slots. Returns the lists by
    /// level, from the root down. If memory runs out, the stash is unchanged.
    pub fn evict(
        &mut self,
        alloc: Global,
        device: &Device,
        tree: u8,
        leaf: u32,
    ) -> Result<Vec<Vec<Block>>, AllocError>
        requires tree { tree < trees_of device.now }
        requires leaf_in { leaf < 2 ^ depth_of device.now tree }
        requires leaves_in { All (λ block. block.leaf < 2 ^ depth_of device.now tree) self.old }
        ensures ok { IfOk result (λ lists. IsEviction (depth_of device.now tree) device.now.slots leaf self.old (map (λ list. list.items) lists.items) self.new) }
        ensures leaves_in { IfOk result (λ lists. All (λ block. block.leaf < 2 ^ depth_of device.now tree) (all_listed (map (λ list. list.items) lists.items) ++ self.new)) }
        ensures fewest { OnOk result (LeavesFewest (depth_of device.now tree) device.now.slots leaf self.old self.new) }
        ensures err { OnErr result (self.new ≡ self.old) }
    {
        let leaves = self.leaves(alloc)?;
        let levels = chosen_levels(alloc, device, tree, leaf, &leaves)?;
        let mut lists = empty_lists(alloc, usize::from(device.depth(tree)) + 1, device.slots())?;
        let mut rest = Vec::with_capacity(alloc, self.blocks.len())?;
        let blocks = mem::replace(&mut self.blocks, Vec::new(alloc));
        move_out(blocks, &levels, &mut lists, &mut rest);
        self.blocks = rest;
        Ok(lists)
    }

    /// Returns a level that shows that an eviction left no block in the stash needlessly: down to this level the path's
    /// buckets are full, and neither their blocks nor those of the stash fit further down. Returns `None` if the stash
    /// is empty. Allocates nothing.
    pub fn tight_level(
        &self,
        device: &Device,
        tree: u8,
        leaf: u32,
        lists: &[Vec<Block>],
    ) -> Option<u8>
        requires tree { tree < trees_of device.now }
        requires leaf_in { leaf < 2 ^ depth_of device.now tree }
        requires levels { length lists.now ≡ depth_of device.now tree + 1 }
        requires leaves_in { All (λ block. block.leaf < 2 ^ depth_of device.now tree) (all_listed (map (λ list. list.items) lists.now) ++ self.now) }
        requires greedy { IsGreedy (depth_of device.now tree) device.now.slots leaf (map (λ list. list.items) lists.now) self.now }
        ensures none { IsNone result ↔ (self.now ≡ []) }
        ensures tight { IfSome result (IsTight (depth_of device.now tree) device.now.slots leaf (map (λ list. list.items) lists.now) self.now) }
    {
        let first = self.blocks.first()?;
        let level = device.shared_level(tree, leaf, first.leaf);
        let mut tight = deepest_shared(device, tree, leaf, level, &self.blocks);
        for (level, list) in lists.iter().enumerate() {
            if level > usize::from(tight) {
                break;
            }
            tight = deepest_shared(device, tree, leaf, tight, list);
        }
        Some(tight)
    }

    // Borrows this stash's blocks, except the one with `address`, and then those of `other`.
    fn lend<'a>(
        &'a self,
        alloc: Global,
        other: &'a Stash,
        address: u32,
    ) -> Result<Vec<&'a Block>, AllocError>
        ensures lent { IfOk result (λ blocks. map (λ b. b.now) blocks.items
            ≡ filter (λ b. not (b.address == address)) self.now ++ other.now) }
        ensures rising { IsRising self.now }
        ensures other_rising { IsRising other.now }
    {
        let own = self.blocks.iter().filter(|block| block.address != address);
        own.chain(other.blocks.iter()).collect(alloc)
    }

    // Returns the leaf of each block.
    fn leaves(&self, alloc: Global) -> Result<Vec<u32>, AllocError>
        ensures { IfOk result (λ leaves. leaves.items ≡ map (λ b. b.leaf) self.now) }
    {
        self.blocks.iter().map(|block| block.leaf).collect(alloc)
    }

    // Returns the index of the block with `address`, or in `Err` the index at which to insert it.
    fn search(&self, address: u32) -> Result<usize, usize>
        ensures found { IfOk result (IsAt self.now address) }
        ensures absent { IfErr result (IsGapFor self.now address) }
        ensures rising { IsRising self.now }
    {
        self.blocks
            .binary_search_by_key(&address, |block| block.address)
    }
}

/// Returns whether the blocks' addresses rise.
fn is_rising(blocks: &[Block]) -> bool
    ensures { IsTrue result ↔ IsRising blocks.now }
{
    blocks.is_sorted_by(|before, block| before.address < block.address)
}

/// Returns whether `address` is one of `addresses`, which rise.
fn is_among(addresses: &[u32], address: u32) -> bool
    requires { AllPairs (λ a b. a < b) addresses.now }
    ensures { result ≡ list_any (λ a. a == address) addresses.now }
{
    addresses.binary_search(&address).is_ok()
}

/// A law: an eviction has exactly one outcome.
pub fn eviction_has_one_outcome()
    ensures { OneOutcome }
{}
