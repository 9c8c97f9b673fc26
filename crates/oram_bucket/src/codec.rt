//! The bytes of a bucket.
//!
//! A bucket has as many slots as the device says. A slot holds the block's address plus one and its leaf, each in four bytes,
//! big-endian, and then its data. A slot without a block is a dummy, and all its bytes are zero. The blocks come first, in
//! increasing order of address.
ghost use Rattle.std.specs.Prelude.{◌≡◌, ◌≢◌, ◌+◌, ◌^◌, ◌<◌, ◌≤◌, ◌++◌, ◌∷◌, [], length, map, List, IfOk, IfErr, OnOk, IsOkAnd, MatchResult, MatchOption, IsOkUnless, Ok, ◌==◌};
ghost use Rattle.std.specs.List.{list_all};
ghost use Rattle.oram_geometry.specs.Sizes.{trees_of, bucket_len};
ghost use Rattle.oram_bucket.specs.Bytes.{IsBytes};
ghost use Rattle.oram_bucket.specs.Cell.{Cell};
ghost use Rattle.oram_bucket.specs.Bucket.{IsBucketOf, IsSpelling, HasSpelling, spelling, slot_of};
ghost use Rattle.oram_bucket.specs.Slots.{number_of, leaf_of, block_in};
ghost use Rattle.oram_bucket.specs.Fault.{may_follow, fault_behind, first_fault, fault_number};

use crate::block::Block;
use byteorder::{BigEndian, ByteOrder};
use oram_geometry::Device;
use std::alloc::{AllocError, Global};

const HEAD_LEN: usize = 8;

/// Why bytes aren't a bucket: the fault of the first slot that has one. If that slot has several faults, it is the first of
/// them in this order.
#[derive(Clone, Copy, Debug, PartialEq, Eq)]
pub enum BucketFault {
    /// The number of bytes isn't that of a bucket.
    Length,
    /// An address is too great for a block of the tree.
    Address,
    /// A block comes after a dummy, or its address isn't greater than that of the block before.
    Order,
    /// A leaf is too great for the tree.
    Leaf,
    /// A dummy has a byte that isn't zero.
    Dummy,
    /// The bytes have no fault, but there isn't enough memory for the blocks.
    OutOfMemory,
}

impl BucketFault {
    /// Returns the number by which programs name the fault, from 1, or `None` for `OutOfMemory`.
    pub fn number(self) -> Option<u8>
        ensures { result ≡ fault_number self }
    {
        match self {
            BucketFault::Length => Some(1),
            BucketFault::Address => Some(2),
            BucketFault::Order => Some(3),
            BucketFault::Leaf => Some(4),
            BucketFault::Dummy => Some(5),
            BucketFault::OutOfMemory => None,
        }
    }
}

impl From<AllocError> for BucketFault {
    ghost use Rattle.oram_bucket.specs.declared.codec.BucketFault.TheVariants.{OutOfMemory};

    ghost from_gives = { λ _ f. f ≡ OutOfMemory };

    fn from(_: AllocError) -> Self {
        BucketFault::OutOfMemory
    }
}

/// Encodes `blocks`, whose addresses rise, as the bytes of a bucket. Fails only if memory runs out.
pub fn encode_bucket(
    alloc: Global,
    device: &Device,
    tree: u8,
    blocks: &[Block],
) -> Result<Vec<u8>, AllocError>
    requires tree { tree < trees_of device.now }
    requires bucket { IsBucketOf device.now tree blocks.now }
    ensures spelled { IfOk result (λ v. v.items ≡ spelling device.now blocks.now) }
    ensures len { IfOk result (λ v. length v.items ≡ bucket_len device.now) }
    ensures bytes { IfOk result (λ v. IsBytes v.items) }
{
    prove!(tree < device.trees());
    let len = device.slots() * (HEAD_LEN + device.block_bytes());
    let mut bucket = Vec::with_capacity(alloc, len)?;
    for block in blocks {
        append_slot(&mut bucket, block)?;
    }
    bucket.resize(len, 0)?;
    Ok(bucket)
}

/// Replaces the bytes of `bucket` by those of a bucket with `blocks`.
pub(crate) fn write_bucket(
    device: &Device,
    tree: u8,
    blocks: &[&Block],
    bucket: &mut Vec<u8>,
) -> Result<(), AllocError>
    requires tree { tree < trees_of device.now }
    requires bucket { IsBucketOf device.now tree (map (λ b. b.now) blocks.now) }
    ensures spelled { OnOk result
        (bucket.new.items ≡ spelling device.now (map (λ b. b.now) blocks.now)) }
    ensures len { OnOk result (length bucket.new.items ≡ bucket_len device.now) }
    ensures bytes { OnOk result (IsBytes bucket.new.items) }
{
    prove!(tree < device.trees());
    bucket.clear();
    for block in blocks {
        append_slot(bucket, block)?;
    }
    bucket.resize(device.slots() * (HEAD_LEN + device.block_bytes()), 0)?;
    Ok(())
}

/// Appends the slot of `block` to `bucket`.
fn append_slot(bucket: &mut Vec<u8>, block: &Block) -> Result<(), AllocError>
    requires { block.now.address + 1 < 2 ^ 32 }
    ensures slot { OnOk result (bucket.new.items ≡ bucket.old.items ++ slot_of block.now) }
    ensures bytes { IsBytes bucket.new.items }
{
    let mut head = [0; HEAD_LEN];
    BigEndian::write_u32(&mut head[..4], block.address + 1);
    BigEndian::write_u32(&mut head[4..], block.leaf);
    bucket.extend_from_slice(&head)?;
    bucket.extend_from_slice(&block.content)
}

/// Decodes the bytes of a bucket to its blocks, or returns the first fault.
pub fn decode_bucket(
    alloc: Global,
    device: &Device,
    tree: u8,
    bytes: &[u8],
) -> Result<Vec<Block>, BucketFault>
    requires { tree < trees_of device.now }

    // These bytes are the encoding of the blocks that it returns; and it decodes each encoding of blocks, unless memory runs
    // out.
    ensures ok { IfOk result (λ v. IsSpelling device.now tree v.items bytes.now) }
    ensures only { (cells : List Cell) → IsSpelling device.now tree cells bytes.now →
        MatchResult result (λ v. v.items ≡ cells) (λ f. f ≡ BucketFault.OutOfMemory) }

    // It returns the first fault, and prefers any fault to `OutOfMemory`.
    ensures fault { MatchOption (first_fault device.now tree bytes.now)
        (IsOkUnless result BucketFault.OutOfMemory) (λ f. result ≡ Err f) }
    ensures refused { IfErr result (λ f. f ≢ BucketFault.OutOfMemory →
        ¬ HasSpelling device.now tree bytes.now) }
{
    let slot_len = HEAD_LEN + device.block_bytes();
    if bytes.len() != device.slots() * slot_len {
        return Err(BucketFault::Length);
    }
    let tree_blocks = device.blocks_in(tree);
    let tree_leaves = 1 << device.depth(tree);
    // If memory runs out, go on: a later slot may still have a fault.
    let mut blocks = Ok(Vec::new(alloc));
    let mut before = None;
    for slot in bytes.chunks_exact(slot_len) {
        if let Some(fault) = fault_in(slot, before, tree_blocks, tree_leaves) {
            return Err(fault);
        }
        let number = number_in(slot);
        if number > 0 {
            blocks = with_block(alloc, blocks, slot);
        }
        before = Some(number);
    }
    Ok(blocks?)
}

/// Returns the address of the slot's block plus one, or 0 for a dummy.
fn number_in(slot: &[u8]) -> u32
    requires { 8 ≤ length slot.now }
    ensures { result ≡ number_of slot.now }
{
    BigEndian::read_u32(slot)
}

fn leaf_in(slot: &[u8]) -> u32
    requires { 8 ≤ length slot.now }
    ensures { result ≡ leaf_of slot.now }
{
    BigEndian::read_u32(&slot[4..])
}

/// Returns the fault of a slot, if it has one. `before` is the number of the slot before it.
#[tactic(auto, unfolding(crate::specs::Fault::fault_behind))]
fn fault_in(slot: &[u8], before: Option<u32>, blocks: u32, leaves: u32) -> Option<BucketFault>
    requires { 8 ≤ length slot.now }
    ensures { result ≡ fault_behind blocks leaves before slot.now }
{
    let number = number_in(slot);
    if number == 0 {
        if is_zero(slot) {
            None
        } else {
            Some(BucketFault::Dummy)
        }
    } else if number > blocks {
        Some(BucketFault::Address)
    } else if !may_follow(before, number) {
        Some(BucketFault::Order)
    } else if leaf_in(slot) >= leaves {
        Some(BucketFault::Leaf)
    } else {
        None
    }
}

fn is_zero(bytes: &[u8]) -> bool
    ensures { result ≡ list_all (λ b. b == 0) bytes.now }
{
    // The loop doesn't stop at a byte that isn't zero, so that it can take many bytes at once.
    let mut mixed = 0;
    for byte in bytes {
        mixed |= *byte;
    }
    mixed == 0
}

/// Returns whether a block with `number` may follow a slot with the number `before`: either no slot, or a block of a
/// lesser address.
fn may_follow(before: Option<u32>, number: u32) -> bool
    ensures { result ≡ may_follow before number }
{
    before.is_none_or(|before| 0 < before && before < number)
}

/// Appends the block of `slot` to `blocks`, unless memory runs out or has run out before.
fn with_block(
    alloc: Global,
    blocks: Result<Vec<Block>, AllocError>,
    slot: &[u8],
) -> Result<Vec<Block>, AllocError>
    requires long { 8 ≤ length slot.now }
    requires real { 0 < number_of slot.now }
    ensures { IfOk result (λ v. IsOkAnd blocks (λ u. v.items ≡ u.items ++ block_in slot.now ∷ [])) }
{
    let mut blocks = blocks?;
    blocks.push(Block {
        address: number_in(slot) - 1,
        leaf: leaf_in(slot),
        content: slot[HEAD_LEN..].to_vec(alloc)?,
    })?;
    Ok(blocks)
}
