//! Blocks on their way from a disk's buckets into an image.
ghost use Rattle.std.specs.Prelude.{◌≡◌, ◌<◌, ℕ, List, map, OnOk};
ghost use Rattle.std.specs.List.{FoldsTo};
ghost use Rattle.oram_geometry.specs.Sizes.{trees_of};
ghost use Rattle.oram_export.specs.Images.{BlockWrite, write_of};

use crate::visitor::{RecordVisitor, VisitFault};
use oram_bucket::{Block, Sealer, open_bucket};
use oram_geometry::Device;
use oram_hash::DIGEST_LEN;
use std::alloc::Global;

/// A sink for blocks takes no more. It knows why.
#[derive(Clone, Copy, Debug, PartialEq, Eq)]
pub struct SinkStop;

/// Takes the data of blocks, such as a file that becomes an image of the disk.
pub trait BlockSink {
    /// Whether the first value may become the second one when it takes the data of a block.
    ghost takes: { Self → BlockWrite → Self → Type 0 };

    /// Takes the data of the block at this address. Blocks come in no order. A block that never comes was never written, so its data
    /// is zeros.
    fn put(&mut self, address: u32, content: &[u8]) -> Result<(), SinkStop>
        ensures { OnOk result (takes self.old (record { address = address; content = content.now }) self.new) };
}

/// Puts blocks into a sink, in their order.
pub(crate) fn put_blocks<K: BlockSink>(sink: &mut K, blocks: &[Block]) -> Result<(), SinkStop>
    ensures { OnOk result (FoldsTo K.takes sink.old (map write_of blocks.now) sink.new) }
{
    for block in blocks {
        sink.put(block.address, &block.content)?;
    }
    Ok(())
}

/// Opens the buckets of a disk's tree 0, and puts their blocks into a sink.
#[derive(Drop)]
pub(crate) struct BucketOpener<'a, S> {
    pub(crate) sealer: &'a S,
    pub(crate) device: &'a Device,
}

impl<S: Sealer, K: BlockSink> RecordVisitor<K> for BucketOpener<'_, S> {
    ghost use Rattle.oram_bucket.specs.SealedBlocks.{Reads};
    ghost use Rattle.oram_export.specs.Images.{PutsBlocks};

    ghost sees = { λ v s r t. PutsBlocks (Reads (S.cipher v.sealer.now).opening v.device.now 0) K.takes s r t };

    fn see(&self, alloc: Global, target: &mut K, record_bytes: &[u8]) -> Result<(), VisitFault> {
        let sealed = &record_bytes[..record_bytes.len() - 2 * DIGEST_LEN];
        let blocks = open_bucket(alloc, self.sealer, self.device, 0, sealed)?;
        put_blocks(target, &blocks)?;
        Ok(())
    }
}
