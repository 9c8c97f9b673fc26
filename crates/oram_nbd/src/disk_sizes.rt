//! The sizes of a device.

ghost use Rattle.std.specs.Prelude.{◌≡◌};
ghost use Rattle.oram_nbd.specs.Batches.{AreDiskSizes};

use crate::disk::BlockDevice;

/// The sizes of a device, in bytes.
#[derive(Clone, Copy, Debug)]
pub(crate) struct DiskSizes {
    /// The number of bytes of a block.
    pub(crate) block: u64,
    /// The number of bytes of the device.
    pub(crate) size: u64,
}

impl DiskSizes {
    /// Returns the sizes of a device.
    pub(crate) fn of<D: BlockDevice>(disk: &D) -> DiskSizes
        ensures block { result.block ≡ D.block_len disk.now }
        ensures size { result.size ≡ D.size disk.now }
        ensures is { AreDiskSizes result.block result.size }
    {
        let block = u64::from(disk.block_bytes());
        DiskSizes {
            block,
            size: block * disk.blocks(),
        }
    }
}
