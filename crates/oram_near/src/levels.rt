//! How many levels of tree 0 a client keeps itself.
ghost use Rattle.std.specs.Prelude.{◌≡◌, ◌^◌, ◌<◌, ◌≤◌};
ghost use Rattle.oram_geometry.specs.Sizes.{depth_of, record_len_of};
ghost use Rattle.oram_near.specs.NearLevels.{IsMostLevels, near_len};

use oram_geometry::Device;

/// Returns the number of bytes of the records of the top `levels` levels of a tree.
pub(crate) fn near_len(levels: u8, record_len: usize) -> usize
    requires levels { levels ≤ 24 }
    requires few { record_len < 2 ^ 32 }
    ensures value { result ≡ near_len levels record_len }
    ensures small { result < 2 ^ 56 }
{
    ((1 << levels) - 1) * record_len
}

/// Returns the greatest number of levels of tree 0 whose records have together at most `most_bytes` bytes. It is at most the depth of
/// tree 0, so the leaves' records are never among them. `overhead` is what sealing adds to a bucket.
pub fn near_levels(device: &Device, overhead: usize, most_bytes: usize) -> u8
    requires { overhead ≤ 64 }
    ensures { IsMostLevels (depth_of device.now 0) (record_len_of device.now overhead) most_bytes result }
{
    let record_len = device.record_len(overhead);
    let depth = device.depth(0);
    let mut levels = 0;
    while levels < depth && near_len(levels + 1, record_len) <= most_bytes {
        levels += 1;
    }
    levels
}
