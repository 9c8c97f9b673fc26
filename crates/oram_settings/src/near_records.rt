//! Near records: the records of the top levels of tree 0, which the client keeps itself.

ghost use Rattle.std.specs.Prelude.{ℕ, ◌≡◌, ◌≤◌};
ghost use Rattle.oram_geometry.specs.Sizes.{depth_of};
ghost use Rattle.oram_settings.specs.NearRecords as spec;
ghost use Rattle.oram_settings.specs.NearRecords.{IsNearLevels};

use oram_geometry::Device;

/// Returns the number of bytes of the records of so many levels of tree 0, from the root on. Sealing adds `overhead` bytes to a
/// bucket.
pub fn near_len(device: &Device, overhead: usize, levels: u8) -> u64
    requires overhead { overhead ≤ 64 }
    requires levels { levels ≤ depth_of device.now 0 }
    ensures value { result ≡ spec.near_len device.now overhead levels }
    // With the result as the setting `near`, there are as many near levels.
    ensures near { IsNearLevels device.now overhead result levels }
{
    prove!(0 < device.trees());
    prove!(device.depth(0) <= 24);
    let nodes = (1u64 << levels) - 1;
    nodes * device.record_len(overhead) as u64
}

/// Returns the number of near levels of a device: of how many levels of tree 0, from the root on, the client keeps the records
/// itself, if they may have `near` bytes together. Sealing adds `overhead` bytes to a bucket.
pub fn near_levels(device: &Device, overhead: usize, near: u64) -> u8
    requires { overhead ≤ 64 }
    ensures near { IsNearLevels device.now overhead near result }
    // There is no other such number.
    ensures only { (levels : ℕ) → IsNearLevels device.now overhead near levels → levels ≡ result }
{
    prove!(0 < device.trees());
    let depth = device.depth(0);
    let mut levels = 0;
    while levels < depth && near_len(device, overhead, levels + 1) <= near {
        levels += 1;
    }
    levels
}
