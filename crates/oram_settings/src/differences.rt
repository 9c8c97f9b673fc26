//! Settings that differ from those that a disk was formatted with.

ghost use Rattle.std.specs.Prelude.{◌≡◌, ◌≤◌, IfOk, None, string_bytes};
ghost use Rattle.oram_geometry.specs.Sizes.{depth_of};
ghost use Rattle.oram_settings.specs.Differences as spec;
ghost use Rattle.oram_settings.specs.Differences.{AgreeAt, IsFirstDifference, fixed_keys};
ghost use Rattle.oram_settings.specs.declared.differences.FixedKey.TheVariants.{Near};
ghost use Rattle.oram_settings.specs.declared.disk_file.DiskSettings.{DiskSettings};
ghost use Rattle.oram_settings.specs.Footprint.{overhead_of};
ghost use Rattle.oram_settings.specs.NearRecords.{IsNearLevels, near_len};
ghost use Rattle.oram_settings.specs.Settings.{IsDeviceOf};

use crate::disk_file::{DiskSettings, Sealing};
use crate::footprint::overhead_of;
use crate::near_records::{near_len, near_levels};
use oram_geometry::Device;
use std::alloc::{AllocError, Global};
use std::fmt;

/// A key of the settings that is fixed once the disk is formatted.
#[derive(Clone, Copy, Debug, PartialEq, Eq)]
pub enum FixedKey {
    Size,
    Block,
    Slots,
    LeafLoad,
    Table,
    Sealer,
    Near,
}

// As the settings file spells it.
impl fmt::Display for FixedKey {
    fn fmt<W: fmt::Write>(&self, f: &mut fmt::Formatter<W>) -> fmt::Result {
        f.write_str(match self {
            FixedKey::Size => "size",
            FixedKey::Block => "block",
            FixedKey::Slots => "slots",
            FixedKey::LeafLoad => "leaf_load",
            FixedKey::Table => "table",
            FixedKey::Sealer => "sealer",
            FixedKey::Near => "near",
        })
    }
}

/// Returns the first key at which the settings differ from what a disk was formatted with: its device, how its buckets are
/// sealed, and how many near levels it has.
pub fn first_difference(
    settings: &DiskSettings,
    device: &Device,
    sealing: Sealing,
    levels: u8,
) -> Option<FixedKey>
    ensures first { IsFirstDifference (AgreeAt settings.now device.now sealing levels) fixed_keys result }

    // A disk that was formatted with these settings doesn't differ from them.
    ensures same { IsDeviceOf settings.now.size settings.now.block settings.now.slots settings.now.leaf_load settings.now.table device.now
        → settings.now.sealer ≡ sealing → IsNearLevels device.now (overhead_of sealing) settings.now.near levels → result ≡ None }
{
    prove!(0 < device.trees());
    let size = u64::from(device.blocks_in(0)) * device.block_bytes() as u64;
    if settings.size != size {
        Some(FixedKey::Size)
    } else if settings.block != device.block_bytes() as u64 {
        Some(FixedKey::Block)
    } else if settings.slots != device.slots() as u64 {
        Some(FixedKey::Slots)
    } else if settings.leaf_load != device.leaf_load() {
        Some(FixedKey::LeafLoad)
    } else if settings.table != device.top() {
        Some(FixedKey::Table)
    } else if settings.sealer != sealing {
        Some(FixedKey::Sealer)
    } else if near_levels(device, overhead_of(sealing), settings.near) != levels {
        Some(FixedKey::Near)
    } else {
        None
    }
}

/// Returns the value that a key had when a disk was formatted with so many near levels, as the settings file spells it. Of `near` it
/// returns how many bytes the records of these levels have.
pub fn value_text(
    alloc: Global,
    key: FixedKey,
    device: &Device,
    sealing: Sealing,
    levels: u8,
) -> Result<String, AllocError>
    requires { levels ≤ depth_of device.now 0 }
    ensures text { IfOk result (λ text. string_bytes text ≡ spec.value_text device.now sealing levels key) }
    // Settings whose `near` is the number in this text agree with the disk there.
    ensures near { (s : DiskSettings) → s.near ≡ near_len device.now (overhead_of sealing) levels → AgreeAt s device.now sealing levels Near }
{
    prove!(0 < device.trees());
    let number = match key {
        FixedKey::Size => u64::from(device.blocks_in(0)) * device.block_bytes() as u64,
        FixedKey::Block => device.block_bytes() as u64,
        FixedKey::Slots => device.slots() as u64,
        FixedKey::LeafLoad => device.leaf_load(),
        FixedKey::Table => device.top(),
        FixedKey::Near => near_len(device, overhead_of(sealing), levels),
        FixedKey::Sealer => {
            return String::from_str(
                alloc,
                match sealing {
                    Sealing::Plain => "\"plain\"",
                    Sealing::ChaCha => "\"chacha\"",
                },
            );
        }
    };
    format!(in alloc; "{number}")
}
