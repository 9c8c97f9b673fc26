//! How much room a disk takes at its host.

ghost use Rattle.std.specs.Prelude.{◌≡◌};
ghost use Rattle.oram_settings.specs.Footprint as spec;

use crate::disk_file::Sealing;
use oram_bucket::{ChaChaSeal, PlainSeal, Sealer};
use oram_geometry::Device;

/// Returns by how many bytes a bucket gets longer when it is sealed.
pub fn overhead_of(sealing: Sealing) -> usize
    ensures { result ≡ spec.overhead_of sealing }
{
    match sealing {
        Sealing::Plain => PlainSeal.overhead(),
        // It is the same for each key.
        Sealing::ChaCha => ChaChaSeal { key: [0; 32] }.overhead(),
    }
}

/// Returns the number of nodes of all trees of a device.
#[tactic(auto, unfolding(crate::specs::Footprint::nodes_below))]
fn nodes_of(device: &Device) -> u64
    ensures { result ≡ spec.nodes_of device.now }
{
    let mut nodes = 0u64;
    for tree in 0..device.trees() {
        nodes = nodes.saturating_add((2u64 << device.depth(tree)) - 1);
    }
    nodes
}

/// Returns the number of bytes of a device's records, which its formatting sends to the host, and the host stores. A
/// file of buckets is somewhat longer.
pub fn stored_bytes(device: &Device, sealing: Sealing) -> u64
    ensures { result ≡ spec.stored_bytes device.now sealing }
{
    let record = device.record_len(overhead_of(sealing)) as u64;
    nodes_of(device).saturating_mul(record)
}
