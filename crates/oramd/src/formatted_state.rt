//! Formats a device.

ghost use Rattle.std.specs.Prelude.{◌≡◌, IfErr, IfOk};
ghost use Rattle.oram_geometry.specs.Sizes.{device_of};
ghost use Rattle.oram_semantics.specs.State.{State};
ghost use Rattle.oram_core.specs.Core.{scheme_with};
ghost use Rattle.oram_state.specs.DecodedCore.{IsSaved};
ghost use Rattle.oramd.specs.Formatting.{GivesNoFile, IsFormatted};
ghost use Rattle.oramd.specs.LibraryFaults as spec;

use crate::faults::Fault;
use oram_bucket::Sealer;
use oram_geometry::Device;
use oram_session::{Link, format_device};
use oram_state::encode_state;
use std::alloc::Global;

/// Makes the device with the settings' five numbers. Fails with [`Fault::Shape`] if there is no
/// such device.
pub fn made_device(
    blocks: u64,
    block_bytes: u64,
    slots: u64,
    top: u64,
    lifetime: u64,
) -> Result<Device, Fault>
    ensures made { result ≡ spec.made_device (device_of (record { blocks = blocks; block_bytes = block_bytes; slots = slots; top = top; lifetime = lifetime; leaf_load = 1 })) }
    // So it has a state file.
    ensures load { IfOk result (λ d. d.leaf_load ≡ 1) }
{
    Ok(Device::new(blocks, block_bytes, slots, top, lifetime)?)
}

/// Formats a device on the host at the other end of the link, and returns the device's state file.
pub fn format_state<S: Sealer, L: Link>(
    alloc: Global,
    device: Device,
    sealer: S,
    link: &mut L,
) -> Result<Vec<u8>, Fault>
    requires { device.leaf_load ≡ 1 }
    ensures formatted { let v = scheme_with S.cipher device sealer in
        IfOk result (λ file. (s : State) × IsFormatted v L.calls link.old s link.new × IsSaved file.items (S.cipher sealer).overhead device s) }
    ensures fault { let v = scheme_with S.cipher device sealer in
        IfErr result (λ fault. GivesNoFile v L.calls link.old fault link.new) }
{
    let core = format_device(alloc, device, sealer, link)?;
    Ok(encode_state(alloc, &core)?)
}
