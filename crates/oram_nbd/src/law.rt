//! A law about connections.
ghost use Rattle.oram_nbd.specs.DeviceKind.{device_kind};
ghost use Rattle.oram_nbd.specs.Transmission.{ConnectionsServeArrays};

use crate::disk::BlockDevice;

/// A law about definitions: [`transmit`](crate::transmit) and [`serve`](crate::serve) say of each batch of requests that its
/// replies are those of an array. So those of the whole connection are: all of its requests, one after the other, lead from the
/// array that the device held at first to the one that it holds at last.
pub fn connections_serve_arrays<D: BlockDevice>()
    ensures { ConnectionsServeArrays (device_kind D.block_len D.size D.failed D.asked D.had D.hears D.holds D.kept) }
{}
