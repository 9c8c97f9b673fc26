//! The digests that a client keeps of a formatting.
ghost use Rattle.std.specs.Prelude.{◌≡◌, ◌↔◌, ◌*◌, ◌^◌, ◌<◌, ◌≤◌, length, IfSome, IsSome};
ghost use Rattle.oram_geometry.specs.Sizes.{trees_of, depth_of};
ghost use Rattle.oram_empty.specs.KeptDigests.{children_in, upper_count, upper_below, digests_len};

use crate::records::DIGESTS_LEN;
use oram_geometry::Device;
use std::marker::Model;

/// A node is an upper node if more than this many levels of its tree lie below it.
pub(crate) const LOW_LEVELS: u8 = 3;

/// Returns the number of upper nodes of a tree of this depth. They are the first nodes of the tree.
pub(crate) fn upper_count(depth: u8) -> usize
    requires { depth ≤ 24 }
    ensures value { result ≡ upper_count depth }
    ensures few { result ≤ 2 ^ 21 }
{
    (1 << depth.saturating_sub(LOW_LEVELS)) - 1
}

/// Returns the number of upper nodes of the trees before this one.
pub(crate) fn upper_below(device: &Device, tree: u8) -> usize
    requires { tree ≤ trees_of device.now }
    ensures value { result ≡ upper_below device.now tree }
    ensures few { result ≤ 2 ^ 21 * 14 }
{
    prove!(tree <= device.trees());
    let mut nodes = 0;
    for earlier in 0..tree {
        nodes += upper_count(device.depth(earlier));
    }
    nodes
}

/// Returns the number of bytes of the digests of a device, 2^31 at most.
pub fn digests_len(device: &Device) -> usize
    ensures value { result ≡ digests_len device.now }
    ensures few { result ≤ 2 ^ 31 }
{
    DIGESTS_LEN * upper_below(device, device.trees())
}

/// The digests that end the records of a formatting, for each upper node of each tree, which is a node more than three levels above the
/// leaves: the digest of the left child's record and that of the right child's, 32 bytes each.
///
/// They lie tree by tree and node by node in borrowed bytes, which a client keeps in a file as they are. So it has the digests of all nodes
/// down to three levels above the leaves, but for the roots, whose digests the core has. Nobody can tell by looking at these bytes whether
/// they are the right digests. If they are damaged, [`EmptyDigests::append_path`] makes records of the right length
/// that aren't those of the formatting. A core checks each record against the digest in the record above it, so it refuses such a path.
#[derive(Debug, Drop)]
pub struct EmptyDigests<'a> {
    device: &'a Device,
    bytes: &'a [u8],
}

impl<'a> Model for EmptyDigests<'a> {
    ghost use Rattle.std.specs.Prelude.{◌≡◌, length};
    ghost use Rattle.oram_empty.specs.KeptDigests.{Digests, digests_len};

    ghost Value = { Digests };

    ghost view = { λ e. record { device = e.device.now; bytes = e.bytes.now } };

    ghost invariant = { λ e. length e.bytes.now ≡ digests_len e.device.now };
}

impl<'a> EmptyDigests<'a> {
    /// Takes `bytes` as the digests of a device. Returns `None` if there are more or fewer bytes than the device's digests have.
    pub fn from_bytes(device: &'a Device, bytes: &'a [u8]) -> Option<EmptyDigests<'a>>
        ensures value { IfSome result (λ e. e ≡ record { device = device.now; bytes = bytes.now }) }
        ensures len { IsSome result ↔ (length bytes.now ≡ digests_len device.now) }
    {
        if bytes.len() != digests_len(device) {
            return None;
        }
        Some(EmptyDigests { device, bytes })
    }

    /// Returns the device.
    pub fn device(&self) -> &'a Device
        ensures { result.now ≡ self.now.device }
    {
        self.device
    }

    /// Returns the digests of the children of an upper node: the left child's, and then the right child's.
    pub(crate) fn children(&self, tree: u8, node: u32) -> &'a [u8]
        requires tree { tree < trees_of self.now.device }
        requires node { node < upper_count (depth_of self.now.device tree) }
        ensures digests { result.now ≡ children_in self.now.device self.now.bytes tree node }
        ensures len { length result.now ≡ 64 }
    {
        let start = (upper_below(self.device, tree) + node as usize) * DIGESTS_LEN;
        &self.bytes[start..start + DIGESTS_LEN]
    }
}
