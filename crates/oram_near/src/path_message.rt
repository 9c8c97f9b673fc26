//! The messages about whole paths that the link takes.
ghost use Rattle.std.specs.Prelude.{◌≡◌, ◌^◌, ◌<◌, ◌≤◌, ◌+◌, ◌*◌, ◌↔◌, IfOk, IsTrue, MatchOption};
ghost use Rattle.oram_geometry.specs.Sizes.{depth_of, trees_of};
ghost use Rattle.oram_levels.specs.Messages.{levels_body};
ghost use Rattle.oram_near.specs.PathRequests.{IsOfDevice, PathRequest, far_of, first_far, path_body, request_of};

use oram_geometry::Device;
use oram_levels::{LevelsRequest, fetch_levels};
use oram_wire::HostView;
use std::alloc::{AllocError, Global};

/// A FETCH or a STORE of a whole path, whose records are borrowed from the body that it was read from.
#[derive(Clone, Copy, Debug)]
pub(crate) enum PathMessage<'a> {
    /// Asks for the records of a path.
    Fetch {
        tree: u8,
        leaf: u32,
    },
    /// Replaces them. `records` has them root first.
    Store {
        tree: u8,
        leaf: u32,
        records: &'a [u8],
    },
}

/// Returns whether a tree of the device has this leaf.
fn has_leaf(device: &Device, tree: u8, leaf: u32) -> bool
    ensures { IsTrue result ↔ ((tree < trees_of device.now) × (leaf < 2 ^ depth_of device.now tree)) }
{
    tree < device.trees() && leaf < 1 << device.depth(tree)
}

/// Returns the number of bytes of a path of a tree.
pub(crate) fn path_len(device: &Device, record_len: usize, tree: u8) -> usize
    requires tree { tree < trees_of device.now }
    requires few { record_len < 2 ^ 32 }
    ensures value { result ≡ (depth_of device.now tree + 1) * record_len }
    ensures small { result < 2 ^ 40 }
{
    (usize::from(device.depth(tree)) + 1) * record_len
}

/// Returns the first far level of a tree, if the client keeps `levels` levels of tree 0 itself.
pub(crate) fn first_far(levels: u8, tree: u8) -> u8
    ensures { result ≡ first_far levels tree }
{
    if tree == 0 { levels } else { 0 }
}

impl<'a> PathMessage<'a> {
    /// Reads a body. Returns `None` if it is neither a FETCH nor a STORE of a whole path of the device.
    pub(crate) fn read(
        device: &Device,
        record_len: usize,
        body: &'a [u8],
    ) -> Option<PathMessage<'a>>
        requires { record_len < 2 ^ 32 }
        ensures { MatchOption result ((request : PathRequest) → IsOfDevice device.now record_len request → body.now ≡ path_body request → ⊥)
            (λ message. IsOfDevice device.now record_len (request_of message) × (body.now ≡ path_body (request_of message))) }
    {
        match HostView::read(body) {
            Ok(HostView::Fetch { tree, leaf }) if has_leaf(device, tree, leaf) => {
                Some(PathMessage::Fetch { tree, leaf })
            }
            Ok(
                HostView::Store {
                    tree,
                    leaf,
                    records,
                },
            ) if has_leaf(device, tree, leaf)
                && records.len() == path_len(device, record_len, tree) => {
                Some(PathMessage::Store {
                    tree,
                    leaf,
                    records,
                })
            }
            _ => None,
        }
    }

    /// Encodes the message about the far levels of the same path. Fails only if memory runs out.
    pub(crate) fn encode_far(
        &self,
        alloc: Global,
        device: &Device,
        record_len: usize,
        levels: u8,
    ) -> Result<Vec<u8>, AllocError>
        requires few { record_len < 2 ^ 32 }
        requires levels { levels ≤ depth_of device.now 0 }
        requires message { IsOfDevice device.now record_len (request_of self.now) }
        ensures { IfOk result (λ body. body.items ≡ levels_body (far_of device.now levels record_len (request_of self.now))) }
    {
        match *self {
            PathMessage::Fetch { tree, leaf } => {
                fetch_levels(tree, first_far(levels, tree), device.depth(tree), leaf).to_vec(alloc)
            }
            PathMessage::Store {
                tree,
                leaf,
                records,
            } => {
                let first = first_far(levels, tree);
                let records = &records[usize::from(first) * record_len..];
                let far = LevelsRequest::Store {
                    tree,
                    first,
                    leaf,
                    records,
                };
                far.encode(alloc)
            }
        }
    }
}
