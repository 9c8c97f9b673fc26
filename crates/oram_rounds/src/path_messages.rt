//! Which messages are FETCHes and STOREs of whole paths of a device.
ghost use Rattle.std.specs.Prelude.{◌≡◌, ◌↔◌, ◌^◌, ◌<◌, IsTrue, MatchOption};
ghost use Rattle.std.specs.List.{AllByRecursion};
ghost use Rattle.oram_geometry.specs.Sizes.{depth_of, trees_of};
ghost use Rattle.oram_wire.specs.HostMessages.{fetch_body};
ghost use Rattle.oram_rounds.specs.Batches.{texts};
ghost use Rattle.oram_rounds.specs.PathMessages.{ArePathStores, IsPathFetch, IsPathStore};

use crate::overlay::path_len;
use oram_geometry::Device;
use oram_wire::HostView;

/// Returns whether a tree of the device has this leaf.
pub(crate) fn has_leaf(device: &Device, tree: u8, leaf: u32) -> bool
    ensures { IsTrue result ↔ ((tree < trees_of device.now) × (leaf < 2 ^ depth_of device.now tree)) }
{
    tree < device.trees() && leaf < 1 << device.depth(tree)
}

/// Returns whether a message is a STORE of a whole path of the device.
pub(crate) fn is_path_store(device: &Device, record_len: usize, body: &[u8]) -> bool
    requires { record_len < 2 ^ 32 }
    ensures { IsTrue result ↔ IsPathStore device.now record_len body.now }
{
    match HostView::read(body) {
        Ok(
            HostView::Store {
                tree,
                leaf,
                records,
            },
        ) => { has_leaf(device, tree, leaf) && records.len() == path_len(device, record_len, tree) }
        _ => false,
    }
}

/// Returns whether all messages are STOREs of whole paths of the device.
pub(crate) fn are_path_stores(device: &Device, record_len: usize, bodies: &[Vec<u8>]) -> bool
    requires { record_len < 2 ^ 32 }
    ensures { IsTrue result ↔ ArePathStores device.now record_len (texts bodies.now) }
{
    for body in bodies {
        if !is_path_store(device, record_len, body) {
            return false;
        }
    }
    true
}

/// Returns the tree and the leaf of a FETCH of a path of the device, or `None` if a message is no such FETCH.
pub(crate) fn fetched_path(device: &Device, body: &[u8]) -> Option<(u8, u32)>
    ensures { MatchOption result (¬ IsPathFetch device.now body.now)
        (λ path. (path.0 < trees_of device.now) × (path.1 < 2 ^ depth_of device.now path.0) × (body.now ≡ fetch_body path.0 path.1)) }
{
    let Ok(HostView::Fetch { tree, leaf }) = HostView::read(body) else {
        return None;
    };
    if !has_leaf(device, tree, leaf) {
        return None;
    }
    Some((tree, leaf))
}

/// Returns whether a message is a FETCH of a path of the device.
pub(crate) fn is_path_fetch(device: &Device, body: &[u8]) -> bool
    ensures { IsTrue result ↔ IsPathFetch device.now body.now }
{
    fetched_path(device, body).is_some()
}

/// Returns whether all messages are FETCHes of paths of the device.
pub(crate) fn are_path_fetches(device: &Device, bodies: &[Vec<u8>]) -> bool
    ensures { IsTrue result ↔ AllByRecursion (IsPathFetch device.now) (texts bodies.now) }
{
    for body in bodies {
        if !is_path_fetch(device, body) {
            return false;
        }
    }
    true
}
