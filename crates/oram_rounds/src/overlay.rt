//! Lays the records of STOREs over a path that was fetched.
ghost use Rattle.std.specs.Prelude.{◌≡◌, ◌+◌, ◌*◌, ◌^◌, ◌<◌, length};
ghost use Rattle.oram_geometry.specs.Sizes.{depth_of, trees_of};
ghost use Rattle.oram_rounds.specs.Batches.{texts};
ghost use Rattle.oram_rounds.specs.Overlay.{IsOverlaid, LaysAllOver, LaysOver};
ghost use Rattle.oram_rounds.specs.PathMessages.{ArePathStores, IsPathStore};

use oram_geometry::Device;
use oram_wire::{GOOD, HostView};

/// Lays the records of a STORE over the path of a leaf: the paths share their nodes from the root down to some level.
fn lay_store(device: &Device, record_len: usize, tree: u8, leaf: u32, store: &[u8], path: &mut [u8])
    requires tree { tree < trees_of device.now }
    requires leaf { leaf < 2 ^ depth_of device.now tree }
    requires whole { length path.old ≡ (depth_of device.now tree + 1) * record_len }
    requires store { IsPathStore device.now record_len store.now }
    ensures { LaysOver device.now record_len tree leaf store.now path.old path.new }
{
    let Ok(
        HostView::Store {
            tree: own,
            leaf: other,
            records,
        },
    ) = HostView::read(store)
    else {
        unreachable!()
    };
    if own == tree {
        let shared = usize::from(device.shared_level(tree, leaf, other)) + 1;
        path[..shared * record_len].copy_from_slice(&records[..shared * record_len]);
    }
}

/// Lays the records of STOREs over the path of a leaf, the oldest STORE first.
fn lay_stores(
    device: &Device,
    record_len: usize,
    tree: u8,
    leaf: u32,
    stores: &[Vec<u8>],
    path: &mut [u8],
)
    requires tree { tree < trees_of device.now }
    requires leaf { leaf < 2 ^ depth_of device.now tree }
    requires whole { length path.old ≡ (depth_of device.now tree + 1) * record_len }
    requires stores { ArePathStores device.now record_len (texts stores.now) }
    ensures { LaysAllOver device.now record_len tree leaf (texts stores.now) path.old path.new }
{
    for store in stores {
        lay_store(device, record_len, tree, leaf, store, path);
    }
}

/// Returns the number of bytes of a path of a tree.
pub(crate) fn path_len(device: &Device, record_len: usize, tree: u8) -> usize
    requires tree { tree < trees_of device.now }
    requires few { record_len < 2 ^ 32 }
    ensures value { result ≡ (depth_of device.now tree + 1) * record_len }
    ensures small { result < 2 ^ 40 }
{
    (usize::from(device.depth(tree)) + 1) * record_len
}

/// Lays the records of STOREs over the path in the answer to a FETCH. An answer that has no path stays as it is.
pub(crate) fn lay_over(
    device: &Device,
    record_len: usize,
    tree: u8,
    leaf: u32,
    stores: &[Vec<u8>],
    answer: &mut [u8],
)
    requires tree { tree < trees_of device.now }
    requires leaf { leaf < 2 ^ depth_of device.now tree }
    requires few { record_len < 2 ^ 32 }
    requires stores { ArePathStores device.now record_len (texts stores.now) }
    ensures { IsOverlaid device.now record_len tree leaf (texts stores.now) answer.old answer.new }
{
    if answer.len() == 1 + path_len(device, record_len, tree) && answer[0] == GOOD {
        lay_stores(device, record_len, tree, leaf, stores, &mut answer[1..]);
    }
}
