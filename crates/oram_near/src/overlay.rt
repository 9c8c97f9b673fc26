//! Lays the records of STOREs of levels over a path.
ghost use Rattle.std.specs.Prelude.{◌≡◌, ◌+◌, ◌*◌, ◌^◌, ◌<◌, ◌≤◌, [], ◌∷◌, ℕ, List, drop, length, map, slice_index};
ghost use Rattle.std.specs.List.{AllByRecursion};
ghost use Rattle.oram_geometry.specs.Sizes.{depth_of, trees_of};
ghost use Rattle.oram_wire.specs.HostMessages.{payload_answer};
ghost use Rattle.oram_rounds.specs.Batches.{texts};
ghost use Rattle.oram_near.specs.Completion.{LaysOver, PutsLevels};
ghost use Rattle.oram_near.specs.PathRequests.{IsFarStoreBody, store_in};

use oram_geometry::Device;
use oram_levels::LevelsRequest;
use oram_wire::GOOD;

/// Replaces records from level `first` on. `records` has at least the records of `count` levels.
fn put_levels(path: &mut [u8], record_len: usize, first: usize, count: usize, records: &[u8])
    requires there { (first + count) * record_len ≤ length path.old }
    requires enough { count * record_len ≤ length records.now }
    ensures { PutsLevels record_len first count records.now path.old path.new }
{
    let (start, len) = (first * record_len, count * record_len);
    path[start..start + len].copy_from_slice(&records[..len]);
}

/// Lays the records of a STORE of levels over the path of a leaf: the paths share their nodes from the root down to some level.
fn lay_store(
    device: &Device,
    record_len: usize,
    levels: u8,
    tree: u8,
    leaf: u32,
    store: &[u8],
    path: &mut [u8],
)
    requires tree { tree < trees_of device.now }
    requires leaf { leaf < 2 ^ depth_of device.now tree }
    requires whole { length path.old ≡ (depth_of device.now tree + 1) * record_len }
    requires store { IsFarStoreBody device.now levels record_len store.now }
    ensures { LaysOver device.now record_len tree leaf (store_in store.now ∷ []) path.old path.new }
{
    let Ok(
        LevelsRequest::Store {
            tree: own,
            first,
            leaf: other,
            records,
        },
    ) = LevelsRequest::decode(store)
    else {
        unreachable!()
    };
    if own != tree {
        return;
    }
    let shared = device.shared_level(tree, leaf, other);
    if shared < first {
        return;
    }
    let count = usize::from(shared - first) + 1;
    put_levels(path, record_len, usize::from(first), count, records);
}

/// Lays the records of STOREs of levels over the path of a leaf, the oldest STORE first.
fn lay_stores(
    device: &Device,
    record_len: usize,
    levels: u8,
    tree: u8,
    leaf: u32,
    stores: &[Vec<u8>],
    path: &mut [u8],
)
    requires tree { tree < trees_of device.now }
    requires leaf { leaf < 2 ^ depth_of device.now tree }
    requires whole { length path.old ≡ (depth_of device.now tree + 1) * record_len }
    requires stores { AllByRecursion (IsFarStoreBody device.now levels record_len) (texts stores.now) }
    ensures { LaysOver device.now record_len tree leaf (map store_in (texts stores.now)) path.old path.new }
{
    for store in stores {
        lay_store(device, record_len, levels, tree, leaf, store, path);
    }
}

/// Lays the records of STOREs of levels over the path in the answer to a FETCH, the oldest STORE first.
pub(crate) fn lay_over(
    device: &Device,
    record_len: usize,
    levels: u8,
    tree: u8,
    leaf: u32,
    stores: &[Vec<u8>],
    answer: &mut [u8],
)
    requires tree { tree < trees_of device.now }
    requires leaf { leaf < 2 ^ depth_of device.now tree }
    requires good { slice_index answer.old 0 ≡ GOOD }
    requires whole { length answer.old ≡ 1 + (depth_of device.now tree + 1) * record_len }
    requires stores { AllByRecursion (IsFarStoreBody device.now levels record_len) (texts stores.now) }
    ensures { (path : List ℕ) × LaysOver device.now record_len tree leaf (map store_in (texts stores.now)) (drop 1 answer.old) path × (answer.new ≡ payload_answer path) }
{
    lay_stores(
        device,
        record_len,
        levels,
        tree,
        leaf,
        stores,
        &mut answer[1..],
    );
}
