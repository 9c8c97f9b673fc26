//! One access, which makes the records that replace a path.
ghost use Rattle.std.specs.Prelude.{◌≡◌, ◌≢◌, ◌⊎◌, ◌↔◌, ◌+◌, ◌^◌, ◌<◌, ◌≤◌, ◌||◌, ◌++◌, ℕ, List, [], Err, IfOk, IfErr, OnOk, OnErr, All, AllPairs, Contains, is_some, length, vec_capacity, map, replicate};
ghost use Rattle.oram_geometry.specs.Sizes.{trees_of, blocks_in, depth_of, record_len_of};
ghost use Rattle.oram_hash.specs.Path.{path_of, with_bytes, HasLength};
ghost use Rattle.oram_hash.specs.Rebuild.{StandsRebuilt};
ghost use Rattle.oram_bucket.specs.Cell.{Cell, IsRising};
ghost use Rattle.oram_bucket.specs.Bucket.{IsBlockOf, IsBucketOf};
ghost use Rattle.oram_bucket.specs.SealedBlocks.{Reads};
ghost use Rattle.oram_stash.specs.Blocks.{block_at};
ghost use Rattle.oram_stash.specs.Eviction.{IsEviction};
ghost use Rattle.oram_tree.specs.Edits.{edited_block, IsEditOf, HasRoomFor};
ghost use Rattle.oram_tree.specs.Access.{content_in, IsNear, IsInBucket, IsReadable, IsLookup, IsWaiting, IsSealedTo, IsAppended, IsPrepared, IsRewritten};

use crate::edits::{Edit, apply};
use crate::faults::TreeFault;
use crate::path_blocks::gather;
use oram_bucket::{Block, Sealer, seal_bucket_to};
use oram_geometry::Device;
use oram_hash::{DIGEST_LEN, PathView};
use oram_stash::{Placement, Stash, StashFault, place};
use std::alloc::{AllocError, Global};

/// What an access asks of a tree.
#[derive(Clone, Copy, Debug)]
pub struct AccessRequest {
    /// The block to access.
    pub address: u32,
    /// The leaf whose path was fetched.
    pub old_leaf: u32,
    /// The leaf that the block gets.
    pub new_leaf: u32,
    /// The nonce of the path's first new bucket; each further one has the next number.
    pub nonce: u64,
}

/// The block that an access finds.
#[derive(Debug, Drop)]
pub struct Lookup {
    /// The block's data before the edit, or zeros if it was absent.
    pub before: Vec<u8>,
    /// Whether the tree had the block.
    pub found: bool,
}

/// The result of an access.
#[derive(Debug, Drop)]
pub struct Access {
    /// The block's data before the edit, or zeros if it was absent.
    pub before: Vec<u8>,
    /// Whether the tree had the block.
    pub found: bool,
    /// The records to store on the path, root first.
    pub records: Vec<u8>,
}

/// A prepared access: everything it needs to change the tree without being able to fail.
#[derive(Drop)]
pub(crate) struct Prepared {
    /// The path's blocks and the accessed block, which has its new leaf.
    pub near: Stash,
    /// The addresses of the blocks that stay in the stash.
    pub stays: Vec<u32>,
    /// Room for the new stash.
    pub room: Vec<Block>,
    pub root: [u8; DIGEST_LEN],
    /// The accessed block as the path has it. If the tree's stash has it, it stays there until the commit.
    pub on_path: Lookup,
}

fn zeros(alloc: Global, len: usize) -> Result<Vec<u8>, AllocError>
    ensures { IfOk result (λ v. v.items ≡ replicate len 0) }
{
    vec![in alloc; 0; len]
}

/// Takes the block `address` out of `stash`. Returns its data and `true`, or zeros and `false` if it isn't there.
fn take_content(
    alloc: Global,
    device: &Device,
    stash: &mut Stash,
    address: u32,
) -> Result<(Vec<u8>, bool), AllocError>
    requires { IsRising stash.old }
    ensures rising { IsRising stash.new }
    ensures lookup { IfOk result (λ r.
        IsLookup (Contains stash.old) device.now.block_bytes address r.1 r.0.items) }
    ensures others { OnOk result ((c : Cell) →
        Contains stash.new c ↔ (Contains stash.old c × (c.address ≢ address))) }
{
    match stash.take(address) {
        Some(block) => {
            let Block { content, .. } = block;
            Ok((content, true))
        }
        None => Ok((zeros(alloc, device.block_bytes())?, false)),
    }
}

/// Edits the block `address`, or makes it if it is in neither stash, and puts it into `near` with its new leaf. Leaves
/// `stash` unchanged. Returns the block's data as `near` had it, or zeros, and whether `near` had it.
fn change(
    alloc: Global,
    device: &Device,
    stash: &Stash,
    near: &mut Stash,
    address: u32,
    leaf: u32,
    edit: Edit<'_>,
) -> Result<(Vec<u8>, bool), TreeFault>
    requires edit { HasRoomFor device.now.block_bytes edit }
    requires rising { IsRising near.old }
    requires whole { All (λ block. length block.content ≡ device.now.block_bytes) (stash.now ++ near.old) }
    ensures rising { OnOk result (IsRising near.new) }
    ensures lookup { IfOk result (λ r.
        IsLookup (Contains near.old) device.now.block_bytes address r.1 r.0.items) }
    ensures waits { IfOk result (λ r. IsWaiting (Contains near.old)
        (edited_block address leaf edit.entry (content_in stash.now address r.0.items)) near.new) }
    ensures memory { IfErr result (λ f. f ≡ TreeFault.OutOfMemory) }
{
    let (before, found) = take_content(alloc, device, near, address)?;
    let content = match stash.get(address) {
        Some(block) => apply(alloc, edit, &block.content)?,
        None => apply(alloc, edit, &before)?,
    };
    let block = Block {
        address,
        leaf,
        content,
    };
    match near.absorb(block) {
        Ok(()) => Ok((before, found)),
        Err(StashFault::Duplicate(_)) => unreachable!(),
        Err(StashFault::OutOfMemory(_)) => Err(TreeFault::OutOfMemory),
    }
}

/// Appends the path's new records to `out`, not linked yet: the lists as its buckets, sealed under rising nonces, each
/// with the path's digests after it.
fn seal_path<S: Sealer>(
    alloc: Global,
    device: &Device,
    tree: u8,
    sealer: &S,
    path: &PathView<'_>,
    nonce: u64,
    lists: &[Vec<&Block>],
    out: &mut Vec<u8>,
) -> Result<(), AllocError>
    requires tree { tree < trees_of device.now }
    requires depth { path.now.depth ≡ depth_of device.now tree }
    requires levels { length lists.now ≡ path.now.depth + 1 }
    requires len { path.now.record_len ≡ record_len_of device.now (S.cipher sealer.now).overhead }
    requires buckets { All (λ list. IsBucketOf device.now tree (map (λ b. b.now) list.items)) lists.now }
    requires nonces { nonce + length lists.now ≤ 2 ^ 64 }
    ensures keeps { (gained : List ℕ) × (out.new.items ≡ out.old.items ++ gained) }
    ensures sealed { OnOk result (IsSealedTo (record { device = device.now; tree = tree; cipher = S.cipher sealer.now; path = path.now; nonce = nonce })
        (map (λ list. map (λ b. b.now) list.items) lists.now) (length lists.now) out.old.items out.new.items) }
{
    prove!(tree < device.trees());
    let mut plain = Vec::new(alloc);
    for level in 0..device.depth(tree) + 1 {
        let list = &lists[usize::from(level)];
        let nonce = nonce + u64::from(level);
        seal_bucket_to(alloc, sealer, device, tree, nonce, list, &mut plain, out)?;
        path.append_digests(level, out)?;
    }
    Ok(())
}

/// Appends the path's new records to `out` and returns the new root digest. If memory runs out, `out` is unchanged.
fn append_path<S: Sealer>(
    alloc: Global,
    device: &Device,
    tree: u8,
    sealer: &S,
    path: &PathView<'_>,
    nonce: u64,
    lists: &[Vec<&Block>],
    out: &mut Vec<u8>,
) -> Result<[u8; DIGEST_LEN], AllocError>
    requires tree { tree < trees_of device.now }
    requires depth { path.now.depth ≡ depth_of device.now tree }
    requires levels { length lists.now ≡ path.now.depth + 1 }
    requires len { path.now.record_len ≡ record_len_of device.now (S.cipher sealer.now).overhead }
    requires buckets { All (λ list. IsBucketOf device.now tree (map (λ b. b.now) list.items)) lists.now }
    requires nonces { nonce + length lists.now ≤ 2 ^ 64 }
    ensures err { OnErr result (out.new.items ≡ out.old.items) }
    ensures appended { IfOk result (IsAppended (record { device = device.now; tree = tree; cipher = S.cipher sealer.now; path = path.now; nonce = nonce })
        (map (λ list. map (λ b. b.now) list.items) lists.now) out.old.items out.new.items) }
{
    let start = out.len();
    match seal_path(alloc, device, tree, sealer, path, nonce, lists, out) {
        Ok(()) => Ok(path.relink(&mut out[start..])),
        Err(refused) => {
            out.truncate(start);
            Err(refused)
        }
    }
}

fn addresses_of(alloc: Global, blocks: &[&Block]) -> Result<Vec<u32>, AllocError>
    ensures { IfOk result (λ v. v.items ≡ map (λ b. b.now.address) blocks.now) }
{
    blocks.iter().map(|block| block.address).collect(alloc)
}

/// Evicts the waiting blocks to the path, and appends the path's new records to `out`. Returns the addresses of the blocks that
/// stay in the stash, and the new root digest.
fn evict_to<S: Sealer>(
    alloc: Global,
    device: &Device,
    tree: u8,
    sealer: &S,
    path: &PathView<'_>,
    leaf: u32,
    nonce: u64,
    waiting: Vec<&Block>,
    out: &mut Vec<u8>,
) -> Result<(Vec<u32>, [u8; DIGEST_LEN]), AllocError>
    requires tree { tree < trees_of device.now }
    requires path { path.now ≡ path_of device.now tree leaf (S.cipher sealer.now).overhead path.now.bytes }
    requires leaf { leaf < 2 ^ depth_of device.now tree }
    requires nonces { nonce + depth_of device.now tree < 2 ^ 64 }
    requires rising { IsRising (map (λ b. b.now) waiting.items) }
    requires blocks { All (IsBlockOf device.now tree) (map (λ b. b.now) waiting.items) }
    ensures err { OnErr result (out.new.items ≡ out.old.items) }
    ensures evicted { IfOk result (λ r. (lists : List (List Cell)) × (rest : List Cell)
        × IsEviction path.now.depth device.now.slots path.now.leaf (map (λ b. b.now) waiting.entry.items) lists rest
        × (r.0.items ≡ map (λ b. b.address) rest)
        × IsAppended (record { device = device.now; tree = tree; cipher = S.cipher sealer.now; path = path.now; nonce = nonce })
        lists out.old.items out.new.items r.1) }
{
    let Placement { lists, rest } = place(alloc, device, tree, leaf, waiting)?;
    let stays = addresses_of(alloc, &rest)?;
    let root = append_path(alloc, device, tree, sealer, path, nonce, &lists, out)?;
    Ok((stays, root))
}

/// Does everything in an access that can fail, and leaves the tree unchanged.
fn prepare<S: Sealer>(
    alloc: Global,
    device: &Device,
    tree: u8,
    sealer: &S,
    path: &PathView<'_>,
    stash: &Stash,
    request: AccessRequest,
    edit: Edit<'_>,
    out: &mut Vec<u8>,
) -> Result<Prepared, TreeFault>
    requires tree { tree < trees_of device.now }
    requires path { path.now ≡ path_of device.now tree request.old_leaf
        (S.cipher sealer.now).overhead path.now.bytes }
    requires address { request.address < blocks_in device.now tree }
    requires old_leaf { request.old_leaf < 2 ^ depth_of device.now tree }
    requires new_leaf { request.new_leaf < 2 ^ depth_of device.now tree }
    requires nonces { request.nonce + depth_of device.now tree < 2 ^ 64 }
    requires edit { IsEditOf device.now tree edit }
    requires blocks { All (IsBlockOf device.now tree) stash.now }

    ensures err { OnErr result (out.new.items ≡ out.old.items) }
    ensures unreadable { let reads = Reads (S.cipher sealer.now).opening device.now tree in
        result ≡ Err TreeFault.Unreadable → ¬ IsReadable reads path.now stash.now }
    ensures readable { let reads = Reads (S.cipher sealer.now).opening device.now tree in
        OnOk result (IsReadable reads path.now stash.now) }

    ensures lookup { let reads = Reads (S.cipher sealer.now).opening device.now tree in
        IfOk result (λ r. IsLookup (IsInBucket reads path.now)
        device.now.block_bytes request.address r.on_path.found r.on_path.before.items) }
    ensures prepared { IfOk result (λ r.
        IsPrepared (record { device = device.now; tree = tree; cipher = S.cipher sealer.now; path = path.now; nonce = request.nonce }) stash.now
        (edited_block request.address request.new_leaf edit.entry (content_in stash.now request.address r.on_path.before.items))
        (record { near = r.near; stays = r.stays.items; old = out.old.items; now = out.new.items; root = r.root })) }
    ensures blocks { IfOk result (λ r. All (IsBlockOf device.now tree) r.near) }
    ensures apart { IfOk result (λ r. (c d : Cell) → Contains stash.now c → Contains r.near d
        → c.address ≡ d.address → c.address ≡ request.address) }
    ensures empty { IfOk result (λ r. r.room.items ≡ []) }
    ensures room { IfOk result (λ r. length stash.now + length r.near ≤ vec_capacity r.room) }
{
    let mut near = gather(alloc, device, tree, sealer, path, stash)?;
    let AccessRequest {
        address,
        old_leaf,
        new_leaf,
        nonce,
    } = request;
    let (before, found) = change(alloc, device, stash, &mut near, address, new_leaf, edit)?;
    let room = stash.room_with(alloc, &near)?;
    let waiting = stash.waiting(alloc, &near, address)?;
    let (stays, root) = evict_to(
        alloc, device, tree, sealer, path, old_leaf, nonce, waiting, out,
    )?;
    let on_path = Lookup { before, found };
    Ok(Prepared {
        near,
        stays,
        room,
        root,
        on_path,
    })
}

/// Takes the accessed block out of the stash and returns its data without copying; if the stash doesn't have it, returns
/// `on_path`.
fn take_before(stash: &mut Stash, address: u32, on_path: Lookup) -> Lookup
    ensures others { (c : Cell) → Contains stash.new c ↔ (Contains stash.old c × (c.address ≢ address)) }
    ensures len { length stash.new ≤ length stash.old }
    ensures before { result.before.items ≡ content_in stash.old address on_path.before.items }
    ensures found { result.found ≡ (is_some (block_at stash.old address) || on_path.found) }
{
    match stash.take(address) {
        Some(block) => {
            let Block { content, .. } = block;
            Lookup {
                before: content,
                found: true,
            }
        }
        None => on_path,
    }
}

/// Changes the stash as a prepared access says, and returns what the access found. Allocates nothing.
fn commit(stash: &mut Stash, address: u32, prepared: Prepared) -> Lookup
    requires apart { (c d : Cell) → Contains stash.old c → Contains prepared.near d
        → c.address ≡ d.address → c.address ≡ address }
    requires stays { AllPairs (λ a b. a < b) prepared.stays.items }
    requires empty { prepared.room.items ≡ [] }
    requires room { length stash.old + length prepared.near ≤ vec_capacity prepared.room }
    ensures rising { IsRising stash.new }
    ensures kept { (c : Cell) → Contains stash.new c
        ↔ (((Contains stash.old c × (c.address ≢ address)) ⊎ Contains prepared.near c) × Contains prepared.stays.items c.address) }
    ensures before { result.before.items ≡ content_in stash.old address prepared.on_path.before.items }
    ensures found { result.found ≡ (is_some (block_at stash.old address) || prepared.on_path.found) }
{
    let Prepared {
        near,
        stays,
        room,
        on_path,
        ..
    } = prepared;
    let lookup = take_before(stash, address, on_path);
    stash.keep_left_over(near, &stays, room);
    lookup
}

/// Makes an access with a tree's stash: appends the path's new records to `out`, and returns what it found and the new
/// root digest. On a failure, `stash` and `out` are unchanged.
pub(crate) fn rewrite<S: Sealer>(
    alloc: Global,
    device: &Device,
    tree: u8,
    sealer: &S,
    path: &PathView<'_>,
    stash: &mut Stash,
    request: AccessRequest,
    edit: Edit<'_>,
    out: &mut Vec<u8>,
) -> Result<(Lookup, [u8; DIGEST_LEN]), TreeFault>
    requires tree { tree < trees_of device.now }
    requires path { path.now ≡ path_of device.now tree request.old_leaf
        (S.cipher sealer.now).overhead path.now.bytes }
    requires address { request.address < blocks_in device.now tree }
    requires old_leaf { request.old_leaf < 2 ^ depth_of device.now tree }
    requires new_leaf { request.new_leaf < 2 ^ depth_of device.now tree }
    requires nonces { request.nonce + depth_of device.now tree < 2 ^ 64 }
    requires edit { IsEditOf device.now tree edit }
    requires blocks { All (IsBlockOf device.now tree) stash.old }

    ensures err { OnErr result (stash.new ≡ stash.old) }
    ensures out_err { OnErr result (out.new.items ≡ out.old.items) }
    ensures unreadable { let reads = Reads (S.cipher sealer.now).opening device.now tree in
        result ≡ Err TreeFault.Unreadable → ¬ IsReadable reads path.now stash.old }
    ensures readable { let reads = Reads (S.cipher sealer.now).opening device.now tree in
        OnOk result (IsReadable reads path.now stash.old) }

    ensures lookup { let reads = Reads (S.cipher sealer.now).opening device.now tree in
        IfOk result (λ r. IsLookup (IsNear reads path.now stash.old)
        device.now.block_bytes request.address r.0.found r.0.before.items) }
    ensures data_len { IfOk result (λ r. length r.0.before.items ≡ device.now.block_bytes) }
    ensures written { IfOk result (λ r. (records : List ℕ) × (out.new.items ≡ out.old.items ++ records)
        × HasLength (with_bytes path.now records)
        × IsRewritten (record { device = device.now; tree = tree; cipher = S.cipher sealer.now; path = path.now; nonce = request.nonce })
        stash.old (with_bytes path.now records)
        (edited_block request.address request.new_leaf edit.entry r.0.before.items) stash.new
        × StandsRebuilt path.now records r.1) }
    ensures blocks { All (IsBlockOf device.now tree) stash.new }
{
    let prepared = prepare(alloc, device, tree, sealer, path, stash, request, edit, out)?;
    let root = prepared.root;
    let lookup = commit(stash, request.address, prepared);
    Ok((lookup, root))
}
