//! Formats a tree of empty buckets.
ghost use Rattle.std.specs.Prelude.{◌≡◌, ◌≢◌, ◌+◌, ◌*◌, ◌-◌, ◌^◌, ◌<◌, ◌≤◌, ℕ, List, [], ◌∷◌, ◌++◌, Err, IfOk, IfErr, OnOk};
ghost use Rattle.oram_geometry.specs.Sizes.{trees_of, depth_of, record_len_of};
ghost use Rattle.oram_bucket.specs.Bucket.{spelling};
ghost use Rattle.oram_wire.specs.HostMessages.{put_body, shape_body};
ghost use Rattle.sha2.specs.Sha256.{sha256};
ghost use Rattle.oram_tree.specs.Content.{node_count};
ghost use Rattle.oram_tree.specs.Format.{PutsAll, IsFormat, IsBegun, IsBrokenOff};
ghost use Rattle.oram_tree.specs.Subtree.{puts, root_record, IsStartOf};

use crate::faults::FormatFault;
use oram_bucket::{Block, Sealer, seal_bucket};
use oram_bytes::Bytes;
use oram_geometry::Device;
use oram_hash::{DIGEST_LEN, NO_DIGEST, node_digest};
use oram_wire::{HostRequest, Sink, SinkFault};
use std::alloc::{AllocError, Global};

/// Makes the record of an empty bucket with these digests of the children.
fn empty_record<S: Sealer>(
    alloc: Global,
    device: &Device,
    tree: u8,
    sealer: &S,
    nonce: u64,
    left: &[u8; DIGEST_LEN],
    right: &[u8; DIGEST_LEN],
) -> Result<Vec<u8>, AllocError>
    requires { tree < trees_of device.now }
    ensures { IfOk result (λ v.
        v.items ≡ (S.cipher sealer.now).sealing nonce (spelling device.now []) ++ left.now ++ right.now) }
{
    let no_blocks: [Block; 0] = [];
    let mut record = seal_bucket(alloc, sealer, device, tree, nonce, &no_blocks)?;
    record.extend_from_slice(left)?;
    record.extend_from_slice(right)?;
    Ok(record)
}

/// Makes the PUT of a record at `node`.
fn put_message(alloc: Global, tree: u8, node: u32, bytes: Vec<u8>) -> Result<Vec<u8>, AllocError>
    ensures { IfOk result (λ v. v.items ≡ put_body tree node bytes.items) }
{
    let bytes = Bytes::from_vec(bytes);
    HostRequest::Put { tree, node, bytes }.encode(alloc)
}

/// Puts an empty bucket with these digests of the children at `node`, and returns the digest of its record.
fn put_node<S: Sealer, K: Sink>(
    alloc: Global,
    device: &Device,
    tree: u8,
    sealer: &S,
    sink: &mut K,
    node: u32,
    nonce: u64,
    left: &[u8; DIGEST_LEN],
    right: &[u8; DIGEST_LEN],
) -> Result<[u8; DIGEST_LEN], FormatFault>
    requires { tree < trees_of device.now }
    ensures memory { result ≢ Err (FormatFault.Sink SinkFault.OutOfMemory) }
    ensures put { let sealed = (S.cipher sealer.now).sealing nonce (spelling device.now []) in
        OnOk result (K.putting sink.old (put_body tree node (sealed ++ left.now ++ right.now)) sink.new) }
    ensures digest { let sealed = (S.cipher sealer.now).sealing nonce (spelling device.now []) in
        IfOk result (λ d. d ≡ sha256 (sealed ++ left.now ++ right.now)) }
    ensures broken_off { let sealed = (S.cipher sealer.now).sealing nonce (spelling device.now []) in
        IfErr result (λ fault. IsBrokenOff K.putting K.refusing (IsStartOf (put_body tree node (sealed ++ left.now ++ right.now) ∷ [])) sink.old fault sink.new) }
{
    let record = empty_record(alloc, device, tree, sealer, nonce, left, right)?;
    let digest = node_digest(&record);
    let body = put_message(alloc, tree, node, record)?;
    sink.put(&body)?;
    Ok(digest)
}

/// Returns the number of nodes in the left subtree of a node of this height.
fn nodes_below(height: u8) -> u64
    requires some { 0 < height }
    requires height { height ≤ 24 }
    ensures { result ≡ node_count (height - 1) }
{
    (1 << height) - 1
}

/// Puts empty buckets in the subtree of `node`, which has this height, in post order: in the left subtree, in the right
/// one, at the node. Returns the digest of the node's record.
fn put_subtree<S: Sealer, K: Sink>(
    alloc: Global,
    device: &Device,
    tree: u8,
    sealer: &S,
    sink: &mut K,
    height: u8,
    node: u32,
    nonce: u64,
) -> Result<[u8; DIGEST_LEN], FormatFault>
    requires tree { tree < trees_of device.now }
    requires height { height ≤ 24 }
    requires nodes { (node + 2) * 2 ^ height ≤ 2 ^ 25 }
    requires nonces { nonce + node_count height ≤ 2 ^ 64 }
    ensures memory { result ≢ Err (FormatFault.Sink SinkFault.OutOfMemory) }
    ensures put { let seal = λ (n : ℕ). (S.cipher sealer.now).sealing n (spelling device.now []) in
        OnOk result (PutsAll K.putting sink.old (puts seal tree height nonce node) sink.new) }
    ensures digest { let seal = λ (n : ℕ). (S.cipher sealer.now).sealing n (spelling device.now []) in
        IfOk result (λ d. d ≡ sha256 (root_record seal height nonce)) }
    ensures broken_off { let seal = λ (n : ℕ). (S.cipher sealer.now).sealing n (spelling device.now []) in
        IfErr result (λ fault. IsBrokenOff K.putting K.refusing (IsStartOf (puts seal tree height nonce node)) sink.old fault sink.new) }
{
    if height == 0 {
        return put_node(
            alloc, device, tree, sealer, sink, node, nonce, &NO_DIGEST, &NO_DIGEST,
        );
    }
    let below = nodes_below(height);
    let (left, right) = (2 * node + 1, 2 * node + 2);
    let left = put_subtree(alloc, device, tree, sealer, sink, height - 1, left, nonce)?;
    let right = put_subtree(
        alloc,
        device,
        tree,
        sealer,
        sink,
        height - 1,
        right,
        nonce + below,
    )?;
    let nonce = nonce + 2 * below;
    put_node(
        alloc, device, tree, sealer, sink, node, nonce, &left, &right,
    )
}

/// Makes the SHAPE of a tree.
fn shape_message(
    alloc: Global,
    device: &Device,
    tree: u8,
    overhead: usize,
) -> Result<Vec<u8>, AllocError>
    requires tree { tree < trees_of device.now }
    requires overhead { overhead ≤ 64 }
    ensures { IfOk result (λ v.
        v.items ≡ shape_body tree (depth_of device.now tree) (record_len_of device.now overhead)) }
{
    prove!(tree < device.trees());
    let depth = device.depth(tree);
    let record_len = device.record_len(overhead) as u32;
    let shape = HostRequest::Shape {
        tree,
        depth,
        record_len,
    };
    shape.encode(alloc)
}

/// Formats a tree of empty buckets and returns the digest of its root's record.
pub(crate) fn format_tree<S: Sealer, K: Sink>(
    alloc: Global,
    device: &Device,
    tree: u8,
    sealer: &S,
    nonce: u64,
    sink: &mut K,
) -> Result<[u8; DIGEST_LEN], FormatFault>
    requires tree { tree < trees_of device.now }
    requires nonces { nonce + node_count (depth_of device.now tree) ≤ 2 ^ 64 }
    ensures memory { result ≢ Err (FormatFault.Sink SinkFault.OutOfMemory) }
    ensures made { IfOk result (λ root. (bodies : List (List ℕ))
        × PutsAll K.putting sink.old bodies sink.new
        × IsFormat (S.cipher sealer.now)
        device.now nonce (record { number = tree; root = root; stash = [] }) bodies) }
    ensures broken_off { IfErr result (λ fault. IsBrokenOff K.putting K.refusing
        (IsBegun (S.cipher sealer.now) device.now nonce tree)
        sink.old fault sink.new) }
{
    prove!(tree < device.trees());
    let shape = shape_message(alloc, device, tree, sealer.overhead())?;
    sink.put(&shape)?;
    put_subtree(
        alloc,
        device,
        tree,
        sealer,
        sink,
        device.depth(tree),
        0,
        nonce,
    )
}
