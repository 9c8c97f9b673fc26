//! What a host keeps of a disk beside the device's trees, in two trees that no device has: the disk's identity, and its stamps.
ghost use Rattle.std.specs.Prelude.{◌≡◌, ◌<◌, ◌≤◌, IfOk};
ghost use Rattle.oram_geometry.specs.Sizes.{trees_of};
ghost use Rattle.oram_wire.specs.HostMessages.{fetch_body, put_body, shape_body};
ghost use Rattle.oram_stamps.specs.Known.{first_stamp};
ghost use Rattle.oram_stamps.specs.Stamps.{shown_text};
ghost use Rattle.oram_rounds.specs.Batches.{texts};
ghost use Rattle.oram_client.specs.StampMessages.{stamp_node, stamp_put, stamps_shape_body};
ghost use Rattle.oram_client.specs.Introduction as spec;

use crate::keys::Identity;
use oram_bytes::Bytes;
use oram_geometry::Device;
use oram_stamps::{FIRST_STAMP, Place, RECORD_LEN, Stamp, StampKey, encode_record};
use oram_wire::{HostRequest, fetch_header};
use std::alloc::{AllocError, Global};
use std::marker::Model;

/// The tree that holds a disk's identity. No device has that many trees.
pub const IDENTITY_TREE: u8 = 255;

/// The length of an identity in bytes.
pub const IDENTITY_LEN: u32 = 32;

/// The tree that holds a disk's stamps. Its root has the one that the host has begun, and the leaf below it the one that it has done. No
/// device has that many trees.
pub const STAMP_TREE: u8 = 254;

/// Returns the message that gives the identity's tree its shape: one node.
fn shape_message(alloc: Global) -> Result<Vec<u8>, AllocError>
    ensures { IfOk result (λ v. v.items ≡ shape_body IDENTITY_TREE 0 IDENTITY_LEN) }
{
    let shape = HostRequest::Shape {
        tree: IDENTITY_TREE,
        depth: 0,
        record_len: IDENTITY_LEN,
    };
    shape.encode(alloc)
}

/// Returns the message that puts an identity into that tree.
fn record_message(alloc: Global, identity: &Identity) -> Result<Vec<u8>, AllocError>
    ensures { IfOk result (λ v. v.items ≡ put_body IDENTITY_TREE 0 identity.now.0) }
{
    let put = HostRequest::Put {
        tree: IDENTITY_TREE,
        node: 0,
        bytes: Bytes::copy(alloc, &identity.0)?,
    };
    put.encode(alloc)
}

/// Returns the node that holds the stamp of a place.
fn node_of(place: Place) -> u32
    ensures { result ≡ stamp_node place }
{
    match place {
        Place::Begun => 0,
        Place::Done => 1,
    }
}

/// Returns the message that puts a stamp at a place of the host.
pub(crate) fn stamp_message(
    alloc: Global,
    key: &StampKey,
    place: Place,
    stamp: &Stamp,
) -> Result<Vec<u8>, AllocError>
    ensures { IfOk result (λ v. v.items ≡ stamp_put key.now.0 place stamp.now) }
{
    let put = HostRequest::Put {
        tree: STAMP_TREE,
        node: node_of(place),
        bytes: Bytes::from_vec(encode_record(alloc, key, place, stamp)?),
    };
    put.encode(alloc)
}

/// Returns the message that gives the stamps' tree its shape: a root and a leaf on the path to each leaf.
fn stamps_shape(alloc: Global) -> Result<Vec<u8>, AllocError>
    ensures { IfOk result (λ v. v.items ≡ stamps_shape_body) }
{
    let shape = HostRequest::Shape {
        tree: STAMP_TREE,
        depth: 1,
        record_len: RECORD_LEN as u32,
    };
    shape.encode(alloc)
}

/// A tree that a host keeps of a disk beside those of the device.
#[derive(Debug, Drop)]
pub(crate) struct OwnTree {
    /// The message that makes the tree.
    pub(crate) shape: Vec<u8>,
    /// The message that asks for its records.
    pub(crate) question: Vec<u8>,
    /// Its records, one behind the other.
    pub(crate) kept: Vec<u8>,
    /// The messages that put them there.
    pub(crate) puts: Vec<Vec<u8>>,
}

impl Model for OwnTree {
    ghost use Rattle.oram_rounds.specs.Batches.{texts};
    ghost use Rattle.oram_client.specs.Introduction.{OwnTree};

    ghost Value = { OwnTree };

    ghost view = { λ t. record { shape = t.shape.items; question = t.question.items; kept = t.kept.items; puts = texts t.puts.items } };
}

/// Returns the message that asks for a disk's identity.
pub(crate) fn identity_question(alloc: Global) -> Result<Vec<u8>, AllocError>
    ensures { IfOk result (λ v. v.items ≡ fetch_body IDENTITY_TREE 0) }
{
    fetch_header(IDENTITY_TREE, 0).to_vec(alloc)
}

/// Returns the tree that has this identity.
pub(crate) fn identity_tree(alloc: Global, identity: &Identity) -> Result<OwnTree, AllocError>
    ensures { IfOk result (λ tree. tree ≡ spec.identity_tree identity.now.0) }
{
    let put = record_message(alloc, identity)?;
    Ok(OwnTree {
        shape: shape_message(alloc)?,
        question: identity_question(alloc)?,
        kept: identity.0.to_vec(alloc)?,
        puts: vec![in alloc; put]?,
    })
}

/// Returns a new disk's stamps as the host shows them.
fn first_stamps(alloc: Global, key: &StampKey) -> Result<Vec<u8>, AllocError>
    ensures { IfOk result (λ v. v.items ≡ shown_text key.now.0 (record { begun = first_stamp; done = first_stamp })) }
{
    let mut shown = encode_record(alloc, key, Place::Begun, &FIRST_STAMP)?;
    shown.extend_from_slice(&encode_record(alloc, key, Place::Done, &FIRST_STAMP)?)?;
    Ok(shown)
}

/// Returns the tree that has a new disk's stamps: the first one at both places.
pub(crate) fn stamps_tree(alloc: Global, key: &StampKey) -> Result<OwnTree, AllocError>
    ensures { IfOk result (λ tree. tree ≡ spec.stamps_tree key.now.0) }
{
    let begun = stamp_message(alloc, key, Place::Begun, &FIRST_STAMP)?;
    let done = stamp_message(alloc, key, Place::Done, &FIRST_STAMP)?;
    Ok(OwnTree {
        shape: stamps_shape(alloc)?,
        question: fetch_header(STAMP_TREE, 0).to_vec(alloc)?,
        kept: first_stamps(alloc, key)?,
        puts: vec![in alloc; begun, done]?,
    })
}

/// Returns the message that gives a tree of a device its shape.
fn tree_shape(
    alloc: Global,
    device: &Device,
    overhead: usize,
    tree: u8,
) -> Result<Vec<u8>, AllocError>
    requires overhead { overhead ≤ 64 }
    requires tree { tree < trees_of device.now }
    ensures { IfOk result (λ v. v.items ≡ spec.tree_shape device.now overhead tree) }
{
    let shape = HostRequest::Shape {
        tree,
        depth: device.depth(tree),
        record_len: device.record_len(overhead) as u32,
    };
    shape.encode(alloc)
}

/// Returns the messages that give the trees of a device their shapes.
pub(crate) fn shape_messages(
    alloc: Global,
    device: &Device,
    overhead: usize,
) -> Result<Vec<Vec<u8>>, AllocError>
    requires { overhead ≤ 64 }
    ensures { IfOk result (λ messages. texts messages.items ≡ spec.shapes device.now overhead) }
{
    let mut messages = Vec::with_capacity(alloc, usize::from(device.trees()))?;
    for tree in 0..device.trees() {
        messages.push(tree_shape(alloc, device, overhead, tree)?)?;
    }
    Ok(messages)
}
