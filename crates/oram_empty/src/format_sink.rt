//! A sink for the messages of a formatting that aren't to be sent.
ghost use Rattle.std.specs.Prelude.{◌≡◌, ◌+◌, ◌*◌, ◌^◌, ◌≤◌, ◌++◌, length, IfOk, OnOk, IfErr, if◌then◌else◌};
ghost use Rattle.oram_geometry.specs.Sizes.{depth_of};
ghost use Rattle.oram_empty.specs.KeptDigests.{digests_len, digests_part, upper_below};
ghost use Rattle.oram_empty.specs.Collecting.{Collects, IsCollection, blank, collected, collection_of, is_near, is_upper, near_nodes, with_piece};

use crate::digests::{digests_len, upper_below, upper_count};
use crate::records::DIGESTS_LEN;
use oram_geometry::Device;
use oram_wire::{HostView, Sink, SinkFault};
use std::alloc::{AllocError, Global};
use std::marker::Model;

/// Takes the messages of a formatting and sends none of them. It collects the digests that [`EmptyDigests`](crate::EmptyDigests) has, which
/// end the records of the PUTs, and the records of the near nodes, which are those of the top levels of tree 0: a client keeps both itself.
///
/// It takes all its memory when it is made, and refuses no message. Any message that isn't the PUT of a record is passed over.
#[derive(Debug, Drop)]
pub struct FormatSink {
    device: Device,
    record_len: usize,
    near: u8,
    /// The records of the near nodes, and behind them the digests.
    bytes: Vec<u8>,
}

impl Model for FormatSink {
    ghost use Rattle.oram_empty.specs.Collecting.{IsCollection, Collection, collection_of};

    ghost Value = { Collection };

    ghost view = { λ s. collection_of s.device s.record_len s.near s.bytes.items };

    ghost invariant = { λ s. IsCollection (collection_of s.device s.record_len s.near s.bytes.items) };
}

impl FormatSink {
    /// Makes a sink for the formatting of a device, with a sealer that adds `overhead` bytes. The near nodes are those of the top `near`
    /// levels of tree 0. Fails only if memory runs out.
    pub fn new(
        alloc: Global,
        device: &Device,
        overhead: usize,
        near: u8,
    ) -> Result<FormatSink, AllocError>
        requires overhead { overhead ≤ 64 }
        requires near { near ≤ depth_of device.now 0 }
        ensures { IfOk result (λ s. s ≡ blank device.now overhead near) }
    {
        let record_len = device.record_len(overhead);
        let bytes = vec![in alloc; 0; near_nodes(near) * record_len + digests_len(device)]?;
        Ok(FormatSink {
            device: device.copy(),
            record_len,
            near,
            bytes,
        })
    }

    /// Returns what was collected: the records of the near nodes, one behind the other in the order of the nodes, and behind them the
    /// digests.
    pub fn into_bytes(self) -> Vec<u8>
        ensures value { result.items ≡ self.records ++ self.digests }
        ensures records { length self.records ≡ near_nodes self.near * self.record_len }
        ensures digests { length self.digests ≡ digests_len self.device }
    {
        self.bytes
    }

    /// Collects what a message has, if it is the PUT of a record.
    fn collect(&mut self, body: &[u8])
        ensures { Collects self.old body.now self.new }
    {
        let Ok(HostView::Put { tree, node, bytes }) = HostView::read(body) else {
            return;
        };
        if bytes.len() != self.record_len {
            return;
        }
        collect_put(&self.device, self.near, tree, node, bytes, &mut self.bytes);
    }
}

/// Collects the record of a node. `bytes` has the records of the near nodes, and behind them the digests.
fn collect_put(device: &Device, near: u8, tree: u8, node: u32, record: &[u8], bytes: &mut [u8])
    requires { IsCollection (collection_of device.now (length record.now) near bytes.old) }
    ensures whole { IsCollection (collection_of device.now (length record.now) near bytes.new) }
    ensures collected { collection_of device.now (length record.now) near bytes.new ≡ collected (collection_of device.now (length record.now) near bytes.old) tree node record.now }
{
    let (records, digests) = bytes.split_at_mut(near_nodes(near) * record.len());
    collect_digests(device, tree, node, record, digests);
    collect_record(near, tree, node, record, records);
}

/// Puts the digests that end the record of a node in their place among a device's digests, if it is an upper node.
fn collect_digests(device: &Device, tree: u8, node: u32, record: &[u8], digests: &mut [u8])
    requires record { 64 ≤ length record.now }
    requires whole { length digests.old ≡ digests_len device.now }
    ensures { digests.new ≡ (if is_upper device.now tree node then with_piece 64 digests.old (upper_below device.now tree + node) (digests_part record.now) else digests.old) }
{
    if tree >= device.trees() || node as usize >= upper_count(device.depth(tree)) {
        return;
    }
    let start = (upper_below(device, tree) + node as usize) * DIGESTS_LEN;
    let collected = &record[record.len() - DIGESTS_LEN..];
    digests[start..start + DIGESTS_LEN].copy_from_slice(collected);
}

/// Puts the record of a node in its place among the records of the near nodes, if it is near.
fn collect_record(near: u8, tree: u8, node: u32, record: &[u8], records: &mut [u8])
    requires near { near ≤ 24 }
    requires short { length record.now ≤ 32960 }
    requires whole { length records.old ≡ near_nodes near * length record.now }
    ensures { records.new ≡ (if is_near near tree node then with_piece (length record.now) records.old node record.now else records.old) }
{
    if tree != 0 || node as usize >= near_nodes(near) {
        return;
    }
    let start = node as usize * record.len();
    records[start..start + record.len()].copy_from_slice(record);
}

/// Returns the number of near nodes.
fn near_nodes(near: u8) -> usize
    requires { near ≤ 24 }
    ensures value { result ≡ near_nodes near }
    ensures few { result ≤ 2 ^ 24 }
{
    (1 << near) - 1
}

impl Sink for FormatSink {
    ghost use Rattle.oram_empty.specs.Collecting.{Collects};

    ghost putting = { Collects };

    ghost refusing = { λ _ _ _ _. ⊥ };

    fn put(&mut self, body: &[u8]) -> Result<(), SinkFault>
        ensures taken { OnOk result (Collects self.old body.now self.new) }
        ensures refused { IfErr result (λ _. ⊥) }
    {
        self.collect(body);
        Ok(())
    }
}
