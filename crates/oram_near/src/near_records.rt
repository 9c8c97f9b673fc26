//! The records of the top levels of tree 0.
ghost use Rattle.std.specs.Prelude.{◌≡◌, ◌+◌, ◌*◌, ◌^◌, ◌<◌, ◌≤◌, ◌++◌, [], IfOk, OnOk, List, ℕ, drop, length, true};
ghost use Rattle.std.specs.List.{flat_map, range_with_len};
ghost use Rattle.oram_geometry.specs.Sizes.{depth_of};
ghost use Rattle.oram_geometry.specs.Path.{node_on};
ghost use Rattle.oram_host.specs.Path.{record_at};
ghost use Rattle.oram_near.specs.NearLevels.{near_len};
ghost use Rattle.oram_near.specs.Near.{AreNoted, AreTold, HasRoomFor, Near, NotesNodes, PutsPath, PutsRecord, StoresNear, TellsOf, near_path, nothing_noted, path_nodes, records_on, rest_of};

use crate::levels::near_len;
use crate::near_changes::{NearChanges, NotedNodes};
use oram_geometry::Device;
use std::alloc::{AllocError, Global};
use std::marker::Model;

/// The near records: those of the top levels of tree 0, one behind the other in the order of their nodes. Behind them lies the *rest*: bytes
/// that never change, which the client keeps with the near records, so that whoever keeps these takes one slice.
#[derive(Drop)]
pub struct NearRecords {
    levels: u8,
    record_len: usize,
    bytes: Vec<u8>,
    noted: NotedNodes,
}

impl Model for NearRecords {
    ghost use Rattle.std.specs.Prelude.{◌≡◌, ◌<◌, ◌≤◌, ◌^◌, length};
    ghost use Rattle.oram_near.specs.NearLevels.{near_len};
    ghost use Rattle.oram_near.specs.Near.{Near};

    ghost Value = { Near };

    ghost view = { λ n. record { levels = n.levels; record_len = n.record_len; bytes = n.bytes.items; noted = n.noted } };

    ghost invariant = { λ n. (n.levels ≤ 24) × (0 < n.record_len) × (n.record_len < 2 ^ 32) × (near_len n.levels n.record_len ≤ length n.bytes.items) };
}

/// Replaces the record of a node.
fn put_record(records: &mut [u8], record_len: usize, node: usize, new_record: &[u8])
    requires there { (node + 1) * record_len ≤ length records.old }
    requires whole { length new_record.now ≡ record_len }
    ensures { PutsRecord record_len node new_record.now records.old records.new }
{
    let start = node * record_len;
    records[start..start + record_len].copy_from_slice(new_record);
}

/// Returns the record of a node.
fn record_of(records: &[u8], record_len: usize, node: usize) -> &[u8]
    requires { (node + 1) * record_len ≤ length records.now }
    ensures value { result.now ≡ record_at record_len records.now node }
    ensures whole { length result.now ≡ record_len }
{
    let start = node * record_len;
    &records[start..start + record_len]
}

/// Replaces the records of a path's top levels by those of `path`, which has the path's records root first.
fn put_path(
    records: &mut [u8],
    record_len: usize,
    levels: u8,
    device: &Device,
    leaf: u32,
    path: &[u8],
)
    requires few { record_len < 2 ^ 32 }
    requires levels { levels ≤ depth_of device.now 0 }
    requires leaf { leaf < 2 ^ depth_of device.now 0 }
    requires all { near_len levels record_len ≤ length records.old }
    requires whole { length path.now ≡ (depth_of device.now 0 + 1) * record_len }
    ensures puts { PutsPath (depth_of device.now 0) leaf levels record_len path.now records.old records.new }
    ensures rest { drop (near_len levels record_len) records.new ≡ drop (near_len levels record_len) records.old }
{
    for level in 0..levels {
        let node = device.node_on(0, leaf, level);
        let stored = record_of(path, record_len, usize::from(level));
        put_record(records, record_len, node as usize, stored);
    }
}

/// Appends the records of a path's top levels, root first. Fails only if memory runs out.
fn append_records(
    records: &[u8],
    record_len: usize,
    levels: u8,
    device: &Device,
    leaf: u32,
    path: &mut Vec<u8>,
) -> Result<(), AllocError>
    requires levels { levels ≤ depth_of device.now 0 }
    requires leaf { leaf < 2 ^ depth_of device.now 0 }
    requires all { near_len levels record_len ≤ length records.now }
    ensures { OnOk result (path.new.items ≡ path.old.items ++ records_on (depth_of device.now 0) leaf levels record_len records.now) }
{
    for level in 0..levels {
        let node = device.node_on(0, leaf, level);
        path.extend_from_slice(record_of(records, record_len, node as usize))?;
    }
    Ok(())
}

impl NearRecords {
    /// Returns the near records of a device. `bytes` has them root first and level by level, and the rest behind them. Whoever keeps these
    /// has to keep all of them at first. Fails only if memory runs out.
    pub fn new(
        alloc: Global,
        device: &Device,
        record_len: usize,
        levels: u8,
        bytes: Vec<u8>,
    ) -> Result<NearRecords, AllocError>
        requires levels { levels ≤ depth_of device.now 0 }
        requires some { 0 < record_len }
        requires few { record_len < 2 ^ 32 }
        requires whole { near_len levels record_len ≤ length bytes.items }
        ensures { IfOk result (λ near. near ≡ record { levels = levels; record_len = record_len; bytes = bytes.items; noted = record { any = true; nodes = [] } }) }
    {
        // For the proof alone: the call's contract says that a tree is at most 24 levels deep.
        let _deep = device.depth(0);
        let noted = NotedNodes::any(alloc)?;
        Ok(NearRecords {
            levels,
            record_len,
            bytes,
            noted,
        })
    }

    /// Returns the number of levels.
    pub fn levels(&self) -> u8
        ensures value { result ≡ self.now.levels }
        ensures range { result ≤ 24 }
    {
        self.levels
    }

    /// Returns the number of bytes of a record.
    pub fn record_len(&self) -> usize
        ensures value { result ≡ self.now.record_len }
        ensures some { 0 < result }
        ensures few { result < 2 ^ 32 }
    {
        self.record_len
    }

    /// Returns the records, one behind the other, and the rest behind them.
    pub fn bytes(&self) -> &[u8]
        ensures value { result.now ≡ self.now.bytes }
        ensures whole { near_len self.now.levels self.now.record_len ≤ length result.now }
    {
        &self.bytes
    }

    /// Returns the rest, which lies behind the records.
    pub fn rest(&self) -> &[u8]
        ensures { result.now ≡ rest_of self.now }
    {
        &self.bytes[near_len(self.levels, self.record_len)..]
    }

    /// Replaces the records of a path's top levels, and notes their nodes. `path` has the records of a leaf's path, root first.
    pub(crate) fn store(&mut self, device: &Device, leaf: u32, path: &[u8])
        requires levels { self.old.levels ≤ depth_of device.now 0 }
        requires leaf { leaf < 2 ^ depth_of device.now 0 }
        requires whole { length path.now ≡ (depth_of device.now 0 + 1) * self.old.record_len }
        ensures { StoresNear (depth_of device.now 0) leaf path.now self.old self.new }
    {
        let (levels, record_len) = (self.levels, self.record_len);
        put_path(&mut self.bytes, record_len, levels, device, leaf, path);
        self.noted.note_path(device, levels, leaf);
    }

    /// Appends the records of a path's top levels, root first. Fails only if memory runs out.
    pub(crate) fn append_path(
        &self,
        device: &Device,
        leaf: u32,
        path: &mut Vec<u8>,
    ) -> Result<(), AllocError>
        requires levels { self.now.levels ≤ depth_of device.now 0 }
        requires leaf { leaf < 2 ^ depth_of device.now 0 }
        ensures ok { OnOk result (path.new.items ≡ path.old.items ++ near_path (depth_of device.now 0) leaf self.now) }
        ensures whole { near_len self.now.levels self.now.record_len ≤ length self.now.bytes }
    {
        append_records(
            &self.bytes,
            self.record_len,
            self.levels,
            device,
            leaf,
            path,
        )
    }

    /// Returns the records that may have changed since the changes were last forgotten. They may be any if that was never done, or if
    /// more have changed than there is room to note.
    pub fn changes(&self) -> NearChanges<'_>
        ensures enough { (old : List ℕ) → AreNoted old self.now → AreTold result old self.now }
        ensures just { TellsOf self.now.noted result }
    {
        self.noted.told()
    }

    /// Forgets which records have changed: from now on they are counted from the records as they are.
    pub fn forget_changes(&mut self)
        ensures { self.new ≡ record self.old { noted = nothing_noted } }
    {
        self.noted.forget();
    }
}
