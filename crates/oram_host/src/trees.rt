//! One tree of a host: its shape, and the records of its nodes.

ghost use Rattle.std.specs.Prelude.{◌≡◌, ◌≢◌, ◌↔◌, ℕ, ◌+◌, ◌-◌, ◌*◌, ◌^◌, ◌<◌, ◌≤◌, List, [], length, slice_get, count_by, All, IsTrue, IsSome, IfSome, Some, None, IfOk, OnOk, OnErr, MatchBool, MatchResult, MatchOption, false};
ghost use Rattle.std.specs.Ordering.{nat_cmp};
ghost use Rattle.std.specs.BTreeMap.{IsOrdered, Updates, get, keys, values};
ghost use Rattle.oram_host.specs.Flips.{FlipsByte, HasByte, LacksByte, flipped};
ghost use Rattle.oram_host.specs.Host.{IsShape, record_of};
ghost use Rattle.oram_host.specs.Path.{FitsAnswer, IsBehind, IsPath, PutsRecord, StoresPath, node_on, record_at};
ghost use Rattle.oram_host.specs.Refusals.{RefusesFetch, RefusesPut, RefusesStore};
ghost use Rattle.oram_host.specs.Trees.{AreNodes, AreTrees, IsRecord, IsTree, host_of, is_there, kept_by, records_in};

use crate::refusals::HostRefusal;
use oram_bytes::Bytes;
use oram_wire::LONGEST_BODY;
use std::alloc::{AllocError, Global};
use std::collections::BTreeMap;
use std::mem::{replace, swap};

/// A tree that has a shape.
#[derive(Debug, Drop)]
pub(crate) struct Tree {
    pub(crate) depth: u8,
    /// The length of each record, in bytes.
    pub(crate) record_len: u32,
    /// The records by node. Empty bytes are room for a record that was never put.
    pub(crate) records: BTreeMap<u32, Bytes>,
}

/// The deepest tree that a host keeps.
const DEEPEST: u8 = 24;
/// The bytes of a STORE before its records.
const STORE_HEAD: usize = 6;

/// Returns whether a tree may have this shape. A STORE of one of its paths has to fit in a frame.
pub(crate) fn is_shape(depth: u8, record_len: u32) -> bool
    ensures { IsTrue result ↔ IsShape depth record_len }
{
    if depth > DEEPEST || record_len == 0 {
        return false;
    }
    (depth as usize + 1) * record_len as usize + STORE_HEAD <= LONGEST_BODY
}

/// Returns the number of nodes of a tree.
pub(crate) fn node_count(depth: u8) -> u32
    requires { depth ≤ 24 }
    ensures { result ≡ 2 ^ (depth + 1) - 1 }
{
    (1 << (depth + 1)) - 1
}

/// Returns the node at a level of a leaf's path.
fn node_at(depth: u8, leaf: u32, level: u8) -> u32
    requires deep { depth ≤ 24 }
    requires leaf { leaf < 2 ^ depth }
    requires level { level ≤ depth }
    ensures place { result ≡ node_on depth leaf level }
    ensures within { result < 2 ^ (depth + 1) - 1 }
{
    (1 << level) - 1 + (leaf >> (depth - level))
}

/// Copies the records of a path, root first.
fn copied_records(
    alloc: Global,
    levels: u8,
    record_len: usize,
    bytes: &[u8],
) -> Result<Vec<Bytes>, AllocError>
    requires { length bytes.now ≡ levels * record_len }
    ensures count { IfOk result (λ copies. length copies.items ≡ levels) }
    ensures each { IfOk result (λ copies. (level : ℕ) → level < levels
        → slice_get copies.items level ≡ Some (record_at record_len bytes.now level)) }
{
    let mut copies = Vec::with_capacity(alloc, levels as usize)?;
    for level in 0..levels {
        let start = level as usize * record_len;
        copies.push(Bytes::copy(alloc, &bytes[start..start + record_len])?)?;
    }
    Ok(copies)
}

/// Makes room for a record at a node.
fn make_room_at(
    alloc: Global,
    records: &mut BTreeMap<u32, Bytes>,
    node: u32,
) -> Result<(), AllocError>
    requires { IsOrdered nat_cmp records.old }
    ensures same { records_in records.new ≡ records_in records.old }
    ensures room { OnOk result (IsSome (get nat_cmp records.new node)) }
    ensures kept { (other : ℕ) → IsSome (get nat_cmp records.old other)
        → IsSome (get nat_cmp records.new other) }
    ensures ordered { IsOrdered nat_cmp records.new }
    ensures nodes { (depth : ℕ) → node < 2 ^ (depth + 1) - 1 → AreNodes depth (keys records.old)
        → AreNodes depth (keys records.new) }
    ensures whole { (record_len : ℕ) → All (IsRecord record_len) (values records.old)
        → All (IsRecord record_len) (values records.new) }
{
    if records.contains_key(&node) {
        return Ok(());
    }
    records.insert(node, Bytes::from_vec(Vec::new(alloc)))?;
    Ok(())
}

/// Makes room for a record at each node of a path.
fn make_room(
    alloc: Global,
    records: &mut BTreeMap<u32, Bytes>,
    depth: u8,
    leaf: u32,
) -> Result<(), AllocError>
    requires deep { depth ≤ 24 }
    requires leaf { leaf < 2 ^ depth }
    requires ordered { IsOrdered nat_cmp records.old }
    ensures same { records_in records.new ≡ records_in records.old }
    ensures room { OnOk result ((level : ℕ) → level ≤ depth
        → IsSome (get nat_cmp records.new (node_on depth leaf level))) }
    ensures ordered { IsOrdered nat_cmp records.new }
    ensures nodes { AreNodes depth (keys records.old) → AreNodes depth (keys records.new) }
    ensures whole { (record_len : ℕ) → All (IsRecord record_len) (values records.old)
        → All (IsRecord record_len) (values records.new) }
{
    for level in 0..depth + 1 {
        make_room_at(alloc, records, node_at(depth, leaf, level))?;
    }
    Ok(())
}

/// Replaces the records of a path, for which `make_room` has made room, from the leaf up.
fn replace_records(records: &mut BTreeMap<u32, Bytes>, depth: u8, leaf: u32, mut copies: Vec<Bytes>)
    requires deep { depth ≤ 24 }
    requires leaf { leaf < 2 ^ depth }
    requires levels { length copies.items ≡ depth + 1 }
    requires ordered { IsOrdered nat_cmp records.old }
    requires room { (level : ℕ) → level ≤ depth
        → IsSome (get nat_cmp records.old (node_on depth leaf level)) }
    ensures path { (level : ℕ) → level ≤ depth
        → get nat_cmp records.new (node_on depth leaf level) ≡ slice_get copies.items level }
    ensures others { (node : ℕ) → ((level : ℕ) → level ≤ depth → node ≢ node_on depth leaf level)
        → get nat_cmp records.new node ≡ get nat_cmp records.old node }
    ensures ordered { IsOrdered nat_cmp records.new }
    ensures nodes { AreNodes depth (keys records.old) → AreNodes depth (keys records.new) }
    ensures whole { (record_len : ℕ) → All (IsRecord record_len) copies.items
        → All (IsRecord record_len) (values records.old)
        → All (IsRecord record_len) (values records.new) }
{
    while let Some(copy) = copies.pop() {
        let level = copies.len() as u8;
        let node = node_at(depth, leaf, level);
        match records.insert(node, copy) {
            Ok(_) => {}
            Err(_) => unreachable!(),
        }
    }
}

/// Counts the records.
fn count_there(records: &BTreeMap<u32, Bytes>) -> usize
    ensures { result ≡ count_by is_there (values records.now) }
{
    records.values().filter(|bytes| bytes.len() > 0).count()
}

/// Copies the records, and the room for records.
fn copied_entries(
    alloc: Global,
    records: &BTreeMap<u32, Bytes>,
) -> Result<BTreeMap<u32, Bytes>, AllocError>
    requires { IsOrdered nat_cmp records.now }
    ensures { IfOk result (λ copied. copied.entries ≡ records.now.entries) }
{
    let mut copied = BTreeMap::new(alloc);
    for (node, bytes) in records.iter() {
        copied.insert(*node, Bytes::copy(alloc, bytes.as_slice())?)?;
    }
    Ok(copied)
}

/// Copies the trees.
pub(crate) fn copied_trees(
    alloc: Global,
    trees: &BTreeMap<u8, Tree>,
) -> Result<BTreeMap<u8, Tree>, AllocError>
    requires { AreTrees trees.now }
    ensures trees { IfOk result (λ copied. AreTrees copied) }
    ensures same { IfOk result (λ copied. host_of copied ≡ host_of trees.now) }
{
    let mut copied = BTreeMap::new(alloc);
    for (number, tree) in trees.iter() {
        copied.insert(*number, tree.copy(alloc)?)?;
    }
    Ok(copied)
}

/// Flips the lowest bit of the byte at `offset`. Allocates nothing.
fn flip_byte(alloc: Global, bytes: &mut Bytes, offset: usize)
    requires { offset < length bytes.old }
    ensures { bytes.new ≡ flipped bytes.old offset }
{
    let mut items = replace(bytes, Bytes::from_vec(Vec::new(alloc))).into_vec();
    items[offset] ^= 1;
    *bytes = Bytes::from_vec(items);
}

impl Tree {
    /// Returns the record of a node, if it was given one.
    pub(crate) fn record(&self, node: u32) -> Option<&Bytes>
        requires { IsTree self.now }
        ensures there { MatchOption result (record_of (kept_by self.now) node ≡ None)
            (λ bytes. record_of (kept_by self.now) node ≡ Some bytes.now) }
        ensures whole { IfSome result (λ bytes. length bytes.now ≡ self.now.record_len) }
    {
        match self.records.get(&node) {
            Some(bytes) if !bytes.is_empty() => Some(bytes),
            _ => None,
        }
    }

    /// Counts the records.
    pub(crate) fn count(&self) -> u32
        requires { IsTree self.now }
        ensures { result ≡ length (kept_by self.now).records }
    {
        count_there(&self.records) as u32
    }

    /// Returns the number of bytes of the records of a path.
    fn path_len(&self) -> usize
        requires { IsTree self.now }
        ensures { result ≡ (self.now.depth + 1) * self.now.record_len }
    {
        (self.depth as usize + 1) * self.record_len as usize
    }

    /// Returns whether a node of the path of `leaf` has no record.
    fn lacks(&self, leaf: u32) -> bool
        requires tree { IsTree self.now }
        requires leaf { leaf < 2 ^ self.now.depth }
        ensures lacks { IsTrue result → (level : ℕ) × (level ≤ self.now.depth)
            × (record_of (kept_by self.now) (node_on self.now.depth leaf level) ≡ None) }
        ensures has { result ≡ false → (level : ℕ) → level ≤ self.now.depth
            → IsSome (record_of (kept_by self.now) (node_on self.now.depth leaf level)) }
    {
        for level in 0..self.depth + 1 {
            if self.record(node_at(self.depth, leaf, level)).is_none() {
                return true;
            }
        }
        false
    }

    /// Returns `front` and then the records of the path of `leaf`, root first. Each node of the
    /// path must have a record.
    fn path(&self, alloc: Global, leaf: u32, front: &[u8]) -> Result<Vec<u8>, AllocError>
        requires tree { IsTree self.now }
        requires leaf { leaf < 2 ^ self.now.depth }
        requires has { (level : ℕ) → level ≤ self.now.depth
            → IsSome (record_of (kept_by self.now) (node_on self.now.depth leaf level)) }
        requires short { length front.now ≤ 1 }
        ensures { IfOk result (λ v. IsBehind front.now
            (λ bytes. IsPath (kept_by self.now) leaf bytes × FitsAnswer bytes) v.items) }
    {
        let mut bytes = Vec::with_capacity(alloc, front.len() + self.path_len())?;
        bytes.extend_from_slice(front)?;
        for level in 0..self.depth + 1 {
            let Some(record) = self.record(node_at(self.depth, leaf, level)) else {
                unreachable!();
            };
            bytes.extend_from_slice(record.as_slice())?;
        }
        Ok(bytes)
    }

    /// Returns `front` and then the records of the path of `leaf`, root first.
    pub(crate) fn fetch(
        &self,
        alloc: Global,
        leaf: u32,
        front: &[u8],
    ) -> Result<Vec<u8>, HostRefusal>
        requires tree { IsTree self.now }
        requires short { length front.now ≤ 1 }
        ensures { MatchResult result (λ v. (leaf < 2 ^ self.now.depth)
            × IsBehind front.now
            (λ bytes. IsPath (kept_by self.now) leaf bytes × FitsAnswer bytes) v.items)
            (λ why. RefusesFetch (kept_by self.now) leaf why) }
    {
        if leaf >= 1 << self.depth {
            return Err(HostRefusal::BadLeaf);
        }
        if self.lacks(leaf) {
            return Err(HostRefusal::Missing);
        }
        let records = self.path(alloc, leaf, front)?;
        Ok(records)
    }

    /// Overwrites a record in place. Allocates nothing.
    fn overwrite(&mut self, node: u32, bytes: &[u8])
        requires tree { IsTree self.old }
        requires there { IsSome (record_of (kept_by self.old) node) }
        requires whole { length bytes.now ≡ self.old.record_len }
        ensures tree { IsTree self.new }
        ensures put { PutsRecord (kept_by self.old) node bytes.now (kept_by self.new) }
    {
        match self.records.get_mut(&node) {
            Some(record) => record.copy_from_slice(bytes),
            None => unreachable!(),
        }
    }

    /// Overwrites the records of a path in place. Each node of the path must have one. Allocates
    /// nothing.
    fn overwrite_path(&mut self, leaf: u32, records: &[u8])
        requires tree { IsTree self.old }
        requires leaf { leaf < 2 ^ self.old.depth }
        requires has { (level : ℕ) → level ≤ self.old.depth
            → IsSome (record_of (kept_by self.old) (node_on self.old.depth leaf level)) }
        requires whole { length records.now ≡ (self.old.depth + 1) * self.old.record_len }
        ensures tree { IsTree self.new }
        ensures stored { StoresPath (kept_by self.old) leaf records.now (kept_by self.new) }
    {
        let record_len = self.record_len as usize;
        for level in 0..self.depth + 1 {
            let start = level as usize * record_len;
            let node = node_at(self.depth, leaf, level);
            self.overwrite(node, &records[start..start + record_len]);
        }
    }

    /// Replaces the records of the path of `leaf`. If each node has a record, it overwrites them in
    /// place.
    pub(crate) fn store(
        &mut self,
        alloc: Global,
        leaf: u32,
        records: &[u8],
    ) -> Result<(), HostRefusal>
        requires { IsTree self.old }
        ensures tree { IsTree self.new }
        ensures stored { MatchResult result (λ _. StoresPath (kept_by self.old) leaf records.now
            (kept_by self.new)) (λ why. RefusesStore (kept_by self.old) leaf records.now why) }
        ensures err { OnErr result (kept_by self.new ≡ kept_by self.old) }
    {
        if leaf >= 1 << self.depth {
            return Err(HostRefusal::BadLeaf);
        }
        if records.len() != self.path_len() {
            return Err(HostRefusal::BadLength);
        }
        if !self.lacks(leaf) {
            self.overwrite_path(leaf, records);
            return Ok(());
        }
        let copies = copied_records(alloc, self.depth + 1, self.record_len as usize, records)?;
        make_room(alloc, &mut self.records, self.depth, leaf)?;
        replace_records(&mut self.records, self.depth, leaf, copies);
        Ok(())
    }

    /// Replaces the record of a node. If the node has one, it overwrites that in place.
    pub(crate) fn put(&mut self, alloc: Global, node: u32, bytes: &[u8]) -> Result<(), HostRefusal>
        requires { IsTree self.old }
        ensures tree { IsTree self.new }
        ensures put { MatchResult result (λ _. PutsRecord (kept_by self.old) node bytes.now
            (kept_by self.new)) (λ why. RefusesPut (kept_by self.old) node bytes.now why) }
        ensures err { OnErr result (kept_by self.new ≡ kept_by self.old) }
    {
        if node >= node_count(self.depth) {
            return Err(HostRefusal::BadNode);
        }
        if bytes.len() != self.record_len as usize {
            return Err(HostRefusal::BadLength);
        }
        if self.record(node).is_some() {
            self.overwrite(node, bytes);
            return Ok(());
        }
        self.records.insert(node, Bytes::copy(alloc, bytes)?)?;
        Ok(())
    }

    /// Exchanges the bytes at a node with `bytes`. Allocates nothing.
    pub(crate) fn exchange(&mut self, node: u32, bytes: &mut Bytes)
        requires tree { IsTree self.old }
        requires there { IsSome (get nat_cmp self.old.records node) }
        requires fits { IsRecord self.old.record_len bytes.old }
        ensures tree { IsTree self.new }
        ensures taken { get nat_cmp self.old.records node ≡ Some bytes.new }
        ensures given { Updates nat_cmp self.old.records self.new.records node (Some bytes.old) }
        ensures depth { self.new.depth ≡ self.old.depth }
        ensures record_len { self.new.record_len ≡ self.old.record_len }
    {
        match self.records.get_mut(&node) {
            Some(record) => swap(record, bytes),
            None => unreachable!(),
        }
    }

    fn copy(&self, alloc: Global) -> Result<Tree, AllocError>
        requires { IsTree self.now }
        ensures tree { IfOk result (λ copied. IsTree copied) }
        ensures same { IfOk result (λ copied. kept_by copied ≡ kept_by self.now) }
    {
        Ok(Tree {
            depth: self.depth,
            record_len: self.record_len,
            records: copied_entries(alloc, &self.records)?,
        })
    }

    /// Returns whether the record of a node has a byte at `offset`.
    fn has_byte(&self, node: u32, offset: u64) -> bool
        requires { IsTree self.now }
        ensures { MatchBool result (HasByte (kept_by self.now) node offset) (LacksByte
            (kept_by self.now) node offset) }
    {
        match self.record(node) {
            Some(bytes) => offset < bytes.len() as u64,
            None => false,
        }
    }

    /// Flips the lowest bit of a byte of a record, and returns whether there is such a byte.
    pub(crate) fn flip(&mut self, alloc: Global, node: u32, offset: u64) -> bool
        requires { IsTree self.old }
        ensures tree { IsTree self.new }
        ensures flipped { MatchBool result (FlipsByte (kept_by self.old) node offset
            (kept_by self.new)) (LacksByte (kept_by self.old) node offset) }
        ensures same { result ≡ false → kept_by self.new ≡ kept_by self.old }
    {
        if !self.has_byte(node, offset) {
            return false;
        }
        if let Some(bytes) = self.records.get_mut(&node) {
            flip_byte(alloc, bytes, offset as usize);
        }
        true
    }
}
