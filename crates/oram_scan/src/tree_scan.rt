//! The scan of one tree.
ghost use Rattle.std.specs.Prelude.{◌≡◌, ◌↔◌, ◌+◌, ◌-◌, ◌^◌, ◌<◌, ◌≤◌, [], ◌∷◌, ◌++◌, None, Some, IfOk, IsTrue, OnOk, OnErr, length, slice_index_or, drop};
ghost use Rattle.oram_hash.specs.Record.{left_digest, right_digest};
ghost use Rattle.oram_scan.specs.Scan.{IsFinding, IsScan, IsStoredNext, Scan, after, begun, expected, has_children, node_count, passed};

use oram_hash::{DIGEST_LEN, node_digest};
use std::alloc::{AllocError, Global};
use std::collections::VecDeque;
use std::marker::Model;

/// What a scan says of a record.
#[derive(Clone, Copy, Debug, PartialEq, Eq)]
pub enum Finding {
    /// It is the record that was stored.
    Sound,
    /// It isn't the record that was stored.
    Changed,
    /// It can't be checked, since a record above it wasn't there or wasn't the one that was stored.
    Unchecked,
}

/// The digest of a record.
type NodeDigest = [u8; DIGEST_LEN];

/// What is known of a tree between two of its records.
#[derive(Debug, Drop)]
pub struct TreeScan {
    depth: u8,
    record_len: usize,
    /// The number of the node whose record comes next.
    node: u64,
    /// The digests of the records that come next, as far as records above them have told.
    expected: VecDeque<Option<NodeDigest>>,
}

impl Model for TreeScan {
    ghost use Rattle.oram_scan.specs.Scan.{IsScan, Scan};

    ghost Value = { Scan };

    ghost view = { λ s. record { depth = s.depth; record_len = s.record_len; node = s.node; digests = s.expected.items } };

    ghost invariant = { λ s. IsScan (record { depth = s.depth; record_len = s.record_len; node = s.node; digests = s.expected.items }) };
}

/// Returns the two digests that end a record, the left child's and the right child's.
fn digests_in(bytes: &[u8]) -> (NodeDigest, NodeDigest)
    requires { 64 < length bytes.now }
    ensures left { result.0 ≡ left_digest bytes.now }
    ensures right { result.1 ≡ right_digest bytes.now }
{
    let mut left = [0; DIGEST_LEN];
    let mut right = [0; DIGEST_LEN];
    left.copy_from_slice(&bytes[bytes.len() - 2 * DIGEST_LEN..bytes.len() - DIGEST_LEN]);
    right.copy_from_slice(&bytes[bytes.len() - DIGEST_LEN..]);
    (left, right)
}

impl TreeScan {
    /// Begins a scan of a tree with this depth, 24 at most, whose records have `record_len` bytes, more than 64. `root` is the digest of
    /// the root's record.
    pub fn new(
        alloc: Global,
        depth: u8,
        record_len: usize,
        root: &[u8; 32],
    ) -> Result<TreeScan, AllocError>
        requires depth { depth ≤ 24 }
        requires len { 64 < record_len }
        ensures { IfOk result (λ scan. scan ≡ begun depth record_len root.now) }
    {
        let mut expected = VecDeque::new(alloc);
        match expected.push_back(Some(*root)) {
            Ok(()) => {}
            Err(_) => return Err(AllocError),
        }
        Ok(TreeScan {
            depth,
            record_len,
            node: 0,
            expected,
        })
    }

    /// Returns the number of the node whose record comes next. After the last record it is the number of the tree's nodes.
    pub fn node(&self) -> u64
        ensures { result ≡ self.now.node }
    {
        self.node
    }

    /// Returns whether the records of all nodes have come.
    pub fn is_done(&self) -> bool
        ensures { IsTrue result ↔ (node_count self.now.depth ≤ self.now.node) }
    {
        self.node >= (2 << self.depth) - 1
    }

    /// Returns whether a record is the one that was stored for the next node, where a record above it has told its digest.
    fn is_stored_next(&self, bytes: &[u8]) -> bool
        ensures stored { IsTrue result ↔ IsStoredNext self.now bytes.now }
        ensures long { IsTrue result → 64 < length bytes.now }
    {
        match self.expected.front() {
            Some(Some(digest)) => {
                bytes.len() == self.record_len && node_digest(bytes) == *digest
            }
            _ => false,
        }
    }

    /// Returns whether a record above the next one has told its digest.
    fn is_told(&self) -> bool
        ensures { IsTrue result ↔ (expected self.now ≡ None → ⊥) }
    {
        match self.expected.front() {
            Some(Some(_)) => true,
            _ => false,
        }
    }

    /// Goes on to the next node. These are the digests of the children's records, as far as they are known. They don't count if the
    /// node is a leaf.
    fn go_on(
        &mut self,
        left: Option<NodeDigest>,
        right: Option<NodeDigest>,
    ) -> Result<(), AllocError>
        requires { self.old.node < node_count self.old.depth }
        ensures ok { OnOk result (self.new ≡ after self.old left right) }
        ensures err { OnErr result (self.new ≡ self.old) }
    {
        let is_leaf = self.node >= (1 << self.depth) - 1;
        if !is_leaf {
            // One digest goes before two come.
            self.expected.reserve(1)?;
        }
        let _judged = self.expected.pop_front();
        self.node += 1;
        if !is_leaf {
            self.expected.push_back_reserved(left);
            self.expected.push_back_reserved(right);
        }
        Ok(())
    }

    /// Takes the record of the next node, and says whether it is the one that was stored. Hashes it once. If memory runs out, nothing
    /// changes.
    pub fn take(&mut self, bytes: &[u8]) -> Result<Finding, AllocError>
        requires { self.old.node < node_count self.old.depth }
        ensures ok { IfOk result (λ finding. IsFinding self.old bytes.now finding self.new) }
        ensures err { OnErr result (self.new ≡ self.old) }
    {
        if self.is_stored_next(bytes) {
            let (left, right) = digests_in(bytes);
            self.go_on(Some(left), Some(right))?;
            return Ok(Finding::Sound);
        }
        let finding = if self.is_told() {
            Finding::Changed
        } else {
            Finding::Unchecked
        };
        self.go_on(None, None)?;
        Ok(finding)
    }

    /// Passes over the next node, which has no record. If memory runs out, nothing changes.
    pub fn pass(&mut self) -> Result<(), AllocError>
        requires { self.old.node < node_count self.old.depth }
        ensures ok { OnOk result (self.new ≡ passed self.old) }
        ensures err { OnErr result (self.new ≡ self.old) }
    {
        self.go_on(None, None)
    }
}
