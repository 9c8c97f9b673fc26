//! A path as the host's answer contains it, and the check of its digests.
ghost use Rattle.std.specs.Prelude.{MatchResult, IsOk, ◌≡◌, ◌^◌, ◌<◌, ◌≤◌, ◌+◌, ◌-◌, ◌*◌, ◌↔◌, ◌⊎◌, ℕ, List, length, IsTrue, IfOk};
ghost use Rattle.oram_geometry.specs.Sizes.{trees_of, depth_of};
ghost use Rattle.oram_hash.specs.Path.{path_of, IsAccepted, IsTamperedAt, Path, HasLength, IsGenuine, digest_for, node_at, record_at, digests_at};
ghost use Rattle.oram_hash.specs.Record.{is_left_child, left_digest, right_digest, sealed_part};
ghost use Rattle.oram_hash.specs.Verdict.{IsFaultOf};
ghost use Rattle.oram_hash.specs.Tree.{Collides, IsPathOf, IsStored};

use crate::{DIGEST_LEN, DIGESTS_LEN, HashFault, node_digest};
use oram_geometry::Device;
use std::marker::Model;

/// The records of a path, root first.
///
/// It borrows the bytes that it was made from, and lends parts of them without copying.
#[derive(Debug, Drop)]
pub struct PathView<'a> {
    pub(crate) depth: u8,
    pub(crate) leaf: u32,
    pub(crate) record_len: usize,
    pub(crate) bytes: &'a [u8],
}

impl<'a> Model for PathView<'a> {
    ghost Value = { Path };

    ghost view = { λ v. record { depth = v.depth; leaf = v.leaf; record_len = v.record_len; bytes = v.bytes.now } };

    ghost invariant = { λ v. (v.leaf < 2 ^ v.depth) × (v.depth ≤ 24) × (64 < v.record_len) × (v.record_len ≤ 32960) × (length v.bytes.now ≡ (v.depth + 1) * v.record_len) };
}

impl<'a> PathView<'a> {
    /// Returns the record at `level`.
    fn record(&self, level: u8) -> &'a [u8]
        requires { level ≤ self.now.depth }
        ensures exact { result.now ≡ record_at self.now level }
        ensures len { length result.now ≡ self.now.record_len }
        ensures holds_digests { 64 < length result.now }
    {
        let start = level as usize * self.record_len;
        &self.bytes[start..start + self.record_len]
    }

    /// Returns the sealed bucket at `level`.
    pub fn sealed(&self, level: u8) -> &'a [u8]
        requires { level ≤ self.now.depth }
        ensures exact { result.now ≡ sealed_part (record_at self.now level) }
        ensures len { length result.now + 64 ≡ self.now.record_len }
    {
        let record = self.record(level);
        &record[..record.len() - DIGESTS_LEN]
    }

    /// Returns the digest of the left child of the path's node at `level`.
    pub fn left(&self, level: u8) -> &'a [u8]
        requires { level ≤ self.now.depth }
        ensures exact { result.now ≡ left_digest (record_at self.now level) }
        ensures len { length result.now ≡ 32 }
    {
        let record = self.record(level);
        &record[record.len() - DIGESTS_LEN..record.len() - DIGEST_LEN]
    }

    /// Returns the digest of the right child of the path's node at `level`.
    pub fn right(&self, level: u8) -> &'a [u8]
        requires { level ≤ self.now.depth }
        ensures exact { result.now ≡ right_digest (record_at self.now level) }
        ensures len { length result.now ≡ 32 }
    {
        let record = self.record(level);
        &record[record.len() - DIGEST_LEN..]
    }

    /// Returns the two digests that end the record at `level`, or zeros at the leaf's level.
    pub(crate) fn digests(&self, level: u8) -> &'a [u8]
        requires { level ≤ self.now.depth }
        ensures { result.now ≡ digests_at self.now level }
    {
        if level == self.depth {
            return &[0; DIGESTS_LEN];
        }
        let record = self.record(level);
        &record[record.len() - DIGESTS_LEN..]
    }

    /// Returns whether the path goes from its node at `level` to the left child.
    pub(crate) fn goes_left(&self, level: u8) -> bool
        requires { level < self.now.depth }
        ensures { result ≡ is_left_child (node_at self.now (level + 1)) }
    {
        (self.leaf >> (self.depth - level - 1)) % 2 == 0
    }

    /// Returns the digest that the record above `level` holds for the path's node at `level`.
    fn digest_above(&self, level: u8) -> &'a [u8]
        requires below_root { 0 < level }
        requires within { level ≤ self.now.depth }
        ensures { result.now ≡ digest_for (record_at self.now (level - 1)) (node_at self.now level) }
    {
        if self.goes_left(level - 1) {
            self.left(level - 1)
        } else {
            self.right(level - 1)
        }
    }

    /// Returns whether the record at `level` has its expected digest.
    fn is_genuine(&self, root: &[u8; 32], level: u8) -> bool
        requires { level ≤ self.now.depth }
        ensures { IsTrue result ↔ IsGenuine self.now root.now level }
    {
        let digest = node_digest(self.record(level));
        if level == 0 {
            digest == *root
        } else {
            digest.as_slice() == self.digest_above(level)
        }
    }
}

/// Takes `bytes` as the records of a path, root first, and checks them against the root digest.
///
/// Fails with `Length` if the number of bytes is wrong, and with `Tampered` at the first level, from the root on, whose
/// record doesn't have its expected digest.
#[tactic(auto, using(crate::proofs::Checks::accepted_matches, crate::proofs::Checks::tampered_matches))]
pub fn check_path<'a>(
    device: &Device,
    tree: u8,
    leaf: u32,
    overhead: usize,
    root: &[u8; 32],
    bytes: &'a [u8],
) -> Result<PathView<'a>, HashFault>
    requires tree { tree < trees_of device.now }
    requires leaf { leaf < 2 ^ depth_of device.now tree }
    requires overhead { overhead ≤ 64 }
    ensures view { IfOk result (λ v. v ≡ path_of device.now tree leaf overhead bytes.now) }

    ensures accepted { IsOk result ↔ IsAccepted (path_of device.now tree leaf overhead bytes.now) root.now }
    ensures length { (result ≡ Err HashFault.Length) ↔ (¬ HasLength (path_of device.now tree leaf overhead bytes.now)) }
    ensures tampered { (level : ℕ) → (result ≡ Err (HashFault.Tampered level)) ↔ IsTamperedAt (path_of device.now tree leaf overhead bytes.now) root.now level }

    // The verdict compared with the records of any stored tree that has this root digest.
    ensures judged { let p = path_of device.now tree leaf overhead bytes.now in
        (records : ℕ → List ℕ) → IsStored p.depth p.record_len root.now records
        → MatchResult result (λ _. IsPathOf records p) (IsFaultOf records p) ⊎ Collides records p }
{
    let depth = device.depth(tree);
    let record_len = device.record_len(overhead);
    if bytes.len() != (depth as usize + 1) * record_len {
        return Err(HashFault::Length);
    }
    let path = PathView {
        depth,
        leaf,
        record_len,
        bytes,
    };
    for level in 0..=depth {
        if !path.is_genuine(root, level) {
            return Err(HashFault::Tampered(level));
        }
    }
    Ok(path)
}
